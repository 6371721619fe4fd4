// The job that prints one line.
ghost use Rattle.std.specs.Prelude.{ℕ, Bool, Some};
ghost use Rattle.ssz_outside.specs.Content.{Content};
ghost use Rattle.ssz_outside.specs.Job.{Ends, CountsRun, IsFinished, IsThatOrStopped, line_job};

use crate::outside::{PutFault, Sink};
use crate::status::Status;

/// Prints a line by one put, and answers `ended` if it was printed: `WriteFault` where the put
/// failed, and `Memory` where the sink found none.
pub fn say_line<S: Sink>(line: &str, ended: Status, out: &mut S) -> Status
    requires finished { IsFinished ended }
    requires usable { S.usable out.old }
    // Whatever the files hold and whether they were read before, this is the job of that line: it
    // leaves the files alone.
    ensures ends { (held : Content) (reads : Bool)
        → Ends (S.ample out.old) result (line_job held reads line.now ended)
        (S.pieces out.old) (S.pieces out.new) (Some held) }
    ensures counts { (gets puts : ℕ) → CountsRun result gets gets puts puts
        (S.faults out.old) (S.faults out.new) }
    ensures status { IsThatOrStopped ended result }
{
    match out.put(line.as_bytes()) {
        Ok(()) => ended,
        Err(PutFault::Failed) => Status::WriteFault,
        Err(PutFault::Memory) => Status::Memory,
    }
}

// The replies of a run, and how each is printed.
ghost use Rattle.std.specs.Prelude.{◌≡◌, [], false, Err, IfErr, OnOk};
ghost use Rattle.ssz_outside.specs.Printed.{CountsPrint, IsStop, PrintsLine, finished_status};

use crate::outside::{PutFault, Sink};
use crate::status::Status;
use std::alloc::Global;

// The room that is kept from one reply to the next: that of a greater one is given back.
const KEPT: usize = 1 << 16;

/// The replies of a run, made one after another in the same buffer.
#[derive(Debug, Drop)]
pub struct Replies {
    /// The reply that is being made.
    pub text: Vec<u8>,
    /// Whether one of them refused its line.
    pub refused: bool,
}

impl Replies {
    /// No reply yet.
    pub fn new(alloc: Global) -> Self
        ensures text { result.text.items ≡ [] }
        ensures refused { result.refused ≡ false }
    {
        Replies {
            text: Vec::new(alloc),
            refused: false,
        }
    }

    /// Begins a reply, in a buffer that is empty.
    pub fn begin(&mut self)
        ensures text { self.new.text.items ≡ [] }
        ensures refused { self.new.refused ≡ self.old.refused }
    {
        self.text.clear();
        self.text.shrink_to(KEPT);
    }

    /// The status of a run that no fault ended.
    pub fn status(&self) -> Status
        ensures { result ≡ finished_status self.now.refused }
    {
        if self.refused {
            Status::Refused
        } else {
            Status::Accepted
        }
    }
}

/// Prints a line in one piece: `WriteFault` where the put failed, and `Memory` where the sink found
/// none, with nothing of it printed.
pub fn print_line<S: Sink>(line: &[u8], out: &mut S) -> Result<(), Status>
    requires usable { S.usable out.old }
    ensures pieces { PrintsLine result line.now (S.pieces out.old) (S.pieces out.new) }
    ensures counts { CountsPrint result (S.faults out.old) (S.faults out.new) }
    ensures memory { result ≡ Err Status.Memory → S.ample out.old ≡ false }
    ensures ample { S.ample out.new ≡ S.ample out.old }
    ensures usable { OnOk result (S.usable out.new) }
    ensures stops { IfErr result IsStop }
{
    match out.put(line) {
        Ok(()) => Ok(()),
        Err(PutFault::Failed) => Err(Status::WriteFault),
        Err(PutFault::Memory) => Err(Status::Memory),
    }
}

// What stands before the lines of replies.
ghost use Rattle.std.specs.Prelude.{◌≡◌, ◌++◌, OnOk};
ghost use Rattle.ssz_machine.specs.Plays.{line_prefix, mark};

use ssz_machine::Place;
use ssz_versions::Writer;
use std::alloc::AllocError;

/// The writer of the script that a weave begins with.
pub const BASE: Writer = Writer(255);

// Appends the mark of a writer's lines in a weave.
fn push_mark(writer: Writer, out: &mut Vec<u8>) -> Result<(), AllocError>
    ensures { OnOk result (out.new.items ≡ out.old.items ++ mark writer.0) }
{
    if writer == BASE {
        return out.extend_from_slice(b"base: ");
    }
    let number = writer.0.to_string(*out.allocator())?;
    out.extend_from_slice(number.as_bytes())?;
    out.extend_from_slice(b": ")
}

// Room for most replies, so that their buffer does not grow.
const ROOM: usize = 128;

/// Makes room for a reply, and appends what stands before it to a writer.
pub fn push_front(place: Place, writer: Writer, out: &mut Vec<u8>) -> Result<(), AllocError>
    ensures { OnOk result (out.new.items ≡ out.old.items ++ line_prefix place writer.0) }
{
    out.reserve(ROOM)?;
    match place {
        Place::Run => Ok(()),
        Place::Weave => push_mark(writer, out),
    }
}

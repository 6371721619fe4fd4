ghost use Rattle.std.specs.Prelude.{◌≡◌, length, IfOk};

use ssz_offsets::{OffsetWriter, read_offset};
use std::alloc::{AllocError, Global};
use std::test::Fail;

// The offsets 9 and 11, written once room is kept for both.
fn two_offsets(alloc: Global) -> Result<Vec<u8>, AllocError>
    ensures { IfOk result (λ out. length out.items ≡ 8) }
{
    let mut out = Vec::new(alloc);
    let mut writer = OffsetWriter::new(&mut out);
    let first = writer.reserve()?;
    let second = writer.reserve()?;
    writer.patch(second, 11);
    writer.patch(first, 9);
    Ok(out)
}

// The two offsets of `09000000010b00000001020d`, patched once the variable parts are known.
#[test]
fn writes_two_offsets(rt: HostRuntime) -> Result<(), Fail> {
    let out = two_offsets(rt.alloc())?;
    assert!(rt; out.as_slice() == [9, 0, 0, 0, 11, 0, 0, 0].as_slice());
    assert!(rt; read_offset(&out.as_slice()[4..8]) == 11);
    Ok(())
}

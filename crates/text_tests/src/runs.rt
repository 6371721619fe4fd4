use ssz_bytes::{BitRun, ByteRun};
use std::alloc::{AllocError, Global};
use std::test::Fail;

fn keeps_bytes(alloc: Global, bytes: &[u8]) -> Result<bool, AllocError> {
    Ok(ByteRun::copy_of(alloc, bytes)?.as_slice() == bytes)
}

fn keeps_bits(alloc: Global, bits: &[bool]) -> Result<bool, AllocError> {
    Ok(BitRun::copy_of(alloc, bits)?.as_slice() == bits)
}

#[test]
fn runs_are_copied(rt: HostRuntime) -> Result<(), Fail> {
    assert!(rt; keeps_bytes(rt.alloc(), b"ab")?);
    assert!(rt; keeps_bits(rt.alloc(), &[true, false])?);
    Ok(())
}

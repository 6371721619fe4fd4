// What a schema is asked about bytes.
use super::given::{TYPES, ZEROS};
use ssz_said::{SszFault, SszIndex, judge, status};
use ssz_typed::{CheckedBytes, Library, SszStretch, calls, texts};
use std::alloc::Global;
use std::test::Fail;

// The text of P with a of 7, and its bytes.
const TEXT: &[u8] = b"{\"a\":\"7\",\"b\":\"0\"}";

const SEVEN: [u8; 16] = [7, 0, 0, 0, 0, 0, 0, 0, 0, 0, 0, 0, 0, 0, 0, 0];

// The fault of a byte behind the value of P.
const ONE_MORE: SszFault = SszFault {
    status: status::INVALID,
    code: 2,
    position: 16,
};

fn is_judged(library: &Library, number: u64) -> bool {
    match calls::checked(library, number, &[0; 17]) {
        Ok(_) => false,
        Err(fault) => fault == ONE_MORE,
    }
}

fn is_hashed(library: &Library, number: u64) -> bool {
    match calls::root(library, number, &[0; 16]) {
        Ok(root) => root == ZEROS,
        Err(_) => false,
    }
}

#[test]
fn bytes_are_judged(rt: HostRuntime) -> Result<(), Fail> {
    let mut library = Library::read(rt.alloc(), TYPES)?;
    let p = library.number_of(b"P")?;
    assert!(rt; is_judged(&library, p));
    assert!(rt; is_hashed(&library, p));
    Ok(())
}

// Whether b of P is at 3.
fn is_placed(alloc: Global, library: &Library, number: u64) -> bool {
    match calls::gindex(alloc, library, number, b"/b") {
        Ok(index) => index == SszIndex { low: 3, high: 0 },
        Err(_) => false,
    }
}

// Whether b of P has the last eight bytes.
fn is_part(alloc: Global, library: &Library, number: u64) -> bool {
    let bytes = [0, 0, 0, 0, 0, 0, 0, 0, 1, 2, 3, 4, 5, 6, 7, 8];
    match calls::part(alloc, library, number, &bytes, b"/b") {
        Ok(part) => part.as_slice() == &bytes[8..],
        Err(_) => false,
    }
}

#[test]
fn parts_are_found(rt: HostRuntime) -> Result<(), Fail> {
    let mut library = Library::read(rt.alloc(), TYPES)?;
    let p = library.number_of(b"P")?;
    assert!(rt; is_placed(rt.alloc(), &library, p));
    assert!(rt; is_part(rt.alloc(), &library, p));
    assert!(rt; judge(rt.alloc(), &ZEROS, b"proof /\n").status() == status::BAD_PROOF);
    Ok(())
}

// Whether the text gives the bytes.
fn is_read(alloc: Global, library: &Library, number: u64) -> bool {
    match texts::encoding(alloc, library, number, TEXT) {
        Ok(bytes) => bytes.as_slice() == SEVEN.as_slice(),
        Err(_) => false,
    }
}

// Whether the bytes give the text.
fn is_spelled(alloc: Global, library: &Library, number: u64) -> bool {
    match texts::text(alloc, library, number, &SEVEN) {
        Ok(text) => text.as_slice() == TEXT,
        Err(_) => false,
    }
}

// Whether the default is all zeros.
fn is_filled(alloc: Global, library: &Library, number: u64) -> bool {
    match texts::default(alloc, library, number) {
        Ok(bytes) => bytes.as_slice() == [0; 16].as_slice(),
        Err(_) => false,
    }
}

// Whether b stands in the last eight bytes.
fn stands_last(alloc: Global, library: &Library, number: u64) -> bool {
    match calls::place(alloc, library, number, &SEVEN, b"/b") {
        Ok(place) => place == SszStretch { start: 8, len: 8 },
        Err(_) => false,
    }
}

#[test]
fn texts_and_bytes_are_one(rt: HostRuntime) -> Result<(), Fail> {
    let mut library = Library::read(rt.alloc(), TYPES)?;
    let p = library.number_of(b"P")?;
    assert!(rt; is_read(rt.alloc(), &library, p));
    assert!(rt; is_spelled(rt.alloc(), &library, p));
    assert!(rt; is_filled(rt.alloc(), &library, p));
    assert!(rt; stands_last(rt.alloc(), &library, p));
    Ok(())
}

// Whether a schema that is shared still answers once the other is given up, by the same numbers.
#[test]
fn a_schema_is_shared(rt: HostRuntime) -> Result<(), Fail> {
    let mut library = Library::read(rt.alloc(), TYPES)?;
    let p = library.number_of(b"P")?;
    let shared = library.share(rt.alloc())?;
    drop(library);
    assert!(rt; is_hashed(&shared, p));
    Ok(())
}

// Whether b of P is found in the bytes.
fn has_b(alloc: Global, slice: &CheckedBytes) -> bool {
    match slice.part(alloc, b"/b") {
        Ok(part) => part.as_slice() == [0; 8].as_slice(),
        Err(_) => false,
    }
}

fn has_b_last(alloc: Global, slice: &CheckedBytes) -> bool {
    match slice.place(alloc, b"/b") {
        Ok(place) => place == SszStretch { start: 8, len: 8 },
        Err(_) => false,
    }
}

#[test]
fn a_slice_stands_without_its_schema(rt: HostRuntime) -> Result<(), Fail> {
    let mut library = Library::read(rt.alloc(), TYPES)?;
    let p = library.number_of(b"P")?;
    let slice = CheckedBytes::open(rt.alloc(), &library, p, &SEVEN)?;
    drop(library);
    assert!(rt; has_b(rt.alloc(), &slice));
    assert!(rt; has_b_last(rt.alloc(), &slice));
    Ok(())
}

// Whether a slice of a byte too many is refused.
fn is_refused(alloc: Global, library: &Library, number: u64) -> bool {
    match CheckedBytes::open(alloc, library, number, &[0; 17]) {
        Ok(_) => false,
        Err(fault) => fault == ONE_MORE,
    }
}

#[test]
fn a_slice_is_of_no_other_bytes(rt: HostRuntime) -> Result<(), Fail> {
    let mut library = Library::read(rt.alloc(), TYPES)?;
    let p = library.number_of(b"P")?;
    assert!(rt; is_refused(rt.alloc(), &library, p));
    Ok(())
}

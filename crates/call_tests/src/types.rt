// What a schema is asked about its types.
use super::given::{FORMS, TYPES};
use ssz_said::{SszFault, status};
use ssz_typed::{Library, calls, forms, names, naming_fields};
use std::alloc::Global;
use std::test::Fail;

// The form, the limit and the parts of a type; zeros where it has none.
fn shape(library: &Library, number: u64) -> (u32, u64, u64) {
    let form = forms::form(library, number).unwrap_or(0);
    let limit = forms::limit(library, number).unwrap_or(0);
    let parts = forms::parts(library, number).unwrap_or(0);
    (form, limit, parts)
}

// The number of the type of a name.
fn named(library: &mut Library, name: &[u8]) -> u64 {
    library.number_of(name).unwrap_or(99)
}

// The number of a part of a type.
fn part_of(library: &mut Library, number: u64, place: u64) -> u64 {
    library.number_of_part(number, place).unwrap_or(99)
}

// Whether a type has no part at a place.
fn lacks(library: &mut Library, number: u64, place: u64) -> bool {
    match library.number_of_part(number, place) {
        Ok(_) => false,
        Err(fault) => fault == SszFault::of(status::ABSENT),
    }
}

// Whether the elements of L are numbers.
fn is_list(library: &mut Library) -> bool {
    let list = named(library, b"L");
    let element = part_of(library, list, 0);
    shape(library, list) == (5, 4, 1)
        && shape(library, element) == (2, 0, 0)
        && element == named(library, b"uint64")
        && lacks(library, list, 1)
}

// Whether the option of U is a byte, and its first option no type.
fn is_union(library: &mut Library) -> bool {
    let union = named(library, b"U");
    let option = part_of(library, union, 1);
    shape(library, union) == (8, 0, 2)
        && option == named(library, b"byte")
        && lacks(library, union, 0)
}

#[test]
fn types_are_told(rt: HostRuntime) -> Result<(), Fail> {
    let mut library = Library::read(rt.alloc(), FORMS)?;
    assert!(rt; is_list(&mut library));
    assert!(rt; is_union(&mut library));
    Ok(())
}

// Whether the second field of P is b.
fn has_b(library: &Library, number: u64) -> bool {
    match naming_fields::field(library, number, 1) {
        Ok(name) => name == b"b".as_slice(),
        Err(_) => false,
    }
}

#[test]
fn a_type_is_shown(rt: HostRuntime) -> Result<(), Fail> {
    let mut library = Library::read(rt.alloc(), TYPES)?;
    let p = library.number_of(b"P")?;
    assert!(rt; calls::size(&library, p)? == 16);
    assert!(rt; naming_fields::fields(&library, p)? == 2);
    assert!(rt; has_b(&library, p));
    Ok(())
}

// Whether the names are P and the eight that are built in.
fn is_named(alloc: Global, library: &Library) -> bool {
    let all = b"P\nboolean\nbyte\nuint128\nuint16\nuint256\nuint32\nuint64\nuint8\n";
    match names::names(alloc, library) {
        Ok(names) => names.as_slice() == all.as_slice(),
        Err(_) => false,
    }
}

// Whether the first number is that of P.
fn is_first(library: &Library) -> bool {
    match names::type_name(library, 0) {
        Ok(name) => name == b"P".as_slice(),
        Err(_) => false,
    }
}

#[test]
fn names_are_told(rt: HostRuntime) -> Result<(), Fail> {
    let mut library = Library::read(rt.alloc(), TYPES)?;
    let _number = library.number_of(b"P")?;
    assert!(rt; is_named(rt.alloc(), &library));
    assert!(rt; library.found.len() == 1);
    assert!(rt; is_first(&library));
    Ok(())
}

//! Each call once; the other rows are those of `text_rows`, and indices of the consensus layer's
//! types those of `program_rows`.
use super::types::schema;
use ssz_gindex::{Gindex, are_helpers, helper_indices};
use ssz_schema::{PathStep, Schema};
use std::alloc::Global;
use std::test::Fail;

// The index of an element of the type of this name.
fn index_of(schema: &Schema, name: &str, element: u64) -> Option<u128> {
    let id = schema.find(name)?;
    let index = Gindex::of_path(schema, id, &[PathStep::Index(element)])?;
    Some(index.get())
}

#[test]
fn path_in_a_vector(rt: HostRuntime) -> Result<(), Fail> {
    let schema = schema(rt.alloc())?;
    assert!(rt; index_of(&schema, "Eight", 4) == Some(3));
    Ok(())
}

// How many helpers the index has, and whether they are known as those.
fn helpers_of(alloc: Global, index: Gindex) -> Result<(usize, bool), Fail> {
    let indices = [index];
    let helpers = helper_indices(alloc, &indices)?;
    let known = are_helpers(alloc, &indices, helpers.as_slice())?;
    Ok((helpers.len(), known))
}

#[test]
fn helpers_of_an_index(rt: HostRuntime) -> Result<(), Fail> {
    let index = Gindex::new(9).ok_or("an index of 0")?;
    assert!(rt; helpers_of(rt.alloc(), index)? == (3, true));
    Ok(())
}

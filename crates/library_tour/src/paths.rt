// Paths to fields and to their elements.
use ssz_schema::{Name, PathStep};
use std::alloc::{AllocError, Global};

/// The path to a field.
pub fn to_field(alloc: Global, name: &str) -> Result<Vec<PathStep>, AllocError> {
    let mut path = Vec::new(alloc);
    path.push(PathStep::Field(Name::copy_of(alloc, name.as_bytes())?))?;
    Ok(path)
}

/// The path to an element of a field.
pub fn to_element(alloc: Global, name: &str, element: u64) -> Result<Vec<PathStep>, AllocError> {
    let mut path = to_field(alloc, name)?;
    path.push(PathStep::Index(element))?;
    Ok(path)
}

/// The path to the length of a field.
pub fn to_length(alloc: Global, name: &str) -> Result<Vec<PathStep>, AllocError> {
    let mut path = to_field(alloc, name)?;
    path.push(PathStep::Len)?;
    Ok(path)
}

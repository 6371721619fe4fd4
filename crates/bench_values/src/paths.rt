// Paths to elements of a list and to their fields, and which elements come one after another.
ghost use Rattle.std.specs.Prelude.{◌<◌};

use ssz_schema::{Name, PathStep};
use std::alloc::{AllocError, Global};

/// Lets the path go on to the field of this name.
pub fn push_field(path: &mut Vec<PathStep>, name: &str) -> Result<(), AllocError> {
    let name = Name::copy_of(*path.allocator(), name.as_bytes())?;
    path.push(PathStep::Field(name))?;
    Ok(())
}

/// Lets the path go on to the first element.
pub fn push_element(path: &mut Vec<PathStep>) -> Result<(), AllocError> {
    path.push(PathStep::Index(0))?;
    Ok(())
}

// Lets the path go on to the element of this number, or to the field of this name.
fn push_step(path: &mut Vec<PathStep>, word: &str) -> Result<(), AllocError> {
    match word.parse() {
        Ok(number) => {
            path.push(PathStep::Index(number))?;
            Ok(())
        }
        Err(_) => push_field(path, word),
    }
}

/// The path of a text: a slash before each step, which is a number or a field's name.
pub fn path_of(alloc: Global, text: &str) -> Result<Vec<PathStep>, AllocError> {
    let mut path = Vec::new(alloc);
    for word in text.split('/').skip(1) {
        push_step(&mut path, word)?;
    }
    Ok(path)
}

/// The path to this field of the first element.
pub fn element_field(alloc: Global, name: &str) -> Result<Vec<PathStep>, AllocError> {
    let mut path = Vec::new(alloc);
    push_element(&mut path)?;
    push_field(&mut path, name)?;
    Ok(path)
}

/// Lets the step at this place of a path lead to this element.
pub fn aim(path: &mut Vec<PathStep>, place: usize, element: u64) {
    if let Some(step) = path.get_mut(place) {
        *step = PathStep::Index(element);
    }
}

/// The i-th of elements all over a list: from one to the next are 7,919 others.
pub fn nth_element(i: u32, len: u64) -> u64
    requires { 0 < len }
{
    u64::from(i) * 7919 % len
}

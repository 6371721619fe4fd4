// Generalized indices of paths, and helper indices.
use anyhow::{Context, Result, bail};
use row_parts::{path_of, type_named};
use ssz_decimal::number;
use ssz_gindex::{Gindex, HelperFault, are_helpers, helper_indices};
use ssz_schema::Schema;
use std::alloc::Global;

/// Prints the generalized index of a path.
pub fn print_index(rt: &HostRuntime, schema: &Schema, name: &str, path: &str) -> Result<()> {
    let id = type_named(schema, name)?;
    let steps = path_of(rt.alloc(), path)?;
    let index = Gindex::of_path(schema, id, steps.as_slice());
    drop(steps);
    match index {
        Some(index) => println!(rt; "{}", index.get())?,
        None => println!(rt; "does not fit")?,
    }
    Ok(())
}

// The indices of a list of decimal numbers, parted by spaces.
fn indices_of(alloc: Global, numbers: &str) -> Result<Vec<Gindex>> {
    let mut indices = Vec::new(alloc);
    for word in numbers.split(' ') {
        let index = number(word.as_bytes()).and_then(Gindex::new);
        indices.push(index.context("an index")?)?;
    }
    Ok(indices)
}

fn print_fault(rt: &HostRuntime, fault: HelperFault) -> Result<()> {
    match fault {
        HelperFault::Nested(upper, lower) => {
            println!(rt; "nested {} {}", upper.get(), lower.get())?;
            Ok(())
        }
        HelperFault::Memory => bail!("want of memory"),
    }
}

// Prints helper indices, which the other call has to take for those of the indices.
fn print_list(rt: &HostRuntime, indices: &[Gindex], helpers: &[Gindex]) -> Result<()> {
    if !are_helpers(rt.alloc(), indices, helpers)? {
        bail!("the calls differ");
    }
    print!(rt; "helpers")?;
    for helper in helpers {
        print!(rt; " {}", helper.get())?;
    }
    println!(rt)?;
    Ok(())
}

/// Prints the helper indices of some indices, or which two are nested.
pub fn print_helpers(rt: &HostRuntime, numbers: &str) -> Result<()> {
    let indices = indices_of(rt.alloc(), numbers)?;
    match helper_indices(rt.alloc(), indices.as_slice()) {
        Ok(helpers) => print_list(rt, indices.as_slice(), helpers.as_slice()),
        Err(fault) => print_fault(rt, fault),
    }
}

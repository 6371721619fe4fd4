// What the reading calls of a schema answer.
use anyhow::Result;
use row_parts::{path_of, type_named};
use ssz_schema::{Schema, TypeId};

// The names that every schema has; byte is uint8.
const BASIC_TYPES: [&str; 7] = [
    "boolean", "uint8", "uint16", "uint32", "uint64", "uint128", "uint256",
];

/// Prints the size, the default's length, the chunk count, the depth and the levels of a type.
pub fn print_facts(rt: &HostRuntime, schema: &Schema, name: &str) -> Result<()> {
    let Some(id) = schema.find(name) else {
        println!(rt; "no type")?;
        return Ok(());
    };
    match schema.fixed_size(id) {
        Some(size) => print!(rt; "size {size}")?,
        None => print!(rt; "variable")?,
    }
    let default = schema.default_len(id);
    let chunks = schema.chunk_count(id);
    let depth = schema.depth(id);
    let levels = schema.levels(id);
    println!(rt; " default {default} chunks {chunks} depth {depth} levels {levels}")?;
    Ok(())
}

// The name of a basic type.
fn basic_name(schema: &Schema, id: TypeId) -> &'static str {
    for name in BASIC_TYPES {
        if schema.find(name) == Some(id) {
            return name;
        }
    }
    "composite"
}

/// Prints the type of the part at a path.
pub fn print_part(rt: &HostRuntime, schema: &Schema, name: &str, path: &str) -> Result<()> {
    let id = type_named(schema, name)?;
    let steps = path_of(rt.alloc(), path)?;
    let part = schema.path_type(id, steps.as_slice());
    drop(steps);
    match part {
        Some(part) => println!(rt; "{}", basic_name(schema, part))?,
        None => println!(rt; "does not fit")?,
    }
    Ok(())
}

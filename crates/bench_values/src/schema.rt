// Reads a schema file: SCHEMA.
use anyhow::{Result, bail};
use ssz_schema_json::read_schema;
use std::fs;

const USAGE: &str = "usage: bench schema SCHEMA";

/// Reads the schema, and says what comes of it.
pub fn run(rt: &HostRuntime, words: &[String]) -> Result<()> {
    let [path] = words else {
        bail!(USAGE);
    };
    let bytes = fs::read(rt, path)?;
    match read_schema(rt.alloc(), bytes.as_slice()) {
        Ok(schema) => {
            drop(schema);
            println!(rt; "accepted")?;
        }
        Err(fault) => println!(rt; "{fault:?}")?,
    }
    Ok(())
}

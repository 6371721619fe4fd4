// The files of a table.
use anyhow::{Result, bail};
use ssz_schema::Schema;
use ssz_schema_json::read_schema;
use std::fs;

/// A table of rows about the types of a schema.
#[derive(Drop)]
pub struct Table {
    pub schema: Schema,
    pub rows: String,
}

/// The table of a subject: its rows stand in a text file, and the schema in a JSON file.
pub fn read_table(rt: &HostRuntime, schema: &str, rows: &str) -> Result<Table> {
    let rows = read_rows(rt, rows)?;
    let schema = read_schema_file(rt, schema)?;
    Ok(Table { schema, rows })
}

/// The rows of a file.
pub fn read_rows(rt: &HostRuntime, file: &str) -> Result<String> {
    Ok(fs::read_to_string(rt, file)?)
}

/// The types of a schema file.
pub fn read_schema_file(rt: &HostRuntime, file: &str) -> Result<Schema> {
    let text = fs::read(rt, file)?;
    match read_schema(rt.alloc(), text.as_slice()) {
        Ok(schema) => Ok(schema),
        Err(_) => bail!("no schema"),
    }
}

//! Each kind of answer once. The rows of text_rows have the other documents.
use ssz_schema::SchemaFault;
use ssz_schema_json::{SchemaRead, read_schema};
use std::alloc::Global;
use std::test::Fail;

#[test]
fn reads_a_schema(rt: HostRuntime) -> Result<(), Fail> {
    let text = br#"{"ssz":1,"types":[["P",{"container":[["a","uint64"],["b","uint64"]]}]]}"#;
    let schema = read_schema(rt.alloc(), text)?;
    let p = schema.find("P").ok_or("no P")?;
    assert!(rt; schema.fixed_size(p) == Some(16));
    Ok(())
}

// Why the bytes give no schema.
fn refusal(alloc: Global, text: &[u8]) -> Option<SchemaRead> {
    read_schema(alloc, text).err()
}

#[test]
fn refuses_what_is_no_text(rt: HostRuntime) {
    assert!(rt; refusal(rt.alloc(), b"\"\xff\"") == Some(SchemaRead::NotJson));
}

#[test]
fn refuses_what_is_no_document(rt: HostRuntime) {
    let refused = refusal(rt.alloc(), br#"{"ssz":1.0,"types":[]}"#);
    assert!(rt; refused == Some(SchemaRead::Shape));
}

#[test]
fn names_the_definition(rt: HostRuntime) {
    let refused = refusal(rt.alloc(), br#"{"ssz":1,"types":[["T","byte"],["T","V"]]}"#);
    let (number, fault) = (1, SchemaFault::NameTaken);
    assert!(rt; refused == Some(SchemaRead::Def { number, fault }));
}

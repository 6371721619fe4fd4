// Statements as text: the variant, and each of its parts with what it is.
use super::spelled::{push_bytes, push_file, push_index, push_name, push_number, push_path};
use ssz_bytes::ByteRun;
use ssz_script::{FileName, Identifier, Index, PartialStatement, Statement, Steps};
use std::alloc::AllocError;

fn push_one(out: &mut Vec<u8>, variant: &[u8], name: &Identifier) -> Result<(), AllocError> {
    out.extend_from_slice(variant)?;
    push_name(out, name)
}

fn push_two(
    out: &mut Vec<u8>,
    variant: &[u8],
    name: &Identifier,
    other: &Identifier,
) -> Result<(), AllocError> {
    push_one(out, variant, name)?;
    push_name(out, other)
}

fn push_place(
    out: &mut Vec<u8>,
    variant: &[u8],
    name: &Identifier,
    path: &Steps,
) -> Result<(), AllocError> {
    push_one(out, variant, name)?;
    push_path(out, path)
}

fn push_edit(
    out: &mut Vec<u8>,
    variant: &[u8],
    name: &Identifier,
    path: &Steps,
    bytes: &ByteRun,
) -> Result<(), AllocError> {
    push_place(out, variant, name, path)?;
    push_bytes(out, bytes)
}

fn push_from(
    out: &mut Vec<u8>,
    variant: &[u8],
    name: &Identifier,
    type_name: &Identifier,
    file: &FileName,
) -> Result<(), AllocError> {
    push_two(out, variant, name, type_name)?;
    push_file(out, file)
}

fn push_lit(
    out: &mut Vec<u8>,
    name: &Identifier,
    type_name: &Identifier,
    bytes: &ByteRun,
) -> Result<(), AllocError> {
    push_two(out, b"Lit", name, type_name)?;
    push_bytes(out, bytes)
}

fn push_save(out: &mut Vec<u8>, name: &Identifier, file: &FileName) -> Result<(), AllocError> {
    push_one(out, b"Save", name)?;
    push_file(out, file)
}

fn push_upgrade(
    out: &mut Vec<u8>,
    name: &Identifier,
    other: &Identifier,
    type_name: &Identifier,
) -> Result<(), AllocError> {
    push_two(out, b"Upgrade", name, other)?;
    push_name(out, type_name)
}

fn push_choose(
    out: &mut Vec<u8>,
    name: &Identifier,
    path: &Steps,
    selector: u8,
    bytes: Option<&ByteRun>,
) -> Result<(), AllocError> {
    push_place(out, b"Choose", name, path)?;
    out.extend_from_slice(b" selector ")?;
    push_number(out, u128::from(selector))?;
    match bytes {
        None => Ok(()),
        Some(bytes) => push_bytes(out, bytes),
    }
}

fn push_prove(out: &mut Vec<u8>, name: &Identifier, indices: &[Index]) -> Result<(), AllocError> {
    push_one(out, b"Prove", name)?;
    for index in indices {
        push_index(out, index)?;
    }
    Ok(())
}

/// Appends the statement.
pub fn push_statement(out: &mut Vec<u8>, statement: &Statement) -> Result<(), AllocError> {
    match statement {
        Statement::New(v, t) => push_two(out, b"New", v, t),
        Statement::Lit(v, t, bytes) => push_lit(out, v, t, bytes),
        Statement::Load(v, t, file) => push_from(out, b"Load", v, t, file),
        Statement::Fork(v, w) => push_two(out, b"Fork", v, w),
        Statement::Drop(v) => push_one(out, b"Drop", v),
        Statement::List => out.extend_from_slice(b"List"),
        Statement::Set(v, path, bytes) => push_edit(out, b"Set", v, path, bytes),
        Statement::Append(v, path, bytes) => push_edit(out, b"Append", v, path, bytes),
        Statement::Pop(v, path) => push_place(out, b"Pop", v, path),
        Statement::Choose(v, path, selector, bytes) => push_choose(
            out,
            v,
            path,
            *selector,
            bytes.as_ref(),
        ),
        Statement::Root(v) => push_one(out, b"Root", v),
        Statement::Bytes(v, path) => push_place(out, b"Bytes", v, path),
        Statement::Len(v, path) => push_place(out, b"Len", v, path),
        Statement::Save(v, file) => push_save(out, v, file),
        Statement::Gindex(t, path) => push_place(out, b"Gindex", t, path),
        Statement::Prove(v, indices) => push_prove(out, v, indices.as_slice()),
        Statement::Hashes => out.extend_from_slice(b"Hashes"),
        Statement::Upgrade(v, w, t) => push_upgrade(out, v, w, t),
        Statement::Json(v, path) => push_place(out, b"Json", v, path),
        Statement::LoadJson(v, t, file) => push_from(out, b"LoadJson", v, t, file),
        Statement::Compact => out.extend_from_slice(b"Compact"),
    }
}

/// Appends the statement for a partial tree.
pub fn push_partial(out: &mut Vec<u8>, statement: &PartialStatement) -> Result<(), AllocError> {
    match statement {
        PartialStatement::Get(path) => {
            out.extend_from_slice(b"Get")?;
            push_path(out, path)
        }
        PartialStatement::Set(path, bytes) => {
            out.extend_from_slice(b"Set")?;
            push_path(out, path)?;
            push_bytes(out, bytes)
        }
        PartialStatement::Root => out.extend_from_slice(b"Root"),
    }
}

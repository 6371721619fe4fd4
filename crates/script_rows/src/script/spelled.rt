// The words of statements as text.
use ssz_bytes::ByteRun;
use ssz_schema::PathStep;
use ssz_script::{FileName, Identifier, Index, Steps};
use std::alloc::AllocError;

/// Appends a decimal number.
pub fn push_number(out: &mut Vec<u8>, number: u128) -> Result<(), AllocError> {
    let text = format!(in *out.allocator(); "{number}")?;
    out.extend_from_slice(text.as_bytes())
}

/// Appends ` name` and the name.
pub fn push_name(out: &mut Vec<u8>, name: &Identifier) -> Result<(), AllocError> {
    out.extend_from_slice(b" name ")?;
    out.extend_from_slice(name.as_name().as_bytes())
}

/// Appends ` file` and the name of the file.
pub fn push_file(out: &mut Vec<u8>, file: &FileName) -> Result<(), AllocError> {
    out.extend_from_slice(b" file ")?;
    out.extend_from_slice(file.as_str().as_bytes())
}

/// Appends ` bytes 0x` and the bytes in hexadecimal.
pub fn push_bytes(out: &mut Vec<u8>, bytes: &ByteRun) -> Result<(), AllocError> {
    let digits = hex::encode(*out.allocator(), bytes.as_slice())?;
    out.extend_from_slice(b" bytes 0x")?;
    out.extend_from_slice(digits.as_bytes())
}

fn push_step(out: &mut Vec<u8>, step: &PathStep) -> Result<(), AllocError> {
    match step {
        PathStep::Field(name) => {
            out.extend_from_slice(b" field ")?;
            out.extend_from_slice(name.as_bytes())
        }
        PathStep::Index(number) => {
            out.extend_from_slice(b" element ")?;
            push_number(out, u128::from(*number))
        }
        PathStep::Len => out.extend_from_slice(b" length"),
        PathStep::Selector => out.extend_from_slice(b" selector"),
        PathStep::Option(number) => {
            out.extend_from_slice(b" option ")?;
            push_number(out, u128::from(*number))
        }
    }
}

fn push_steps(out: &mut Vec<u8>, steps: &[PathStep]) -> Result<(), AllocError> {
    for step in steps {
        push_step(out, step)?;
    }
    Ok(())
}

/// Appends ` path` and the steps in brackets.
pub fn push_path(out: &mut Vec<u8>, path: &Steps) -> Result<(), AllocError> {
    out.extend_from_slice(b" path (")?;
    let steps = path.to_vec(*out.allocator())?;
    let pushed = push_steps(out, steps.as_slice());
    drop(steps);
    pushed?;
    out.extend_from_slice(b" )")
}

/// Appends ` index` and the number, or the path.
pub fn push_index(out: &mut Vec<u8>, index: &Index) -> Result<(), AllocError> {
    match index {
        Index::Number(number) => {
            out.extend_from_slice(b" index ")?;
            push_number(out, *number)
        }
        Index::Path(path) => push_path(out, path),
    }
}

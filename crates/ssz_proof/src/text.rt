ghost use Rattle.std.specs.Prelude.{◌≡◌, ◌++◌, IfOk, OnOk};
ghost use Rattle.ssz_proof.specs.Text.{entries_text, entry_text, multiproof_text};

use crate::entry::Entry;
use crate::proof::Proof;
use std::alloc::{AllocError, Global};

/// The text of a proof, which `read_proof` reads: leaves in ascending order of index, nodes in
/// descending order, digits in lower case, and a line feed.
pub fn proof_text(alloc: Global, proof: &Proof) -> Result<Vec<u8>, AllocError>
    ensures { IfOk result (λ text. text.items ≡ multiproof_text proof.now) }
{
    let mut text = Vec::new(alloc);
    text.extend_from_slice(b"proof")?;
    push_entries(&mut text, proof.leaves())?;
    text.extend_from_slice(b" /")?;
    push_entries(&mut text, proof.nodes())?;
    text.extend_from_slice(b"\n")?;
    Ok(text)
}

fn push_entries(text: &mut Vec<u8>, entries: &[Entry]) -> Result<(), AllocError>
    ensures { OnOk result (text.new.items ≡ text.old.items ++ entries_text entries.now) }
{
    for entry in entries {
        push_entry(text, entry)?;
    }
    Ok(())
}

fn push_entry(text: &mut Vec<u8>, entry: &Entry) -> Result<(), AllocError>
    ensures { OnOk result (text.new.items ≡ text.old.items ++ entry_text entry.now) }
{
    let index = entry.index.get().to_string(*text.allocator())?;
    let digits = hex::encode(*text.allocator(), entry.chunk.0.as_slice())?;
    text.extend_from_slice(b" ")?;
    text.extend_from_slice(index.as_bytes())?;
    text.extend_from_slice(b"=0x")?;
    text.extend_from_slice(digits.as_bytes())
}

ghost use Rattle.std.specs.Prelude.{◌≡◌, IfOk, option_map};
ghost use Rattle.ssz_proof.specs.declared.fault.ProofFault.TheVariants.{BadProof};
ghost use Rattle.ssz_proof.specs.Multiproof.{IsMultiproof, IsProofOf};
ghost use Rattle.ssz_proof.specs.Text.{chunk_of_hex, entries_of_words, entry_of, index_of, line_without_feed, lists_of, IsReadAs, IsRefused};

use crate::entry::Entry;
use crate::fault::ProofFault;
use crate::proof::Proof;
use crate::words::{Words, split_once};
use ssz_chunk::Chunk;
use ssz_decimal::number;
use ssz_gindex::Gindex;
use std::alloc::Global;

/// Reads the text of a proof: one line of words with one space between them, `proof`, the leaves
/// in any order, `/` and the nodes, each leaf and node as `INDEX=0xHEX`, with a line feed at its
/// end or without.
///
/// BadProof where it is not such a line, or `Proof::new` refuses the lists.
pub fn read_proof(alloc: Global, text: &[u8]) -> Result<Proof, ProofFault>
    ensures ok { IfOk result (IsReadAs text.now) }
    ensures bad { result ≡ Err BadProof → IsRefused text.now }
{
    let mut words = Words::new(line(text));
    if words.next() != Some(b"proof".as_slice()) {
        return Err(ProofFault::BadProof);
    }
    let leaves = read_leaves(alloc, &mut words)?;
    let nodes = read_nodes(alloc, &mut words)?;
    Proof::of_lists(alloc, leaves, nodes)
}

// The text without one line feed at its end.
fn line(text: &[u8]) -> &[u8]
    ensures { result.now ≡ line_without_feed text.now }
{
    match text.split_last() {
        Some((last, line)) if *last == b'\n' => line,
        _ => text,
    }
}

// Reads the words before `/`, and takes that too.
fn read_leaves(alloc: Global, words: &mut Words<'_>) -> Result<Vec<Entry>, ProofFault>
    ensures ok { IfOk result (λ leaves. lists_of words.old
        ≡ option_map (λ nodes. record { leaves = leaves.items; nodes = nodes })
        (entries_of_words words.new)) }
    ensures bad { result ≡ Err BadProof → lists_of words.old ≡ None }
{
    let mut leaves = Vec::new(alloc);
    while let Some(word) = words.next() {
        if word == b"/".as_slice() {
            return Ok(leaves);
        }
        leaves.push(read_entry(word).ok_or(ProofFault::BadProof)?)?;
    }
    Err(ProofFault::BadProof)
}

// Reads the words that are left.
fn read_nodes(alloc: Global, words: &mut Words<'_>) -> Result<Vec<Entry>, ProofFault>
    ensures ok { IfOk result (λ nodes. entries_of_words words.old ≡ Some nodes.items) }
    ensures bad { result ≡ Err BadProof → entries_of_words words.old ≡ None }
{
    let mut nodes = Vec::new(alloc);
    while let Some(word) = words.next() {
        nodes.push(read_entry(word).ok_or(ProofFault::BadProof)?)?;
    }
    Ok(nodes)
}

fn read_entry(word: &[u8]) -> Option<Entry>
    ensures { result ≡ entry_of word.now }
{
    let (number, digits) = split_once(word, b'=')?;
    let index = read_index(number)?;
    let chunk = read_chunk(digits)?;
    Some(Entry { index, chunk })
}

fn read_index(word: &[u8]) -> Option<Gindex>
    ensures { result ≡ index_of word.now }
{
    Gindex::new(number(word)?)
}

fn read_chunk(word: &[u8]) -> Option<Chunk>
    ensures { option_map (λ chunk. chunk.0) result ≡ chunk_of_hex word.now }
{
    let digits = word.strip_prefix(b"0x")?;
    let mut bytes = [0; 32];
    hex::decode_to_slice(digits, &mut bytes).ok()?;
    Some(Chunk(bytes))
}

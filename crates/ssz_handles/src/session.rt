// What a session's handle holds.
use super::no_files::NoFiles;
use ssz_chunk::ShaPair;
use ssz_engine::Engine;

/// An engine with what it works with, how many lines were run, and the reply to the last.
#[derive(Drop)]
pub struct Session {
    pub engine: Engine<ShaPair>,
    pub hasher: ShaPair,
    pub files: NoFiles,
    pub lines: u64,
    pub reply: Vec<u8>,
}

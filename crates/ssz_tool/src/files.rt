// What the files of the words give.
ghost use Rattle.ssz_proof.specs.Multiproof.{IsProofOf};
ghost use Rattle.ssz_tool.specs.Commands.{proof_file, schema_file, script_file, script_files};
ghost use Rattle.ssz_tool.specs.Follows.{Follows};
ghost use Rattle.ssz_tool.specs.Plans.{file};
ghost use Rattle.ssz_tool.specs.Tasks.{AreItems, HasItems, NamesHaveTypes};

use crate::line::Line;
use crate::stop::Stop;
use ssz_bytes::ByteRun;
use ssz_outside::{Files, GetFault, Got};
use ssz_proof::{Proof, ProofFault, read_proof};
use ssz_schema::Schema;
use ssz_schema_json::{SchemaRead, read_schema};
use ssz_words::FileName;
use std::alloc::Global;

/// The most bytes of a schema, a proof or a script.
const MOST_BYTES: u64 = 1 << 26;

/// What a file holds, of at most max bytes. A longer one is refused with the line.
pub fn load<F: Files>(
    alloc: Global,
    files: &mut F,
    name: &str,
    max: u64,
    long: Line,
) -> Result<Vec<u8>, Stop>
    requires usable { F.usable files.old }
    ensures { Follows F.Files HasItems (file name.now max long) result files.old files.new }
{
    let mut bytes = Vec::new(alloc);
    match files.get(name, &mut bytes, max) {
        Ok(Got::Whole) => Ok(bytes),
        Ok(Got::TooLong) => {
            drop(bytes);
            Err(Stop::Says(long))
        }
        Err(GetFault::Failed) => {
            drop(bytes);
            Err(Stop::Read)
        }
        Err(GetFault::Memory) => {
            drop(bytes);
            Err(Stop::Memory)
        }
    }
}

/// The types of a schema file.
pub fn load_schema<F: Files>(alloc: Global, files: &mut F, name: &str) -> Result<Schema, Stop>
    requires usable { F.usable files.old }
    ensures { Follows F.Files NamesHaveTypes (schema_file name.now) result files.old files.new }
{
    let bytes = load(alloc, files, name, MOST_BYTES, Line::SchemaTooLong)?;
    match read_schema(alloc, &bytes) {
        Ok(schema) => Ok(schema),
        Err(SchemaRead::NotJson) => Err(Stop::Says(Line::NotJson)),
        Err(SchemaRead::Shape) => Err(Stop::Says(Line::Shape)),
        Err(SchemaRead::Def { number, fault }) => Err(Stop::Says(Line::Definition(number, fault))),
        Err(SchemaRead::Memory) => Err(Stop::Memory),
    }
}

/// The proof that a file says; refused with the line where it says none.
pub fn load_proof<F: Files>(
    alloc: Global,
    files: &mut F,
    name: &str,
    bad: &Line,
) -> Result<Proof, Stop>
    requires usable { F.usable files.old }
    ensures { Follows F.Files IsProofOf (proof_file bad.now name.now) result files.old files.new }
{
    let text = load(alloc, files, name, MOST_BYTES, *bad)?;
    match read_proof(alloc, &text) {
        Ok(proof) => Ok(proof),
        Err(ProofFault::BadProof) => Err(Stop::Says(*bad)),
        Err(ProofFault::Memory) => Err(Stop::Memory),
    }
}

/// A script.
pub fn load_script<F: Files>(alloc: Global, files: &mut F, name: &str) -> Result<Vec<u8>, Stop>
    requires usable { F.usable files.old }
    ensures { Follows F.Files HasItems (script_file name.now) result files.old files.new }
{
    load(alloc, files, name, MOST_BYTES, Line::TooLong)
}

/// The scripts of these files, one behind another.
pub fn load_scripts<F: Files>(
    alloc: Global,
    files: &mut F,
    names: &[FileName],
) -> Result<Vec<ByteRun>, Stop>
    requires usable { F.usable files.old }
    ensures { Follows F.Files AreItems (script_files names.now) result files.old files.new }
{
    let mut scripts = Vec::new(alloc);
    for name in names {
        let script = load_script(alloc, files, name.as_str())?;
        scripts.push(ByteRun::from_bytes(script))?;
    }
    Ok(scripts)
}

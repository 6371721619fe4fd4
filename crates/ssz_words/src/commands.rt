//! What a command line can ask for.
use crate::names::{FileName, FileNames, Order, PathText, TypeName};

/// What the program is asked to do.
#[derive(Debug, Drop)]
pub enum Command {
    /// Print the root of the value in a file.
    Root(RootArgs),
    /// Run a script.
    Run(RunArgs),
    /// Run scripts of several writers in turns.
    Weave(WeaveArgs),
    /// Check a proof against a root.
    Verify(VerifyArgs),
    /// Make a value and edit it.
    Work(WorkArgs),
    /// Print the encoding of a part of the value in a file.
    Part(PartArgs),
    /// Run a script over the nodes that a proof knows.
    Partial(PartialArgs),
    /// Print two pairs of chunks with one hash, by two proofs.
    Clash(ClashArgs),
}

/// `root SCHEMA TYPE FILE`
#[derive(Debug, Drop)]
pub struct RootArgs {
    /// The file of the schema.
    pub schema: FileName,
    /// The type of the value.
    pub type_name: TypeName,
    /// The file of the value's encoding.
    pub file: FileName,
    /// How many bytes the encoding may have.
    pub max_bytes: u32,
}

/// `run SCHEMA SCRIPT`
#[derive(Debug, Drop)]
pub struct RunArgs {
    /// The file of the schema.
    pub schema: FileName,
    /// The file of the script.
    pub script: FileName,
    /// How many bytes an encoding that is read, printed or saved may have.
    pub max_bytes: u32,
}

/// `weave SCHEMA BASE ORDER SCRIPT..`
#[derive(Debug, Drop)]
pub struct WeaveArgs {
    /// The file of the schema.
    pub schema: FileName,
    /// The file of the script that runs before the others.
    pub base: FileName,
    /// Whose statement runs next, by the place of the writer's script: one or more numbers, each
    /// below the number of scripts.
    pub order: Order,
    /// The files of the writers' scripts, one to ten.
    pub scripts: FileNames,
    /// How many bytes an encoding that is read or printed may have.
    pub max_bytes: u32,
}

/// `verify ROOT FILE`
#[derive(Debug, Drop)]
pub struct VerifyArgs {
    /// The root that the proof is to lead to.
    pub root: [u8; 32],
    /// The file of the proof.
    pub file: FileName,
}

/// `work SCHEMA TYPE SEED EDITS`
#[derive(Debug, Drop)]
pub struct WorkArgs {
    /// The file of the schema.
    pub schema: FileName,
    /// The type of the value.
    pub type_name: TypeName,
    /// What the generator starts from.
    pub seed: u64,
    /// How many edits are made, at most 1000000.
    pub edits: u32,
}

/// `part SCHEMA TYPE FILE PATH`
#[derive(Debug, Drop)]
pub struct PartArgs {
    /// The file of the schema.
    pub schema: FileName,
    /// The type of the value.
    pub type_name: TypeName,
    /// The file of the value's encoding.
    pub file: FileName,
    /// Where the part is in the value.
    pub path: PathText,
    /// How many bytes the encoding, and that of the part, may have.
    pub max_bytes: u32,
}

/// `partial SCHEMA TYPE PROOF SCRIPT`
#[derive(Debug, Drop)]
pub struct PartialArgs {
    /// The file of the schema.
    pub schema: FileName,
    /// The type of the value whose nodes the proof knows.
    pub type_name: TypeName,
    /// The file of the proof.
    pub proof: FileName,
    /// The file of the script.
    pub script: FileName,
}

/// `clash FILE FILE`
#[derive(Debug, Drop)]
pub struct ClashArgs {
    /// The file of the first proof.
    pub first: FileName,
    /// The file of the second proof.
    pub second: FileName,
}

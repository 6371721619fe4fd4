/// How a run of the program ended, with the code that it ends with.
#[derive(Clone, Copy, Debug, PartialEq, Eq)]
pub enum Status {
    /// All was accepted.
    Accepted = 0,
    /// A statement, bytes, a type name or a proof was refused.
    Refused = 1,
    /// The words of the command line are not taken.
    Usage = 2,
    /// The schema has a fault.
    SchemaFault = 3,
    /// A `get` of the files failed.
    ReadFault = 4,
    /// A `put` of the files or of the sink failed.
    WriteFault = 5,
    /// There was no memory.
    Memory = 6,
}

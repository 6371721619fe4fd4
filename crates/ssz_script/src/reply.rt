use ssz_bytes::{ByteRun, Fault};
use ssz_chunk::Chunk;
use ssz_schema::Names;

/// The reply to a statement.
#[derive(Debug, Drop)]
pub enum Reply {
    /// `ok`.
    Done,
    /// `list` and each name.
    List(Names),
    /// `root HEX`.
    Root(Chunk),
    /// `bytes HEX`.
    Bytes(ByteRun),
    /// `len N`.
    Len(u64),
    /// `gindex N`.
    Gindex(u128),
    /// The line of a multiproof, with its line feed.
    Proof(ByteRun),
    /// `hashes N`.
    Hashes(u64),
    /// `refused LINE CODE NAME`, and the first fault of a literal or a file where the code is
    /// `BAD_LITERAL`.
    Refused {
        /// The number of the statement's line.
        line: u64,
        /// One of the codes below.
        code: u8,
        /// There exactly where the code is `BAD_LITERAL`.
        fault: Option<Fault>,
    },
    /// `refused LINE 17 Blind INDEX`.
    Blind {
        /// The number of the statement's line.
        line: u64,
        /// The index of the node that is not known.
        index: u128,
    },
    /// `json TEXT`.
    Json(ByteRun),
    /// `refused LINE 18 BadJson JCODE NUMBER`.
    BadJson {
        /// The number of the statement's line.
        line: u64,
        /// The number of the JSON fault's code.
        code: u8,
        /// The number of the part that has the fault.
        number: u64,
    },
}

impl Reply {
    /// The line is no statement.
    pub const SYNTAX: u8 = 1;

    /// No type has the name.
    pub const NO_TYPE: u8 = 2;

    /// The writer has no version of the name.
    pub const NO_VERSION: u8 = 3;

    /// The writer has a version of the name already.
    pub const NAME_TAKEN: u8 = 4;

    /// The path does not fit the type.
    pub const BAD_PATH: u8 = 5;

    /// The part is not there in the present value.
    pub const ABSENT: u8 = 6;

    /// The statement is not for parts of this type.
    pub const NOT_THAT: u8 = 7;

    /// The length is the limit.
    pub const FULL: u8 = 8;

    /// The length is 0.
    pub const EMPTY: u8 = 9;

    /// The selector is no option's number.
    pub const BAD_SELECTOR: u8 = 10;

    /// The literal, or the file, encodes no value of the type.
    pub const BAD_LITERAL: u8 = 11;

    /// A value file or an encoding is longer than allowed.
    pub const TOO_LONG: u8 = 12;

    /// The tree has no node at the index.
    pub const NO_NODE: u8 = 13;

    /// One index is an ancestor of another.
    pub const NESTED: u8 = 14;

    /// The statement is not for scripts that are woven.
    pub const NOT_HERE: u8 = 15;

    /// One of the two types is no container.
    pub const NOT_CONTAINER: u8 = 16;

    /// The partial tree does not know a node.
    pub const BLIND: u8 = 17;

    /// The file is not the JSON text of a value of the type.
    pub const BAD_JSON: u8 = 18;
}

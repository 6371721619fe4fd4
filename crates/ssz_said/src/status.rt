// What a call answers, as C reads it.

/// The call did what it was asked.
pub const OK: u32 = 0;

/// The handle holds nothing.
pub const NO_HANDLE: u32 = 1;

/// There is no type of this name or number.
pub const NO_TYPE: u32 = 2;

/// Too many bytes: a value or a line has fewer than 2^32, a text at most 2^26.
pub const TOO_LONG: u32 = 3;

/// The bytes encode no value; the code is 1 to 11 for F1 to F11.
pub const INVALID: u32 = 4;

/// The bytes are no schema; the code is 1 to 15 for S1 to S15, the position a definition's number.
pub const BAD_SCHEMA: u32 = 5;

/// The text spells no path.
pub const SYNTAX: u32 = 6;

/// The path does not fit the type.
pub const BAD_PATH: u32 = 7;

/// The path fits, and the value has no such part.
pub const ABSENT: u32 = 8;

/// The text is no proof.
pub const BAD_PROOF: u32 = 9;

/// The proof leads to another root.
pub const UNLIKE: u32 = 10;

/// Want of memory.
pub const NO_MEMORY: u32 = 11;

/// There is too little room for what was found.
pub const NO_ROOM: u32 = 12;

/// The session refused the line: the reply says why.
pub const REFUSED: u32 = 13;

/// The line's statement reads a file, and a session has none.
pub const NO_READ: u32 = 14;

/// The line's statement writes a file, and a session has none.
pub const NO_WRITE: u32 = 15;

// 16 is of the header alone: a null pointer.

/// The part is a bit or a length, which stands at no place of its own.
pub const NO_PLACE: u32 = 17;

/// The text is the JSON text of no value; the code is 1 to 8 for J1 to J8, the position a part's
/// number.
pub const BAD_JSON: u32 = 18;

/// The most bytes of a value, and of a session's line.
pub const MOST_BYTES: usize = 0xffff_ffff;

/// The most bytes of a schema, a path or a proof.
pub const MOST_TEXT: usize = 1 << 26;

/// The most bytes of what is made of a value: a part that a session shows, a text, an encoding.
pub const MOST_SHOWN: u32 = 0xffff_ffff;

/// The mark of a handle that holds a schema: the bytes of "ssz type".
pub const SCHEMA_MARK: u64 = 0x6570_7974_207a_7373;

/// The mark of a handle that holds a session: the bytes of "ssz edit".
pub const SESSION_MARK: u64 = 0x7469_6465_207a_7373;

/// The mark of a handle that holds a slice: the bytes of "ssz part".
pub const SLICE_MARK: u64 = 0x7472_6170_207a_7373;

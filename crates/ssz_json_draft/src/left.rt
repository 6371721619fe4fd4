use super::fault::NoDraft;
use memchr::memchr;

/// What is left of a text.
#[derive(Drop)]
pub(crate) struct Left<'a> {
    bytes: &'a [u8],
}

impl<'a> Left<'a> {
    /// All of these bytes.
    pub(crate) fn of(bytes: &'a [u8]) -> Left<'a> {
        Left { bytes }
    }

    /// Whether this byte comes next; it is passed.
    pub(crate) fn passes(&mut self, byte: u8) -> bool {
        match self.bytes.split_first() {
            Some((first, behind)) if *first == byte => {
                self.bytes = behind;
                true
            }
            _ => false,
        }
    }

    /// Passes this byte.
    pub(crate) fn pass(&mut self, byte: u8) -> Result<(), NoDraft> {
        if self.passes(byte) {
            Ok(())
        } else {
            Err(NoDraft::Form)
        }
    }

    /// Passes these bytes.
    pub(crate) fn pass_all(&mut self, bytes: &[u8]) -> Result<(), NoDraft> {
        match self.bytes.strip_prefix(bytes) {
            Some(behind) => {
                self.bytes = behind;
                Ok(())
            }
            None => Err(NoDraft::Form),
        }
    }

    /// Passes the name of a member, with the comma before it and its colon.
    pub(crate) fn pass_key(&mut self, later: bool, name: &[u8]) -> Result<(), NoDraft> {
        if later {
            self.pass(b',')?;
        }
        self.pass(b'"')?;
        self.pass_all(name)?;
        self.pass_all(b"\":")
    }

    /// Whether an array has one more element. Passes the comma before it, or the array's bracket.
    pub(crate) fn goes_on(&mut self, later: bool) -> Result<bool, NoDraft> {
        if self.passes(b']') {
            return Ok(false);
        }
        if later {
            self.pass(b',')?;
        }
        Ok(true)
    }

    /// The string that comes next, without its quotes.
    pub(crate) fn string(&mut self) -> Result<&'a [u8], NoDraft> {
        self.pass(b'"')?;
        self.up_to(b'"')
    }

    /// What stands before this byte, which is passed, too.
    pub(crate) fn up_to(&mut self, byte: u8) -> Result<&'a [u8], NoDraft> {
        let end = memchr(byte, self.bytes).ok_or(NoDraft::Form)?;
        let Some((front, behind)) = self.bytes.split_at_checked(end) else {
            return Err(NoDraft::Form);
        };
        self.bytes = behind;
        self.pass(byte)?;
        Ok(front)
    }
}

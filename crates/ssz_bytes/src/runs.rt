ghost use Rattle.std.specs.Prelude.{◌≡◌, ◌-◌, ◌<◌, ◌≤◌, [], ◌∷◌, ◌++◌, length, take, set, IfOk, IsOk, IsTrue, OnOk, OnErr};
ghost use Rattle.ssz_bytes.specs.Bytes.{IsBytes};

use super::short::Short;
use std::alloc::{AllocError, Global};
use std::fmt::{self, Debug, Formatter};
use std::marker::Model;

/// The same slice, known to hold bytes.
pub fn as_bytes(bytes: &[u8]) -> &[u8]
    ensures value { result.now ≡ bytes.now }
    ensures bytes { IsBytes bytes.now }
{
    bytes
}

/// Bytes in order, seen as a list. Up to 32 of them take no memory beside the run itself.
#[derive(Drop)]
pub struct ByteRun {
    form: Form,
}

// Where the bytes are: in the run itself, or in memory of their own.
#[derive(Drop)]
enum Form {
    Inside(Short),
    Outside(Vec<u8>),
}

impl Model for ByteRun {
    ghost use Rattle.std.specs.Prelude.{ℕ, List};
    ghost use Rattle.ssz_bytes.specs.Forms.{bytes_of};

    ghost Value = { List ℕ };

    ghost view = { λ a. bytes_of a.form };
}

impl ByteRun {
    /// Up to so many bytes stand in the run itself.
    pub const INSIDE: usize = 32;

    /// The bytes of this vector.
    pub fn from_bytes(bytes: Vec<u8>) -> Self
        ensures { result ≡ bytes.items }
    {
        ByteRun {
            form: Form::Outside(bytes),
        }
    }

    /// A copy of these bytes. It fails for want of memory, and of up to 32 bytes never.
    #[inline(always)]
    pub fn copy_of(alloc: Global, bytes: &[u8]) -> Result<Self, AllocError>
        ensures copy { IfOk result (λ run. run ≡ bytes.now) }
        ensures few { length bytes.now ≤ 32 → IsOk result }
    {
        if bytes.len() <= Self::INSIDE {
            return Ok(ByteRun {
                form: Form::Inside(Short::copy_of(alloc, bytes)),
            });
        }
        Ok(ByteRun {
            form: Form::Outside(bytes.to_vec(alloc)?),
        })
    }

    /// The bytes in order.
    pub fn as_slice(&self) -> &[u8]
        ensures value { result.now ≡ self.now }
        ensures bytes { IsBytes self.now }
    {
        match &self.form {
            Form::Inside(short) => as_bytes(short.as_slice()),
            Form::Outside(bytes) => as_bytes(bytes.as_slice()),
        }
    }

    /// The bytes in a vector: their own memory, where they have some, and else a copy. It fails for
    /// want of memory.
    pub fn into_bytes(self) -> Result<Vec<u8>, AllocError>
        ensures { IfOk result (λ bytes. bytes.items ≡ self) }
    {
        match self.form {
            Form::Inside(short) => short.as_slice().to_vec(short.alloc),
            Form::Outside(bytes) => Ok(bytes),
        }
    }

    /// How many bytes there are.
    pub fn len(&self) -> usize
        ensures { result ≡ length self.now }
    {
        self.as_slice().len()
    }

    /// Whether the bytes stand in the run itself, which then owns no memory.
    #[inline(always)]
    pub fn is_inside(&self) -> bool
        ensures { IsTrue result → length self.now ≤ 32 }
    {
        match &self.form {
            Form::Inside(short) => {
                // A run in itself is short.
                let _few = short.as_slice();
                true
            }
            Form::Outside(_) => false,
        }
    }

    /// Puts a byte in the place of number i.
    pub fn set(&mut self, i: usize, byte: u8)
        requires { i < length self.old }
        ensures { self.new ≡ set self.old i byte }
    {
        match &mut self.form {
            Form::Inside(short) => short.set(i, byte),
            Form::Outside(bytes) => bytes[i] = byte,
        }
    }

    /// Puts a byte behind the others. It fails for want of memory alone, and changes nothing then.
    pub fn push(&mut self, byte: u8) -> Result<(), AllocError>
        ensures pushed { OnOk result (self.new ≡ self.old ++ byte ∷ []) }
        ensures kept { OnErr result (self.new ≡ self.old) }
    {
        match &mut self.form {
            Form::Inside(short) => {
                if short.as_slice().len() < Self::INSIDE {
                    short.push(byte);
                    return Ok(());
                }
                let mut bytes = Vec::with_capacity(short.alloc, 2 * Self::INSIDE)?;
                bytes.extend_from_slice(short.as_slice())?;
                bytes.push(byte)?;
                self.form = Form::Outside(bytes);
            }
            Form::Outside(bytes) => bytes.push(byte)?,
        }
        Ok(())
    }

    /// Takes the last byte away, where there is one.
    pub fn pop(&mut self)
        ensures { self.new ≡ take (length self.old - 1) self.old }
    {
        match &mut self.form {
            Form::Inside(short) => short.pop(),
            Form::Outside(bytes) => {
                let _last = bytes.pop();
            }
        }
    }
}

// As a run of bytes is shown, wherever they are.
impl Debug for ByteRun {
    fn fmt<W: fmt::Write>(&self, f: &mut Formatter<W>) -> fmt::Result {
        f.debug_struct("ByteRun")
            .field("bytes", &self.as_slice())
            .finish()
    }
}

/// Bits in order, seen as a list.
#[derive(Debug, Drop)]
pub struct BitRun {
    bits: Vec<bool>,
}

impl Model for BitRun {
    ghost use Rattle.std.specs.Prelude.{Bool, List};

    ghost Value = { List Bool };

    ghost view = { λ a. a.bits.items };
}

impl BitRun {
    /// The bits of this vector.
    pub fn from_bits(bits: Vec<bool>) -> Self
        ensures { result ≡ bits.items }
    {
        BitRun { bits }
    }

    /// A copy of these bits.
    pub fn copy_of(alloc: Global, bits: &[bool]) -> Result<Self, AllocError>
        ensures { IfOk result (λ run. run ≡ bits.now) }
    {
        Ok(BitRun {
            bits: bits.to_vec(alloc)?,
        })
    }

    /// The bits in order.
    pub fn as_slice(&self) -> &[bool]
        ensures { result.now ≡ self.now }
    {
        self.bits.as_slice()
    }

    /// How many bits there are.
    pub fn len(&self) -> usize
        ensures { result ≡ length self.now }
    {
        self.bits.len()
    }

    /// Puts a bit in the place of number i.
    pub fn set(&mut self, i: usize, bit: bool)
        requires { i < length self.old }
        ensures { self.new ≡ set self.old i bit }
    {
        self.bits[i] = bit;
    }

    /// Puts a bit behind the others. It fails for want of memory alone, and changes nothing then.
    pub fn push(&mut self, bit: bool) -> Result<(), AllocError>
        ensures pushed { OnOk result (self.new ≡ self.old ++ bit ∷ []) }
        ensures kept { OnErr result (self.new ≡ self.old) }
    {
        self.bits.push(bit)?;
        Ok(())
    }

    /// Takes the last bit away, where there is one.
    pub fn pop(&mut self)
        ensures { self.new ≡ take (length self.old - 1) self.old }
    {
        let _last = self.bits.pop();
    }
}

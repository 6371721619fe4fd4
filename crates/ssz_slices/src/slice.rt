ghost use Rattle.std.specs.Prelude.{◌≡◌, ◌<◌, ◌^◌, [], ◌∷◌, length, None, IfOk, IfSome, Option, option_map};
ghost use Rattle.ssz_schema.specs.declared.path.PathStep.TheVariants.{Field, Index, Option as Chosen};
ghost use Rattle.ssz_schema.specs.Unfolding.{type_of};
ghost use Rattle.ssz_value.specs.Encoding.{serialize};
ghost use Rattle.ssz_value.specs.Faults.{first_fault};
ghost use Rattle.ssz_value.specs.Laws.{Encodes};
ghost use Rattle.ssz_slices.specs.Written.{encoding_written};
ghost use Rattle.ssz_slices.specs.Part.{opened, whole, part_reached, span_bytes, part_len, selector_of, uint_of, boolean_of};

use super::encoding::{Encoding, bit_encoding, length_encoding};
use super::held::Held;
use super::reading::{boolean_in, len_in, selector_in, uint_in};
use super::steps::{field_part, moved, step_from};
use ssz_bytes::Fault;
use ssz_checking::check;
use ssz_schema::{PathStep, Schema, TypeId};
use ssz_value::PathFault;
use std::marker::Model;

/// A part of a value, in bytes that encode the whole.
///
/// A contract sees it as the type and the value of the part, the input, and where the part's
/// encoding stands in it.
#[derive(Drop)]
pub struct Slice<'s, 'b> {
    schema: &'s Schema,
    id: TypeId,
    input: &'b [u8],
    held: Held,
}

impl<'s, 'b> Model for Slice<'s, 'b> {
    ghost use Rattle.ssz_slices.specs.Part.{Part};
    ghost use Rattle.ssz_slices.specs.Codes.{coded_part};

    ghost Value = { Part };

    ghost coded = { coded_part };

    ghost use Rattle.ssz_slices.specs.Inside.{part_inside, IsSlice};

    ghost view = { part_inside };

    ghost invariant = { IsSlice };
}

impl<'s, 'b> Slice<'s, 'b> {
    /// The whole value of the type that the bytes encode, or the first fault of the bytes
    /// (simple-serialize.md, Deserialization).
    ///
    /// Conditions: the type is one of the schema, and there are fewer than 2^32 bytes.
    pub fn new(schema: &'s Schema, id: TypeId, bytes: &'b [u8]) -> Result<Slice<'s, 'b>, Fault>
        requires known { id < length schema.now.trees }
        requires short { length bytes.now < 2 ^ 32 }
        ensures exact { result ≡ opened (type_of schema.now id) bytes.now }
        ensures encodes { IfOk result (λ part. Encodes part.form part.value bytes.now) }
    {
        match check(schema, id, bytes) {
            Some(fault) => Err(fault),
            None => Ok(Slice::whole(schema, id, bytes)),
        }
    }

    /// The same of bytes that are known to encode a value of the type: they are not looked at.
    ///
    /// Conditions: as those of `new`, and the bytes have no fault.
    pub fn whole(schema: &'s Schema, id: TypeId, bytes: &'b [u8]) -> Slice<'s, 'b>
        requires known { id < length schema.now.trees }
        requires short { length bytes.now < 2 ^ 32 }
        requires faultless { first_fault (type_of schema.now id) 0 bytes.now ≡ None }
        ensures exact { result ≡ whole (type_of schema.now id) bytes.now }
        ensures encodes { Encodes result.form result.value bytes.now }
    {
        // A type of a schema is legal, so that bytes without a fault tell their value.
        let _legal = schema.ty(id);
        Slice {
            schema,
            id,
            input: bytes,
            held: Held::Bytes(0, bytes.len()),
        }
    }

    /// The part at the path; at the empty path the same part.
    ///
    /// BadPath exactly where the path does not fit the type, whatever the value is. Otherwise
    /// Absent exactly where an element or bit is not below the length, or an option is not the
    /// present one.
    pub fn at(&self, path: &[PathStep]) -> Result<Slice<'s, 'b>, PathFault>
        ensures { result ≡ part_reached self.now path.now }
    {
        let mut id = self.id;
        let mut held = Some(self.held);
        for step in path {
            let Some(lead) = self.schema.lead(id, step) else {
                return Err(PathFault::BadPath);
            };
            held = step_from(self.schema, id, step, &lead, self.input, held);
            id = lead.part;
        }
        match held {
            Some(held) => Ok(Slice {
                schema: self.schema,
                id,
                input: self.input,
                held,
            }),
            None => Err(PathFault::Absent),
        }
    }

    /// The field of this name, or BadPath exactly where there is none.
    pub fn field(&self, name: &str) -> Result<Slice<'s, 'b>, PathFault>
        ensures { result ≡ part_reached self.now (Field name.now ∷ []) }
    {
        let Held::Bytes(from, to) = self.held else {
            return Err(PathFault::BadPath);
        };
        let Some(lead) = self.schema.field_lead(self.id, name.as_bytes()) else {
            return Err(PathFault::BadPath);
        };
        let part = field_part(self.schema, self.id, lead.number, &self.input[from..to]);
        Ok(Slice {
            schema: self.schema,
            id: lead.part,
            input: self.input,
            held: moved(part, from),
        })
    }

    /// The element or bit of this number. BadPath where it is not below the length of a vector or
    /// bitvector or the limit of a list or bitlist, and for other types; then Absent where it is
    /// not below the length.
    pub fn item(&self, index: u64) -> Result<Slice<'s, 'b>, PathFault>
        ensures { result ≡ part_reached self.now (Index index ∷ []) }
    {
        self.at(&[PathStep::Index(index)])
    }

    /// The value of a union, where its selector is this one. BadPath where the type has no option
    /// of this number with a type; then Absent where another one is present.
    pub fn option(&self, selector: u8) -> Result<Slice<'s, 'b>, PathFault>
        ensures { result ≡ part_reached self.now (Chosen selector ∷ []) }
    {
        self.at(&[PathStep::Option(selector)])
    }

    /// The bytes of the part's encoding, lent from the input; of a selector its one byte. None
    /// exactly for a bit and for a length, which have no place.
    pub fn bytes(&self) -> Option<&'b [u8]>
        ensures place { option_map (λ bytes. bytes.now) result
            ≡ option_map (span_bytes self.now.input) self.now.place }
        ensures encoding { IfSome result (λ bytes.
            bytes.now ≡ serialize self.now.form self.now.value) }
    {
        match self.held {
            Held::Bytes(from, to) => Some(&self.input[from..to]),
            Held::Bit(_) | Held::Count(_) => None,
        }
    }

    /// The encoding of the part: its bytes of the input, and those of a bit or a length, which have
    /// none there, made.
    pub fn encoding(&self) -> Encoding<'b>
        ensures { encoding_written result ≡ serialize self.now.form self.now.value }
    {
        match self.held {
            Held::Bytes(from, to) => Encoding::Lent(&self.input[from..to]),
            Held::Bit(bit) => bit_encoding(bit),
            Held::Count(count) => length_encoding(count),
        }
    }

    /// The byte of the input at which they begin. None exactly where they are none.
    pub fn start(&self) -> Option<usize>
        ensures { result ≡ option_map (λ span. span.0) self.now.place }
    {
        match self.held {
            Held::Bytes(from, _) => Some(from),
            Held::Bit(_) | Held::Count(_) => None,
        }
    }

    /// How many elements or bits it has. None exactly where it is no vector, list, bitvector or
    /// bitlist.
    pub fn len(&self) -> Option<u64>
        ensures { result ≡ part_len self.now.form self.now.value }
    {
        match self.held {
            Held::Bytes(from, to) => len_in(self.schema, self.id, &self.input[from..to]),
            Held::Bit(_) | Held::Count(_) => None,
        }
    }

    /// The number of the present option. None exactly where it is no union.
    pub fn selector(&self) -> Option<u8>
        ensures { result ≡ selector_of self.now.form self.now.value }
    {
        match self.held {
            Held::Bytes(from, to) => selector_in(self.schema, self.id, &self.input[from..to]),
            Held::Bit(_) | Held::Count(_) => None,
        }
    }

    /// The number; so of a length and of a selector. None exactly where it is no number of at most
    /// 128 bits.
    pub fn uint(&self) -> Option<u128>
        ensures { result ≡ uint_of self.now.form self.now.value }
    {
        match self.held {
            Held::Bytes(from, to) => uint_in(self.schema, self.id, &self.input[from..to]),
            Held::Count(n) => Some(u128::from(n)),
            Held::Bit(_) => None,
        }
    }

    /// The truth value; so of a bit. None exactly where it is no boolean and no bit.
    pub fn boolean(&self) -> Option<bool>
        ensures { result ≡ boolean_of self.now.form self.now.value }
    {
        match self.held {
            Held::Bytes(from, to) => boolean_in(self.schema, self.id, &self.input[from..to]),
            Held::Bit(bit) => Some(bit),
            Held::Count(_) => None,
        }
    }
}

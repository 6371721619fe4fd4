ghost use Rattle.std.specs.Prelude.{◌≡◌, ◌+◌, ◌<◌, ◌≤◌, length, Err, IfOk, IfErr, sum_by};
ghost use Rattle.ssz_chunk.specs.Index.{levels};
ghost use Rattle.ssz_schema.specs.Unfolding.{type_of};
ghost use Rattle.ssz_value.specs.Standing.{value_of};
ghost use Rattle.ssz_proof.specs.Calculation.{calculate_root, indices_of};
ghost use Rattle.ssz_proof.specs.Multiproof.{known_of};
ghost use Rattle.ssz_partial.specs.Partial.{got, settable, set_to, SetsTo, FitsAt};
ghost use Rattle.ssz_partial.specs.Settable.{IsNeverSettable, IsSettable, IsSettableType};

use super::chunks::{piece, write};
use super::fault::PartialFault;
use super::piece::Piece;
use super::reaching::reach;
use super::types::ends_mixed_in;
use ssz_chunk::{Chunk, PairHash};
use ssz_proof::{Proof, calc};
use ssz_schema::{PathStep, Schema, TypeId};
use ssz_value::Value;
use std::alloc::{AllocError, Global};
use std::marker::Model;

/// The tree of a value of a type, of which the chunks of a proof are known.
#[derive(Debug, Drop)]
pub struct Partial {
    id: TypeId,
    proof: Proof,
}

impl Model for Partial {
    ghost use Rattle.ssz_partial.specs.Partial.{Knowledge};

    ghost Value = { Knowledge };

    ghost view = { λ a. record { id = a.id; proof = a.proof } };
}

impl Partial {
    /// The tree of a value of the type with this number in a schema, of which the chunks of a proof
    /// are known. It takes memory for them once, and no other call takes any.
    pub fn from_proof(alloc: Global, id: TypeId, proof: &Proof) -> Result<Partial, AllocError>
        ensures { IfOk result (λ partial. partial ≡ record { id = id; proof = proof.now }) }
    {
        Ok(Partial {
            id,
            proof: proof.copy(alloc)?,
        })
    }

    /// The type of the value.
    pub fn id(&self) -> TypeId
        ensures { result ≡ self.now.id }
    {
        self.id
    }

    /// The encoding of the basic part, or of the bit, at the path, as it stands in its chunk.
    ///
    /// BadPath exactly where the path does not fit the type, then NotThat where the part is neither
    /// basic nor a bit. Then step by step, and last of the part's own node: Blind where a node that
    /// is needed is not known, Absent where a known length is not above the number of an element or
    /// bit, or a known selector is another one.
    ///
    /// Condition: the type is one of the schema.
    pub fn get(&self, schema: &Schema, path: &[PathStep]) -> Result<Piece, PartialFault>
        requires { self.now.id < length schema.now.trees }
        ensures value { result
            ≡ got (known_of self.now.proof) (type_of schema.now self.now.id) path.now }
        ensures few { IfOk result (λ piece. piece.len ≤ 32) }
    {
        let Some(part) = schema.path_type(self.id, path) else {
            return Err(PartialFault::BadPath);
        };
        let Some(size) = schema.basic_size(part) else {
            return Err(PartialFault::NotThat);
        };
        let found = reach(&self.proof, schema, self.id, path)?;
        Ok(piece(size as u8, found.spot, &found.chunk))
    }

    // The type of a value that is put at the path, as far as the type tells whether one can be.
    fn type_to_set(&self, schema: &Schema, path: &[PathStep]) -> Result<TypeId, PartialFault>
        requires { self.now.id < length schema.now.trees }
        ensures part { IfOk result (IsSettableType schema.now (type_of schema.now self.now.id)
            path.now) }
        ensures fault { IfErr result
            (IsNeverSettable (type_of schema.now self.now.id) path.now) }
    {
        let Some(part) = schema.path_type(self.id, path) else {
            return Err(PartialFault::BadPath);
        };
        if schema.basic_size(part).is_none() || ends_mixed_in(path) {
            return Err(PartialFault::NotThat);
        }
        Ok(part)
    }

    /// The type that a value has to have which is put at the path: that of the basic part, or of a
    /// bit. Refused exactly where `set` is, whatever the value, with the same fault.
    ///
    /// Condition: the type is one of the schema.
    pub fn settable(&self, schema: &Schema, path: &[PathStep]) -> Result<TypeId, PartialFault>
        requires { self.now.id < length schema.now.trees }
        ensures part { IfOk result (IsSettable schema.now (known_of self.now.proof)
            (type_of schema.now self.now.id) path.now) }
        ensures fault { IfErr result (λ fault. settable (known_of self.now.proof)
            (type_of schema.now self.now.id) path.now ≡ Err fault) }
    {
        let part = self.type_to_set(schema, path)?;
        let _there = reach(&self.proof, schema, self.id, path)?;
        Ok(part)
    }

    /// Puts the encoding of the value in the place of that of the basic part, or of the bit, at the
    /// path, and leaves the rest of its chunk as it is.
    ///
    /// The refusals are those of `get`, in the same order, and NotThat where the path ends with a
    /// length or a selector. A refusal changes nothing.
    ///
    /// Conditions: the type is one of the schema; where the path leads to a basic type, the value
    /// is one of it.
    pub fn set(
        &mut self,
        schema: &Schema,
        path: &[PathStep],
        value: &Value,
    ) -> Result<(), PartialFault>
        requires known { self.old.id < length schema.now.trees }
        requires fits { FitsAt (type_of schema.now self.old.id) path.now (value_of value.now) }
        ensures { SetsTo (set_to self.old.proof (type_of schema.now self.old.id) path.now
            (value_of value.now)) self.old self.new result }
    {
        let part = self.type_to_set(schema, path)?;
        let found = reach(&self.proof, schema, self.id, path)?;
        let mut chunk = found.chunk;
        write(schema, part, found.spot, value, &mut chunk);
        self.proof.put(found.index, chunk);
        Ok(())
    }

    /// The root that is calculated from what is known (merkle-proofs.md, Merkle multiproofs). It
    /// hashes at most as many pairs as the leaves of the proof have levels together.
    pub fn root<H: PairHash>(&self, hasher: &mut H) -> Chunk
        ensures value { result.0 ≡ calculate_root H.pair_of (known_of self.now.proof) 1 }
        ensures rises { H.pairs hasher.old ≤ H.pairs hasher.new }
        ensures pairs { H.pairs hasher.new
            ≤ H.pairs hasher.old + sum_by levels (indices_of self.now.proof.leaves) }
    {
        calc(&self.proof, hasher)
    }
}

// Tallies as what a value's tree is made into: nothing is made but a count.
ghost use Rattle.std.specs.Prelude.{◌≡◌, ◌<◌, ◌^◌, length, None};
ghost use Rattle.ssz_schema.specs.Unfolding.{type_of};
ghost use Rattle.ssz_value.specs.Faults.{first_fault};
ghost use Rattle.ssz_value.specs.Reading.{value_in};
ghost use Rattle.ssz_value.specs.Standing.{value_of, IsValue};
ghost use Rattle.ssz_making.specs.Parts.{part_of_value};
ghost use Rattle.ssz_making.specs.Tallies.{IsTallyOf};

use super::bytes::bytes_part;
use super::maker::Maker;
use super::tally::Tally;
use super::values::value_part;
use ssz_chunk::Chunk;
use ssz_packing::chunk_count;
use ssz_schema::{Schema, TypeId};
use ssz_value::Value;

// Counts the pairs and the nodes of parts.
#[derive(Drop)]
struct Counting;

impl Maker for Counting {
    ghost use Rattle.ssz_chunk.specs.Tree.{merkle_pairs};
    ghost use Rattle.std.specs.Prelude.{◌+◌};
    ghost use Rattle.ssz_making.specs.Parts.{costs, part_nodes};
    ghost use Rattle.ssz_making.specs.Tallies.{IsTallyOf, Tallies};

    type Out = Tally;

    type Rows = Tally;

    ghost room = { λ now nodes. Unit {0} };

    ghost made = { λ start now part out. IsTallyOf part out };

    ghost gathered = { λ start now d count parts rows.
        Tallies (merkle_pairs d count + costs parts)
        (merkle_pairs d count + part_nodes parts) rows };

    ghost room_less = { λ now n m less room. tt };

    ghost room_next = { λ start now d n before rest one rows pushed room. tt };

    fn leaf(&mut self, _chunk: &Chunk) -> Tally {
        Tally::leaf()
    }

    fn none(&mut self) -> Tally {
        Tally::none()
    }

    fn join(&mut self, out: Tally, _chunk: &Chunk) -> Tally {
        out.joined()
    }

    fn start(&self, depth: u32, count: u64) -> Tally {
        Tally::above(depth, count)
    }

    fn push(&mut self, rows: &mut Tally, out: &Tally) {
        *rows = rows.plus(*out);
    }

    // As many as there are.
    fn repeat(&mut self, rows: &mut Tally, out: &Tally, more: u64) -> u64 {
        if more == 0 {
            return 0;
        }
        *rows = rows.plus(out.times(more));
        more
    }

    fn finish(&mut self, rows: Tally) -> Tally {
        rows
    }

    fn packed(&mut self, depth: u32, bytes: &[u8]) -> Tally {
        Tally::chunks(depth, (bytes.len() as u64 + 31) / 32)
    }

    fn bits(&mut self, depth: u32, len: u64, _bytes: &[u8]) -> Tally {
        Tally::chunks(depth, (len + 255) / 256)
    }

    fn packed_values(&mut self, size: usize, depth: u32, parts: &[Value]) -> Tally {
        Tally::chunks(depth, chunk_count(size, parts.len()) as u64)
    }

    fn bit_values(&mut self, depth: u32, bits: &[bool]) -> Tally {
        Tally::chunks(depth, ((bits.len() + 255) / 256) as u64)
    }

    fn ahead(
        &mut self,
        _rows: &mut Tally,
        _schema: &Schema,
        _elem: TypeId,
        _count: u64,
        _bytes: &[u8],
    ) -> u64 {
        0
    }
}

/// The pairs and the nodes of the value that the bytes stand for: one walk over the bytes, and no
/// value.
pub fn bytes_tally(schema: &Schema, id: TypeId, bytes: &[u8]) -> Tally
    requires known { id < length schema.now.trees }
    requires short { length bytes.now < 2 ^ 32 }
    requires faultless { first_fault (type_of schema.now id) 0 bytes.now ≡ None }
    ensures { let t = type_of schema.now id in
        IsTallyOf (part_of_value t (value_in t bytes.now)) result }
{
    bytes_part(&mut Counting, schema, id, bytes)
}

/// The pairs and the nodes of a value of the type.
pub fn value_tally(schema: &Schema, id: TypeId, value: &Value) -> Tally
    requires known { id < length schema.now.trees }
    requires value { IsValue (type_of schema.now id) value.now }
    ensures { IsTallyOf (part_of_value (type_of schema.now id) (value_of value.now)) result }
{
    value_part(&mut Counting, schema, id, value)
}

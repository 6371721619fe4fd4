// Roots as what a value's tree is made into.
use super::basic::packed_values_root;
use super::bit_values::bit_values_root;
use super::bits::bits_root;
use super::packed::packed_root;
use super::pushing::push_eights;
use ssz_chunk::{Chunk, PairHash, ZeroTable};
use ssz_making::Maker;
use ssz_merkle::Accumulator;
use ssz_schema::{Schema, TypeId};
use ssz_value::Value;

/// Makes roots with a hasher, and with a table of zero roots.
#[derive(Drop)]
pub(crate) struct Rooting<'a, H: PairHash> {
    pub(crate) zeros: &'a ZeroTable<H>,
    pub(crate) hasher: &'a mut H,
}

impl<'a, H: PairHash> Maker for Rooting<'a, H> {
    ghost use Rattle.std.specs.Prelude.{◌≡◌};
    ghost use Rattle.ssz_roots.specs.Rooting.{Roots, PushesRoots};

    type Out = Chunk;

    type Rows = Accumulator<'a, H>;

    ghost room = { λ now nodes. Unit {0} };

    ghost made = { λ start now part out. (now.hasher.ghost_name ≡ start.hasher.ghost_name)
        × Roots H.pair_of (H.pairs start.hasher.now) (H.pairs now.hasher.now) part out.0 };

    ghost gathered = { λ start now d count parts rows.
        (now.hasher.ghost_name ≡ start.hasher.ghost_name)
        × PushesRoots H.pair_of (H.pairs start.hasher.now) (H.pairs now.hasher.now) d parts rows };

    ghost room_less = { λ now n m less room. tt };

    ghost room_next = { λ start now d n before rest one rows pushed room. tt };

    #[inline(always)]
    fn leaf(&mut self, chunk: &Chunk) -> Chunk {
        *chunk
    }

    fn none(&mut self) -> Chunk {
        Chunk::ZERO
    }

    #[inline(always)]
    fn join(&mut self, out: Chunk, chunk: &Chunk) -> Chunk {
        self.hasher.pair(&out, chunk)
    }

    #[inline(always)]
    fn start(&self, depth: u32, _count: u64) -> Accumulator<'a, H> {
        Accumulator::new(self.zeros, depth)
    }

    #[inline(always)]
    fn push(&mut self, rows: &mut Accumulator<'a, H>, out: &Chunk) {
        rows.push(out, self.hasher);
    }

    fn repeat(&mut self, _rows: &mut Accumulator<'a, H>, _out: &Chunk, _more: u64) -> u64 {
        0
    }

    #[inline(always)]
    fn finish(&mut self, rows: Accumulator<'a, H>) -> Chunk {
        rows.finish(self.hasher)
    }

    fn packed(&mut self, depth: u32, bytes: &[u8]) -> Chunk {
        packed_root(depth, bytes, self.zeros, self.hasher)
    }

    fn bits(&mut self, depth: u32, len: u64, bytes: &[u8]) -> Chunk {
        bits_root(depth, len, bytes, self.zeros, self.hasher)
    }

    fn packed_values(&mut self, size: usize, depth: u32, parts: &[Value]) -> Chunk {
        packed_values_root(size, depth, parts, self.zeros, self.hasher)
    }

    fn bit_values(&mut self, depth: u32, bits: &[bool]) -> Chunk {
        bit_values_root(depth, bits, self.zeros, self.hasher)
    }

    fn ahead(
        &mut self,
        rows: &mut Accumulator<'a, H>,
        schema: &Schema,
        elem: TypeId,
        count: u64,
        bytes: &[u8],
    ) -> u64 {
        push_eights(schema, elem, count, bytes, rows, self.hasher)
    }
}

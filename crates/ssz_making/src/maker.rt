ghost use Rattle.std.specs.Prelude.{◌≡◌, ℕ, ◌+◌, ◌*◌, ◌/◌, ◌^◌, ◌<◌, ◌≤◌, List, [], ◌∷◌, ◌++◌, length, map, take, None, Some};
ghost use Rattle.std.specs.List.{concat, AllByRecursion};
ghost use Rattle.ssz_chunk.specs.Tree.{merkle_pairs};
ghost use Rattle.ssz_bytes.specs.Faults.{last_byte};
ghost use Rattle.ssz_schema.specs.Legal.{IsLegal};
ghost use Rattle.ssz_schema.specs.Sizes.{fixed_size, basic_size};
ghost use Rattle.ssz_schema.specs.Unfolding.{type_of};
ghost use Rattle.ssz_value.specs.Faults.{first_fault, elements_fault};
ghost use Rattle.ssz_value.specs.Trees.{chunks, pack, pack_bits};
ghost use Rattle.ssz_schema.specs.Types.{SszType};
ghost use Rattle.ssz_value.specs.Values.{Fits};
ghost use Rattle.ssz_value.specs.Standing.{value_of};
ghost use Rattle.ssz_packing.specs.Elements.{encodings_of};
ghost use Rattle.ssz_packing.specs.Bits.{undelimited};
ghost use Rattle.ssz_parts.specs.PartValues.{element_values};
ghost use Rattle.ssz_making.specs.Parts.{MadePart, whole_of, joined_leaf, part_of_value, IsLike, AreBasic, chunk_part, none_part};
ghost use Rattle.ssz_making.specs.Making.{CanJoinLeaf, CanPush, CanFinish};

use ssz_chunk::Chunk;
use ssz_schema::{Schema, TypeId};
use ssz_value::Value;

/// What a value's tree is made into: a root, a node, a count of nodes.
pub trait Maker {
    /// What a part is made into.
    type Out: Copy;
    /// What is kept of parts that come one after another.
    type Rows;

    // There is room for so many nodes.
    ghost room: { Self → ℕ → Type 0 };

    // Since a moment the part was made, into this.
    ghost made: { Self → Self → MadePart → Self.Out → Type 0 };

    // Since a moment these parts, of so many of a full tree of this depth, were made and pushed.
    ghost gathered: { Self → Self → ℕ → ℕ → List MadePart → Self.Rows → Type 0 };

    /// A leaf.
    fn leaf(&mut self, chunk: &Chunk) -> Self::Out
        requires { room self.old 1 }
        ensures { made self.old self.new (chunk_part chunk.now.0) result };

    /// What stands for the option None.
    fn none(&mut self) -> Self::Out
        ensures { made self.old self.new none_part result };

    /// A part with a leaf to its right.
    fn join(&mut self, out: Self::Out, chunk: &Chunk) -> Self::Out
        requires { CanJoinLeaf room made self.old out }
        ensures { (start : Self) (one : MadePart) → made start self.old one out
            → made start self.new (joined_leaf one chunk.now.0) result };

    /// For so many parts of a full tree of this depth.
    fn start(&self, depth: u32, count: u64) -> Self::Rows
        requires { depth ≤ 126 }
        ensures { gathered self.now self.now depth count [] result };

    /// Takes one more part.
    fn push(&mut self, rows: &mut Self::Rows, out: &Self::Out)
        requires { CanPush room made gathered self.old rows.old out.now }
        ensures { (start middle : Self) (d n : ℕ) (parts : List MadePart) (one : MadePart)
            → gathered start middle d n parts rows.old → made middle self.old one out.now
            → gathered start self.new d n (parts ++ one ∷ []) rows.new };

    /// Takes more parts like one that was made, at most so many and as many as need not be made to
    /// be taken, and says how many they are.
    fn repeat(&mut self, rows: &mut Self::Rows, out: &Self::Out, more: u64) -> u64
        ensures at_most { result ≤ more }
        ensures pushed { (start first then : Self) (d n : ℕ) (parts alike : List MadePart)
            (one : MadePart)
            → made first then one out.now → AllByRecursion (IsLike one) alike
            → length alike ≡ result → gathered start self.old d n parts rows.old
            → gathered start self.new d n (parts ++ alike) rows.new };

    /// The full tree of the parts that were taken.
    fn finish(&mut self, rows: Self::Rows) -> Self::Out
        requires { CanFinish room gathered self.old rows }
        ensures { (start : Self) (d : ℕ) (parts : List MadePart)
            → gathered start self.old d (length parts) parts rows
            → made start self.new (whole_of d parts) result };

    /// The full tree of this depth over the bytes in chunks.
    fn packed(&mut self, depth: u32, bytes: &[u8]) -> Self::Out
        requires depth { depth ≤ 126 }
        requires few { (length bytes.now + 31) / 32 ≤ 2 ^ depth }
        requires room { room self.old (whole_of depth (map chunk_part (pack bytes.now))).nodes }
        ensures { made self.old self.new
            (whole_of depth (map chunk_part (pack bytes.now))) result };

    /// The full tree of this depth over so many bits in chunks, without the delimiter.
    fn bits(&mut self, depth: u32, len: u64, bytes: &[u8]) -> Self::Out
        requires depth { depth ≤ 126 }
        requires some { 0 < length bytes.now }
        requires delimited { 0 < last_byte bytes.now }
        requires short { length bytes.now < 2 ^ 32 }
        requires len { len < 2 ^ 63 }
        requires few { (len + 255) / 256 ≤ 2 ^ depth }
        requires room { room self.old (whole_of depth
            (map chunk_part (chunks ((len + 255) / 256) (undelimited bytes.now)))).nodes }
        ensures { made self.old self.new
            (whole_of depth (map chunk_part (chunks ((len + 255) / 256) (undelimited bytes.now))))
            result };

    /// The full tree of this depth over values of a basic type of this size, packed.
    fn packed_values(&mut self, size: usize, depth: u32, parts: &[Value]) -> Self::Out
        requires size { size * (32 / size) ≡ 32 }
        requires basic { AreBasic size parts.now }
        requires depth { depth ≤ 126 }
        requires few { (length parts.now * size + 31) / 32 ≤ 2 ^ depth }
        requires room { let chunks = (length parts.now * size + 31) / 32 in
            room self.old (merkle_pairs depth chunks + chunks) }
        ensures { (t : SszType) → basic_size t ≡ Some size
            → AllByRecursion (Fits t) (map value_of parts.now)
            → made self.old self.new
            (whole_of depth (map chunk_part (pack (concat (encodings_of t parts.now))))) result };

    /// The full tree of this depth over these bits, packed.
    fn bit_values(&mut self, depth: u32, bits: &[bool]) -> Self::Out
        requires depth { depth ≤ 126 }
        requires few { (length bits.now + 255) / 256 ≤ 2 ^ depth }
        requires room { room self.old (whole_of depth (map chunk_part (pack_bits bits.now))).nodes }
        ensures { made self.old self.new (whole_of depth (map chunk_part (pack_bits bits.now)))
            result };

    /// Takes as many of the first elements as it makes together, and says how many they are.
    fn ahead(
        &mut self,
        rows: &mut Self::Rows,
        schema: &Schema,
        elem: TypeId,
        count: u64,
        bytes: &[u8],
    ) -> u64
        requires known { elem < length schema.now.trees }
        requires legal { IsLegal schema.now.format (type_of schema.now elem) }
        requires short { length bytes.now < 2 ^ 32 }
        requires faultless { let t = type_of schema.now elem in
            elements_fault (first_fault t) (fixed_size t) count 0 bytes.now ≡ None }
        requires few { (d : ℕ) × gathered self.old self.old d count [] rows.old × (count ≤ 2 ^ d) }
        ensures at_most { result ≤ count }
        ensures pushed { let t = type_of schema.now elem in
            let vs = take result (element_values t count bytes.now) in
            (d : ℕ) → gathered self.old self.old d count [] rows.old
            → gathered self.old self.new d count (map (part_of_value t) vs) rows.new };

    // Fewer nodes have room where more have.
    ghost room_less: { (now : Self) (n m : ℕ) → n ≤ m → room now m → room now n };

    // The next part has room.
    ghost room_next: { (start now : Self) (d n : ℕ) (before rest : List MadePart) (one : MadePart)
        (rows : Self.Rows) → gathered start now d n before rows
        → room start (whole_of d (before ++ one ∷ rest)).nodes → room now one.nodes };
}

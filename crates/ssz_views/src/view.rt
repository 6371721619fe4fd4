ghost use Rattle.std.specs.Prelude.{ℕ, ◌≡◌, ◌<◌, ◌^◌, ◌∷◌, [], ◌↔◌, length, Some, IsSome, IfSome, IfOk, IfErr, option_map};
ghost use Rattle.ssz_schema.specs.declared.path.PathStep.TheVariants.{Field, Index, Option as Chosen};
ghost use Rattle.ssz_schema.specs.Types.{uint};
ghost use Rattle.ssz_schema.specs.Sizes.{basic_size};
ghost use Rattle.ssz_schema.specs.Unfolding.{type_of};
ghost use Rattle.ssz_schema.specs.Indices.{whole};
ghost use Rattle.ssz_chunk.specs.Tree.{Tree, leaf};
ghost use Rattle.ssz_value.specs.Trees.{mixed_in};
ghost use Rattle.ssz_arena.specs.Content.{IsNodeOf, tree_of};
ghost use Rattle.ssz_places.specs.Spots.{offset_of};
ghost use Rattle.ssz_walk.specs.Found.{spot_of};
ghost use Rattle.ssz_views.specs.Looking.{CanLie, bit_offset, ForPart, IsView, Misses, ViewReaches, type_seen, length_in, selector_in, number_of_value, wide_in, truth_in};

use ssz_arena::{Arena, NodeId};
use ssz_chunk::{Chunk, PairHash};
use ssz_nodes::{bit_of, chunk_of, number_of};
use ssz_schema::{PathStep, Schema, Ty, TypeId, Width};
use ssz_value::{PathFault, wide_bytes};
use ssz_walk::{Place, Spot, find, find_field, mixed_in};
use std::marker::Model;

/// A part of a value in an arena. While it lives, the arena stays as it is.
#[derive(Drop)]
pub struct View<'a, H: PairHash> {
    arena: &'a Arena<H>,
    schema: &'a Schema,
    id: TypeId,
    node: NodeId,
    spot: Spot,
}

impl<'a, H: PairHash> Model for View<'a, H> {
    ghost use Rattle.std.specs.Coded.{codes};
    ghost use Rattle.ssz_schema.specs.Unfolding.{coded_types};
    ghost use Rattle.ssz_walk.specs.Found.{spot_of};
    ghost use Rattle.ssz_views.specs.Looking.{Looking, IsView};

    ghost Value = { Looking };

    ghost coded = { Prim.hlevel (codes, coded_types) };

    ghost view = { λ a. record {
      arena = a.arena.now;
      types = a.schema.now;
      id = a.id;
      node = a.node;
      lies = spot_of a.spot;
    } };

    ghost invariant = { λ a. IsView (record {
      arena = a.arena.now;
      types = a.schema.now;
      id = a.id;
      node = a.node;
      lies = spot_of a.spot;
    }) };
}

impl<'a, H: PairHash> View<'a, H> {
    /// The whole value whose tree the node has.
    pub fn new(arena: &'a Arena<H>, schema: &'a Schema, id: TypeId, node: NodeId) -> Self
        requires known { id < length schema.now.trees }
        requires node { IsNodeOf arena.now node }
        ensures { result ≡ record {
          arena = arena.now;
          types = schema.now;
          id = id;
          node = node;
          lies = whole;
        } }
    {
        View {
            arena,
            schema,
            id,
            node,
            spot: Spot::Whole,
        }
    }

    // The view of another place in the same arena.
    fn to(&self, place: Place) -> Self
        requires known { place.id < length self.now.types.trees }
        requires node { IsNodeOf self.now.arena place.node }
        requires lies { CanLie (type_of self.now.types place.id) (spot_of place.spot) }
        ensures { result ≡ record self.now {
          id = place.id;
          node = place.node;
          lies = spot_of place.spot;
        } }
    {
        View {
            arena: self.arena,
            schema: self.schema,
            id: place.id,
            node: place.node,
            spot: place.spot,
        }
    }

    // The same view.
    fn same(&self) -> Self
        ensures { result ≡ self.now }
    {
        View {
            arena: self.arena,
            schema: self.schema,
            id: self.id,
            node: self.node,
            spot: self.spot,
        }
    }

    /// The part at the path. `BadPath` exactly where the path does not fit the type, and then
    /// `Absent` exactly where the part is not there.
    pub fn at(&self, path: &[PathStep]) -> Result<View<'a, H>, PathFault>
        ensures reached { IfOk result (ViewReaches self.now path.now) }
        ensures missed { IfErr result (Misses self.now path.now) }
    {
        if path.is_empty() {
            return Ok(self.same());
        }
        // Every type of a schema is legal.
        let _legal = self.schema.ty(self.id);
        let place = find(self.arena, self.schema, self.id, self.node, path)?;
        Ok(self.to(place))
    }

    /// The field of this name of a container.
    pub fn field(&self, name: &str) -> Result<View<'a, H>, PathFault>
        ensures reached { IfOk result (ViewReaches self.now (Field name.now ∷ [])) }
        ensures missed { IfErr result (Misses self.now (Field name.now ∷ [])) }
    {
        // Every type of a schema is legal.
        let _legal = self.schema.ty(self.id);
        let field = find_field(self.arena, self.schema, self.id, self.node, name.as_bytes())?;
        Ok(self.to(field))
    }

    /// The element or bit of this number of a sequence or of bits.
    pub fn item(&self, i: u64) -> Result<View<'a, H>, PathFault>
        ensures reached { IfOk result (ViewReaches self.now (Index i ∷ [])) }
        ensures missed { IfErr result (Misses self.now (Index i ∷ [])) }
    {
        self.at(&[PathStep::Index(i)])
    }

    /// The value of a union, where this is its selector.
    pub fn option(&self, selector: u8) -> Result<View<'a, H>, PathFault>
        ensures reached { IfOk result (ViewReaches self.now (Chosen selector ∷ [])) }
        ensures missed { IfErr result (Misses self.now (Chosen selector ∷ [])) }
    {
        self.at(&[PathStep::Option(selector)])
    }

    /// How many elements or bits the part has. None exactly where its type is neither a sequence
    /// nor one of bits.
    pub fn len(&self) -> Option<u64>
        ensures { ForPart self.now (λ v. result ≡ length_in (type_seen self.now) v) }
    {
        match self.schema.ty(self.id) {
            Ty::Vector(_, n) => Some(*n),
            Ty::Bitvector(n) => Some(*n),
            Ty::List(_, _) => self.number_beside(),
            Ty::Bitlist(_) => self.number_beside(),
            _ => None,
        }
    }

    /// The selector of a union. None exactly where the type is another one.
    pub fn selector(&self) -> Option<u8>
        ensures { ForPart self.now (λ v. result ≡ selector_in v) }
    {
        match self.schema.ty(self.id) {
            Ty::Union(_) => match self.number_beside() {
                Some(number) => Some((number % 256) as u8),
                None => None,
            },
            _ => None,
        }
    }

    // The length or the selector that is mixed in.
    fn number_beside(&self) -> Option<u64>
        ensures { (n : ℕ) (content : Tree)
            → tree_of self.now.arena self.now.node ≡ mixed_in n content → n < 2 ^ 64
            → result ≡ Some n }
    {
        match mixed_in(self.arena, self.node) {
            Some((_, number)) => Some(number),
            None => None,
        }
    }

    /// A number of at most 128 bits. None exactly where the type is another one.
    pub fn uint(&self) -> Option<u128>
        ensures { ForPart self.now (λ v. result ≡ number_of_value v) }
    {
        match self.schema.ty(self.id) {
            Ty::Uint(width) => self.number(*width),
            _ => None,
        }
    }

    // The number of this width, up to 128 bits.
    fn number(&self, width: Width) -> Option<u128>
        requires { uint width ≡ type_seen self.now }
        ensures { ForPart self.now (λ v. result ≡ number_of_value v) }
    {
        match width {
            Width::W256 => None,
            _ => {
                let chunk = chunk_of(self.arena, self.node);
                Some(number_of(width, chunk, byte_of_leaf(self.spot)))
            }
        }
    }

    /// The 32 bytes of a uint256. None exactly where the type is another one.
    pub fn wide(&self) -> Option<&'a Chunk>
        ensures { ForPart self.now (λ v. option_map (λ chunk. chunk.now.0) result ≡ wide_in v) }
    {
        match self.schema.ty(self.id) {
            Ty::Uint(width) => match width {
                Width::W256 => {
                    let chunk = chunk_of(self.arena, self.node);
                    let _bytes = wide_bytes(chunk);
                    Some(chunk)
                }
                _ => None,
            },
            _ => None,
        }
    }

    /// A boolean or a bit. None exactly where the type is not boolean.
    pub fn boolean(&self) -> Option<bool>
        ensures { ForPart self.now (λ v. result ≡ truth_in v) }
    {
        match self.schema.ty(self.id) {
            Ty::Boolean => Some(bit_of(chunk_of(self.arena, self.node), bit_of_leaf(self.spot))),
            _ => None,
        }
    }

    /// The leaf in which a basic part or a bit lies. None exactly for other parts.
    pub fn chunk(&self) -> Option<&'a Chunk>
        ensures some { IsSome result ↔ IsSome (basic_size (type_seen self.now)) }
        ensures chunk { ForPart self.now (λ _. IfSome result (λ chunk.
            tree_of self.now.arena self.now.node ≡ leaf chunk.now.0)) }
    {
        match self.schema.ty(self.id) {
            Ty::Uint(_) => Some(chunk_of(self.arena, self.node)),
            Ty::Boolean => Some(chunk_of(self.arena, self.node)),
            _ => None,
        }
    }
}

// The byte of the leaf at which the part begins.
fn byte_of_leaf(spot: Spot) -> usize
    ensures { result ≡ offset_of (spot_of spot) }
{
    match spot {
        Spot::Whole => 0,
        Spot::Byte(from) => usize::from(from),
        Spot::Bit(i) => usize::from(i) / 8,
    }
}

// The bit of the leaf at which the part begins.
fn bit_of_leaf(spot: Spot) -> usize
    ensures { result ≡ bit_offset (spot_of spot) }
{
    match spot {
        Spot::Whole => 0,
        Spot::Byte(from) => 8 * usize::from(from),
        Spot::Bit(i) => usize::from(i),
    }
}

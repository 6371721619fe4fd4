// What is drawn at one part, by its type.
ghost use Rattle.std.specs.Prelude.{ℕ, ◌≡◌, ◌<◌, ◌≤◌, ◌^◌, length, slice_get, Some, IfOk, IfSome, IfNone, OnOk};
ghost use Rattle.std.specs.List.{AllByRecursion};
ghost use Rattle.ssz_chunk.specs.Tree.{Tree};
ghost use Rattle.ssz_schema.specs.Types.{list, bitlist, union, container};
ghost use Rattle.ssz_schema.specs.Legal.{IsLegal};
ghost use Rattle.ssz_schema.specs.Unfolding.{Types, type_of, fields_over, options_over, IsBelow};
ghost use Rattle.ssz_value.specs.Values.{Fits};
ghost use Rattle.ssz_value.specs.Defaults.{default_of};
ghost use Rattle.ssz_value.specs.Encoding.{serialize};
ghost use Rattle.ssz_value.specs.Trees.{mixed_in};
ghost use Rattle.ssz_arena.specs.Content.{IsNodeOf, tree_of};
ghost use Rattle.ssz_machine.specs.Drawing.{change_of, drawn, drawn_below, drawn_bit, next_seed, seed_after};
ghost use Rattle.ssz_draws.specs.declared.turn.Change.TheVariants.{One};
ghost use Rattle.ssz_draws.specs.Turns.{IsDrawnTurn, IsSeen, HasLength, IsChosen, change_meant};

use super::generator::Generator;
use super::turn::{Change, Turn};
use ssz_arena::{Arena, NodeId};
use ssz_bytes::ByteRun;
use ssz_chunk::PairHash;
use ssz_codec::{EncodeFault, encode};
use ssz_schema::{Name, PathStep, Schema, Ty, TypeId};
use ssz_value::default_of;
use ssz_walk::mixed_in;
use std::alloc::{AllocError, Global};

impl Generator {
    /// What is drawn at the part of this type that the node has.
    pub(crate) fn turn<H: PairHash>(
        &mut self,
        alloc: Global,
        arena: &Arena<H>,
        schema: &Schema,
        id: TypeId,
        node: NodeId,
    ) -> Result<Turn, AllocError>
        requires known { id < length schema.now.trees }
        requires node { IsNodeOf arena.now node }
        ensures { let t = type_of schema.now id in IfOk result (IsDrawnTurn schema.now id t
            (IsSeen t (tree_of arena.now node)) self.old self.new) }
    {
        match schema.ty(id) {
            Ty::Uint(width) => Ok(Turn::Set(self.draw_bytes(alloc, width.byte_count())?)),
            Ty::Boolean => Ok(Turn::Set(self.draw_bit(alloc)?)),
            Ty::Container(fields) => self.turn_to_field(alloc, schema, id, fields.as_slice()),
            Ty::Vector(elem, n) => Ok(Turn::On(*elem, PathStep::Index(self.draw_below(*n)))),
            Ty::List(elem, limit) => {
                self.turn_of_list(alloc, schema, id, *elem, *limit, beside(arena, node))
            }
            Ty::Bitvector(n) => self.turn_to_bit(alloc, *n),
            Ty::Bitlist(limit) => self.turn_of_bits(alloc, *limit, beside(arena, node)),
            Ty::Union(options) => {
                Ok(self.turn_of_union(schema, id, options.as_slice(), beside(arena, node)))
            }
        }
    }

    // On to a field of a container of these fields, whose types stand before id.
    fn turn_to_field(
        &mut self,
        alloc: Global,
        schema: &Schema,
        id: TypeId,
        fields: &[(Name, TypeId)],
    ) -> Result<Turn, AllocError>
        requires before { AllByRecursion (λ part. part.1 < id) fields.now }
        requires legal { IsLegal schema.now.format
            (container (fields_over schema.now.trees fields.now)) }
        ensures { let t = container (fields_over schema.now.trees fields.now) in
            IfOk result (IsDrawnTurn schema.now id t (Fits t) self.old self.new) }
    {
        let _trees = schema;
        let field = &fields[self.draw(fields.len() as u64) as usize];
        let name = Name::copy_of(alloc, field.0.as_bytes())?;
        Ok(Turn::On(field.1, PathStep::Field(name)))
    }

    // At a list of n elements of this type, which stands before id.
    // Seven parameters: three say the type, whose number the measure is.
    fn turn_of_list(
        &mut self,
        alloc: Global,
        schema: &Schema,
        id: TypeId,
        elem: TypeId,
        limit: u64,
        n: u64,
    ) -> Result<Turn, AllocError>
        requires known { id < length schema.now.trees }
        requires before { elem < id }
        ensures { let t = list (type_of schema.now elem) limit in IfOk result
            (IsDrawnTurn schema.now id t (λ v. Fits t v × HasLength n v) self.old self.new) }
    {
        let _before = id;
        match change_of(self.draw(4), n, limit) {
            Change::One => Ok(Turn::On(elem, PathStep::Index(self.draw_below(n)))),
            Change::Taken => Ok(Turn::Pop),
            Change::Added => Ok(Turn::Append(default_bytes(alloc, schema, elem)?)),
            Change::Nothing => Ok(Turn::Stop),
        }
    }

    // One of n bits is set.
    fn turn_to_bit(&mut self, alloc: Global, n: u64) -> Result<Turn, AllocError>
        requires { 0 < n }
        ensures drawn { IfOk result (λ turn.
            turn ≡ Turn.SetBit (drawn_below n self.old) (drawn_bit (next_seed self.old))) }
        ensures next { OnOk result (self.new ≡ seed_after 2 self.old) }
    {
        let i = self.draw_below(n);
        Ok(Turn::SetBit(i, self.draw_bit(alloc)?))
    }

    // At a bitlist of n bits.
    fn turn_of_bits(&mut self, alloc: Global, limit: u64, n: u64) -> Result<Turn, AllocError>
        ensures { (types : Types) (before : ℕ) → let t = bitlist limit in IfOk result
            (IsDrawnTurn types before t (λ v. Fits t v × HasLength n v) self.old self.new) }
    {
        match change_of(self.draw(4), n, limit) {
            Change::One => self.turn_to_bit(alloc, n),
            Change::Taken => Ok(Turn::Pop),
            Change::Added => Ok(Turn::Append(self.draw_bit(alloc)?)),
            Change::Nothing => Ok(Turn::Stop),
        }
    }

    // At a union of these options, whose types stand before id, with this selector.
    fn turn_of_union(
        &mut self,
        schema: &Schema,
        id: TypeId,
        options: &[Option<TypeId>],
        selector: u64,
    ) -> Turn
        requires before { AllByRecursion (IsBelow id) options.now }
        requires some { 0 < length options.now }
        requires few { length options.now ≤ 128 }
        ensures { let t = union (options_over schema.now.trees options.now) in
            IsDrawnTurn schema.now id t (IsChosen t selector) self.old self.new result }
    {
        let _trees = schema;
        if self.draw(2) == 1 {
            return match type_at(options, selector) {
                Some(part) => Turn::On(part, PathStep::Option(selector as u8)),
                None => self.turn_to_option(options.len()),
            };
        }
        self.turn_to_option(options.len())
    }

    // One of so many options is chosen.
    fn turn_to_option(&mut self, count: usize) -> Turn
        requires some { 0 < count }
        requires few { count ≤ 128 }
        ensures drawn { result ≡ Turn.Choose (drawn count self.old) }
        ensures next { self.new ≡ next_seed self.old }
    {
        Turn::Choose(self.draw(count as u64) as u8)
    }
}

// The type of the option of this number, if there is one and it is not None.
fn type_at(options: &[Option<TypeId>], number: u64) -> Option<TypeId>
    ensures some { IfSome result (λ part. slice_get options.now number ≡ Some (Some part)) }
    ensures within { IfSome result (λ part. number < length options.now) }
    ensures none { IfNone result ((part : ℕ) → slice_get options.now number ≡ Some (Some part)
        → ⊥) }
{
    match options.get(number as usize) {
        Some(option) => *option,
        None => None,
    }
}

// The number that is mixed in to the tree of the node: the length of a list or bitlist, or the
// selector of a union.
fn beside<H: PairHash>(arena: &Arena<H>, node: NodeId) -> u64
    requires { IsNodeOf arena.now node }
    ensures { (n : ℕ) (content : Tree) → tree_of arena.now node ≡ mixed_in n content
        → n < 2 ^ 64 → result ≡ n }
{
    match mixed_in(arena, node) {
        Some((_, n)) => n,
        None => 0,
    }
}

// What becomes of a list of n elements, where this number below 4 is drawn.
fn change_of(choice: u64, n: u64, limit: u64) -> Change
    ensures exact { change_meant result ≡ change_of choice n limit }
    ensures some { result ≡ One → 0 < n }
{
    if n == 0 {
        return if limit > 0 {
            Change::Added
        } else {
            Change::Nothing
        };
    }
    if choice == 3 {
        return Change::One;
    }
    if choice == 2 || n == limit {
        return Change::Taken;
    }
    if n < limit {
        Change::Added
    } else {
        Change::Nothing
    }
}

// The encoding of the default of the type.
fn default_bytes(alloc: Global, schema: &Schema, id: TypeId) -> Result<ByteRun, AllocError>
    requires { id < length schema.now.trees }
    ensures { let t = type_of schema.now id in
        IfOk result (λ run. run ≡ serialize t (default_of t)) }
{
    let _legal = schema.ty(id);
    let value = default_of(alloc, schema, id)?;
    let mut bytes = Vec::new(alloc);
    // The default of a legal type has at most 2^24 bytes.
    match encode(schema, id, &value, u32::MAX, &mut bytes) {
        Ok(()) => Ok(ByteRun::from_bytes(bytes)),
        Err(EncodeFault::Memory) => Err(AllocError),
        Err(EncodeFault::TooLong) => unreachable!(),
    }
}

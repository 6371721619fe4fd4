// The index of the part that a path names.
ghost use Rattle.std.specs.Prelude.{◌≡◌, ◌+◌, ◌*◌, ◌<◌, ◌≤◌, ◌^◌, length, IsSome};
ghost use Rattle.std.specs.Option.{ForSome};
ghost use Rattle.ssz_schema.specs.Unfolding.{type_of};
ghost use Rattle.ssz_schema.specs.Sizes.{type_levels};
ghost use Rattle.ssz_schema.specs.declared.path.PathStep.TheVariants.{Index};
ghost use Rattle.ssz_schema.specs.Paths.{step_type};
ghost use Rattle.ssz_schema.specs.Steps.{lead_number};
ghost use Rattle.ssz_schema.specs.Indices.{element_position, step_levels, step_position, step_index, generalized_index};

use super::gindex::Gindex;
use ssz_schema::{PathStep, Schema, Ty, TypeId};

impl Gindex {
    /// The place, in the tree of a value of this type of the schema, of the part at the path: its
    /// node, or the leaf in which it lies. None exactly where the path does not fit the type
    /// (merkle-proofs.md, SSZ object to index).
    pub fn of_path(schema: &Schema, id: TypeId, path: &[PathStep]) -> Option<Gindex>
        requires { id < length schema.now.trees }
        ensures { result ≡ generalized_index (type_of schema.now id) path.now }
    {
        // A legal type has at most 126 levels, so that each index fits.
        let _legal = schema.ty(id);
        let mut index = Gindex::root();
        let mut part = id;
        for step in path {
            let Some(lead) = schema.lead(part, step) else {
                return None;
            };
            index = index.placed(schema, part, step, lead.number);
            part = lead.part;
        }
        Some(index)
    }

    /// The place of the part that a step leads to, where this is the place of a value of the type.
    ///
    /// Conditions: the step fits the type, and the levels of the type have room below this index.
    pub fn step(self, schema: &Schema, id: TypeId, step: &PathStep) -> Gindex
        requires known { id < length schema.now.trees }
        requires fits { IsSome (step_type (type_of schema.now id) step.now) }
        requires room { (self + 1) * 2 ^ type_levels (type_of schema.now id) ≤ 2 ^ 127 }
        ensures { result ≡ step_index self (type_of schema.now id) step.now }
    {
        match schema.lead(id, step) {
            Some(lead) => self.placed(schema, id, step, lead.number),
            None => self,
        }
    }

    /// The same place, where this is the number that `Schema::lead` has of the step: no names are
    /// looked through.
    ///
    /// Conditions: the step fits the type, and the levels of the type have room below this index.
    pub fn placed(self, schema: &Schema, id: TypeId, step: &PathStep, number: u64) -> Gindex
        requires known { id < length schema.now.trees }
        requires fits { IsSome (step_type (type_of schema.now id) step.now) }
        requires number { number ≡ lead_number step.now (type_of schema.now id) }
        requires room { (self + 1) * 2 ^ type_levels (type_of schema.now id) ≤ 2 ^ 127 }
        ensures { result ≡ step_index self (type_of schema.now id) step.now }
    {
        let levels = step_levels(schema, id, step);
        let upper = self.get() << levels;
        Gindex::behind(upper, step_position(schema, id, step, number))
    }
}

// How many levels the step goes down.
fn step_levels(schema: &Schema, id: TypeId, step: &PathStep) -> u32
    requires { id < length schema.now.trees }
    ensures { result ≡ step_levels (type_of schema.now id) step.now }
{
    match schema.ty(id) {
        Ty::Container(_) | Ty::Vector(_, _) | Ty::Bitvector(_) => schema.depth(id),
        Ty::List(_, _) | Ty::Bitlist(_) => match step {
            PathStep::Index(_) => schema.depth(id) + 1,
            _ => 1,
        },
        Ty::Uint(_) | Ty::Boolean | Ty::Union(_) => 1,
    }
}

// To which of the nodes so many levels down the step leads, where a field has this number.
fn step_position(schema: &Schema, id: TypeId, step: &PathStep, number: u64) -> u64
    requires known { id < length schema.now.trees }
    requires number { number ≡ lead_number step.now (type_of schema.now id) }
    ensures { result ≡ step_position (type_of schema.now id) step.now }
{
    match step {
        PathStep::Field(_) => number,
        PathStep::Index(i) => index_position(schema, id, *i),
        PathStep::Len | PathStep::Selector => 1,
        PathStep::Option(_) => 0,
    }
}

fn index_position(schema: &Schema, id: TypeId, i: u64) -> u64
    requires { id < length schema.now.trees }
    ensures { result ≡ step_position (type_of schema.now id) (Index i) }
{
    match schema.ty(id) {
        Ty::Vector(elem, _) | Ty::List(elem, _) => element_position(schema.basic_size(*elem), i),
        Ty::Bitvector(_) | Ty::Bitlist(_) => i / 256,
        Ty::Uint(_) | Ty::Boolean | Ty::Container(_) | Ty::Union(_) => 0,
    }
}

// The chunk in which element i begins, given the elements' size where they are basic.
fn element_position(size: Option<u64>, i: u64) -> u64
    requires { ForSome size (λ z. z ≤ 32) }
    ensures { result ≡ element_position size i }
{
    match size {
        Some(size) => (u128::from(i) * u128::from(size) / 32) as u64,
        None => i,
    }
}

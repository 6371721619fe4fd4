// From the node of a value to the edit of a part.
ghost use Rattle.std.specs.Prelude.{◌≡◌, ◌<◌, [], ◌∷◌, ◌++◌, length, IfOk, OnErr, IfSome, Some, None};
ghost use Rattle.ssz_schema.specs.declared.path.PathStep.TheVariants.{Index};
ghost use Rattle.ssz_schema.specs.Unfolding.{type_of};
ghost use Rattle.ssz_arena.specs.Content.{IsNodeOf, tree_of};
ghost use Rattle.ssz_script.specs.declared.statement.Statement.TheVariants.{Set, Append, Pop, Choose};
ghost use Rattle.ssz_machine.specs.Drawing.{worked};
ghost use Rattle.ssz_draws.specs.Turns.{edit_at};
ghost use Rattle.ssz_draws.specs.Walked.{IsWalked, IsEditStatement};

use super::generator::Generator;
use super::turn::Turn;
use ssz_arena::{Arena, NodeId};
use ssz_bytes::ByteRun;
use ssz_chunk::PairHash;
use ssz_line::{Identifier, Steps};
use ssz_schema::{Name, PathStep, Schema, TypeId};
use ssz_script::Statement;
use ssz_walk::step_place;
use std::alloc::{AllocError, Global};

impl Generator {
    /// The edit of the version `w` that a walk comes to from the node of a value of the type, or
    /// None where it comes to none, with its draws taken from this generator: for each value with
    /// the node's tree what the walk over the value comes to. It fails for want of memory alone,
    /// and then it has drawn nothing.
    pub fn walk<H: PairHash>(
        &mut self,
        alloc: Global,
        arena: &Arena<H>,
        schema: &Schema,
        id: TypeId,
        node: NodeId,
    ) -> Result<Option<Statement>, AllocError>
        requires known { id < length schema.now.trees }
        requires node { IsNodeOf arena.now node }
        ensures walked { IfOk result (IsWalked (type_of schema.now id) (tree_of arena.now node)
            self.old self.new) }
        ensures edits { IfOk result (λ edit. IfSome edit IsEditStatement) }
        ensures err { OnErr result (self.new ≡ self.old) }
    {
        let mut walking = *self;
        let edit = walking.walk_on(alloc, arena, schema, id, node)?;
        *self = walking;
        Ok(edit)
    }

    // The same, but after want of memory some of the draws are taken.
    fn walk_on<H: PairHash>(
        &mut self,
        alloc: Global,
        arena: &Arena<H>,
        schema: &Schema,
        id: TypeId,
        node: NodeId,
    ) -> Result<Option<Statement>, AllocError>
        requires known { id < length schema.now.trees }
        requires node { IsNodeOf arena.now node }
        ensures walked { IfOk result (IsWalked (type_of schema.now id) (tree_of arena.now node)
            self.old self.new) }
        ensures edits { IfOk result (λ edit. IfSome edit IsEditStatement) }
    {
        let mut path = Vec::new(alloc);
        let mut part = id;
        let mut here = node;
        loop {
            let _legal = schema.ty(part);
            match self.turn(alloc, arena, schema, part, here)? {
                Turn::On(next, step) => {
                    // A value with this tree has the part.
                    let Some(place) = step_place(arena, schema, part, here, &step) else {
                        return Ok(None);
                    };
                    path.push(step)?;
                    part = next;
                    here = place.node;
                }
                turn => return edit_at(alloc, turn, path),
            }
        }
    }
}

// The edit of the part at the path that a turn comes to, if it comes to one.
fn edit_at(alloc: Global, turn: Turn, path: Vec<PathStep>) -> Result<Option<Statement>, AllocError>
    ensures { IfOk result (λ edit. edit ≡ edit_at turn path.items) }
{
    match turn {
        Turn::On(_, _) => Ok(None),
        Turn::Stop => Ok(None),
        Turn::Set(bytes) => set(alloc, path, bytes),
        Turn::SetBit(i, bytes) => set_bit(alloc, path, i, bytes),
        Turn::Pop => pop(alloc, path),
        Turn::Append(bytes) => append(alloc, path, bytes),
        Turn::Choose(selector) => choose(alloc, path, selector),
    }
}

fn set(alloc: Global, path: Vec<PathStep>, bytes: ByteRun) -> Result<Option<Statement>, AllocError>
    ensures { IfOk result (λ edit. edit ≡ Some (Set worked path.items bytes)) }
{
    let path = Steps::from_vec(path);
    Ok(Some(Statement::Set(worked(alloc)?, path, bytes)))
}

fn set_bit(
    alloc: Global,
    mut path: Vec<PathStep>,
    i: u64,
    bytes: ByteRun,
) -> Result<Option<Statement>, AllocError>
    ensures { let bit = path.items ++ Index i ∷ [] in
        IfOk result (λ edit. edit ≡ Some (Set worked bit bytes)) }
{
    path.push(PathStep::Index(i))?;
    set(alloc, path, bytes)
}

fn pop(alloc: Global, path: Vec<PathStep>) -> Result<Option<Statement>, AllocError>
    ensures { IfOk result (λ edit. edit ≡ Some (Pop worked path.items)) }
{
    let path = Steps::from_vec(path);
    Ok(Some(Statement::Pop(worked(alloc)?, path)))
}

fn append(
    alloc: Global,
    path: Vec<PathStep>,
    bytes: ByteRun,
) -> Result<Option<Statement>, AllocError>
    ensures { IfOk result (λ edit. edit ≡ Some (Append worked path.items bytes)) }
{
    let path = Steps::from_vec(path);
    Ok(Some(Statement::Append(worked(alloc)?, path, bytes)))
}

fn choose(alloc: Global, path: Vec<PathStep>, selector: u8) -> Result<Option<Statement>, AllocError>
    ensures { IfOk result (λ edit. edit ≡ Some (Choose worked path.items selector None)) }
{
    let path = Steps::from_vec(path);
    Ok(Some(Statement::Choose(worked(alloc)?, path, selector, None)))
}

/// The name of the version that is edited.
pub fn worked(alloc: Global) -> Result<Identifier, AllocError>
    ensures { IfOk result (λ name. name ≡ worked) }
{
    Ok(Identifier::new(Name::copy_of(alloc, b"w")?))
}

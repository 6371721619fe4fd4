//! Statements that edit a version: `set`, `append`, `pop` and `choose`.
//!
//! Each opens the place that it edits first (ssz_edit), so that its literal is read only where no
//! test refuses it. A literal without a fault then becomes nodes there, with no value made.
ghost use Rattle.std.specs.Prelude.{ℕ, ◌≡◌, ◌<◌, ◌^◌, Some, None, length, IfOk, IfSome, OnErr};
ghost use Rattle.ssz_schema.specs.Paths.{Path};
ghost use Rattle.ssz_arena.specs.Content.{node_count};
ghost use Rattle.ssz_versions.specs.Content.{held_at};
ghost use Rattle.ssz_edit.specs.Targets.{ChoosesAt, HasUnion};
ghost use Rattle.ssz_machine.specs.Editing.{append, choose, pop, set};
ghost use Rattle.ssz_machine.specs.Changes.{puts};
ghost use Rattle.ssz_decisions.specs.Content.{Grows};
ghost use Rattle.ssz_decisions.specs.Decisions.{AnswersWith};
ghost use Rattle.ssz_engine.specs.Tops.{IsDue, SetsTop};

use ssz_arena::NodeId;
use ssz_bytes::ByteRun;
use ssz_checking::check;
use ssz_chunk::PairHash;
use ssz_decisions::{Decision, Store, code_of_edit, finish, way_from};
use ssz_edit::{
    Choice, Given, given_of, literal_given, open_choice, open_end, open_part, option_default,
    option_fault, put_choice, put_element, put_part,
};
use ssz_line::Steps;
use ssz_script::Identifier;
use ssz_versions::Writer;
use std::alloc::AllocError;

/// `set V P LIT`. Fails for want of memory.
pub(crate) fn set<'a, H: PairHash>(
    store: &mut Store<H>,
    writer: Writer,
    v: &'a Identifier,
    path: &Steps,
    literal: &[u8],
) -> Result<Decision<'a>, AllocError>
    requires { length literal.now < 2 ^ 32 }
    ensures grows { Grows store.old store.new }
    ensures answers { IfOk result (AnswersWith H.pair_of
        (λ rules versions. set versions v.now path.now literal.now) (puts v.now) writer.0
        store.old store.new) }
    ensures tops { IfOk result (SetsTop v.now path.now writer.0 store.old store.new) }
    ensures whole { OnErr result (node_count store.new.arena ≡ node_count store.old.arena) }
{
    let way = match way_from(store, writer, v, path)? {
        Ok(way) => way,
        Err(code) => return Ok(Decision::Refused(code)),
    };
    let steps = way.steps.as_slice();
    let place = match open_part(&store.arena, &store.schema, way.id, way.node, steps) {
        Ok(place) => place,
        Err(fault) => return Ok(Decision::Refused(code_of_edit(fault))),
    };
    if let Some(fault) = check(&store.schema, place.id, literal) {
        return Ok(Decision::BadBytes(fault));
    }
    let given = Given::Bytes(literal);
    let node = put_part(&mut store.arena, &store.schema, way.node, &place, &given)?;
    Ok(Decision::Edited(v, node))
}

/// `append V P LIT`. Fails for want of memory.
pub(crate) fn append<'a, H: PairHash>(
    store: &mut Store<H>,
    writer: Writer,
    v: &'a Identifier,
    path: &Steps,
    literal: &[u8],
) -> Result<Decision<'a>, AllocError>
    requires { length literal.now < 2 ^ 32 }
    ensures grows { Grows store.old store.new }
    ensures answers { IfOk result (AnswersWith H.pair_of
        (λ rules versions. append versions v.now path.now literal.now) (puts v.now) writer.0
        store.old store.new) }
    ensures tops { IfOk result (IsDue store.new.arena) }
    ensures whole { OnErr result (node_count store.new.arena ≡ node_count store.old.arena) }
{
    let way = match way_from(store, writer, v, path)? {
        Ok(way) => way,
        Err(code) => return Ok(Decision::Refused(code)),
    };
    let steps = way.steps.as_slice();
    let end = match open_end(&store.arena, &store.schema, way.id, way.node, steps) {
        Ok(end) => end,
        Err(fault) => return Ok(Decision::Refused(code_of_edit(fault))),
    };
    let element = &end.slot.element;
    if let Some(fault) = check(&store.schema, element.id, literal) {
        return Ok(Decision::BadBytes(fault));
    }
    let given = Given::Bytes(literal);
    let node = put_element(&mut store.arena, &store.schema, way.node, &end, &given)?;
    Ok(Decision::Edited(v, node))
}

/// `pop V P`. Fails for want of memory.
pub(crate) fn pop<'a, H: PairHash>(
    store: &mut Store<H>,
    writer: Writer,
    v: &'a Identifier,
    path: &Steps,
) -> Result<Decision<'a>, AllocError>
    ensures grows { Grows store.old store.new }
    ensures answers { IfOk result (AnswersWith H.pair_of
        (λ rules versions. pop versions v.now path.now) (puts v.now) writer.0
        store.old store.new) }
    ensures tops { IfOk result (IsDue store.new.arena) }
    ensures whole { OnErr result (node_count store.new.arena ≡ node_count store.old.arena) }
{
    let way = match way_from(store, writer, v, path)? {
        Ok(way) => way,
        Err(code) => return Ok(Decision::Refused(code)),
    };
    let steps = way.steps.as_slice();
    // Every type of a schema is legal, so that the parts of its values are of their types.
    let _legal = store.schema.ty(way.id);
    let made = ssz_edit::pop(&mut store.arena, &store.schema, way.id, way.node, steps);
    finish(v, made)
}

/// `choose V P SEL [LIT]`. Fails for want of memory.
pub(crate) fn choose<'a, H: PairHash>(
    store: &mut Store<H>,
    writer: Writer,
    v: &'a Identifier,
    path: &Steps,
    selector: u8,
    literal: &Option<ByteRun>,
) -> Result<Decision<'a>, AllocError>
    requires { IfSome literal.now (λ bytes. length bytes < 2 ^ 32) }
    ensures grows { Grows store.old store.new }
    ensures answers { IfOk result (AnswersWith H.pair_of
        (λ rules versions. choose versions v.now path.now selector literal.now) (puts v.now)
        writer.0 store.old store.new) }
    ensures tops { IfOk result (IsDue store.new.arena) }
    ensures whole { OnErr result (node_count store.new.arena ≡ node_count store.old.arena) }
{
    let way = match way_from(store, writer, v, path)? {
        Ok(way) => way,
        Err(code) => return Ok(Decision::Refused(code)),
    };
    let steps = way.steps.as_slice();
    let (id, node) = (way.id, way.node);
    let choice = match open_choice(&store.arena, &store.schema, id, node, steps, selector) {
        Ok(choice) => choice,
        Err(fault) => return Ok(Decision::Refused(code_of_edit(fault))),
    };
    match literal {
        Some(bytes) => choose_literal(store, v, node, &choice, bytes.as_slice()),
        None => choose_default(store, v, node, &choice),
    }
}

// The same with a literal, where the option was found.
fn choose_literal<'a, H: PairHash>(
    store: &mut Store<H>,
    v: &'a Identifier,
    node: NodeId,
    choice: &Choice,
    literal: &[u8],
) -> Result<Decision<'a>, AllocError>
    requires choice { HasUnion store.old.types store.old.arena node choice.now }
    requires short { length literal.now < 2 ^ 32 }
    ensures grows { Grows store.old store.new }
    ensures answers { (writer id k : ℕ) (path : Path)
        → held_at store.old.entries writer v.now ≡ Some (id, node)
        → ChoosesAt store.old.types store.old.arena id node path k choice.now
        → IfOk result (AnswersWith H.pair_of
        (λ rules versions. choose versions v.now path k (Some literal.now)) (puts v.now) writer
        store.old store.new) }
    ensures tops { IfOk result (IsDue store.new.arena) }
    ensures whole { OnErr result (node_count store.new.arena ≡ node_count store.old.arena) }
{
    if let Some(fault) = option_fault(&store.schema, choice.option, literal) {
        return Ok(Decision::BadBytes(fault));
    }
    let inner = literal_given(choice.option, literal);
    let made = put_choice(&mut store.arena, &store.schema, node, choice, &inner)?;
    Ok(Decision::Edited(v, made))
}

// The same without one: the option has its default.
fn choose_default<'a, H: PairHash>(
    store: &mut Store<H>,
    v: &'a Identifier,
    node: NodeId,
    choice: &Choice,
) -> Result<Decision<'a>, AllocError>
    requires { HasUnion store.old.types store.old.arena node choice.now }
    ensures grows { Grows store.old store.new }
    ensures answers { (writer id k : ℕ) (path : Path)
        → held_at store.old.entries writer v.now ≡ Some (id, node)
        → ChoosesAt store.old.types store.old.arena id node path k choice.now
        → IfOk result (AnswersWith H.pair_of
        (λ rules versions. choose versions v.now path k None) (puts v.now) writer
        store.old store.new) }
    ensures tops { IfOk result (IsDue store.new.arena) }
    ensures whole { OnErr result (node_count store.new.arena ≡ node_count store.old.arena) }
{
    let default = option_default(store.alloc, &store.schema, choice.option)?;
    let inner = given_of(default.as_ref());
    let made = put_choice(&mut store.arena, &store.schema, node, choice, &inner)?;
    drop(default);
    Ok(Decision::Edited(v, made))
}

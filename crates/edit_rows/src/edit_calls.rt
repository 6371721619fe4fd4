// One call of an edit for a row.
ghost use Rattle.std.specs.Prelude.{◌≤◌, IfOk};
ghost use Rattle.ssz_arena.specs.Content.{IsNodeOf, node_count};
ghost use Rattle.edit_rows.specs.Versions.{AreRowVersions};

use super::edit::Versions;
use anyhow::{Result, bail};
use row_parts::{cut, element_value, option_value, part_value, parted, path_of};
use ssz_arena::{Arena, NodeId};
use ssz_chunk::PairHash;
use ssz_edit::{append, choose, pop, set};
use ssz_schema::{PathStep, Schema};
use ssz_value::EditFault;
use std::alloc::Global;

// The words of a row: the call, the path, the selector of `choose`, and the digits of what the
// edit brings in.
#[derive(Clone, Copy)]
struct EditWords<'a> {
    call: &'a str,
    path: &'a str,
    selector: u8,
    digits: &'a str,
}

fn words_of(row: &str) -> Result<EditWords<'_>> {
    let (call, rest) = parted(row, ' ')?;
    let (words, digits) = cut(rest);
    let (path, selector) = words.split_once(' ').unwrap_or((words, "0"));
    Ok(EditWords {
        call,
        path,
        selector: selector.parse()?,
        digits,
    })
}

// Where an edit is to be done, and what it brings in.
#[derive(Clone, Copy)]
struct Edit<'a> {
    steps: &'a [PathStep],
    words: EditWords<'a>,
}

/// The node that an edit makes of the one at hand, or why there is none.
pub fn edited<H: PairHash>(
    alloc: Global,
    arena: &mut Arena<H>,
    schema: &Schema,
    old: &Versions,
    row: &str,
) -> Result<std::result::Result<NodeId, EditFault>>
    requires { AreRowVersions schema.now arena.old old.now }
    ensures more { node_count arena.old ≤ node_count arena.new }
    ensures made { IfOk result (λ made. IfOk made (IsNodeOf arena.new)) }
{
    let words = words_of(row)?;
    let steps = path_of(alloc, words.path)?;
    let steps = steps.as_slice();
    called(alloc, arena, schema, old, &Edit { steps, words })
}

// By the call that the words name.
fn called<H: PairHash>(
    alloc: Global,
    arena: &mut Arena<H>,
    schema: &Schema,
    old: &Versions,
    edit: &Edit<'_>,
) -> Result<std::result::Result<NodeId, EditFault>>
    requires { AreRowVersions schema.now arena.old old.now }
    ensures more { node_count arena.old ≤ node_count arena.new }
    ensures made { IfOk result (λ made. IfOk made (IsNodeOf arena.new)) }
{
    match edit.words.call {
        "set" => set_part(alloc, arena, schema, old, edit),
        "append" => append_element(alloc, arena, schema, old, edit),
        "pop" => Ok(pop(arena, schema, old.id, old.now, edit.steps)),
        "choose" => choose_option(alloc, arena, schema, old, edit),
        _ => bail!("no edit"),
    }
}

fn set_part<H: PairHash>(
    alloc: Global,
    arena: &mut Arena<H>,
    schema: &Schema,
    old: &Versions,
    edit: &Edit<'_>,
) -> Result<std::result::Result<NodeId, EditFault>>
    requires { AreRowVersions schema.now arena.old old.now }
    ensures more { node_count arena.old ≤ node_count arena.new }
    ensures made { IfOk result (λ made. IfOk made (IsNodeOf arena.new)) }
{
    let part = schema.path_type(old.id, edit.steps);
    let value = part_value(alloc, schema, part, edit.words.digits)?;
    Ok(set(arena, schema, old.id, old.now, edit.steps, &value))
}

fn append_element<H: PairHash>(
    alloc: Global,
    arena: &mut Arena<H>,
    schema: &Schema,
    old: &Versions,
    edit: &Edit<'_>,
) -> Result<std::result::Result<NodeId, EditFault>>
    requires { AreRowVersions schema.now arena.old old.now }
    ensures more { node_count arena.old ≤ node_count arena.new }
    ensures made { IfOk result (λ made. IfOk made (IsNodeOf arena.new)) }
{
    let part = schema.path_type(old.id, edit.steps);
    let value = element_value(alloc, schema, part, edit.words.digits)?;
    Ok(append(arena, schema, old.id, old.now, edit.steps, &value))
}

fn choose_option<H: PairHash>(
    alloc: Global,
    arena: &mut Arena<H>,
    schema: &Schema,
    old: &Versions,
    edit: &Edit<'_>,
) -> Result<std::result::Result<NodeId, EditFault>>
    requires { AreRowVersions schema.now arena.old old.now }
    ensures more { node_count arena.old ≤ node_count arena.new }
    ensures made { IfOk result (λ made. IfOk made (IsNodeOf arena.new)) }
{
    let (steps, selector) = (edit.steps, edit.words.selector);
    let part = schema.path_type(old.id, steps);
    let inner = option_value(alloc, schema, part, selector, edit.words.digits)?;
    let inner = inner.as_ref();
    Ok(choose(arena, schema, old.id, old.now, steps, selector, inner))
}

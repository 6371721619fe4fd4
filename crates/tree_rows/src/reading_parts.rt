use anyhow::{Result, bail};
use row_parts::{Shown, path_of};
use ssz_chunk::PairHash;
use ssz_schema::PathStep;
use ssz_value::PathFault;
use ssz_views::View;
use std::slice;

/// Where a path leads from a view, by one call or step by step, and what the calls of the view
/// there answer.
pub fn print_part<H: PairHash>(
    rt: &HostRuntime,
    whole: &View<'_, H>,
    call: &str,
    word: &str,
) -> Result<()> {
    let path = path_of(rt.alloc(), word)?;
    print!(rt; "{call} {word}: ")?;
    match call {
        "at" => print_found(rt, whole.at(path.as_slice())),
        "steps" => print_found(rt, stepped(whole, path.as_slice())),
        _ => bail!("no call"),
    }
}

// Each step by its own call.
fn stepped<'a, H: PairHash>(
    whole: &View<'a, H>,
    path: &[PathStep],
) -> std::result::Result<View<'a, H>, PathFault> {
    let mut view = whole.at(&[])?;
    for step in path {
        view = next(&view, step)?;
    }
    Ok(view)
}

fn next<'a, H: PairHash>(
    view: &View<'a, H>,
    step: &PathStep,
) -> std::result::Result<View<'a, H>, PathFault> {
    match step {
        PathStep::Field(name) => match str::from_utf8(name.as_bytes()) {
            Ok(name) => view.field(name),
            Err(_) => Err(PathFault::BadPath),
        },
        PathStep::Index(i) => view.item(*i),
        PathStep::Option(selector) => view.option(*selector),
        PathStep::Len => view.at(slice::from_ref(step)),
        PathStep::Selector => view.at(slice::from_ref(step)),
    }
}

fn print_found<H: PairHash>(
    rt: &HostRuntime,
    found: std::result::Result<View<'_, H>, PathFault>,
) -> Result<()> {
    match found {
        Ok(view) => print_answers(rt, &view),
        Err(fault) => {
            println!(rt; "{fault:?}")?;
            Ok(())
        }
    }
}

fn print_answers<H: PairHash>(rt: &HostRuntime, view: &View<'_, H>) -> Result<()> {
    print_numbers(rt, view)?;
    let (wide, chunk) = (Shown(view.wide()), Shown(view.chunk()));
    println!(rt; "wide {wide}, boolean {:?}, chunk {chunk}", view.boolean())?;
    Ok(())
}

// The part of the line that has numbers.
fn print_numbers<H: PairHash>(rt: &HostRuntime, view: &View<'_, H>) -> Result<()> {
    let (len, selector, uint) = (view.len(), view.selector(), view.uint());
    print!(rt; "len {len:?}, selector {selector:?}, uint {uint:?}, ")?;
    Ok(())
}

// Versions by writer and name: a fork is a second name for the same node.
ghost use Rattle.std.specs.Prelude.{IfOk};
ghost use Rattle.ssz_schema.specs.Names.{IsName};

use crate::answers::told;
use anyhow::{Result, bail};
use ssz_arena::NodeId;
use ssz_schema::{Name, TypeId, is_name};
use ssz_versions::{Versions, Writer};
use std::alloc::Global;

const WRITER: Writer = Writer(0);

// The name of a version.
fn name_of(alloc: Global, text: &str) -> Result<Name>
    ensures { IfOk result IsName }
{
    let name = Name::copy_of(alloc, text.as_bytes())?;
    if !is_name(name.as_bytes()) {
        bail!("no name");
    }
    Ok(name)
}

// The first name holds the old node, its fork another one that is written there.
fn fork(
    versions: &mut Versions,
    first: &Name,
    second: &Name,
    id: TypeId,
    old: NodeId,
    new: NodeId,
) -> Result<()>
    requires first { IsName first.now }
    requires second { IsName second.now }
{
    told(versions.make(WRITER, first, id, old))?;
    told(versions.fork(WRITER, first, second))?;
    if let Some(node) = versions.edit(WRITER, second) {
        *node = new;
    }
    Ok(())
}

// Whether the writer holds this node of this type under the name.
fn holds(versions: &Versions, name: &Name, id: TypeId, node: NodeId) -> bool
    requires { IsName name.now }
{
    versions.get(WRITER, name) == Some((id, node))
}

/// Two versions, of which the second began as the first.
pub fn show(rt: &HostRuntime, id: TypeId, old: NodeId, new: NodeId) -> Result<()> {
    let first = name_of(rt.alloc(), "first")?;
    let second = name_of(rt.alloc(), "second")?;
    let mut versions = Versions::empty(rt.alloc())?;
    fork(&mut versions, &first, &second, id, old, new)?;
    let one = holds(&versions, &first, id, old);
    let other = holds(&versions, &second, id, new);
    println!(rt; "first is the old value: {one}, second is the new one: {other}")?;
    Ok(())
}

// The statements that the arguments of a call say.
ghost use Rattle.std.specs.Prelude.{IfOk};
ghost use Rattle.ssz_said.specs.Outcome.{AnswersFirst, IsUnlessMemory, at_most};
ghost use Rattle.ssz_said.specs.Statements.{HasShortLiteral, append_said, bytes_said, choose_default_said, choose_said, compact_said, drop_said, fork_said, gindex_said, json_said, len_said, lit_said, new_said, pop_said, root_said, set_said, upgrade_said};
ghost use Rattle.ssz_said.specs.declared.status.TheConstants.{MOST_BYTES, TOO_LONG};

use super::fault::SszFault;
use super::texts::{copy_of, name_of, path_of};
use ssz_script::Statement;
use std::alloc::Global;

/// `new V T`.
pub fn new(alloc: Global, v: &[u8], t: &[u8]) -> Result<Statement, SszFault>
    ensures said { IsUnlessMemory result (new_said v.now t.now) }
    ensures short { IfOk result HasShortLiteral }
{
    let v = name_of(alloc, v)?;
    let t = name_of(alloc, t)?;
    Ok(Statement::New(v, t))
}

/// `upgrade V W T`.
pub fn upgrade(alloc: Global, v: &[u8], w: &[u8], t: &[u8]) -> Result<Statement, SszFault>
    ensures said { IsUnlessMemory result (upgrade_said v.now w.now t.now) }
    ensures short { IfOk result HasShortLiteral }
{
    let v = name_of(alloc, v)?;
    let w = name_of(alloc, w)?;
    let t = name_of(alloc, t)?;
    Ok(Statement::Upgrade(v, w, t))
}

/// `lit V T LIT`.
pub fn lit(alloc: Global, v: &[u8], t: &[u8], bytes: &[u8]) -> Result<Statement, SszFault>
    ensures said { IsUnlessMemory result (lit_said v.now t.now bytes.now) }
    ensures first { AnswersFirst (at_most TOO_LONG MOST_BYTES bytes.now) result }
    ensures short { IfOk result HasShortLiteral }
{
    let bytes = copy_of(alloc, bytes)?;
    let v = name_of(alloc, v)?;
    let t = name_of(alloc, t)?;
    Ok(Statement::Lit(v, t, bytes))
}

/// `fork V W`.
pub fn fork(alloc: Global, v: &[u8], w: &[u8]) -> Result<Statement, SszFault>
    ensures said { IsUnlessMemory result (fork_said v.now w.now) }
    ensures short { IfOk result HasShortLiteral }
{
    let v = name_of(alloc, v)?;
    let w = name_of(alloc, w)?;
    Ok(Statement::Fork(v, w))
}

/// `drop V`.
pub fn drop(alloc: Global, v: &[u8]) -> Result<Statement, SszFault>
    ensures said { IsUnlessMemory result (drop_said v.now) }
    ensures short { IfOk result HasShortLiteral }
{
    let v = name_of(alloc, v)?;
    Ok(Statement::Drop(v))
}

/// `root V`.
pub fn root(alloc: Global, v: &[u8]) -> Result<Statement, SszFault>
    ensures said { IsUnlessMemory result (root_said v.now) }
    ensures short { IfOk result HasShortLiteral }
{
    let v = name_of(alloc, v)?;
    Ok(Statement::Root(v))
}

/// `compact`.
pub fn compact() -> Result<Statement, SszFault>
    ensures said { IsUnlessMemory result compact_said }
    ensures short { IfOk result HasShortLiteral }
{
    Ok(Statement::Compact)
}

/// `bytes V P`.
pub fn bytes(alloc: Global, v: &[u8], path: &[u8]) -> Result<Statement, SszFault>
    ensures said { IsUnlessMemory result (bytes_said v.now path.now) }
    ensures short { IfOk result HasShortLiteral }
{
    let v = name_of(alloc, v)?;
    let path = path_of(alloc, path)?;
    Ok(Statement::Bytes(v, path))
}

/// `set V P LIT`.
pub fn set(alloc: Global, v: &[u8], path: &[u8], bytes: &[u8]) -> Result<Statement, SszFault>
    ensures said { IsUnlessMemory result (set_said v.now path.now bytes.now) }
    ensures first { AnswersFirst (at_most TOO_LONG MOST_BYTES bytes.now) result }
    ensures short { IfOk result HasShortLiteral }
{
    let bytes = copy_of(alloc, bytes)?;
    let v = name_of(alloc, v)?;
    let path = path_of(alloc, path)?;
    Ok(Statement::Set(v, path, bytes))
}

/// `append V P LIT`.
pub fn append(alloc: Global, v: &[u8], path: &[u8], bytes: &[u8]) -> Result<Statement, SszFault>
    ensures said { IsUnlessMemory result (append_said v.now path.now bytes.now) }
    ensures first { AnswersFirst (at_most TOO_LONG MOST_BYTES bytes.now) result }
    ensures short { IfOk result HasShortLiteral }
{
    let bytes = copy_of(alloc, bytes)?;
    let v = name_of(alloc, v)?;
    let path = path_of(alloc, path)?;
    Ok(Statement::Append(v, path, bytes))
}

/// `pop V P`.
pub fn pop(alloc: Global, v: &[u8], path: &[u8]) -> Result<Statement, SszFault>
    ensures said { IsUnlessMemory result (pop_said v.now path.now) }
    ensures short { IfOk result HasShortLiteral }
{
    let v = name_of(alloc, v)?;
    let path = path_of(alloc, path)?;
    Ok(Statement::Pop(v, path))
}

/// `choose V P SEL LIT`.
pub fn choose(
    alloc: Global,
    v: &[u8],
    path: &[u8],
    selector: u8,
    bytes: &[u8],
) -> Result<Statement, SszFault>
    ensures said { IsUnlessMemory result (choose_said v.now path.now selector bytes.now) }
    ensures first { AnswersFirst (at_most TOO_LONG MOST_BYTES bytes.now) result }
    ensures short { IfOk result HasShortLiteral }
{
    let bytes = copy_of(alloc, bytes)?;
    let v = name_of(alloc, v)?;
    let path = path_of(alloc, path)?;
    Ok(Statement::Choose(v, path, selector, Some(bytes)))
}

/// `choose V P SEL`, with the option's default.
pub fn choose_default(
    alloc: Global,
    v: &[u8],
    path: &[u8],
    selector: u8,
) -> Result<Statement, SszFault>
    ensures said { IsUnlessMemory result (choose_default_said v.now path.now selector) }
    ensures short { IfOk result HasShortLiteral }
{
    let v = name_of(alloc, v)?;
    let path = path_of(alloc, path)?;
    Ok(Statement::Choose(v, path, selector, None))
}

/// `len V P`.
pub fn len(alloc: Global, v: &[u8], path: &[u8]) -> Result<Statement, SszFault>
    ensures said { IsUnlessMemory result (len_said v.now path.now) }
    ensures short { IfOk result HasShortLiteral }
{
    let v = name_of(alloc, v)?;
    let path = path_of(alloc, path)?;
    Ok(Statement::Len(v, path))
}

/// `json V P`.
pub fn json(alloc: Global, v: &[u8], path: &[u8]) -> Result<Statement, SszFault>
    ensures said { IsUnlessMemory result (json_said v.now path.now) }
    ensures short { IfOk result HasShortLiteral }
{
    let v = name_of(alloc, v)?;
    let path = path_of(alloc, path)?;
    Ok(Statement::Json(v, path))
}

/// `gindex T P`.
pub fn gindex(alloc: Global, t: &[u8], path: &[u8]) -> Result<Statement, SszFault>
    ensures said { IsUnlessMemory result (gindex_said t.now path.now) }
    ensures short { IfOk result HasShortLiteral }
{
    let t = name_of(alloc, t)?;
    let path = path_of(alloc, path)?;
    Ok(Statement::Gindex(t, path))
}

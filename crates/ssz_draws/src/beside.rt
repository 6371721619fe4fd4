// The statements of a work that are not drawn.
ghost use Rattle.std.specs.Prelude.{◌≡◌, IfOk};
ghost use Rattle.ssz_script.specs.declared.statement.Statement.TheVariants.{New, Root};
ghost use Rattle.ssz_machine.specs.Drawing.{worked};

use super::walking::worked;
use ssz_line::Identifier;
use ssz_schema::Name;
use ssz_script::Statement;
use std::alloc::{AllocError, Global};

/// `new w T`, with which a work begins.
pub fn new_w(alloc: Global, type_name: &Identifier) -> Result<Statement, AllocError>
    ensures { IfOk result (λ made. made ≡ New worked type_name.now) }
{
    let t = Name::copy_of(alloc, type_name.as_name().as_bytes())?;
    Ok(Statement::New(worked(alloc)?, Identifier::new(t)))
}

/// `root w`, which follows each edit.
pub fn root_w(alloc: Global) -> Result<Statement, AllocError>
    ensures { IfOk result (λ asked. asked ≡ Root worked) }
{
    Ok(Statement::Root(worked(alloc)?))
}

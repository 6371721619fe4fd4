//! Literals that are short enough for the calls that take them.
ghost use Rattle.std.specs.Prelude.{◌<◌, ◌^◌, ◌↔◌, IsTrue, length};
ghost use Rattle.ssz_script.specs.Literals.{HasShortLiteral};

use super::statement::Statement;

/// Whether a literal has fewer than 2^32 bytes, as the calls require that read its value.
pub fn is_short(literal: &[u8]) -> bool
    ensures { IsTrue result ↔ (length literal.now < 2 ^ 32) }
{
    literal.len() < 0x1_0000_0000
}

impl Statement {
    /// Whether the literal, where there is one, has fewer than 2^32 bytes.
    pub fn has_short_literal(&self) -> bool
        ensures { IsTrue result ↔ HasShortLiteral self.now }
    {
        match self {
            Statement::Lit(_, _, literal) => is_short(literal.as_slice()),
            Statement::Set(_, _, literal) => is_short(literal.as_slice()),
            Statement::Append(_, _, literal) => is_short(literal.as_slice()),
            Statement::Choose(_, _, _, Some(literal)) => is_short(literal.as_slice()),
            _ => true,
        }
    }
}

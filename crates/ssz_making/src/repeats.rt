ghost use Rattle.std.specs.Prelude.{ℕ, ◌≡◌, ◌≤◌, ◌++◌, List, IsSome, length};
ghost use Rattle.std.specs.List.{AllByRecursion};
ghost use Rattle.ssz_making.specs.Parts.{MadePart, IsLike};

use super::maker::Maker;

/// Takes more elements like one that was made, where they are of fixed size.
pub(crate) fn repeats<M: Maker>(
    maker: &mut M,
    size: Option<u64>,
    rows: &mut M::Rows,
    out: &M::Out,
    more: u64,
) -> u64
    ensures at_most { result ≤ more }
    ensures pushed { (start first then : M) (d n : ℕ) (parts alike : List MadePart) (one : MadePart)
        → M.made first then one out.now
        → (IsSome size → AllByRecursion (IsLike one) alike) → length alike ≡ result
        → M.gathered start maker.old d n parts rows.old
        → M.gathered start maker.new d n (parts ++ alike) rows.new }
{
    match size {
        Some(_) => maker.repeat(rows, out, more),
        None => 0,
    }
}

ghost use Rattle.std.specs.Prelude.{◌≡◌, ◌+◌, ◌<◌, ◌^◌, length, drop, Some, Option, IsOk, IfOk, IfErr, List, ℕ};
ghost use Rattle.std.specs.List.{AllByRecursion};
ghost use Rattle.ssz_schema.specs.Types.{SszType, union};
ghost use Rattle.ssz_schema.specs.Unfolding.{options_over, type_tree_at, IsBelow};
ghost use Rattle.ssz_value.specs.Faults.{first_fault};

use super::heads::none_fault;
use ssz_bytes::Fault;
use ssz_schema::TypeId;
use ssz_value::option_at;

/// The option that the bytes of a union choose, where it has a type; else the first fault of the
/// bytes, if they have one.
pub fn union_head(
    options: &[Option<TypeId>],
    start: u64,
    bytes: &[u8],
) -> Result<TypeId, Option<Fault>>
    requires short { start + length bytes.now < 2 ^ 32 }
    ensures some { IsOk result → 0 < length bytes.now }
    ensures ok { IfOk result (λ id. (trees : List SszType) →
        first_fault (union (options_over trees options.now)) start bytes.now
        ≡ first_fault (type_tree_at trees id) (start + 1) (drop 1 bytes.now)) }
    ensures below { IfOk result (λ id. (count : ℕ) → AllByRecursion (IsBelow count) options.now
        → id < count) }
    ensures err { IfErr result (λ fault. (trees : List SszType) →
        first_fault (union (options_over trees options.now)) start bytes.now ≡ fault) }
{
    if bytes.is_empty() {
        return Err(Some(Fault {
            code: Fault::SHORT,
            position: start,
        }));
    }
    match option_at(options, bytes[0]) {
        None => Err(Some(Fault {
            code: Fault::BAD_SELECTOR,
            position: start,
        })),
        Some(None) => Err(none_fault(start + 1, &bytes[1..])),
        Some(Some(option)) => Ok(option),
    }
}

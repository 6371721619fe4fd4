ghost use Rattle.std.specs.Prelude.{◌≡◌, ◌≤◌};
ghost use Rattle.ssz_types.specs.DepthLaws.{DepthHolds, DepthIsLeast};
ghost use Rattle.ssz_types.specs.Sizes.{depth_of};

/// The exponent of next_pow_of_two(count).
pub fn depth_of_count(count: u64) -> u32
    ensures exact { result ≡ depth_of count }
    ensures at_most { result ≤ 64 }
{
    let mut rest = count;
    for depth in 0..64u32 {
        if rest <= 1 {
            return depth;
        }
        rest = rest / 2 + rest % 2;
    }
    64
}

/// The depth of a count is the exponent of the least power of two that is not below it.
pub fn depth_is_next_power()
    ensures holds { DepthHolds }
    ensures least { DepthIsLeast }
{}

// Eight vectors turned over: word j of vector i becomes word i of vector j.
ghost use Rattle.std.specs.Prelude.{◌≡◌, ℕ, ◌<◌, [], ◌∷◌, length, slice_index_or};
ghost use Rattle.ssz_lanes.specs.Lanes.{by_fours, by_twos, columns, in_turn, quarter};

use std::simd::prelude::*;

#[inline(always)]
fn first_in_turn(x: u32x8, y: u32x8) -> u32x8
    requires { length x ≡ 8 }
    ensures words { result ≡ in_turn 0 x y }
    ensures lanes { length result ≡ 8 }
{
    x.shuffle(y, [0, 8, 1, 9, 4, 12, 5, 13])
}

#[inline(always)]
fn last_in_turn(x: u32x8, y: u32x8) -> u32x8
    requires { length x ≡ 8 }
    ensures words { result ≡ in_turn 2 x y }
    ensures lanes { length result ≡ 8 }
{
    x.shuffle(y, [2, 10, 3, 11, 6, 14, 7, 15])
}

#[inline(always)]
fn first_by_twos(x: u32x8, y: u32x8) -> u32x8
    requires { length x ≡ 8 }
    ensures words { result ≡ by_twos 0 x y }
    ensures lanes { length result ≡ 8 }
{
    x.shuffle(y, [0, 1, 8, 9, 4, 5, 12, 13])
}

#[inline(always)]
fn last_by_twos(x: u32x8, y: u32x8) -> u32x8
    requires { length x ≡ 8 }
    ensures words { result ≡ by_twos 2 x y }
    ensures lanes { length result ≡ 8 }
{
    x.shuffle(y, [2, 3, 10, 11, 6, 7, 14, 15])
}

#[inline(always)]
fn first_by_fours(x: u32x8, y: u32x8) -> u32x8
    requires { length x ≡ 8 }
    ensures words { result ≡ by_fours 0 x y }
    ensures lanes { length result ≡ 8 }
{
    x.shuffle(y, [0, 1, 2, 3, 8, 9, 10, 11])
}

#[inline(always)]
fn last_by_fours(x: u32x8, y: u32x8) -> u32x8
    requires { length x ≡ 8 }
    ensures words { result ≡ by_fours 4 x y }
    ensures lanes { length result ≡ 8 }
{
    x.shuffle(y, [4, 5, 6, 7, 12, 13, 14, 15])
}

// Of four vectors, words k and k + 4 of each, for each k below 4.
#[inline(always)]
fn quarters(a: u32x8, b: u32x8, c: u32x8, d: u32x8) -> [u32x8; 4]
    requires a { length a ≡ 8 }
    requires c { length c ≡ 8 }
    ensures words { result ≡ quarter 0 a b c d ∷ quarter 1 a b c d ∷ quarter 2 a b c d
        ∷ quarter 3 a b c d ∷ [] }
    ensures lanes { (k : ℕ) → k < 4 → length (slice_index_or result k []) ≡ 8 }
{
    let first_ab = first_in_turn(a, b);
    let first_cd = first_in_turn(c, d);
    let last_ab = last_in_turn(a, b);
    let last_cd = last_in_turn(c, d);
    [
        first_by_twos(first_ab, first_cd),
        last_by_twos(first_ab, first_cd),
        first_by_twos(last_ab, last_cd),
        last_by_twos(last_ab, last_cd),
    ]
}

/// The words at each place of eight vectors.
#[inline(always)]
pub fn turned(rows: [u32x8; 8]) -> [u32x8; 8]
    requires { (j : ℕ) → j < 8 → length (slice_index_or rows j []) ≡ 8 }
    ensures { result ≡ columns rows }
{
    let upper = quarters(rows[0], rows[1], rows[2], rows[3]);
    let lower = quarters(rows[4], rows[5], rows[6], rows[7]);
    [
        first_by_fours(upper[0], lower[0]),
        first_by_fours(upper[1], lower[1]),
        first_by_fours(upper[2], lower[2]),
        first_by_fours(upper[3], lower[3]),
        last_by_fours(upper[0], lower[0]),
        last_by_fours(upper[1], lower[1]),
        last_by_fours(upper[2], lower[2]),
        last_by_fours(upper[3], lower[3]),
    ]
}

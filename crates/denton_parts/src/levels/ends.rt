//! The ratios with which a year begins and ends.

ghost use Rattle.std.specs.Prelude.{◌≡◌, ◌≤◌, ◌*◌, ◌^◌, pos, ◌+ℤ◌, ◌-ℤ◌, ◌≤ℤ◌, unsigned_abs};
ghost use Rattle.ratio_arith.specs.Division.{floor_of};
ghost use Rattle.denton_parts.specs.Level.{level_of};
ghost use Rattle.denton_parts.specs.Year.{IsMultiplier, year_sum};

use super::{rises_of, scaled_benchmark, weighed_sum};
use crate::year::YearPart;
use ratio_arith::floor_div;

/// The benchmark-to-indicator ratios of a year's first and last quarter: the floors of their levels over the year's
/// indicator sum, in units of 1 over the scale.
#[derive(Clone, Copy, Debug, PartialEq, Eq)]
pub struct Ends {
    /// the floor of the first quarter's ratio
    pub first: i128,
    /// the floor of the fourth quarter's ratio
    pub last: i128,
}

/// The ratios with which a year begins and ends, between the multipliers `left` before and `right` after it, by one
/// division for both. Each is within 7 * 10^15.
pub fn ends_of(part: &YearPart, scale: u8, left: i128, right: i128) -> Ends
    requires left { IsMultiplier left }
    requires right { IsMultiplier right }
    requires scale { scale ≤ 15 }
    requires fits { 10 ^ scale * unsigned_abs part.now.bench ≤ 10 ^ 13 * year_sum part.now.ind }
    ensures first { result.first ≡ floor_of
        (level_of part.now.ind part.now.bench scale left right 0) (pos (year_sum part.now.ind)) }
    ensures last { result.last ≡ floor_of
        (level_of part.now.ind part.now.bench scale left right 3) (pos (year_sum part.now.ind)) }
    ensures first_size { unsigned_abs result.first ≤ 7 * 10 ^ 15 }
    ensures last_size { unsigned_abs result.last ≤ 7 * 10 ^ 15 }
{
    let rises = rises_of(part, left, right);
    let base = scaled_benchmark(scale, part.bench);
    let weighed = weighed_sum(
        part.ind[1],
        part.ind[2],
        part.ind[3],
        rises[1],
        rises[2],
        rises[3],
    );
    ends_at(base, weighed, part.sum, rises[3])
}

// The two ratios: they differ by the rise over the year.
fn ends_at(base: i128, weighed: i128, sum: i128, rise: i128) -> Ends
    requires base { unsigned_abs base ≤ 4 * 10 ^ 22 }
    requires weighed { unsigned_abs weighed ≤ 6 * 10 ^ 24 }
    requires sum { pos 1 ≤ℤ sum }
    requires rise { unsigned_abs rise ≤ 3 * 10 ^ 15 }
    ensures first { result.first ≡ floor_of (base -ℤ weighed) sum }
    ensures last { result.last ≡ floor_of (base -ℤ weighed) sum +ℤ rise }
    ensures first_size { unsigned_abs result.first ≤ 10 ^ 25 }
    ensures last_size { unsigned_abs result.last ≤ 2 * 10 ^ 25 }
{
    let first = small_floor(base - weighed, sum);
    Ends {
        first,
        last: first + rise,
    }
}

// The floor of a quotient whose numerator is small.
fn small_floor(n: i128, d: i128) -> i128
    requires positive { pos 1 ≤ℤ d }
    requires size { unsigned_abs n ≤ 10 ^ 25 }
    ensures value { result ≡ floor_of n d }
    ensures size { unsigned_abs result ≤ 10 ^ 25 }
{
    floor_div(n, d)
}

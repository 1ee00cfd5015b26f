//! The scaled levels of a year's ratio.

ghost use Rattle.std.specs.Prelude.{◌≡◌, ◌≤◌, ◌<◌, ◌+◌, ◌*◌, ◌^◌, pos, ◌+ℤ◌, ◌-ℤ◌, ◌*ℤ◌, ◌≤ℤ◌, ◌<ℤ◌, length};
ghost use Rattle.std.specs.Prelude.{slice_index, slice_index_or, unsigned_abs, EachIndex};
ghost use Rattle.denton_parts.specs.Level.{level_of, rises, weighed_rises, LevelsAddUp};
ghost use Rattle.denton_parts.specs.Year.{IsIndicator, IsMultiplier, year_sum};

mod ends;

use crate::change_floor;
use crate::year::YearPart;
pub use ends::{Ends, ends_of};

/// The level of quarter `j` of the year, from 0 to 3, between the multipliers `left` before and `right` after the year:
/// the quarter's benchmark-to-indicator ratio, times 10^scale and the year's indicator sum. The four indicators times
/// their levels add up to 10^scale times the sum and the benchmark.
pub fn level(part: &YearPart, scale: u8, left: i128, right: i128, j: usize) -> i128
    requires quarter { j < 4 }
    requires left { IsMultiplier left }
    requires right { IsMultiplier right }
    requires scale { scale ≤ 15 }
    requires fits { 10 ^ scale * unsigned_abs part.now.bench ≤ 10 ^ 13 * year_sum part.now.ind }
    ensures value { result ≡ level_of part.now.ind part.now.bench scale left right j }
    ensures size { unsigned_abs result < 3 * 10 ^ 25 }
    ensures weighed { slice_index part.now.ind j * unsigned_abs result < 3 * 10 ^ 34 }
{
    levels_of(part, scale, left, right)[j]
}

/// The levels of the year's four quarters between the same multipliers, by one division for each change within the
/// year.
pub fn levels_of(part: &YearPart, scale: u8, left: i128, right: i128) -> [i128; 4]
    requires left { IsMultiplier left }
    requires right { IsMultiplier right }
    requires scale { scale ≤ 15 }
    requires fits { 10 ^ scale * unsigned_abs part.now.bench ≤ 10 ^ 13 * year_sum part.now.ind }
    ensures values { EachIndex result (λ j. slice_index_or result j (pos 0)
        ≡ level_of part.now.ind part.now.bench scale left right j) }
    ensures sizes { EachIndex result (λ j.
        unsigned_abs (slice_index_or result j (pos 0)) < 3 * 10 ^ 25) }
    ensures weighed { EachIndex result (λ j.
        slice_index part.now.ind j * unsigned_abs (slice_index_or result j (pos 0)) < 3 * 10 ^ 34) }
{
    let rises = rises_of(part, left, right);
    let base = scaled_benchmark(scale, part.bench);
    let weighed = weighed_sum(
        part.ind[1],
        part.ind[2],
        part.ind[3],
        rises[1],
        rises[2],
        rises[3],
    );
    [
        raised(base, weighed, part.sum, rises[0]),
        raised(base, weighed, part.sum, rises[1]),
        raised(base, weighed, part.sum, rises[2]),
        raised(base, weighed, part.sum, rises[3]),
    ]
}

/// Law: whatever the multipliers are, the four indicators of a year times their levels add up to 10^scale times the sum
/// of the indicators times the benchmark.
pub fn levels_add_up()
    ensures law { LevelsAddUp }
{}

/// What the levels of the year are counted in: 10^scale times the year's indicator sum. A level over it is the
/// quarter's benchmark-to-indicator ratio.
pub fn level_unit(part: &YearPart, scale: u8) -> i128
    requires scale { scale ≤ 15 }
    ensures value { result ≡ pos (10 ^ scale) *ℤ pos (year_sum part.now.ind) }
    ensures positive { pos 0 <ℤ result }
    ensures most { result ≤ℤ pos (10 ^ 37) }
{
    scaled_sum(scale, part.sum)
}

// A sum of indicators times 10^scale.
fn scaled_sum(scale: u8, sum: i128) -> i128
    requires scale { scale ≤ 15 }
    requires some { pos 1 ≤ℤ sum }
    requires most { sum ≤ℤ pos (4 * 10 ^ 9) }
    ensures value { result ≡ pos (10 ^ scale) *ℤ sum }
    ensures positive { pos 0 <ℤ result }
    ensures most { result ≤ℤ pos (10 ^ 37) }
{
    let unit = i128::from(10_u64.pow(u32::from(scale)));
    unit * sum
}

// How far each quarter's ratio stands above that of the year's first.
fn rises_of(part: &YearPart, left: i128, right: i128) -> [i128; 4]
    requires left { IsMultiplier left }
    requires right { IsMultiplier right }
    ensures value { result ≡ rises part.now.ind left right }
    ensures second { unsigned_abs (slice_index_or result 1 (pos 0)) ≤ 10 ^ 15 }
    ensures third { unsigned_abs (slice_index_or result 2 (pos 0)) ≤ 2 * 10 ^ 15 }
    ensures fourth { unsigned_abs (slice_index_or result 3 (pos 0)) ≤ 3 * 10 ^ 15 }
{
    let first = change_floor(part, left, right, 1);
    let second = small_sum(first, change_floor(part, left, right, 2));
    let third = small_sum(second, change_floor(part, left, right, 3));
    [0, first, second, third]
}

// A sum of two rises.
fn small_sum(a: i128, b: i128) -> i128
    requires a { unsigned_abs a ≤ 2 * 10 ^ 15 }
    requires b { unsigned_abs b ≤ 10 ^ 15 }
    ensures value { result ≡ a +ℤ b }
    ensures size { unsigned_abs result ≤ unsigned_abs a + 10 ^ 15 }
{
    a + b
}

// The benchmark times 10^scale.
fn scaled_benchmark(scale: u8, bench: i64) -> i128
    requires scale { scale ≤ 15 }
    requires fits { 10 ^ scale * unsigned_abs bench ≤ 4 * 10 ^ 22 }
    ensures value { result ≡ pos (10 ^ scale) *ℤ bench }
    ensures size { unsigned_abs result ≤ 4 * 10 ^ 22 }
{
    let unit = i128::from(10_u64.pow(u32::from(scale)));
    unit * i128::from(bench)
}

// Three rises weighed by their indicators.
fn weighed_sum(i1: u32, i2: u32, i3: u32, first: i128, second: i128, third: i128) -> i128
    requires i1 { IsIndicator i1 }
    requires i2 { IsIndicator i2 }
    requires i3 { IsIndicator i3 }
    requires first { unsigned_abs first ≤ 10 ^ 15 }
    requires second { unsigned_abs second ≤ 2 * 10 ^ 15 }
    requires third { unsigned_abs third ≤ 3 * 10 ^ 15 }
    ensures value { result ≡ pos i1 *ℤ first +ℤ pos i2 *ℤ second +ℤ pos i3 *ℤ third }
    ensures size { unsigned_abs result ≤ 6 * 10 ^ 24 }
{
    let one = sized_product(i1, first);
    let two = one + sized_product(i2, second);
    two + sized_product(i3, third)
}

// An indicator times a rise.
fn sized_product(indicator: u32, rise: i128) -> i128
    requires indicator { IsIndicator indicator }
    requires rise { unsigned_abs rise ≤ 3 * 10 ^ 15 }
    ensures value { result ≡ pos indicator *ℤ rise }
    ensures size { unsigned_abs result ≤ 10 ^ 9 * unsigned_abs rise }
{
    i128::from(indicator) * rise
}

// A level: the base less the weighed rises, and a rise times the sum.
fn raised(base: i128, weighed: i128, sum: i128, rise: i128) -> i128
    requires base { unsigned_abs base ≤ 4 * 10 ^ 22 }
    requires weighed { unsigned_abs weighed ≤ 6 * 10 ^ 24 }
    requires sum { unsigned_abs sum ≤ 4 * 10 ^ 9 }
    requires rise { unsigned_abs rise ≤ 3 * 10 ^ 15 }
    ensures value { result ≡ base -ℤ weighed +ℤ sum *ℤ rise }
    ensures size { unsigned_abs result < 3 * 10 ^ 25 }
{
    let lowered = base - weighed;
    let lift = sum * rise;
    lowered + lift
}

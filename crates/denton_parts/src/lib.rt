//! The parts of proportional benchmarking that belong to one year: its indicators and their sums, and the ratio changes
//! that multipliers fix (IMF Quarterly National Accounts Manual 2017, chapter 6).
#![tactic(auto)]

mod levels;
mod quotient;
mod run;
mod scale;
mod year;

ghost use Rattle.std.specs.Prelude.{◌≡◌, ◌≤◌, ◌<◌, ◌*◌, ◌^◌, ℤ, pos, neg_ℤ, ◌+ℤ◌, ◌-ℤ◌, ◌*ℤ◌, ◌≤ℤ◌, unsigned_abs};
ghost use Rattle.ratio_arith.specs.Division.{floor_of, ceil_of};
ghost use Rattle.denton_parts.specs.Changes.{Fraction, change_in_year};
ghost use Rattle.denton_parts.specs.Year.{IsMultiplier, year_sum};

pub use levels::{Ends, ends_of, level, level_unit, levels_add_up, levels_of};
pub use quotient::{Quotient, quotient_of};
use ratio_arith::{ceil_div, floor_div};
pub use run::{first_quarter, part_at};
pub use scale::scale_of;
pub use year::YearPart;

/// The floor of the ratio change into quarter `j` of the year, from 0 to 3, between the multipliers `left` before and
/// `right` after the year. Multipliers and changes are in units of 1 over the scale.
pub fn change_floor(part: &YearPart, left: i128, right: i128, j: usize) -> i128
    requires quarter { j < 4 }
    requires left { IsMultiplier left }
    requires right { IsMultiplier right }
    ensures value { let change = change_in_year part.now.ind left right j in
        result ≡ floor_of change.numerator change.denominator }
    ensures size { unsigned_abs result ≤ 10 ^ 15 }
{
    floor_div(change_numerator(part, left, right, j), part.sum)
}

/// The ceiling of the same ratio change.
pub fn change_ceil(part: &YearPart, left: i128, right: i128, j: usize) -> i128
    requires quarter { j < 4 }
    requires left { IsMultiplier left }
    requires right { IsMultiplier right }
    ensures value { let change = change_in_year part.now.ind left right j in
        result ≡ ceil_of change.numerator change.denominator }
    ensures size { unsigned_abs result ≤ 10 ^ 15 }
{
    ceil_div(change_numerator(part, left, right, j), part.sum)
}

/// The floor and the ceiling of the same ratio change, by one division.
pub fn change_bounds(part: &YearPart, left: i128, right: i128, j: usize) -> Quotient
    requires quarter { j < 4 }
    requires left { IsMultiplier left }
    requires right { IsMultiplier right }
    ensures floor { let change = change_in_year part.now.ind left right j in
        result.floor ≡ floor_of change.numerator change.denominator }
    ensures ceiling { let change = change_in_year part.now.ind left right j in
        result.ceiling ≡ ceil_of change.numerator change.denominator }
    ensures floor_size { unsigned_abs result.floor ≤ 10 ^ 15 }
    ensures ceiling_size { unsigned_abs result.ceiling ≤ 10 ^ 15 }
{
    quotient_of(change_numerator(part, left, right, j), part.sum)
}

// The change's numerator: the denominator is the year's indicator sum.
fn change_numerator(part: &YearPart, left: i128, right: i128, j: usize) -> i128
    requires quarter { j < 4 }
    requires left { IsMultiplier left }
    requires right { IsMultiplier right }
    ensures value { result ≡ (change_in_year part.now.ind left right j).numerator }
    ensures low { neg_ℤ (part.now.sum *ℤ pos (10 ^ 15)) ≤ℤ result }
    ensures high { result ≤ℤ (part.now.sum *ℤ pos (10 ^ 15)) }
{
    weighed(left, right, part.sum, part.before[j])
}

// Two multipliers weighed by the parts of a sum after and before a quarter.
fn weighed(left: i128, right: i128, sum: i128, before: i128) -> i128
    requires left { IsMultiplier left }
    requires right { IsMultiplier right }
    requires start { pos 0 ≤ℤ before }
    requires within { before ≤ℤ sum }
    requires sum { sum ≤ℤ pos (4 * 10 ^ 9) }
    ensures value { result ≡ left *ℤ (sum -ℤ before) +ℤ right *ℤ before }
    ensures low { neg_ℤ (sum *ℤ pos (10 ^ 15)) ≤ℤ result }
    ensures high { result ≤ℤ (sum *ℤ pos (10 ^ 15)) }
{
    let after = sum - before;
    product(left, after) + product(right, before)
}

// A product that fits.
fn product(a: i128, b: i128) -> i128
    requires fits { unsigned_abs a * unsigned_abs b < 2 ^ 127 }
    ensures value { result ≡ a *ℤ b }
{
    a * b
}

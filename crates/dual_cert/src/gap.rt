//! The gap of a series, in one pass over its quarters.

ghost use Rattle.std.specs.Prelude.{◌≡◌, ◌≤◌, ◌<◌, ◌+◌, ◌-◌, ◌*◌, ◌^◌, max, length, pos, [], ◌∷◌, ◌++◌, ◌-ℤ◌, ◌*ℤ◌};
ghost use Rattle.std.specs.Prelude.{◌≤ℤ◌, ◌<ℤ◌, unsigned_abs, slice_index, slice_index_or};
ghost use Rattle.std.specs.List.Sorted.{IsStrictlyIncreasing};
ghost use Rattle.denton_parts.specs.Changes.{changes};
ghost use Rattle.denton_parts.specs.Gap.{gap_by};
ghost use Rattle.denton_parts.specs.Year.{IsIndicator, IsMultiplier};
ghost use Rattle.denton_parts.specs.Years.{AreYearsOf, years_in};
ghost use Rattle.dual_cert.specs.Document.{AreQuarters, AreMultipliers};
ghost use Rattle.dual_cert.specs.Parts.{AreBoundsOf, AreEnded, AreWithin, change_at_quarter};

use crate::distance::{greater_square, less_both};
use denton_parts::{Quotient, YearPart, change_bounds, first_quarter, quotient_of};

/// The gap of the values `x` with the indicators `ind`, in units of 1 over 10^(2 * scale): the sum of the squared
/// distances of the ratio changes from those that the multipliers `u` give, rounded outwards. `parts` are the figures
/// of the benchmarked years of `ind`, and `years` says where these stand, counted from 0.
pub fn gap_of(
    parts: &[YearPart],
    years: &[u8],
    scale: u8,
    u: &[i128],
    ind: &[u32],
    x: &[i128],
) -> i128
    requires some_year { 1 ≤ length parts.now }
    requires placed { length years.now ≡ length parts.now }
    requires joints { length u.now + 1 ≡ length parts.now }
    requires years { AreYearsOf ind.now (years_in years.now parts.now) }
    requires quarters { AreQuarters scale ind.now x.now }
    requires multipliers { AreMultipliers u.now }
    ensures value { result ≡ gap_by (pos (10 ^ scale)) ind.now x.now
        (changes (years_in years.now parts.now) u.now ind.now) }
    ensures least { pos 0 ≤ℤ result }
    ensures most { result <ℤ pos (10 ^ 36) }
{
    let unit = power_of_ten(scale);
    let mut before = ratio_at(unit, ind, x, 0);
    let mut ended = 0;
    let mut gap = 0;
    for t in 1..ind.len() {
        ended = ended_at(years, ended, t);
        let now = ratio_at(unit, ind, x, t);
        let change = change_at(parts, years, u, ended, t);
        gap += squared_distance(before, now, change);
        before = now;
    }
    gap
}

// 10 to a small power.
fn power_of_ten(power: u8) -> i128
    requires { power ≤ 15 }
    ensures value { result ≡ pos (10 ^ power) }
{
    i128::from(10_u64.pow(u32::from(power)))
}

// The whole numbers next to the ratio of the value of quarter t to its indicator, in units of 1 over the unit.
fn ratio_at(unit: i128, ind: &[u32], x: &[i128], t: usize) -> Quotient
    requires inside { t < length ind.now }
    requires lengths { length x.now ≡ length ind.now }
    requires indicator { IsIndicator (slice_index ind.now t) }
    requires reach { unsigned_abs unit * unsigned_abs (slice_index_or x.now t (pos 0))
        ≤ 10 ^ 16 * slice_index ind.now t }
    ensures bounds { AreBoundsOf (unit *ℤ slice_index_or x.now t (pos 0))
        (pos (slice_index ind.now t)) result }
    ensures size { AreWithin (10 ^ 16) result }
{
    scaled_ratio(unit, ind[t], x[t])
}

// The whole numbers next to a value's ratio to its indicator, in units of 1 over the unit.
fn scaled_ratio(unit: i128, indicator: u32, value: i128) -> Quotient
    requires indicator { IsIndicator indicator }
    requires reach { unsigned_abs unit * unsigned_abs value ≤ 10 ^ 16 * indicator }
    ensures bounds { AreBoundsOf (unit *ℤ value) (pos indicator) result }
    ensures size { AreWithin (10 ^ 16) result }
{
    quotient_of(unit * value, i128::from(indicator))
}

// The square of a bound on the distance of a ratio change from the given one.
fn squared_distance(before: Quotient, now: Quotient, change: Quotient) -> i128
    requires before { AreWithin (10 ^ 16) before }
    requires now { AreWithin (10 ^ 16) now }
    requires change { AreWithin (10 ^ 15) change }
    ensures value { let low = now.floor -ℤ before.ceiling -ℤ change.ceiling in
        let high = now.ceiling -ℤ before.floor -ℤ change.floor in
        let distance = max (unsigned_abs low) (unsigned_abs high) in
        result ≡ pos (distance * distance) }
    ensures size { result ≤ℤ pos (10 ^ 33) }
{
    let low = less_both(now.floor, before.ceiling, change.ceiling);
    let high = less_both(now.ceiling, before.floor, change.floor);
    greater_square(low, high)
}

// How many years end before quarter t, where so many end before the quarter before it.
fn ended_at(years: &[u8], ended: usize, t: usize) -> usize
    requires some { 1 ≤ t }
    requires rising { IsStrictlyIncreasing years.now }
    requires ended { AreEnded years.now ended (t - 1) }
    ensures { AreEnded years.now result t }
{
    if ended < years.len() && first_quarter(years[ended]) + 4 <= t {
        ended + 1
    } else {
        ended
    }
}

// The change that the multipliers give for quarter t, where so many of the benchmarked years end before it: the change
// of the next year where t is in it, else the multiplier that stands there.
fn change_at(parts: &[YearPart], years: &[u8], u: &[i128], ended: usize, t: usize) -> Quotient
    requires placed { length years.now ≡ length parts.now }
    requires joints { length u.now + 1 ≡ length parts.now }
    requires multipliers { AreMultipliers u.now }
    requires ended { AreEnded years.now ended t }
    ensures bounds { let change = change_at_quarter (years_in years.now parts.now) u.now t in
        AreBoundsOf change.numerator change.denominator result }
    ensures size { AreWithin (10 ^ 15) result }
{
    let left = multiplier_before(u, ended);
    if ended < parts.len() && first_quarter(years[ended]) <= t {
        change_bounds(
            &parts[ended],
            left,
            multiplier_after(u, ended),
            t - first_quarter(years[ended]),
        )
    } else {
        Quotient {
            floor: left,
            ceiling: left,
        }
    }
}

// The multiplier before a benchmarked year, and after the last: none before the first and after the last.
fn multiplier_before(u: &[i128], year: usize) -> i128
    requires multipliers { AreMultipliers u.now }
    ensures value { result ≡ slice_index_or (pos 0 ∷ (u.now ++ pos 0 ∷ [])) year (pos 0) }
    ensures size { IsMultiplier result }
{
    if year == 0 {
        0
    } else {
        multiplier_after(u, year - 1)
    }
}

// The multiplier after a benchmarked year: none after the last.
fn multiplier_after(u: &[i128], year: usize) -> i128
    requires multipliers { AreMultipliers u.now }
    ensures value { result ≡ slice_index_or (u.now ++ pos 0 ∷ []) year (pos 0) }
    ensures size { IsMultiplier result }
{
    if year < u.len() { u[year] } else { 0 }
}

//! The quarters between two benchmarked years.

ghost use Rattle.std.specs.Prelude.{◌≡◌, ◌≤◌, ◌<◌, ◌*◌, ◌^◌, ℕ, pos, ◌*ℤ◌, ◌≤ℤ◌, length, slice_index, slice_index_or};
ghost use Rattle.std.specs.Prelude.{unsigned_abs, EachIndex};
ghost use Rattle.ratio_arith.specs.Division.{round_of};
ghost use Rattle.denton_parts.specs.Year.{IsIndicator, IsMultiplier, year_sum};
ghost use Rattle.denton_parts.specs.Years.{IsInReach, year_in};
ghost use Rattle.extrapolate.specs.Carried.{across_of, ratio_between};

use crate::weighed;
use denton_parts::{YearPart, ends_of};
use ratio_arith::{floor_div, round_div};

/// Writes into `out` the values of the quarters between two benchmarked years, none of which is in a benchmarked year,
/// in whole currency units: `rest` are their indicators, `left` and `right` are the two years, and `u` has the
/// multipliers before the one, between the two and after the other. The benchmark-to-indicator ratio goes in even
/// steps, rounded down to units of 1 over 10^scale, from that with which the one year ends to that with which the other
/// begins, and each value is its indicator times its ratio, to the nearest whole unit, halves up. A value's ratio to
/// its indicator is within 10^16 in units of 1 over 10^scale, and at a scale of 1 or more the value is below 10^24 in
/// size.
pub fn across(
    left: &YearPart,
    right: &YearPart,
    scale: u8,
    u: [i128; 3],
    rest: &[u32],
    out: &mut [i128],
)
    requires before { IsMultiplier (slice_index_or u 0 (pos 0)) }
    requires own { IsMultiplier (slice_index_or u 1 (pos 0)) }
    requires after { IsMultiplier (slice_index_or u 2 (pos 0)) }
    requires scale { scale ≤ 15 }
    requires left_fits { 10 ^ scale * unsigned_abs left.now.bench
        ≤ 10 ^ 13 * year_sum left.now.ind }
    requires right_fits { 10 ^ scale * unsigned_abs right.now.bench
        ≤ 10 ^ 13 * year_sum right.now.ind }
    requires few { length rest.now ≤ 504 }
    requires indicators { EachIndex rest.now (λ t. IsIndicator (slice_index rest.now t)) }
    requires room { length out.old ≡ length rest.now }
    ensures value { (here there : ℕ) →
        out.new ≡ across_of scale (year_in here left.now) (year_in there right.now)
        (slice_index_or u 0 (pos 0)) (slice_index_or u 1 (pos 0))
        (slice_index_or u 2 (pos 0)) rest.now }
    ensures reach { EachIndex out.new (λ t.
        IsInReach scale (slice_index rest.now t) (slice_index_or out.new t (pos 0))) }
    ensures sizes { 1 ≤ scale → EachIndex out.new (λ t.
        unsigned_abs (slice_index_or out.new t (pos 0)) < 10 ^ 24) }
{
    let from = ends_of(left, scale, u[0], u[1]).last;
    let to = ends_of(right, scale, u[1], u[2]).first;
    let unit = i128::from(10_u64.pow(u32::from(scale)));
    let steps = rest.len() + 1;
    for t in 0..rest.len() {
        out[t] = at_ratio(rest[t], ratio_at(from, to, steps, t + 1), unit);
    }
}

// The ratio at a step of so many from one ratio to another, rounded down.
fn ratio_at(from: i128, to: i128, steps: usize, step: usize) -> i128
    requires from { unsigned_abs from ≤ 7 * 10 ^ 15 }
    requires to { unsigned_abs to ≤ 7 * 10 ^ 15 }
    requires step { step ≤ steps }
    requires some { 1 ≤ steps }
    requires few { steps ≤ 505 }
    ensures value { result ≡ ratio_between from to steps step }
    ensures size { unsigned_abs result ≤ 7 * 10 ^ 15 }
{
    let rise = step as i128 * (to - from);
    from + floor_div(rise, steps as i128)
}

// An indicator times a ratio over its unit, rounded.
fn at_ratio(indicator: u32, ratio: i128, unit: i128) -> i128
    requires indicator { IsIndicator indicator }
    requires ratio { unsigned_abs ratio ≤ 7 * 10 ^ 15 }
    requires positive { pos 1 ≤ℤ unit }
    requires unit { unit ≤ℤ pos (10 ^ 15) }
    ensures { result ≡ round_of (pos indicator *ℤ ratio) unit }
{
    round_div(weighed(indicator, ratio), unit)
}

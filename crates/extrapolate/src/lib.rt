//! The quarters of a leaf outside its benchmarked years: those before the first keep the ratio with which it begins,
//! those after the last the ratio with which it ends (IMF Quarterly National Accounts Manual 2017, chapter 6), and
//! between two of them the ratio goes in even steps from the one to the other.
#![tactic(auto)]

mod between;

ghost use Rattle.std.specs.Prelude.{◌≡◌, ◌≤◌, ◌<◌, ◌*◌, ◌^◌, ℕ, pos, ◌*ℤ◌, ◌≤ℤ◌, ◌<ℤ◌, length, map, slice_index};
ghost use Rattle.std.specs.Prelude.{slice_index_or, unsigned_abs, EachIndex};
ghost use Rattle.ratio_arith.specs.Division.{round_of};
ghost use Rattle.denton_parts.specs.Year.{IsIndicator, IsMultiplier, year_sum};
ghost use Rattle.denton_parts.specs.Years.{IsInReach, year_in};
ghost use Rattle.extrapolate.specs.Carried.{carried_of, carried_back_of};

pub use between::across;
use denton_parts::{YearPart, level, level_unit};
use ratio_arith::round_div;

/// Writes into `out` the values of the quarters past the last benchmarked year, in whole currency units: `rest` are
/// their indicators, `last` is that year, wherever it stands, and `left` the multiplier before it. Each value is its
/// indicator times the ratio of the year's last quarter, to the nearest whole unit, halves up. Its ratio to its
/// indicator is within 10^16 in units of 1 over 10^scale, and at a scale of 1 or more the value is below 10^24 in size.
pub fn carry(last: &YearPart, scale: u8, left: i128, rest: &[u32], out: &mut [i128])
    requires left { IsMultiplier left }
    requires scale { scale ≤ 15 }
    requires fits { 10 ^ scale * unsigned_abs last.now.bench ≤ 10 ^ 13 * year_sum last.now.ind }
    requires indicators { EachIndex rest.now (λ t. IsIndicator (slice_index rest.now t)) }
    requires room { length out.old ≡ length rest.now }
    ensures value { (place : ℕ) →
        out.new ≡ carried_of scale (year_in place last.now) left rest.now }
    ensures reach { EachIndex out.new (λ t.
        IsInReach scale (slice_index rest.now t) (slice_index_or out.new t (pos 0))) }
    ensures sizes { 1 ≤ scale → EachIndex out.new (λ t.
        unsigned_abs (slice_index_or out.new t (pos 0)) < 10 ^ 24) }
{
    let level = level(last, scale, left, 0, 3);
    let unit = level_unit(last, scale);
    write_at_level(level, unit, rest, out);
}

/// Writes into `out` the values of the quarters before the first benchmarked year alike: `rest` are their indicators,
/// `first` is that year and `right` the multiplier after it. Each value is its indicator times the ratio of the year's
/// first quarter.
pub fn carry_back(first: &YearPart, scale: u8, right: i128, rest: &[u32], out: &mut [i128])
    requires right { IsMultiplier right }
    requires scale { scale ≤ 15 }
    requires fits { 10 ^ scale * unsigned_abs first.now.bench ≤ 10 ^ 13 * year_sum first.now.ind }
    requires indicators { EachIndex rest.now (λ t. IsIndicator (slice_index rest.now t)) }
    requires room { length out.old ≡ length rest.now }
    ensures value { (place : ℕ) →
        out.new ≡ carried_back_of scale (year_in place first.now) right rest.now }
    ensures reach { EachIndex out.new (λ t.
        IsInReach scale (slice_index rest.now t) (slice_index_or out.new t (pos 0))) }
    ensures sizes { 1 ≤ scale → EachIndex out.new (λ t.
        unsigned_abs (slice_index_or out.new t (pos 0)) < 10 ^ 24) }
{
    let level = level(first, scale, 0, right, 0);
    let unit = level_unit(first, scale);
    write_at_level(level, unit, rest, out);
}

// Writes each indicator times a level over its unit, rounded.
fn write_at_level(level: i128, unit: i128, rest: &[u32], out: &mut [i128])
    requires level { unsigned_abs level < 3 * 10 ^ 25 }
    requires positive { pos 0 <ℤ unit }
    requires unit { unit ≤ℤ pos (10 ^ 37) }
    requires indicators { EachIndex rest.now (λ t. IsIndicator (slice_index rest.now t)) }
    requires room { length out.old ≡ length rest.now }
    ensures { out.new ≡ map (λ indicator. round_of (pos indicator *ℤ level) unit) rest.now }
{
    for t in 0..rest.len() {
        out[t] = at_level(rest[t], level, unit);
    }
}

// An indicator times a level over its unit, rounded.
fn at_level(indicator: u32, level: i128, unit: i128) -> i128
    requires indicator { IsIndicator indicator }
    requires level { unsigned_abs level < 3 * 10 ^ 25 }
    requires positive { pos 0 <ℤ unit }
    requires unit { unit ≤ℤ pos (10 ^ 37) }
    ensures { result ≡ round_of (pos indicator *ℤ level) unit }
{
    round_div(weighed(indicator, level), unit)
}

// An indicator times a level or a ratio.
fn weighed(indicator: u32, level: i128) -> i128
    requires indicator { IsIndicator indicator }
    requires level { unsigned_abs level < 3 * 10 ^ 25 }
    ensures value { result ≡ pos indicator *ℤ level }
    ensures size { unsigned_abs result ≤ 8 * 10 ^ 37 }
{
    i128::from(indicator) * level
}

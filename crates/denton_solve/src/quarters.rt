//! The benchmarked series: each year's benchmark shared out over its quarters.

ghost use Rattle.std.specs.Prelude.{◌≡◌, ◌≤◌, ◌<◌, ◌+◌, ◌*◌, ◌^◌, ℕ, pos, ◌*ℤ◌, ◌≤ℤ◌, ◌<ℤ◌, length, take, drop, ◌++◌};
ghost use Rattle.std.specs.Prelude.{slice_index, slice_index_or, unsigned_abs, EachIndex};
ghost use Rattle.std.specs.List.{All};
ghost use Rattle.denton_parts.specs.Benchmarks.{AddsUpTo};
ghost use Rattle.denton_parts.specs.Scale.{scale_of_years};
ghost use Rattle.denton_parts.specs.Year.{IsMultiplier};
ghost use Rattle.denton_parts.specs.Years.{IsInReach, Wherever, indicators_of, year_in};
ghost use Rattle.denton_parts.specs.declared.year.YearPart.{YearPart};
ghost use Rattle.denton_solve.specs.Conditions.{AreMultipliers, IsScaled};
ghost use Rattle.denton_solve.specs.Series.{series_of, value_parts, year_series, AreShareOuts};
ghost use Rattle.denton_solve.specs.Sweeps.{first_of};

use crate::sweep::multiplier_at;
use denton_parts::{YearPart, level_unit, levels_of};
use sum_rounding::share_out;

/// Writes into `out` the values of the years' quarters in whole currency units, four a year, one year behind the other
/// wherever they stand: each year's benchmark shared out in proportion to its indicators times their levels, between
/// the multipliers `u` that stand between the years: the floors, and the units that are then left go to the largest
/// remainders. So each year's quarters add up to its benchmark, whatever the multipliers are. A value is below 10^24 in
/// size, and its ratio to its indicator is within 10^16 in units of 1 over 10^scale.
pub fn series(parts: &[YearPart], scale: u8, u: &[i128], out: &mut [i128])
    requires some_year { 1 ≤ length parts.now }
    requires most { length parts.now ≤ 128 }
    requires scale { Wherever parts.now (λ years. scale ≡ scale_of_years years) }
    requires joints { length u.now + 1 ≡ length parts.now }
    requires multipliers { AreMultipliers u.now }
    requires room { length out.old ≡ 4 * length parts.now }
    ensures value { Wherever parts.now (λ years. out.new ≡ series_of scale years u.now) }
    ensures shares { Wherever parts.now (λ years. AreShareOuts scale (pos 0) years u.now out.new) }
    ensures meets { (y : ℕ) (other : YearPart) → y < length parts.now →
        AddsUpTo (slice_index_or parts.now y other).bench out.new y }
    ensures sizes { EachIndex out.new (λ t.
        unsigned_abs (slice_index_or out.new t (pos 0)) < 10 ^ 24) }
    ensures reach { EachIndex out.new (λ t.
        IsInReach scale (slice_index (indicators_of parts.now) t) (slice_index_or out.new t (pos 0))) }
{
    let mut left = 0;
    for y in 0..parts.len() {
        let right = multiplier_at(u, y);
        write_year(&quarters_of(&parts[y], scale, left, right), y, out);
        left = right;
    }
}

// Writes a year's four values, the years numbered from 0.
fn write_year(quarters: &[i128; 4], year: usize, out: &mut [i128])
    requires year { year < 128 }
    requires room { 4 * year + 4 ≤ length out.old }
    ensures value { out.new ≡ take (4 * year) out.old ++ quarters.now ++ drop (4 * year + 4) out.old }
{
    let first = 4 * year;
    out[first..first + 4].copy_from_slice(quarters);
}

// The year's four values, between the multipliers before and after it.
fn quarters_of(year: &YearPart, scale: u8, left: i128, right: i128) -> [i128; 4]
    requires scale { scale ≤ 15 }
    requires scaled { IsScaled scale (year_in 0 year.now) }
    requires left { IsMultiplier left }
    requires right { IsMultiplier right }
    ensures { result ≡ year_series scale (year_in 0 year.now) left right }
{
    let mut quarters = [0; 4];
    share_out(
        &parts_of(year, scale, left, right),
        level_unit(year, scale),
        i128::from(year.bench),
        &mut quarters,
    );
    quarters
}

// Each quarter's indicator times its level.
fn parts_of(year: &YearPart, scale: u8, left: i128, right: i128) -> [i128; 4]
    requires scale { scale ≤ 15 }
    requires scaled { IsScaled scale (year_in 0 year.now) }
    requires left { IsMultiplier left }
    requires right { IsMultiplier right }
    ensures value { result ≡ value_parts scale (year_in 0 year.now) left right }
    ensures sizes { All (λ part. unsigned_abs part ≤ 10 ^ 37) result }
{
    let levels = levels_of(year, scale, left, right);
    [
        weighed(year.ind[0], levels[0]),
        weighed(year.ind[1], levels[1]),
        weighed(year.ind[2], levels[2]),
        weighed(year.ind[3], levels[3]),
    ]
}

// An indicator times a level.
fn weighed(indicator: u32, level: i128) -> i128
    requires { indicator * unsigned_abs level < 3 * 10 ^ 34 }
    ensures value { result ≡ pos indicator *ℤ level }
    ensures size { unsigned_abs result ≤ 10 ^ 37 }
{
    i128::from(indicator) * level
}

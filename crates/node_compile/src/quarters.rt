//! The values of a leaf with benchmarked years.

ghost use Rattle.std.specs.Prelude.{◌≡◌, ◌≤◌, ◌<◌, ◌+◌, ◌-◌, ◌*◌, pos, ◌++◌, ◌∷◌, take, drop, length, IfOk, EachIndex};
ghost use Rattle.std.specs.Prelude.{slice_index, slice_index_or};
ghost use Rattle.denton_parts.specs.Scale.{scale_of_years};
ghost use Rattle.denton_parts.specs.Year.{IsIndicator, IsMultiplier};
ghost use Rattle.denton_parts.specs.Years.{AreYearsOf, Wherever, year_in, years_in};
ghost use Rattle.denton_solve.specs.Conditions.{AreMultipliers, IsScaled};
ghost use Rattle.denton_solve.specs.Series.{series_of};
ghost use Rattle.denton_solve.specs.Sweeps.{first_of};
ghost use Rattle.dual_cert.specs.Document.{AreQuarters};
ghost use Rattle.extrapolate.specs.Carried.{across_of, carried_back_of, carried_of};
ghost use Rattle.node_compile.specs.Leaf.{run_values};
ghost use Rattle.node_compile.specs.Sizes.{AreBelow};

use denton_parts::{YearPart, first_quarter};
use denton_solve::series;
use extrapolate::{across, carry, carry_back};
use qna_base::Memory;
use std::alloc::Global;

/// The values of a run of quarters that has these benchmarked years, from the multipliers between them.
pub(crate) fn values_of(
    alloc: Global,
    parts: &[YearPart],
    years: &[u8],
    scale: u8,
    u: &[i128],
    ind: &[u32],
) -> Result<Vec<i128>, Memory>
    requires some_year { 1 ≤ length parts.now }
    requires most { length parts.now ≤ 128 }
    requires placed { length years.now ≡ length parts.now }
    requires years { AreYearsOf ind.now (years_in years.now parts.now) }
    requires scale { Wherever parts.now (λ run. scale ≡ scale_of_years run) }
    requires joints { length u.now + 1 ≡ length parts.now }
    requires multipliers { AreMultipliers u.now }
    requires few { length ind.now ≤ 512 }
    requires indicators { EachIndex ind.now (λ t. IsIndicator (slice_index ind.now t)) }
    ensures values { IfOk result (λ out.
        out.items ≡ run_values scale (years_in years.now parts.now) u.now ind.now) }
    ensures quarters { IfOk result (λ values. AreQuarters scale ind.now values.items) }
    ensures sizes { IfOk result (λ values. AreBelow values.items) }
{
    let mut benchmarked = vec![in alloc; 0; 4 * parts.len()]?;
    series(parts, scale, u, &mut benchmarked);
    let mut values = vec![in alloc; 0; ind.len()]?;
    write_values(parts, years, scale, u, ind, &benchmarked, &mut values);
    Ok(values)
}

// Writes these values: those of the benchmarked years where they stand, and those before, between and behind them.
fn write_values(
    parts: &[YearPart],
    years: &[u8],
    scale: u8,
    u: &[i128],
    ind: &[u32],
    benchmarked: &[i128],
    out: &mut [i128],
)
    requires some_year { 1 ≤ length parts.now }
    requires most { length parts.now ≤ 128 }
    requires placed { length years.now ≡ length parts.now }
    requires years { AreYearsOf ind.now (years_in years.now parts.now) }
    requires scale { Wherever parts.now (λ run. scale ≡ scale_of_years run) }
    requires joints { length u.now + 1 ≡ length parts.now }
    requires multipliers { AreMultipliers u.now }
    requires few { length ind.now ≤ 512 }
    requires indicators { EachIndex ind.now (λ t. IsIndicator (slice_index ind.now t)) }
    requires series { benchmarked.now ≡ series_of scale (years_in years.now parts.now) u.now }
    requires room { length out.old ≡ length ind.now }
    ensures values { out.new ≡ run_values scale (years_in years.now parts.now) u.now ind.now }
    ensures quarters { AreQuarters scale ind.now out.new }
    ensures sizes { AreBelow out.new }
{
    let last = u.len();
    write_before(&parts[0], scale, multiplier_after(u, 0), ind, years[0], out);
    for y in 0..last {
        let around = [multiplier_before(u, y), u[y], multiplier_after(u, y + 1)];
        write_year(benchmarked, y, years[y], out);
        write_between(
            &parts[y],
            &parts[y + 1],
            scale,
            around,
            ind,
            years[y],
            years[y + 1],
            out,
        );
    }
    write_year(benchmarked, last, years[last], out);
    let left = multiplier_before(u, last);
    write_behind(&parts[last], scale, left, ind, years[last], out);
}

// Writes a benchmarked year's four values where it stands.
fn write_year(benchmarked: &[i128], y: usize, year: u8, out: &mut [i128])
    requires inside { 4 * y + 4 ≤ length benchmarked.now }
    requires few { y < 128 }
    requires room { 4 * year + 4 ≤ length out.old }
    ensures { out.new ≡ take (4 * year) out.old ++ (take 4 (drop (4 * y) benchmarked.now)
        ++ drop (4 * year + 4) out.old) }
{
    let first = first_quarter(year);
    out[first..first + 4].copy_from_slice(&benchmarked[4 * y..4 * y + 4]);
}

// Writes the values of the quarters before the first benchmarked year.
fn write_before(first: &YearPart, scale: u8, right: i128, ind: &[u32], year: u8, out: &mut [i128])
    requires right { IsMultiplier right }
    requires scale { scale ≤ 15 }
    requires scaled { IsScaled scale (year_in year first.now) }
    requires indicators { EachIndex ind.now (λ t. IsIndicator (slice_index ind.now t)) }
    requires inside { 4 * year ≤ length ind.now }
    requires room { length out.old ≡ length ind.now }
    ensures { out.new
        ≡ carried_back_of scale (year_in year first.now) right (take (4 * year) ind.now)
        ++ drop (4 * year) out.old }
{
    let quarters = first_quarter(year);
    carry_back(first, scale, right, &ind[..quarters], &mut out[..quarters]);
}

// Writes the values of the quarters between a benchmarked year and the next.
fn write_between(
    left: &YearPart,
    right: &YearPart,
    scale: u8,
    around: [i128; 3],
    ind: &[u32],
    year: u8,
    next: u8,
    out: &mut [i128],
)
    requires around { AreMultipliers around }
    requires scale { scale ≤ 15 }
    requires left_scaled { IsScaled scale (year_in year left.now) }
    requires right_scaled { IsScaled scale (year_in next right.now) }
    requires indicators { EachIndex ind.now (λ t. IsIndicator (slice_index ind.now t)) }
    requires rising { year < next }
    requires few { length ind.now ≤ 512 }
    requires inside { 4 * next + 4 ≤ length ind.now }
    requires room { length out.old ≡ length ind.now }
    ensures { let from = 4 * year + 4 in
        out.new ≡ take from out.old
        ++ (across_of scale (year_in year left.now) (year_in next right.now)
        (slice_index_or around 0 (pos 0)) (slice_index_or around 1 (pos 0))
        (slice_index_or around 2 (pos 0)) (take (4 * next - from) (drop from ind.now))
        ++ drop (4 * next) out.old) }
{
    let from = first_quarter(year) + 4;
    let to = first_quarter(next);
    if from < to {
        let rest = &ind[from..to];
        across(left, right, scale, around, rest, &mut out[from..to]);
    }
}

// Writes the values of the quarters behind the last benchmarked year.
fn write_behind(last: &YearPart, scale: u8, left: i128, ind: &[u32], year: u8, out: &mut [i128])
    requires left { IsMultiplier left }
    requires scale { scale ≤ 15 }
    requires scaled { IsScaled scale (year_in year last.now) }
    requires indicators { EachIndex ind.now (λ t. IsIndicator (slice_index ind.now t)) }
    requires inside { 4 * year + 4 ≤ length ind.now }
    requires room { length out.old ≡ length ind.now }
    ensures { let from = 4 * year + 4 in
        out.new ≡ take from out.old
        ++ carried_of scale (year_in year last.now) left (drop from ind.now) }
{
    let from = first_quarter(year) + 4;
    carry(last, scale, left, &ind[from..], &mut out[from..]);
}

// The multiplier before a benchmarked year: none before the first.
fn multiplier_before(u: &[i128], y: usize) -> i128
    requires inside { y ≤ length u.now }
    requires sizes { AreMultipliers u.now }
    ensures value { result ≡ slice_index_or (pos 0 ∷ u.now) y (pos 0) }
    ensures size { IsMultiplier result }
{
    if y == 0 { 0 } else { u[y - 1] }
}

// The multiplier after a benchmarked year: none after the last.
fn multiplier_after(u: &[i128], y: usize) -> i128
    requires sizes { AreMultipliers u.now }
    ensures value { result ≡ first_of (drop y u.now) }
    ensures size { IsMultiplier result }
{
    if y < u.len() { u[y] } else { 0 }
}

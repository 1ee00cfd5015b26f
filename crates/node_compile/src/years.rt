//! The benchmarked years of one leaf.

ghost use Rattle.std.specs.Prelude.{◌≡◌, ◌≤◌, ◌+◌, ◌*◌, length, IfOk, EachIndex, All, slice_index};
ghost use Rattle.std.specs.List.Sorted.{IsStrictlyIncreasing};
ghost use Rattle.denton_parts.specs.Year.{IsIndicator};
ghost use Rattle.denton_parts.specs.Years.{ArePlaces, places_apart, years_at, years_in};
ghost use Rattle.denton_solve.specs.Conditions.{AreFew};
ghost use Rattle.series_tables.specs.Ranges.{IsBenchmarkOrNone};
ghost use Rattle.node_compile.specs.Leaf.{AreBenchmarks, places_from, present_benchmarks};

use denton_parts::{YearPart, part_at};
use qna_base::Memory;
use std::alloc::Global;

/// The years that have a benchmark, counted from 0.
pub(crate) fn years_of(alloc: Global, bench: &[Option<i64>]) -> Result<Vec<u8>, Memory>
    requires few { length bench.now ≤ 128 }
    ensures places { IfOk result (λ years. years.items ≡ places_from 0 bench.now) }
    ensures whole_years { IfOk result (λ years. ArePlaces (4 * length bench.now) years.items) }
{
    let mut years = Vec::with_capacity(alloc, bench.len())?;
    for year in 0..bench.len() {
        if bench[year].is_some() {
            years.push(year as u8)?;
        }
    }
    Ok(years)
}

/// Their benchmarks.
pub(crate) fn benchmarks_of(alloc: Global, bench: &[Option<i64>]) -> Result<Vec<i64>, Memory>
    requires range { All IsBenchmarkOrNone bench.now }
    ensures present { IfOk result (λ given. given.items ≡ present_benchmarks bench.now) }
    ensures range { IfOk result (λ given. AreBenchmarks given.items) }
{
    let mut given = Vec::with_capacity(alloc, bench.len())?;
    for benchmark in bench {
        if let Some(value) = benchmark {
            given.push(*value)?;
        }
    }
    Ok(given)
}

/// The figures of these years of a run of quarters.
pub(crate) fn parts_of(
    alloc: Global,
    ind: &[u32],
    years: &[u8],
    bench: &[i64],
) -> Result<Vec<YearPart>, Memory>
    requires placed { length years.now ≡ length bench.now }
    requires whole_years { ArePlaces (length ind.now) years.now }
    requires indicators { EachIndex ind.now (λ t. IsIndicator (slice_index ind.now t)) }
    requires benchmarks { AreBenchmarks bench.now }
    ensures count { IfOk result (λ parts. length parts.items ≡ length bench.now) }
    ensures years { IfOk result (λ parts.
        years_in years.now parts.items ≡ years_at ind.now years.now bench.now) }
{
    let mut parts = Vec::with_capacity(alloc, bench.len())?;
    for y in 0..bench.len() {
        parts.push(part_at(ind, years[y], bench[y]))?;
    }
    Ok(parts)
}

/// How many years between each of these and the next miss a benchmark.
pub(crate) fn missing_between(alloc: Global, years: &[u8]) -> Result<Vec<u8>, Memory>
    requires some_year { 1 ≤ length years.now }
    requires rising { IsStrictlyIncreasing years.now }
    requires most { EachIndex years.now (λ y. slice_index years.now y ≤ 127) }
    ensures apart { IfOk result (λ miss.
        places_apart (slice_index years.now 0) miss.items ≡ years.now) }
    ensures count { IfOk result (λ miss. length miss.items + 1 ≡ length years.now) }
    ensures few { IfOk result (λ miss. AreFew miss.items) }
{
    let mut miss = Vec::with_capacity(alloc, years.len() - 1)?;
    for y in 1..years.len() {
        miss.push(years[y] - years[y - 1] - 1)?;
    }
    Ok(miss)
}

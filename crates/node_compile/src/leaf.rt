//! The table of one leaf.

ghost use Rattle.std.specs.Prelude.{◌≡◌, ◌≤◌, ◌+◌, ◌-◌, ◌*◌, ℕ, map, length, IfOk, EachIndex, All, slice_index};
ghost use Rattle.denton_parts.specs.Scale.{scale_of_years};
ghost use Rattle.denton_parts.specs.Year.{IsIndicator};
ghost use Rattle.denton_parts.specs.Years.{ArePlaces, Wherever, years_apart, years_at};
ghost use Rattle.denton_solve.specs.Conditions.{AreFew, AreMultipliers};
ghost use Rattle.denton_solve.specs.Sweeps.{multipliers_of, IsEnough};
ghost use Rattle.price_base.specs.declared.Cell.TheVariants.{Value};
ghost use Rattle.price_base.specs.Volumes.{volumes_of};
ghost use Rattle.series_tables.specs.Ranges.{IsPositiveOrNone};
ghost use Rattle.node_compile.specs.Laws.{MeetsItsBenchmarks, IsWithinItsGap, IsGapWithinLimit};
ghost use Rattle.node_compile.specs.Leaf.{AreBenchmarks, AreEnough, joints_in, missing_table as missing_table_of};
ghost use Rattle.node_compile.specs.Leaf.{table_of_years, leaf_table};
ghost use Rattle.node_compile.specs.Sizes.{AreBelow, AreLeafValues, AreLeafVolumes};
ghost use Rattle.node_compile.specs.Table.{Makes, table_in};

use crate::chaining::chained;
use crate::quarters::values_of;
use crate::table::{LeafPart, NodeTable};
use crate::years::{benchmarks_of, missing_between, parts_of, years_of};
use denton_parts::{YearPart, scale_of};
use denton_solve::solve;
use dual_cert::{Cert, gap_of};
use period_keys::Year;
use price_base::{Cell, Cells, NodeFlows, at_previous_prices};
use qna_base::{Memory, Steps};
use series_tables::LeafInput;
use std::alloc::Global;
use std::sync::ledger::Ledger;

/// The table of a leaf. Its benchmarked years are those with a benchmark and four quarters in the run, and their values
/// are the benchmarked series. The quarters before the first of them have the ratio with which it begins, those past
/// the last the ratio with which it ends, and between two of them the ratio goes in even steps from the one to the
/// other. Without a benchmarked year all values are missing. The volumes are those of the values at the average price
/// of the year before, and the chain starts in `reference`, which is counted from the first year of the run. The values
/// meet the benchmarks, no series that meets them is better by more than the table's gap, and the gap is at most the
/// limit for the run's indicators. Values are below 10^24 in size, volumes within 10^15. A step is one joint of one
/// sweep of the solver.
pub fn compile_leaf<L: Ledger>(
    alloc: Global,
    input: &LeafInput,
    reference: Year,
    steps: &mut Steps<L>,
) -> Result<NodeTable, Memory>
    ensures table { Makes result
        (leaf_table input.now.ind.items input.now.price.items input.now.bench.items reference.0) }
    ensures quarters { IfOk result (λ table.
        length table.flows.value ≡ length input.now.ind.items) }
    ensures meets { IfOk result (λ table. MeetsItsBenchmarks (table_in table)) }
    ensures within { IfOk result (λ table. IsWithinItsGap (table_in table)) }
    ensures limit { IfOk result (λ table. IsGapWithinLimit (table_in table)) }
    ensures value_sizes { IfOk result (λ table. AreLeafValues table.flows.value) }
    ensures volume_sizes { IfOk result (λ table. AreLeafVolumes table.flows.prev) }
    ensures steps { (sweeps : ℕ) → AreEnough input.now.ind.items input.now.bench.items sweeps →
        steps.new ≤ steps.old + sweeps * joints_in input.now.bench.items }
{
    let years = years_of(alloc, &input.bench)?;
    if years.is_empty() {
        return missing_table(alloc, input.ind.len(), reference);
    }
    let bench = benchmarks_of(alloc, &input.bench)?;
    let ind = Vec::from_slice(alloc, &input.ind)?;
    benchmarked_table(alloc, ind, &input.price, years, bench, reference, steps)
}

// The table of a leaf without a benchmarked year.
fn missing_table(alloc: Global, quarters: usize, reference: Year) -> Result<NodeTable, Memory>
    requires { quarters ≤ 256 }
    ensures table { Makes result (missing_table_of quarters reference.0) }
    ensures quarters { IfOk result (λ table. length table.flows.value ≡ quarters) }
    ensures value_sizes { IfOk result (λ table. AreLeafValues table.flows.value) }
    ensures volume_sizes { IfOk result (λ table. AreLeafVolumes table.flows.prev) }
{
    let value = vec![in alloc; Cell::Missing; quarters]?;
    let prev = vec![in alloc; Cell::Missing; quarters]?;
    let flows = NodeFlows::new(Cells::from(value), Cells::from(prev));
    chained(alloc, None, flows, reference)
}

// The table of a leaf with benchmarked years.
fn benchmarked_table<L: Ledger>(
    alloc: Global,
    ind: Vec<u32>,
    prices: &[Option<u32>],
    years: Vec<u8>,
    bench: Vec<i64>,
    reference: Year,
    steps: &mut Steps<L>,
) -> Result<NodeTable, Memory>
    requires some_year { 1 ≤ length years.items }
    requires placed { length years.items ≡ length bench.items }
    requires whole_years { ArePlaces (length ind.items) years.items }
    requires few { length ind.items ≤ 256 }
    requires indicators { EachIndex ind.items (λ t. IsIndicator (slice_index ind.items t)) }
    requires benchmarks { AreBenchmarks bench.items }
    requires as_many_prices { length prices.now ≡ length ind.items }
    requires prices { All IsPositiveOrNone prices.now }
    ensures table { Makes result
        (table_of_years ind.items prices.now reference.0 years.items bench.items) }
    ensures quarters { IfOk result (λ table. length table.flows.value ≡ length ind.items) }
    ensures value_sizes { IfOk result (λ table. AreLeafValues table.flows.value) }
    ensures volume_sizes { IfOk result (λ table. AreLeafVolumes table.flows.prev) }
    ensures steps { let run = years_at ind.items years.items bench.items in
        (sweeps : ℕ) → IsEnough (scale_of_years run) run sweeps →
        steps.new ≤ steps.old + sweeps * (length bench.items - 1) }
{
    let parts = parts_of(alloc, &ind, &years, &bench)?;
    let miss = missing_between(alloc, &years)?;
    let scale = scale_of(&parts);
    let u = solved(alloc, &parts, &miss, scale, steps)?;
    let values = values_of(alloc, &parts, &years, scale, &u, &ind)?;
    let gap = gap_of(&parts, &years, scale, &u, &ind, &values);
    let flows = flows_of(alloc, &values, prices)?;
    let cert = Cert { scale, u, gap };
    let leaf = LeafPart {
        ind,
        years,
        bench,
        cert,
    };
    chained(alloc, Some(leaf), flows, reference)
}

// The multipliers between the years, at their scale.
fn solved<L: Ledger>(
    alloc: Global,
    parts: &[YearPart],
    miss: &[u8],
    scale: u8,
    steps: &mut Steps<L>,
) -> Result<Vec<i128>, Memory>
    requires some_year { 1 ≤ length parts.now }
    requires most { length parts.now ≤ 128 }
    requires between { length miss.now + 1 ≡ length parts.now }
    requires few { AreFew miss.now }
    requires scale { Wherever parts.now (λ years. scale ≡ scale_of_years years) }
    ensures multipliers { (first : ℕ) →
        IfOk result (λ u. u.items ≡ multipliers_of scale (years_apart first miss.now parts.now)) }
    ensures sizes { IfOk result (λ u. AreMultipliers u.items) }
    ensures joints { IfOk result (λ u. length u.items + 1 ≡ length parts.now) }
    ensures steps { (first sweeps : ℕ) →
        IsEnough scale (years_apart first miss.now parts.now) sweeps →
        steps.new ≤ steps.old + sweeps * (length parts.now - 1) }
{
    let joints = miss.len();
    let mut u = vec![in alloc; 0; joints]?;
    let mut spare = vec![in alloc; 0; 2 * joints]?;
    solve(parts, miss, scale, &mut u, &mut spare, steps);
    Ok(u)
}

// Values as an item's flows, with their volumes at these prices.
fn flows_of(alloc: Global, values: &[i128], prices: &[Option<u32>]) -> Result<NodeFlows, Memory>
    requires few { length values.now ≤ 256 }
    requires sizes { AreBelow values.now }
    requires as_many_prices { length prices.now ≡ length values.now }
    requires prices { All IsPositiveOrNone prices.now }
    ensures value { IfOk result (λ flows. flows.value ≡ map Value values.now) }
    ensures prev { IfOk result (λ flows. flows.prev ≡ volumes_of values.now prices.now) }
{
    let mut value = vec![in alloc; Cell::Missing; values.len()]?;
    write_cells(values, &mut value);
    let mut prev = vec![in alloc; Cell::Missing; values.len()]?;
    at_previous_prices(values, prices, &mut prev);
    Ok(NodeFlows::new(Cells::from(value), Cells::from(prev)))
}

// Writes values as cells.
#[tactic(auto, using(crate::proofs::Runs::cells_more, crate::proofs::Runs::cells_all))]
fn write_cells(values: &[i128], out: &mut [Cell])
    requires room { length out.old ≡ length values.now }
    ensures { out.new ≡ map Value values.now }
{
    for t in 0..values.len() {
        out[t] = Cell::Value(values[t]);
    }
}

//! The last value of each kind, leaf and period.

ghost use Rattle.std.specs.Prelude.{◌≡◌, ◌<◌, ◌≤◌, ◌≤ℤ◌, ◌+◌, ◌*◌, ◌^◌, ◌==◌, ◌&&◌, if◌then◌else◌, ℕ, Some, length};
ghost use Rattle.std.specs.Prelude.{vec_len, slice_set, replicate, map, pos, take, drop, IfOk, None};
ghost use Rattle.series_tables.specs.Fits.{HasRoom};
ghost use Rattle.series_tables.specs.Cells.{Rows, at_place, cell, after_input, IsInputOf, present_run};
ghost use Rattle.series_tables.specs.Ranges.{AreRows};
ghost use Rattle.series_tables.specs.declared.input.Kind.{Kind};

use crate::input::{Input, Kind};
use crate::leaf_input::LeafInput;
use crate::plan::Plan;
use qna_base::Memory;
use std::alloc::Global;
use std::marker::Model;

/// The quarters of a plan's 64 years.
const QUARTERS: usize = 256;
/// The years of a plan, from its start year on.
const YEARS: usize = 64;

/// For each item a row of 256 quarters with indicators, one with prices, and a row of 64 years with benchmarks. The
/// room for all is taken at once.
#[derive(Drop)]
pub struct Tables {
    alloc: Global,
    items: usize,
    indicators: Vec<Option<u32>>,
    prices: Vec<Option<u32>>,
    benchmarks: Vec<Option<i64>>,
}

impl Model for Tables {
    ghost Value = { Rows };

    ghost view = { λ tables. record {
      items = tables.items;
      indicators = tables.indicators.items;
      prices = tables.prices.items;
      benchmarks = tables.benchmarks.items;
    } };

    ghost invariant = { λ tables.
        AreRows tables.items tables.indicators.items tables.prices.items tables.benchmarks.items };
}

impl Tables {
    /// Tables with no value, for the items of a plan.
    pub fn new(alloc: Global, plan: &Plan) -> Result<Tables, Memory>
        ensures items { IfOk result (λ tables. tables.items ≡ length plan.now.names) }
        ensures empty { IfOk result (λ tables.
            (kind : Kind) (leaf period : ℕ) → cell tables kind leaf period ≡ None) }
    {
        let items = plan.len() as usize;
        Ok(Tables {
            alloc,
            items,
            indicators: no_values(alloc, items * QUARTERS)?,
            prices: no_values(alloc, items * QUARTERS)?,
            benchmarks: no_values(alloc, items * YEARS)?,
        })
    }

    /// Puts an input's value into its cell. Every other cell stays as it is.
    pub fn set(&mut self, input: &Input)
        requires { HasRoom self.old.items input.now }
        ensures items { self.new.items ≡ self.old.items }
        ensures cells { (kind : Kind) (leaf period : ℕ) → cell self.new kind leaf period
            ≡ after_input input.now kind leaf period (cell self.old kind leaf period) }
    {
        let leaf = input.leaf as usize;
        let period = input.period as usize;
        match input.kind {
            Kind::Indicator => put(
                &mut self.indicators,
                QUARTERS,
                leaf,
                period,
                unsigned(input.value),
            ),
            Kind::Benchmark => put(&mut self.benchmarks, YEARS, leaf, period, input.value),
            Kind::Price => put(
                &mut self.prices,
                QUARTERS,
                leaf,
                period,
                unsigned(input.value),
            ),
        }
    }

    /// What a leaf is compiled from: the run of its indicator, and the prices and benchmarks beside it.
    pub fn leaf_input(&self, leaf: u16) -> Result<LeafInput, Memory>
        requires { leaf < self.now.items }
        ensures { IfOk result (λ input. IsInputOf (λ kind period. cell self.now kind leaf period)
            input.ind.items input.price.items input.bench.items) }
    {
        let leaf = leaf as usize;
        let ind = present(self.alloc, row(&self.indicators, QUARTERS, leaf, QUARTERS))?;
        let price = Vec::from_slice(self.alloc, row(&self.prices, QUARTERS, leaf, ind.len()))?;
        let bench = Vec::from_slice(
            self.alloc,
            row(&self.benchmarks, YEARS, leaf, ind.len() / 4),
        )?;
        Ok(LeafInput { ind, price, bench })
    }
}

/// So many places that hold nothing.
fn no_values<T: Copy>(alloc: Global, places: usize) -> Result<Vec<Option<T>>, Memory>
    ensures places { IfOk result (λ rows. rows.items ≡ replicate places None) }
    ensures len { IfOk result (λ rows. vec_len rows ≡ places) }
{
    Ok(vec![in alloc; None; places]?)
}

/// The first places of a leaf's row.
fn row<T: Copy>(rows: &[Option<T>], width: usize, leaf: usize, places: usize) -> &[Option<T>]
    requires { leaf * width + places ≤ length rows.now }
    ensures row { result.now ≡ take places (drop (leaf * width) rows.now) }
    ensures len { length result.now ≡ places }
{
    let start = leaf * width;
    &rows[start..start + places]
}

/// The values of a row before the first place that has none.
fn present(alloc: Global, row: &[Option<u32>]) -> Result<Vec<u32>, Memory>
    ensures run { IfOk result (λ run. run.items ≡ present_run row.now) }
    ensures bound { IfOk result (λ run. vec_len run ≤ length row.now) }
{
    let mut run = Vec::with_capacity(alloc, row.len())?;
    for cell in row {
        match cell {
            Some(value) => run.push(*value)?,
            None => return Ok(run),
        }
    }
    Ok(run)
}

/// Puts a value at a place of rows that have so many places a leaf.
#[tactic(auto, using(crate::proofs::Places::at_place_after_set))]
fn put<T: Copy>(rows: &mut Vec<Option<T>>, width: usize, leaf: usize, period: usize, value: T)
    requires within { period < width }
    requires room { leaf * width + period < vec_len rows.old }
    ensures set { rows.new.items ≡ slice_set rows.old.items (leaf * width + period) (Some value) }
    ensures places { (other at : ℕ) → at_place rows.new.items width other at
        ≡ (if leaf == other && period == at then Some value
        else at_place rows.old.items width other at) }
{
    rows[leaf * width + period] = Some(value);
}

/// An indicator's or a price's value as an unsigned number.
fn unsigned(value: i64) -> u32
    requires least { pos 1 ≤ℤ value }
    requires most { value ≤ℤ pos (10 ^ 9) }
    ensures { pos result ≡ value }
{
    value as u32
}

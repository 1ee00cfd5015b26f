//! The chain of an item by annual overlap: its years' values and volumes, levels with their drift, and chained
//! quarters.
#![tactic(auto)]

ghost use Rattle.std.specs.Prelude.{◌≡◌, ◌≤◌, ◌^◌, ◌*◌, length, IfOk};
ghost use Rattle.std.specs.List.{All};
ghost use Rattle.annual_overlap.specs.Years.{IsSizedCell, year_count};
ghost use Rattle.annual_overlap.specs.Drift.{AreWithinDrift};
ghost use Rattle.annual_overlap.specs.Table.{chain_of, DoQuartersAddUp};

use period_keys::Year;
use price_base::{Cell, Cells, NodeFlows};
use qna_base::Memory;
use std::alloc::Global;

mod levels;
mod quarters;
mod years;

/// A ratio of two whole numbers that is never rounded, the second of them above zero, or the mark that says why there
/// is none.
#[derive(Clone, Copy)]
pub enum Ratio {
    /// There is no ratio.
    Broken(Cell),
    /// The first number over the second.
    Of(i128, i128),
}

/// A year's chained level with its drift, both in ten-thousandths of a currency unit, or the mark that says why there
/// is none.
#[derive(Clone, Copy)]
pub enum Point {
    /// There is no level.
    Marked(Cell),
    /// The level and its drift.
    Known(i128, i128),
}

/// An item's chain. The first four lists have one cell for each year that has a quarter, the last has one for each
/// quarter.
#[derive(Debug, Drop)]
pub struct ChainTable {
    /// The years' values, in whole currency units.
    pub value: Cells,
    /// The years' volumes at previous-year prices, in whole currency units.
    pub prev: Cells,
    /// The years' chained volumes, in ten-thousandths of a currency unit.
    pub level: Cells,
    /// How far each level is at most from the exact chained volume, in ten-thousandths.
    pub drift: Cells,
    /// The quarters' chained volumes, in ten-thousandths of a currency unit.
    pub quarter: Cells,
}

/// The chain of an item by annual overlap, with a reference year counted from the item's first year (chapter 8 of the
/// IMF Quarterly National Accounts Manual, 2017; levels in ten-thousandths, the drift, ranges and marks are this
/// product's own).
///
/// A year's value and volume are the sums of its four quarters, or the first mark among them in the order missing, no
/// base, range; a quarter that isn't there is missing. The level of the reference year is its value, and each further
/// level is the one before it times the link, or divided by it, rounded with halves up. A link is a year's volume over
/// the value of the year before. Where a number on the way is missing, not above zero or out of range, the level and
/// its drift are the mark that says so. A complete year shares its level out over its quarters; a quarter of another
/// year is its volume times the level over the value of the year before.
///
/// Values are at most 10^27 and volumes at most 512 * 10^15 in size, over at most 512 quarters. Want of memory is the
/// only refusal.
pub fn chain(alloc: Global, flows: &NodeFlows, reference: Year) -> Result<ChainTable, Memory>
    requires values { All (IsSizedCell (10 ^ 27)) flows.now.value }
    requires volumes { All (IsSizedCell (512 * 10 ^ 15)) flows.now.prev }
    requires quarters { length flows.now.value ≤ 512 }
    ensures table { IfOk result (λ table.
        table ≡ chain_of flows.now.value flows.now.prev reference.0) }
    ensures drift { IfOk result (λ table.
        AreWithinDrift table.value table.prev reference.0 table.level table.drift) }
    ensures adds_up { IfOk result DoQuartersAddUp }
    ensures years { IfOk result (λ table.
        (length table.value ≡ year_count (length flows.now.value))
        × (length table.prev ≡ year_count (length flows.now.value))
        × (length table.level ≡ year_count (length flows.now.value))
        × (length table.drift ≡ year_count (length flows.now.value))) }
    ensures quarters { IfOk result (λ table. length table.quarter ≡ length flows.now.value) }
{
    let value = years::years(alloc, flows.value.as_slice())?;
    let prev = years::years(alloc, flows.prev.as_slice())?;
    let points = levels::points(alloc, &value, &prev, usize::from(reference.0))?;
    let level = levels::level_cells(alloc, &points)?;
    let drift = levels::drift_cells(alloc, &points)?;
    let quarter = quarters::chained_cells(alloc, &value, &prev, &level, flows.prev.as_slice())?;
    Ok(ChainTable {
        value: Cells::from(value),
        prev: Cells::from(prev),
        level: Cells::from(level),
        drift: Cells::from(drift),
        quarter: Cells::from(quarter),
    })
}

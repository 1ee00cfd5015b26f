ghost use Rattle.std.specs.Prelude.{◌≡◌, ◌≤◌, ◌<◌, ◌^◌, ◌*◌, ℕ, pos, ◌+ℤ◌, unsigned_abs, length, IfOk, [], ◌∷◌};
ghost use Rattle.std.specs.List.{list_any};
ghost use Rattle.price_base.specs.Cells.{cell_at, is_missing, is_no_base, is_range, total, combined};
ghost use Rattle.annual_overlap.specs.Years.{year_count, year_cell, years_of, number_or, IsSizedCell};

use price_base::Cell;
use qna_base::Memory;
use std::alloc::Global;

/// The cell at a place, or `Missing` past the last one.
pub fn cell_or_missing(cells: &[Cell], place: usize) -> Cell
    ensures cell { result ≡ cell_at cells.now place }
{
    if place < cells.len() {
        cells[place]
    } else {
        Cell::Missing
    }
}

/// The number in a cell, and 0 for a mark.
fn number_of(cell: Cell) -> i128
    requires size { IsSizedCell (10 ^ 27) cell }
    ensures number { result ≡ number_or (pos 0) cell }
    ensures size { unsigned_abs result ≤ 10 ^ 27 }
{
    match cell {
        Cell::Value(number) => number,
        _ => 0,
    }
}

/// The sum of four numbers.
fn sum_of(first: i128, second: i128, third: i128, fourth: i128) -> i128
    requires first { unsigned_abs first ≤ 10 ^ 27 }
    requires second { unsigned_abs second ≤ 10 ^ 27 }
    requires third { unsigned_abs third ≤ 10 ^ 27 }
    requires fourth { unsigned_abs fourth ≤ 10 ^ 27 }
    ensures value { result ≡ first +ℤ second +ℤ third +ℤ fourth }
    ensures size { unsigned_abs result ≤ 4 * 10 ^ 27 }
{
    let two = first + second;
    let three = two + third;
    three + fourth
}

/// The sum of the numbers in four cells.
#[tactic(auto, using(crate::proofs::YearSums::total_of_four))]
fn total_of(first: Cell, second: Cell, third: Cell, fourth: Cell) -> i128
    requires first { IsSizedCell (10 ^ 27) first }
    requires second { IsSizedCell (10 ^ 27) second }
    requires third { IsSizedCell (10 ^ 27) third }
    requires fourth { IsSizedCell (10 ^ 27) fourth }
    ensures total { result ≡ total (first ∷ second ∷ third ∷ fourth ∷ []) }
    ensures size { unsigned_abs result ≤ 4 * 10 ^ 27 }
{
    sum_of(
        number_of(first),
        number_of(second),
        number_of(third),
        number_of(fourth),
    )
}

/// Whether one of four cells is missing.
fn has_missing(first: Cell, second: Cell, third: Cell, fourth: Cell) -> bool
    ensures any { result ≡ list_any is_missing (first ∷ second ∷ third ∷ fourth ∷ []) }
{
    matches!(first, Cell::Missing)
        || matches!(second, Cell::Missing)
        || matches!(third, Cell::Missing)
        || matches!(fourth, Cell::Missing)
}

/// Whether one of four cells has no base.
fn has_no_base(first: Cell, second: Cell, third: Cell, fourth: Cell) -> bool
    ensures any { result ≡ list_any is_no_base (first ∷ second ∷ third ∷ fourth ∷ []) }
{
    matches!(first, Cell::NoBase)
        || matches!(second, Cell::NoBase)
        || matches!(third, Cell::NoBase)
        || matches!(fourth, Cell::NoBase)
}

/// Whether one of four cells is out of range.
fn has_range(first: Cell, second: Cell, third: Cell, fourth: Cell) -> bool
    ensures any { result ≡ list_any is_range (first ∷ second ∷ third ∷ fourth ∷ []) }
{
    matches!(first, Cell::Range)
        || matches!(second, Cell::Range)
        || matches!(third, Cell::Range)
        || matches!(fourth, Cell::Range)
}

/// The cell of a year with these quarters: the first mark among them in the order missing, no base, range, or else
/// their sum.
fn sum_cell(first: Cell, second: Cell, third: Cell, fourth: Cell) -> Cell
    requires first { IsSizedCell (10 ^ 27) first }
    requires second { IsSizedCell (10 ^ 27) second }
    requires third { IsSizedCell (10 ^ 27) third }
    requires fourth { IsSizedCell (10 ^ 27) fourth }
    ensures cell { result ≡ combined (first ∷ second ∷ third ∷ fourth ∷ []) }
{
    if has_missing(first, second, third, fourth) {
        Cell::Missing
    } else if has_no_base(first, second, third, fourth) {
        Cell::NoBase
    } else if has_range(first, second, third, fourth) {
        Cell::Range
    } else {
        Cell::Value(total_of(first, second, third, fourth))
    }
}

/// The cell of a year.
fn year_of(cells: &[Cell], year: usize) -> Cell
    requires sizes { (k : ℕ) → IsSizedCell (10 ^ 27) (cell_at cells.now k) }
    requires year { year < 512 }
    ensures cell { result ≡ year_cell cells.now year }
{
    let first = 4 * year;
    sum_cell(
        cell_or_missing(cells, first),
        cell_or_missing(cells, first + 1),
        cell_or_missing(cells, first + 2),
        cell_or_missing(cells, first + 3),
    )
}

/// Writes the cells of the years.
#[tactic(auto, using(crate::proofs::YearSums::year_written, crate::proofs::YearSums::years_written))]
fn write_years(cells: &[Cell], out: &mut [Cell])
    requires sizes { (k : ℕ) → IsSizedCell (10 ^ 27) (cell_at cells.now k) }
    requires quarters { length cells.now ≤ 512 }
    requires years { length out.old ≡ year_count (length cells.now) }
    ensures years { out.new ≡ years_of cells.now }
{
    for year in 0..out.len() {
        out[year] = year_of(cells, year);
    }
}

/// The cells of the years that have one of these quarters, each the sum of the year's four quarters or the first mark
/// among them.
pub fn years(alloc: Global, cells: &[Cell]) -> Result<Vec<Cell>, Memory>
    requires sizes { (k : ℕ) → IsSizedCell (10 ^ 27) (cell_at cells.now k) }
    requires quarters { length cells.now ≤ 512 }
    ensures years { IfOk result (λ years. years.items ≡ years_of cells.now) }
{
    let mut years = vec![in alloc; Cell::Missing; (cells.len() + 3) / 4]?;
    write_years(cells, &mut years);
    Ok(years)
}

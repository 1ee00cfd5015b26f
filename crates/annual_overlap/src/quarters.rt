ghost use Rattle.std.specs.Prelude.{◌≡◌, ◌≤◌, ◌<◌, ◌^◌, ◌*◌, ◌+◌, ◌/◌, ◌%◌, ℕ, pos, ◌+ℤ◌, ◌*ℤ◌, ◌<ℤ◌, ◌≤ℤ◌};
ghost use Rattle.std.specs.Prelude.{unsigned_abs, length, IfOk, map, [], ◌∷◌, ◌⊎◌};
ghost use Rattle.ratio_arith.specs.Division.{round_of};
ghost use Rattle.sum_rounding.specs.ShareOut.{share_of, sum_of};
ghost use Rattle.price_base.specs.Cells.{cell_at, total};
ghost use Rattle.price_base.specs.declared.Cell.TheVariants.{Value};
ghost use Rattle.annual_overlap.specs.Years.{IsSizedCell, number_or, quarters_in};
ghost use Rattle.annual_overlap.specs.Quarters.{complete_year, first_mark, rate_of, rate_at, quarter_within};
ghost use Rattle.annual_overlap.specs.Quarters.{linked_quarter, chained_year, chained_in, chained_at, chained_of};
ghost use Rattle.annual_overlap.specs.Sizes.{IsSmallRate, IsTotalOf};

use crate::Ratio;
use crate::years::cell_or_missing;
use price_base::Cell;
use qna_base::Memory;
use ratio_arith::round_div;
use std::alloc::Global;
use sum_rounding::share_four;

/// The greatest size of a chained quarter of a year that isn't complete.
const QUARTER_LIMIT: u128 = 10_000_000_000_000_000_000;

/// The greatest value of a year that is linked by.
const LINK_LIMIT: i128 = 1_000_000_000_000_000_000;

/// The product of a level and a quarter's volume.
#[tactic(auto, using(crate::proofs::Products::part_size, crate::proofs::Products::part_fits, crate::proofs::Products::part_kept))]
fn part(level: i128, volume: i128) -> i128
    requires level { unsigned_abs level ≤ 10 ^ 19 }
    requires volume { unsigned_abs volume ≤ 512 * 10 ^ 15 }
    ensures value { result ≡ level *ℤ volume }
    ensures size { unsigned_abs result ≤ 10 ^ 37 }
{
    level * volume
}

/// The number of a quarter's volume, and 0 for a mark.
fn number_of(cell: Cell) -> i128
    requires size { IsSizedCell (512 * 10 ^ 15) cell }
    ensures number { result ≡ number_or (pos 0) cell }
    ensures size { unsigned_abs result ≤ 512 * 10 ^ 15 }
{
    match cell {
        Cell::Value(number) => number,
        _ => 0,
    }
}

/// A quarter's part in its year's level.
fn part_of(level: i128, quarter: Cell) -> i128
    requires level { unsigned_abs level ≤ 10 ^ 19 }
    requires quarter { IsSizedCell (512 * 10 ^ 15) quarter }
    ensures value { result ≡ level *ℤ number_or (pos 0) quarter }
    ensures size { unsigned_abs result ≤ 10 ^ 37 }
{
    part(level, number_of(quarter))
}

/// Four numbers as cells.
fn values_of(numbers: &[i128; 4]) -> [Cell; 4]
    ensures cells { result ≡ map Value numbers.now }
{
    [
        Cell::Value(numbers[0]),
        Cell::Value(numbers[1]),
        Cell::Value(numbers[2]),
        Cell::Value(numbers[3]),
    ]
}

/// A chained quarter within its range.
fn within_limit(quarter: i128) -> Cell
    ensures cell { result ≡ quarter_within quarter }
{
    if quarter.unsigned_abs() <= QUARTER_LIMIT {
        Cell::Value(quarter)
    } else {
        Cell::Range
    }
}

/// The rate of the quarters of a year, from the level and the value of the year before.
fn rate_between(level: Cell, value: Cell) -> Ratio
    requires level { IsSizedCell (10 ^ 19) level }
    ensures rate { result ≡ rate_of level value }
    ensures range { IsSmallRate result }
{
    match (level, value) {
        (Cell::Value(level), Cell::Value(value)) => {
            if value <= 0 {
                Ratio::Broken(Cell::NoLink)
            } else if value <= LINK_LIMIT {
                Ratio::Of(level, value)
            } else {
                Ratio::Broken(Cell::Range)
            }
        }
        (Cell::Value(_), mark) => Ratio::Broken(mark),
        (mark, _) => Ratio::Broken(mark),
    }
}

/// The first of two cells that is a mark.
fn mark_of(first: Cell, second: Cell) -> Cell
    ensures mark { result ≡ first_mark first second }
{
    match first {
        Cell::Value(_) => second,
        mark => mark,
    }
}

/// The rate of the quarters of a year of an item.
fn rate_in(values: &[Cell], volumes: &[Cell], levels: &[Cell], year: usize) -> Ratio
    requires levels { (k : ℕ) → IsSizedCell (10 ^ 19) (cell_at levels.now k) }
    ensures rate { result ≡ rate_at values.now volumes.now levels.now year }
    ensures range { IsSmallRate result }
{
    if year == 0 {
        Ratio::Broken(mark_of(cell_or_missing(volumes, 0), cell_or_missing(values, 0)))
    } else {
        rate_between(
            cell_or_missing(levels, year - 1),
            cell_or_missing(values, year - 1),
        )
    }
}

/// A quarter's volume times a rate.
fn times_rate(level: i128, volume: i128, value: i128) -> Cell
    requires level { unsigned_abs level ≤ 10 ^ 19 }
    requires volume { unsigned_abs volume ≤ 512 * 10 ^ 15 }
    requires value { pos 0 <ℤ value }
    requires value_size { value ≤ℤ pos (10 ^ 18) }
    ensures cell { result ≡ quarter_within (round_of (level *ℤ volume) value) }
{
    within_limit(round_div(part(level, volume), value))
}

/// A quarter of a year that isn't complete.
fn linked(rate: Ratio, quarter: Cell) -> Cell
    requires rate { IsSmallRate rate }
    requires quarter { IsSizedCell (512 * 10 ^ 15) quarter }
    ensures cell { result ≡ linked_quarter rate quarter }
{
    match (rate, quarter) {
        (Ratio::Of(level, value), Cell::Value(volume)) => times_rate(level, volume, value),
        (Ratio::Broken(mark), Cell::Value(_)) => mark,
        (_, mark) => mark,
    }
}

/// The four quarters of a complete year with a level and a volume above zero: the level shared out in proportion to
/// their volumes.
fn shared(
    level: i128,
    volume: i128,
    first: Cell,
    second: Cell,
    third: Cell,
    fourth: Cell,
) -> [Cell; 4]
    requires level { unsigned_abs level ≤ 10 ^ 19 }
    requires positive { pos 0 <ℤ volume }
    requires volume { volume ≤ℤ pos (4 * 10 ^ 18) }
    requires first { IsSizedCell (512 * 10 ^ 15) first }
    requires second { IsSizedCell (512 * 10 ^ 15) second }
    requires third { IsSizedCell (512 * 10 ^ 15) third }
    requires fourth { IsSizedCell (512 * 10 ^ 15) fourth }
    requires adds_up { total (first ∷ second ∷ third ∷ fourth ∷ []) ≡ volume }
    ensures quarters { result ≡ map Value (share_of
        (map (λ quarter. level *ℤ number_or (pos 0) quarter) (first ∷ second ∷ third ∷ fourth ∷ []))
        volume level) }
{
    values_of(&share_four(
        part_of(level, first),
        part_of(level, second),
        part_of(level, third),
        part_of(level, fourth),
        volume,
        level,
    ))
}

/// The four quarters of a complete year.
fn complete(
    level: Cell,
    volume: i128,
    first: Cell,
    second: Cell,
    third: Cell,
    fourth: Cell,
) -> [Cell; 4]
    requires level { IsSizedCell (10 ^ 19) level }
    requires volume { volume ≤ℤ pos (4 * 10 ^ 18) }
    requires first { IsSizedCell (512 * 10 ^ 15) first }
    requires second { IsSizedCell (512 * 10 ^ 15) second }
    requires third { IsSizedCell (512 * 10 ^ 15) third }
    requires fourth { IsSizedCell (512 * 10 ^ 15) fourth }
    requires adds_up { total (first ∷ second ∷ third ∷ fourth ∷ []) ≡ volume }
    ensures quarters { result ≡ complete_year level volume (first ∷ second ∷ third ∷ fourth ∷ []) }
{
    match level {
        Cell::Value(level) => {
            if volume <= 0 {
                [Cell::NoLink; 4]
            } else {
                shared(level, volume, first, second, third, fourth)
            }
        }
        mark => [mark; 4],
    }
}

/// The four quarters of a year that isn't complete.
fn incomplete(rate: Ratio, first: Cell, second: Cell, third: Cell, fourth: Cell) -> [Cell; 4]
    requires rate { IsSmallRate rate }
    requires first { IsSizedCell (512 * 10 ^ 15) first }
    requires second { IsSizedCell (512 * 10 ^ 15) second }
    requires third { IsSizedCell (512 * 10 ^ 15) third }
    requires fourth { IsSizedCell (512 * 10 ^ 15) fourth }
    ensures quarters { result ≡ map (linked_quarter rate) (first ∷ second ∷ third ∷ fourth ∷ []) }
{
    [
        linked(rate, first),
        linked(rate, second),
        linked(rate, third),
        linked(rate, fourth),
    ]
}

/// A year of an item: its value, volume and level, and the rate of its quarters where it isn't complete.
#[derive(Clone, Copy)]
pub struct LinkedYear {
    pub value: Cell,
    pub volume: Cell,
    pub level: Cell,
    pub rate: Ratio,
}

/// The four quarters of a year.
fn chained(year: LinkedYear, first: Cell, second: Cell, third: Cell, fourth: Cell) -> [Cell; 4]
    requires volume { IsSizedCell (4 * 10 ^ 18) year.volume }
    requires level { IsSizedCell (10 ^ 19) year.level }
    requires rate { IsSmallRate year.rate }
    requires first { IsSizedCell (512 * 10 ^ 15) first }
    requires second { IsSizedCell (512 * 10 ^ 15) second }
    requires third { IsSizedCell (512 * 10 ^ 15) third }
    requires fourth { IsSizedCell (512 * 10 ^ 15) fourth }
    requires adds_up { IsTotalOf year.volume (first ∷ second ∷ third ∷ fourth ∷ []) }
    ensures quarters { result ≡ chained_year year.value year.volume year.level year.rate
        (first ∷ second ∷ third ∷ fourth ∷ []) }
{
    match (year.value, year.volume) {
        (Cell::Value(_), Cell::Value(volume)) => {
            complete(year.level, volume, first, second, third, fourth)
        }
        _ => incomplete(year.rate, first, second, third, fourth),
    }
}

/// The four quarters of a year of an item.
fn chained_quarters(
    values: &[Cell],
    volumes: &[Cell],
    levels: &[Cell],
    quarters: &[Cell],
    year: usize,
) -> [Cell; 4]
    requires volumes { (k : ℕ) → IsSizedCell (4 * 10 ^ 18) (cell_at volumes.now k) }
    requires levels { (k : ℕ) → IsSizedCell (10 ^ 19) (cell_at levels.now k) }
    requires quarters { (k : ℕ) → IsSizedCell (512 * 10 ^ 15) (cell_at quarters.now k) }
    requires totals { (k : ℕ) → IsTotalOf (cell_at volumes.now k) (quarters_in quarters.now k) }
    requires year { year < 512 }
    ensures quarters { result ≡ chained_in values.now volumes.now levels.now quarters.now year }
{
    let linked_year = LinkedYear {
        value: cell_or_missing(values, year),
        volume: cell_or_missing(volumes, year),
        level: cell_or_missing(levels, year),
        rate: rate_in(values, volumes, levels, year),
    };
    let first = 4 * year;
    chained(
        linked_year,
        cell_or_missing(quarters, first),
        cell_or_missing(quarters, first + 1),
        cell_or_missing(quarters, first + 2),
        cell_or_missing(quarters, first + 3),
    )
}

/// The four quarters of a quarter's year: made at the year's first quarter, and kept for the others.
fn quarters_for(
    values: &[Cell],
    volumes: &[Cell],
    levels: &[Cell],
    quarters: &[Cell],
    quarter: usize,
    kept: [Cell; 4],
) -> [Cell; 4]
    requires volumes { (k : ℕ) → IsSizedCell (4 * 10 ^ 18) (cell_at volumes.now k) }
    requires levels { (k : ℕ) → IsSizedCell (10 ^ 19) (cell_at levels.now k) }
    requires quarters { (k : ℕ) → IsSizedCell (512 * 10 ^ 15) (cell_at quarters.now k) }
    requires totals { (k : ℕ) → IsTotalOf (cell_at volumes.now k) (quarters_in quarters.now k) }
    requires quarter { quarter < 512 }
    requires kept { (quarter % 4 ≡ 0)
        ⊎ (kept ≡ chained_in values.now volumes.now levels.now quarters.now (quarter / 4)) }
    ensures quarters { result
        ≡ chained_in values.now volumes.now levels.now quarters.now (quarter / 4) }
{
    if quarter.is_multiple_of(4) {
        chained_quarters(values, volumes, levels, quarters, quarter / 4)
    } else {
        kept
    }
}

/// Writes the chained quarters.
fn write_quarters(
    values: &[Cell],
    volumes: &[Cell],
    levels: &[Cell],
    quarters: &[Cell],
    out: &mut [Cell],
)
    requires volumes { (k : ℕ) → IsSizedCell (4 * 10 ^ 18) (cell_at volumes.now k) }
    requires levels { (k : ℕ) → IsSizedCell (10 ^ 19) (cell_at levels.now k) }
    requires quarters { (k : ℕ) → IsSizedCell (512 * 10 ^ 15) (cell_at quarters.now k) }
    requires totals { (k : ℕ) → IsTotalOf (cell_at volumes.now k) (quarters_in quarters.now k) }
    requires count { length quarters.now ≤ 512 }
    requires places { length out.old ≡ length quarters.now }
    ensures quarters { out.new ≡ chained_of values.now volumes.now levels.now quarters.now }
{
    let mut four = [Cell::Missing; 4];
    for quarter in 0..out.len() {
        four = quarters_for(values, volumes, levels, quarters, quarter, four);
        out[quarter] = four[quarter % 4];
    }
}

/// The chained quarters of an item, from the cells of its years and the volumes of its quarters.
pub fn chained_cells(
    alloc: Global,
    values: &[Cell],
    volumes: &[Cell],
    levels: &[Cell],
    quarters: &[Cell],
) -> Result<Vec<Cell>, Memory>
    requires volumes { (k : ℕ) → IsSizedCell (4 * 10 ^ 18) (cell_at volumes.now k) }
    requires levels { (k : ℕ) → IsSizedCell (10 ^ 19) (cell_at levels.now k) }
    requires quarters { (k : ℕ) → IsSizedCell (512 * 10 ^ 15) (cell_at quarters.now k) }
    requires totals { (k : ℕ) → IsTotalOf (cell_at volumes.now k) (quarters_in quarters.now k) }
    requires count { length quarters.now ≤ 512 }
    ensures quarters { IfOk result (λ cells.
        cells.items ≡ chained_of values.now volumes.now levels.now quarters.now) }
{
    let mut cells = vec![in alloc; Cell::Missing; quarters.len()]?;
    write_quarters(values, volumes, levels, quarters, &mut cells);
    Ok(cells)
}

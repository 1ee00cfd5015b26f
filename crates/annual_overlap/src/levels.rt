ghost use Rattle.std.specs.Prelude.{◌≡◌, ◌≤◌, ◌<◌, ◌^◌, ◌*◌, ◌+◌, ℕ, pos, ◌+ℤ◌, ◌*ℤ◌, ◌<ℤ◌, ◌≤ℤ◌, unsigned_abs, length};
ghost use Rattle.std.specs.Prelude.{slice_index_or, IfOk, map};
ghost use Rattle.ratio_arith.specs.Division.{round_of, ceil_of};
ghost use Rattle.price_base.specs.declared.Cell.TheVariants.{Missing};
ghost use Rattle.price_base.specs.Cells.{cell_at};
ghost use Rattle.annual_overlap.specs.declared.Point.TheVariants.{Marked};
ghost use Rattle.annual_overlap.specs.Years.{IsSizedCell};
ghost use Rattle.annual_overlap.specs.Chain.{link_of, link_after, point_within, moved, step_forward, step_backward};
ghost use Rattle.annual_overlap.specs.Chain.{reference_point, point_at, points_of, level_cell, drift_cell};
ghost use Rattle.annual_overlap.specs.Sizes.{IsSmallLink, IsSmallPoint};

use crate::years::cell_or_missing;
use crate::{Point, Ratio};
use price_base::Cell;
use qna_base::Memory;
use ratio_arith::{ceil_div, round_div};
use std::alloc::Global;

/// The greatest level and the greatest drift.
const LEVEL_LIMIT: i128 = 10_000_000_000_000_000_000;

/// The greatest value of a year that is linked by.
const LINK_LIMIT: i128 = 1_000_000_000_000_000_000;

/// The greatest value of a reference year.
const REFERENCE_LIMIT: i128 = 1_000_000_000_000_000;

/// The link of a year with that volume to the year before with that value.
fn link_between(before: Cell, volume: Cell) -> Ratio
    requires volume { IsSizedCell (4 * 10 ^ 18) volume }
    ensures link { result ≡ link_of before volume }
    ensures range { IsSmallLink result }
{
    match (before, volume) {
        (Cell::Value(before), Cell::Value(volume)) => {
            if volume <= 0 || before <= 0 {
                Ratio::Broken(Cell::NoLink)
            } else if before <= LINK_LIMIT {
                Ratio::Of(volume, before)
            } else {
                Ratio::Broken(Cell::Range)
            }
        }
        (before, Cell::Value(_)) => Ratio::Broken(before),
        (_, mark) => Ratio::Broken(mark),
    }
}

/// The link between a year and the next.
fn link_to_next(values: &[Cell], volumes: &[Cell], year: usize) -> Ratio
    requires volumes { (k : ℕ) → IsSizedCell (4 * 10 ^ 18) (cell_at volumes.now k) }
    requires year { year < 512 }
    ensures link { result ≡ link_after values.now volumes.now year }
    ensures range { IsSmallLink result }
{
    link_between(
        cell_or_missing(values, year),
        cell_or_missing(volumes, year + 1),
    )
}

/// The product of a level or a drift with a number of a link.
#[tactic(auto, using(crate::proofs::Products::level_product, crate::proofs::Products::level_fits, crate::proofs::Products::level_kept))]
fn product(level: i128, number: i128) -> i128
    requires level { pos 0 ≤ℤ level }
    requires level_size { level ≤ℤ pos (10 ^ 19) }
    requires number { pos 0 <ℤ number }
    requires number_size { number ≤ℤ pos (4 * 10 ^ 18) }
    ensures value { result ≡ level *ℤ number }
    ensures sign { pos 0 ≤ℤ result }
    ensures size { result ≤ℤ pos (4 * 10 ^ 37) }
{
    level * number
}

/// A product over a number of a link, rounded.
#[tactic(auto, using(crate::proofs::Products::round_sign, crate::proofs::Products::round_size))]
fn rounded(product: i128, under: i128) -> i128
    requires sign { pos 0 ≤ℤ product }
    requires size { product ≤ℤ pos (4 * 10 ^ 37) }
    requires under { pos 0 <ℤ under }
    requires under_size { under ≤ℤ pos (4 * 10 ^ 18) }
    ensures value { result ≡ round_of product under }
    ensures sign { pos 0 ≤ℤ result }
    ensures size { result ≤ℤ pos (4 * 10 ^ 37) }
{
    round_div(product, under)
}

/// A product over a number of a link, rounded up.
#[tactic(auto, using(crate::proofs::Products::ceil_sign, crate::proofs::Products::ceil_size))]
fn ceiling(product: i128, under: i128) -> i128
    requires sign { pos 0 ≤ℤ product }
    requires size { product ≤ℤ pos (4 * 10 ^ 37) }
    requires under { pos 0 <ℤ under }
    ensures value { result ≡ ceil_of product under }
    ensures sign { pos 0 ≤ℤ result }
    ensures size { result ≤ℤ pos (4 * 10 ^ 37) }
{
    ceil_div(product, under)
}

/// One more.
fn one_more(number: i128) -> i128
    requires sign { pos 0 ≤ℤ number }
    requires size { number ≤ℤ pos (4 * 10 ^ 37) }
    ensures value { result ≡ number +ℤ pos 1 }
    ensures sign { pos 0 ≤ℤ result }
    ensures size { result ≤ℤ pos (5 * 10 ^ 37) }
{
    number + 1
}

/// A level with its drift, where both are within their limit.
fn within_limits(level: i128, drift: i128) -> Point
    requires level { pos 0 ≤ℤ level }
    requires drift { pos 0 ≤ℤ drift }
    ensures point { result ≡ point_within level drift }
    ensures range { IsSmallPoint result }
{
    if level <= LEVEL_LIMIT && drift <= LEVEL_LIMIT {
        Point::Known(level, drift)
    } else {
        Point::Marked(Cell::Range)
    }
}

/// A level and its drift times the ratio of two numbers of a link.
fn times_ratio(level: i128, drift: i128, over: i128, under: i128) -> Point
    requires level { pos 0 ≤ℤ level }
    requires level_size { level ≤ℤ pos (10 ^ 19) }
    requires drift { pos 0 ≤ℤ drift }
    requires drift_size { drift ≤ℤ pos (10 ^ 19) }
    requires over { pos 0 <ℤ over }
    requires over_size { over ≤ℤ pos (4 * 10 ^ 18) }
    requires under { pos 0 <ℤ under }
    requires under_size { under ≤ℤ pos (4 * 10 ^ 18) }
    ensures point { result ≡ moved level drift over under }
    ensures range { IsSmallPoint result }
{
    let next_level = rounded(product(level, over), under);
    let next_drift = one_more(ceiling(product(drift, over), under));
    within_limits(next_level, next_drift)
}

/// The level of the year after one.
fn next_point(point: Point, link: Ratio) -> Point
    requires point { IsSmallPoint point }
    requires link { IsSmallLink link }
    ensures point { result ≡ step_forward point link }
    ensures range { IsSmallPoint result }
{
    match (point, link) {
        (Point::Known(level, drift), Ratio::Of(volume, before)) => {
            times_ratio(level, drift, volume, before)
        }
        (Point::Known(_, _), Ratio::Broken(mark)) => Point::Marked(mark),
        (Point::Marked(mark), _) => Point::Marked(mark),
    }
}

/// The level of the year before one.
fn previous_point(point: Point, link: Ratio) -> Point
    requires point { IsSmallPoint point }
    requires link { IsSmallLink link }
    ensures point { result ≡ step_backward point link }
    ensures range { IsSmallPoint result }
{
    match (point, link) {
        (Point::Known(level, drift), Ratio::Of(volume, before)) => {
            times_ratio(level, drift, before, volume)
        }
        (Point::Known(_, _), Ratio::Broken(mark)) => Point::Marked(mark),
        (Point::Marked(mark), _) => Point::Marked(mark),
    }
}

/// The level of the reference year with that value.
fn first_point(value: Cell) -> Point
    ensures point { result ≡ reference_point value }
    ensures range { IsSmallPoint result }
{
    match value {
        Cell::Value(value) => {
            if value <= 0 {
                Point::Marked(Cell::NoLink)
            } else if value <= REFERENCE_LIMIT {
                Point::Known(10_000 * value, 0)
            } else {
                Point::Marked(Cell::Range)
            }
        }
        mark => Point::Marked(mark),
    }
}

/// Writes the levels of the years before the reference year, from the last of them back.
fn write_before(values: &[Cell], volumes: &[Cell], reference: usize, out: &mut [Point])
    requires volumes { (k : ℕ) → IsSizedCell (4 * 10 ^ 18) (cell_at volumes.now k) }
    requires years { length values.now ≤ 512 }
    requires places { length out.old ≡ length values.now }
    requires small { (k : ℕ) → IsSmallPoint (slice_index_or out.old k (Marked Missing)) }
    ensures before { (k : ℕ) → k < reference → k < length values.now →
        slice_index_or out.new k (Marked Missing) ≡ point_at values.now volumes.now reference k }
    ensures small { (k : ℕ) → IsSmallPoint (slice_index_or out.new k (Marked Missing)) }
{
    let mut point = first_point(cell_or_missing(values, reference));
    for year in (0..reference.min(out.len())).rev() {
        point = previous_point(point, link_to_next(values, volumes, year));
        out[year] = point;
    }
}

/// Writes the levels of the years from the reference year on.
fn write_after(values: &[Cell], volumes: &[Cell], reference: usize, out: &mut [Point])
    requires volumes { (k : ℕ) → IsSizedCell (4 * 10 ^ 18) (cell_at volumes.now k) }
    requires years { length values.now ≤ 512 }
    requires places { length out.old ≡ length values.now }
    requires before { (k : ℕ) → k < reference → k < length values.now →
        slice_index_or out.old k (Marked Missing) ≡ point_at values.now volumes.now reference k }
    requires small { (k : ℕ) → IsSmallPoint (slice_index_or out.old k (Marked Missing)) }
    ensures points { out.new ≡ points_of values.now volumes.now reference }
    ensures small { (k : ℕ) → IsSmallPoint (slice_index_or out.new k (Marked Missing)) }
{
    let mut point = first_point(cell_or_missing(values, reference));
    for year in reference..out.len() {
        out[year] = point;
        point = next_point(point, link_to_next(values, volumes, year));
    }
}

/// The levels of the years with their drifts, reached from the reference year in both directions.
pub fn points(
    alloc: Global,
    values: &[Cell],
    volumes: &[Cell],
    reference: usize,
) -> Result<Vec<Point>, Memory>
    requires volumes { (k : ℕ) → IsSizedCell (4 * 10 ^ 18) (cell_at volumes.now k) }
    requires years { length values.now ≤ 512 }
    ensures points { IfOk result (λ points.
        points.items ≡ points_of values.now volumes.now reference) }
    ensures small { IfOk result (λ points. (k : ℕ) →
        IsSmallPoint (slice_index_or points.items k (Marked Missing))) }
{
    let mut points = vec![in alloc; Point::Marked(Cell::Missing); values.len()]?;
    write_before(values, volumes, reference, &mut points);
    write_after(values, volumes, reference, &mut points);
    Ok(points)
}

/// The cell of a level.
fn level_of(point: Point) -> Cell
    ensures cell { result ≡ level_cell point }
{
    match point {
        Point::Known(level, _) => Cell::Value(level),
        Point::Marked(mark) => mark,
    }
}

/// The cell of a drift.
fn drift_of(point: Point) -> Cell
    ensures cell { result ≡ drift_cell point }
{
    match point {
        Point::Known(_, drift) => Cell::Value(drift),
        Point::Marked(mark) => mark,
    }
}

/// The cells of the levels.
pub fn level_cells(alloc: Global, points: &[Point]) -> Result<Vec<Cell>, Memory>
    ensures cells { IfOk result (λ cells. cells.items ≡ map level_cell points.now) }
{
    Ok(points.iter().map(|point| level_of(*point)).collect(alloc)?)
}

/// The cells of the drifts.
pub fn drift_cells(alloc: Global, points: &[Point]) -> Result<Vec<Cell>, Memory>
    ensures cells { IfOk result (λ cells. cells.items ≡ map drift_cell points.now) }
{
    Ok(points.iter().map(|point| drift_of(*point)).collect(alloc)?)
}

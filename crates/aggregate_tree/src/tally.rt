ghost use Rattle.std.specs.Prelude.{◌≡◌, ◌<◌, ◌≤◌, ◌^◌, ◌+◌, ◌↔◌, ℕ, IsTrue, IfOk, unsigned_abs};
ghost use Rattle.std.specs.Prelude.{length, map, slice_get};
ghost use Rattle.std.specs.List.{take_while};
ghost use Rattle.aggregate_tree.specs.Tallies.{no_tally, tally_at, cell_of, is_reached, cells_of};
ghost use Rattle.aggregate_tree.specs.Tallies.{with_cell, with_cells, AreCounts};

use price_base::Cell;
use qna_base::Memory;
use std::alloc::Global;

/// What the cells of one quarter come to: the sum of the values, how many children have the quarter, and how many of
/// the cells are of each mark. A child that ends before the quarter counts as missing.
#[derive(Clone, Copy, Debug)]
pub struct Tally {
    pub sum: i128,
    pub present: u16,
    pub missing: u16,
    pub no_base: u16,
    pub range: u16,
}

impl Tally {
    /// The tally of no children.
    pub const NONE: Tally = Tally {
        sum: 0,
        present: 0,
        missing: 0,
        no_base: 0,
        range: 0,
    };

    /// The cell of the quarter: the first mark that was counted, else the sum.
    pub fn cell(self) -> Cell
        ensures cell { result ≡ cell_of self }
    {
        if self.missing > 0 {
            Cell::Missing
        } else if self.no_base > 0 {
            Cell::NoBase
        } else if self.range > 0 {
            Cell::Range
        } else {
            Cell::Value(self.sum)
        }
    }

    /// With the cell of one more child, or with none where that child has ended.
    pub fn with(self, cell: Option<Cell>) -> Tally
        requires counts { AreCounts 511 self }
        requires size { unsigned_abs self.sum ≤ 10 ^ 27 }
        requires sum { unsigned_abs (with_cell cell self).sum ≤ 10 ^ 27 }
        ensures with { result ≡ with_cell cell self }
    {
        let present = 1 + self.present;
        match cell {
            None => Tally {
                missing: 1 + self.missing,
                ..self
            },
            Some(Cell::Missing) => Tally {
                present,
                missing: 1 + self.missing,
                ..self
            },
            Some(Cell::Value(value)) => Tally {
                sum: value + self.sum,
                present,
                ..self
            },
            Some(Cell::NoBase) => Tally {
                present,
                no_base: 1 + self.no_base,
                ..self
            },
            Some(Cell::NoLink) => Tally { present, ..self },
            Some(Cell::Range) => Tally {
                present,
                range: 1 + self.range,
                ..self
            },
        }
    }
}

/// The cell of a quarter, where there is one.
fn quarter(cells: &[Cell], t: usize) -> Option<Cell>
    ensures cell { result ≡ slice_get cells.now t }
{
    cells.get(t).copied()
}

/// Puts the cells of one more child into the tallies.
pub fn add_cells(tallies: &mut [Tally], cells: &[Cell])
    requires counts { (t : ℕ) → AreCounts 511 (tally_at tallies.old t) }
    requires sizes { (t : ℕ) → unsigned_abs (tally_at tallies.old t).sum ≤ 10 ^ 27 }
    requires sums { (t : ℕ) → t < length tallies.old →
        unsigned_abs (with_cell (slice_get cells.now t) (tally_at tallies.old t)).sum ≤ 10 ^ 27 }
    ensures with { tallies.new ≡ with_cells cells.now tallies.old }
{
    for t in 0..tallies.len() {
        tallies[t] = tallies[t].with(quarter(cells, t));
    }
}

/// The tallies of the quarters before the first that no child has.
#[tactic(auto, using(std::proofs::lemmas::List::Sums::prefix_len_is))]
pub fn reached(tallies: &[Tally]) -> &[Tally]
    ensures reached { result.now ≡ take_while is_reached tallies.now }
{
    for quarters in 0..tallies.len() {
        if tallies[quarters].present == 0 {
            return &tallies[..quarters];
        }
    }
    tallies
}

/// The cells of the quarters before the first that no child has.
pub fn cells(alloc: Global, tallies: &[Tally]) -> Result<Vec<Cell>, Memory>
    ensures cells { IfOk result (λ cells. cells.items ≡ cells_of tallies.now) }
{
    Ok(
        reached(tallies)
            .iter()
            .map(|tally| tally.cell())
            .collect(alloc)?,
    )
}

/// Whether two cells are the same.
fn is_same_cell(one: Cell, other: Cell) -> bool
    ensures same { IsTrue result ↔ (one ≡ other) }
{
    one == other
}

/// Whether two lists of tallies have the same cells.
pub fn have_same_cells(one: &[Tally], other: &[Tally]) -> bool
    ensures same { IsTrue result ↔ (cells_of one.now ≡ cells_of other.now) }
{
    let one = reached(one);
    let other = reached(other);
    if one.len() != other.len() {
        return false;
    }
    for quarter in 0..one.len() {
        if !is_same_cell(one[quarter].cell(), other[quarter].cell()) {
            return false;
        }
    }
    true
}

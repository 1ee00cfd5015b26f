//! The text of a release.

ghost use Rattle.std.specs.Prelude.{◌≡◌, ◌<◌, ◌≤◌, length, Some};
ghost use Rattle.node_compile.specs.Release.{tables_in};
ghost use Rattle.node_compile.specs.Table.{certificate_in, node_tables, table_in};
ghost use Rattle.release_print.specs.Line.{edge_line};
ghost use Rattle.release_print.specs.Part.{Appends};
ghost use Rattle.release_print.specs.Release.{cell_text as cell_text_of, cell_line, cell_lines};
ghost use Rattle.release_print.specs.Release.{quarter_lines, year_line, year_lines, gap_line, item_lines};
ghost use Rattle.release_print.specs.Release.{items_lines, release_text, node_text};

use crate::line::{push_line, quarter_text, year_text};
use itoa::Buffer;
use node_compile::{LeafPart, NodeTable, Release};
use price_base::Cell;
use qna_base::Memory;
use series_tables::Plan;
use std::sync::Arc;

/// The text of a cell: its number, or the word of its mark.
pub fn cell_text<'a>(cell: &Cell, buffer: &'a mut Buffer) -> &'a [u8]
    ensures { result.now ≡ cell_text_of cell.now }
{
    match cell {
        Cell::Missing => b"missing",
        Cell::Value(number) => buffer.format(*number).as_bytes(),
        Cell::NoBase => b"nobase",
        Cell::NoLink => b"nolink",
        Cell::Range => b"range",
    }
}

/// Appends the line of one cell, of a quarter counted from the start year's first on.
fn push_cell(
    out: &mut Vec<u8>,
    word: &[u8],
    start: u16,
    name: &[u8],
    quarter: usize,
    cell: &Cell,
) -> Result<(), Memory>
    requires last { start ≤ 2200 }
    requires within { quarter < 512 }
    ensures { Appends result out.old.items out.new.items
        (cell_line word.now start name.now quarter cell.now) }
{
    let mut buffer = Buffer::new();
    let place = quarter_text(start, quarter);
    push_line(out, word, &[name, &place, cell_text(cell, &mut buffer)])
}

/// Appends the lines of an item's cells of one kind, from the start year's first quarter on.
fn push_cells(
    out: &mut Vec<u8>,
    word: &[u8],
    start: u16,
    name: &[u8],
    cells: &[Cell],
) -> Result<(), Memory>
    requires last { start ≤ 2200 }
    requires few { length cells.now ≤ 512 }
    ensures { Appends result out.old.items out.new.items
        (cell_lines word.now start name.now 0 cells.now) }
{
    for (quarter, cell) in cells.iter().enumerate() {
        push_cell(out, word, start, name, quarter, cell)?;
    }
    Ok(())
}

/// Appends the lines of an item's quarters: its values, then its volumes at previous-year prices, then its chained
/// volumes.
fn push_quarters(
    out: &mut Vec<u8>,
    start: u16,
    name: &[u8],
    values: &[Cell],
    volumes: &[Cell],
    chained: &[Cell],
) -> Result<(), Memory>
    requires last { start ≤ 2200 }
    requires few_values { length values.now ≤ 512 }
    requires few_volumes { length volumes.now ≤ 512 }
    requires few_chained { length chained.now ≤ 512 }
    ensures { Appends result out.old.items out.new.items
        (quarter_lines start name.now values.now volumes.now chained.now) }
{
    push_cells(out, b"v", start, name, values)?;
    push_cells(out, b"k", start, name, volumes)?;
    push_cells(out, b"c", start, name, chained)
}

/// Appends the line of a year: its value, its volume at previous-year prices, its chained volume and the drift of that.
fn push_year(
    out: &mut Vec<u8>,
    name: &[u8],
    year: u16,
    value: &Cell,
    volume: &Cell,
    level: &Cell,
    drift: &Cell,
) -> Result<(), Memory>
    requires { year < 10000 }
    ensures { Appends result out.old.items out.new.items
        (year_line year name.now value.now volume.now level.now drift.now) }
{
    let mut values = Buffer::new();
    let mut volumes = Buffer::new();
    let mut levels = Buffer::new();
    let mut drifts = Buffer::new();
    let place = year_text(year);
    push_line(
        out,
        b"a",
        &[
            name,
            &place,
            cell_text(value, &mut values),
            cell_text(volume, &mut volumes),
            cell_text(level, &mut levels),
            cell_text(drift, &mut drifts),
        ],
    )
}

/// Appends the lines of an item's years, from the start year on. There is a volume, a level and a drift for each value.
fn push_years(
    out: &mut Vec<u8>,
    start: u16,
    name: &[u8],
    values: &[Cell],
    volumes: &[Cell],
    levels: &[Cell],
    drifts: &[Cell],
) -> Result<(), Memory>
    requires last { start ≤ 2200 }
    requires few { length values.now ≤ 128 }
    requires volumes { length volumes.now ≡ length values.now }
    requires levels { length levels.now ≡ length values.now }
    requires drifts { length drifts.now ≡ length values.now }
    ensures { Appends result out.old.items out.new.items
        (year_lines start name.now values.now volumes.now levels.now drifts.now) }
{
    for (place, value) in values.iter().enumerate() {
        push_year(
            out,
            name,
            start + place as u16,
            value,
            &volumes[place],
            &levels[place],
            &drifts[place],
        )?;
    }
    Ok(())
}

/// Appends the line of a leaf with benchmarked years: how many they are, their scale and the gap.
fn push_gap(out: &mut Vec<u8>, name: &[u8], part: &LeafPart) -> Result<(), Memory>
    ensures { Appends result out.old.items out.new.items
        (gap_line name.now (Some (certificate_in part.now))) }
{
    let mut years = Buffer::new();
    let mut scale = Buffer::new();
    let mut gap = Buffer::new();
    push_line(
        out,
        b"g",
        &[
            name,
            years.format(part.bench.len()).as_bytes(),
            scale.format(part.cert.scale).as_bytes(),
            gap.format(part.cert.gap).as_bytes(),
        ],
    )
}

/// Appends the line that begins or ends a release: its word and the front.
fn push_edge(out: &mut Vec<u8>, word: &[u8], front: u64) -> Result<(), Memory>
    ensures { Appends result out.old.items out.new.items (edge_line word.now front) }
{
    let mut buffer = Buffer::new();
    push_line(out, word, &[buffer.format(front).as_bytes()])
}

/// Appends the lines of an item: those of its quarters, those of its years, and its gap where it is a leaf with
/// benchmarked years.
fn push_item(out: &mut Vec<u8>, start: u16, name: &[u8], table: &NodeTable) -> Result<(), Memory>
    requires { start ≤ 2200 }
    ensures { Appends result out.old.items out.new.items
        (item_lines start name.now (table_in table.now)) }
{
    push_quarters(
        out,
        start,
        name,
        table.flows.value.as_slice(),
        table.flows.prev.as_slice(),
        table.chain.quarter.as_slice(),
    )?;
    push_years(
        out,
        start,
        name,
        table.chain.value.as_slice(),
        table.chain.prev.as_slice(),
        table.chain.level.as_slice(),
        table.chain.drift.as_slice(),
    )?;
    match &table.leaf {
        Some(part) => push_gap(out, name, part),
        None => Ok(()),
    }
}

/// Appends the lines of the plan's items, each with its table.
fn push_items(out: &mut Vec<u8>, plan: &Plan, nodes: &[Arc<NodeTable>]) -> Result<(), Memory>
    requires { length nodes.now ≡ length plan.now.names }
    ensures { Appends result out.old.items out.new.items
        (items_lines plan.now.start plan.now.names (node_tables nodes.now)) }
{
    for item in 0..plan.len() {
        push_item(out, plan.start(), plan.name(item), &nodes[item as usize])?;
    }
    Ok(())
}

/// Appends the text of a release: `release` and the front, the lines of the plan's items in the plan's order, and `end`
/// and the front.
///
/// An item has a line `v` for each quarter, with its value in whole currency units; then a line `k` for each quarter,
/// with its volume at previous-year prices in the same unit; then a line `c` for each quarter, with its chained volume
/// in ten-thousandths of a currency unit. Behind them stands a line `a` for each year that has one of these quarters:
/// the year's value and its volume at previous-year prices, in whole currency units, its level, which is its chained
/// volume, and the level's drift, both in ten-thousandths of a currency unit. The drift says how far the level is at
/// most from the exact chained volume. Each of these figures is a number or the word of a mark. A leaf with benchmarked
/// years has last a line `g`: how many these years are, the scale, and the gap in units of 1 over the square of
/// 10^scale.
///
/// There is one table for each item. After `Memory` a part of the text stands behind what `out` held.
pub fn print_release(plan: &Plan, release: &Release, out: &mut Vec<u8>) -> Result<(), Memory>
    requires { length (tables_in release.now) ≡ length plan.now.names }
    ensures { Appends result out.old.items out.new.items
        (release_text plan.now release.now.front (tables_in release.now)) }
{
    push_edge(out, b"release", release.front)?;
    push_items(out, plan, release.nodes.as_slice())?;
    push_edge(out, b"end", release.front)
}

/// Appends the block of one item at a front, from the item's table: `release` and the front, the lines `v`, `k`, `c`,
/// `a` and `g` that the item has in a release, in the same units, and `end` and the front. After `Memory` a part of the
/// text stands behind what `out` held.
pub fn print_node(
    plan: &Plan,
    front: u64,
    node: u16,
    table: &NodeTable,
    out: &mut Vec<u8>,
) -> Result<(), Memory>
    requires item { node < length plan.now.names }
    ensures { Appends result out.old.items out.new.items
        (node_text plan.now front node (table_in table.now)) }
{
    push_edge(out, b"release", front)?;
    push_item(out, plan.start(), plan.name(node), table)?;
    push_edge(out, b"end", front)
}

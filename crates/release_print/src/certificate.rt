//! The text of a leaf's certificate.

ghost use Rattle.std.specs.Prelude.{◌≡◌, ◌<◌, ◌≤◌, pos, map, length, IsTrue, Some};
ghost use Rattle.cert_read.specs.Statement.{certificate_line, scale_line, start_line, indicator_line, benchmark_line};
ghost use Rattle.cert_read.specs.Statement.{value_line, multiplier_line, gap_line};
ghost use Rattle.cert_read.specs.Content.{quarter_from, quarterly, yearly};
ghost use Rattle.node_compile.specs.Laws.{number_in as number_in_cell, numbers_in};
ghost use Rattle.node_compile.specs.Table.{certificate_in, table_in};
ghost use Rattle.series_tables.specs.Plan.{is_leaf};
ghost use Rattle.release_print.specs.Part.{Appends};
ghost use Rattle.release_print.specs.Certificate.{statement_text, statements_text, head_text, numbers_text, end_text};
ghost use Rattle.release_print.specs.Certificate.{certificate_text, certificate_or_none, IsPartOf};

use crate::line::{push_line, quarter_text, year_text};
use itoa::Buffer;
use node_compile::{LeafPart, NodeTable};
use price_base::Cell;
use qna_base::Memory;
use series_tables::Plan;

/// Appends the line of the leaf's name and the front.
fn push_named(out: &mut Vec<u8>, name: &[u8], front: u64) -> Result<(), Memory>
    ensures { Appends result out.old.items out.new.items
        (statement_text (certificate_line name.now (pos front))) }
{
    let mut buffer = Buffer::new();
    push_line(out, b"cert", &[name, buffer.format(front).as_bytes()])
}

/// Appends the line of the scale.
fn push_scale(out: &mut Vec<u8>, scale: u8) -> Result<(), Memory>
    ensures { Appends result out.old.items out.new.items (statement_text (scale_line (pos scale))) }
{
    let mut buffer = Buffer::new();
    push_line(out, b"scale", &[buffer.format(scale).as_bytes()])
}

/// Appends the line of the start year.
fn push_start(out: &mut Vec<u8>, start: u16) -> Result<(), Memory>
    requires { start ≤ 2200 }
    ensures { Appends result out.old.items out.new.items (statement_text (start_line start)) }
{
    push_line(out, b"start", &[&year_text(start)])
}

/// Appends the three lines at the head: the leaf's name and the front, the scale, and the start year.
fn push_head(
    out: &mut Vec<u8>,
    name: &[u8],
    front: u64,
    scale: u8,
    start: u16,
) -> Result<(), Memory>
    requires last { start ≤ 2200 }
    ensures { Appends result out.old.items out.new.items (head_text name.now front scale start) }
{
    push_named(out, name, front)?;
    push_scale(out, scale)?;
    push_start(out, start)
}

/// Appends the line of a quarter's indicator.
fn push_indicator(
    out: &mut Vec<u8>,
    start: u16,
    quarter: usize,
    indicator: &u32,
) -> Result<(), Memory>
    requires last { start ≤ 2200 }
    requires within { quarter < 512 }
    ensures { Appends result out.old.items out.new.items
        (statement_text (indicator_line (quarter_from start quarter) (pos indicator.now))) }
{
    let mut buffer = Buffer::new();
    let place = quarter_text(start, quarter);
    push_line(out, b"i", &[&place, buffer.format(*indicator).as_bytes()])
}

/// Appends the lines of the indicators, from the start year's first quarter on.
fn push_indicators(out: &mut Vec<u8>, start: u16, indicators: &[u32]) -> Result<(), Memory>
    requires last { start ≤ 2200 }
    requires few { length indicators.now ≤ 512 }
    ensures { Appends result out.old.items out.new.items
        (statements_text (quarterly indicator_line start 0 (map pos indicators.now))) }
{
    for (quarter, indicator) in indicators.iter().enumerate() {
        push_indicator(out, start, quarter, indicator)?;
    }
    Ok(())
}

/// Appends the line of a year's benchmark.
fn push_benchmark(out: &mut Vec<u8>, year: u16, benchmark: &i64) -> Result<(), Memory>
    requires { year < 10000 }
    ensures { Appends result out.old.items out.new.items
        (statement_text (benchmark_line year benchmark.now)) }
{
    let mut buffer = Buffer::new();
    let place = year_text(year);
    push_line(out, b"b", &[&place, buffer.format(*benchmark).as_bytes()])
}

/// Appends the lines of the benchmarks of these years, which are counted from the start year.
fn push_benchmarks(
    out: &mut Vec<u8>,
    start: u16,
    years: &[u8],
    benchmarks: &[i64],
) -> Result<(), Memory>
    requires last { start ≤ 2200 }
    requires placed { length years.now ≡ length benchmarks.now }
    ensures { Appends result out.old.items out.new.items
        (statements_text (yearly benchmark_line start years.now benchmarks.now)) }
{
    for (y, benchmark) in benchmarks.iter().enumerate() {
        push_benchmark(out, start + u16::from(years[y]), benchmark)?;
    }
    Ok(())
}

/// Appends the line of a quarter's value.
fn push_value(out: &mut Vec<u8>, start: u16, quarter: usize, cell: &Cell) -> Result<(), Memory>
    requires last { start ≤ 2200 }
    requires within { quarter < 512 }
    ensures { Appends result out.old.items out.new.items
        (statement_text (value_line (quarter_from start quarter) (number_in_cell cell.now))) }
{
    let mut buffer = Buffer::new();
    let place = quarter_text(start, quarter);
    push_line(
        out,
        b"x",
        &[&place, buffer.format(number_in(cell)).as_bytes()],
    )
}

/// Appends the lines of the values, from the start year's first quarter on.
fn push_values(out: &mut Vec<u8>, start: u16, cells: &[Cell]) -> Result<(), Memory>
    requires last { start ≤ 2200 }
    requires few { length cells.now ≤ 512 }
    ensures { Appends result out.old.items out.new.items
        (statements_text (quarterly value_line start 0 (numbers_in cells.now))) }
{
    for (quarter, cell) in cells.iter().enumerate() {
        push_value(out, start, quarter, cell)?;
    }
    Ok(())
}

/// The number in a cell, and 0 for a mark, of which a leaf with a certificate has none.
fn number_in(cell: &Cell) -> i128
    ensures { result ≡ number_in_cell cell.now }
{
    match cell {
        Cell::Value(number) => *number,
        _ => 0,
    }
}

/// Appends the line of the multiplier between a benchmarked year and the next.
fn push_multiplier(out: &mut Vec<u8>, year: u16, multiplier: &i128) -> Result<(), Memory>
    requires { year < 10000 }
    ensures { Appends result out.old.items out.new.items
        (statement_text (multiplier_line year multiplier.now)) }
{
    let mut buffer = Buffer::new();
    let place = year_text(year);
    push_line(out, b"u", &[&place, buffer.format(*multiplier).as_bytes()])
}

/// Appends the lines of the multipliers, each by the benchmarked year before it. The years are counted from the start
/// year.
fn push_multipliers(
    out: &mut Vec<u8>,
    start: u16,
    years: &[u8],
    multipliers: &[i128],
) -> Result<(), Memory>
    requires last { start ≤ 2200 }
    requires joints { length multipliers.now ≤ length years.now }
    ensures { Appends result out.old.items out.new.items
        (statements_text (yearly multiplier_line start years.now multipliers.now)) }
{
    for (y, multiplier) in multipliers.iter().enumerate() {
        push_multiplier(out, start + u16::from(years[y]), multiplier)?;
    }
    Ok(())
}

/// Appends the line of the gap.
fn push_gap(out: &mut Vec<u8>, gap: &i128) -> Result<(), Memory>
    ensures { Appends result out.old.items out.new.items (statement_text (gap_line gap.now)) }
{
    let mut buffer = Buffer::new();
    push_line(out, b"gap", &[buffer.format(*gap).as_bytes()])
}

/// Appends the two lines at the end: the gap, and `end`.
fn push_end(out: &mut Vec<u8>, gap: &i128) -> Result<(), Memory>
    ensures { Appends result out.old.items out.new.items (end_text gap.now) }
{
    push_gap(out, gap)?;
    push_line(out, b"end", &[])
}

/// Appends the lines between the head and the end: the leaf's numbers.
fn push_numbers(
    out: &mut Vec<u8>,
    start: u16,
    part: &LeafPart,
    cells: &[Cell],
) -> Result<(), Memory>
    requires last { start ≤ 2200 }
    requires few { length cells.now ≤ 512 }
    requires benchmarked { IsPartOf part.now cells.now }
    ensures { Appends result out.old.items out.new.items
        (numbers_text start (certificate_in part.now) cells.now) }
{
    push_indicators(out, start, &part.ind)?;
    push_benchmarks(out, start, &part.years, &part.bench)?;
    push_values(out, start, cells)?;
    push_multipliers(out, start, &part.years, &part.cert.u)
}

/// Appends the certificate of a leaf with benchmarked years.
fn push_certificate(
    out: &mut Vec<u8>,
    start: u16,
    name: &[u8],
    front: u64,
    part: &LeafPart,
    cells: &[Cell],
) -> Result<(), Memory>
    requires last { start ≤ 2200 }
    requires few { length cells.now ≤ 512 }
    requires benchmarked { IsPartOf part.now cells.now }
    ensures { Appends result out.old.items out.new.items
        (certificate_or_none start name.now front (Some (certificate_in part.now)) cells.now) }
{
    push_head(out, name, front, part.cert.scale, start)?;
    push_numbers(out, start, part, cells)?;
    push_end(out, &part.cert.gap)
}

/// Appends the certificate of a leaf at a front, from the leaf's table: its name and the front, the scale and the start
/// year, then, line by line, its indicators, its benchmarks, its values in whole currency units and its multipliers in
/// units of 1 over 10^scale, and the gap. A leaf without a benchmarked year has the one line `nocert` with its name and
/// the front. After `Memory` a part of the text stands behind what `out` held.
#[tactic(auto, unfolding(crate::specs::Certificate::certificate_text))]
pub fn print_cert(
    plan: &Plan,
    front: u64,
    node: u16,
    table: &NodeTable,
    out: &mut Vec<u8>,
) -> Result<(), Memory>
    requires item { node < length plan.now.names }
    requires leaf { IsTrue (is_leaf plan.now node) }
    ensures { Appends result out.old.items out.new.items
        (certificate_text plan.now front node (table_in table.now)) }
{
    let name = plan.name(node);
    match &table.leaf {
        Some(part) => push_certificate(
            out,
            plan.start(),
            name,
            front,
            part,
            table.flows.value.as_slice(),
        ),
        None => {
            let mut buffer = Buffer::new();
            push_line(out, b"nocert", &[name, buffer.format(front).as_bytes()])
        }
    }
}

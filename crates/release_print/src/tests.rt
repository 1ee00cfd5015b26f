ghost use Rattle.std.specs.Prelude.{◌≡◌, ◌≤◌, ◌<◌, length, IfOk};
ghost use Rattle.node_compile.specs.Release.{tables_in};

use super::*;
use node_compile::{Release, compile_all};
use qna_base::{Memory, Steps};
use series_tables::{Input, Kind, Plan, Tables};
use std::alloc::Global;
use std::marker::Brand;
use std::sync::ledger::{Blank, Ledger};
use std::test::Fail;

// What was sent for an item: the indicators, and the benchmarks by year.
type Row = (&'static [i64], &'static [(usize, i64)]);

// The plan of the rows, item by item.
const PLAN: &[u8] = b"start,2021\nitem,FOOD,\nitem,NONE,\n";

// Two benchmarked years and one between them that misses its benchmark; no benchmark. None has a price.
const ROWS: [Row; 2] = [(&[100; 12], &[(0, 1000), (2, 1400)]), (&[100, 100], &[])];

// The lines of the first item, and those of the second.
const FOOD: [&[u8]; 40] = [
    b"v,FOOD,2021Q1,241\n",
    b"v,FOOD,2021Q2,244\n",
    b"v,FOOD,2021Q3,252\n",
    b"v,FOOD,2021Q4,263\n",
    b"v,FOOD,2022Q1,278\n",
    b"v,FOOD,2022Q2,293\n",
    b"v,FOOD,2022Q3,307\n",
    b"v,FOOD,2022Q4,322\n",
    b"v,FOOD,2023Q1,337\n",
    b"v,FOOD,2023Q2,348\n",
    b"v,FOOD,2023Q3,356\n",
    b"v,FOOD,2023Q4,359\n",
    b"k,FOOD,2021Q1,missing\n",
    b"k,FOOD,2021Q2,missing\n",
    b"k,FOOD,2021Q3,missing\n",
    b"k,FOOD,2021Q4,missing\n",
    b"k,FOOD,2022Q1,missing\n",
    b"k,FOOD,2022Q2,missing\n",
    b"k,FOOD,2022Q3,missing\n",
    b"k,FOOD,2022Q4,missing\n",
    b"k,FOOD,2023Q1,missing\n",
    b"k,FOOD,2023Q2,missing\n",
    b"k,FOOD,2023Q3,missing\n",
    b"k,FOOD,2023Q4,missing\n",
    b"c,FOOD,2021Q1,missing\n",
    b"c,FOOD,2021Q2,missing\n",
    b"c,FOOD,2021Q3,missing\n",
    b"c,FOOD,2021Q4,missing\n",
    b"c,FOOD,2022Q1,missing\n",
    b"c,FOOD,2022Q2,missing\n",
    b"c,FOOD,2022Q3,missing\n",
    b"c,FOOD,2022Q4,missing\n",
    b"c,FOOD,2023Q1,missing\n",
    b"c,FOOD,2023Q2,missing\n",
    b"c,FOOD,2023Q3,missing\n",
    b"c,FOOD,2023Q4,missing\n",
    b"a,FOOD,2021,1000,missing,10000000,0\n",
    b"a,FOOD,2022,1200,missing,missing,missing\n",
    b"a,FOOD,2023,1400,missing,missing,missing\n",
    b"g,FOOD,2,12,251851851851851851852\n",
];

const NONE: [&[u8]; 7] = [
    b"v,NONE,2021Q1,missing\n",
    b"v,NONE,2021Q2,missing\n",
    b"k,NONE,2021Q1,missing\n",
    b"k,NONE,2021Q2,missing\n",
    b"c,NONE,2021Q1,missing\n",
    b"c,NONE,2021Q2,missing\n",
    b"a,NONE,2021,missing,missing,missing,missing\n",
];

// The certificate of the first item.
const CERTIFICATE: [&[u8]; 32] = [
    b"cert,FOOD,10\n",
    b"scale,12\n",
    b"start,2021\n",
    b"i,2021Q1,100\n",
    b"i,2021Q2,100\n",
    b"i,2021Q3,100\n",
    b"i,2021Q4,100\n",
    b"i,2022Q1,100\n",
    b"i,2022Q2,100\n",
    b"i,2022Q3,100\n",
    b"i,2022Q4,100\n",
    b"i,2023Q1,100\n",
    b"i,2023Q2,100\n",
    b"i,2023Q3,100\n",
    b"i,2023Q4,100\n",
    b"b,2021,1000\n",
    b"b,2023,1400\n",
    b"x,2021Q1,241\n",
    b"x,2021Q2,244\n",
    b"x,2021Q3,252\n",
    b"x,2021Q4,263\n",
    b"x,2022Q1,278\n",
    b"x,2022Q2,293\n",
    b"x,2022Q3,307\n",
    b"x,2022Q4,322\n",
    b"x,2023Q1,337\n",
    b"x,2023Q2,348\n",
    b"x,2023Q3,356\n",
    b"x,2023Q4,359\n",
    b"u,2021,148148148148\n",
    b"gap,251851851851851851852\n",
    b"end\n",
];

// Puts a value of an item into its cell, where there is room for it.
fn set(tables: &mut Tables, plan: &Plan, item: usize, kind: Kind, period: usize, value: i64)
    requires { tables.old.items ≡ length plan.now.names }
    ensures { tables.new.items ≡ tables.old.items }
{
    let fits = match kind {
        Kind::Benchmark => period < 64 && -1000000000000 <= value && value <= 1000000000000,
        _ => period < 256 && 1 <= value && value <= 1000000000,
    };
    if fits && item < plan.len() as usize {
        tables.set(&Input {
            kind,
            leaf: item as u16,
            period: period as u16,
            value,
        });
    }
}

// Puts the values of a row into an item's cells.
fn set_row(tables: &mut Tables, plan: &Plan, item: usize, row: Row)
    requires { tables.old.items ≡ length plan.now.names }
    ensures { tables.new.items ≡ tables.old.items }
{
    for (period, value) in row.0.iter().enumerate() {
        set(tables, plan, item, Kind::Indicator, period, *value);
    }
    for (period, value) in row.1.iter() {
        set(tables, plan, item, Kind::Benchmark, *period, *value);
    }
}

// The tables of the plan after all rows.
fn tables_of(alloc: Global, plan: &Plan, rows: &[Row]) -> Result<Tables, Memory>
    ensures { IfOk result (λ tables. tables.items ≡ length plan.now.names) }
{
    let mut tables = Tables::new(alloc, plan)?;
    for (item, row) in rows.iter().enumerate() {
        set_row(&mut tables, plan, item, *row);
    }
    Ok(tables)
}

// The release of the rows at a front.
fn compiled<L: Ledger>(
    blank: Blank,
    alloc: Global,
    plan: &Plan,
    rows: &[Row],
    front: u64,
) -> Result<Release, Memory>
    requires name { blank.name ≡ L.name }
    requires parts { blank.parts ≡ L.parts }
    requires some { 0 < blank.parts }
    ensures { IfOk result (λ release. length (tables_in release) ≡ length plan.now.names) }
{
    let mut steps = Steps::<L>::open(blank);
    let tables = tables_of(alloc, plan, rows)?;
    compile_all(alloc, plan, &tables, front, &mut steps)
}

// The text of lines.
fn text_of(alloc: Global, lines: &[&[u8]]) -> Result<Vec<u8>, Fail> {
    let mut text = Vec::new(alloc);
    for line in lines {
        text.extend_from_slice(line)?;
    }
    Ok(text)
}

// The text of a release that has these lines.
fn between_edges(alloc: Global, lines: &[&[u8]]) -> Result<Vec<u8>, Fail> {
    let mut text = Vec::from_slice(alloc, b"release,10\n")?;
    text.extend_from_slice(&text_of(alloc, lines)?)?;
    text.extend_from_slice(b"end,10\n")?;
    Ok(text)
}

#[test]
fn releases_items_and_certificates_are_printed(rt: HostRuntime) -> Result<(), Fail> {
    let alloc = rt.alloc();
    let plan = Plan::read(alloc, PLAN)?;
    let release = compiled::<Brand>(Blank::new(1), alloc, &plan, &ROWS, 10)?;
    assert_eq!(rt; (plan.len(), release.nodes.len()), (2, 2));
    let mut text = Vec::new(alloc);
    print_release(&plan, &release, &mut text)?;
    let mut lines = Vec::from_slice(alloc, &FOOD)?;
    lines.extend_from_slice(&NONE)?;
    assert_eq!(rt; text, between_edges(alloc, &lines)?);
    text.clear();
    print_node(&plan, 10, 1, &release.nodes[1], &mut text)?;
    assert_eq!(rt; text, between_edges(alloc, &NONE)?);
    text.clear();
    if plan.is_leaf(0) {
        print_cert(&plan, 10, 0, &release.nodes[0], &mut text)?;
    }
    assert_eq!(rt; text, text_of(alloc, &CERTIFICATE)?);
    text.clear();
    if plan.is_leaf(1) {
        print_cert(&plan, 10, 1, &release.nodes[1], &mut text)?;
    }
    assert_eq!(rt; text.as_slice(), b"nocert,NONE,10\n".as_slice());
    Ok(())
}

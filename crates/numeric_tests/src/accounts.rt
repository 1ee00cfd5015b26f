// One compilation by example; the rows of all cases are run from bytes by the program's own tests.
ghost use Rattle.std.specs.Prelude.{◌≡◌, ◌≤◌, ◌<◌, length};

use node_compile::{NodeTable, Release, compile_all};
use price_base::Cell;
use qna_base::{Memory, Steps};
use series_tables::{Input, Kind, Plan, Tables};
use std::alloc::Global;
use std::marker::Brand;
use std::sync::ledger::{Blank, Ledger};
use std::test::Fail;

// Sends a leaf four quarters with an indicator, each at a price index of 1, and a benchmark of four times the
// indicator.
fn send(tables: &mut Tables, leaf: u16, indicator: u16)
    requires leaf { leaf < tables.old.items }
    requires positive { 1 ≤ indicator }
    ensures { tables.new.items ≡ tables.old.items }
{
    for period in 0..4_u16 {
        tables.set(&Input {
            kind: Kind::Indicator,
            leaf,
            period,
            value: i64::from(indicator),
        });
        tables.set(&Input {
            kind: Kind::Price,
            leaf,
            period,
            value: 1_000_000,
        });
    }
    tables.set(&Input {
        kind: Kind::Benchmark,
        leaf,
        period: 0,
        value: 4 * i64::from(indicator),
    });
}

// The release of a plan of three items, of which the second and the third were sent these indicators.
fn compiled<L: Ledger>(
    blank: Blank,
    alloc: Global,
    plan: &Plan,
    second: u16,
    third: u16,
) -> Result<Release, Memory>
    requires items { length plan.now.names ≡ 3 }
    requires second { 1 ≤ second }
    requires third { 1 ≤ third }
    requires name { blank.name ≡ L.name }
    requires parts { blank.parts ≡ L.parts }
    requires some { 0 < blank.parts }
{
    let mut tables = Tables::new(alloc, plan)?;
    send(&mut tables, 1, second);
    send(&mut tables, 2, third);
    let mut steps = Steps::<L>::open(blank);
    compile_all(alloc, plan, &tables, 18, &mut steps)
}

// Whether a table has this value, volume and chained volume in each of four quarters.
fn has_quarters(table: &NodeTable, value: i128, chained: i128) -> bool {
    let figures = [Cell::Value(value); 4];
    let volumes = [Cell::Value(chained); 4];
    table.flows.value.as_slice() == figures.as_slice()
        && table.flows.prev.as_slice() == figures.as_slice()
        && table.chain.quarter.as_slice() == volumes.as_slice()
}

#[test]
fn a_total_is_compiled_with_its_two_leaves(rt: HostRuntime) -> Result<(), Fail> {
    let alloc = rt.alloc();
    let plan = Plan::read(
        alloc,
        b"start,2021\nitem,TOTAL,\nitem,FOOD,TOTAL\nitem,SERV,TOTAL\n",
    )?;
    let items = plan.len();
    assert_eq!(rt; items, 3);
    let release = compiled::<Brand>(Blank::new(1), alloc, &plan, 100, 200)?;
    assert_eq!(rt; release.front, 18);
    let [total, food, services] = release.nodes.as_slice() else {
        return Err(Fail::new("a release of three items"));
    };
    assert!(rt; has_quarters(total, 300, 3_000_000));
    assert!(rt; has_quarters(food, 100, 1_000_000));
    assert!(rt; has_quarters(services, 200, 2_000_000));
    assert!(rt; total.leaf.is_none());
    assert_eq!(rt;
        total.chain.level.as_slice(),
        [Cell::Value(12_000_000)].as_slice()
    );
    let Some(part) = &food.leaf else {
        return Err(Fail::new("a leaf with its part"));
    };
    assert_eq!(rt;
        (part.cert.scale, part.cert.u.len(), part.cert.gap),
        (13, 0, 0)
    );
    Ok(())
}

use annual_overlap::{ChainTable, chain};
use period_keys::Year;
use price_base::{Cell, Cells, NodeFlows};
use qna_base::Memory;
use std::alloc::Global;
use std::test::Fail;

/// The chain of rent in its first year and one quarter more.
fn rent(alloc: Global) -> Result<ChainTable, Memory> {
    let par = Cell::Value(100);
    let value = Cells::from([par, par, par, par, Cell::Value(160)].to_vec(alloc)?);
    let prev = Cells::from([par, par, par, par, Cell::Value(125)].to_vec(alloc)?);
    let flows = NodeFlows::new(value, prev);
    chain(alloc, &flows, Year(0))
}

#[test]
fn a_complete_year_is_shared_out_and_a_further_quarter_linked(rt: HostRuntime) -> Result<(), Fail> {
    let table = rent(rt.alloc())?;
    assert_eq!(rt;
        table.value.as_slice(),
        [Cell::Value(400), Cell::Missing].as_slice()
    );
    assert_eq!(rt;
        table.prev.as_slice(),
        [Cell::Value(400), Cell::Missing].as_slice()
    );
    assert_eq!(rt;
        table.level.as_slice(),
        [Cell::Value(4_000_000), Cell::Missing].as_slice()
    );
    assert_eq!(rt;
        table.drift.as_slice(),
        [Cell::Value(0), Cell::Missing].as_slice()
    );
    let quarter = Cell::Value(1_000_000);
    assert_eq!(rt;
        table.quarter.as_slice(),
        [quarter, quarter, quarter, quarter, Cell::Value(1_250_000)].as_slice()
    );
    Ok(())
}

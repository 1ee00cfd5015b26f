use price_base::{Cell, Cells, NodeFlows, at_previous_prices, quantity};
use std::test::Fail;

#[test]
fn quantities_round_halves_up(rt: HostRuntime) {
    assert_eq!(rt; quantity(100, 1_000_000), 100);
    assert_eq!(rt; quantity(100, 1_000_000_000), 0);
    assert_eq!(rt; quantity(160, 1_280_000), 125);
    assert_eq!(rt; quantity(1, 2_000_000), 1);
    assert_eq!(rt; quantity(-1, 2_000_000), 0);
    assert_eq!(rt; quantity(-3, 1), -3_000_000);
}

#[test]
fn food_is_valued_at_the_prices_of_the_year_before(rt: HostRuntime) {
    let par = Some(1_000_000);
    let dear = Some(1_375_000);
    let mut cells = [Cell::Missing; 12];
    at_previous_prices(
        &[100, 100, 100, 100, 110, 110, 110, 110, 120, 120, 130, 130],
        &[
            par, par, par, par, dear, dear, dear, dear, par, par, par, par,
        ],
        &mut cells,
    );
    assert_eq!(rt; cells[3], Cell::Value(100));
    assert_eq!(rt; cells[4], Cell::Value(80));
    assert_eq!(rt; cells[9], Cell::Value(165));
    assert_eq!(rt; cells[11], Cell::Value(179));
}

#[test]
fn a_first_year_without_quantity_is_no_base(rt: HostRuntime) {
    let huge = Some(1_000_000_000);
    let par = Some(1_000_000);
    let mut cells = [Cell::Missing; 5];
    at_previous_prices(
        &[100, 100, 100, 100, 100],
        &[huge, huge, huge, huge, par],
        &mut cells,
    );
    assert_eq!(rt; cells[0], Cell::NoBase);
    assert_eq!(rt; cells[4], Cell::NoBase);
}

#[test]
fn an_incomplete_year_has_volumes(rt: HostRuntime) {
    let par = Some(1_000_000);
    let dear = Some(1_280_000);
    let mut cells = [Cell::Missing; 11];
    at_previous_prices(
        &[100, 100, 100, 100, 160, 160, 160, 160, 99, 99, 99],
        &[par, par, par, par, dear, dear, dear, dear, par, None, par],
        &mut cells,
    );
    assert_eq!(rt; cells[8], Cell::Value(127));
    assert_eq!(rt; cells[9], Cell::Missing);
    assert_eq!(rt; cells[10], Cell::Value(127));
}

#[test]
fn flows_keep_their_lists(rt: HostRuntime) -> Result<(), Fail> {
    let value = Cells::from([Cell::Value(3), Cell::Missing].to_vec(rt.alloc())?);
    let prev = Cells::from([Cell::NoBase, Cell::Range].to_vec(rt.alloc())?);
    let flows = NodeFlows::new(value, prev);
    assert_eq!(rt; flows.value.len(), 2);
    assert!(rt; !flows.prev.is_empty());
    assert_eq!(rt;
        flows.value.as_slice(),
        [Cell::Value(3), Cell::Missing].as_slice()
    );
    let NodeFlows { value: _, prev } = flows;
    assert_eq!(rt;
        prev.into_vec().as_slice(),
        [Cell::NoBase, Cell::Range].as_slice()
    );
    Ok(())
}

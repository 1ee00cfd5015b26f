//! The values of small trials, which another implementation of SplitMix64 gave.

use crate::{trial_inputs, trial_plan};
use series_tables::{Input, Kind};
use std::test::Fail;

/// An input of a leaf.
fn input(kind: Kind, leaf: u16, period: u16, value: i64) -> Input {
    Input {
        kind,
        leaf,
        period,
        value,
    }
}

#[test]
fn items_stand_under_one_another_by_four(rt: HostRuntime) -> Result<(), Fail> {
    let plan = trial_plan(rt.alloc(), 6, 3)?;
    assert_eq!(rt; plan.start(), 2000);
    assert_eq!(rt; plan.reference().0, 1);
    assert_eq!(rt; plan.len(), 6);
    for (name, node, parent) in [
        ("N000", 0, None),
        ("N001", 1, Some(0)),
        ("N004", 4, Some(0)),
        ("N005", 5, Some(1)),
    ] {
        assert_eq!(rt; plan.find(name.as_bytes()), Some(node), "at {name}");
        if node < plan.len() {
            assert_eq!(rt; plan.parent(node), parent, "at {name}");
        }
    }
    Ok(())
}

#[test]
fn inputs_are_drawn_leaf_by_leaf(rt: HostRuntime) -> Result<(), Fail> {
    let plan = trial_plan(rt.alloc(), 6, 2)?;
    let inputs = trial_inputs(rt.alloc(), &plan, 7, 2)?;
    assert_eq!(rt; inputs.len(), 72);
    for (place, wanted) in [
        (0, input(Kind::Indicator, 2, 0, 1487)),
        (1, input(Kind::Price, 2, 0, 935_025)),
        (8, input(Kind::Benchmark, 2, 0, 5436)),
        (9, input(Kind::Indicator, 2, 4, 1425)),
        (19, input(Kind::Price, 3, 0, 981_193)),
        (71, input(Kind::Benchmark, 5, 1, 4444)),
    ] {
        assert_eq!(rt; inputs.get(place).copied(), Some(wanted), "at {place}");
    }
    Ok(())
}

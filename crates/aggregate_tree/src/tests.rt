// Sums of children by examples.

ghost use Rattle.std.specs.Prelude.{◌≡◌, ◌≤◌, ◌<◌, length, IsTrue, IfOk};
ghost use Rattle.std.specs.List.{list_all};
ghost use Rattle.aggregate_tree.specs.Small.{is_small_cell};

use crate::FlowSum;
use price_base::{Cell, Cells, NodeFlows};
use qna_base::Memory;
use std::alloc::Global;
use std::process::Abort;
use std::test::Fail;

// The values and the volumes of a child, quarter by quarter.
#[derive(Clone, Copy)]
struct Child<'a> {
    values: &'a [Cell],
    volumes: &'a [Cell],
}

// Whether a cell is a mark of flows or a number at most 10^6 in size.
fn is_small(cell: Cell) -> bool
    ensures { result ≡ is_small_cell cell }
{
    match cell {
        Cell::Value(value) => value.unsigned_abs() <= 1_000_000,
        Cell::NoLink => false,
        Cell::Missing | Cell::NoBase | Cell::Range => true,
    }
}

// Whether all cells are.
fn are_small(cells: &[Cell]) -> bool
    ensures { result ≡ list_all is_small_cell cells.now }
{
    cells.iter().all(|cell| is_small(*cell))
}

// A child's flows, of at most twelve quarters and small cells.
#[tactic(auto, using(crate::proofs::Sizes::small_flows))]
fn flows_of(rt: &impl Abort, alloc: Global, child: Child) -> Result<NodeFlows, Memory>
    ensures few { IfOk result (λ flows. length flows.value ≤ 12) }
    ensures value { IfOk result (λ flows. IsTrue (list_all is_small_cell flows.value)) }
    ensures prev { IfOk result (λ flows. IsTrue (list_all is_small_cell flows.prev)) }
{
    let Child { values, volumes } = child;
    assert!(rt; values.len() <= 12 && values.len() == volumes.len());
    assert!(rt; are_small(values) && are_small(volumes));
    let value = Vec::from_slice(alloc, values)?;
    let prev = Vec::from_slice(alloc, volumes)?;
    Ok(NodeFlows::new(Cells::from(value), Cells::from(prev)))
}

// The sum of two children.
fn sum_of(rt: &impl Abort, alloc: Global, first: Child, second: Child) -> Result<FlowSum, Memory> {
    let first = flows_of(rt, alloc, first)?;
    let second = flows_of(rt, alloc, second)?;
    let mut sum = FlowSum::new(alloc, 12)?;
    sum.add(&first);
    sum.add(&second);
    Ok(sum)
}

// A number's cell.
fn of(number: i128) -> Cell {
    Cell::Value(number)
}

// The quarters of three years: the same in each of the first two years, and these.
fn years(first: Cell, second: Cell, third: [Cell; 4]) -> [Cell; 12] {
    let [a, b, c, d] = third;
    [
        first, first, first, first, second, second, second, second, a, b, c, d,
    ]
}

// The quarters of three years but the last.
fn without_last(cells: &[Cell; 12]) -> &[Cell] {
    &cells[..11]
}

// Two children and their sum: food and services; fish without a base in two years, and services; food without its last
// quarter, and services; and all marks.
#[test]
fn children_add_up_or_leave_their_first_mark(rt: HostRuntime) -> Result<(), Fail> {
    let alloc = rt.alloc();
    let (none, base, range) = (Cell::Missing, Cell::NoBase, Cell::Range);
    let food_values = years(of(100), of(110), [of(120), of(120), of(130), of(130)]);
    let food_volumes = years(of(100), of(80), [of(165), of(165), of(179), of(179)]);
    let food = Child {
        values: &food_values,
        volumes: &food_volumes,
    };
    let services = Child {
        values: &years(of(200), of(210), [of(250); 4]),
        volumes: &years(of(200), of(300), [of(175); 4]),
    };
    let total = Child {
        values: &years(of(300), of(320), [of(370), of(370), of(380), of(380)]),
        volumes: &years(of(300), of(380), [of(340), of(340), of(354), of(354)]),
    };
    let fish = Child {
        values: &years(of(100), of(100), [of(100); 4]),
        volumes: &years(base, base, [of(100); 4]),
    };
    let pair = Child {
        values: &years(of(300), of(310), [of(350); 4]),
        volumes: &years(base, base, [of(275); 4]),
    };
    let shorter = Child {
        values: without_last(&food_values),
        volumes: without_last(&food_volumes),
    };
    let without_last = Child {
        values: &years(of(300), of(320), [of(370), of(370), of(380), none]),
        volumes: &years(of(300), of(380), [of(340), of(340), of(354), none]),
    };
    let one = Child {
        values: &[none, none, base, range],
        volumes: &[base, range, range, of(1)],
    };
    let other = Child {
        values: &[base, range, range, of(1)],
        volumes: &[none, base, none, of(-1)],
    };
    let marks = Child {
        values: &[none, none, base, range],
        volumes: &[none, base, none, of(0)],
    };
    for (first, second, wanted) in [
        (food, services, total),
        (fish, services, pair),
        (shorter, services, without_last),
        (one, other, marks),
    ] {
        let sum = sum_of(&rt, alloc, first, second)?;
        let flows = sum.flows()?;
        assert_eq!(rt; flows.value.as_slice(), wanted.values);
        assert_eq!(rt; flows.prev.as_slice(), wanted.volumes);
        assert!(rt; sum.same(&sum_of(&rt, alloc, second, first)?));
        assert!(rt; sum.copy()?.same(&sum));
        assert!(rt; !sum.same(&FlowSum::new(alloc, 12)?));
    }
    Ok(())
}

#[test]
fn a_sum_of_no_children_has_no_quarters(rt: HostRuntime) -> Result<(), Fail> {
    let alloc = rt.alloc();
    let sum = FlowSum::new(alloc, 4)?;
    let longer = FlowSum::new(alloc, 8)?;
    assert!(rt; longer.same(&sum));
    let flows = sum.flows()?;
    assert_eq!(rt; (flows.value.len(), flows.prev.len()), (0, 0));
    Ok(())
}

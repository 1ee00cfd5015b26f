// Rounds over a plan of three levels.

ghost use Rattle.std.specs.Prelude.{◌≡◌, length, IfOk};
ghost use Rattle.dirty_plan.specs.Round.{has_flag};
ghost use Rattle.dirty_plan.specs.Touched.{NamesLeaves};

use dirty_plan::PlanRound;
use series_tables::Plan;
use std::alloc::Global;
use std::test::Fail;

/// A total with two parts, the first of two leaves and the second of one.
const TREE: &'static [u8] =
    b"start,2021\nitem,TOTAL,\nitem,GOODS,TOTAL\nitem,FOOD,GOODS\nitem,FUEL,GOODS\nitem,SERV,TOTAL\nitem,RENT,SERV\n";

/// Items, and the job that is handed out once an item's job is finished, where it is out. FOOD and FUEL are named.
const STEPS: [(u16, Option<u16>); 7] = [
    (0, Some(2)),
    (0, Some(3)),
    (0, None),
    (3, None),
    (2, Some(1)),
    (1, Some(0)),
    (0, None),
];

/// A flag for each leaf among the items of these numbers.
fn flags_of(alloc: Global, plan: &Plan, named: &[u16]) -> Result<Vec<bool>, Fail>
    ensures all { IfOk result (λ flags. length flags.items ≡ length plan.now.names) }
    ensures leaves { IfOk result (λ flags. NamesLeaves plan.now (has_flag flags.items)) }
{
    let mut flags = Vec::with_capacity(alloc, plan.len() as usize)?;
    for item in 0..plan.len() {
        let is_leaf = plan.is_leaf(item);
        flags.push(is_leaf && named.contains(&item))?;
    }
    Ok(flags)
}

/// A round in which the leaves among the items of these numbers are named.
fn round_of(alloc: Global, named: &[u16]) -> Result<PlanRound, Fail> {
    let plan = Plan::read(alloc, TREE)?;
    let flags = flags_of(alloc, &plan, named)?;
    Ok(PlanRound::new(alloc, &plan, &flags)?)
}

/// Hands out the least job that is ready.
fn take_next(round: &mut PlanRound) -> Option<u16> {
    let item = round.ready()?;
    round.take(item);
    Some(item)
}

/// Finishes a job, where it is out, and hands out the next.
fn finish_and_take(round: &mut PlanRound, node: u16) -> Option<u16> {
    if round.is_out(node) {
        round.finish(node);
    }
    take_next(round)
}

/// Puts a job back, where it is out, and hands out the next.
fn put_back_and_take(round: &mut PlanRound, node: u16) -> Option<u16> {
    if round.is_out(node) {
        round.put_back(node);
    }
    take_next(round)
}

#[test]
fn two_leaves_under_one_total_touch_it_once(rt: HostRuntime) -> Result<(), Fail> {
    let mut round = round_of(rt.alloc(), &[2, 3])?;
    for (node, next) in STEPS {
        assert_eq!(&rt; finish_and_take(&mut round, node), next);
    }
    assert_eq!(rt; (round.jobs(), round.first_left()), (4, None));
    Ok(())
}

#[test]
fn a_job_that_comes_back_is_handed_out_again(rt: HostRuntime) -> Result<(), Fail> {
    let mut round = round_of(rt.alloc(), &[5])?;
    for (node, next) in [(5, Some(5)), (5, Some(5)), (4, None)] {
        assert_eq!(&rt; put_back_and_take(&mut round, node), next);
    }
    assert!(rt; round.is_out(5) && !round.is_out(4) && !round.is_out(512));
    assert_eq!(rt; (round.jobs(), round.first_left()), (3, Some(0)));
    Ok(())
}

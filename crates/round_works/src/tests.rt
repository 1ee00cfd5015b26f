// Rounds over a plan of a total and its two leaves, driven by hand.

ghost use Rattle.std.specs.Prelude.{◌≡◌, ◌<◌, ◌≤◌, ◌+◌, ◌*◌, ◌^◌, length, IsTrue, IfOk};
ghost use Rattle.round_works.specs.Driven.{IsDriven, WasSent};
ghost use Rattle.series_tables.specs.Fits.{FitsPlan};
ghost use Rattle.series_tables.specs.Plan.{is_leaf};

use crate::{CompileEnd, Compiled, Job, OpenRound, compile};
use node_compile::{NodeTable, compile_all};
use price_base::Cell;
use qna_base::{Memory, Steps};
use series_tables::{Input, Kind, Plan, Tables};
use std::alloc::Global;
use std::marker::Brand;
use std::mem::swap;
use std::process::Abort;
use std::sync::Arc;
use std::sync::ledger::{Blank, Ledger};
use std::test::Fail;
use vintage_board::Board;

/// TOTAL is item 0, FOOD and SERV are items 1 and 2.
const PLAN: &'static [u8] = b"start,2021\nitem,TOTAL,\nitem,FOOD,TOTAL\nitem,SERV,TOTAL\n";

/// The plan.
fn plan_of(rt: &impl Abort, alloc: Global) -> Result<Plan, Fail>
    ensures items { IfOk result (λ plan. length plan.names ≡ 3) }
    ensures food { IfOk result (λ plan. IsTrue (is_leaf plan 1)) }
    ensures services { IfOk result (λ plan. IsTrue (is_leaf plan 2)) }
{
    let plan = Plan::read(alloc, PLAN)?;
    let items = plan.len();
    assert_eq!(rt; items, 3);
    let is_food_a_leaf = plan.is_leaf(1);
    assert!(rt; is_food_a_leaf);
    let is_services_a_leaf = plan.is_leaf(2);
    assert!(rt; is_services_a_leaf);
    Ok(plan)
}

/// Sends one input. Answers how many were sent.
fn send(tables: &mut Tables, plan: &Plan, count: u64, input: Input) -> u64
    requires few { count < 100 }
    requires fits { FitsPlan plan.now input }
    requires items { tables.old.items ≡ length plan.now.names }
    requires sent { WasSent plan.now count tables.old }
    ensures count { result ≡ count + 1 }
    ensures items { tables.new.items ≡ tables.old.items }
    ensures sent { WasSent plan.now result tables.new }
{
    tables.set(&input);
    count + 1
}

/// Sends a leaf the same indicator in four quarters, and a benchmark of four times the indicator.
fn send_year(tables: &mut Tables, plan: &Plan, count: u64, leaf: u16, indicator: u16) -> u64
    requires few { count ≤ 50 }
    requires leaf { IsTrue (is_leaf plan.now leaf) }
    requires item { leaf < length plan.now.names }
    requires positive { 1 ≤ indicator }
    requires items { tables.old.items ≡ length plan.now.names }
    requires sent { WasSent plan.now count tables.old }
    ensures count { result ≡ count + 5 }
    ensures items { tables.new.items ≡ tables.old.items }
    ensures sent { WasSent plan.now result tables.new }
{
    let value = i64::from(indicator);
    let mut sent = count;
    for period in 0..4_u16 {
        let kind = Kind::Indicator;
        sent = send(
            tables,
            plan,
            sent,
            Input {
                kind,
                leaf,
                period,
                value,
            },
        );
    }
    let kind = Kind::Benchmark;
    send(
        tables,
        plan,
        sent,
        Input {
            kind,
            leaf,
            period: 0,
            value: 4 * value,
        },
    )
}

/// The round in which FOOD was sent 100 and SERV 200 in each quarter of a year, over a board that shows what they make.
fn opened<L: Ledger>(alloc: Global, plan: &Plan, steps: &mut Steps<L>) -> Result<OpenRound, Fail>
    requires items { length plan.now.names ≡ 3 }
    requires food { IsTrue (is_leaf plan.now 1) }
    requires services { IsTrue (is_leaf plan.now 2) }
    ensures { IfOk result (IsDriven plan.now) }
{
    let mut tables = Tables::new(alloc, plan)?;
    let count = send_year(&mut tables, plan, 0, 1, 100);
    let count = send_year(&mut tables, plan, count, 2, 200);
    let release = compile_all(alloc, plan, &tables, count, steps)?;
    let board = Board::new(alloc, release.nodes)?;
    let flags = [false, true, true];
    Ok(OpenRound::open(alloc, plan, &tables, count, &flags, &board)?)
}

/// Hands in what was made of a job, and gives its table, where the job is out.
fn hand_in(round: &mut OpenRound, plan: &Plan, made: Compiled) -> Option<Arc<NodeTable>>
    requires { IsDriven plan.now round.old }
    ensures { IsDriven plan.now round.new }
{
    if round.is_made_out(plan, &made) {
        Some(round.finish(plan, made))
    } else {
        None
    }
}

/// Takes a job back, and hands out the least that is ready, where the job is out.
fn exchange(round: &mut OpenRound, plan: &Plan, job: Job) -> Option<Job>
    requires { IsDriven plan.now round.old }
    ensures { IsDriven plan.now round.new }
{
    if !round.is_out(plan, &job) {
        return None;
    }
    round.take_back(job);
    round.hand_out(plan)
}

/// Hands out the least job that is ready, compiles it and hands in what was made. Answers its item and its table.
fn work<L: Ledger>(
    alloc: Global,
    round: &mut OpenRound,
    plan: &Plan,
    steps: &mut Steps<L>,
) -> Option<(u16, Arc<NodeTable>)>
    requires { IsDriven plan.now round.old }
    ensures { IsDriven plan.now round.new }
{
    let job = round.hand_out(plan)?;
    match compile(alloc, job, steps) {
        CompileEnd::Compiled(made) => {
            let node = made.node;
            Some((node, hand_in(round, plan, made)?))
        }
        CompileEnd::Memory(_) => None,
    }
}

/// Whether a table has this value in each of four quarters.
fn has_quarters(table: &NodeTable, value: i128) -> bool {
    table.flows.value.as_slice() == [Cell::Value(value); 4].as_slice()
}

/// Whether the next job is this item's, and its table has this value in each of four quarters.
fn makes<L: Ledger>(
    alloc: Global,
    round: &mut OpenRound,
    plan: &Plan,
    steps: &mut Steps<L>,
    item: u16,
    value: i128,
) -> bool
    requires { IsDriven plan.now round.old }
    ensures { IsDriven plan.now round.new }
{
    match work(alloc, round, plan, steps) {
        Some((node, table)) => node == item && has_quarters(&table, value),
        None => false,
    }
}

/// Whether the two leaves and then their total are made, and no job is left.
fn makes_all<L: Ledger>(
    alloc: Global,
    round: &mut OpenRound,
    plan: &Plan,
    steps: &mut Steps<L>,
) -> bool
    requires { IsDriven plan.now round.old }
{
    round.front() == 10
        && round.jobs() == 3
        && makes(alloc, round, plan, steps, 1, 100)
        && makes(alloc, round, plan, steps, 2, 200)
        && makes(alloc, round, plan, steps, 0, 300)
        && round.first_left().is_none()
}

/// Hands out two jobs, and gives each the work of the other.
fn swapped(round: &mut OpenRound, plan: &Plan) -> Option<(Job, Job)>
    requires { IsDriven plan.now round.old }
    ensures { IsDriven plan.now round.new }
{
    let mut first = round.hand_out(plan)?;
    let mut second = round.hand_out(plan)?;
    swap(&mut first.work, &mut second.work);
    Some((first, second))
}

/// Whether a job with another work isn't out, nor what is made of one.
fn refuses_swapped<L: Ledger>(
    alloc: Global,
    round: &mut OpenRound,
    plan: &Plan,
    steps: &mut Steps<L>,
) -> bool
    requires { IsDriven plan.now round.old }
{
    let Some((food, services)) = swapped(round, plan) else {
        return false;
    };
    if round.is_out(plan, &services) {
        return false;
    }
    match compile(alloc, food, steps) {
        CompileEnd::Compiled(made) => hand_in(round, plan, made).is_none(),
        CompileEnd::Memory(_) => false,
    }
}

/// Whether a job that comes back is handed out again, and is then the one that is copied.
fn hands_out_again(round: &mut OpenRound, plan: &Plan) -> Result<bool, Memory>
    requires { IsDriven plan.now round.old }
{
    let Some(job) = round.hand_out(plan) else {
        return Ok(false);
    };
    let node = job.node;
    let Some(again) = exchange(round, plan, job) else {
        return Ok(false);
    };
    match round.copy_out(plan, node)? {
        Some(copy) => Ok(again.node == node && round.is_out(plan, &copy)),
        None => Ok(false),
    }
}

/// Whether rounds do so.
fn driven<L: Ledger>(blank: Blank, alloc: Global, plan: &Plan) -> Result<[bool; 3], Fail>
    requires items { length plan.now.names ≡ 3 }
    requires food { IsTrue (is_leaf plan.now 1) }
    requires services { IsTrue (is_leaf plan.now 2) }
    requires name { blank.name ≡ L.name }
    requires parts { blank.parts ≡ L.parts }
    requires some { 0 < blank.parts }
{
    let mut steps = Steps::<L>::open(blank);
    let mut round = opened(alloc, plan, &mut steps)?;
    let is_all_made = makes_all(alloc, &mut round, plan, &mut steps);
    let mut round = opened(alloc, plan, &mut steps)?;
    let is_swapped_refused = refuses_swapped(alloc, &mut round, plan, &mut steps);
    let mut round = opened(alloc, plan, &mut steps)?;
    let is_handed_out_again = hands_out_again(&mut round, plan)?;
    Ok([is_all_made, is_swapped_refused, is_handed_out_again])
}

#[test]
fn two_leaves_make_their_total_and_a_job_that_comes_back_is_handed_out_again(
    rt: HostRuntime,
) -> Result<(), Fail> {
    let plan = plan_of(&rt, rt.alloc())?;
    let driven = driven::<Brand>(Blank::new(1), rt.alloc(), &plan)?;
    assert_eq!(rt; driven, [true, true, true]);
    Ok(())
}

// Offices that several parties share.

ghost use Rattle.std.specs.Prelude.{◌≡◌, ◌<◌, ◌≤◌, ◌∷◌, [], All, IfOk, length, true};
ghost use Rattle.std.specs.Option.{ForSome};
ghost use Rattle.std.specs.Thread.{IsSync};
ghost use Rattle.accounts_history.specs.History.{journal};
ghost use Rattle.desk_lock.specs.Passes.{IsPassOf, IsSameButSeen};
ghost use Rattle.office.specs.Gathered.{AreAll, AreReady, IsGathered, IsReady};
ghost use Rattle.office.specs.Opening.{knowing_pass, new_pass};
ghost use Rattle.series_tables.specs.Fits.{FitsPlan};

use crate::{CoreBook, Helped, Office, Submitted};
use accounts_core::{Core, Entry, PutBack, Take};
use desk_lock::Pass;
use input_rules::judge_input;
use price_base::Cell;
use qna_base::{Memory, Steps};
use qna_edges::{Gate, OpenGate, Place};
use series_tables::{Input, Kind, Plan};
use std::alloc::Global;
use std::marker::Brand;
use std::sync::Wait;
use std::sync::atomic::{AtomicU64, Ordering};
use std::sync::ledger::{Blank, Ledger};
use std::test::Fail;
use std::thread;
use std::thread::{Threads, join};

/// TOTAL is item 0, FOOD and SERV are items 1 and 2.
const PLAN: &'static [u8] =
    b"start,2021\nreference,2022\nitem,TOTAL,\nitem,FOOD,TOTAL\nitem,SERV,TOTAL\n";

/// The most looks of a hold.
const LOOKS: u64 = 2147483648;

/// How many inputs each of sixteen desks sends. Together they are more than a journal may be ahead by.
const INPUTS: usize = 80;

/// The plan.
fn plan_of(alloc: Global) -> Result<Plan, Fail>
    ensures { IfOk result (λ plan. length plan.names ≡ 3) }
{
    let plan = Plan::read(alloc, PLAN)?;
    if plan.len() == 3 {
        Ok(plan)
    } else {
        Err(Fail::new("a plan of three items"))
    }
}

/// A value of a leaf.
fn input_of(plan: &Plan, name: &[u8], kind: Kind, period: u16, value: i64) -> Result<Input, Fail>
    ensures { IfOk result (FitsPlan plan.now) }
{
    match judge_input(plan, kind, name, Some(period), value) {
        Ok(input) => Ok(input),
        Err(_) => Err(Fail::new("an input that fits")),
    }
}

/// An office of two desks, with their passes.
fn two_desks(alloc: Global, plan: Plan) -> Result<(Office, Pass<CoreBook>, Pass<CoreBook>), Memory>
    ensures first { IfOk result (λ r. r.1 ≡ knowing_pass r.0 plan (2 ∷ [])) }
    ensures second { IfOk result (λ r. r.2 ≡ new_pass r.0 plan 2) }
{
    let (office, mut passes) = Office::new(alloc, plan, 2, 0)?;
    let second = passes.remove(1);
    let first = passes.remove(0);
    Ok((office, first, second))
}

/// A party submits an input, with a counter of its own. At success its number is that of all that is then accepted.
fn submit<R: Wait>(
    rt: &R,
    office: &Office,
    pass: Pass<CoreBook>,
    input: Input,
) -> (Pass<CoreBook>, Result<u64, Submitted>)
    requires office { IsPassOf office.now pass }
    requires fits { ForSome pass.label (λ plan. FitsPlan plan input) }
    ensures pass { IsSameButSeen pass result.0 }
    ensures number { IfOk result.1 (λ number. number ≡ length (journal result.0.seen)) }
{
    counted_submit::<Brand, R>(Blank::new(1), rt, office, pass, input)
}

/// The same with a ledger for the solver's steps.
fn counted_submit<L: Ledger, R: Wait>(
    blank: Blank,
    rt: &R,
    office: &Office,
    pass: Pass<CoreBook>,
    input: Input,
) -> (Pass<CoreBook>, Result<u64, Submitted>)
    requires name { blank.name ≡ L.name }
    requires parts { blank.parts ≡ L.parts }
    requires some { 0 < blank.parts }
    requires office { IsPassOf office.now pass }
    requires fits { ForSome pass.label (λ plan. FitsPlan plan input) }
    ensures pass { IsSameButSeen pass result.0 }
    ensures number { IfOk result.1 (λ number. number ≡ length (journal result.0.seen)) }
{
    let mut steps = Steps::<L>::open(blank);
    let (pass, answer) = office.submit(rt, pass, input, &OpenGate, &mut steps);
    match answer {
        Submitted::Accepted(number) => (pass, Ok(number)),
        refused => (pass, Err(refused)),
    }
}

/// A party helps, with a counter of its own.
fn help<G: Gate, R: Wait>(
    rt: &R,
    office: &Office,
    pass: Pass<CoreBook>,
    gate: &G,
) -> (Pass<CoreBook>, Helped)
    requires { IsPassOf office.now pass }
    ensures { IsSameButSeen pass result.0 }
{
    counted_help::<Brand, G, R>(Blank::new(1), rt, office, pass, gate)
}

/// The same with a ledger for the solver's steps.
fn counted_help<L: Ledger, G: Gate, R: Wait>(
    blank: Blank,
    rt: &R,
    office: &Office,
    pass: Pass<CoreBook>,
    gate: &G,
) -> (Pass<CoreBook>, Helped)
    requires name { blank.name ≡ L.name }
    requires parts { blank.parts ≡ L.parts }
    requires some { 0 < blank.parts }
    requires office { IsPassOf office.now pass }
    ensures { IsSameButSeen pass result.0 }
{
    let mut steps = Steps::<L>::open(blank);
    office.help(rt, pass, gate, &mut steps)
}

/// A party waits until so many inputs are published, with a counter of its own.
fn sync<R: Wait>(
    rt: &R,
    office: &Office,
    pass: Pass<CoreBook>,
    n: u64,
) -> (Pass<CoreBook>, Result<u64, Memory>)
    requires office { IsPassOf office.now pass }
    requires accepted { n ≤ length (journal pass.seen) }
    ensures { IsSameButSeen pass result.0 }
{
    counted_sync::<Brand, R>(Blank::new(1), rt, office, pass, n)
}

/// The same with a ledger for the solver's steps.
fn counted_sync<L: Ledger, R: Wait>(
    blank: Blank,
    rt: &R,
    office: &Office,
    pass: Pass<CoreBook>,
    n: u64,
) -> (Pass<CoreBook>, Result<u64, Memory>)
    requires name { blank.name ≡ L.name }
    requires parts { blank.parts ≡ L.parts }
    requires some { 0 < blank.parts }
    requires office { IsPassOf office.now pass }
    requires accepted { n ≤ length (journal pass.seen) }
    ensures { IsSameButSeen pass result.0 }
{
    let mut steps = Steps::<L>::open(blank);
    office.sync(rt, pass, n, &OpenGate, &mut steps)
}

/// Whether a party's next calls for help answer these.
fn helps_as<R: Wait>(
    rt: &R,
    office: &Office,
    pass: Pass<CoreBook>,
    answers: &[Helped],
) -> (Pass<CoreBook>, bool)
    requires { IsPassOf office.now pass }
    ensures { IsSameButSeen pass result.0 }
{
    let mut pass = pass;
    let mut all = true;
    for answer in answers {
        let (seen, helped) = help(rt, office, pass, &OpenGate);
        all = all && helped == *answer;
        pass = seen;
    }
    (pass, all)
}

/// Sends inputs one after another. Gives the number of the last one, or 0 where one of them isn't accepted.
fn send_all<R: Wait>(
    rt: &R,
    office: &Office,
    pass: Pass<CoreBook>,
    inputs: &[Input],
) -> (Pass<CoreBook>, u64)
    requires { IsReady office.now inputs.now pass }
    ensures pass { IsSameButSeen pass result.0 }
    ensures number { result.1 ≤ length (journal result.0.seen) }
{
    let mut pass = pass;
    let mut last = 0;
    for input in inputs {
        let (seen, answer) = submit(rt, office, pass, *input);
        let Ok(number) = answer else {
            return (seen, 0);
        };
        last = number;
        pass = seen;
    }
    (pass, last)
}

/// The history of an office that two desks close.
fn closed(office: Office, first: Pass<CoreBook>, second: Pass<CoreBook>) -> Core
    requires first { IsPassOf office first }
    requires second { IsPassOf office second }
    requires all { AreAll first (second ∷ []) }
{
    let pass = office.join(first, second);
    let (core, _) = office.close(pass);
    core
}

/// What the second desk is answered in the round of one input of FOOD, and after it.
const ROUND: &'static [Helped] = &[
    Helped::Opened { front: 1, jobs: 2 },
    Helped::Compiled(1),
    Helped::Compiled(0),
    Helped::Published(1),
    Helped::Quiet(1),
];

/// The front of the published release, beside a table of TOTAL.
fn front_read<R: Wait>(
    rt: &R,
    office: &Office,
    pass: Pass<CoreBook>,
) -> (Pass<CoreBook>, Result<u64, Memory>)
    requires office { IsPassOf office.now pass }
    requires item { ForSome pass.label (λ plan. 0 < length plan.names) }
    ensures { IsSameButSeen pass result.0 }
{
    let (pass, shown) = office.read(rt, pass, 0);
    match shown {
        Ok((front, _)) => (pass, Ok(front)),
        Err(Memory) => (pass, Err(Memory)),
    }
}

/// The front of the published release, and how many tables it has.
fn whole_read<R: Wait>(
    rt: &R,
    office: &Office,
    pass: Pass<CoreBook>,
) -> (Pass<CoreBook>, Option<(u64, usize)>)
    requires { IsPassOf office.now pass }
    ensures { IsSameButSeen pass result.0 }
{
    let (pass, shown) = office.read_all(rt, pass);
    match shown {
        Ok(release) => (pass, Some((release.front, release.nodes.len()))),
        Err(Memory) => (pass, None),
    }
}

#[test]
fn two_desks_take_turns(rt: HostRuntime) -> Result<(), Fail> {
    let plan = plan_of(rt.alloc())?;
    let input = input_of(&plan, b"FOOD", Kind::Indicator, 0, 100)?;
    let (office, first, mut second) = two_desks(rt.alloc(), plan)?;
    let before = office.history_now(&mut second);
    let (first, answer) = submit(&rt, &office, first, input);
    let Ok(number) = answer else {
        return Err(Fail::new("an input that is accepted"));
    };
    let after = office.history_now(&mut second);
    assert_eq!(&rt; (before, number, after), (0, 1, 1));
    let (second, front) = front_read(&rt, &office, second);
    assert_eq!(&rt; front, Ok(0));
    let (mut second, helped) = helps_as(&rt, &office, second, ROUND);
    let published = office.history_now(&mut second);
    assert!(&rt; helped && published == 2);
    let (second, whole) = whole_read(&rt, &office, second);
    assert_eq!(&rt; whole, Some((1, 3)));
    let (first, synced) = sync(&rt, &office, first, number);
    assert_eq!(&rt; synced, Ok(1));
    let core = closed(office, first, second);
    let accept = Entry::Accept { party: 1, input };
    let publish = Entry::Publish {
        party: 2,
        front: 1,
        jobs: 2,
    };
    assert!(rt; core.history() == [accept, publish].as_slice());
    Ok(())
}

/// Takes FOOD's job for a party, asks another for help, and puts the job back. Gives what the other is answered, or
/// none where FOOD's job isn't ready or can't be put back.
fn holds_a_job_while_helped<R: Wait>(
    rt: &R,
    office: &Office,
    holder: Pass<CoreBook>,
    helper: Pass<CoreBook>,
) -> (Pass<CoreBook>, Option<Helped>)
    requires holder { IsPassOf office.now holder }
    requires helper { IsPassOf office.now helper }
    ensures { IsSameButSeen helper result.0 }
{
    let (holder, reply) = office.take(rt, holder);
    let Take::Job(job) = reply else {
        return (helper, None);
    };
    let is_food = job.node == 1;
    let (helper, helped) = help(rt, office, helper, &OpenGate);
    let (_, reply) = office.give_back(rt, holder, job);
    let PutBack::Kept = reply else {
        return (helper, None);
    };
    if is_food {
        (helper, Some(helped))
    } else {
        (helper, None)
    }
}

/// What the second desk is answered once FOOD's job came back from the first.
const REST_OF_ROUND: &'static [Helped] = &[
    Helped::Compiled(1),
    Helped::Compiled(0),
    Helped::Published(1),
];

#[test]
fn a_round_goes_on_where_a_job_came_back(rt: HostRuntime) -> Result<(), Fail> {
    let plan = plan_of(rt.alloc())?;
    let input = input_of(&plan, b"FOOD", Kind::Indicator, 0, 100)?;
    let (office, first, second) = two_desks(rt.alloc(), plan)?;
    let (first, number) = submit(&rt, &office, first, input);
    let (first, opened) = help(&rt, &office, first, &OpenGate);
    assert!(&rt; number == Ok(1) && opened == Helped::Opened { front: 1, jobs: 2 });
    let (second, idle) = holds_a_job_while_helped(&rt, &office, first, second);
    assert_eq!(&rt; idle, Some(Helped::Idle));
    let (second, helped) = helps_as(&rt, &office, second, REST_OF_ROUND);
    let (_, front) = front_read(&rt, &office, second);
    assert!(rt; helped && front == Ok(1));
    Ok(())
}

/// An office of a desk and two workers, with their passes.
fn three_parties(
    alloc: Global,
    plan: Plan,
) -> Result<(Office, Pass<CoreBook>, Pass<CoreBook>, Pass<CoreBook>), Memory>
    ensures desk { IfOk result (λ r. r.1 ≡ knowing_pass r.0 plan (17 ∷ 18 ∷ [])) }
    ensures one { IfOk result (λ r. r.2 ≡ new_pass r.0 plan 17) }
    ensures two { IfOk result (λ r. r.3 ≡ new_pass r.0 plan 18) }
{
    let (office, mut passes) = Office::new(alloc, plan, 1, 2)?;
    let two = passes.remove(2);
    let one = passes.remove(1);
    let desk = passes.remove(0);
    Ok((office, desk, one, two))
}

/// Adds a leaf's inputs of a plan.
fn add_inputs(
    inputs: &mut Vec<Input>,
    plan: &Plan,
    name: &[u8],
    kind: Kind,
    values: &[i64],
) -> Result<(), Fail>
    requires { All (FitsPlan plan.now) inputs.old.items }
    ensures { All (FitsPlan plan.now) inputs.new.items }
{
    for (period, value) in values.iter().enumerate() {
        let Ok(period) = u16::try_from(period) else {
            return Err(Fail::new("a period"));
        };
        let input = input_of(plan, name, kind, period, *value)?;
        inputs.push(input)?;
    }
    Ok(())
}

/// The inputs of two leaves in three years. Each benchmark is the sum of its year's indicators.
fn inputs_of_three_years(alloc: Global, plan: &Plan) -> Result<Vec<Input>, Fail>
    ensures { IfOk result (λ inputs. All (FitsPlan plan.now) inputs.items) }
{
    let mut inputs = Vec::new(alloc);
    let food = b"FOOD".as_slice();
    let indicators = [100, 100, 100, 100, 110, 110, 110, 110, 120, 120, 130, 130];
    add_inputs(&mut inputs, plan, food, Kind::Indicator, &indicators)?;
    add_inputs(&mut inputs, plan, food, Kind::Benchmark, &[400, 440, 500])?;
    let (base, high, low) = (1000000, 1375000, 700000);
    let prices = [
        base, base, base, base, high, high, high, high, base, base, base, base,
    ];
    add_inputs(&mut inputs, plan, food, Kind::Price, &prices)?;
    let services = b"SERV".as_slice();
    let indicators = [200, 200, 200, 200, 210, 210, 210, 210, 250, 250, 250, 250];
    add_inputs(&mut inputs, plan, services, Kind::Indicator, &indicators)?;
    add_inputs(
        &mut inputs,
        plan,
        services,
        Kind::Benchmark,
        &[800, 840, 1000],
    )?;
    let prices = [
        base, base, base, base, low, low, low, low, base, base, base, base,
    ];
    add_inputs(&mut inputs, plan, services, Kind::Price, &prices)?;
    Ok(inputs)
}

/// Holds the first party that comes to a job, until another has come to a job and a reading has returned.
#[derive(Drop)]
struct PairGate {
    /// How many parties have come to a job.
    jobs: AtomicU64,
    /// How many readings have returned since the first party came.
    reads: AtomicU64,
    /// How many holds let go before their time.
    lost: AtomicU64,
}

impl Gate for PairGate {
    fn at(&self, party: u16, place: Place) {
        if let Place::BeforeJob { front, node } = place {
            let is_due = (party == 17 || party == 18) && front == 54 && (node == 1 || node == 2);
            if is_due && self.jobs.fetch_add(1, Ordering::SeqCst) == 0 {
                self.hold(2, 1);
            }
        }
    }
}

impl PairGate {
    fn new() -> PairGate {
        PairGate {
            jobs: AtomicU64::new(0),
            reads: AtomicU64::new(0),
            lost: AtomicU64::new(0),
        }
    }

    /// Waits until so many parties have come to a job, and so many readings have returned.
    fn hold(&self, jobs: u64, reads: u64) {
        for _ in 0..LOOKS {
            if self.jobs.load(Ordering::SeqCst) >= jobs
                && self.reads.load(Ordering::SeqCst) >= reads
            {
                return;
            }
            thread::yield_now();
        }
        self.lost.fetch_add(1, Ordering::SeqCst);
    }

    /// Whether two parties came to a job, and no hold let go before its time.
    fn held_two(&self) -> bool {
        self.jobs.load(Ordering::SeqCst) == 2
            && self.reads.load(Ordering::SeqCst) == 1
            && self.lost.load(Ordering::SeqCst) == 0
    }
}

/// Reads while a party is held at a job.
fn read_beside<R: Wait>(
    rt: &R,
    office: &Office,
    pass: Pass<CoreBook>,
    gate: &PairGate,
) -> (Pass<CoreBook>, Result<u64, Memory>)
    requires office { IsPassOf office.now pass }
    requires item { ForSome pass.label (λ plan. 0 < length plan.names) }
    ensures { IsSameButSeen pass result.0 }
{
    gate.hold(1, 0);
    let (pass, front) = front_read(rt, office, pass);
    gate.reads.fetch_add(1, Ordering::SeqCst);
    (pass, front)
}

/// What a party's help and another's reading answered, and the pass of the reader.
#[derive(Drop)]
struct Beside {
    helped: Helped,
    read: Result<u64, Memory>,
    reader: Pass<CoreBook>,
}

/// One party helps while another reads.
fn help_and_read<R: Threads + Wait + Sync>(
    rt: &R,
    office: &Office,
    gate: &PairGate,
    worker: Pass<CoreBook>,
    reader: Pass<CoreBook>,
) -> Beside
    requires worker { IsPassOf office.now worker }
    requires reader { IsPassOf office.now reader }
    requires item { ForSome reader.label (λ plan. 0 < length plan.names) }
    ensures { IsSameButSeen reader result.reader }
{
    let (first, second) = join(
        rt,
        || -> Helped
            requires { IsPassOf office.now worker }
        { help(rt, office, worker, gate).1 },
        || -> (Pass<CoreBook>, Result<u64, Memory>)
            requires { IsPassOf office.now reader
                × ForSome reader.label (λ plan. 0 < length plan.names) }
            ensures { IsSameButSeen reader result.0 }
        { read_beside(rt, office, reader, gate) },
    );
    Beside {
        helped: first,
        read: second.1,
        reader: second.0,
    }
}

/// Two parties help while a third reads.
fn help_twice_and_read<R: Threads + Wait + Sync>(
    rt: &R,
    office: &Office,
    gate: &PairGate,
    workers: (Pass<CoreBook>, Pass<CoreBook>),
    reader: Pass<CoreBook>,
) -> (Helped, Beside)
    requires first { IsPassOf office.now workers.0 }
    requires second { IsPassOf office.now workers.1 }
    requires reader { IsPassOf office.now reader }
    requires item { ForSome reader.label (λ plan. 0 < length plan.names) }
    ensures { IsSameButSeen reader result.1.reader }
{
    let (one, two) = workers;
    join(
        rt,
        || -> Helped
            requires { IsPassOf office.now one }
        { help(rt, office, one, gate).1 },
        || -> Beside
            requires { IsPassOf office.now two × IsPassOf office.now reader
                × ForSome reader.label (λ plan. 0 < length plan.names) × IsSync R.row }
            ensures { IsSameButSeen reader result.reader }
        { help_and_read(rt, office, gate, two, reader) },
    )
}

/// Whether these are the answers for the two leaves' jobs, in either order.
fn are_both_leaves(one: Helped, two: Helped) -> bool {
    let (food, services) = (Helped::Compiled(1), Helped::Compiled(2));
    (one, two) == (food, services) || (one, two) == (services, food)
}

/// Whether these cells have these values.
fn are_values(cells: &[Cell], values: &[i128]) -> bool {
    cells.len() == values.len()
        && cells
            .iter()
            .zip(values)
            .all(|(cell, value)| *cell == Cell::Value(*value))
}

/// Whether TOTAL's values in the published release are those of three years, with its front.
fn shows_three_years<R: Wait>(rt: &R, office: &Office, pass: Pass<CoreBook>) -> bool
    requires office { IsPassOf office.now pass }
    requires item { ForSome pass.label (λ plan. 0 < length plan.names) }
{
    let (_, shown) = office.read(rt, pass, 0);
    let Ok((front, table)) = shown else {
        return false;
    };
    let values = [300, 300, 300, 300, 320, 320, 320, 320, 370, 370, 380, 380];
    front == 54 && are_values(table.flows.value.as_slice(), &values)
}

/// What is left of the round once both leaves are compiled.
const TOTAL_OF_ROUND: &'static [Helped] = &[Helped::Compiled(0), Helped::Published(54)];

#[test]
fn two_parties_come_to_jobs_at_once_while_a_third_reads(rt: HostRuntime) -> Result<(), Fail> {
    let plan = plan_of(rt.alloc())?;
    let inputs = inputs_of_three_years(rt.alloc(), &plan)?;
    let (office, desk, one, two) = three_parties(rt.alloc(), plan)?;
    let (desk, count) = send_all(&rt, &office, desk, inputs.as_slice());
    let (desk, opened) = help(&rt, &office, desk, &OpenGate);
    assert!(&rt; count == 54 && opened == Helped::Opened { front: 54, jobs: 3 });
    let gate = PairGate::new();
    let (first, beside) = help_twice_and_read(&rt, &office, &gate, (one, two), desk);
    assert!(&rt; gate.held_two() && beside.read == Ok(0));
    assert!(&rt; are_both_leaves(first, beside.helped));
    let (desk, helped) = helps_as(&rt, &office, beside.reader, TOTAL_OF_ROUND);
    assert!(rt; helped && shows_three_years(&rt, &office, desk));
    Ok(())
}

/// A desk sends its inputs and waits until they are published. Says whether it was told so.
fn work<R: Wait>(
    rt: &R,
    office: &Office,
    pass: Pass<CoreBook>,
    inputs: &[Input],
) -> (Pass<CoreBook>, bool)
    requires { IsReady office.now inputs.now pass }
    ensures { IsSameButSeen pass result.0 }
{
    let (pass, last) = send_all(rt, office, pass, inputs);
    let (pass, answer) = sync(rt, office, pass, last);
    office.desk_ended();
    let published = match answer {
        Ok(front) => last > 0 && front >= last,
        Err(Memory) => false,
    };
    (pass, published)
}

/// A thread for each desk. All passes end in the first one's.
fn crew<R: Threads + Wait + Sync>(
    rt: &R,
    office: &Office,
    first: Pass<CoreBook>,
    others: Vec<Pass<CoreBook>>,
    inputs: &[Input],
) -> (Pass<CoreBook>, bool)
    requires first { IsReady office.now inputs.now first }
    requires others { AreReady office.now inputs.now others.items }
    requires knows { first.gives ≡ true }
    ensures { IsGathered first others.items result.0 }
{
    let mut others = others;
    let Some(last) = others.pop() else {
        return work(rt, office, first, inputs);
    };
    let (rest, one) = join(
        rt,
        || -> (Pass<CoreBook>, bool)
            requires { IsReady office.now inputs.now first
                × AreReady office.now inputs.now others.items
                × (first.gives ≡ true) × IsSync R.row }
            ensures { IsGathered first others.items result.0 }
        { crew(rt, office, first, others, inputs) },
        || -> (Pass<CoreBook>, bool)
            requires { IsReady office.now inputs.now last }
            ensures { IsSameButSeen last result.0 }
        { work(rt, office, last, inputs) },
    );
    (office.join(rest.0, one.0), rest.1 && one.1)
}

/// Sixteen desks send the same inputs and close their office. Says whether each was told that its own are published.
fn run<R: Threads + Wait + Sync>(
    rt: &R,
    alloc: Global,
    plan: Plan,
    inputs: &[Input],
) -> Result<(Core, bool), Memory>
    requires { All (FitsPlan plan) inputs.now }
{
    let (office, mut passes) = Office::new(alloc, plan, 16, 0)?;
    let first = passes.remove(0);
    let (pass, published) = crew(rt, &office, first, passes, inputs);
    let ended = office.open_desks() == 0;
    let (core, _) = office.close(pass);
    Ok((core, published && ended))
}

/// The period of an input that a party sent, or none.
fn period_by(entry: &Entry, party: u16) -> Option<u16> {
    match entry {
        Entry::Accept {
            party: sender,
            input,
        } if *sender == party => Some(input.period),
        _ => None,
    }
}

/// Whether a party's inputs stand in a history once and in order.
fn stand_in_order(history: &[Entry], party: u16) -> bool {
    let count = history
        .iter()
        .filter(|entry| period_by(entry, party).is_some())
        .count();
    let ordered = history
        .iter()
        .filter_map(|entry| period_by(entry, party))
        .enumerate()
        .all(|(place, period)| u64::from(period) == place as u64);
    count == INPUTS && ordered
}

/// FOOD's indicators of many quarters.
fn indicators(alloc: Global, plan: &Plan) -> Result<Vec<Input>, Fail>
    ensures { IfOk result (λ inputs. All (FitsPlan plan.now) inputs.items) }
{
    let mut inputs = Vec::new(alloc);
    let values = [7; INPUTS];
    add_inputs(&mut inputs, plan, b"FOOD", Kind::Indicator, &values)?;
    Ok(inputs)
}

#[test]
fn sixteen_desks_send_each_input_once_and_in_order(rt: HostRuntime) -> Result<(), Fail> {
    let plan = plan_of(rt.alloc())?;
    let inputs = indicators(rt.alloc(), &plan)?;
    let (core, published) = run(&rt, rt.alloc(), plan, inputs.as_slice())?;
    assert!(&rt; published && core.published() == 1280 && core.accepted() == 1280);
    for party in 1..17 {
        assert!(&rt; stand_in_order(core.history(), party), "party {party}");
    }
    Ok(())
}

/// Sends one input so many times. Gives the number of the last one, or 0 where one of them isn't accepted.
fn send_often<R: Wait>(
    rt: &R,
    office: &Office,
    pass: Pass<CoreBook>,
    input: Input,
    times: u32,
) -> (Pass<CoreBook>, u64)
    requires office { IsPassOf office.now pass }
    requires fits { ForSome pass.label (λ plan. FitsPlan plan input) }
    ensures { IsSameButSeen pass result.0 }
{
    let mut pass = pass;
    let mut last = 0;
    for _ in 0..times {
        let (seen, answer) = submit(rt, office, pass, input);
        let Ok(number) = answer else {
            return (seen, 0);
        };
        last = number;
        pass = seen;
    }
    (pass, last)
}

#[test]
fn a_desk_alone_helps_until_the_journal_is_full(rt: HostRuntime) -> Result<(), Fail> {
    let plan = plan_of(rt.alloc())?;
    let input = input_of(&plan, b"FOOD", Kind::Indicator, 0, 100)?;
    let (office, first, second) = two_desks(rt.alloc(), plan)?;
    let (first, last) = send_often(&rt, &office, first, input, 262144);
    let (first, refused) = submit(&rt, &office, first, input);
    assert!(&rt; last == 262144 && refused == Err(Submitted::Full));
    let core = closed(office, first, second);
    assert!(rt; core.accepted() == 262144 && core.published() == 261120);
    Ok(())
}

#[test]
fn open_desks_are_counted_down(rt: HostRuntime) -> Result<(), Fail> {
    let plan = plan_of(rt.alloc())?;
    let (office, _, _) = two_desks(rt.alloc(), plan)?;
    let two = office.open_desks();
    office.desk_ended();
    let one = office.open_desks();
    office.desk_ended();
    office.desk_ended();
    assert_eq!(&rt;
        (two, one, office.open_desks()),
        (2, 1, 18446744073709551615)
    );
    Ok(())
}

// A core over a total and its two leaves, driven by hand.

ghost use Rattle.std.specs.Prelude.{◌≡◌, ◌<◌};

use crate::{
    Accept, Begin, CompileEnd, Compiled, Core, Done, Entry, Job, Publish, PutBack, Take, compile,
};
use input_rules::judge_input;
use price_base::Cell;
use qna_base::Steps;
use series_tables::{Kind, Plan};
use std::alloc::Global;
use std::marker::Brand;
use std::sync::ledger::{Blank, Ledger};
use std::test::Fail;

/// TOTAL is item 0, FOOD and SERV are items 1 and 2.
const PLAN: &'static [u8] =
    b"start,2021\nreference,2022\nitem,TOTAL,\nitem,FOOD,TOTAL\nitem,SERV,TOTAL\n";

/// A core of the plan.
fn core_of(alloc: Global) -> Result<Core, Fail> {
    Ok(Core::new(alloc, Plan::read(alloc, PLAN)?)?)
}

/// Sends a value of a leaf as party 1.
fn send(core: &mut Core, name: &[u8], kind: Kind, period: u16, value: i64) -> Result<Accept, Fail> {
    let Ok(input) = judge_input(core.plan(), kind, name, Some(period), value) else {
        return Err(Fail::new("an input that fits"));
    };
    Ok(core.accept(1, input)?)
}

/// Sends FOOD's first indicator. Answers what the core answers.
fn send_again(core: &mut Core) -> Result<Accept, Fail> {
    send(core, b"FOOD", Kind::Indicator, 0, 9)
}

/// Sends a leaf one indicator in four quarters and then a benchmark. Answers the last number.
fn send_year(core: &mut Core, name: &[u8], indicator: i64, benchmark: i64) -> Result<Accept, Fail> {
    for quarter in 0..4_u16 {
        send(core, name, Kind::Indicator, quarter, indicator)?;
    }
    send(core, name, Kind::Benchmark, 0, benchmark)
}

/// Takes a job that is ready.
fn take(core: &mut Core) -> Result<Job, Fail> {
    match core.take() {
        Take::Job(job) => Ok(job),
        Take::NoneReady => Err(Fail::new("a job that is ready")),
    }
}

/// Compiles a job.
fn made_of(alloc: Global, job: Job) -> Result<Compiled, Fail> {
    counted_made::<Brand>(Blank::new(1), alloc, job)
}

/// The same with a ledger for the solver's steps.
fn counted_made<L: Ledger>(blank: Blank, alloc: Global, job: Job) -> Result<Compiled, Fail>
    requires name { blank.name ≡ L.name }
    requires parts { blank.parts ≡ L.parts }
    requires some { 0 < blank.parts }
{
    match compile(alloc, job, &mut Steps::<L>::open(blank)) {
        CompileEnd::Compiled(made) => Ok(made),
        CompileEnd::Memory(_) => Err(Fail::new("a job that is compiled")),
    }
}

/// Finishes all rounds.
fn finish(core: &mut Core) -> Result<(), Fail> {
    counted_finish::<Brand>(Blank::new(1), core)
}

/// The same with a ledger for the solver's steps.
fn counted_finish<L: Ledger>(blank: Blank, core: &mut Core) -> Result<(), Fail>
    requires name { blank.name ≡ L.name }
    requires parts { blank.parts ≡ L.parts }
    requires some { 0 < blank.parts }
{
    Ok(core.finish(&mut Steps::<L>::open(blank))?)
}

/// Hands in what was made of a job. False where no such job is out.
fn hand_in(core: &mut Core, made: Compiled) -> bool {
    match core.done(made) {
        Done::Kept => true,
        Done::NotOut(_) => false,
    }
}

/// Takes a job, compiles it and hands it in. Answers its item.
fn work(alloc: Global, core: &mut Core) -> Result<u16, Fail> {
    let made = made_of(alloc, take(core)?)?;
    let node = made.node;
    if hand_in(core, made) {
        Ok(node)
    } else {
        Err(Fail::new("a job that is out"))
    }
}

/// Whether the published release is of a front, and shows an item this value in each of four quarters.
fn shows(core: &Core, node: u16, front: u64, value: i128) -> bool {
    if node >= core.plan().len() {
        return false;
    }
    let (at, table) = core.read(node);
    at == front && table.flows.value.as_slice() == [Cell::Value(value); 4].as_slice()
}

/// Whether no job is ready.
fn is_none_ready(core: &mut Core) -> bool {
    match core.take() {
        Take::Job(_) => false,
        Take::NoneReady => true,
    }
}

/// The job that comes back because no such job is out.
fn refused(core: &mut Core, job: Job) -> Result<Job, Fail> {
    match core.put_back(job) {
        PutBack::NotOut(job) => Ok(job),
        PutBack::Kept => Err(Fail::new("a job that isn't out")),
    }
}

/// Begins a round. Answers whether it goes up to this front and has so many jobs.
fn opens(core: &mut Core, front: u64, jobs: u16) -> Result<bool, Fail> {
    let answer = core.begin()?;
    Ok(answer == Begin::Opened { front, jobs })
}

/// Whether a round of FOOD's first five inputs stays at its front while FOOD's job is out and another input comes.
fn stays_at_its_front(core: &mut Core) -> Result<bool, Fail> {
    let next = send(core, b"FOOD", Kind::Indicator, 0, 200)?;
    let begun = core.begin()?;
    Ok(
        next == Accept::Number(6)
            && begun == Begin::RoundOpen(5)
            && is_none_ready(core)
            && core.publish(1) == Publish::Waiting(0),
    )
}

/// Compiles and hands in a job that was taken, and publishes once TOTAL's job is done too. Answers the front.
fn publishes(alloc: Global, core: &mut Core, job: Job) -> Result<Publish, Fail> {
    let made = made_of(alloc, job)?;
    if !hand_in(core, made) || work(alloc, core)? != 0 || shows(core, 1, 0, 250) {
        return Err(Fail::new("two jobs that are out, and nothing of them shown"));
    }
    Ok(core.publish(1))
}

/// The job of FOOD in a round of six inputs of other values.
fn other_round(core: &mut Core) -> Result<Job, Fail> {
    send_year(core, b"FOOD", 300, 1600)?;
    send_again(core)?;
    core.begin()?;
    take(core)
}

/// The same of a core of its own.
fn strange_job(alloc: Global) -> Result<Job, Fail> {
    let mut other = core_of(alloc)?;
    other_round(&mut other)
}

/// Whether neither a job nor what is made of it is out.
fn is_strange(alloc: Global, core: &mut Core, job: Job) -> Result<bool, Fail> {
    let job = refused(core, job)?;
    let made = made_of(alloc, job)?;
    Ok(!hand_in(core, made))
}

/// Runs FOOD's job of the open round, while its sixth input comes. Whether the release of the first five is published.
fn runs_to_its_front(alloc: Global, core: &mut Core, food: Job) -> Result<bool, Fail> {
    let is_food = food.node == 1;
    let stays = stays_at_its_front(core)?;
    let published = publishes(alloc, core, food)?;
    Ok(is_food && stays && published == Publish::Published(5) && shows(core, 1, 5, 250))
}

/// Whether the round of FOOD's first five inputs goes up to its front, and no further.
fn is_first_round(alloc: Global, core: &mut Core) -> Result<bool, Fail> {
    let last = send_year(core, b"FOOD", 100, 1000)?;
    if last != Accept::Number(5) || !opens(core, 5, 2)? {
        return Ok(false);
    }
    let food = take(core)?;
    runs_to_its_front(alloc, core, food)
}

/// Whether the round behind it takes its own jobs and no other core's.
fn is_second_round(alloc: Global, core: &mut Core) -> Result<bool, Fail> {
    if !opens(core, 6, 2)? || take(core)?.node != 1 {
        return Ok(false);
    }
    let strange = strange_job(alloc)?;
    Ok(strange.node == 1 && strange.front == 6 && is_strange(alloc, core, strange)?)
}

/// Whether both rounds are as they should be.
fn are_two_rounds(alloc: Global, core: &mut Core) -> Result<bool, Fail> {
    Ok(is_first_round(alloc, core)? && is_second_round(alloc, core)?)
}

#[test]
fn a_round_stays_at_its_front_and_takes_its_own_jobs(rt: HostRuntime) -> Result<(), Fail> {
    let mut core = core_of(rt.alloc())?;
    let holds = are_two_rounds(rt.alloc(), &mut core)?;
    assert!(rt; holds);
    Ok(())
}

/// Takes FOOD's job, puts it back and takes it again, and then takes SERV's. Gives FOOD's.
fn two_jobs(core: &mut Core) -> Result<Job, Fail> {
    let first = take(core)?;
    let PutBack::Kept = core.put_back(first) else {
        return Err(Fail::new("a job that comes back"));
    };
    let food = take(core)?;
    let services = take(core)?;
    if (food.node, services.node) == (1, 2) {
        Ok(food)
    } else {
        Err(Fail::new("the two leaves' jobs"))
    }
}

/// Whether the last two entries are the publications of two finished rounds, and the release is that of the second.
fn is_finished_twice(core: &Core) -> Result<bool, Fail> {
    let first = Entry::Publish {
        party: 0,
        front: 10,
        jobs: 3,
    };
    let last = Entry::Publish {
        party: 0,
        front: 11,
        jobs: 2,
    };
    let release = core.read_all()?;
    Ok(
        core.history().get(11).copied() == Some(first)
            && core.history().last().copied() == Some(last)
            && (release.front, release.nodes.len()) == (11, 3)
            && shows(core, 0, 11, 300)
            && shows(core, 2, 11, 200),
    )
}

/// Opens a round of both leaves and total. Gives FOOD's job, once it came back and was taken again.
fn opens_both(core: &mut Core) -> Result<Job, Fail> {
    send_year(core, b"FOOD", 100, 400)?;
    send_year(core, b"SERV", 200, 800)?;
    if !opens(core, 10, 3)? {
        return Err(Fail::new("a round of three jobs"));
    }
    two_jobs(core)
}

/// Whether finishing while two jobs are out publishes two rounds.
fn finishes_both(core: &mut Core) -> Result<bool, Fail> {
    send(core, b"SERV", Kind::Price, 0, 7)?;
    finish(core)?;
    is_finished_twice(core)
}

/// Whether FOOD is out in a newer round.
fn is_food_out(core: &mut Core) -> Result<bool, Fail> {
    send_again(core)?;
    Ok(opens(core, 12, 2)? && take(core)?.node == 1)
}

/// Whether finishing takes back what is out, so that a job of the old round isn't one of a newer.
fn takes_all_back(alloc: Global, core: &mut Core) -> Result<bool, Fail> {
    let food = opens_both(core)?;
    let holds = food.front == 10 && finishes_both(core)? && is_food_out(core)?;
    Ok(holds && is_strange(alloc, core, food)?)
}

#[test]
fn finishing_takes_back_what_is_out(rt: HostRuntime) -> Result<(), Fail> {
    let mut core = core_of(rt.alloc())?;
    let holds = takes_all_back(rt.alloc(), &mut core)?;
    assert!(rt; holds);
    Ok(())
}

/// Whether the next input comes too early, with these two numbers.
fn is_behind(core: &mut Core, accepted: u64, published: u64) -> Result<bool, Fail> {
    let answer = send_again(core)?;
    Ok(
        answer
            == Accept::Behind {
                accepted,
                published,
            },
    )
}

/// Sends 1,024 inputs behind so many that are published, and whether the next is taken only once they are.
fn goes_ahead(core: &mut Core, published: u64) -> Result<bool, Fail>
    requires { published < 262144 }
{
    let accepted = published + 1024;
    let mut all = true;
    for number in published..accepted {
        all = send_again(core)? == Accept::Number(number + 1) && all;
    }
    if accepted < 262144 {
        all = is_behind(core, accepted, published)? && all;
        core.begin()?;
        all = is_behind(core, accepted, published)? && all;
    }
    finish(core)?;
    Ok(all)
}

/// Whether nothing is to be done in a new core.
fn is_quiet(core: &mut Core) -> Result<bool, Fail> {
    let begun = core.begin()?;
    Ok(begun == Begin::Nothing(0) && core.publish(1) == Publish::NoRound && is_none_ready(core))
}

/// Whether a journal goes ahead of what is published by 1,024 and no more, until it is full.
fn is_bounded(core: &mut Core) -> Result<bool, Fail> {
    let mut all = is_quiet(core)?;
    for round in 0..256_u16 {
        all = goes_ahead(core, 1024 * u64::from(round))? && all;
    }
    let answer = send_again(core)?;
    Ok(all && answer == Accept::Full && core.published() == 262144)
}

#[test]
fn a_journal_is_bounded(rt: HostRuntime) -> Result<(), Fail> {
    let mut core = core_of(rt.alloc())?;
    let holds = is_bounded(&mut core)?;
    assert!(rt; holds);
    Ok(())
}

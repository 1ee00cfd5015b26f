//! The serving of desks between files that are open, and what is written of it.

ghost use Rattle.std.specs.Prelude.{◌≡◌, ◌⊎◌, ◌≤◌, ◌<◌, IfOk, map, vec_len};
ghost use Rattle.std.specs.Prelude.{if◌then◌else◌};
ghost use Rattle.accounts_history.specs.History.{IsLawful};
ghost use Rattle.compile_workers.specs.DeskEnd.{ends_told};
ghost use Rattle.compile_workers.specs.Parties.{AreFirstPasses};
ghost use Rattle.qna_live.specs.Live.{IsTextWritten, first_fault as first_fault_of, whole_release};
ghost use Rattle.qna_live.specs.Live.{status_of_end as status_for, status_of_ends as status_for_all};
ghost use Rattle.qna_live.specs.Serving.{HasServedAll, HasServedNone};
ghost use Rattle.release_print.specs.Journal.{journal_text};

use accounts_core::Core;
use compile_workers::{DeskEnd, DeskEnds, Served, serve_parties};
use desk_lock::Pass;
use office::{CoreBook, Office};
use qna_base::{Memory, Steps};
use qna_edges::{Gate, Sink, Source, Status, write_all};
use qna_parts::write_status;
use release_print::{print_journal, print_release};
use series_tables::Plan;
use std::alloc::Global;
use std::marker::Brand;
use std::sync::Wait;
use std::sync::ledger::{Blank, Ledger};
use std::thread::Threads;

/// Serves the desks, writes the journal, and reports the release of it. Gives the desks' ends back, with the status.
pub(crate) fn serve<R: Threads + Wait + Sync, S: Source, O: Sink, K: Sink, G: Gate>(
    rt: &R,
    alloc: Global,
    plan: &Plan,
    workers: u16,
    desks: Vec<DeskEnds<S, O>>,
    journal: &mut O,
    report: &mut K,
    gate: &G,
) -> (Vec<DeskEnds<S, O>>, Status)
    requires desks { (1 ≤ vec_len desks) × (vec_len desks ≤ 16) }
    requires workers { workers ≤ 16 }
    ensures { let olds = map (λ d. ends_told (S.stock d.source) (O.paper d.sink)) desks.items in
        let news = map (λ d. ends_told (S.stock d.source) (O.paper d.sink)) result.0.items in
        HasServedAll plan.now olds news (O.paper journal.old) (O.paper journal.new)
        (K.paper report.old) (K.paper report.new) result.1
        ⊎ HasServedNone olds news (O.paper journal.old) (O.paper journal.new)
        (K.paper report.old) (K.paper report.new) result.1 }
{
    let (office, passes) = match open_office(alloc, plan, desks.len() as u16, workers) {
        Ok(opened) => opened,
        Err(Memory) => return (desks, Status::Memory),
    };
    let Served {
        mut core,
        desks,
        ends,
        memory,
        ..
    } = serve_parties(rt, alloc, office, plan, passes, desks, gate);
    let served = status_of_ends(&ends, memory);
    let written = write_journal(alloc, plan, &core, journal);
    let reported = report_journal::<Brand, K>(Blank::new(1), alloc, plan, &mut core, report);
    (desks, first_fault(served, first_fault(written, reported)))
}

/// An office of the plan, with its passes.
fn open_office(
    alloc: Global,
    plan: &Plan,
    desks: u16,
    workers: u16,
) -> Result<(Office, Vec<Pass<CoreBook>>), Memory>
    requires desks { (1 ≤ desks) × (desks ≤ 16) }
    requires workers { workers ≤ 16 }
    ensures { IfOk result (λ r. AreFirstPasses r.0 plan.now desks r.1.items) }
{
    Office::new(alloc, plan.copy(alloc)?, desks, workers)
}

/// The status of the serving: that of the first desk that didn't end well, or that memory was wanted besides.
fn status_of_ends(ends: &[DeskEnd], memory: bool) -> Status
    ensures { result ≡ first_fault_of (status_for_all ends.now)
        (if memory then Status.Memory else Status.Done) }
{
    for end in ends {
        match status_of_end(*end) {
            Status::Done => {}
            fault => return fault,
        }
    }
    if memory { Status::Memory } else { Status::Done }
}

/// The status of a desk's end.
fn status_of_end(end: DeskEnd) -> Status
    ensures { result ≡ status_for end }
{
    match end {
        DeskEnd::Ended => Status::Done,
        DeskEnd::ReadFault => Status::ReadFault,
        DeskEnd::WriteFault => Status::WriteFault,
        DeskEnd::TooMuch => Status::TooMuch,
        DeskEnd::Memory => Status::Memory,
    }
}

/// The first of two statuses that isn't `Done`.
fn first_fault(first: Status, second: Status) -> Status
    ensures { result ≡ first_fault_of first second }
{
    match first {
        Status::Done => second,
        fault => fault,
    }
}

/// Writes the journal's text.
fn write_journal<O: Sink>(alloc: Global, plan: &Plan, core: &Core, journal: &mut O) -> Status
    requires { core.now.plan ≡ plan.now }
    ensures written { IsTextWritten (journal_text plan.now core.now.history)
        (O.paper journal.old) (O.paper journal.new) result }
    ensures lawful { IsLawful plan.now core.now.history }
{
    let mut text = Vec::new(alloc);
    match print_journal(plan, core.history(), &mut text) {
        Ok(()) => write(journal, &text),
        Err(Memory) => Status::Memory,
    }
}

/// Publishes all that was accepted, and reports the release of it.
fn report_journal<L: Ledger, K: Sink>(
    blank: Blank,
    alloc: Global,
    plan: &Plan,
    core: &mut Core,
    report: &mut K,
) -> Status
    requires name { blank.name ≡ L.name }
    requires parts { blank.parts ≡ L.parts }
    requires some { 0 < blank.parts }
    requires plan { core.old.plan ≡ plan.now }
    ensures { IsTextWritten (whole_release plan.now core.old.history)
        (K.paper report.old) (K.paper report.new) result }
{
    match print_whole::<L>(blank, alloc, plan, core) {
        Ok(text) => write(report, &text),
        Err(Memory) => Status::Memory,
    }
}

/// The text of the release of all that was accepted.
fn print_whole<L: Ledger>(
    blank: Blank,
    alloc: Global,
    plan: &Plan,
    core: &mut Core,
) -> Result<Vec<u8>, Memory>
    requires name { blank.name ≡ L.name }
    requires parts { blank.parts ≡ L.parts }
    requires some { 0 < blank.parts }
    requires plan { core.old.plan ≡ plan.now }
    ensures { IfOk result (λ text. text.items ≡ whole_release plan.now core.old.history) }
{
    let mut steps = Steps::<L>::open(blank);
    core.finish(&mut steps)?;
    let release = core.read_all()?;
    let mut text = Vec::new(alloc);
    print_release(plan, &release, &mut text)?;
    Ok(text)
}

/// Writes a text to a sink whose refusal counts.
fn write<K: Sink>(sink: &mut K, text: &[u8]) -> Status
    ensures { IsTextWritten text.now (K.paper sink.old) (K.paper sink.new) result }
{
    match write_all(sink, text) {
        Ok(()) => Status::Done,
        Err(refused) => write_status(refused),
    }
}

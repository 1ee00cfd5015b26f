//! The command `live`: desks and workers over one journal, bytes in and bytes out.

ghost use Rattle.std.specs.Prelude.{◌≡◌, ◌≢◌, ◌⊎◌, ◌≤◌, ◌<◌, IfErr, IfOk, OnOk, None, codes, map, vec_len};
ghost use Rattle.command_words.specs.Command.{words_in};
ghost use Rattle.command_words.specs.LiveWords.{live_form};
ghost use Rattle.command_words.specs.Views.{IsForm, live_view};
ghost use Rattle.compile_workers.specs.DeskEnd.{ends_told};
ghost use Rattle.qna_edges.specs.Paper.{Writes};
ghost use Rattle.qna_live.specs.Live.{EndsWith, IsLiveEnd, OnLive};
ghost use Rattle.qna_live.specs.Opened.{OnlyFiles, file_names};

use crate::opening::{back_all, open_all};
use crate::serving::serve;
use command_words::{LiveWords, live_words, plain_words};
use qna_base::Memory;
use qna_edges::{Cabinet, Gate, Sink, Status};
use qna_parts::{read_file, tell_plan, tell_unread, tell_usage};
use series_tables::{Plan, PlanError};
use std::alloc::Global;
use std::sync::Wait;
use std::thread::Threads;

/// The most bytes of a plan.
const PLAN_BYTES: usize = 1_048_576;

/// Carries out the command `live PLAN JOURNAL IN OUT ..`: reads the plan, opens each desk's input and creates its
/// output, and creates the journal; serves the desks, with the workers, over one journal; then writes the journal, and
/// reports the release of the whole journal.
///
/// Until the desks are served the first fault ends the command, with the report's line of it. From then on journal and
/// report are written whatever becomes of the desks, and the status is that of the first desk that didn't end well, in
/// their order, or else that of the memory that all parties share, of the journal, and of the report.
pub fn run_live<R: Threads + Wait + Sync, C: Cabinet, K: Sink, G: Gate>(
    rt: &R,
    alloc: Global,
    words: &[&str],
    cabinet: &mut C,
    report: &mut K,
    gate: &G,
) -> Status
    ensures usage { result ≡ Status.Usage → live_form (words_in words.now) ≡ None }
    ensures form { live_form (words_in words.now) ≡ None →
        (result ≡ Status.Usage) ⊎ (result ≡ Status.Memory) }
    ensures untouched { live_form (words_in words.now) ≡ None → cabinet.new ≡ cabinet.old }
    ensures quiet { live_form (words_in words.now) ≡ None → result ≡ Status.Memory →
        report.new ≡ report.old }
    ensures told { result ≡ Status.Usage →
        Writes (K.paper report.old) (K.paper report.new) (codes "usage\n") }
    ensures ends { OnLive (words_in words.now) (λ form.
        IsLiveEnd (C.shelves cabinet.old) (C.shelves cabinet.new)
        (K.paper report.old) (K.paper report.new) form result) }
{
    let plain = match plain_words(alloc, words) {
        Ok(Some(plain)) => plain,
        Ok(None) => return tell_usage(report),
        Err(Memory) => return Status::Memory,
    };
    match live_words(alloc, &plain) {
        Ok(Some(said)) => live(rt, alloc, &said, cabinet, report, gate),
        Ok(None) => tell_usage(report),
        Err(Memory) => Status::Memory,
    }
}

/// Reads the plan, and goes on with it.
fn live<R: Threads + Wait + Sync, C: Cabinet, K: Sink, G: Gate>(
    rt: &R,
    alloc: Global,
    said: &LiveWords<'_>,
    cabinet: &mut C,
    report: &mut K,
    gate: &G,
) -> Status
    requires { IsForm said.now }
    ensures { IsLiveEnd (C.shelves cabinet.old) (C.shelves cabinet.new)
        (K.paper report.old) (K.paper report.new) (live_view said.now) result }
{
    let text = match read_file(alloc, cabinet, said.plan, PLAN_BYTES) {
        Ok(text) => text,
        Err(unread) => return tell_unread(report, unread, said.plan),
    };
    match Plan::read(alloc, &text) {
        Ok(plan) => live_with(rt, alloc, said, &plan, cabinet, report, gate),
        Err(PlanError::Fault { line, cause }) => tell_plan(report, line, cause),
        Err(PlanError::Memory) => Status::Memory,
    }
}

/// Opens all files, serves the desks, and hands all back.
fn live_with<R: Threads + Wait + Sync, C: Cabinet, K: Sink, G: Gate>(
    rt: &R,
    alloc: Global,
    said: &LiveWords<'_>,
    plan: &Plan,
    cabinet: &mut C,
    report: &mut K,
    gate: &G,
) -> Status
    requires { IsForm said.now }
    ensures ends { EndsWith plan.now (C.shelves cabinet.old) (C.shelves cabinet.new)
        (K.paper report.old) (K.paper report.new) (live_view said.now) result }
    ensures only { OnlyFiles (C.shelves cabinet.old) (C.shelves cabinet.new)
        (file_names (live_view said.now)) }
{
    let (desks, mut journal) = match open_all(alloc, said, cabinet, report) {
        Ok(opened) => opened,
        Err(status) => return status,
    };
    let (desks, status) = serve(
        rt,
        alloc,
        plan,
        said.workers,
        desks,
        &mut journal,
        report,
        gate,
    );
    back_all(cabinet, desks);
    cabinet.back_out(journal);
    status
}

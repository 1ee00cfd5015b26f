//! What a desk is served with, and its answers to each kind of line.

ghost use Rattle.std.specs.Prelude.{◌≡◌, ◌≤◌, Ok, length};
ghost use Rattle.accounts_history.specs.History.{journal};
ghost use Rattle.compile_workers.specs.Answering.{AnswersLine, reached};
ghost use Rattle.compile_workers.specs.Serving.{Asks, IsRefused, IsServing};
ghost use Rattle.desk_lock.specs.Passes.{IsSameButSeen};
ghost use Rattle.input_rules.specs.Judgement.{judgement};
ghost use Rattle.input_rules.specs.Requests.{input as asked_input, certificate_of, release, release_of, sync};
ghost use Rattle.input_rules.specs.Views.{input_view};
ghost use Rattle.line_form.specs.Lines.{line_view};
ghost use Rattle.series_tables.specs.Fits.{FitsPlan};

use crate::answers::{say_accepted, say_refused, say_synced};
use desk_lock::Pass;
use input_rules::{Cause, LineInput, leaf_with_name};
use line_form::Line;
use office::{CoreBook, Office, Submitted};
use qna_base::{Memory, Steps};
use qna_edges::{Gate, Place};
use release_print::{print_cert, print_node, print_release};
use series_tables::{Input, Plan};
use std::alloc::Global;
use std::sync::Wait;
use std::sync::ledger::Ledger;

/// What a desk is served with: an office, the office's plan, and a gate.
#[derive(Drop)]
pub(crate) struct Service<'a, G: Gate> {
    pub(crate) alloc: Global,
    pub(crate) office: &'a Office,
    pub(crate) plan: &'a Plan,
    pub(crate) gate: &'a G,
}

/// How far a desk has come: its pass, and the number of its last accepted input, 0 before the first.
#[derive(Drop)]
pub(crate) struct Progress {
    pub(crate) pass: Pass<CoreBook>,
    pub(crate) own: u64,
}

/// Answers a line that is refused.
pub(crate) fn serve_refused<G: Gate>(
    service: &Service<G>,
    progress: Progress,
    line: &Line,
    cause: Cause,
    answers: &mut Vec<u8>,
) -> (Progress, Result<(), Memory>)
    requires serving { IsServing service.now.office.now service.now.plan.now
        progress.own progress.pass }
    requires refused { IsRefused service.now.plan.now (line_view line.now) cause }
    ensures same { result.0 ≡ progress }
    ensures answers { AnswersLine service.now.plan.now progress.pass.party (line_view line.now)
        (reached answers.old.items progress.own progress.pass.seen)
        (reached answers.new.items result.0.own result.0.pass.seen) result.1 }
{
    let said = say_refused(answers, cause);
    (progress, said)
}

/// Answers an input that is in the plan's ranges: it is submitted, and its number is answered, or that the journal is
/// full. For want of memory it isn't accepted, and nothing is answered.
pub(crate) fn serve_input<G: Gate, L: Ledger, R: Wait>(
    rt: &R,
    service: &Service<G>,
    progress: Progress,
    line: &Line,
    asked: &LineInput<'_>,
    input: Input,
    answers: &mut Vec<u8>,
    steps: &mut Steps<L>,
) -> (Progress, Result<(), Memory>)
    requires serving { IsServing service.now.office.now service.now.plan.now
        progress.own progress.pass }
    requires asks { Asks service.now.plan.now (line_view line.now)
        (asked_input (input_view asked.now)) }
    requires judged { judgement service.now.plan.now
        asked.now.kind asked.now.name.now asked.now.period asked.now.value ≡ Ok input }
    requires fits { FitsPlan service.now.plan.now input }
    ensures pass { IsSameButSeen progress.pass result.0.pass }
    ensures known { result.0.own ≤ length (journal result.0.pass.seen) }
    ensures answers { AnswersLine service.now.plan.now progress.pass.party (line_view line.now)
        (reached answers.old.items progress.own progress.pass.seen)
        (reached answers.new.items result.0.own result.0.pass.seen) result.1 }
{
    let Progress { pass, own } = progress;
    let (pass, submitted) = service.office.submit(rt, pass, input, service.gate, steps);
    match submitted {
        Submitted::Accepted(number) => {
            let said = say_accepted(answers, number);
            (Progress { pass, own: number }, said)
        }
        Submitted::Full => {
            let said = say_refused(answers, Cause::Full);
            (Progress { pass, own }, said)
        }
        Submitted::Memory => (Progress { pass, own }, Err(Memory)),
    }
}

/// Answers `sync`: it helps until all that the desk sent is published, and answers the published front.
pub(crate) fn serve_sync<G: Gate, L: Ledger, R: Wait>(
    rt: &R,
    service: &Service<G>,
    progress: Progress,
    line: &Line,
    answers: &mut Vec<u8>,
    steps: &mut Steps<L>,
) -> (Progress, Result<(), Memory>)
    requires serving { IsServing service.now.office.now service.now.plan.now
        progress.own progress.pass }
    requires asks { Asks service.now.plan.now (line_view line.now) sync }
    ensures pass { IsSameButSeen progress.pass result.0.pass }
    ensures known { result.0.own ≤ length (journal result.0.pass.seen) }
    ensures answers { AnswersLine service.now.plan.now progress.pass.party (line_view line.now)
        (reached answers.old.items progress.own progress.pass.seen)
        (reached answers.new.items result.0.own result.0.pass.seen) result.1 }
{
    let Progress { pass, own } = progress;
    let (pass, synced) = service.office.sync(rt, pass, own, service.gate, steps);
    match synced {
        Ok(front) => {
            let said = say_synced(answers, front);
            (Progress { pass, own }, said)
        }
        Err(Memory) => (Progress { pass, own }, Err(Memory)),
    }
}

/// Answers `release`: the whole published release.
pub(crate) fn serve_release<G: Gate, R: Wait>(
    rt: &R,
    service: &Service<G>,
    progress: Progress,
    line: &Line,
    answers: &mut Vec<u8>,
) -> (Progress, Result<(), Memory>)
    requires serving { IsServing service.now.office.now service.now.plan.now
        progress.own progress.pass }
    requires asks { Asks service.now.plan.now (line_view line.now) release }
    ensures pass { IsSameButSeen progress.pass result.0.pass }
    ensures known { result.0.own ≤ length (journal result.0.pass.seen) }
    ensures answers { AnswersLine service.now.plan.now progress.pass.party (line_view line.now)
        (reached answers.old.items progress.own progress.pass.seen)
        (reached answers.new.items result.0.own result.0.pass.seen) result.1 }
{
    let Progress { pass, own } = progress;
    let (pass, read) = service.office.read_all(rt, pass);
    let Ok(release) = read else {
        return (Progress { pass, own }, Err(Memory));
    };
    come_from_reading(service.gate, pass.party(), release.front);
    let said = print_release(service.plan, &release, answers);
    (Progress { pass, own }, said)
}

/// Answers `release,NAME`: the block of one item of the published release. A name that no item has is refused.
pub(crate) fn serve_item<G: Gate, R: Wait>(
    rt: &R,
    service: &Service<G>,
    progress: Progress,
    line: &Line,
    name: &[u8],
    answers: &mut Vec<u8>,
) -> (Progress, Result<(), Memory>)
    requires serving { IsServing service.now.office.now service.now.plan.now
        progress.own progress.pass }
    requires asks { Asks service.now.plan.now (line_view line.now) (release_of name.now) }
    ensures pass { IsSameButSeen progress.pass result.0.pass }
    ensures known { result.0.own ≤ length (journal result.0.pass.seen) }
    ensures answers { AnswersLine service.now.plan.now progress.pass.party (line_view line.now)
        (reached answers.old.items progress.own progress.pass.seen)
        (reached answers.new.items result.0.own result.0.pass.seen) result.1 }
{
    let Some(item) = service.plan.find(name) else {
        let said = say_refused(answers, Cause::Unknown);
        return (progress, said);
    };
    let Progress { pass, own } = progress;
    let (pass, read) = service.office.read(rt, pass, item);
    let Ok((front, table)) = read else {
        return (Progress { pass, own }, Err(Memory));
    };
    come_from_reading(service.gate, pass.party(), front);
    let said = print_node(service.plan, front, item, &table, answers);
    (Progress { pass, own }, said)
}

/// Answers `cert,NAME`: the certificate of a leaf in the published release, or that it has none. A name that no leaf
/// has is refused.
pub(crate) fn serve_certificate<G: Gate, R: Wait>(
    rt: &R,
    service: &Service<G>,
    progress: Progress,
    line: &Line,
    name: &[u8],
    answers: &mut Vec<u8>,
) -> (Progress, Result<(), Memory>)
    requires serving { IsServing service.now.office.now service.now.plan.now
        progress.own progress.pass }
    requires asks { Asks service.now.plan.now (line_view line.now) (certificate_of name.now) }
    ensures pass { IsSameButSeen progress.pass result.0.pass }
    ensures known { result.0.own ≤ length (journal result.0.pass.seen) }
    ensures answers { AnswersLine service.now.plan.now progress.pass.party (line_view line.now)
        (reached answers.old.items progress.own progress.pass.seen)
        (reached answers.new.items result.0.own result.0.pass.seen) result.1 }
{
    let Some(leaf) = leaf_with_name(service.plan, name) else {
        let said = say_refused(answers, Cause::Unknown);
        return (progress, said);
    };
    let Progress { pass, own } = progress;
    let (pass, read) = service.office.read(rt, pass, leaf);
    let Ok((front, table)) = read else {
        return (Progress { pass, own }, Err(Memory));
    };
    come_from_reading(service.gate, pass.party(), front);
    let said = print_cert(service.plan, front, leaf, &table, answers);
    (Progress { pass, own }, said)
}

/// Comes to the gate after a release was read.
fn come_from_reading<G: Gate>(gate: &G, party: u16, front: u64) {
    gate.at(party, Place::AfterRead { front });
}

//! Answering the lines of a desk, one after another.

ghost use Rattle.std.specs.Prelude.{◌≡◌, ◌≤◌, ◌++◌, [], ℕ, List, Ok, OnOk, Some, length};
ghost use Rattle.accounts_history.specs.History.{journal};
ghost use Rattle.compile_workers.specs.Answering.{AnswersLine, reached};
ghost use Rattle.compile_workers.specs.Serving.{IsSaid, IsServing, Serves, position};
ghost use Rattle.desk_lock.specs.Passes.{IsSameButSeen};
ghost use Rattle.input_rules.specs.Requests.{fields_of_line};
ghost use Rattle.line_form.specs.Lines.{IsCutOf, TextLine, line_view};

use crate::answers::{break_off, write_many, write_out};
use crate::service::{
    Progress, Service, serve_certificate, serve_input, serve_item, serve_refused, serve_release,
    serve_sync,
};
use input_rules::{Cause, Request, cause_of, judge_input, line_fields, read_request};
use line_form::{Fields, Line, LineFault, Lines};
use qna_base::{Memory, Steps};
use qna_edges::{Gate, Refused, Sink};
use std::sync::Wait;
use std::sync::ledger::Ledger;

/// Answers one line, if it isn't passed over. For want of memory it isn't answered, and no input of it is accepted.
fn serve_line<G: Gate, L: Ledger, R: Wait>(
    rt: &R,
    service: &Service<G>,
    progress: Progress,
    line: &Line,
    answers: &mut Vec<u8>,
    steps: &mut Steps<L>,
) -> (Progress, Result<(), Memory>)
    requires { IsServing service.now.office.now service.now.plan.now
        progress.own progress.pass }
    ensures pass { IsSameButSeen progress.pass result.0.pass }
    ensures known { result.0.own ≤ length (journal result.0.pass.seen) }
    ensures answers { AnswersLine service.now.plan.now progress.pass.party (line_view line.now)
        (reached answers.old.items progress.own progress.pass.seen)
        (reached answers.new.items result.0.own result.0.pass.seen) result.1 }
{
    match line_fields(service.alloc, line) {
        Ok(Some(fields)) => serve_fields(rt, service, progress, line, &fields, answers, steps),
        Ok(None) => (progress, Ok(())),
        Err(LineFault::Long) => serve_refused(service, progress, line, Cause::Long, answers),
        Err(LineFault::Form) => serve_refused(service, progress, line, Cause::Form, answers),
        Err(LineFault::Memory) => (progress, Err(Memory)),
    }
}

/// Answers a line with these fields.
fn serve_fields<G: Gate, L: Ledger, R: Wait>(
    rt: &R,
    service: &Service<G>,
    progress: Progress,
    line: &Line,
    fields: &Fields<'_>,
    answers: &mut Vec<u8>,
    steps: &mut Steps<L>,
) -> (Progress, Result<(), Memory>)
    requires serving { IsServing service.now.office.now service.now.plan.now
        progress.own progress.pass }
    requires fields { fields_of_line (line_view line.now) ≡ Ok (Some fields.now) }
    ensures pass { IsSameButSeen progress.pass result.0.pass }
    ensures known { result.0.own ≤ length (journal result.0.pass.seen) }
    ensures answers { AnswersLine service.now.plan.now progress.pass.party (line_view line.now)
        (reached answers.old.items progress.own progress.pass.seen)
        (reached answers.new.items result.0.own result.0.pass.seen) result.1 }
{
    match read_request(service.plan.start(), fields) {
        None => serve_refused(service, progress, line, Cause::Form, answers),
        Some(Request::Input(asked)) => {
            match judge_input(
                service.plan,
                asked.kind,
                asked.name,
                asked.period,
                asked.value,
            ) {
                Ok(input) => {
                    serve_input(rt, service, progress, line, &asked, input, answers, steps)
                }
                Err(why) => serve_refused(service, progress, line, cause_of(why), answers),
            }
        }
        Some(Request::Release) => serve_release(rt, service, progress, line, answers),
        Some(Request::ReleaseOf(name)) => serve_item(rt, service, progress, line, name, answers),
        Some(Request::Certificate(name)) => {
            serve_certificate(rt, service, progress, line, name, answers)
        }
        Some(Request::Sync) => serve_sync(rt, service, progress, line, answers, steps),
    }
}

/// Answers the lines that wait, until none is left or one can't be answered. Their answers are written before it
/// returns, at the latest.
pub(crate) fn serve_waiting<G: Gate, K: Sink, L: Ledger, R: Wait>(
    rt: &R,
    service: &Service<G>,
    progress: Progress,
    lines: &mut Lines,
    answers: &mut Vec<u8>,
    sink: &mut K,
    steps: &mut Steps<L>,
) -> (Progress, Result<(), Refused>)
    requires serving { IsServing service.now.office.now service.now.plan.now
        progress.own progress.pass }
    requires none { answers.old.items ≡ [] }
    ensures pass { IsSameButSeen progress.pass result.0.pass }
    ensures known { result.0.own ≤ length (journal result.0.pass.seen) }
    ensures serves { Serves service.now.plan.now progress.pass.party lines.old.waiting
        (position (K.paper sink.old) progress.own progress.pass.seen)
        (position (K.paper sink.new) result.0.own result.0.pass.seen) result.1 }
    ensures said { IsSaid (K.paper sink.old) (K.paper sink.new) result.1 }
    ensures none { answers.new.items ≡ [] }
    ensures none_waits { OnOk result.1 (lines.new.waiting ≡ []) }
    ensures cut { OnOk result.1 ((stream : List ℕ) (handed : List TextLine)
        → IsCutOf lines.old stream handed
        → IsCutOf lines.new stream (handed ++ lines.old.waiting)) }
    ensures ended { lines.new.ended ≡ lines.old.ended }
{
    let mut progress = progress;
    'lines: while let Some(line) = lines.next_line() {
        let (next, said) = serve_line(rt, service, progress, &line, answers, steps);
        if let Err(Memory) = said {
            let refused = break_off(answers, sink);
            return (next, Err(refused));
        }
        if let Err(refused) = write_many(answers, sink) {
            return (next, Err(refused));
        }
        progress = next;
    }
    let said = write_out(answers, sink);
    (progress, said)
}

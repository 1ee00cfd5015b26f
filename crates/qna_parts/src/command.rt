//! A command that makes a text of a plan and an input, and writes it to an output.

ghost use Rattle.std.specs.Prelude.{◌≡◌, ◌≢◌, ◌⊎◌, codes};
ghost use Rattle.qna_parts.specs.Making.{Making};
ghost use Rattle.qna_edges.specs.Paper.{Writes};
ghost use Rattle.qna_parts.specs.StatusLine.{named_line};
ghost use Rattle.qna_parts.specs.Trace.{trace_of};
ghost use Rattle.qna_parts.specs.CommandEnd.{EndsWithPlan};
ghost use Rattle.qna_parts.specs.Command.{OnlyBetween, IsCommandEnd, CommandsComplete};

use crate::making::Make;
use crate::read::read_file;
use crate::status_line::{tell, tell_plan, tell_unread};
use crate::transfer::transfer;
use qna_edges::{Cabinet, Refused, Sink, Status};
use series_tables::{Plan, PlanError};
use std::alloc::Global;

/// The most bytes of a plan.
const PLAN_BYTES: usize = 1_048_576;

/// Reports a file that couldn't be opened or created, and answers the status, which is the same where the line is
/// refused. Want of memory has no line.
#[tactic(auto, using(qna_edges::proofs::Paper::printed))]
fn tell_unopened<R: Sink>(report: &mut R, refused: Refused, name: &str) -> Status
    ensures failed { refused ≡ Refused.Failed → result ≡ Status.OpenFault }
    ensures back { result ≡ Status.OpenFault → refused ≡ Refused.Failed }
    ensures wants { result ≡ Status.Memory → refused ≡ Refused.Memory }
    ensures told { result ≡ Status.OpenFault →
        Writes (R.paper report.old) (R.paper report.new) (named_line (codes "open") name.now) }
    ensures memory { result ≡ Status.Memory → report.new ≡ report.old }
    ensures ends { (result ≡ Status.OpenFault) ⊎ (result ≡ Status.Memory) }
{
    match refused {
        Refused::Failed => {
            let _ = tell(report, "open", name);
            Status::OpenFault
        }
        Refused::Memory => Status::Memory,
    }
}

/// Opens the input, creates the output, carries out the transfer, and hands both back.
#[tactic(auto, unfolding(crate::specs::CommandEnd::HoldsPart), using(qna_edges::proofs::Stock::capped_none))]
fn between<M: Make, C: Cabinet, R: Sink>(
    alloc: Global,
    maker: &M,
    plan: &Plan,
    input: &str,
    output: &str,
    cabinet: &mut C,
    report: &mut R,
) -> Status
    requires { input.now ≢ output.now }
    ensures ends { EndsWithPlan (M.text maker.now) plan.now
        (trace_of (C.shelves cabinet.old) (C.shelves cabinet.new) input.now)
        (trace_of (C.shelves cabinet.old) (C.shelves cabinet.new) output.now)
        (R.paper report.old) (R.paper report.new) result }
    ensures only { OnlyBetween (C.shelves cabinet.old) (C.shelves cabinet.new)
        input.now output.now }
{
    let mut source = match cabinet.open(input) {
        Ok(source) => source,
        Err(refused) => return tell_unopened(report, refused, input),
    };
    let mut sink = match cabinet.create(output) {
        Ok(sink) => sink,
        Err(refused) => {
            cabinet.back_in(source);
            return tell_unopened(report, refused, output);
        }
    };
    let status = transfer(
        alloc,
        maker,
        plan,
        &mut source,
        input,
        &mut sink,
        output,
        report,
    );
    cabinet.back_in(source);
    cabinet.back_out(sink);
    status
}

/// Carries out a command with three different files: reads the plan, at most 2^20 bytes, takes the input, at most 2^30
/// bytes, reporting each refused line of it, and writes what is made of all accepted inputs to the output.
///
/// At an end for a fault of a file the report has a line at its end that names the file, or the plan's refused line;
/// there is no such line for want of memory and where the report itself fails. No file is opened or created more than
/// once, nothing is created before the plan is known and the input is open, and all is handed back.
pub fn carry_out<M: Make, C: Cabinet, R: Sink>(
    alloc: Global,
    maker: &M,
    plan: &str,
    input: &str,
    output: &str,
    cabinet: &mut C,
    report: &mut R,
) -> Status
    requires plan_input { plan.now ≢ input.now }
    requires plan_output { plan.now ≢ output.now }
    requires input_output { input.now ≢ output.now }
    ensures { IsCommandEnd (M.text maker.now) (C.shelves cabinet.old) (C.shelves cabinet.new)
        (R.paper report.old) (R.paper report.new) plan.now input.now output.now result }
{
    let text = match read_file(alloc, cabinet, plan, PLAN_BYTES) {
        Ok(text) => text,
        Err(unread) => return tell_unread(report, unread, plan),
    };
    match Plan::read(alloc, &text) {
        Ok(plan) => between(alloc, maker, &plan, input, output, cabinet, report),
        Err(PlanError::Fault { line, cause }) => tell_plan(report, line, cause),
        Err(PlanError::Memory) => Status::Memory,
    }
}

/// Law: whatever is made, where no count rose, the plan is right and both files are within their limits, an end of such
/// a command is whole or for want of memory.
pub fn commands_complete()
    ensures { (made : Making) → CommandsComplete made }
{}

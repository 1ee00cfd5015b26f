// What is said of the lines of an input.

ghost use Rattle.std.specs.Prelude.{◌≡◌, ◌≤◌, ◌+◌, ◌++◌, ◌∷◌, [], ℕ, List, All, length, count_by, IfOk, IfSome};
ghost use Rattle.std.specs.Option.{option_to_list};
ghost use Rattle.series_tables.specs.Plan.{PlanShape};
ghost use Rattle.series_tables.specs.Fits.{FitsPlan};
ghost use Rattle.line_form.specs.Lines.{TextLine, line_view};
ghost use Rattle.input_rules.specs.Lines.{cause_text, cause_of as cause_of_refusal, judged_input};
ghost use Rattle.input_rules.specs.Lines.{judged_request, judged_line};
ghost use Rattle.input_rules.specs.Accepted.{most_inputs, judged_lines, is_passed, taken, accepted, accepted_of};
ghost use Rattle.input_rules.specs.Accepted.{accepted_next, refused_next, refusals_of};
ghost use Rattle.input_rules.specs.Views.{request_view};

use crate::judging::{Refusal, judge_input};
use crate::requests::{Request, line_fields, read_request};
use line_form::{Line, LineFault};
use qna_base::Memory;
use series_tables::{Input, Plan};
use std::alloc::Global;

/// Why a line is refused, in the order of the tests: the first that applies is the cause.
#[derive(Clone, Copy, Debug, PartialEq, Eq)]
pub enum Cause {
    /// The line has more than 256 bytes.
    Long,
    /// The line has none of the forms.
    Form,
    /// No leaf of the plan has the name.
    Unknown,
    /// An indicator of 0: the method divides by indicators.
    Zero,
    /// The period isn't one of the plan's 64 years, or the value isn't in its kind's range.
    Range,
    /// As many inputs as may be, 262,144, were accepted before.
    Full,
}

impl Cause {
    /// The cause's word, as reports write it.
    pub fn text(self) -> &'static [u8]
        ensures { result.now ≡ cause_text self }
    {
        match self {
            Cause::Long => b"long",
            Cause::Form => b"form",
            Cause::Unknown => b"unknown",
            Cause::Zero => b"zero",
            Cause::Range => b"range",
            Cause::Full => b"full",
        }
    }
}

/// What is said of a line.
#[derive(Clone, Copy, Debug, PartialEq, Eq)]
pub enum Judged {
    /// The line is passed over: it is empty, a comment, or asks for something else than to take an input.
    Passed,
    /// The line's input is taken.
    Taken(Input),
    /// The line is refused.
    Refused(Cause),
}

/// Judges a line of an input by the plan. An input that is taken fits the plan.
///
/// The causes come in the order of `Cause`: `Long`, `Form`, `Unknown`, `Zero`, `Range`, each exactly where no
/// earlier one applies and its own test fails. `Full` never comes: it is for the caller, who counts the inputs.
#[tactic(auto, unfolding(crate::specs::Lines::judged_line))]
pub fn judge_line(alloc: Global, plan: &Plan, line: &Line) -> Result<Judged, Memory>
    ensures judged { IfOk result (λ judged. judged ≡ judged_line plan.now (line_view line.now)) }
    ensures fits { IfOk result (λ judged. IfSome (taken judged) (FitsPlan plan.now)) }
{
    let fields = match line_fields(alloc, line) {
        Ok(Some(fields)) => fields,
        Ok(None) => return Ok(Judged::Passed),
        Err(LineFault::Long) => return Ok(Judged::Refused(Cause::Long)),
        Err(LineFault::Form) => return Ok(Judged::Refused(Cause::Form)),
        Err(LineFault::Memory) => return Err(Memory),
    };
    match read_request(plan.start(), &fields) {
        Some(request) => Ok(judge_request(plan, request)),
        None => Ok(Judged::Refused(Cause::Form)),
    }
}

/// Of any lines each is passed over, or its input is accepted, or it is refused: none is lost, and none counts twice.
/// At most 262,144 inputs are accepted.
pub fn each_line_counts_once()
    ensures once { (plan : PlanShape) (lines : List TextLine) →
        length (accepted_of plan lines) + length (refusals_of plan lines)
        + count_by is_passed (judged_lines plan lines)
        ≡ length lines }
    ensures few { (plan : PlanShape) (lines : List TextLine) →
        length (accepted_of plan lines) ≤ most_inputs }
{}

/// Each input that is accepted of a stream fits the plan.
pub fn accepted_inputs_fit()
    ensures { (plan : PlanShape) (text : List ℕ) → All (FitsPlan plan) (accepted plan text) }
{}

/// One line more adds what it gives to the accepted inputs and to the refused lines of those before it.
pub fn lines_go_on()
    ensures accepted { (plan : PlanShape) (lines : List TextLine) (line : TextLine) →
        accepted_of plan (lines ++ line ∷ [])
        ≡ accepted_of plan lines
        ++ option_to_list
        (accepted_next (length (accepted_of plan lines)) (judged_line plan line)) }
    ensures refused { (plan : PlanShape) (lines : List TextLine) (line : TextLine) →
        refusals_of plan (lines ++ line ∷ [])
        ≡ refusals_of plan lines
        ++ option_to_list
        (refused_next (length (accepted_of plan lines)) line.number
        (judged_line plan line)) }
{}

/// Judges what a line asks for.
fn judge_request(plan: &Plan, request: Request<'_>) -> Judged
    ensures judged { result ≡ judged_request plan.now (request_view request.entry) }
    ensures fits { IfSome (taken result) (FitsPlan plan.now) }
{
    match request {
        Request::Input(input) => {
            match judge_input(plan, input.kind, input.name, input.period, input.value) {
                Ok(input) => Judged::Taken(input),
                Err(refusal) => Judged::Refused(cause_of(refusal)),
            }
        }
        Request::Release | Request::ReleaseOf(_) | Request::Certificate(_) | Request::Sync => {
            Judged::Passed
        }
    }
}

/// The cause of a line whose input is refused.
pub fn cause_of(refusal: Refusal) -> Cause
    ensures { result ≡ cause_of_refusal refusal }
{
    match refusal {
        Refusal::Unknown => Cause::Unknown,
        Refusal::Zero => Cause::Zero,
        Refusal::Range => Cause::Range,
    }
}

//! What the lines of an input ask for, and whether an input is taken: the rules that each line meets, in their order.
#![tactic(auto)]

mod judging;
mod lines;
mod requests;

pub use judging::{RawInput, Refusal, judge, judge_input, leaf_with_name};
pub use lines::{
    Cause, Judged, accepted_inputs_fit, cause_of, each_line_counts_once, judge_line, lines_go_on,
};
pub use requests::{LineInput, Request, line_fields, read_request};

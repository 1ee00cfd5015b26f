//! The command `trial`: words in, and a report.

ghost use Rattle.std.specs.Prelude.{◌≡◌, ◌⊎◌, None, codes};
ghost use Rattle.command_words.specs.Command.{words_in};
ghost use Rattle.command_words.specs.TrialWords.{IsTrial, trial_form, trial_view};
ghost use Rattle.qna_edges.specs.Paper.{Writes};
ghost use Rattle.qna_trial.specs.TrialEnd.{IsTrialEnd, OnTrial, TrialsComplete};

use crate::figures::figures_of;
use crate::report::print_report;
use command_words::{TrialWords, plain_words, trial_words};
use qna_base::Memory;
use qna_edges::{Sink, Status, write_all};
use qna_parts::{tell_usage, write_status};
use std::alloc::Global;
use std::marker::Brand;
use std::sync::ledger::Blank;

/// Carries out the command `trial SEED ITEMS YEARS WORKERS`: makes the plan and the inputs that these numbers fix,
/// compiles them twice, and reports what they come to.
///
/// The report has five lines: the words, the number of the inputs, the number of benchmarked years of all leaves, the
/// chained volume of the first item in the last year, in ten-thousandths, and that both releases are the same, which is
/// proved. It touches no file.
pub fn run_trial<K: Sink>(alloc: Global, words: &[&str], report: &mut K) -> Status
    ensures usage { result ≡ Status.Usage → trial_form (words_in words.now) ≡ None }
    ensures form { trial_form (words_in words.now) ≡ None →
        (result ≡ Status.Usage) ⊎ (result ≡ Status.Memory) }
    ensures quiet { trial_form (words_in words.now) ≡ None → result ≡ Status.Memory →
        report.new ≡ report.old }
    ensures told { result ≡ Status.Usage →
        Writes (K.paper report.old) (K.paper report.new) (codes "usage\n") }
    ensures ends { OnTrial (words_in words.now) (λ form.
        IsTrialEnd (K.paper report.old) (K.paper report.new) form result) }
{
    let plain = match plain_words(alloc, words) {
        Ok(Some(plain)) => plain,
        Ok(None) => return tell_usage(report),
        Err(Memory) => return Status::Memory,
    };
    match trial_words(alloc, &plain) {
        Ok(Some(said)) => trial(alloc, said, report),
        Ok(None) => tell_usage(report),
        Err(Memory) => Status::Memory,
    }
}

/// Carries out a trial.
fn trial<K: Sink>(alloc: Global, said: TrialWords, report: &mut K) -> Status
    requires { IsTrial (trial_view said) }
    ensures { IsTrialEnd (K.paper report.old) (K.paper report.new) (trial_view said) result }
{
    let Ok(figures) = figures_of::<Brand>(alloc, Blank::new(1), said) else {
        return Status::Memory;
    };
    let Ok(text) = print_report(alloc, said, &figures) else {
        return Status::Memory;
    };
    match write_all(report, &text) {
        Ok(()) => Status::Done,
        Err(refused) => write_status(refused),
    }
}

/// Law: where the report's count of faults didn't rise, an end of `trial` is whole or for want of memory.
pub fn trials_complete()
    ensures { TrialsComplete }
{}

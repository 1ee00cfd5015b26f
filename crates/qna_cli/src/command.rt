//! The program's words, and the command that they name.

ghost use Rattle.std.specs.Prelude.{◌≡◌, ◌⊎◌, List, ℕ, false, codes};
ghost use Rattle.command_words.specs.Command.{words_in, is_batch, OnBatch, OnCheck};
ghost use Rattle.command_words.specs.Words.{begins_by};
ghost use Rattle.qna_edges.specs.Paper.{Writes};
ghost use Rattle.qna_cli.specs.Batch.{IsBatchEnd};
ghost use Rattle.qna_cli.specs.CheckEnd.{IsCheckEnd};
ghost use Rattle.qna_cli.specs.Forms.{HasNoForm};
ghost use Rattle.qna_laws.specs.Releases.{ReleasesAreCertified};
ghost use Rattle.qna_live.specs.Live.{IsLiveEnd, OnLive};
ghost use Rattle.qna_trial.specs.TrialEnd.{IsTrialEnd, OnTrial};

use crate::check::run_check;
use crate::release::Releases;
use command_words::{BatchWords, batch_words, plain_words};
use qna_base::Memory;
use qna_edges::{Cabinet, Gate, Sink, Status};
use qna_live::run_live;
use qna_parts::{carry_out, tell_usage};
use qna_trial::run_trial;
use std::alloc::Global;
use std::sync::Wait;
use std::thread::Threads;

/// Whether the first word is this one.
fn names(words: &[&str], command: &str) -> bool
    ensures { result ≡ begins_by command.now (words_in words.now) }
{
    match words {
        [word, ..] => *word == command,
        [] => false,
    }
}

/// Does all that the program does, by its words: `batch PLAN INPUT OUTPUT`, `check CERT`, `trial SEED ITEMS YEARS
/// WORKERS`, or `live PLAN JOURNAL IN OUT ..` with one to sixteen pairs and, anywhere behind the first word,
/// `--workers N`; words of any other form are `Usage`, or want of memory, and touch no file. The runtime and the gate
/// serve `live`, whose desks wait for one another.
#[tactic(auto, using(qna_laws::proofs::Certified::releases_certified, crate::proofs::Branches::branches))]
pub fn run<R: Threads + Wait + Sync, C: Cabinet, K: Sink, G: Gate>(
    rt: &R,
    alloc: Global,
    words: &[&str],
    cabinet: &mut C,
    report: &mut K,
    gate: &G,
) -> Status
    ensures usage { result ≡ Status.Usage → HasNoForm (words_in words.now) }
    ensures form { HasNoForm (words_in words.now) →
        (result ≡ Status.Usage) ⊎ (result ≡ Status.Memory) }
    ensures untouched { HasNoForm (words_in words.now) → cabinet.new ≡ cabinet.old }
    ensures quiet { HasNoForm (words_in words.now) → result ≡ Status.Memory →
        report.new ≡ report.old }
    ensures told { result ≡ Status.Usage →
        Writes (K.paper report.old) (K.paper report.new) (codes "usage\n") }
    ensures certified { ReleasesAreCertified }
    ensures ends { OnBatch (words_in words.now) (λ plan input output.
        IsBatchEnd (C.shelves cabinet.old) (C.shelves cabinet.new)
        (K.paper report.old) (K.paper report.new) plan input output result) }
    ensures checked { OnCheck (words_in words.now) (λ name.
        IsCheckEnd (C.shelves cabinet.old) (C.shelves cabinet.new)
        (K.paper report.old) (K.paper report.new) name result) }
    ensures lived { OnLive (words_in words.now) (λ form.
        IsLiveEnd (C.shelves cabinet.old) (C.shelves cabinet.new)
        (K.paper report.old) (K.paper report.new) form result) }
    ensures tried { OnTrial (words_in words.now) (λ form.
        IsTrialEnd (K.paper report.old) (K.paper report.new) form result) }
    ensures fileless { OnTrial (words_in words.now) (λ form. cabinet.new ≡ cabinet.old) }
{
    if names(words, "check") {
        return run_check(alloc, words, cabinet, report);
    }
    if names(words, "live") {
        return run_live(rt, alloc, words, cabinet, report, gate);
    }
    if names(words, "trial") {
        return run_trial(alloc, words, report);
    }
    run_batch(alloc, words, cabinet, report)
}

/// Carries out the command `batch PLAN INPUT OUTPUT`: reads the plan, at most 2^20 bytes, takes the input, at most 2^30
/// bytes, line by line, reports each refused line of it, and writes the release of all accepted inputs to the output.
#[tactic(auto, using(qna_laws::proofs::Certified::releases_certified, command_words::proofs::Callers::on_batch, crate::proofs::Wanting::batch_wanting))]
pub fn run_batch<C: Cabinet, K: Sink>(
    alloc: Global,
    words: &[&str],
    cabinet: &mut C,
    report: &mut K,
) -> Status
    ensures usage { result ≡ Status.Usage → is_batch (words_in words.now) ≡ false }
    ensures form { is_batch (words_in words.now) ≡ false →
        (result ≡ Status.Usage) ⊎ (result ≡ Status.Memory) }
    ensures untouched { is_batch (words_in words.now) ≡ false → cabinet.new ≡ cabinet.old }
    ensures quiet { is_batch (words_in words.now) ≡ false → result ≡ Status.Memory →
        report.new ≡ report.old }
    ensures told { result ≡ Status.Usage →
        Writes (K.paper report.old) (K.paper report.new) (codes "usage\n") }
    ensures certified { ReleasesAreCertified }
    ensures ends { OnBatch (words_in words.now) (λ plan input output.
        IsBatchEnd (C.shelves cabinet.old) (C.shelves cabinet.new)
        (K.paper report.old) (K.paper report.new) plan input output result) }
{
    let plain = match plain_words(alloc, words) {
        Ok(Some(plain)) => plain,
        Ok(None) => return tell_usage(report),
        Err(Memory) => return Status::Memory,
    };
    match batch_words(alloc, &plain) {
        Ok(Some(names)) => {
            let BatchWords {
                plan,
                input,
                output,
            } = names;
            carry_out(alloc, &Releases, plan, input, output, cabinet, report)
        }
        Ok(None) => tell_usage(report),
        Err(Memory) => Status::Memory,
    }
}

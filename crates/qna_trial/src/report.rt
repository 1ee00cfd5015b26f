//! The report of a trial.

ghost use Rattle.std.specs.Prelude.{◌≡◌, ◌++◌, IfOk, OnOk};
ghost use Rattle.command_words.specs.TrialWords.{trial_view};
ghost use Rattle.qna_trial.specs.Trial.{figures_view, level_line, number_line, report_text, words_line};

use crate::figures::Figures;
use command_words::TrialWords;
use itoa::Buffer;
use price_base::Cell;
use qna_base::Memory;
use release_print::{cell_text, push_line};
use std::alloc::Global;

/// The text of a report.
pub(crate) fn print_report(
    alloc: Global,
    said: TrialWords,
    figures: &Figures,
) -> Result<Vec<u8>, Memory>
    ensures { IfOk result (λ text.
        text.items ≡ report_text (trial_view said) (figures_view figures.now)) }
{
    let mut text = Vec::new(alloc);
    push_words(&mut text, said)?;
    push_number(&mut text, b"inputs", figures.inputs)?;
    push_number(&mut text, b"benchmarked", figures.benchmarked)?;
    push_level(&mut text, &figures.level)?;
    push_line(&mut text, b"same", &[])?;
    Ok(text)
}

/// Appends the line of the words.
fn push_words(text: &mut Vec<u8>, said: TrialWords) -> Result<(), Memory>
    ensures { OnOk result (text.new.items ≡ text.old.items ++ words_line (trial_view said)) }
{
    let mut seed = Buffer::new();
    let mut items = Buffer::new();
    let mut years = Buffer::new();
    let mut workers = Buffer::new();
    push_line(
        text,
        b"trial",
        &[
            seed.format(said.seed).as_bytes(),
            items.format(said.items).as_bytes(),
            years.format(said.years).as_bytes(),
            workers.format(said.workers).as_bytes(),
        ],
    )
}

/// Appends the line of a word and a number.
fn push_number(text: &mut Vec<u8>, word: &[u8], number: u64) -> Result<(), Memory>
    ensures { OnOk result (text.new.items ≡ text.old.items ++ number_line word.now number) }
{
    let mut buffer = Buffer::new();
    push_line(text, word, &[buffer.format(number).as_bytes()])
}

/// Appends the line of the level.
fn push_level(text: &mut Vec<u8>, level: &Cell) -> Result<(), Memory>
    ensures { OnOk result (text.new.items ≡ text.old.items ++ level_line level.now) }
{
    let mut buffer = Buffer::new();
    push_line(text, b"level", &[cell_text(level, &mut buffer)])
}

//! The words of the command `trial`.

ghost use Rattle.std.specs.Prelude.{◌≡◌, ◌≤◌, IfOk, IfSome, false};
ghost use Rattle.std.specs.List.{list_any};
ghost use Rattle.std.specs.Option.{option_map};
ghost use Rattle.command_words.specs.Command.{words_in};
ghost use Rattle.command_words.specs.TrialWords.{IsTrial, count_within, form_of_texts, trial_form, trial_view};
ghost use Rattle.command_words.specs.Words.{begins_with_dash};

use crate::texts::texts_of;
use crate::words::{PlainWords, is_first, number_at_most};
use qna_base::Memory;
use std::alloc::Global;

/// The most items of a trial.
const MOST_ITEMS: u16 = 512;

/// The most years.
const MOST_YEARS: u16 = 64;

/// The most workers.
const MOST_WORKERS: u16 = 16;

/// What the words of `trial` say.
#[derive(Clone, Copy)]
pub struct TrialWords {
    /// The number from which all values are drawn.
    pub seed: u64,
    /// How many items there are, from 1 to 512.
    pub items: u16,
    /// How many years, from 1 to 64.
    pub years: u16,
    /// In how many parts the leaves are compiled, from 1 to 16.
    pub workers: u16,
}

/// Reads the words `trial SEED ITEMS YEARS WORKERS`: a seed of 64 bits, 1 to 512 items, 1 to 64 years and 1 to 16
/// workers, each a number of one to twenty digits. `None` is the answer exactly where they have another form.
pub fn trial_words(alloc: Global, plain: &PlainWords<'_>) -> Result<Option<TrialWords>, Memory>
    requires { list_any begins_with_dash (words_in plain.now.plain.items) ≡ false }
    ensures read { IfOk result (λ read. option_map trial_view read
        ≡ trial_form (words_in plain.now.plain.items)) }
    ensures within { IfOk result (λ read. IfSome read (λ said. IsTrial (trial_view said))) }
{
    if !is_first(&plain.plain, "trial") {
        return Ok(None);
    }
    let Some(texts) = texts_of(alloc, &plain.plain, 4, 4)? else {
        return Ok(None);
    };
    let [seed, items, years, workers] = texts.as_slice() else {
        return Ok(None);
    };
    Ok(said_by(seed, items, years, workers))
}

/// What four texts behind `trial` say.
fn said_by(seed: &str, items: &str, years: &str, workers: &str) -> Option<TrialWords>
    ensures read { option_map trial_view result
        ≡ form_of_texts seed.now items.now years.now workers.now }
    ensures within { IfSome result (λ said. IsTrial (trial_view said)) }
{
    Some(TrialWords {
        seed: number_at_most(seed, u64::MAX)?,
        items: count_at_most(items, MOST_ITEMS)?,
        years: count_at_most(years, MOST_YEARS)?,
        workers: count_at_most(workers, MOST_WORKERS)?,
    })
}

/// The number that a word spells, if it is from 1 to a number.
fn count_at_most(word: &str, most: u16) -> Option<u16>
    ensures value { result ≡ count_within most word.now }
    ensures within { IfSome result (λ number. (1 ≤ number) × (number ≤ most)) }
{
    match number_at_most(word, u64::from(most)) {
        None | Some(0) => None,
        Some(number) => Some(number as u16),
    }
}

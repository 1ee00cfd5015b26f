//! The words of the command `live`.

ghost use Rattle.std.specs.Prelude.{◌≡◌, ◌≤◌, ◌∷◌, IfOk, IfSome, false, length, map, codes};
ghost use Rattle.std.specs.List.{list_any};
ghost use Rattle.std.specs.Option.{option_map};
ghost use Rattle.std.specs.Str.{bytes_eq};
ghost use Rattle.command_words.specs.Command.{words_in};
ghost use Rattle.command_words.specs.LiveWords.{are_different_names as are_different_names_of};
ghost use Rattle.command_words.specs.LiveWords.{desks_in, form_of_plain, workers_in};
ghost use Rattle.command_words.specs.Views.{IsForm, files_of, live_view};
ghost use Rattle.command_words.specs.Words.{begins_with_dash, plain_view};

use crate::names::is_file_name;
use crate::texts::texts_of;
use crate::words::{PlainWords, is_first, number_at_most};
use qna_base::Memory;
use std::alloc::Global;

/// The most workers.
const MOST_WORKERS: u64 = 16;

/// How many workers there are where the words don't say.
const WORKERS: u16 = 2;

/// The fewest texts behind the first word: a plan, a journal, and two for a desk.
const LEAST_TEXTS: usize = 4;

/// The most texts behind the first word, with sixteen desks.
const MOST_TEXTS: usize = 34;

/// The names of a desk's two files.
#[derive(Clone, Copy)]
pub struct DeskNames<'a> {
    /// The input's.
    pub input: &'a str,
    /// The output's.
    pub output: &'a str,
}

/// What the words of `live` say.
#[derive(Drop)]
pub struct LiveWords<'a> {
    /// The plan's name.
    pub plan: &'a str,
    /// The journal's name.
    pub journal: &'a str,
    /// The names of one to sixteen desks' files.
    pub desks: Vec<DeskNames<'a>>,
    /// How many workers there are, up to sixteen.
    pub workers: u16,
}

/// Reads the words `live PLAN JOURNAL IN OUT ..`, with one to sixteen pairs, and `--workers N` anywhere behind the
/// first, where N is a number of one to twenty digits and up to sixteen. `None` is the answer exactly where they have
/// another form, a name is none of a file's, or two names are the same.
pub fn live_words<'a>(
    alloc: Global,
    plain: &'a PlainWords<'_>,
) -> Result<Option<LiveWords<'a>>, Memory>
    requires { list_any begins_with_dash (words_in plain.now.plain.items) ≡ false }
    ensures read { IfOk result (λ read. option_map live_view read
        ≡ form_of_plain (plain_view plain.entry.now).plain (plain_view plain.entry.now).workers) }
    ensures form { IfOk result (λ read. IfSome read IsForm) }
{
    if !is_first(&plain.plain, "live") {
        return Ok(None);
    }
    let Some(texts) = texts_of(alloc, &plain.plain, LEAST_TEXTS, MOST_TEXTS)? else {
        return Ok(None);
    };
    said_by(alloc, &texts, plain.workers)
}

/// What four to thirty-four texts behind `live` say, with the word that says how many workers there are.
fn said_by<'a>(
    alloc: Global,
    texts: &[&'a str],
    word: Option<&str>,
) -> Result<Option<LiveWords<'a>>, Memory>
    requires least { 4 ≤ length texts.now }
    requires most { length texts.now ≤ 34 }
    ensures read { IfOk result (λ read. option_map live_view read
        ≡ form_of_plain (codes "live" ∷ words_in texts.now) (option_map (λ w. w.now) word.entry)) }
    ensures form { IfOk result (λ read. IfSome read IsForm) }
{
    let Some(workers) = workers_of(word) else {
        return Ok(None);
    };
    if !are_different_names(texts) {
        return Ok(None);
    }
    let (files, pairs) = texts.split_at(2);
    let Some(desks) = pairs_of(alloc, pairs)? else {
        return Ok(None);
    };
    Ok(Some(LiveWords {
        plan: files[0],
        journal: files[1],
        desks,
        workers,
    }))
}

/// How many workers a word says, if it says so, and two without one.
fn workers_of(word: Option<&str>) -> Option<u16>
    ensures { result ≡ workers_in (option_map (λ text. text.now) word.entry) }
{
    match word {
        None => Some(WORKERS),
        Some(word) => match number_at_most(word, MOST_WORKERS) {
            Some(number) => Some(number as u16),
            None => None,
        },
    }
}

/// Whether each of these names is a file's, and none stands twice.
fn are_different_names(names: &[&str]) -> bool
    ensures { result ≡ are_different_names_of (words_in names.now) }
{
    let mut rest = names;
    while let [name, others @ ..] = rest {
        if !is_file_name(name) || contains(others, name) {
            return false;
        }
        rest = others;
    }
    true
}

/// Whether a word is one of these.
fn contains(words: &[&str], word: &str) -> bool
    ensures { result ≡ list_any (bytes_eq word.now) (words_in words.now) }
{
    words.iter().any(|other| word == *other)
}

/// The texts two by two, if their number is even.
fn pairs_of<'a>(alloc: Global, texts: &[&'a str]) -> Result<Option<Vec<DeskNames<'a>>>, Memory>
    ensures { IfOk result (λ pairs. option_map (λ ps. map files_of ps.items) pairs
        ≡ desks_in (words_in texts.now)) }
{
    let mut pairs = Vec::new(alloc);
    let mut rest = texts;
    while let [input, output, others @ ..] = rest {
        pairs.push(DeskNames { input, output })?;
        rest = others;
    }
    if rest.is_empty() {
        Ok(Some(pairs))
    } else {
        Ok(None)
    }
}

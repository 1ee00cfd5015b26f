//! The words of a command, without the two that say how many workers there are.

ghost use Rattle.std.specs.Prelude.{◌≡◌, ◌≤◌, ◌&&◌, IfOk, IfSome, false, length, not};
ghost use Rattle.std.specs.List.{list_any, position_or_len};
ghost use Rattle.std.specs.Option.{option_map};
ghost use Rattle.command_words.specs.Command.{is_batch, is_check, words_in};
ghost use Rattle.command_words.specs.LiveWords.{number_within};
ghost use Rattle.command_words.specs.Words.{begins_by, begins_live, begins_with_dash as has_dash, is_workers};
ghost use Rattle.command_words.specs.Words.{plain_is, plain_of, plain_view, plain_with};

use qna_base::Memory;
use std::alloc::Global;

/// The word before the number of workers.
const WORKERS: &str = "--workers";

/// The words of a command but for the two that say how many workers there are.
#[derive(Drop)]
pub struct PlainWords<'a> {
    /// The other words, in their order.
    pub plain: Vec<&'a str>,
    /// The word that says how many, if there is one.
    pub workers: Option<&'a str>,
}

/// Tells the number of workers from the other words. `None` is the answer exactly where one of these rules is broken:
/// every word that begins with `-` is `--workers`; it stands at most once, and only where the first word is `live`; and
/// a word follows it.
pub fn plain_words<'a>(alloc: Global, words: &[&'a str]) -> Result<Option<PlainWords<'a>>, Memory>
    ensures read { IfOk result (λ read.
        option_map plain_view read ≡ plain_of (words_in words.now)) }
    ensures no_dash { IfOk result (λ read. IfSome read (λ said.
        list_any has_dash (words_in said.plain.items) ≡ false)) }
    ensures batch { IfOk result (λ read. is_batch (words_in words.now)
        ≡ plain_is is_batch (option_map plain_view read)) }
    ensures check { IfOk result (λ read. is_check (words_in words.now)
        ≡ plain_is is_check (option_map plain_view read)) }
{
    let (before, rest) = words.split_at(dash_place(words));
    with_workers(alloc, before, rest)
}

/// Tells them apart, where some words stand before the first that begins with `-` and the rest from it on.
fn with_workers<'a>(
    alloc: Global,
    before: &[&'a str],
    rest: &[&'a str],
) -> Result<Option<PlainWords<'a>>, Memory>
    requires { list_any has_dash (words_in before.now) ≡ false }
    ensures read { IfOk result (λ read. option_map plain_view read
        ≡ plain_with (words_in before.now) (words_in rest.now)) }
    ensures no_dash { IfOk result (λ read. IfSome read (λ said.
        list_any has_dash (words_in said.plain.items) ≡ false)) }
{
    let [option, after @ ..] = rest else {
        let plain = before.to_vec(alloc)?;
        return Ok(Some(PlainWords {
            plain,
            workers: None,
        }));
    };
    let [workers, later @ ..] = after else {
        return Ok(None);
    };
    if !say_workers(before, option, after) {
        return Ok(None);
    }
    let mut plain = before.to_vec(alloc)?;
    plain.extend_from_slice(later)?;
    Ok(Some(PlainWords {
        plain,
        workers: Some(workers),
    }))
}

/// Whether a word is `--workers`, stands behind `live`, and is the last that begins with `-`.
fn say_workers(before: &[&str], option: &str, after: &[&str]) -> bool
    ensures { result ≡ (is_workers option.now && begins_live (words_in before.now)
        && not (list_any has_dash (words_in after.now))) }
{
    option == WORKERS && is_first(before, "live") && !has_dash_word(after)
}

/// The place of the first word that begins with `-`, and the number of words where none does.
fn dash_place(words: &[&str]) -> usize
    ensures place { result ≡ position_or_len has_dash (words_in words.now) }
    ensures within { result ≤ length words.now }
{
    words
        .iter()
        .position(|word| begins_with_dash(word))
        .unwrap_or(words.len())
}

/// Whether one of these words begins with `-`.
fn has_dash_word(words: &[&str]) -> bool
    ensures { result ≡ list_any has_dash (words_in words.now) }
{
    words.iter().any(|word| begins_with_dash(word))
}

/// Whether the first word is this one.
pub(crate) fn is_first(words: &[&str], name: &str) -> bool
    ensures { result ≡ begins_by name.now (words_in words.now) }
{
    match words {
        [word, ..] => *word == name,
        [] => false,
    }
}

/// Whether a word begins with `-`.
fn begins_with_dash(word: &str) -> bool
    ensures { result ≡ has_dash word.now }
{
    match word.as_bytes() {
        [] => false,
        [first, ..] => *first == b'-',
    }
}

/// The number that a word spells, one to twenty decimal digits, if it is at most a number.
pub(crate) fn number_at_most(word: &str, most: u64) -> Option<u64>
    ensures { result ≡ number_within most word.now }
{
    let digits = word.as_bytes();
    if digits.is_empty() || digits.len() > 20 {
        return None;
    }
    let mut number = 0u64;
    for digit in digits {
        if !digit.is_ascii_digit() {
            return None;
        }
        number = number
            .checked_mul(10)?
            .checked_add(u64::from(*digit - b'0'))?;
    }
    if number <= most { Some(number) } else { None }
}

//! The texts behind the first word, read by `clap`.

ghost use Rattle.std.specs.Prelude.{◌≡◌, ◌<◌, ◌≤◌, IfOk, false};
ghost use Rattle.std.specs.List.{list_any};
ghost use Rattle.std.specs.Option.{option_map};
ghost use Rattle.command_words.specs.Command.{words_in};
ghost use Rattle.command_words.specs.Words.{begins_with_dash, texts_between};

use clap::error::ErrorKind;
use clap::{Arg, ArgAction, Command};
use qna_base::Memory;
use std::alloc::Global;

/// The texts behind the first word, if there are as many as a command of that word takes, and none else. The words are
/// plain ones.
pub(crate) fn texts_of<'a>(
    alloc: Global,
    words: &'a [&str],
    least: usize,
    most: usize,
) -> Result<Option<Vec<&'a str>>, Memory>
    requires plain { list_any begins_with_dash (words_in words.now) ≡ false }
    requires some { 0 < least }
    requires range { least ≤ most }
    ensures { IfOk result (λ texts. option_map (λ ts. words_in ts.items) texts
        ≡ texts_between least most (words_in words.entry.now)) }
{
    let texts = Arg::new(alloc, "texts")
        .required(true)
        .num_args(least..=most)
        .action(ArgAction::Set);
    let command = Command::new(alloc, "qna").arg(texts)?;
    match command.try_get_matches_from(words) {
        Ok(matches) => match matches.get_strs("texts") {
            Some(texts) => Ok(Some(texts.to_vec(alloc)?)),
            None => Ok(None),
        },
        Err(error) => match error.kind() {
            ErrorKind::OutOfMemory => Err(Memory),
            _ => Ok(None),
        },
    }
}

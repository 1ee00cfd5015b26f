//! The words of the commands `batch` and `check`.

ghost use Rattle.std.specs.Prelude.{◌≡◌, ◌≢◌, IfOk, IfSome, false, is_some};
ghost use Rattle.std.specs.List.{list_any};
ghost use Rattle.std.specs.Option.{option_map};
ghost use Rattle.command_words.specs.BatchWords.{batch_form, batch_view, check_form};
ghost use Rattle.command_words.specs.Command.{is_batch, is_check, words_in};
ghost use Rattle.command_words.specs.Words.{begins_with_dash};

use crate::names::{are_file_names, is_file_name};
use crate::texts::texts_of;
use crate::words::{PlainWords, is_first};
use qna_base::Memory;
use std::alloc::Global;

/// The names of the three files of `batch`.
#[derive(Clone, Copy)]
pub struct BatchWords<'a> {
    /// The plan's.
    pub plan: &'a str,
    /// The input's.
    pub input: &'a str,
    /// The output's.
    pub output: &'a str,
}

/// Reads the words `batch PLAN INPUT OUTPUT`. `None` is the answer exactly where they have another form, a name is none
/// of a file's, or two names are the same.
pub fn batch_words<'a>(
    alloc: Global,
    plain: &'a PlainWords<'_>,
) -> Result<Option<BatchWords<'a>>, Memory>
    requires { list_any begins_with_dash (words_in plain.now.plain.items) ≡ false }
    ensures read { IfOk result (λ read. option_map batch_view read
        ≡ batch_form (words_in plain.entry.now.plain.items)) }
    ensures form { IfOk result (λ read. is_some read
        ≡ is_batch (words_in plain.entry.now.plain.items)) }
    ensures plan_input { IfOk result (λ read. IfSome read (λ names.
        names.plan.now ≢ names.input.now)) }
    ensures plan_output { IfOk result (λ read. IfSome read (λ names.
        names.plan.now ≢ names.output.now)) }
    ensures input_output { IfOk result (λ read. IfSome read (λ names.
        names.input.now ≢ names.output.now)) }
{
    if !is_first(&plain.plain, "batch") {
        return Ok(None);
    }
    let Some(texts) = texts_of(alloc, &plain.plain, 3, 3)? else {
        return Ok(None);
    };
    let [plan, input, output] = texts.as_slice() else {
        return Ok(None);
    };
    if !are_file_names(plan, input, output) {
        return Ok(None);
    }
    Ok(Some(BatchWords {
        plan,
        input,
        output,
    }))
}

/// Reads the words `check CERT`. `None` is the answer exactly where they have another form or the name is none of a
/// file's.
pub fn check_words<'a>(alloc: Global, plain: &'a PlainWords<'_>) -> Result<Option<&'a str>, Memory>
    requires { list_any begins_with_dash (words_in plain.now.plain.items) ≡ false }
    ensures read { IfOk result (λ read. option_map (λ name. name.now) read
        ≡ check_form (words_in plain.entry.now.plain.items)) }
    ensures form { IfOk result (λ read. is_some read
        ≡ is_check (words_in plain.entry.now.plain.items)) }
{
    if !is_first(&plain.plain, "check") {
        return Ok(None);
    }
    let Some(texts) = texts_of(alloc, &plain.plain, 1, 1)? else {
        return Ok(None);
    };
    let [name] = texts.as_slice() else {
        return Ok(None);
    };
    if !is_file_name(name) {
        return Ok(None);
    }
    Ok(Some(name))
}

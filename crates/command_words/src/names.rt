//! Which words may name a file.

ghost use Rattle.std.specs.Prelude.{◌≡◌, ◌≢◌, true};
ghost use Rattle.command_words.specs.Command.{is_file_name as is_file_name_of, are_file_names as are_file_names_of};

/// Whether a word may name a file: it isn't empty and doesn't begin with `-`.
pub(crate) fn is_file_name(word: &str) -> bool
    ensures { result ≡ is_file_name_of word.now }
{
    match word.as_bytes() {
        [] => false,
        [first, ..] => *first != b'-',
    }
}

/// Whether the three names of files are right and different.
pub(crate) fn are_file_names(plan: &str, input: &str, output: &str) -> bool
    ensures value { result ≡ are_file_names_of plan.now input.now output.now }
    ensures plan_input { result ≡ true → plan.now ≢ input.now }
    ensures plan_output { result ≡ true → plan.now ≢ output.now }
    ensures input_output { result ≡ true → input.now ≢ output.now }
{
    is_file_name(plan)
        && is_file_name(input)
        && is_file_name(output)
        && plan != input
        && plan != output
        && input != output
}

//! What a written journal is worth to its reader, as laws.

ghost use Rattle.qna_laws.specs.Journals.{AreJournalsFixed, AreJournalsRead};

use accounts_history::lawful_histories_are_within_bounds;
use period_keys::written_is_read;

/// The text that is written for the journal of a lawful history of desks is an input: no line of it is refused, and the
/// accepted inputs are those of the journal, in order.
pub fn written_journals_are_read()
    ensures { AreJournalsRead }
{
    lawful_histories_are_within_bounds();
    written_is_read();
}

/// Of two lawful histories of desks, those whose journals are written alike have the same journal: the same inputs of
/// the same desks, in the same order.
pub fn written_journals_fix_what_was_accepted()
    ensures { AreJournalsFixed }
{
    lawful_histories_are_within_bounds();
    written_is_read();
}

//! What the ends of `live` are worth, as laws.

ghost use Rattle.qna_live.specs.Certified.{JournalsAreCertified};
ghost use Rattle.qna_live.specs.Laws.{DeskSends, LiveBatches, LiveCompletes, LiveHasCauses};

use accounts_history::lawful_histories_are_within_bounds;
use compile_workers::sole_desk_sends;
use qna_laws::written_journals_are_read;
use series_tables::spelled_plans_are_plans;

/// Law: each end of `live` but `Done` and `Memory` has its cause in a file that the words name, or in the report.
pub fn lives_have_causes()
    ensures { LiveHasCauses }
{}

/// Law: where no count rose, the plan is right and all files are within their limits, an end of `live` is whole or for
/// want of memory.
pub fn lives_complete()
    ensures { LiveCompletes }
{}

/// Law: the first inputs of a journal, as many as one likes, are those that are accepted of some text, and what is
/// compiled of them is worth what every release is. So it is of each release that a desk is shown, and of the report.
pub fn journals_are_certified()
    ensures { JournalsAreCertified }
{
    written_journals_are_read();
    spelled_plans_are_plans();
}

/// Law: where one desk alone was served and ended at its input's end, the inputs of the journal are those that are
/// accepted of its input.
pub fn one_desk_sends()
    ensures { DeskSends }
{
    sole_desk_sends();
    lawful_histories_are_within_bounds();
}

/// Law: where `live` with one desk ends with `Done`, the report is the release of all accepted inputs of the desk's
/// input, which is what `batch` writes of it.
pub fn one_desk_batches()
    ensures { LiveBatches }
{
    sole_desk_sends();
    lawful_histories_are_within_bounds();
}

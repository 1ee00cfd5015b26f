//! The command `batch`: what every end of it is worth.

ghost use Rattle.qna_cli.specs.Batch.{BatchesRelease, BatchesComplete};

use qna_parts::commands_complete;

/// Law: where `batch` ends with `Done`, the output holds the release of all accepted inputs, compiled from scratch, the
/// report has the line of each refused one, and the release is worth what every release is.
pub fn batches_release()
    ensures { BatchesRelease }
{}

/// Law: where no count rose, the plan is right and both files are within their limits, an end of `batch` is whole or
/// for want of memory.
pub fn batches_complete()
    ensures { BatchesComplete }
{
    commands_complete();
}

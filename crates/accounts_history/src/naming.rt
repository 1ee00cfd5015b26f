//! The leaves that the last inputs of a journal name.

ghost use Rattle.std.specs.Prelude.{◌≡◌, ◌≤◌, ◌<◌, ◌+◌, ◌||◌, ◌∷◌, [], ℕ, All, IfOk, length, drop, false};
ghost use Rattle.accounts_history.specs.History.{IsLawful, inputs_of, journal};
ghost use Rattle.accounts_history.specs.Naming.{AreNamed};
ghost use Rattle.dirty_plan.specs.Round.{has_flag};
ghost use Rattle.dirty_plan.specs.Touched.{inputs_between, names_leaf};

use crate::entry::Entry;
use qna_base::Memory;
use series_tables::Plan;
use std::alloc::Global;

/// A flag for each item of a plan, set for the leaves that the accepted inputs from a front to the last one name. The
/// history is a lawful one of this plan, and the later front is the number of its accepted inputs.
pub fn named_since(
    alloc: Global,
    plan: &Plan,
    history: &[Entry],
    front: u64,
    accepted: u64,
) -> Result<Vec<bool>, Memory>
    requires lawful { IsLawful plan.now history.now }
    requires accepted { accepted ≡ length (journal history.now) }
    requires front { front ≤ accepted }
    ensures all { IfOk result (λ flags. length flags.items ≡ length plan.now.names) }
    ensures named { IfOk result (λ flags. AreNamed flags.items
        (inputs_between (inputs_of history.now) front accepted)) }
{
    let mut flags = vec![in alloc; false; plan.len() as usize]?;
    mark_last(history, accepted - front, &mut flags);
    Ok(flags)
}

/// Sets the flags of the leaves that the last so many accepted inputs name.
fn mark_last(history: &[Entry], count: u64, flags: &mut [bool])
    requires enough { count ≤ length (inputs_of history.now) }
    requires leaves { All (λ input. input.leaf < length flags.old) (inputs_of history.now) }
    requires unset { AreNamed flags.old [] }
    ensures all { length flags.new ≡ length flags.old }
    ensures named { (front : ℕ) → front + count ≡ length (inputs_of history.now) →
        AreNamed flags.new (drop front (inputs_of history.now)) }
{
    let mut place = history.len();
    let mut left = count;
    while left > 0 {
        place -= 1;
        left -= mark(history[place], flags);
    }
}

/// Sets the flag of the leaf that an entry names, and says how many inputs the entry has: one or none.
fn mark(entry: Entry, flags: &mut [bool]) -> u64
    requires leaf { All (λ input. input.leaf < length flags.old) (inputs_of (entry ∷ [])) }
    ensures count { result ≡ length (inputs_of (entry ∷ [])) }
    ensures all { length flags.new ≡ length flags.old }
    ensures named { (leaf : ℕ) → has_flag flags.new leaf
        ≡ (names_leaf (inputs_of (entry ∷ [])) leaf || has_flag flags.old leaf) }
{
    match entry {
        Entry::Accept { input, .. } => {
            flags[input.leaf as usize] = true;
            1
        }
        Entry::Publish { .. } => 0,
    }
}

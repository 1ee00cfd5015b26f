//! What the lock asks of the value that it keeps.
ghost use Rattle.std.specs.Prelude.{◌≡◌, ℕ, List, length};

/// A value that stands for a list of entries, as a book stands for what was written in it.
///
/// The list, the party of an entry, the label and the test exist in contracts alone.
pub trait Story {
    /// One entry of the list.
    type Entry;

    /// What stays the same over the whole life of a value, and against which its list is tested.
    type Label;

    /// The entries of a value, the oldest first.
    ghost list: { Self → List Self.Entry };

    /// The number of the party that made an entry.
    ghost party: { Self.Entry → ℕ };

    /// The label of a value.
    ghost label: { Self → Self.Label };

    /// What every list has to meet beside its label.
    ghost test: { Self.Label → List Self.Entry → Type 0 };

    /// How many entries there are. It takes no memory.
    fn count(&self) -> u64
        ensures { result ≡ length (list self.now) };

    /// Every value's list meets the test beside its label.
    ghost passes: { (b : Self) → test (label b) (list b) };
}

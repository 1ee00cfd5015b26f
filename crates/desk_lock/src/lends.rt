//! The book of a hold. It has a file of its own, since its clause names the row of `Held`.
ghost use Rattle.std.specs.Prelude.{◌≡◌, []};
ghost use Rattle.std.specs.Borrow.{sem, Lends};
ghost use mir.Syntax.{named};
ghost use Rattle.desk_lock.specs.contracts.held.Held.{the_row};
ghost use Rattle.desk_lock.specs.Passes.{with_book};

use crate::held::Held;
use crate::story::Story;

impl<'a, B: Story> Held<'a, B> {
    /// The book. When the borrow ends, the hold has what was written through it.
    pub fn book(&mut self) -> &mut B
        ensures* writes_back { sem 𝓛 (Lends
            (the_row (record { mir = named 0; lft = [] }) B.row B.Entry.row B.Label.row B.Story)
            B.row self.entry result (with_book self.old)) }
        ensures value { result.now ≡ self.old.book }
    {
        &mut self.book
    }
}

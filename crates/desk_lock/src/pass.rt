//! What a party carries.
ghost use Rattle.std.specs.Prelude.{◌≡◌};

use crate::plays::Place;
use crate::story::Story;
use std::marker::Model;

/// A party's token for one lock. It takes no part in memory beyond the party's number.
///
/// Contracts see what it knows, a `Knowledge`: its lock, its party, the label of the book, the beginning of the
/// history that was seen, the parties whose passes were joined into it with the entries that each made, and, in one
/// pass of each lock, the parties that were ever given. A pass may go to another thread.
#[derive(Drop)]
pub struct Pass<B: Story> {
    pub(crate) seat: Place<B>,
    pub(crate) number: u16,
}

impl<B: Story> Model for Pass<B> {
    ghost use Rattle.std.specs.Prelude.{◌≡◌, [], false};
    ghost use Rattle.desk_lock.specs.Passes.{Knowledge, IsTested};
    ghost use Rattle.desk_lock.specs.Rules.{is_in_turn, shown};

    ghost Value = { Knowledge B.Entry B.Label };

    ghost view = { λ p. shown p.seat.table_id p.seat.me.0 };

    ghost invariant = { λ p.
        (p.seat.me.1 ≡ []) × (is_in_turn p.seat.me.0.phase ≡ false)
        × (p.seat.me.0.party ≡ p.number)
        × IsTested B.test (shown p.seat.table_id p.seat.me.0) };
}

impl<B: Story> Pass<B> {
    /// The number of the pass's party.
    pub fn party(&self) -> u16
        ensures { result ≡ self.now.party }
    {
        self.number
    }
}

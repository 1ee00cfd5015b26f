//! What the holder of the lock has.
ghost use Rattle.std.specs.Prelude.{◌≡◌, ◌≤◌, ◌+◌, ◌^◌, ◌==◌, [], ◌∷◌, length, Some, None, true, MatchBool};
ghost use Rattle.desk_lock.specs.Passes.{GrewBy, IsSameButSeen, IsTested};
ghost use Rattle.desk_lock.specs.Rules.{adding};
ghost use Rattle.desk_lock.specs.declared.plays.Phase.TheVariants.{Holding};

use crate::desk::Desk;
use crate::pass::Pass;
use crate::plays::{Add, ENTRIES, End, Place, SERVED, Show};
use crate::story::Story;
use std::marker::Model;

/// The lock while one party holds it, with the book. End it by `leave`: it can't be dropped.
///
/// Contracts see it as a `Loan`: the pass that was given for it, the list of the book as it was lent, and the book.
pub struct Held<'a, B: Story> {
    pub(crate) desk: &'a Desk<B>,
    pub(crate) seat: Place<B>,
    pub(crate) book: B,
    pub(crate) number: u16,
    pub(crate) count: u64,
}

impl<'a, B: Story> Model for Held<'a, B> {
    ghost use Rattle.std.specs.Prelude.{◌≡◌, [], ◌∷◌, None, length};
    ghost use Rattle.desk_lock.specs.Passes.{Loan};
    ghost use Rattle.desk_lock.specs.Rules.{shown};
    ghost use Rattle.desk_lock.specs.declared.plays.Phase.TheVariants.{Holding};

    ghost Value = { Loan B B.Entry B.Label };

    ghost view = { λ h. record {
      pass = shown h.seat.table_id h.seat.me.0;
      base = h.seat.me.0.base;
      book = h.book;
    } };

    ghost invariant = { λ h.
        (h.seat.table_id ≡ h.desk.now) × (h.seat.me.1 ≡ (0, None) ∷ [])
        × (h.seat.me.0.phase ≡ Holding) × (h.seat.me.0.party ≡ h.number)
        × (h.count ≡ length h.seat.me.0.base) };
}

impl<'a, B: Story> Held<'a, B> {
    /// Gives the lock back, and the pass, which has then seen the book's whole list. The book's label is as it was
    /// lent, and its list grew by one entry of this party or not at all, to at most 2^40 entries.
    pub fn leave(self) -> Pass<B>
        requires label { Some (B.label self.book) ≡ self.pass.label }
        requires grew { GrewBy B.party self.pass.party self.base (B.list self.book) }
        requires room { length (B.list self.book) ≤ 2 ^ 40 }
        ensures same { IsSameButSeen self.entry.pass result }
        ensures seen { result.seen ≡ B.list self.entry.book }
        ensures tested { IsTested B.test result }
    {
        let Held {
            desk,
            mut seat,
            book,
            number,
            count,
        } = self;
        put_back(desk, &mut seat, book, count);
        desk.table.shared.fetch_add::<End>(&mut seat, SERVED, 1);
        Pass { seat, number }
    }
}

// Puts the book into its slot, and then adds the new entry to the history, or looks at it where there is none.
fn put_back<B: Story>(desk: &Desk<B>, seat: &mut Place<B>, book: B, count: u64)
    requires table { seat.old.table_id ≡ desk.now }
    requires holds { (seat.old.me.1 ≡ (0, None) ∷ []) × (seat.old.me.0.phase ≡ Holding) }
    requires label { Some (B.label book) ≡ seat.old.me.0.label }
    requires count { count ≡ length seat.old.me.0.base }
    requires grew { GrewBy B.party seat.old.me.0.party seat.old.me.0.base (B.list book) }
    requires room { length (B.list book) ≤ 2 ^ 40 }
    ensures { (seat.new.table_id ≡ seat.old.table_id)
        × (seat.new.me ≡ (adding (B.list book) seat.old.me.0, (0, Some book) ∷ [])) }
{
    let grew = book.count() > count;
    let left = desk.table.shared.exchange(seat, 0, Some(book));
    let None = left else { unreachable!() };
    if grew {
        desk.table.shared.fetch_add::<Add>(seat, ENTRIES, 1);
    } else {
        desk.table.shared.load::<Show>(seat, ENTRIES);
    }
}

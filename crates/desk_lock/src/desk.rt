//! The lock.
ghost use Rattle.std.specs.Prelude.{◌≡◌, ◌≤◌, ◌%◌, ◌^◌, [], ◌∷◌, List, ℕ, length, Some, None, true, false, IfOk, IsOk};
ghost use mathlib.Core.List.{IsPrefix};
ghost use Rattle.desk_lock.specs.Passes.{IsPassOf, first_pass, IsSameButSeen, IsSameButGiven, IsNewcomer};
ghost use Rattle.desk_lock.specs.Passes.{IsClosed, IsTested, IsJoined, IsLastPass, is_in, is_named, account};
ghost use Rattle.desk_lock.specs.Passes.{entries_under, entries_by, own};
ghost use Rattle.desk_lock.specs.Rules.{taking, giving, newcomer, Lent};
ghost use Rattle.desk_lock.specs.declared.plays.Phase.TheVariants.{Resting, Waiting};

use crate::held::Held;
use crate::pass::Pass;
use crate::plays::{
    Compare, Cut, DRAWN, Draw, ENTRIES, Leave, Look, Merge, Named, Origin, Place, Rule, SERVED,
    Show, View,
};
use crate::story::Story;
use atomic_table::Table;
use qna_base::Memory;
use std::alloc::Global;
use std::marker::{Brand, Model};
use std::snapshot::Snapshot;
use std::sync::Wait;
use std::thread;

/// A lock that keeps a book. The book's list is the lock's history: it only grows, by one entry in each hold at most.
///
/// Contracts see a lock as its name, which tells locks apart. Several threads may share it by reference.
#[derive(Drop)]
pub struct Desk<B: Story> {
    pub(crate) table: Table<Option<B>, View<B::Entry, B::Label>, Origin<B>, Rule<B>, Global>,
}

impl<B: Story> Model for Desk<B> {
    ghost use Rattle.std.specs.Prelude.{◌≡◌};
    ghost use Rattle.desk_lock.specs.Passes.{LockName};

    ghost Value = { LockName };

    ghost view = { λ d. d.table.shared.table_id };

    ghost invariant = { λ d.
        (d.table.shared.table_id.words ≡ 3) × (d.table.shared.table_id.slots ≡ 1) };
}

/// A party had no pass made for it. The pass from which it was to be made comes back.
#[derive(Drop)]
pub enum Refused2<B: Story> {
    /// There was no memory.
    Memory(Pass<B>),
}

impl<B: Story> Desk<B> {
    /// A lock round a book that has no entry yet, and the first party's pass, the one that knows which parties were
    /// given. Where there is no memory, the book is dropped.
    pub fn new(alloc: Global, book: B, party: u16) -> Result<(Desk<B>, Pass<B>), Memory>
    where
        B: Drop,
        requires { B.list book ≡ [] }
        ensures pass { IfOk result (λ r. r.1 ≡ first_pass r.0 (B.label book) party) }
        ensures tested { IfOk result (λ r. IsTested B.test r.1) }
    {
        let about = Origin {
            book: Snapshot::of(&book),
            party,
        };
        let mut slots = Vec::new(alloc);
        slots.push(Some(book))?;
        let Ok((table, seat)) = Table::new(alloc, &[0, 0, 0], slots, &about) else {
            return Err(Memory);
        };
        let pass = Pass {
            seat,
            number: party,
        };
        Ok((Desk { table }, pass))
    }

    /// Waits for the lock, and holds it. The book has the pass's label, its list begins with what the pass has seen,
    /// and the pass's party made no entry in it beyond those.
    pub fn enter<'a, R: Wait>(&'a self, rt: &R, pass: Pass<B>) -> Held<'a, B>
        requires { IsPassOf self.now pass }
        ensures pass { result.pass ≡ pass }
        ensures label { Some (B.label result.book) ≡ pass.label }
        ensures begins { IsPrefix pass.seen (B.list result.book) }
        ensures own { entries_by B.party pass.party (B.list result.book) ≡ own B.party pass }
        ensures tested { IsTested B.test pass }
        ensures base { result.base ≡ B.list result.book }
        ensures room { length (B.list result.book) ≤ 2 ^ 40 }
    {
        let Pass { mut seat, number } = pass;
        let ticket = self.table.shared.fetch_add::<Draw>(&mut seat, DRAWN, 1);
        let book = self.take(rt, &mut seat, ticket);
        let count = book.count();
        Held {
            desk: self,
            seat,
            book,
            number,
            count,
        }
    }

    // Waits until the ticket is served, and takes the book.
    fn take<R: Wait>(&self, rt: &R, seat: &mut Place<B>, ticket: u64) -> B
        requires table { seat.old.table_id ≡ self.now }
        requires waits { (seat.old.me.1 ≡ []) × (seat.old.me.0.phase ≡ Waiting)
            × (ticket ≡ seat.old.me.0.ticket % 2 ^ 64) }
        ensures table { seat.new.table_id ≡ seat.old.table_id }
        ensures seat { seat.new.me ≡ (taking (B.list result) seat.old.me.0, (0, None) ∷ []) }
        ensures book { Lent B.list B.party B.label seat.old.me.0 result }
    {
        for _ in rt.forever() {
            if self.table.shared.load::<Look>(seat, SERVED) == ticket {
                let slot = self.table.shared.exchange(seat, 0, None);
                let Some(book) = slot else { unreachable!() };
                return book;
            }
            thread::yield_now();
        }
        unreachable!()
    }

    /// How many entries the history has, by a single load, while others may hold the lock. The pass has then seen
    /// so many, which are no fewer than before.
    pub fn history_now(&self, pass: &mut Pass<B>) -> u64
        requires { IsPassOf self.now pass.old }
        ensures count { result ≡ length pass.new.seen }
        ensures rises { length pass.old.seen ≤ result }
        ensures begins { IsPrefix pass.old.seen pass.new.seen }
        ensures own { own B.party pass.new ≡ own B.party pass.old }
        ensures same { IsSameButSeen pass.old pass.new }
        ensures tested { IsTested B.test pass.new }
    {
        self.table.shared.load::<Show>(&mut pass.seat, ENTRIES)
    }

    /// A pass for a party that wasn't given yet, from the pass that knows which were. The new pass has seen the same,
    /// and its party has made no entry. It takes no memory, so it isn't refused.
    pub fn split(&self, pass: Pass<B>, party: u16) -> Result<(Pass<B>, Pass<B>), Refused2<B>>
        requires desk { IsPassOf self.now pass }
        requires fresh { (pass.gives ≡ true) × (is_in party pass.given ≡ false) }
        ensures done { IsOk result }
        ensures first { IfOk result (λ r. IsSameButGiven party pass r.0) }
        ensures second { IfOk result (λ r. IsNewcomer party pass r.1 × (own B.party r.1 ≡ [])) }
        ensures tested { IfOk result (λ r. IsTested B.test r.0 × IsTested B.test r.1) }
    {
        let Pass { mut seat, number } = pass;
        self.table.shared.load::<Compare>(&mut seat, ENTRIES);
        let other = self.cut::<Brand>(&mut seat, party);
        let first = Pass { seat, number };
        let second = Pass {
            seat: other,
            number: party,
        };
        Ok((first, second))
    }

    // A new seat for the party that `N` names.
    fn cut<N: Named>(&self, seat: &mut Place<B>, party: u16) -> Place<B>
        requires table { seat.old.table_id ≡ self.now }
        requires rests { seat.old.me.0.phase ≡ Resting }
        requires fresh { (seat.old.me.0.gives ≡ true) × (is_in party seat.old.me.0.given ≡ false) }
        requires name { party ≡ N.party }
        ensures first { (seat.new.table_id ≡ seat.old.table_id)
            × (seat.new.me ≡ (giving party seat.old.me.0, seat.old.me.1)) }
        ensures second { (result.table_id ≡ seat.old.table_id)
            × (result.me ≡ (newcomer party seat.old.me.0, [])) }
    {
        self.table.shared.split_seat::<Cut<N>>(seat)
    }

    /// One pass of two, with the first one's party. It has seen the longer of the two lists, which both begin. The
    /// second one's party, and those that ended in it, end in this pass with the entries that they made.
    pub fn join(&self, a: Pass<B>, b: Pass<B>) -> Pass<B>
        requires first { IsPassOf self.now a }
        requires second { IsPassOf self.now b }
        ensures joined { IsJoined B.party a b result }
        ensures begins { IsPrefix a.seen result.seen × IsPrefix b.seen result.seen }
        ensures own { own B.party result ≡ own B.party a }
        ensures tested { IsTested B.test result }
    {
        let Pass { mut seat, number } = a;
        let Pass {
            seat: other,
            number: _,
        } = b;
        self.table.shared.join_seat::<Merge<B>>(&mut seat, other);
        self.table.shared.load::<Compare>(&mut seat, ENTRIES);
        Pass { seat, number }
    }

    /// Opens the lock for good, with the pass into which all others were joined, and gives the book back. Its list is
    /// what the pass has seen. Of each party it has the entries that stand under the party in the pass's account, each
    /// once and in order, and the parties of the account are those that were given. No call takes the pass any more.
    pub fn close(self, pass: Pass<B>) -> (B, Pass<B>)
        requires desk { IsPassOf self pass }
        requires last { IsLastPass B.party pass }
        ensures book { B.list result.0 ≡ pass.seen }
        ensures label { Some (B.label result.0) ≡ pass.label }
        ensures each { (p : ℕ) →
            entries_by B.party p (B.list result.0) ≡ entries_under p (account B.party pass) }
        ensures given { (p : ℕ) → is_in p pass.given ≡ is_named p (account B.party pass) }
        ensures closed { IsClosed pass result.1 }
        ensures tested { IsTested B.test result.1 }
    {
        let Pass { mut seat, number } = pass;
        let left = self.table.shared.split_seat::<Leave>(&mut seat);
        let Desk { table } = self;
        let mut closed = table.close_with(seat);
        let slot = closed.take(0);
        closed.free();
        let Some(book) = slot else { unreachable!() };
        let pass = Pass { seat: left, number };
        (book, pass)
    }
}

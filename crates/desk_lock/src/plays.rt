//! The rule of the table under the lock, and what each kind of step on it tells.
//!
//! Word 0 is the number of entries in the history, word 1 the number of tickets drawn, word 2 the ticket that is
//! served. Slot 0 holds the book, and nothing while a turn is held.
use crate::story::Story;
use atomic_table::{Join, Play, Seat, Split, TableRule};
use std::collections::LinkedList;
use std::marker::{Brand, PhantomData};
use std::snapshot::Snapshot;

/// The word that has the number of entries in the history.
pub(crate) const ENTRIES: usize = 0;

/// The word that has the number of tickets drawn.
pub(crate) const DRAWN: usize = 1;

/// The word that has the ticket that is served.
pub(crate) const SERVED: usize = 2;

/// What a seat is doing.
pub enum Phase {
    /// It makes no step any more.
    Spent,
    /// It has no ticket.
    Resting,
    /// It has a ticket that isn't served yet.
    Waiting,
    /// Its ticket is served, and the book is out with it.
    Holding,
}

/// What a seat knows. No value of it is made.
pub struct View<E, L> {
    pub phase: Phase,
    /// The ticket drawn last, counted from the first one without an end.
    pub ticket: u64,
    /// The list of the book that is out with it.
    pub base: LinkedList<E>,
    pub label: Option<L>,
    pub party: u64,
    pub seen: LinkedList<E>,
    pub ended: LinkedList<(u64, LinkedList<E>)>,
    /// Of the two lists that met in the last join, its own one.
    pub mine: LinkedList<E>,
    /// Of the two lists that met in the last join, the other.
    pub theirs: LinkedList<E>,
    pub gives: bool,
    pub given: LinkedList<u64>,
}

/// What the table is told as it is made: the book and the first party.
#[derive(Drop)]
pub struct Origin<B> {
    pub book: Snapshot<B>,
    pub party: u16,
}

/// The rule of the table.
pub struct Rule<B> {
    book: PhantomData<B>,
}

impl<B: Story> TableRule<Option<B>, View<B::Entry, B::Label>, Origin<B>> for Rule<B> {
    ghost use Rattle.desk_lock.specs.Rules.{Kept, first_view};

    ghost holds = { λ _. Kept B.list B.party B.label B.test };

    ghost first = { λ k. first_view (B.label k.book.value) k.party };
}

/// A seat at the table.
pub(crate) type Place<B> = Seat<Option<B>, View<<B as Story>::Entry, <B as Story>::Label>>;

/// A ticket is drawn.
pub(crate) struct Draw;

impl<B: Story> Play<Option<B>, View<B::Entry, B::Label>> for Draw {
    ghost use Rattle.desk_lock.specs.Rules.{Draws};

    ghost then = { Draws };
}

/// The seat looks whether its ticket is served, and takes the book if it is.
pub(crate) struct Look;

impl<B: Story> Play<Option<B>, View<B::Entry, B::Label>> for Look {
    ghost use Rattle.desk_lock.specs.Rules.{Looks};

    ghost then = { Looks B.list B.party B.label };
}

/// An entry is added to the history.
pub(crate) struct Add;

impl<B: Story> Play<Option<B>, View<B::Entry, B::Label>> for Add {
    ghost use Rattle.desk_lock.specs.Rules.{Adds};

    ghost then = { Adds B.list };
}

/// The turn is over.
pub(crate) struct End;

impl<B: Story> Play<Option<B>, View<B::Entry, B::Label>> for End {
    ghost use Rattle.desk_lock.specs.Rules.{Ends};

    ghost then = { Ends };
}

/// The number of entries is read, and the history so far is seen.
pub(crate) struct Show;

impl<B: Story> Play<Option<B>, View<B::Entry, B::Label>> for Show {
    ghost use Rattle.desk_lock.specs.Rules.{Shows};

    ghost then = { Shows B.party B.test };
}

/// The two lists that met in the last join are compared with the history.
pub(crate) struct Compare;

impl<B: Story> Play<Option<B>, View<B::Entry, B::Label>> for Compare {
    ghost use Rattle.desk_lock.specs.Rules.{Compares};

    ghost then = { Compares B.party B.test };
}

/// The number of a new party, which each call of `Desk::split` picks.
pub(crate) trait Named {
    ghost use Rattle.std.specs.Prelude.{ℕ};

    ghost party: { ℕ };
}

impl Named for Brand {
    ghost party = { 0 };
}

/// A new seat for the party `N`.
pub(crate) struct Cut<N> {
    name: PhantomData<N>,
}

impl<E, L, N: Named> Split<View<E, L>> for Cut<N> {
    ghost use Rattle.desk_lock.specs.Rules.{giving, newcomer};

    ghost left = { giving N.party };

    ghost right = { newcomer N.party };
}

/// A seat that shows what another does, and makes no step.
pub(crate) struct Leave;

impl<E, L> Split<View<E, L>> for Leave {
    ghost use Rattle.desk_lock.specs.Rules.{leaving};

    ghost left = { λ v. v };

    ghost right = { leaving };
}

/// Two seats are made one.
pub(crate) struct Merge<B> {
    book: PhantomData<B>,
}

impl<B: Story> Join<View<B::Entry, B::Label>> for Merge<B> {
    ghost use Rattle.desk_lock.specs.Rules.{joined, spent_view};

    ghost both = { joined B.party };

    ghost spent = { spent_view };
}

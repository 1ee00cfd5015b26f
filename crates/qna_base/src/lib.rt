//! The few words that every crate of the compiler speaks: want of memory, and a counter of steps that costs nothing.
#![tactic(auto)]

ghost use Rattle.std.specs.Prelude.{◌≡◌, ◌<◌, ◌+◌, ℕ};

use std::alloc::{AllocError, AllocFailed};
use std::marker::Model;
use std::sync::ledger::{Blank, Book, Ledger, Share};

/// Want of memory: the one answer that no clause ties to a cause. It is merged with no other fault.
#[derive(Clone, Copy, Debug, PartialEq, Eq, Drop)]
pub struct Memory;

impl From<AllocError> for Memory {
    fn from(_error: AllocError) -> Self {
        Memory
    }
}

impl<T: Drop> From<AllocFailed<T>> for Memory {
    fn from(failed: AllocFailed<T>) -> Self {
        let _ = failed;
        Memory
    }
}

/// How many steps were taken. It takes no bytes at run time, and only `tick` changes it.
#[derive(Drop)]
pub struct Steps<L: Ledger> {
    book: Book<L>,
    share: Share<L>,
}

impl<L: Ledger> Model for Steps<L> {
    ghost Value = { ℕ };

    ghost view = { λ s. s.book.total };

    ghost invariant = { λ s. 0 < s.share.parts };
}

impl<L: Ledger> Steps<L> {
    /// A counter that has counted no step yet. A caller makes the blank with one part or more, and picks its ledger as
    /// `L`.
    pub fn open(blank: Blank) -> Steps<L>
        requires name { blank.name ≡ L.name }
        requires parts { blank.parts ≡ L.parts }
        requires some { 0 < blank.parts }
        ensures { result ≡ 0 }
    {
        let (book, share) = blank.open::<L>();
        Steps { book, share }
    }

    /// Counts one step.
    pub fn tick(&mut self)
        ensures { self.new ≡ self.old + 1 }
    {
        self.book.add(&mut self.share, 1);
    }
}

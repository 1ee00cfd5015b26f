//! The office, and what its parties count.

use crate::book::CoreBook;
use desk_lock::Desk;
use std::alloc::Global;
use std::marker::Model;
use std::sync::atomic::{AtomicU64, Ordering};

/// The accounts of a plan, which desks and workers share. Each party comes with the pass that `Office::new` made.
///
/// Contracts see an office as the name of its lock. Several threads may share it by reference. Its plan is the label of
/// each of its passes.
#[derive(Drop)]
pub struct Office {
    pub(crate) alloc: Global,
    pub(crate) desk: Desk<CoreBook>,
    pub(crate) open: AtomicU64,
}

impl Model for Office {
    ghost use Rattle.desk_lock.specs.Passes.{LockName};

    ghost Value = { LockName };

    ghost view = { λ office. office.desk };
}

impl Office {
    /// Counts one open desk less. At none it wraps to 2^64 - 1.
    pub fn desk_ended(&self) {
        self.open.fetch_sub(1, Ordering::SeqCst);
    }

    /// How many desks are open: as many as the office began with, less those that ended.
    pub fn open_desks(&self) -> u64 {
        self.open.load(Ordering::SeqCst)
    }
}

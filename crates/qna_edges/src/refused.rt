// Why a call of the outside was refused.
ghost use Rattle.std.specs.Prelude.{◌≡◌};
ghost use Rattle.qna_edges.specs.declared.refused.Refused.TheVariants.{Memory as WantOfMemory};

use qna_base::Memory;
use std::alloc::{AllocError, AllocFailed};

/// A device failed at a read. The count of faults that it belongs to rose.
#[derive(Clone, Copy, Debug, PartialEq, Eq)]
pub struct Failed;

/// Why a call that also takes memory was refused.
#[derive(Clone, Copy, Debug, PartialEq, Eq)]
pub enum Refused {
    /// The device failed. The count of faults that it belongs to rose.
    Failed,
    /// Want of memory. No count of faults rose; a sink counts it among its wants.
    Memory,
}

impl From<Memory> for Refused {
    ghost from_gives = { λ _ refused. refused ≡ WantOfMemory };

    fn from(_memory: Memory) -> Self {
        Refused::Memory
    }
}

impl From<AllocError> for Refused {
    ghost from_gives = { λ _ refused. refused ≡ WantOfMemory };

    fn from(_error: AllocError) -> Self {
        Refused::Memory
    }
}

impl<T: Drop> From<AllocFailed<T>> for Refused {
    ghost from_gives = { λ _ refused. refused ≡ WantOfMemory };

    fn from(_failed: AllocFailed<T>) -> Self {
        Refused::Memory
    }
}

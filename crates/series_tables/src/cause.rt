//! Why a plan is refused.

ghost use Rattle.std.specs.Prelude.{◌≡◌};
ghost use Rattle.series_tables.specs.PlanError.{cause_text};
ghost use Rattle.series_tables.specs.declared.cause.PlanError.TheVariants.{Memory as NoMemory};

use qna_base::Memory;
use std::alloc::{AllocError, AllocFailed};
use thiserror::Error;

/// Why a line of a plan is refused: the first of these causes that applies, in this order.
#[derive(Clone, Copy, Debug, PartialEq, Eq)]
pub enum PlanCause {
    /// The line is long, isn't a record of the three forms, its year isn't four digits, or its name isn't a name.
    Form,
    /// No start year stands before the line, and it gives none. Also told of the line after the last, where no line
    /// gives a start year.
    NoStart,
    /// A second start year, a second reference year, or an item with a name that an item has.
    Twice,
    /// A start year outside 1900 to 2200, or a reference year that isn't one of the 64 from the start year on.
    Year,
    /// An item with a parent that no item before it has as its name.
    NoParent,
    /// An item after 512 items.
    TooMany,
}

impl PlanCause {
    /// The word that is printed for the cause.
    pub fn text(self) -> &'static str
        ensures { result.now ≡ cause_text self }
    {
        match self {
            PlanCause::Form => "form",
            PlanCause::NoStart => "nostart",
            PlanCause::Twice => "twice",
            PlanCause::Year => "year",
            PlanCause::NoParent => "noparent",
            PlanCause::TooMany => "toomany",
        }
    }
}

/// Why no plan was read.
#[derive(Clone, Copy, Debug, PartialEq, Eq, Drop, Error)]
pub enum PlanError {
    /// A line is refused: the first one, by its number from 1, and the cause.
    #[error("the plan is refused")]
    Fault {
        /// The line's number; that of the line after the last where no line is refused and none gives a start year.
        line: u64,
        /// The cause.
        cause: PlanCause,
    },
    /// Want of memory.
    #[error("out of memory")]
    Memory,
}

impl From<Memory> for PlanError {
    ghost from_gives = { λ _ e. e ≡ NoMemory };

    fn from(_want: Memory) -> PlanError {
        PlanError::Memory
    }
}

impl From<AllocError> for PlanError {
    ghost from_gives = { λ _ e. e ≡ NoMemory };

    fn from(_want: AllocError) -> PlanError {
        PlanError::Memory
    }
}

impl<T: Drop> From<AllocFailed<T>> for PlanError {
    ghost from_gives = { λ _ e. e ≡ NoMemory };

    fn from(_want: AllocFailed<T>) -> PlanError {
        PlanError::Memory
    }
}

//! Why a certificate's text is not read.

ghost use Rattle.std.specs.Prelude.{◌≡◌};
ghost use Rattle.cert_read.specs.declared.fault.CertFault.TheVariants.{Memory as NoMemory};

use qna_base::Memory;
use std::alloc::{AllocError, AllocFailed};
use thiserror::Error;

/// Why a text is no certificate. Lines are numbered from 1, and every line counts.
#[derive(Clone, Copy, Debug, PartialEq, Eq, Drop, Error)]
pub enum CertFault {
    /// The form is broken: the first line that isn't the one the form asks for. A missing line has the number after the
    /// last line's.
    #[error("line {0} is not the one that the form of a certificate asks for")]
    Shape(u64),
    /// The form is kept, and a number is out of range: the first line with such a number, or the line of the 257th
    /// indicator.
    #[error("the number of line {0} is out of range")]
    Range(u64),
    /// Want of memory.
    #[error("out of memory")]
    Memory,
}

impl From<Memory> for CertFault {
    ghost from_gives = { λ _ e. e ≡ NoMemory };

    fn from(_want: Memory) -> CertFault {
        CertFault::Memory
    }
}

impl From<AllocError> for CertFault {
    ghost from_gives = { λ _ e. e ≡ NoMemory };

    fn from(_want: AllocError) -> CertFault {
        CertFault::Memory
    }
}

impl<T: Drop> From<AllocFailed<T>> for CertFault {
    ghost from_gives = { λ _ e. e ≡ NoMemory };

    fn from(_want: AllocFailed<T>) -> CertFault {
        CertFault::Memory
    }
}

//! Why a stream isn't read on.
ghost use Rattle.std.specs.Prelude.{◌≡◌};
ghost use Rattle.xr_record.specs.declared.fault.FeedFault.TheVariants.{NoMemory};

use crate::rules::OpKind;
use std::alloc::{AllocError, AllocFailed};
use thiserror::Error;

/// Why a stream isn't read on.
#[derive(Clone, Copy, Debug, PartialEq, Eq, Error)]
pub enum FeedFault {
    /// The first operation that breaks a rule, by the place of its header in the stream.
    #[error("the operation at byte {place} of the stream is bad")]
    Op { place: u64, kind: OpKind },
    /// Want of memory.
    #[error("out of memory")]
    NoMemory,
}

impl From<AllocError> for FeedFault {
    ghost from_gives = { λ _ fault. fault ≡ NoMemory };

    fn from(_error: AllocError) -> FeedFault {
        FeedFault::NoMemory
    }
}

impl<T: Drop> From<AllocFailed<T>> for FeedFault {
    ghost from_gives = { λ _ fault. fault ≡ NoMemory };

    fn from(_error: AllocFailed<T>) -> FeedFault {
        FeedFault::NoMemory
    }
}

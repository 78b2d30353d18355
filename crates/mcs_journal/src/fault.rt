//! The errors that creating or opening a store can return.
ghost use Rattle.std.specs.Prelude.{◌≡◌};

use mcs_disk::DiskFault;
use std::alloc::{AllocError, AllocFailed};
use thiserror::Error;

/// An error of [`create`](crate::Store::create) or [`open`](crate::Store::open). The contracts
/// state which errors each of these functions can return (`IsCreateFault`, `IsOpenFault`).
#[derive(Clone, Copy, Debug, PartialEq, Eq, Error)]
pub enum StoreFault {
    /// `open` returns this error if the disk does not have the size and the name of a session file
    /// (refusal 50).
    #[error("not a session file")]
    NotASession,
    /// `open` returns this error if the size and the name are right, but the bytes do not hold a
    /// snapshot with its records (refusal 51).
    #[error("damaged")]
    Damaged,
    /// `create` and `open` return this error if a call on the disk failed (refusal 53).
    #[error("the device failed")]
    Device,
    /// `create` returns this error if the disk is not blank (refusal 55). A blank disk has the size
    /// of a session file, and its first 16 bytes are 0.
    #[error("not blank")]
    NotBlank,
    /// `create` and `open` return this error if memory runs out for a buffer, the snapshot or a
    /// record (refusal 90).
    #[error("out of memory")]
    NoMemory,
}

impl From<DiskFault> for StoreFault {
    ghost use Rattle.mcs_journal.specs.declared.fault.StoreFault.TheVariants.{Device};

    ghost from_gives = { λ _ e. e ≡ Device };

    fn from(_: DiskFault) -> Self {
        StoreFault::Device
    }
}

impl From<AllocError> for StoreFault {
    ghost use Rattle.mcs_journal.specs.declared.fault.StoreFault.TheVariants.{NoMemory};

    ghost from_gives = { λ _ e. e ≡ NoMemory };

    fn from(_: AllocError) -> Self {
        StoreFault::NoMemory
    }
}

impl<T: Drop> From<AllocFailed<T>> for StoreFault {
    ghost use Rattle.mcs_journal.specs.declared.fault.StoreFault.TheVariants.{NoMemory};

    ghost from_gives = { λ _ e. e ≡ NoMemory };

    fn from(_: AllocFailed<T>) -> Self {
        StoreFault::NoMemory
    }
}

//! The errors that opening a file can return.
ghost use Rattle.std.specs.Prelude.{◌≡◌, ◌≢◌, ◌⊎◌, ◌↔◌, IsTrue, MatchResult, false};
ghost use Rattle.std.specs.IoError.{error_kind};
ghost use Rattle.std.specs.declared.fs.locks.TryLockError.TheVariants.{WouldBlock};
ghost use Rattle.mcs_host.specs.declared.file_fault.FileFault.TheVariants.{InUse, CannotLock, NoMemory};
ghost use Rattle.mcs_host.specs.FileFaults.{IsFaultOfNumber, IsHostFault, fault_of_kind};

use crate::streams::Streams;
use std::alloc::AllocError;
use std::fs::TryLockError;
use std::io::{self, ErrorKind};
use thiserror::Error;

/// The number of the error that the host returns if the program has reached its limit of open files
/// (POSIX's EMFILE).
const PROGRAM_FILE_LIMIT_ERROR: i32 = 24;

/// The number of the error that the host returns if it has reached its own limit of open files
/// (POSIX's ENFILE).
const HOST_FILE_LIMIT_ERROR: i32 = 23;

/// The reason why a file was not opened. Each error that a user can act on has its own variant.
#[derive(Clone, Copy, Debug, PartialEq, Eq, Error)]
pub enum FileFault {
    /// Another program is using the file: it holds the lock, or it removed or replaced the file
    /// after this program had opened it.
    #[error("in use")]
    InUse,
    /// The host cannot lock this file. Some network file systems have no locks.
    #[error("no lock")]
    CannotLock,
    /// No file has this name, a folder of its path is missing, or a part of its path is not a
    /// folder.
    #[error("not there")]
    FileMissing,
    /// The program is not permitted to read and write the file, or the file system is read-only.
    #[error("no permission")]
    Denied,
    /// The name refers to a folder, not to a file.
    #[error("a folder")]
    Folder,
    /// The file is not a regular file. It is a device, for example.
    #[error("not a regular file")]
    NotAFile,
    /// The file's name, or a part of it, is too long.
    #[error("name too long")]
    NameTooLong,
    /// The device has no space for the file, or the file exceeds a quota or a size limit.
    #[error("no space")]
    NoSpace,
    /// The file was to be created or filled, but its folder cannot be synced. A power cut could
    /// lose the file's name.
    #[error("folder not synced")]
    FolderUnsynced,
    /// The program or the host has reached its limit of open files.
    #[error("too many open files")]
    TooManyFiles,
    /// The file is also one of the program's standard streams. The field says which streams.
    #[error("a standard stream")]
    Stream(Streams),
    /// The host does not say whether a standard stream is this file.
    #[error("standard streams unknown")]
    StreamsUnknown,
    /// The host rejected the file for a reason that has no variant of its own, or the file has the
    /// descriptor of a standard stream.
    #[error("refused")]
    Device,
    /// Memory ran out for the file's bytes, or for the path that a link leads to.
    #[error("out of memory")]
    NoMemory,
}

impl From<io::Error> for FileFault {
    ghost from_gives = { λ error fault. IsHostFault error fault };

    fn from(error: io::Error) -> Self {
        match fault_for_kind(error.kind()) {
            Some(fault) => fault,
            None => fault_for_number(error.raw_os_error()),
        }
    }
}

// Returns the [`FileFault`] for an error of this kind, or `None` if it has no variant for the kind.
fn fault_for_kind(kind: ErrorKind) -> Option<FileFault>
    ensures { result ≡ fault_of_kind kind }
{
    match kind {
        ErrorKind::NotFound | ErrorKind::NotADirectory => Some(FileFault::FileMissing),
        ErrorKind::PermissionDenied | ErrorKind::ReadOnlyFilesystem => Some(FileFault::Denied),
        ErrorKind::IsADirectory => Some(FileFault::Folder),
        ErrorKind::NotSeekable => Some(FileFault::NotAFile),
        ErrorKind::InvalidFilename => Some(FileFault::NameTooLong),
        ErrorKind::StorageFull | ErrorKind::QuotaExceeded | ErrorKind::FileTooLarge => {
            Some(FileFault::NoSpace)
        }
        _ => None,
    }
}

// Returns the [`FileFault`] for an error whose kind has no variant, given the host's error number.
fn fault_for_number(number: Option<i32>) -> FileFault
    ensures { IsFaultOfNumber number result }
{
    match number {
        Some(PROGRAM_FILE_LIMIT_ERROR | HOST_FILE_LIMIT_ERROR) => FileFault::TooManyFiles,
        _ => FileFault::Device,
    }
}

/// Returns true if `answer` is an error and says that the device is full or a quota is used up.
pub(crate) fn is_out_of_space(answer: &io::Result<()>) -> bool
    ensures { MatchResult answer.now (λ _. result ≡ false) (λ error. IsTrue result
        ↔ (error_kind error ≡ ErrorKind.StorageFull) ⊎ (error_kind error ≡ ErrorKind.QuotaExceeded)) }
{
    match answer {
        Ok(()) => false,
        Err(error) => matches!(
            error.kind(),
            ErrorKind::StorageFull | ErrorKind::QuotaExceeded
        ),
    }
}

impl From<TryLockError> for FileFault {
    ghost from_gives = { λ error fault. (error ≡ WouldBlock → fault ≡ InUse)
        × (error ≢ WouldBlock → fault ≡ CannotLock) };

    fn from(error: TryLockError) -> Self {
        match error {
            TryLockError::WouldBlock => FileFault::InUse,
            TryLockError::Error(_) => FileFault::CannotLock,
        }
    }
}

impl From<AllocError> for FileFault {
    ghost from_gives = { λ _ e. e ≡ NoMemory };

    fn from(_: AllocError) -> Self {
        FileFault::NoMemory
    }
}

//! The record of the calls on a file of the host.
use mcs_disk::Record;

/// An answered call on a file of the host. The `bool` is true if the call returned Ok and, for a question, the answer
/// was yes. The value does not contain the bytes or the name that were passed or returned; a `Record` stores them next
/// to the call.
#[derive(Clone, Copy)]
pub(crate) enum AnsweredRequest {
    /// A request to lock the file exclusively.
    Lock(bool),
    /// A question: does a name refer to the file?
    IsNamed(bool),
    /// A request for the length of the file, with the length that the host returned, or 0 if the
    /// call failed.
    Length(u64, bool),
    /// A request to set the length of the file to this number of bytes.
    SetLength(u64, bool),
    /// A request to read bytes at this offset.
    ReadAt(usize, bool),
    /// A request to write bytes at this offset.
    WriteAt(usize, bool),
    /// A request to sync the bytes of the file.
    SyncData(bool),
    /// A request to sync the bytes and the length of the file.
    SyncAll(bool),
    /// A request to sync the folder of the file.
    SyncFolder(bool),
    /// A question: is a name a symbolic link?
    IsLink(bool),
    /// A request for the real path of the file, without symbolic links.
    RealName(bool),
    /// The call that opened the file and created it if it was missing.
    OpenedOrCreated,
}

/// The record of an open file of the host: the name with which the file was opened, and the calls
/// on the file since then.
pub(crate) type HostRecord = Record<AnsweredRequest>;

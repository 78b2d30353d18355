//! The record of the calls on a disk.
use crate::record::Record;

/// A call that a disk has answered. The call does not contain the bytes of a write: a [`Record`]
/// stores them next to the call.
#[derive(Clone, Copy)]
pub enum Call {
    /// A read that returned Ok.
    Read,
    /// A write at this offset that returned Ok.
    Write(usize),
    /// A write at this offset that failed.
    FailedWrite(usize),
    /// A sync that returned Ok.
    Sync,
}

/// The record of the calls on one disk. The field `start` holds the bytes of the disk before any
/// call.
pub type CallRecord = Record<Call>;

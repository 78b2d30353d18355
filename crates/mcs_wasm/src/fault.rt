//! The reasons why a call fails.
use mcs_journal::StoreFault;
use thiserror::Error;

/// The reason why a call failed. A failed call changes neither the file nor the answer buffer.
#[derive(Clone, Copy, Debug, PartialEq, Eq, Error)]
pub enum ServeFault {
    /// The bytes do not hold a session (refusals 50 and 51), or memory ran out (refusal 90).
    #[error("{0}")]
    Refused(StoreFault),
    /// The answers do not fit into the buffer. The field is the number of bytes in the answers.
    #[error("the answers take {0} bytes, and the buffer has fewer")]
    NoRoom(usize),
}

//! The errors of a session's `apply` and `settle`.
use mcs_model::refusals::BenchFault;
use thiserror::Error;

/// The reason why a session's `apply` or `settle` failed. The failed call did not change the bench.
#[derive(Clone, Copy, Debug, PartialEq, Eq, Error)]
pub enum SessionFault {
    /// The bench rejects the command.
    #[error("{0}")]
    Refused(BenchFault),
    /// A call on the disk failed. The session is closed from then on.
    #[error("the device failed; open the session again")]
    Device,
    /// The session is closed, because an earlier call on the disk failed.
    #[error("the session is closed, because its device failed; open it again")]
    Closed,
}

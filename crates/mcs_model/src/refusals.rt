//! The reasons why a bench rejects commands, and the refusal number of each reason.
ghost use Rattle.std.specs.Prelude.{◌≡◌};
ghost use Rattle.mcs_model.specs.RefusalNumbers.{bench_fault_number};

use crate::refusal_numbers;
use thiserror::Error;

/// The reason why a bench rejects a command. A rejected command changes nothing.
#[derive(Clone, Copy, Debug, PartialEq, Eq, Error)]
pub enum BenchFault {
    /// The key is not on the board.
    #[error("the board has no such key")]
    NoKey,
    /// The address is in a ROM that is not on the board.
    #[error("the address is in a ROM that the board lacks")]
    NoRom,
    /// The location is in a RAM chip that is not on the board.
    #[error("the place is in a RAM chip that the board lacks")]
    NoSuchPlace,
    /// The run has 0 cycles, or more than 100,000.
    #[error("a run has 1 to 100,000 cycles")]
    BadCount,
    /// The maximum number of breakpoints is already set.
    #[error("all breakpoints are set")]
    BreaksFull,
    /// The session has already accepted the maximum number of commands.
    #[error("the session has accepted its last command")]
    CommandsExhausted,
    /// The maximum number of watches is already set.
    #[error("all watches are set")]
    WatchesFull,
}

impl BenchFault {
    /// Returns the refusal number of this error.
    pub fn number(self) -> u8
        ensures { result ≡ bench_fault_number self }
    {
        match self {
            BenchFault::NoKey => refusal_numbers::NO_KEY,
            BenchFault::NoRom => refusal_numbers::NO_ROM,
            BenchFault::NoSuchPlace => refusal_numbers::NO_SUCH_PLACE,
            BenchFault::BadCount => refusal_numbers::BAD_COUNT,
            BenchFault::BreaksFull => refusal_numbers::BREAKS_FULL,
            BenchFault::CommandsExhausted => refusal_numbers::COMMANDS_EXHAUSTED,
            BenchFault::WatchesFull => refusal_numbers::WATCHES_FULL,
        }
    }
}

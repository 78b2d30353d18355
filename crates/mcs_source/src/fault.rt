//! The errors that a line of a source text can have.
ghost use Rattle.std.specs.Prelude.{◌≡◌};
ghost use Rattle.mcs_source.specs.RefusalNumbers.{source_fault_number};

use mcs_model::refusal_numbers;
use thiserror::Error;

/// An error in a line of a source text.
#[derive(Clone, Copy, Debug, PartialEq, Eq, Error)]
pub enum SourceFault {
    /// The line does not parse as a source line (refusal 30).
    #[error("the line is not a statement")]
    BadStatement,
    /// The line defines a name that an earlier line defined (refusal 31).
    #[error("an earlier line defines the name")]
    DoubleName,
    /// The line uses a name that no line defines (refusal 32).
    #[error("no line defines the name")]
    UnknownName,
    /// A value is out of its range (refusal 33).
    #[error("a value is out of its range")]
    OutOfRange,
    /// The address in a JCN or ISZ is not on the page that the instruction can reach (refusal 34).
    #[error("the address is on another page")]
    WrongPage,
    /// The line emits a byte at an address that an earlier line has filled (refusal 35).
    #[error("an earlier line fills the address")]
    Overlap,
    /// The line has a label at address 4096 or above, or emits a byte there (refusal 36).
    #[error("the address is past the end of the ROM")]
    PastEnd,
    /// The line defines a 513th name (refusal 37).
    #[error("the text defines too many names")]
    TooManyNames,
}

impl SourceFault {
    /// Returns the refusal number of the error.
    pub fn number(self) -> u8
        ensures { result ≡ source_fault_number self }
    {
        match self {
            SourceFault::BadStatement => refusal_numbers::BAD_STATEMENT,
            SourceFault::DoubleName => refusal_numbers::DOUBLE_NAME,
            SourceFault::UnknownName => refusal_numbers::UNKNOWN_NAME,
            SourceFault::OutOfRange => refusal_numbers::OUT_OF_RANGE,
            SourceFault::WrongPage => refusal_numbers::WRONG_PAGE,
            SourceFault::Overlap => refusal_numbers::OVERLAP,
            SourceFault::PastEnd => refusal_numbers::PAST_END,
            SourceFault::TooManyNames => refusal_numbers::TOO_MANY_NAMES,
        }
    }
}

//! The errors that a board text can have.
ghost use Rattle.std.specs.Prelude.{◌≡◌};
ghost use Rattle.mcs_wiring.specs.RefusalNumbers.{wiring_fault_number};

use mcs_model::board::BoardFault;
use mcs_model::refusal_numbers;
use thiserror::Error;

/// The error in a text that does not describe a board. If several variants apply to the text, the
/// error is the first of them in this order. It is `NoMemory` if allocation failed.
#[derive(Clone, Copy, Debug, PartialEq, Eq, Error)]
pub enum WiringFault {
    /// The text is not TOML.
    #[error("the text is not TOML")]
    BadToml,
    /// An unknown key, at the top level or in the table of a part.
    #[error("no board has this key")]
    UnknownKey,
    /// The table of a part lacks a key.
    #[error("the table of a part lacks a key")]
    MissingKey,
    /// A value of the wrong type or form, a number out of range, or a key matrix without columns.
    #[error("a value has another type or form, or is out of its range")]
    BadValue,
    /// More parts of one kind, or more key columns, than a board can have.
    #[error("the board has too many parts of one kind")]
    TooManyParts,
    /// Two ROMs with the same chip number, or two entries for the same RAM bank.
    #[error("two parts have one chip number or one bank")]
    DoubleChip,
    /// The board lacks the key matrix's chain, a chain bit for one of the matrix's rows, or a line
    /// that the text uses.
    #[error("a line, a chain or a row's bit is not on the board")]
    NoSuchLine,
    /// A clock or data line is not an output line, a column is not an input line, or a lamp shows
    /// an input line.
    #[error("an input line is used as an output line, or an output line as an input line")]
    WrongDirection,
    /// Allocation failed. The text can be valid or invalid.
    #[error("out of memory")]
    NoMemory,
}

impl WiringFault {
    /// Returns the refusal number of the error.
    pub fn number(self) -> u8
        ensures { result ≡ wiring_fault_number self }
    {
        match self {
            WiringFault::BadToml => refusal_numbers::BAD_TOML,
            WiringFault::UnknownKey => refusal_numbers::UNKNOWN_KEY,
            WiringFault::MissingKey => refusal_numbers::MISSING_KEY,
            WiringFault::BadValue => refusal_numbers::BAD_VALUE,
            WiringFault::TooManyParts => refusal_numbers::TOO_MANY_PARTS,
            WiringFault::DoubleChip => refusal_numbers::DOUBLE_CHIP,
            WiringFault::NoSuchLine => refusal_numbers::NO_SUCH_LINE,
            WiringFault::WrongDirection => refusal_numbers::WRONG_DIRECTION,
            WiringFault::NoMemory => refusal_numbers::NO_MEMORY,
        }
    }
}

impl From<BoardFault> for WiringFault {
    ghost use Rattle.std.specs.Prelude.{◌≡◌};
    ghost use Rattle.mcs_wiring.specs.RefusalNumbers.{refusal_of};

    ghost from_gives = { λ fault e. e ≡ refusal_of fault };

    fn from(fault: BoardFault) -> WiringFault {
        match fault {
            BoardFault::BadValue => WiringFault::BadValue,
            BoardFault::NoSuchLine => WiringFault::NoSuchLine,
            BoardFault::WrongDirection => WiringFault::WrongDirection,
        }
    }
}

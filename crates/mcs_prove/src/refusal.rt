//! The reasons why a question has no outcome.
use mcs_asm::SourceFault;
use mcs_wiring::WiringFault;
use std::alloc::AllocError;
use thiserror::Error;

/// The reason why a question has no outcome.
#[derive(Clone, Copy, Debug, Error)]
pub enum Refusal {
    /// An allocation failed.
    #[error("out of memory")]
    NoMemory,
    /// `wire` rejects the board's text.
    #[error("the board's text: {0}")]
    Wiring(WiringFault),
    /// `asm` rejects the program's text. The fields are the line number, from 1, and the error in that line.
    #[error("line {0} of the program's text: {1}")]
    Program(usize, SourceFault),
    /// `asm` rejects the program's text because the board lacks a ROM that the program occupies.
    #[error("the board lacks a ROM of the program")]
    NoRom,
    /// A line of the question is invalid. The field is the line's number, from 1.
    #[error("line {0} of the question is invalid")]
    Line(usize),
    /// The question is incomplete or inconsistent, for one of these reasons:
    /// - It lacks the board's text, the program's text or the `prove` line.
    /// - Its stopwatch lacks its begin, its end or its limit.
    /// - It has marks without an `open` list, an `open` list without marks, or more than 200 marks.
    /// - It combines a stopwatch or marks with sets of values.
    #[error("the question lacks a text, its end, a part of its stopwatch or of its marks, or combines these with sets")]
    Incomplete,
}

impl From<AllocError> for Refusal {
    ghost use Rattle.std.specs.Prelude.{◌≡◌};
    ghost use Rattle.mcs_prove.specs.declared.refusal.Refusal.TheVariants.{NoMemory};

    ghost from_gives = { λ _ e. e ≡ NoMemory };

    fn from(_e: AllocError) -> Refusal {
        Refusal::NoMemory
    }
}

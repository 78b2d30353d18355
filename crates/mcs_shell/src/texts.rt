//! Texts: the line that ends a text, the errors in a text, and the meaning of a valid text. Some errors (`TextFault`)
//! do not depend on the meaning of the text's lines.
ghost use Rattle.std.specs.Prelude.{◌≡◌, None, IfOk};
ghost use Rattle.std.specs.List.{list_all, slice_split};
ghost use Rattle.std.specs.Result.{result_map_both};
ghost use Rattle.mcs_model.specs.TextLines.{is_line_feed};
ghost use Rattle.mcs_source.specs.Assembly.{assembly_of_text};
ghost use Rattle.mcs_source.specs.Survey.{survey_of_text};
ghost use Rattle.mcs_wiring.specs.Parts.{wiring_text};
ghost use Rattle.mcs_wiring.specs.Wiring.{board_of_text};
ghost use Rattle.mcs_asm.specs.Errors.{errors_of_text, errors_text};
ghost use Rattle.mcs_shell.specs.Inputs.{text_fault_of, is_dot_line, is_short_line, is_text_byte};
ghost use Rattle.mcs_shell.specs.TextMeanings.{Reports, load_command, program_map, meaning_of_text, meaning_view, wire_command};
ghost use Rattle.mcs_shell.specs.TextRefusalNumbers.{text_fault_number};

use mcs_asm::{FaultKind, SourceFault, assemble, errors, errors_text, survey, survey_text};
use mcs_lines::requests::TextKind;
use mcs_lines::words::{equals, is_allowed_byte};
use mcs_model::command::Command;
use mcs_model::limits::{LINE_BYTES, TEXT_BYTES};
use mcs_model::refusal_numbers;
use mcs_wiring::{WiringFault, board_of, wiring_text};
use std::alloc::{AllocError, Global};
use std::str;
use thiserror::Error;

/// An error in a text. The errors of this type do not depend on the meaning of the text's lines.
#[derive(Clone, Copy, Debug, Error)]
pub enum TextFault {
    /// Input ended inside the text.
    #[error("the input ended inside the text")]
    NoEnd,
    /// The text has too many bytes.
    #[error("the text has too many bytes")]
    TextTooLong,
    /// A line of the text has too many bytes.
    #[error("a line of the text has too many bytes")]
    LineTooLong,
    /// A byte of the text is neither a line feed, nor a tab, nor a printable ASCII character.
    #[error("a byte of the text is neither a tab nor a printing character of ASCII")]
    NotAscii,
}

impl TextFault {
    /// Returns the refusal number for the error.
    pub fn number(self) -> u8
        ensures { result ≡ text_fault_number self }
    {
        match self {
            TextFault::NoEnd => refusal_numbers::NO_END,
            TextFault::TextTooLong => refusal_numbers::TEXT_TOO_LONG,
            TextFault::LineTooLong => refusal_numbers::LINE_TOO_LONG,
            TextFault::NotAscii => refusal_numbers::NOT_ASCII,
        }
    }
}

/// Returns true if the line is a single dot, which ends a text.
pub fn ends_text(line: &[u8]) -> bool
    ensures { result ≡ is_dot_line line.now }
{
    equals(line, b".")
}

fn has_short_lines(text: &[u8]) -> bool
    ensures { result ≡ list_all is_short_line (slice_split is_line_feed text.now) }
{
    let mut count = 0;
    for byte in text {
        if *byte == b'\n' {
            count = 0;
        } else if count == LINE_BYTES {
            return false;
        } else {
            count += 1;
        }
    }
    true
}

fn has_only_text_bytes(text: &[u8]) -> bool
    ensures { result ≡ list_all is_text_byte text.now }
{
    text.iter().all(|b| *b == b'\n' || is_allowed_byte(*b))
}

/// Returns the first error in a complete text, or `None`. Does not check errors that depend on the meaning of the
/// text's lines.
#[tactic(auto, unfolding(crate::specs::Inputs::text_fault_of))]
pub fn text_fault(text: &[u8]) -> Option<TextFault>
    ensures { result ≡ text_fault_of text.now }
{
    if text.len() > TEXT_BYTES {
        Some(TextFault::TextTooLong)
    } else if !has_short_lines(text) {
        Some(TextFault::LineTooLong)
    } else if !has_only_text_bytes(text) {
        Some(TextFault::NotAscii)
    } else {
        None
    }
}

/// Converts the bytes of a text to a string. `text_fault` must return `None` for the text.
pub fn as_text(text: &[u8]) -> &str
    requires { text_fault_of text.now ≡ None }
    ensures { result.now ≡ text.now }
{
    match str::from_utf8(text) {
        Ok(text) => text,
        Err(_) => unreachable!(),
    }
}

/// The error that makes the text of a board or a program invalid.
#[derive(Clone, Copy, Debug, Error)]
pub enum TextRefusal {
    /// The text does not describe a board.
    #[error("{0}")]
    Wiring(WiringFault),
    /// The text is not a program. The fields are the number of the line with the error (the first line has number 1)
    /// and the error.
    #[error("line {0}: {1}")]
    Program(usize, SourceFault),
}

/// The meaning of a valid text: a command, or a report.
#[derive(Drop)]
pub enum TextMeaning {
    /// A command to execute.
    Executes(Command),
    /// Lines to return as the answer, each with its line feed. A text with this meaning has no other effect.
    Reports(Vec<u8>),
}

/// Parses the text of a board. Returns the command that replaces the bench's board with the parsed board, or the error
/// in the text. Fails if memory runs out.
fn read_board(alloc: Global, text: &str) -> Result<Result<Command, TextRefusal>, AllocError>
    ensures { IfOk result (λ parsed. parsed ≡ wire_command (board_of_text text.now)) }
{
    match board_of(alloc, text) {
        Ok(board) => Ok(Ok(Command::Wire(board))),
        Err(WiringFault::NoMemory) => Err(AllocError),
        Err(fault) => Ok(Err(TextRefusal::Wiring(fault))),
    }
}

/// Assembles the text of a program. Returns the command that loads the program's bytes, or the error in the text. Fails
/// if memory runs out.
fn read_program(alloc: Global, text: &str) -> Result<Result<Command, TextRefusal>, AllocError>
    ensures { IfOk result (λ parsed. parsed ≡ load_command (assembly_of_text text.now)) }
{
    match assemble(alloc, text) {
        Ok(image) => Ok(Ok(Command::Load(image))),
        Err(at) => match at.kind {
            FaultKind::NoMemory => Err(AllocError),
            FaultKind::Refused(fault) => Ok(Err(TextRefusal::Program(at.line, fault))),
        },
    }
}

/// Returns the answer to `map`: the map of a program, or the error in the program's text. Fails if memory runs out.
fn read_map(alloc: Global, text: &str) -> Result<Result<Vec<u8>, TextRefusal>, AllocError>
    ensures { IfOk result (λ meant.
        result_map_both (λ lines. Reports lines.items) (λ why. why) meant
        ≡ program_map (survey_of_text text.now)) }
{
    match survey(alloc, text) {
        Ok(survey) => Ok(Ok(survey_text(alloc, &survey)?)),
        Err(at) => match at.kind {
            FaultKind::NoMemory => Err(AllocError),
            FaultKind::Refused(fault) => Ok(Err(TextRefusal::Program(at.line, fault))),
        },
    }
}

/// Returns the answer to `wiring`: a report of the first error in a board's text, if any. Fails if memory runs out.
fn read_wiring(alloc: Global, text: &str) -> Result<Vec<u8>, AllocError>
    ensures { IfOk result (λ lines. lines.items ≡ wiring_text text.now) }
{
    Ok(wiring_text(alloc, text)?.into_bytes())
}

/// Returns the answer to `errors`: a report of the errors in a program's text. Fails if memory runs out.
fn read_errors(alloc: Global, text: &str) -> Result<Vec<u8>, AllocError>
    ensures { IfOk result (λ lines. lines.items ≡ errors_text (errors_of_text text.now)) }
{
    let errors = errors(alloc, text)?;
    errors_text(alloc, &errors)
}

/// Parses a text of the given kind. Returns the meaning of the text, or the error that makes the text invalid. Fails
/// if memory runs out.
#[tactic(auto, unfolding(crate::specs::TextMeanings::meaning_of_text))]
pub fn read_text(
    alloc: Global,
    kind: TextKind,
    text: &str,
) -> Result<Result<TextMeaning, TextRefusal>, AllocError>
    ensures { IfOk result (λ parsed.
        result_map_both meaning_view (λ why. why) parsed ≡ meaning_of_text kind text.now) }
{
    match kind {
        TextKind::Wire => Ok(read_board(alloc, text)?.map(TextMeaning::Executes)),
        TextKind::Asm => Ok(read_program(alloc, text)?.map(TextMeaning::Executes)),
        TextKind::Map => Ok(read_map(alloc, text)?.map(TextMeaning::Reports)),
        TextKind::Wiring => Ok(Ok(TextMeaning::Reports(read_wiring(alloc, text)?))),
        TextKind::Errors => Ok(Ok(TextMeaning::Reports(read_errors(alloc, text)?))),
    }
}

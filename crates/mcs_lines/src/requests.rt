//! Parses a command line into a request, or into the reason why the line is rejected.
ghost use Rattle.std.specs.Prelude.{[], ◌∷◌, ◌≡◌};
ghost use Rattle.std.specs.List.{list_all};
ghost use Rattle.mcs_lines.specs.RefusalNumbers.{line_fault_number};
ghost use Rattle.mcs_lines.specs.LineRequests.{request_of, request_of_words, trace_request};
ghost use Rattle.mcs_lines.specs.ReadNumbers.{or_bad_number};
ghost use Rattle.mcs_lines.specs.Requests.{cycle_count_of_word, listing, request_of_word, request_with_numbers};
ghost use Rattle.mcs_lines.specs.Words.{is_allowed_byte};
ghost use Rattle.mcs_model.specs.TextLines.{words_of};

use crate::numbers::{address, bank, bit, byte};
use crate::places::parse_poke;
use crate::probes::parse_probes;
use crate::words::{equals, is_allowed_byte, next_word};
use arrayvec::ArrayVec;
use mcs_model::command::Command;
use mcs_model::limits::{LINE_BYTES, LISTING_LINES, RUN_CYCLES};
use mcs_model::numeral::number_within;
use mcs_model::query::Query;
use mcs_model::refusal_numbers;
use mcs_nibble::Addr;
use mcs_probe::{MAX_PROBES, Probe};
use thiserror::Error;

/// The reason why a line is rejected.
#[derive(Clone, Copy, Debug, Error)]
pub enum LineFault {
    /// The words are not a command.
    #[error("the words are not a command")]
    NotACommand,
    /// A word is not a number, or the number is out of range.
    #[error("a word is not a number, or its number is out of its range")]
    BadNumber,
    /// The line has too many bytes.
    #[error("the line has too many bytes")]
    LineTooLong,
    /// A byte is neither a tab nor a printable ASCII character.
    #[error("a byte is neither a tab nor a printing character of ASCII")]
    NotAscii,
}

impl LineFault {
    /// Returns the refusal number of the error.
    pub fn number(self) -> u8
        ensures { result ≡ line_fault_number self }
    {
        match self {
            LineFault::NotACommand => refusal_numbers::NOT_A_COMMAND,
            LineFault::BadNumber => refusal_numbers::BAD_NUMBER,
            LineFault::LineTooLong => refusal_numbers::LINE_TOO_LONG,
            LineFault::NotAscii => refusal_numbers::NOT_ASCII,
        }
    }
}

/// The kind of a text that follows a command line.
#[derive(Clone, Copy, Debug)]
pub enum TextKind {
    /// A board to wire.
    Wire,
    /// A program to assemble and load.
    Asm,
    /// A program. The answer gives the address of each line, the number of bytes that the line assembles to, and the
    /// value of each name, or reports the first error.
    Map,
    /// A board. The answer reports its first error and the line of the error, or that the board
    /// text is valid.
    Wiring,
    /// A program. The answer reports its errors.
    Errors,
}

/// A parsed command line.
#[derive(Debug, Drop)]
pub enum Request {
    /// The line has no words.
    Nothing,
    /// The line is rejected.
    Refused(LineFault),
    /// A query about the bench's state, which does not change that state.
    Ask(Query),
    /// A ROM listing of 1 to [`LISTING_LINES`] lines, from an address.
    Listing(Addr, u16),
    /// The query for the text that describes the board.
    Board,
    /// A count of the instructions that a run would begin at each address. The run has 1 to [`RUN_CYCLES`] cycles.
    /// Counting does not change the bench.
    Count(u32),
    /// A trace of a run of 1 to [`RUN_CYCLES`] cycles. The trace reports each instruction that would change one of the
    /// places, or every instruction if no places are given. Tracing does not change the bench.
    Trace(u32, ArrayVec<Probe, MAX_PROBES>),
    /// A command that changes the bench.
    Change(Command),
    /// The start of a text. The next lines are that text.
    Begin(TextKind),
}

/// Parses a line that consists of the single word `word`. Rejects an unknown word with
/// `NotACommand`.
fn parse_one_word(word: &[u8]) -> Request
    ensures { result ≡ request_of_word word.now [] }
{
    if equals(word, b"step") {
        Request::Change(Command::Step)
    } else if equals(word, b"reset") {
        Request::Change(Command::Reset)
    } else if equals(word, b"lamps") {
        Request::Ask(Query::Lamps)
    } else if equals(word, b"regs") {
        Request::Ask(Query::Regs)
    } else if equals(word, b"breaks") {
        Request::Ask(Query::Breaks)
    } else if equals(word, b"watches") {
        Request::Ask(Query::Watches)
    } else if equals(word, b"seq") {
        Request::Ask(Query::Seq)
    } else if equals(word, b"state") {
        Request::Ask(Query::State)
    } else if equals(word, b"board") {
        Request::Board
    } else if equals(word, b"wire") {
        Request::Begin(TextKind::Wire)
    } else if equals(word, b"asm") {
        Request::Begin(TextKind::Asm)
    } else if equals(word, b"map") {
        Request::Begin(TextKind::Map)
    } else if equals(word, b"wiring") {
        Request::Begin(TextKind::Wiring)
    } else if equals(word, b"errors") {
        Request::Begin(TextKind::Errors)
    } else {
        Request::Refused(LineFault::NotACommand)
    }
}

/// Returns the request, or the refusal `BadNumber` if `request` is `None`.
pub(crate) fn or_bad_number(request: Option<Request>) -> Request
    ensures { result ≡ or_bad_number request }
{
    match request {
        Some(request) => request,
        None => Request::Refused(LineFault::BadNumber),
    }
}

/// Parses a number of cycles from 1 to [`RUN_CYCLES`]. Returns `None` for any other word.
fn parse_cycle_count(word: &[u8]) -> Option<u32>
    ensures { result ≡ cycle_count_of_word word.now }
{
    let n = number_within(word, RUN_CYCLES)?;
    if n == 0 { None } else { Some(n) }
}

/// Parses the arguments of `trace`: a number of cycles, then the places. An error in the places takes precedence over
/// a bad number of cycles.
fn parse_trace(line: &[u8]) -> Request
    ensures { result ≡ trace_request (words_of line.now) }
{
    let Some((n, places)) = next_word(line) else {
        return Request::Refused(LineFault::NotACommand);
    };
    match parse_probes(places) {
        Err(fault) => Request::Refused(fault),
        Ok(probes) => match parse_cycle_count(n) {
            None => Request::Refused(LineFault::BadNumber),
            Some(n) => Request::Trace(n, probes),
        },
    }
}

/// Parses a command with one argument. Returns `None` if the argument is not a number or is out of range. Returns the
/// refusal `NotACommand` if `word` is not a command with one argument.
fn parse_one_argument(word: &[u8], a: &[u8]) -> Option<Request>
    ensures { or_bad_number result ≡ request_of_word word.now (a.now ∷ []) }
{
    let request = if equals(word, b"run") {
        Request::Change(Command::Run(number_within(a, u32::MAX)?))
    } else if equals(word, b"test") {
        Request::Change(Command::Test(bit(a)?))
    } else if equals(word, b"break") {
        Request::Change(Command::Break(address(a)?))
    } else if equals(word, b"unbreak") {
        Request::Change(Command::Unbreak(address(a)?))
    } else if equals(word, b"ram") {
        Request::Ask(Query::Ram(bank(a)?))
    } else if equals(word, b"count") {
        Request::Count(parse_cycle_count(a)?)
    } else {
        Request::Refused(LineFault::NotACommand)
    };
    Some(request)
}

/// Parses the arguments of `list`: an address and a number of lines. Returns `None` if an argument is not a number or
/// is out of range.
fn parse_list(a: &[u8], n: &[u8]) -> Option<Request>
    ensures { or_bad_number result ≡ request_with_numbers 4095 a.now LISTING_LINES n.now listing }
{
    let at = address(a)?;
    let lines = number_within(n, LISTING_LINES)?;
    if lines == 0 {
        return None;
    }
    Some(Request::Listing(at, lines as u16))
}

/// Parses a command with two arguments. Returns `None` if an argument of `press`, `release`,
/// `watch` or `unwatch` is not a number or is out of range. Returns a refusal for any other error.
fn parse_two_arguments(word: &[u8], a: &[u8], b: &[u8]) -> Option<Request>
    ensures { or_bad_number result ≡ request_of_word word.now (a.now ∷ b.now ∷ []) }
{
    let request = if equals(word, b"poke") {
        parse_poke(a, b)
    } else if equals(word, b"press") {
        Request::Change(Command::Press(byte(a)?, byte(b)?))
    } else if equals(word, b"release") {
        Request::Change(Command::Release(byte(a)?, byte(b)?))
    } else if equals(word, b"watch") {
        Request::Change(Command::Watch(bank(a)?, byte(b)?))
    } else if equals(word, b"unwatch") {
        Request::Change(Command::Unwatch(bank(a)?, byte(b)?))
    } else if equals(word, b"list") {
        or_bad_number(parse_list(a, b))
    } else {
        Request::Refused(LineFault::NotACommand)
    };
    Some(request)
}

/// Parses a line from its first word and the bytes after this word. Rejects `trace`, which [`parse_words`] handles.
fn parse_command(word: &[u8], rest: &[u8]) -> Request
    ensures { result ≡ request_of_word word.now (words_of rest.now) }
{
    let Some((first, rest)) = next_word(rest) else {
        return parse_one_word(word);
    };
    let Some((second, rest)) = next_word(rest) else {
        return or_bad_number(parse_one_argument(word, first));
    };
    match next_word(rest) {
        None => or_bad_number(parse_two_arguments(word, first, second)),
        Some(_) => Request::Refused(LineFault::NotACommand),
    }
}

/// Parses a line from its words. Does not check the length of the line or its bytes.
fn parse_words(line: &[u8]) -> Request
    ensures { result ≡ request_of_words (words_of line.now) }
{
    let Some((word, rest)) = next_word(line) else {
        return Request::Nothing;
    };
    if equals(word, b"trace") {
        parse_trace(rest)
    } else {
        parse_command(word, rest)
    }
}

/// Returns true if a line consists of tabs and printable ASCII characters.
fn has_only_allowed_bytes(line: &[u8]) -> bool
    ensures { result ≡ list_all is_allowed_byte line.now }
{
    line.iter().all(|b| is_allowed_byte(*b))
}

/// Parses a command line, given without its line end. Returns a refusal if the line is too long,
/// has a byte that is not allowed, is not a command, or has a number that is out of range.
#[tactic(auto, unfolding(crate::specs::LineRequests::request_of))]
pub fn parse_request(line: &[u8]) -> Request
    ensures { result ≡ request_of line.now }
{
    if line.len() > LINE_BYTES {
        Request::Refused(LineFault::LineTooLong)
    } else if has_only_allowed_bytes(line) {
        parse_words(line)
    } else {
        Request::Refused(LineFault::NotAscii)
    }
}

//! The lines of a question, outside the two texts:
//!
//!     most 1000000                search at most 1000000 states
//!     sets 1000000                prove with sets of values, with at most 1000000 entries; 0: prove by search
//!     memory 1000                 use at most about 1000 MB
//!     pause 1000000               split a run of cycles without reads every 1000000 cycles
//!     wire                        the board's text follows, up to a line with a single dot
//!     asm                         the program's text follows, up to a line with a single dot
//!     never                       the conditions that follow must never all be met at once
//!     in ramport 0 line1 1 1      condition: line 1 of RAM port 0 is in the range 1 to 1
//!     mistake code call           condition: the next cycle makes one of these mistakes
//!     begin                       a stopwatch begins when the conditions that follow are all met
//!     end                         the stopwatch ends when the conditions that follow are all met
//!     within 1000                 the stopwatch must never show more than 1000 cycles
//!     open                        the conditions that follow must not all be met before the marks were seen, in order
//!     up 1 0                      mark: a read shows that the key at row 1, column 0 is up
//!     down 1 0                    mark: a read shows that the key at row 1, column 0 is down
//!     together 2                  at most 2 keys are down at a time
//!     wait 1000                   the levels of keys and TEST change at moments that are at least 1000 cycles apart
//!     held 500                    no key is down for more than 500 cycles in succession
//!     only                        no key may be pressed and TEST stays at 0, except as `press` and `test` lines allow
//!     press 1 0                   the key at row 1, column 0 may be pressed
//!     test                        TEST may be 0 or 1
//!     prove                       the question is complete; every question must end with this line
//!
//! The defaults and the ranges of the limits on the inputs:
//!
//! - Without a `together` line, any number of keys may be down at a time.
//! - Without a `wait` line, the levels may change before each cycle. The number of cycles is 2 to 100000.
//! - Without a `held` line, a key may stay down for any number of cycles. The number of cycles is 1 to 100000. A proof
//!   without `wait` does not use `held`.
//! - Without an `only` line, all keys may be pressed and TEST may be 0 or 1. `press` and `test` lines then have no
//!   effect.
//!
//! If a question has several `together`, `wait` or `held` lines, the last one of each kind counts.
ghost use Rattle.std.specs.Prelude.{◌≡◌};
ghost use Rattle.std.specs.Str.{bytes_eq};
ghost use Rattle.mcs_model.specs.Numerals.{number_up_to};
ghost use Rattle.mcs_model.specs.TextLines.{words_of};
ghost use Rattle.mcs_model.specs.WordTables.{lookup_entry};
ghost use Rattle.mcs_prove.specs.QuestionLines.{cell_lists, cell_of, cell_parts, comparison_kinds, comparison_line, comparison_of, held_line, key_levels, key_of, line_by_words, line_of, longer_line, mark_of, mistakes_of, no_mistakes, number_line, one_word_lines, three_word_line, wait_line, with_mistake, with_mistakes};

use crate::inputs::KeyPosition;
use mcs_check::{Cell, CellList, Comparison, Condition, Mark, Mistakes, Part, StopwatchCycles};
use mcs_lines::words::{equals, next_word};
use mcs_model::numeral::number_within;
use mcs_search::MAX_STATES;

/// The largest index of a cell.
const MAX_CELL_INDEX: u32 = 2047;

/// The largest number of entries that a question can allow for sets of values.
const MAX_ENTRIES: u32 = 100_000_000;

/// The largest amount of memory that a question can allow, in MB.
pub(crate) const MAX_MEMORY: u32 = 1_000_000;

/// The largest `pause` that a question can set, in cycles.
const MAX_PAUSE: u32 = 1_000_000_000;

/// The smallest `wait` that a question can set, in cycles. A smaller one limits nothing.
const MIN_WAIT: u32 = 2;

/// The largest `wait` that a question can set, in cycles.
const MAX_WAIT: u32 = 100_000;

/// The largest `held` that a question can set, in cycles.
const MAX_HELD: u32 = 100_000;

/// The largest stopwatch limit that a question can set, in cycles: one less than a stopwatch can show.
const MAX_TIME_LIMIT: u32 = 16_777_214;

/// The role of a list of conditions in a question.
#[derive(Clone, Copy, Debug)]
pub(crate) enum ListRole {
    /// The conditions must never all be met at once.
    Never,
    /// The stopwatch begins when all conditions are met.
    Begin,
    /// The stopwatch ends when all conditions are met.
    End,
    /// The conditions must not all be met before the marks were seen.
    Open,
}

/// A parsed line of a question.
#[derive(Clone, Copy, Debug)]
pub(crate) enum QuestionLine {
    /// A blank line.
    Blank,
    /// The maximum number of states.
    MaxStates(u32),
    /// The maximum number of entries of a proof with sets of values, or 0 for a proof by search.
    MaxEntries(u32),
    /// The maximum memory for states or entries, in MB.
    MaxMemory(u32),
    /// The maximum number of cycles of a search step. A longer run of cycles without reads is split into several steps.
    Pause(u32),
    /// The maximum number of cycles that the stopwatch may show.
    TimeLimit(StopwatchCycles),
    /// The board's text begins on the next line.
    BoardText,
    /// The program's text begins on the next line.
    ProgramText,
    /// A list of conditions with this role follows.
    Conditions(ListRole),
    /// A condition of the current list.
    OneCondition(Condition),
    /// The next mark.
    NextMark(Mark),
    /// The maximum number of keys that are down at a time.
    Together(u8),
    /// The smallest number of cycles between two changes of the levels.
    Wait(u32),
    /// The largest number of cycles for which a key stays down.
    Held(u32),
    /// Only the keys of the `press` lines may be pressed, and TEST may be 1 only if there is a `test` line.
    Only,
    /// A key that may be pressed.
    Pressable(KeyPosition),
    /// TEST may be 0 or 1.
    TestMayChange,
    /// The question is complete.
    Prove,
}

/// Parses the kind of a comparison. Returns true for `in` (inside the range) and false for `out` (outside it).
fn comparison_kind(word: &[u8]) -> Option<bool>
    ensures { result ≡ lookup_entry (bytes_eq word.now) comparison_kinds }
{
    if equals(word, b"in") {
        Some(true)
    } else if equals(word, b"out") {
        Some(false)
    } else {
        None
    }
}

/// Parses the name of a list of cells.
fn list_named(word: &[u8]) -> Option<CellList>
    ensures { result ≡ lookup_entry (bytes_eq word.now) cell_lists }
{
    let list = if equals(word, b"character") {
        CellList::RamNibbles
    } else if equals(word, b"status") {
        CellList::StatusCharacters
    } else if equals(word, b"ramport") {
        CellList::RamPorts
    } else if equals(word, b"romport") {
        CellList::RomPorts
    } else if equals(word, b"banksrc") {
        CellList::BankSrcBytes
    } else if equals(word, b"register") {
        CellList::Registers
    } else if equals(word, b"counter") {
        CellList::Counters
    } else if equals(word, b"chain0") {
        CellList::Chain(0)
    } else if equals(word, b"chain1") {
        CellList::Chain(1)
    } else if equals(word, b"chain2") {
        CellList::Chain(2)
    } else if equals(word, b"chain3") {
        CellList::Chain(3)
    } else {
        return None;
    };
    Some(list)
}

/// Parses the name of a part: `whole`, or `line0` to `line3`.
fn part_named(word: &[u8]) -> Option<Part>
    ensures { result ≡ lookup_entry (bytes_eq word.now) cell_parts }
{
    if equals(word, b"whole") {
        Some(Part::Whole)
    } else if equals(word, b"line0") {
        Some(Part::Line(0))
    } else if equals(word, b"line1") {
        Some(Part::Line(1))
    } else if equals(word, b"line2") {
        Some(Part::Line(2))
    } else if equals(word, b"line3") {
        Some(Part::Line(3))
    } else {
        None
    }
}

/// Parses a cell from the name of its list and its index. Returns `None` if the index is beyond the list.
fn cell_of(list: &[u8], index: &[u8]) -> Option<Cell>
    ensures { result ≡ cell_of list.now index.now }
{
    let list = list_named(list)?;
    let index = number_within(index, MAX_CELL_INDEX)? as u16;
    if index < list.count() {
        Some(Cell { list, index })
    } else {
        None
    }
}

/// Parses a number from 0 to 255.
fn byte_of(word: &[u8]) -> Option<u8>
    ensures { result ≡ number_up_to 255 word.now }
{
    Some(number_within(word, 255)? as u8)
}

/// Parses a comparison from its six words.
fn comparison_of(
    kind: &[u8],
    list: &[u8],
    index: &[u8],
    part: &[u8],
    low: &[u8],
    high: &[u8],
) -> Option<Comparison>
    ensures { result ≡ comparison_of kind.now list.now index.now part.now low.now high.now }
{
    let inside = comparison_kind(kind)?;
    let cell = cell_of(list, index)?;
    let part = part_named(part)?;
    let low = byte_of(low)?;
    let high = byte_of(high)?;
    Some(Comparison {
        cell,
        part,
        low,
        high,
        inside,
    })
}

/// Returns `mistakes` plus the kind of mistake that `word` names, or `None` if `word` names no kind.
fn with_mistake(mistakes: Mistakes, word: &[u8]) -> Option<Mistakes>
    ensures { result ≡ with_mistake mistakes word.now }
{
    let mut extended = mistakes;
    if equals(word, b"code") {
        extended.invalid_opcode = true;
    } else if equals(word, b"call") {
        extended.fourth_call = true;
    } else if equals(word, b"return") {
        extended.unmatched_return = true;
    } else if equals(word, b"ram") {
        extended.absent_ram = true;
    } else if equals(word, b"rom") {
        extended.absent_rom = true;
    } else if equals(word, b"rdr") {
        extended.port_without_inputs = true;
    } else if equals(word, b"wrr") {
        extended.port_without_outputs = true;
    } else {
        return None;
    }
    Some(extended)
}

/// Parses words that name kinds of mistake. Returns `None` if a word names no kind.
fn with_mistakes(words: &[u8]) -> Option<Mistakes>
    ensures { result ≡ with_mistakes no_mistakes (words_of words.now) }
{
    let mut mistakes = Mistakes::NONE;
    let mut rest = words;
    while let Some((word, others)) = next_word(rest) {
        mistakes = with_mistake(mistakes, word)?;
        rest = others;
    }
    Some(mistakes)
}

/// Parses words that name kinds of mistake. Returns `None` if a word names no kind, or if there are no words.
fn mistakes_of(words: &[u8]) -> Option<Mistakes>
    ensures { result ≡ mistakes_of (words_of words.now) }
{
    match next_word(words) {
        None => None,
        Some(_) => with_mistakes(words),
    }
}

/// Parses a line of one word.
fn one_word_line(word: &[u8]) -> Option<QuestionLine>
    ensures { result ≡ lookup_entry (bytes_eq word.now) one_word_lines }
{
    if equals(word, b"wire") {
        Some(QuestionLine::BoardText)
    } else if equals(word, b"asm") {
        Some(QuestionLine::ProgramText)
    } else if equals(word, b"never") {
        Some(QuestionLine::Conditions(ListRole::Never))
    } else if equals(word, b"begin") {
        Some(QuestionLine::Conditions(ListRole::Begin))
    } else if equals(word, b"end") {
        Some(QuestionLine::Conditions(ListRole::End))
    } else if equals(word, b"open") {
        Some(QuestionLine::Conditions(ListRole::Open))
    } else if equals(word, b"only") {
        Some(QuestionLine::Only)
    } else if equals(word, b"test") {
        Some(QuestionLine::TestMayChange)
    } else if equals(word, b"prove") {
        Some(QuestionLine::Prove)
    } else {
        None
    }
}

/// Parses the number of a `wait` line. Returns `None` if the number is too small or too large.
fn wait_line(word: &[u8]) -> Option<QuestionLine>
    ensures { result ≡ wait_line word.now }
{
    let wait = number_within(word, MAX_WAIT)?;
    if wait >= MIN_WAIT {
        Some(QuestionLine::Wait(wait))
    } else {
        None
    }
}

/// Parses the number of a `held` line. Returns `None` if the number is 0 or too large.
fn held_line(word: &[u8]) -> Option<QuestionLine>
    ensures { result ≡ held_line word.now }
{
    let held = number_within(word, MAX_HELD)?;
    if held > 0 {
        Some(QuestionLine::Held(held))
    } else {
        None
    }
}

/// Parses a line that consists of a name and a number.
fn number_line(name: &[u8], word: &[u8]) -> Option<QuestionLine>
    ensures { result ≡ number_line name.now word.now }
{
    if equals(name, b"most") {
        return Some(QuestionLine::MaxStates(number_within(word, MAX_STATES as u32)?));
    }
    if equals(name, b"sets") {
        return Some(QuestionLine::MaxEntries(number_within(word, MAX_ENTRIES)?));
    }
    if equals(name, b"memory") {
        return Some(QuestionLine::MaxMemory(number_within(word, MAX_MEMORY)?));
    }
    if equals(name, b"together") {
        return Some(QuestionLine::Together(byte_of(word)?));
    }
    if equals(name, b"wait") {
        return wait_line(word);
    }
    if equals(name, b"held") {
        return held_line(word);
    }
    if equals(name, b"within") {
        let limit = StopwatchCycles::of(number_within(word, MAX_TIME_LIMIT)?)?;
        return Some(QuestionLine::TimeLimit(limit));
    }
    if equals(name, b"pause") {
        let pause = number_within(word, MAX_PAUSE)?;
        return if pause > 0 {
            Some(QuestionLine::Pause(pause))
        } else {
            None
        };
    }
    None
}

/// Parses the level of a key in a mark. Returns true for `down` and false for `up`.
fn key_level(word: &[u8]) -> Option<bool>
    ensures { result ≡ lookup_entry (bytes_eq word.now) key_levels }
{
    if equals(word, b"up") {
        Some(false)
    } else if equals(word, b"down") {
        Some(true)
    } else {
        None
    }
}

/// Parses the three words of a mark.
fn mark_of(level: &[u8], row: &[u8], column: &[u8]) -> Option<Mark>
    ensures { result ≡ mark_of level.now row.now column.now }
{
    let is_down = key_level(level)?;
    let row = byte_of(row)?;
    let column = byte_of(column)?;
    Some(Mark {
        row,
        column,
        is_down,
    })
}

/// Parses a key from its row and its column.
fn key_of(row: &[u8], column: &[u8]) -> Option<KeyPosition>
    ensures { result ≡ key_of row.now column.now }
{
    let row = byte_of(row)?;
    let column = byte_of(column)?;
    Some(KeyPosition { row, column })
}

/// Parses a line of three words: `press` and a key, or a mark.
fn three_word_line(name: &[u8], row: &[u8], column: &[u8]) -> Option<QuestionLine>
    ensures { result ≡ three_word_line name.now row.now column.now }
{
    if equals(name, b"press") {
        return Some(QuestionLine::Pressable(key_of(row, column)?));
    }
    Some(QuestionLine::NextMark(mark_of(name, row, column)?))
}

/// Parses a line of four or more words; `rest` has the words after the third. Returns `None` unless the line is a
/// comparison, which has six words.
fn comparison_line(kind: &[u8], list: &[u8], index: &[u8], rest: &[u8]) -> Option<QuestionLine>
    ensures { result ≡ comparison_line kind.now list.now index.now (words_of rest.now) }
{
    let (part, rest) = next_word(rest)?;
    let (low, rest) = next_word(rest)?;
    let (high, rest) = next_word(rest)?;
    match next_word(rest) {
        Some(_) => None,
        None => {
            let comparison = comparison_of(kind, list, index, part, low, high)?;
            Some(QuestionLine::OneCondition(Condition::Compare(comparison)))
        }
    }
}

/// Parses a line of three or more words: a line of three words, or a comparison, which has six.
fn longer_line(name: &[u8], first: &[u8], second: &[u8], rest: &[u8]) -> Option<QuestionLine>
    ensures { result ≡ longer_line name.now first.now second.now (words_of rest.now) }
{
    match next_word(rest) {
        None => three_word_line(name, first, second),
        Some(_) => comparison_line(name, first, second, rest),
    }
}

/// Parses a line that does not begin with `mistake`, from its first word and the words after it.
fn line_by_words(name: &[u8], rest: &[u8]) -> Option<QuestionLine>
    ensures { result ≡ line_by_words name.now (words_of rest.now) }
{
    let Some((first, rest)) = next_word(rest) else {
        return one_word_line(name);
    };
    match next_word(rest) {
        None => number_line(name, first),
        Some((second, rest)) => longer_line(name, first, second, rest),
    }
}

/// Parses a line of a question. Returns `None` if the line is invalid.
pub(crate) fn line_of(line: &[u8]) -> Option<QuestionLine>
    ensures { result ≡ line_of (words_of line.now) }
{
    let Some((name, rest)) = next_word(line) else {
        return Some(QuestionLine::Blank);
    };
    if equals(name, b"mistake") {
        let mistakes = mistakes_of(rest)?;
        return Some(QuestionLine::OneCondition(Condition::Mistaken(mistakes)));
    }
    line_by_words(name, rest)
}

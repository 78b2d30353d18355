//! The answer to a question: one line and an exit status.
ghost use Rattle.std.specs.Prelude.{◌≡◌, ◌<◌, ◌≤◌, ◌^◌, ◌++◌, ℕ, true, List, Some, string_bytes, IfOk, OnOk};
ghost use Rattle.std.specs.List.{flat_map};
ghost use Rattle.mcs_prove.specs.Answers.{AnswersQuestion, digit_at, digit_count, first_digits, hex_digit, level_at, line_of_answer, outcome_line, refusal_line, refusal_status, space_and_decimal, space_and_word, status_of_answer};
ghost use Rattle.mcs_prove.specs.Questions.{IsAnswerTo, is_consistent, question_of_text};

use crate::proving::{Goal, prove, prove_by_sets};
use crate::question::{Question, question_of};
use crate::refusal::Refusal;
use mcs_check::{Levels, Marks, Outcome};
use mcs_model::refusal_numbers;
use mcs_nibble::Bit;
use mcs_search::MAX_STATES;
use std::alloc::{AllocError, Global};

/// The number of bytes in a megabyte (MB).
const MB: usize = 1_048_576;

/// The exit status if there is an outcome.
const STATUS_ANSWERED: u8 = 0;

/// The exit status if a line of the question is invalid or the question is incomplete.
const STATUS_WRONG_QUESTION: u8 = 2;

/// The exit status if the board's text or the program's text is rejected, or memory runs out.
const STATUS_REFUSED: u8 = 3;

/// The answer to a question: its line and its exit status.
#[derive(Drop)]
pub struct Answer {
    /// The line, without a line feed.
    pub text: String,
    /// The exit status.
    pub status: u8,
}

/// Appends the values of `MayFail`, with a space before each value. Fails if memory runs out.
fn push_values(out: &mut String, values: &[u8]) -> Result<(), AllocError>
    ensures { OnOk result (string_bytes out.new ≡ string_bytes out.old ++ flat_map space_and_decimal values.now) }
{
    for value in values {
        write!(out, " {value}")?;
    }
    Ok(())
}

/// Returns the level at `index` of a list that has the levels of all keys, row by row, and then the level of TEST.
/// Returns 0 beyond its end.
fn level_at(levels: &Levels, index: usize) -> Bit
    ensures { result ≡ level_at levels.now index }
{
    let keys = levels.keys();
    if index < keys.len() {
        keys[index]
    } else if index == keys.len() {
        levels.test()
    } else {
        Bit::ZERO
    }
}

/// Returns the number of digits that encode the levels of all keys and TEST. Each digit encodes four levels.
fn digit_count(levels: &Levels) -> usize
    ensures value { result ≡ digit_count levels.now }
    ensures few { result ≤ 2 ^ 61 }
{
    levels.keys().len() / 4 + 1
}

/// Returns one of the digits that encode the levels of all keys and TEST. Its lowest bit is the first of its four
/// levels.
fn digit_at(levels: &Levels, index: usize) -> u8
    requires { index < 2 ^ 61 }
    ensures { result ≡ digit_at levels.now index }
{
    let first = 4 * index;
    level_at(levels, first).get()
        + 2 * level_at(levels, first + 1).get()
        + 4 * level_at(levels, first + 2).get()
        + 8 * level_at(levels, first + 3).get()
}

/// Appends the hexadecimal digit of a number below 16. Fails if memory runs out.
fn push_digit(out: &mut String, number: u8) -> Result<(), AllocError>
    ensures { OnOk result (string_bytes out.new ≡ string_bytes out.old ++ hex_digit number) }
{
    match number {
        10 => out.push_str("a"),
        11 => out.push_str("b"),
        12 => out.push_str("c"),
        13 => out.push_str("d"),
        14 => out.push_str("e"),
        15 => out.push_str("f"),
        _ => write!(out, "{number}"),
    }
}

/// Appends the hexadecimal digits that encode the levels of all keys and TEST. Fails if memory runs out.
fn push_digits(out: &mut String, levels: &Levels) -> Result<(), AllocError>
    ensures { OnOk result (string_bytes out.new
        ≡ string_bytes out.old ++ first_digits levels.now (digit_count levels.now)) }
{
    for index in 0..digit_count(levels) {
        push_digit(out, digit_at(levels, index))?;
    }
    Ok(())
}

/// Appends a space and the word for the levels of one step. Fails if memory runs out.
fn push_word(out: &mut String, levels: &Levels) -> Result<(), AllocError>
    ensures { OnOk result (string_bytes out.new ≡ string_bytes out.old ++ space_and_word levels.now) }
{
    out.push_str(" ")?;
    push_digits(out, levels)
}

/// Appends the words for the levels of `MayFailWith`, with a space before each word. Fails if memory runs out.
fn push_words(out: &mut String, steps: &[Levels]) -> Result<(), AllocError>
    ensures { OnOk result (string_bytes out.new ≡ string_bytes out.old ++ flat_map space_and_word steps.now) }
{
    for levels in steps {
        push_word(out, levels)?;
    }
    Ok(())
}

/// Appends the line for an outcome.
fn push_outcome(out: &mut String, outcome: &Outcome) -> Result<(), AllocError>
    ensures { OnOk result (string_bytes out.new ≡ string_bytes out.old ++ outcome_line outcome.now) }
{
    match outcome {
        Outcome::Holds(states) => write!(out, "holds {states}"),
        Outcome::MayFail(values) => {
            out.push_str("may fail")?;
            push_values(out, values)
        }
        Outcome::MayFailWith(steps) => {
            out.push_str("may fail with")?;
            push_words(out, steps)
        }
        Outcome::TooMany => out.push_str("too many"),
        Outcome::NoMemory(states) => write!(out, "no room {states}"),
        Outcome::GaveUp => out.push_str("gave up"),
    }
}

/// Appends the line for a refusal.
fn push_refusal(out: &mut String, refusal: Refusal) -> Result<(), AllocError>
    ensures { OnOk result (string_bytes out.new ≡ string_bytes out.old ++ refusal_line refusal) }
{
    match refusal {
        Refusal::NoMemory => write!(out, "no {}", refusal_numbers::NO_MEMORY),
        Refusal::Wiring(fault) => write!(out, "no {}", fault.number()),
        Refusal::Program(line, fault) => write!(out, "no {} {line}", fault.number()),
        Refusal::NoRom => write!(out, "no {}", refusal_numbers::NO_ROM),
        Refusal::Line(line) => write!(out, "wrong line {line}"),
        Refusal::Incomplete => out.push_str("no question"),
    }
}

/// Appends the line for an outcome or a refusal.
fn push_answer(out: &mut String, found: &Result<Outcome, Refusal>) -> Result<(), AllocError>
    ensures { OnOk result (string_bytes out.new ≡ string_bytes out.old ++ line_of_answer found.now) }
{
    match found {
        Ok(outcome) => push_outcome(out, outcome),
        Err(refusal) => push_refusal(out, *refusal),
    }
}

/// Returns the exit status for a refusal.
fn refusal_status(refusal: Refusal) -> u8
    ensures { result ≡ refusal_status refusal }
{
    match refusal {
        Refusal::Line(_) | Refusal::Incomplete => STATUS_WRONG_QUESTION,
        _ => STATUS_REFUSED,
    }
}

/// Returns the exit status for an outcome or a refusal.
fn status_of(found: &Result<Outcome, Refusal>) -> u8
    ensures { result ≡ status_of_answer found.now }
{
    match found {
        Ok(_) => STATUS_ANSWERED,
        Err(refusal) => refusal_status(*refusal),
    }
}

/// Searches all runs of a question's machine, for all inputs that the question allows. If the question is complete and
/// consistent, the outcome is an answer to each text that contains the question.
fn outcome_by_search(alloc: Global, question: Question) -> Result<Outcome, Refusal>
    ensures { IfOk result (λ outcome. (text : List ℕ) → question_of_text text ≡ Some question
        → question.has_prove_line ≡ true → is_consistent question ≡ true → IsAnswerTo text outcome) }
{
    let Question {
        board,
        program,
        never_lists,
        begins,
        ends,
        limit,
        opens,
        marks,
        inputs,
        max_states,
        memory,
        pause,
        ..
    } = question;
    let (Some(board), Some(program), Some(marks)) = (board, program, Marks::of(marks)) else {
        return Err(Refusal::Incomplete);
    };
    let goal = Goal {
        never_lists,
        begins,
        ends,
        limit,
        opens,
        marks,
    };
    prove(
        alloc,
        board.as_str(),
        program.as_str(),
        &inputs,
        goal,
        (max_states as usize).min(MAX_STATES),
        memory as usize * MB,
        pause,
    )
}

/// Parses a question, tries to prove its property and returns the outcome.
fn outcome_of(alloc: Global, text: &str) -> Result<Outcome, Refusal>
    ensures { IfOk result (IsAnswerTo text.now) }
{
    let question = question_of(alloc, text)?;
    if !question.has_prove_line || !question.is_consistent() {
        return Err(Refusal::Incomplete);
    }
    if question.max_entries == 0 {
        return outcome_by_search(alloc, question);
    }
    let (Some(board), Some(program)) = (&question.board, &question.program) else {
        return Err(Refusal::Incomplete);
    };
    prove_by_sets(
        alloc,
        board.as_str(),
        program.as_str(),
        &question.never_lists,
        question.max_entries as usize,
        question.memory as usize * MB,
    )
}

/// Answers the question that a text contains.
pub fn answer_to(alloc: Global, text: &str) -> Result<Answer, AllocError>
    ensures { IfOk result (λ answer. AnswersQuestion text.now (string_bytes answer.text) answer.status) }
{
    let found = outcome_of(alloc, text);
    let mut line = String::new(alloc);
    push_answer(&mut line, &found)?;
    Ok(Answer {
        text: line,
        status: status_of(&found),
    })
}

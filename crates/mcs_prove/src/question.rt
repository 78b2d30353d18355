//! Parses a question from the lines of a text.
ghost use Rattle.std.specs.Prelude.{◌≡◌, Some, map, option_map, string_bytes, IfOk, OnOk};
ghost use Rattle.std.specs.Str.Lines.{lines};
ghost use Rattle.mcs_model.specs.TextLines.{words_of};
ghost use Rattle.mcs_prove.specs.declared.question.Section.TheVariants.{Board, Program};
ghost use Rattle.mcs_prove.specs.Questions.{QuestionSoFar, after_line, after_line_in, after_parsed_line, after_words, are_marks_complete, begin_board, begin_program, empty_question, if_valid, is_consistent, is_stopwatch_complete, question_of_text, with_condition, with_line, with_list_ended};

use crate::inputs::AllowedInputs;
use crate::lines::{ListRole, MAX_MEMORY, QuestionLine, line_of};
use crate::refusal::Refusal;
use mcs_check::{Condition, Mark, StopwatchCycles};
use std::alloc::{AllocError, Global};
use std::marker::Model;
use std::mem;

/// The default for `pause`, in cycles.
const DEFAULT_PAUSE: u32 = 1_000_000;

/// The section of a question to which its next line belongs.
#[derive(Clone, Copy, Debug)]
pub(crate) enum Section {
    /// The lines outside the two texts.
    Lines,
    /// The board's text.
    Board,
    /// The program's text.
    Program,
}

/// A question as parsed so far. In contracts, a `Question` is a `QuestionSoFar`.
#[derive(Drop)]
pub(crate) struct Question {
    /// The board's text, if it has begun.
    pub(crate) board: Option<String>,
    /// The program's text, if it has begun.
    pub(crate) program: Option<String>,
    /// The complete `never` lists.
    pub(crate) never_lists: Vec<Vec<Condition>>,
    /// The complete `begin` lists.
    pub(crate) begins: Vec<Vec<Condition>>,
    /// The complete `end` lists.
    pub(crate) ends: Vec<Vec<Condition>>,
    /// The maximum number of cycles that the stopwatch may show, if there is a limit.
    pub(crate) limit: Option<StopwatchCycles>,
    /// The complete `open` lists.
    pub(crate) opens: Vec<Vec<Condition>>,
    /// The marks, in their order.
    pub(crate) marks: Vec<Mark>,
    /// The inputs that the question allows.
    pub(crate) inputs: AllowedInputs,
    /// The maximum number of states of a search.
    pub(crate) max_states: u32,
    /// The maximum number of entries of a proof with sets of values, or 0 for a proof by search.
    pub(crate) max_entries: u32,
    /// The maximum memory for states or entries, in MB.
    pub(crate) memory: u32,
    /// The maximum number of cycles of a search step. A longer run of cycles without reads is split into several steps.
    pub(crate) pause: u32,
    /// True after the `prove` line.
    pub(crate) has_prove_line: bool,
    /// The role of the current list of conditions.
    role: ListRole,
    /// The current list of conditions, until it is complete.
    conditions: Option<Vec<Condition>>,
    /// The section to which the next line belongs.
    section: Section,
}

impl Model for Question {
    ghost use Rattle.std.specs.Prelude.{map, option_map, string_bytes};
    ghost use Rattle.mcs_prove.specs.Questions.{QuestionSoFar};

    ghost Value = { QuestionSoFar };

    ghost view = { λ q. record {
      board = option_map string_bytes q.board;
      program = option_map string_bytes q.program;
      never_lists = map (λ n. n.items) q.never_lists.items;
      begins = map (λ n. n.items) q.begins.items;
      ends = map (λ n. n.items) q.ends.items;
      limit = q.limit;
      opens = map (λ n. n.items) q.opens.items;
      marks = q.marks.items;
      inputs = q.inputs;
      role = q.role;
      conditions = option_map (λ cs. cs.items) q.conditions;
      max_states = q.max_states;
      max_entries = q.max_entries;
      memory = q.memory;
      pause = q.pause;
      section = q.section;
      has_prove_line = q.has_prove_line;
    } };
}

/// Appends a line and a line feed to a text. Does nothing if there is no text.
fn add_line(text: &mut Option<String>, line: &str) -> Result<(), AllocError>
    ensures { OnOk result (option_map string_bytes text.new
        ≡ with_line (option_map string_bytes text.old) line.now) }
{
    if let Some(text) = text {
        text.push_str(line)?;
        text.push('\n')?;
    }
    Ok(())
}

impl Question {
    /// Creates an empty question, before its first line is read.
    fn new(alloc: Global) -> Question
        ensures { result ≡ empty_question }
    {
        Question {
            board: None,
            program: None,
            never_lists: Vec::new(alloc),
            begins: Vec::new(alloc),
            ends: Vec::new(alloc),
            limit: None,
            opens: Vec::new(alloc),
            marks: Vec::new(alloc),
            inputs: AllowedInputs::all(alloc),
            max_states: 0,
            max_entries: 0,
            memory: MAX_MEMORY,
            pause: DEFAULT_PAUSE,
            has_prove_line: false,
            role: ListRole::Never,
            conditions: None,
            section: Section::Lines,
        }
    }

    /// Returns whether the question has no stopwatch or a complete stopwatch. A complete stopwatch has a begin, an
    /// end and a limit, and is not combined with sets of values.
    fn is_stopwatch_complete(&self) -> bool
        ensures { result ≡ is_stopwatch_complete self.now }
    {
        match self.limit {
            None => self.begins.is_empty() && self.ends.is_empty(),
            Some(_) => !self.begins.is_empty() && !self.ends.is_empty() && self.max_entries == 0,
        }
    }

    /// Returns whether marks and `open` lists are both absent, or both present and not combined with sets of values.
    fn are_marks_complete(&self) -> bool
        ensures { result ≡ are_marks_complete self.now }
    {
        if self.marks.is_empty() {
            self.opens.is_empty()
        } else {
            !self.opens.is_empty() && self.max_entries == 0
        }
    }

    /// Returns whether the stopwatch and the marks are each absent, or complete and not combined with sets of values.
    pub(crate) fn is_consistent(&self) -> bool
        ensures { result ≡ is_consistent self.now }
    {
        self.is_stopwatch_complete() && self.are_marks_complete()
    }

    /// Completes the current list of conditions, if there is one, and stores it with the lists of its role.
    fn end_conditions(&mut self) -> Result<(), AllocError>
        ensures { OnOk result (self.new ≡ with_list_ended self.old) }
    {
        if let Some(conditions) = mem::replace(&mut self.conditions, None) {
            match self.role {
                ListRole::Never => self.never_lists.push(conditions)?,
                ListRole::Begin => self.begins.push(conditions)?,
                ListRole::End => self.ends.push(conditions)?,
                ListRole::Open => self.opens.push(conditions)?,
            }
        }
        Ok(())
    }

    /// Adds a condition to the current list. Returns false if no `never`, `begin`, `end` or `open` line precedes the
    /// condition.
    fn add_condition(&mut self, condition: Condition) -> Result<bool, AllocError>
        ensures { IfOk result (λ is_valid. if_valid is_valid self.new
            ≡ with_condition self.old condition self.old.conditions) }
    {
        match &mut self.conditions {
            None => Ok(false),
            Some(conditions) => {
                conditions.push(condition)?;
                Ok(true)
            }
        }
    }

    /// Begins the board's text. Returns false if the question already has this text.
    fn begin_board(&mut self, alloc: Global) -> bool
        ensures { if_valid result self.new ≡ begin_board self.old self.old.board }
    {
        if self.board.is_some() {
            return false;
        }
        self.board = Some(String::new(alloc));
        self.section = Section::Board;
        true
    }

    /// Begins the program's text. Returns false if the question already has this text.
    fn begin_program(&mut self, alloc: Global) -> bool
        ensures { if_valid result self.new ≡ begin_program self.old self.old.program }
    {
        if self.program.is_some() {
            return false;
        }
        self.program = Some(String::new(alloc));
        self.section = Section::Program;
        true
    }

    /// Applies a parsed line. Returns whether the line is allowed at this point.
    fn apply_line(&mut self, alloc: Global, parsed: QuestionLine) -> Result<bool, AllocError>
        ensures { IfOk result (λ is_valid. if_valid is_valid self.new ≡ after_parsed_line self.old parsed) }
    {
        match parsed {
            QuestionLine::Blank => {}
            QuestionLine::MaxStates(max_states) => self.max_states = max_states,
            QuestionLine::MaxEntries(max_entries) => self.max_entries = max_entries,
            QuestionLine::MaxMemory(memory) => self.memory = memory,
            QuestionLine::Pause(pause) => self.pause = pause,
            QuestionLine::BoardText => return Ok(self.begin_board(alloc)),
            QuestionLine::ProgramText => return Ok(self.begin_program(alloc)),
            QuestionLine::TimeLimit(limit) => self.limit = Some(limit),
            QuestionLine::Conditions(role) => {
                self.end_conditions()?;
                self.conditions = Some(Vec::new(alloc));
                self.role = role;
            }
            QuestionLine::OneCondition(condition) => return self.add_condition(condition),
            QuestionLine::NextMark(mark) => self.marks.push(mark)?,
            QuestionLine::Together(together) => self.inputs.together = Some(together),
            QuestionLine::Wait(wait) => self.inputs.wait = wait,
            QuestionLine::Held(held) => self.inputs.held = held,
            QuestionLine::Only => self.inputs.is_restricted = true,
            QuestionLine::Pressable(key) => self.inputs.pressable.push(key)?,
            QuestionLine::TestMayChange => self.inputs.test_may_change = true,
            QuestionLine::Prove => {
                self.end_conditions()?;
                self.has_prove_line = true;
            }
        }
        Ok(true)
    }

    /// Reads a line outside the two texts. Returns whether the line is valid at this point.
    fn read_outer_line(&mut self, alloc: Global, line: &str) -> Result<bool, AllocError>
        ensures { IfOk result (λ is_valid. if_valid is_valid self.new ≡ after_words self.old (words_of line.now)) }
    {
        if self.has_prove_line {
            return Ok(false);
        }
        match line_of(line.as_bytes()) {
            None => Ok(false),
            Some(parsed) => self.apply_line(alloc, parsed),
        }
    }

    /// Reads a line of the board's text. A line with a single dot ends the text.
    fn read_board(&mut self, line: &str) -> Result<(), AllocError>
        ensures { OnOk result (Some self.new ≡ after_line_in Board self.old line.now) }
    {
        if line == "." {
            self.section = Section::Lines;
        } else {
            add_line(&mut self.board, line)?;
        }
        Ok(())
    }

    /// Reads a line of the program's text. A line with a single dot ends the text.
    fn read_program(&mut self, line: &str) -> Result<(), AllocError>
        ensures { OnOk result (Some self.new ≡ after_line_in Program self.old line.now) }
    {
        if line == "." {
            self.section = Section::Lines;
        } else {
            add_line(&mut self.program, line)?;
        }
        Ok(())
    }

    /// Reads a line of a question. Returns whether the line is valid at this point.
    fn read_line(&mut self, alloc: Global, line: &str) -> Result<bool, AllocError>
        ensures { IfOk result (λ is_valid. if_valid is_valid self.new ≡ after_line self.old line.now) }
    {
        match self.section {
            Section::Lines => return self.read_outer_line(alloc, line),
            Section::Board => self.read_board(line)?,
            Section::Program => self.read_program(line)?,
        }
        Ok(true)
    }
}

/// Returns the lines of a text.
fn lines_of(alloc: Global, text: &str) -> Result<Vec<&str>, AllocError>
    ensures { IfOk result (λ found. map (λ l. l.now) found.items ≡ lines text.now) }
{
    text.lines().collect(alloc)
}

/// Parses the question that a text contains. Fails at the first invalid line.
pub(crate) fn question_of(alloc: Global, text: &str) -> Result<Question, Refusal>
    ensures { IfOk result (λ question. question_of_text text.now ≡ Some question) }
{
    let lines = lines_of(alloc, text)?;
    let mut question = Question::new(alloc);
    for i in 0..lines.len() {
        if !question.read_line(alloc, lines[i])? {
            return Err(Refusal::Line(i + 1));
        }
    }
    Ok(question)
}

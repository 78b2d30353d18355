//! Finds the errors of a source text, at most one in each line, and writes the report on them.
ghost use Rattle.std.specs.Prelude.{◌≡◌, ◌==◌, ◌≤◌, ◌<◌, ◌^◌, ◌++◌, ◌∷◌, [], ℕ, List, IfOk, OnOk, map, length, string_bytes, option_map, None, Some, Ok, ◌+◌};
ghost use Rattle.std.specs.List.{cons_option};
ghost use Rattle.mcs_model.specs.TextLines.{as_line, text_of};
ghost use Rattle.mcs_source.specs.Lexical.{tokens};
ghost use Rattle.mcs_source.specs.Lines.{line_of};
ghost use Rattle.mcs_source.specs.Assembly.{read, earliest_first_pass_fault, all_names, first_pass_line_fault, line_bytes, address_after_line, assembly_of_text};
ghost use Rattle.mcs_asm.specs.ByteCells.{HoldsPairs};
ghost use Rattle.mcs_asm.specs.Errors.{ReportsError, first_pass_skipping_errors, unless_error, error_at, first_pass_errors, second_pass_errors, reported_errors, errors_of, errors_of_text, first_listed_error, assembly_error, error_row, errors_header, errors_text};
ghost use Rattle.mcs_asm.specs.Passes.{HasValidNumberAndAddress, first_pass_after_line};
ghost use Rattle.mcs_asm.specs.View.{line_view};

use crate::byte_cells::ByteCells;
use crate::bytes::line_bytes;
use crate::fault::{FaultKind, SourceFault};
use crate::names::{Names, address_after_line};
use crate::passes::{SecondPassState, add_line};
use crate::statements::{SourceLine, read_line};
use crate::text::lines;
use std::alloc::{AllocError, Global};

/// The maximum number of errors that are reported for a text.
pub const MAX_REPORTED_ERRORS: usize = 100;

/// An error with its line number.
#[derive(Clone, Copy, Debug)]
pub struct LineError {
    /// The line number, from 1.
    pub line: usize,
    /// The kind of the error.
    pub fault: SourceFault,
}

/// Appends the error of the line at `index`, unless the list already has [`MAX_REPORTED_ERRORS`] errors.
/// Fails if allocation fails.
fn push_error(
    errors: &mut Vec<LineError>,
    index: usize,
    fault: SourceFault,
) -> Result<(), AllocError>
    requires room { length errors.old.items ≤ MAX_REPORTED_ERRORS }
    requires index { index < 2 ^ 63 }
    ensures { OnOk result (errors.new.items ≡ reported_errors (errors.old.items ++ error_at index fault ∷ [])) }
{
    if errors.len() < MAX_REPORTED_ERRORS {
        errors.push(LineError {
            line: index + 1,
            fault,
        })?;
    }
    Ok(())
}

/// Appends the error of the line at `index`, if it has one, unless the list already has
/// [`MAX_REPORTED_ERRORS`] errors. Fails if allocation fails.
fn push_error_if_any(
    errors: &mut Vec<LineError>,
    index: usize,
    fault: Option<SourceFault>,
) -> Result<(), AllocError>
    requires room { length errors.old.items ≤ MAX_REPORTED_ERRORS }
    requires index { index < 2 ^ 63 }
    ensures { OnOk result (errors.new.items
        ≡ reported_errors (errors.old.items ++ cons_option (option_map (error_at index) fault) [])) }
{
    match fault {
        Some(fault) => push_error(errors, index, fault),
        None => Ok(()),
    }
}

/// Returns the first-pass error of the next line. If the line has no error, adds the name that the
/// line defines, and sets the address of the next statement. Fails if allocation fails.
fn add_line_or_error<'a>(
    alloc: Global,
    names: &mut Names<'a>,
    line: &'a [u8],
) -> Result<Option<SourceFault>, AllocError>
    ensures { IfOk result (λ error.
        (error ≡ first_pass_line_fault names.old.at names.old.names (line_of (tokens line.now)))
        × (names.new ≡ unless_error error names.old (first_pass_after_line names.old (line_of (tokens line.now))))) }
{
    match add_line(alloc, names, line) {
        Ok(()) => Ok(None),
        Err(FaultKind::Refused(fault)) => Ok(Some(fault)),
        Err(FaultKind::NoMemory) => Err(AllocError),
    }
}

/// Runs the first pass over all lines. Returns the names, and at most [`MAX_REPORTED_ERRORS`] errors. A line
/// with an error defines no name and does not change the address. Fails if allocation fails.
fn collect_first_pass_errors<'a>(
    alloc: Global,
    lines: &[&'a [u8]],
) -> Result<(Names<'a>, Vec<LineError>), AllocError>
    ensures { IfOk result (λ found. (found.0 ≡ first_pass_skipping_errors (read (map (λ l. l.now) lines.now)) (length lines.now))
        × (found.1.items ≡ reported_errors (first_pass_errors (read (map (λ l. l.now) lines.now))))) }
{
    let mut names = Names::new(alloc);
    let mut errors = Vec::new(alloc);
    for i in 0..lines.len() {
        let fault = add_line_or_error(alloc, &mut names, lines[i])?;
        push_error_if_any(&mut errors, i, fault)?;
    }
    Ok((names, errors))
}

impl SecondPassState {
    /// Adds the bytes of a line, or returns an overlap error if an earlier line has filled the
    /// address of one of these bytes. In both cases, sets the address of the next statement to
    /// `next`. Fails if allocation fails.
    fn emit_bytes_or_error(
        &mut self,
        bytes: &[u8],
        next: u16,
    ) -> Result<Option<SourceFault>, AllocError>
        requires room { self.old.at + length bytes.now ≤ 4096 }
        requires next { next ≤ 4096 }
        ensures error { (pairs : List (ℕ × ℕ)) → HoldsPairs self.old.cells pairs
            → ReportsError result self.old.at pairs (Ok bytes.now) self.new.cells }
        ensures next { OnOk result (self.new.at ≡ next) }
    {
        match self.add(bytes, next) {
            Ok(()) => Ok(None),
            Err(FaultKind::NoMemory) => Err(AllocError),
            Err(FaultKind::Refused(overlap)) => {
                self.at = next;
                Ok(Some(overlap))
            }
        }
    }

    /// Adds the bytes of a parsed line, or returns its second-pass error. In both cases, sets the
    /// address of the next statement. The line must not pass the end of the ROM, and the number in
    /// an `ORG` or `NAME = NUMBER` must be below 4096. Fails if allocation fails.
    fn emit_parsed_line_or_error<'a>(
        &mut self,
        alloc: Global,
        names: &Names<'a>,
        line: &SourceLine<'a>,
    ) -> Result<Option<SourceFault>, AllocError>
        requires { HasValidNumberAndAddress self.old.at (Some (line_view line.now)) }
        ensures error { (pairs : List (ℕ × ℕ)) → HoldsPairs self.old.cells pairs
            → ReportsError result self.old.at pairs
            (line_bytes self.old.at names.now.names (Some (line_view line.now))) self.new.cells }
        ensures next { OnOk result (self.new.at ≡ address_after_line (Some (line_view line.now)) self.old.at) }
    {
        let next = address_after_line(line, self.at);
        match line_bytes(alloc, self.at, names, line) {
            Ok(bytes) => self.emit_bytes_or_error(&bytes, next),
            Err(FaultKind::NoMemory) => Err(AllocError),
            Err(FaultKind::Refused(fault)) => {
                self.at = next;
                Ok(Some(fault))
            }
        }
    }

    /// Parses the next line, and adds its bytes or returns its second-pass error. In both cases,
    /// sets the address of the next statement. The line must be valid and must not pass the end of
    /// the ROM. The number in an `ORG` or `NAME = NUMBER` must be below 4096. Fails if allocation
    /// fails.
    fn emit_line_or_error<'a>(
        &mut self,
        alloc: Global,
        names: &Names<'a>,
        line: &'a [u8],
    ) -> Result<Option<SourceFault>, AllocError>
        requires { HasValidNumberAndAddress self.old.at (line_of (tokens line.now)) }
        ensures error { (pairs : List (ℕ × ℕ)) → HoldsPairs self.old.cells pairs
            → ReportsError result self.old.at pairs
            (line_bytes self.old.at names.now.names (line_of (tokens line.now))) self.new.cells }
        ensures next { OnOk result (self.new.at ≡ address_after_line (line_of (tokens line.now)) self.old.at) }
    {
        match read_line(alloc, line) {
            Ok(Some(line)) => self.emit_parsed_line_or_error(alloc, names, &line),
            Ok(None) => unreachable!(),
            Err(_) => Err(AllocError),
        }
    }
}

/// Runs the second pass over lines without first-pass errors. Returns at most [`MAX_REPORTED_ERRORS`]
/// errors. Fails if allocation fails.
fn collect_second_pass_errors<'a>(
    alloc: Global,
    names: &Names<'a>,
    lines: &[&'a [u8]],
) -> Result<Vec<LineError>, AllocError>
    requires no_fault { earliest_first_pass_fault (read (map (λ l. l.now) lines.now)) ≡ None }
    requires names { names.now.names ≡ all_names (read (map (λ l. l.now) lines.now)) }
    ensures { IfOk result (λ found. found.items ≡ reported_errors (second_pass_errors (read (map (λ l. l.now) lines.now)))) }
{
    let mut pass_state = SecondPassState {
        at: 0,
        spans: Vec::new(alloc),
        cells: ByteCells::new(alloc)?,
    };
    let mut errors = Vec::new(alloc);
    for i in 0..lines.len() {
        let fault = pass_state.emit_line_or_error(alloc, names, lines[i])?;
        push_error_if_any(&mut errors, i, fault)?;
    }
    Ok(errors)
}

fn has_no_errors(errors: &[LineError]) -> bool
    ensures { result ≡ (length errors.now == 0) }
{
    errors.is_empty()
}

/// Returns the first-pass errors of the lines or, if there are none, the second-pass errors. Fails
/// if allocation fails.
fn errors_of_lines<'a>(alloc: Global, lines: &[&'a [u8]]) -> Result<Vec<LineError>, AllocError>
    ensures { IfOk result (λ found. found.items ≡ errors_of (read (map (λ l. l.now) lines.now))) }
{
    let (names, errors) = collect_first_pass_errors(alloc, lines)?;
    if has_no_errors(&errors) {
        collect_second_pass_errors(alloc, &names, lines)
    } else {
        Ok(errors)
    }
}

/// Returns the first error of each line of a source text, at most [`MAX_REPORTED_ERRORS`] errors. If the first pass
/// finds errors (refusal 30, 31, 33, 36 or 37), returns only these. Otherwise, returns the errors of the second pass
/// (refusal 32 to 35).
///
/// When later lines are checked, a line with a first-pass error counts as empty, and a line with a
/// second-pass error emits no bytes. Fails if allocation fails.
pub fn errors(alloc: Global, source: &str) -> Result<Vec<LineError>, AllocError>
    ensures { IfOk result (λ found. found.items ≡ errors_of_text source.now) }
{
    let lines = lines(alloc, source.as_bytes())?;
    errors_of_lines(alloc, &lines)
}

/// Proves that the first error in the list for a source text is the error that its assembly
/// reports, with the same line number. If the list is empty, the assembly succeeds.
pub fn first_error_is_assembly_error()
    ensures { (text : List ℕ) → first_listed_error (errors_of_text text) ≡ assembly_error (assembly_of_text text) }
{}

/// Appends the row of an error: its line number and its refusal number.
fn push_row(out: &mut String, error: LineError) -> Result<(), AllocError>
    ensures { OnOk result (string_bytes out.new ≡ string_bytes out.old ++ as_line (error_row error)) }
{
    let (line, number) = (error.line, error.fault.number());
    write!(out, "error {line} {number}\n")
}

/// Appends a row for each error.
fn push_errors(out: &mut String, errors: &[LineError]) -> Result<(), AllocError>
    ensures { OnOk result (string_bytes out.new
        ≡ string_bytes out.old ++ text_of (map error_row errors.now)) }
{
    for i in 0..errors.len() {
        push_row(out, errors[i])?;
    }
    Ok(())
}

/// Appends the header row, which has the number of errors.
fn push_header(out: &mut String, count: usize) -> Result<(), AllocError>
    ensures { OnOk result (string_bytes out.new ≡ string_bytes out.old ++ as_line (errors_header count)) }
{
    write!(out, "errors {count}\n")
}

/// Returns the report on errors: a header row with their number, then a row for each error with its
/// line number and its refusal number.
///
/// For example: `errors 2`, `error 3 30`, `error 7 31`. Fails if allocation fails.
pub fn errors_text(alloc: Global, errors: &[LineError]) -> Result<Vec<u8>, AllocError>
    ensures { IfOk result (λ text. text.items ≡ errors_text errors.now) }
{
    let mut out = String::new(alloc);
    push_header(&mut out, errors.len())?;
    push_errors(&mut out, errors)?;
    Ok(out.into_bytes())
}

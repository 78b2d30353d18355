//! The two passes over the lines of a source text. The first pass collects the names, and the
//! second pass emits the bytes.
ghost use Rattle.std.specs.Prelude.{List, ℕ, ◌+◌, length, Ok, ◌≡◌, ◌<◌, ◌≤◌, ◌^◌, ◌++◌, ◌∷◌, [], map, None, OnErr, OnOk};
ghost use Rattle.mcs_source.specs.Lexical.{tokens};
ghost use Rattle.mcs_source.specs.Lines.{line_of};
ghost use Rattle.mcs_source.specs.Assembly.{read, earliest_first_pass_fault, all_names, assembly_of_text, line_bytes};
ghost use Rattle.mcs_source.specs.Survey.{survey_of_text};
ghost use Rattle.mcs_asm.specs.View.{Assembles, Surveys};
ghost use Rattle.mcs_asm.specs.Passes.{first_pass_with_line, second_pass_with_bytes, second_pass_with_line, HasValidNumberAndAddress, MatchesNewValue, IsFirstPassResult, IsSecondPassResult, IsResultOfBothPasses, IsLineNumber, HasLineNumberAdded, MatchesStateWithAddedBytes, span_at};
ghost use Rattle.mcs_asm.specs.ByteCells.{HoldsPairs};

use crate::byte_cells::ByteCells;
use crate::bytes::line_bytes;
use crate::fault::{AsmFault, FaultKind, SourceFault};
use crate::names::{Names, address_after_line};
use crate::statements::read_line;
use crate::surveys::Survey;
use crate::text::lines;
use mcs_model::image::Image;
use mcs_source::survey::Span;
use std::alloc::{AllocError, Global};

/// Adds the name that the next line defines, if any, and sets the address of the line after it. If
/// the line has a first-pass error or allocation fails, returns the error and changes nothing.
pub(crate) fn add_line<'a>(
    alloc: Global,
    names: &mut Names<'a>,
    line: &'a [u8],
) -> Result<(), FaultKind>
    ensures added { MatchesNewValue result names.new (first_pass_with_line names.old (line_of (tokens line.now))) }
    ensures unchanged { OnErr result (names.new ≡ names.old) }
{
    let Some(line) = read_line(alloc, line)? else {
        return Err(FaultKind::Refused(SourceFault::BadStatement));
    };
    match names.fault(&line) {
        Some(fault) => Err(FaultKind::Refused(fault)),
        None => Ok(names.add(&line)?),
    }
}

/// Returns an error with its line number, which is `index` plus 1, or 0 if allocation failed.
fn fault_with_line_number(index: usize, kind: FaultKind) -> AsmFault
    requires { index < 2 ^ 63 }
    ensures { (result.kind ≡ kind) × IsLineNumber kind index result.line }
{
    match kind {
        FaultKind::NoMemory => AsmFault { line: 0, kind },
        FaultKind::Refused(_) => AsmFault {
            line: index + 1,
            kind,
        },
    }
}

/// Returns `line_result`. If it is an error, adds the line number: `index` plus 1, or 0 if
/// allocation failed.
fn add_line_number(index: usize, line_result: Result<(), FaultKind>) -> Result<(), AsmFault>
    requires { index < 2 ^ 63 }
    ensures { HasLineNumberAdded index line_result result }
{
    match line_result {
        Ok(()) => Ok(()),
        Err(kind) => Err(fault_with_line_number(index, kind)),
    }
}

/// Runs the first pass. Returns the names that the lines define and the address after the last
/// line, or the first error that this pass finds. The possible errors are 30 (bad statement), 31
/// (name already defined), 33 (number out of range), 36 (address past the end of the ROM) and 37 (too many names). Also
/// fails if allocation fails.
fn first_pass<'a>(alloc: Global, lines: &[&'a [u8]]) -> Result<Names<'a>, AsmFault>
    ensures { IsFirstPassResult result (read (map (λ l. l.now) lines.now)) }
{
    let mut names = Names::new(alloc);
    for i in 0..lines.len() {
        add_line_number(i, add_line(alloc, &mut names, lines[i]))?;
    }
    Ok(names)
}

/// Appends the span of a line that starts at `at` and emits the given bytes. Fails if allocation
/// fails.
fn push_span(spans: &mut Vec<Span>, at: u16, bytes: &[u8]) -> Result<(), AllocError>
    requires { length bytes.now ≤ 4096 }
    ensures { OnOk result (spans.new.items ≡ spans.old.items ++ span_at at (Ok bytes.now) ∷ []) }
{
    let size = bytes.len() as u16;
    spans.push(Span { at, size })?;
    Ok(())
}

/// The bytes and the spans of the lines so far, and the address of the next statement.
#[derive(Drop)]
pub(crate) struct SecondPassState {
    pub(crate) at: u16,
    pub(crate) spans: Vec<Span>,
    pub(crate) cells: ByteCells,
    ghost in_range: { at ≤ 4096 },
}

impl SecondPassState {
    /// Adds the bytes and the span of a line, and sets the address of the next statement to `next`.
    /// Fails with an overlap error if an earlier line has filled the address of one of these bytes.
    /// Also fails if allocation fails. After an error, the cells are unchanged.
    #[tactic(auto, using(crate::proofs::SpelledLists::overlap_is_rejected, crate::proofs::SpelledLists::bytes_without_overlap_are_added))]
    pub(crate) fn add(&mut self, bytes: &[u8], next: u16) -> Result<(), FaultKind>
        requires room { self.old.at + length bytes.now ≤ 4096 }
        requires next { next ≤ 4096 }
        ensures bytes { (pairs : List (ℕ × ℕ)) → HoldsPairs self.old.cells pairs
            → MatchesStateWithAddedBytes result self.new.at self.new.cells
            (second_pass_with_bytes (record { at = self.old.at; pairs = pairs }) next (Ok bytes.now)) }
        ensures span { OnOk result (self.new.spans.items
            ≡ self.old.spans.items ++ span_at self.old.at (Ok bytes.now) ∷ []) }
        ensures cells_unchanged { OnErr result (self.new.cells ≡ self.old.cells) }
        ensures next { OnOk result (self.new.at ≡ next) }
    {
        let at = usize::from(self.at);
        if self.cells.is_occupied(at, bytes.len()) {
            return Err(FaultKind::Refused(SourceFault::Overlap));
        }
        push_span(&mut self.spans, self.at, bytes)?;
        self.cells.write(at, bytes);
        self.at = next;
        Ok(())
    }

    /// Adds the bytes and the span of the next line, or returns the second-pass error of the line.
    /// The line must parse and must not pass the end of the ROM. The number in an `ORG` or
    /// `NAME = NUMBER` must be below 4096. Fails if allocation fails.
    fn emit_line<'a>(
        &mut self,
        alloc: Global,
        names: &Names<'a>,
        line: &'a [u8],
    ) -> Result<(), FaultKind>
        requires { HasValidNumberAndAddress self.old.at (line_of (tokens line.now)) }
        ensures bytes { (pairs : List (ℕ × ℕ)) → HoldsPairs self.old.cells pairs
            → MatchesStateWithAddedBytes result self.new.at self.new.cells (second_pass_with_line names.now.names
            (record { at = self.old.at; pairs = pairs }) (line_of (tokens line.now))) }
        ensures span { OnOk result (self.new.spans.items ≡ self.old.spans.items
            ++ span_at self.old.at
            (line_bytes self.old.at names.now.names (line_of (tokens line.now))) ∷ []) }
    {
        let Some(line) = read_line(alloc, line)? else {
            return Err(FaultKind::Refused(SourceFault::BadStatement));
        };
        let bytes = line_bytes(alloc, self.at, names, &line)?;
        let next = address_after_line(&line, self.at);
        self.add(&bytes, next)
    }
}

/// Runs the second pass over lines without first-pass errors. Returns the survey and the bytes of
/// all lines, or the first error that this pass finds. The possible errors are: an undefined name
/// (32), a value out of range (33), an address on the wrong page (34), or an overlap (35). Also fails if allocation
/// fails.
fn second_pass<'a>(
    alloc: Global,
    names: Names<'a>,
    lines: &[&'a [u8]],
) -> Result<(Survey<'a>, ByteCells), AsmFault>
    requires no_fault { earliest_first_pass_fault (read (map (λ l. l.now) lines.now)) ≡ None }
    requires names { names.names ≡ all_names (read (map (λ l. l.now) lines.now)) }
    ensures { IsSecondPassResult result (read (map (λ l. l.now) lines.now)) names.entry.names }
{
    let mut pass_state = SecondPassState {
        at: 0,
        spans: Vec::with_capacity(alloc, lines.len())?,
        cells: ByteCells::new(alloc)?,
    };
    for i in 0..lines.len() {
        add_line_number(i, pass_state.emit_line(alloc, &names, lines[i]))?;
    }
    Ok((Survey::new(pass_state.spans, names), pass_state.cells))
}

/// Runs both passes over a source text. Returns the survey and the bytes of the text, or the first error in the text.
/// Also fails if allocation fails.
fn both_passes<'a>(alloc: Global, source: &'a str) -> Result<(Survey<'a>, ByteCells), AsmFault>
    ensures { IsResultOfBothPasses result source.now }
{
    let lines = lines(alloc, source.as_bytes())?;
    let names = first_pass(alloc, &lines)?;
    second_pass(alloc, names, &lines)
}

/// Returns the image of a source text, or its first error with the line number, from 1.
///
/// A line is an optional label `NAME:` and an optional statement, or a definition `NAME = NUMBER`.
/// Each line can end with a comment, which begins with `;`. If allocation fails, the error is
/// [`FaultKind::NoMemory`] with line 0.
pub fn assemble(alloc: Global, source: &str) -> Result<Image, AsmFault>
    ensures { Assembles result (assembly_of_text source.now) }
{
    let (_, cells) = both_passes(alloc, source)?;
    let image = cells.image(alloc)?;
    Ok(image)
}

/// Returns the survey of a source text: the address of each line, the number of bytes that the line
/// emits, and the names with their values.
///
/// If [`assemble`] rejects a text, this function returns the same error with the same line number.
pub fn survey<'a>(alloc: Global, source: &'a str) -> Result<Survey<'a>, AsmFault>
    ensures { Surveys result (survey_of_text source.now) }
{
    let (survey, _) = both_passes(alloc, source)?;
    Ok(survey)
}

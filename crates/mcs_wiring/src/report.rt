//! Reports whether a board text is valid and, if it is not, which part of the text has an error.
ghost use Rattle.std.specs.Prelude.{◌≡◌, ◌++◌, ◌∷◌, [], ◌<◌, length, codes, string_bytes, Err, IfOk, OnOk, MatchOption};
ghost use Rattle.std.specs.List.{list_all, slice_split};
ghost use Rattle.std.specs.Fmt.{decimal};
ghost use Rattle.std.specs.Option.{option_copied};
ghost use Rattle.toml.specs.View.{table_view};
ghost use Rattle.mcs_model.specs.TextLines.{as_line, is_line_feed};
ghost use Rattle.mcs_wiring.specs.Wiring.{board_of_table};
ghost use Rattle.mcs_wiring.specs.Parts.{contains_part, has_part, is_toml, line_of_part, line_after_toml, is_bare_byte, key_name, section_text, number_text, key_text, refusal_text, error_report_text, report_text, part_of, wiring_text};
ghost use Rattle.mcs_wiring.specs.PartView.{part_view};

use crate::fault::WiringFault;
use crate::flawed_part::{Part, part_of};
use crate::reading::board_of_table;
use crate::sections::Section;
use crate::values::{count_at, member};
use std::alloc::{AllocError, Global};
use toml::Table;

/// Returns true if a table contains a part. If the part is in a section, the part's key is not
/// checked.
fn contains_part(table: &Table, part: Part<'_>) -> bool
    ensures { result ≡ contains_part (part_view part.entry) (table_view table.now) }
{
    match (part.section, part.number) {
        (Some(section), Some(number)) => number <= count_at(table, section.key()),
        (Some(section), None) => member(table, section.key()).is_some(),
        (None, _) => match part.key {
            Some(key) => member(table, key).is_some(),
            None => true,
        },
    }
}

/// Returns true if a text is TOML and contains a part. Fails if allocation fails.
fn has_part(alloc: Global, text: &str, part: Part<'_>) -> Result<bool, AllocError>
    ensures { IfOk result (λ has. has ≡ has_part (part_view part.entry) text.now) }
{
    match toml::table_from_str(alloc, text) {
        Ok(table) => Ok(contains_part(&table, part)),
        Err(e) if e.is_memory() => Err(AllocError),
        Err(_) => Ok(false),
    }
}

/// Returns true if a text is TOML. Fails if allocation fails.
fn is_toml(alloc: Global, text: &str) -> Result<bool, AllocError>
    ensures { IfOk result (λ is. is ≡ is_toml text.now) }
{
    match toml::table_from_str(alloc, text) {
        Ok(_) => Ok(true),
        Err(e) if e.is_memory() => Err(AllocError),
        Err(_) => Ok(false),
    }
}

/// Splits a text at its first line feed. Returns the texts before and after the line feed, or none
/// if there is no line feed.
fn first_line(text: &str) -> Option<(&str, &str)>
    ensures { MatchOption result (slice_split is_line_feed text.now ≡ text.now ∷ [])
        (λ x. (slice_split is_line_feed text.now ≡ x.0.now ∷ slice_split is_line_feed x.1.now)
        × (length x.1.now < length text.now)) }
{
    text.split_once('\n')
}

/// Appends a line and a line feed. Fails if allocation fails.
fn push_line(text: &mut String, line: &str) -> Result<(), AllocError>
    ensures { OnOk result (string_bytes text.new ≡ string_bytes text.old ++ as_line line.now) }
{
    text.push_str(line)?;
    text.push('\n')?;
    Ok(())
}

/// Returns the smallest `n` such that the first `n` lines are TOML and contain the part. If there
/// is no such `n`, returns the number of the line after the last line feed. Fails if allocation
/// fails.
#[tactic(auto, using(crate::proofs::LineSteps::line_from_of_split_text), unfolding(crate::specs::Parts::line_of_part))]
fn line_of_part(alloc: Global, text: &str, part: Part<'_>) -> Result<usize, AllocError>
    ensures { IfOk result (λ line. line ≡ line_of_part text.now (part_view part.entry)) }
{
    let mut before = String::new(alloc);
    let mut rest = text;
    let mut number = 1;
    while let Some((line, after)) = first_line(rest) {
        push_line(&mut before, line)?;
        if has_part(alloc, before.as_str(), part)? {
            return Ok(number);
        }
        number += 1;
        rest = after;
    }
    Ok(number)
}

/// Returns `n` + 1 for the largest `n` such that the first `n` lines, each followed by a line feed,
/// are TOML. Fails if allocation fails.
#[tactic(auto, using(crate::proofs::LineSteps::line_after_of_split_text), unfolding(crate::specs::Parts::line_after_toml))]
fn line_after_toml(alloc: Global, text: &str) -> Result<usize, AllocError>
    ensures { IfOk result (λ line. line ≡ line_after_toml text.now) }
{
    let mut before = String::new(alloc);
    let mut rest = text;
    let mut number = 1;
    let mut after_toml = 1;
    while let Some((line, after)) = first_line(rest) {
        push_line(&mut before, line)?;
        number += 1;
        if is_toml(alloc, before.as_str())? {
            after_toml = number;
        }
        rest = after;
    }
    Ok(after_toml)
}

/// Returns true if a key consists only of letters, digits, `_` and `-`.
fn is_bare(key: &str) -> bool
    ensures { result ≡ list_all is_bare_byte key.now }
{
    key.as_bytes().iter().all(
        |b| matches!(*b, b'0'..=b'9' | b'A'..=b'Z' | b'a'..=b'z' | b'_' | b'-'),
    )
}

/// Returns the key as the report shows it: unchanged, or `?` if the key is empty or needs quotes.
fn key_name<'a>(key: &'a str) -> &'a str
    ensures { result.now ≡ key_name key.now }
{
    if !key.is_empty() && is_bare(key) {
        key
    } else {
        "?"
    }
}

fn push_section(out: &mut String, section: Option<Section>) -> Result<(), AllocError>
    ensures { OnOk result (string_bytes out.new ≡ string_bytes out.old ++ section_text section) }
{
    match section {
        Some(section) => {
            let name = section.key();
            write!(out, " {name}")
        }
        None => Ok(()),
    }
}

fn push_number(out: &mut String, number: Option<usize>) -> Result<(), AllocError>
    ensures { OnOk result (string_bytes out.new ≡ string_bytes out.old ++ number_text number) }
{
    match number {
        Some(number) => write!(out, " {number}"),
        None => Ok(()),
    }
}

fn push_key(out: &mut String, key: Option<&str>) -> Result<(), AllocError>
    ensures { OnOk result (string_bytes out.new ≡ string_bytes out.old ++ key_text (option_copied key.entry)) }
{
    match key {
        Some(key) => {
            let name = key_name(key);
            write!(out, " key {name}")
        }
        None => Ok(()),
    }
}

/// Appends the report on an error that has a location: refusal number, line number and part.
fn push_part(out: &mut String, number: u8, line: usize, part: Part<'_>) -> Result<(), AllocError>
    ensures { OnOk result (string_bytes out.new
        ≡ string_bytes out.old ++ refusal_text number line (part_view part.entry)) }
{
    write!(out, "no {number} line {line}")?;
    push_section(out, part.section)?;
    push_number(out, part.number)?;
    push_key(out, part.key)?;
    out.push('\n')?;
    Ok(())
}

/// Appends the report on the error of a table: the refusal number and, if the error has a location,
/// the line number and the part.
fn push_refusal(
    alloc: Global,
    out: &mut String,
    fault: WiringFault,
    text: &str,
    table: &Table,
) -> Result<(), AllocError>
    requires { board_of_table (table_view table.now) ≡ Err fault }
    ensures { OnOk result (string_bytes out.new ≡ string_bytes out.old
        ++ error_report_text text.now fault (part_of fault (table_view table.now))) }
{
    let number = fault.number();
    match part_of(fault, table) {
        Some(part) => {
            let line = line_of_part(alloc, text, part)?;
            push_part(out, number, line, part)
        }
        None => write!(out, "no {number}\n"),
    }
}

/// Returns the report on the table of a board text: `wiring valid`, or the refusal number with the
/// line number and the part that has the error.
fn table_report(alloc: Global, text: &str, table: &Table) -> Result<String, AllocError>
    ensures { IfOk result (λ report. string_bytes report
        ≡ report_text text.now (table_view table.now) (board_of_table (table_view table.now))) }
{
    match board_of_table(table) {
        Ok(_) => format!(in alloc; "wiring valid\n"),
        Err(fault) => {
            let mut out = String::new(alloc);
            push_refusal(alloc, &mut out, fault, text, table)?;
            Ok(out)
        }
    }
}

/// Returns the report on a text that is not TOML: `no 20` and the line number that
/// `line_after_toml` returns.
fn toml_report(alloc: Global, text: &str) -> Result<String, AllocError>
    ensures { IfOk result (λ report. string_bytes report
        ≡ as_line (codes "no 20 line " ++ decimal (line_after_toml text.now))) }
{
    let line = line_after_toml(alloc, text)?;
    format!(in alloc; "no 20 line {line}\n")
}

/// Returns the report on a board text: `wiring valid`, or the refusal number with the line number
/// and the part that has the error, as in `no 25 line 6 lamp 2 key line`. The report on a text that
/// is not TOML names no part. Fails if allocation fails.
#[tactic(auto, unfolding(crate::specs::Parts::wiring_text))]
pub fn wiring_text(alloc: Global, text: &str) -> Result<String, AllocError>
    ensures { IfOk result (λ report. string_bytes report ≡ wiring_text text.now) }
{
    match toml::table_from_str(alloc, text) {
        Ok(table) => table_report(alloc, text, &table),
        Err(e) if e.is_memory() => Err(AllocError),
        Err(_) => toml_report(alloc, text),
    }
}

//! Writes a survey as text. The shell answers `map` with this text.
ghost use Rattle.std.specs.Prelude.{◌≡◌, ◌<◌, ◌++◌, string_bytes, map, OnOk, IfOk};
ghost use Rattle.mcs_model.specs.QueryText.{address_text, hex_digit};
ghost use Rattle.mcs_model.specs.TextLines.{as_line, text_of};
ghost use Rattle.mcs_source.specs.MapText.{header_row, line_row, line_rows, name_row, address_or_end_text, survey_text};

use crate::surveys::Survey;
use mcs_source::survey::Span;
use std::alloc::{AllocError, Global};

/// Returns the uppercase hexadecimal digit of a number below 16.
fn hex_digit(number: u16) -> char
    requires { number < 16 }
    ensures digit { result ≡ hex_digit number }
    ensures ascii { result < 128 }
{
    let nibble = number as u8;
    if nibble < 10 {
        (b'0' + nibble) as char
    } else {
        (b'A' - 10 + nibble) as char
    }
}

/// Appends an address below 4096 as three hexadecimal digits.
fn push_address(out: &mut String, at: u16) -> Result<(), AllocError>
    requires { at < 4096 }
    ensures { OnOk result (string_bytes out.new ≡ string_bytes out.old ++ address_text at) }
{
    out.push(hex_digit(at / 256))?;
    out.push(hex_digit(at / 16 % 16))?;
    out.push(hex_digit(at % 16))?;
    Ok(())
}

/// Appends an address as three hexadecimal digits, or `1000` for 4096, the end of the ROM.
fn push_address_or_end(out: &mut String, at: u16) -> Result<(), AllocError>
    ensures { OnOk result (string_bytes out.new ≡ string_bytes out.old ++ address_or_end_text at) }
{
    if at < 4096 {
        push_address(out, at)
    } else {
        out.push_str("1000")?;
        Ok(())
    }
}

/// Appends the row of a source line: the line number, the address of the line, and the number of
/// bytes that the line emits.
fn push_line(out: &mut String, number: usize, span: Span) -> Result<(), AllocError>
    ensures { OnOk result (string_bytes out.new
        ≡ string_bytes out.old ++ as_line (line_row number span)) }
{
    let size = span.size;
    write!(out, "line {number} ")?;
    push_address_or_end(out, span.at)?;
    write!(out, " {size}\n")?;
    Ok(())
}

/// Appends the row of a name: the name and its value. Fails if allocation fails.
fn push_name(alloc: Global, out: &mut Vec<u8>, name: &[u8], value: u16) -> Result<(), AllocError>
    ensures { OnOk result (out.new.items ≡ out.old.items ++ as_line (name_row (name.now, value))) }
{
    let mut number = String::new(alloc);
    push_address_or_end(&mut number, value)?;
    out.extend_from_slice(b"name ")?;
    out.extend_from_slice(name)?;
    out.push(b' ')?;
    out.extend_from_slice(number.as_bytes())?;
    out.push(b'\n')?;
    Ok(())
}

/// Appends the header row: the number of line rows and the number of name rows.
fn push_header(out: &mut String, lines: usize, names: usize) -> Result<(), AllocError>
    ensures { OnOk result (string_bytes out.new
        ≡ string_bytes out.old ++ as_line (header_row lines names)) }
{
    write!(out, "map lines {lines} names {names}\n")
}

/// Appends a row for each source line.
fn push_lines(out: &mut String, spans: &[Span]) -> Result<(), AllocError>
    ensures { OnOk result (string_bytes out.new
        ≡ string_bytes out.old ++ text_of (line_rows 1 spans.now)) }
{
    for i in 0..spans.len() {
        push_line(out, i + 1, spans[i])?;
    }
    Ok(())
}

/// Appends a row for each name. Fails if allocation fails.
fn push_names(alloc: Global, out: &mut Vec<u8>, names: &[(&[u8], u16)]) -> Result<(), AllocError>
    ensures { OnOk result (out.new.items ≡ out.old.items
        ++ text_of (map name_row (map (λ e. (e.0.now, e.1)) names.now))) }
{
    for i in 0..names.len() {
        push_name(alloc, out, names[i].0, names[i].1)?;
    }
    Ok(())
}

/// Returns the text of a survey: a header row, a row for each source line, and a row for each name.
///
/// For example: `map lines 2 names 1`, `line 1 000 0`, `line 2 FFE 2`, `name last FFE`. Counts and
/// line numbers are in decimal, addresses and values in hexadecimal. Fails if allocation fails.
pub fn survey_text(alloc: Global, survey: &Survey<'_>) -> Result<Vec<u8>, AllocError>
    ensures { IfOk result (λ text. text.items ≡ survey_text survey.now) }
{
    let (spans, names) = (survey.spans(), survey.names());
    let mut lines = String::new(alloc);
    push_header(&mut lines, spans.len(), names.len())?;
    push_lines(&mut lines, spans)?;
    let mut text = lines.into_bytes();
    push_names(alloc, &mut text, names)?;
    Ok(text)
}

//! The text of one instruction, the listing of a ROM, and the source of a ROM range.
ghost use Rattle.std.specs.Prelude.{◌≡◌, ◌<◌, ◌≤◌, ◌++◌, length, slice_index, drop, string_bytes, IfOk};
ghost use Rattle.mcs_source.specs.Text.{listing_line, listing_text, piece_size, piece_text};
ghost use Rattle.mcs_source.specs.SourceText.{line_text, source_text};
ghost use Rattle.mcs_dis.specs.OpAtStart.{op_at_start};
ghost use Rattle.mcs_model.specs.TextLines.{as_line};

use crate::decoding::{op_at_start, op_of, piece_size, second_word};
use crate::texts::{push_columns, push_origin, push_piece};
use mcs_nibble::Addr;
use std::alloc::{AllocError, Global};

/// Returns the text of the instruction at address `at`, from the words `first` and `second`. The text is `DB 0xHH` if
/// the opcode is not in the opcode table, or if a second word is needed but missing (`None`). A second word after a
/// one-word instruction is ignored.
pub fn line_of(alloc: Global, at: Addr, first: u8, second: Option<u8>) -> Result<String, AllocError>
    ensures { IfOk result (λ s. string_bytes s ≡ line_text at first second) }
{
    let mut out = String::new(alloc);
    push_piece(&mut out, at, first, op_of(first, second))?;
    Ok(out)
}

/// Appends the source line of the piece at the start of `bytes`. Returns the number of bytes in the piece.
#[tactic(auto, using(crate::proofs::Loops::start_piece_fits, crate::proofs::Loops::start_piece_is_not_empty))]
fn push_source_line(out: &mut String, at: Addr, bytes: &[u8]) -> Result<usize, AllocError>
    requires { 0 < length bytes.now }
    ensures size { IfOk result (λ n. n ≡ piece_size (op_at_start bytes.now)) }
    ensures within { IfOk result (λ n. (0 < n) × (n ≤ length bytes.now)) }
    ensures line { IfOk result (λ n. string_bytes out.new ≡ string_bytes out.old
        ++ as_line (piece_text at (slice_index bytes.now 0) (op_at_start bytes.now))) }
{
    let piece = op_at_start(bytes);
    let size = piece_size(&piece);
    push_piece(out, at, bytes[0], piece)?;
    out.push('\n')?;
    Ok(size)
}

/// Appends the listing line of the piece at the start of `bytes`. Returns the number of bytes in the piece.
#[tactic(auto, using(crate::proofs::Loops::start_piece_fits, crate::proofs::Loops::start_piece_is_not_empty))]
fn push_listing_line(out: &mut String, at: Addr, bytes: &[u8]) -> Result<usize, AllocError>
    requires { 0 < length bytes.now }
    ensures size { IfOk result (λ n. n ≡ piece_size (op_at_start bytes.now)) }
    ensures within { IfOk result (λ n. (0 < n) × (n ≤ length bytes.now)) }
    ensures line { IfOk result (λ n. string_bytes out.new ≡ string_bytes out.old
        ++ as_line (listing_line at (slice_index bytes.now 0) (drop 1 bytes.now)
        (op_at_start bytes.now))) }
{
    let piece = op_at_start(bytes);
    let size = piece_size(&piece);
    push_columns(out, at, bytes[0], second_word(bytes, &piece))?;
    push_piece(out, at, bytes[0], piece)?;
    out.push('\n')?;
    Ok(size)
}

/// Returns the listing of a ROM from the address `from`. The listing has `lines` lines of the form `AAA BB BB TEXT`,
/// each followed by LF, or fewer if the ROM ends first. Two spaces replace the second word of a one-byte piece.
pub fn listing(alloc: Global, rom: &[u8], from: Addr, lines: usize) -> Result<String, AllocError>
    requires { length rom.now ≡ 4096 }
    ensures { IfOk result (λ s. string_bytes s ≡ listing_text rom.now from lines) }
{
    let mut out = String::new(alloc);
    let mut at = from.get();
    let mut rest = &rom[usize::from(at)..];
    for _line in 0..lines {
        if rest.is_empty() {
            return Ok(out);
        }
        let size = push_listing_line(&mut out, Addr::ZERO.plus(at), rest)?;
        rest = &rest[size..];
        at += size as u16;
    }
    Ok(out)
}

/// Returns source text for the addresses from `from` up to, but not including, `to`. The text has an `ORG 0xHHH` line,
/// then a line for each instruction or single byte. Each line ends with LF. The text assembles to exactly the bytes at
/// these addresses.
pub fn source(alloc: Global, rom: &[u8], from: Addr, to: u16) -> Result<String, AllocError>
    requires rom { length rom.now ≡ 4096 }
    requires some { from < to }
    requires end { to ≤ 4096 }
    ensures { IfOk result (λ s. string_bytes s ≡ source_text rom.now from to) }
{
    let mut out = String::new(alloc);
    push_origin(&mut out, from)?;
    let mut at = from.get();
    let mut rest = &rom[usize::from(at)..usize::from(to)];
    while !rest.is_empty() {
        let size = push_source_line(&mut out, Addr::ZERO.plus(at), rest)?;
        rest = &rest[size..];
        at += size as u16;
    }
    Ok(out)
}

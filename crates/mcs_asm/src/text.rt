//! Splits a source text into lines.
ghost use Rattle.std.specs.Prelude.{◌≡◌, ◌≤◌, ◌<◌, map, length, IfOk, MatchOption, ◌∷◌, []};
ghost use Rattle.std.specs.List.{position_or_len};
ghost use Rattle.mcs_model.specs.TextLines.{is_line_feed, lines_of};

use mcs_model::text_lines::without_carriage_return;
use std::alloc::{AllocError, Global};

/// Returns the number of bytes before the first line feed, or of all bytes if there is none.
fn line_len(bytes: &[u8]) -> usize
    ensures len { result ≡ position_or_len is_line_feed bytes.now }
    ensures within { result ≤ length bytes.now }
{
    bytes.iter().take_while(|b| **b != b'\n').count()
}

/// Returns the first line, without its line ending, and the bytes of the lines after it. Returns
/// `None` if there are no bytes.
#[tactic(auto, using(crate::proofs::LineLists::no_lines_of_empty_text, crate::proofs::LineLists::lines_of_only_line, crate::proofs::LineLists::lines_of_first_line_and_others))]
fn first_line(bytes: &[u8]) -> Option<(&[u8], &[u8])>
    ensures { MatchOption result (lines_of bytes.now ≡ [])
        (λ x. (lines_of bytes.now ≡ x.0.now ∷ lines_of x.1.now)
        × (length x.1.now < length bytes.now)) }
{
    if bytes.is_empty() {
        return None;
    }
    let (line, rest) = bytes.split_at(line_len(bytes));
    match rest {
        [] => Some((without_carriage_return(line), rest)),
        [_, rest @ ..] => Some((without_carriage_return(line), rest)),
    }
}

/// Returns the lines of a text without their line endings. Fails if allocation fails.
pub fn lines(alloc: Global, bytes: &[u8]) -> Result<Vec<&[u8]>, AllocError>
    ensures { IfOk result (λ v. map (λ l. l.now) v.items ≡ lines_of bytes.now) }
{
    let mut line_list = Vec::new(alloc);
    let mut rest = bytes;
    while let Some((line, after)) = first_line(rest) {
        line_list.push(line)?;
        rest = after;
    }
    Ok(line_list)
}

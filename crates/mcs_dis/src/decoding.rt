//! Decodes the piece at the start of some bytes: an instruction with all its words, or a single byte.
ghost use Rattle.std.specs.Prelude.{◌≡◌, ◌<◌, ◌≤◌, [], length, drop};
ghost use Rattle.std.specs.Option.{option_to_list};
ghost use Rattle.mcs_source.specs.Text.{op_at, piece_size, second_word_of_piece};
ghost use Rattle.mcs_dis.specs.OpAtStart.{op_at_start};

use mcs_code::{Op, decode, word_count, words};

/// Decodes a one-word instruction from its opcode. Returns `None` if the opcode needs a second word or is not in the
/// opcode table.
#[tactic(auto, using(crate::proofs::Loops::one_word_is_complete, crate::proofs::Loops::two_words_are_incomplete), unfolding(mcs_source::specs::Text::op_at))]
fn one_word_op(code: u8) -> Option<Op>
    ensures { result ≡ op_at code [] }
{
    if words(code) > 1 {
        None
    } else {
        decode(code, 0)
    }
}

/// Decodes an instruction from its first word and the word after it. Returns `None` if the first word is not in the
/// opcode table, or if the second word is needed but missing.
#[tactic(auto, using(crate::proofs::Loops::complete_with_second_word), unfolding(mcs_source::specs::Text::op_at))]
pub fn op_of(first: u8, second: Option<u8>) -> Option<Op>
    ensures { result ≡ op_at first (option_to_list second) }
{
    match second {
        Some(second) => decode(first, second),
        None => one_word_op(first),
    }
}

/// Decodes the instruction at the start of some bytes. Returns `None` if the opcode is outside the opcode table, or
/// if the second word is needed but missing.
#[tactic(auto, using(crate::proofs::Loops::op_of_two_bytes, crate::proofs::Loops::op_of_one_byte))]
pub fn op_at_start(bytes: &[u8]) -> Option<Op>
    requires { 0 < length bytes.now }
    ensures { result ≡ op_at_start bytes.now }
{
    if bytes.len() < 2 {
        one_word_op(bytes[0])
    } else {
        decode(bytes[0], bytes[1])
    }
}

/// Returns the number of bytes in a piece: the word count of an instruction, or 1 for a byte that is not an
/// instruction (`None`).
pub fn piece_size(piece: &Option<Op>) -> usize
    ensures { result ≡ piece_size piece.now }
{
    match piece {
        None => 1,
        Some(op) => usize::from(word_count(*op)),
    }
}

/// Returns the second word of the piece at the start of some bytes, or `None` if the piece has only one byte.
pub fn second_word(bytes: &[u8], piece: &Option<Op>) -> Option<u8>
    requires { piece_size piece.now ≤ length bytes.now }
    ensures { result ≡ second_word_of_piece piece.now (drop 1 bytes.now) }
{
    if piece_size(piece) > 1 {
        Some(bytes[1])
    } else {
        None
    }
}

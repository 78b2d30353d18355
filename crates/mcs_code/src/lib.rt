//! The opcode table of the 4004, and functions that decode and encode instructions.
//!
//! Apart from tests, `instructions!` is the only list in the code that has the opcodes, word counts, cycle counts and
//! names of the 45 instructions. Each function of this crate passes the list to a macro that expands to the body of
//! the function. Other crates use the list in the same way. Source: Intel MCS-4 Users Manual, instruction set.
#![tactic(auto)]

ghost use Rattle.std.specs.Prelude.{◌≡◌, ◌↔◌, IsSome, Some, unwrap_or};
ghost use Rattle.std.specs.Option.{option_map_or};
ghost use Rattle.mcs_model.specs.Table.{instruction_of, word_count_of, cycles_of};

pub use mcs_model::op::Op;
use mcs_nibble::{Nibble, PairNo, RegNo};
use rows::{
    build_op, cycles_rows, decode_rows, encode_op, encode_rows, word_count_rows, words_rows,
};
pub use spelling::Words;

mod rows;
mod spelling;

/// Decodes the instruction with these two words. Returns `None` if the first word is an opcode outside the table.
#[inline(always)]
#[tactic(auto, unfolding(mcs_model::specs::Table::instruction_of, mcs_model::specs::Table::row_of))]
pub fn decode(first: u8, second: u8) -> Option<Op>
    ensures { result ≡ instruction_of first second }
{
    instructions!(decode_rows!(first, second))
}

/// Encodes an instruction into its one or two words.
#[tactic(auto, unfolding(mcs_model::specs::Table::instruction_of, mcs_model::specs::Table::row_of))]
pub fn encode(op: Op) -> Words
    ensures decodes { instruction_of result.first (unwrap_or result.second 0) ≡ Some op }
    ensures second { IsSome result.second ↔ (word_count_of op ≡ 2) }
{
    instructions!(encode_rows!(op))
}

/// Returns the number of words of the instruction with this opcode, 1 or 2. Returns 1 for an opcode outside the table.
#[tactic(auto, unfolding(mcs_model::specs::Table::instruction_of, mcs_model::specs::Table::row_of))]
pub fn words(code: u8) -> u8
    ensures { result ≡ option_map_or word_count_of (instruction_of code 0) 1 }
{
    instructions!(words_rows!(code))
}

/// Returns the number of words of an instruction, 1 or 2.
pub fn word_count(op: Op) -> u8
    ensures { result ≡ word_count_of op }
{
    instructions!(word_count_rows!(op))
}

/// Returns the number of instruction cycles that an instruction takes, 1 or 2.
pub fn cycles(op: Op) -> u8
    ensures { result ≡ cycles_of op }
{
    instructions!(cycles_rows!(op))
}

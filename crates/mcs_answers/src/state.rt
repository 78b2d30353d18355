//! The answer to `state`.
ghost use Rattle.std.specs.Prelude.{◌≡◌, []};
ghost use Rattle.mcs_model.specs.QueryText.{state_text};
ghost use Rattle.mcs_model.specs.TextLines.{as_line};

use crate::digits::{put, put_byte};
use crate::lists::put_lamps_without_line_feed;
use crate::numbers::put_word_and_number;
use crate::registers::put_registers;
use crate::size::ANSWER_BYTES;
use crate::state_lists::{
    put_address_list, put_bank_list, put_chain_list, put_key_list, put_ram_list, put_rom_list,
    put_watch_list,
};
use arrayvec::ArrayVec;
use mcs_bench::Bench;

/// Writes the answer to `state` into an empty buffer. The answer is one line with all state except the board, the ROM
/// and the RAM.
pub fn put_state(answer: &mut ArrayVec<u8, ANSWER_BYTES>, bench: &Bench)
    requires { answer.old.items ≡ [] }
    ensures { answer.new.items ≡ as_line (state_text bench.now) }
{
    put_word_and_number(answer, b"state seq ", u64::from(bench.seq()));
    put(answer, b" ");
    put_registers(answer, bench);
    put_address_list(answer, b" ret ", &bench.regs().ret);
    put_byte(answer, b" src ", bench.rom_src());
    put_bank_list(answer, bench);
    put_rom_list(answer, bench);
    put_ram_list(answer, bench);
    put_chain_list(answer, bench);
    put_key_list(answer, bench);
    put(answer, b" ");
    put_lamps_without_line_feed(answer, bench);
    put_address_list(answer, b" breaks ", bench.breaks());
    put_watch_list(answer, bench.watches());
    put(answer, b"\n");
}

//! The answer to `ram`.
ghost use Rattle.std.specs.Prelude.{◌≡◌, ℕ, ◌+◌, ◌*◌, ◌++◌, ◌<◌, ◌≤◌, [], length, map};
ghost use Rattle.std.specs.List.{flat_map, join_with_byte};
ghost use Rattle.arrayvec.specs.ArrayVec.{array_vec_len};
ghost use Rattle.mcs_model.specs.Bus.{chips_of};
ghost use Rattle.mcs_model.specs.QueryText.{chip_lines, hex_digit, ram_lines, register_line, sublist};
ghost use Rattle.mcs_answers.specs.PortPieces.{port_line};
ghost use Rattle.mcs_model.specs.TextLines.{as_line, line_feed};

use crate::digits::{hex_digit, put, put_digit};
use crate::size::ANSWER_BYTES;
use arrayvec::ArrayVec;
use mcs_bench::Bench;
use mcs_nibble::Nibble;

/// Proves that a bench has 2048 RAM nibbles and 512 status characters, and at most four chips in
/// each bank.
fn show_ram_sizes(bench: &Bench)
    ensures ram { length bench.now.bus.ram ≡ 2048 }
    ensures status { length bench.now.bus.status ≡ 512 }
    ensures chips { (bank : ℕ) → chips_of bench.now.bus bank ≤ 4 }
{
    bench.show_state_is_valid();
}

/// Appends the 16 main nibbles of register `r` of a RAM chip.
fn put_ram_nibbles(
    answer: &mut ArrayVec<u8, ANSWER_BYTES>,
    bench: &Bench,
    bank: u8,
    chip: u8,
    r: u8,
)
    requires bank { bank < 8 }
    requires chip { chip < 4 }
    requires r { r < 4 }
    requires room { array_vec_len answer.old + 16 ≤ ANSWER_BYTES }
    ensures text { answer.new.items ≡ answer.old.items
        ++ map hex_digit (sublist bench.now.bus.ram (bank * 256 + chip * 64 + r * 16) 16) }
    ensures count { length answer.new.items ≡ length answer.old.items + 16 }
{
    show_ram_sizes(bench);
    for k in 0..16 {
        let character = bench.ram(bank, chip * 64 + r * 16 + k);
        answer.push(hex_digit(character.get()));
    }
}

/// Appends the 4 status characters of register `r` of a RAM chip.
fn put_status(answer: &mut ArrayVec<u8, ANSWER_BYTES>, bench: &Bench, bank: u8, chip: u8, r: u8)
    requires bank { bank < 8 }
    requires chip { chip < 4 }
    requires r { r < 4 }
    requires room { array_vec_len answer.old + 4 ≤ ANSWER_BYTES }
    ensures text { answer.new.items ≡ answer.old.items
        ++ map hex_digit (sublist bench.now.bus.status (bank * 64 + chip * 16 + r * 4) 4) }
    ensures count { length answer.new.items ≡ length answer.old.items + 4 }
{
    show_ram_sizes(bench);
    let high = Nibble::low_of(chip * 4 + r);
    for k in 0..4 {
        let character = bench.status(bank, high, k);
        answer.push(hex_digit(character.get()));
    }
}

/// Appends the line of register `r` of a RAM chip: its numbers, its main nibbles, then its status
/// characters.
fn put_register(answer: &mut ArrayVec<u8, ANSWER_BYTES>, bench: &Bench, bank: u8, chip: u8, r: u8)
    requires bank { bank < 8 }
    requires chip { chip < 4 }
    requires r { r < 4 }
    requires room { array_vec_len answer.old + 28 ≤ ANSWER_BYTES }
    ensures text { answer.new.items
        ≡ answer.old.items ++ as_line (register_line bench.now.bus bank chip r) }
    ensures count { length answer.new.items ≡ length answer.old.items + 28 }
{
    put_digit(answer, b"", bank);
    put_digit(answer, b".", chip);
    put_digit(answer, b".", r);
    put(answer, b" ");
    put_ram_nibbles(answer, bench, bank, chip, r);
    put(answer, b" ");
    put_status(answer, bench, bank, chip, r);
    put(answer, b"\n");
}

/// Appends the line of a RAM chip's output port.
fn put_port(answer: &mut ArrayVec<u8, ANSWER_BYTES>, bench: &Bench, bank: u8, chip: u8)
    requires bank { bank < 8 }
    requires chip { chip < 4 }
    requires room { array_vec_len answer.old + 10 ≤ ANSWER_BYTES }
    ensures text { answer.new.items
        ≡ answer.old.items ++ as_line (port_line bench.now.bus bank chip) }
    ensures count { length answer.new.items ≡ length answer.old.items + 10 }
{
    put_digit(answer, b"", bank);
    put_digit(answer, b".", chip);
    put_digit(answer, b" out ", bench.ram_port(bank, chip).get());
    put(answer, b"\n");
}

/// Appends the lines of a RAM chip: its four registers, then its output port.
fn put_chip(answer: &mut ArrayVec<u8, ANSWER_BYTES>, bench: &Bench, bank: u8, chip: u8)
    requires bank { bank < 8 }
    requires chip { chip < 4 }
    requires room { array_vec_len answer.old + 122 ≤ ANSWER_BYTES }
    ensures text { answer.new.items
        ≡ answer.old.items ++ flat_map as_line (chip_lines bench.now.bus bank chip) }
    ensures count { length answer.new.items ≡ length answer.old.items + 122 }
{
    for r in 0..4 {
        put_register(answer, bench, bank, chip, r);
    }
    put_port(answer, bench, bank, chip);
}

/// Returns the number of chips in a bank, at most 4.
pub(crate) fn chips_of(bench: &Bench, bank: u8) -> u8
    requires { bank < 8 }
    ensures chips { result ≡ chips_of bench.now.bus bank }
    ensures within { result ≤ 4 }
{
    show_ram_sizes(bench);
    bench.board().bank_chips(bank)
}

/// Writes the answer to `ram` into an empty buffer: the number of chips in a bank, then the contents of each
/// chip.
pub fn put_ram(answer: &mut ArrayVec<u8, ANSWER_BYTES>, bench: &Bench, bank: u8)
    requires bank { bank < 8 }
    requires empty { answer.old.items ≡ [] }
    ensures { answer.new.items ≡ as_line (join_with_byte line_feed (ram_lines bench.now.bus bank)) }
{
    let chips = chips_of(bench, bank);
    put_digit(answer, b"ram ", bank);
    put_digit(answer, b" chips ", chips);
    put(answer, b"\n");
    for chip in 0..chips {
        put_chip(answer, bench, bank, chip);
    }
}

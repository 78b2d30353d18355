//! The lists in the answer to `state`. Each list is one word with commas between its items. Every item is
//! appended with a comma, and the last comma is then removed.
ghost use Rattle.std.specs.Prelude.{◌≡◌, ℕ, ◌+◌, ◌*◌, ◌++◌, ◌<◌, ◌≤◌, List, true, Some, codes, length, map};
ghost use Rattle.std.specs.Fmt.{decimal};
ghost use Rattle.std.specs.List.{flat_map, range_with_len};
ghost use Rattle.arrayvec.specs.ArrayVec.{array_vec_len};
ghost use Rattle.mcs_model.specs.declared.board.KeyMatrix.{KeyMatrix};
ghost use Rattle.mcs_model.specs.Boards.{chain_bits, chain_count, chain_part, has_key};
ghost use Rattle.mcs_model.specs.QueryText.{address_text, bank_items, chain_item, key_item, key_items, comma_list, ram_items, rom_items, row_items, watch_text};
ghost use Rattle.mcs_answers.specs.PortPieces.{ram_item};
ghost use Rattle.mcs_probe.specs.Probes.{bits_text};
ghost use Rattle.mcs_answers.specs.Commas.{with_comma, with_commas};

use crate::digits::{put, put_address, put_byte, put_decimal, put_digit};
use crate::lists::put_watch;
use crate::ram::chips_of;
use crate::size::{
    ANSWER_BYTES, BANK_LIST_BYTES, CHAIN_ITEM_BYTES, CHAIN_LIST_BYTES, KEY_LIST_BYTES,
    RAM_LIST_BYTES, ROM_LIST_BYTES,
};
use arrayvec::ArrayVec;
use mcs_bench::Bench;
use mcs_model::limits::{
    BANKS, CHAIN_BITS, CHAIN_CHIPS, CHAINS, KEY_COLUMNS, KEY_ROWS, KEYS, ROMS,
};
use mcs_nibble::{Addr, Bit, Nibble};

/// Proves that a bench has at most the maximum number of chains, chips in a chain, key rows and key columns.
fn show_within_limits(bench: &Bench)
    ensures chains { chain_count bench.now.bus.board ≤ CHAINS }
    ensures chips { (n : ℕ) → (chain_part bench.now.bus.board n).chips ≤ CHAIN_CHIPS }
    ensures rows { (m : KeyMatrix) → bench.now.bus.board.keys ≡ Some m → m.rows ≤ KEY_ROWS }
    ensures columns { (m : KeyMatrix) → bench.now.bus.board.keys ≡ Some m
        → length m.columns.items ≤ KEY_COLUMNS }
{
    bench.show_state_is_valid();
}

/// Ends a list that begins at index `start` of the answer. Removes the comma after its last item, or appends
/// a dash if the list has no items.
fn end_list(answer: &mut ArrayVec<u8, ANSWER_BYTES>, start: usize)
    requires { array_vec_len answer.old + 1 ≤ ANSWER_BYTES }
    ensures text { (before : List ℕ) (items : List (List ℕ)) → length before ≡ start
        → answer.old.items ≡ before ++ with_commas items
        → answer.new.items ≡ before ++ comma_list items }
    ensures count { length answer.new.items ≤ length answer.old.items + 1 }
{
    if answer.len() == start {
        put(answer, b"-");
    } else {
        answer.pop();
    }
}

/// Appends addresses, each followed by a comma.
fn put_address_items(answer: &mut ArrayVec<u8, ANSWER_BYTES>, list: &[Addr])
    requires { array_vec_len answer.old + 4 * length list.now ≤ ANSWER_BYTES }
    ensures text { answer.new.items
        ≡ answer.old.items ++ flat_map (λ at. with_comma (address_text at)) list.now }
    ensures count { length answer.new.items ≡ length answer.old.items + 4 * length list.now }
{
    for at in list {
        put_address(answer, b"", *at);
        put(answer, b",");
    }
}

/// Appends a word and a list of addresses.
pub(crate) fn put_address_list(answer: &mut ArrayVec<u8, ANSWER_BYTES>, word: &[u8], list: &[Addr])
    requires { array_vec_len answer.old + length word.now + 4 * length list.now + 1 ≤ ANSWER_BYTES }
    ensures text { answer.new.items
        ≡ answer.old.items ++ word.now ++ comma_list (map address_text list.now) }
    ensures count { length answer.new.items
        ≤ length answer.old.items + length word.now + 4 * length list.now + 1 }
{
    put(answer, word);
    let start = answer.len();
    put_address_items(answer, list);
    end_list(answer, start);
}

/// Appends the bank, the SRC byte and a comma for each watched RAM nibble.
fn put_watch_items(answer: &mut ArrayVec<u8, ANSWER_BYTES>, list: &[Addr])
    requires { array_vec_len answer.old + 5 * length list.now ≤ ANSWER_BYTES }
    ensures text { answer.new.items
        ≡ answer.old.items ++ flat_map (λ watch. with_comma (watch_text watch)) list.now }
    ensures count { length answer.new.items ≡ length answer.old.items + 5 * length list.now }
{
    for watch in list {
        put_watch(answer, b"", *watch);
        put(answer, b",");
    }
}

/// Appends the list of watched RAM nibbles.
pub(crate) fn put_watch_list(answer: &mut ArrayVec<u8, ANSWER_BYTES>, list: &[Addr])
    requires { array_vec_len answer.old + 5 * length list.now + 10 ≤ ANSWER_BYTES }
    ensures text { answer.new.items
        ≡ answer.old.items ++ codes " watches " ++ comma_list (map watch_text list.now) }
    ensures count { length answer.new.items ≤ length answer.old.items + 5 * length list.now + 10 }
{
    put(answer, b" watches ");
    let start = answer.len();
    put_watch_items(answer, list);
    end_list(answer, start);
}

/// Appends the number of a bank and its latched SRC byte, followed by a comma. Appends nothing if the bank
/// has no chips.
fn put_bank_item(answer: &mut ArrayVec<u8, ANSWER_BYTES>, bench: &Bench, bank: u8)
    requires bank { bank < 8 }
    requires room { array_vec_len answer.old + 5 ≤ ANSWER_BYTES }
    ensures text { answer.new.items
        ≡ answer.old.items ++ with_commas (bank_items bench.now.bus bank) }
    ensures count { length answer.new.items ≤ length answer.old.items + 5 }
{
    if 0 < bench.board().bank_chips(bank) {
        put_digit(answer, b"", bank);
        put_byte(answer, b".", bench.ram_src(bank));
        put(answer, b",");
    }
}

/// Appends the list of banks that have chips, each with its latched SRC byte.
pub(crate) fn put_bank_list(answer: &mut ArrayVec<u8, ANSWER_BYTES>, bench: &Bench)
    requires { array_vec_len answer.old + BANK_LIST_BYTES ≤ ANSWER_BYTES }
    ensures text { answer.new.items ≡ answer.old.items ++ codes " banks "
        ++ comma_list (flat_map (bank_items bench.now.bus) (range_with_len 0 BANKS)) }
    ensures count { length answer.new.items ≤ length answer.old.items + BANK_LIST_BYTES }
{
    put(answer, b" banks ");
    let start = answer.len();
    for bank in 0..BANKS as u8 {
        put_bank_item(answer, bench, bank);
    }
    end_list(answer, start);
}

/// Appends a number below 100 in decimal.
fn put_below_100(answer: &mut ArrayVec<u8, ANSWER_BYTES>, n: u8)
    requires small { n < 100 }
    requires room { array_vec_len answer.old + 2 ≤ ANSWER_BYTES }
    ensures text { answer.new.items ≡ answer.old.items ++ decimal n }
    ensures count { length answer.new.items ≤ length answer.old.items + 2 }
{
    put_decimal(answer, u64::from(n));
}

/// Appends the number of a ROM, its port latch, and the value that a program would now read at its port,
/// followed by a comma. Appends nothing if the board lacks the ROM.
fn put_rom_item(answer: &mut ArrayVec<u8, ANSWER_BYTES>, bench: &Bench, chip: u8)
    requires chip { chip < 16 }
    requires room { array_vec_len answer.old + 7 ≤ ANSWER_BYTES }
    ensures text { answer.new.items
        ≡ answer.old.items ++ with_commas (rom_items bench.now.bus chip) }
    ensures count { length answer.new.items ≤ length answer.old.items + 7 }
{
    if bench.board().mask(chip).is_some() {
        put_below_100(answer, chip);
        put_digit(answer, b".", bench.rom_port(chip).get());
        put_digit(answer, b".", bench.read_port(Nibble::low_of(chip)).get());
        put(answer, b",");
    }
}

/// Appends the list of ROM ports: for each ROM on the board, the item that `put_rom_item` appends.
pub(crate) fn put_rom_list(answer: &mut ArrayVec<u8, ANSWER_BYTES>, bench: &Bench)
    requires { array_vec_len answer.old + ROM_LIST_BYTES ≤ ANSWER_BYTES }
    ensures text { answer.new.items ≡ answer.old.items ++ codes " roms "
        ++ comma_list (flat_map (rom_items bench.now.bus) (range_with_len 0 ROMS)) }
    ensures count { length answer.new.items ≤ length answer.old.items + ROM_LIST_BYTES }
{
    put(answer, b" roms ");
    let start = answer.len();
    for chip in 0..ROMS as u8 {
        put_rom_item(answer, bench, chip);
    }
    end_list(answer, start);
}

/// Appends the bank, the number and the port latch of a RAM chip, followed by a comma.
fn put_ram_item(answer: &mut ArrayVec<u8, ANSWER_BYTES>, bench: &Bench, bank: u8, chip: u8)
    requires bank { bank < 8 }
    requires chip { chip < 4 }
    requires room { array_vec_len answer.old + 6 ≤ ANSWER_BYTES }
    ensures text { answer.new.items
        ≡ answer.old.items ++ with_comma (ram_item bench.now.bus bank chip) }
    ensures count { length answer.new.items ≡ length answer.old.items + 6 }
{
    put_digit(answer, b"", bank);
    put_digit(answer, b".", chip);
    put_digit(answer, b".", bench.ram_port(bank, chip).get());
    put(answer, b",");
}

/// Appends the bank, the number, the port latch and a comma for each RAM chip in a bank.
fn put_ram_items(answer: &mut ArrayVec<u8, ANSWER_BYTES>, bench: &Bench, bank: u8)
    requires bank { bank < 8 }
    requires room { array_vec_len answer.old + 24 ≤ ANSWER_BYTES }
    ensures text { answer.new.items
        ≡ answer.old.items ++ with_commas (ram_items bench.now.bus bank) }
    ensures count { length answer.new.items ≤ length answer.old.items + 24 }
{
    let chips = chips_of(bench, bank);
    for chip in 0..chips {
        put_ram_item(answer, bench, bank, chip);
    }
}

/// Appends the list of RAM ports: for each RAM chip on the board, the item that `put_ram_item`
/// appends.
pub(crate) fn put_ram_list(answer: &mut ArrayVec<u8, ANSWER_BYTES>, bench: &Bench)
    requires { array_vec_len answer.old + RAM_LIST_BYTES ≤ ANSWER_BYTES }
    ensures text { answer.new.items ≡ answer.old.items ++ codes " rams "
        ++ comma_list (flat_map (ram_items bench.now.bus) (range_with_len 0 BANKS)) }
    ensures count { length answer.new.items ≤ length answer.old.items + RAM_LIST_BYTES }
{
    put(answer, b" rams ");
    let start = answer.len();
    for bank in 0..BANKS as u8 {
        put_ram_items(answer, bench, bank);
    }
    end_list(answer, start);
}

/// Returns the number of bits in a chain.
fn chain_bit_count(bench: &Bench, n: u8) -> u8
    requires { n < chain_count bench.now.bus.board }
    ensures bits { result ≡ chain_bits bench.now.bus.board n }
    ensures within { result ≤ CHAIN_BITS }
{
    show_within_limits(bench);
    10 * bench.board().chain(usize::from(n)).chips
}

/// Appends the bits of a chain, followed by a comma.
fn put_chain_item(answer: &mut ArrayVec<u8, ANSWER_BYTES>, bench: &Bench, n: u8)
    requires chain { n < chain_count bench.now.bus.board }
    requires room { array_vec_len answer.old + CHAIN_ITEM_BYTES ≤ ANSWER_BYTES }
    ensures text { answer.new.items ≡ answer.old.items ++ with_comma (chain_item bench.now.bus n) }
    ensures count { length answer.new.items ≤ length answer.old.items + CHAIN_ITEM_BYTES }
{
    let bits = chain_bit_count(bench, n);
    for i in 0..bits {
        put_digit(answer, b"", bench.chain_bit(n, i).get());
    }
    put(answer, b",");
}

/// Appends the bits of a chain, or a dash if the board has no such chain.
pub(crate) fn put_chain_bits(answer: &mut ArrayVec<u8, ANSWER_BYTES>, bench: &Bench, n: u8)
    requires { array_vec_len answer.old + CHAIN_ITEM_BYTES ≤ ANSWER_BYTES }
    ensures text { answer.new.items ≡ answer.old.items ++ bits_text bench.now.bus n }
    ensures count { length answer.new.items ≤ length answer.old.items + CHAIN_ITEM_BYTES }
{
    if usize::from(n) < bench.board().chain_count() {
        put_chain_item(answer, bench, n);
        answer.pop();
    } else {
        put(answer, b"-");
    }
}

/// Appends the list of chains with their bits.
pub(crate) fn put_chain_list(answer: &mut ArrayVec<u8, ANSWER_BYTES>, bench: &Bench)
    requires { array_vec_len answer.old + CHAIN_LIST_BYTES ≤ ANSWER_BYTES }
    ensures text { answer.new.items ≡ answer.old.items ++ codes " chains "
        ++ comma_list (map (chain_item bench.now.bus)
        (range_with_len 0 (chain_count bench.now.bus.board))) }
    ensures count { length answer.new.items ≤ length answer.old.items + CHAIN_LIST_BYTES }
{
    show_within_limits(bench);
    let chains = bench.board().chain_count() as u8;
    put(answer, b" chains ");
    let start = answer.len();
    for n in 0..chains {
        put_chain_item(answer, bench, n);
    }
    end_list(answer, start);
}

/// Appends the row and the column of a key, followed by a comma. Appends nothing if the key is up.
fn put_key_item(answer: &mut ArrayVec<u8, ANSWER_BYTES>, bench: &Bench, row: u8, column: u8)
    requires key { has_key bench.now.bus.board row column ≡ true }
    requires row { row < 16 }
    requires column { column < 16 }
    requires room { array_vec_len answer.old + 4 ≤ ANSWER_BYTES }
    ensures text { answer.new.items
        ≡ answer.old.items ++ with_commas (key_item bench.now.bus row column) }
    ensures count { length answer.new.items ≤ length answer.old.items + 4 }
{
    if bench.key(row, column) == Bit::ONE {
        put_digit(answer, b"", row);
        put_digit(answer, b".", column);
        put(answer, b",");
    }
}

/// Appends an item for each key that is down in row `row`: its row and its column, followed by a comma.
fn put_row_items(answer: &mut ArrayVec<u8, ANSWER_BYTES>, bench: &Bench, columns: u8, row: u8)
    requires keys { (column : ℕ) → column < columns
        → has_key bench.now.bus.board row column ≡ true }
    requires columns { columns ≤ KEY_COLUMNS }
    requires row { row < KEY_ROWS }
    requires room { array_vec_len answer.old + 4 * KEY_COLUMNS ≤ ANSWER_BYTES }
    ensures text { answer.new.items
        ≡ answer.old.items ++ with_commas (row_items bench.now.bus columns row) }
    ensures count { length answer.new.items ≤ length answer.old.items + 4 * KEY_COLUMNS }
{
    for column in 0..columns {
        put_key_item(answer, bench, row, column);
    }
}

/// Appends an item for each key that is down in the first `rows` rows, row by row: its row and its column, followed by
/// a comma.
fn put_key_rows(answer: &mut ArrayVec<u8, ANSWER_BYTES>, bench: &Bench, rows: u8, columns: u8)
    requires keys { (row column : ℕ) → row < rows → column < columns
        → has_key bench.now.bus.board row column ≡ true }
    requires rows { rows ≤ KEY_ROWS }
    requires columns { columns ≤ KEY_COLUMNS }
    requires room { array_vec_len answer.old + 4 * KEYS ≤ ANSWER_BYTES }
    ensures text { answer.new.items ≡ answer.old.items
        ++ with_commas (flat_map (row_items bench.now.bus columns) (range_with_len 0 rows)) }
    ensures count { length answer.new.items ≤ length answer.old.items + 4 * KEYS }
{
    for row in 0..rows {
        put_row_items(answer, bench, columns, row);
    }
}

/// Appends an item for each key that is down, row by row: its row and its column, followed by a
/// comma.
fn put_key_items(answer: &mut ArrayVec<u8, ANSWER_BYTES>, bench: &Bench)
    requires { array_vec_len answer.old + 4 * KEYS ≤ ANSWER_BYTES }
    ensures text { answer.new.items ≡ answer.old.items ++ with_commas (key_items bench.now.bus) }
    ensures count { length answer.new.items ≤ length answer.old.items + 4 * KEYS }
{
    show_within_limits(bench);
    if let Some(matrix) = &bench.board().parts().keys {
        let columns = matrix.columns.len() as u8;
        put_key_rows(answer, bench, matrix.rows, columns);
    }
}

/// Appends the list of keys that are down.
pub(crate) fn put_key_list(answer: &mut ArrayVec<u8, ANSWER_BYTES>, bench: &Bench)
    requires { array_vec_len answer.old + KEY_LIST_BYTES ≤ ANSWER_BYTES }
    ensures text { answer.new.items
        ≡ answer.old.items ++ codes " keys " ++ comma_list (key_items bench.now.bus) }
    ensures count { length answer.new.items ≤ length answer.old.items + KEY_LIST_BYTES }
{
    put(answer, b" keys ");
    let start = answer.len();
    put_key_items(answer, bench);
    end_list(answer, start);
}

//! Lists of the values in a board's chips. Each value is read and set by its index.
ghost use Rattle.std.specs.Prelude.{◌≡◌, ℕ, ◌<◌, ◌↔◌, true, IsTrue, length, slice_index};
ghost use Rattle.mcs_model.specs.Validity.{AreBelow};
ghost use Rattle.mcs_bench.specs.ChipLists.{chip_list_length, chip_value_limit, is_chip_absent, with_chip_list, with_chip_value};

use mcs_board::BenchRig;
use mcs_model::board::Board;
use mcs_nibble::{Addr, Nibble};

/// A kind of value in a board's chips. All values of one kind form a list; the values of absent chips are 0.
#[derive(Clone, Copy)]
pub enum ChipList {
    /// The ROM bytes, indexed by address.
    RomBytes,
    /// The RAM nibbles, at index bank * 256 + SRC byte.
    RamNibbles,
    /// The status characters. Character `k`, 0 to 3, is at index (bank * 16 + upper nibble of the SRC byte) * 4 + k.
    StatusCharacters,
    /// The port latches of the RAM chips, at index bank * 4 + chip.
    RamPorts,
    /// The SRC bytes latched in the banks, indexed by bank.
    BankSrcBytes,
}

impl ChipList {
    /// Returns the length of the list.
    pub fn count(self) -> usize
        ensures { result ≡ chip_list_length self }
    {
        match self {
            ChipList::RomBytes => 4096,
            ChipList::RamNibbles => 2048,
            ChipList::StatusCharacters => 512,
            ChipList::RamPorts => 32,
            ChipList::BankSrcBytes => 8,
        }
    }
}

/// Returns whether the board lacks the chip that holds element `i` of a list.
fn is_chip_absent(board: &Board, list: ChipList, i: usize) -> bool
    requires { i < chip_list_length list }
    ensures { result ≡ is_chip_absent board.now list i }
{
    match list {
        ChipList::RomBytes => board.mask((i / 256) as u8).is_none(),
        ChipList::RamNibbles => usize::from(board.bank_chips((i / 256) as u8)) <= i % 256 / 64,
        ChipList::StatusCharacters => usize::from(board.bank_chips((i / 64) as u8)) <= i % 64 / 16,
        ChipList::RamPorts => usize::from(board.bank_chips((i / 4) as u8)) <= i % 4,
        ChipList::BankSrcBytes => board.bank_chips(i as u8) == 0,
    }
}

/// Returns whether all elements of a list that belong to absent chips are 0.
pub(crate) fn are_absent_values_zero(board: &Board, list: ChipList, numbers: &[u8]) -> bool
    requires { length numbers.now ≡ chip_list_length list }
    ensures { IsTrue result
        ↔ ((i : ℕ) → i < chip_list_length list → is_chip_absent board.now list i ≡ true →
        slice_index numbers.now i ≡ 0) }
{
    for i in 0..numbers.len() {
        if numbers[i] != 0 && is_chip_absent(board, list, i) {
            return false;
        }
    }
    true
}

/// Sets element `i` of a list to `n`. Does nothing if the chip of that element is absent.
fn set(rig: &mut BenchRig, list: ChipList, i: usize, n: u8)
    requires index { i < chip_list_length list }
    requires fits { n < chip_value_limit list }
    ensures { rig.new ≡ with_chip_value rig.old list i n }
{
    match list {
        ChipList::RomBytes => rig.set_rom_byte(Addr::ZERO.plus(i as u16), n),
        ChipList::RamNibbles => {
            rig.set_ram((i / 256) as u8, (i % 256) as u8, Nibble::low_of(n));
        }
        ChipList::StatusCharacters => {
            let high = Nibble::low_of((i % 64 / 4) as u8);
            rig.set_status((i / 64) as u8, high, (i % 4) as u8, Nibble::low_of(n));
        }
        ChipList::RamPorts => {
            rig.set_ram_latch((i / 4) as u8, (i % 4) as u8, Nibble::low_of(n));
        }
        ChipList::BankSrcBytes => rig.set_ram_src(i as u8, n),
    }
}

/// Sets all elements of a list. In `numbers`, the elements of absent chips must be 0.
pub(crate) fn fill(rig: &mut BenchRig, list: ChipList, numbers: &[u8])
    requires fit { AreBelow (chip_list_length list) (chip_value_limit list) numbers.now }
    requires absent { (i : ℕ) → i < chip_list_length list → is_chip_absent rig.old.board list i ≡ true →
        slice_index numbers.now i ≡ 0 }
    ensures { rig.new ≡ with_chip_list rig.old list numbers.now }
{
    rig.show_state_is_valid();
    for i in 0..numbers.len() {
        set(rig, list, i, numbers[i]);
    }
}

//! Validation of a flat state. A state is valid if a bench can be in it.
ghost use Rattle.std.specs.Prelude.{◌≡◌, ◌<◌, ◌≤◌, ◌↔◌, ℕ, All, IsTrue, MatchOption, None, length, slice_index, slice_index_or, []};
ghost use Rattle.std.specs.List.Sorted.{IsStrictlyIncreasing};
ghost use Rattle.mcs_nibble.specs.Ports.{latch_value};
ghost use Rattle.mcs_model.specs.Boards.{rom_masks, chain_count, chain_bits, key_count};
ghost use Rattle.mcs_model.specs.Validity.{AreBelow, AreBreakpoints, AreWatches, AbsentPartsAreZero, IsInRange, IsValid, IsValidBus, IsValidRegs};
ghost use Rattle.mcs_bench.specs.ChipLists.{IsZeroWhereAbsent};
ghost use Rattle.mcs_bench.specs.States.{state_of, bits_of_chains};

use crate::chip_list::{ChipList, are_absent_values_zero};
use crate::flat::Flat;
use arrayvec::ArrayVec;
use mcs_model::board::Board;
use mcs_model::limits::CHAIN_SOCKETS;
use mcs_nibble::Nibble;
use mcs_rom4001::latched_port;

/// Returns whether a list has `count` numbers, each below `limit`.
fn are_below(numbers: &[u8], count: usize, limit: u8) -> bool
    ensures { IsTrue result ↔ AreBelow count limit numbers.now }
{
    if numbers.len() != count {
        return false;
    }
    for n in numbers {
        if *n >= limit {
            return false;
        }
    }
    true
}

/// Returns whether a list has `count` bytes.
fn has_byte_count(numbers: &[u8], count: usize) -> bool
    ensures { IsTrue result ↔ AreBelow count 256 numbers.now }
{
    numbers.len() == count
}

/// Proves that an array of eight bytes has eight elements, each below 256. The type implies this, but proofs need it
/// as a fact.
fn show_bytes_are_in_range(numbers: &[u8; 8])
    ensures { AreBelow 8 256 numbers.now }
{
    let _numbers = numbers.as_slice();
}

/// Returns whether all numbers are below `limit`.
fn are_numbers_below(numbers: &[u16], limit: u16) -> bool
    ensures { IsTrue result ↔ All (λ a. a < limit) numbers.now }
{
    for n in numbers {
        if *n >= limit {
            return false;
        }
    }
    true
}

/// Returns whether the numbers are strictly increasing.
fn is_strictly_increasing(numbers: &[u16]) -> bool
    requires { length numbers.now ≤ 32 }
    ensures { IsTrue result ↔ IsStrictlyIncreasing numbers.now }
{
    for i in 1..numbers.len() {
        if numbers[i - 1] >= numbers[i] {
            return false;
        }
    }
    true
}

/// Returns whether `chains` fits the board. There must be one list for each chain of the board. Each list must have
/// the chain's number of bits, each 0 or 1.
fn chains_fit_board(board: &Board, chains: &[ArrayVec<u8, CHAIN_SOCKETS>]) -> bool
    ensures { IsTrue result
        ↔ ((length chains.now ≡ chain_count board.now) ×
        ((i : ℕ) → i < chain_count board.now →
        AreBelow (chain_bits board.now i) 2 (slice_index_or (bits_of_chains chains.now) i []))) }
{
    if chains.len() != board.chain_count() {
        return false;
    }
    for i in 0..chains.len() {
        if !are_below(chains[i].as_slice(), usize::from(board.chain(i).bits()), 2) {
            return false;
        }
    }
    true
}

/// Returns whether the port latch of ROM `chip` can hold the nibble `n`. Bits of input lines must be 0, and so must
/// the whole latch of an absent ROM.
fn latch_can_hold(board: &Board, chip: u8, n: u8) -> bool
    requires { n < 16 }
    ensures { IsTrue result
        ↔ MatchOption (rom_masks board.now chip) (n ≡ 0) (λ mask. latch_value mask n ≡ n) }
{
    match board.mask(chip) {
        Some(mask) => latched_port(&mask, Nibble::low_of(n)).get() == n,
        None => n == 0,
    }
}

/// Returns whether the port latch of each ROM can hold its nibble in `ports`.
fn latches_can_hold(board: &Board, ports: &[u8]) -> bool
    requires { AreBelow 16 16 ports.now }
    ensures { IsTrue result
        ↔ ((chip : ℕ) →
        MatchOption (rom_masks board.now chip) (slice_index ports.now chip ≡ 0)
        (λ mask. latch_value mask (slice_index ports.now chip) ≡ slice_index ports.now chip)) }
{
    for chip in 0..16u8 {
        if !latch_can_hold(board, chip, ports[usize::from(chip)]) {
            return false;
        }
    }
    true
}

impl Flat {
    /// Returns whether each register's value is in its range.
    fn has_valid_registers(&self) -> bool
        ensures { IsTrue result ↔ IsValidRegs (state_of self.now).processor }
    {
        if self.acc >= 16 || self.cy >= 2 || self.pc >= 4096 {
            return false;
        }
        if self.dcl >= 8 || self.owed >= 2 {
            return false;
        }
        if !are_below(&self.r, 16, 16) {
            return false;
        }
        are_numbers_below(&self.ret, 4096)
    }

    /// Returns whether the lists of ROM bytes, RAM nibbles, status characters and port latches have their fixed
    /// lengths, with each value in its range.
    fn has_valid_chip_values(&self) -> bool
        ensures { IsTrue result
            ↔ (AreBelow 4096 256 self.now.rom × AreBelow 2048 16 self.now.ram ×
            AreBelow 512 16 self.now.status × AreBelow 32 16 self.now.ram_ports ×
            AreBelow 16 16 self.now.rom_ports) }
    {
        if !has_byte_count(self.rom.bytes(), 4096) {
            return false;
        }
        if !are_below(self.ram.bytes(), 2048, 16) {
            return false;
        }
        if !are_below(self.status.bytes(), 512, 16) {
            return false;
        }
        if !are_below(self.ram_ports.bytes(), 32, 16) {
            return false;
        }
        are_below(self.rom_ports.bytes(), 16, 16)
    }

    /// Returns whether each value outside the processor is in its range, and each list has the length that the board
    /// requires.
    fn is_in_range(&self) -> bool
        ensures { IsTrue result ↔ IsInRange (state_of self.now).bus }
    {
        show_bytes_are_in_range(&self.ram_src);
        let _src = self.rom_src;
        if self.test >= 2 {
            return false;
        }
        if !self.has_valid_chip_values() {
            return false;
        }
        if !chains_fit_board(&self.board, self.chains.as_slice()) {
            return false;
        }
        are_below(self.keys.as_slice(), self.board.key_count(), 2)
    }

    /// Returns whether all elements of a list that belong to absent chips are 0.
    fn is_list_zero_where_absent(&self, list: ChipList) -> bool
        requires { IsInRange (state_of self.now).bus }
        ensures { IsTrue result ↔ IsZeroWhereAbsent (state_of self.now).bus list }
    {
        let board = &self.board;
        match list {
            ChipList::RomBytes => are_absent_values_zero(board, list, self.rom.bytes()),
            ChipList::RamNibbles => are_absent_values_zero(board, list, self.ram.bytes()),
            ChipList::StatusCharacters => are_absent_values_zero(board, list, self.status.bytes()),
            ChipList::RamPorts => are_absent_values_zero(board, list, self.ram_ports.bytes()),
            ChipList::BankSrcBytes => are_absent_values_zero(board, list, &self.ram_src),
        }
    }

    /// Returns whether the values of absent chips and the latch bits of input lines are 0.
    fn are_absent_values_zero(&self) -> bool
        requires { IsInRange (state_of self.now).bus }
        ensures { IsTrue result ↔ AbsentPartsAreZero (state_of self.now).bus }
    {
        if !self.is_list_zero_where_absent(ChipList::RomBytes) {
            return false;
        }
        if !self.is_list_zero_where_absent(ChipList::RamNibbles) {
            return false;
        }
        if !self.is_list_zero_where_absent(ChipList::StatusCharacters) {
            return false;
        }
        if !self.is_list_zero_where_absent(ChipList::RamPorts) {
            return false;
        }
        if !self.is_list_zero_where_absent(ChipList::BankSrcBytes) {
            return false;
        }
        latches_can_hold(&self.board, self.rom_ports.bytes())
    }

    /// Returns whether the board and the values of its chips are valid.
    fn has_valid_bus(&self) -> bool
        ensures { IsTrue result ↔ IsValidBus (state_of self.now).bus }
    {
        let _parts = self.board.parts();
        if !self.is_in_range() {
            return false;
        }
        self.are_absent_values_zero()
    }

    /// Returns whether the breakpoints are addresses in strictly ascending order.
    fn has_valid_breakpoints(&self) -> bool
        ensures { IsTrue result ↔ AreBreakpoints self.now.breakpoints.items }
    {
        let breakpoints = self.breakpoints.as_slice();
        if !are_numbers_below(breakpoints, 4096) {
            return false;
        }
        is_strictly_increasing(breakpoints)
    }

    /// Returns whether the watches are indices of RAM nibbles in strictly ascending order.
    fn has_valid_watches(&self) -> bool
        ensures { IsTrue result ↔ AreWatches self.now.watches.items }
    {
        let watches = self.watches.as_slice();
        if !are_numbers_below(watches, 2048) {
            return false;
        }
        is_strictly_increasing(watches)
    }

    /// Returns whether a bench can be in this state.
    pub fn check(&self) -> bool
        ensures { IsTrue result ↔ IsValid (state_of self.now) }
    {
        let _seq = self.seq;
        if !self.has_valid_registers() {
            return false;
        }
        if !self.has_valid_bus() {
            return false;
        }
        if !self.has_valid_breakpoints() {
            return false;
        }
        self.has_valid_watches()
    }
}

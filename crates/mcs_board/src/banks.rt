//! A rig's RAM banks: functions that wire the banks to a board, clear the banks, and get or set each value. A setter
//! changes only the value that it sets, and clocks no shift register.
ghost use Rattle.std.specs.Prelude.{◌≡◌, ℕ, ◌+◌, ◌*◌, ◌<◌, ◌≤◌, ◌↔◌, IsTrue, length, replicate, IfOk, slice_index, slice_index_or};
ghost use Rattle.mcs_ram4002.specs.RamBank.{IsInBank, IsValidBank, blank_bank};
ghost use Rattle.mcs_model.specs.Bus.{ram_index, ram_port_index, status_index, with_ram, with_status};
ghost use Rattle.mcs_model.specs.ChipWrites.{with_ram_latch, with_ram_src};
ghost use Rattle.mcs_board.specs.RigState.{after_bank_write, absent_bank};

use crate::rig::Rig;
use mcs_model::board::Board;
use mcs_model::limits;
use mcs_nibble::Nibble;
use mcs_ram4002::{Bank, BankWrite};
use std::alloc::{AllocError, Global};

/// Returns `count` banks without chips. Fails if memory cannot be allocated.
pub(crate) fn empty_banks(alloc: Global, count: usize) -> Result<Vec<Bank<4>>, AllocError>
    ensures { IfOk result (λ banks. banks.items ≡ replicate count (blank_bank 0)) }
{
    let mut banks = Vec::new(alloc);
    for _ in 0..count {
        banks.push(Bank::new(0))?;
    }
    Ok(banks)
}

/// Returns the number of chips in bank `i`, or 0 if `i` is 8 or more.
fn chips_in_bank(board: &Board, i: usize) -> usize
    ensures chips { result ≡ slice_index board.now.banks i }
    ensures few { result ≤ 4 }
{
    let parts = board.parts();
    if i < limits::BANKS {
        usize::from(parts.banks[i])
    } else {
        0
    }
}

/// Returns whether all of the board's RAM chips are in its first `sockets` banks.
pub(crate) fn banks_fit(board: &Board, sockets: usize) -> bool
    ensures { IsTrue result ↔ ((k : ℕ) → sockets ≤ k → slice_index board.now.banks k ≡ 0) }
{
    let _parts = board.parts();
    for i in sockets..limits::BANKS {
        if chips_in_bank(board, i) > 0 {
            return false;
        }
    }
    true
}

/// Replaces the banks with those of a new board, and sets all their values to 0.
pub(crate) fn rewire_banks(banks: &mut Vec<Bank<4>>, board: &Board)
    ensures count { length banks.new.items ≡ length banks.old.items }
    ensures banks { (k : ℕ) → k < length banks.old.items → slice_index_or banks.new.items k absent_bank
        ≡ blank_bank (slice_index board.now.banks k) }
{
    for i in 0..banks.len() {
        banks[i] = Bank::new(chips_in_bank(board, i));
    }
}

/// Clears the banks: RAM nibbles, status characters, port latches and SRC bytes become 0.
pub(crate) fn clear_banks(banks: &mut Vec<Bank<4>>)
    ensures count { length banks.new.items ≡ length banks.old.items }
    ensures banks { (k : ℕ) → k < length banks.old.items → slice_index_or banks.new.items k absent_bank
        ≡ blank_bank (slice_index_or banks.old.items k absent_bank).chip_count }
{
    for i in 0..banks.len() {
        banks[i].clear();
    }
}

/// Returns a copy of the banks. Fails if memory cannot be allocated.
pub(crate) fn copy_banks(alloc: Global, banks: &Vec<Bank<4>>) -> Result<Vec<Bank<4>>, AllocError>
    ensures { IfOk result (λ copy. copy.items ≡ banks.now.items) }
{
    let mut copy = Vec::with_capacity(alloc, banks.len())?;
    for bank in banks {
        copy.push(bank.copy())?;
    }
    Ok(copy)
}

/// Proves that each bank is valid.
pub(crate) fn show_banks_are_valid(banks: &Vec<Bank<4>>)
    ensures { (k : ℕ) → k < length banks.now.items →
        IsValidBank (slice_index_or banks.now.items k absent_bank) }
{
    for i in 0..banks.len() {
        banks[i].show_state_is_valid();
    }
}

impl<const ROMS: usize, const BANKS: usize, const CHAINS: usize, const MAX: usize> Rig<
    ROMS,
    BANKS,
    CHAINS,
    MAX,
> {
    /// Performs `write` in bank `bank` (0 to 7). Has no effect if the target chip is absent.
    #[inline(always)]
    fn store(&mut self, bank: u8, write: BankWrite)
        requires bank { bank < 8 }
        requires inside { IsInBank write }
        ensures { self.new ≡ after_bank_write self.old bank write }
    {
        let at = usize::from(bank);
        if at < self.banks.len() {
            self.banks[at].store(write);
        }
    }

    /// Returns the RAM nibble that an SRC byte selects in bank `bank` (0 to 7), or 0 if the chip is absent.
    pub fn ram(&self, bank: u8, src: u8) -> Nibble
        requires { bank < 8 }
        ensures { result ≡ slice_index self.now.ram (ram_index bank src) }
    {
        let at = usize::from(bank);
        if at < self.banks.len() {
            self.banks[at].at(src)
        } else {
            Nibble::ZERO
        }
    }

    /// Sets the RAM nibble that an SRC byte selects in bank `bank` (0 to 7). Has no effect if the chip is absent.
    pub fn set_ram(&mut self, bank: u8, src: u8, n: Nibble)
        requires { bank < 8 }
        ensures { self.new ≡ with_ram self.old bank src n }
    {
        self.store(bank, BankWrite::Character(src, n));
    }

    /// Returns status character `k` (0 to 3) in bank `bank` (0 to 7), or 0 if the chip is absent. `high`, the upper
    /// nibble of an SRC byte, selects the chip and its register.
    #[inline(always)]
    pub fn status(&self, bank: u8, high: Nibble, k: u8) -> Nibble
        requires bank { bank < 8 }
        requires k { k < 4 }
        ensures { result ≡ slice_index self.now.status (status_index bank high k) }
    {
        let at = usize::from(bank);
        if at < self.banks.len() {
            self.banks[at].status_at(high, k)
        } else {
            Nibble::ZERO
        }
    }

    /// Sets status character `k` (0 to 3) in bank `bank` (0 to 7). `high`, the upper nibble of an SRC byte, selects
    /// the chip and its register. Has no effect if the chip is absent.
    pub fn set_status(&mut self, bank: u8, high: Nibble, k: u8, n: Nibble)
        requires bank { bank < 8 }
        requires k { k < 4 }
        ensures { self.new ≡ with_status self.old bank high k n }
    {
        self.store(bank, BankWrite::Status(high, k, n));
    }

    /// Returns the port latch of RAM chip `chip` (0 to 3) in bank `bank` (0 to 7), or 0 if the chip is absent.
    pub fn ram_latch(&self, bank: u8, chip: u8) -> Nibble
        requires bank { bank < 8 }
        requires chip { chip < 4 }
        ensures { result ≡ slice_index self.now.ram_ports (ram_port_index bank chip) }
    {
        let at = usize::from(bank);
        if at < self.banks.len() {
            self.banks[at].port(chip)
        } else {
            Nibble::ZERO
        }
    }

    /// Sets the port latch of RAM chip `chip` (0 to 3) in bank `bank` (0 to 7). Clocks no shift-register chain. Has
    /// no effect if the chip is absent.
    pub fn set_ram_latch(&mut self, bank: u8, chip: u8, n: Nibble)
        requires bank { bank < 8 }
        requires chip { chip < 4 }
        ensures { self.new ≡ with_ram_latch self.old bank chip n }
    {
        self.store(bank, BankWrite::Port(chip, n));
    }

    /// Returns the SRC byte latched in bank `bank` (0 to 7), or 0 if the bank has no chips.
    pub fn ram_src(&self, bank: u8) -> u8
        requires { bank < 8 }
        ensures { result ≡ slice_index self.now.ram_src bank }
    {
        let at = usize::from(bank);
        if at < self.banks.len() {
            self.banks[at].last_src()
        } else {
            0
        }
    }

    /// Sets the SRC byte latched in bank `bank` (0 to 7). The byte stays 0 if the bank has no chips.
    pub fn set_ram_src(&mut self, bank: u8, byte: u8)
        requires { bank < 8 }
        ensures { self.new ≡ with_ram_src self.old bank byte }
    {
        self.store(bank, BankWrite::Src(byte));
    }
}

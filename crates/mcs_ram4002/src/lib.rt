//! The 4002: RAM chips, and the banks that they form. Intel calls a nibble of RAM a RAM character. Each byte of a
//! chip's storage holds two nibbles.
//!
//! `src` stores the SRC byte of the bank, as the instruction SRC does. `read`, `write`, `read_status`, `write_status`
//! and `write_port` access the location that this byte selects. A rig instead passes the location itself (`at`,
//! `status_at`, `port`, `store`). The rig can then define once, for all banks, which location an SRC byte selects.
#![tactic(auto)]

ghost use Rattle.std.specs.Prelude.{◌≡◌, ℕ, ◌+◌, ◌-◌, ◌*◌, ◌/◌, ◌%◌, ◌<◌, ◌≤◌, All, replicate, slice_index};
ghost use Rattle.mcs_ram4002.specs.RamBank.{BankState, half_of, contents_of_chip, main_cells_of, status_cells_of, status_cell_index, chip_of, target_chip, src_after, chip_after, after_write, blank_bank, IsInBank, IsSizedChip, IsValidChip, HasFixedLengths, IsValidBank};

use mcs_nibble::Nibble;
use std::marker::Model;

/// One write to a bank: a location and its new value.
#[derive(Clone, Copy)]
pub enum BankWrite {
    /// A main nibble: the SRC byte that selects it, and its new value.
    Character(u8, Nibble),
    /// A status character: the upper nibble of the SRC byte that selects its register, its number (0 to 3), and its new
    /// value.
    Status(Nibble, u8, Nibble),
    /// The output port latch of a chip: the number of the chip (0 to 3), and the new value.
    Port(u8, Nibble),
    /// The SRC byte that the bank stores. The write has no effect if the bank has no chips.
    Src(u8),
}

impl BankWrite {
    /// Returns the number of the chip that the write changes. For a new SRC byte, returns 0.
    fn chip(self) -> u8
        ensures chip { result ≡ target_chip self }
        ensures few { IsInBank self → result < 4 }
    {
        match self {
            BankWrite::Character(src, _) => src / 64,
            BankWrite::Status(high, _, _) => high.get() / 4,
            BankWrite::Port(chip, _) => chip,
            BankWrite::Src(_) => 0,
        }
    }

    /// Returns the SRC byte that the bank stores after the write. `src` is the SRC byte that the bank stores before the
    /// write.
    fn src_after(self, src: u8) -> u8
        ensures { result ≡ src_after self src }
    {
        match self {
            BankWrite::Src(byte) => byte,
            BankWrite::Character(_, _) | BankWrite::Status(_, _, _) | BankWrite::Port(_, _) => src,
        }
    }
}

/// Returns nibble `at` of a chip from the byte that stores it: the lower half if `at` is even, the upper half if `at`
/// is odd.
fn nibble_in_byte(byte: u8, at: u8) -> Nibble
    ensures { result ≡ half_of byte (at % 2) }
{
    if at % 2 == 0 {
        Nibble::low_of(byte)
    } else {
        Nibble::high_of(byte)
    }
}

/// Returns `byte` with nibble `at` of a chip replaced by `n`. The nibble is the lower half if `at` is even, and the
/// upper half if `at` is odd.
fn byte_with_nibble(byte: u8, at: u8, n: Nibble) -> u8
    ensures set { half_of result (at % 2) ≡ n }
    ensures other_half { half_of result (1 - at % 2) ≡ half_of byte (1 - at % 2) }
{
    if at % 2 == 0 {
        byte / 16 * 16 + n.get()
    } else {
        n.get() * 16 + byte % 16
    }
}

/// A 4002 (MCS-4 Users Manual): four registers of 16 main nibbles and four status characters each, and a four-line
/// output port. A chip is accessed only through its bank.
#[derive(Clone, Copy)]
pub struct Chip {
    // Each byte holds two nibbles, the first one in the lower half.
    main: [u8; 32],
    status: [u8; 8],
    port: Nibble,
}

impl Chip {
    /// Returns a chip with all contents 0.
    fn blank() -> Chip
        ensures { result ≡ record { main = replicate 32 0; status = replicate 8 0; port = 0 } }
    {
        Chip {
            main: [0; 32],
            status: [0; 8],
            port: Nibble::ZERO,
        }
    }

    /// Returns the main nibble at index `at`. The index is `register * 16 + nibble number`.
    fn character(&self, at: u8) -> Nibble
        requires { at < 64 }
        ensures { result ≡ slice_index (main_cells_of self.now) at }
    {
        nibble_in_byte(self.main[usize::from(at / 2)], at)
    }

    /// Returns the status character at index `at`. The index is `register * 4 + status character number`.
    fn status_character(&self, at: u8) -> Nibble
        requires { at < 16 }
        ensures { result ≡ slice_index (status_cells_of self.now) at }
    {
        nibble_in_byte(self.status[usize::from(at / 2)], at)
    }

    /// Returns the output port latch of the chip.
    fn port(&self) -> Nibble
        ensures { result ≡ self.now.port }
    {
        self.port
    }

    /// Performs a write to this chip. A write of an SRC byte does not change the chip.
    #[inline(always)]
    fn store(&mut self, write: BankWrite)
        requires { IsInBank write }
        ensures stored { contents_of_chip self.new ≡ chip_after (contents_of_chip self.old) write }
        ensures sized { IsSizedChip self.old }
    {
        match write {
            BankWrite::Character(src, n) => {
                let at = src % 64;
                let i = usize::from(at / 2);
                self.main[i] = byte_with_nibble(self.main[i], at, n);
            }
            BankWrite::Status(high, k, n) => {
                let at = high.get() % 4 * 4 + k;
                let i = usize::from(at / 2);
                self.status[i] = byte_with_nibble(self.status[i], at, n);
            }
            BankWrite::Port(_, n) => self.port = n,
            BankWrite::Src(_) => {}
        }
    }

    /// Proves that the port latch, each main nibble and each status character are below 16.
    fn show_state_is_valid(&self)
        ensures { IsValidChip self.now }
    {
        let _port = self.port.get();
    }
}

/// Proves that the port latch, main nibbles and status characters of each chip are below 16.
fn show_chips_are_valid(chips: &[Chip])
    ensures { All IsValidChip chips.now }
{
    for i in 0..chips.len() {
        chips[i].show_state_is_valid();
    }
}

/// Returns a copy of the chips.
fn copy_chips<const CHIPS: usize>(chips: &[Chip; CHIPS]) -> [Chip; CHIPS]
    ensures { result ≡ chips.now }
{
    let mut copy = [Chip::blank(); CHIPS];
    for i in 0..CHIPS {
        copy[i] = chips[i];
    }
    copy
}

/// A bank of RAM chips. The first `chip_count` chips are present. Main nibbles, status characters and ports of absent
/// chips read as 0, and writes to them have no effect. Each bank stores its own SRC byte.
///
/// The upper two bits of an SRC byte select the chip, the next two bits the register, and the lower four bits the main
/// nibble.
#[derive(Drop)]
pub struct Bank<const CHIPS: usize> {
    chips: [Chip; CHIPS],
    chip_count: usize,
    src: u8,
}

impl<const CHIPS: usize> Model for Bank<CHIPS> {
    ghost use Rattle.std.specs.Prelude.{◌≡◌, ◌≤◌, ◌<◌};
    ghost use Rattle.mcs_ram4002.specs.RamBank.{BankState, bank_of};

    ghost Value = { BankState };

    ghost view = { λ b. bank_of b.chips b.chip_count b.src };

    ghost invariant = { λ b. (b.chip_count ≤ CHIPS) × (b.src < 256) × (b.chip_count ≡ 0 → b.src ≡ 0) };
}

impl<const CHIPS: usize> Bank<CHIPS> {
    /// Returns a bank whose first `chip_count` chips are present. All its contents are 0.
    pub fn new(chip_count: usize) -> Self
        requires { chip_count ≤ CHIPS }
        ensures { result ≡ blank_bank chip_count }
    {
        Bank {
            chips: [Chip::blank(); CHIPS],
            chip_count,
            src: 0,
        }
    }

    /// Returns a copy of the bank.
    pub fn copy(&self) -> Self
        ensures { result ≡ self.now }
    {
        Bank {
            chips: copy_chips(&self.chips),
            chip_count: self.chip_count,
            src: self.src,
        }
    }

    /// Performs a write. Has no effect if the target chip of the write is absent.
    #[inline(always)]
    pub fn store(&mut self, write: BankWrite)
        requires { IsInBank write }
        ensures stored { self.new ≡ after_write self.old write }
        ensures whole { HasFixedLengths self.old }
        ensures few { target_chip write < 4 }
    {
        let (chip_write, src_write) = (write, write);
        let chip = usize::from(chip_write.chip());
        if chip < self.chip_count {
            self.chips[chip].store(write);
            self.src = src_write.src_after(self.src);
        }
    }

    /// Stores an SRC byte. If the bank has no chips, the bank's SRC byte stays 0.
    pub fn src(&mut self, byte: u8)
        ensures { self.new ≡ after_write self.old (BankWrite.Src byte) }
    {
        self.store(BankWrite::Src(byte));
    }

    /// Returns the SRC byte that the bank stores.
    pub fn last_src(&self) -> u8
        ensures { result ≡ self.now.src }
    {
        let _chips = &self.chips;
        self.src
    }

    /// Returns the main nibble that the SRC byte `src` selects, or 0 if its chip is absent.
    pub fn at(&self, src: u8) -> Nibble
        ensures { result ≡ slice_index self.now.main src }
    {
        let chip = usize::from(src / 64);
        if chip < self.chip_count {
            self.chips[chip].character(src % 64)
        } else {
            Nibble::ZERO
        }
    }

    /// Writes the main nibble that the SRC byte `src` selects. Has no effect if its chip is absent.
    pub fn set_at(&mut self, src: u8, n: Nibble)
        ensures { self.new ≡ after_write self.old (BankWrite.Character src n) }
    {
        self.store(BankWrite::Character(src, n));
    }

    /// Returns status character `k` (0 to 3) of the register that `high`, the upper nibble of an SRC byte, selects.
    /// Returns 0 if the chip of this register is absent.
    pub fn status_at(&self, high: Nibble, k: u8) -> Nibble
        requires { k < 4 }
        ensures { result ≡ slice_index self.now.status (status_cell_index high k) }
    {
        let register = high.get();
        let chip = usize::from(register / 4);
        if chip < self.chip_count {
            self.chips[chip].status_character(register % 4 * 4 + k)
        } else {
            Nibble::ZERO
        }
    }

    /// Writes status character `k` (0 to 3) of the register that `high`, the upper nibble of an SRC byte, selects.
    /// Has no effect if the chip of this register is absent.
    pub fn set_status_at(&mut self, high: Nibble, k: u8, n: Nibble)
        requires { k < 4 }
        ensures { self.new ≡ after_write self.old (BankWrite.Status high k n) }
    {
        self.store(BankWrite::Status(high, k, n));
    }

    /// Returns the output port latch of chip `chip` (0 to 3), or 0 if the chip is absent.
    pub fn port(&self, chip: u8) -> Nibble
        requires { chip < 4 }
        ensures { result ≡ slice_index self.now.ports chip }
    {
        let i = usize::from(chip);
        if i < self.chip_count {
            self.chips[i].port()
        } else {
            Nibble::ZERO
        }
    }

    /// Returns the main nibble that the last SRC selected, or 0 if its chip is absent.
    pub fn read(&self) -> Nibble
        ensures { result ≡ slice_index self.now.main self.now.src }
    {
        self.at(self.last_src())
    }

    /// Writes the main nibble that the last SRC selected. Has no effect if its chip is absent.
    pub fn write(&mut self, n: Nibble)
        ensures { self.new ≡ after_write self.old (BankWrite.Character self.old.src n) }
    {
        let src = self.last_src();
        self.set_at(src, n);
    }

    /// Returns status character `k` (0 to 3) of the register that the last SRC selected, or 0 if its chip is absent.
    pub fn read_status(&self, k: u8) -> Nibble
        requires { k < 4 }
        ensures { result ≡ slice_index self.now.status (status_cell_index (self.now.src / 16) k) }
    {
        self.status_at(Nibble::high_of(self.last_src()), k)
    }

    /// Writes status character `k` (0 to 3) of the register that the last SRC selected. Has no effect if its chip is
    /// absent.
    pub fn write_status(&mut self, k: u8, n: Nibble)
        requires { k < 4 }
        ensures { self.new ≡ after_write self.old (BankWrite.Status (self.old.src / 16) k n) }
    {
        let high = Nibble::high_of(self.last_src());
        self.set_status_at(high, k, n);
    }

    /// Writes the output port of the chip that the last SRC selected. Has no effect if that chip is absent.
    pub fn write_port(&mut self, n: Nibble)
        ensures { self.new ≡ after_write self.old (BankWrite.Port (chip_of self.old.src) n) }
    {
        let chip = self.last_src() / 64;
        self.store(BankWrite::Port(chip, n));
    }

    /// Sets all main nibbles, status characters and port latches, and the SRC byte, to 0. The same chips stay
    /// present.
    pub fn clear(&mut self)
        ensures { self.new ≡ blank_bank self.old.chip_count }
    {
        let _chips = &self.chips;
        let chip_count = self.chip_count;
        *self = Bank::new(chip_count);
    }

    /// Proves that the bank's state is valid: each list has its fixed length, and each main nibble, status character
    /// and port latch is below 16. The contents of absent chips are 0. The SRC byte is below 256, and is 0 in a bank
    /// without chips.
    pub fn show_state_is_valid(&self)
        ensures { IsValidBank self.now }
    {
        let _fields = (self.chip_count, self.src);
        show_chips_are_valid(&self.chips);
    }
}

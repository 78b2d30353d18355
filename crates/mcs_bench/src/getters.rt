//! Getters for a bench's state.
ghost use Rattle.std.specs.Prelude.{◌≡◌, ◌+◌, ◌*◌, ◌<◌, ◌≤◌, true, IfOk, length, option_map, slice_get, slice_index, if◌then◌else◌};
ghost use Rattle.std.specs.List.Sorted.{IsStrictlyIncreasing};
ghost use Rattle.mcs_model.specs.Boards.{is_on_board, has_key, key_index};
ghost use Rattle.mcs_model.specs.Levels.{chain_bit, level, port_at};
ghost use Rattle.mcs_model.specs.Bus.{ram_index, ram_port_index, status_index};
ghost use Rattle.mcs_model.specs.Validity.{AreWatches};
ghost use Rattle.mcs_bench.specs.ChipLists.{chip_list_length, chip_list_in};

use crate::bench::Bench;
use crate::chip_list::ChipList;
use mcs_model::board::{Board, Line};
use mcs_model::limits::BREAKPOINTS;
use mcs_model::regs::Regs;
use mcs_nibble::{Addr, Bit, Nibble};
use std::alloc::{AllocError, Global};

/// Returns whether a board has a line.
fn has_line(board: &Board, line: Line) -> bool
    ensures { result ≡ is_on_board board.now line }
{
    match line {
        Line::Rom(chip, k) => board.mask(chip).is_some() && k < 4,
        Line::Ram(bank, chip, k) => chip < board.bank_chips(bank) && k < 4,
        Line::Chain(n, i) => {
            let n = usize::from(n);
            n < board.chain_count() && u16::from(i) < board.chain(n).bits()
        }
    }
}

impl Bench {
    /// Returns the number of accepted commands.
    pub fn seq(&self) -> u32
        ensures { result ≡ self.now.seq }
    {
        self.seq
    }

    /// Returns the board.
    pub fn board(&self) -> &Board
        ensures { result.now ≡ self.now.bus.board }
    {
        self.rig.board()
    }

    /// Returns the registers of the processor.
    pub fn regs(&self) -> Regs
        ensures same { result ≡ self.now.processor }
        ensures registers { length result.r ≡ 16 }
        ensures return_addresses { length result.ret ≡ 3 }
        ensures dcl { result.dcl < 8 }
        ensures owed { result.owed < 2 }
    {
        self.cpu.regs()
    }

    /// Returns the ROM byte at an address, or 0 if the ROM is absent.
    pub fn rom_byte(&self, at: Addr) -> u8
        ensures { result ≡ slice_index self.now.bus.rom at }
    {
        self.rig.rom_byte(at)
    }

    /// Returns the 4,096 ROM bytes, indexed by address. The bytes of absent ROMs are 0.
    ///
    /// # Errors
    ///
    /// Fails if memory cannot be allocated.
    pub fn rom(&self, alloc: Global) -> Result<Vec<u8>, AllocError>
        ensures bytes { IfOk result (λ rom. rom.items ≡ self.now.bus.rom) }
        ensures rom_length { IfOk result (λ rom. length rom.items ≡ 4096) }
    {
        self.rig.show_state_is_valid();
        let mut rom = Vec::with_capacity(alloc, 4096)?;
        for at in 0..4096 {
            rom.push(self.rig.rom_byte(Addr::ZERO.plus(at)))?;
        }
        Ok(rom)
    }

    /// Returns the RAM nibble that an SRC byte selects in a bank, or 0 if the chip is absent. `bank` is 0 to 7.
    pub fn ram(&self, bank: u8, src: u8) -> Nibble
        requires { bank < 8 }
        ensures { result ≡ slice_index self.now.bus.ram (ram_index bank src) }
    {
        self.rig.ram(bank, src)
    }

    /// Returns status character `k` of a bank, or 0 if the chip is absent. `high`, the upper nibble of an SRC byte,
    /// selects the chip and its register. `bank` is 0 to 7, and `k` is 0 to 3.
    pub fn status(&self, bank: u8, high: Nibble, k: u8) -> Nibble
        requires bank { bank < 8 }
        requires k { k < 4 }
        ensures { result ≡ slice_index self.now.bus.status (status_index bank high k) }
    {
        self.rig.status(bank, high, k)
    }

    /// Returns the port latch of a RAM chip in a bank, or 0 if the chip is absent. `bank` is 0 to 7, and `chip` is 0
    /// to 3.
    pub fn ram_port(&self, bank: u8, chip: u8) -> Nibble
        requires bank { bank < 8 }
        requires chip { chip < 4 }
        ensures { result ≡ slice_index self.now.bus.ram_ports (ram_port_index bank chip) }
    {
        self.rig.ram_latch(bank, chip)
    }

    /// Returns the port latch of a ROM. The latch bits of input lines are 0. The latch of an absent ROM is 0. `chip` is
    /// 0 to 15.
    pub fn rom_port(&self, chip: u8) -> Nibble
        requires { chip < 16 }
        ensures { result ≡ slice_index self.now.bus.rom_ports chip }
    {
        self.rig.rom_latch(chip)
    }

    /// Returns the value that a read of a ROM's port would give now, or 0 if the ROM is absent.
    pub fn read_port(&self, chip: Nibble) -> Nibble
        ensures { result ≡ port_at self.now.bus chip }
    {
        self.rig.read_port(chip)
    }

    /// Returns the SRC byte latched in the ROMs.
    pub fn rom_src(&self) -> u8
        ensures { result ≡ self.now.bus.rom_src }
    {
        self.rig.rom_src()
    }

    /// Returns the SRC byte latched in a bank, or 0 if the bank has no chips. `bank` is 0 to 7.
    pub fn ram_src(&self, bank: u8) -> u8
        requires { bank < 8 }
        ensures { result ≡ slice_index self.now.bus.ram_src bank }
    {
        self.rig.ram_src(bank)
    }

    /// Returns element `i` of a list of chip values, or 0 if the chip of that element is absent.
    pub fn chip_value(&self, list: ChipList, i: usize) -> u8
        requires { i < chip_list_length list }
        ensures { result ≡ slice_index (chip_list_in self.now.bus list) i }
    {
        match list {
            ChipList::RomBytes => self.rom_byte(Addr::ZERO.plus(i as u16)),
            ChipList::RamNibbles => self.ram((i / 256) as u8, (i % 256) as u8).get(),
            ChipList::StatusCharacters => {
                let high = Nibble::low_of((i / 4 % 16) as u8);
                self.status((i / 64) as u8, high, (i % 4) as u8).get()
            }
            ChipList::RamPorts => self.ram_port((i / 4) as u8, (i % 4) as u8).get(),
            ChipList::BankSrcBytes => self.ram_src(i as u8),
        }
    }

    /// Returns bit `i` of chain `chain`, or 0 if the board does not have that bit. `chain` and `i` are counted from 0.
    pub fn chain_bit(&self, chain: u8, i: u8) -> Bit
        ensures { result ≡ chain_bit self.now.bus chain i }
    {
        self.rig.chain_bit(chain, i)
    }

    /// Returns the state of the key at a row and a column of the board: 1 if it is down, 0 if it is up.
    pub fn key(&self, row: u8, column: u8) -> Bit
        requires { has_key self.now.bus.board row column ≡ true }
        ensures { result ≡ slice_index self.now.bus.keys (key_index self.now.bus.board row column) }
    {
        self.rig.key(row, column)
    }

    /// Returns the level of the TEST pin.
    pub fn test(&self) -> Bit
        ensures { result ≡ self.now.bus.test }
    {
        self.rig.test_level()
    }

    /// Returns the level of a line, or 0 if the board does not have that line.
    pub fn level(&self, line: Line) -> Bit
        ensures { result ≡ (if is_on_board self.now.bus.board line then level self.now.bus line else 0) }
    {
        if has_line(self.rig.board(), line) {
            self.rig.level(line)
        } else {
            Bit::ZERO
        }
    }

    /// Returns the level of the line that drives lamp `i`, counted from 0. Returns `None` if the board does not have
    /// that lamp.
    pub fn lamp(&self, i: usize) -> Option<Bit>
        ensures { result ≡ option_map (level self.now.bus)
            (slice_get self.now.bus.board.lamps.items i) }
    {
        self.rig.lamp(i)
    }

    /// Returns the breakpoint addresses in ascending order.
    pub fn breaks(&self) -> &[Addr]
        ensures same { result.now ≡ self.now.breakpoints }
        ensures few { length result.now ≤ BREAKPOINTS }
        ensures rising { IsStrictlyIncreasing result.now }
    {
        self.breaks.list()
    }

    /// Returns the indices of the watched RAM nibbles (bank * 256 + SRC byte) in ascending order.
    pub fn watches(&self) -> &[Addr]
        ensures same { result.now ≡ self.now.watches }
        ensures valid { AreWatches result.now }
    {
        self.watches.list()
    }
}

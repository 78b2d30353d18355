//! Functions that create, copy, rewire and reset a rig.

ghost use Rattle.std.specs.Prelude.{◌≡◌, ◌↔◌, IfOk, IsTrue};
ghost use Rattle.mcs_model.specs.Bus.{zero_bus};
ghost use Rattle.mcs_model.specs.ChipWrites.{after_reset, after_board_change};
ghost use Rattle.mcs_model.specs.Validity.{IsValidBus};
ghost use Rattle.mcs_board.specs.Fitting.{FitsSockets};

use crate::banks::{
    banks_fit, clear_banks, copy_banks, empty_banks, rewire_banks, show_banks_are_valid,
};
use crate::chains::{chains_fit, clear_chains, copy_chains, empty_chains, rewire_chains};
use crate::rig::Rig;
use crate::roms::{
    clear_absent_roms, clear_ports, copy_roms, empty_rom_sockets, rewire_roms, roms_fit,
    show_bytes_are_valid, show_roms_are_valid, zeroed_program,
};
use mcs_keypad::KeyPad;
use mcs_model::board::Board;
use mcs_nibble::Bit;
use std::alloc::{AllocError, Global};

/// The maximum number of bits in a chain. A chain reserves a two-byte word for each bit. A longer chain would not fit
/// in any memory.
const MAX_CHAIN_BITS: usize = isize::MAX as usize / 4;

/// The number of ROM addresses.
const ROM_SIZE: usize = 4096;

impl<const ROMS: usize, const BANKS: usize, const CHAINS: usize, const MAX: usize> Rig<
    ROMS,
    BANKS,
    CHAINS,
    MAX,
> {
    /// Returns a rig that is wired to the empty board. All state is 0, except the TEST level, which is 1.
    ///
    /// # Errors
    ///
    /// Fails if memory for the chip sockets and the ROM bytes cannot be allocated. Also fails if a chain of `MAX` bits
    /// would not fit in any memory. Only this function and `copy` allocate memory.
    pub fn new(alloc: Global) -> Result<Self, AllocError>
        ensures { IfOk result (λ rig. rig ≡ record zero_bus { test = 1 }) }
    {
        if MAX > MAX_CHAIN_BITS {
            return Err(AllocError);
        }
        Ok(Rig {
            roms: empty_rom_sockets(alloc, ROMS)?,
            program: zeroed_program(alloc, ROM_SIZE)?,
            banks: empty_banks(alloc, BANKS)?,
            chains: empty_chains(alloc, CHAINS)?,
            key_pad: KeyPad::of(Board::empty()),
            rom_src: 0,
            test: Bit::ONE,
        })
    }

    /// Returns a copy of the rig.
    ///
    /// # Errors
    ///
    /// Fails if memory for the chip sockets and the ROM bytes cannot be allocated. Also fails if a chain of `MAX`
    /// bits would not fit in any memory, but `new` creates no such rig.
    pub fn copy(&self, alloc: Global) -> Result<Self, AllocError>
        ensures { IfOk result (λ rig. rig ≡ self.now) }
    {
        if MAX > MAX_CHAIN_BITS {
            return Err(AllocError);
        }
        Ok(Rig {
            roms: copy_roms(alloc, &self.roms)?,
            program: self.program.to_vec(alloc)?,
            banks: copy_banks(alloc, &self.banks)?,
            chains: copy_chains(alloc, &self.chains)?,
            key_pad: self.key_pad.copy(),
            rom_src: self.rom_src,
            test: self.test,
        })
    }

    /// Wires the rig to another board. The board must fit the rig's sockets. Releases all keys, clears everything
    /// that `reset` clears, and sets to 0 the bytes of ROMs that the board lacks. The other ROM bytes and the TEST
    /// level do not change.
    pub fn wire(&mut self, board: &Board)
        requires { FitsSockets board.now ROMS BANKS CHAINS MAX }
        ensures { self.new ≡ after_board_change self.old board.now }
    {
        rewire_roms(&mut self.roms, board);
        clear_absent_roms(&mut self.program, board);
        rewire_banks(&mut self.banks, board);
        self.key_pad = KeyPad::of(board.copy());
        self.rom_src = 0;
        // A rig without chain sockets has no chain to wire.
        if self.chains.as_slice().is_empty() {
            return;
        }
        rewire_chains(&mut self.chains, board);
    }

    /// Performs a power cycle: sets RAM, port latches, latched SRC bytes and all chain bits to 0, and shifts nothing.
    /// ROM, keys, the TEST level and the board do not change.
    pub fn reset(&mut self)
        ensures { self.new ≡ after_reset self.old }
    {
        clear_ports(&mut self.roms);
        clear_banks(&mut self.banks);
        self.rom_src = 0;
        // A rig without chain sockets has no chain to clear.
        if self.chains.as_slice().is_empty() {
            return;
        }
        clear_chains(&mut self.chains);
    }

    /// Returns whether a board fits the rig's sockets. `wire` accepts only boards that fit.
    pub fn fits(board: &Board) -> bool
        ensures { IsTrue result ↔ FitsSockets board.now ROMS BANKS CHAINS MAX }
    {
        if !roms_fit(board, ROMS) {
            return false;
        }
        if !banks_fit(board, BANKS) {
            return false;
        }
        board.chain_count() <= CHAINS && chains_fit(board, MAX)
    }

    /// Proves that the rig's state is valid: the board is valid, and each value is in its range. Each list has the
    /// length that the board requires. Values of absent chips are 0.
    pub fn show_state_is_valid(&self)
        ensures { IsValidBus self.now }
    {
        let _parts = self.parts();
        show_roms_are_valid(&self.roms);
        show_bytes_are_valid(&self.program);
        show_banks_are_valid(&self.banks);
        self.show_chains_are_valid();
        self.key_pad.show_state_is_valid();
        let _level = self.test.get();
    }
}

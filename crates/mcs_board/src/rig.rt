//! The `Rig` type: a board, its chips and the level of the TEST pin. Each kind of chip has its own module.
ghost use Rattle.std.specs.Prelude.{◌≡◌, None};
ghost use Rattle.mcs_model.specs.Boards.{board_fault_of, HasDeclaredLengths};

use mcs_keypad::KeyPad;
use mcs_model::board::{Board, BoardParts};
use mcs_nibble::Bit;
use mcs_ram4002::Bank;
use mcs_rom4001::RomPort;
use mcs_shift4003::Chain;
use std::marker::Model;

/// A board and the chips on it: at most `ROMS` ROMs, `BANKS` banks of RAM chips, and `CHAINS` shift-register chains
/// of at most `MAX` bits. In contracts, a rig is its flat state (`BusState`).
#[derive(Drop)]
pub struct Rig<const ROMS: usize, const BANKS: usize, const CHAINS: usize, const MAX: usize> {
    pub(crate) roms: Vec<Option<RomPort>>,
    // The ROM bytes, indexed by address, so that a fetch reads one element.
    pub(crate) program: Vec<u8>,
    pub(crate) banks: Vec<Bank<4>>,
    pub(crate) chains: Vec<Chain<MAX>>,
    // The board and the state of its keys.
    pub(crate) key_pad: KeyPad,
    pub(crate) rom_src: u8,
    pub(crate) test: Bit,
}

impl<const ROMS: usize, const BANKS: usize, const CHAINS: usize, const MAX: usize> Model
    for Rig<ROMS, BANKS, CHAINS, MAX> {
    ghost use Rattle.mcs_model.specs.Bus.{BusState};

    ghost Value = { BusState };

    ghost use Rattle.mcs_board.specs.RigState.{state_of_rig, MatchesBoard};
    ghost use Rattle.mcs_board.specs.RigFields.{rig_parts};

    ghost view = { λ r. state_of_rig (rig_parts r) };

    ghost invariant = { λ r. MatchesBoard (rig_parts r) ROMS BANKS CHAINS };
}

impl<const ROMS: usize, const BANKS: usize, const CHAINS: usize, const MAX: usize> Rig<
    ROMS,
    BANKS,
    CHAINS,
    MAX,
> {
    /// Returns the parts of the rig's board. The board is valid.
    pub(crate) fn parts(&self) -> &BoardParts
        ensures same { result.now ≡ self.now.board }
        ensures valid { board_fault_of self.now.board ≡ None }
        ensures sized { HasDeclaredLengths self.now.board }
    {
        let _chains = &self.chains;
        self.key_pad.board().parts()
    }

    /// Returns the board that the rig is wired to.
    pub fn board(&self) -> &Board
        ensures { result.now ≡ self.now.board }
    {
        self.key_pad.board()
    }

    /// Returns the level of the TEST pin.
    pub fn test_level(&self) -> Bit
        ensures { result ≡ self.now.test }
    {
        self.test
    }

    /// Sets the level of the TEST pin.
    pub fn set_test(&mut self, level: Bit)
        ensures { self.new ≡ record self.old { test = level } }
    {
        self.test = level;
    }
}

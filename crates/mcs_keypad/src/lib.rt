//! The keys of a board: the state of each key, and the ROM input lines that the keys pull to 1.
#![tactic(auto)]

ghost use Rattle.std.specs.Prelude.{◌≡◌, ◌+◌, ◌<◌, ◌≤◌, All, length, replicate, slice_index, slice_set};
ghost use Rattle.mcs_nibble.specs.Bits.{nibble_of};
ghost use Rattle.mcs_model.specs.Boards.{key_count};
ghost use Rattle.mcs_model.specs.Levels.{is_pulled_by, bit_when};
ghost use Rattle.mcs_keypad.specs.Keys.{matrix_of_board};

mod scanned;

use crate::scanned::ScannedKeys;
use mcs_model::board::Board;
use mcs_nibble::{Bit, Nibble};
use mcs_shift4003::Chain;
use std::marker::Model;

/// A board and the states of its keys. Only the board stores the key matrix. In contracts, the
/// value of a key pad is the board and a list of key states, row by row. The state of a key is 1 if
/// the key is down, and 0 if it is up.
#[derive(Drop)]
pub struct KeyPad {
    board: Board,
    keys: ScannedKeys,
}

impl Model for KeyPad {
    ghost use Rattle.mcs_keypad.specs.Keys.{KeyState, MatchesMatrix, matrix_of_board};

    ghost Value = { KeyState };

    ghost view = { λ k. record { board = k.board; down = k.keys.down } };

    ghost invariant = { λ k. MatchesMatrix (matrix_of_board k.board) k.keys };
}

impl KeyPad {
    /// Returns a key pad for a board. All its keys are up.
    pub fn of(board: Board) -> KeyPad
        ensures { result ≡ record { board = board; down = replicate (key_count board) 0 } }
    {
        let keys = match &board.parts().keys {
            Some(matrix) => ScannedKeys::of(matrix),
            None => ScannedKeys::without_keys(),
        };
        KeyPad { board, keys }
    }

    /// Returns a copy of the key pad.
    pub fn copy(&self) -> KeyPad
        ensures { result ≡ self.now }
    {
        KeyPad {
            board: self.board.copy(),
            keys: self.keys.copy(),
        }
    }

    /// Returns the board to which the keys belong.
    #[inline]
    pub fn board(&self) -> &Board
        ensures { result.now ≡ self.now.board }
    {
        &self.board
    }

    /// Returns the state of the key at index `at`: 1 if it is down, 0 if it is up. Keys are indexed row by row.
    pub fn key(&self, at: usize) -> Bit
        requires { at < length self.now.down }
        ensures { result ≡ slice_index self.now.down at }
    {
        self.keys.key(at)
    }

    /// Sets the state of the key at index `at`: 1 for down, 0 for up. Keys are indexed row by row.
    pub fn set_key(&mut self, at: usize, bit: Bit)
        requires { at < length self.old.down }
        ensures { self.new ≡ record self.old { down = slice_set self.old.down at bit } }
    {
        match &self.board.parts().keys {
            Some(matrix) => self.keys.set_key(matrix, at, bit),
            None => {}
        }
    }

    /// Returns a nibble in which bit `k` is 1 if a key pulls line `k` of ROM `chip` to 1. `bits` is the chain that
    /// drives the rows of the key matrix. The chain must have a bit for each row.
    #[inline]
    pub fn lines_pulled<const MAX: usize>(&self, bits: &Chain<MAX>, chip: Nibble) -> Nibble
        requires { (matrix_of_board self.now.board).first + (matrix_of_board self.now.board).rows
            ≤ length bits.now }
        ensures { result ≡ nibble_of (λ k.
            bit_when (is_pulled_by bits.now self.now.down (matrix_of_board self.now.board) chip k)) }
    {
        match &self.board.parts().keys {
            Some(matrix) => self.keys.lines_pulled(matrix, bits, chip),
            None => Nibble::ZERO,
        }
    }

    /// Proves that the state of each key is 0 or 1.
    pub fn show_state_is_valid(&self)
        ensures { All (λ key. key < 2) self.now.down }
    {
        self.keys.show_state_is_valid();
    }
}

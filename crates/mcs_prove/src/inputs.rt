//! The inputs that a question allows, and the resulting limits on the inputs of a machine with a given board.
ghost use Rattle.std.specs.Prelude.{◌≡◌, length, replicate, IfOk};
ghost use Rattle.mcs_model.specs.declared.board.BoardParts.{BoardParts};
ghost use Rattle.mcs_model.specs.Boards.{key_count};
ghost use Rattle.mcs_drive.specs.DrivenRuns.{no_limits};
ghost use Rattle.mcs_prove.specs.AllowedInputs.{all_inputs, highest_key_levels, highest_test_level, limits_of, most_keys_down, with_pressable_key, with_pressable_keys};

use mcs_check::InputLimits;
use mcs_model::board::Board;
use mcs_nibble::Bit;
use std::alloc::{AllocError, Global};
use std::marker::Model;

/// A key, identified by its row and its column. The board does not necessarily have the key.
#[derive(Clone, Copy, Debug)]
pub struct KeyPosition {
    /// The row of the key.
    pub row: u8,
    /// The column of the key.
    pub column: u8,
}

/// The inputs that a question allows. A question can limit the keys that may be pressed, their number at a time and the
/// time for which one stays down. It can also keep TEST at 0, and limit how often the levels change.
#[derive(Drop)]
pub struct AllowedInputs {
    /// True if only the keys in `pressable` may be pressed, and TEST may be 1 only if `test_may_change` is true. False
    /// if all keys may be pressed and TEST may be 1.
    pub is_restricted: bool,
    /// The keys that may be pressed if `is_restricted` is true. A key that the board does not have has no effect.
    pub pressable: Vec<KeyPosition>,
    /// True if TEST may be 1 even if `is_restricted` is true.
    pub test_may_change: bool,
    /// The maximum number of keys that are down at a time, if there is a limit.
    pub together: Option<u8>,
    /// The smallest number of cycles between two changes of the levels, or 0 if there is no limit.
    pub wait: u32,
    /// The largest number of cycles for which a key stays down, or 0 if there is no limit.
    pub held: u32,
}

impl Model for AllowedInputs {
    ghost use Rattle.mcs_prove.specs.AllowedInputs.{AllowedInputs};

    ghost Value = { AllowedInputs };

    ghost view = { λ a. record {
      is_restricted = a.is_restricted;
      pressable = a.pressable.items;
      test_may_change = a.test_may_change;
      together = a.together;
      wait = a.wait;
      held = a.held;
    } };
}

/// Sets the highest level of a key to 1. Does nothing if the board does not have the key.
fn allow_key(levels: &mut Vec<Bit>, board: &Board, key: KeyPosition)
    requires { length levels.old.items ≡ key_count board.now }
    ensures { levels.new.items ≡ with_pressable_key board.now levels.old.items key }
{
    if let Some(matrix) = &board.parts().keys {
        let columns = matrix.columns.len();
        if key.row < matrix.rows && usize::from(key.column) < columns {
            levels[usize::from(key.row) * columns + usize::from(key.column)] = Bit::ONE;
        }
    }
}

/// Returns the highest level of each key of a board if only the keys in `keys` may be pressed.
fn levels_of_pressable(
    alloc: Global,
    board: &Board,
    keys: &[KeyPosition],
) -> Result<Vec<Bit>, AllocError>
    ensures { IfOk result (λ levels.
        levels.items ≡ with_pressable_keys board.now (replicate (key_count board.now) 0) keys.now) }
{
    let mut levels = vec![in alloc; Bit::ZERO; board.key_count()]?;
    for key in keys {
        allow_key(&mut levels, board, *key);
    }
    Ok(levels)
}

impl AllowedInputs {
    /// Returns the inputs of a question without limits. All keys may be pressed, any number of them at a time and for
    /// any number of cycles, and TEST may be 1.
    pub fn all(alloc: Global) -> AllowedInputs
        ensures value { result ≡ all_inputs }
        ensures no_limits { (b : BoardParts) → limits_of result b ≡ no_limits b }
    {
        AllowedInputs {
            is_restricted: false,
            pressable: Vec::new(alloc),
            test_may_change: false,
            together: None,
            wait: 0,
            held: 0,
        }
    }

    /// Returns the highest level of each key of a board, row by row: 1 if the key may be pressed, otherwise 0.
    fn highest_key_levels(&self, alloc: Global, board: &Board) -> Result<Vec<Bit>, AllocError>
        ensures { IfOk result (λ levels. levels.items ≡ highest_key_levels self.now board.now) }
    {
        if self.is_restricted {
            levels_of_pressable(alloc, board, &self.pressable)
        } else {
            vec![in alloc; Bit::ONE; board.key_count()]
        }
    }

    /// Returns the highest level of TEST.
    fn highest_test_level(&self) -> Bit
        ensures { result ≡ highest_test_level self.now }
    {
        if self.is_restricted && !self.test_may_change {
            Bit::ZERO
        } else {
            Bit::ONE
        }
    }

    /// Returns the maximum number of keys of a board that are down at a time.
    fn most_keys_down(&self, board: &Board) -> u32
        ensures { result ≡ most_keys_down self.now board.now }
    {
        match self.together {
            Some(together) => u32::from(together),
            None => board.key_count() as u32,
        }
    }

    /// Returns the limits on the inputs of a machine with this board.
    pub fn limits_of(&self, alloc: Global, board: &Board) -> Result<InputLimits, AllocError>
        ensures { IfOk result (λ limits. limits ≡ limits_of self.now board.now) }
    {
        Ok(InputLimits::of(
            self.highest_key_levels(alloc, board)?,
            self.highest_test_level(),
            self.most_keys_down(board),
            self.wait,
            self.held,
        ))
    }
}

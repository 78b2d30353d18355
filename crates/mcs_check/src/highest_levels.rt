//! Sets the inputs of a machine to their levels in a search: each key at its highest level, and TEST at 0.
ghost use Rattle.std.specs.Prelude.{◌≡◌, ◌<◌, ℕ, length};
ghost use Rattle.mcs_model.specs.Boards.{key_count};
ghost use Rattle.mcs_check.specs.HighestLevels.{IsKeyAt, with_highest_keys};

use crate::limits::InputLimits;
use crate::replica::SearchMachine;
use mcs_board::BenchRig;
use mcs_model::board::Board;
use mcs_nibble::Bit;

/// Returns the number of columns in a board's key matrix, or 1 if the board has no key matrix. With this number as
/// `columns`, key `i` is in row `i / columns` and column `i % columns`.
fn columns_of(board: &Board) -> usize
    ensures { (i : ℕ) → i < key_count board.now → IsKeyAt board.now result i }
{
    match &board.parts().keys {
        Some(matrix) => matrix.columns.len(),
        None => 1,
    }
}

/// Sets each key of a rig to its level in `levels`, row by row.
pub(crate) fn set_keys(rig: &mut BenchRig, levels: &[Bit])
    requires { length levels.now ≡ key_count rig.old.board }
    ensures { rig.new ≡ record rig.old { keys = levels.now } }
{
    rig.show_state_is_valid();
    let count = rig.board().key_count();
    let columns = columns_of(rig.board());
    for i in 0..count {
        rig.set_key((i / columns) as u8, (i % columns) as u8, levels[i]);
    }
}

impl SearchMachine {
    /// Sets each key to its highest level within the limits, and TEST to 0.
    pub(crate) fn set_highest_keys(&mut self, limits: &InputLimits)
        requires { length limits.now.keys ≡ key_count self.old.1.board }
        ensures { self.new ≡ with_highest_keys limits.now self.old }
    {
        set_keys(&mut self.rig, limits.keys());
        self.rig.set_test(Bit::ZERO);
    }
}

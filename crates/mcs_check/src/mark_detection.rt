//! Detects the marks that a read of a port shows.
ghost use Rattle.std.specs.Prelude.{◌≡◌, ◌<◌, ◌≤◌, ◌+◌, ◌==◌, ◌&&◌, Some, length, not, true};
ghost use Rattle.std.specs.List.{list_any, range_with_len};
ghost use Rattle.mcs_nibble.specs.Bits.{bit_of};
ghost use Rattle.mcs_model.specs.Boards.{is_matrix_size};
ghost use Rattle.mcs_model.specs.Levels.{is_rom_line};
ghost use Rattle.mcs_model.specs.declared.op.Op.TheVariants.{Rdr};
ghost use Rattle.mcs_drive.specs.Marks.{can_other_key_pull, column_line, is_row_driven, line_shows, port_shows};
ghost use Rattle.mcs_drive.specs.TrackedMachine.{seen_count_after, seen_mark_count, shows_next_mark};
ghost use Rattle.mcs_check.specs.Conditions.{observer_of_property};
ghost use Rattle.mcs_check.specs.ReadPoints.{Begins};

use crate::property::Property;
use crate::replica::SearchMachine;
use mcs_board::BenchRig;
use mcs_drive::Mark;
use mcs_model::board::{KeyMatrix, Line};
use mcs_nibble::Nibble;

/// Returns bit `k` of a nibble, or 0 if `k` is above 3.
fn bit_at(n: Nibble, k: u8) -> u8
    ensures { result ≡ bit_of n k }
{
    if k < 4 { n.bit(k).get() } else { 0 }
}

/// Returns whether `line` is line `k` of ROM `chip`.
fn is_rom_line(line: Line, chip: u8, k: u8) -> bool
    ensures { result ≡ is_rom_line chip k line }
{
    match line {
        Line::Rom(c, j) => c == chip && j == k,
        Line::Ram(_, _, _) | Line::Chain(_, _) => false,
    }
}

/// Returns the line that column `j` of the key matrix pulls.
fn column_line(matrix: &KeyMatrix, j: usize) -> Line
    requires { j < length matrix.now.columns.items }
    ensures { result ≡ column_line matrix.now j }
{
    matrix.columns.as_slice()[j]
}

/// Returns whether row `r` of the key matrix is driven.
fn is_row_driven(rig: &BenchRig, matrix: &KeyMatrix, r: u8) -> bool
    requires { matrix.now.first + r < 256 }
    ensures { result ≡ is_row_driven rig.now matrix.now r }
{
    rig.chain_bit(matrix.chain, matrix.first + r).get() == 1
}

/// Returns whether row `r` is driven and its key in column `j` is not the mark's key.
fn is_other_key_driven(rig: &BenchRig, matrix: &KeyMatrix, mark: Mark, j: usize, r: u8) -> bool
    requires { matrix.now.first + r < 256 }
    ensures { result ≡ (is_row_driven rig.now matrix.now r && not (r == mark.row && j == mark.column)) }
{
    is_row_driven(rig, matrix, r) && !(r == mark.row && j == usize::from(mark.column))
}

/// Returns whether a key in column `j`, other than the mark's key, is in a driven row.
fn column_has_other_driven_key(rig: &BenchRig, matrix: &KeyMatrix, mark: Mark, j: usize) -> bool
    requires { is_matrix_size matrix.now ≡ true }
    ensures { result ≡ list_any (λ r. is_row_driven rig.now matrix.now r && not (r == mark.row && j == mark.column))
        (range_with_len 0 matrix.now.rows) }
{
    for r in 0..matrix.rows {
        if is_other_key_driven(rig, matrix, mark, j, r) {
            return true;
        }
    }
    false
}

/// Returns whether a key in column `j`, other than the mark's key, can pull line `k` of ROM `chip`.
fn can_other_key_of_column_pull(
    rig: &BenchRig,
    matrix: &KeyMatrix,
    mark: Mark,
    j: usize,
    chip: u8,
    k: u8,
) -> bool
    requires size { is_matrix_size matrix.now ≡ true }
    requires column { j < length matrix.now.columns.items }
    ensures { result ≡ (is_rom_line chip k (column_line matrix.now j)
        && list_any (λ r. is_row_driven rig.now matrix.now r && not (r == mark.row && j == mark.column))
        (range_with_len 0 matrix.now.rows)) }
{
    is_rom_line(column_line(matrix, j), chip, k)
        && column_has_other_driven_key(rig, matrix, mark, j)
}

/// Returns whether a key other than the mark's key can pull line `k` of ROM `chip`.
fn can_other_key_pull(rig: &BenchRig, matrix: &KeyMatrix, mark: Mark, chip: u8, k: u8) -> bool
    requires { is_matrix_size matrix.now ≡ true }
    ensures { result ≡ can_other_key_pull rig.now matrix.now mark chip k }
{
    for j in 0..matrix.columns.len() {
        if can_other_key_of_column_pull(rig, matrix, mark, j, chip, k) {
            return true;
        }
    }
    false
}

/// Returns whether the value `value`, read at the port of the selected ROM, shows the mark. `line` is the line that
/// the mark's key pulls.
fn line_shows(rig: &BenchRig, matrix: &KeyMatrix, value: Nibble, mark: Mark, line: Line) -> bool
    requires size { is_matrix_size matrix.now ≡ true }
    requires row { mark.row < matrix.now.rows }
    ensures { result ≡ line_shows rig.now matrix.now value mark line }
{
    match line {
        Line::Rom(chip, k) => {
            if chip != rig.rom_src() / 16 {
                return false;
            }
            if mark.is_down {
                bit_at(value, k) == 1 && !can_other_key_pull(rig, matrix, mark, chip, k)
            } else {
                bit_at(value, k) == 0 && is_row_driven(rig, matrix, mark.row)
            }
        }
        Line::Ram(_, _, _) | Line::Chain(_, _) => false,
    }
}

/// Returns whether the value `value`, read at the port of the selected ROM, shows the mark. Returns false if the
/// board does not have the mark's key.
fn port_shows(rig: &BenchRig, value: Nibble, mark: Mark) -> bool
    ensures { result ≡ port_shows rig.now value mark }
{
    let board = rig.board();
    if !board.has_key(mark.row, mark.column) {
        return false;
    }
    match &board.parts().keys {
        Some(matrix) => {
            let line = column_line(matrix, usize::from(mark.column));
            line_shows(rig, matrix, value, mark, line)
        }
        None => false,
    }
}

impl SearchMachine {
    /// Returns the number of marks seen since a conjunction in `opens` was last met.
    fn seen_mark_count(&self, property: &Property) -> u8
        ensures seen { result ≡ seen_mark_count (length property.now.marks) self.now.2.seen }
        ensures few { result ≤ 200 }
    {
        if property.mark_count() < self.seen {
            0
        } else {
            self.seen
        }
    }

    /// Returns whether the next cycle, an RDR, shows the next mark if it reads this value.
    pub(crate) fn shows_next_mark(&self, property: &Property, value: u8) -> bool
        requires reads { Begins (λ op. op ≡ Rdr) self.now }
        requires value { value < 16 }
        ensures { result ≡ shows_next_mark (observer_of_property property.now) self.now value }
    {
        match property.mark(self.seen_mark_count(property)) {
            Some(mark) => port_shows(&self.rig, Nibble::low_of(value), mark),
            None => false,
        }
    }

    /// Returns the value of `seen` after the next cycle. `is_open` is true if a conjunction in `opens` is met before
    /// the cycle. The value is then the number of marks plus 1, which `seen_mark_count` reads as 0. `shown` is true if
    /// the next cycle shows the next mark.
    pub(crate) fn seen_after(&self, property: &Property, is_open: bool, shown: bool) -> u8
        ensures { result ≡ seen_count_after (length property.now.marks) self.now.2.seen is_open shown }
    {
        if is_open {
            return property.mark_count() + 1;
        }
        let seen = self.seen_mark_count(property);
        if shown { seen + 1 } else { seen }
    }
}

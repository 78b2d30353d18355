//! Key states, and the column masks from which a read of a port is computed.
//!
//! A column mask is a byte with a bit for each column: bit `j` is for column `j`. Each row has a
//! mask of the columns in which its key is down. Each line of each ROM has a mask of the columns
//! that are connected to this line. A read of a port takes at most ten ORs of row masks, and four
//! ANDs with line masks. The number of these operations does not depend on the number of columns or
//! on the number of keys that are down.

ghost use Rattle.std.specs.Prelude.{◌≡◌, ℕ, ◌+◌, ◌*◌, ◌/◌, ◌%◌, ◌<◌, ◌≤◌, Bool, ◌&&◌, All, length, replicate, slice_index, slice_index_or, slice_set};
ghost use Rattle.std.specs.List.{list_any, range_with_len};
ghost use Rattle.mcs_nibble.specs.Bits.{nibble_of};
ghost use Rattle.mcs_model.specs.declared.board.Line.TheVariants.{Rom};
ghost use Rattle.mcs_model.specs.Levels.{is_rom_line, row_drives_column, is_pulled_by, bit_when};
ghost use Rattle.mcs_keypad.specs.Keys.{empty_matrix, IsColumnMask, MatchesMatrix, is_down};

use arrayvec::ArrayVec;
use mcs_model::board::{KeyMatrix, Line};
use mcs_model::limits::{KEY_COLUMNS, KEY_ROWS, KEYS, ROMS};
use mcs_nibble::{Bit, Nibble};
use mcs_shift4003::Chain;
use std::marker::Model;

// The number of row masks: one for each key row.
const ROW_MASKS: usize = KEY_ROWS as usize;

// The number of line masks: one for each line of each ROM.
const LINE_MASKS: usize = 4 * ROMS;

/// The key states of a matrix, and the column masks of its rows and of all ROM lines. In a column
/// mask, bit `j` is for column `j`.
#[derive(Drop)]
pub(crate) struct ScannedKeys {
    // The key states, row by row.
    down: ArrayVec<Bit, KEYS>,
    // For each row, the mask of the columns in which its key is down.
    rows: [u8; ROW_MASKS],
    // At index `4 * c + k`, the mask of the columns that are connected to line `k` of ROM `c`.
    lines: [u8; LINE_MASKS],
}

impl Model for ScannedKeys {
    ghost use Rattle.mcs_keypad.specs.Keys.{ScannedState};

    ghost Value = { ScannedState };

    ghost view = { λ k. record { down = k.down.items; row_masks = k.rows; line_masks = k.lines } };
}

/// Returns true if `column`, the line to which a key column is connected, is line `k` of ROM `chip`.
fn matches_rom_line(column: Line, chip: u8, k: u8) -> bool
    ensures { result ≡ is_rom_line chip k column }
{
    match column {
        Line::Rom(c, j) => c == chip && j == k,
        Line::Ram(_, _, _) | Line::Chain(_, _) => false,
    }
}

/// Returns true if the key at index `at` is down. Returns false if it is up, or if `at` is past the last key. Keys
/// are indexed row by row.
fn is_down(down: &[Bit], at: usize) -> bool
    ensures { result ≡ is_down down.now at }
{
    match down.get(at) {
        Some(bit) => bit.get() == 1,
        None => false,
    }
}

/// Returns the column mask of a row with `columns` keys: bit `j` is 1 if the key at index `from + j` is down. The
/// first key of the row has index `from`. Bit `columns` and all bits above it are 0.
fn row_mask(down: &[Bit], from: usize, columns: usize) -> u8
    requires columns { columns ≤ KEY_COLUMNS }
    requires from { from ≤ KEYS }
    ensures { IsColumnMask result columns (λ j. is_down down.now (from + j)) }
{
    let mut byte: u8 = 0;
    for j in 0..columns {
        if is_down(down, from + j) {
            byte |= 1 << j;
        }
    }
    byte
}

/// Returns the column mask of one ROM line: bit `j` is 1 if column `j` is connected to line `k` of ROM `chip`.
fn line_mask(columns: &[Line], chip: u8, k: u8) -> u8
    requires { length columns.now ≤ KEY_COLUMNS }
    ensures { IsColumnMask result (length columns.now)
        (λ j. is_rom_line chip k (slice_index_or columns.now j (Rom 0 0))) }
{
    let mut byte: u8 = 0;
    for j in 0..columns.len() {
        if matches_rom_line(columns[j], chip, k) {
            byte |= 1 << j;
        }
    }
    byte
}

/// Returns the column mask of each of the first `rows` rows: bit `j` is 1 if the row's key in column `j` is down.
fn row_masks(down: &[Bit], rows: u8, columns: usize) -> [u8; ROW_MASKS]
    requires rows { rows ≤ KEY_ROWS }
    requires columns { columns ≤ KEY_COLUMNS }
    ensures { (r : ℕ) → r < rows →
        IsColumnMask (slice_index result r) columns (λ j. is_down down.now (r * columns + j)) }
{
    let mut bytes = [0; ROW_MASKS];
    for r in 0..usize::from(rows) {
        bytes[r] = row_mask(down, r * columns, columns);
    }
    bytes
}

/// Returns the column masks of all ROM lines. The mask of line `k` of ROM `c` is at index `4 * c + k`: bit `j` is 1
/// if column `j` is connected to this line.
fn line_masks(columns: &[Line]) -> [u8; LINE_MASKS]
    requires { length columns.now ≤ KEY_COLUMNS }
    ensures { (i : ℕ) → i < LINE_MASKS →
        IsColumnMask (slice_index result i) (length columns.now)
        (λ j. is_rom_line (i / 4) (i % 4) (slice_index_or columns.now j (Rom 0 0))) }
{
    let mut bytes = [0; LINE_MASKS];
    for i in 0..LINE_MASKS as u8 {
        bytes[usize::from(i)] = line_mask(columns, i / 4, i % 4);
    }
    bytes
}

/// Returns 1 if the masks `line` and `driven_columns` have a column in common, and 0 otherwise.
fn have_common_column(line: u8, driven_columns: u8) -> Bit
    ensures { (n : ℕ) (p q : ℕ → Bool) → IsColumnMask line n p → IsColumnMask driven_columns n q →
        result ≡ bit_when (list_any (λ j. p j && q j) (range_with_len 0 n)) }
{
    if line & driven_columns == 0 {
        Bit::ZERO
    } else {
        Bit::ONE
    }
}

/// Returns the states of `rows * columns` keys that are all up.
fn all_keys_up(rows: u8, columns: usize) -> ArrayVec<Bit, KEYS>
    requires rows { rows ≤ KEY_ROWS }
    requires columns { columns ≤ KEY_COLUMNS }
    ensures { result.items ≡ replicate (rows * columns) 0 }
{
    let mut down = ArrayVec::new();
    for _ in 0..usize::from(rows) * columns {
        down.push(Bit::ZERO);
    }
    down
}

/// Returns a copy of the key states.
fn copy_keys(down: &ArrayVec<Bit, KEYS>) -> ArrayVec<Bit, KEYS>
    ensures { result.items ≡ down.now.items }
{
    let mut copy = ArrayVec::new();
    for key in down.as_slice() {
        copy.push(*key);
    }
    copy
}

impl ScannedKeys {
    /// Returns the keys of a matrix without rows and columns.
    pub(crate) fn without_keys() -> ScannedKeys
        ensures all_keys_up { result.down ≡ replicate 0 0 }
        ensures scanned { MatchesMatrix empty_matrix result }
    {
        ScannedKeys::of(&KeyMatrix {
            chain: 0,
            first: 0,
            rows: 0,
            columns: ArrayVec::new(),
        })
    }

    /// Returns the keys of a matrix. All keys are up.
    pub(crate) fn of(matrix: &KeyMatrix) -> ScannedKeys
        requires { matrix.now.rows ≤ KEY_ROWS }
        ensures all_keys_up { result.down ≡ replicate (matrix.now.rows * length matrix.now.columns.items) 0 }
        ensures scanned { MatchesMatrix matrix.now result }
    {
        let columns = matrix.columns.len();
        let down = all_keys_up(matrix.rows, columns);
        let rows = row_masks(down.as_slice(), matrix.rows, columns);
        let lines = line_masks(matrix.columns.as_slice());
        ScannedKeys { down, rows, lines }
    }

    /// Returns a copy of the keys.
    pub(crate) fn copy(&self) -> ScannedKeys
        ensures { result ≡ self.now }
    {
        ScannedKeys {
            down: copy_keys(&self.down),
            rows: self.rows,
            lines: self.lines,
        }
    }

    /// Returns the state of the key at index `at`: 1 if it is down, 0 if it is up. Keys are indexed row by row.
    pub(crate) fn key(&self, at: usize) -> Bit
        requires { at < length self.now.down }
        ensures { result ≡ slice_index self.now.down at }
    {
        self.down[at]
    }

    /// Sets the state of the key at index `at` of the matrix: 1 for down, 0 for up. Keys are indexed row by row.
    pub(crate) fn set_key(&mut self, matrix: &KeyMatrix, at: usize, bit: Bit)
        requires at { at < length self.old.down }
        requires scanned { MatchesMatrix matrix.now self.old }
        ensures down { self.new.down ≡ slice_set self.old.down at bit }
        ensures scanned { MatchesMatrix matrix.now self.new }
    {
        self.down[at] = bit;
        self.rows = row_masks(self.down.as_slice(), matrix.rows, matrix.columns.len());
    }

    /// Returns the mask of the columns that at least one row drives. A row drives a column if the row's bit in the
    /// chain `bits` is 1 and its key in that column is down.
    fn driven_columns<const MAX: usize>(&self, matrix: &KeyMatrix, bits: &Chain<MAX>) -> u8
        requires scanned { MatchesMatrix matrix.now self.now }
        requires rows { matrix.now.first + matrix.now.rows ≤ length bits.now }
        ensures { IsColumnMask result (length matrix.now.columns.items)
            (λ j. list_any (row_drives_column bits.now self.now.down matrix.now j)
            (range_with_len 0 matrix.now.rows)) }
    {
        let levels = bits.ten_bits_from(usize::from(matrix.first));
        let mut remaining_levels = levels;
        let mut driven_columns: u8 = 0;
        for r in 0..usize::from(matrix.rows) {
            // The chain bits of all remaining rows are 0.
            if remaining_levels == 0 {
                return driven_columns;
            }
            if remaining_levels & 1 == 1 {
                driven_columns |= self.rows[r];
            }
            remaining_levels /= 2;
        }
        driven_columns
    }

    /// Returns a nibble in which bit `k` is 1 if a key of the matrix pulls line `k` of ROM `chip` to 1. `bits` is the
    /// chain that drives the rows of the matrix.
    pub(crate) fn lines_pulled<const MAX: usize>(
        &self,
        matrix: &KeyMatrix,
        bits: &Chain<MAX>,
        chip: Nibble,
    ) -> Nibble
        requires scanned { MatchesMatrix matrix.now self.now }
        requires rows { matrix.now.first + matrix.now.rows ≤ length bits.now }
        ensures { result ≡ nibble_of
            (λ k. bit_when (is_pulled_by bits.now self.now.down matrix.now chip k)) }
    {
        let driven_columns = self.driven_columns(matrix, bits);
        let at = 4 * usize::from(chip.get());
        Nibble::of_bits(
            have_common_column(self.lines[at], driven_columns),
            have_common_column(self.lines[at + 1], driven_columns),
            have_common_column(self.lines[at + 2], driven_columns),
            have_common_column(self.lines[at + 3], driven_columns),
        )
    }

    /// Proves that the state of each key is 0 or 1.
    pub(crate) fn show_state_is_valid(&self)
        ensures { All (λ key. key < 2) self.now.down }
    {
        for i in 0..self.down.len() {
            let _level = self.down[i].get();
        }
    }
}

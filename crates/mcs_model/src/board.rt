//! The parts of a board, and the check that they form a valid board.

ghost use Rattle.std.specs.Prelude.{◌≤◌, ◌≡◌, ◌<◌, ◌*◌, ◌||◌, ℕ, List, not, MatchOption, Ok, Err, Some, None, nat_lt, nat_le, length, slice_get, slice_index};
ghost use Rattle.std.specs.List.{list_any};
ghost use Rattle.mcs_nibble.specs.declared.lines.LineMask.{LineMask};
ghost use Rattle.mcs_model.specs.Boards.{board_fault_of, in_range, is_on_board, rom_masks, is_input_line, is_output_line, is_chain_size, is_matrix_size, has_bad_matrix, has_bad_value, lacks_rows, lacks_line, has_wrong_direction, any_chain_line, any_column, any_lamp, any_line, is_rom_input_line, chain_bits, chain_count, chain_part, has_key, key_count, empty_parts, HasDeclaredLengths};
ghost use Rattle.mcs_model.specs.RefusalNumbers.{board_fault_number};

use crate::limits::{
    BANK_CHIPS, BANKS, CHAIN_BITS, CHAIN_CHIPS, CHAINS, KEY_COLUMNS, KEY_ROWS, KEYS, LAMPS, ROMS,
};
use crate::refusal_numbers;
use arrayvec::ArrayVec;
use mcs_nibble::LineMask;
use std::marker::Model;
use thiserror::Error;

/// A line, identified by its numbers. The numbers are not checked, so the line need not exist on any board.
#[derive(Clone, Copy, Debug, PartialEq, Eq)]
pub enum Line {
    /// A port line of a ROM: the chip (0 to 15) and the line (0 to 3).
    Rom(u8, u8),
    /// An output line of a RAM chip: the bank (0 to 7), the chip (0 to 3) and the line (0 to 3).
    Ram(u8, u8, u8),
    /// An output of a shift-register chain: the chain (0 to 3) and the bit (0 to 79).
    Chain(u8, u8),
}

impl Default for Line {
    fn default() -> Line {
        Line::Rom(0, 0)
    }
}

/// A chain of 4003 shift registers, ten bits each.
#[derive(Clone, Copy, Debug, Default, PartialEq, Eq)]
pub struct ChainPart {
    /// The output line that clocks the chain.
    pub clock: Line,
    /// The output line whose level the chain shifts in.
    pub data_in: Line,
    /// The number of 4003 chips in the chain.
    pub chips: u8,
}

impl ChainPart {
    /// Returns the number of bits in the chain: ten for each chip.
    pub fn bits(self) -> u16
        ensures { result ≡ 10 * self.chips }
    {
        10 * u16::from(self.chips)
    }
}

/// A key matrix. The outputs of a chain drive its rows, and each column is connected to an input line of a ROM.
#[derive(Debug, Drop)]
pub struct KeyMatrix {
    /// The number of the chain that drives the rows.
    pub chain: u8,
    /// The chain bit that drives row 0. Bit `first + r` drives row `r`.
    pub first: u8,
    /// The number of rows.
    pub rows: u8,
    /// The line to which each column is connected, column 0 first.
    pub columns: ArrayVec<Line, KEY_COLUMNS>,
}

impl KeyMatrix {
    /// Returns a copy of the matrix.
    pub fn copy(&self) -> KeyMatrix
        ensures { result ≡ self.now }
    {
        KeyMatrix {
            chain: self.chain,
            first: self.first,
            rows: self.rows,
            columns: copy_of_list(&self.columns),
        }
    }
}

/// The parts of a board. They can be invalid: `Board::of` checks them.
#[derive(Debug, Drop)]
pub struct BoardParts {
    /// The mask options of the four port lines of each ROM, line 0 first, indexed by chip number. The entry of an
    /// absent ROM is `None`.
    pub roms: [Option<[LineMask; 4]>; ROMS],
    /// The number of 4002 chips in each bank.
    pub banks: [u8; BANKS],
    /// The shift-register chains.
    pub chains: ArrayVec<ChainPart, CHAINS>,
    /// The key matrix, if any.
    pub keys: Option<KeyMatrix>,
    /// The line whose level each lamp shows, lamp 0 first.
    pub lamps: ArrayVec<Line, LAMPS>,
}

/// The reason why parts do not form a valid board. If several reasons apply, `Board::of` reports the first one in the
/// order of the variants.
#[derive(Clone, Copy, Debug, PartialEq, Eq, Error)]
pub enum BoardFault {
    /// A number is out of range, or a key matrix has no columns (refusal 23).
    #[error("a number is out of its range, or a key matrix has no column")]
    BadValue,
    /// A line that the parts name, or the chain of the key matrix, is not on the board. This error is also reported
    /// if that chain has too few bits for the key rows (refusal 25).
    #[error("a line, a chain or a row's bit is not on the board")]
    NoSuchLine,
    /// A clock or data line is not an output line, a column is not an input line, or a lamp shows an input line
    /// (refusal 26).
    #[error("an input line is used as an output line, or an output line as an input line")]
    WrongDirection,
}

impl BoardFault {
    /// Returns the refusal number of this error.
    pub fn number(self) -> u8
        ensures { result ≡ board_fault_number self }
    {
        match self {
            BoardFault::BadValue => refusal_numbers::BAD_VALUE,
            BoardFault::NoSuchLine => refusal_numbers::NO_SUCH_LINE,
            BoardFault::WrongDirection => refusal_numbers::WRONG_DIRECTION,
        }
    }
}

/// Returns true if each number that names the line (bank, chip, chain, line or bit) is in range.
fn is_in_range(line: Line) -> bool
    ensures { result ≡ in_range line }
{
    match line {
        Line::Rom(chip, k) => usize::from(chip) < ROMS && k < 4,
        Line::Ram(bank, chip, k) => usize::from(bank) < BANKS && chip < BANK_CHIPS && k < 4,
        Line::Chain(n, i) => usize::from(n) < CHAINS && i < CHAIN_BITS,
    }
}

/// Returns true if a number that names one of the lines is out of range.
fn has_line_out_of_range(lines: &[Line]) -> bool
    ensures { result ≡ list_any (λ line. not (in_range line)) lines.now }
{
    lines.iter().any(|line| !is_in_range(*line))
}

/// Returns true if a number that names the clock line or the data line of the chain is out of range.
fn has_chain_line_out_of_range(chain: ChainPart) -> bool
    ensures { result ≡ (not (in_range chain.clock) || not (in_range chain.data_in)) }
{
    !is_in_range(chain.clock) || !is_in_range(chain.data_in)
}

/// Returns true if the chain has 1 to 8 chips.
fn has_valid_size(chain: ChainPart) -> bool
    ensures { result ≡ is_chain_size chain }
{
    0 < chain.chips && chain.chips <= CHAIN_CHIPS
}

/// Proves that an array of four mask options has length 4. The array is passed by value because the prover then knows
/// its length.
fn prove_length_four(mask: [LineMask; 4])
    ensures { length mask ≡ 4 }
{
    let _mask = mask;
}

fn prove_length_four_if_some(masks: Option<[LineMask; 4]>)
    ensures { (mask : List LineMask) → masks ≡ Some mask → length mask ≡ 4 }
{
    if let Some(mask) = masks {
        prove_length_four(mask);
    }
}

impl KeyMatrix {
    /// Returns true if the chain number, the first bit and the number of rows are in range, and there is at least one
    /// column.
    fn has_valid_size(&self) -> bool
        ensures { result ≡ is_matrix_size self.now }
    {
        if usize::from(self.chain) >= CHAINS {
            return false;
        }
        if self.first >= CHAIN_BITS {
            return false;
        }
        0 < self.rows && self.rows <= KEY_ROWS && 0 < self.columns.len()
    }
}

impl BoardParts {
    /// Returns the mask options of a ROM, or `None` if the board does not have that ROM.
    fn mask(&self, chip: u8) -> Option<[LineMask; 4]>
        ensures { result ≡ rom_masks self.now chip }
    {
        let at = usize::from(chip);
        if at < ROMS { self.roms[at] } else { None }
    }

    /// Returns the number of chips in a bank, or 0 for a bank number above 7.
    fn bank_chips(&self, bank: u8) -> u8
        ensures { result ≡ slice_index self.now.banks bank }
    {
        let at = usize::from(bank);
        if at < BANKS { self.banks[at] } else { 0 }
    }

    /// Returns the number of bits in chain `n`, or 0 if the board does not have the chain.
    fn chain_bits(&self, n: u8) -> u16
        ensures { result ≡ chain_bits self.now n }
    {
        match self.chains.get(usize::from(n)) {
            Some(chain) => chain.bits(),
            None => 0,
        }
    }

    fn has_line(&self, line: Line) -> bool
        ensures { result ≡ is_on_board self.now line }
    {
        match line {
            Line::Rom(chip, k) => self.mask(chip).is_some() && k < 4,
            Line::Ram(bank, chip, k) => chip < self.bank_chips(bank) && k < 4,
            Line::Chain(n, i) => u16::from(i) < self.chain_bits(n),
        }
    }

    fn has_input_line(&self, line: Line) -> bool
        ensures { result ≡ is_input_line self.now line }
    {
        match line {
            Line::Rom(chip, k) => match self.mask(chip) {
                Some(mask) => k < 4 && mask[usize::from(k)] == LineMask::Input,
                None => false,
            },
            Line::Ram(_, _, _) | Line::Chain(_, _) => false,
        }
    }

    fn has_output_line(&self, line: Line) -> bool
        ensures { result ≡ is_output_line self.now line }
    {
        match line {
            Line::Rom(chip, k) => match self.mask(chip) {
                Some(mask) => k < 4 && mask[usize::from(k)] != LineMask::Input,
                None => false,
            },
            Line::Ram(bank, chip, k) => self.has_line(Line::Ram(bank, chip, k)),
            Line::Chain(_, _) => false,
        }
    }

    fn has_large_bank(&self) -> bool
        ensures { result ≡ list_any (λ n. nat_lt BANK_CHIPS n) self.now.banks }
    {
        self.banks.iter().any(|chips| *chips > BANK_CHIPS)
    }

    fn has_bad_chain(&self) -> bool
        ensures { result ≡ list_any (λ chain. not (is_chain_size chain)) self.now.chains.items }
    {
        self.chains.iter().any(|chain| !has_valid_size(*chain))
    }

    fn has_bad_matrix(&self) -> bool
        ensures { result ≡ has_bad_matrix self.now }
    {
        match &self.keys {
            Some(keys) => !keys.has_valid_size(),
            None => false,
        }
    }

    fn has_bad_chain_line(&self) -> bool
        ensures { result ≡ any_chain_line (λ line. not (in_range line)) self.now }
    {
        self.chains
            .iter()
            .any(|chain| has_chain_line_out_of_range(*chain))
    }

    fn has_bad_column(&self) -> bool
        ensures { result ≡ any_column (λ line. not (in_range line)) self.now }
    {
        match &self.keys {
            Some(keys) => has_line_out_of_range(keys.columns.as_slice()),
            None => false,
        }
    }

    fn has_bad_lamp(&self) -> bool
        ensures { result ≡ any_lamp (λ line. not (in_range line)) self.now }
    {
        has_line_out_of_range(self.lamps.as_slice())
    }

    /// Returns true if any number in the parts is out of range, or a key matrix has no columns.
    fn has_bad_value(&self) -> bool
        ensures { result ≡ has_bad_value self.now }
    {
        if self.has_large_bank() {
            return true;
        }
        if self.has_bad_chain() {
            return true;
        }
        if self.has_bad_matrix() {
            return true;
        }
        if self.has_bad_chain_line() {
            return true;
        }
        if self.has_bad_column() {
            return true;
        }
        self.has_bad_lamp()
    }

    /// Returns true if any of the lines is not on the board.
    fn lacks_any_line(&self, lines: &[Line]) -> bool
        ensures { result ≡ list_any (λ line. not (is_on_board self.now line)) lines.now }
    {
        lines.iter().any(|line| !self.has_line(*line))
    }

    fn lacks_line_of_chain(&self, chain: ChainPart) -> bool
        ensures { result ≡ (not (is_on_board self.now chain.clock)
            || not (is_on_board self.now chain.data_in)) }
    {
        !self.has_line(chain.clock) || !self.has_line(chain.data_in)
    }

    fn lacks_chain_line(&self) -> bool
        ensures { result ≡ any_chain_line (λ line. not (is_on_board self.now line)) self.now }
    {
        self.chains
            .iter()
            .any(|chain| self.lacks_line_of_chain(*chain))
    }

    fn lacks_column(&self) -> bool
        ensures { result ≡ any_column (λ line. not (is_on_board self.now line)) self.now }
    {
        match &self.keys {
            Some(keys) => self.lacks_any_line(keys.columns.as_slice()),
            None => false,
        }
    }

    fn lacks_lamp(&self) -> bool
        ensures { result ≡ any_lamp (λ line. not (is_on_board self.now line)) self.now }
    {
        self.lacks_any_line(self.lamps.as_slice())
    }

    fn lacks_rows(&self) -> bool
        ensures { result ≡ lacks_rows self.now }
    {
        match &self.keys {
            Some(keys) => {
                if usize::from(keys.chain) >= self.chains.len() {
                    return true;
                }
                u16::from(keys.first) + u16::from(keys.rows) > self.chain_bits(keys.chain)
            }
            None => false,
        }
    }

    /// Returns true if a line that the parts name is not on the board. Also returns true if the chain of the key
    /// matrix is not on the board, or has too few bits for the rows.
    fn lacks_line(&self) -> bool
        ensures { result ≡ lacks_line self.now }
    {
        if self.lacks_chain_line() {
            return true;
        }
        if self.lacks_column() {
            return true;
        }
        if self.lacks_lamp() {
            return true;
        }
        self.lacks_rows()
    }

    /// Returns true if any of the lines is not an input line.
    fn has_non_input_line(&self, lines: &[Line]) -> bool
        ensures { result ≡ list_any (λ line. not (is_input_line self.now line)) lines.now }
    {
        lines.iter().any(|line| !self.has_input_line(*line))
    }

    fn has_non_output_line(&self, chain: ChainPart) -> bool
        ensures { result ≡ (not (is_output_line self.now chain.clock)
            || not (is_output_line self.now chain.data_in)) }
    {
        !self.has_output_line(chain.clock) || !self.has_output_line(chain.data_in)
    }

    fn has_non_output_chain_line(&self) -> bool
        ensures { result ≡ any_chain_line (λ line. not (is_output_line self.now line)) self.now }
    {
        self.chains
            .iter()
            .any(|chain| self.has_non_output_line(*chain))
    }

    fn has_non_input_column(&self) -> bool
        ensures { result ≡ any_column (λ line. not (is_input_line self.now line)) self.now }
    {
        match &self.keys {
            Some(keys) => self.has_non_input_line(keys.columns.as_slice()),
            None => false,
        }
    }

    fn has_input_lamp(&self) -> bool
        ensures { result ≡ any_lamp (is_input_line self.now) self.now }
    {
        self.lamps.iter().any(|line| self.has_input_line(*line))
    }

    /// Returns true if a clock or data line is not an output line, a column is not an input line, or a lamp shows an
    /// input line.
    fn has_wrong_direction(&self) -> bool
        ensures { result ≡ has_wrong_direction self.now }
    {
        if self.has_non_output_chain_line() {
            return true;
        }
        if self.has_non_input_column() {
            return true;
        }
        self.has_input_lamp()
    }

    /// Proves that each ROM has four mask options, as the type of `roms` implies. Callers get this fact from the
    /// contract.
    fn prove_four_masks(&self)
        ensures { (chip : ℕ) (mask : List LineMask) → rom_masks self.now chip ≡ Some mask →
            length mask ≡ 4 }
    {
        for i in 0..ROMS {
            prove_length_four_if_some(self.roms[i]);
        }
    }

    /// Proves that each list in the parts has a length that its type allows (`HasDeclaredLengths`). Callers get these
    /// facts from the contract.
    fn prove_lengths(&self)
        ensures { HasDeclaredLengths self.now }
    {
        let _bank = self.banks[0];
        let _chains = self.chains.as_slice();
        let _lamps = self.lamps.as_slice();
        if let Some(keys) = &self.keys {
            let _columns = keys.columns.as_slice();
        }
        self.prove_four_masks();
    }

    /// Returns the first error in the parts, or `None` if the parts have no errors.
    fn fault(&self) -> Option<BoardFault>
        ensures { result ≡ board_fault_of self.now }
    {
        if self.has_bad_value() {
            return Some(BoardFault::BadValue);
        }
        if self.lacks_line() {
            return Some(BoardFault::NoSuchLine);
        }
        if self.has_wrong_direction() {
            return Some(BoardFault::WrongDirection);
        }
        None
    }

    /// Returns a copy of the parts.
    fn copy(&self) -> BoardParts
        ensures { result ≡ self.now }
    {
        let keys = match &self.keys {
            None => None,
            Some(keys) => Some(keys.copy()),
        };
        BoardParts {
            roms: self.roms,
            banks: self.banks,
            chains: copy_of_list(&self.chains),
            keys,
            lamps: copy_of_list(&self.lamps),
        }
    }
}

/// Returns a copy of the list.
fn copy_of_list<T: Copy + Default + Drop, const CAP: usize>(
    items: &ArrayVec<T, CAP>,
) -> ArrayVec<T, CAP>
    ensures { result.items ≡ items.now.items }
{
    let mut copy = ArrayVec::new();
    for item in items.as_slice() {
        copy.push(*item);
    }
    copy
}

/// A valid board: parts without errors. In contracts, the value of a board is its parts.
#[derive(Debug, Drop)]
pub struct Board {
    parts: BoardParts,
}

impl Model for Board {
    ghost use Rattle.mcs_model.specs.declared.board.BoardParts.{BoardParts};

    ghost Value = { BoardParts };

    ghost use Rattle.std.specs.Prelude.{◌≡◌, None};
    ghost use Rattle.mcs_model.specs.Boards.{board_fault_of, HasDeclaredLengths};

    ghost view = { λ b. b.parts };

    ghost invariant = { λ b. (board_fault_of b.parts ≡ None) × HasDeclaredLengths b.parts };
}

impl Board {
    /// Returns the empty board: no chips, no keys and no lamps.
    pub fn empty() -> Board
        ensures { result ≡ empty_parts }
    {
        Board {
            parts: BoardParts {
                roms: [None; ROMS],
                banks: [0; BANKS],
                chains: ArrayVec::new(),
                keys: None,
                lamps: ArrayVec::new(),
            },
        }
    }

    /// Returns the board with these parts, or the first error in them.
    pub fn of(parts: BoardParts) -> Result<Board, BoardFault>
        ensures { MatchOption (board_fault_of parts) (result ≡ Ok parts)
            (λ fault. result ≡ Err fault) }
    {
        parts.prove_lengths();
        match parts.fault() {
            Some(fault) => Err(fault),
            None => Ok(Board { parts }),
        }
    }

    /// Returns the parts of the board. They have no errors.
    pub fn parts(&self) -> &BoardParts
        ensures same { result.now ≡ self.now }
        ensures valid { board_fault_of self.now ≡ None }
        ensures sized { HasDeclaredLengths self.now }
    {
        &self.parts
    }

    /// Returns a copy of the board.
    pub fn copy(&self) -> Board
        ensures { result ≡ self.now }
    {
        Board {
            parts: self.parts.copy(),
        }
    }

    /// Returns the mask options of a ROM's four port lines, line 0 first, or `None` if the board does not have that
    /// ROM.
    pub fn mask(&self, chip: u8) -> Option<[LineMask; 4]>
        ensures { result ≡ rom_masks self.now chip }
    {
        self.parts.mask(chip)
    }

    /// Returns the number of chains on the board.
    pub fn chain_count(&self) -> usize
        ensures { result ≡ chain_count self.now }
    {
        self.parts.chains.len()
    }

    /// Returns the number of keys on the board, at most `KEYS`.
    pub fn key_count(&self) -> usize
        ensures count { result ≡ key_count self.now }
        ensures few { result ≤ KEYS }
    {
        match &self.parts.keys {
            Some(matrix) => usize::from(matrix.rows) * matrix.columns.len(),
            None => 0,
        }
    }

    /// Returns chain `n`, counted from 0.
    pub fn chain(&self, n: usize) -> ChainPart
        requires { n < chain_count self.now }
        ensures { result ≡ chain_part self.now n }
    {
        self.parts.chains[n]
    }

    /// Returns the line of lamp `i`, counted from 0, or `None` if the board does not have the lamp.
    pub fn lamp_line(&self, i: usize) -> Option<Line>
        ensures { result ≡ slice_get self.now.lamps.items i }
    {
        self.parts.lamps.get(i).copied()
    }

    /// Returns the number of chips in a bank, or 0 for a bank number above 7.
    pub fn bank_chips(&self, bank: u8) -> u8
        ensures { result ≡ slice_index self.now.banks bank }
    {
        self.parts.bank_chips(bank)
    }

    /// Returns true if line `k`, 0 to 3, of a ROM is an input line. Returns false if the board does not have that ROM.
    pub fn is_input(&self, chip: u8, k: u8) -> bool
        requires { k < 4 }
        ensures { result ≡ is_rom_input_line self.now chip k }
    {
        match self.parts.mask(chip) {
            Some(mask) => mask[usize::from(k)] == LineMask::Input,
            None => false,
        }
    }

    /// Returns true if the line is on the board.
    pub fn has_line(&self, line: Line) -> bool
        ensures { result ≡ is_on_board self.now line }
    {
        self.parts.has_line(line)
    }

    /// Returns true if the board has a key at this row and column.
    pub fn has_key(&self, row: u8, column: u8) -> bool
        ensures { result ≡ has_key self.now row column }
    {
        match &self.parts.keys {
            Some(keys) => row < keys.rows && usize::from(column) < keys.columns.len(),
            None => false,
        }
    }
}

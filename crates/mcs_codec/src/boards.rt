//! The encoding of a board.
ghost use Rattle.std.specs.Prelude.{◌≡◌, ℕ, ◌+◌, ◌≤◌, ◌<◌, ◌∷◌, ◌++◌, List, [], length, map, take, option_map, Option, Some, None, if◌then◌else◌};
ghost use Rattle.mcs_codec.specs.BoardBytes.{rom_bytes, board_line_bytes, chain_bytes, keys_bytes, board_bytes};
ghost use Rattle.mcs_codec.specs.BoardReading.{rom_at, board_line_at, chain_at, keys_at, matrix_at, parts_at, board_at};

use crate::encoding::{Decode, Encode, put, put_all, put_counted, read_counted, read_into};
use crate::reader::Reader;
use mcs_model::board::{Board, BoardParts, ChainPart, KeyMatrix, Line};
use mcs_model::limits::{BANKS, ROMS};
use mcs_nibble::LineMask;

/// Returns the characters of a ROM's four port lines, line 3 first.
fn port_characters(mask: [LineMask; 4]) -> [u8; 4]
    ensures { result ≡ rom_bytes (Some mask) }
{
    let [a, b, c, d] = mask;
    [d.character(), c.character(), b.character(), a.character()]
}

impl Encode for Option<[LineMask; 4]> {
    ghost use Rattle.mcs_codec.specs.BoardBytes.{rom_bytes};

    ghost spelling = { rom_bytes };

    fn put(&self, out: &mut [u8], at: usize) -> usize {
        match self {
            Some(mask) => put(out, at, &port_characters(*mask)),
            None => put(out, at, b"----"),
        }
    }
}

impl Decode for Option<[LineMask; 4]> {
    ghost use Rattle.mcs_codec.specs.BoardReading.{rom_at};

    ghost reading = { rom_at };

    #[tactic(auto, unfolding(crate::specs::BoardReading::rom_at))]
    fn read(reader: &mut Reader<'_>) -> Option<Option<[LineMask; 4]>> {
        let first = reader.byte()?;
        let second = reader.byte()?;
        let third = reader.byte()?;
        let fourth = reader.byte()?;
        if first == b'-' && second == b'-' && third == b'-' && fourth == b'-' {
            return Some(None);
        }
        let line_3 = LineMask::from_character(first)?;
        let line_2 = LineMask::from_character(second)?;
        let line_1 = LineMask::from_character(third)?;
        let line_0 = LineMask::from_character(fourth)?;
        Some(Some([line_0, line_1, line_2, line_3]))
    }
}

impl Encode for Line {
    ghost use Rattle.mcs_codec.specs.BoardBytes.{board_line_bytes};

    ghost spelling = { board_line_bytes };

    fn put(&self, out: &mut [u8], at: usize) -> usize {
        let bytes = match *self {
            Line::Rom(chip, k) => [0, chip, k, 0],
            Line::Ram(bank, chip, k) => [1, bank, chip, k],
            Line::Chain(n, i) => [2, n, i, 0],
        };
        put(out, at, &bytes)
    }
}

impl Decode for Line {
    ghost use Rattle.mcs_codec.specs.BoardReading.{board_line_at};

    ghost reading = { board_line_at };

    #[tactic(auto, unfolding(crate::specs::BoardReading::board_line_at))]
    fn read(reader: &mut Reader<'_>) -> Option<Line> {
        let kind = reader.byte()?;
        let first = reader.byte()?;
        let second = reader.byte()?;
        let third = reader.byte()?;
        if kind == 0 && third == 0 {
            Some(Line::Rom(first, second))
        } else if kind == 1 {
            Some(Line::Ram(first, second, third))
        } else if kind == 2 && third == 0 {
            Some(Line::Chain(first, second))
        } else {
            None
        }
    }
}

impl Encode for ChainPart {
    ghost use Rattle.mcs_codec.specs.BoardBytes.{chain_bytes};

    ghost spelling = { chain_bytes };

    fn put(&self, out: &mut [u8], at: usize) -> usize {
        let at = self.clock.put(out, at);
        let at = self.data_in.put(out, at);
        put(out, at, &[self.chips])
    }
}

impl Decode for ChainPart {
    ghost use Rattle.mcs_codec.specs.BoardReading.{chain_at};

    ghost reading = { chain_at };

    #[tactic(auto, unfolding(crate::specs::BoardReading::chain_at))]
    fn read(reader: &mut Reader<'_>) -> Option<ChainPart> {
        let clock = Line::read(reader)?;
        let data_in = Line::read(reader)?;
        let chips = reader.byte()?;
        Some(ChainPart {
            clock,
            data_in,
            chips,
        })
    }
}

/// Reads a key matrix. Returns `None` if the bytes do not start with the encoding of a key matrix.
#[tactic(auto, unfolding(crate::specs::BoardReading::matrix_at))]
fn read_matrix(reader: &mut Reader<'_>) -> Option<KeyMatrix>
    ensures { option_map (λ x. (x, reader.new)) result ≡ matrix_at reader.old }
{
    let chain = reader.byte()?;
    let first = reader.byte()?;
    let rows = reader.byte()?;
    let columns = read_counted(reader)?;
    Some(KeyMatrix {
        chain,
        first,
        rows,
        columns,
    })
}

/// Reads the keys: a byte of 0 if the board has no keys, or a byte of 1 and then the key matrix.
/// Returns `None` if the bytes encode neither.
#[tactic(auto, unfolding(crate::specs::BoardReading::keys_at))]
fn read_keys(reader: &mut Reader<'_>) -> Option<Option<KeyMatrix>>
    ensures { option_map (λ x. (x, reader.new)) result ≡ keys_at reader.old }
{
    match reader.byte()? {
        0 => Some(None),
        1 => {
            let matrix = read_matrix(reader)?;
            Some(Some(matrix))
        }
        _ => None,
    }
}

/// Writes the keys to `out` at offset `at` and returns the offset after them. If the board has no
/// keys, writes a byte of 0. Otherwise writes a byte of 1 and then the key matrix.
fn put_keys(keys: &Option<KeyMatrix>, out: &mut [u8], at: usize) -> usize
    requires { at + length (keys_bytes keys.now) ≤ length out.old }
    ensures end { result ≡ at + length (keys_bytes keys.now) }
    ensures front { take result out.new ≡ take at out.old ++ keys_bytes keys.now }
{
    match keys {
        None => put(out, at, &[0]),
        Some(matrix) => {
            let at = put(out, at, &[1, matrix.chain, matrix.first, matrix.rows]);
            put_counted(matrix.columns.as_slice(), out, at)
        }
    }
}

/// Reads the parts of a board, without checking that they make a valid board. Returns `None` if the
/// bytes do not start with the encoding of the parts of a board.
#[tactic(auto, unfolding(crate::specs::BoardReading::parts_at))]
fn read_parts(reader: &mut Reader<'_>) -> Option<BoardParts>
    ensures { option_map (λ x. (x, reader.new)) result ≡ parts_at reader.old }
{
    let mut roms = [None; ROMS];
    read_into(reader, &mut roms)?;
    let mut banks = [0; BANKS];
    reader.fill(&mut banks)?;
    let chains = read_counted(reader)?;
    let keys = read_keys(reader)?;
    let lamps = read_counted(reader)?;
    Some(BoardParts {
        roms,
        banks,
        chains,
        keys,
        lamps,
    })
}

/// Reads a board from the start of the bytes. Returns `None` if the bytes do not start with the
/// encoding of a valid board.
#[tactic(auto, unfolding(crate::specs::BoardReading::board_at))]
pub fn read_board(reader: &mut Reader<'_>) -> Option<Board>
    ensures { option_map (λ x. (x, reader.new)) result ≡ board_at reader.old }
{
    let parts = read_parts(reader)?;
    match Board::of(parts) {
        Ok(board) => Some(board),
        Err(_) => None,
    }
}

/// Writes the parts of a board to `out` at offset `at` and returns the offset after them.
pub fn put_board(parts: &BoardParts, out: &mut [u8], at: usize) -> usize
    requires { at + length (board_bytes parts.now) ≤ length out.old }
    ensures end { result ≡ at + length (board_bytes parts.now) }
    ensures front { take result out.new ≡ take at out.old ++ board_bytes parts.now }
{
    let at = put_all(&parts.roms, out, at);
    let at = put(out, at, &parts.banks);
    let at = put_counted(parts.chains.as_slice(), out, at);
    let at = put_keys(&parts.keys, out, at);
    put_counted(parts.lamps.as_slice(), out, at)
}

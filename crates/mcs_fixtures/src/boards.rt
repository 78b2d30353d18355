//! Example boards for tests, and functions that build boards from parts.
use arrayvec::ArrayVec;
use mcs_model::board::{Board, BoardFault, BoardParts, ChainPart, KeyMatrix, Line};
use mcs_model::limits::{BANKS, CHAINS, KEY_COLUMNS, ROMS};
use mcs_nibble::LineMask;

/// Line masks of four output lines that read as 0.
pub const OUTPUTS: [LineMask; 4] = [LineMask::Zero; 4];

/// Line masks of four input lines.
pub const INPUTS: [LineMask; 4] = [LineMask::Input; 4];

/// Line masks `1i0i`. Lines 0 and 2 are inputs. Line 1 is an output that reads as 0, and line 3 is an output that reads
/// as 1.
pub const MIXED: [LineMask; 4] = [
    LineMask::Input,
    LineMask::Zero,
    LineMask::Input,
    LineMask::One,
];

/// The key columns of the example board: the lines of ROM 1, then the lines of ROM 2.
const COLUMNS: [Line; KEY_COLUMNS] = [
    Line::Rom(1, 0),
    Line::Rom(1, 1),
    Line::Rom(1, 2),
    Line::Rom(1, 3),
    Line::Rom(2, 0),
    Line::Rom(2, 1),
    Line::Rom(2, 2),
    Line::Rom(2, 3),
];

/// Returns the given lines as a list of capacity `CAP`. Lines beyond this capacity are dropped.
pub fn lines<const CAP: usize>(items: &[Line]) -> ArrayVec<Line, CAP> {
    let mut list = ArrayVec::new();
    for line in items {
        let _ = list.try_push(*line);
    }
    list
}

/// Returns `count` chains of `chips` chips each, but no more than [`CHAINS`]. All chains use the same clock line and
/// the same data line.
pub fn chains(count: u8, chips: u8, (clock, data_in): (Line, Line)) -> ArrayVec<ChainPart, CHAINS> {
    let mut list = ArrayVec::new();
    for _ in 0..count {
        let _ = list.try_push(ChainPart {
            clock,
            data_in,
            chips,
        });
    }
    list
}

/// The clock line and the data line of the chains on example boards, both on ROM 0.
pub const CLOCK_AND_DATA: (Line, Line) = (Line::Rom(0, 0), Line::Rom(0, 1));

/// Returns a board whose only ROM is ROM 0. The line masks of this ROM are `port`. The board has the given banks,
/// chains and lamps, and no keys.
pub fn board_on_one_rom(
    port: [LineMask; 4],
    banks: [u8; BANKS],
    chains: ArrayVec<ChainPart, CHAINS>,
    lamps: &[Line],
) -> Result<Board, BoardFault> {
    let mut roms = [None; ROMS];
    roms[0] = Some(port);
    Board::of(BoardParts {
        roms,
        banks,
        chains,
        keys: None,
        lamps: lines(lamps),
    })
}

/// Returns the example board. It has three ROMs, one RAM chip in each of banks 0 and 1, a chain of ten bits, ten rows
/// of eight keys, and three lamps.
pub fn example_board() -> Result<Board, BoardFault> {
    let mut roms = [None; ROMS];
    roms[0] = Some(OUTPUTS);
    roms[1] = Some(INPUTS);
    roms[2] = Some(INPUTS);
    Board::of(BoardParts {
        roms,
        banks: [1, 1, 0, 0, 0, 0, 0, 0],
        chains: chains(1, 1, CLOCK_AND_DATA),
        keys: Some(KeyMatrix {
            chain: 0,
            first: 0,
            rows: 10,
            columns: lines(&COLUMNS),
        }),
        lamps: lines(&[Line::Chain(0, 0), Line::Chain(0, 1), Line::Ram(0, 0, 3)]),
    })
}

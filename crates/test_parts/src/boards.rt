//! Boards for the tests of this crate, built from their parts.
use arrayvec::ArrayVec;
use mcs_fixtures::boards::{CLOCK_AND_DATA, MIXED, OUTPUTS, board_on_one_rom, chains, lines};
use mcs_model::board::{Board, BoardFault, BoardParts, ChainPart, Line};
use mcs_model::limits::{BANK_CHIPS, BANKS, CHAIN_BITS, CHAIN_CHIPS, CHAINS, ROMS};

/// Returns a board with ROM 0 as its only part.
pub(crate) fn one_rom_board() -> Result<Board, BoardFault> {
    board_on_one_rom(OUTPUTS, [0; BANKS], ArrayVec::new(), &[])
}

/// Returns a board with ROM 0 as its only part. The ROM's port has two input lines and two output
/// lines.
pub(crate) fn mixed_rom_board() -> Result<Board, BoardFault> {
    board_on_one_rom(MIXED, [0; BANKS], ArrayVec::new(), &[])
}

/// Returns a board with one ROM, one bank with the maximum number of chips, one chain of maximum
/// length, and a lamp at the end of the chain.
pub(crate) fn long_chain_board() -> Result<Board, BoardFault> {
    let mut banks = [0; BANKS];
    banks[0] = BANK_CHIPS;
    board_on_one_rom(
        OUTPUTS,
        banks,
        chains(1, CHAIN_CHIPS, CLOCK_AND_DATA),
        &[Line::Chain(0, CHAIN_BITS - 1)],
    )
}

/// Returns a board with the maximum number of ROMs, RAM chips and chains, and a lamp at the end of
/// the last chain. Lines 0 and 1 of ROM `n` are the clock line and the data line of chain `n`.
pub(crate) fn largest_board() -> Result<Board, BoardFault> {
    let mut chains = ArrayVec::new();
    for n in 0..CHAINS as u8 {
        let _ = chains.try_push(ChainPart {
            clock: Line::Rom(n, 0),
            data_in: Line::Rom(n, 1),
            chips: CHAIN_CHIPS,
        });
    }
    Board::of(BoardParts {
        roms: [Some(OUTPUTS); ROMS],
        banks: [BANK_CHIPS; BANKS],
        chains,
        keys: None,
        lamps: lines(&[Line::Chain(CHAINS as u8 - 1, CHAIN_BITS - 1)]),
    })
}

//! The board and the program of an example, the electronic die, and machines with this board.
use mcs_board::BenchRig;
use mcs_check::{InputLimits, SearchMachine};
use mcs_cpu4004::Cpu;
use mcs_fixtures::boards::{CLOCK_AND_DATA, INPUTS, OUTPUTS, chains, lines};
use mcs_model::board::{Board, BoardFault, BoardParts, KeyMatrix, Line};
use mcs_model::limits::ROMS;
use mcs_nibble::Addr;
use std::alloc::{AllocError, Global};
use std::process::Abort;

/// The die's program.
pub(crate) const DIE_PROGRAM: [u8; 29] = [
    34, 0, 36, 16, 35, 210, 226, 242, 226, 32, 42, 54, 35, 167, 225, 37, 234, 20, 15, 113, 25, 218,
    177, 64, 11, 0, 0, 64, 11,
];

/// The six lamp patterns of the die. The program reads them from ROM at `FACES_ADDRESS`.
pub(crate) const FACES: [u8; 6] = [8, 1, 9, 3, 11, 7];

/// The ROM address of the lamp patterns.
const FACES_ADDRESS: u16 = 42;

/// Returns the die's board with keys in `rows` rows, whose columns are wired to these lines. The
/// board also has a ROM with outputs, a ROM with inputs and a RAM chip.
fn board_with_keys(rows: u8, columns: &[Line]) -> Result<Board, BoardFault> {
    let mut roms = [None; ROMS];
    roms[0] = Some(OUTPUTS);
    roms[1] = Some(INPUTS);
    Board::of(BoardParts {
        roms,
        banks: [1, 0, 0, 0, 0, 0, 0, 0],
        chains: chains(1, 1, CLOCK_AND_DATA),
        keys: Some(KeyMatrix {
            chain: 0,
            first: 0,
            rows,
            columns: lines(columns),
        }),
        lamps: lines(&[]),
    })
}

/// Writes bytes to consecutive ROM addresses.
fn write_rom(rig: &mut BenchRig, from: u16, bytes: &[u8]) {
    let mut at = Addr::ZERO.plus(from);
    for byte in bytes {
        rig.set_rom_byte(at, *byte);
        at = at.plus(1);
    }
}

/// Returns a rig with the die's board before its first cycle. The ROM has the given program, and
/// `FACES` at `FACES_ADDRESS`. The board has keys in `rows` rows, whose columns are wired to these
/// lines.
fn rig_with_keys(
    alloc: Global,
    rt: &impl Abort,
    rows: u8,
    columns: &[Line],
    program: &[u8],
) -> Result<BenchRig, AllocError> {
    let board = board_with_keys(rows, columns).expect(rt, "a board");
    let mut rig = BenchRig::new(alloc)?;
    assert!(rt; BenchRig::fits(&board));
    rig.wire(&board);
    write_rom(&mut rig, 0, program);
    write_rom(&mut rig, FACES_ADDRESS, &FACES);
    Ok(rig)
}

/// Returns a rig with the die's board, which has one key, and with the given program, before its first cycle.
pub(crate) fn rig(alloc: Global, rt: &impl Abort, program: &[u8]) -> Result<BenchRig, AllocError> {
    rig_with_keys(alloc, rt, 1, &[Line::Rom(1, 0)], program)
}

/// Returns a machine with the die's board before its first cycle. The ROM has the given program,
/// and `FACES` at `FACES_ADDRESS`.
pub(crate) fn machine(
    alloc: Global,
    rt: &impl Abort,
    program: &[u8],
) -> Result<SearchMachine, AllocError> {
    let rig = rig(alloc, rt, program)?;
    Ok(SearchMachine::of(Cpu::new(), rig))
}

/// Returns a machine with the given program, before its first cycle. Its board has two keys, in two rows of one
/// column.
pub(crate) fn machine_with_two_keys(
    alloc: Global,
    rt: &impl Abort,
    program: &[u8],
) -> Result<SearchMachine, AllocError> {
    let rig = rig_with_keys(alloc, rt, 2, &[Line::Rom(1, 0)], program)?;
    Ok(SearchMachine::of(Cpu::new(), rig))
}

/// Returns a machine with the given program, before its first cycle. Its board has two keys, in two columns of one
/// row.
pub(crate) fn machine_with_two_columns(
    alloc: Global,
    rt: &impl Abort,
    program: &[u8],
) -> Result<SearchMachine, AllocError> {
    let columns = [Line::Rom(1, 0), Line::Rom(1, 1)];
    let rig = rig_with_keys(alloc, rt, 1, &columns, program)?;
    Ok(SearchMachine::of(Cpu::new(), rig))
}

/// Returns the limits that allow all inputs of a machine.
pub(crate) fn all_inputs(
    alloc: Global,
    machine: &SearchMachine,
) -> Result<InputLimits, AllocError> {
    InputLimits::none(alloc, machine.board())
}

/// Returns a machine that runs the die's program, before its first cycle.
pub(crate) fn die(alloc: Global, rt: &impl Abort) -> Result<SearchMachine, AllocError> {
    machine(alloc, rt, &DIE_PROGRAM)
}

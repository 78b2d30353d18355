//! Functions that restore a bench from the encoding of its state.
ghost use Rattle.std.specs.Prelude.{◌≡◌, ℕ, ◌≤◌, List, All, length, option_map, IfOk, IfSome, IfNone};
ghost use Rattle.mcs_model.specs.BenchState.{BenchState};
ghost use Rattle.mcs_bench.specs.States.{bits_of_chains, state_of};
ghost use Rattle.mcs_codec.specs.Reading.{bytes_at, read_all_of};
ghost use Rattle.mcs_codec.specs.StateReading.{board_in_version, versioned_board_at, chains_at, watches_at, state_at, HasFixedLengths};
ghost use Rattle.mcs_codec.specs.Codec.{EncodesInSomeVersion, EncodesStateBy, version_number, version_of};

use crate::boards::read_board;
use crate::commands::NoMemory;
use crate::encoding::{Decode, read_counted, read_into};
use crate::reader::Reader;
use crate::versions::{Version, fits_version_1};
use arrayvec::ArrayVec;
use mcs_bench::{Bench, Cells, Flat};
use mcs_model::board::{Board, ChainPart};
use mcs_model::limits::{CHAIN_CHIPS, CHAIN_SOCKETS, CHAINS, WATCHES};
use std::alloc::Global;

/// The size of the count of accepted commands, in bytes.
const COUNT_BYTES: usize = 4;

/// The bits of a chain, bit 0 first.
type ChainBits = ArrayVec<u8, CHAIN_SOCKETS>;

impl Decode for u16 {
    ghost use Rattle.std.specs.Int.{w16};
    ghost use Rattle.mcs_codec.specs.Reading.{wide_number_at};

    ghost reading = { wide_number_at w16 };

    fn read(reader: &mut Reader<'_>) -> Option<u16> {
        reader.number()
    }
}

/// Reads a board in the given version. Returns `None` if the bytes do not encode a board, or if the
/// version is 1 and the board is too large for version 1 (`fits_version_1`).
#[tactic(auto, unfolding(crate::specs::StateReading::board_in_version))]
fn read_board_in_version(version: Version, reader: &mut Reader<'_>) -> Option<Board>
    ensures { option_map (λ x. (x, reader.new)) result ≡ board_in_version version reader.old }
{
    let board = read_board(reader)?;
    match version {
        Version::One => if fits_version_1(&board) {
            Some(board)
        } else {
            None
        },
        Version::Two => Some(board),
    }
}

/// Reads the version and then the board. When a state is read, only this function determines the version. Returns
/// `None` if the bytes do not encode a version and a board.
#[tactic(auto, unfolding(crate::specs::StateReading::versioned_board_at))]
fn read_versioned_board(reader: &mut Reader<'_>) -> Option<(Version, Board)>
    ensures { option_map (λ x. (x, reader.new)) result ≡ versioned_board_at reader.old }
{
    let version = reader.version()?;
    let board = read_board_in_version(version, reader)?;
    Some((version, board))
}

/// Fills `cells` with the next bytes. Returns `None` if too few bytes are left.
fn read_fixed_bytes(reader: &mut Reader<'_>, cells: &mut Cells) -> Option<()>
    ensures { option_map (λ _. (cells.new, reader.new)) result
        ≡ bytes_at (length cells.old) reader.old }
{
    let bytes = reader.bytes(cells.len())?;
    for i in 0..bytes.len() {
        cells.set(i, bytes[i]);
    }
    Some(())
}

/// Reads `count` bytes. Returns `None` if fewer are left.
fn read_bytes<const CAP: usize>(reader: &mut Reader<'_>, count: usize) -> Option<ArrayVec<u8, CAP>>
    requires { count ≤ CAP }
    ensures { option_map (λ v. (v.items, reader.new)) result ≡ bytes_at count reader.old }
{
    let bytes = reader.bytes(count)?;
    let mut items = ArrayVec::new();
    for byte in bytes {
        items.push(*byte);
    }
    Some(items)
}

/// Reads the bits of each chain, one byte for each bit. Returns `None` if too few bytes are left.
fn read_chains(reader: &mut Reader<'_>, chains: &[ChainPart]) -> Option<ArrayVec<ChainBits, CHAINS>>
    requires few { length chains.now ≤ CHAINS }
    requires short { All (λ c. c.chips ≤ CHAIN_CHIPS) chains.now }
    ensures { option_map (λ x. (bits_of_chains x.items, reader.new)) result
        ≡ chains_at chains.now reader.old }
{
    let mut read = ArrayVec::new();
    for chain in chains {
        read.push(read_bytes(reader, usize::from(chain.bits()))?);
    }
    Some(read)
}

/// Reads the watches. A state of version 1 has no watches, so nothing is read. Returns `None` if
/// the bytes do not encode the watches.
#[tactic(auto, unfolding(crate::specs::StateReading::watches_at))]
fn read_watches(version: Version, reader: &mut Reader<'_>) -> Option<ArrayVec<u16, WATCHES>>
    ensures { option_map (λ x. (x.items, reader.new)) result ≡ watches_at version reader.old }
{
    match version {
        Version::One => Some(ArrayVec::new()),
        Version::Two => read_counted(reader),
    }
}

/// Reads the fields of a state into `flat` and returns the state's version. Returns `None` if the
/// bytes do not encode these fields.
#[tactic(auto, unfolding(crate::specs::StateReading::state_at))]
fn read_state(reader: &mut Reader<'_>, flat: &mut Flat) -> Option<Version>
    requires { HasFixedLengths (state_of flat.old).bus }
    ensures { option_map (λ version. ((version, state_of flat.new), reader.new)) result
        ≡ state_at reader.old }
{
    flat.seq = reader.number_u32()?;
    let (version, board) = read_versioned_board(reader)?;
    read_fixed_bytes(reader, &mut flat.rom)?;
    read_fixed_bytes(reader, &mut flat.ram)?;
    read_fixed_bytes(reader, &mut flat.status)?;
    read_fixed_bytes(reader, &mut flat.ram_ports)?;
    read_fixed_bytes(reader, &mut flat.rom_ports)?;
    flat.acc = reader.byte()?;
    flat.cy = reader.byte()?;
    reader.fill(&mut flat.r)?;
    flat.pc = reader.number()?;
    read_into(reader, &mut flat.ret)?;
    flat.dcl = reader.byte()?;
    flat.rom_src = reader.byte()?;
    reader.fill(&mut flat.ram_src)?;
    flat.owed = reader.byte()?;
    flat.chains = read_chains(reader, board.parts().chains.as_slice())?;
    flat.keys = read_bytes(reader, board.key_count())?;
    flat.board = board;
    flat.test = reader.byte()?;
    flat.breakpoints = read_counted(reader)?;
    flat.watches = read_watches(version, reader)?;
    Some(version)
}

/// Reads all of the bytes as the fields of a state, and returns the state's version. Returns `None`
/// if the bytes do not encode these fields.
fn read_whole_state(bytes: &[u8], flat: &mut Flat) -> Option<Version>
    requires { HasFixedLengths (state_of flat.old).bus }
    ensures { option_map (λ version. (version, state_of flat.new)) result
        ≡ read_all_of state_at bytes.now }
{
    let mut reader = Reader::new(bytes);
    let version = read_state(&mut reader, flat)?;
    if reader.is_empty() {
        Some(version)
    } else {
        None
    }
}

/// Returns the number of the version, 1 or 2, that the fifth byte determines. Returns `None` if
/// there is no fifth byte, or if it determines no version. If the bytes encode a state, they encode
/// it in the returned version.
pub fn version_of(bytes: &[u8]) -> Option<u8>
    ensures { result ≡ option_map version_number (version_of bytes.now) }
{
    if bytes.len() < COUNT_BYTES {
        return None;
    }
    let (_, rest) = bytes.split_at(COUNT_BYTES);
    let version = Reader::new(rest).version()?;
    Some(version.number())
}

/// Returns the bench whose state the bytes encode, and the version of the encoding. Returns `None`
/// if the bytes do not encode a state. A state of version 1 is converted to version 2, without
/// watches.
///
/// # Errors
///
/// Fails if memory runs out.
pub fn versioned_bench_of(alloc: Global, bytes: &[u8]) -> Result<Option<(Version, Bench)>, NoMemory>
    ensures some { IfOk result (λ found.
        IfSome found (λ x. EncodesStateBy x.0 bytes.now x.1)) }
    ensures none { IfOk result (λ found.
        IfNone found ((version : Version) (s : BenchState) → EncodesStateBy version bytes.now s → ⊥)) }
{
    let mut flat = Flat::new(alloc)?;
    let Some(version) = read_whole_state(bytes, &mut flat) else {
        return Ok(None);
    };
    if !flat.check() {
        return Ok(None);
    }
    let bench = Bench::restore(alloc, &flat)?;
    Ok(Some((version, bench)))
}

/// Returns the bench whose state the bytes encode in either version. Returns `None` if the bytes do
/// not encode a state. A state of version 1 is converted to version 2, without watches.
///
/// # Errors
///
/// Fails if memory runs out.
pub fn bench_of(alloc: Global, bytes: &[u8]) -> Result<Option<Bench>, NoMemory>
    ensures some { IfOk result (λ found. IfSome found (λ s. EncodesInSomeVersion bytes.now s)) }
    ensures none { IfOk result (λ found.
        IfNone found ((s : BenchState) → EncodesInSomeVersion bytes.now s → ⊥)) }
{
    match versioned_bench_of(alloc, bytes)? {
        Some((_, bench)) => Ok(Some(bench)),
        None => Ok(None),
    }
}

//! The encoding of a command.
ghost use Rattle.std.specs.Prelude.{◌≡◌, ℕ, ◌+◌, ◌≤◌, ◌<◌, ◌∷◌, ◌++◌, List, [], length, take, option_map, Option, Some, None, IfOk, OnErr, IfSome, IfNone, if◌then◌else◌};
ghost use Rattle.mcs_model.specs.declared.command.Command.{Command};
ghost use Rattle.mcs_codec.specs.Reading.{read_all_of};
ghost use Rattle.mcs_codec.specs.CommandBytes.{command_bytes, IsCommandInRange};
ghost use Rattle.mcs_codec.specs.CommandReading.{command_without_image, command_after_tag, command_at};
ghost use Rattle.mcs_codec.specs.Codec.{BeginsAsLoad, Encodes};

use crate::boards::{put_board, read_board};
use crate::encoding::{Decode, Encode, put};
use crate::images::{put_image, read_image};
use crate::places::show_place_is_in_range;
use crate::reader::Reader;
use mcs_model::command::{Command, Place};
use mcs_model::limits::RECORD_BYTES;
use mcs_nibble::{Addr, BankNo, Bit};
use std::alloc::{AllocError, Global};

/// The error that a call returns if memory runs out.
pub type NoMemory = AllocError;

/// The size, in bytes, of a buffer for an encoded command: the maximum length of a record. No
/// encoded command is longer.
pub const COMMAND_BYTES: usize = RECORD_BYTES;

/// Proves that each part of a command is in its range. Also proves that the encoding has at least
/// one byte, the tag.
fn show_command_is_in_range(command: &Command)
    ensures range { IsCommandInRange command.now }
    ensures tag { 1 ≤ length (command_bytes command.now) }
{
    match command {
        Command::Wire(board) => {
            board.parts();
        }
        Command::Load(image) => {
            image.pairs();
        }
        Command::Press(row, column) | Command::Release(row, column) => {
            let _key = (*row, *column);
        }
        Command::Run(cycles) => {
            let _cycles = *cycles;
        }
        Command::Poke(place) => show_place_is_in_range(*place),
        Command::Test(bit) => {
            bit.get();
        }
        Command::Break(address) | Command::Unbreak(address) => {
            address.get();
        }
        Command::Watch(bank, src) | Command::Unwatch(bank, src) => {
            let _nibble = (bank.get(), *src);
        }
        Command::Step | Command::Reset => {}
    }
}

/// Writes a command to `out` at offset `at` and returns the offset after it.
fn put_command(command: &Command, out: &mut [u8], at: usize) -> usize
    requires { at + length (command_bytes command.now) ≤ length out.old }
    ensures end { result ≡ at + length (command_bytes command.now) }
    ensures front { take result out.new ≡ take at out.old ++ command_bytes command.now }
{
    match command {
        Command::Wire(board) => {
            let at = put(out, at, &[1]);
            put_board(board.parts(), out, at)
        }
        Command::Load(image) => {
            let at = put(out, at, &[2]);
            put_image(image, out, at)
        }
        Command::Press(row, column) => put(out, at, &[3, *row, *column]),
        Command::Release(row, column) => put(out, at, &[4, *row, *column]),
        Command::Run(cycles) => {
            let at = put(out, at, &[5]);
            put(out, at, &cycles.to_be_bytes())
        }
        Command::Step => put(out, at, &[6]),
        Command::Poke(place) => {
            let at = put(out, at, &[7]);
            place.put(out, at)
        }
        Command::Test(bit) => put(out, at, &[8, bit.get()]),
        Command::Reset => put(out, at, &[9]),
        Command::Break(address) => {
            let at = put(out, at, &[10]);
            address.put(out, at)
        }
        Command::Unbreak(address) => {
            let at = put(out, at, &[11]);
            address.put(out, at)
        }
        Command::Watch(bank, src) => put(out, at, &[12, bank.get(), *src]),
        Command::Unwatch(bank, src) => put(out, at, &[13, bank.get(), *src]),
    }
}

/// Writes a command to the start of `into` and returns its length, 1 to 4,609 bytes. The bytes of
/// `into` after the command are unspecified. `into` must have at least `COMMAND_BYTES` bytes.
pub fn command_bytes(command: &Command, into: &mut [u8]) -> usize
    requires buffer_size { COMMAND_BYTES ≤ length into.old }
    ensures spells { Encodes (take result into.new) command.now }
    ensures count { result ≡ length (command_bytes command.now) }
    ensures some { 1 ≤ result }
    ensures fits { result ≤ COMMAND_BYTES }
{
    show_command_is_in_range(command);
    put_command(command, into, 0)
}

/// Reads the rest of a command after its tag, for every command except a load, which needs memory.
/// Returns `None` if the tag is that of a load or the bytes do not encode a command.
fn read_command_without_image(tag: u8, reader: &mut Reader<'_>) -> Option<Command>
    ensures { option_map (λ x. (x, reader.new)) result ≡ command_without_image tag reader.old }
{
    match tag {
        1 => Some(Command::Wire(read_board(reader)?)),
        3 => {
            let row = reader.byte()?;
            Some(Command::Press(row, reader.byte()?))
        }
        4 => {
            let row = reader.byte()?;
            Some(Command::Release(row, reader.byte()?))
        }
        5 => Some(Command::Run(reader.number_u32()?)),
        6 => Some(Command::Step),
        7 => Some(Command::Poke(Place::read(reader)?)),
        8 => Some(Command::Test(Bit::read(reader)?)),
        9 => Some(Command::Reset),
        10 => Some(Command::Break(Addr::read(reader)?)),
        11 => Some(Command::Unbreak(Addr::read(reader)?)),
        12 => {
            let bank = BankNo::read(reader)?;
            Some(Command::Watch(bank, reader.byte()?))
        }
        13 => {
            let bank = BankNo::read(reader)?;
            Some(Command::Unwatch(bank, reader.byte()?))
        }
        _ => None,
    }
}

/// Reads the rest of a command after its tag. Returns `None` if the bytes do not encode a command.
/// Fails if memory runs out.
#[tactic(auto, unfolding(crate::specs::CommandReading::command_after_tag))]
fn read_command_after_tag(
    alloc: Global,
    tag: u8,
    reader: &mut Reader<'_>,
) -> Result<Option<Command>, NoMemory>
    ensures read { IfOk result (λ found.
        option_map (λ x. (x, reader.new)) found ≡ command_after_tag tag reader.old) }
    ensures memory { OnErr result (tag ≡ 2) }
{
    if tag == 2 {
        match read_image(alloc, reader)? {
            Some(image) => Ok(Some(Command::Load(image))),
            None => Ok(None),
        }
    } else {
        Ok(read_command_without_image(tag, reader))
    }
}

/// Reads a command from all of the bytes. Returns `None` if the bytes do not encode a command.
/// Fails if memory runs out.
#[tactic(auto, unfolding(crate::specs::CommandReading::command_at))]
fn read_command(alloc: Global, bytes: &[u8]) -> Result<Option<Command>, NoMemory>
    ensures read { IfOk result (λ found. found ≡ read_all_of command_at bytes.now) }
    ensures memory { OnErr result (BeginsAsLoad bytes.now) }
{
    let mut reader = Reader::new(bytes);
    let Some(tag) = reader.byte() else {
        return Ok(None);
    };
    match read_command_after_tag(alloc, tag, &mut reader)? {
        Some(command) => {
            if reader.is_empty() {
                Ok(Some(command))
            } else {
                Ok(None)
            }
        }
        None => Ok(None),
    }
}

/// Returns the command that these bytes encode, or `None` if they do not encode a command.
///
/// # Errors
///
/// Fails if memory runs out. Only a load needs memory.
pub fn command_of(alloc: Global, bytes: &[u8]) -> Result<Option<Command>, NoMemory>
    ensures some { IfOk result (λ found. IfSome found (λ c. Encodes bytes.now c)) }
    ensures none { IfOk result (λ found. IfNone found ((c : Command) → Encodes bytes.now c → ⊥)) }
    ensures memory { OnErr result (BeginsAsLoad bytes.now) }
{
    read_command(alloc, bytes)
}

/// Proves that no bytes encode two different commands. (Each command has one encoding, because the
/// definition of the encoding is a function.)
pub fn one_command()
    ensures { (bytes : List ℕ) (c d : Command) → Encodes bytes c → Encodes bytes d → c ≡ d }
{}

//! A rig's ROMs: functions that wire the ROMs to a board, clear the ROMs, and get or set each value. A setter changes
//! only the value that it sets, and clocks no shift register.
ghost use Rattle.std.specs.Prelude.{◌≡◌, ℕ, ◌<◌, ◌≤◌, ◌↔◌, IsTrue, All, length, replicate, None, IfOk, IfSome, slice_index, slice_index_or};
ghost use Rattle.mcs_rom4001.specs.Roms.{IsValidPort};
ghost use Rattle.mcs_model.specs.Boards.{rom_masks};
ghost use Rattle.mcs_model.specs.ChipWrites.{rom_of_board, with_rom_byte, with_rom_latch};
ghost use Rattle.mcs_board.specs.Fitting.{port_after_wiring, port_after_reset};
ghost use Rattle.mcs_board.specs.RigState.{latch_of_rom};

use crate::rig::Rig;
use mcs_model::board::Board;
use mcs_model::limits;
use mcs_nibble::{Addr, LineMask, Nibble};
use mcs_rom4001::RomPort;
use std::alloc::{AllocError, Global};

/// Returns `count` empty ROM sockets. Fails if memory cannot be allocated.
pub(crate) fn empty_rom_sockets(
    alloc: Global,
    count: usize,
) -> Result<Vec<Option<RomPort>>, AllocError>
    ensures { IfOk result (λ roms. roms.items ≡ replicate count None) }
{
    let mut roms = Vec::new(alloc);
    for _ in 0..count {
        roms.push(None)?;
    }
    Ok(roms)
}

/// Returns `count` bytes of value 0. Fails if memory cannot be allocated.
pub(crate) fn zeroed_program(alloc: Global, count: usize) -> Result<Vec<u8>, AllocError>
    ensures { IfOk result (λ program. program.items ≡ replicate count 0) }
{
    let mut program = Vec::new(alloc);
    for _ in 0..count {
        program.push(0)?;
    }
    Ok(program)
}

/// Returns the line masks of ROM `i`, or `None` if the board has no ROM `i`.
fn line_masks_of(board: &Board, i: usize) -> Option<[LineMask; 4]>
    ensures { result ≡ rom_masks board.now i }
{
    let parts = board.parts();
    if i < limits::ROMS {
        parts.roms[i]
    } else {
        None
    }
}

/// Returns whether the numbers of all ROMs on the board are below `sockets`.
pub(crate) fn roms_fit(board: &Board, sockets: usize) -> bool
    ensures { IsTrue result ↔ ((k : ℕ) → sockets ≤ k → rom_masks board.now k ≡ None) }
{
    let _parts = board.parts();
    for i in sockets..limits::ROMS {
        if line_masks_of(board, i).is_some() {
            return false;
        }
    }
    true
}

/// Returns a ROM port with the given line masks and a latch of 0, or `None` if the ROM is absent.
fn port_for_masks(mask: Option<[LineMask; 4]>) -> Option<RomPort>
    ensures { result ≡ port_after_wiring mask }
{
    match mask {
        Some(mask) => Some(RomPort::new(mask)),
        None => None,
    }
}

/// Replaces the ROM ports with those of a new board, and sets all port latches to 0.
pub(crate) fn rewire_roms(roms: &mut Vec<Option<RomPort>>, board: &Board)
    ensures count { length roms.new.items ≡ length roms.old.items }
    ensures roms { (k : ℕ) → k < length roms.old.items → slice_index_or roms.new.items k None
        ≡ port_after_wiring (rom_masks board.now k) }
{
    for i in 0..roms.len() {
        roms[i] = port_for_masks(line_masks_of(board, i));
    }
}

/// Sets to 0 all bytes of each ROM that the board lacks. `program` must have 4096 bytes.
pub(crate) fn clear_absent_roms(program: &mut Vec<u8>, board: &Board)
    requires { length program.old.items ≡ 4096 }
    ensures { program.new.items ≡ rom_of_board board.now program.old.items }
{
    for at in 0..program.len() {
        if line_masks_of(board, at / 256).is_some() {
            continue;
        }
        program[at] = 0;
    }
}

/// Sets a ROM's port latch to 0, if the ROM is present.
fn clear_port(rom: &mut Option<RomPort>)
    ensures { rom.new ≡ port_after_reset rom.old }
{
    if let Some(rom) = rom {
        rom.clear_port();
    }
}

/// Sets the port latches of all ROMs to 0.
pub(crate) fn clear_ports(roms: &mut Vec<Option<RomPort>>)
    ensures count { length roms.new.items ≡ length roms.old.items }
    ensures roms { (k : ℕ) → k < length roms.old.items → slice_index_or roms.new.items k None
        ≡ port_after_reset (slice_index_or roms.old.items k None) }
{
    for i in 0..roms.len() {
        clear_port(&mut roms[i]);
    }
}

/// Returns a copy of a ROM socket.
fn copy_rom(rom: &Option<RomPort>) -> Option<RomPort>
    ensures { result ≡ rom.now }
{
    match rom {
        Some(rom) => Some(rom.copy()),
        None => None,
    }
}

/// Returns a copy of the ROM sockets. Fails if memory cannot be allocated.
pub(crate) fn copy_roms(
    alloc: Global,
    roms: &Vec<Option<RomPort>>,
) -> Result<Vec<Option<RomPort>>, AllocError>
    ensures { IfOk result (λ copy. copy.items ≡ roms.now.items) }
{
    let mut copy = Vec::with_capacity(alloc, roms.len())?;
    for rom in roms {
        copy.push(copy_rom(rom))?;
    }
    Ok(copy)
}

/// Proves that a ROM socket is empty or holds a valid ROM port.
fn show_rom_is_valid(rom: &Option<RomPort>)
    ensures { IfSome rom.now IsValidPort }
{
    if let Some(rom) = rom {
        rom.show_state_is_valid();
    }
}

/// Proves that each ROM socket is empty or holds a valid ROM port.
pub(crate) fn show_roms_are_valid(roms: &Vec<Option<RomPort>>)
    ensures { (k : ℕ) → k < length roms.now.items →
        IfSome (slice_index_or roms.now.items k None) IsValidPort }
{
    for i in 0..roms.len() {
        show_rom_is_valid(&roms[i]);
    }
}

/// Proves that each byte of the program is below 256.
pub(crate) fn show_bytes_are_valid(program: &Vec<u8>)
    ensures { All (λ byte. byte < 256) program.now.items }
{
    let _bytes = program.as_slice();
}

/// Returns a ROM's port latch, or 0 if the ROM is absent.
fn latch_of_socket(rom: &Option<RomPort>) -> Nibble
    ensures { result ≡ latch_of_rom rom.now }
{
    match rom {
        Some(rom) => rom.port(),
        None => Nibble::ZERO,
    }
}

impl<const ROMS: usize, const BANKS: usize, const CHAINS: usize, const MAX: usize> Rig<
    ROMS,
    BANKS,
    CHAINS,
    MAX,
> {
    /// Returns the byte at a ROM address, or 0 if the ROM is absent.
    pub fn rom_byte(&self, at: Addr) -> u8
        ensures { result ≡ slice_index self.now.rom at }
    {
        self.program[usize::from(at.get())]
    }

    /// Sets the byte at a ROM address. Has no effect if the ROM is absent.
    pub fn set_rom_byte(&mut self, at: Addr, byte: u8)
        ensures { self.new ≡ with_rom_byte self.old at byte }
    {
        if self.board().mask(at.page().get()).is_some() {
            self.program[usize::from(at.get())] = byte;
        }
    }

    /// Returns the port latch of ROM `chip` (0 to 15), or 0 if the ROM is absent. The latch bits of input lines are
    /// 0.
    pub fn rom_latch(&self, chip: u8) -> Nibble
        requires { chip < 16 }
        ensures { result ≡ slice_index self.now.rom_ports chip }
    {
        let at = usize::from(chip);
        if at < self.roms.len() {
            latch_of_socket(&self.roms[at])
        } else {
            Nibble::ZERO
        }
    }

    /// Sets the port latch of ROM `chip` (0 to 15). The latch bits of input lines stay 0. Clocks no shift-register
    /// chain. Has no effect if the ROM is absent.
    pub fn set_rom_latch(&mut self, chip: u8, n: Nibble)
        requires { chip < 16 }
        ensures { self.new ≡ with_rom_latch self.old chip n }
    {
        let at = usize::from(chip);
        if at < self.roms.len() {
            match &mut self.roms[at] {
                Some(rom) => rom.write_port(n),
                None => {}
            }
        }
    }

    /// Returns the SRC byte latched in the ROMs.
    pub fn rom_src(&self) -> u8
        ensures { result ≡ self.now.rom_src }
    {
        self.rom_src
    }

    /// Sets the SRC byte latched in the ROMs.
    pub fn set_rom_src(&mut self, byte: u8)
        ensures { self.new ≡ record self.old { rom_src = byte } }
    {
        self.rom_src = byte;
    }
}

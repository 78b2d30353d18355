//! Functions that create a bench from a flat state.
ghost use Rattle.std.specs.Prelude.{◌≡◌, ◌<◌, ◌≤◌, ℕ, All, IfOk, MatchOption, length, slice_index, slice_index_or, slice_set, []};
ghost use Rattle.mcs_nibble.specs.Ports.{latch_value};
ghost use Rattle.mcs_model.specs.Boards.{rom_masks, chain_count, chain_bits, key_count};
ghost use Rattle.mcs_model.specs.Validity.{AreBelow, AreBreakpoints, AreWatches, IsValid, IsValidBus, IsValidRegs};
ghost use Rattle.mcs_bench.specs.ChipLists.{IsKeyAt};
ghost use Rattle.mcs_bench.specs.States.{state_of, bits_of_chains};

use crate::bench::Bench;
use crate::breaks::BreakpointSet;
use crate::chip_list::{ChipList, fill};
use crate::flat::Flat;
use crate::watches::Watches;
use arrayvec::ArrayVec;
use mcs_board::{BenchRig, every_board_fits_the_bench};
use mcs_cpu4004::Cpu;
use mcs_model::board::Board;
use mcs_model::limits::{CHAIN_SOCKETS, KEYS};
use mcs_nibble::{Addr, Bit, Nibble};
use std::alloc::{AllocError, Global};

/// Converts 16 numbers below 16 to nibbles.
fn nibbles(numbers: &[u8; 16]) -> [Nibble; 16]
    requires { All (λ n. n < 16) numbers.now }
    ensures { result ≡ numbers.now }
{
    let mut nibbles = [Nibble::ZERO; 16];
    for i in 0..16 {
        nibbles[i] = Nibble::low_of(numbers[i]);
    }
    nibbles
}

/// Converts three numbers below 4096 to addresses.
fn addresses(numbers: &[u16; 3]) -> [Addr; 3]
    requires { All (λ a. a < 4096) numbers.now }
    ensures { result ≡ numbers.now }
{
    [
        Addr::ZERO.plus(numbers[0]),
        Addr::ZERO.plus(numbers[1]),
        Addr::ZERO.plus(numbers[2]),
    ]
}

/// Returns a processor with the registers of a flat state.
fn processor(flat: &Flat) -> Cpu
    requires { IsValidRegs (state_of flat.now).processor }
    ensures { result ≡ (state_of flat.now).processor }
{
    let mut cpu = Cpu::new();
    cpu.set_acc(Nibble::low_of(flat.acc));
    cpu.set_cy(Bit::low_of(flat.cy));
    cpu.set_r(nibbles(&flat.r));
    cpu.set_pc(Addr::ZERO.plus(flat.pc));
    cpu.set_ret(addresses(&flat.ret));
    cpu.set_dcl(flat.dcl);
    cpu.set_owed(flat.owed);
    cpu
}

/// Sets the port latches of all ROMs. Each latch must be able to hold its value in `ports`.
fn fill_rom_ports(rig: &mut BenchRig, ports: &[u8])
    requires fit { AreBelow 16 16 ports.now }
    requires fits_latch { (chip : ℕ) →
        MatchOption (rom_masks rig.old.board chip) (slice_index ports.now chip ≡ 0)
        (λ mask. latch_value mask (slice_index ports.now chip) ≡ slice_index ports.now chip) }
    ensures { rig.new ≡ record rig.old { rom_ports = ports.now } }
{
    rig.show_state_is_valid();
    for chip in 0..16u8 {
        rig.set_rom_latch(chip, Nibble::low_of(ports[usize::from(chip)]));
    }
}

/// Sets all bits of a chain.
fn fill_chain(rig: &mut BenchRig, chain: u8, bits: &[u8])
    requires chain_exists { chain < chain_count rig.old.board }
    requires fit { AreBelow (chain_bits rig.old.board chain) 2 bits.now }
    ensures { rig.new ≡ record rig.old { chains = slice_set rig.old.chains chain bits.now } }
{
    rig.show_state_is_valid();
    for i in 0..bits.len() {
        rig.set_chain_bit(chain, i as u8, Bit::low_of(bits[i]));
    }
}

/// Sets all bits of all chains.
fn fill_chains(rig: &mut BenchRig, chains: &[ArrayVec<u8, CHAIN_SOCKETS>])
    requires count { length chains.now ≡ chain_count rig.old.board }
    requires fit { (i : ℕ) → i < chain_count rig.old.board →
        AreBelow (chain_bits rig.old.board i) 2 (slice_index_or (bits_of_chains chains.now) i []) }
    ensures { rig.new ≡ record rig.old { chains = bits_of_chains chains.now } }
{
    rig.show_state_is_valid();
    for i in 0..chains.len() {
        fill_chain(rig, i as u8, chains[i].as_slice());
    }
}

/// Returns the number of columns in a board's key matrix, or 1 if the board has no keys. A key's index divided by this
/// number gives the key's row; the remainder is the key's column.
fn key_column_count(board: &Board) -> usize
    ensures { (i : ℕ) → i < key_count board.now → IsKeyAt board.now result i }
{
    match &board.parts().keys {
        Some(matrix) => matrix.columns.len(),
        None => 1,
    }
}

/// Sets the states of all keys.
fn fill_keys(rig: &mut BenchRig, keys: &[u8])
    requires few { length keys.now ≤ KEYS }
    requires fit { AreBelow (key_count rig.old.board) 2 keys.now }
    ensures { rig.new ≡ record rig.old { keys = keys.now } }
{
    rig.show_state_is_valid();
    let columns = key_column_count(rig.board());
    for i in 0..keys.len() {
        rig.set_key(
            (i / columns) as u8,
            (i % columns) as u8,
            Bit::low_of(keys[i]),
        );
    }
}

/// Converts a list of addresses to breakpoints.
fn breakpoints(list: &[u16]) -> BreakpointSet
    requires { AreBreakpoints list.now }
    ensures { result ≡ list.now }
{
    let mut breaks = BreakpointSet::new();
    for at in list {
        breaks.set(Addr::ZERO.plus(*at));
    }
    breaks
}

/// Converts a list of RAM nibble indices to watches.
fn watches(list: &[u16]) -> Watches
    requires { AreWatches list.now }
    ensures { result ≡ list.now }
{
    let mut watches = Watches::new();
    for at in list {
        watches.set((*at / 256) as u8, (*at % 256) as u8);
    }
    watches
}

/// Wires a rig to the board of a flat state. Then sets all chip values, the key states and the TEST level to those of
/// the flat state.
fn restore_rig(rig: &mut BenchRig, flat: &Flat)
    requires { IsValidBus (state_of flat.now).bus }
    ensures { rig.new ≡ (state_of flat.now).bus }
{
    every_board_fits_the_bench(&flat.board);
    rig.wire(&flat.board);
    fill(rig, ChipList::RomBytes, flat.rom.bytes());
    fill(rig, ChipList::RamNibbles, flat.ram.bytes());
    fill(rig, ChipList::StatusCharacters, flat.status.bytes());
    fill(rig, ChipList::RamPorts, flat.ram_ports.bytes());
    fill(rig, ChipList::BankSrcBytes, &flat.ram_src);
    fill_rom_ports(rig, flat.rom_ports.bytes());
    rig.set_rom_src(flat.rom_src);
    fill_chains(rig, flat.chains.as_slice());
    fill_keys(rig, flat.keys.as_slice());
    rig.set_test(Bit::low_of(flat.test));
}

impl Bench {
    /// Creates a bench in the given state, which must be valid (`Flat::check`).
    ///
    /// # Errors
    ///
    /// Fails if memory cannot be allocated.
    pub fn restore(alloc: Global, flat: &Flat) -> Result<Bench, AllocError>
        requires { IsValid (state_of flat.now) }
        ensures { IfOk result (λ bench. bench ≡ state_of flat.now) }
    {
        let mut bench = Bench::new(alloc)?;
        restore_rig(&mut bench.rig, flat);
        bench.cpu = processor(flat);
        bench.breaks = breakpoints(flat.breakpoints.as_slice());
        bench.watches = watches(flat.watches.as_slice());
        bench.seq = flat.seq;
        Ok(bench)
    }
}

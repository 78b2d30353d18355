//! The encoding of a bench's state.
ghost use Rattle.std.specs.Prelude.{◌≡◌, ℕ, ◌+◌, ◌*◌, ◌≤◌, ◌<◌, ◌++◌, List, [], length, take, slice_index, slice_index_or};
ghost use Rattle.std.specs.List.{flat_map};
ghost use Rattle.mcs_model.specs.Boards.{chain_bits, chain_count, key_count};
ghost use Rattle.mcs_model.specs.Validity.{IsValid};
ghost use Rattle.mcs_codec.specs.StateLists.{list_in_state, state_list_length};
ghost use Rattle.mcs_codec.specs.StateBytes.{memory_bytes, registers_bytes, src_bytes, chains_to_breakpoints_bytes, bytes_after_board, state_bytes};
ghost use Rattle.mcs_codec.specs.Codec.{EncodesState};

use crate::boards::put_board;
use crate::encoding::{Encode, put, put_all, put_counted};
use crate::versions::Version;
use mcs_bench::{Bench, ChipList};
use mcs_model::limits::SNAPSHOT_BYTES;

/// The size, in bytes, of a buffer for an encoded state: the maximum length of a snapshot. No
/// encoded state is longer.
pub const STATE_BYTES: usize = SNAPSHOT_BYTES;

/// A list in a bench's state that is written as one byte for each item.
#[derive(Clone, Copy)]
pub enum StateList {
    /// One of the lists of the chips, for example the bytes of the ROMs.
    Chips(ChipList),
    /// The port latches of the ROMs.
    RomPorts,
    /// The index registers of the processor.
    IndexRegisters,
    /// The bits of the chain with this number, bit 0 first.
    ChainBits(u8),
    /// The states of the keys, row by row.
    Keys,
}

/// Returns the state of the key at index `i`, counted row by row: 1 if it is down, 0 if it is up.
fn key_state_at(bench: &Bench, i: usize) -> u8
    requires { i < key_count bench.now.bus.board }
    ensures { result ≡ slice_index bench.now.bus.keys i }
{
    match &bench.board().parts().keys {
        Some(matrix) => {
            let columns = matrix.columns.len();
            bench.key((i / columns) as u8, (i % columns) as u8).get()
        }
        None => 0,
    }
}

impl StateList {
    /// Returns the number of items in the list.
    fn count(self, bench: &Bench) -> usize
        ensures { result ≡ state_list_length self bench.now }
    {
        match self {
            StateList::Chips(list) => list.count(),
            StateList::RomPorts | StateList::IndexRegisters => 16,
            StateList::ChainBits(n) => match bench.board().parts().chains.get(usize::from(n)) {
                Some(chain) => usize::from(chain.bits()),
                None => 0,
            },
            StateList::Keys => match &bench.board().parts().keys {
                Some(matrix) => usize::from(matrix.rows) * matrix.columns.len(),
                None => 0,
            },
        }
    }

    /// Returns the byte at index `i` of the list.
    fn byte(self, bench: &Bench, i: usize) -> u8
        requires valid { IsValid bench.now }
        requires place { i < state_list_length self bench.now }
        ensures { result ≡ slice_index (list_in_state self bench.now) i }
    {
        match self {
            StateList::Chips(list) => bench.chip_value(list, i),
            StateList::RomPorts => bench.rom_port(i as u8).get(),
            StateList::IndexRegisters => bench.regs().r[i].get(),
            StateList::ChainBits(n) => bench.chain_bit(n, i as u8).get(),
            StateList::Keys => key_state_at(bench, i),
        }
    }

    /// Writes the list to `out` at offset `at` and returns the offset after it.
    fn put(self, bench: &Bench, out: &mut [u8], at: usize) -> usize
        requires valid { IsValid bench.now }
        requires room { at + length (list_in_state self bench.now) ≤ length out.old }
        ensures end { result ≡ at + length (list_in_state self bench.now) }
        ensures front { take result out.new ≡ take at out.old ++ list_in_state self bench.now }
    {
        let count = self.count(bench);
        for i in 0..count {
            out[at + i] = self.byte(bench, i);
        }
        at + count
    }
}

/// Writes the contents and the port latches of the ROMs and RAM chips. Returns the offset after
/// them.
fn put_memory(bench: &Bench, out: &mut [u8], at: usize) -> usize
    requires valid { IsValid bench.now }
    requires room { at + length (memory_bytes bench.now.bus) ≤ length out.old }
    ensures end { result ≡ at + length (memory_bytes bench.now.bus) }
    ensures front { take result out.new ≡ take at out.old ++ memory_bytes bench.now.bus }
{
    let at = StateList::Chips(ChipList::RomBytes).put(bench, out, at);
    let at = StateList::Chips(ChipList::RamNibbles).put(bench, out, at);
    let at = StateList::Chips(ChipList::StatusCharacters).put(bench, out, at);
    let at = StateList::Chips(ChipList::RamPorts).put(bench, out, at);
    StateList::RomPorts.put(bench, out, at)
}

/// Writes the accumulator, the carry, the index registers, the program counter and the return
/// addresses. Returns the offset after them.
fn put_registers(bench: &Bench, out: &mut [u8], at: usize) -> usize
    requires valid { IsValid bench.now }
    requires room { at + length (registers_bytes bench.now.processor) ≤ length out.old }
    ensures end { result ≡ at + length (registers_bytes bench.now.processor) }
    ensures front { take result out.new ≡ take at out.old ++ registers_bytes bench.now.processor }
{
    let registers = bench.regs();
    let at = put(out, at, &[registers.acc.get(), registers.cy.get()]);
    let at = StateList::IndexRegisters.put(bench, out, at);
    let at = registers.pc.put(out, at);
    put_all(&registers.ret, out, at)
}

/// Writes the command register, the SRC bytes of the ROMs and of the banks, and the flag for a pending second cycle.
/// Returns the offset after them.
fn put_src_bytes(bench: &Bench, out: &mut [u8], at: usize) -> usize
    requires valid { IsValid bench.now }
    requires room { at + length (src_bytes bench.now.processor bench.now.bus) ≤ length out.old }
    ensures end { result ≡ at + length (src_bytes bench.now.processor bench.now.bus) }
    ensures front { take result out.new
        ≡ take at out.old ++ src_bytes bench.now.processor bench.now.bus }
{
    let registers = bench.regs();
    let at = put(out, at, &[registers.dcl, bench.rom_src()]);
    let at = StateList::Chips(ChipList::BankSrcBytes).put(bench, out, at);
    put(out, at, &[registers.owed])
}

/// Writes the bits of each chain and returns the offset after them.
fn put_chains(bench: &Bench, out: &mut [u8], at: usize) -> usize
    requires valid { IsValid bench.now }
    requires room { at + length (flat_map (λ bits. bits) bench.now.bus.chains) ≤ length out.old }
    ensures end { result ≡ at + length (flat_map (λ bits. bits) bench.now.bus.chains) }
    ensures front { take result out.new
        ≡ take at out.old ++ flat_map (λ bits. bits) bench.now.bus.chains }
{
    let mut end = at;
    for n in 0..bench.board().chain_count() {
        end = StateList::ChainBits(n as u8).put(bench, out, end);
    }
    end
}

/// Writes the bits of the chains, the states of the keys, the TEST level and the breakpoints.
/// Returns the offset after them.
fn put_chains_to_breakpoints(bench: &Bench, out: &mut [u8], at: usize) -> usize
    requires valid { IsValid bench.now }
    requires room { at + length (chains_to_breakpoints_bytes bench.now.bus bench.now.breakpoints)
        ≤ length out.old }
    ensures end { result ≡ at + length (chains_to_breakpoints_bytes bench.now.bus bench.now.breakpoints) }
    ensures front { take result out.new
        ≡ take at out.old ++ chains_to_breakpoints_bytes bench.now.bus bench.now.breakpoints }
{
    let at = put_chains(bench, out, at);
    let at = StateList::Keys.put(bench, out, at);
    let at = put(out, at, &[bench.test().get()]);
    put_counted(bench.breaks(), out, at)
}

/// Writes all fields after the board: memory, registers, SRC bytes, chains to breakpoints, and watches. Returns the
/// offset after them.
fn put_fields_after_board(bench: &Bench, out: &mut [u8], at: usize) -> usize
    requires valid { IsValid bench.now }
    requires room { at + length (bytes_after_board bench.now) ≤ length out.old }
    ensures end { result ≡ at + length (bytes_after_board bench.now) }
    ensures front { take result out.new ≡ take at out.old ++ bytes_after_board bench.now }
{
    let at = put_memory(bench, out, at);
    let at = put_registers(bench, out, at);
    let at = put_src_bytes(bench, out, at);
    let at = put_chains_to_breakpoints(bench, out, at);
    put_counted(bench.watches(), out, at)
}

/// Writes the state of a bench to the start of `into` and returns the length of the encoding in
/// bytes.
fn put_state(bench: &Bench, into: &mut [u8]) -> usize
    requires valid { IsValid bench.now }
    requires room { length (state_bytes bench.now) ≤ length into.old }
    ensures end { result ≡ length (state_bytes bench.now) }
    ensures front { take result into.new ≡ state_bytes bench.now }
{
    let at = put(into, 0, &bench.seq().to_be_bytes());
    let at = put(into, at, &[Version::Two.number()]);
    let at = put_board(bench.board().parts(), into, at);
    put_fields_after_board(bench, into, at)
}

/// Writes the state of a bench to the start of `into` and returns its length, at most 7,632 bytes.
/// The bytes of `into` after the state are unspecified. `into` must have at least `STATE_BYTES`
/// bytes.
pub fn state_bytes(bench: &Bench, into: &mut [u8]) -> usize
    requires buffer_size { STATE_BYTES ≤ length into.old }
    ensures spells { EncodesState (take result into.new) bench.now }
    ensures count { result ≡ length (state_bytes bench.now) }
    ensures fits { result ≤ STATE_BYTES }
{
    bench.show_state_is_valid();
    put_state(bench, into)
}

//! A processor on a rig. Its cells can be loaded from a state vector and saved into a state vector.
ghost use Rattle.std.specs.Prelude.{◌≡◌, ◌<◌, ◌≤◌, ℕ, All, length, slice_index, true, false, IsTrue};
ghost use Rattle.mcs_model.specs.Validity.{IsValidBus, IsValidRegs};
ghost use Rattle.mcs_drive.specs.TrackedMachine.{with_zero_counts};
ghost use Rattle.mcs_check.specs.declared.cells.CellList.TheVariants.{RamNibbles, Counters};
ghost use Rattle.mcs_check.specs.declared.cells.StateByte.TheVariants.{Pair};
ghost use Rattle.mcs_check.specs.Cells.{state_byte_value, values_in_list, value_at, vector_of};
ghost use Rattle.mcs_check.specs.StateVectors.{KeepsBoardAndInputs};
ghost use Rattle.mcs_check.specs.Memory.{HasBytesFrom, HasFirstBytes, IsLastVectorOf, KeepsMemory, is_memory_byte, is_memory_list};

use crate::cells::{Cell, CellList, StateByte, first_cell_of, second_cell_of};
use crate::last_vector::{LastVector, both, bytes_that_may_differ};
use crate::stopwatch::StopwatchCycles;
use mcs_board::BenchRig;
use mcs_cpu4004::Cpu;
use mcs_model::board::Board;
use mcs_model::regs::Regs;
use mcs_nibble::{Addr, Bit, Nibble};
use std::marker::Model;

/// A processor on a rig, with the number of open calls, the cycles on a stopwatch and the number of marks seen.
/// In contracts, a `SearchMachine` is a machine with these three counts.
#[derive(Drop)]
pub struct SearchMachine {
    pub(crate) cpu: Cpu,
    pub(crate) rig: BenchRig,
    pub(crate) calls: u8,
    pub(crate) elapsed: StopwatchCycles,
    pub(crate) seen: u8,
}

impl Model for SearchMachine {
    ghost use Rattle.mcs_drive.specs.TrackedMachine.{TrackedMachine};

    ghost Value = { TrackedMachine };

    ghost view = { λ r. (r.cpu, r.rig, record { calls = r.calls; elapsed = r.elapsed; seen = r.seen }) };
}

/// Returns the address with its upper byte replaced if `is_upper` is true, and its lower byte otherwise. Only the
/// lower nibble of an upper byte is used.
fn with_byte(at: Addr, is_upper: bool, byte: u8) -> Addr {
    if is_upper {
        Addr::on_page(Nibble::low_of(byte), at.low())
    } else {
        Addr::on_page(at.page(), byte)
    }
}

/// Sets counter `i` of the list `Counters` in `regs`: a register, or one byte of an address register.
fn set_counter(regs: &mut Regs, i: u16, n: u8) {
    match i {
        0 => regs.acc = Nibble::low_of(n),
        1 => regs.cy = Bit::low_of(n),
        2 => regs.dcl = n % 8,
        3 => regs.owed = n % 2,
        4 => regs.pc = with_byte(regs.pc, true, n),
        5 => regs.pc = with_byte(regs.pc, false, n),
        _ => {
            let k = usize::from(i) / 2 % 3;
            regs.ret[k] = with_byte(regs.ret[k], i % 2 == 0, n);
        }
    }
}

/// Proves that each number in a list of nibbles is below 16.
fn are_nibbles(list: &[Nibble])
    ensures { All (λ n. n < 16) list.now }
{
    for i in 0..list.len() {
        let _n = list[i].get();
    }
}

/// Proves that each number in a list of addresses is below 4096.
fn are_addresses(list: &[Addr])
    ensures { All (λ a. a < 4096) list.now }
{
    for i in 0..list.len() {
        let _a = list[i].get();
    }
}

/// Proves that each register of a processor holds a value in its range.
fn registers_are_valid(cpu: &Cpu)
    ensures { IsValidRegs cpu.now }
{
    let regs = cpu.regs();
    let _flags = (regs.acc.get(), regs.cy.get(), regs.pc.get());
    are_nibbles(&regs.r);
    are_addresses(&regs.ret);
}

impl SearchMachine {
    /// Creates a machine from a processor and a rig, with no open calls, the stopwatch at 0 and no marks seen.
    pub fn of(cpu: Cpu, rig: BenchRig) -> SearchMachine
        ensures { result ≡ with_zero_counts (cpu, rig) }
    {
        SearchMachine {
            cpu,
            rig,
            calls: 0,
            elapsed: StopwatchCycles::ZERO,
            seen: 0,
        }
    }

    /// Returns the board of the rig.
    pub fn board(&self) -> &Board
        ensures { result.now ≡ self.now.1.board }
    {
        self.rig.board()
    }

    /// Returns the value of cell `i` of the list `Counters`.
    fn counter_at(&self, i: u16) -> u8
        requires { i < 18 }
        ensures { result ≡ slice_index (values_in_list self.now Counters) i }
    {
        let regs = self.cpu.regs();
        let [first, second, third] = regs.ret;
        let [high, middle, low] = self.elapsed.bytes();
        match i {
            0 => regs.acc.get(),
            1 => regs.cy.get(),
            2 => regs.dcl,
            3 => regs.owed,
            4 => (regs.pc.get() / 256) as u8,
            5 => (regs.pc.get() % 256) as u8,
            6 => (first.get() / 256) as u8,
            7 => (first.get() % 256) as u8,
            8 => (second.get() / 256) as u8,
            9 => (second.get() % 256) as u8,
            10 => (third.get() / 256) as u8,
            11 => (third.get() % 256) as u8,
            12 => self.rig.rom_src(),
            13 => self.calls,
            14 => high,
            15 => middle,
            16 => low,
            _ => self.seen,
        }
    }

    /// Returns the value of a cell.
    #[inline(always)]
    pub fn value(&self, cell: Cell) -> u8
        ensures { result ≡ value_at self.now cell }
    {
        match cell.list {
            CellList::RamNibbles => {
                let i = cell.reduced_index();
                self.rig.ram((i / 256) as u8, (i % 256) as u8).get()
            }
            CellList::StatusCharacters => {
                let i = cell.reduced_index();
                let high = Nibble::low_of((i / 4 % 16) as u8);
                self.rig.status((i / 64) as u8, high, (i % 4) as u8).get()
            }
            CellList::RamPorts => {
                let i = cell.reduced_index();
                self.rig.ram_latch((i / 4) as u8, (i % 4) as u8).get()
            }
            CellList::RomPorts => self.rig.rom_latch(cell.reduced_index() as u8).get(),
            CellList::BankSrcBytes => self.rig.ram_src(cell.reduced_index() as u8),
            CellList::Registers => self.cpu.index_registers()[usize::from(
                cell.reduced_index(),
            )].get(),
            CellList::Counters => self.counter_at(cell.reduced_index()),
            CellList::Chain(n) => self.rig.chain_bit(n, cell.reduced_index() as u8).get(),
        }
    }

    /// Returns the byte of the state vector that holds both cells of a pair.
    #[inline(always)]
    fn join_cells(&self, list: CellList, pair: u16) -> u8
        ensures { result ≡ state_byte_value self.now (Pair list pair) }
    {
        let first = self.value(first_cell_of(list, pair)) % 16;
        let second = self.value(second_cell_of(list, pair)) % 16;
        first * 16 + second
    }

    /// Returns the byte of the state vector that holds both RAM nibbles of a pair. This is faster than `join_cells`,
    /// because it computes the bank only once.
    fn join_ram_nibbles(&self, pair: u16) -> u8
        ensures { result ≡ state_byte_value self.now (Pair RamNibbles pair) }
    {
        let pair = pair % 1024;
        let bank = (pair / 128) as u8;
        let src = (pair % 128 * 2) as u8;
        let first = self.rig.ram(bank, src).get() % 16;
        let second = self.rig.ram(bank, src + 1).get() % 16;
        first * 16 + second
    }

    /// Returns the value of a byte of the state vector. Each list with many cells has its own match arm. In that arm
    /// the list is constant, so the compiled program does not test it for each of the two cells.
    #[inline(always)]
    fn byte(&self, byte: StateByte) -> u8
        ensures { result ≡ state_byte_value self.now byte }
    {
        match byte {
            StateByte::One(cell) => self.value(cell),
            StateByte::Pair(CellList::RamNibbles, pair) => self.join_ram_nibbles(pair),
            StateByte::Pair(CellList::StatusCharacters, pair) => {
                self.join_cells(CellList::StatusCharacters, pair)
            }
            StateByte::Pair(CellList::Registers, pair) => self.join_cells(
                CellList::Registers,
                pair,
            ),
            StateByte::Pair(CellList::Chain(n), pair) => self.join_cells(CellList::Chain(n), pair),
            StateByte::Pair(list, pair) => self.join_cells(list, pair),
        }
    }

    /// Sets the value of a cell. Writes a register to `regs` and any other cell to this machine. The contract does
    /// not promise the value, so `load` checks it with `matches_vector`.
    #[inline(always)]
    fn set(&mut self, regs: &mut Regs, cell: Cell, n: u8)
        ensures keeps { KeepsBoardAndInputs self.old.1 self.new.1 }
        ensures memory { is_memory_list cell.list ≡ false → KeepsMemory self.old.1 self.new.1 }
    {
        match cell.list {
            CellList::RamNibbles => {
                let i = cell.reduced_index();
                self.rig
                    .set_ram((i / 256) as u8, (i % 256) as u8, Nibble::low_of(n));
            }
            CellList::StatusCharacters => {
                let i = cell.reduced_index();
                let high = Nibble::low_of((i / 4 % 16) as u8);
                self.rig
                    .set_status((i / 64) as u8, high, (i % 4) as u8, Nibble::low_of(n));
            }
            CellList::RamPorts => {
                let i = cell.reduced_index();
                self.rig
                    .set_ram_latch((i / 4) as u8, (i % 4) as u8, Nibble::low_of(n));
            }
            CellList::RomPorts => self
                .rig
                .set_rom_latch(cell.reduced_index() as u8, Nibble::low_of(n)),
            CellList::BankSrcBytes => self.rig.set_ram_src(cell.reduced_index() as u8, n),
            CellList::Registers => regs.r[usize::from(cell.reduced_index())] = Nibble::low_of(n),
            CellList::Counters => {
                let i = cell.reduced_index();
                if i == 12 {
                    self.rig.set_rom_src(n);
                } else if i == 13 {
                    self.calls = n;
                } else if i == 17 {
                    self.seen = n;
                } else if i > 13 {
                    self.elapsed = self.elapsed.with_byte(i - 14, n);
                } else {
                    set_counter(regs, i, n);
                }
            }
            CellList::Chain(chain) => {
                self.rig
                    .set_chain_bit(chain, cell.reduced_index() as u8, Bit::low_of(n));
            }
        }
    }

    /// Sets both cells of a pair from their byte `n` of the state vector. Calls `set` for each cell.
    #[inline(always)]
    fn split_into_cells(&mut self, regs: &mut Regs, list: CellList, pair: u16, n: u8)
        ensures keeps { KeepsBoardAndInputs self.old.1 self.new.1 }
        ensures memory { is_memory_list list ≡ false → KeepsMemory self.old.1 self.new.1 }
    {
        self.set(regs, first_cell_of(list, pair), n / 16);
        self.set(regs, second_cell_of(list, pair), n % 16);
    }

    /// Sets the cells of a byte of the state vector from its value `n`. Calls `set` for each cell. The match arms are
    /// the same as in `byte`, for the same reason.
    #[inline(always)]
    fn set_byte(&mut self, regs: &mut Regs, byte: StateByte, n: u8)
        ensures keeps { KeepsBoardAndInputs self.old.1 self.new.1 }
        ensures memory { is_memory_byte byte ≡ false → KeepsMemory self.old.1 self.new.1 }
    {
        match byte {
            StateByte::One(cell) => self.set(regs, cell, n),
            StateByte::Pair(CellList::RamNibbles, pair) => {
                self.split_into_cells(regs, CellList::RamNibbles, pair, n);
            }
            StateByte::Pair(CellList::StatusCharacters, pair) => {
                self.split_into_cells(regs, CellList::StatusCharacters, pair, n);
            }
            StateByte::Pair(CellList::Registers, pair) => {
                self.split_into_cells(regs, CellList::Registers, pair, n);
            }
            StateByte::Pair(CellList::Chain(chain), pair) => {
                self.split_into_cells(regs, CellList::Chain(chain), pair, n);
            }
            StateByte::Pair(list, pair) => self.split_into_cells(regs, list, pair, n),
        }
    }

    /// Sets the cells of a byte of the state vector from its new value `n`, unless `n` equals the byte's last value
    /// `last`. Returns false if cells of the memory may have changed.
    #[inline(always)]
    fn change_byte(&mut self, regs: &mut Regs, byte: StateByte, last: u8, n: u8) -> bool
        ensures keeps { KeepsBoardAndInputs self.old.1 self.new.1 }
        ensures memory { result ≡ true → KeepsMemory self.old.1 self.new.1 }
        ensures equal { result ≡ true → is_memory_byte byte ≡ true → last ≡ n }
    {
        if last == n {
            return true;
        }
        self.set_byte(regs, byte, n);
        !byte.is_memory()
    }

    /// Sets all registers of the processor.
    fn set_registers(&mut self, regs: &Regs)
        ensures { self.new.1 ≡ self.old.1 }
    {
        self.cpu.set_acc(regs.acc);
        self.cpu.set_cy(regs.cy);
        self.cpu.set_r(regs.r);
        self.cpu.set_pc(regs.pc);
        self.cpu.set_ret(regs.ret);
        self.cpu.set_dcl(regs.dcl % 8);
        self.cpu.set_owed(regs.owed % 2);
    }

    /// Writes the first `count` bytes of the machine's state vector for a layout into `vector`.
    fn save_first(&self, layout: &[StateByte], count: usize, vector: &mut [u8])
        requires length { length vector.old ≡ length layout.now }
        requires count { count ≤ length layout.now }
        ensures length { length vector.new ≡ length vector.old }
        ensures first { HasFirstBytes self.now layout.now vector.new count }
        ensures others { (k : ℕ) → count ≤ k → slice_index vector.new k ≡ slice_index vector.old k }
    {
        for i in 0..count {
            vector[i] = self.byte(layout[i]);
        }
    }

    /// Writes the machine's state vector for a layout into `vector`, which must have the same length as the layout.
    pub fn save(&self, layout: &[StateByte], vector: &mut [u8])
        requires { length vector.old ≡ length layout.now }
        ensures { vector.new ≡ vector_of layout.now self.now }
    {
        self.save_first(layout, layout.len(), vector);
    }

    /// Writes the machine's state vector into `into`, as `save` does. If `keeps_memory` is true, the bytes of `vector`
    /// from byte `front` on must be those of the machine's state vector. They are then copied, which is faster.
    pub(crate) fn save_after(
        &self,
        layout: &[StateByte],
        front: usize,
        vector: &[u8],
        keeps_memory: bool,
        into: &mut [u8],
    )
        requires vector { length vector.now ≡ length layout.now }
        requires into { length into.old ≡ length layout.now }
        requires front { front ≤ length layout.now }
        requires memory { keeps_memory ≡ true → HasBytesFrom self.now layout.now vector.now front }
        ensures { into.new ≡ vector_of layout.now self.now }
    {
        if !keeps_memory {
            self.save(layout, into);
            return;
        }
        into.copy_from_slice(vector);
        self.save_first(layout, front, into);
    }

    /// Returns true only if the first `count` bytes of `vector` are those of the machine's state vector for this
    /// layout.
    fn matches_first(&self, layout: &[StateByte], vector: &[u8], count: usize) -> bool
        requires length { length vector.now ≡ length layout.now }
        requires count { count ≤ length layout.now }
        ensures { IsTrue result → HasFirstBytes self.now layout.now vector.now count }
    {
        for i in 0..count {
            if vector[i] != self.byte(layout[i]) {
                return false;
            }
        }
        true
    }

    /// Returns true only if `vector` is the machine's state vector for this layout.
    pub(crate) fn matches_vector(&self, layout: &[StateByte], vector: &[u8]) -> bool
        requires { length vector.now ≡ length layout.now }
        ensures { IsTrue result → vector.now ≡ vector_of layout.now self.now }
    {
        self.matches_first(layout, vector, layout.len())
    }

    /// Sets the cells of a layout from a state vector, which must have the same length as the layout. Returns true only
    /// if the machine then has this state vector.
    pub fn load(&mut self, layout: &[StateByte], vector: &[u8]) -> bool
        requires { length vector.now ≡ length layout.now }
        ensures keeps { KeepsBoardAndInputs self.old.1 self.new.1 }
        ensures loaded { IsTrue result → vector.now ≡ vector_of layout.now self.new }
    {
        let mut regs = self.cpu.regs();
        for i in 0..layout.len() {
            self.set_byte(&mut regs, layout[i], vector[i]);
        }
        self.set_registers(&regs);
        self.matches_vector(layout, vector)
    }

    /// Sets the cells whose bytes differ between the state vectors `last` and `vector`. Returns true only if `vector`
    /// is then the machine's state vector. Does not compare the memory's bytes if `last` is current and none of them
    /// differs.
    fn set_changed_cells(&mut self, layout: &[StateByte], last: &LastVector, vector: &[u8]) -> bool
        requires last { length last.now.bytes.items ≡ length layout.now }
        requires vector { length vector.now ≡ length layout.now }
        requires known { IsLastVectorOf layout.now last.now self.old }
        ensures keeps { KeepsBoardAndInputs self.old.1 self.new.1 }
        ensures loaded { IsTrue result → vector.now ≡ vector_of layout.now self.new }
    {
        let mut regs = self.cpu.regs();
        let mut keeps_memory = last.is_current;
        for i in 0..bytes_that_may_differ(&last.bytes, vector, last.front) {
            let is_kept = self.change_byte(&mut regs, layout[i], last.bytes[i], vector[i]);
            keeps_memory = both(keeps_memory, is_kept);
        }
        self.set_registers(&regs);
        if !keeps_memory {
            return self.matches_vector(layout, vector);
        }
        self.matches_first(layout, vector, last.front)
    }

    /// Sets the cells of a layout from `vector`, as `load` does, and returns the same result as `load`. This is faster
    /// if `last` is current. `last` becomes `vector`, or is not current afterwards.
    pub(crate) fn reload(
        &mut self,
        layout: &[StateByte],
        last: &mut LastVector,
        vector: &[u8],
    ) -> bool
        requires vector { length vector.now ≡ length layout.now }
        requires known { IsLastVectorOf layout.now last.old self.old }
        ensures keeps { KeepsBoardAndInputs self.old.1 self.new.1 }
        ensures loaded { IsTrue result → vector.now ≡ vector_of layout.now self.new }
        ensures known { IsLastVectorOf layout.now last.new self.new }
    {
        if last.bytes.len() == vector.len() {
            let is_set = self.set_changed_cells(layout, last, vector);
            last.remember(vector);
            if is_set {
                return true;
            }
        }
        last.is_current = false;
        self.load(layout, vector)
    }

    /// Proves that the machine is valid: its registers and its bus are in their ranges.
    pub fn show_state_is_valid(&self)
        ensures registers { IsValidRegs self.now.0 }
        ensures bus { IsValidBus self.now.1 }
    {
        registers_are_valid(&self.cpu);
        self.rig.show_state_is_valid();
    }
}

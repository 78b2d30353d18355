//! The scope of conditions. A run uses it to recognise cycles that cannot change whether the conditions are met.
ghost use Rattle.std.specs.Prelude.{◌≡◌, ◌<◌, ◌+◌, ◌*◌, ◌||◌};
ghost use Rattle.mcs_check.specs.Scopes.{changes, has_all_conditions, has_cell, has_condition, has_all_lists, has_register};

use crate::cells::{Cell, CellList};
use crate::conditions::{Condition, Conjunction};
use mcs_model::op::Op;
use mcs_nibble::PairNo;

/// The parts of a machine that a set of conditions depends on.
#[derive(Clone, Copy)]
pub(crate) struct Scope {
    /// For each index register, true if a condition depends on it.
    pub(crate) registers: [bool; 16],
    /// True if a condition depends on a chip other than the processor.
    pub(crate) chips: bool,
    /// True if a condition looks for mistakes.
    pub(crate) mistakes: bool,
}

impl Scope {
    /// Returns the scope of no conditions.
    pub(crate) fn empty() -> Scope {
        Scope {
            registers: [false; 16],
            chips: false,
            mistakes: false,
        }
    }

    /// Adds everything that the conditions in these conjunctions depend on.
    pub(crate) fn add_lists(&mut self, lists: &[Conjunction]) {
        for i in 0..lists.len() {
            self.add_all(lists[i].conditions());
        }
    }

    /// Adds a cell to the scope. A cell of a chip adds all chips, and a counter adds nothing.
    fn add_cell(&mut self, cell: Cell) {
        match cell.list {
            CellList::Registers => self.registers[usize::from(cell.reduced_index())] = true,
            CellList::Counters => {}
            _ => self.chips = true,
        }
    }

    /// Adds everything that these conditions depend on: index registers, chips and mistakes.
    fn add_all(&mut self, conditions: &[Condition]) {
        for i in 0..conditions.len() {
            match &conditions[i] {
                Condition::Compare(comparison) => self.add_cell(comparison.cell),
                Condition::Mistaken(_) => self.mistakes = true,
            }
        }
    }

    /// Returns whether an index register is in the scope.
    fn has_register(&self, r: u8) -> bool
        requires { r < 16 }
        ensures { result ≡ has_register self.now r }
    {
        self.registers[usize::from(r)]
    }

    /// Returns whether at least one register of a pair is in the scope.
    fn has_pair(&self, pair: PairNo) -> bool
        ensures { result ≡ (has_register self.now (2 * pair) || has_register self.now (2 * pair + 1)) }
    {
        let even = 2 * pair.get();
        self.has_register(even) || self.has_register(even + 1)
    }

    /// Returns whether a cell is in the scope. Of the counters, the bytes of the stopwatch and the number of marks seen
    /// are in every scope, and the others are in none.
    fn has_cell(&self, cell: Cell) -> bool
        ensures { result ≡ has_cell self.now cell.list cell.index }
    {
        match cell.list {
            CellList::Registers => self.has_register(cell.reduced_index() as u8),
            CellList::Counters => cell.reduced_index() >= 14,
            _ => self.chips,
        }
    }

    /// Returns whether the scope covers everything that a condition depends on.
    fn has_condition(&self, condition: &Condition) -> bool
        ensures { result ≡ has_condition self.now condition.now }
    {
        match condition {
            Condition::Compare(comparison) => self.has_cell(comparison.cell),
            Condition::Mistaken(_) => self.mistakes,
        }
    }

    /// Returns whether the scope covers everything that these conditions depend on.
    fn has_all_conditions(&self, conditions: &[Condition]) -> bool
        ensures { result ≡ has_all_conditions self.now conditions.now }
    {
        for i in 0..conditions.len() {
            if !self.has_condition(&conditions[i]) {
                return false;
            }
        }
        true
    }

    /// Returns whether the scope covers everything that the conjunctions depend on.
    pub(crate) fn has_all_lists(&self, never_lists: &[Conjunction]) -> bool
        ensures { result ≡ has_all_lists self.now never_lists.now }
    {
        for i in 0..never_lists.len() {
            if !self.has_all_conditions(never_lists[i].conditions()) {
                return false;
            }
        }
        true
    }

    /// Returns whether an instruction may change a register or a chip in the scope.
    pub(crate) fn changes(&self, op: Op) -> bool
        ensures { result ≡ changes self.now op }
    {
        match op {
            Op::Fim(pair, _) => self.has_pair(pair),
            Op::Fin(pair) => self.has_pair(pair),
            Op::Inc(r) => self.has_register(r.get()),
            Op::Isz(r, _) => self.has_register(r.get()),
            Op::Xch(r) => self.has_register(r.get()),
            Op::Src(_) | Op::Wrm | Op::Wmp | Op::Wrr => self.chips,
            Op::Wr0 | Op::Wr1 | Op::Wr2 | Op::Wr3 => self.chips,
            _ => false,
        }
    }
}

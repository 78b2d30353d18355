//! The processor and its instruction cycle.
ghost use Rattle.std.specs.Prelude.{◌≡◌, ◌≢◌, ℕ, ◌<◌, ◌↔◌, IsNone, IsTrue, Some, unwrap_or};
ghost use Rattle.mcs_model.specs.BenchState.{new_regs};
ghost use Rattle.mcs_model.specs.Registers.{with_register};
ghost use Rattle.mcs_model.specs.Effect.{cycle_of, instruction_at};
ghost use Rattle.mcs_cpu4004.specs.IsInstructionRun.{IsInstructionRun};

use crate::bus::Bus;
use crate::execute::execute;
use mcs_code::Op;
use mcs_model::regs::Regs;
use mcs_nibble::{Addr, Bit, Nibble, RegNo};
use std::marker::Model;

/// The result of an instruction cycle.
#[derive(Clone, Copy, Debug, PartialEq, Eq)]
pub enum Cycle {
    /// The cycle did the work of an instruction. A second cycle is pending if the instruction takes two cycles.
    Done,
    /// The cycle was the pending second cycle of an instruction, which does no work.
    Idle,
    /// The opcode at the program counter is outside the opcode table. Nothing changed.
    Outside,
}

/// A 4004. In contracts, the value of a processor is its registers.
#[derive(Clone, Copy)]
pub struct Cpu {
    regs: Regs,
}

impl Model for Cpu {
    ghost use Rattle.std.specs.Prelude.{◌<◌};
    ghost use Rattle.mcs_model.specs.declared.regs.Regs.{Regs};

    ghost Value = { Regs };

    ghost view = { λ c. c.regs };

    ghost invariant = { λ c. (c.regs.dcl < 8) × (c.regs.owed < 2) };

    ghost inverse = { λ v. record { regs = v } };
}

impl Cpu {
    /// Returns a processor in its power-on state: all registers are 0.
    pub fn new() -> Cpu
        ensures { result ≡ new_regs }
    {
        Cpu { regs: Regs::new() }
    }

    /// Executes the first cycle of the instruction at the program counter. Returns `Outside` and changes nothing if
    /// the opcode is outside the opcode table. A second cycle must not be pending.
    #[inline(always)]
    #[tactic(auto, unfolding(mcs_model::specs::Effect::cycle_of))]
    fn begin<B: Bus>(&mut self, bus: &mut B) -> Cycle
        requires { self.old.owed ≢ 1 }
        ensures outside { (result ≡ Cycle.Outside) ↔ IsNone (cycle_of self.old (B.flat bus.old)) }
        ensures not_idle { result ≢ Cycle.Idle }
        ensures state { (self.new, B.flat bus.new)
            ≡ unwrap_or (cycle_of self.old (B.flat bus.old)) (self.old, B.flat bus.old) }
    {
        let at = self.regs.pc;
        match self.instruction(bus, at) {
            None => Cycle::Outside,
            Some(op) => {
                let (next, cycles) = execute(&mut self.regs, bus, op, at);
                self.regs.pc = next;
                self.regs.owed = cycles - 1;
                Cycle::Done
            }
        }
    }

    /// Executes one instruction cycle: the pending second cycle if there is one, otherwise the first cycle of the
    /// instruction at the program counter. Returns `Outside` and changes nothing if the opcode is outside the opcode
    /// table.
    #[inline(always)]
    #[tactic(auto, unfolding(mcs_model::specs::Effect::cycle_of))]
    pub fn cycle<B: Bus>(&mut self, bus: &mut B) -> Cycle
        ensures outside { (result ≡ Cycle.Outside) ↔ IsNone (cycle_of self.old (B.flat bus.old)) }
        ensures idle { (result ≡ Cycle.Idle) ↔ (self.old.owed ≡ 1) }
        ensures state { (self.new, B.flat bus.new)
            ≡ unwrap_or (cycle_of self.old (B.flat bus.old)) (self.old, B.flat bus.old) }
    {
        if self.regs.owed == 1 {
            self.regs.owed = 0;
            return Cycle::Idle;
        }
        self.begin(bus)
    }

    /// Decodes the instruction at an address. Returns `None` if its opcode is outside the opcode table.
    #[inline(always)]
    pub fn instruction<B: Bus>(&self, bus: &B, at: Addr) -> Option<Op>
        ensures { result ≡ instruction_at (record self.now { pc = at }) (B.flat bus.now) }
    {
        let second = at.plus(1);
        mcs_code::decode(bus.fetch(at), bus.fetch(second))
    }

    /// Executes the instruction `op` at an address, for at most `left` cycles. A second cycle must not be pending,
    /// and `left` must be at least 1. Returns the next program counter, and the number of cycles executed, 1 or 2. If
    /// only the first of two cycles was executed, the second is pending.
    ///
    /// The stored program counter does not change: the caller keeps the current value in a variable, and stores it at
    /// the end of the run.
    #[inline(always)]
    #[tactic(auto, unfolding(mcs_model::specs::Effect::cycle_of))]
    pub fn run_instruction<B: Bus>(
        &mut self,
        bus: &mut B,
        op: Op,
        at: Addr,
        left: u32,
    ) -> (Addr, u32)
        requires free { self.old.owed ≢ 1 }
        requires some { 0 < left }
        requires decoded { instruction_at (record self.old { pc = at }) (B.flat bus.old) ≡ Some op }
        ensures ran { IsInstructionRun left (record self.old { pc = at }, B.flat bus.old)
            (record self.new { pc = result.0 }, B.flat bus.new) result.1 }
        ensures goes { 0 < result.1 }
        ensures owes { self.new.owed ≡ 1 → result.1 ≡ left }
        ensures counter { self.new.pc ≡ self.old.pc }
    {
        let (next, cycles) = execute(&mut self.regs, bus, op, at);
        let needed = u32::from(cycles);
        if needed > left {
            self.regs.owed = 1;
            return (next, 1);
        }
        (next, needed)
    }

    /// Returns true if the next cycle on a bus would return `Outside`.
    #[tactic(auto, unfolding(mcs_model::specs::Effect::cycle_of))]
    pub fn is_outside_table<B: Bus>(&self, bus: &B) -> bool
        ensures { IsTrue result ↔ IsNone (cycle_of self.now (B.flat bus.now)) }
    {
        self.regs.owed != 1 && self.instruction(bus, self.regs.pc).is_none()
    }

    /// Returns the registers.
    pub fn regs(&self) -> Regs
        ensures same { result ≡ self.now }
        ensures dcl { result.dcl < 8 }
        ensures owed { result.owed < 2 }
    {
        self.regs
    }

    /// Returns the index registers, `R0` first.
    pub fn index_registers(&self) -> &[Nibble; 16]
        ensures { result.now ≡ self.now.r }
    {
        &self.regs.r
    }

    /// Sets the accumulator.
    pub fn set_acc(&mut self, acc: Nibble)
        ensures { self.new ≡ record self.old { acc = acc } }
    {
        self.regs.acc = acc;
    }

    /// Sets the carry.
    pub fn set_cy(&mut self, cy: Bit)
        ensures { self.new ≡ record self.old { cy = cy } }
    {
        self.regs.cy = cy;
    }

    /// Sets all index registers, `R0` first.
    pub fn set_r(&mut self, r: [Nibble; 16])
        ensures { self.new ≡ record self.old { r = r } }
    {
        self.regs.r = r;
    }

    /// Sets one index register.
    pub fn set_register(&mut self, r: RegNo, n: Nibble)
        ensures { self.new ≡ with_register self.old r n }
    {
        self.regs.set_register(r, n);
    }

    /// Sets the program counter.
    pub fn set_pc(&mut self, pc: Addr)
        ensures { self.new ≡ record self.old { pc = pc } }
    {
        self.regs.pc = pc;
    }

    /// Sets the three return addresses. BBL returns to the first one.
    pub fn set_ret(&mut self, ret: [Addr; 3])
        ensures { self.new ≡ record self.old { ret = ret } }
    {
        self.regs.ret = ret;
    }

    /// Sets the command register, 0 to 7.
    pub fn set_dcl(&mut self, dcl: u8)
        requires { dcl < 8 }
        ensures { self.new ≡ record self.old { dcl = dcl } }
    {
        self.regs.dcl = dcl;
    }

    /// Sets whether a second cycle is pending: 1 for pending, 0 for not pending.
    pub fn set_owed(&mut self, owed: u8)
        requires { owed < 2 }
        ensures { self.new ≡ record self.old { owed = owed } }
    {
        self.regs.owed = owed;
    }
}

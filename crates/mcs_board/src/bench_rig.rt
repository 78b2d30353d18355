//! The bench's rig, which is large enough for every board, and functions that execute instructions on it.
ghost use Rattle.std.specs.Prelude.{◌≡◌, ◌≢◌, ◌<◌, ◌↔◌, IsNone, Some, unwrap_or};
ghost use Rattle.mcs_model.specs.Effect.{cycle_of, instruction_at};
ghost use Rattle.mcs_cpu4004.specs.IsInstructionRun.{IsInstructionRun};
ghost use Rattle.mcs_board.specs.Fitting.{FitsSockets};

use crate::rig::Rig;
use mcs_cpu4004::{Cpu, Cycle};
use mcs_model::board::Board;
use mcs_model::limits::{BANKS, CHAIN_SOCKETS, CHAINS, ROMS};
use mcs_model::op::Op;
use mcs_nibble::Addr;

/// A rig that is large enough for every board.
pub type BenchRig = Rig<ROMS, BANKS, CHAINS, CHAIN_SOCKETS>;

/// Proves that every board fits the bench's rig.
pub fn every_board_fits_the_bench(board: &Board)
    ensures { FitsSockets board.now ROMS BANKS CHAINS CHAIN_SOCKETS }
{
    let _parts = board.parts();
}

/// Executes one instruction cycle of a processor on a rig, as `cycle_of` defines it. If `cycle_of` is `None`, returns
/// `Cycle::Outside` and changes neither the processor nor the rig. Returns `Cycle::Idle` if and only if a second cycle
/// was pending before the call.
#[inline(always)]
pub fn cycle(cpu: &mut Cpu, rig: &mut BenchRig) -> Cycle
    ensures outside { (result ≡ Cycle.Outside) ↔ IsNone (cycle_of cpu.old rig.old) }
    ensures idle { (result ≡ Cycle.Idle) ↔ (cpu.old.owed ≡ 1) }
    ensures state { (cpu.new, rig.new) ≡ unwrap_or (cycle_of cpu.old rig.old) (cpu.old, rig.old) }
{
    cpu.cycle(rig)
}

/// Decodes the instruction at an address. Returns `None` if the opcode at this address is outside the opcode table.
#[inline(always)]
pub fn instruction(cpu: &Cpu, rig: &BenchRig, at: Addr) -> Option<Op>
    ensures { result ≡ instruction_at (record cpu.now { pc = at }) rig.now }
{
    cpu.instruction(rig, at)
}

/// Executes `op`, the instruction at address `at`, for at most `max_cycles` cycles. Returns the
/// address at which execution continues and the number of cycles done, at least 1. If only the
/// first of two cycles was done, the second is pending. Requires that `max_cycles` is not 0 and
/// that no second cycle is pending. The processor's program counter does not change.
#[inline(always)]
pub fn run_instruction(
    cpu: &mut Cpu,
    rig: &mut BenchRig,
    op: Op,
    at: Addr,
    max_cycles: u32,
) -> (Addr, u32)
    requires free { cpu.old.owed ≢ 1 }
    requires some { 0 < max_cycles }
    requires decoded { instruction_at (record cpu.old { pc = at }) rig.old ≡ Some op }
    ensures ran { IsInstructionRun max_cycles (record cpu.old { pc = at }, rig.old)
        (record cpu.new { pc = result.0 }, rig.new) result.1 }
    ensures goes { 0 < result.1 }
    ensures owes { cpu.new.owed ≡ 1 → result.1 ≡ max_cycles }
    ensures counter { cpu.new.pc ≡ cpu.old.pc }
{
    cpu.run_instruction(rig, op, at, max_cycles)
}

//! Runs and single steps of a processor on the bench's rig.
ghost use Rattle.std.specs.Prelude.{◌≡◌, ◌<◌, ◌*◌, ◌+◌, ◌&&◌, ◌==◌, not, unwrap_or, true, false, [], Some, None, MatchOption, ◌↔◌};
ghost use Rattle.mcs_model.specs.Effect.{cycle_of, instruction_at};
ghost use Rattle.mcs_model.specs.Running.{is_outside_table};
ghost use Rattle.mcs_model.specs.declared.op.Op.TheVariants.{Wrm};
ghost use Rattle.mcs_model.specs.Listed.{is_listed};
ghost use Rattle.mcs_bench.specs.Runs.{RunReaches, IsRunResult, IsStepResult, IsInstructionResult, PredictsWatchChange, debug_stop_of, stop_reason};

use crate::breaks::BreakpointSet;
use crate::watches::Watches;
use mcs_board::BenchRig;
use mcs_cpu4004::{Cpu, Cycle};
use mcs_model::op::Op;
use mcs_model::stop::Stop;
use mcs_nibble::Addr;

/// Returns whether the processor cannot continue: no second cycle is pending, and the opcode at the program counter
/// is outside the opcode table.
fn is_outside_table(cpu: &Cpu, rig: &BenchRig) -> bool
    ensures { result ≡ is_outside_table (cpu.now, rig.now) }
{
    cpu.is_outside_table(rig)
}

/// Returns the debug stop after a cycle that leads to the address `at`. The stop is `Breakpoint` if `at` is a
/// breakpoint and no second cycle is pending. Otherwise it is `Watched` if `changed` is true, and `None` if not.
#[inline(always)]
fn debug_stop_at(cpu: &Cpu, at: Addr, breaks: &BreakpointSet, changed: bool) -> Option<Stop>
    ensures mark { result ≡ debug_stop_of (cpu.now.owed == 0 && is_listed breaks.now at) changed }
    ensures owed { cpu.now.owed < 2 }
{
    let owed = cpu.regs().owed;
    if breaks.contains(at) && owed == 0 {
        Some(Stop::Breakpoint)
    } else if changed {
        Some(Stop::Watched)
    } else {
        None
    }
}

/// Returns whether an instruction is WRM, the only instruction that writes a RAM nibble.
#[inline(always)]
fn is_wrm(op: &Op) -> bool
    ensures { result ≡ true ↔ op.now ≡ Wrm }
{
    matches!(op, Op::Wrm)
}

/// Returns whether `op`, the instruction at the address `at`, will change the value of a watched RAM nibble.
#[inline(always)]
fn op_changes_watch(cpu: &Cpu, rig: &BenchRig, watches: &Watches, op: &Op, at: Addr) -> bool
    requires { instruction_at (record cpu.now { pc = at }) rig.now ≡ Some op.now }
    ensures { PredictsWatchChange watches.now (record cpu.now { pc = at }, rig.now) result }
{
    rig.show_state_is_valid();
    if !is_wrm(op) {
        return false;
    }
    let regs = cpu.regs();
    let bank = regs.dcl;
    let src = rig.ram_src(bank);
    if !watches.contains(bank, src) {
        return false;
    }
    if rig.ram(bank, src) == regs.acc {
        return false;
    }
    src / 64 < rig.board().bank_chips(bank)
}

/// Returns whether `op`, the instruction at the address `at`, will change the value of a watched RAM nibble. The
/// caller must set `WATCHED` to true if any RAM nibble is watched. If `WATCHED` is false, the function returns false
/// at once.
#[inline(always)]
fn op_changes_watch_if<const WATCHED: bool>(
    cpu: &Cpu,
    rig: &BenchRig,
    watches: &Watches,
    op: &Op,
    at: Addr,
) -> bool
    requires none_watched { WATCHED ≡ false → watches.now ≡ [] }
    requires decoded { instruction_at (record cpu.now { pc = at }) rig.now ≡ Some op.now }
    ensures { PredictsWatchChange watches.now (record cpu.now { pc = at }, rig.now) result }
{
    if !WATCHED {
        return false;
    }
    op_changes_watch(cpu, rig, watches, op, at)
}

/// Returns whether `op`, the instruction at the address `at`, will change the value of a watched RAM nibble. Returns
/// false at once if no RAM nibble is watched.
#[inline(always)]
fn op_changes_any_watch(cpu: &Cpu, rig: &BenchRig, watches: &Watches, op: &Op, at: Addr) -> bool
    requires { instruction_at (record cpu.now { pc = at }) rig.now ≡ Some op.now }
    ensures { PredictsWatchChange watches.now (record cpu.now { pc = at }, rig.now) result }
{
    if watches.is_empty() {
        return false;
    }
    op_changes_watch(cpu, rig, watches, op, at)
}

/// Returns the reason why a run stops in the current state: `Outside` if the processor cannot continue
/// (`is_outside_table`). Otherwise returns `mark`, or `Ended` if `mark` is `None`.
pub(crate) fn stop_reason(cpu: &Cpu, rig: &BenchRig, mark: Option<Stop>) -> Stop
    ensures { result ≡ stop_reason (cpu.now, rig.now) mark }
{
    if is_outside_table(cpu, rig) {
        return Stop::Outside;
    }
    match mark {
        Some(why) => why,
        None => Stop::Ended,
    }
}

/// The result of one instruction of a run, or of only a pending second cycle.
#[derive(Clone, Copy)]
pub struct InstructionResult {
    /// The number of cycles done, at least 1.
    pub cycles: u32,
    /// The reason to stop the run after these cycles, if any: a breakpoint or a change of a watched RAM nibble.
    pub mark: Option<Stop>,
    /// The instruction, or `None` if only a pending second cycle was done.
    pub op: Option<Op>,
}

/// Executes the pending second cycle of an instruction.
fn run_second_cycle(cpu: &mut Cpu, breaks: &BreakpointSet) -> InstructionResult
    requires { cpu.old.owed ≡ 1 }
    ensures state { cpu.new ≡ record cpu.old { owed = 0 } }
    ensures cycles { result.cycles ≡ 1 }
    ensures mark { result.mark ≡ debug_stop_of (is_listed breaks.now cpu.old.pc) false }
    ensures op { result.op ≡ None }
{
    cpu.set_owed(0);
    let at = cpu.regs().pc;
    InstructionResult {
        cycles: 1,
        mark: debug_stop_at(cpu, at, breaks, false),
        op: None,
    }
}

/// Executes the pending second cycle if there is one, otherwise the instruction at the program counter, for at most
/// `left` cycles. Returns `None` and changes nothing if the processor cannot continue (`is_outside_table`).
#[inline(always)]
pub(crate) fn continue_run(
    cpu: &mut Cpu,
    rig: &mut BenchRig,
    breaks: &BreakpointSet,
    watches: &Watches,
    left: u32,
) -> Option<InstructionResult>
    requires { 0 < left }
    ensures { MatchOption result
        ((is_outside_table (cpu.old, rig.old) ≡ true) × (cpu.new ≡ cpu.old) × (rig.new ≡ rig.old))
        (IsInstructionResult (record { breaks = breaks.now; watches = watches.now }) left (cpu.old, rig.old)
        (cpu.new, rig.new)) }
{
    let regs = cpu.regs();
    if regs.owed == 1 {
        return Some(run_second_cycle(cpu, breaks));
    }
    let at = regs.pc;
    match mcs_board::instruction(cpu, rig, at) {
        None => None,
        Some(op) => {
            let changes_watch = op_changes_any_watch(cpu, rig, watches, &op, at);
            let (next, cycles) = mcs_board::run_instruction(cpu, rig, op, at, left);
            cpu.set_pc(next);
            Some(InstructionResult {
                cycles,
                mark: debug_stop_at(cpu, next, breaks, changes_watch),
                op: Some(op),
            })
        }
    }
}

/// Runs for at most `n` cycles. Stops at a breakpoint, or before an instruction that can end the run for another
/// reason. Returns the number of cycles done, the address reached, and the breakpoint stop, if any. The caller must
/// set the program counter to the address reached. `WATCHED` must be true if any RAM nibble is watched.
#[inline(always)]
fn fast_loop<const WATCHED: bool>(
    cpu: &mut Cpu,
    rig: &mut BenchRig,
    breaks: &BreakpointSet,
    watches: &Watches,
    n: u32,
) -> (u32, Addr, Option<Stop>)
    requires { WATCHED ≡ false → watches.now ≡ [] }
    ensures { RunReaches (record { breaks = breaks.now; watches = watches.now }) n (cpu.old, rig.old)
        (record cpu.new { pc = result.1 }, rig.new) result.0 result.2 }
{
    let mut at = cpu.regs().pc;
    let mut left = n;
    // Executes a pending second cycle first, so that none is pending when the loop body starts.
    if n > 0 && cpu.regs().owed == 1 {
        left = n - 1;
        if let Some(why) = run_second_cycle(cpu, breaks).mark {
            return (1, at, Some(why));
        }
    }
    while left > 1 {
        match mcs_board::instruction(cpu, rig, at) {
            None => return (n - left, at, None),
            Some(op) => {
                if op_changes_watch_if::<WATCHED>(cpu, rig, watches, &op, at) {
                    return (n - left, at, None);
                }
                let (next, cycles) = mcs_board::run_instruction(cpu, rig, op, at, left);
                at = next;
                left -= cycles;
            }
        }
        if breaks.contains(at) {
            return (n - left, at, debug_stop_at(cpu, at, breaks, false));
        }
    }
    (n - left, at, None)
}

/// Runs `fast_loop` and then sets the program counter. If no RAM nibble is watched, uses the variant of `fast_loop`
/// that does not check for changes. Returns the number of cycles done and the breakpoint stop, if any.
fn run_fast(
    cpu: &mut Cpu,
    rig: &mut BenchRig,
    breaks: &BreakpointSet,
    watches: &Watches,
    n: u32,
) -> (u32, Option<Stop>)
    ensures { RunReaches (record { breaks = breaks.now; watches = watches.now }) n (cpu.old, rig.old)
        (cpu.new, rig.new) result.0 result.1 }
{
    // No reference to this copy exists outside the loop, so the compiler can keep its fields in machine registers.
    let mut copy = *cpu;
    let (done, at, mark) = if watches.is_empty() {
        fast_loop::<false>(&mut copy, rig, breaks, watches, n)
    } else {
        fast_loop::<true>(&mut copy, rig, breaks, watches, n)
    };
    copy.set_pc(at);
    *cpu = copy;
    (done, mark)
}

/// Runs for at most `n` cycles. Returns the number of cycles done and the reason why the run stopped.
pub(crate) fn run(
    cpu: &mut Cpu,
    rig: &mut BenchRig,
    breaks: &BreakpointSet,
    watches: &Watches,
    n: u32,
) -> (u32, Stop)
    ensures { IsRunResult (record { breaks = breaks.now; watches = watches.now }) n (cpu.old, rig.old)
        (cpu.new, rig.new) result.0 result.1 }
{
    let (mut done, mut mark) = run_fast(cpu, rig, breaks, watches, n);
    // The next instruction can end the run: at most one cycle is left, the instruction changes a
    // watched RAM nibble, or its opcode is outside the opcode table.
    while done < n && mark.is_none() {
        match continue_run(cpu, rig, breaks, watches, n - done) {
            None => return (done, Stop::Outside),
            Some(executed) => {
                done += executed.cycles;
                mark = executed.mark;
            }
        }
    }
    (done, stop_reason(cpu, rig, mark))
}

/// Executes one instruction cycle and returns true. Returns false and changes nothing if the processor cannot continue
/// (`is_outside_table`).
#[inline(never)]
fn run_cycle(cpu: &mut Cpu, rig: &mut BenchRig) -> bool
    ensures executed { result ≡ not (is_outside_table (cpu.old, rig.old)) }
    ensures machine { (cpu.new, rig.new) ≡ unwrap_or (cycle_of cpu.old rig.old) (cpu.old, rig.old) }
{
    match mcs_board::cycle(cpu, rig) {
        Cycle::Outside => false,
        Cycle::Done | Cycle::Idle => true,
    }
}

/// Executes the pending second cycle if there is one, otherwise one instruction. Returns the number of cycles done
/// and the reason why the step stopped.
pub(crate) fn step(cpu: &mut Cpu, rig: &mut BenchRig) -> (u32, Stop)
    ensures { IsStepResult (cpu.old, rig.old) (cpu.new, rig.new) result.0 result.1 }
{
    if !run_cycle(cpu, rig) {
        return (0, Stop::Outside);
    }
    if cpu.regs().owed == 0 {
        return (1, Stop::Ended);
    }
    let _ = run_cycle(cpu, rig);
    (2, Stop::Ended)
}

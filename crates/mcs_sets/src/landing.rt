//! The effect of an instruction on one choice of values.
ghost use Rattle.std.specs.Prelude.{◌≡◌, ◌<◌, Some};
ghost use Rattle.mcs_drive.specs.TrackedMachine.{calls_after};
ghost use Rattle.mcs_model.specs.Effect.{after_fetch, registers_after};
ghost use Rattle.mcs_sets.specs.Landing.{first_location_written, first_operand_set, landing, op_at, second_location_written, second_operand_set, stand_in_before, stand_in_registers, value_written, with_value_read};

use crate::entries::Entry;
use mcs_board::BenchRig;
use mcs_cpu4004::Cpu;
use mcs_model::op::Op;
use mcs_model::regs::Regs;
use mcs_nibble::{Bit, Nibble};

/// The effect of an instruction on one choice of values: the new registers, the number of open calls, and up to two
/// changed locations with their new values. Location 26 means no location. The index registers in `regs` are those of
/// the stand-in processor, not of the machine.
#[derive(Clone, Copy)]
pub(crate) struct Landing {
    pub(crate) regs: Regs,
    pub(crate) calls: u8,
    pub(crate) first_location: u8,
    pub(crate) first_value: u8,
    pub(crate) second_location: u8,
    pub(crate) second_value: u8,
}

/// The set of all nibbles.
const ALL_NIBBLES: u16 = 65535;

/// Returns the values that an instruction's first operand may have. The set contains only 0 if there is no operand.
pub(crate) fn first_operand_set(op: &Op, entry: &Entry) -> u16
    ensures { result ≡ first_operand_set op.now entry.now }
{
    match op {
        Op::Src(k) | Op::Jin(k) => entry.sets[usize::from(2 * k.get())],
        Op::Fin(_) => entry.sets[0],
        Op::Inc(r) | Op::Isz(r, _) | Op::Add(r) | Op::Sub(r) | Op::Ld(r) | Op::Xch(r) =>
            entry.sets[usize::from(r.get())],
        Op::Sbm | Op::Rdm | Op::Rdr | Op::Adm | Op::Rd0 | Op::Rd1 | Op::Rd2 | Op::Rd3 =>
            ALL_NIBBLES,
        _ => 1,
    }
}

/// Returns the values that an instruction's second operand may have. For a JCN, the values are the levels of TEST.
/// The set contains only 0 if there is no second operand.
pub(crate) fn second_operand_set(op: &Op, entry: &Entry) -> u16
    ensures { result ≡ second_operand_set op.now entry.now }
{
    match op {
        Op::Jcn(_, _) => 3,
        Op::Fin(_) => entry.sets[1],
        Op::Jin(k) => entry.sets[usize::from(2 * k.get() + 1)],
        _ => 1,
    }
}

/// Returns index registers that give `op` the operand values `first` and `second`.
pub(crate) fn stand_in_registers(op: &Op, first: Nibble, second: Nibble) -> [Nibble; 16]
    ensures { result ≡ stand_in_registers op.now first second }
{
    let mut r = [first; 16];
    match op {
        Op::Fin(_) => r[1] = second,
        Op::Jin(k) => r[usize::from(2 * k.get() + 1)] = second,
        _ => {}
    }
    r
}

/// Returns the registers `after` an instruction, corrected if the instruction reads the nibble `n` from RAM or a
/// port. Returns `after` unchanged for other instructions.
pub(crate) fn with_value_read(op: &Op, n: Nibble, before: &Regs, after: Regs) -> Regs
    ensures { result ≡ with_value_read op.now n before.now after }
{
    let mut regs = after;
    match op {
        Op::Sbm => (regs.acc, regs.cy) = before.acc.sub_borrow(n, before.cy),
        Op::Adm => (regs.acc, regs.cy) = before.acc.add(n, before.cy),
        Op::Rdm | Op::Rdr | Op::Rd0 | Op::Rd1 | Op::Rd2 | Op::Rd3 => regs.acc = n,
        _ => {}
    }
    regs
}

/// Returns the first location that an instruction changes, or 26 if there is none.
pub(crate) fn first_location_written(op: &Op) -> u8
    ensures { result ≡ first_location_written op.now }
{
    match op {
        Op::Fim(k, _) | Op::Fin(k) => 2 * k.get(),
        Op::Src(_) => 17,
        Op::Inc(r) | Op::Isz(r, _) | Op::Xch(r) => r.get(),
        _ => 26,
    }
}

/// Returns the second location that an instruction changes, or 26 if there is none. `bank` is the
/// designated bank, and `chips` is the number of its chips.
pub(crate) fn second_location_written(op: &Op, chips: u8, bank: u8) -> u8
    requires { bank < 8 }
    ensures { result ≡ second_location_written op.now chips bank }
{
    match op {
        Op::Fim(k, _) | Op::Fin(k) => 2 * k.get() + 1,
        Op::Src(_) => { if 0 < chips { 18 + bank } else { 26 } }
        _ => 26,
    }
}

/// Returns the value that an instruction leaves at a location that it changes. `first` is the value of the
/// instruction's first operand.
pub(crate) fn value_written(op: &Op, first: Nibble, after: &Regs, location: u8) -> u8
    ensures { result ≡ value_written op.now first after.now location }
{
    match op {
        Op::Src(_) => first.get(),
        _ => {
            if location < 16 {
                after.r[usize::from(location)].get()
            } else {
                0
            }
        }
    }
}

/// Returns the number of open calls after an instruction, if `calls` are open before it.
pub(crate) fn calls_after(op: &Op, calls: u8) -> u8
    ensures { result ≡ calls_after (Some op.now) calls }
{
    match op {
        Op::Jms(_, _) => { if calls < 3 { calls + 1 } else { calls } }
        Op::Bbl(_) => calls.saturating_sub(1),
        _ => calls,
    }
}

/// One choice of the values that an entry allows: accumulator, carry, bank, and the two operand values of an
/// instruction.
#[derive(Clone, Copy)]
pub(crate) struct Choice {
    pub(crate) acc: Nibble,
    pub(crate) cy: Bit,
    pub(crate) bank: u8,
    pub(crate) first_operand: Nibble,
    pub(crate) second_operand: Nibble,
}

/// Returns a processor with these registers.
fn processor(regs: &Regs) -> Cpu
    requires bank { regs.now.dcl < 8 }
    requires owed { regs.now.owed < 2 }
    ensures { result ≡ regs.now }
{
    let mut cpu = Cpu::new();
    cpu.set_acc(regs.acc);
    cpu.set_cy(regs.cy);
    cpu.set_r(regs.r);
    cpu.set_pc(regs.pc);
    cpu.set_ret(regs.ret);
    cpu.set_dcl(regs.dcl);
    cpu.set_owed(regs.owed);
    cpu
}

/// Returns the registers of the stand-in processor before an instruction. The index registers hold the operand
/// values, and the other registers hold the values of `choice` and `entry`.
fn stand_in_before(op: &Op, entry: &Entry, choice: &Choice) -> Regs
    ensures { result ≡ stand_in_before op.now entry.now.at entry.now.ret choice.now }
{
    Regs {
        acc: choice.acc,
        cy: choice.cy,
        r: stand_in_registers(op, choice.first_operand, choice.second_operand),
        pc: entry.at,
        ret: entry.ret,
        dcl: choice.bank,
        owed: 0,
    }
}

/// Runs the instruction at the program counter for one cycle, with TEST at `level`. Returns the registers after the
/// cycle.
fn run_instruction(rig: &mut BenchRig, op: &Op, regs: &Regs, level: Bit) -> Regs
    requires bank { regs.now.dcl < 8 }
    requires not_owed { regs.now.owed ≡ 0 }
    requires instruction { op_at rig.old.rom regs.now.pc ≡ Some op.now }
    ensures ran { result ≡ registers_after op.now (after_fetch op.now regs.now) (record rig.old { test = level }) }
    ensures rom { rig.new.rom ≡ rig.old.rom }
    ensures board { rig.new.board ≡ rig.old.board }
{
    let mut cpu = processor(regs);
    rig.set_test(level);
    let _cycle = mcs_board::cycle(&mut cpu, rig);
    cpu.regs()
}

/// Returns the landing of a choice: the effect of the instruction on that choice.
pub(crate) fn compute_landing(
    rig: &mut BenchRig,
    op: &Op,
    entry: &Entry,
    choice: &Choice,
) -> Landing
    requires bank { choice.now.bank < 8 }
    requires instruction { op_at rig.old.rom entry.now.at ≡ Some op.now }
    ensures landing { result ≡ landing op.now entry.now.at entry.now.ret entry.now.calls rig.old choice.now }
    ensures rom { rig.new.rom ≡ rig.old.rom }
    ensures board { rig.new.board ≡ rig.old.board }
{
    let before = stand_in_before(op, entry, choice);
    let after = run_instruction(rig, op, &before, Bit::low_of(choice.second_operand.get()));
    let regs = with_value_read(op, choice.first_operand, &before, after);
    let first_location = first_location_written(op);
    let second_location = second_location_written(
        op,
        rig.board().bank_chips(choice.bank),
        choice.bank,
    );
    let first_value = value_written(op, choice.first_operand, &regs, first_location);
    let second_value = value_written(op, choice.first_operand, &regs, second_location);
    Landing {
        regs,
        calls: calls_after(op, entry.calls),
        first_location,
        first_value,
        second_location,
        second_value,
    }
}

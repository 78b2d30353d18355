//! Checks that a certificate covers a machine at every moment, for all inputs.
ghost use Rattle.std.specs.Prelude.{◌≡◌, ◌<◌, ℕ, IsTrue, length, slice_index, slice_index_or, true};
ghost use Rattle.mcs_drive.specs.TrackedMachine.{with_zero_counts};
ghost use Rattle.mcs_sets.specs.declared.entries.Entry.{Entry};
ghost use Rattle.mcs_sets.specs.Closure.{IsBusOf, StaysCovered, StaysCoveredOneCycle};
ghost use Rattle.mcs_sets.specs.Entries.{Covers, IsAtEntry, IsCovered, acc_values_of, contains, value_at};
ghost use Rattle.mcs_sets.specs.Landing.{CallsAllow, IsValidOp};

use crate::covering::are_all_choices_covered;
use crate::entries::{Entry, contains};
use crate::sampling::singleton;
use mcs_board::BenchRig;
use mcs_cpu4004::Cpu;
use mcs_model::op::Op;
use mcs_nibble::Addr;

/// Returns true only if the number of open calls allows an instruction: JMS needs fewer than three open calls, and
/// BBL at least one.
pub(crate) fn calls_allow(op: &Op, calls: u8) -> bool
    ensures { IsTrue result → CallsAllow op.now calls }
{
    match op {
        Op::Jms(_, _) => calls < 3,
        Op::Bbl(_) => 0 < calls,
        _ => true,
    }
}

/// Proves that the register and pair operands of an instruction are in range.
fn op_is_valid(op: &Op)
    ensures { IsValidOp op.now }
{
    match op {
        Op::Fim(k, _) | Op::Src(k) | Op::Fin(k) | Op::Jin(k) => {
            let _k = k.get();
        }
        Op::Inc(r) | Op::Isz(r, _) | Op::Add(r) | Op::Sub(r) | Op::Ld(r) | Op::Xch(r) => {
            let _r = r.get();
        }
        _ => {}
    }
}

/// Returns true only if every machine that `entry` covers is covered by the certificate after one more cycle.
fn stays_covered_one_cycle(
    rig: &mut BenchRig,
    entries: &[Entry],
    links: &[usize],
    entry: &Entry,
) -> bool
    ensures stays_covered_one_cycle { IsTrue result → StaysCoveredOneCycle rig.old.board rig.old.rom entries.now entry.now }
    ensures rom { rig.new.rom ≡ rig.old.rom }
    ensures board { rig.new.board ≡ rig.old.board }
{
    match mcs_board::instruction(&Cpu::new(), rig, entry.at) {
        None => false,
        Some(op) => {
            op_is_valid(&op);
            calls_allow(&op, entry.calls)
                && are_all_choices_covered(rig, entries, links, entry, &op)
        }
    }
}

/// Returns a machine's value at a location, 0 to 25. Locations are numbered as in `Entry::sets`.
fn value_at(cpu: &Cpu, rig: &BenchRig, location: u8) -> u8
    requires { location < 26 }
    ensures { result ≡ value_at (with_zero_counts (cpu.now, rig.now)) location }
{
    let regs = cpu.regs();
    if location == 16 {
        regs.dcl
    } else if location < 16 {
        regs.r[usize::from(location)].get()
    } else if location == 17 {
        rig.rom_src() / 16
    } else {
        rig.ram_src(location - 18) / 16
    }
}

/// Returns the entry that has only this machine's value for each location, and no open calls.
pub(crate) fn entry_of(cpu: &Cpu, rig: &BenchRig) -> Entry {
    let regs = cpu.regs();
    let acc = singleton(regs.acc.get());
    let mut sets = [0u16; 26];
    for location in 0..26u8 {
        sets[usize::from(location)] = singleton(value_at(cpu, rig, location));
    }
    Entry {
        at: regs.pc,
        calls: 0,
        ret: [Addr::ZERO; 3],
        acc_if_carry_0: if regs.cy.get() == 0 { acc } else { 0 },
        acc_if_carry_1: if regs.cy.get() == 0 { 0 } else { acc },
        sets,
        first_link: 0,
        end_link: 0,
    }
}

/// Returns whether an entry allows the value that a machine holds at a location.
fn allows_value(entry: &Entry, cpu: &Cpu, rig: &BenchRig, location: u8) -> bool
    requires { location < 26 }
    ensures { IsTrue result → contains (slice_index entry.now.sets location) (value_at (with_zero_counts (cpu.now, rig.now)) location) ≡ true }
{
    contains(
        entry.sets[usize::from(location)],
        value_at(cpu, rig, location),
    )
}

/// Returns whether an entry allows, at each location, the value that a machine holds there.
fn allows_all_values(entry: &Entry, cpu: &Cpu, rig: &BenchRig) -> bool
    ensures { IsTrue result → (k : ℕ) → k < 26 → contains (slice_index entry.now.sets k) (value_at (with_zero_counts (cpu.now, rig.now)) k) ≡ true }
{
    for location in 0..26u8 {
        if !allows_value(entry, cpu, rig, location) {
            return false;
        }
    }
    true
}

/// Proves that a machine has 16 index registers, 8 banks and a carry of 0 or 1.
fn machine_is_well_formed(cpu: &Cpu, rig: &BenchRig)
    ensures registers { length cpu.now.r ≡ 16 }
    ensures banks { length rig.now.ram_src ≡ 8 }
    ensures carry { cpu.now.cy < 2 }
{
    rig.show_state_is_valid();
    let regs = cpu.regs();
    let _carry = regs.cy.get();
}

/// Returns whether a processor is at the address of an entry, and the entry has no open calls.
fn is_at_entry(entry: &Entry, cpu: &Cpu) -> bool
    ensures { IsTrue result → IsAtEntry entry.now cpu.now }
{
    cpu.regs().pc.get() == entry.at.get() && entry.calls == 0
}

/// Returns whether an entry allows a processor's accumulator, given its carry.
fn allows_acc(entry: &Entry, cpu: &Cpu) -> bool
    ensures { result ≡ contains (acc_values_of entry.now cpu.now.cy) cpu.now.acc }
{
    let regs = cpu.regs();
    contains(entry.acc_values(regs.cy.get()), regs.acc.get())
}

/// Returns true only if an entry covers this machine, which has no open calls.
fn covers(entry: &Entry, cpu: &Cpu, rig: &BenchRig) -> bool
    ensures { IsTrue result → Covers entry.now (with_zero_counts (cpu.now, rig.now)) }
{
    machine_is_well_formed(cpu, rig);
    if !is_at_entry(entry, cpu) {
        return false;
    }
    if !allows_acc(entry, cpu) {
        return false;
    }
    allows_all_values(entry, cpu, rig)
}

/// Returns true only if the certificate's first entry covers this machine, which has no open calls.
fn first_entry_covers(cpu: &Cpu, rig: &BenchRig, entries: &[Entry]) -> bool
    ensures { IsTrue result → IsCovered entries.now (with_zero_counts (cpu.now, rig.now)) }
{
    !entries.is_empty() && covers(&entries[0], cpu, rig)
}

/// Proves that each value in a rig's RAM is a nibble, and that the TEST level is 0 or 1.
pub(crate) fn rig_is_valid(rig: &BenchRig)
    ensures { IsBusOf rig.now.board rig.now.rom rig.now }
{
    rig.show_state_is_valid();
}

/// Returns true only if every machine that entry `i` covers is covered by the certificate after one more cycle.
fn stays_covered_one_cycle_at(
    rig: &mut BenchRig,
    entries: &[Entry],
    links: &[usize],
    i: usize,
) -> bool
    requires { i < length entries.now }
    ensures stays_covered_one_cycle { IsTrue result → (d : Entry) →
        StaysCoveredOneCycle rig.old.board rig.old.rom entries.now (slice_index_or entries.now i d) }
    ensures rom { rig.new.rom ≡ rig.old.rom }
    ensures board { rig.new.board ≡ rig.old.board }
{
    stays_covered_one_cycle(rig, entries, links, &entries[i])
}

/// Returns true only if a certificate covers this machine at every moment, for all inputs. The count of open calls
/// begins at 0. Returns false if the first entry does not cover the machine in its current state.
pub fn stays_covered(cpu: &Cpu, rig: &mut BenchRig, entries: &[Entry], links: &[usize]) -> bool
    ensures { IsTrue result → StaysCovered entries.now (with_zero_counts (cpu.now, rig.old)) }
{
    rig_is_valid(rig);
    if !first_entry_covers(cpu, rig, entries) {
        return false;
    }
    for i in 0..entries.len() {
        if !stays_covered_one_cycle_at(rig, entries, links, i) {
            return false;
        }
    }
    true
}

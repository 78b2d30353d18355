//! Checks that the certificate covers the landing of each choice that an entry allows.
ghost use Rattle.std.specs.Prelude.{◌≡◌, ◌<◌, ℕ, IsTrue, Some};
ghost use Rattle.mcs_sets.specs.Landing.{CoversLanding, op_at};
ghost use Rattle.mcs_sets.specs.Covering.{AgreeOnOpenCalls, AllowsChoice, CoversLocation, IsChoiceCovered, IsLandingCovered, choice_at};

use crate::entries::{Entry, contains, is_subset};
use crate::landing::{Choice, Landing, compute_landing, first_operand_set, second_operand_set};
use mcs_board::BenchRig;
use mcs_model::op::Op;
use mcs_nibble::{Addr, Bit, Nibble};

/// Returns whether `target` allows every value that `location` can have after this landing from `source`.
fn covers_location(source: &Entry, target: &Entry, landing: &Landing, location: u8) -> bool
    requires { location < 26 }
    ensures { IsTrue result → CoversLocation source.now target.now landing.now location }
{
    let k = usize::from(location);
    if location == 16 {
        return contains(target.sets[k], landing.regs.dcl);
    }
    if location == landing.first_location {
        return contains(target.sets[k], landing.first_value);
    }
    if location == landing.second_location {
        return contains(target.sets[k], landing.second_value);
    }
    is_subset(source.sets[k], target.sets[k])
}

/// Returns whether `target` allows, at each location, every value that the location can have after this landing from
/// `source`.
fn covers_locations(source: &Entry, target: &Entry, landing: &Landing) -> bool
    ensures { IsTrue result → (k : ℕ) → k < 26 → CoversLocation source.now target.now landing.now k }
{
    for location in 0..26u8 {
        if !covers_location(source, target, landing, location) {
            return false;
        }
    }
    true
}

/// Returns true only if two call stacks have the same return addresses for the open calls. `calls` is the number of
/// open calls.
fn agree_on_open_calls(a: &[Addr; 3], b: &[Addr; 3], calls: u8) -> bool
    ensures { IsTrue result → AgreeOnOpenCalls a.now b.now calls }
{
    (calls < 1 || a[0].get() == b[0].get())
        && (calls < 2 || a[1].get() == b[1].get())
        && (calls < 3 || a[2].get() == b[2].get())
}

/// Returns whether `target` covers every machine that this landing reaches from `source`.
fn covers_landing(source: &Entry, target: &Entry, landing: &Landing) -> bool
    ensures { IsTrue result → CoversLanding source.now target.now landing.now }
{
    target.at.get() == landing.regs.pc.get()
        && target.calls == landing.calls
        && agree_on_open_calls(&target.ret, &landing.regs.ret, target.calls)
        && landing.regs.cy.get() < 2
        && contains(
            target.acc_values(landing.regs.cy.get()),
            landing.regs.acc.get(),
        )
        && covers_locations(source, target, landing)
}

/// Returns true only if an entry linked from `source` covers every machine that this landing reaches from `source`.
fn is_landing_covered(entries: &[Entry], links: &[usize], source: &Entry, landing: &Landing) -> bool
    ensures { IsTrue result → IsLandingCovered entries.now source.now landing.now }
{
    for i in source.first_link..source.end_link {
        if i >= links.len() {
            return false;
        }
        let n = links[i];
        if n < entries.len() && covers_landing(source, &entries[n], landing) {
            return true;
        }
    }
    false
}

/// Returns whether the certificate covers the landing of one choice. A choice with an operand value that the entry
/// does not allow counts as covered.
fn is_choice_covered(
    rig: &mut BenchRig,
    entries: &[Entry],
    links: &[usize],
    entry: &Entry,
    op: &Op,
    choice: &Choice,
) -> bool
    requires bank { choice.now.bank < 8 }
    requires instruction { op_at rig.old.rom entry.now.at ≡ Some op.now }
    ensures covered { IsTrue result → AllowsChoice entry.now op.now choice.now →
        IsChoiceCovered rig.old.rom rig.old.board entries.now entry.now op.now choice.now }
    ensures rom { rig.new.rom ≡ rig.old.rom }
    ensures board { rig.new.board ≡ rig.old.board }
{
    if !contains(first_operand_set(op, entry), choice.first_operand.get()) {
        return true;
    }
    if !contains(second_operand_set(op, entry), choice.second_operand.get()) {
        return true;
    }
    let landing = compute_landing(rig, op, entry, choice);
    is_landing_covered(entries, links, entry, &landing)
}

/// Returns whether the certificate covers the landings of all allowed choices with this bank, accumulator and carry.
/// `flags` is the accumulator plus 16 times the carry.
fn are_covered_with_bank(
    rig: &mut BenchRig,
    entries: &[Entry],
    links: &[usize],
    entry: &Entry,
    op: &Op,
    flags: u8,
    bank: u8,
) -> bool
    requires instruction { op_at rig.old.rom entry.now.at ≡ Some op.now }
    ensures covered { IsTrue result → (first second : ℕ) → first < 16 → second < 16 →
        AllowsChoice entry.now op.now (choice_at flags bank first second) →
        IsChoiceCovered rig.old.rom rig.old.board entries.now entry.now op.now (choice_at flags bank first second) }
    ensures rom { rig.new.rom ≡ rig.old.rom }
    ensures board { rig.new.board ≡ rig.old.board }
{
    if !contains(entry.sets[16], bank) {
        return true;
    }
    if bank >= 8 {
        return false;
    }
    for byte in 0..256u16 {
        let choice = Choice {
            acc: Nibble::low_of(flags),
            cy: Bit::low_of(flags / 16),
            bank,
            first_operand: Nibble::low_of((byte / 16) as u8),
            second_operand: Nibble::low_of((byte % 16) as u8),
        };
        if !is_choice_covered(rig, entries, links, entry, op, &choice) {
            return false;
        }
    }
    true
}

/// Returns whether the certificate covers the landings of all allowed choices with this accumulator and carry.
/// `flags` is the accumulator plus 16 times the carry.
fn are_covered_with_flags(
    rig: &mut BenchRig,
    entries: &[Entry],
    links: &[usize],
    entry: &Entry,
    op: &Op,
    flags: u8,
) -> bool
    requires instruction { op_at rig.old.rom entry.now.at ≡ Some op.now }
    ensures covered { IsTrue result → (bank first second : ℕ) → bank < 16 → first < 16 → second < 16 →
        AllowsChoice entry.now op.now (choice_at flags bank first second) →
        IsChoiceCovered rig.old.rom rig.old.board entries.now entry.now op.now (choice_at flags bank first second) }
    ensures rom { rig.new.rom ≡ rig.old.rom }
    ensures board { rig.new.board ≡ rig.old.board }
{
    if !contains(entry.acc_values(flags / 16 % 2), flags % 16) {
        return true;
    }
    for bank in 0..16u8 {
        if !are_covered_with_bank(rig, entries, links, entry, op, flags, bank) {
            return false;
        }
    }
    true
}

/// Returns whether the certificate covers the landings of all choices that an entry allows.
pub(crate) fn are_all_choices_covered(
    rig: &mut BenchRig,
    entries: &[Entry],
    links: &[usize],
    entry: &Entry,
    op: &Op,
) -> bool
    requires instruction { op_at rig.old.rom entry.now.at ≡ Some op.now }
    ensures covered { IsTrue result → (flags bank first second : ℕ) → flags < 32 → bank < 16 → first < 16 → second < 16 →
        AllowsChoice entry.now op.now (choice_at flags bank first second) →
        IsChoiceCovered rig.old.rom rig.old.board entries.now entry.now op.now (choice_at flags bank first second) }
    ensures rom { rig.new.rom ≡ rig.old.rom }
    ensures board { rig.new.board ≡ rig.old.board }
{
    for flags in 0..32u8 {
        if !are_covered_with_flags(rig, entries, links, entry, op, flags) {
            return false;
        }
    }
    true
}

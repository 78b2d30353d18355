//! Determines which conditions an entry excludes. An entry excludes a condition if no machine that the entry covers
//! meets the condition.
ghost use Rattle.std.specs.Prelude.{◌≡◌, ◌<◌, ◌/◌, ◌%◌, ◌+◌, IsTrue, false, true, slice_index, map};
ghost use Rattle.mcs_model.specs.Command.{lacks_rom};
ghost use Rattle.mcs_check.specs.declared.conditions.Condition.TheVariants.{Mistaken};
ghost use Rattle.mcs_check.specs.Conditions.{meets_none};
ghost use Rattle.mcs_check.specs.Mistaken.{has_input, has_output, is_rdr, is_wrr, uses_ram};
ghost use Rattle.mcs_sets.specs.Entries.{contains};
ghost use Rattle.mcs_sets.specs.Excluding.{Excludes, ExcludesConjunction, ForAllIn, HasChipsOfBank, HasSelectableChips, HoldsInEntry, MakesNoMistake, reads_next_address};

use crate::certifying::calls_allow;
use crate::entries::{Entry, contains};
use mcs_board::BenchRig;
use mcs_check::{Condition, Mistakes};
use mcs_cpu4004::Cpu;
use mcs_model::board::Board;
use mcs_model::op::Op;
use mcs_nibble::Addr;

/// Returns whether an instruction reads or writes a RAM chip.
fn uses_ram(op: &Op) -> bool
    ensures { result ≡ uses_ram op.now }
{
    match op {
        Op::Wrm | Op::Wmp | Op::Wr0 | Op::Wr1 | Op::Wr2 | Op::Wr3 => true,
        Op::Sbm | Op::Rdm | Op::Adm | Op::Rd0 | Op::Rd1 | Op::Rd2 | Op::Rd3 => true,
        _ => false,
    }
}

/// Returns whether an instruction reads a second word, or is FIN, which reads a byte on the page of the next address.
fn reads_next_address(op: &Op) -> bool
    ensures { result ≡ reads_next_address op.now }
{
    match op {
        Op::Jcn(_, _) | Op::Fim(_, _) | Op::Fin(_) => true,
        Op::Jun(_, _) | Op::Jms(_, _) | Op::Isz(_, _) => true,
        _ => false,
    }
}

/// Returns whether an instruction is an RDR.
fn is_rdr(op: &Op) -> bool
    ensures { result ≡ is_rdr op.now }
{
    match op {
        Op::Rdr => true,
        _ => false,
    }
}

/// Returns whether an instruction is a WRR.
fn is_wrr(op: &Op) -> bool
    ensures { result ≡ is_wrr op.now }
{
    match op {
        Op::Wrr => true,
        _ => false,
    }
}

/// Returns whether a board has no ROM at an address.
fn lacks_rom(board: &Board, at: Addr) -> bool
    ensures { result ≡ lacks_rom board.now at }
{
    board.mask(at.page().get()).is_none()
}

/// Returns whether a ROM's port has an input line.
fn has_input(board: &Board, chip: u8) -> bool
    ensures { result ≡ has_input board.now chip }
{
    board.is_input(chip, 0)
        || board.is_input(chip, 1)
        || board.is_input(chip, 2)
        || board.is_input(chip, 3)
}

/// Returns whether a ROM's port has an output line.
fn has_output(board: &Board, chip: u8) -> bool
    ensures { result ≡ has_output board.now chip }
{
    !board.mask(chip).is_none()
        && !(board.is_input(chip, 0)
            && board.is_input(chip, 1)
            && board.is_input(chip, 2)
            && board.is_input(chip, 3))
}

/// Returns whether a bank has the chip that an SRC byte with upper nibble `n` selects. Also returns true if `n` is not
/// in `set`.
fn has_chip_if_member(board: &Board, bank: u8, set: u16, n: u8) -> bool
    ensures { IsTrue result → contains set n ≡ true → n / 4 < slice_index board.now.banks bank }
{
    !contains(set, n) || n / 4 < board.bank_chips(bank)
}

/// Returns whether a bank has each chip that its SRC byte can select. `set` has the possible upper nibbles of the SRC
/// byte.
fn has_selectable_chips(board: &Board, bank: u8, set: u16) -> bool
    ensures { IsTrue result → HasSelectableChips board.now bank set }
{
    for n in 0..16u8 {
        if !has_chip_if_member(board, bank, set, n) {
            return false;
        }
    }
    true
}

/// Returns whether a bank number is below 8 and the board has each chip that a machine covered by the entry may select
/// in that bank. Also returns true if the entry does not allow the bank.
fn has_chips_of_bank(board: &Board, entry: &Entry, bank: u8) -> bool
    ensures bank_exists { IsTrue result → contains (slice_index entry.now.sets 16) bank ≡ true → bank < 8 }
    ensures chips { IsTrue result → contains (slice_index entry.now.sets 16) bank ≡ true →
        HasSelectableChips board.now bank (slice_index entry.now.sets (18 + bank)) }
{
    !contains(entry.sets[16], bank)
        || (bank < 8 && has_selectable_chips(board, bank, entry.sets[usize::from(18 + bank)]))
}

/// Returns whether a board has each RAM chip that a machine covered by an entry may select.
fn has_selectable_ram(board: &Board, entry: &Entry) -> bool
    ensures { IsTrue result → ForAllIn (slice_index entry.now.sets 16) (HasChipsOfBank board.now entry.now) }
{
    for bank in 0..16u8 {
        if !has_chips_of_bank(board, entry, bank) {
            return false;
        }
    }
    true
}

/// Returns whether ROM `n` has an input line. Also returns true if `n` is not in the set.
fn has_input_if_member(board: &Board, set: u16, n: u8) -> bool
    ensures { IsTrue result → contains set n ≡ true → has_input board.now n ≡ true }
{
    !contains(set, n) || has_input(board, n)
}

/// Returns whether each ROM of a set has an input line.
fn has_inputs(board: &Board, set: u16) -> bool
    ensures { IsTrue result → ForAllIn set (λ n. has_input board.now n ≡ true) }
{
    for n in 0..16u8 {
        if !has_input_if_member(board, set, n) {
            return false;
        }
    }
    true
}

/// Returns whether ROM `n` has an output line. Also returns true if `n` is not in the set.
fn has_output_if_member(board: &Board, set: u16, n: u8) -> bool
    ensures { IsTrue result → contains set n ≡ true → has_output board.now n ≡ true }
{
    !contains(set, n) || has_output(board, n)
}

/// Returns whether each ROM of a set has an output line.
fn has_outputs(board: &Board, set: u16) -> bool
    ensures { IsTrue result → ForAllIn set (λ n. has_output board.now n ≡ true) }
{
    for n in 0..16u8 {
        if !has_output_if_member(board, set, n) {
            return false;
        }
    }
    true
}

/// Returns whether a board has the ROM of each byte that an instruction at `at` reads, including its own bytes.
fn has_roms_read_by(board: &Board, at: Addr, op: &Op) -> bool
    ensures own_rom { IsTrue result → lacks_rom board.now at ≡ false }
    ensures next_rom { IsTrue result → reads_next_address op.now ≡ true → lacks_rom board.now ((at + 1) % 4096) ≡ false }
{
    !lacks_rom(board, at) && (!reads_next_address(op) || !lacks_rom(board, at.plus(1)))
}

/// Returns true only if no machine that an entry covers uses an absent RAM chip, or `mistakes` does not include that
/// mistake.
fn avoids_absent_ram(board: &Board, entry: &Entry, op: &Op, mistakes: &Mistakes) -> bool
    ensures { IsTrue result → mistakes.now.absent_ram ≡ true → uses_ram op.now ≡ true →
        ForAllIn (slice_index entry.now.sets 16) (HasChipsOfBank board.now entry.now) }
{
    !mistakes.absent_ram || !uses_ram(op) || has_selectable_ram(board, entry)
}

/// Returns true only if no machine that an entry covers reads from an absent ROM, or `mistakes` does not include that
/// mistake.
fn avoids_absent_rom(board: &Board, entry: &Entry, op: &Op, mistakes: &Mistakes) -> bool
    ensures own_rom { IsTrue result → mistakes.now.absent_rom ≡ true → lacks_rom board.now entry.now.at ≡ false }
    ensures next_rom { IsTrue result → mistakes.now.absent_rom ≡ true → reads_next_address op.now ≡ true →
        lacks_rom board.now ((entry.now.at + 1) % 4096) ≡ false }
{
    !mistakes.absent_rom || has_roms_read_by(board, entry.at, op)
}

/// Returns true only if no machine that an entry covers reads a port without input lines, or `mistakes` does not
/// include that mistake.
fn avoids_missing_inputs(board: &Board, entry: &Entry, op: &Op, mistakes: &Mistakes) -> bool
    ensures { IsTrue result → mistakes.now.port_without_inputs ≡ true → is_rdr op.now ≡ true →
        ForAllIn (slice_index entry.now.sets 17) (λ n. has_input board.now n ≡ true) }
{
    !mistakes.port_without_inputs || !is_rdr(op) || has_inputs(board, entry.sets[17])
}

/// Returns true only if no machine that an entry covers writes to a port without output lines, or `mistakes` does not
/// include that mistake.
fn avoids_missing_outputs(board: &Board, entry: &Entry, op: &Op, mistakes: &Mistakes) -> bool
    ensures { IsTrue result → mistakes.now.port_without_outputs ≡ true → is_wrr op.now ≡ true →
        ForAllIn (slice_index entry.now.sets 17) (λ n. has_output board.now n ≡ true) }
{
    !mistakes.port_without_outputs || !is_wrr(op) || has_outputs(board, entry.sets[17])
}

/// Returns true only if no machine that an entry covers makes a mistake that `mistakes` includes when it executes `op`.
fn makes_no_mistake(board: &Board, entry: &Entry, op: &Op, mistakes: &Mistakes) -> bool
    ensures { IsTrue result → MakesNoMistake board.now entry.now op.now mistakes.now }
{
    if !calls_allow(op, entry.calls) {
        return false;
    }
    if !avoids_absent_ram(board, entry, op, mistakes) {
        return false;
    }
    if !avoids_absent_rom(board, entry, op, mistakes) {
        return false;
    }
    if !avoids_missing_inputs(board, entry, op, mistakes) {
        return false;
    }
    avoids_missing_outputs(board, entry, op, mistakes)
}

/// Returns true only if no machine that an entry covers makes a mistake that `mistakes` includes.
fn excludes_mistakes(rig: &BenchRig, entry: &Entry, mistakes: &Mistakes) -> bool
    ensures { IsTrue result → Excludes rig.now.board rig.now.rom (Mistaken mistakes.now) entry.now }
{
    match mcs_board::instruction(&Cpu::new(), rig, entry.at) {
        None => false,
        Some(op) => makes_no_mistake(rig.board(), entry, &op, mistakes),
    }
}

/// Returns true only if no machine that an entry covers meets a condition. If the condition is a comparison, returns
/// false without evaluating the comparison.
fn excludes(rig: &BenchRig, entry: &Entry, condition: &Condition) -> bool
    ensures { IsTrue result → Excludes rig.now.board rig.now.rom condition.now entry.now }
{
    match condition {
        Condition::Compare(_) => false,
        Condition::Mistaken(mistakes) => excludes_mistakes(rig, entry, mistakes),
    }
}

/// Returns true only if no machine that an entry covers meets all of these conditions.
fn excludes_conjunction(rig: &BenchRig, entry: &Entry, conditions: &[Condition]) -> bool
    ensures { IsTrue result → ExcludesConjunction rig.now.board rig.now.rom conditions.now entry.now }
{
    for i in 0..conditions.len() {
        if excludes(rig, entry, &conditions[i]) {
            return true;
        }
    }
    false
}

/// Returns true only if no machine that an entry covers meets all conditions of a list in `never_lists`.
pub(crate) fn avoids_all_lists(
    rig: &BenchRig,
    entry: &Entry,
    never_lists: &[Vec<Condition>],
) -> bool
    ensures { IsTrue result → HoldsInEntry rig.now.board rig.now.rom (meets_none (map (λ n. n.items) never_lists.now)) entry.now }
{
    for i in 0..never_lists.len() {
        if !excludes_conjunction(rig, entry, never_lists[i].as_slice()) {
            return false;
        }
    }
    true
}

/// Returns whether sets of values can decide a condition: true for common mistakes, false for comparisons.
fn is_decidable_by_sets(condition: &Condition) -> bool {
    match condition {
        Condition::Compare(_) => false,
        Condition::Mistaken(_) => true,
    }
}

/// Returns whether each list in `never_lists` has a condition that sets of values can decide. Otherwise no certificate
/// can prove the property.
pub(crate) fn are_decidable(never_lists: &[Vec<Condition>]) -> bool {
    for i in 0..never_lists.len() {
        if !never_lists[i]
            .iter()
            .any(|condition| is_decidable_by_sets(condition))
        {
            return false;
        }
    }
    true
}

//! Tests of marks: a program must reach an address only after certain keys were pressed or released.
use crate::boards::{all_inputs, machine_with_two_keys};
use crate::checks::{MEMORY, PAUSE};
use crate::times::begins_at;
use mcs_check::{Mark, Marks, Outcome, Property, add_mark_requirement, check_all};
use std::alloc::{AllocError, Global};
use std::process::Abort;

/// A limit on the number of states of a check. These programs have fewer states.
const MAX_STATES: usize = 10_000;

/// A program that drives row 0. In an endless loop, it reads the key of this row until the key is
/// up, and then until the key is down. After each press it reaches address 18. The instructions
/// from address 0: FIM P0 0, SRC P0, LDM 2, WRR, IAC, WRR, FIM P0 16, SRC P0. From address 10: RDR,
/// RAR, JCN C 10. From address 14: RDR, RAR, JCN NC 14. At address 18: JUN 10.
pub(crate) const LOCK: [u8; 20] = [
    32, 0, 33, 210, 226, 242, 226, 32, 16, 33, 234, 246, 18, 10, 234, 246, 26, 14, 64, 10,
];

/// The program `LOCK` with JUN 14 at its end. After the first press, the program does not wait for the key to be up
/// again.
const STUCK: [u8; 20] = [
    32, 0, 33, 210, 226, 242, 226, 32, 16, 33, 234, 246, 18, 10, 234, 246, 26, 14, 64, 14,
];

/// The program `LOCK`, changed to drive both rows. At address 5: JUN 20. From address 20: IAC, WRR,
/// LDM 2, WRR, IAC, WRR, JUN 7.
const BOTH_ROWS: [u8; 28] = [
    32, 0, 33, 210, 226, 64, 20, 32, 16, 33, 234, 246, 18, 10, 234, 246, 26, 14, 64, 10, 242, 226,
    210, 226, 242, 226, 64, 7,
];

/// The address that the programs reach after a press.
pub(crate) const OPEN_ADDRESS: u8 = 18;

/// Returns the mark that the key at this row of column 0 is down, or up if `is_down` is false.
fn mark(row: u8, is_down: bool) -> Mark {
    Mark {
        row,
        column: 0,
        is_down,
    }
}

/// Checks that a program reaches the address `OPEN_ADDRESS` only after these marks. Returns the outcome.
fn check_marks(
    alloc: Global,
    rt: &impl Abort,
    program: &[u8],
    marks: &[Mark],
) -> Result<Outcome, AllocError> {
    let machine = machine_with_two_keys(alloc, rt, program)?;
    let marks = Marks::of(marks.to_vec(alloc)?).expect(rt, "marks");
    let opens = begins_at(alloc, OPEN_ADDRESS)?;
    let mut never_lists = Vec::new(alloc);
    add_mark_requirement(alloc, &mut never_lists, &opens, &marks)?;
    let property = Property::of(never_lists, Vec::new(alloc), Vec::new(alloc), opens, marks);
    let limits = all_inputs(alloc, &machine)?;
    check_all(alloc, machine, property, limits, MAX_STATES, MEMORY, PAUSE)
}

/// Expects a proof that a program reaches the address `OPEN_ADDRESS` only after these marks.
fn expect_holds_with_marks(alloc: Global, rt: &impl Abort, program: &[u8], marks: &[Mark]) {
    let outcome = check_marks(alloc, rt, program, marks).expect(rt, "memory");
    assert!(rt; matches!(&outcome, Outcome::Holds(_)));
}

/// Expects that the check does not prove that a program reaches the address `OPEN_ADDRESS` only after these marks.
fn expect_fails_with_marks(alloc: Global, rt: &impl Abort, program: &[u8], marks: &[Mark]) {
    let outcome = check_marks(alloc, rt, program, marks).expect(rt, "memory");
    assert!(rt; matches!(&outcome, Outcome::MayFail(_)));
}

#[test]
fn a_lock_opens_only_after_a_press(rt: HostRuntime) {
    expect_holds_with_marks(rt.alloc(), &rt, &LOCK, &[mark(0, false), mark(0, true)]);
}

#[test]
fn the_lock_opens_before_a_release(rt: HostRuntime) {
    expect_fails_with_marks(rt.alloc(), &rt, &LOCK, &[mark(0, true), mark(0, false)]);
}

#[test]
fn the_lock_opens_without_the_other_key(rt: HostRuntime) {
    expect_fails_with_marks(rt.alloc(), &rt, &LOCK, &[mark(1, true)]);
}

#[test]
fn the_lock_opens_without_an_absent_key(rt: HostRuntime) {
    expect_fails_with_marks(rt.alloc(), &rt, &LOCK, &[mark(2, false)]);
}

#[test]
fn marks_are_counted_again_for_each_opening(rt: HostRuntime) {
    expect_holds_with_marks(rt.alloc(), &rt, &STUCK, &[mark(0, true)]);
    expect_fails_with_marks(rt.alloc(), &rt, &STUCK, &[mark(0, false), mark(0, true)]);
}

#[test]
fn a_line_at_1_may_come_from_another_key(rt: HostRuntime) {
    expect_holds_with_marks(rt.alloc(), &rt, &BOTH_ROWS, &[mark(0, false)]);
    expect_holds_with_marks(rt.alloc(), &rt, &BOTH_ROWS, &[mark(1, false)]);
    expect_fails_with_marks(rt.alloc(), &rt, &BOTH_ROWS, &[mark(0, true)]);
}

#[test]
fn without_marks_every_opening_is_allowed(rt: HostRuntime) {
    expect_holds_with_marks(rt.alloc(), &rt, &LOCK, &[]);
}

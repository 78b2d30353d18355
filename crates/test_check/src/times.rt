//! Tests of the time between two addresses, which a stopwatch measures.
use crate::boards::{all_inputs, machine};
use crate::checks::MEMORY;
use mcs_check::{
    Cell, CellList, Comparison, Condition, Conjunction, Outcome, Part, Property, StopwatchCycles,
    add_limit, check_all,
};
use std::alloc::{AllocError, Global};
use std::process::Abort;

/// A limit on the number of states of a check. These programs have fewer states.
const MAX_STATES: usize = 10_000;

/// The number of cycles after which a search step ends if the program reads no input. If the program is in a loop, the
/// next step ends after one pass, when the machine is back in the state in which that step began. In `NESTED`, the
/// stopwatch's most significant byte is not 0 at the end of the first step.
const PAUSE: u32 = 137_000;

/// The program FIM P0 0, ISZ R0 2, JUN 0. The FIM takes 2 cycles, the ISZ is executed 16 times and
/// takes 2 cycles each time, and the JUN takes 2 cycles.
const DELAY: [u8; 6] = [0x20, 0, 0x70, 2, 0x40, 0];

/// The number of cycles from address 0 back to address 0.
const DELAY_CYCLES: u32 = 36;

/// A program that loops 16 times: FIM P0 0, JCN TEST 6, NOP, NOP, ISZ R0 2, JUN 0. Each pass from
/// the JCN to the ISZ takes 4 or 6 cycles.
const BRANCHES: [u8; 10] = [0x20, 0, 0x11, 6, 0, 0, 0x70, 2, 0x40, 0];

/// The maximum number of cycles from address 0 back to address 0.
const BRANCHES_CYCLES: u32 = 100;

/// The number of states of `BRANCHES`. Pass n of the 16 passes reads TEST at n different stopwatch times, and the start
/// is one more state.
const BRANCHES_STATE_COUNT: usize = 137;

/// A program with four nested loops: FIM P0 0, FIM P1 8, the loops with ISZ R0 to R3, and JUN 0.
/// The outermost loop has 8 passes.
const NESTED: [u8; 14] = [
    0x20, 0, 0x22, 8, 0x70, 4, 0x71, 4, 0x72, 4, 0x73, 4, 0x40, 0,
];

/// The number of cycles from address 0 back to address 0: 2 + 2 for the FIMs, 2 for each of 8 + 128 + 2048 + 32768
/// passes, and 2 for the JUN.
const NESTED_CYCLES: u32 = 69_910;

/// Returns the condition that a counter equals `n`.
fn counter_is(index: u16, n: u8) -> Condition {
    Condition::Compare(Comparison {
        cell: Cell {
            list: CellList::Counters,
            index,
        },
        part: Part::Whole,
        low: n,
        high: n,
        inside: true,
    })
}

/// Returns lists of conditions that are met if an instruction begins at the address `low` of page
/// 0.
pub(crate) fn begins_at(alloc: Global, low: u8) -> Result<Vec<Conjunction>, AllocError> {
    let mut conditions = Vec::new(alloc);
    conditions.push(counter_is(3, 0))?;
    conditions.push(counter_is(4, 0))?;
    conditions.push(counter_is(5, low))?;
    let mut lists = Vec::new(alloc);
    lists.push(Conjunction::of(conditions))?;
    Ok(lists)
}

/// Checks that a program always reaches the address `to` within `limit` cycles of the address `from`. Returns the
/// outcome.
fn check_time(
    alloc: Global,
    rt: &impl Abort,
    program: &[u8],
    from: u8,
    to: u8,
    limit: u32,
) -> Outcome {
    let begins = begins_at(alloc, from).expect(rt, "memory");
    let ends = begins_at(alloc, to).expect(rt, "memory");
    let machine = machine(alloc, rt, program).expect(rt, "memory");
    let limit = StopwatchCycles::of(limit).expect(rt, "a limit");
    let mut never_lists = Vec::new(alloc);
    add_limit(alloc, &mut never_lists, limit).expect(rt, "memory");
    let property = Property::with_stopwatch(alloc, never_lists, begins, ends);
    let limits = all_inputs(alloc, &machine).expect(rt, "memory");
    check_all(alloc, machine, property, limits, MAX_STATES, MEMORY, PAUSE).expect(rt, "memory")
}

/// Expects that `cycles` is the maximum number of cycles that a program takes from the address `from` to `to`.
fn expect_longest(alloc: Global, rt: &impl Abort, program: &[u8], from: u8, to: u8, cycles: u32) {
    let outcome = check_time(alloc, rt, program, from, to, cycles);
    assert!(rt; matches!(&outcome, Outcome::Holds(_)), "{cycles}");
    let outcome = check_time(alloc, rt, program, from, to, cycles.saturating_sub(1));
    assert!(rt;
        matches!(&outcome, Outcome::MayFail(_)),
        "less than {cycles}"
    );
}

#[test]
fn a_loop_takes_a_fixed_time(rt: HostRuntime) {
    expect_longest(rt.alloc(), &rt, &DELAY, 0, 0, DELAY_CYCLES);
    expect_longest(rt.alloc(), &rt, &DELAY, 0, 4, DELAY_CYCLES - 2);
    expect_longest(rt.alloc(), &rt, &DELAY, 4, 0, 2);
}

#[test]
fn inputs_determine_the_time(rt: HostRuntime) {
    expect_longest(rt.alloc(), &rt, &BRANCHES, 0, 0, BRANCHES_CYCLES);
}

#[test]
fn states_differ_only_in_time(rt: HostRuntime) {
    match check_time(rt.alloc(), &rt, &BRANCHES, 0, 0, BRANCHES_CYCLES) {
        Outcome::Holds(states) => assert_eq!(&rt; states, BRANCHES_STATE_COUNT),
        _ => panic!(&rt; "another outcome"),
    }
}

#[test]
fn a_long_time_has_three_bytes(rt: HostRuntime) {
    expect_longest(rt.alloc(), &rt, &NESTED, 0, 0, NESTED_CYCLES);
}

#[test]
fn a_stopwatch_that_never_begins_shows_0(rt: HostRuntime) {
    let outcome = check_time(rt.alloc(), &rt, &DELAY, 6, 0, 0);
    assert!(&rt; matches!(&outcome, Outcome::Holds(_)));
}

#[test]
fn a_stopwatch_that_begins_exceeds_0(rt: HostRuntime) {
    let outcome = check_time(rt.alloc(), &rt, &DELAY, 0, 0, 0);
    assert!(&rt; matches!(&outcome, Outcome::MayFail(_)));
}

#[test]
fn a_stopwatch_that_never_ends_exceeds_its_limit(rt: HostRuntime) {
    let outcome = check_time(rt.alloc(), &rt, &DELAY, 0, 6, 40_000);
    assert!(&rt; matches!(&outcome, Outcome::MayFail(_)));
}

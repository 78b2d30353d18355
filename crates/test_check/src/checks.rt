//! Tests of complete checks and their outcomes.
use crate::boards::{FACES, all_inputs, die};
use mcs_check::{
    Cell, CellList, Comparison, Condition, Conjunction, Outcome, Part, Property, check_all,
};
use std::alloc::{AllocError, Global};
use std::process::Abort;

/// The number of states of the die: one at the start, and two for each of the six patterns in
/// `FACES`. The first state of a pattern follows the display of the pattern. The second follows a
/// read that shows the key as up. An independent model of the chips gives the same number.
pub(crate) const STATE_COUNT: usize = 13;

/// The number of cycles after which a search step ends if the program reads no input. The die's program reads its key
/// more often.
pub(crate) const PAUSE: u32 = 1_000;

/// A limit on memory, in bytes, that is higher than any of these searches needs.
pub(crate) const MEMORY: usize = 1_000_000_000;

/// The lamps: the port latch of the RAM chip.
const LAMPS: Cell = Cell {
    list: CellList::RamPorts,
    index: 0,
};

/// Returns the condition that the lamps show the pattern `n`, or the condition that they show
/// another pattern if `inside` is false.
fn lamps_show(n: u8, inside: bool) -> Condition {
    Condition::Compare(Comparison {
        cell: LAMPS,
        part: Part::Whole,
        low: n,
        high: n,
        inside,
    })
}

/// Returns the property that the lamps are always dark or show a pattern in `FACES`.
pub(crate) fn lamps_show_only_faces(alloc: Global) -> Result<Property, AllocError> {
    let mut conditions = Vec::new(alloc);
    conditions.push(lamps_show(0, false))?;
    for face in FACES {
        conditions.push(lamps_show(face, false))?;
    }
    let mut never_lists = Vec::new(alloc);
    never_lists.push(Conjunction::of(conditions))?;
    Ok(Property::without_stopwatch(alloc, never_lists))
}

/// Returns the property that the lamps never show the pattern `n`.
fn lamps_never_show(alloc: Global, n: u8) -> Result<Property, AllocError> {
    let mut conditions = Vec::new(alloc);
    conditions.push(lamps_show(n, true))?;
    let mut never_lists = Vec::new(alloc);
    never_lists.push(Conjunction::of(conditions))?;
    Ok(Property::without_stopwatch(alloc, never_lists))
}

/// Checks a property of the die, with a limit of `STATE_COUNT` states.
pub(crate) fn check_die(
    alloc: Global,
    rt: &impl Abort,
    property: Property,
) -> Result<Outcome, AllocError> {
    let die = die(alloc, rt)?;
    let limits = all_inputs(alloc, &die)?;
    check_all(alloc, die, property, limits, STATE_COUNT, MEMORY, PAUSE)
}

/// Checks that the lamps never show the pattern `n`. Returns true if the outcome is `MayFail`, and false if the check
/// proves the property.
fn may_show(alloc: Global, rt: &impl Abort, n: u8) -> bool {
    let property = lamps_never_show(alloc, n).expect(rt, "memory");
    match check_die(alloc, rt, property).expect(rt, "memory") {
        Outcome::MayFail(_) => true,
        outcome => {
            expect_holds(rt, outcome);
            false
        }
    }
}

/// Expects the outcome `Holds` with `STATE_COUNT` states.
pub(crate) fn expect_holds(rt: &impl Abort, outcome: Outcome) {
    match outcome {
        Outcome::Holds(n) => assert_eq!(rt; n, STATE_COUNT),
        _ => panic!(rt; "another outcome"),
    }
}

#[test]
fn only_faces_are_shown(rt: HostRuntime) {
    let property = lamps_show_only_faces(rt.alloc()).expect(&rt, "memory");
    let outcome = check_die(rt.alloc(), &rt, property).expect(&rt, "memory");
    expect_holds(&rt, outcome);
    for n in 0..16 {
        // the lamps are dark at the start
        let is_face = n == 0 || FACES.contains(&n);
        assert!(&rt; may_show(rt.alloc(), &rt, n) == is_face, "lamps {n}");
    }
}

#[test]
fn a_limit_on_states_stops_the_check(rt: HostRuntime) {
    for max_states in [0, 1, STATE_COUNT - 1] {
        let die = die(rt.alloc(), &rt).expect(&rt, "memory");
        let property = lamps_show_only_faces(rt.alloc()).expect(&rt, "memory");
        let limits = all_inputs(rt.alloc(), &die).expect(&rt, "memory");
        let outcome = check_all(
            rt.alloc(),
            die,
            property,
            limits,
            max_states,
            MEMORY,
            PAUSE,
        ).expect(&rt, "memory");
        assert!(&rt; matches!(outcome, Outcome::TooMany), "{max_states}");
    }
}

#[test]
fn a_limit_on_memory_stops_the_check(rt: HostRuntime) {
    for memory in [0, 1, 1_000] {
        let die = die(rt.alloc(), &rt).expect(&rt, "memory");
        let property = lamps_show_only_faces(rt.alloc()).expect(&rt, "memory");
        let limits = all_inputs(rt.alloc(), &die).expect(&rt, "memory");
        let outcome = check_all(
            rt.alloc(),
            die,
            property,
            limits,
            STATE_COUNT,
            memory,
            PAUSE,
        )
        .expect(&rt, "memory");
        assert!(&rt; matches!(outcome, Outcome::NoMemory(_)), "{memory}");
    }
}

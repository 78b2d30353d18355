//! Tests of searches that run to their end, and of their verdicts.
use crate::wheels::{Wheels, search_wheels};
use mcs_search::Verdict;
use std::alloc::Global;
use std::process::Abort;

/// Checks that the property holds, and that the search found the given number of states.
fn expect_holds(rt: &impl Abort, verdict: &Verdict, state_count: usize) {
    match verdict {
        Verdict::Holds(n) => assert_eq!(rt; *n, state_count),
        _ => panic!(rt; "the property does not hold"),
    }
}

fn expect_too_many(rt: &impl Abort, verdict: &Verdict) {
    assert!(rt; matches!(verdict, Verdict::TooMany));
}

/// Checks that a search finds all states of `count` wheels with `position_count` positions each.
fn expect_all(
    alloc: Global,
    rt: &impl Abort,
    count: usize,
    position_count: u8,
    state_count: usize,
) {
    let mut wheels = Wheels::new(count, position_count);
    expect_holds(
        rt,
        &search_wheels(alloc, rt, &mut wheels, 1_000_000),
        state_count,
    );
}

#[test]
fn all_states_are_found(rt: HostRuntime) {
    expect_all(rt.alloc(), &rt, 0, 5, 1);
    expect_all(rt.alloc(), &rt, 1, 1, 1);
    expect_all(rt.alloc(), &rt, 1, 200, 200);
    expect_all(rt.alloc(), &rt, 3, 5, 125);
    expect_all(rt.alloc(), &rt, 2, 251, 63_001);
}

#[test]
fn states_exceed_one_block(rt: HostRuntime) {
    expect_all(rt.alloc(), &rt, 3, 51, 132_651);
}

/// Checks that the counterexample turns each wheel to its bad position and no further.
fn expect_shortest(alloc: Global, rt: &impl Abort, position_count: u8, bad_state: [u8; 3]) {
    let mut wheels = Wheels::new(3, position_count);
    wheels.bad_state = bad_state;
    let verdict = search_wheels(alloc, rt, &mut wheels, 1_000_000);
    let Verdict::Broken(choices) = &verdict else {
        panic!(rt; "no counterexample")
    };
    let mut turns = [0u8; 3];
    for choice in choices.as_slice() {
        let at = usize::from(*choice);
        assert!(rt; at < 3);
        turns[at] = turns[at].wrapping_add(1);
    }
    assert!(rt; turns == bad_state);
}

#[test]
fn counterexamples_are_shortest(rt: HostRuntime) {
    expect_shortest(rt.alloc(), &rt, 5, [0, 1, 0]);
    expect_shortest(rt.alloc(), &rt, 5, [2, 1, 3]);
    expect_shortest(rt.alloc(), &rt, 5, [4, 4, 4]);
    expect_shortest(rt.alloc(), &rt, 45, [44, 44, 44]);
}

#[test]
fn search_keeps_to_its_limit(rt: HostRuntime) {
    let mut single_wheel = Wheels::new(1, 1);
    expect_too_many(&rt, &search_wheels(rt.alloc(), &rt, &mut single_wheel, 0));
    expect_holds(
        &rt,
        &search_wheels(rt.alloc(), &rt, &mut single_wheel, 1),
        1,
    );
    let mut wheels = Wheels::new(3, 5);
    expect_too_many(&rt, &search_wheels(rt.alloc(), &rt, &mut wheels, 1));
    expect_too_many(&rt, &search_wheels(rt.alloc(), &rt, &mut wheels, 124));
    expect_holds(&rt, &search_wheels(rt.alloc(), &rt, &mut wheels, 125), 125);
}

#[test]
fn a_system_may_give_up(rt: HostRuntime) {
    let mut wheels = Wheels::new(3, 5);
    wheels.stuck_state = [1, 2, 0];
    assert!(&rt;
        matches!(
            search_wheels(rt.alloc(), &rt, &mut wheels, 1_000),
            Verdict::GaveUp
        )
    );
    // `bad_state` takes fewer choices than `stuck_state`, so the search reaches `bad_state` first.
    wheels.bad_state = [0, 2, 0];
    assert!(&rt;
        matches!(
            search_wheels(rt.alloc(), &rt, &mut wheels, 1_000),
            Verdict::Broken(_)
        )
    );
}

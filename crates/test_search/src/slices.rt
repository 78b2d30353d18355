//! Tests of a search that runs in several calls, each for a limited number of steps.
use crate::wheels::{Wheels, resume};
use mcs_search::{Search, Verdict};
use std::process::Abort;

/// The start state: three wheels at position 0.
const START: [u8; 3] = [0; 3];

/// Expands the next state, which must be the state at `index`, and checks that the search does not end.
fn expect_next_state(rt: &impl Abort, search: &mut Search, wheels: &mut Wheels, index: usize) {
    assert_eq!(rt; search.expanded(), index);
    assert!(rt; index < search.state_count());
    assert!(rt; resume(search, wheels, 1).expect(rt, "memory").is_none());
}

/// Checks that the next step ends the search, that the property holds, and that the search found `state_count` states.
fn expect_end(rt: &impl Abort, search: &mut Search, wheels: &mut Wheels, state_count: usize) {
    match resume(search, wheels, 1).expect(rt, "memory") {
        Some(Verdict::Holds(n)) => assert_eq!(rt; n, state_count),
        _ => panic!(rt; "another verdict"),
    }
}

#[test]
fn each_call_resumes_the_search(rt: HostRuntime) {
    let mut wheels = Wheels::new(3, 5);
    let mut search = Search::begin(rt.alloc(), &START, 1_000).expect(&rt, "memory");
    for index in 0..125 {
        expect_next_state(&rt, &mut search, &mut wheels, index);
    }
    assert_eq!(&rt; search.state_count(), 125);
    // A search that has ended returns the same verdict again.
    expect_end(&rt, &mut search, &mut wheels, 125);
    expect_end(&rt, &mut search, &mut wheels, 125);
}

#[test]
fn zero_steps_do_not_end_a_search(rt: HostRuntime) {
    let mut wheels = Wheels::new(3, 1);
    let mut search = Search::begin(rt.alloc(), &START, 1).expect(&rt, "memory");
    assert!(&rt;
        resume(&mut search, &mut wheels, 0)
            .expect(&rt, "memory")
            .is_none()
    );
    expect_next_state(&rt, &mut search, &mut wheels, 0);
    expect_end(&rt, &mut search, &mut wheels, 1);
}

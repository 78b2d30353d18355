//! A test of a search in which one allocation fails. `checks/allocations` runs the test repeatedly and makes a
//! different allocation fail each time. When `./test gate` runs the test, no allocation fails.
use crate::wheels::{Wheels, resume};
use mcs_search::{Search, Verdict};
use std::alloc::Global;
use std::process::Abort;

/// The start state: three wheels at position 0.
const START: [u8; 3] = [0; 3];

/// The number of positions of a wheel. It is large enough that the states do not fit in one block.
const POSITION_COUNT: u8 = 41;

/// The number of states: 41 * 41 * 41, one for each combination of positions.
const STATE_COUNT: usize = 68_921;

/// A number of steps that is sufficient to expand all states.
const STEP_COUNT: usize = 100_000;

/// Checks that the property holds, and that the search found all states.
fn expect_all(rt: &impl Abort, verdict: Option<Verdict>) {
    match verdict {
        Some(Verdict::Holds(n)) => assert_eq!(rt; n, STATE_COUNT),
        _ => panic!(rt; "another verdict"),
    }
}

/// Runs a search to its end, and resumes it if an allocation fails. Returns the part whose allocation failed, or
/// `nothing` if no allocation failed.
fn run_to_end(rt: &impl Abort, search: &mut Search) -> &'static str {
    let mut wheels = Wheels::new(3, POSITION_COUNT);
    match resume(search, &mut wheels, STEP_COUNT) {
        Ok(verdict) => {
            expect_all(rt, verdict);
            "nothing"
        }
        Err(_) => {
            assert!(rt; search.expanded() < STATE_COUNT);
            expect_all(
                rt,
                resume(search, &mut wheels, STEP_COUNT).expect(rt, "memory"),
            );
            "a step"
        }
    }
}

/// Begins a search, and tries again if an allocation fails. Then runs the search to its end. Returns the part whose
/// allocation failed, or `nothing` if no allocation failed.
fn run(alloc: Global, rt: &impl Abort) -> &'static str {
    match Search::begin(alloc, &START, STATE_COUNT) {
        Ok(mut search) => run_to_end(rt, &mut search),
        Err(_) => {
            let mut search = Search::begin(alloc, &START, STATE_COUNT).expect(rt, "memory");
            let _ = run_to_end(rt, &mut search);
            "the search"
        }
    }
}

#[test]
fn one_allocation(rt: HostRuntime) {
    let failed_part = run(rt.alloc(), &rt);
    let _ = println!(rt; "refused: {failed_part}");
}

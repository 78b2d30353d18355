//! A test in which one allocation can fail. `checks/allocations` runs the test once for each allocation, and makes
//! this allocation fail. When `./test gate` runs the test, no allocation fails.
use crate::checks::{STATE_COUNT, check_die, expect_holds, lamps_show_only_faces};
use mcs_check::{Outcome, Property};
use std::alloc::Global;
use std::process::Abort;

/// Checks the die once. Returns the part whose allocation failed, or `nothing`.
fn check_once(alloc: Global, rt: &impl Abort, property: Property) -> &'static str {
    match check_die(alloc, rt, property) {
        Ok(Outcome::NoMemory(states)) => {
            assert!(rt; states <= STATE_COUNT);
            "a state"
        }
        Ok(outcome) => {
            expect_holds(rt, outcome);
            "nothing"
        }
        Err(_) => "a check",
    }
}

/// Checks the die, and repeats the check if an allocation failed in it. Returns the part whose
/// allocation failed, or `nothing`.
fn run(alloc: Global, rt: &impl Abort) -> &'static str {
    let Ok(property) = lamps_show_only_faces(alloc) else {
        return "the conditions";
    };
    let failed_part = check_once(alloc, rt, property);
    if failed_part != "nothing" {
        let property = lamps_show_only_faces(alloc).expect(rt, "memory");
        assert!(rt; check_once(alloc, rt, property) == "nothing");
    }
    failed_part
}

#[test]
fn one_allocation(rt: HostRuntime) {
    let failed_part = run(rt.alloc(), &rt);
    let _ = println!(rt; "refused: {failed_part}");
}

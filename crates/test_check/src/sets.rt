//! Tests of checks by sets of values.
use crate::boards::{DIE_PROGRAM, rig};
use crate::checks::MEMORY;
use crate::mistakes::{ALL_MISTAKES, MISTAKEN_PROGRAMS, mistake_of};
use mcs_check::{Condition, Mistakes, Outcome};
use mcs_cpu4004::Cpu;
use mcs_sets::check_by_sets;
use std::alloc::{AllocError, Global};
use std::process::Abort;

/// A limit on the number of entries of a check. These programs need fewer entries.
const MAX_ENTRIES: usize = 10_000;

/// Returns the lists of conditions that a program without these mistakes never meets: one list with one condition.
fn never_lists_of_mistakes(
    alloc: Global,
    mistakes: Mistakes,
) -> Result<Vec<Vec<Condition>>, AllocError> {
    let mut conditions = Vec::new(alloc);
    conditions.push(Condition::Mistaken(mistakes))?;
    let mut never_lists = Vec::new(alloc);
    never_lists.push(conditions)?;
    Ok(never_lists)
}

/// Checks by sets of values that a program on the die's board makes none of these mistakes. Returns the outcome.
fn check_program(
    alloc: Global,
    rt: &impl Abort,
    program: &[u8],
    mistakes: Mistakes,
    entries: usize,
    memory: usize,
) -> Outcome {
    let mut machine = rig(alloc, rt, program).expect(rt, "memory");
    let mut search_rig = rig(alloc, rt, program).expect(rt, "memory");
    let never_lists = never_lists_of_mistakes(alloc, mistakes).expect(rt, "memory");
    check_by_sets(
        alloc,
        &Cpu::new(),
        &mut machine,
        &mut search_rig,
        never_lists.as_slice(),
        entries,
        memory,
    )
}

#[test]
fn the_die_makes_no_mistake(rt: HostRuntime) {
    let outcome = check_program(
        rt.alloc(),
        &rt,
        &DIE_PROGRAM,
        ALL_MISTAKES,
        MAX_ENTRIES,
        MEMORY,
    );
    assert!(rt; matches!(&outcome, Outcome::Holds(_)));
}

#[test]
fn no_mistake_is_missed(rt: HostRuntime) {
    for k in 0..MISTAKEN_PROGRAMS.len() {
        let outcome = check_program(
            rt.alloc(),
            &rt,
            &MISTAKEN_PROGRAMS[k],
            mistake_of(k),
            MAX_ENTRIES,
            MEMORY,
        );
        assert!(rt; matches!(&outcome, Outcome::GaveUp));
    }
}

#[test]
fn limits_stop_the_search(rt: HostRuntime) {
    let with_few_entries = check_program(rt.alloc(), &rt, &DIE_PROGRAM, ALL_MISTAKES, 1, MEMORY);
    assert!(rt; matches!(&with_few_entries, Outcome::TooMany));
    let with_little_memory = check_program(
        rt.alloc(),
        &rt,
        &DIE_PROGRAM,
        ALL_MISTAKES,
        MAX_ENTRIES,
        300,
    );
    assert!(rt; matches!(&with_little_memory, Outcome::NoMemory(1)));
}

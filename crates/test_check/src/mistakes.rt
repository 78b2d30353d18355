//! Tests that check programs for common mistakes.
use crate::boards::{all_inputs, die, machine};
use crate::checks::{MEMORY, PAUSE, STATE_COUNT, expect_holds};
use mcs_check::{Condition, Conjunction, Mistakes, Outcome, Property, check_all};
use std::alloc::{AllocError, Global};

/// All common mistakes.
pub(crate) const ALL_MISTAKES: Mistakes = Mistakes {
    invalid_opcode: true,
    fourth_call: true,
    unmatched_return: true,
    absent_ram: true,
    absent_rom: true,
    port_without_inputs: true,
    port_without_outputs: true,
};

/// Returns the property that a program never makes any of these mistakes.
fn never_mistaken(alloc: Global, mistakes: Mistakes) -> Result<Property, AllocError> {
    let mut conditions = Vec::new(alloc);
    conditions.push(Condition::Mistaken(mistakes))?;
    let mut never_lists = Vec::new(alloc);
    never_lists.push(Conjunction::of(conditions))?;
    Ok(Property::without_stopwatch(alloc, never_lists))
}

#[test]
fn the_die_makes_no_mistake(rt: HostRuntime) {
    let die = die(rt.alloc(), &rt).expect(&rt, "memory");
    let property = never_mistaken(rt.alloc(), ALL_MISTAKES).expect(&rt, "memory");
    let limits = all_inputs(rt.alloc(), &die).expect(&rt, "memory");
    expect_holds(
        &rt,
        check_all(
            rt.alloc(),
            die,
            property,
            limits,
            STATE_COUNT,
            MEMORY,
            PAUSE,
        )
        .expect(&rt, "memory"),
    );
}

/// Programs that make one mistake each. The first four are an invalid opcode, four nested calls,
/// BBL without a call, and WRM after DCL selects bank 1. The others are a jump to 0x200, RDR of the
/// port of ROM 0, and WRR to the port of ROM 1. No program reaches the addresses of `FACES`.
pub(crate) const MISTAKEN_PROGRAMS: [[u8; 10]; 7] = [
    [0xFE, 0, 0, 0, 0, 0, 0, 0, 0, 0],
    [0x50, 2, 0x50, 4, 0x50, 6, 0x50, 8, 0x40, 8],
    [0x40, 2, 0xC0, 0x40, 0, 0, 0, 0, 0, 0],
    [0xD1, 0xFD, 0xE0, 0x40, 3, 0, 0, 0, 0, 0],
    [0x42, 0, 0, 0, 0, 0, 0, 0, 0, 0],
    [0xEA, 0x40, 0, 0, 0, 0, 0, 0, 0, 0],
    [0x20, 0x10, 0x21, 0xE2, 0x40, 3, 0, 0, 0, 0],
];

/// Returns the only mistake that program `k` makes: the result has one true field.
pub(crate) fn mistake_of(k: usize) -> Mistakes {
    let mut mistakes = Mistakes::NONE;
    match k {
        0 => mistakes.invalid_opcode = true,
        1 => mistakes.fourth_call = true,
        2 => mistakes.unmatched_return = true,
        3 => mistakes.absent_ram = true,
        4 => mistakes.absent_rom = true,
        5 => mistakes.port_without_inputs = true,
        _ => mistakes.port_without_outputs = true,
    }
    mistakes
}

#[test]
fn each_program_makes_its_mistake(rt: HostRuntime) {
    for k in 0..7 {
        for kind in 0..7 {
            let machine = machine(rt.alloc(), &rt, &MISTAKEN_PROGRAMS[k]).expect(&rt, "memory");
            let property = never_mistaken(rt.alloc(), mistake_of(kind)).expect(&rt, "memory");
            let limits = all_inputs(rt.alloc(), &machine).expect(&rt, "memory");
            let outcome = check_all(
                rt.alloc(),
                machine,
                property,
                limits,
                STATE_COUNT,
                MEMORY,
                5_000,
            )
            .expect(&rt, "memory");
            let is_made = matches!(outcome, Outcome::MayFail(_));
            assert!(&rt; is_made == (kind == k), "program {k}, mistake {kind}");
        }
    }
}

//! Tests of checks with limits of the inputs. A program never reaches an address that only excluded
//! inputs can reach.
use crate::boards::{machine, machine_with_two_columns, machine_with_two_keys};
use crate::checks::{MEMORY, PAUSE};
use crate::openings::{LOCK, OPEN_ADDRESS};
use crate::times::begins_at;
use mcs_check::{InputLimits, Outcome, Property, SearchMachine, check_all};
use mcs_nibble::Bit;
use std::alloc::Global;
use std::process::Abort;

/// A limit on the number of states of a check. These programs have fewer states.
const MAX_STATES: usize = 1_000;

/// A program that drives row 0 and reads its two keys in an endless loop. It reaches address 18 if
/// a read shows both keys down. The instructions from address 0: FIM P0 0, SRC P0, LDM 2, WRR, IAC,
/// WRR, FIM P0 16, SRC P0. From address 10: RDR, RAR, JCN NC 10, RAR, JCN NC 10, NOP. At address
/// 18: JUN 10.
const BOTH_KEYS: [u8; 20] = [
    32, 0, 33, 210, 226, 242, 226, 32, 16, 33, 234, 246, 26, 10, 246, 26, 10, 0, 64, 10,
];

/// A program that reaches address 18 if TEST is at 1: (0) JCN 9 18, JUN 0, .., (18) JUN 18.
const TEST_AT_1: [u8; 20] = [
    0x19, 18, 0x40, 0, 0, 0, 0, 0, 0, 0, 0, 0, 0, 0, 0, 0, 0, 0, 0x40, 18,
];

/// A program that reaches address 18 if TEST is at 1, then at 0, then at 1, at three reads that are
/// 2 cycles apart. From address 0: JCN 9 4, JUN 0, JCN 1 8, JUN 0. From address 8: JCN 9 18,
/// JUN 0. At address 18: JUN 18.
const TEST_CHANGES_TWICE: [u8; 20] = [
    0x19, 4, 0x40, 0, 0x11, 8, 0x40, 0, 0x19, 18, 0x40, 0, 0, 0, 0, 0, 0, 0, 0x40, 18,
];

/// A program that drives row 0 and reads its key in an endless loop. It reaches address 18 if three reads show the key
/// down. The reads are 6 and 4 cycles apart. The instructions from address 0: FIM P0 0, SRC P0, LDM 2, WRR, IAC, WRR,
/// FIM P0 16, SRC P0. From address 10: RDR, RAR, JCN NC 10, JUN 20. At address 18: JUN 10. From address 20: RDR, RAR,
/// JCN NC 10, RDR, RAR, JCN NC 10, JUN 18.
const THREE_READS_DOWN: [u8; 30] = [
    32, 0, 33, 210, 226, 242, 226, 32, 16, 33, 234, 246, 26, 10, 64, 20, 0, 0, 64, 10, 234, 246,
    26, 10, 234, 246, 26, 10, 64, 18,
];

/// Checks that a machine never reaches the address `OPEN_ADDRESS`, and returns the outcome. The
/// limits of the inputs are `keys` (1 for each key that can be down), the highest level `test` of
/// TEST, and at most `together` keys down at once. Two changes are at least `wait` cycles apart, and
/// a key stays down for at most `held` cycles, unless `held` is 0.
fn check_with_limits(
    alloc: Global,
    rt: &impl Abort,
    machine: SearchMachine,
    keys: &[Bit],
    test: Bit,
    together: u32,
    wait: u32,
    held: u32,
) -> Outcome {
    let never_lists = begins_at(alloc, OPEN_ADDRESS).expect(rt, "memory");
    let property = Property::without_stopwatch(alloc, never_lists);
    let keys = keys.to_vec(alloc).expect(rt, "memory");
    let limits = InputLimits::of(keys, test, together, wait, held);
    check_all(alloc, machine, property, limits, MAX_STATES, MEMORY, PAUSE).expect(rt, "memory")
}

/// Returns true if the outcome of the check is `MayFail`: the machine may reach the address
/// `OPEN_ADDRESS`. Returns false if the check proves that it does not. Aborts at any other outcome.
/// TEST stays at 0.
fn may_open(
    alloc: Global,
    rt: &impl Abort,
    machine: SearchMachine,
    keys: [Bit; 2],
    together: u32,
) -> bool {
    match check_with_limits(alloc, rt, machine, &keys, Bit::ZERO, together, 0, 0) {
        Outcome::MayFail(_) => true,
        Outcome::Holds(_) => false,
        _ => panic!(rt; "another outcome"),
    }
}

#[test]
fn only_keys_within_the_limits_open_the_lock(rt: HostRuntime) {
    for (first, second, together, opens) in [
        (Bit::ONE, Bit::ONE, 2, true),
        (Bit::ONE, Bit::ZERO, 1, true),
        (Bit::ZERO, Bit::ONE, 1, false),
        (Bit::ONE, Bit::ONE, 0, false),
    ] {
        let lock = machine_with_two_keys(rt.alloc(), &rt, &LOCK).expect(&rt, "memory");
        assert!(&rt; may_open(rt.alloc(), &rt, lock, [first, second], together) == opens);
    }
}

#[test]
fn two_keys_are_down_together_only_within_the_limit(rt: HostRuntime) {
    for together in 0..4 {
        let machine = machine_with_two_columns(rt.alloc(), &rt, &BOTH_KEYS).expect(&rt, "memory");
        let is_reached = may_open(rt.alloc(), &rt, machine, [Bit::ONE, Bit::ONE], together);
        assert!(&rt; is_reached == (together >= 2), "{together}");
    }
}

#[test]
fn test_stays_at_0_within_its_limit(rt: HostRuntime) {
    for test in [Bit::ZERO, Bit::ONE] {
        let machine = machine(rt.alloc(), &rt, &TEST_AT_1).expect(&rt, "memory");
        let outcome = check_with_limits(rt.alloc(), &rt, machine, &[Bit::ZERO], test, 0, 0, 0);
        let is_reached = matches!(outcome, Outcome::MayFail(_));
        assert!(&rt; is_reached == (test == Bit::ONE));
    }
}

#[test]
fn levels_change_only_at_moments_within_the_limit(rt: HostRuntime) {
    for wait in 0..6 {
        let machine = machine(rt.alloc(), &rt, &TEST_CHANGES_TWICE).expect(&rt, "memory");
        let outcome = check_with_limits(
            rt.alloc(),
            &rt,
            machine,
            &[Bit::ZERO],
            Bit::ONE,
            0,
            wait,
            0,
        );
        let is_reached = match outcome {
            Outcome::MayFail(_) | Outcome::MayFailWith(_) => true,
            Outcome::Holds(_) => false,
            _ => panic!(&rt; "another outcome"),
        };
        assert!(&rt; is_reached == (wait <= 3), "{wait}");
    }
}

#[test]
fn a_key_stays_down_only_within_the_limit(rt: HostRuntime) {
    // If changes are 5 cycles apart, the key can be up between the first two reads. It is down at the last two reads,
    // and so for 5 cycles. If changes are farther apart, it is down for 11 cycles.
    for (wait, shortest) in [(5, 5), (6, 11), (8, 11)] {
        for held in 0..14 {
            let machine = machine(rt.alloc(), &rt, &THREE_READS_DOWN).expect(&rt, "memory");
            let outcome = check_with_limits(
                rt.alloc(),
                &rt,
                machine,
                &[Bit::ONE],
                Bit::ZERO,
                1,
                wait,
                held,
            );
            let is_reached = match outcome {
                Outcome::MayFailWith(_) => true,
                Outcome::Holds(_) => false,
                _ => panic!(&rt; "another outcome"),
            };
            assert!(&rt;
                is_reached == (held == 0 || shortest <= held),
                "{wait} {held}"
            );
        }
    }
}

#[test]
fn limits_of_another_board_give_no_result(rt: HostRuntime) {
    for keys in [
        &[][..],
        &[Bit::ONE][..],
        &[Bit::ONE, Bit::ONE, Bit::ONE][..],
    ] {
        let lock = machine_with_two_keys(rt.alloc(), &rt, &LOCK).expect(&rt, "memory");
        let outcome = check_with_limits(rt.alloc(), &rt, lock, keys, Bit::ONE, 2, 0, 0);
        assert!(&rt; matches!(outcome, Outcome::GaveUp));
    }
}

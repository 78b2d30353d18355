//! Tests of states whose lists do not have the lengths that the board requires. No file encodes a
//! state of this kind.
use mcs_bench::Flat;
use mcs_fixtures::boards::example_board;
use std::alloc::Global;
use std::process::Abort;

fn new_state(alloc: Global, rt: &impl Abort) -> Flat {
    Flat::new(alloc).expect(rt, "memory")
}

fn is_valid(flat: &Flat) -> bool {
    flat.check()
}

/// Checks that two states are invalid: one with a key on a board without keys, and one with empty
/// lists for a board with chains and keys.
#[test]
fn rejects_lists_of_wrong_length(rt: HostRuntime) {
    let mut flat = new_state(rt.alloc(), &rt);
    assert!(rt; is_valid(&flat));
    assert!(rt; flat.keys.try_push(0).is_ok());
    assert!(rt; !is_valid(&flat));
    let mut flat = new_state(rt.alloc(), &rt);
    flat.board = example_board().expect(&rt, "a board");
    assert!(rt; !is_valid(&flat));
}

//! Tests of benches that are restored from numbers or from bytes.
use crate::checks::expect_equal;
use mcs_bench::{Bench, Flat};
use mcs_codec::{STATE_BYTES, bench_of, state_bytes};
use mcs_fixtures::boards::example_board;
use mcs_model::command::Command;
use mcs_model::image::Image;
use mcs_model::refusals::BenchFault;
use mcs_nibble::Addr;
use std::alloc::Global;
use std::process::Abort;

/// Returns a bench in the given state, which must be valid.
fn restored_bench(alloc: Global, rt: &impl Abort, flat: &Flat) -> Bench {
    assert!(rt; flat.check());
    Bench::restore(alloc, flat).expect(rt, "memory")
}

/// Checks that a bench that has accepted the maximum number of commands rejects a further command.
#[test]
fn rejects_commands_after_the_maximum(rt: HostRuntime) {
    let alloc = rt.alloc();
    let mut flat = Flat::new(alloc).expect(&rt, "memory");
    flat.seq = u32::MAX;
    let bench = restored_bench(alloc, &rt, &flat);
    expect_equal(&rt, bench.seq(), u32::MAX);
    expect_equal(
        &rt,
        bench.check(&Command::Reset),
        Err(BenchFault::CommandsExhausted),
    );
    flat.seq = u32::MAX - 1;
    let bench = restored_bench(alloc, &rt, &flat);
    expect_equal(&rt, bench.check(&Command::Reset), Ok(()));
}

/// Applies a command that the bench must accept.
fn apply_accepted(rt: &impl Abort, bench: &mut Bench, command: &Command) {
    match bench.check(command) {
        Ok(()) => {
            let _reply = bench.apply(command);
        }
        Err(_) => panic!(rt; "a command was refused"),
    }
}

/// Returns an image with `JUN 0x123` at address 0.
fn jump_image(alloc: Global, rt: &impl Abort) -> Image {
    let mut image = Image::new(alloc).expect(rt, "memory");
    assert!(rt; image.push(Addr::ZERO, 0x41).is_ok());
    assert!(rt; image.push(Addr::ZERO.plus(1), 0x23).is_ok());
    image
}

/// Returns a bench that has executed only the first cycle of a jump, so that the second cycle is
/// pending.
fn bench_with_pending_cycle(alloc: Global, rt: &impl Abort) -> Bench {
    let mut bench = Bench::new(alloc).expect(rt, "memory");
    let board = example_board().expect(rt, "a board");
    apply_accepted(rt, &mut bench, &Command::Wire(board));
    apply_accepted(rt, &mut bench, &Command::Load(jump_image(alloc, rt)));
    apply_accepted(rt, &mut bench, &Command::Run(1));
    bench
}

/// Returns a buffer with the encoded state of a bench, and the length of the encoding in bytes.
fn encoded_state(bench: &Bench) -> ([u8; STATE_BYTES], usize) {
    let mut bytes = [0; STATE_BYTES];
    let count = state_bytes(bench, &mut bytes);
    (bytes, count)
}

/// Checks that encoding and decoding a state keeps a pending second cycle and all other values.
#[test]
fn keeps_a_pending_cycle(rt: HostRuntime) {
    let alloc = rt.alloc();
    let bench = bench_with_pending_cycle(alloc, &rt);
    expect_equal(&rt, bench.regs().owed, 1);
    expect_equal(&rt, bench.regs().pc.get(), 0x123);
    let (bytes, count) = encoded_state(&bench);
    assert!(rt; count <= STATE_BYTES);
    let found = bench_of(alloc, &bytes[..count]).expect(&rt, "memory");
    let decoded = found.expect(&rt, "a state");
    expect_equal(&rt, decoded.seq(), 3);
    expect_equal(&rt, decoded.regs(), bench.regs());
    let (reencoded, length) = encoded_state(&decoded);
    assert!(rt; length == count && reencoded[..count] == bytes[..count]);
}

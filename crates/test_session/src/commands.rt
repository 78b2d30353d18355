//! Tests of command bytes that occur in no session: a command for a key that no board has, and an
//! empty byte string.
use mcs_codec::{COMMAND_BYTES, command_bytes, command_of};
use mcs_model::command::Command;
use std::alloc::Global;
use std::process::Abort;

/// Checks that a command is encoded as the given bytes.
fn expect_bytes(rt: &impl Abort, command: &Command, want: &[u8]) {
    let mut bytes = [0; COMMAND_BYTES];
    let count = command_bytes(command, &mut bytes);
    assert_eq!(rt; &bytes[..count], want);
}

/// Returns the command that the bytes encode, or `None` if they encode no command. Memory must not
/// run out.
fn decode(rt: &impl Abort, alloc: Global, bytes: &[u8]) -> Option<Command> {
    command_of(alloc, bytes).expect(rt, "memory")
}

fn is_decoded(rt: &impl Abort, alloc: Global, bytes: &[u8]) -> bool {
    decode(rt, alloc, bytes).is_some()
}

/// Checks that the bytes decode to a command that is encoded as the same bytes.
fn expect_round_trip(rt: &impl Abort, alloc: Global, want: &[u8]) {
    match decode(rt, alloc, want) {
        Some(command) => expect_bytes(rt, &command, want),
        None => panic!(rt; "a command was not decoded"),
    }
}

/// Checks that a command is encoded as the given bytes. Also checks that decoding these bytes and
/// encoding the result gives the same bytes.
fn expect_bytes_and_round_trip(rt: &impl Abort, alloc: Global, command: &Command, want: &[u8]) {
    expect_bytes(rt, command, want);
    expect_round_trip(rt, alloc, want);
}

#[test]
fn encodes_commands_that_no_session_has(rt: HostRuntime) {
    let alloc = rt.alloc();
    expect_bytes_and_round_trip(&rt, alloc, &Command::Release(0, 255), &[4, 0, 255]);
    assert!(rt; !is_decoded(&rt, alloc, &[]));
}

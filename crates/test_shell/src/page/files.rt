//! Session files as the page stores them, and the page's calls on these files.
use crate::checks::expect_equal;
use crate::sessions::overwrite;
use mcs_fixtures::files::{NEW_BENCH, POKE_RECORD};
use mcs_journal::{FILE_SIZE, StoreFault};
use mcs_shell::ends::ShellEnd;
use mcs_wasm::fault::ServeFault;
use mcs_wasm::page::{ServedInput, ask, begin, serve, serve_and_settle, settle};
use std::alloc::Global;
use std::process::Abort;

/// Returns a session file with a new bench.
pub(crate) fn new_file(alloc: Global, rt: &impl Abort) -> Vec<u8> {
    let mut file = vec![in alloc; 0u8; FILE_SIZE].expect(rt, "memory");
    begin(alloc, file.as_mut_slice()).expect(rt, "memory");
    file
}

/// Returns a copy of the given bytes.
pub(crate) fn copy(alloc: Global, rt: &impl Abort, bytes: &[u8]) -> Vec<u8> {
    bytes.to_vec(alloc).expect(rt, "memory")
}

/// Overwrites a file with a session of version 1: a new bench and the record of `poke r5 9`.
pub(crate) fn overwrite_with_version_1(rt: &impl Abort, file: &mut [u8]) {
    file.fill(0);
    for (at, bytes) in NEW_BENCH {
        overwrite(rt, file, at, bytes);
    }
    overwrite(rt, file, POKE_RECORD.0, POKE_RECORD.1);
}

/// Returns a session file of version 1 with a new bench and the record of `poke r5 9`.
pub(crate) fn file_of_version_1(alloc: Global, rt: &impl Abort) -> Vec<u8> {
    let mut file = vec![in alloc; 0u8; FILE_SIZE].expect(rt, "memory");
    overwrite_with_version_1(rt, file.as_mut_slice());
    file
}

/// The answers to `regs` on the file that `file_of_version_1` returns.
pub(crate) const CONVERTED_ANSWERS: &[u8] =
    b"session 1\nacc 0 cy 0 pc 000 owed 0 dcl 0 test 1 r 0000090000000000 ret 000 000 000\n";

/// The kinds of calls that answer an input.
#[derive(Clone, Copy)]
pub(crate) enum Call {
    Serve,
    ServeAndSettle,
    Ask,
}

/// All kinds of calls that answer an input.
pub(crate) const CALLS: [Call; 3] = [Call::Serve, Call::ServeAndSettle, Call::Ask];

/// Makes a call of the given kind that answers an input on a file, and writes the answers into a buffer.
pub(crate) fn make_call(
    alloc: Global,
    call: Call,
    file: &mut [u8],
    input: &[u8],
    buffer: &mut [u8],
) -> Result<ServedInput, ServeFault> {
    match call {
        Call::Serve => serve(alloc, file, input, buffer),
        Call::ServeAndSettle => serve_and_settle(alloc, file, input, buffer),
        Call::Ask => ask(alloc, file, input, buffer),
    }
}

/// Settles a file: replaces its records with a snapshot of the state.
pub(crate) fn settle_file(alloc: Global, file: &mut [u8]) -> Result<(), StoreFault> {
    settle(alloc, file)
}

/// Makes a call of the given kind that answers an input on a file. Returns the answers, or the error if the call
/// fails.
pub(crate) fn answers(
    alloc: Global,
    rt: &impl Abort,
    call: Call,
    file: &mut [u8],
    input: &[u8],
) -> Result<Vec<u8>, ServeFault> {
    let mut buffer = vec![in alloc; 0u8; 65_536].expect(rt, "memory");
    let served = make_call(alloc, call, file, input, buffer.as_mut_slice())?;
    expect_equal(rt, served.end, ShellEnd::End);
    buffer.truncate(served.count);
    Ok(buffer)
}

/// Serves an input on a file, and checks the answers. `row` has the input and the expected answers.
pub(crate) fn expect_answers(alloc: Global, rt: &impl Abort, file: &mut [u8], row: (&[u8], &[u8])) {
    expect_answers_by(alloc, rt, Call::Serve, file, row);
}

/// Makes a call of the given kind on a file, and checks the answers. `row` has the input and the expected answers.
pub(crate) fn expect_answers_by(
    alloc: Global,
    rt: &impl Abort,
    call: Call,
    file: &mut [u8],
    (input, wanted): (&[u8], &[u8]),
) {
    match answers(alloc, rt, call, file, input) {
        Ok(text) => expect_equal(rt, text.as_slice(), wanted),
        Err(_) => panic!(rt; "not served"),
    }
}

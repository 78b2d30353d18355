//! Tests of readers and writers that fail.
use crate::checks::expect_equal;
use crate::sessions::{
    disk_of_session, new_session_in_memory, open_or_panic, run_and_collect, seq_of, serve,
};
use mcs_fixtures::streams::{CutReader, CutWriter};
use mcs_shell::ends::{ShellEnd, status};
use std::alloc::Global;
use std::process::Abort;

pub(crate) const SCRIPT: &[u8] = b"poke r5 9\nseq\nregs\n";

pub(crate) const ANSWERS: &[u8] =
    b"session 0\nok 1\nseq 1\nacc 0 cy 0 pc 000 owed 0 dcl 0 test 1 r 0000090000000000 ret 000 000 000\n";

/// The numbers of times that a reader or a writer fails: once, so that a second attempt would succeed, or at
/// every attempt.
const FAILURES: [usize; 2] = [1, usize::MAX];

/// Checks that the shell ends if the reader fails after `left` bytes of the script. The reader fails `failures`
/// times. When the shell ends, it must have written exactly the first `size` bytes of the answers.
fn expect_cut_reading(rt: &impl Abort, alloc: Global, left: usize, failures: usize, size: usize) {
    let mut session = new_session_in_memory(alloc, rt);
    let mut reader = CutReader::new(SCRIPT, left, failures);
    let (end, written) = run_and_collect(alloc, &mut reader, &mut session);
    expect_equal(rt, end, ShellEnd::ReadFault);
    expect_equal(rt, status(end), 1);
    expect_equal(rt, Some(written.as_slice()), ANSWERS.get(..size));
}

#[test]
fn the_reader_fails_after_each_count_of_bytes(rt: HostRuntime) {
    for left in 0..SCRIPT.len() + 1 {
        // The three lines of the script end after 10, 14 and 19 bytes. Their answers end after 15 bytes, after 21
        // bytes and at the end of the output.
        let size = match left {
            0..10 => 10,
            10..14 => 15,
            14..19 => 21,
            _ => ANSWERS.len(),
        };
        for failures in FAILURES {
            expect_cut_reading(&rt, rt.alloc(), left, failures, size);
        }
    }
}

/// Checks that the shell ends if the writer fails after `left` bytes of the answers. The writer fails `failures`
/// times. The command must be recorded if and only if the line `session 0` was written completely.
fn expect_cut_writing(rt: &impl Abort, alloc: Global, left: usize, failures: usize) {
    let mut session = new_session_in_memory(alloc, rt);
    let mut writer = CutWriter::new(alloc, left, failures);
    let mut reader = SCRIPT;
    let end = serve(alloc, &mut reader, &mut writer, &mut session);
    expect_equal(rt, end, ShellEnd::WriteFault);
    expect_equal(rt, status(end), 1);
    expect_equal(rt, Some(writer.accepted_bytes()), ANSWERS.get(..left));
    let reopened = open_or_panic(alloc, rt, disk_of_session(session));
    expect_equal(rt, seq_of(&reopened) == 1, 10 <= left);
}

#[test]
fn the_writer_fails_after_each_count_of_bytes(rt: HostRuntime) {
    for failures in FAILURES {
        for left in 0..ANSWERS.len() {
            expect_cut_writing(&rt, rt.alloc(), left, failures);
        }
    }
}

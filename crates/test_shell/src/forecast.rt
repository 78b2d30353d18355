//! Tests of `count` and `trace` on a closed session, and with a writer that fails.
use crate::checks::expect_equal;
use crate::sessions::{
    blank_disk, new_session, new_session_in_memory, run_and_collect, seq_of, serve,
};
use mcs_disk::FuseDisk;
use mcs_fixtures::streams::CutWriter;
use mcs_shell::ends::ShellEnd;

/// Checks that a session still answers `count` and `trace` after an I/O error has closed it.
#[test]
fn a_closed_session_answers_count_and_trace(rt: HostRuntime) {
    let alloc = rt.alloc();
    let mut session = new_session(alloc, &rt, FuseDisk::after(blank_disk(alloc, &rt), 5));
    let mut reader = b"poke r5 9\n".as_slice();
    let (end, _) = run_and_collect(alloc, &mut reader, &mut session);
    expect_equal(&rt, end, ShellEnd::DeviceFault);
    let mut reader = b"count 2\ntrace 2 pc\nrun 2\n".as_slice();
    let (_, text) = run_and_collect(alloc, &mut reader, &mut session);
    expect_equal(
        &rt,
        text.as_slice(),
        b"session 0\ncount ran 2 end lines 2\n000 1\n001 1\ntrace ran 2 end lines 2 000\n0 000 001\n1 001 002\nno 54\n",
    );
}

/// Checks that the shell ends if the writer fails within an answer, and that the shell executes no command after that
/// answer.
#[test]
fn the_writer_fails_in_an_answer(rt: HostRuntime) {
    let answers =
        b"session 0\ncount ran 2 end lines 2\n000 1\n001 1\ntrace ran 2 end lines 2\n0 000\n1 001\n".as_slice();
    for left in 0..answers.len() {
        let mut session = new_session_in_memory(rt.alloc(), &rt);
        let mut writer = CutWriter::new(rt.alloc(), left, 1);
        let mut reader = b"count 2\ntrace 2\npoke r5 9\n".as_slice();
        let end = serve(rt.alloc(), &mut reader, &mut writer, &mut session);
        expect_equal(&rt, end, ShellEnd::WriteFault);
        expect_equal(&rt, Some(writer.accepted_bytes()), answers.get(..left));
        expect_equal(&rt, seq_of(&session), 0);
    }
}

//! Tests of `map` and `errors` on a closed session.
use crate::checks::expect_equal;
use crate::sessions::{blank_disk, new_session, run_and_collect};
use mcs_disk::FuseDisk;
use mcs_shell::ends::ShellEnd;

/// Checks that a session whose device failed still answers `map` and `errors`.
#[test]
fn a_closed_session_answers_map_and_errors(rt: HostRuntime) {
    let alloc = rt.alloc();
    let mut session = new_session(alloc, &rt, FuseDisk::after(blank_disk(alloc, &rt), 5));
    let mut reader = b"poke r5 9\n".as_slice();
    let (end, text) = run_and_collect(alloc, &mut reader, &mut session);
    expect_equal(&rt, end, ShellEnd::DeviceFault);
    expect_equal(&rt, text.as_slice(), b"session 0\nno 53\n".as_slice());
    let mut reader =
        b"map\na: JUN a\n.\nmap\nJUN b\n.\nerrors\na: JUN b\na: NOP\n.\nseq\n".as_slice();
    let (end, text) = run_and_collect(alloc, &mut reader, &mut session);
    expect_equal(&rt, end, ShellEnd::End);
    let wanted =
        b"session 0\nmap lines 1 names 1\nline 1 000 2\nname a 000\nno 32 line 1\nerrors 1\nerror 2 31\nseq 0\n";
    expect_equal(&rt, text.as_slice(), wanted.as_slice());
}

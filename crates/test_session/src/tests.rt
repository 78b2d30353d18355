//! Tests of sessions whose disk fails: the state that remains on the disk, and the results that the
//! session returns.
use crate::checks::expect_equal;
use crate::session_helpers::{
    bench_of, create_session, disk_of_session, expect_done, expect_fault, expect_run, expect_seq,
    failing_disk, overwrite, poke_command, repaired_disk,
};
use mcs_disk::{Disk, FuseDisk};
use mcs_session::fault::SessionFault;
use mcs_session::session::Session;
use std::alloc::Global;
use std::process::Abort;

/// Fills the log of a session with 9,361 frames of seven bytes and one frame of eight bytes. One byte of the log
/// remains: a commit byte of 0.
fn fill_log<D: Disk + Drop>(rt: &impl Abort, session: &mut Session<D>) {
    let command = poke_command(rt, 0, 1);
    for _ in 0..9_361 {
        expect_done(rt, session, &command);
    }
    expect_run(rt, session, 1);
}

/// Fills the log of a session, then applies `poke r0 2`, during which the disk fails. Returns the
/// repaired disk.
fn disk_after_failure_in_replace(alloc: Global, rt: &impl Abort) -> FuseDisk {
    // Creating the session takes five calls, and each of the 9,362 commands takes four. Two more
    // calls write and sync the snapshot.
    let mut session = create_session(alloc, rt, failing_disk(alloc, rt, 5 + 4 * 9_362 + 2));
    fill_log(rt, &mut session);
    expect_fault(
        rt,
        &mut session,
        &poke_command(rt, 0, 2),
        SessionFault::Device,
    );
    repaired_disk(disk_of_session(session))
}

#[test]
fn failure_in_replace_keeps_the_old_state(rt: HostRuntime) {
    let alloc = rt.alloc();
    for selector in [0x7F, 0x40] {
        let mut disk = disk_after_failure_in_replace(alloc, &rt);
        overwrite(&rt, &mut disk, 8, &[selector]);
        expect_seq(alloc, &rt, disk, 9_362);
    }
}

/// Checks that an I/O error during `poke r5 9` closes the session, and that the bench has accepted
/// no command.
fn expect_closing_fault(rt: &impl Abort, session: &mut Session<FuseDisk>) {
    let command = poke_command(rt, 5, 9);
    expect_fault(rt, session, &command, SessionFault::Device);
    assert!(rt; !session.is_open());
    expect_fault(rt, session, &command, SessionFault::Closed);
    expect_equal(rt, bench_of(session).seq(), 0);
}

#[test]
fn a_fault_closes_the_session(rt: HostRuntime) {
    let alloc = rt.alloc();
    // In the first row, the write of the commit byte fails. In the second row, the sync after this
    // write fails.
    for (calls, seq) in [(7, 0), (8, 1)] {
        let mut session = create_session(alloc, &rt, failing_disk(alloc, &rt, calls));
        expect_closing_fault(&rt, &mut session);
        expect_seq(alloc, &rt, repaired_disk(disk_of_session(session)), seq);
    }
}

//! Helper functions for tests on disks and sessions.
use crate::checks::expect_equal;
use mcs_bench::Bench;
use mcs_disk::{Disk, FuseDisk, MemDisk};
use mcs_journal::{FILE_SIZE, StoreFault};
use mcs_model::command::{Command, Place, Reply};
use mcs_model::stop::Stop;
use mcs_nibble::{Nibble, RegNo};
use mcs_session::fault::SessionFault;
use mcs_session::session::Session;
use std::alloc::Global;
use std::process::Abort;

/// Returns the command that sets a register, 0 to 15, to a value, 0 to 15.
pub(crate) fn poke_command(rt: &impl Abort, register: u8, value: u8) -> Command {
    match (RegNo::of(register), Nibble::of(value)) {
        (Some(register), Some(value)) => Command::Poke(Place::Register(register, value)),
        _ => panic!(rt; "no such register or value"),
    }
}

pub(crate) fn blank_disk(alloc: Global, rt: &impl Abort) -> MemDisk {
    MemDisk::new(alloc, FILE_SIZE).expect(rt, "memory")
}

/// Creates a session on a disk. Returns the session, or the error and the disk.
pub(crate) fn create<D: Disk + Drop>(
    alloc: Global,
    disk: D,
) -> Result<Session<D>, (StoreFault, D)> {
    Session::create(alloc, disk)
}

/// Creates a session on a disk and returns it. Creation must not fail.
pub(crate) fn create_session<D: Disk + Drop>(
    alloc: Global,
    rt: &impl Abort,
    disk: D,
) -> Session<D> {
    match create(alloc, disk) {
        Ok(session) => session,
        Err(_) => panic!(rt; "create was refused"),
    }
}

/// Opens the session on a disk. Returns the session, or the error and the disk.
pub(crate) fn open<D: Disk + Drop>(alloc: Global, disk: D) -> Result<Session<D>, (StoreFault, D)> {
    Session::open(alloc, disk)
}

/// Opens the session on a disk and returns it. Opening must not fail.
pub(crate) fn open_session<D: Disk + Drop>(alloc: Global, rt: &impl Abort, disk: D) -> Session<D> {
    match open(alloc, disk) {
        Ok(session) => session,
        Err(_) => panic!(rt; "open was refused"),
    }
}

/// Returns the bench of a session.
pub(crate) fn bench_of<D: Disk + Drop>(session: &Session<D>) -> &Bench {
    session.bench()
}

/// Ends a session and returns its disk.
pub(crate) fn disk_of_session<D: Disk + Drop>(session: Session<D>) -> D {
    session.into_disk()
}

/// Checks that a disk stores a session that has accepted `seq` commands.
pub(crate) fn expect_seq<D: Disk + Drop>(alloc: Global, rt: &impl Abort, disk: D, seq: u32) {
    expect_equal(rt, bench_of(&open_session(alloc, rt, disk)).seq(), seq);
}

/// Checks that a disk stores a session that has accepted `seq` commands and has the given value in
/// the given register.
pub(crate) fn expect_register<D: Disk + Drop>(
    alloc: Global,
    rt: &impl Abort,
    disk: D,
    seq: u32,
    (register, value): (usize, u8),
) {
    let session = open_session(alloc, rt, disk);
    let bench = bench_of(&session);
    expect_equal(rt, bench.seq(), seq);
    assert!(rt; register < 16);
    expect_equal(rt, bench.regs().r[register].get(), value);
}

/// Applies a command to a session. Returns the reply, or the error.
fn apply_command<D: Disk + Drop>(
    session: &mut Session<D>,
    command: &Command,
) -> Result<Reply, SessionFault> {
    session.apply(command)
}

/// Checks that applying a command to a session fails with the given error.
pub(crate) fn expect_fault<D: Disk + Drop>(
    rt: &impl Abort,
    session: &mut Session<D>,
    command: &Command,
    fault: SessionFault,
) {
    expect_equal(rt, apply_command(session, command), Err(fault));
}

/// Checks that a session acknowledges a command with the given reply.
pub(crate) fn expect_reply<D: Disk + Drop>(
    rt: &impl Abort,
    session: &mut Session<D>,
    command: &Command,
    reply: Reply,
) {
    expect_equal(rt, apply_command(session, command), Ok(reply));
}

/// Checks that a session acknowledges a command with the reply `Done`.
pub(crate) fn expect_done<D: Disk + Drop>(
    rt: &impl Abort,
    session: &mut Session<D>,
    command: &Command,
) {
    expect_reply(rt, session, command, Reply::Done);
}

/// Checks that a session acknowledges a run of `cycles` cycles, and that no stop ends the run
/// early.
pub(crate) fn expect_run<D: Disk + Drop>(rt: &impl Abort, session: &mut Session<D>, cycles: u32) {
    let reply = Reply::Ran {
        cycles,
        stop: Stop::Ended,
    };
    expect_reply(rt, session, &Command::Run(cycles), reply);
}

/// Reads bytes from a disk at an offset.
fn read<D: Disk>(rt: &impl Abort, disk: &mut D, at: usize, into: &mut [u8]) {
    assert!(rt; at <= disk.size() && into.len() <= disk.size() - at);
    assert!(rt; disk.read(at, into).is_ok());
}

/// Checks that a disk has the given bytes at an offset.
pub(crate) fn expect_bytes<D: Disk>(rt: &impl Abort, disk: &mut D, at: usize, want: &[u8]) {
    let mut buffer = [0u8; 16];
    assert!(rt; want.len() <= 16);
    let found = &mut buffer[..want.len()];
    read(rt, disk, at, found);
    assert_eq!(rt; &*found, want, "at {at}");
}

/// Overwrites bytes of a disk at an offset, as an interrupted write would.
pub(crate) fn overwrite<D: Disk>(rt: &impl Abort, disk: &mut D, at: usize, bytes: &[u8]) {
    assert!(rt; at <= disk.size() && bytes.len() <= disk.size() - at);
    assert!(rt; disk.write(at, bytes).is_ok());
}

/// Returns a blank disk on which every call after the first `calls` calls fails.
pub(crate) fn failing_disk(alloc: Global, rt: &impl Abort, calls: usize) -> FuseDisk {
    FuseDisk::after(blank_disk(alloc, rt), calls)
}

/// Repairs a disk so that its calls no longer fail, and returns the disk.
pub(crate) fn repaired_disk(mut disk: FuseDisk) -> FuseDisk {
    disk.mend();
    disk
}

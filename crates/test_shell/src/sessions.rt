//! Helper functions for sessions on in-memory files.
ghost use Rattle.std.specs.Prelude.{◌≡◌, ◌≤◌, ◌+◌, length};

use crate::scripts::QUERIES;
use mcs_disk::{Disk, FuseDisk, MemDisk};
use mcs_journal::{FILE_SIZE, StoreFault};
use mcs_model::command::{Command, Place};
use mcs_nibble::{Nibble, RegNo};
use mcs_session::fault::SessionFault;
use mcs_session::session::Session;
use mcs_shell::ends::ShellEnd;
use mcs_shell::shell::run_shell;
use std::alloc::Global;
use std::io::{Read, Write};
use std::process::Abort;

/// Checks that the condition `holds` is true. Otherwise the test fails and reports `at`, the number of a row or a
/// position.
pub(crate) fn expect(rt: &impl Abort, holds: bool, at: usize) {
    assert!(rt; holds, "at {at}");
}

/// Returns an in-memory disk with the size of a session file. All bytes are 0.
pub(crate) fn blank_disk(alloc: Global, rt: &impl Abort) -> MemDisk {
    MemDisk::new(alloc, FILE_SIZE).expect(rt, "memory")
}

/// Returns an in-memory disk with the given bytes.
pub(crate) fn disk_of(alloc: Global, rt: &impl Abort, bytes: &[u8]) -> MemDisk {
    let mut disk = MemDisk::new(alloc, bytes.len()).expect(rt, "memory");
    disk.write(0, bytes).expect(rt, "a write");
    disk
}

/// Returns all bytes of a disk.
pub(crate) fn bytes_of<D: Disk>(alloc: Global, rt: &impl Abort, disk: &mut D) -> Vec<u8> {
    let mut bytes = vec![in alloc; 0u8; disk.size()].expect(rt, "memory");
    disk.read(0, bytes.as_mut_slice()).expect(rt, "a read");
    bytes
}

/// Overwrites the bytes of a file, beginning at the offset `at`.
pub(crate) fn overwrite(rt: &impl Abort, file: &mut [u8], at: usize, bytes: &[u8]) {
    assert!(rt; at <= file.len() && bytes.len() <= file.len() - at);
    file[at..at + bytes.len()].copy_from_slice(bytes);
}

// The functions below wrap functions with long contracts, and have no contracts of their own. A test needs no
// contracts, because only its safety is proved. The proof of a call to a wrapper takes no time.

/// Creates a session with a new bench on a disk.
pub(crate) fn create<D: Disk + Drop>(
    alloc: Global,
    disk: D,
) -> Result<Session<D>, (StoreFault, D)> {
    Session::create(alloc, disk)
}

/// Opens the session that is stored on a disk.
pub(crate) fn open<D: Disk + Drop>(alloc: Global, disk: D) -> Result<Session<D>, (StoreFault, D)> {
    Session::open(alloc, disk)
}

/// Runs the shell on a session with the input of a reader. Returns the reason for the end of the shell.
pub(crate) fn serve<R: Read, W: Write, D: Disk + Drop>(
    alloc: Global,
    reader: &mut R,
    writer: &mut W,
    session: &mut Session<D>,
) -> ShellEnd {
    run_shell(alloc, reader, writer, session)
}

/// Executes the command that sets register R0 to 1.
pub(crate) fn poke<D: Disk + Drop>(session: &mut Session<D>) -> Result<(), SessionFault> {
    let command = Command::Poke(Place::Register(RegNo::ZERO, Nibble::ONE));
    match session.apply(&command) {
        Ok(_) => Ok(()),
        Err(fault) => Err(fault),
    }
}

/// Returns the number of commands that a session has accepted.
pub(crate) fn seq_of<D: Disk + Drop>(session: &Session<D>) -> u32 {
    session.bench().seq()
}

/// Ends a session, and returns its disk.
pub(crate) fn disk_of_session<D: Disk + Drop>(session: Session<D>) -> D {
    session.into_disk()
}

/// Returns a disk with the given bytes. Its first `calls` calls succeed, and all later calls fail.
pub(crate) fn failing_disk_of(
    alloc: Global,
    rt: &impl Abort,
    bytes: &[u8],
    calls: usize,
) -> FuseDisk {
    FuseDisk::after(disk_of(alloc, rt, bytes), calls)
}

/// Mends a failing disk so that its calls succeed again, and returns all its bytes.
pub(crate) fn bytes_after_mending(alloc: Global, rt: &impl Abort, mut disk: FuseDisk) -> Vec<u8> {
    disk.mend();
    bytes_of(alloc, rt, &mut disk)
}

/// Returns a session with a new bench on the given disk.
pub(crate) fn new_session<D: Disk + Drop>(alloc: Global, rt: &impl Abort, disk: D) -> Session<D> {
    match create(alloc, disk) {
        Ok(session) => session,
        Err(_) => panic!(rt; "the session was not made"),
    }
}

/// Returns a session with a new bench on an in-memory disk.
pub(crate) fn new_session_in_memory(alloc: Global, rt: &impl Abort) -> Session<MemDisk> {
    new_session(alloc, rt, blank_disk(alloc, rt))
}

/// Runs the shell on a session with the input of a reader. Returns the reason for the end of the shell, and the
/// answers.
pub(crate) fn run_and_collect<R: Read, D: Disk + Drop>(
    alloc: Global,
    reader: &mut R,
    session: &mut Session<D>,
) -> (ShellEnd, Vec<u8>) {
    let mut writer = Vec::new(alloc);
    let end = serve(alloc, reader, &mut writer, session);
    (end, writer)
}

/// Runs a script on a session and returns the answers. Checks that the shell reaches the end of the script.
pub(crate) fn answers_to<D: Disk + Drop>(
    alloc: Global,
    rt: &impl Abort,
    session: &mut Session<D>,
    mut script: &[u8],
) -> Vec<u8> {
    let (end, answers) = run_and_collect(alloc, &mut script, session);
    assert!(rt; end == ShellEnd::End);
    answers
}

/// Opens the session in a file and returns its state, in the form of its answers to `QUERIES`. Returns the error if
/// the session does not open.
pub(crate) fn state_in_file(
    alloc: Global,
    rt: &impl Abort,
    file: &[u8],
) -> Result<Vec<u8>, StoreFault> {
    match open(alloc, disk_of(alloc, rt, file)) {
        Ok(mut session) => Ok(answers_to(alloc, rt, &mut session, QUERIES)),
        Err((fault, _)) => Err(fault),
    }
}

/// Checks that the session in a file has the given state. Fails if `state` is `None`.
pub(crate) fn expect_state(
    alloc: Global,
    rt: &impl Abort,
    file: &[u8],
    state: Option<&Vec<u8>>,
    at: usize,
) {
    match (state_in_file(alloc, rt, file), state) {
        (Ok(answers), Some(state)) => {
            expect(rt, answers.as_slice() == state.as_slice(), at);
        }
        _ => panic!(rt; "no state, at {at}"),
    }
}

/// Executes commands on a session. Returns the state before the commands and the state after each command. A state
/// has the form of the session's answers to `QUERIES`.
pub(crate) fn states_after_commands<D: Disk + Drop>(
    alloc: Global,
    rt: &impl Abort,
    session: &mut Session<D>,
    commands: &[&[u8]],
) -> Vec<Vec<u8>> {
    let mut states = Vec::new(alloc);
    push_state(rt, &mut states, answers_to(alloc, rt, session, QUERIES));
    for command in commands {
        let _answers = answers_to(alloc, rt, session, command);
        push_state(rt, &mut states, answers_to(alloc, rt, session, QUERIES));
    }
    states
}

fn push_state(rt: &impl Abort, states: &mut Vec<Vec<u8>>, state: Vec<u8>) {
    states.push(state).expect(rt, "memory");
}

/// Executes `times` commands that each set register R0 to 1.
fn poke_often<D: Disk + Drop>(rt: &impl Abort, session: &mut Session<D>, times: usize) {
    for i in 0..times {
        expect(rt, poke(session).is_ok(), i);
    }
}

/// Returns the session file of a new bench after the given commands, then `pokes` pokes, then the command `last`.
pub(crate) fn file_of(
    alloc: Global,
    rt: &impl Abort,
    commands: &[&[u8]],
    pokes: usize,
    last: &[u8],
) -> Vec<u8> {
    let mut session = new_session_in_memory(alloc, rt);
    for command in commands {
        let _answers = answers_to(alloc, rt, &mut session, command);
    }
    poke_often(rt, &mut session, pokes);
    let _answers = answers_to(alloc, rt, &mut session, last);
    bytes_of_session(alloc, rt, session)
}

/// Ends a session, and returns all bytes of its disk.
pub(crate) fn bytes_of_session<D: Disk + Drop>(
    alloc: Global,
    rt: &impl Abort,
    session: Session<D>,
) -> Vec<u8> {
    bytes_of(alloc, rt, &mut disk_of_session(session))
}

/// Returns the session that is stored on a disk.
pub(crate) fn open_or_panic<D: Disk + Drop>(alloc: Global, rt: &impl Abort, disk: D) -> Session<D> {
    match open(alloc, disk) {
        Ok(session) => session,
        Err(_) => panic!(rt; "the session was not opened"),
    }
}

/// Returns the session that is stored in a file, on an in-memory disk.
pub(crate) fn open_in_memory(alloc: Global, rt: &impl Abort, file: &[u8]) -> Session<MemDisk> {
    open_or_panic(alloc, rt, disk_of(alloc, rt, file))
}

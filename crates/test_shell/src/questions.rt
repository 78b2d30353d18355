//! Tests of the requests whose answers need memory (maps, counts and traces) with one failing allocation.
//! `checks/allocations` runs each test once per allocation, and makes that allocation fail. In an ordinary run, no
//! allocation fails.
use crate::sessions::{create, seq_of, serve};
use mcs_disk::MemDisk;
use mcs_journal::{FILE_SIZE, StoreFault};
use mcs_session::session::Session;
use mcs_shell::ends::ShellEnd;
use std::alloc::{AllocError, Global};
use std::process::Abort;

const SCRIPT: &[u8] =
    b"map\na: JUN a\nb = 0x2F\n.\nmap\nJUN c\n.\ncount 2\ntrace 2 pc lamps\nseq\n";

/// The answers to the script, each with the part of the script that failed. In the first row, no allocation fails. In
/// the other rows, an allocation fails for the first program, the second program, the count or the trace, in that
/// order.
const ANSWERS: [(&[u8], &str); 5] = [
    (
        b"session 0\nmap lines 2 names 2\nline 1 000 2\nline 2 002 0\nname a 000\nname b 02F\nno 32 line 1\ncount ran 2 end lines 2\n000 1\n001 1\ntrace ran 2 end lines 2 000 -\n0 000 001 -\n1 001 002 -\nseq 0\n",
        "nothing",
    ),
    (
        b"session 0\nno 90\nno 32 line 1\ncount ran 2 end lines 2\n000 1\n001 1\ntrace ran 2 end lines 2 000 -\n0 000 001 -\n1 001 002 -\nseq 0\n",
        "the map",
    ),
    (
        b"session 0\nmap lines 2 names 2\nline 1 000 2\nline 2 002 0\nname a 000\nname b 02F\nno 90\ncount ran 2 end lines 2\n000 1\n001 1\ntrace ran 2 end lines 2 000 -\n0 000 001 -\n1 001 002 -\nseq 0\n",
        "the map that is refused",
    ),
    (
        b"session 0\nmap lines 2 names 2\nline 1 000 2\nline 2 002 0\nname a 000\nname b 02F\nno 32 line 1\nno 90\ntrace ran 2 end lines 2 000 -\n0 000 001 -\n1 001 002 -\nseq 0\n",
        "the count",
    ),
    (
        b"session 0\nmap lines 2 names 2\nline 1 000 2\nline 2 002 0\nname a 000\nname b 02F\nno 32 line 1\ncount ran 2 end lines 2\n000 1\n001 1\nno 90\nseq 0\n",
        "the trace",
    ),
];

/// Returns the part of the script that failed for lack of memory, given the output.
fn failed_part(rt: &impl Abort, output: &[u8]) -> &'static str {
    for (answers, part) in ANSWERS {
        if output == answers {
            return part;
        }
    }
    panic!(rt; "other answers")
}

/// Returns a writer whose memory is allocated before the first write.
fn ready_writer(alloc: Global) -> Result<Vec<u8>, AllocError> {
    Vec::with_capacity(alloc, 1_024)
}

/// Runs the script on a session, and checks that the session is unchanged. Returns the part that ran out of memory,
/// or `nothing`.
fn run(alloc: Global, rt: &impl Abort, mut session: Session<MemDisk>) -> &'static str {
    let Ok(mut writer) = ready_writer(alloc) else {
        return "the writer";
    };
    let mut reader = SCRIPT;
    let part = match serve(alloc, &mut reader, &mut writer, &mut session) {
        ShellEnd::NoMemory => {
            assert!(rt; writer.is_empty());
            "the shell"
        }
        ShellEnd::End => failed_part(rt, writer.as_slice()),
        _ => panic!(rt; "another end"),
    };
    assert!(rt; seq_of(&session) == 0 && session.is_open());
    part
}

/// Creates a session, and runs the script on the session. Returns the part that ran out of memory, or `nothing`.
fn create_and_run(alloc: Global, rt: &impl Abort) -> &'static str {
    let Ok(disk) = MemDisk::new(alloc, FILE_SIZE) else {
        return "the disk";
    };
    match create(alloc, disk) {
        Ok(session) => run(alloc, rt, session),
        Err((StoreFault::NoMemory, _)) => "the session made",
        Err((fault, _)) => {
            assert!(rt; fault == StoreFault::Device);
            "a record at making"
        }
    }
}

#[test]
fn one_allocation(rt: HostRuntime) {
    let part = create_and_run(rt.alloc(), &rt);
    let _ = println!(rt; "refused: {part}");
}

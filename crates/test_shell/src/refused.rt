//! Tests of the shell with one failing allocation. `checks/allocations` runs each test once per allocation, and makes
//! that allocation fail. In an ordinary run, no allocation fails.
use crate::first_version::new_file;
use crate::sessions::{
    bytes_of, create, disk_of_session, open, open_or_panic, overwrite, seq_of, serve,
};
use arrayvec::ArrayVec;
use mcs_disk::{Disk, DiskFault, MemDisk};
use mcs_fixtures::files::{NEW_BENCH, POKE_RECORD};
use mcs_fixtures::texts::{WIRE_EXAMPLE, board_text_in};
use mcs_journal::{FILE_SIZE, StoreFault};
use mcs_session::session::Session;
use mcs_shell::ends::ShellEnd;
use std::alloc::Global;
use std::io::{self, Write};
use std::process::Abort;

/// A writer that stores its output in a fixed buffer and allocates nothing.
#[derive(Drop)]
struct FixedWriter {
    bytes: ArrayVec<u8, 1_024>,
}

impl Write for FixedWriter {
    fn write(&mut self, buf: &[u8]) -> io::Result<usize> {
        for byte in buf {
            let _ = self.bytes.try_push(*byte);
        }
        Ok(buf.len())
    }

    fn flush(&mut self) -> io::Result<()> {
        Ok(())
    }
}

const INPUTS_AFTER_WIRING: &[u8] = b"asm\nLDM 1\n.\nlist 0 1\nboard\nseq\n";

/// The first line of the answer to `board`. The text of the board follows.
const BOARD: &[u8] = b"board\n";

/// The answers to the script, one row for each part that can fail. In the first row, every allocation succeeds. In
/// the other rows, an allocation fails for the board, the program, the listing or the query `board`, in that order.
/// The text of the board follows the line `BOARD` in the output.
const ANSWERS: [[&[u8]; 6]; 5] = [
    [
        b"session 0\n",
        b"ok 1\n",
        b"ok 2 bytes 1\n",
        b"000 D1    LDM 1\n",
        BOARD,
        b"seq 2\n",
    ],
    [
        b"session 0\n",
        b"no 90\n",
        b"no 42\n",
        b"000 00    NOP\n",
        b"board\nseq 0\n",
        b"",
    ],
    [
        b"session 0\n",
        b"ok 1\n",
        b"no 90\n",
        b"000 00    NOP\n",
        BOARD,
        b"seq 1\n",
    ],
    [
        b"session 0\n",
        b"ok 1\n",
        b"ok 2 bytes 1\n",
        b"no 90\n",
        BOARD,
        b"seq 2\n",
    ],
    [
        b"session 0\n",
        b"ok 1\n",
        b"ok 2 bytes 1\n",
        b"000 D1    LDM 1\n",
        b"no 90\n",
        b"seq 2\n",
    ],
];

/// Returns true if the output consists of the given answers. If `has_device_fault` is true, the output
/// must instead consist of the first few answers, followed by `no 53` (device failed).
fn is_answered(output: &[u8], answers: &[&[u8]], has_device_fault: bool) -> bool {
    let mut rest = output;
    for answer in answers {
        if has_device_fault && rest == b"no 53\n".as_slice() {
            return true;
        }
        let Some(remaining) = rest.strip_prefix(*answer) else {
            return false;
        };
        rest = remaining;
        if *answer == BOARD {
            let Some(remaining) = rest.strip_prefix(board_text_in(WIRE_EXAMPLE)) else {
                return false;
            };
            rest = remaining;
        }
    }
    rest.is_empty() && !has_device_fault
}

/// The part of the script that fails for lack of memory, for each row of `ANSWERS`.
const FAILED_PARTS: [&str; 5] = [
    "nothing",
    "the board",
    "the program",
    "the listing",
    "the question for the board",
];

/// Returns the part of the script that failed, given the output. Returns `None` if one failed allocation cannot cause
/// this output.
fn failed_part(output: &[u8], has_device_fault: bool) -> Option<&'static str> {
    for (answers, part) in ANSWERS.iter().zip(FAILED_PARTS.iter()) {
        if is_answered(output, answers, has_device_fault) {
            return Some(*part);
        }
    }
    None
}

/// Returns the script: the command that wires the board, then `INPUTS_AFTER_WIRING`.
fn script() -> ArrayVec<u8, 1_024> {
    let mut script = ArrayVec::new();
    for part in [WIRE_EXAMPLE, INPUTS_AFTER_WIRING] {
        for byte in part {
            let _ = script.try_push(*byte);
        }
    }
    script
}

/// Runs the script on a session. Returns the part that ran out of memory, or `nothing`.
fn run_script(alloc: Global, rt: &impl Abort, session: &mut Session<MemDisk>) -> &'static str {
    let script = script();
    let mut reader = script.as_slice();
    let mut writer = FixedWriter {
        bytes: ArrayVec::new(),
    };
    let end = serve(alloc, &mut reader, &mut writer, session);
    let output = writer.bytes.as_slice();
    match end {
        ShellEnd::NoMemory => {
            assert!(rt; output.is_empty() && seq_of(session) == 0);
            "the shell"
        }
        ShellEnd::End => failed_part(output, false).expect(rt, "other answers"),
        ShellEnd::DeviceFault => {
            assert!(rt; failed_part(output, true).is_some());
            "a record of a command"
        }
        _ => panic!(rt; "another end"),
    }
}

/// Runs the script on a session, then opens the session again. Returns the part that ran out of memory, or `nothing`.
fn run(alloc: Global, rt: &impl Abort, mut session: Session<MemDisk>) -> &'static str {
    let script_part = run_script(alloc, rt, &mut session);
    let seq = seq_of(&session);
    let is_closed = !session.is_open();
    let (reopened, opening_part) = open_again(alloc, rt, disk_of_session(session));
    let reopened_seq = seq_of(&reopened);
    assert!(rt; reopened_seq == seq || (is_closed && reopened_seq == seq.saturating_add(1)));
    opening_part.unwrap_or(script_part)
}

/// Opens the session on a disk, and tries a second time if that fails. Returns the session, and the part that ran out
/// of memory, if any.
fn open_again(
    alloc: Global,
    rt: &impl Abort,
    disk: MemDisk,
) -> (Session<MemDisk>, Option<&'static str>) {
    let (part, disk) = match open(alloc, disk) {
        Ok(session) => return (session, None),
        Err((StoreFault::NoMemory, disk)) => ("the session opened", disk),
        Err((StoreFault::Device, disk)) => ("a record at opening", disk),
        Err(_) => panic!(rt; "the session was not opened"),
    };
    (open_or_panic(alloc, rt, disk), Some(part))
}

/// Creates a session, and tries a second time if memory runs out. Then runs the script on the session. Returns the
/// part that ran out of memory, or `nothing`.
fn create_and_run(alloc: Global, rt: &impl Abort) -> &'static str {
    let Ok(disk) = MemDisk::new(alloc, FILE_SIZE) else {
        return "the disk";
    };
    match create(alloc, disk) {
        Ok(session) => run(alloc, rt, session),
        Err((StoreFault::NoMemory, disk)) => match create(alloc, disk) {
            Ok(session) => {
                let _ = run(alloc, rt, session);
                "the session made"
            }
            Err(_) => panic!(rt; "the disk was not handed back as it was"),
        },
        Err((fault, disk)) => {
            assert!(rt; fault == StoreFault::Device && disk.size() == FILE_SIZE);
            "a record at making"
        }
    }
}

#[test]
fn one_allocation(rt: HostRuntime) {
    let part = create_and_run(rt.alloc(), &rt);
    let _ = println!(rt; "refused: {part}");
}

/// Writes a session of version 1 to a disk: a new bench and the record of `poke r5 9`.
fn write_version_1(disk: &mut MemDisk) -> Result<(), DiskFault> {
    for (at, bytes) in [
        NEW_BENCH[0],
        NEW_BENCH[1],
        NEW_BENCH[2],
        NEW_BENCH[3],
        POKE_RECORD,
    ] {
        if at <= disk.size() && bytes.len() <= disk.size() - at {
            disk.write(at, bytes)?;
        }
    }
    Ok(())
}

/// Checks that a session has accepted one command and that register R5 is 9.
fn expect_register(rt: &impl Abort, session: &Session<MemDisk>) {
    let bench = session.bench();
    assert!(rt; bench.seq() == 1 && bench.regs().r[5].get() == 9);
}

/// Opens a session of version 1, and tries a second time if that fails. Returns the part that ran out of memory, or
/// `nothing`.
fn convert_version_1(alloc: Global, rt: &impl Abort) -> &'static str {
    let Ok(mut disk) = MemDisk::new(alloc, FILE_SIZE) else {
        return "the disk";
    };
    if write_version_1(&mut disk).is_err() {
        return "a record of the file";
    }
    match open(alloc, disk) {
        Ok(session) => {
            expect_register(rt, &session);
            "nothing"
        }
        Err((StoreFault::NoMemory, mut disk)) => {
            let mut file = new_file(alloc, rt);
            overwrite(rt, file.as_mut_slice(), POKE_RECORD.0, POKE_RECORD.1);
            let bytes = bytes_of(alloc, rt, &mut disk);
            assert!(rt; bytes.as_slice() == file.as_slice());
            expect_register(rt, &open_or_panic(alloc, rt, disk));
            "the session carried over"
        }
        Err((fault, disk)) => {
            assert_eq!(rt; fault, StoreFault::Device);
            expect_register(rt, &open_or_panic(alloc, rt, disk));
            "a record at carrying over"
        }
    }
}

#[test]
fn a_session_of_version_1(rt: HostRuntime) {
    let part = convert_version_1(rt.alloc(), &rt);
    let _ = println!(rt; "refused: {part}");
}

//! Tests of the calls that the page makes: one session over several calls, rejected files, and buffers that are too
//! short for the answers.
use crate::checks::expect_equal;
use crate::page::files::{
    CALLS, CONVERTED_ANSWERS, Call, answers, copy, expect_answers, expect_answers_by,
    file_of_version_1, make_call, new_file, settle_file,
};
use crate::sessions::overwrite;
use mcs_disk::{Disk, MemDisk};
use mcs_journal::{FILE_SIZE, StoreFault};
use mcs_session::session::Session;
use mcs_shell::shell::run_shell;
use mcs_wasm::fault::ServeFault;
use std::alloc::Global;
use std::process::Abort;

const FIRST_INPUT: &[u8] = b"wire
[[rom]]
chip = 0
port = \"0000\"
.
poke r5 9
asm
LDM 3
XCH R4
JUN 2
.
run 1000
";

const SECOND_INPUT: &[u8] = b"seq\nregs\n";

const FIRST_ANSWERS: &[u8] = b"session 0\nok 1\nok 2\nok 3 bytes 4\nok 4 ran 1000 end\n";

const SECOND_ANSWERS: &[u8] =
    b"session 4\nseq 4\nacc 0 cy 0 pc 002 owed 0 dcl 0 test 1 r 0000390000000000 ret 000 000 000\n";

/// Runs the shell on a session with an input. The session stays open for further inputs.
fn serve_input(alloc: Global, session: &mut Session<MemDisk>, input: &[u8]) {
    let mut reader = input;
    let mut writer = Vec::new(alloc);
    let _ = run_shell(alloc, &mut reader, &mut writer, session);
}

/// Returns the bytes of a disk.
fn bytes_of(alloc: Global, rt: &impl Abort, mut disk: MemDisk) -> Vec<u8> {
    let mut bytes = vec![in alloc; 0u8; disk.size()].expect(rt, "memory");
    disk.read(0, bytes.as_mut_slice()).expect(rt, "read");
    bytes
}

/// Returns the bytes of a new file on which a single session has served the inputs `FIRST_INPUT` and `SECOND_INPUT`.
fn file_of_one_session(alloc: Global, rt: &impl Abort) -> Vec<u8> {
    let disk = MemDisk::new(alloc, FILE_SIZE).expect(rt, "memory");
    let Ok(mut session) = Session::create(alloc, disk) else {
        panic!(rt; "not made");
    };
    for input in [FIRST_INPUT, SECOND_INPUT] {
        serve_input(alloc, &mut session, input);
    }
    bytes_of(alloc, rt, session.into_disk())
}

#[test]
fn one_session_over_two_calls(rt: HostRuntime) {
    let alloc = rt.alloc();
    let mut file = new_file(alloc, &rt);
    for row in [(FIRST_INPUT, FIRST_ANSWERS), (SECOND_INPUT, SECOND_ANSWERS)] {
        expect_answers(alloc, &rt, file.as_mut_slice(), row);
    }
    let expected = file_of_one_session(alloc, &rt);
    assert!(rt; file.as_slice() == expected.as_slice());
    expect_answers(alloc, &rt, file.as_mut_slice(), (b"", b"session 4\n"));
}

/// Returns the commit byte of the first record in the active slot of a file. The selector (byte 8) of the file selects
/// this slot.
fn commit_byte(file: &[u8]) -> Option<u8> {
    let log = if file.get(8) == Some(&0) {
        16_400
    } else {
        98_320
    };
    file.get(log).copied()
}

/// Settles a file, and checks that the file then has no records. Then serves the input in `row` on the file, and
/// checks the answers.
fn expect_settled(alloc: Global, rt: &impl Abort, file: &mut [u8], row: (&[u8], &[u8])) {
    expect_equal(rt, settle_file(alloc, file), Ok(()));
    expect_equal(rt, commit_byte(file), Some(0));
    expect_answers(alloc, rt, file, row);
}

#[test]
fn a_settled_file_has_no_records(rt: HostRuntime) {
    let alloc = rt.alloc();
    let mut file = new_file(alloc, &rt);
    expect_answers(
        alloc,
        &rt,
        file.as_mut_slice(),
        (FIRST_INPUT, FIRST_ANSWERS),
    );
    expect_equal(&rt, commit_byte(file.as_slice()), Some(1));
    // the input after the file was settled a second time, into the other slot
    let third_row: (&[u8], &[u8]) = (b"step\nseq\n", b"session 4\nok 5 ran 2 end\nseq 5\n");
    for row in [(SECOND_INPUT, SECOND_ANSWERS), third_row] {
        expect_settled(alloc, &rt, file.as_mut_slice(), row);
    }
}

/// Checks that a file was converted from version 1: the active slot has a snapshot of version 2, and `regs` is
/// answered with `CONVERTED_ANSWERS`.
fn expect_converted(alloc: Global, rt: &impl Abort, file: &mut [u8]) {
    let at = if file.get(8) == Some(&0) { 24 } else { 81_944 };
    expect_equal(rt, file.get(at), Some(&2));
    expect_answers(alloc, rt, file, (b"regs\n", CONVERTED_ANSWERS));
}

#[test]
fn a_file_of_version_1_is_converted(rt: HostRuntime) {
    let alloc = rt.alloc();
    let mut file = file_of_version_1(alloc, &rt);
    expect_answers(
        alloc,
        &rt,
        file.as_mut_slice(),
        (b"regs\n", CONVERTED_ANSWERS),
    );
    expect_converted(alloc, &rt, file.as_mut_slice());
}

#[test]
fn settling_converts_a_file_of_version_1(rt: HostRuntime) {
    let alloc = rt.alloc();
    let mut file = file_of_version_1(alloc, &rt);
    expect_equal(&rt, settle_file(alloc, file.as_mut_slice()), Ok(()));
    expect_converted(alloc, &rt, file.as_mut_slice());
}

/// Checks that a single call can serve an input and settle the file. It must give the same answers, and leave the same
/// bytes in the file, as two separate calls.
fn expect_serve_and_settle(alloc: Global, rt: &impl Abort, file: &mut [u8], row: (&[u8], &[u8])) {
    let mut second_file = copy(alloc, rt, file);
    expect_answers(alloc, rt, second_file.as_mut_slice(), row);
    expect_equal(rt, settle_file(alloc, second_file.as_mut_slice()), Ok(()));
    expect_answers_by(alloc, rt, Call::ServeAndSettle, file, row);
    assert!(rt; second_file.as_slice() == file);
}

#[test]
fn one_call_serves_and_settles(rt: HostRuntime) {
    let alloc = rt.alloc();
    let mut file = new_file(alloc, &rt);
    for row in [(FIRST_INPUT, FIRST_ANSWERS), (SECOND_INPUT, SECOND_ANSWERS)] {
        expect_serve_and_settle(alloc, &rt, file.as_mut_slice(), row);
        expect_equal(&rt, commit_byte(file.as_slice()), Some(0));
    }
    let mut first_version = file_of_version_1(alloc, &rt);
    let row: (&[u8], &[u8]) = (b"regs\n", CONVERTED_ANSWERS);
    expect_serve_and_settle(alloc, &rt, first_version.as_mut_slice(), row);
    expect_converted(alloc, &rt, first_version.as_mut_slice());
}

#[test]
fn asking_does_not_change_the_file(rt: HostRuntime) {
    let alloc = rt.alloc();
    let mut file = new_file(alloc, &rt);
    let before = copy(alloc, &rt, file.as_slice());
    // `Ask` answers as if the commands were executed, but does not change the file; a second call gives the same
    // answers
    for _ in 0..2 {
        let row = (FIRST_INPUT, FIRST_ANSWERS);
        expect_answers_by(alloc, &rt, Call::Ask, file.as_mut_slice(), row);
        assert!(rt; file.as_slice() == before.as_slice());
    }
    expect_answers(
        alloc,
        &rt,
        file.as_mut_slice(),
        (FIRST_INPUT, FIRST_ANSWERS),
    );
    expect_answers_by(
        alloc,
        &rt,
        Call::Ask,
        file.as_mut_slice(),
        (SECOND_INPUT, SECOND_ANSWERS),
    );
}

/// Checks that every kind of call rejects a file with the given error, and leaves the file unchanged.
fn expect_refused(alloc: Global, rt: &impl Abort, file: &[u8], fault: StoreFault) {
    let mut file_copy = copy(alloc, rt, file);
    for call in CALLS {
        let error = answers(alloc, rt, call, file_copy.as_mut_slice(), SECOND_INPUT).err();
        expect_equal(rt, error, Some(ServeFault::Refused(fault)));
    }
    expect_equal(rt, settle_file(alloc, file_copy.as_mut_slice()), Err(fault));
    assert!(rt; file_copy.as_slice() == file);
}

#[test]
fn files_of_another_size(rt: HostRuntime) {
    let alloc = rt.alloc();
    let mut bytes = new_file(alloc, &rt);
    bytes.push(0).expect(&rt, "memory");
    // one byte too many, one byte too few, eight bytes, no bytes
    for size in [FILE_SIZE + 1, FILE_SIZE - 1, 8, 0] {
        bytes.truncate(size);
        expect_refused(alloc, &rt, bytes.as_slice(), StoreFault::NotASession);
    }
}

#[test]
fn files_that_repeat_one_byte(rt: HostRuntime) {
    let alloc = rt.alloc();
    // all bytes 0xA5, and all bytes 0
    for byte in [0xA5, 0] {
        let file = vec![in alloc; byte; FILE_SIZE].expect(&rt, "memory");
        expect_refused(alloc, &rt, file.as_slice(), StoreFault::NotASession);
    }
}

#[test]
fn files_that_hold_no_session(rt: HostRuntime) {
    let alloc = rt.alloc();
    let intact_file = new_file(alloc, &rt);
    // another format name, a wrong length of the snapshot, a state of an unknown version, and a record that encodes
    // no command
    let changes: [(usize, &[u8], StoreFault); 4] = [
        (7, b"2", StoreFault::NotASession),
        (19, &[0], StoreFault::Damaged),
        (24, &[3], StoreFault::Damaged),
        (16_400, &[1, 0, 1, 0], StoreFault::Damaged),
    ];
    for (at, bytes, fault) in changes {
        let mut damaged_file = copy(alloc, &rt, intact_file.as_slice());
        overwrite(&rt, damaged_file.as_mut_slice(), at, bytes);
        expect_refused(alloc, &rt, damaged_file.as_slice(), fault);
    }
}

/// Checks that every kind of call fails if the buffer has only `room` bytes for the answers to `FIRST_INPUT`, and
/// leaves the buffer unchanged.
fn expect_no_room(alloc: Global, rt: &impl Abort, file: &mut [u8], room: usize) {
    let mut buffer = [b'#'; 128];
    let Some(short_buffer) = buffer.get_mut(..room) else {
        panic!(rt; "a short buffer");
    };
    for call in CALLS {
        let error = make_call(alloc, call, file, FIRST_INPUT, short_buffer).err();
        expect_equal(rt, error, Some(ServeFault::NoRoom(FIRST_ANSWERS.len())));
    }
    expect_equal(rt, buffer, [b'#'; 128]);
}

/// Checks that a call writes the answers to `FIRST_INPUT` to the start of a longer buffer, and leaves the byte after
/// the answers unchanged.
fn expect_room(alloc: Global, rt: &impl Abort, file: &mut [u8]) {
    let count = FIRST_ANSWERS.len();
    let mut buffer = [b'#'; 128];
    let Ok(served) = make_call(alloc, Call::Serve, file, FIRST_INPUT, &mut buffer) else {
        panic!(rt; "not served");
    };
    expect_equal(rt, served.count, count);
    expect_equal(rt, buffer.get(..count), Some(FIRST_ANSWERS));
    expect_equal(rt, buffer.get(count), Some(&b'#'));
}

#[test]
fn answers_that_do_not_fit(rt: HostRuntime) {
    let alloc = rt.alloc();
    let mut file = new_file(alloc, &rt);
    let before = copy(alloc, &rt, file.as_slice());
    for room in [0, 1, FIRST_ANSWERS.len() - 1] {
        expect_no_room(alloc, &rt, file.as_mut_slice(), room);
        assert!(rt; file.as_slice() == before.as_slice());
    }
    expect_room(alloc, &rt, file.as_mut_slice());
}

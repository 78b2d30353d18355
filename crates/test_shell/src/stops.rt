//! Tests in which the shell is stopped at each call of the disk, or after each byte that is read or written.
use crate::scripts::{ANSWERS, INPUTS, POKE, POKES};
use crate::sessions::{
    blank_disk, bytes_after_mending, bytes_of, create, disk_of_session, expect, expect_state,
    failing_disk_of, file_of, new_session_in_memory, open, open_in_memory, open_or_panic, poke,
    run_and_collect, seq_of, serve, states_after_commands,
};
use mcs_disk::{FuseDisk, MemDisk};
use mcs_fixtures::streams::{CutReader, CutWriter, EndlessReader, concatenate};
use mcs_journal::StoreFault;
use mcs_model::limits::INPUT_BYTES;
use mcs_session::fault::SessionFault;
use mcs_session::session::Session;
use mcs_shell::ends::{ShellEnd, status};
use std::alloc::Global;
use std::process::Abort;

/// The first line of a new session's answers.
const FIRST_LINE: &[u8] = b"session 0\n";

/// Returns the expected output of a new session: its first line, the answers to the first `executed_count` commands,
/// and `ending`.
fn expected_output(
    alloc: Global,
    rt: &impl Abort,
    executed_count: usize,
    ending: &[u8],
) -> Vec<u8> {
    let mut answers = concatenate(alloc, &[FIRST_LINE]).expect(rt, "memory");
    for answer in ANSWERS.iter().take(executed_count) {
        answers.extend_from_slice(answer).expect(rt, "memory");
    }
    answers.extend_from_slice(ending).expect(rt, "memory");
    answers
}

/// Returns a script with all commands of `INPUTS`.
fn script_of_inputs(alloc: Global, rt: &impl Abort) -> Vec<u8> {
    concatenate(alloc, &INPUTS).expect(rt, "memory")
}

/// Returns the number of pieces that end at or before the offset `offset` in the concatenation of all pieces.
fn count_complete_pieces(pieces: &[&[u8]], offset: usize) -> usize {
    let mut count = 0usize;
    let mut end = 0usize;
    for piece in pieces {
        end = end.saturating_add(piece.len());
        if end <= offset {
            count = count.saturating_add(1);
        }
    }
    count
}

/// Returns a blank disk whose first `calls` calls succeed, and whose next call fails. Later calls fail too, unless
/// `is_once` is true.
fn failing_blank_disk(alloc: Global, rt: &impl Abort, calls: usize, is_once: bool) -> FuseDisk {
    let disk = blank_disk(alloc, rt);
    if is_once {
        FuseDisk::once(disk, calls)
    } else {
        FuseDisk::after(disk, calls)
    }
}

/// Checks that the shell executes the first `executed_count` commands of `INPUTS`. If more commands follow,
/// checks that the device fails during the next command, and that the session is then closed.
fn expect_executed_before_stop(
    alloc: Global,
    rt: &impl Abort,
    session: &mut Session<FuseDisk>,
    executed_count: usize,
    calls: usize,
) {
    let script = script_of_inputs(alloc, rt);
    let (end, answers) = run_and_collect(alloc, &mut script.as_slice(), session);
    let (wanted_end, ending): (ShellEnd, &[u8]) = if executed_count < INPUTS.len() {
        (ShellEnd::DeviceFault, b"no 53\n")
    } else {
        (ShellEnd::End, b"")
    };
    expect(rt, end == wanted_end, calls);
    expect(
        rt,
        (status(end) == 1) == (executed_count < INPUTS.len()),
        calls,
    );
    let wanted = expected_output(alloc, rt, executed_count, ending);
    expect(rt, answers.as_slice() == wanted.as_slice(), calls);
    if executed_count < INPUTS.len() {
        expect(rt, poke(session) == Err(SessionFault::Closed), calls);
    }
}

/// Checks a session whose disk fails after the first `calls` calls. Creating the session takes five device calls, and
/// each command takes four. The last of these four calls acknowledges the command. A disk that fails only one call
/// needs no mending after that call.
fn expect_stop_in_commands(
    alloc: Global,
    rt: &impl Abort,
    mut session: Session<FuseDisk>,
    calls: usize,
    is_once: bool,
    states: &[Vec<u8>],
) {
    assert!(rt; 5 <= calls, "the call {calls} did not fail");
    let executed_count = (calls - 5) / 4;
    expect_executed_before_stop(alloc, rt, &mut session, executed_count, calls);
    let mut disk = disk_of_session(session);
    let file = if is_once && executed_count < INPUTS.len() {
        bytes_of(alloc, rt, &mut disk)
    } else {
        bytes_after_mending(alloc, rt, disk)
    };
    let state = states.get((calls - 4) / 4);
    expect_state(alloc, rt, file.as_slice(), state, calls);
}

#[test]
fn a_stop_at_each_call_of_the_disk(rt: HostRuntime) {
    let alloc = rt.alloc();
    let mut session = new_session_in_memory(alloc, &rt);
    let states = states_after_commands(alloc, &rt, &mut session, &INPUTS);
    for is_once in [false, true] {
        for calls in 0..26usize {
            match create(alloc, failing_blank_disk(alloc, &rt, calls, is_once)) {
                Ok(session) => {
                    expect_stop_in_commands(alloc, &rt, session, calls, is_once, states.as_slice())
                }
                Err((fault, _disk)) => {
                    expect(&rt, fault == StoreFault::Device && calls < 5, calls);
                }
            }
        }
    }
}

/// Returns true if a session file does not open on a disk whose first `calls` calls succeed and whose later calls
/// fail. In this case, checks that the disk's bytes are unchanged.
fn is_stopped_opening(alloc: Global, rt: &impl Abort, file: &[u8], calls: usize) -> bool {
    match open(alloc, failing_disk_of(alloc, rt, file, calls)) {
        Ok(_) => false,
        Err((fault, disk)) => {
            expect(rt, fault == StoreFault::Device, calls);
            let bytes = bytes_after_mending(alloc, rt, disk);
            expect(rt, bytes.as_slice() == file, calls);
            true
        }
    }
}

/// Returns the number of device calls that opening a session file takes. The number must be below 65,536.
fn calls_of_open(alloc: Global, rt: &impl Abort, file: &[u8]) -> usize {
    let mut calls = 0usize;
    for bit in 0..16u32 {
        let candidate = calls.saturating_add(32_768 >> bit);
        if is_stopped_opening(alloc, rt, file, candidate.saturating_sub(1)) {
            calls = candidate;
        }
    }
    calls
}

/// Checks a stop at each device call of a poke. The poke takes eight calls, because the file's log is full and the
/// poke needs a checkpoint. `accepted` is the end of the answers if there is no stop.
fn expect_stop_in_checkpoint(alloc: Global, rt: &impl Abort, file: &[u8], accepted: &[u8]) {
    let mut session = open_in_memory(alloc, rt, file);
    let states = states_after_commands(alloc, rt, &mut session, &[POKE]);
    let calls_to_open = calls_of_open(alloc, rt, file);
    for calls in 0..9usize {
        let disk = failing_disk_of(alloc, rt, file, calls_to_open.saturating_add(calls));
        let (wanted, answer): (ShellEnd, &[u8]) = if calls < 8 {
            (ShellEnd::DeviceFault, b"\nno 53\n")
        } else {
            (ShellEnd::End, accepted)
        };
        let bytes = bytes_after_poke(alloc, rt, disk, (wanted, answer), calls);
        let state = states.get(if calls < 7 { 0 } else { 1 });
        expect_state(alloc, rt, bytes.as_slice(), state, calls);
    }
}

/// Serves a poke on the session stored on a disk, and returns the bytes on the disk afterwards. Checks the reason for
/// the end of the shell, and the last bytes of its answers.
fn bytes_after_poke(
    alloc: Global,
    rt: &impl Abort,
    disk: FuseDisk,
    (wanted, answer): (ShellEnd, &[u8]),
    calls: usize,
) -> Vec<u8> {
    let mut session = open_or_panic(alloc, rt, disk);
    let mut reader = POKE;
    let (end, answers) = run_and_collect(alloc, &mut reader, &mut session);
    expect(rt, end == wanted, calls);
    expect(rt, answers.as_slice().ends_with(answer), calls);
    bytes_after_mending(alloc, rt, disk_of_session(session))
}

#[test]
fn a_stop_at_each_call_of_a_checkpoint(rt: HostRuntime) {
    let alloc = rt.alloc();
    let full_log = file_of(alloc, &rt, &[], 9_361, b"run 1\n");
    expect_stop_in_checkpoint(alloc, &rt, full_log.as_slice(), b"\nok 9363\n");
    let full_log = file_of(alloc, &rt, &INPUTS, POKES, b"");
    expect_stop_in_checkpoint(alloc, &rt, full_log.as_slice(), b"\nok 9270\n");
}

#[test]
fn a_stop_at_each_call_of_opening(rt: HostRuntime) {
    let alloc = rt.alloc();
    let file = file_of(alloc, &rt, &INPUTS, 0, b"");
    let calls_to_open = calls_of_open(alloc, &rt, file.as_slice());
    assert!(rt; 1 < calls_to_open && calls_to_open < 64, "{calls_to_open}");
    for calls in 0..calls_to_open {
        expect(
            &rt,
            is_stopped_opening(alloc, &rt, file.as_slice(), calls),
            calls,
        );
    }
}

/// Checks that the shell ends if the reader fails after `left` bytes, and that it has answered the inputs that it
/// read completely.
fn expect_cut_reading(alloc: Global, rt: &impl Abort, script: &[u8], left: usize) {
    let mut session = new_session_in_memory(alloc, rt);
    let mut reader = CutReader::new(script, left, usize::MAX);
    let (end, answers) = run_and_collect(alloc, &mut reader, &mut session);
    expect(rt, end == ShellEnd::ReadFault && status(end) == 1, left);
    let wanted = expected_output(alloc, rt, count_complete_pieces(&INPUTS, left), b"");
    expect(rt, answers.as_slice() == wanted.as_slice(), left);
}

#[test]
fn a_stop_at_each_byte_that_is_read(rt: HostRuntime) {
    let alloc = rt.alloc();
    let script = script_of_inputs(alloc, &rt);
    for left in 0..=script.len() {
        expect_cut_reading(alloc, &rt, script.as_slice(), left);
    }
}

/// Checks that the shell reads an endless input only up to the input limit. The input consists of empty lines, which
/// have no answers.
#[test]
fn reading_ends_at_the_input_limit(rt: HostRuntime) {
    let alloc = rt.alloc();
    let mut session = new_session_in_memory(alloc, &rt);
    let mut reader = EndlessReader::new(b'\n');
    let (end, answers) = run_and_collect(alloc, &mut reader, &mut session);
    expect(&rt, end == ShellEnd::InputLimit && status(end) == 1, 0);
    expect(&rt, reader.bytes_returned() == INPUT_BYTES as u64, 1);
    expect(&rt, answers.as_slice() == FIRST_LINE, 2);
}

/// Checks that the shell ends if the writer fails after `left` bytes of the answers. Returns the disk of the session.
fn disk_after_cut_writing(
    alloc: Global,
    rt: &impl Abort,
    script: &[u8],
    answers: &[u8],
    left: usize,
) -> MemDisk {
    let mut session = new_session_in_memory(alloc, rt);
    let mut writer = CutWriter::new(alloc, left, usize::MAX);
    let mut reader = script;
    let end = serve(alloc, &mut reader, &mut writer, &mut session);
    let wanted_end = if left == answers.len() {
        ShellEnd::End
    } else {
        ShellEnd::WriteFault
    };
    expect(rt, end == wanted_end, left);
    expect(rt, answers.starts_with(writer.accepted_bytes()), left);
    expect(rt, writer.accepted_bytes().len() == left, left);
    disk_of_session(session)
}

#[test]
fn a_stop_at_each_byte_that_is_written(rt: HostRuntime) {
    let alloc = rt.alloc();
    let script = script_of_inputs(alloc, &rt);
    let answers = expected_output(alloc, &rt, ANSWERS.len(), b"");
    // A command is recorded if all earlier answers were written.
    let [one, two, three, four, _] = ANSWERS;
    let earlier_pieces = [FIRST_LINE, one, two, three, four];
    for left in 0..=answers.len() {
        let disk = disk_after_cut_writing(alloc, &rt, script.as_slice(), answers.as_slice(), left);
        let reopened = open_or_panic(alloc, &rt, disk);
        let complete = count_complete_pieces(&earlier_pieces, left);
        expect(&rt, seq_of(&reopened) as usize == complete, left);
    }
}

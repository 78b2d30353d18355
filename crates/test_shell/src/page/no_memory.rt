//! Tests of the page's calls with one failing allocation. `checks/allocations` runs each test once per allocation,
//! and makes that allocation fail. In an ordinary run, no allocation fails. A call that runs out of memory leaves the
//! file and the buffer unchanged, and succeeds if it is repeated.
use crate::checks::expect_equal;
use crate::page::files::{
    CONVERTED_ANSWERS, Call, make_call, overwrite_with_version_1, settle_file,
};
use crate::sessions::overwrite;
use mcs_journal::{FILE_SIZE, StoreFault};
use mcs_shell::ends::ShellEnd;
use mcs_wasm::fault::ServeFault;
use mcs_wasm::page::{ServedInput, begin};
use std::alloc::{AllocError, Global};
use std::process::Abort;

/// The arguments of a call: the file and the buffer for the answers. `before` has the bytes of the file before the
/// call.
#[derive(Drop)]
struct PageFixture {
    file: Vec<u8>,
    before: Vec<u8>,
    buffer: [u8; 128],
}

/// The result of a call. `is_repeated` is true if the call was repeated because the first attempt ran out of memory.
#[derive(Drop)]
struct CallReport {
    /// The length of the answers in bytes. It is an `Err` if the answers did not fit into the buffer.
    count: Result<usize, usize>,
    is_repeated: bool,
}

/// Returns the length of the answers to a call in bytes. The length is an `Err` if the answers did not fit into the
/// buffer. Checks that the call did not fail for another reason.
fn count_of(rt: &impl Abort, report: Result<ServedInput, ServeFault>) -> Result<usize, usize> {
    match report {
        Ok(served) => {
            expect_equal(rt, served.end, ShellEnd::End);
            Ok(served.count)
        }
        Err(ServeFault::NoRoom(count)) => Err(count),
        Err(ServeFault::Refused(_)) => panic!(rt; "refused again"),
    }
}

impl PageFixture {
    /// Creates a fixture with a file that has the size of a session file but holds no session.
    fn new(alloc: Global) -> Result<PageFixture, AllocError> {
        Ok(PageFixture {
            file: vec![in alloc; 0xA5u8; FILE_SIZE]?,
            before: vec![in alloc; 0u8; FILE_SIZE]?,
            buffer: [b'#'; 128],
        })
    }

    /// Prepares for a call: saves a copy of the file's bytes, and resets the buffer.
    fn prepare(&mut self, rt: &impl Abort) {
        assert!(rt; self.before.len() == self.file.len());
        self.before
            .as_mut_slice()
            .copy_from_slice(self.file.as_slice());
        self.buffer = [b'#'; 128];
    }

    /// Checks that the last call has left the file and the buffer unchanged.
    fn expect_untouched(&self, rt: &impl Abort) {
        assert!(rt; self.file.as_slice() == self.before.as_slice() && self.buffer == [b'#'; 128]);
    }

    /// Starts a new session in the file. Returns true if the call had to be repeated.
    fn begin(&mut self, alloc: Global, rt: &impl Abort) -> bool {
        self.prepare(rt);
        assert!(rt; self.file.len() == FILE_SIZE);
        if begin(alloc, self.file.as_mut_slice()).is_ok() {
            return false;
        }
        self.expect_untouched(rt);
        assert!(rt; self.file.len() == FILE_SIZE);
        begin(alloc, self.file.as_mut_slice()).expect(rt, "begun again");
        true
    }

    /// Settles the file. Returns true if the call had to be repeated.
    fn settle(&mut self, alloc: Global, rt: &impl Abort) -> bool {
        self.prepare(rt);
        if let Err(fault) = settle_file(alloc, self.file.as_mut_slice()) {
            expect_equal(rt, fault, StoreFault::NoMemory);
            self.expect_untouched(rt);
            expect_equal(rt, settle_file(alloc, self.file.as_mut_slice()), Ok(()));
            return true;
        }
        false
    }

    /// Makes one call that answers an input. The buffer has room for `room` bytes of answers.
    fn call_once(
        &mut self,
        alloc: Global,
        call: Call,
        input: &[u8],
        room: usize,
    ) -> Result<ServedInput, ServeFault> {
        match self.buffer.get_mut(..room) {
            Some(answers) => make_call(alloc, call, self.file.as_mut_slice(), input, answers),
            None => Err(ServeFault::NoRoom(0)),
        }
    }

    /// Serves an input with room for `room` bytes of answers, and repeats the call if it runs out of memory.
    fn serve(&mut self, alloc: Global, rt: &impl Abort, input: &[u8], room: usize) -> CallReport {
        self.call(alloc, rt, Call::Serve, (input, room))
    }

    /// Makes a call that answers an input, and repeats the call if it runs out of memory.
    fn call(
        &mut self,
        alloc: Global,
        rt: &impl Abort,
        call: Call,
        (input, room): (&[u8], usize),
    ) -> CallReport {
        self.prepare(rt);
        let first = self.call_once(alloc, call, input, room);
        if let Err(ServeFault::Refused(fault)) = first {
            expect_equal(rt, fault, StoreFault::NoMemory);
            self.expect_untouched(rt);
            let second = self.call_once(alloc, call, input, room);
            return CallReport {
                count: count_of(rt, second),
                is_repeated: true,
            };
        }
        CallReport {
            count: count_of(rt, first),
            is_repeated: false,
        }
    }

    /// Returns true if the last call wrote the given answers to the start of the buffer and left the rest of the
    /// buffer unchanged.
    fn has_answers(&self, rt: &impl Abort, report: &CallReport, answers: &[u8]) -> bool {
        let mut wanted = [b'#'; 128];
        overwrite(rt, &mut wanted, 0, answers);
        report.count == Ok(answers.len()) && self.buffer == wanted
    }
}

const FIRST_INPUT: &[u8] =
    b"wire\n[[rom]]\nchip = 0\nport = \"0000\"\n.\nasm\nLDM 1\n.\nlist 0 1\nboard\nseq\n";

const SECOND_INPUT: &[u8] = b"poke r5 9\nlist 0 1\nseq\n";

/// The answers to `FIRST_INPUT` if one of its parts failed for lack of memory, and the answers that `SECOND_INPUT`
/// then gets. `failed_part` names the part that failed, or is `nothing`.
struct ExpectedAnswers {
    failed_part: &'static str,
    first: &'static [u8],
    second: &'static [u8],
}

const EXPECTED_ANSWERS: [ExpectedAnswers; 5] = [
    ExpectedAnswers {
        failed_part: "nothing",
        first: b"session 0
ok 1
ok 2 bytes 1
000 D1    LDM 1
board
[[rom]]
chip = 0
port = \"0000\"
seq 2
",
        second: b"session 2
ok 3
000 D1    LDM 1
seq 3
",
    },
    ExpectedAnswers {
        failed_part: "the board",
        first: b"session 0
no 90
no 42
000 00    NOP
board
seq 0
",
        second: b"session 0
ok 1
000 00    NOP
seq 1
",
    },
    ExpectedAnswers {
        failed_part: "the program",
        first: b"session 0
ok 1
no 90
000 00    NOP
board
[[rom]]
chip = 0
port = \"0000\"
seq 1
",
        second: b"session 1
ok 2
000 00    NOP
seq 2
",
    },
    ExpectedAnswers {
        failed_part: "the listing",
        first: b"session 0
ok 1
ok 2 bytes 1
no 90
board
[[rom]]
chip = 0
port = \"0000\"
seq 2
",
        second: b"session 2
ok 3
000 D1    LDM 1
seq 3
",
    },
    ExpectedAnswers {
        failed_part: "the question for the board",
        first: b"session 0
ok 1
ok 2 bytes 1
000 D1    LDM 1
no 90
seq 2
",
        second: b"session 2
ok 3
000 D1    LDM 1
seq 3
",
    },
];

/// The answers to the input `SECOND_INPUT` if its listing fails for lack of memory.
const SECOND_WITHOUT_LISTING: &[u8] = b"session 2\nok 3\nno 90\nseq 3\n";

/// The name of the part of a test that ran out of memory. At most one part can run out, because only one allocation
/// fails.
#[derive(Drop)]
struct MemoryFailure {
    part: &'static str,
}

impl MemoryFailure {
    fn record(&mut self, rt: &impl Abort, has_failed: bool, part: &'static str) {
        if has_failed {
            expect_equal(rt, self.part, "nothing");
            self.part = part;
        }
    }
}

/// Checks that the answers to `FIRST_INPUT` do not fit into eight bytes. The length that the call reports shows which
/// part, if any, failed for lack of memory.
fn expect_too_long_answers(
    alloc: Global,
    rt: &impl Abort,
    fixture: &mut PageFixture,
    failure: &mut MemoryFailure,
) {
    let report = fixture.serve(alloc, rt, FIRST_INPUT, 8);
    fixture.expect_untouched(rt);
    failure.record(rt, report.is_repeated, "the input without room");
    for row in EXPECTED_ANSWERS.iter() {
        if report.count == Err(row.first.len()) {
            failure.record(rt, row.failed_part != "nothing", "an answer without room");
            return;
        }
    }
    panic!(rt; "another count");
}

/// Serves the input `FIRST_INPUT`, and returns the answers that `SECOND_INPUT` must get afterwards.
fn serve_first_input(
    alloc: Global,
    rt: &impl Abort,
    fixture: &mut PageFixture,
    failure: &mut MemoryFailure,
) -> &'static [u8] {
    let report = fixture.serve(alloc, rt, FIRST_INPUT, 128);
    failure.record(rt, report.is_repeated, "the input");
    for row in EXPECTED_ANSWERS.iter() {
        if fixture.has_answers(rt, &report, row.first) {
            failure.record(rt, row.failed_part != "nothing", row.failed_part);
            return row.second;
        }
    }
    panic!(rt; "other answers");
}

/// Serves the input `SECOND_INPUT`, and checks the answers.
fn serve_second_input(
    alloc: Global,
    rt: &impl Abort,
    fixture: &mut PageFixture,
    failure: &mut MemoryFailure,
    wanted: &[u8],
) {
    let report = fixture.serve(alloc, rt, SECOND_INPUT, 128);
    failure.record(rt, report.is_repeated, "the second input");
    if !fixture.has_answers(rt, &report, wanted) {
        failure.record(rt, true, "the second listing");
        assert!(rt; fixture.has_answers(rt, &report, SECOND_WITHOUT_LISTING));
    }
}

/// Makes two calls that query the number of commands. The second call also settles the file. Checks that both calls
/// give the same answers.
fn ask_and_settle(
    alloc: Global,
    rt: &impl Abort,
    fixture: &mut PageFixture,
    failure: &mut MemoryFailure,
) {
    let ask_report = fixture.call(alloc, rt, Call::Ask, (b"seq\n", 128));
    failure.record(rt, ask_report.is_repeated, "the question");
    let answers = fixture.buffer;
    let settle_report = fixture.call(alloc, rt, Call::ServeAndSettle, (b"seq\n", 128));
    failure.record(rt, settle_report.is_repeated, "the input settled");
    // the length of the lines `session N` and `seq N` with their line feeds
    expect_equal(rt, ask_report.count, Ok(16));
    expect_equal(rt, settle_report.count, Ok(16));
    expect_equal(rt, fixture.buffer, answers);
}

/// Starts a session, serves the input `FIRST_INPUT`, settles the file, and serves the input `SECOND_INPUT`. Then
/// queries the session with the other kinds of calls. Returns the part that ran out of memory, or `nothing`.
fn begin_and_serve(alloc: Global, rt: &impl Abort) -> &'static str {
    let Ok(mut fixture) = PageFixture::new(alloc) else {
        return "a file";
    };
    let mut failure = MemoryFailure { part: "nothing" };
    failure.record(rt, fixture.begin(alloc, rt), "the file begun");
    expect_too_long_answers(alloc, rt, &mut fixture, &mut failure);
    let second_answers = serve_first_input(alloc, rt, &mut fixture, &mut failure);
    failure.record(rt, fixture.settle(alloc, rt), "the file settled");
    serve_second_input(alloc, rt, &mut fixture, &mut failure, second_answers);
    ask_and_settle(alloc, rt, &mut fixture, &mut failure);
    failure.part
}

#[test]
fn one_allocation(rt: HostRuntime) {
    let part = begin_and_serve(rt.alloc(), &rt);
    let _ = println!(rt; "refused: {part}");
}

/// Settles a file of version 1, and serves an input on another file of version 1. Returns the part that ran out of
/// memory, or `nothing`.
fn convert_version_1(alloc: Global, rt: &impl Abort) -> &'static str {
    let Ok(mut fixture) = PageFixture::new(alloc) else {
        return "a file";
    };
    let mut failure = MemoryFailure { part: "nothing" };
    overwrite_with_version_1(rt, fixture.file.as_mut_slice());
    failure.record(rt, fixture.settle(alloc, rt), "the file settled");
    overwrite_with_version_1(rt, fixture.file.as_mut_slice());
    let report = fixture.serve(alloc, rt, b"regs\n", 128);
    failure.record(rt, report.is_repeated, "the input");
    assert!(rt; fixture.has_answers(rt, &report, CONVERTED_ANSWERS));
    failure.part
}

#[test]
fn a_file_of_version_1(rt: HostRuntime) {
    let part = convert_version_1(rt.alloc(), &rt);
    let _ = println!(rt; "refused: {part}");
}

//! The functions that a page in a browser calls to use the bench and the prover. The functions of the bench work on the
//! bytes of a session file, which the page keeps.
#![tactic(auto)]

ghost use Rattle.std.specs.Prelude.{◌≡◌, length, true, false};
ghost use Rattle.mcs_journal.specs.declared.format.TheConstants.{FILE_SIZE};
ghost use Rattle.mcs_wasm.specs.Page.{IsNewFile, RepresentsSameState};
ghost use Rattle.wasm.specs.ReportedNumbers.{HasLineAtFront, ReportsAnswers, ReportsAnswersAndSettles, ReportsDryRun, ReportsProverFault};
ghost use Rattle.wasm.specs.ReportedNumbers.{ReportsFault, count_of_fault, number_of_fault};
ghost use Rattle.mcs_shell.specs.Shell.{exit_status_of};

use mcs_journal::StoreFault;
use mcs_prove::{Answer, answer_to};
use mcs_shell::ends::status;
use mcs_shell::faults::number_of_store_fault;
use mcs_wasm::fault::ServeFault;
use mcs_wasm::page::{ServedInput, ask, begin, copy_to_front, serve, serve_and_settle, settle};
use std::alloc::Global;
use std::str;

/// The numbers that a call reports to the page.
#[derive(Clone, Copy)]
#[repr(C)]
pub struct CallResult {
    /// The exit status of the shell or of the prover, if the call returned true. Otherwise the refusal number, or 0 if
    /// the answers do not fit into the buffer.
    pub number: u32,
    /// The number of bytes in the answers, even if they do not fit into the buffer. 0 if there are no answers.
    pub count: usize,
}

/// Writes the result of a successful call to `report`: the exit status of the shell, and the number of bytes in the
/// answers. Returns true.
fn report_served(served: ServedInput, report: &mut CallResult) -> bool
    ensures value { result ≡ true }
    ensures number { report.new.number ≡ exit_status_of served.end }
    ensures count { report.new.count ≡ served.count }
{
    *report = CallResult {
        number: u32::from(status(served.end)),
        count: served.count,
    };
    true
}

/// Writes an error to `report`: the refusal number and the count 0. If the answers do not fit, writes the number 0 and
/// the number of bytes in the answers instead. Returns false.
fn report_fault(fault: ServeFault, report: &mut CallResult) -> bool
    ensures value { result ≡ false }
    ensures number { report.new.number ≡ number_of_fault fault }
    ensures count { report.new.count ≡ count_of_fault fault }
{
    *report = match fault {
        ServeFault::Refused(fault) => CallResult {
            number: u32::from(number_of_store_fault(fault)),
            count: 0,
        },
        ServeFault::NoRoom(count) => CallResult { number: 0, count },
    };
    false
}

/// Returns the number of bytes in a session file.
#[unsafe(no_mangle)]
pub extern "C" fn bench_file_size() -> usize
    ensures { result ≡ FILE_SIZE }
{
    mcs_journal::FILE_SIZE
}

/// Writes a new session to a file of `bench_file_size` bytes. Returns false if memory runs out. The file is then
/// unchanged.
#[unsafe(no_mangle)]
pub extern "C" fn bench_begin(alloc: Global, file: &mut [u8]) -> bool
    requires size { length file.old ≡ FILE_SIZE }
    ensures new_file { result ≡ true → IsNewFile file.new }
    ensures unchanged { result ≡ false → file.new ≡ file.old }
{
    begin(alloc, file).is_ok()
}

/// Resumes the session in a file, and executes the input lines. Writes the answers to the front of the buffer
/// `answers`, and copies the session's disk back to the file. Returns false if the call fails. The file and the buffer
/// are then unchanged, and `report` has the reason.
#[unsafe(no_mangle)]
pub extern "C" fn bench_serve(
    alloc: Global,
    file: &mut [u8],
    input: &[u8],
    answers: &mut [u8],
    report: &mut CallResult,
) -> bool
    ensures served { result ≡ true → ReportsAnswers file.old input.now report.new.number report.new.count
        answers.old answers.new file.new }
    ensures refused { result ≡ false → ReportsFault file.old input.now report.new.number report.new.count
        (length answers.old) }
    ensures unchanged { result ≡ false → (file.new ≡ file.old) × (answers.new ≡ answers.old) }
{
    match serve(alloc, file, input, answers) {
        Ok(served) => report_served(served, report),
        Err(fault) => report_fault(fault, report),
    }
}

/// Executes input as `bench_serve` does, and then replaces the records of the file with a snapshot. Returns false if
/// the call fails. The file and the buffer are then unchanged, and `report` has the reason.
#[unsafe(no_mangle)]
pub extern "C" fn bench_serve_and_settle(
    alloc: Global,
    file: &mut [u8],
    input: &[u8],
    answers: &mut [u8],
    report: &mut CallResult,
) -> bool
    ensures served { result ≡ true → ReportsAnswersAndSettles file.old input.now report.new.number
        report.new.count answers.old answers.new file.new }
    ensures refused { result ≡ false → ReportsFault file.old input.now report.new.number report.new.count
        (length answers.old) }
    ensures unchanged { result ≡ false → (file.new ≡ file.old) × (answers.new ≡ answers.old) }
{
    match serve_and_settle(alloc, file, input, answers) {
        Ok(served) => report_served(served, report),
        Err(fault) => report_fault(fault, report),
    }
}

/// Answers input as `bench_serve` would, but leaves the file unchanged. Returns false if the call fails. The buffer is
/// then unchanged, and `report` has the reason.
#[unsafe(no_mangle)]
pub extern "C" fn bench_ask(
    alloc: Global,
    file: &[u8],
    input: &[u8],
    answers: &mut [u8],
    report: &mut CallResult,
) -> bool
    ensures served { result ≡ true → ReportsDryRun file.now input.now report.new.number
        report.new.count answers.old answers.new }
    ensures refused { result ≡ false → ReportsFault file.now input.now report.new.number report.new.count
        (length answers.old) }
    ensures unchanged { result ≡ false → answers.new ≡ answers.old }
{
    match ask(alloc, file, input, answers) {
        Ok(served) => report_served(served, report),
        Err(fault) => report_fault(fault, report),
    }
}

/// Replaces the records of a session file with a snapshot. Returns false if the bytes do not hold a session or memory
/// runs out. The file is then unchanged.
#[unsafe(no_mangle)]
pub extern "C" fn bench_settle(alloc: Global, file: &mut [u8]) -> bool
    ensures settled { result ≡ true → RepresentsSameState file.old file.new }
    ensures unchanged { result ≡ false → file.new ≡ file.old }
{
    settle(alloc, file).is_ok()
}

/// Answers a question to the prover, as the program mcs4_prove does. Writes the answer line to the front of the buffer,
/// and the exit status and the number of bytes in the line to `report`. Returns false if there is no answer line. The
/// buffer is then unchanged, and `report` has the number 90 if memory ran out. If the line does not fit, `report` has
/// the number 0 and the number of bytes in the line.
#[unsafe(no_mangle)]
pub extern "C" fn bench_prove(
    alloc: Global,
    question: &[u8],
    answers: &mut [u8],
    report: &mut CallResult,
) -> bool
    ensures answered { result ≡ true → HasLineAtFront report.new.count answers.old answers.new }
    ensures refused { result ≡ false →
        ReportsProverFault report.new.number report.new.count (length answers.old) }
    ensures unchanged { result ≡ false → answers.new ≡ answers.old }
{
    // Bytes that are not valid UTF-8 count as an empty question, as in the program mcs4_prove.
    let Ok(Answer { text, status }) = answer_to(alloc, str::from_utf8(question).unwrap_or(""))
    else {
        return report_fault(ServeFault::Refused(StoreFault::NoMemory), report);
    };
    let line = text.as_bytes();
    if answers.len() < line.len() {
        return report_fault(ServeFault::NoRoom(line.len()), report);
    }
    *report = CallResult {
        number: u32::from(status),
        count: copy_to_front(answers, line),
    };
    true
}

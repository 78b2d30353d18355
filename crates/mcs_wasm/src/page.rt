//! The functions that run the bench for a page in a browser.
ghost use Rattle.std.specs.Prelude.{◌≡◌, ◌≤◌, ◌↔◌, drop, length, take, IfErr, IfOk, IsTrue, OnErr, OnOk};
ghost use Rattle.mcs_wasm.specs.Page.{AnswersInBuffer, AnswersAndSettles, ServesAllInput, IsNewFile, IsFileRefused};
ghost use Rattle.mcs_wasm.specs.Page.{IsAllServed, IsServeFault, RepresentsSameState, WouldAnswer};
ghost use Rattle.mcs_journal.specs.declared.format.TheConstants.{FILE_SIZE};

use crate::disks::{resume, snapshot_into, write_back};
use crate::fault::ServeFault;
use mcs_disk::MemDisk;
use mcs_journal::{FILE_SIZE, StoreFault};
use mcs_session::session::Session;
use mcs_shell::ends::ShellEnd;
use mcs_shell::shell::run_shell;
use std::alloc::{AllocError, Global};

/// The result of a call that executed its input.
#[derive(Clone, Copy, Debug, PartialEq, Eq)]
pub struct ServedInput {
    /// The reason why the shell ended: the shell executed all input, or as much as the input limit allows.
    pub end: ShellEnd,
    /// The number of bytes in the answers.
    pub count: usize,
}

/// A session that has executed input, the reason why the shell ended, and the answers.
#[derive(Drop)]
struct ServedSession {
    session: Session<MemDisk>,
    end: ShellEnd,
    output: Vec<u8>,
}

/// Writes a new session to a file of `FILE_SIZE` bytes. Fails if memory runs out, and then leaves the file unchanged.
pub fn begin(alloc: Global, file: &mut [u8]) -> Result<(), AllocError>
    requires size { length file.old ≡ FILE_SIZE }
    ensures created { OnOk result (IsNewFile file.new) }
    ensures unchanged { OnErr result (file.new ≡ file.old) }
{
    let disk = MemDisk::new(alloc, FILE_SIZE)?;
    let Ok(new_session) = Session::create(alloc, disk) else {
        return Err(AllocError);
    };
    write_back(&new_session.into_disk(), file);
    Ok(())
}

/// Returns true if a shell with this end executed all of its input, or as much as the input limit allows.
fn is_all_served(end: ShellEnd) -> bool
    ensures { IsTrue result ↔ IsAllServed end }
{
    match end {
        ShellEnd::End | ShellEnd::InputLimit => true,
        ShellEnd::ReadFault | ShellEnd::WriteFault | ShellEnd::DeviceFault | ShellEnd::NoMemory => {
            false
        }
    }
}

/// Resumes the session in a file, on a copy of the file's bytes, and executes the input lines. Fails if the bytes do
/// not hold a session, if memory runs out, or if the answers have more than `room` bytes.
fn serve_copy(
    alloc: Global,
    file: &[u8],
    input: &[u8],
    room: usize,
) -> Result<ServedSession, ServeFault>
    ensures served { IfOk result (λ a.
        ServesAllInput file.now input.now a.end a.output.items a.session) }
    ensures room { IfOk result (λ a. length a.output.items ≤ room) }
    ensures refused { IfErr result (λ why. IsServeFault why file.now input.now room) }
{
    let mut session = match resume(alloc, file) {
        Ok(session) => session,
        Err(fault) => return Err(ServeFault::Refused(fault)),
    };
    let mut reader = input;
    let mut output = Vec::new(alloc);
    let end = run_shell(alloc, &mut reader, &mut output, &mut session);
    // Every other end means that memory ran out: a slice, a vector and an in-memory disk fail for no other reason.
    if !is_all_served(end) {
        return Err(ServeFault::Refused(StoreFault::NoMemory));
    }
    if room < output.len() {
        return Err(ServeFault::NoRoom(output.len()));
    }
    Ok(ServedSession {
        session,
        end,
        output,
    })
}

/// Copies answers to the front of a buffer, and returns the number of bytes in the answers. The answers must fit into
/// the buffer.
pub fn copy_to_front(buffer: &mut [u8], answers: &[u8]) -> usize
    requires room { length answers.now ≤ length buffer.old }
    ensures count { result ≡ length answers.now }
    ensures answers { take result buffer.new ≡ answers.now }
    ensures rest { drop result buffer.new ≡ drop result buffer.old }
{
    let count = answers.len();
    buffer[..count].copy_from_slice(answers);
    count
}

/// Resumes the session in a file, and executes the input lines. Writes the answers to the front of the buffer
/// `answers`, and copies the session's disk back to the file.
///
/// The call does all of this or nothing. It fails if the bytes do not hold a session (refusals 50 and 51), if memory
/// runs out (refusal 90), or if the answers do not fit. The file and the buffer are then unchanged.
pub fn serve(
    alloc: Global,
    file: &mut [u8],
    input: &[u8],
    answers: &mut [u8],
) -> Result<ServedInput, ServeFault>
    ensures served { IfOk result (λ served.
        AnswersInBuffer file.old input.now served.end served.count
        answers.old answers.new file.new) }
    ensures refused { IfErr result (λ why.
        IsServeFault why file.old input.now (length answers.old)) }
    ensures unchanged { OnErr result ((file.new ≡ file.old) × (answers.new ≡ answers.old)) }
{
    let ServedSession {
        session,
        end,
        output,
    } = match serve_copy(alloc, file, input, answers.len()) {
        Ok(answered) => answered,
        Err(why) => return Err(why),
    };
    write_back(&session.into_disk(), file);
    let count = copy_to_front(answers, &output);
    Ok(ServedInput { end, count })
}

/// Executes input as [`serve`] does, and then replaces the records of the file with a snapshot, as [`settle`] does.
/// Opening the file then replays no commands.
///
/// The call does all of this or nothing. It fails in the same cases as [`serve`].
pub fn serve_and_settle(
    alloc: Global,
    file: &mut [u8],
    input: &[u8],
    answers: &mut [u8],
) -> Result<ServedInput, ServeFault>
    ensures served { IfOk result (λ served. AnswersAndSettles file.old input.now served.end
        served.count answers.old answers.new file.new) }
    ensures refused { IfErr result (λ why.
        IsServeFault why file.old input.now (length answers.old)) }
    ensures unchanged { OnErr result ((file.new ≡ file.old) × (answers.new ≡ answers.old)) }
{
    let ServedSession {
        session,
        end,
        output,
    } = match serve_copy(alloc, file, input, answers.len()) {
        Ok(answered) => answered,
        Err(why) => return Err(why),
    };
    snapshot_into(session, file);
    let count = copy_to_front(answers, &output);
    Ok(ServedInput { end, count })
}

/// Answers input as [`serve`] would, but leaves the file unchanged. Fails in the same cases as [`serve`], and then
/// leaves the buffer unchanged.
pub fn ask(
    alloc: Global,
    file: &[u8],
    input: &[u8],
    answers: &mut [u8],
) -> Result<ServedInput, ServeFault>
    ensures served { IfOk result (λ served. WouldAnswer file.now input.now served.end served.count
        answers.old answers.new) }
    ensures refused { IfErr result (λ why.
        IsServeFault why file.now input.now (length answers.old)) }
    ensures unchanged { OnErr result (answers.new ≡ answers.old) }
{
    let ServedSession {
        session: _,
        end,
        output,
    } = match serve_copy(alloc, file, input, answers.len()) {
        Ok(answered) => answered,
        Err(why) => return Err(why),
    };
    let count = copy_to_front(answers, &output);
    Ok(ServedInput { end, count })
}

/// Replaces the records of a session file with a snapshot. The file still represents the same state, and opening it
/// then replays no commands. Fails if the bytes do not hold a session (refusals 50 and 51) or if memory runs out
/// (refusal 90). The file is then unchanged.
pub fn settle(alloc: Global, file: &mut [u8]) -> Result<(), StoreFault>
    ensures settled { OnOk result (RepresentsSameState file.old file.new) }
    ensures refused { IfErr result (λ fault. IsFileRefused fault file.old) }
    ensures unchanged { OnErr result (file.new ≡ file.old) }
{
    let session = match resume(alloc, file) {
        Ok(session) => session,
        Err(fault) => return Err(fault),
    };
    snapshot_into(session, file);
    Ok(())
}

//! The shell. It reads lines, executes their requests, and writes the answers.
ghost use Rattle.std.specs.Prelude.{◌≡◌, ◌<◌, ◌≤◌, [], true, take, length, IfOk, OnErr};
ghost use Rattle.std.specs.Result.{result_err};
ghost use Rattle.std.specs.Io.KnownBytes.{Keeps};
ghost use Rattle.mcs_shell.specs.Faults.{CountsKnownFault, CountsMatchEnd, write_faults_after};
ghost use Rattle.mcs_shell.specs.LineFeeds.{HasNoFeed};
ghost use Rattle.mcs_shell.specs.ShellState.{shell_state};
ghost use Rattle.mcs_shell.specs.Shell.{RanShell, RanShellGiven, ReadBytes};
ghost use Rattle.mcs_shell.specs.ServedPieces.{IsIntact};
ghost use Rattle.mcs_shell.specs.Serving.{ServesInputs};
ghost use Rattle.mcs_shell.specs.UnfinishedInputView.{inputs_after};

use crate::answer::Answer;
use crate::ends::ShellEnd;
use crate::sending::WriteStopped;
use crate::serving::{end_line, serve_chunk, serve_unfinished_text};
use crate::streams::{AnswerSink, InputSource, ReadFailed};
use crate::unfinished::UnfinishedInput;
use mcs_disk::Disk;
use mcs_model::limits::INPUT_BYTES;
use mcs_session::session::Session;
use std::alloc::Global;

/// The maximum number of bytes that the shell requests in one read.
const CHUNK_BYTES: usize = 4_096;

/// Reads at most `max_count` bytes into the front of the buffer and returns their number. Returns 0 only if input has
/// ended. Fails if the read fails.
fn read_some<R: InputSource>(
    reader: &mut R,
    buffer: &mut [u8],
    max_count: usize,
) -> Result<usize, ReadFailed>
    requires not_zero { 0 < max_count }
    requires room { max_count ≤ length buffer.old }
    ensures ok { IfOk result (λ n.
        ReadBytes n max_count (R.remaining reader.old) (R.remaining reader.new) (take n buffer.new)) }
    ensures err { OnErr result (Keeps (R.remaining reader.old) (R.remaining reader.new)) }
    ensures counted { CountsKnownFault (R.faults reader.old) (R.faults reader.new) result }
{
    reader.read_some(&mut buffer[..max_count])
}

/// Answers the open text, if there is one, with refusal 15, because input has ended inside the text. The unfinished
/// line must be empty. Fails with the reason why the shell ends, if the answer cannot be written.
fn finish_text<W: AnswerSink, D: Disk + Drop>(
    unfinished: &UnfinishedInput,
    writer: &mut W,
    session: &mut Session<D>,
) -> Result<(), ShellEnd>
    requires { length unfinished.now.line ≡ 0 }
    ensures served { ServesInputs IsIntact (inputs_after unfinished.now [] true)
        (shell_state D.state session.old (W.contents writer.old))
        (shell_state D.state session.new (W.contents writer.new)) (result_err result) }
    ensures counted { W.faults writer.new ≡ write_faults_after (result_err result) (W.faults writer.old) }
{
    match unfinished.text() {
        None => Ok(()),
        Some(_) => serve_unfinished_text(writer, session),
    }
}

/// Serves the unfinished line and the open text after input has ended. Fails with the reason why the shell ends, if a
/// write or the device fails.
fn finish<W: AnswerSink, D: Disk + Drop>(
    alloc: Global,
    unfinished: &mut UnfinishedInput,
    writer: &mut W,
    session: &mut Session<D>,
) -> Result<(), ShellEnd>
    requires { HasNoFeed unfinished.old.line }
    ensures served { ServesInputs IsIntact (inputs_after unfinished.old [] true)
        (shell_state D.state session.old (W.contents writer.old))
        (shell_state D.state session.new (W.contents writer.new)) (result_err result) }
    ensures counted { W.faults writer.new ≡ write_faults_after (result_err result) (W.faults writer.old) }
{
    if unfinished.line().is_empty() {
        return finish_text(unfinished, writer, session);
    }
    match end_line(alloc, unfinished, writer, session) {
        Ok(()) => finish_text(unfinished, writer, session),
        Err(end) => Err(end),
    }
}

/// Reads chunks of input, and serves each chunk, until the shell ends. Returns the reason for the end of the shell.
fn run_loop<R: InputSource, W: AnswerSink, D: Disk + Drop>(
    alloc: Global,
    buffer: &mut [u8],
    reader: &mut R,
    writer: &mut W,
    session: &mut Session<D>,
) -> ShellEnd
    requires not_empty { 0 < length buffer.old }
    requires chunk { length buffer.old ≤ CHUNK_BYTES }
    ensures ran { RanShellGiven IsIntact [] result (R.remaining reader.old) (R.remaining reader.new)
        (shell_state D.state session.old (W.contents writer.old))
        (shell_state D.state session.new (W.contents writer.new)) }
    ensures counted { CountsMatchEnd result (R.faults reader.old) (R.faults reader.new)
        (W.faults writer.old) (W.faults writer.new) }
{
    let mut unfinished = UnfinishedInput::new();
    let mut total = 0;
    while total < INPUT_BYTES {
        let max_count = buffer.len().min(INPUT_BYTES - total);
        match read_some(reader, buffer, max_count) {
            Err(ReadFailed) => return ShellEnd::ReadFault,
            Ok(0) => {
                return match finish(alloc, &mut unfinished, writer, session) {
                    Ok(()) => ShellEnd::End,
                    Err(end) => end,
                };
            }
            Ok(count) => match serve_chunk(
                alloc,
                &buffer[..count],
                &mut unfinished,
                writer,
                session,
            ) {
                Ok(()) => total += count,
                Err(end) => return end,
            },
        }
    }
    ShellEnd::InputLimit
}

/// Serves the lines of a reader on a session until input ends, a read, a write or the device fails, or the input limit
/// is reached. Returns the reason for the end of the shell.
///
/// The shell records each accepted command before it writes the command's answer. The computer can stop at any moment.
/// If the session was open on an honest disk, a session that is opened afterwards has executed a prefix of the accepted
/// commands. The prefix includes each acknowledged command.
pub fn run_shell<R: InputSource, W: AnswerSink, D: Disk + Drop>(
    alloc: Global,
    reader: &mut R,
    writer: &mut W,
    session: &mut Session<D>,
) -> ShellEnd
    ensures ran { RanShell result (R.remaining reader.old) (R.remaining reader.new)
        (shell_state D.state session.old (W.contents writer.old))
        (shell_state D.state session.new (W.contents writer.new)) }
    ensures counted { CountsMatchEnd result (R.faults reader.old) (R.faults reader.new)
        (W.faults writer.old) (W.faults writer.new) }
{
    let seq = session.bench().seq();
    let Ok(mut buffer) = vec![in alloc; 0u8; CHUNK_BYTES] else {
        return ShellEnd::NoMemory;
    };
    let mut first_line = Answer::new();
    first_line.set_number(b"session ", seq);
    match first_line.send(session, writer) {
        Err(WriteStopped) => ShellEnd::WriteFault,
        Ok(()) => run_loop(alloc, buffer.as_mut_slice(), reader, writer, session),
    }
}

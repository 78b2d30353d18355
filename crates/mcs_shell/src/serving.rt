//! Functions that serve input line by line, while the input arrives in chunks.
ghost use Rattle.std.specs.Prelude.{◌≡◌, ◌∷◌, ◌++◌, Bool, [], MatchOption, OnOk, length};
ghost use Rattle.std.specs.Result.{result_err};
ghost use Rattle.mcs_shell.specs.declared.texts.TextFault.TheVariants.{NoEnd};
ghost use Rattle.mcs_shell.specs.LineFeeds.{HasNoFeed};
ghost use Rattle.mcs_shell.specs.Inputs.{BadText, Line, input_of_text};
ghost use Rattle.mcs_shell.specs.ShellState.{shell_state};
ghost use Rattle.mcs_shell.specs.Serving.{ServesInputs, WroteBytes};
ghost use Rattle.mcs_shell.specs.ServedPieces.{IsIntact, ServesBytes};
ghost use Rattle.mcs_shell.specs.Answers.{MayAnswer};
ghost use Rattle.mcs_shell.specs.Faults.{write_faults_after};
ghost use Rattle.mcs_shell.specs.Transcript.{end_caused_by};

use crate::answer::Answer;
use crate::answering::{answer_request, answer_text};
use crate::ends::{Outcome, ShellEnd};
use crate::sending::WriteStopped;
use crate::streams::AnswerSink;
use crate::texts::{TextFault, ends_text};
use crate::unfinished::UnfinishedInput;
use mcs_disk::Disk;
use mcs_lines::requests::{Request, TextKind, parse_request};
use mcs_model::text_lines::without_carriage_return;
use mcs_session::session::Session;
use std::alloc::Global;

/// Writes the answer to an input. `outcome` is the outcome of the input, and `session` is the
/// session after the input. Fails with the reason why the shell ends, if the write failed or the
/// outcome is `Device`.
fn deliver<W: AnswerSink, D: Disk + Drop>(
    outcome: Outcome,
    answer: &Answer,
    writer: &mut W,
    session: &Session<D>,
) -> Result<(), ShellEnd>
    requires { MayAnswer D.state session.now answer.now }
    ensures wrote { (whole : Bool)
        × WroteBytes whole (W.contents writer.old) (W.contents writer.new) answer.now
        × (result_err result ≡ end_caused_by whole outcome) }
    ensures counted { W.faults writer.new ≡ write_faults_after (result_err result) (W.faults writer.old) }
{
    match answer.send(session, writer) {
        Err(WriteStopped) => Err(ShellEnd::WriteFault),
        Ok(()) => match outcome {
            Outcome::Device => Err(ShellEnd::DeviceFault),
            _ => Ok(()),
        },
    }
}

/// Serves a line outside a text: executes its request, then writes the answer. Fails with the reason why the shell
/// ends, if a write or the device fails.
fn serve_request<W: AnswerSink, D: Disk + Drop>(
    alloc: Global,
    request: Request,
    writer: &mut W,
    session: &mut Session<D>,
) -> Result<(), ShellEnd>
    ensures served { ServesInputs IsIntact (Line request ∷ [])
        (shell_state D.state session.old (W.contents writer.old))
        (shell_state D.state session.new (W.contents writer.new)) (result_err result) }
    ensures counted { W.faults writer.new ≡ write_faults_after (result_err result) (W.faults writer.old) }
{
    let _before = session.bench();
    let mut answer = Answer::new();
    let outcome = answer_request(alloc, &request, session, &mut answer);
    let _bench = session.bench();
    deliver(outcome, &answer, writer, session)
}

/// Serves a complete text: executes its command, if it has one, then writes the answer. Fails with the reason why the
/// shell ends, if a write or the device fails.
fn serve_text<W: AnswerSink, D: Disk + Drop>(
    alloc: Global,
    kind: TextKind,
    text: &[u8],
    writer: &mut W,
    session: &mut Session<D>,
) -> Result<(), ShellEnd>
    ensures served { ServesInputs IsIntact (input_of_text kind text.now ∷ [])
        (shell_state D.state session.old (W.contents writer.old))
        (shell_state D.state session.new (W.contents writer.new)) (result_err result) }
    ensures counted { W.faults writer.new ≡ write_faults_after (result_err result) (W.faults writer.old) }
{
    let _before = session.bench();
    let mut answer = Answer::new();
    let outcome = answer_text(alloc, kind, text, session, &mut answer);
    let _bench = session.bench();
    deliver(outcome, &answer, writer, session)
}

/// Answers an open text with refusal 15, because input ended inside the text. Fails with the reason why the shell ends,
/// if the write fails.
pub(crate) fn serve_unfinished_text<W: AnswerSink, D: Disk + Drop>(
    writer: &mut W,
    session: &mut Session<D>,
) -> Result<(), ShellEnd>
    ensures served { ServesInputs IsIntact (BadText NoEnd ∷ [])
        (shell_state D.state session.old (W.contents writer.old))
        (shell_state D.state session.new (W.contents writer.new)) (result_err result) }
    ensures counted { W.faults writer.new ≡ write_faults_after (result_err result) (W.faults writer.old) }
{
    let mut answer = Answer::new();
    answer.set_refusal(TextFault::NoEnd.number());
    let _bench = session.bench();
    deliver(Outcome::Answered, &answer, writer, session)
}

/// Ends the unfinished line, as a line feed would. If the line completes an input, serves that input. Fails with the
/// reason why the shell ends, if a write or the device fails.
pub(crate) fn end_line<W: AnswerSink, D: Disk + Drop>(
    alloc: Global,
    unfinished: &mut UnfinishedInput,
    writer: &mut W,
    session: &mut Session<D>,
) -> Result<(), ShellEnd>
    requires { HasNoFeed unfinished.old.line }
    ensures fed { ServesBytes (shell_state D.state session.old (W.contents writer.old))
        (shell_state D.state session.new (W.contents writer.new))
        unfinished.old unfinished.new (10 ∷ []) (result_err result) }
    ensures counted { W.faults writer.new ≡ write_faults_after (result_err result) (W.faults writer.old) }
    ensures empty { OnOk result (length unfinished.new.line ≡ 0) }
{
    let line = without_carriage_return(unfinished.line());
    match unfinished.text() {
        None => match parse_request(line) {
            Request::Begin(kind) => {
                unfinished.open(kind);
                Ok(())
            }
            request => match serve_request(alloc, request, writer, session) {
                Ok(()) => {
                    unfinished.clear();
                    Ok(())
                }
                Err(end) => Err(end),
            },
        },
        Some((kind, text)) => {
            if ends_text(line) {
                match serve_text(alloc, kind, text, writer, session) {
                    Ok(()) => {
                        unfinished.clear();
                        Ok(())
                    }
                    Err(end) => Err(end),
                }
            } else {
                unfinished.end_line();
                Ok(())
            }
        }
    }
}

/// Returns the bytes before and after the first line feed, or `None` if there is no line feed.
fn split_line(bytes: &[u8]) -> Option<(&[u8], &[u8])>
    ensures { MatchOption result (HasNoFeed bytes.now) (λ p.
        HasNoFeed p.0.now × (bytes.now ≡ p.0.now ++ 10 ∷ p.1.now)) }
{
    for (at, byte) in bytes.iter().enumerate() {
        if *byte == b'\n' {
            return Some((&bytes[..at], &bytes[at + 1..]));
        }
    }
    None
}

/// Serves the bytes of a chunk, which continue the unfinished line and the open text. The bytes after the last line
/// feed become the unfinished line. Fails with the reason why the shell ends, if a write or the device fails.
pub(crate) fn serve_chunk<W: AnswerSink, D: Disk + Drop>(
    alloc: Global,
    chunk: &[u8],
    unfinished: &mut UnfinishedInput,
    writer: &mut W,
    session: &mut Session<D>,
) -> Result<(), ShellEnd>
    requires { HasNoFeed unfinished.old.line }
    ensures fed { ServesBytes (shell_state D.state session.old (W.contents writer.old))
        (shell_state D.state session.new (W.contents writer.new))
        unfinished.old unfinished.new chunk.now (result_err result) }
    ensures counted { W.faults writer.new ≡ write_faults_after (result_err result) (W.faults writer.old) }
{
    let mut rest = chunk;
    while let Some((front, back)) = split_line(rest) {
        unfinished.append_to_line(front);
        match end_line(alloc, unfinished, writer, session) {
            Ok(()) => {}
            Err(end) => return Err(end),
        }
        rest = back;
    }
    unfinished.append_to_line(rest);
    Ok(())
}

//! Functions that execute an input on a session and store the answer to the input.
ghost use Rattle.std.specs.Prelude.{◌≡◌, [], OnErr, OnOk};
ghost use Rattle.mcs_answers.specs.AnswerTexts.{no_text};
ghost use Rattle.mcs_lines.specs.declared.requests.Request.TheVariants.{Change};
ghost use Rattle.mcs_model.specs.declared.refusal_numbers.TheConstants.{NO_MEMORY};
ghost use Rattle.mcs_session.specs.SessionState.{session_state};
ghost use Rattle.mcs_shell.specs.Inputs.{Line, input_of_text};
ghost use Rattle.mcs_shell.specs.ServedPieces.{AnsweredInput, outcome_of};

use crate::answer::Answer;
use crate::ends::Outcome;
use crate::faults::number_of_session_fault;
use crate::texts::{TextMeaning, as_text, read_text, text_fault};
use mcs_disk::Disk;
use mcs_lines::requests::{Request, TextKind};
use mcs_model::command::Command;
use mcs_model::refusal_numbers;
use mcs_session::fault::SessionFault;
use mcs_session::session::Session;
use std::alloc::{AllocError, Global};

/// Returns the outcome of an input whose command was not recorded, given the session's error.
fn outcome_of(fault: SessionFault) -> Outcome
    ensures { result ≡ outcome_of fault }
{
    match fault {
        SessionFault::Refused(_) => Outcome::Answered,
        SessionFault::Device => Outcome::Device,
        SessionFault::Closed => Outcome::Closed,
    }
}

/// Executes a command on a session and stores the answer to the command: `ok` or a refusal. Returns
/// the outcome.
fn answer_change<D: Disk + Drop>(
    command: &Command,
    session: &mut Session<D>,
    answer: &mut Answer,
) -> Outcome
    ensures { AnsweredInput (session_state D.state session.old) (Line (Change command.now)) result
        answer.new (session_state D.state session.new) }
{
    match session.apply(command) {
        Ok(reply) => {
            answer.set_reply(&reply, session.bench());
            Outcome::Answered
        }
        Err(fault) => {
            answer.set_refusal(number_of_session_fault(fault));
            outcome_of(fault)
        }
    }
}

/// Returns the outcome of a request whose answer needs memory. `set_result` is the result of the call that
/// stored `answer`. If an allocation failed in that call, stores the refusal `NO_MEMORY` (90) as
/// the answer.
fn outcome_of_allocation(set_result: Result<(), AllocError>, answer: &mut Answer) -> Outcome
    ensures answered { OnOk set_result ((result ≡ Outcome.Answered) × (answer.new ≡ answer.old)) }
    ensures refused { OnErr set_result ((result ≡ Outcome.NoMemory) × (answer.new ≡ no_text NO_MEMORY)) }
{
    match set_result {
        Ok(()) => Outcome::Answered,
        Err(_) => {
            answer.set_refusal(refusal_numbers::NO_MEMORY);
            Outcome::NoMemory
        }
    }
}

/// Executes the request of a line outside a text, stores the answer, and returns the outcome. The
/// answer must be empty before the call. The answer stays empty for a line without a request and
/// for a line that begins a text.
pub(crate) fn answer_request<D: Disk + Drop>(
    alloc: Global,
    request: &Request,
    session: &mut Session<D>,
    answer: &mut Answer,
) -> Outcome
    requires { answer.old ≡ [] }
    ensures { AnsweredInput (session_state D.state session.old) (Line request.now) result
        answer.new (session_state D.state session.new) }
{
    match request {
        Request::Nothing => Outcome::Answered,
        Request::Refused(fault) => {
            answer.set_refusal(fault.number());
            Outcome::Answered
        }
        Request::Ask(query) => {
            answer.set_query(*query, session.bench());
            Outcome::Answered
        }
        Request::Listing(from, lines) => {
            let set_result = answer.set_listing(alloc, *from, *lines, session.bench());
            outcome_of_allocation(set_result, answer)
        }
        Request::Board => {
            let set_result = answer.set_board(alloc, session.bench());
            outcome_of_allocation(set_result, answer)
        }
        Request::Count(n) => {
            let set_result = answer.set_count(alloc, *n, session.bench());
            outcome_of_allocation(set_result, answer)
        }
        Request::Trace(n, probes) => {
            let set_result = answer.set_trace(alloc, *n, probes.as_slice(), session.bench());
            outcome_of_allocation(set_result, answer)
        }
        Request::Change(command) => answer_change(command, session, answer),
        Request::Begin(_) => Outcome::Answered,
    }
}

/// Parses a complete text, executes its command, if it has one, and stores the answer. Returns the
/// outcome.
pub(crate) fn answer_text<D: Disk + Drop>(
    alloc: Global,
    kind: TextKind,
    text: &[u8],
    session: &mut Session<D>,
    answer: &mut Answer,
) -> Outcome
    ensures { AnsweredInput (session_state D.state session.old) (input_of_text kind text.now) result
        answer.new (session_state D.state session.new) }
{
    if let Some(fault) = text_fault(text) {
        answer.set_refusal(fault.number());
        return Outcome::Answered;
    }
    match read_text(alloc, kind, as_text(text)) {
        Ok(Ok(TextMeaning::Executes(command))) => answer_change(&command, session, answer),
        Ok(Ok(TextMeaning::Reports(lines))) => {
            answer.set_lines(lines);
            Outcome::Answered
        }
        Ok(Err(refusal)) => {
            answer.set_text_refusal(refusal);
            Outcome::Answered
        }
        Err(AllocError) => {
            answer.set_refusal(refusal_numbers::NO_MEMORY);
            Outcome::NoMemory
        }
    }
}

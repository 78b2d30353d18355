//! The program. It reads the arguments, opens the file, begins the session, runs the shell, and returns the exit
//! status.
ghost use Rattle.std.specs.Prelude.{◌≡◌, ◌⊎◌, IfOk, IfErr, IfSome, IfNone, IsErrAnd, IsSomeAnd, OnErr, None, true, map};
ghost use Rattle.std.specs.Process.{exit_status};
ghost use Rattle.mcs_host.specs.CommandLine.{choice_in, accepts_arguments};
ghost use Rattle.mcs_host.specs.Ending.{as_disk};
ghost use Rattle.mcs_host.specs.FileDisk.{HasNoCalls};
ghost use Rattle.mcs_host.specs.declared.file_disk.FileDisk.{FileDisk};
ghost use Rattle.mcs_host.specs.declared.file_fault.FileFault.{FileFault};
ghost use Rattle.mcs_shell.specs.Faults.{streams_view};
ghost use Rattle.mcs_shell.specs.Program.{IsBegunOn, IsChoiceRefused, RanWithStreams, ServedChosenSession, ServedBySomeArguments, ServedSession};
ghost use Rattle.mcs_shell.specs.RefusalNumbers.{begin_fault_number};
ghost use Rattle.mcs_shell.specs.Shell.{exit_status_of};

use crate::ends::{ShellEnd, status};
use crate::faults::BeginFault;
use crate::messages::{
    Refusal, print_end_reason, print_name_warning, print_no_memory, print_session_refusal,
    print_streams_refusal, print_usage,
};
use crate::shell::run_shell;
use crate::streams::{AnswerSink, InputSource};
use mcs_disk::Disk;
use mcs_host::{
    ArgumentsFault, Choice, FileDisk, FileFault, StandIns, Streams, StreamsError, choice,
};
use mcs_model::refusal_numbers;
use mcs_session::session::Session;
use std::alloc::Global;
use std::convert::AsStr;
use std::env;
use std::io::ErrorKind;
use std::process::ExitCode;

/// The exit status if the arguments are invalid.
const WRONG_ARGUMENTS_STATUS: u8 = 2;

/// The exit status if no session begins or no shell runs, although the arguments are valid.
const REFUSED_STATUS: u8 = 3;

/// Returns the command-line arguments, with the program's name first. An argument that is not valid UTF-8 is a usage
/// error.
fn command_line_arguments(rt: &HostRuntime) -> Result<Vec<String>, ArgumentsFault> {
    match env::args(rt) {
        Ok(arguments) => Ok(arguments.collect(rt.alloc())?),
        Err(error) if error.kind() == ErrorKind::InvalidData => Err(ArgumentsFault::Usage),
        Err(_) => Err(ArgumentsFault::NoMemory),
    }
}

/// Prints the line `no NN` with the refusal number, and returns exit status 3. The exit status is the same if
/// standard output cannot be written.
pub fn refuse(rt: &HostRuntime, number: u8) -> ExitCode
    ensures { exit_status result ≡ 3 }
{
    let _ = println!(rt; "no {number}");
    ExitCode::from(REFUSED_STATUS)
}

/// Prints the line `no NN` with the refusal number, unless standard output is unusable. Returns exit status 3 in both
/// cases.
fn refuse_on_usable_output(rt: &HostRuntime, number: u8, unusable: Streams) -> ExitCode
    ensures { exit_status result ≡ 3 }
{
    if unusable.output {
        ExitCode::from(REFUSED_STATUS)
    } else {
        refuse(rt, number)
    }
}

/// Prints `no NN` and the reason why the program cannot run with these standard streams, and returns exit status 3.
/// Writes nothing to a stream that may be a session file.
pub fn refuse_streams(rt: &HostRuntime, error: StreamsError) -> ExitCode
    ensures { exit_status result ≡ 3 }
{
    let status = refuse_on_usable_output(rt, refusal_numbers::DEVICE, error.unusable);
    print_streams_refusal(rt, error);
    status
}

/// Reports an error in the arguments. If the arguments are invalid, prints the usage and returns exit status 2. If
/// there was no memory to read them, prints `no 90` and a message, and returns exit status 3. The exit status is the
/// same if the report cannot be written.
pub fn refuse_arguments(rt: &HostRuntime, fault: ArgumentsFault) -> ExitCode
    ensures usage { fault ≡ ArgumentsFault.Usage → exit_status result ≡ 2 }
    ensures no_memory { fault ≡ ArgumentsFault.NoMemory → exit_status result ≡ 3 }
{
    match fault {
        ArgumentsFault::Usage => {
            print_usage(rt);
            ExitCode::from(WRONG_ARGUMENTS_STATUS)
        }
        ArgumentsFault::NoMemory => {
            let status = refuse(rt, refusal_numbers::NO_MEMORY);
            print_no_memory(rt);
            status
        }
    }
}

/// The error for a session that did not begin.
#[derive(Drop)]
pub struct BeginFailure<D: Disk + Drop> {
    /// The reason why no session began.
    pub fault: BeginFault,
    /// The disk that was opened for the session, as the failed call left it, or `None` if no disk
    /// was opened.
    pub disk: Option<D>,
}

/// Creates or opens a session, as `choice` requests. `open_result` is the disk that was opened for the chosen file, or
/// the error if no disk was opened. Fails with the reason if no session began.
pub fn begin_session_on<D: Disk + Drop>(
    alloc: Global,
    choice: &Choice,
    open_result: Result<D, FileFault>,
) -> Result<Session<D>, BeginFailure<D>>
    ensures begun { IfOk open_result (λ disk. IfOk result (λ session.
        IsBegunOn D.state choice.now disk session)) }
    ensures refused { IfOk open_result (λ disk. IfErr result (λ refused.
        IsSomeAnd refused.disk (λ left. IsChoiceRefused choice.now (D.state disk) (D.state left)
        (begin_fault_number refused.fault)))) }
    ensures unopened { IfErr open_result (λ fault.
        IsErrAnd result (λ refused. refused.fault ≡ BeginFault.File fault)) }
{
    let disk = match open_result {
        Ok(disk) => disk,
        Err(fault) => {
            return Err(BeginFailure {
                fault: BeginFault::File(fault),
                disk: None,
            });
        }
    };
    match choice {
        Choice::New(_) => match Session::create(alloc, disk) {
            Ok(session) => Ok(session),
            Err((fault, left)) => Err(BeginFailure {
                fault: BeginFault::Create(fault),
                disk: Some(left),
            }),
        },
        Choice::Open(_) => match Session::open(alloc, disk) {
            Ok(session) => Ok(session),
            Err((fault, left)) => Err(BeginFailure {
                fault: BeginFault::Open(fault),
                disk: Some(left),
            }),
        },
    }
}

/// Creates or opens the session in the chosen file. Prints a warning if the file's folder was not synced. Fails with
/// the reason if no session began.
pub fn begin_session_in(
    rt: &HostRuntime,
    choice: &Choice,
) -> Result<Session<FileDisk>, BeginFailure<FileDisk>>
    ensures begun { IfOk result (λ session. (disk : FileDisk) × HasNoCalls (as_disk disk)
        × IsBegunOn as_disk choice.now disk session) }
    ensures refused { IfErr result (λ refused.
        ((fault : FileFault) × (refused.fault ≡ BeginFault.File fault))
        ⊎ ((disk : FileDisk) × HasNoCalls (as_disk disk)
        × IsSomeAnd refused.disk (λ left. IsChoiceRefused choice.now (as_disk disk) (as_disk left)
        (begin_fault_number refused.fault)))) }
{
    let alloc = rt.alloc();
    let creates_file = matches!(choice, Choice::New(_));
    let open_result = FileDisk::open_at(rt, alloc, choice.file(), creates_file);
    print_name_warning(rt, choice.file(), &open_result);
    begin_session_on(alloc, choice, open_result)
}

/// Serves a session with a reader and a writer. Returns the reason for the end of the shell, and the exit status.
/// Prints `no 90` if the shell could not allocate its buffer.
pub fn serve<R: InputSource, W: AnswerSink, D: Disk + Drop>(
    rt: &HostRuntime,
    reader: &mut R,
    writer: &mut W,
    session: &mut Session<D>,
) -> (ShellEnd, ExitCode)
    ensures ran { RanWithStreams D.state result.0
        (streams_view R.remaining R.faults W.contents W.faults reader.old writer.old)
        (streams_view R.remaining R.faults W.contents W.faults reader.new writer.new)
        session.old session.new }
    ensures status { exit_status result.1 ≡ exit_status_of result.0 }
{
    let end = run_shell(rt.alloc(), reader, writer, session);
    match end {
        ShellEnd::NoMemory => (end, refuse(rt, refusal_numbers::NO_MEMORY)),
        _ => (end, ExitCode::from(status(end))),
    }
}

/// The result of a run of the program.
#[derive(Drop)]
pub struct ProgramResult<D: Disk + Drop> {
    /// The exit status.
    pub status: ExitCode,
    /// The session that was served, as its shell left it, or `None` if no session began.
    pub session: Option<Session<D>>,
    /// The reason for the end of the session's shell, or `None` if no shell ran.
    pub end: Option<ShellEnd>,
}

/// Serves the session that began, with a reader and a writer. If no session began, prints the refusal number, unless
/// standard output is the session's file, and returns exit status 3.
pub fn serve_if_begun<R: InputSource, W: AnswerSink, D: Disk + Drop>(
    rt: &HostRuntime,
    reader: &mut R,
    writer: &mut W,
    begin_result: Result<Session<D>, BeginFailure<D>>,
) -> ProgramResult<D>
    ensures served { IfOk begin_result (λ before. IsSomeAnd result.session (λ after.
        ServedSession D.state (exit_status result.status)
        (streams_view R.remaining R.faults W.contents W.faults reader.old writer.old)
        (streams_view R.remaining R.faults W.contents W.faults reader.new writer.new)
        before after)) }
    ensures refused { OnErr begin_result (exit_status result.status ≡ 3) }
    ensures unserved { OnErr begin_result (result.session ≡ None) }
    ensures unread { OnErr begin_result (R.remaining reader.new ≡ R.remaining reader.old) }
    ensures unwritten { OnErr begin_result (W.contents writer.new ≡ W.contents writer.old) }
{
    match begin_result {
        Ok(mut session) => {
            let (end, status) = serve(rt, reader, writer, &mut session);
            ProgramResult {
                status,
                session: Some(session),
                end: Some(end),
            }
        }
        Err(failure) => {
            let fault = failure.fault;
            ProgramResult {
                status: refuse_on_usable_output(rt, fault.number(), fault.streams()),
                session: None,
                end: None,
            }
        }
    }
}

/// Returns the reason why no session began, with the facts that the message needs, or `None` if a
/// session began.
fn refusal_of(begin_result: &Result<Session<FileDisk>, BeginFailure<FileDisk>>) -> Option<Refusal> {
    match begin_result {
        Ok(_) => None,
        Err(failure) => Some(Refusal {
            fault: failure.fault,
            is_full: match &failure.disk {
                Some(disk) => disk.is_full(),
                None => false,
            },
            is_named_session: match &failure.disk {
                Some(disk) => disk.is_named_session(),
                None => false,
            },
        }),
    }
}

/// Returns the reason for the end of the shell, and a Bool that is true if the session's device is full. Returns `None`
/// if no shell ran.
fn shell_end_of(program_result: &ProgramResult<FileDisk>) -> Option<(ShellEnd, bool)> {
    match (program_result.end, &program_result.session) {
        (Some(end), Some(session)) => Some((end, session.disk().is_full())),
        _ => None,
    }
}

/// Runs the program with the given arguments, a reader and a writer. The first argument is the program's name. If no
/// session begins, the exit status is 2 (invalid arguments) or 3. In that case, the program reads nothing from the
/// reader and writes nothing to the writer.
pub fn run_arguments<S: AsStr, R: InputSource, W: AnswerSink>(
    rt: &HostRuntime,
    arguments: &[S],
    reader: &mut R,
    writer: &mut W,
) -> ProgramResult<FileDisk>
    ensures usage { exit_status result.status ≡ 2
        → accepts_arguments (map S.text arguments.entry.now) ≡ true
        → choice_in (map S.text arguments.entry.now) ≡ None }
    ensures served { IfSome result.session (λ after. ServedChosenSession as_disk
        (choice_in (map S.text arguments.entry.now)) (exit_status result.status)
        (streams_view R.remaining R.faults W.contents W.faults reader.old writer.old)
        (streams_view R.remaining R.faults W.contents W.faults reader.new writer.new)
        after) }
    ensures unserved { IfNone result.session
        ((exit_status result.status ≡ 2) ⊎ (exit_status result.status ≡ 3)) }
    ensures unread { IfNone result.session
        (R.remaining reader.new ≡ R.remaining reader.old) }
    ensures unwritten { IfNone result.session
        (W.contents writer.new ≡ W.contents writer.old) }
{
    let choice = match choice(rt.alloc(), arguments) {
        Ok(choice) => choice,
        Err(fault) => {
            return ProgramResult {
                status: refuse_arguments(rt, fault),
                session: None,
                end: None,
            };
        }
    };
    let begin_result = begin_session_in(rt, &choice);
    let refusal = refusal_of(&begin_result);
    let program_result = serve_if_begun(rt, reader, writer, begin_result);
    print_session_refusal(rt, &choice, refusal);
    print_end_reason(rt, choice.file(), shell_end_of(&program_result));
    program_result
}

/// Runs the program with the command-line arguments, standard input and standard output.
fn run_command_line(rt: &HostRuntime) -> ProgramResult<FileDisk>
    ensures served { IfSome result.session (λ after.
        ServedBySomeArguments as_disk (exit_status result.status) after) }
    ensures unserved { IfNone result.session
        ((exit_status result.status ≡ 2) ⊎ (exit_status result.status ≡ 3)) }
{
    match command_line_arguments(rt) {
        Ok(arguments) => {
            let (input, output) = (&mut rt.stdin(), &mut rt.stdout());
            run_arguments(rt, arguments.as_slice(), input, output)
        }
        Err(fault) => ProgramResult {
            status: refuse_arguments(rt, fault),
            session: None,
            end: None,
        },
    }
}

/// Runs the program with the command-line arguments, standard input and standard output. Returns
/// the exit status, and the session as its shell left it. The exit status is 3 if an output stream
/// is a session file or could be one. It is also 3 if `/dev/null` cannot replace a closed stream,
/// or if a stream is not a terminal and the host does not say which file it is.
pub fn run_program(rt: &HostRuntime) -> ProgramResult<FileDisk>
    ensures served { IfSome result.session (λ after.
        ServedBySomeArguments as_disk (exit_status result.status) after) }
    ensures unserved { IfNone result.session
        ((exit_status result.status ≡ 2) ⊎ (exit_status result.status ≡ 3)) }
{
    // The stand-ins (`/dev/null`) for closed standard streams stay open until this function returns.
    let _stand_ins = match StandIns::open(rt) {
        Ok(stand_ins) => stand_ins,
        Err(error) => {
            return ProgramResult {
                status: refuse_streams(rt, error),
                session: None,
                end: None,
            };
        }
    };
    run_command_line(rt)
}

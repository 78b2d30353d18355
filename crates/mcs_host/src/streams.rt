//! The standard streams of the program. Each of them is open before any file is opened, and no
//! output goes into a session file. std does not say which file a descriptor refers to, so the
//! program asks the host about the names in /proc/self/fd. If the host does not answer, and the
//! stream is not a terminal, the program does not start.
ghost use Rattle.std.specs.Prelude.{◌≡◌, ◌≢◌, ◌⊎◌, ◌↔◌, IfErr, IfOk, IsErr, IsErrAnd, IsErrOf, IsNone, IsOk, IsTrue, Err, None, Ok, Some, false};
ghost use Rattle.std.specs.Fs.{file_type, metadata_len, IsDir, IsFile};
ghost use Rattle.mcs_host.specs.declared.file_fault.FileFault.TheVariants.{Folder, NotAFile};
ghost use Rattle.mcs_host.specs.FileFaults.{IsAbsent, IsHostFault, IsOtherFile, IsOtherNameError};
ghost use Rattle.mcs_host.specs.Streams.{no_streams};
ghost use Rattle.mcs_journal.specs.declared.format.TheConstants.{NAME};

use crate::file_fault::FileFault;
use mcs_journal::FILE_SIZE;
use std::fs::{self, File, Metadata};
use std::io::{self, ErrorKind, IsTerminal};
use std::os::fd::AsFd;
use std::os::unix::fs::{FileExt, MetadataExt};
use std::rt::Files;
use thiserror::Error;

const INPUT: &str = "/proc/self/fd/0";

const OUTPUT: &str = "/proc/self/fd/1";

const ERRORS: &str = "/proc/self/fd/2";

/// A set of standard streams of the program.
#[derive(Clone, Copy, Debug, PartialEq, Eq)]
pub struct Streams {
    /// True if the set contains standard input.
    pub input: bool,
    /// True if the set contains standard output.
    pub output: bool,
    /// True if the set contains standard error.
    pub errors: bool,
}

impl Streams {
    /// Returns the empty set of streams.
    pub fn none() -> Streams
        ensures { result ≡ no_streams }
    {
        Streams {
            input: false,
            output: false,
            errors: false,
        }
    }

    /// Returns true if the set contains at least one stream.
    pub fn any(self) -> bool
        ensures { result ≡ false ↔ self ≡ no_streams }
    {
        self.input || self.output || self.errors
    }
}

/// The reason why the program cannot start with its standard streams.
#[derive(Clone, Copy, Debug, PartialEq, Eq, Error)]
pub enum StreamsFault {
    /// Standard output or standard error is a session file, or a file of the same size that cannot
    /// be read.
    #[error("standard output or standard error is a session file")]
    IntoSession,
    /// The host does not say which file a stream refers to, for example because /proc is not
    /// mounted. The stream is not a terminal.
    #[error("the files of the standard streams are unknown")]
    Unknown,
    /// A standard stream is closed, and /dev/null cannot be opened to replace it.
    #[error("a closed standard stream has no stand-in")]
    NoStandIn,
}

/// The error that is returned if the program cannot start with its standard streams.
#[derive(Clone, Copy, Debug)]
pub struct StreamsError {
    /// The reason why the program cannot start.
    pub fault: StreamsFault,
    /// The output streams that are session files, or could be. The program must write nothing to
    /// them.
    pub unusable: Streams,
}

/// The files that replace the standard streams that were closed when the program started. While the
/// stand-ins exist, no other file gets the descriptor of a standard stream. A read from a stand-in
/// returns end of file, and a write to it fails.
#[derive(Drop)]
pub struct StandIns {
    input: Option<File>,
    output: Option<File>,
    errors: Option<File>,
}

impl StandIns {
    /// Opens a stand-in for each closed standard stream, and checks all three streams. Fails if a
    /// stand-in cannot be opened, or if an output stream is a session file or could be one. Also
    /// fails if the host does not say which file a stream is, unless the stream is a terminal.
    pub fn open(rt: &HostRuntime) -> Result<StandIns, StreamsError> {
        let opened = StandIns::open_stand_ins(rt);
        let input = stream_kind(check_stream_is_known(rt, INPUT), rt.stdin().is_terminal());
        let output = stream_kind(is_session(rt, OUTPUT), rt.stdout().is_terminal());
        let errors = stream_kind(is_session(rt, ERRORS), rt.stderr().is_terminal());
        let fault = match opened {
            Err(_) => StreamsFault::NoStandIn,
            Ok(stand_ins) => match streams_fault(input, output, errors) {
                None => return Ok(stand_ins),
                Some(fault) => fault,
            },
        };
        let unusable = unusable_outputs(output, errors);
        Err(StreamsError { fault, unusable })
    }

    // Opens the stand-ins in the order of their descriptors. The host assigns the lowest free
    // descriptor, so each stand-in gets the descriptor of the stream that it replaces.
    fn open_stand_ins(rt: &HostRuntime) -> io::Result<StandIns> {
        Ok(StandIns {
            input: stand_in(rt, &rt.stdin())?,
            output: stand_in(rt, &rt.stdout())?,
            errors: stand_in(rt, &rt.stderr())?,
        })
    }
}

// Returns a stand-in if the stream is closed, and `None` if it is open. A stream is closed if its
// descriptor cannot be duplicated.
fn stand_in<S: AsFd>(rt: &HostRuntime, stream: &S) -> io::Result<Option<File>> {
    match stream.as_fd().try_clone_to_owned() {
        Ok(_open) => Ok(None),
        Err(_) => Ok(Some(File::open(rt, "/dev/null")?)),
    }
}

/// The kind of file that a standard stream is, according to the host.
#[derive(Clone, Copy, Debug, PartialEq, Eq)]
enum StreamKind {
    /// The stream is a session file, or a file of the same size that cannot be read.
    Session,
    /// The stream is another file or a terminal. Standard input counts as `Other` even if it is a
    /// session file.
    Other,
    /// The host does not say which file the stream is, and the stream is not a terminal.
    Unknown,
}

// Returns the kind of a stream. `answer` is the host's answer to the question whether the stream is
// a session file. If the host did not answer, a terminal is `Other`, and any other stream is
// `Unknown`.
fn stream_kind(answer: io::Result<bool>, is_terminal: bool) -> StreamKind
    ensures session { IfOk answer (λ yes. IsTrue yes → result ≡ StreamKind.Session) }
    ensures other { IfOk answer (λ yes. yes ≡ false → result ≡ StreamKind.Other) }
    ensures unknown { IsErr answer → is_terminal ≡ false → result ≡ StreamKind.Unknown }
{
    match answer {
        Ok(true) => StreamKind::Session,
        Ok(false) => StreamKind::Other,
        Err(_) if is_terminal => StreamKind::Other,
        Err(_) => StreamKind::Unknown,
    }
}

// Returns the reason why the program cannot start with these streams, or `None` if the program can
// start.
fn streams_fault(input: StreamKind, output: StreamKind, errors: StreamKind) -> Option<StreamsFault>
    ensures input { IsNone result → input ≢ StreamKind.Unknown }
    ensures output { IsNone result → output ≡ StreamKind.Other }
    ensures errors { IsNone result → errors ≡ StreamKind.Other }
    ensures session { result ≡ Some StreamsFault.IntoSession
        → (output ≡ StreamKind.Session) ⊎ (errors ≡ StreamKind.Session) }
    ensures unknown { result ≡ Some StreamsFault.Unknown
        → (input ≡ StreamKind.Unknown) ⊎ (output ≡ StreamKind.Unknown) ⊎ (errors ≡ StreamKind.Unknown) }
{
    match (output, errors) {
        (StreamKind::Session, _) | (_, StreamKind::Session) => Some(StreamsFault::IntoSession),
        (StreamKind::Unknown, _) | (_, StreamKind::Unknown) => Some(StreamsFault::Unknown),
        (StreamKind::Other, StreamKind::Other) => match input {
            StreamKind::Unknown => Some(StreamsFault::Unknown),
            StreamKind::Session | StreamKind::Other => None,
        },
    }
}

// Returns the output streams that are session files, or could be.
fn unusable_outputs(output: StreamKind, errors: StreamKind) -> Streams
    ensures output { result.output ≡ false ↔ output ≡ StreamKind.Other }
    ensures errors { result.errors ≡ false ↔ errors ≡ StreamKind.Other }
{
    Streams {
        input: false,
        output: may_be_session(output),
        errors: may_be_session(errors),
    }
}

fn may_be_session(stream: StreamKind) -> bool
    ensures { result ≡ false ↔ stream ≡ StreamKind.Other }
{
    match stream {
        StreamKind::Other => false,
        StreamKind::Session | StreamKind::Unknown => true,
    }
}

// Returns false if the host says which file the stream is, and fails otherwise. The name of the
// stream in /proc/self/fd is `stream`. The result is false because standard input is allowed to be
// a session file.
fn check_stream_is_known<R: Files>(rt: &R, stream: &str) -> io::Result<bool> {
    fs::metadata(rt, stream)?;
    Ok(false)
}

// Returns true if the stream of this name is a session file, or a file of the same size that cannot
// be read. Fails if the host does not say which file the stream is.
fn is_session<R: Files<File = File>>(rt: &R, stream: &str) -> io::Result<bool> {
    if !has_session_size(&fs::metadata(rt, stream)?) {
        return Ok(false);
    }
    Ok(has_session_name(rt, stream).unwrap_or(true))
}

// Returns true if the file is a regular file and has the size of a session file.
fn has_session_size(file: &Metadata) -> bool
    ensures file { IsTrue result → IsFile (file_type file.now) }
    ensures size { IsTrue result → metadata_len file.now ≡ FILE_SIZE }
    ensures both { IsFile (file_type file.now) → metadata_len file.now ≡ FILE_SIZE → IsTrue result }
{
    file.is_file() && file.len() == FILE_SIZE as u64
}

fn has_session_name<R: Files<File = File>>(rt: &R, stream: &str) -> io::Result<bool> {
    let mut bytes = [0u8; 8];
    File::open(rt, stream)?.read_exact_at(&mut bytes, 0)?;
    Ok(is_session_name(&bytes))
}

/// Returns true if these bytes are `MCS4BEN1`, the name at the start of each session file.
pub(crate) fn is_session_name(bytes: &[u8]) -> bool
    ensures { IsTrue result ↔ (bytes.now ≡ NAME) }
{
    bytes == b"MCS4BEN1".as_slice()
}

/// Returns the standard streams that refer to the file of this name, or no streams if the file is
/// missing. Fails if the file is not regular, or if the host returns another error for the name.
/// Also fails if the host does not say which files the streams refer to.
pub(crate) fn streams_of_file<R: Files>(rt: &R, file: &str) -> Result<Streams, FileFault> {
    match regular_file(fs::metadata(rt, file))? {
        Some(named) => streams_matching(rt, &named),
        None => Ok(Streams::none()),
    }
}

// Returns the regular file that the host found for a name, or `None` if no file has that name.
// Fails for a folder, for any other kind of file, and for any other error of the host.
fn regular_file(answer: io::Result<Metadata>) -> Result<Option<Metadata>, FileFault>
    ensures file { IfOk answer (λ named. IsFile (file_type named) → result ≡ Ok (Some named)) }
    ensures folder { IfOk answer (λ named. IsDir (file_type named) → result ≡ Err Folder) }
    ensures other { IfOk answer (λ named. IsOtherFile (file_type named) → result ≡ Err NotAFile) }
    ensures absent { IfErr answer (λ error. IsAbsent error → result ≡ Ok None) }
    ensures refused { IfErr answer (λ error. IsOtherNameError error → IsErrAnd result (IsHostFault error)) }
{
    match answer {
        Ok(named) if named.is_dir() => Err(FileFault::Folder),
        Ok(named) if !named.is_file() => Err(FileFault::NotAFile),
        Ok(named) => Ok(Some(named)),
        Err(error) => match error.kind() {
            ErrorKind::NotFound | ErrorKind::NotADirectory => Ok(None),
            _ => Err(FileFault::from(error)),
        },
    }
}

fn streams_matching<R: Files>(rt: &R, named: &Metadata) -> Result<Streams, FileFault> {
    Ok(Streams {
        input: is_stream(fs::metadata(rt, INPUT), named)?,
        output: is_stream(fs::metadata(rt, OUTPUT), named)?,
        errors: is_stream(fs::metadata(rt, ERRORS), named)?,
    })
}

// Returns true if a stream is the file `named`, given the host's answer about the stream. Fails
// with `StreamsUnknown` if `answer` is an error.
fn is_stream(answer: io::Result<Metadata>, named: &Metadata) -> Result<bool, FileFault>
    ensures answered { IsOk answer → IsOk result }
    ensures unanswered { IsErr answer → IsErrOf result FileFault.StreamsUnknown }
{
    match answer {
        Ok(stream) => Ok(is_same_file(&stream, named)),
        Err(_) => Err(FileFault::StreamsUnknown),
    }
}

/// Returns true if both arguments describe the same file.
pub(crate) fn is_same_file(one: &Metadata, other: &Metadata) -> bool {
    one.dev() == other.dev() && one.ino() == other.ino()
}

//! Messages for the user on standard error: the usage, and the reason why a session does not begin
//! or ends early. If a message cannot be written, the program ignores the error. Standard output
//! and the exit status do not depend on these messages.
use crate::ends::ShellEnd;
use crate::faults::BeginFault;
use mcs_host::{Choice, FileDisk, FileFault, StreamsError, StreamsFault};
use mcs_journal::StoreFault;
use std::path::Path;

/// The reason why no session began, and the facts about the file that the message needs.
#[derive(Clone, Copy)]
pub struct Refusal {
    /// The reason why no session began.
    pub fault: BeginFault,
    /// True if the device is full or a quota is used up.
    pub is_full: bool,
    /// True if the file has as many bytes as a session file and starts with the name of the session format.
    pub is_named_session: bool,
}

/// Prints the usage, the location of the manual, and the versions of the program and of its session files.
pub fn print_usage(rt: &HostRuntime) {
    let _ = eprintln!(rt; "usage: mcs4 new FILE or mcs4 open FILE");
    let _ = eprintln!(rt; "manual: docs/MANUAL.md in the folder that mcs4 was built in");
    let _ = eprintln!(rt;
        "version: mcs4 2.0, session files MCS4BEN1 of version 2; those of version 1 are carried over"
    );
}

/// Prints why the program cannot run with its standard streams. Prints nothing if standard error
/// may be a session file.
pub fn print_streams_refusal(rt: &HostRuntime, error: StreamsError) {
    if error.unusable.errors {
        return;
    }
    let reason = match error.fault {
        StreamsFault::IntoSession => {
            "standard output goes into a session file; send it elsewhere"
        }
        StreamsFault::Unknown => {
            "cannot find out which files standard input, output and error are; mount /proc"
        }
        StreamsFault::NoStandIn => {
            "standard input, output or error is closed, and /dev/null cannot be opened in its place"
        }
    };
    let _ = eprintln!(rt; "mcs4: {reason}");
}

/// Prints a warning if a file was opened but its folder was not synced. A power cut can then remove the name of a new
/// file. Otherwise prints nothing.
pub fn print_name_warning(rt: &HostRuntime, file: &str, open_result: &Result<FileDisk, FileFault>) {
    if let Ok(disk) = open_result {
        if !disk.is_name_stable() {
            let _ = eprintln!(rt;
                "mcs4: {file}: its folder cannot be synced; a power cut may undo a name that it was only just given"
            );
        }
    }
}

/// Prints why no session began in the chosen file, and what to do. Prints nothing if `refused` is
/// `None`, or if standard error is that file.
pub fn print_session_refusal(rt: &HostRuntime, choice: &Choice, refused: Option<Refusal>) {
    let Some(refusal) = refused else {
        return;
    };
    if refusal.fault.streams().errors {
        return;
    }
    let file = choice.file();
    // If standard error cannot be written, the refusal number on standard output is the only report.
    let _ = match (choice, refusal.fault) {
        (Choice::Open(_), BeginFault::File(FileFault::FileMissing)) if has_folder(rt, file) => {
            eprintln!(rt; "mcs4: {file}: no such file; begin a session with: mcs4 new {file}")
        }
        (_, BeginFault::Create(StoreFault::NotBlank)) if refusal.is_named_session => {
            eprintln!(rt; "mcs4: {file}: already a session file; go on with it: mcs4 open {file}")
        }
        (_, fault) => {
            let message = begin_message(fault, refusal.is_full);
            eprintln!(rt; "mcs4: {file}: {message}")
        }
    };
}

// Returns the message for a session that did not begin.
fn begin_message(fault: BeginFault, is_full: bool) -> &'static str {
    match fault {
        BeginFault::File(fault) => file_message(fault),
        BeginFault::Create(fault) => create_message(fault, is_full),
        BeginFault::Open(fault) => open_message(fault, is_full),
    }
}

// Returns the message for a file that was not opened.
fn file_message(fault: FileFault) -> &'static str {
    match fault {
        FileFault::InUse => "in use by another program; wait until that has ended",
        FileFault::CannotLock => "the host has no lock for it; put it on a disk of this machine",
        FileFault::FileMissing => "no such folder; make it first",
        FileFault::Denied => "no permission to read and write it",
        FileFault::Folder => "it is a folder; name a file in it",
        FileFault::NotAFile => "not a regular file; name another",
        FileFault::NameTooLong => "its name is too long; choose a shorter one",
        FileFault::NoSpace => "no space for it on the device; make room and try again",
        FileFault::FolderUnsynced => {
            "its folder cannot be synced, so a power cut could lose it; choose another folder"
        }
        FileFault::TooManyFiles => "too many files are open; close some, or raise the limit",
        FileFault::Stream(_) => {
            "standard input or output is this very file; send that elsewhere"
        }
        FileFault::StreamsUnknown => {
            "cannot find out whether standard input or output is this file; mount /proc"
        }
        FileFault::Device => "the host refused it, or its device failed",
        FileFault::NoMemory => "out of memory",
    }
}

// Returns the message for a session that was not created.
fn create_message(fault: StoreFault, is_full: bool) -> &'static str {
    match fault {
        StoreFault::Device if is_full => {
            "no space left on the device; make room, then remove it and begin again"
        }
        StoreFault::Device => "the device failed; remove it and begin again",
        fault => open_message(fault, is_full),
    }
}

// Returns the message for a session that was not opened.
fn open_message(fault: StoreFault, is_full: bool) -> &'static str {
    match fault {
        StoreFault::NotASession => "not a session file; begin a session in another file",
        StoreFault::Damaged => "damaged; go on with a copy of it, if there is one",
        StoreFault::Device => device_message(is_full),
        StoreFault::NotBlank => "not a session file; choose another name",
        StoreFault::NoMemory => "out of memory",
    }
}

// Returns the message for a device that failed.
fn device_message(is_full: bool) -> &'static str {
    if is_full {
        "no space left on the device; make room, then open it again"
    } else {
        "the device failed; open it again"
    }
}

// Returns true if the host finds the folder that would contain a file, or if the file's path names no folder.
fn has_folder(rt: &HostRuntime, file: &str) -> bool {
    match Path::new(file).parent() {
        Some(folder) => folder.as_str().is_empty() || folder.is_dir(rt),
        None => true,
    }
}

/// Prints why a session ended. `shell_end` has the reason for the end of the shell, and a Bool that is true if the
/// session's device is full. Prints nothing if the session reached the end of its input, or if `shell_end` is `None`.
pub fn print_end_reason(rt: &HostRuntime, file: &str, shell_end: Option<(ShellEnd, bool)>) {
    let Some((end, is_full)) = shell_end else {
        return;
    };
    let reason = match end {
        ShellEnd::End => return,
        ShellEnd::ReadFault => "standard input could not be read; what was answered ok is kept",
        ShellEnd::WriteFault => "standard output took no more; what was answered ok is kept",
        ShellEnd::DeviceFault => device_message(is_full),
        ShellEnd::InputLimit => "no more than 16777216 bytes are read; open it again to go on",
        ShellEnd::NoMemory => "out of memory",
    };
    let _ = eprintln!(rt; "mcs4: {file}: {reason}");
}

/// Prints that memory ran out while the arguments were read.
pub fn print_no_memory(rt: &HostRuntime) {
    let _ = eprintln!(rt; "mcs4: out of memory");
}

//! Functions that open and lock a file of the host. On request, they create the file and fill it.
ghost use Rattle.std.specs.Prelude.{◌≡◌, ◌==◌, ◌↔◌, ◌<◌, ◌≤◌, [], ◌∷◌, IfOk, OnOk, IsTrue, is_ok, true, vec_len};
ghost use Rattle.std.specs.List.{list_all};
ghost use Rattle.mcs_host.specs.FileDisk.{IsNotStandardStream};
ghost use Rattle.mcs_host.specs.FileFaults.{IsLinkFault, IsNameFault};
ghost use Rattle.mcs_host.specs.HostCalls.{HasCalls, KeepsNameAndNumber, OpenedOrCreated, SyncAll};
ghost use Rattle.mcs_host.specs.Opening.{AreZeros, FolderCalls, IsFreshlyOpened, IsAllZeros, IsFilledAfter, IsOpenedFile, IsReadAfter, IsWrittenAfter, folder_of, locking_calls};

use crate::file_fault::FileFault;
use crate::host_file::{Host, HostFile};
use mcs_journal::FILE_SIZE;
use std::alloc::Global;
use std::io::{self, ErrorKind};
use std::path::Path;

/// The maximum number of bytes that are read from a file: one more than a session file has. If a
/// file is longer, the number of bytes read shows that it is not a session file.
pub(crate) const MAX_BYTES_READ: usize = FILE_SIZE + 1;

/// The descriptor of standard error, the highest descriptor of a standard stream.
const STANDARD_ERROR: i32 = 2;

/// Opens a file for reading and writing, locks it, and reads it into `bytes`, which must be zeros.
/// Returns the file, and true if the file's name survives a power cut.
///
/// If `create_if_missing` is true, creates a missing file, and fills an empty file with
/// [`FILE_SIZE`] zero bytes. If filling fails, makes the file empty again. If the function created
/// the file and then fails with an error other than `InUse`, removes the file if the file is empty.
///
/// Does not open a file that is also a standard stream. Opens no file if the host does not say
/// whether the file is a standard stream.
pub(crate) fn open_and_read<N: Host>(
    host: &N,
    alloc: Global,
    file: &str,
    create_if_missing: bool,
    bytes: &mut Vec<u8>,
) -> Result<(N::File, bool), FileFault>
    requires len { vec_len bytes.old ≡ MAX_BYTES_READ }
    requires zeros { AreZeros bytes.old.items }
    ensures not_standard_stream { IfOk result (λ opened. IsNotStandardStream (N.File.state opened.0).number) }
    ensures at_most { vec_len bytes.new ≤ MAX_BYTES_READ }
    ensures not_empty { IsTrue create_if_missing → IfOk result (λ _. 0 < vec_len bytes.new) }
    ensures host_calls { IfOk result (λ opened. IsOpenedFile create_if_missing file.now bytes.new.items opened.1
        (N.File.state opened.0)) }
{
    let streams = host.streams_of_file(file)?;
    if streams.any() {
        return Err(FileFault::Stream(streams));
    }
    let (mut opened, is_created) = open_or_create(host, alloc, file, create_if_missing)?;
    match lock_and_read(host, alloc, &mut opened, file, create_if_missing, bytes) {
        Ok(is_name_stable) => Ok((opened, is_name_stable)),
        Err(fault) => {
            if is_created && fault != FileFault::InUse {
                // the first error is returned, even if the empty file cannot be removed
                let _ = remove_empty(host, alloc, &mut opened, file);
            }
            Err(fault)
        }
    }
}

// Opens a file, or creates it if it is missing and `create_if_missing` is true. Returns the file,
// and true if the file was created.
fn open_or_create<N: Host>(
    host: &N,
    alloc: Global,
    file: &str,
    create_if_missing: bool,
) -> Result<(N::File, bool), FileFault>
    ensures named { IfOk result (λ opened. (N.File.state opened.0).name ≡ file.now) }
    ensures begun { IfOk result (λ opened. IsFreshlyOpened create_if_missing (N.File.state opened.0).calls) }
{
    match host.open(file) {
        Ok(opened) => Ok((opened, false)),
        Err(error) if create_if_missing && error.kind() == ErrorKind::NotFound => {
            host.check_removable(alloc, file)
                .map_err(fault_for_link_error)?;
            Ok((host.open_or_create(file)?, true))
        }
        Err(error) => Err(FileFault::from(error)),
    }
}

// Locks a file before any other call on it, fills the file if necessary, and reads it into `bytes`.
// When the function returns Ok, the file's contents are on the device. The result is true if the
// file's name is on the device too.
fn lock_and_read<N: Host>(
    host: &N,
    alloc: Global,
    opened: &mut N::File,
    file: &str,
    create_if_missing: bool,
    bytes: &mut Vec<u8>,
) -> Result<bool, FileFault>
    requires len { vec_len bytes.old ≡ MAX_BYTES_READ }
    requires zeros { AreZeros bytes.old.items }
    requires named { (N.File.state opened.old).name ≡ file.now }
    requires begun { IsFreshlyOpened create_if_missing (N.File.state opened.old).calls }
    ensures not_standard_stream { OnOk result (IsNotStandardStream (N.File.state opened.new).number) }
    ensures at_most { vec_len bytes.new ≤ MAX_BYTES_READ }
    ensures not_empty { IsTrue create_if_missing → OnOk result (0 < vec_len bytes.new) }
    ensures host_calls { IfOk result (λ is_name_stable. IsOpenedFile create_if_missing file.now bytes.new.items
        is_name_stable (N.File.state opened.new)) }
{
    lock(host, opened, file)?;
    let file_length = opened.length()?;
    if create_if_missing && file_length == 0 {
        bytes.truncate(FILE_SIZE);
        fill_and_read(host, alloc, opened, file, bytes)?;
        return Ok(true);
    }
    bytes.truncate(file_length.min(MAX_BYTES_READ as u64) as usize);
    let is_name_stable = sync_and_read(host, alloc, opened, file, bytes)?;
    if create_if_missing && is_blank(bytes) {
        // A blank file can have holes, for example after an earlier fill that was interrupted.
        write_whole(host, alloc, opened, file, bytes)?;
    }
    Ok(is_name_stable)
}

// Locks a file and checks that the name `file` still refers to it. Another program can have removed
// or replaced the file before the lock was granted. Fails if the file has the descriptor of a
// standard stream, because output to the stream would go into the file.
fn lock<N: Host>(host: &N, opened: &mut N::File, file: &str) -> Result<(), FileFault>
    ensures not_standard_stream { OnOk result (IsNotStandardStream (N.File.state opened.new).number) }
    ensures same { OnOk result (KeepsNameAndNumber (N.File.state opened.old) (N.File.state opened.new)) }
    ensures host_calls { OnOk result ((N.File.state opened.new).calls
        ≡ locking_calls file.now (N.File.state opened.old).calls) }
{
    if opened.number() <= STANDARD_ERROR {
        return Err(FileFault::Device);
    }
    opened.try_lock()?;
    if !host.is_named(opened, file)? {
        return Err(FileFault::InUse);
    }
    Ok(())
}

// Writes `bytes`, which are zeros, to an empty file, and reads the file back into `bytes`.
fn fill_and_read<N: Host>(
    host: &N,
    alloc: Global,
    opened: &mut N::File,
    file: &str,
    bytes: &mut Vec<u8>,
) -> Result<(), FileFault>
    ensures len { vec_len bytes.new ≡ vec_len bytes.old }
    ensures same { OnOk result (KeepsNameAndNumber (N.File.state opened.old) (N.File.state opened.new)) }
    ensures host_calls { OnOk result (IsFilledAfter file.now bytes.old.items bytes.new.items
        (N.File.state opened.old).calls (N.File.state opened.new).calls) }
{
    fill(host, alloc, opened, file, bytes)?;
    opened.read_at(0, bytes)?;
    Ok(())
}

// Syncs an existing file and its folder, and then fills `bytes` with the start of the file. Returns
// true if the folder was synced, so that the file's name is stable too.
fn sync_and_read<N: Host>(
    host: &N,
    alloc: Global,
    opened: &mut N::File,
    file: &str,
    bytes: &mut Vec<u8>,
) -> Result<bool, FileFault>
    ensures len { vec_len bytes.new ≡ vec_len bytes.old }
    ensures same { OnOk result (KeepsNameAndNumber (N.File.state opened.old) (N.File.state opened.new)) }
    ensures host_calls { IfOk result (λ is_name_stable. IsReadAfter file.now bytes.new.items
        is_name_stable (N.File.state opened.old).calls (N.File.state opened.new).calls) }
{
    opened.sync_all()?;
    let is_name_stable = try_sync_folder(host, alloc, opened, file)?;
    opened.read_at(0, bytes)?;
    Ok(is_name_stable)
}

// Returns true if the bytes are those of a blank file: `FILE_SIZE` zeros.
fn is_blank(bytes: &[u8]) -> bool
    ensures { IsTrue result ↔ IsAllZeros bytes.now }
{
    bytes.len() == FILE_SIZE && are_zeros(bytes)
}

fn are_zeros(bytes: &[u8]) -> bool
    ensures { result ≡ list_all (λ b. b == 0) bytes.now }
{
    bytes.iter().all(|byte| *byte == 0)
}

// Returns the `FileFault` for an error that occurs while a file's folder is synced. The error can be
// a lack of memory, because a request for the real path of a link allocates memory.
fn fault_for_name_error(error: io::Error) -> FileFault
    ensures { IsNameFault error result }
{
    match error.kind() {
        ErrorKind::OutOfMemory => FileFault::NoMemory,
        _ => FileFault::from(error),
    }
}

// Returns the `FileFault` for an error of `check_removable`. For `InvalidFilename` (for example, if the target of a
// link is not valid UTF-8), this is `FolderUnsynced`.
fn fault_for_link_error(error: io::Error) -> FileFault
    ensures { IsLinkFault error result }
{
    match error.kind() {
        ErrorKind::InvalidFilename => FileFault::FolderUnsynced,
        _ => fault_for_name_error(error),
    }
}

// Writes `zeros` to an empty file and syncs the file and its folder. If one of these calls fails,
// makes the file empty again.
fn fill<N: Host>(
    host: &N,
    alloc: Global,
    opened: &mut N::File,
    file: &str,
    zeros: &[u8],
) -> Result<(), FileFault>
    ensures same { OnOk result (KeepsNameAndNumber (N.File.state opened.old) (N.File.state opened.new)) }
    ensures host_calls { OnOk result (IsWrittenAfter file.now zeros.now
        (N.File.state opened.old).calls (N.File.state opened.new).calls) }
{
    let filled = write_whole(host, alloc, opened, file, zeros);
    if filled.is_err() {
        // the first error is returned, even if the file cannot be made empty
        let _ = opened.set_length(0);
    }
    filled
}

// Writes `bytes` as the whole file, so that each byte has space on the device, and makes the file
// and its name stable. Sets the length first: if the program stops halfway, a new session can still
// be created in the file. Fails if the folder cannot be synced, because a power cut could then lose
// the name of a new file, and with it commands that were answered `ok`.
fn write_whole<N: Host>(
    host: &N,
    alloc: Global,
    opened: &mut N::File,
    file: &str,
    bytes: &[u8],
) -> Result<(), FileFault>
    ensures same { OnOk result (KeepsNameAndNumber (N.File.state opened.old) (N.File.state opened.new)) }
    ensures host_calls { OnOk result (IsWrittenAfter file.now bytes.now
        (N.File.state opened.old).calls (N.File.state opened.new).calls) }
{
    opened.set_length(bytes.len() as u64)?;
    opened.write_at(0, bytes)?;
    opened.sync_all()?;
    if !try_sync_folder(host, alloc, opened, file)? {
        return Err(FileFault::FolderUnsynced);
    }
    Ok(())
}

// Syncs the folder of a file, so that the file's name survives a power cut. If the name is a link,
// syncs the folder of the file that the link leads to.
fn sync_folder<N: Host>(host: &N, alloc: Global, opened: &mut N::File, file: &str) -> io::Result<()>
    ensures same { KeepsNameAndNumber (N.File.state opened.old) (N.File.state opened.new) }
    ensures host_calls { FolderCalls file.now (is_ok result)
        (N.File.state opened.old).calls (N.File.state opened.new).calls }
{
    if !host.is_link(opened, file)? {
        return host.sync_folder(opened, folder_of(file));
    }
    let real_path = host.real_name(alloc, opened, file)?;
    host.sync_folder(opened, folder_of(real_path.as_str()))
}

/// Returns the folder that contains the file of this name, or `.` if the name contains no folder.
pub(crate) fn folder_of(name: &str) -> &str
    ensures { result.now ≡ folder_of name.now }
{
    match Path::new(name).parent() {
        Some(folder) if !folder.as_str().is_empty() => folder.as_str(),
        _ => ".",
    }
}

// Syncs the folder of a file, so that the file's name survives a power cut, and returns true.
// Returns false if the program cannot read the folder, if the host does not sync folders, or if a
// link leads to a path that is not valid UTF-8. Fails for any other error of the host.
fn try_sync_folder<N: Host>(
    host: &N,
    alloc: Global,
    opened: &mut N::File,
    file: &str,
) -> Result<bool, FileFault>
    ensures same { OnOk result (KeepsNameAndNumber (N.File.state opened.old) (N.File.state opened.new)) }
    ensures host_calls { IfOk result (λ done. FolderCalls file.now done
        (N.File.state opened.old).calls (N.File.state opened.new).calls) }
{
    match sync_folder(host, alloc, opened, file) {
        Ok(()) => Ok(true),
        Err(error) => match error.kind() {
            ErrorKind::PermissionDenied | ErrorKind::InvalidInput | ErrorKind::InvalidFilename => {
                Ok(false)
            }
            _ => Err(fault_for_name_error(error)),
        },
    }
}

// Removes a file if it is empty. If the name is a link, the link itself is not removed.
fn remove_empty<N: Host>(
    host: &N,
    alloc: Global,
    opened: &mut N::File,
    file: &str,
) -> io::Result<()> {
    if opened.length()? > 0 {
        return Ok(());
    }
    let real_path = host.real_name(alloc, opened, file)?;
    host.remove(real_path.as_str())
}

//! A session file of the host, used as a disk.
ghost use Rattle.std.specs.Prelude.{◌≡◌, ◌<◌, ◌≤◌, ◌+◌, ℕ, List, [], ◌∷◌, IfOk, IsErr, OnOk, IsTrue, is_ok, length, ◌↔◌};
ghost use Rattle.mcs_disk.specs.Disk.{part, CountsFault, Torn, bytes_of, size_of, images_of};
ghost use Rattle.mcs_disk.specs.CallList.{MakesCalls};
ghost use Rattle.mcs_disk.specs.Calls.{WasRead, Wrote, Synced};

use crate::file_fault::FileFault;
use crate::host_disk::HostDisk;
use crate::system_file::SystemFile;
use mcs_disk::{Disk, DiskFault};
use mcs_journal::FILE_SIZE;
use std::alloc::Global;
use std::fs::File;
use std::rt::Files;

/// A session file of the host, used as a disk: a [`HostDisk`] over a file of the operating system.
/// The file stays open.
///
/// If the file has more than [`FILE_SIZE`] bytes, the disk has only the first `FILE_SIZE + 1` of
/// them. No session file has that size.
#[derive(Drop)]
pub struct FileDisk {
    inner_disk: HostDisk<SystemFile>,
}

impl FileDisk {
    ghost use Rattle.mcs_host.specs.Ending.{as_disk, as_host_file};
    ghost use Rattle.mcs_host.specs.FileDisk.{HasNoCalls};
    ghost use Rattle.mcs_host.specs.Opening.{IsNamedSession, IsOpenedFile};

    /// Opens a file for reading and writing. If `create_if_missing` is true, creates a missing
    /// file, and fills an empty file with [`FILE_SIZE`] zero bytes. When the function returns Ok,
    /// the file's contents are on the device. The file's name is on the device too if [`FileDisk::is_name_stable`]
    /// returns true.
    ///
    /// Fails with:
    ///
    /// - `NoMemory` if memory runs out for the file's bytes, or for the path that a link leads to
    /// - `Stream` if the file is also a standard stream (checked before the file is opened)
    /// - `StreamsUnknown` if the host does not say whether the file is a standard stream (also
    ///   checked before the file is opened)
    /// - `FolderUnsynced` if `create_if_missing` is true, the file was missing, empty or all zeros,
    ///   and its folder cannot be synced
    /// - another error if the file cannot be opened, locked, filled or read
    pub fn open_at<R: Files<File = File>>(
        rt: &R,
        alloc: Global,
        file: &str,
        create_if_missing: bool,
    ) -> Result<FileDisk, FileFault>
        ensures opened { IfOk result (λ disk. HasNoCalls (as_disk disk)) }
        ensures at_most { IfOk result (λ disk. size_of (as_disk disk) ≤ FILE_SIZE + 1) }
        ensures not_empty { IsTrue create_if_missing → IfOk result (λ disk. 0 < size_of (as_disk disk)) }
        ensures host_calls { IfOk result (λ disk. IsOpenedFile create_if_missing file.now (bytes_of (as_disk disk))
            disk.inner_disk.is_name_stable (as_host_file disk)) }
    {
        let inner_disk = HostDisk::open_at(rt, alloc, file, create_if_missing)?;
        Ok(FileDisk { inner_disk })
    }

    /// Returns true if the file's name survives a power cut, because its folder was synced. For an
    /// existing file, returns false if the program cannot read the folder, or if the host does not
    /// sync folders. Also returns false if a link leads to a path that is not valid UTF-8.
    pub fn is_name_stable(&self) -> bool
        ensures { result ≡ self.now.inner_disk.is_name_stable }
    {
        self.inner_disk.is_name_stable()
    }

    /// Returns true if the most recent failed call failed because the device was full or a quota
    /// was used up. Returns false if no call has failed.
    pub fn is_full(&self) -> bool
        ensures { result ≡ self.now.inner_disk.is_full }
    {
        self.inner_disk.is_full()
    }

    /// Returns true if the file has the size of a session file and begins with the name `MCS4BEN1`.
    /// `mcs4 open` rejects any other file.
    pub fn is_named_session(&self) -> bool
        ensures { IsTrue result ↔ IsNamedSession (bytes_of (as_disk self.now)) }
    {
        self.inner_disk.is_named_session()
    }
}

impl Disk for FileDisk {
    ghost use Rattle.mcs_host.specs.Ending.{as_disk, as_host_file};
    ghost use Rattle.mcs_host.specs.HostCalls.{MakesReadCall, SyncData, WriteAt, after_call};

    ghost state = { as_disk };

    fn size(&self) -> usize {
        self.inner_disk.size()
    }

    fn read(&mut self, at: usize, into: &mut [u8]) -> Result<(), DiskFault>
        requires { at + length into.old ≤ size_of (as_disk self.old) }
        ensures call { CountsFault (as_disk self.old) (as_disk self.new) (IsErr result) }
        ensures lists_call { MakesCalls (WasRead ∷ []) (as_disk self.old).calls (as_disk self.new).calls
            result }
        ensures honest { (as_disk self.old).honest → OnOk result
            (into.new ≡ part at (length into.old) (bytes_of (as_disk self.old))) }
        // The next clause holds even if the file is not honest.
        ensures read_bytes { OnOk result
            (into.new ≡ part at (length into.old) (bytes_of (as_disk self.old))) }
        ensures host_calls { MakesReadCall at into.new result
            (as_host_file self.old) (as_host_file self.new) }
    {
        self.inner_disk.read(at, into)
    }

    fn write(&mut self, at: usize, from: &[u8]) -> Result<(), DiskFault>
        requires { at + length from.now ≤ size_of (as_disk self.old) }
        ensures call { CountsFault (as_disk self.old) (as_disk self.new) (IsErr result) }
        ensures lists_call { MakesCalls (Wrote at from.now ∷ []) (as_disk self.old).calls
            (as_disk self.new).calls result }
        // The next clause holds even if the write failed, because a failed write can have changed
        // any part of the range.
        ensures torn { (before image : List ℕ) → images_of (as_disk self.old) before
            → Torn at (length from.now) before image → images_of (as_disk self.new) image }
        ensures host_calls { as_host_file self.new
            ≡ after_call (WriteAt at from.now (is_ok result)) (as_host_file self.old) }
    {
        self.inner_disk.write(at, from)
    }

    fn sync(&mut self) -> Result<(), DiskFault>
        ensures call { CountsFault (as_disk self.old) (as_disk self.new) (IsErr result) }
        ensures lists_call { MakesCalls (Synced ∷ []) (as_disk self.old).calls (as_disk self.new).calls
            result }
        ensures host_calls { as_host_file self.new
            ≡ after_call (SyncData (is_ok result)) (as_host_file self.old) }
    {
        self.inner_disk.sync()
    }
}

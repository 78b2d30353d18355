//! The calls on the host that a session file needs, as traits. For code that is generic over these
//! traits, the contracts state exactly which calls the code makes, and in which order.
ghost use Rattle.std.specs.Prelude.{◌≡◌, [], ◌∷◌, IfOk, MatchResult, false, is_ok, true};
ghost use Rattle.std.specs.Path.{path_buf_bytes};
ghost use Rattle.mcs_host.specs.HostCalls.{HostState, HasCalls, IsLink, Length, Lock, IsNamed, OpenedOrCreated, ReadAt, RealName, SetLength, SyncAll, SyncData, SyncFolder, WriteAt, after_call, is_yes};

use crate::file_fault::FileFault;
use crate::streams::Streams;
use std::alloc::Global;
use std::fs::TryLockError;
use std::io;
use std::path::PathBuf;

/// An open file of the host. Each method except `number` makes one call on the host. Contracts see
/// all calls so far, with their answers.
pub trait HostFile {
    /// The state of the open file, as contracts see it.
    ghost state: { Self → HostState };

    /// Returns the file's descriptor: the host's number for the open file.
    fn number(&self) -> i32
        ensures { result ≡ (state self.now).number };

    /// Requests the exclusive lock on the file, without waiting. Fails if another program holds the
    /// lock, or if the host cannot lock the file.
    fn try_lock(&mut self) -> Result<(), TryLockError>
        ensures { state self.new ≡ after_call (Lock (is_ok result)) (state self.old) };

    /// Returns the file's length in bytes. Fails if the host returns an error.
    fn length(&mut self) -> io::Result<u64>
        ensures { MatchResult result
            (λ n. state self.new ≡ after_call (Length n true) (state self.old))
            (λ _. state self.new ≡ after_call (Length 0 false) (state self.old)) };

    /// Sets the file's length in bytes. Fails if the host returns an error.
    fn set_length(&mut self, to: u64) -> io::Result<()>
        ensures { state self.new ≡ after_call (SetLength to (is_ok result)) (state self.old) };

    /// Fills `into` with the bytes of the file that start at offset `at`. Fails if the host returns
    /// an error, or if the file ends before `into` is full.
    fn read_at(&mut self, at: usize, into: &mut [u8]) -> io::Result<()>
        ensures { state self.new ≡ after_call (ReadAt at into.new (is_ok result)) (state self.old) };

    /// Writes all of `from` at offset `at`. If the host returns an error, any part of the range can
    /// have been written.
    fn write_at(&mut self, at: usize, from: &[u8]) -> io::Result<()>
        ensures { state self.new ≡ after_call (WriteAt at from.now (is_ok result)) (state self.old) };

    /// Syncs the file's bytes to the device. Fails if the host returns an error.
    fn sync_data(&mut self) -> io::Result<()>
        ensures { state self.new ≡ after_call (SyncData (is_ok result)) (state self.old) };

    /// Syncs the file's bytes and its length to the device. Fails if the host returns an error.
    fn sync_all(&mut self) -> io::Result<()>
        ensures { state self.new ≡ after_call (SyncAll (is_ok result)) (state self.old) };
}

/// A host: it opens files by name.
pub trait Host {
    /// The type of an open file on this host.
    type File: HostFile + Drop;

    /// Returns the standard streams that refer to the file of this name, or no streams if the file
    /// is missing. Fails if the file is not regular, or if the host returns another error for the
    /// name. Also fails if the host does not say which files the streams refer to.
    fn streams_of_file(&self, name: &str) -> Result<Streams, FileFault>;

    /// Checks that a file created under this name can be removed again. If the name is a symbolic
    /// link, the check fails unless the host gives the real path of the folder that contains the
    /// link's target. Allocates memory.
    fn check_removable(&self, alloc: Global, name: &str) -> io::Result<()>;

    /// Opens the existing file of this name for reading and writing. Fails if the host returns an
    /// error.
    fn open(&self, name: &str) -> io::Result<Self::File>
        ensures { IfOk result (λ file. HasCalls name.now [] (Self.File.state file)) };

    /// Opens the file of this name for reading and writing, and creates it if it is missing. Fails
    /// if the host returns an error.
    fn open_or_create(&self, name: &str) -> io::Result<Self::File>
        ensures { IfOk result (λ file. HasCalls name.now (OpenedOrCreated ∷ []) (Self.File.state file)) };

    /// Returns true if `name` still refers to the open file. Fails if the host returns an error.
    fn is_named(&self, file: &mut Self::File, name: &str) -> io::Result<bool>
        ensures { Self.File.state file.new
            ≡ after_call (IsNamed name.now (is_yes result)) (Self.File.state file.old) };

    /// Returns true if `name`, a name of the file, is a symbolic link. Fails if the host returns an
    /// error.
    fn is_link(&self, file: &mut Self::File, name: &str) -> io::Result<bool>
        ensures { Self.File.state file.new
            ≡ after_call (IsLink name.now (is_yes result)) (Self.File.state file.old) };

    /// Returns the real path of the file: `name` with all symbolic links resolved. Allocates
    /// memory. Fails if the host returns an error.
    fn real_name(
        &self,
        alloc: Global,
        file: &mut Self::File,
        name: &str,
    ) -> io::Result<PathBuf<Global>>
        ensures { MatchResult result
            (λ real_path. Self.File.state file.new
            ≡ after_call (RealName (path_buf_bytes real_path) true) (Self.File.state file.old))
            (λ _. Self.File.state file.new
            ≡ after_call (RealName [] false) (Self.File.state file.old)) };

    /// Syncs the folder of this name, which contains `file`. The call is recorded with `file`.
    /// Fails if the host returns an error.
    fn sync_folder(&self, file: &mut Self::File, folder: &str) -> io::Result<()>
        ensures { Self.File.state file.new
            ≡ after_call (SyncFolder folder.now (is_ok result)) (Self.File.state file.old) };

    /// Removes the file of this name. Fails if the host returns an error.
    fn remove(&self, name: &str) -> io::Result<()>;
}

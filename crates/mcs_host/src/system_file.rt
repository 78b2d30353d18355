//! Files of the operating system. The methods make the host calls that the method names describe,
//! and record each call on an open file together with its answer. No contract can check this: a
//! human reviewer must check it.
ghost use Rattle.mcs_host.specs.SystemFile.{system_state};
ghost use Rattle.std.specs.Prelude.{◌≡◌, [], length};

use crate::file_fault::FileFault;
use crate::host_file::{Host, HostFile};
use crate::host_record::{AnsweredRequest, HostRecord};
use crate::opening::folder_of;
use crate::streams::{Streams, is_same_file, streams_of_file};
use std::alloc::Global;
use std::fs::{self, File, OpenOptions, TryLockError};
use std::io;
use std::os::fd::AsRawFd;
use std::os::unix::fs::FileExt;
use std::path::PathBuf;
use std::rt::Files;

/// The maximum number of links that the host follows from a name to a file.
const MAX_LINKS: u32 = 40;

/// An open file of the operating system.
#[derive(Drop)]
pub struct SystemFile {
    file: File,
    history: HostRecord,
}

impl SystemFile {
    fn new(file: File, name: &str) -> SystemFile
        ensures file { result.file ≡ file }
        ensures name { result.history.start ≡ name.now }
        ensures calls { result.history.notes ≡ [] }
    {
        let history = HostRecord::new(name.as_bytes());
        SystemFile { file, history }
    }
}

impl HostFile for SystemFile {
    ghost state = { system_state };

    fn number(&self) -> i32 {
        self.file.as_raw_fd()
    }

    fn try_lock(&mut self) -> Result<(), TryLockError> {
        let answer = self.file.try_lock();
        self.history
            .note(&AnsweredRequest::Lock(answer.is_ok()), &[]);
        answer
    }

    fn length(&mut self) -> io::Result<u64> {
        let answer = length_of(&self.file);
        match answer {
            Ok(n) => self.history.note(&AnsweredRequest::Length(n, true), &[]),
            Err(_) => self.history.note(&AnsweredRequest::Length(0, false), &[]),
        }
        answer
    }

    fn set_length(&mut self, to: u64) -> io::Result<()> {
        let answer = self.file.set_len(to);
        self.history
            .note(&AnsweredRequest::SetLength(to, answer.is_ok()), &[]);
        answer
    }

    fn read_at(&mut self, at: usize, into: &mut [u8]) -> io::Result<()> {
        let answer = self.file.read_exact_at(into, at as u64);
        self.history
            .note(&AnsweredRequest::ReadAt(at, answer.is_ok()), into);
        answer
    }

    fn write_at(&mut self, at: usize, from: &[u8]) -> io::Result<()> {
        let answer = self.file.write_all_at(from, at as u64);
        self.history
            .note(&AnsweredRequest::WriteAt(at, answer.is_ok()), from);
        answer
    }

    fn sync_data(&mut self) -> io::Result<()> {
        let answer = self.file.sync_data();
        self.history
            .note(&AnsweredRequest::SyncData(answer.is_ok()), &[]);
        answer
    }

    fn sync_all(&mut self) -> io::Result<()> {
        let answer = self.file.sync_all();
        self.history
            .note(&AnsweredRequest::SyncAll(answer.is_ok()), &[]);
        answer
    }
}

fn length_of(file: &File) -> io::Result<u64> {
    Ok(file.metadata()?.len())
}

impl<R: Files<File = File>> Host for R {
    type File = SystemFile;

    fn streams_of_file(&self, name: &str) -> Result<Streams, FileFault> {
        streams_of_file(self, name)
    }

    fn check_removable(&self, alloc: Global, name: &str) -> io::Result<()> {
        check_removable(self, alloc, name)
    }

    fn open(&self, name: &str) -> io::Result<SystemFile> {
        let mut options = OpenOptions::new();
        options.read(true).write(true);
        Ok(SystemFile::new(options.open(self, name)?, name))
    }

    fn open_or_create(&self, name: &str) -> io::Result<SystemFile> {
        let mut options = OpenOptions::new();
        options.read(true).write(true).create(true);
        let mut created = SystemFile::new(options.open(self, name)?, name);
        created.history.note(&AnsweredRequest::OpenedOrCreated, &[]);
        Ok(created)
    }

    fn is_named(&self, file: &mut SystemFile, name: &str) -> io::Result<bool> {
        let answer = names_file(self, name, &file.file);
        let is_yes = matches!(answer, Ok(true));
        file.history
            .note(&AnsweredRequest::IsNamed(is_yes), name.as_bytes());
        answer
    }

    fn is_link(&self, file: &mut SystemFile, name: &str) -> io::Result<bool> {
        let answer = is_name_of_link(self, name);
        let is_yes = matches!(answer, Ok(true));
        file.history
            .note(&AnsweredRequest::IsLink(is_yes), name.as_bytes());
        answer
    }

    fn real_name(
        &self,
        alloc: Global,
        file: &mut SystemFile,
        name: &str,
    ) -> io::Result<PathBuf<Global>> {
        match self.canonicalize(alloc, name) {
            Ok(real_path) => {
                let real_bytes = real_path.as_str().as_bytes();
                file.history
                    .note(&AnsweredRequest::RealName(true), real_bytes);
                Ok(real_path)
            }
            Err(error) => {
                file.history.note(&AnsweredRequest::RealName(false), &[]);
                Err(error)
            }
        }
    }

    fn sync_folder(&self, file: &mut SystemFile, folder: &str) -> io::Result<()> {
        let answer = sync_folder(self, folder);
        let is_ok = answer.is_ok();
        file.history
            .note(&AnsweredRequest::SyncFolder(is_ok), folder.as_bytes());
        answer
    }

    fn remove(&self, name: &str) -> io::Result<()> {
        fs::remove_file(self, name)
    }
}

fn names_file<R: Files<File = File>>(rt: &R, name: &str, file: &File) -> io::Result<bool> {
    Ok(is_same_file(&fs::metadata(rt, name)?, &file.metadata()?))
}

fn is_name_of_link<R: Files<File = File>>(rt: &R, name: &str) -> io::Result<bool> {
    Ok(fs::symlink_metadata(rt, name)?.is_symlink())
}

// Follows symbolic links from `name`, at most `MAX_LINKS` of them. Fails if a link cannot be read,
// or if the host gives no real path for the folder that contains the link's target. (That path
// could be invalid UTF-8, for example.) Also fails if memory runs out.
fn check_removable<R: Files<File = File>>(rt: &R, alloc: Global, name: &str) -> io::Result<()> {
    let mut link = PathBuf::from_str(alloc, name)?;
    for _ in 0..MAX_LINKS {
        match fs::symlink_metadata(rt, link.as_str()) {
            Ok(found) if found.is_symlink() => {}
            _ => break,
        }
        let target = rt.read_link(alloc, link.as_str())?;
        let folder = PathBuf::from_str(alloc, folder_of(link.as_str()))?;
        link = folder.join(alloc, target.as_str())?;
        let _real_folder = rt.canonicalize(alloc, folder_of(link.as_str()))?;
    }
    Ok(())
}

fn sync_folder<R: Files<File = File>>(rt: &R, folder: &str) -> io::Result<()> {
    File::open(rt, folder)?.sync_all()
}

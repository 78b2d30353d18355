//! An open file of the host, used as a disk.
ghost use Rattle.std.specs.Prelude.{◌≡◌, ◌↔◌, ◌<◌, ◌≤◌, ◌+◌, ℕ, List, [], ◌∷◌, IfOk, IsErr, OnOk, IsTrue, is_ok, length, min, vec_len};
ghost use Rattle.mcs_disk.specs.Disk.{max_fault_count, part, CountsFault, Torn, bytes_of, size_of, images_of};
ghost use Rattle.mcs_disk.specs.CallList.{MakesCalls};
ghost use Rattle.mcs_disk.specs.Calls.{bytes_after, WasRead, Wrote, Synced};
ghost use Rattle.mcs_disk.specs.NotedCalls.{calls_in};
ghost use Rattle.mcs_host.specs.FileDisk.{IsNotStandardStream};
ghost use Rattle.mcs_host.specs.Opening.{AreZeros, IsNamedSession};

use crate::ending::{Ending, ending};
use crate::file_fault::{FileFault, is_out_of_space};
use crate::host_file::{Host, HostFile};
use crate::opening::{MAX_BYTES_READ, open_and_read};
use crate::streams::is_session_name;
use mcs_disk::{Call, CallRecord, Disk, DiskFault, overwrite};
use mcs_journal::FILE_SIZE;
use std::alloc::{AllocError, Global};

/// An open file of the host, used as a disk.
///
/// The file is read into memory once, when it is opened, and each write also updates this copy. If
/// the host returns bytes that differ from the copy, `read` returns `DiskFault`. No call can check
/// the premise `honest`. The premise is about the bytes that are found in the file after a close, a process kill or a
/// power cut. It states that these bytes are one of the images that the earlier calls can leave.
#[derive(Drop)]
pub struct HostDisk<H: HostFile> {
    file: H,
    bytes: Vec<u8>,
    faults: u64,
    history: CallRecord,
    end: Ending,
    is_name_stable: bool,
    is_full: bool,
    ghost bytes_match_calls: { bytes.items ≡ bytes_after history.start (calls_in history.notes) },
    ghost sized: { length bytes.items ≡ length history.start },
    ghost not_standard_stream: { IsNotStandardStream (H.HostFile.state file).number },
}

impl<H: HostFile> HostDisk<H> {
    ghost use Rattle.mcs_host.specs.HostDisk.{host_disk};
    ghost use Rattle.mcs_host.specs.FileDisk.{HasNoCalls};
    ghost use Rattle.mcs_host.specs.Opening.{IsOpenedFile};

    /// Opens the file of this name. `FileDisk::open_at` describes the parameters and the errors.
    pub fn open_at<N: Host<File = H>>(
        host: &N,
        alloc: Global,
        file: &str,
        create_if_missing: bool,
    ) -> Result<HostDisk<H>, FileFault>
        ensures opened { IfOk result (λ disk. HasNoCalls (host_disk disk)) }
        ensures at_most { IfOk result (λ disk. size_of (host_disk disk) ≤ FILE_SIZE + 1) }
        ensures not_empty { IsTrue create_if_missing → IfOk result (λ disk. 0 < size_of (host_disk disk)) }
        ensures host_calls { IfOk result (λ disk. IsOpenedFile create_if_missing file.now (bytes_of (host_disk disk))
            disk.is_name_stable (H.HostFile.state disk.file)) }
    {
        // Allocate first, so that no call is made on the host if memory runs out.
        let mut bytes = zeros(alloc, MAX_BYTES_READ)?;
        let (opened, is_name_stable) = open_and_read(
            host,
            alloc,
            file,
            create_if_missing,
            &mut bytes,
        )?;
        let history = CallRecord::new(&bytes);
        let end = ending(&bytes);
        Ok(HostDisk {
            file: opened,
            bytes,
            faults: 0,
            history,
            end,
            is_name_stable,
            is_full: false,
        })
    }

    /// Returns true if the file's name survives a power cut, because its folder was synced.
    pub fn is_name_stable(&self) -> bool
        ensures { result ≡ self.now.is_name_stable }
    {
        self.is_name_stable
    }

    /// Returns true if the most recent failed call failed because the device was full or a quota
    /// was used up. Returns false if no call has failed.
    pub fn is_full(&self) -> bool
        ensures { result ≡ self.now.is_full }
    {
        self.is_full
    }

    /// Returns true if the file has the size of a session file and begins with the name `MCS4BEN1`.
    pub fn is_named_session(&self) -> bool
        ensures { IsTrue result ↔ IsNamedSession (bytes_of (host_disk self.now)) }
    {
        self.bytes.len() == FILE_SIZE && is_session_name(&self.bytes[0..8])
    }

    // Returns true if `expected` equals the bytes at offset `at` of the copy in memory.
    fn holds(&self, at: usize, expected: &[u8]) -> bool
        requires { at + length expected.now ≤ length self.now.bytes.items }
        ensures { IsTrue result ↔ (expected.now ≡ part at (length expected.now) self.now.bytes.items) }
    {
        expected == &self.bytes[at..at + expected.len()]
    }

    // Adds one to the error count (which saturates), stores `is_full`, and returns `DiskFault`.
    // Changes nothing else. `is_full` says whether the device was full or a quota was used up.
    fn fail(&mut self, is_full: bool) -> DiskFault
        ensures file { self.new.file ≡ self.old.file }
        ensures bytes { self.new.bytes ≡ self.old.bytes }
        ensures history { self.new.history ≡ self.old.history }
        ensures end { self.new.end ≡ self.old.end }
        ensures fault { self.new.faults ≡ min (self.old.faults + 1) max_fault_count }
    {
        self.faults = self.faults.saturating_add(1);
        self.is_full = is_full;
        DiskFault
    }
}

// Returns a vector of `size` zero bytes. Fails if memory runs out.
#[tactic(auto, using(crate::proofs::ZeroBytes::replicated_zeros_are_zeros))]
fn zeros(alloc: Global, size: usize) -> Result<Vec<u8>, AllocError>
    ensures len { IfOk result (λ bytes. vec_len bytes ≡ size) }
    ensures zeros { IfOk result (λ bytes. AreZeros bytes.items) }
{
    vec![in alloc; 0u8; size]
}

impl<H: HostFile> Disk for HostDisk<H> {
    ghost use Rattle.mcs_host.specs.HostDisk.{host_disk};
    ghost use Rattle.mcs_host.specs.HostCalls.{MakesReadCall, SyncData, WriteAt, after_call};

    ghost state = { host_disk };

    fn size(&self) -> usize {
        self.bytes.len()
    }

    fn read(&mut self, at: usize, into: &mut [u8]) -> Result<(), DiskFault>
        requires { at + length into.old ≤ size_of (host_disk self.old) }
        ensures call { CountsFault (host_disk self.old) (host_disk self.new) (IsErr result) }
        ensures lists_call { MakesCalls (WasRead ∷ []) (host_disk self.old).calls (host_disk self.new).calls
            result }
        ensures honest { (host_disk self.old).honest → OnOk result
            (into.new ≡ part at (length into.old) (bytes_of (host_disk self.old))) }
        // The next clause holds even if the file is not honest.
        ensures read_bytes { OnOk result
            (into.new ≡ part at (length into.old) (bytes_of (host_disk self.old))) }
        ensures host_calls { MakesReadCall at into.new result
            (H.HostFile.state self.old.file) (H.HostFile.state self.new.file) }
    {
        let answer = self.file.read_at(at, into);
        if answer.is_err() || !self.holds(at, into) {
            return Err(self.fail(false));
        }
        self.history.note(&Call::Read, &[]);
        Ok(())
    }

    fn write(&mut self, at: usize, from: &[u8]) -> Result<(), DiskFault>
        requires { at + length from.now ≤ size_of (host_disk self.old) }
        ensures call { CountsFault (host_disk self.old) (host_disk self.new) (IsErr result) }
        ensures lists_call { MakesCalls (Wrote at from.now ∷ []) (host_disk self.old).calls
            (host_disk self.new).calls result }
        // The next clause holds even if the write failed, because a failed write can have changed
        // any part of the range.
        ensures torn { (before image : List ℕ) → images_of (host_disk self.old) before
            → Torn at (length from.now) before image → images_of (host_disk self.new) image }
        ensures host_calls { H.HostFile.state self.new.file
            ≡ after_call (WriteAt at from.now (is_ok result)) (H.HostFile.state self.old.file) }
    {
        let answer = self.file.write_at(at, from);
        if answer.is_err() {
            self.history.note(&Call::FailedWrite(at), from);
            return Err(self.fail(is_out_of_space(&answer)));
        }
        self.history.note(&Call::Write(at), from);
        overwrite(&mut self.bytes, at, from);
        Ok(())
    }

    // Syncs only the file's data, because the file's length does not change after the file is
    // opened.
    fn sync(&mut self) -> Result<(), DiskFault>
        ensures call { CountsFault (host_disk self.old) (host_disk self.new) (IsErr result) }
        ensures lists_call { MakesCalls (Synced ∷ []) (host_disk self.old).calls (host_disk self.new).calls
            result }
        ensures host_calls { H.HostFile.state self.new.file
            ≡ after_call (SyncData (is_ok result)) (H.HostFile.state self.old.file) }
    {
        let answer = self.file.sync_data();
        if answer.is_err() {
            return Err(self.fail(is_out_of_space(&answer)));
        }
        self.history.note(&Call::Sync, &[]);
        Ok(())
    }
}

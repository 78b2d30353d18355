//! An in-memory disk.
ghost use Rattle.std.specs.Prelude.{◌≡◌, ◌+◌, ◌≤◌, [], ◌∷◌, length, replicate, IfOk, IsErr, IsOk, OnOk};
ghost use Rattle.mcs_disk.specs.Disk.{CountsFault, bytes_of, part, size_of};
ghost use Rattle.mcs_disk.specs.Calls.{bytes_after, WasRead, Wrote, Synced};
ghost use Rattle.mcs_disk.specs.CallList.{MakesCalls};
ghost use Rattle.mcs_disk.specs.NotedCalls.{calls_in};

use crate::call_record::{Call, CallRecord};
use crate::{Disk, DiskFault, overwrite};
use std::alloc::{AllocError, Global};

/// An honest in-memory disk. Every call returns Ok, and no call allocates memory.
///
/// The calls on the disk determine the bytes that a power cut could have left at each moment. Only
/// contracts can see these calls.
#[derive(Drop)]
pub struct MemDisk {
    pub(crate) bytes: Vec<u8>,
    pub(crate) history: CallRecord,
    ghost bytes_match_calls: { bytes.items ≡ bytes_after history.start (calls_in history.notes) },
    ghost sized: { length bytes.items ≡ length history.start },
}

impl MemDisk {
    ghost use Rattle.mcs_disk.specs.States.{IsFresh, mem_disk_state};

    /// Creates a disk of `size` zero bytes. Fails if memory runs out.
    pub fn new(alloc: Global, size: usize) -> Result<MemDisk, AllocError>
        ensures { IfOk result (λ disk. IsFresh (replicate size 0) (mem_disk_state disk)) }
    {
        Ok(MemDisk::with_bytes(vec![in alloc; 0u8; size]?))
    }

    /// Creates a disk that holds these bytes and has had no calls.
    pub fn with_bytes(bytes: Vec<u8>) -> MemDisk
        ensures { IsFresh bytes.items (mem_disk_state result) }
    {
        let history = CallRecord::new(&bytes);
        MemDisk { bytes, history }
    }

    /// Returns the current bytes of the disk.
    pub fn bytes(&self) -> &[u8]
        ensures { result.now ≡ bytes_of (mem_disk_state self.now) }
    {
        self.bytes.as_slice()
    }
}

impl Disk for MemDisk {
    ghost use Rattle.mcs_disk.specs.States.{mem_disk_state};

    ghost state = { mem_disk_state };

    fn size(&self) -> usize {
        self.bytes.len()
    }

    fn read(&mut self, at: usize, into: &mut [u8]) -> Result<(), DiskFault>
        requires { at + length into.old ≤ size_of (mem_disk_state self.old) }
        ensures call { CountsFault (mem_disk_state self.old) (mem_disk_state self.new)
            (IsErr result) }
        ensures lists_call { MakesCalls (WasRead ∷ []) (mem_disk_state self.old).calls
            (mem_disk_state self.new).calls result }
        ensures honest { (mem_disk_state self.old).honest
            → OnOk result
            (into.new ≡ part at (length into.old) (bytes_of (mem_disk_state self.old))) }
        ensures answered { IsOk result }
    {
        into.copy_from_slice(&self.bytes[at..at + into.len()]);
        self.history.note(&Call::Read, &[]);
        Ok(())
    }

    fn write(&mut self, at: usize, from: &[u8]) -> Result<(), DiskFault>
        requires { at + length from.now ≤ size_of (mem_disk_state self.old) }
        ensures call { CountsFault (mem_disk_state self.old) (mem_disk_state self.new)
            (IsErr result) }
        ensures lists_call { MakesCalls (Wrote at from.now ∷ []) (mem_disk_state self.old).calls
            (mem_disk_state self.new).calls result }
        ensures answered { IsOk result }
    {
        self.history.note(&Call::Write(at), from);
        overwrite(&mut self.bytes, at, from);
        Ok(())
    }

    fn sync(&mut self) -> Result<(), DiskFault>
        ensures call { CountsFault (mem_disk_state self.old) (mem_disk_state self.new)
            (IsErr result) }
        ensures lists_call { MakesCalls (Synced ∷ []) (mem_disk_state self.old).calls
            (mem_disk_state self.new).calls result }
        ensures answered { IsOk result }
    {
        self.history.note(&Call::Sync, &[]);
        Ok(())
    }
}

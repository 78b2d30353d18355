//! An in-memory disk that fails chosen calls.
ghost use Rattle.std.specs.Prelude.{◌≡◌, ◌≤◌, ◌+◌, ◌↔◌, ℕ, [], ◌∷◌, length, min, IsErr, OnErr, OnOk, IsTrue};
ghost use Rattle.mcs_disk.specs.Disk.{max_fault_count, CountsFault, bytes_of, part, size_of};
ghost use Rattle.mcs_disk.specs.CallList.{MakesCalls};
ghost use Rattle.mcs_disk.specs.Calls.{WasRead, Wrote, Synced};

use crate::{Disk, DiskFault, MemDisk};

/// A schedule that decides which calls fail.
#[derive(Clone, Copy)]
enum Fuse {
    /// No call fails.
    NeverFails,
    /// This number of calls succeed; every later call fails.
    FailsAllAfter(usize),
    /// This number of calls succeed; only the next call after them fails.
    FailsOneAfter(usize),
}

impl Fuse {
    ghost use Rattle.mcs_disk.specs.Fuse.{Fails};

    // Returns true if the next call fails, and advances the schedule by one call.
    fn next_call_fails(&mut self) -> bool
        ensures now { IsTrue result ↔ Fails self.old 0 }
        ensures later { (n : ℕ) → Fails self.new n ↔ Fails self.old (n + 1) }
    {
        match *self {
            Fuse::NeverFails => false,
            Fuse::FailsAllAfter(0) => true,
            Fuse::FailsAllAfter(left) => {
                *self = Fuse::FailsAllAfter(left - 1);
                false
            }
            Fuse::FailsOneAfter(0) => {
                *self = Fuse::NeverFails;
                true
            }
            Fuse::FailsOneAfter(left) => {
                *self = Fuse::FailsOneAfter(left - 1);
                false
            }
        }
    }
}

/// A wrapper around a [`MemDisk`] that fails chosen calls without passing them on.
///
/// The wrapper counts the calls that it fails. It is honest because the wrapped disk is honest. The
/// wrapped disk answers every call that is passed on with Ok.
#[derive(Drop)]
pub struct FuseDisk {
    disk: MemDisk,
    fuse: Fuse,
    faults: u64,
}

impl FuseDisk {
    ghost use Rattle.mcs_disk.specs.Fuse.{FailsAfter, inner_disk};
    ghost use Rattle.mcs_disk.specs.States.{fuse_disk_state, mem_disk_state};

    /// Wraps a disk. The result passes on the first `calls` calls and fails every later call.
    pub fn after(disk: MemDisk, calls: usize) -> FuseDisk
        ensures counts { CountsFault (mem_disk_state disk) (fuse_disk_state result) ⊥ }
        ensures calls { (fuse_disk_state result).calls ≡ (mem_disk_state disk).calls }
        ensures inner { inner_disk result ≡ disk }
        ensures fails { (n : ℕ) → FailsAfter result n ↔ (calls ≤ n) }
    {
        FuseDisk {
            disk,
            fuse: Fuse::FailsAllAfter(calls),
            faults: 0,
        }
    }

    /// Wraps a disk. The result fails only one call, the first after `calls` calls, and passes on
    /// all others.
    pub fn once(disk: MemDisk, calls: usize) -> FuseDisk
        ensures counts { CountsFault (mem_disk_state disk) (fuse_disk_state result) ⊥ }
        ensures calls { (fuse_disk_state result).calls ≡ (mem_disk_state disk).calls }
        ensures inner { inner_disk result ≡ disk }
        ensures fails { (n : ℕ) → FailsAfter result n ↔ (n ≡ calls) }
    {
        FuseDisk {
            disk,
            fuse: Fuse::FailsOneAfter(calls),
            faults: 0,
        }
    }

    /// Disarms the fuse: every later call is passed on to the wrapped disk.
    pub fn mend(&mut self)
        ensures counts { CountsFault (fuse_disk_state self.old) (fuse_disk_state self.new) ⊥ }
        ensures calls { (fuse_disk_state self.new).calls ≡ (fuse_disk_state self.old).calls }
        ensures inner { inner_disk self.new ≡ inner_disk self.old }
        ensures fails { (n : ℕ) → ¬ (FailsAfter self.new n) }
    {
        self.fuse = Fuse::NeverFails;
    }

    // Adds one to the error count (which saturates) and returns `DiskFault`. Changes nothing else.
    fn fail(&mut self) -> DiskFault
        ensures inner { self.new.disk ≡ self.old.disk }
        ensures fuse { self.new.fuse ≡ self.old.fuse }
        ensures fault { self.new.faults ≡ min (self.old.faults + 1) max_fault_count }
    {
        self.faults = self.faults.saturating_add(1);
        DiskFault
    }
}

impl Disk for FuseDisk {
    ghost use Rattle.mcs_disk.specs.Fuse.{FuseCall};
    ghost use Rattle.mcs_disk.specs.States.{fuse_disk_state};

    ghost state = { fuse_disk_state };

    fn size(&self) -> usize {
        self.disk.size()
    }

    fn read(&mut self, at: usize, into: &mut [u8]) -> Result<(), DiskFault>
        requires { at + length into.old ≤ size_of (fuse_disk_state self.old) }
        ensures call { CountsFault (fuse_disk_state self.old) (fuse_disk_state self.new)
            (IsErr result) }
        ensures lists_call { MakesCalls (WasRead ∷ []) (fuse_disk_state self.old).calls
            (fuse_disk_state self.new).calls result }
        ensures honest { (fuse_disk_state self.old).honest
            → OnOk result
            (into.new ≡ part at (length into.old) (bytes_of (fuse_disk_state self.old))) }
        ensures refused { OnErr result
            ((fuse_disk_state self.new).calls ≡ (fuse_disk_state self.old).calls) }
        ensures fuse { FuseCall self.old self.new result }
    {
        if self.fuse.next_call_fails() {
            return Err(self.fail());
        }
        self.disk.read(at, into)
    }

    fn write(&mut self, at: usize, from: &[u8]) -> Result<(), DiskFault>
        requires { at + length from.now ≤ size_of (fuse_disk_state self.old) }
        ensures call { CountsFault (fuse_disk_state self.old) (fuse_disk_state self.new)
            (IsErr result) }
        ensures lists_call { MakesCalls (Wrote at from.now ∷ []) (fuse_disk_state self.old).calls
            (fuse_disk_state self.new).calls result }
        ensures refused { OnErr result
            ((fuse_disk_state self.new).calls ≡ (fuse_disk_state self.old).calls) }
        ensures fuse { FuseCall self.old self.new result }
    {
        if self.fuse.next_call_fails() {
            return Err(self.fail());
        }
        self.disk.write(at, from)
    }

    fn sync(&mut self) -> Result<(), DiskFault>
        ensures call { CountsFault (fuse_disk_state self.old) (fuse_disk_state self.new)
            (IsErr result) }
        ensures lists_call { MakesCalls (Synced ∷ []) (fuse_disk_state self.old).calls
            (fuse_disk_state self.new).calls result }
        ensures refused { OnErr result
            ((fuse_disk_state self.new).calls ≡ (fuse_disk_state self.old).calls) }
        ensures fuse { FuseCall self.old self.new result }
    {
        if self.fuse.next_call_fails() {
            return Err(self.fail());
        }
        self.disk.sync()
    }
}

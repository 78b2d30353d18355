//! The [`Disk`] trait: a byte device of fixed size. Reads of an honest disk return the bytes that
//! the calls on it have left.
ghost use Rattle.std.specs.Prelude.{◌≡◌, ◌≤◌, ◌+◌, [], ◌∷◌, length, IsErr, OnOk};
ghost use Rattle.mcs_disk.specs.Disk.{DiskState, bytes_of, part, put, size_of, CountsFault};
ghost use Rattle.mcs_disk.specs.CallList.{MakesCalls};
ghost use Rattle.mcs_disk.specs.Calls.{WasRead, Wrote, Synced};

use thiserror::Error;

/// An I/O error: a call on the disk failed.
#[derive(Clone, Copy, Debug, PartialEq, Eq, Error)]
#[error("the device failed")]
pub struct DiskFault;

/// A byte device that can read and write ranges, and sync.
///
/// Every disk has a size, an error count and a list of the calls on it. On an honest disk, a read
/// returns the bytes that the listed calls have left. The list also determines which bytes a power
/// cut can leave. Between two syncs, a cut can leave any bytes in a written range. After a
/// successful sync, it leaves the current bytes.
pub trait Disk {
    /// The state of the disk, as contracts see it.
    ghost state: { Self → DiskState };

    /// Returns the size in bytes. No call changes it.
    fn size(&self) -> usize
        ensures { result ≡ size_of (state self.now) };

    /// Fills `into` with the bytes that start at offset `at`. The range must lie within the disk.
    /// Fails if the device fails. On an honest disk, a read that returns Ok returns the bytes that
    /// the calls so far have left.
    fn read(&mut self, at: usize, into: &mut [u8]) -> Result<(), DiskFault>
        requires { at + length into.old ≤ size_of (state self.old) }
        ensures call { CountsFault (state self.old) (state self.new) (IsErr result) }
        ensures lists_call { MakesCalls (WasRead ∷ []) (state self.old).calls (state self.new).calls result }
        ensures honest { (state self.old).honest
            → OnOk result (into.new ≡ part at (length into.old) (bytes_of (state self.old))) };

    /// Writes `from` at offset `at`. The range must lie within the disk. Fails if the device fails.
    /// Until a sync succeeds, a power cut can leave any bytes in that range.
    fn write(&mut self, at: usize, from: &[u8]) -> Result<(), DiskFault>
        requires { at + length from.now ≤ size_of (state self.old) }
        ensures call { CountsFault (state self.old) (state self.new) (IsErr result) }
        ensures lists_call { MakesCalls (Wrote at from.now ∷ []) (state self.old).calls
            (state self.new).calls result };

    /// Makes all written bytes stable: after Ok, a power cut leaves the bytes that a read returns.
    /// Fails if the device fails.
    fn sync(&mut self) -> Result<(), DiskFault>
        ensures call { CountsFault (state self.old) (state self.new) (IsErr result) }
        ensures lists_call { MakesCalls (Synced ∷ []) (state self.old).calls (state self.new).calls result };
}

/// Overwrites the bytes at offset `at` with `from`, and leaves the other bytes unchanged.
///
/// The range `at..at + from.len()` must lie within `bytes`.
pub fn overwrite(bytes: &mut [u8], at: usize, from: &[u8])
    requires { at + length from.now ≤ length bytes.old }
    ensures { bytes.new ≡ put at from.now bytes.old }
{
    bytes[at..at + from.len()].copy_from_slice(from);
}

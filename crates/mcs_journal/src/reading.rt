//! Functions that read a disk's contents: the snapshot and the records. None of them writes.
ghost use Rattle.std.specs.Prelude.{◌≡◌, ◌≢◌, ◌≤◌, ◌<◌, ◌+◌, ◌*◌, ◌^◌, List, [], ◌∷◌, ◌++◌, ℕ, length, slice_index, IfOk, IfSome, IfNone, OnOk, OnErr, IsErr, IsErrOf};
ghost use Rattle.mcs_disk.specs.Disk.{part, bytes_of, size_of, time_of};
ghost use Rattle.mcs_disk.specs.Changes.{ReadsOnly};
ghost use Rattle.mcs_disk.specs.PowerCut.{IsDurable};
ghost use Rattle.mcs_journal.specs.declared.format.TheConstants.{FILE_SIZE};
ghost use Rattle.mcs_journal.specs.File.{Holds, IsLog, slot_of, frames_of};
ghost use Rattle.mcs_disk.specs.CallList.{MakesCalls};
ghost use Rattle.mcs_disk.specs.Calls.{WasRead};
ghost use Rattle.mcs_journal.specs.Calls.{AreReads, FailedOpenCalls, read_calls, open_calls};
ghost use Rattle.mcs_journal.specs.Writing.{IsHeader, IsRecordAt, HasNoRecordAt, IsSnapshot};

use crate::bytes::Bytes;
use crate::fault::StoreFault;
use crate::format::{
    AREA_SIZE, COMMITTED, FRAME_HEADER_SIZE, HEADER_SIZE, LOG_SIZE, MAX_RECORD_SIZE,
    MAX_SNAPSHOT_SIZE, NAME, NAME_SIZE, SELECTOR_OFFSET, SNAPSHOT_OFFSET, ZEROS, ZEROS_OFFSET,
};
use crate::slot::Slot;
use mcs_disk::{Disk, DiskFault};
use std::alloc::Global;

/// Fills `into` with the bytes of the disk that start at offset `at`. The read does not change
/// which bytes a power cut can leave. Fails if the device fails.
pub fn read_at<D: Disk>(disk: &mut D, at: usize, into: &mut [u8]) -> Result<(), DiskFault>
    requires { at + length into.old ≤ size_of (D.state disk.old) }
    ensures reads { ReadsOnly (D.state disk.old) (D.state disk.new) (IsErr result) }
    ensures calls { MakesCalls (WasRead ∷ []) (D.state disk.old).calls (D.state disk.new).calls result }
    ensures ticks { (D.state disk.old).honest
        → OnOk result (time_of (D.state disk.new) ≡ time_of (D.state disk.old) + 1) }
    ensures read_bytes { (D.state disk.old).honest
        → OnOk result (into.new ≡ part at (length into.old) (bytes_of (D.state disk.old))) }
{
    disk.read(at, into)
}

/// Reads the record whose commit byte is at offset `at`. The log has `room` bytes from that offset
/// to its end. Returns `None` if the commit byte is not 1. Fails if the commit byte is 1 but no
/// record that fits into the log follows, if the device fails, or if memory runs out.
pub fn read_record<D: Disk>(
    alloc: Global,
    disk: &mut D,
    at: usize,
    room: usize,
) -> Result<Option<Bytes>, StoreFault>
    requires inside { at + room ≤ size_of (D.state disk.old) }
    requires fits { size_of (D.state disk.old) < 2 ^ 64 }
    requires some { 1 ≤ room }
    ensures reads { ReadsOnly (D.state disk.old) (D.state disk.new)
        (IsErrOf result StoreFault.Device) }
    ensures calls { IfOk result (λ o. IfNone o
        ((D.state disk.new).calls ≡ read_calls 1 ++ (D.state disk.old).calls)) }
    ensures record_calls { IfOk result (λ o. IfSome o (λ r.
        (D.state disk.new).calls ≡ read_calls 3 ++ (D.state disk.old).calls)) }
    ensures error_calls { OnErr result
        (AreReads (D.state disk.old).calls (D.state disk.new).calls) }
    ensures record_fits { IfOk result (λ o. IfSome o (λ r. length r + 4 ≤ room)) }
    ensures ends_log { (D.state disk.old).honest
        → IfOk result (λ o. IfNone o (slice_index (bytes_of (D.state disk.old)) at ≢ 1)) }
    ensures next { (D.state disk.old).honest
        → IfOk result (λ o. IfSome o (λ r. IsRecordAt (bytes_of (D.state disk.old)) at r)) }
    ensures damaged { (D.state disk.old).honest → IsErrOf result StoreFault.Damaged
        → HasNoRecordAt (bytes_of (D.state disk.old)) at room }
    ensures not_a_session { IsErrOf result StoreFault.NotASession → ⊥ }
    ensures not_blank { IsErrOf result StoreFault.NotBlank → ⊥ }
{
    let mut commit_byte = [0u8];
    read_at(disk, at, &mut commit_byte)?;
    if commit_byte[0] != COMMITTED {
        return Ok(None);
    }
    if room < FRAME_HEADER_SIZE + 2 {
        return Err(StoreFault::Damaged);
    }
    let mut prefix = [0u8; 2];
    read_at(disk, at + 1, &mut prefix)?;
    let len = prefix[0] as usize * 256 + prefix[1] as usize;
    if len == 0 || len > MAX_RECORD_SIZE || room < FRAME_HEADER_SIZE + len + 1 {
        return Err(StoreFault::Damaged);
    }
    let mut bytes = vec![in alloc; 0u8; len]?;
    read_at(disk, at + FRAME_HEADER_SIZE, &mut bytes)?;
    Ok(Some(Bytes { bytes }))
}

/// The records of a log, and the number of bytes that their frames occupy.
#[derive(Drop)]
pub struct Log {
    pub records: Vec<Bytes>,
    pub used: usize,
}

/// Reads the log that starts at offset `at`, up to the first commit byte that is not 1. Fails if
/// the log is damaged, if the device fails, or if memory runs out.
pub fn read_log<D: Disk>(alloc: Global, disk: &mut D, at: usize) -> Result<Log, StoreFault>
    requires inside { at + LOG_SIZE ≤ size_of (D.state disk.old) }
    requires fits { size_of (D.state disk.old) < 2 ^ 64 }
    ensures reads { ReadsOnly (D.state disk.old) (D.state disk.new)
        (IsErrOf result StoreFault.Device) }
    ensures calls { IfOk result (λ log. (D.state disk.new).calls
        ≡ read_calls (1 + 3 * length log.records.items) ++ (D.state disk.old).calls) }
    ensures error_calls { OnErr result
        (AreReads (D.state disk.old).calls (D.state disk.new).calls) }
    ensures within { IfOk result (λ log. log.used + 1 ≤ LOG_SIZE) }
    ensures found { (D.state disk.old).honest
        → IfOk result (λ log. IsLog log.records.items (part at LOG_SIZE (bytes_of (D.state disk.old)))
        × (log.used ≡ length (frames_of log.records.items))) }
    ensures damaged { (D.state disk.old).honest → IsErrOf result StoreFault.Damaged
        → (records : List (List ℕ)) → IsLog records (part at LOG_SIZE (bytes_of (D.state disk.old)))
        → ⊥ }
    ensures not_a_session { IsErrOf result StoreFault.NotASession → ⊥ }
    ensures not_blank { IsErrOf result StoreFault.NotBlank → ⊥ }
{
    let mut records = Vec::new(alloc);
    let mut used = 0;
    while let Some(record) = read_record(alloc, disk, at + used, LOG_SIZE - used)? {
        used += record.bytes().len() + FRAME_HEADER_SIZE;
        records.push(record)?;
    }
    Ok(Log { records, used })
}

/// Reads the header and returns the slot that its selector selects. Fails if the name or the zeros
/// are wrong, or if the device fails.
pub fn read_header<D: Disk>(disk: &mut D) -> Result<Slot, StoreFault>
    requires size { size_of (D.state disk.old) ≡ FILE_SIZE }
    ensures reads { ReadsOnly (D.state disk.old) (D.state disk.new)
        (IsErrOf result StoreFault.Device) }
    ensures calls { OnOk result ((D.state disk.new).calls ≡ read_calls 1 ++ (D.state disk.old).calls) }
    ensures error_calls { OnErr result
        (AreReads (D.state disk.old).calls (D.state disk.new).calls) }
    ensures header { (D.state disk.old).honest
        → IfOk result (λ slot. IsHeader (bytes_of (D.state disk.old)) slot) }
    ensures no_session { (D.state disk.old).honest → IsErrOf result StoreFault.NotASession
        → part 0 8 (bytes_of (D.state disk.old)) ≢ NAME }
    ensures damaged { (D.state disk.old).honest → IsErrOf result StoreFault.Damaged
        → (part 0 8 (bytes_of (D.state disk.old)) ≡ NAME)
        × (part 9 7 (bytes_of (D.state disk.old)) ≢ ZEROS) }
    ensures not_blank { IsErrOf result StoreFault.NotBlank → ⊥ }
{
    let mut header = [0u8; HEADER_SIZE];
    read_at(disk, 0, &mut header)?;
    if header[..NAME_SIZE] != NAME[..] {
        return Err(StoreFault::NotASession);
    }
    if header[ZEROS_OFFSET..] != ZEROS[..] {
        return Err(StoreFault::Damaged);
    }
    Ok(Slot::selected_by(header[SELECTOR_OFFSET]))
}

/// Reads the snapshot of the slot that starts at offset `start`. Fails if the stored length is
/// above the limit of a snapshot, if the device fails, or if memory runs out.
pub fn read_snapshot<D: Disk>(
    alloc: Global,
    disk: &mut D,
    start: usize,
) -> Result<Bytes, StoreFault>
    requires inside { start + AREA_SIZE ≤ size_of (D.state disk.old) }
    requires fits { size_of (D.state disk.old) < 2 ^ 64 }
    ensures reads { ReadsOnly (D.state disk.old) (D.state disk.new)
        (IsErrOf result StoreFault.Device) }
    ensures calls { OnOk result ((D.state disk.new).calls ≡ read_calls 2 ++ (D.state disk.old).calls) }
    ensures error_calls { OnErr result
        (AreReads (D.state disk.old).calls (D.state disk.new).calls) }
    ensures snap { (D.state disk.old).honest
        → IfOk result (λ snap. IsSnapshot (bytes_of (D.state disk.old)) start snap) }
    ensures damaged { (D.state disk.old).honest → IsErrOf result StoreFault.Damaged
        → (snap : List ℕ) → IsSnapshot (bytes_of (D.state disk.old)) start snap → ⊥ }
    ensures not_a_session { IsErrOf result StoreFault.NotASession → ⊥ }
    ensures not_blank { IsErrOf result StoreFault.NotBlank → ⊥ }
{
    let mut prefix = [0u8; SNAPSHOT_OFFSET];
    read_at(disk, start, &mut prefix)?;
    let len = prefix[2] as usize * 256 + prefix[3] as usize;
    if prefix[0] != 0 || prefix[1] != 0 || len > MAX_SNAPSHOT_SIZE {
        return Err(StoreFault::Damaged);
    }
    let mut bytes = vec![in alloc; 0u8; len]?;
    read_at(disk, start + SNAPSHOT_OFFSET, &mut bytes)?;
    Ok(Bytes { bytes })
}

/// The contents that were read from a disk, and the slot that they were read from.
#[derive(Drop)]
pub struct FoundContents {
    pub slot: Slot,
    pub snap: Bytes,
    pub log: Log,
}

/// Syncs the disk, and reads the contents that it holds. Fails if the disk holds no valid contents,
/// if the device fails, or if memory runs out.
///
/// Without the sync, a power cut after the call could lose the contents that the call has returned.
pub fn read_contents<D: Disk>(alloc: Global, disk: &mut D) -> Result<FoundContents, StoreFault>
    requires size { size_of (D.state disk.old) ≡ FILE_SIZE }
    ensures reads { ReadsOnly (D.state disk.old) (D.state disk.new)
        (IsErrOf result StoreFault.Device) }
    ensures calls { IfOk result (λ found. (D.state disk.new).calls
        ≡ open_calls (length found.log.records.items) ++ (D.state disk.old).calls) }
    ensures error_calls { OnErr result
        (FailedOpenCalls (D.state disk.old).calls (D.state disk.new).calls) }
    ensures within { IfOk result (λ found. found.log.used + 1 ≤ LOG_SIZE) }
    ensures durable { (D.state disk.old).honest → OnOk result (IsDurable (D.state disk.new)) }
    ensures active { (D.state disk.old).honest
        → IfOk result (λ found. slot_of (bytes_of (D.state disk.old)) ≡ found.slot) }
    ensures count { (D.state disk.old).honest
        → IfOk result (λ found. found.log.used ≡ length (frames_of found.log.records.items)) }
    ensures holds { (D.state disk.old).honest
        → IfOk result (λ found. Holds
        (bytes_of (D.state disk.old)) found.snap found.log.records.items) }
    ensures damaged { (D.state disk.old).honest → IsErrOf result StoreFault.Damaged
        → (snap : List ℕ) (records : List (List ℕ))
        → Holds (bytes_of (D.state disk.old)) snap records → ⊥ }
    ensures session { (D.state disk.old).honest → IsErrOf result StoreFault.Damaged
        → part 0 8 (bytes_of (D.state disk.old)) ≡ NAME }
    ensures no_session { (D.state disk.old).honest → IsErrOf result StoreFault.NotASession
        → part 0 8 (bytes_of (D.state disk.old)) ≢ NAME }
    ensures not_blank { IsErrOf result StoreFault.NotBlank → ⊥ }
{
    disk.sync()?;
    let slot = read_header(disk)?;
    let start = slot.start();
    let snap = read_snapshot(alloc, disk, start)?;
    let log = read_log(alloc, disk, start + AREA_SIZE)?;
    Ok(FoundContents { slot, snap, log })
}

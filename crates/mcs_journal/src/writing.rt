//! The writes of a store. Each change first writes bytes outside the part of the disk that `open`
//! reads, and syncs. A second write then makes these bytes part of the contents, and a second sync
//! follows. The second write is a commit byte, the selector or, for a new store, the header.
//! Because of the first sync, the second write never reaches the disk before the first one.
ghost use Rattle.std.specs.Prelude.{◌≡◌, ◌⊎◌, ◌≤◌, ◌+◌, List, [], ◌∷◌, ◌++◌, ℕ, length, take, slice_index, OnOk, IfErr, IsErr, IsErrOf};
ghost use Rattle.mcs_disk.specs.Disk.{CountsFault, bytes_of, size_of, time_of, IsLater};
ghost use Rattle.mcs_disk.specs.Changes.{Changes, ReadsOnly};
ghost use Rattle.mcs_disk.specs.PowerCut.{IsDurable};
ghost use Rattle.mcs_journal.specs.declared.format.TheConstants.{FILE_SIZE, MAX_RECORD_SIZE, MAX_SNAPSHOT_SIZE, AREA_WITH_COMMIT_SIZE};
ghost use Rattle.mcs_journal.specs.File.{Holds, IsBlank, IsRecord, be16, slot_of};
ghost use Rattle.mcs_disk.specs.CallList.{MakesCalls};
ghost use Rattle.mcs_disk.specs.Calls.{WasRead};
ghost use Rattle.mcs_journal.specs.Calls.{MakesWithArea, append_calls, commit_calls, create_calls, replace_calls};
ghost use Rattle.mcs_journal.specs.Writing.{CommitsBytes, IsArea, IsCommitOffset, other_slot};

use crate::fault::StoreFault;
use crate::format::{
    AREA_SIZE, COMMITTED, FIRST_HEADER, FRAME_HEADER_SIZE, HEADER_SIZE, NOT_COMMITTED,
    SELECTOR_OFFSET, SNAPSHOT_OFFSET,
};
use crate::reading::read_at;
use crate::slot::Slot;
use mcs_disk::{Disk, DiskFault};

/// Writes `from` at offset `at`, and then syncs the disk. Fails if the device fails.
pub fn commit<D: Disk>(disk: &mut D, at: usize, from: &[u8]) -> Result<(), DiskFault>
    requires { at + length from.now ≤ size_of (D.state disk.old) }
    ensures call { CountsFault (D.state disk.old) (D.state disk.new) (IsErr result) }
    ensures calls { MakesCalls (commit_calls at from.now) (D.state disk.old).calls
        (D.state disk.new).calls result }
    ensures commits { (D.state disk.old).honest
        → CommitsBytes at from.now (D.state disk.old) (D.state disk.new) result }
{
    disk.write(at, from)?;
    disk.sync()
}

/// Writes the bytes that follow a record's commit byte into `buffer`: the record's length, the
/// record, and a commit byte of 0.
pub fn encode_record(buffer: &mut [u8], payload: &[u8])
    requires room { length payload.now + 3 ≤ length buffer.old }
    requires within_limit { length payload.now ≤ MAX_RECORD_SIZE }
    ensures { take (length payload.now + 3) buffer.new ≡ be16
        (length payload.now) ++ payload.now ++ 0 ∷ [] }
{
    let n = payload.len();
    buffer[0] = (n / 256) as u8;
    buffer[1] = (n % 256) as u8;
    buffer[2..2 + n].copy_from_slice(payload);
    buffer[2 + n] = NOT_COMMITTED;
}

/// Writes a record after the commit byte at offset `commit_at`, and then sets that commit byte to
/// 1. Fails if the device fails.
pub fn add_record<D: Disk>(
    disk: &mut D,
    buffer: &mut [u8],
    commit_at: usize,
    payload: &[u8],
) -> Result<(), DiskFault>
    requires inside { commit_at + length payload.now + 4 ≤ size_of (D.state disk.old) }
    requires file_size { size_of (D.state disk.old) ≡ FILE_SIZE }
    requires room { length payload.now + 3 ≤ length buffer.old }
    requires valid_length { IsRecord payload.now }
    ensures call { CountsFault (D.state disk.old) (D.state disk.new) (IsErr result) }
    ensures calls { MakesCalls (append_calls commit_at payload.now) (D.state disk.old).calls
        (D.state disk.new).calls result }
    ensures selector { (D.state disk.old).honest → 16 ≤ commit_at
        → slice_index (bytes_of (D.state disk.new)) 8 ≡ slice_index (bytes_of (D.state disk.old)) 8 }
    ensures changes { (D.state disk.old).honest → IsDurable (D.state disk.old)
        → (snap : List ℕ) (records : List (List ℕ))
        → Holds (bytes_of (D.state disk.old)) snap records
        → IsCommitOffset (bytes_of (D.state disk.old)) records commit_at (length payload.now)
        → Changes 4 (D.state disk.old) (D.state disk.new) (λ c. Holds c snap records)
        (λ c. Holds c snap (records ++ payload.now ∷ [])) result }
{
    encode_record(buffer, payload);
    commit(
        disk,
        commit_at + 1,
        &buffer[..payload.len() + FRAME_HEADER_SIZE],
    )?;
    commit(disk, commit_at, &[COMMITTED])
}

/// Writes the snapshot area of `snap` and, after it, a commit byte of 0 into `buffer`.
pub fn encode_snapshot(buffer: &mut [u8], snap: &[u8])
    requires room { length buffer.old ≡ AREA_WITH_COMMIT_SIZE }
    requires within_limit { length snap.now ≤ MAX_SNAPSHOT_SIZE }
    ensures { IsArea snap.now buffer.new }
{
    let n = snap.len();
    buffer[0] = 0;
    buffer[1] = 0;
    buffer[2] = (n / 256) as u8;
    buffer[3] = (n % 256) as u8;
    buffer[SNAPSHOT_OFFSET..SNAPSHOT_OFFSET + n].copy_from_slice(snap);
    buffer[AREA_SIZE] = NOT_COMMITTED;
}

/// Writes a snapshot and no records into the slot `other`, and then sets the selector to that slot.
/// Fails if the device fails. If `other` is the inactive slot of an honest, durable disk, a power
/// cut leaves the old contents or the new contents.
pub fn replace_contents<D: Disk>(
    disk: &mut D,
    buffer: &mut [u8],
    other: Slot,
    snap: &[u8],
) -> Result<(), DiskFault>
    requires size { size_of (D.state disk.old) ≡ FILE_SIZE }
    requires room { length buffer.old ≡ AREA_WITH_COMMIT_SIZE }
    requires within_limit { length snap.now ≤ MAX_SNAPSHOT_SIZE }
    ensures call { CountsFault (D.state disk.old) (D.state disk.new) (IsErr result) }
    ensures calls { MakesWithArea snap.now (replace_calls other) (D.state disk.old).calls
        (D.state disk.new).calls result }
    ensures selected { (D.state disk.old).honest
        → OnOk result (slot_of (bytes_of (D.state disk.new)) ≡ other) }
    ensures changes { (D.state disk.old).honest → IsDurable (D.state disk.old)
        → (old_snap : List ℕ) (records : List (List ℕ))
        → Holds (bytes_of (D.state disk.old)) old_snap records
        → other ≡ other_slot (slot_of (bytes_of (D.state disk.old)))
        → Changes 4 (D.state disk.old) (D.state disk.new) (λ c. Holds c old_snap records)
        (λ c. Holds c snap.now []) result }
{
    encode_snapshot(buffer, snap);
    commit(disk, other.start(), buffer)?;
    commit(disk, SELECTOR_OFFSET, &[other.selector()])
}

/// Checks that the first 16 bytes of a disk are 0. Fails with `NotBlank` if one of them is not 0,
/// and with `Device` if the device fails.
pub fn check_blank<D: Disk>(disk: &mut D) -> Result<(), StoreFault>
    requires size { size_of (D.state disk.old) ≡ FILE_SIZE }
    ensures reads { ReadsOnly (D.state disk.old) (D.state disk.new)
        (IsErrOf result StoreFault.Device) }
    ensures calls { MakesCalls (WasRead ∷ []) (D.state disk.old).calls (D.state disk.new).calls result
        ⊎ (IsErrOf result StoreFault.NotBlank
        × ((D.state disk.new).calls ≡ WasRead ∷ (D.state disk.old).calls)) }
    ensures ticks { (D.state disk.old).honest
        → OnOk result (time_of (D.state disk.new) ≡ time_of (D.state disk.old) + 1) }
    ensures blank { (D.state disk.old).honest
        → OnOk result (IsBlank (D.state disk.old)) }
    ensures not_blank { (D.state disk.old).honest → IsErrOf result StoreFault.NotBlank
        → IsBlank (D.state disk.old) → ⊥ }
    ensures possible_errors { IfErr result (λ fault. (fault ≡ StoreFault.NotBlank)
        ⊎ (fault ≡ StoreFault.Device)) }
{
    let mut header = [0u8; HEADER_SIZE];
    read_at(disk, 0, &mut header)?;
    if header != [0u8; HEADER_SIZE] {
        return Err(StoreFault::NotBlank);
    }
    Ok(())
}

/// Writes the snapshot and no records into the first slot, and then a header that selects this
/// slot. Fails if the device fails.
pub fn write_first<D: Disk>(disk: &mut D, buffer: &mut [u8], snap: &[u8]) -> Result<(), DiskFault>
    requires size { size_of (D.state disk.old) ≡ FILE_SIZE }
    requires room { length buffer.old ≡ AREA_WITH_COMMIT_SIZE }
    requires within_limit { length snap.now ≤ MAX_SNAPSHOT_SIZE }
    ensures call { CountsFault (D.state disk.old) (D.state disk.new) (IsErr result) }
    ensures calls { MakesWithArea snap.now create_calls (D.state disk.old).calls
        (D.state disk.new).calls result }
    ensures room { length buffer.new ≡ AREA_WITH_COMMIT_SIZE }
    ensures is_later { (D.state disk.old).honest
        → IsLater (D.state disk.old) (D.state disk.new) }
    ensures ticks { (D.state disk.old).honest
        → OnOk result (time_of (D.state disk.new) ≡ time_of (D.state disk.old) + 4) }
    ensures written { (D.state disk.old).honest
        → OnOk result (Holds (bytes_of (D.state disk.new)) snap.now []) }
    ensures selected { (D.state disk.old).honest
        → OnOk result (slot_of (bytes_of (D.state disk.new)) ≡ Slot.A) }
    ensures durable { (D.state disk.old).honest → OnOk result (IsDurable (D.state disk.new)) }
{
    encode_snapshot(buffer, snap);
    commit(disk, Slot::A.start(), buffer)?;
    commit(disk, 0, &FIRST_HEADER)
}

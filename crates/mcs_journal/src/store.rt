//! A store: a snapshot and its records on a disk.
ghost use Rattle.std.specs.Prelude.{◌≡◌, ◌≢◌, ◌⊎◌, ◌≤◌, ◌+◌, ◌↔◌, List, [], ◌∷◌, ◌++◌, ℕ, length, is_ok, IsTrue, IsErr, IsErrAnd, OnOk, OnErr, IfErr, IfOk};
ghost use Rattle.mcs_disk.specs.Disk.{bytes_of, size_of, CountsFault};
ghost use Rattle.mcs_disk.specs.Changes.{Changes};
ghost use Rattle.mcs_disk.specs.Stretches.{AddsNoImage, WritesNothing};
ghost use Rattle.mcs_journal.specs.StoreCalls.{CreatesStore, IsCreateFault, IsOpenFault, OpensStore, CreateErrorImplies, OpenErrorImplies};
ghost use Rattle.mcs_disk.specs.CallList.{MakesCalls, AtMostOneUnsynced, unsynced_writes};
ghost use Rattle.mcs_disk.specs.Calls.{WasRead};
ghost use Rattle.mcs_journal.specs.declared.format.TheConstants.{AREA_SIZE, MAX_RECORD_SIZE, MAX_SNAPSHOT_SIZE};
ghost use Rattle.mcs_journal.specs.File.{HasRoom, Holds, IsRecord, frames_of, slot_of, start_of};
ghost use Rattle.mcs_journal.specs.Calls.{MakesWithArea, FailedCreateCalls, FailedOpenCalls, append_calls, create_calls, open_calls, replace_calls};
ghost use Rattle.mcs_journal.specs.Writing.{other_slot};

use crate::bytes::{Bytes, Records};
use crate::fault::StoreFault;
use crate::format::{AREA_SIZE, AREA_WITH_COMMIT_SIZE, FILE_SIZE, FRAME_HEADER_SIZE, LOG_SIZE};
use crate::reading::{FoundContents, Log, read_contents};
use crate::slot::Slot;
use crate::writing::{add_record, check_blank, replace_contents, write_first};
use mcs_disk::{Disk, DiskFault};
use std::alloc::Global;
use std::marker::Model;

/// A snapshot and the records after it, on a disk.
///
/// A call that returns [`DiskFault`] closes the store. An honest disk then holds the contents from
/// before that call or those from after that call. Opening the disk again shows which contents it
/// holds.
#[derive(Drop)]
pub struct Store<D: Disk + Drop> {
    disk: D,
    slot: Slot,
    used: usize,
    live: bool,
    buffer: Vec<u8>,
}

impl<D: Disk + Drop> Model for Store<D> {
    ghost use Rattle.mcs_journal.specs.Store.{StoreView, IsStore};

    ghost Value = { StoreView D };

    ghost view = { λ s. record { disk = s.disk; live = s.live; slot = s.slot; used = s.used } };

    ghost invariant = { λ s. IsStore (D.state s.disk) s.live s.slot s.used s.buffer.items };
}

/// The result of [`open`](Store::open): a store, and the contents that were read from its disk.
#[derive(Drop)]
pub struct Opened<D: Disk + Drop> {
    pub store: Store<D>,
    /// The snapshot, at most 16,380 bytes long.
    pub snap: Bytes,
    /// The records after the snapshot, oldest first.
    pub records: Records,
}

impl<D: Disk + Drop> Store<D> {
    /// Creates a store with the snapshot `snap`, of at most 16,380 bytes, and no records. The disk
    /// must have [`FILE_SIZE`](crate::FILE_SIZE) bytes, and its first 16 bytes must be 0.
    ///
    /// If the call fails, the error contains the disk. If the error is not `Device`, nothing was written. A power cut
    /// during the call can leave any bytes.
    pub fn create(alloc: Global, disk: D, snap: &[u8]) -> Result<Store<D>, (StoreFault, D)>
        requires within_limit { length snap.now ≤ MAX_SNAPSHOT_SIZE }

        // the next clauses hold on any disk
        ensures live { IfOk result (λ store. IsTrue store.live × (store.used ≡ 0)) }
        ensures counts { IfOk result (λ store. CountsFault (D.state disk) (D.state store.disk) ⊥) }
        ensures error_counts_fault { IfErr result (λ refused.
            CountsFault (D.state disk) (D.state refused.1) (refused.0 ≡ StoreFault.Device)) }
        ensures no_memory { IfErr result (λ refused.
            refused.0 ≡ StoreFault.NoMemory → refused.1 ≡ disk) }
        ensures possible_errors { IfErr result (λ refused. IsCreateFault refused.0) }
        ensures writes_nothing { IfErr result (λ refused. refused.0 ≢ StoreFault.Device
            → WritesNothing (D.state disk) (D.state refused.1)) }
        ensures wrong_size { size_of (D.state disk) ≢ FILE_SIZE → IsErrAnd result (λ refused.
            ((refused.0 ≡ StoreFault.NotBlank) ⊎ (refused.0 ≡ StoreFault.NoMemory))
            × (refused.1 ≡ disk)) }
        ensures slot { IfOk result (λ store. store.slot ≡ Slot.A) }
        ensures calls { IfOk result (λ store. MakesWithArea snap.now create_calls
            (WasRead ∷ (D.state disk).calls) (D.state store.disk).calls result) }
        ensures error_calls { IfErr result (λ refused. FailedCreateCalls refused.0 snap.now
            (D.state disk).calls (D.state refused.1).calls result) }
        ensures one_unsynced { unsynced_writes (D.state disk).calls ≡ 0
            → IfOk result (λ store. AtMostOneUnsynced (D.state disk).calls (D.state store.disk).calls) }
        ensures error_one_unsynced { unsynced_writes (D.state disk).calls ≡ 0
            → IfErr result (λ refused. AtMostOneUnsynced (D.state disk).calls
            (D.state refused.1).calls) }

        // the next clauses hold on an honest disk
        ensures created { (D.state disk).honest → IfOk result (λ store.
            CreatesStore (D.state disk) (D.state store.disk) snap.now) }
        ensures refused { (D.state disk).honest → IfErr result (λ refused.
            CreateErrorImplies refused.0 (D.state disk) (D.state refused.1)) }
    {
        let mut buffer = match vec![in alloc; 0u8; AREA_WITH_COMMIT_SIZE] {
            Ok(buffer) => buffer,
            Err(_) => return Err((StoreFault::NoMemory, disk)),
        };
        if disk.size() != FILE_SIZE {
            return Err((StoreFault::NotBlank, disk));
        }
        let mut disk = disk;
        match check_blank(&mut disk) {
            Ok(()) => {}
            Err(fault) => return Err((fault, disk)),
        }
        match write_first(&mut disk, buffer.as_mut_slice(), snap) {
            Ok(()) => Ok(Store {
                disk,
                slot: Slot::A,
                used: 0,
                live: true,
                buffer,
            }),
            Err(DiskFault) => Err((StoreFault::Device, disk)),
        }
    }

    /// Opens the store on a disk, and reads the snapshot and the records. Writes nothing. If the call fails, the error
    /// contains the disk.
    pub fn open(alloc: Global, disk: D) -> Result<Opened<D>, (StoreFault, D)>
        // the next clauses hold on any disk
        ensures live { IfOk result (λ opened. IsTrue opened.store.live) }
        ensures counts { IfOk result (λ opened.
            CountsFault (D.state disk) (D.state opened.store.disk) ⊥) }
        ensures error_counts_fault { IfErr result (λ refused.
            CountsFault (D.state disk) (D.state refused.1) (refused.0 ≡ StoreFault.Device)) }
        ensures possible_errors { IfErr result (λ refused. IsOpenFault refused.0) }
        ensures writes_nothing { IfOk result (λ opened.
            WritesNothing (D.state disk) (D.state opened.store.disk)) }
        ensures error_writes_nothing { IfErr result (λ refused.
            WritesNothing (D.state disk) (D.state refused.1)) }
        ensures wrong_size { size_of (D.state disk) ≢ FILE_SIZE → IsErrAnd result (λ refused.
            ((refused.0 ≡ StoreFault.NotASession) ⊎ (refused.0 ≡ StoreFault.NoMemory))
            × (refused.1 ≡ disk)) }
        ensures calls { IfOk result (λ opened. (D.state opened.store.disk).calls
            ≡ open_calls (length opened.records) ++ (D.state disk).calls) }
        ensures error_calls { IfErr result (λ refused.
            FailedOpenCalls (D.state disk).calls (D.state refused.1).calls) }
        ensures one_unsynced { IfOk result (λ opened.
            AtMostOneUnsynced (D.state disk).calls (D.state opened.store.disk).calls) }
        ensures error_one_unsynced { IfErr result (λ refused.
            AtMostOneUnsynced (D.state disk).calls (D.state refused.1).calls) }

        // the next clauses hold on an honest disk
        ensures opened { (D.state disk).honest → IfOk result (λ opened.
            OpensStore (D.state disk) (D.state opened.store.disk) opened.snap opened.records) }
        ensures used { (D.state disk).honest → IfOk result (λ opened.
            opened.store.used ≡ length (frames_of opened.records)) }
        ensures refused { (D.state disk).honest → IfErr result (λ refused.
            OpenErrorImplies refused.0 (D.state disk) × AddsNoImage (D.state disk) (D.state refused.1)) }
    {
        let buffer = match vec![in alloc; 0u8; AREA_WITH_COMMIT_SIZE] {
            Ok(buffer) => buffer,
            Err(_) => return Err((StoreFault::NoMemory, disk)),
        };
        if disk.size() != FILE_SIZE {
            return Err((StoreFault::NotASession, disk));
        }
        let mut disk = disk;
        match read_contents(alloc, &mut disk) {
            Ok(FoundContents { slot, snap, log }) => {
                let Log { records, used } = log;
                let store = Store {
                    disk,
                    slot,
                    used,
                    live: true,
                    buffer,
                };
                Ok(Opened {
                    store,
                    snap,
                    records: Records { records },
                })
            }
            Err(fault) => Err((fault, disk)),
        }
    }

    /// Returns true if no call on the store has returned [`DiskFault`].
    pub fn is_open(&self) -> bool
        ensures is { result ≡ self.now.live }
        ensures synced { IsTrue self.now.live → unsynced_writes (D.state self.now.disk).calls ≡ 0 }
        ensures slot { IsTrue self.now.live → (D.state self.now.disk).honest
            → self.now.slot ≡ slot_of (bytes_of (D.state self.now.disk)) }
    {
        self.live
    }

    /// Returns true if the log has room for one more record of `len` bytes. `len` must be at most
    /// 8,192.
    pub fn has_room(&self, len: usize) -> bool
        requires { len ≤ MAX_RECORD_SIZE }
        ensures room { IsTrue result ↔ HasRoom self.now.used len }
        ensures used { IsTrue self.now.live → (D.state self.now.disk).honest
            → (snap : List ℕ) (records : List (List ℕ))
            → Holds (bytes_of (D.state self.now.disk)) snap records
            → self.now.used ≡ length (frames_of records) }
    {
        self.used + FRAME_HEADER_SIZE + len + 1 <= LOG_SIZE
    }

    /// Appends a record of 1 to 8,192 bytes to the log. The store must be open, and the log must
    /// have room for the record. If the call fails, it closes the store.
    pub fn append(&mut self, payload: &[u8]) -> Result<(), DiskFault>
        requires live { IsTrue self.old.live }
        requires valid_length { IsRecord payload.now }
        requires room { HasRoom self.old.used (length payload.now) }
        ensures live { self.new.live ≡ is_ok result }
        ensures used { OnOk result (self.new.used ≡ self.old.used + 3 + length payload.now) }
        ensures used_unchanged { OnErr result (self.new.used ≡ self.old.used) }
        ensures counts { CountsFault (D.state self.old.disk) (D.state self.new.disk)
            (IsErr result) }
        ensures slot { self.new.slot ≡ self.old.slot }
        ensures calls { MakesCalls (append_calls
            (start_of self.old.slot + AREA_SIZE + self.old.used) payload.now)
            (D.state self.old.disk).calls (D.state self.new.disk).calls result }
        ensures one_unsynced { AtMostOneUnsynced (D.state self.old.disk).calls
            (D.state self.new.disk).calls }
        ensures appends { (D.state self.old.disk).honest
            → (snap : List ℕ) (records : List (List ℕ))
            → Holds (bytes_of (D.state self.old.disk)) snap records
            → Changes 4 (D.state self.old.disk) (D.state self.new.disk)
            (λ c. Holds c snap records)
            (λ c. Holds c snap (records ++ payload.now ∷ [])) result }
    {
        let commit_at = self.slot.start() + AREA_SIZE + self.used;
        match add_record(&mut self.disk, &mut self.buffer, commit_at, payload) {
            Ok(()) => {
                self.used += payload.len() + FRAME_HEADER_SIZE;
                Ok(())
            }
            Err(fault) => {
                self.live = false;
                Err(fault)
            }
        }
    }

    /// Replaces the snapshot and all records with a new snapshot of at most 16,380 bytes and no
    /// records. The store must be open. If the call fails, it closes the store.
    pub fn replace(&mut self, snap: &[u8]) -> Result<(), DiskFault>
        requires live { IsTrue self.old.live }
        requires within_limit { length snap.now ≤ MAX_SNAPSHOT_SIZE }
        ensures live { self.new.live ≡ is_ok result }
        ensures used { OnOk result (self.new.used ≡ 0) }
        ensures used_unchanged { OnErr result (self.new.used ≡ self.old.used) }
        ensures counts { CountsFault (D.state self.old.disk) (D.state self.new.disk)
            (IsErr result) }
        ensures slot { OnOk result (self.new.slot ≡ other_slot self.old.slot) }
        ensures same_slot { OnErr result (self.new.slot ≡ self.old.slot) }
        ensures calls { MakesWithArea snap.now (replace_calls (other_slot self.old.slot))
            (D.state self.old.disk).calls (D.state self.new.disk).calls result }
        ensures one_unsynced { AtMostOneUnsynced (D.state self.old.disk).calls
            (D.state self.new.disk).calls }
        ensures replaces { (D.state self.old.disk).honest
            → (old_snap : List ℕ) (records : List (List ℕ))
            → Holds (bytes_of (D.state self.old.disk)) old_snap records
            → Changes 4 (D.state self.old.disk) (D.state self.new.disk)
            (λ c. Holds c old_snap records)
            (λ c. Holds c snap.now []) result }
    {
        let other = self.slot.other();
        match replace_contents(&mut self.disk, &mut self.buffer, other, snap) {
            Ok(()) => {
                self.slot = other;
                self.used = 0;
                Ok(())
            }
            Err(fault) => {
                self.live = false;
                Err(fault)
            }
        }
    }

    /// Returns the disk of the store, as the last call left it.
    pub fn disk(&self) -> &D
        ensures { result.now ≡ self.now.disk }
    {
        &self.disk
    }

    /// Ends the store and returns its disk unchanged.
    pub fn into_disk(self) -> D
        ensures { result ≡ self.disk }
    {
        let Store {
            disk,
            slot: _,
            used: _,
            live: _,
            buffer: _,
        } = self;
        disk
    }
}

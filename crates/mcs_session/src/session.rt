//! A session: a bench that records its commands on a disk.
ghost use Rattle.std.specs.Prelude.{◌≡◌, ◌≢◌, ◌⊎◌, ◌↔◌, IsTrue, true, false, IsErrAnd, IfOk, IfErr};
ghost use Rattle.mcs_disk.specs.Disk.{bytes_of, size_of, CountsFault};
ghost use Rattle.mcs_disk.specs.CallList.{AtMostOneUnsynced, unsynced_writes};
ghost use Rattle.mcs_disk.specs.Stretches.{WritesNothing};
ghost use Rattle.mcs_journal.specs.StoreCalls.{IsCreateFault, IsOpenFault, CreateErrorImplies};
ghost use Rattle.mcs_model.specs.BenchState.{new_bench_state};
ghost use Rattle.mcs_session.specs.Represents.{Represents, DiskRepresents};
ghost use Rattle.mcs_session.specs.CommandCalls.{AppliesCommand, ClosesAtDeviceFault, IsSettleResult, RecordsOrFails, SettlesOrFails};
ghost use Rattle.mcs_session.specs.SessionCalls.{CreatesSession, MigratesSession, FailedOpenEffect};
ghost use Rattle.mcs_session.specs.Opening.{OpensSession, SessionErrorImplies};
ghost use Rattle.mcs_session.specs.Invariant.{HasContents, IsReady, IsRecorded, MayReplaceAnyContents, ReplacedAnyContents};

use crate::fault::SessionFault;
use crate::recording::{CommandLog, encode_state, log_buffers};
use crate::replaying::{Replayed, replay};
use mcs_bench::Bench;
use mcs_codec::Version;
use mcs_disk::{Disk, DiskFault};
use mcs_journal::{FILE_SIZE, Opened, Store, StoreFault};
use mcs_model::command::{Command, Reply};
use std::alloc::Global;
use std::marker::Model;

/// A bench and the disk on which it records each accepted command before it answers.
///
/// A command that fails with `SessionFault::Device` closes the session. An honest disk then
/// represents the state before that command or the state after it. Opening the disk again shows
/// which of the two it represents.
#[derive(Drop)]
pub struct Session<D: Disk + Drop> {
    log: CommandLog<D>,
    bench: Bench,
}

impl<D: Disk + Drop> Model for Session<D> {
    ghost use Rattle.mcs_session.specs.Invariant.{IsSession};
    ghost use Rattle.mcs_session.specs.SessionState.{SessionView};

    ghost Value = { SessionView D };

    ghost view = { λ s.
        record { disk = s.log.store.disk; live = s.log.store.live; state = s.bench } };

    ghost invariant = { λ s. IsSession (D.state s.log.store.disk) s.log.store.live s.log.cycles
        s.bench s.log.payload.items s.log.snapshot.items };
}

impl<D: Disk + Drop> Session<D> {
    /// Creates a session with a new bench on a blank disk. If the call fails, the error contains the
    /// disk.
    ///
    /// Fails if memory runs out (refusal 90), or if the disk is not blank (refusal 55). In both
    /// cases, nothing is written. Also fails if a call on the disk fails (refusal 53). In this
    /// case, the contents of the disk are unspecified.
    pub fn create(alloc: Global, disk: D) -> Result<Session<D>, (StoreFault, D)>
        // the next clauses hold on any disk
        ensures open { IfOk result (λ s. IsTrue s.live) }
        ensures new { IfOk result (λ s. s.state ≡ new_bench_state) }
        ensures counts { IfOk result (λ s. CountsFault (D.state disk) (D.state s.disk) ⊥) }
        ensures error_counts_fault { IfErr result (λ refused.
            CountsFault (D.state disk) (D.state refused.1) (refused.0 ≡ StoreFault.Device)) }
        ensures no_memory { IfErr result (λ refused.
            refused.0 ≡ StoreFault.NoMemory → refused.1 ≡ disk) }
        ensures possible_errors { IfErr result (λ refused. IsCreateFault refused.0) }
        ensures writes_nothing { IfErr result (λ refused. refused.0 ≢ StoreFault.Device
            → WritesNothing (D.state disk) (D.state refused.1)) }
        ensures wrong_size { size_of (D.state disk) ≢ FILE_SIZE → IsErrAnd result (λ refused.
            ((refused.0 ≡ StoreFault.NotBlank) ⊎ (refused.0 ≡ StoreFault.NoMemory))
            × (refused.1 ≡ disk)) }
        ensures one_unsynced { unsynced_writes (D.state disk).calls ≡ 0
            → IfOk result (λ s. AtMostOneUnsynced (D.state disk).calls (D.state s.disk).calls) }
        ensures error_one_unsynced { unsynced_writes (D.state disk).calls ≡ 0
            → IfErr result (λ refused. AtMostOneUnsynced (D.state disk).calls
            (D.state refused.1).calls) }

        // the next clauses hold on an honest disk
        ensures created { (D.state disk).honest → IfOk result (λ s.
            CreatesSession (D.state disk) (D.state s.disk)) }
        ensures refused { (D.state disk).honest → IfErr result (λ refused.
            CreateErrorImplies refused.0 (D.state disk) (D.state refused.1)) }
    {
        let Ok((payload, mut snapshot)) = log_buffers(alloc) else {
            return Err((StoreFault::NoMemory, disk));
        };
        let Ok(bench) = Bench::new(alloc) else {
            return Err((StoreFault::NoMemory, disk));
        };
        let length = encode_state(&mut snapshot, &bench);
        match Store::create(alloc, disk, &snapshot.as_slice()[..length]) {
            Ok(store) => Ok(Session {
                log: CommandLog {
                    store,
                    cycles: 0,
                    payload,
                    snapshot,
                },
                bench,
            }),
            Err(refused) => Err(refused),
        }
    }

    /// Opens the session that a disk holds. `open` writes nothing to a file of version 2. In a file of
    /// version 1, a snapshot of version 2 replaces the contents, after all memory has been allocated. An honest disk
    /// represents the same state at every moment.
    ///
    /// Fails if memory runs out (refusal 90), or if the size or the first eight bytes are not those
    /// of a session file (refusal 50). Also fails if the file is damaged and represents no state
    /// (refusal 51), or if a call on the disk fails (refusal 53). If the call fails, the error contains the disk.
    pub fn open(alloc: Global, disk: D) -> Result<Session<D>, (StoreFault, D)>
        // the next clauses hold on any disk
        ensures open { IfOk result (λ s. IsTrue s.live) }
        ensures counts { IfOk result (λ s. CountsFault (D.state disk) (D.state s.disk) ⊥) }
        ensures error_counts_fault { IfErr result (λ refused.
            CountsFault (D.state disk) (D.state refused.1) (refused.0 ≡ StoreFault.Device)) }
        ensures possible_errors { IfErr result (λ refused. IsOpenFault refused.0) }
        ensures writes_nothing { IfErr result (λ refused. refused.0 ≢ StoreFault.Device
            → WritesNothing (D.state disk) (D.state refused.1)) }
        ensures wrong_size { size_of (D.state disk) ≢ FILE_SIZE → IsErrAnd result (λ refused.
            ((refused.0 ≡ StoreFault.NotASession) ⊎ (refused.0 ≡ StoreFault.NoMemory))
            × (refused.1 ≡ disk)) }
        ensures one_unsynced { IfOk result (λ s.
            AtMostOneUnsynced (D.state disk).calls (D.state s.disk).calls) }
        ensures error_one_unsynced { IfErr result (λ refused.
            AtMostOneUnsynced (D.state disk).calls (D.state refused.1).calls) }

        // the next clauses hold on an honest disk
        ensures opened { (D.state disk).honest → IfOk result (λ s.
            OpensSession (D.state disk) (D.state s.disk) s.state) }
        ensures migrated { (D.state disk).honest → IfOk result (λ s.
            MigratesSession (D.state disk) (D.state s.disk) s.state) }
        ensures refused { (D.state disk).honest → IfErr result (λ refused.
            SessionErrorImplies refused.0 (D.state disk)
            × FailedOpenEffect refused.0 (D.state disk) (D.state refused.1)) }
    {
        let Ok(buffers) = log_buffers(alloc) else {
            return Err((StoreFault::NoMemory, disk));
        };
        match Store::open(alloc, disk) {
            Ok(
                Opened {
                    store,
                    snap,
                    records,
                },
            ) => match replay(alloc, snap.bytes(), &records) {
                Ok(Some(replayed)) => match start_session(store, buffers, replayed) {
                    Ok(session) => Ok(session),
                    Err(refused) => Err(refused),
                },
                Ok(None) => Err((StoreFault::Damaged, store.into_disk())),
                Err(_) => Err((StoreFault::NoMemory, store.into_disk())),
            },
            Err(refused) => Err(refused),
        }
    }

    /// Returns true if no call on the session has failed with `SessionFault::Device`.
    pub fn is_open(&self) -> bool
        ensures { result ≡ self.now.live }
    {
        self.log.store.is_open()
    }

    /// Returns the bench. Its state is the state after all commands that were answered `Ok`.
    pub fn bench(&self) -> &Bench
        ensures is { result.now ≡ self.now.state }
        ensures represents { IsTrue self.now.live → (D.state self.now.disk).honest
            → DiskRepresents (D.state self.now.disk) self.now.state }
    {
        &self.bench
    }

    /// Returns the disk of the session, as the last call left it.
    pub fn disk(&self) -> &D
        ensures { result.now ≡ self.now.disk }
    {
        self.log.store.disk()
    }

    /// Records a command on the disk and then executes it. `Ok` acknowledges the command: from then
    /// on, no power cut loses it if the disk is honest.
    ///
    /// If the log has no room for the record or for the cycles of the command, `apply` first writes
    /// a snapshot of the state before the command. This snapshot replaces the old snapshot and all
    /// records.
    ///
    /// Fails on a closed session (refusal 54), or if the bench rejects the command (refusals 41 to
    /// 47). These errors leave the disk unchanged. Also fails if a call on the disk fails (refusal
    /// 53).
    pub fn apply(&mut self, command: &Command) -> Result<Reply, SessionFault>
        // the next clauses hold on any disk
        ensures applied { AppliesCommand self.old.live self.old.state command.now result
            self.new.state }
        ensures closes { ClosesAtDeviceFault self.old.live (D.state self.old.disk).faults result
            self.new.live (D.state self.new.disk).faults }
        ensures start { (D.state self.new.disk).start ≡ (D.state self.old.disk).start }
        ensures honest { (D.state self.new.disk).honest ↔ (D.state self.old.disk).honest }
        ensures untouched { IfErr result (λ fault.
            fault ≢ SessionFault.Device → self.new.disk ≡ self.old.disk) }
        ensures one_unsynced { AtMostOneUnsynced (D.state self.old.disk).calls
            (D.state self.new.disk).calls }

        // the next clauses hold on an honest disk
        ensures records { (D.state self.old.disk).honest
            → RecordsOrFails result (D.state self.old.disk) (D.state self.new.disk)
            self.old.state command.now }
    {
        if !self.log.store.is_open() {
            return Err(SessionFault::Closed);
        }
        self.bench.check(command).map_err(SessionFault::Refused)?;
        match self.log.record(&self.bench, command) {
            Ok(()) => Ok(self.bench.apply(command)),
            Err(DiskFault) => Err(SessionFault::Device),
        }
    }

    /// Replaces the contents of the disk with a snapshot of the bench, so that a later `open` has
    /// no commands to replay. The state of the bench does not change, and an honest disk represents
    /// this state at every moment.
    ///
    /// Fails on a closed session (refusal 54), or if a call on the disk fails (refusal 53).
    pub fn settle(&mut self) -> Result<(), SessionFault>
        // the next clauses hold on any disk
        ensures state { self.new.state ≡ self.old.state }
        ensures answers { IsSettleResult self.old.live result }
        ensures closes { ClosesAtDeviceFault self.old.live (D.state self.old.disk).faults result
            self.new.live (D.state self.new.disk).faults }
        ensures start { (D.state self.new.disk).start ≡ (D.state self.old.disk).start }
        ensures honest { (D.state self.new.disk).honest ↔ (D.state self.old.disk).honest }
        ensures untouched { IfErr result (λ fault.
            fault ≢ SessionFault.Device → self.new.disk ≡ self.old.disk) }
        ensures one_unsynced { AtMostOneUnsynced (D.state self.old.disk).calls
            (D.state self.new.disk).calls }

        // the next clauses hold on an honest disk
        ensures settles { (D.state self.old.disk).honest
            → SettlesOrFails result (D.state self.old.disk) (D.state self.new.disk) self.old.state }
    {
        if !self.log.store.is_open() {
            return Err(SessionFault::Closed);
        }
        match self.log.checkpoint(&self.bench) {
            Ok(()) => Ok(()),
            Err(DiskFault) => Err(SessionFault::Device),
        }
    }

    /// Ends the session and returns its disk. If the session was open and the disk is honest, the
    /// disk represents the state of the session's bench.
    pub fn into_disk(self) -> D
        ensures is { result ≡ self.disk }
        ensures represents { IsTrue self.live → (D.state result).honest
            → Represents (bytes_of (D.state result)) self.state }
    {
        let Session { log, bench: _ } = self;
        let CommandLog {
            store,
            cycles: _,
            payload: _,
            snapshot: _,
        } = log;
        store.into_disk()
    }
}

/// Starts a session on a store whose log was replayed. If the log has version 1, a snapshot of the
/// bench replaces the contents of the disk. Fails if the device fails.
fn start_session<D: Disk + Drop>(
    store: Store<D>,
    buffers: (Vec<u8>, Vec<u8>),
    replayed: Replayed,
) -> Result<Session<D>, (StoreFault, D)>
    requires live { IsTrue store.live }
    requires ready { IsReady replayed.cycles buffers.0.items buffers.1.items }
    requires recorded { replayed.version ≡ Version.Two → (D.state store.disk).honest
        → IsRecorded (D.state store.disk) replayed.cycles replayed.bench }
    requires held { (D.state store.disk).honest → HasContents (D.state store.disk) }
    ensures open { IfOk result (λ s. IsTrue s.live × (s.state ≡ replayed.bench)) }
    ensures counts { IfOk result (λ s. CountsFault (D.state store.disk) (D.state s.disk) ⊥) }
    ensures one_unsynced { IfOk result (λ s.
        AtMostOneUnsynced (D.state store.disk).calls (D.state s.disk).calls) }
    ensures error_one_unsynced { IfErr result (λ r.
        AtMostOneUnsynced (D.state store.disk).calls (D.state r.1).calls) }
    ensures same { replayed.version ≡ Version.Two → IfOk result (λ s. s.disk ≡ store.disk) }
    ensures version_1 { replayed.version ≡ Version.One → (D.state store.disk).honest
        → IfOk result (λ s. ReplacedAnyContents (D.state store.disk) (D.state s.disk) replayed.bench) }
    ensures refused { IfErr result (λ r. (r.0 ≡ StoreFault.Device) × ((replayed.version ≡ Version.One)
        × CountsFault (D.state store.disk) (D.state r.1) (Unit {0}))) }
    ensures failed { (D.state store.disk).honest
        → IfErr result (λ r. MayReplaceAnyContents (D.state store.disk) (D.state r.1) replayed.bench) }
{
    let (payload, snapshot) = buffers;
    let (bench, version) = (replayed.bench, replayed.version);
    let mut log = CommandLog {
        store,
        cycles: replayed.cycles,
        payload,
        snapshot,
    };
    if version == Version::Two {
        return Ok(Session { log, bench });
    }
    match log.checkpoint(&bench) {
        Ok(()) => Ok(Session { log, bench }),
        Err(DiskFault) => Err((StoreFault::Device, log.store.into_disk())),
    }
}

//! The log of a session: the records of its commands. If the log has no room for one more record, a
//! snapshot replaces all records.
ghost use Rattle.std.specs.Prelude.{◌≡◌, ◌+◌, ◌≤◌, None, IfOk, IsErr, IsTrue, OnOk, is_ok, length, take};
ghost use Rattle.mcs_codec.specs.Codec.{Encodes, EncodesState};
ghost use Rattle.mcs_codec.specs.CommandBytes.{command_bytes};
ghost use Rattle.mcs_disk.specs.CallList.{AtMostOneUnsynced};
ghost use Rattle.mcs_disk.specs.Stretches.{LeavesOnly};
ghost use Rattle.mcs_disk.specs.Disk.{CountsFault};
ghost use Rattle.mcs_journal.specs.File.{HasRoom};
ghost use Rattle.mcs_model.specs.Command.{after, refusal};
ghost use Rattle.mcs_model.specs.declared.command.Command.{Command};
ghost use Rattle.mcs_session.specs.Cycles.{replay_cycles};
ghost use Rattle.mcs_session.specs.CommandCalls.{AcknowledgesCommand, LeavesEitherState};
ghost use Rattle.mcs_session.specs.Invariant.{HasMadeRoom, IsReady, IsRecorded, ReplacesAnyContents};
ghost use Rattle.mcs_session.specs.Represents.{Represents};

use crate::replaying::replay_cycles;
use mcs_bench::Bench;
use mcs_codec::{COMMAND_BYTES, STATE_BYTES, command_bytes, state_bytes};
use mcs_disk::{Disk, DiskFault};
use mcs_journal::{MAX_RECORD_SIZE, MAX_SNAPSHOT_SIZE, Store};
use mcs_model::command::Command;
use mcs_model::limits::REPLAY_CYCLES;
use std::alloc::{AllocError, Global};

/// A store whose records are commands, with the buffers that are needed to add a command.
#[derive(Drop)]
pub struct CommandLog<D: Disk + Drop> {
    pub store: Store<D>,
    /// The cycle count of the log: the number of instruction cycles that its replay may take.
    pub cycles: u32,
    /// The buffer for an encoded command.
    pub payload: Vec<u8>,
    /// The buffer for an encoded snapshot.
    pub snapshot: Vec<u8>,
}

/// Returns a buffer for an encoded command and a buffer for a snapshot. Fails if memory runs out.
pub(crate) fn log_buffers(alloc: Global) -> Result<(Vec<u8>, Vec<u8>), AllocError>
    ensures { IfOk result (λ buffers. (length buffers.0.items ≡ MAX_RECORD_SIZE)
        × (length buffers.1.items ≡ MAX_SNAPSHOT_SIZE)) }
{
    let payload = vec![in alloc; 0u8; COMMAND_BYTES]?;
    let snapshot = vec![in alloc; 0u8; STATE_BYTES]?;
    Ok((payload, snapshot))
}

/// Encodes a command at the start of a buffer, and returns the length of the encoding in bytes.
fn encode_command(payload: &mut Vec<u8>, command: &Command) -> usize
    requires { length payload.old.items ≡ MAX_RECORD_SIZE }
    ensures buffer_size { length payload.new.items ≡ MAX_RECORD_SIZE }
    ensures spells { Encodes (take result payload.new.items) command.now }
    ensures count { result ≡ length (command_bytes command.now) }
    ensures record { (1 ≤ result) × (result ≤ MAX_RECORD_SIZE) }
{
    command_bytes(command, payload.as_mut_slice())
}

/// Encodes the state of a bench at the start of a buffer, and returns the length of the encoding in
/// bytes.
pub(crate) fn encode_state(snapshot: &mut Vec<u8>, bench: &Bench) -> usize
    requires { length snapshot.old.items ≡ MAX_SNAPSHOT_SIZE }
    ensures buffer_size { length snapshot.new.items ≡ MAX_SNAPSHOT_SIZE }
    ensures spells { EncodesState (take result snapshot.new.items) bench.now }
    ensures within_limit { result ≤ MAX_SNAPSHOT_SIZE }
{
    state_bytes(bench, snapshot.as_mut_slice())
}

impl<D: Disk + Drop> CommandLog<D> {
    /// Replaces the store's snapshot and records with a snapshot of the bench. Fails if the device
    /// fails.
    pub(crate) fn checkpoint(&mut self, bench: &Bench) -> Result<(), DiskFault>
        requires live { IsTrue self.old.store.live }
        requires ready { IsReady self.old.cycles self.old.payload.items self.old.snapshot.items }
        ensures live { self.new.store.live ≡ is_ok result }
        ensures counts { CountsFault (D.state self.old.store.disk) (D.state self.new.store.disk)
            (IsErr result) }
        ensures one_unsynced { AtMostOneUnsynced (D.state self.old.store.disk).calls
            (D.state self.new.store.disk).calls }
        ensures payload { self.new.payload ≡ self.old.payload }
        ensures used { OnOk result ((self.new.store.used ≡ 0) × (self.new.cycles ≡ 0)) }
        ensures ready { IsReady self.new.cycles self.new.payload.items self.new.snapshot.items }
        ensures replaces { (D.state self.old.store.disk).honest
            → ReplacesAnyContents (D.state self.old.store.disk) (D.state self.new.store.disk)
            bench.now result }
    {
        let length = encode_state(&mut self.snapshot, bench);
        match self.store.replace(&self.snapshot.as_slice()[..length]) {
            Ok(()) => {
                self.cycles = 0;
                Ok(())
            }
            Err(fault) => Err(fault),
        }
    }

    /// Ensures that the log has room for a record of `count` bytes, and for `more` instruction
    /// cycles. If it has no room, a snapshot of the bench replaces the store's snapshot and
    /// records. Fails if the device fails.
    fn make_room(&mut self, bench: &Bench, count: usize, more: u32) -> Result<(), DiskFault>
        requires live { IsTrue self.old.store.live }
        requires count { count ≤ MAX_RECORD_SIZE }
        requires more { more ≤ REPLAY_CYCLES }
        requires ready { IsReady self.old.cycles self.old.payload.items self.old.snapshot.items }
        ensures live { self.new.store.live ≡ is_ok result }
        ensures counts { CountsFault (D.state self.old.store.disk) (D.state self.new.store.disk)
            (IsErr result) }
        ensures one_unsynced { AtMostOneUnsynced (D.state self.old.store.disk).calls
            (D.state self.new.store.disk).calls }
        ensures payload { self.new.payload ≡ self.old.payload }
        ensures ready { IsReady self.new.cycles self.new.payload.items self.new.snapshot.items }
        ensures room { OnOk result
            (HasRoom self.new.store.used count × (self.new.cycles + more ≤ REPLAY_CYCLES)) }
        ensures moments { (D.state self.old.store.disk).honest
            → IsRecorded (D.state self.old.store.disk) self.old.cycles bench.now
            → LeavesOnly (D.state self.old.store.disk) (D.state self.new.store.disk)
            (λ file. Represents file bench.now) }
        ensures makes_room { (D.state self.old.store.disk).honest
            → IsRecorded (D.state self.old.store.disk) self.old.cycles bench.now
            → (c : Command) → count ≡ length (command_bytes c) → more ≡ replay_cycles c
            → OnOk result (HasMadeRoom (D.state self.old.store.disk) (D.state self.new.store.disk)
            c self.new.cycles bench.now) }
    {
        if self.store.has_room(count) && more <= REPLAY_CYCLES - self.cycles {
            return Ok(());
        }
        self.checkpoint(bench)
    }

    /// Records a command that the bench accepts. Once the call returns Ok, the command is on the
    /// disk. Fails if the device fails.
    pub(crate) fn record(&mut self, bench: &Bench, command: &Command) -> Result<(), DiskFault>
        requires live { IsTrue self.old.store.live }
        requires accepted { refusal bench.now command.now ≡ None }
        requires ready { IsReady self.old.cycles self.old.payload.items self.old.snapshot.items }
        ensures live { self.new.store.live ≡ is_ok result }
        ensures counts { CountsFault (D.state self.old.store.disk) (D.state self.new.store.disk)
            (IsErr result) }
        ensures one_unsynced { AtMostOneUnsynced (D.state self.old.store.disk).calls
            (D.state self.new.store.disk).calls }
        ensures ready { IsReady self.new.cycles self.new.payload.items self.new.snapshot.items }
        ensures moments { (D.state self.old.store.disk).honest
            → IsRecorded (D.state self.old.store.disk) self.old.cycles bench.now
            → LeavesEitherState (D.state self.old.store.disk) (D.state self.new.store.disk)
            bench.now (after bench.now command.now) }
        ensures acknowledges { (D.state self.old.store.disk).honest
            → IsRecorded (D.state self.old.store.disk) self.old.cycles bench.now
            → OnOk result (AcknowledgesCommand
            (D.state self.old.store.disk) (D.state self.new.store.disk) bench.now command.now) }
        ensures recorded { (D.state self.old.store.disk).honest
            → IsRecorded (D.state self.old.store.disk) self.old.cycles bench.now
            → OnOk result (IsRecorded (D.state self.new.store.disk) self.new.cycles
            (after bench.now command.now)) }
    {
        let count = encode_command(&mut self.payload, command);
        let more = replay_cycles(command);
        self.make_room(bench, count, more)?;
        self.store.append(&self.payload.as_slice()[..count])?;
        self.cycles += more;
        Ok(())
    }
}

//! Laws about session files, and about the commands that a disk keeps. The contract of each
//! function states a law; the function itself does nothing.
ghost use Rattle.std.specs.Prelude.{◌≡◌, ◌⊎◌, ◌+◌, ◌≤◌, ℕ, List, length, slice_get};
ghost use Rattle.mcs_disk.specs.Disk.{bytes_of, time_of, images_of, images_since};
ghost use Rattle.mcs_disk.specs.PowerCut.{IsLeftByCut};
ghost use Rattle.mcs_journal.specs.declared.fault.StoreFault.{StoreFault};
ghost use Rattle.mcs_model.specs.declared.command.Command.{Command};
ghost use Rattle.mcs_model.specs.BenchState.{BenchState};
ghost use Rattle.mcs_model.specs.Fold.{fold};
ghost use Rattle.mcs_session.specs.Acknowledgements.{acknowledged_by};
ghost use Rattle.mcs_session.specs.SessionCalls.{MigratesSession, FailedOpenEffect};
ghost use Rattle.mcs_session.specs.Opening.{OpensSession, SessionErrorImplies};
ghost use Rattle.mcs_session.specs.KeptCommands.{IsAfterPrefix, KeepsCommands, RepresentsPrefix};
ghost use Rattle.mcs_session.specs.Represents.{HoldsState, DiskRepresentsConverted, RepresentsInEitherVersion, Represents, DiskRepresentsSince};

use mcs_disk::Disk;
use mcs_journal::StoreFault;

/// Shows that a file represents at most one state, whether it has version 1 or version 2.
pub fn file_represents_one_state()
    ensures { (file : List ℕ) (s other : BenchState)
        → RepresentsInEitherVersion file s → RepresentsInEitherVersion file other → s ≡ other }
{}

/// Shows the state in which a session opens after a power cut during a run. The power is cut when
/// the disk's clock is at `time` or later. The session then has the state after a prefix of the commands that may have
/// reached the disk. The prefix includes each command that was acknowledged by `time`.
pub fn reopened_session_has_acknowledged_commands<D: Disk, E: Disk>()
    ensures { (time : ℕ) (old new : D) (found opened : E) (s state : BenchState)
        (done reached : List Command)
        (kept : KeepsCommands (D.state old) (D.state new) s done reached)
        → time_of (D.state old) ≤ time
        → IsLeftByCut time (D.state new) (E.state found)
        → OpensSession (E.state found) (E.state opened) state
        → IsAfterPrefix s reached (acknowledged_by time kept.acknowledged.moments) state }
{}

/// Shows that a session can be opened on the disk that a power cut during a run left. Only a lack
/// of memory or an I/O error can prevent this.
pub fn disk_left_by_cut_can_be_opened<D: Disk, E: Disk>()
    ensures { (time : ℕ) (old new : D) (found : E) (s : BenchState) (done reached : List Command)
        (fault : StoreFault)
        → KeepsCommands (D.state old) (D.state new) s done reached → time_of (D.state old) ≤ time
        → IsLeftByCut time (D.state new) (E.state found) → SessionErrorImplies fault (E.state found)
        → (fault ≡ StoreFault.Device) ⊎ (fault ≡ StoreFault.NoMemory) }
{}

/// Shows that a power cut at any moment after a command was acknowledged leaves a disk that keeps
/// the command and all commands before it.
pub fn acknowledged_commands_are_kept<D: Disk>()
    ensures { (old new : D) (s : BenchState) (done reached : List Command)
        (kept : KeepsCommands (D.state old) (D.state new) s done reached)
        (j moment : ℕ) (image : List ℕ)
        → slice_get kept.acknowledged.moments j ≡ Some moment → images_since moment (D.state new) image
        → RepresentsPrefix s reached (j + 1) image }
{}

/// Shows that a power cut at the end of a run leaves a disk that keeps all acknowledged commands.
/// If every command of the run was acknowledged, that disk represents the state after all commands.
pub fn run_end_keeps_all_commands<D: Disk>()
    ensures acknowledged { (old new : D) (s : BenchState) (done reached : List Command)
        (image : List ℕ) → KeepsCommands (D.state old) (D.state new) s done reached
        → images_of (D.state new) image → RepresentsPrefix s reached (length done) image }
    ensures whole { (old new : D) (s : BenchState) (commands : List Command) (image : List ℕ)
        → KeepsCommands (D.state old) (D.state new) s commands commands → images_of (D.state new) image
        → Represents image (fold s commands) }
{}

/// Shows that opening a session of version 1 keeps its state. The disk must be honest.
///
/// The opened session has the state that the file represents, converted to version 2. Each image
/// that a power cut can leave since the start of the call represents that state, in either version.
/// This also holds if the call fails, whether before, during or after its writes. Once the session
/// is open, the disk holds a snapshot of version 2 and no records.
pub fn version_1_file_keeps_its_state<D: Disk>()
    ensures opened { (old new : D) (s state : BenchState) → (D.state old).honest
        → DiskRepresentsConverted (D.state old) s → OpensSession (D.state old) (D.state new) state
        → MigratesSession (D.state old) (D.state new) state
        → (state ≡ s) × (HoldsState (bytes_of (D.state new)) s
        × DiskRepresentsSince (time_of (D.state old)) (D.state new) s) }
    ensures refused { (old new : D) (s : BenchState) (fault : StoreFault) → (D.state old).honest
        → DiskRepresentsConverted (D.state old) s → FailedOpenEffect fault (D.state old) (D.state new)
        → DiskRepresentsSince (time_of (D.state old)) (D.state new) s }
{}

//! The headline of docs/PROOF.md, as laws. Each law is the contract of a function with an empty
//! body. The laws about power cuts and stops combine the contracts of `run_shell` and
//! `Session::open`. Their premise is that the first session is open and its disk is honest. The
//! last law is about a run in which no call failed.
ghost use Rattle.mcs_host.specs.Ending.{as_disk};
ghost use Rattle.mcs_session.specs.KeptCommands.{IsOpenOnHonestDisk};
ghost use Rattle.mcs_session.specs.SessionState.{session_state};
ghost use Rattle.mcs_shell.specs.Faults.{RanWithoutFault, ServesAllInput};
ghost use Rattle.mcs_shell.specs.Headline.{AnswersAndSurvives};
ghost use Rattle.mcs_shell.specs.History.{History, IsFoundByCut, SurvivesHistory};
ghost use Rattle.mcs_shell.specs.FileHeadline.{IsReopenedFile, SurvivesInFile};
ghost use Rattle.mcs_shell.specs.Shell.{ShellRun};

use mcs_disk::Disk;

/// Proves the headline for a run on an open session with an honest disk, for every end of the run. The run wrote the
/// answers to the inputs that it served, in order. Each answer follows from the state after the commands that were
/// answered `ok` before that answer. The power can be cut at any moment after the run began. A session opened after the
/// cut has executed a prefix of a list: the commands answered `ok`, followed by the one answered `no 53` (device
/// failed), if there is one. The prefix includes each command that was acknowledged by the moment of the cut.
pub fn a_run_answers_and_survives_power_cuts<D: Disk, E: Disk>()
    ensures { (run : ShellRun D.state) → IsOpenOnHonestDisk (session_state D.state run.before)
        → AnswersAndSurvives D.state E.state run }
{}

/// Proves the headline for a run on a file of the host. A close, a kill or a power cut stops the run. The law covers
/// all contents that are possible in the file after the stop. The program's `open` then begins a session on these
/// contents.
pub fn a_file_survives_power_cuts()
    ensures { (run : ShellRun as_disk) → IsOpenOnHonestDisk (session_state as_disk run.before)
        → SurvivesInFile run }
{}

/// Proves the headline for any number of runs. A power cut ends each run, and the next run opens a
/// session on the disk that the cut left. A cut can happen at any moment, even while a session is
/// opened or converted from version 1. An `open` that begins no session also counts as a run. The
/// session opened at the end has executed the commands kept from each run, in order. The commands
/// kept from a run are a prefix of a list: those answered `ok`, followed by the one answered
/// `no 53` (device failed), if there is one. The prefix includes every command that was
/// acknowledged before the power cut.
pub fn any_number_of_runs_survive_power_cuts<D: Disk>()
    ensures { (history : History D.state (IsFoundByCut D.state))
        → IsOpenOnHonestDisk (session_state D.state history.first.before)
        → SurvivesHistory history }
{}

/// Proves the headline for any number of runs on a file of the host. A close, a kill or a power cut stops each run,
/// and the program then opens the file again.
pub fn a_file_survives_any_number_of_stops()
    ensures { (history : History as_disk IsReopenedFile)
        → IsOpenOnHonestDisk (session_state as_disk history.first.before)
        → SurvivesHistory history }
{}

/// Proves that a run without a failed call answers all inputs. The premises are that no call of the reader, the writer
/// or the disk failed, and that the shell could allocate its buffer. Then the run reached the end of its input or the
/// input limit. It served each input that it read, in order, and wrote each answer completely.
pub fn a_run_without_a_fault_answers_all<D: Disk>()
    ensures { (run : ShellRun D.state) → RanWithoutFault run → ServesAllInput run }
{}

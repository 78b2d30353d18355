//! Laws about the definitions of this crate. Each law is the contract of a function with an empty body.
ghost use Rattle.mcs_drive.specs.DrivenRuns.{NoLimitsAllowAllLevels};
ghost use Rattle.mcs_drive.specs.InputReads.{ReadsDecideCycle, PortChoicesCoverReads, LevelsHaveNoEffect, PulledLinesCanBePulled};
ghost use Rattle.mcs_drive.specs.RunsBetweenReads.{SameReadGivesSameRun};
ghost use Rattle.mcs_drive.specs.Opening.{MarksPrecedeCondition};
ghost use Rattle.mcs_drive.specs.TrackedMachine.{StopwatchEndsWithinLimit, CountsKeepMachine};

/// Proves that `no_limits` allows all inputs of a board.
pub fn no_limits_allow_all_levels()
    ensures { NoLimitsAllowAllLevels }
{}

/// Proves that a cycle that reads no input does not depend on the input levels and leaves them unchanged.
pub fn levels_have_no_effect()
    ensures { LevelsHaveNoEffect }
{}

/// Proves that the input levels affect a cycle only through the value that the cycle reads.
pub fn reads_decide_cycle()
    ensures { ReadsDecideCycle }
{}

/// Proves that a port line is pulled only if a key in a driven row can pull it.
pub fn pulled_lines_can_be_pulled()
    ensures { PulledLinesCanBePulled }
{}

/// Proves that, at any input levels, the value read at the port of the selected ROM is one of the 16 values of
/// `port_choice`.
pub fn port_choices_cover_reads()
    ensures { PortChoicesCoverReads }
{}

/// Proves that a run from one read of an input to the next reaches the same machine at other input levels. The premise
/// is that the first cycle reads the same value at those levels. The comparison ignores the input levels.
pub fn same_read_gives_same_run()
    ensures { SameReadGivesSameRun }
{}

/// Proves that a tracked run reaches the same machine as the run without counts.
pub fn counts_keep_machine()
    ensures { CountsKeepMachine }
{}

/// Proves, for all inputs within given limits: if a stopwatch never shows more than `limit` cycles, it ends within
/// `limit` cycles each time it begins. `limit` is below `STOPWATCH_MAX`.
pub fn stopwatch_ends_within_limit()
    ensures { StopwatchEndsWithinLimit }
{}

/// Proves, for all inputs within given limits, that the keys have been at the marks of an observer, in order, each time
/// the observer's condition becomes true. The premise is that the condition never holds before all marks are seen.
pub fn marks_precede_condition()
    ensures { MarksPrecedeCondition }
{}

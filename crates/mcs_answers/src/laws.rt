//! Theorems about the definitions of the answers. Each theorem is the contract of a function with
//! an empty body.
ghost use Rattle.std.specs.Prelude.{◌≡◌, ℕ};
ghost use Rattle.mcs_version1.specs.BenchState.{BenchState1};
ghost use Rattle.mcs_version1.specs.Lift.{lift};
ghost use Rattle.mcs_answers.specs.ForecastLaws.{CountsMatchTheTrace, HeadsReportTheRun, TracesAddUp};
ghost use Rattle.mcs_answers.specs.AnswerTexts.{board_answer, listing_answer};
ghost use Rattle.mcs_answers.specs.Version1.{board_answer_1, listing_answer_1};

/// Proves that a version 1 state and its conversion to version 2 (`lift`) have the same answers to `list` and
/// `board`.
pub fn lifted_state_gives_same_answers()
    ensures listings { (s : BenchState1) (at lines : ℕ)
        → listing_answer at lines (lift s) ≡ listing_answer_1 s at lines }
    ensures board { (s : BenchState1) → board_answer (lift s) ≡ board_answer_1 s }
{}

/// Proves that `count n` and `trace n` report the same number of cycles and the same reason to stop as `run n`.
pub fn heads_report_the_run()
    ensures { HeadsReportTheRun }
{}

/// Proves that a trace of `m + n` cycles is a trace of `m` cycles, followed by a trace of `n` cycles that
/// starts after `run m`. The premise is that nothing stops the run of `m + n` cycles early.
pub fn traces_add_up()
    ensures { TracesAddUp }
{}

/// Proves that `count` reports, for each address, the number of lines with that address in a trace without
/// probes.
pub fn counts_match_the_trace()
    ensures { CountsMatchTheTrace }
{}

//! Execution of a run on a bench, one instruction at a time.
ghost use Rattle.std.specs.Prelude.{◌≡◌, ◌<◌, true, MatchOption};
ghost use Rattle.mcs_model.specs.Command.{machine_of, stops_of, with_machine};
ghost use Rattle.mcs_model.specs.Running.{is_outside_table};
ghost use Rattle.mcs_bench.specs.Runs.{IsInstructionResult, stop_reason};

use crate::bench::Bench;
use crate::running::{InstructionResult, continue_run, stop_reason};
use mcs_model::stop::Stop;

impl Bench {
    /// Executes the pending second cycle if there is one, otherwise the instruction at the program counter, for at
    /// most `left` cycles. Returns `None` and changes nothing if no second cycle is pending and the opcode at the
    /// program counter is outside the opcode table. The call does not count as a command and allocates no memory.
    #[inline(always)]
    pub fn continue_run(&mut self, left: u32) -> Option<InstructionResult>
        requires { 0 < left }
        ensures executed { MatchOption result
            ((is_outside_table (machine_of self.old) ≡ true) × (self.new ≡ self.old))
            (IsInstructionResult (stops_of self.old) left (machine_of self.old) (machine_of self.new)) }
        ensures rest { self.new ≡ with_machine self.old (machine_of self.new) }
    {
        continue_run(
            &mut self.cpu,
            &mut self.rig,
            &self.breaks,
            &self.watches,
            left,
        )
    }

    /// Returns the reason why a run stops in the current state: `Outside` if no second cycle is pending and the
    /// opcode at the program counter is outside the opcode table. Otherwise returns `mark`, or `Ended` if `mark` is
    /// `None`.
    pub fn stop_reason(&self, mark: Option<Stop>) -> Stop
        ensures { result ≡ stop_reason (machine_of self.now) mark }
    {
        stop_reason(&self.cpu, &self.rig, mark)
    }
}

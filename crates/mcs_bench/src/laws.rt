//! Laws of a bench. Each law is the contract of a function that changes nothing.
ghost use Rattle.std.specs.Prelude.{◌<◌, All};
ghost use Rattle.mcs_model.specs.Validity.{IsValid, IsValidRegs};
ghost use Rattle.mcs_bench.specs.Runs.{RunsAddUp};

use crate::bench::Bench;
use mcs_model::regs::Regs;
use mcs_nibble::{Addr, Nibble};

/// Proves that two consecutive runs, of at most `a` and `b` cycles, reach the same state as one run of at most `a + b`
/// cycles. The law requires that no breakpoint is set and that no RAM nibble is watched. The law is about the effect of
/// the runs (`after_change`), which does not count them as commands.
pub fn runs_add_up()
    ensures { RunsAddUp }
{
    mcs_model::laws::runs_compose();
}

/// Proves that each nibble in a list is below 16.
fn show_nibbles_are_in_range(list: &[Nibble])
    ensures { All (λ n. n < 16) list.now }
{
    for i in 0..list.len() {
        let _n = list[i].get();
    }
}

/// Proves that each address in a list is below 4096.
pub(crate) fn show_addresses_are_in_range(list: &[Addr])
    ensures { All (λ a. a < 4096) list.now }
{
    for i in 0..list.len() {
        let _a = list[i].get();
    }
}

/// Proves that all registers are in range if `dcl` and `owed` are.
fn show_registers_are_valid(regs: Regs)
    requires dcl { regs.dcl < 8 }
    requires owed { regs.owed < 2 }
    ensures { IsValidRegs regs }
{
    let _numbers = (regs.acc.get(), regs.cy.get(), regs.pc.get());
    show_nibbles_are_in_range(&regs.r);
    show_addresses_are_in_range(&regs.ret);
}

impl Bench {
    /// Proves that the state of a bench is valid.
    pub fn show_state_is_valid(&self)
        ensures { IsValid self.now }
    {
        let _seq = self.seq;
        show_registers_are_valid(self.cpu.regs());
        self.rig.show_state_is_valid();
        self.breaks.show_state_is_valid();
        self.watches.show_state_is_valid();
    }
}

//! The `Bench` type, and functions that create and copy a bench.
ghost use Rattle.std.specs.Prelude.{◌≡◌, IfOk};
ghost use Rattle.mcs_model.specs.BenchState.{new_bench_state};

use crate::breaks::BreakpointSet;
use crate::watches::Watches;
use mcs_board::BenchRig;
use mcs_cpu4004::Cpu;
use std::alloc::{AllocError, Global};
use std::marker::Model;

/// A processor and the rig that it drives, with breakpoints, watches and the number of accepted commands. In
/// contracts, a bench is its flat state (`BenchState`).
#[derive(Drop)]
pub struct Bench {
    pub(crate) rig: BenchRig,
    pub(crate) cpu: Cpu,
    pub(crate) breaks: BreakpointSet,
    pub(crate) watches: Watches,
    pub(crate) seq: u32,
}

impl Model for Bench {
    ghost use Rattle.mcs_model.specs.BenchState.{BenchState};

    ghost Value = { BenchState };

    ghost view = { λ b. record { processor = b.cpu; bus = b.rig; breakpoints = b.breaks; watches = b.watches; seq = b.seq } };
}

impl Bench {
    /// Returns a new bench with the empty board. All its state is 0, except the TEST level, which is 1.
    ///
    /// # Errors
    ///
    /// Fails if memory cannot be allocated. Commands on a bench allocate no memory.
    pub fn new(alloc: Global) -> Result<Bench, AllocError>
        ensures { IfOk result (λ bench. bench ≡ new_bench_state) }
    {
        Ok(Bench {
            rig: BenchRig::new(alloc)?,
            cpu: Cpu::new(),
            breaks: BreakpointSet::new(),
            watches: Watches::new(),
            seq: 0,
        })
    }

    /// Returns an independent copy of the bench.
    ///
    /// # Errors
    ///
    /// Fails if memory cannot be allocated.
    pub fn copy(&self, alloc: Global) -> Result<Bench, AllocError>
        ensures { IfOk result (λ bench. bench ≡ self.now) }
    {
        Ok(Bench {
            rig: self.rig.copy(alloc)?,
            cpu: self.cpu,
            breaks: self.breaks.copy(),
            watches: self.watches.copy(),
            seq: self.seq,
        })
    }
}

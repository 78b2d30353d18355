//! Limits of the inputs for which a property is checked.
ghost use Rattle.std.specs.Prelude.{◌≡◌, nat_le, IfOk};
ghost use Rattle.mcs_drive.specs.DrivenRuns.{no_limits};

use mcs_model::board::Board;
use mcs_nibble::Bit;
use std::alloc::{AllocError, Global};
use std::marker::Model;

/// Limits on the inputs.
#[derive(Drop)]
pub struct InputLimits {
    /// The highest level of each key, row by row.
    keys: Vec<Bit>,
    /// The highest level of the TEST pin.
    test: Bit,
    /// The largest number of keys that are down together.
    together: u32,
    /// The smallest number of cycles between two changes of the levels.
    wait: u32,
    /// The largest number of cycles for which a key stays down, or 0 if there is no limit.
    held: u32,
}

impl Model for InputLimits {
    ghost use Rattle.mcs_drive.specs.DrivenRuns as driven;

    ghost Value = { driven.InputLimits };

    ghost view = { λ a. record {
      keys = a.keys.items;
      test = a.test;
      together = a.together;
      wait = a.wait;
      held = a.held;
    } };
}

impl InputLimits {
    /// Creates limits. `keys` has the highest level of each key, row by row. A `wait` of 0 or 1 limits nothing, and
    /// neither does a `held` of 0.
    pub fn of(keys: Vec<Bit>, test: Bit, together: u32, wait: u32, held: u32) -> InputLimits
        ensures { result ≡ record {
          keys = keys.items;
          test = test;
          together = together;
          wait = wait;
          held = held;
        } }
    {
        InputLimits {
            keys,
            test,
            together,
            wait,
            held,
        }
    }

    /// Creates the limits that allow all inputs of a board. Fails if memory runs out.
    pub fn none(alloc: Global, board: &Board) -> Result<InputLimits, AllocError>
        ensures { IfOk result (λ limits. limits ≡ no_limits board.now) }
    {
        let count = board.key_count();
        let keys = vec![in alloc; Bit::ONE; count]?;
        Ok(InputLimits::of(keys, Bit::ONE, count as u32, 0, 0))
    }

    /// Returns the highest level of each key, row by row.
    pub(crate) fn keys(&self) -> &[Bit]
        ensures { result.now ≡ self.now.keys }
    {
        &self.keys
    }

    /// Returns whether the limits allow a level of the TEST pin.
    pub(crate) fn allow_test_level(&self, level: u8) -> bool
        ensures { result ≡ nat_le level self.now.test }
    {
        level <= self.test.get()
    }

    /// Returns the smallest number of cycles between two changes of the levels.
    pub(crate) fn wait(&self) -> u32
        ensures { result ≡ self.now.wait }
    {
        self.wait
    }

    /// Returns the largest number of cycles for which a key stays down, or 0 if there is no limit.
    pub(crate) fn held(&self) -> u32
        ensures { result ≡ self.now.held }
    {
        self.held
    }

    /// Returns the largest number of keys that are down together.
    pub(crate) fn together(&self) -> u32
        ensures { result ≡ self.now.together }
    {
        self.together
    }
}

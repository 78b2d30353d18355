//! The search by values. Its state vectors identify machines with one board and one program. In each state, its choices
//! are the values that the machine can read in its next cycle.
ghost use Rattle.std.specs.Prelude.{◌≡◌, ◌≤◌, length, IfOk, IfSome};
ghost use Rattle.mcs_model.specs.declared.board.BoardParts.{BoardParts};
ghost use Rattle.mcs_model.specs.Boards.{key_count};
ghost use Rattle.mcs_check.specs.LevelSets.{AreAllAllowedLevels};
ghost use Rattle.mcs_check.specs.SearchStep.{IfReached, IsState, LeadsIn, ReadsAt};

use crate::cells::StateByte;
use crate::last_vector::LastVector;
use crate::level_sets::{Levels, all_allowed_levels};
use crate::limits::InputLimits;
use crate::property::Property;
use crate::replica::SearchMachine;
use crate::search_step::{StepEnd, list_readable_values, run_to_next_state, value_at_vector};
use mcs_search::System;
use std::alloc::{AllocError, Global};
use std::marker::Model;

/// The machines with one board and one program, the limits of their inputs, and the property to check in their runs.
/// `replica` holds one of these machines at a time. `most` is the number of cycles after which a search
/// step ends if the program reads no input.
#[derive(Drop)]
pub struct MachineSearch {
    pub(crate) replica: SearchMachine,
    pub(crate) limits: InputLimits,
    pub(crate) layout: Vec<StateByte>,
    /// The state vector that `replica` last loaded or saved.
    pub(crate) last: LastVector,
    pub(crate) property: Property,
    pub(crate) most: u32,
}

impl Model for MachineSearch {
    ghost use Rattle.std.specs.Prelude.{◌≡◌};
    ghost use Rattle.mcs_check.specs.Cells.{IsComplete};
    ghost use Rattle.mcs_check.specs.StateVectors.{Setting};
    ghost use Rattle.mcs_check.specs.Memory.{IsLastVectorOf};

    ghost Value = { Setting };

    ghost view = { λ w. record { board = w.replica.1.board; rom = w.replica.1.rom; limits = w.limits; layout = w.layout.items; property = w.property } };

    ghost invariant = { λ w. (w.replica.1.keys ≡ w.limits.keys)
        × (w.replica.1.test ≡ 0) × IsComplete w.replica.1.board w.layout.items
        × IsLastVectorOf w.layout.items w.last w.replica };
}

impl MachineSearch {
    /// Returns the number of bytes in a state vector.
    pub(crate) fn vector_len(&self) -> usize
        ensures { result ≡ length self.now.layout }
    {
        self.layout.len()
    }

    /// Returns the smallest number of cycles between two changes of the inputs.
    pub(crate) fn wait(&self) -> u32
        ensures { result ≡ self.now.limits.wait }
    {
        self.limits.wait()
    }

    /// Returns the largest number of cycles for which a key stays down, or 0 if there is no limit.
    pub(crate) fn held(&self) -> u32
        ensures { result ≡ self.now.limits.held }
    {
        self.limits.held()
    }

    /// Returns all levels of the inputs that the limits allow (see `all_allowed_levels`).
    pub(crate) fn all_levels(&self, alloc: Global) -> Result<Option<Vec<Levels>>, AllocError>
        ensures few { IfOk result (λ found. IfSome found (λ all. length all.items ≤ 255)) }
        ensures all { IfOk result (λ found. IfSome found (λ all.
            (b : BoardParts) → key_count b ≡ length self.now.limits.keys → AreAllAllowedLevels self.now.limits b all.items)) }
    {
        all_allowed_levels(alloc, &self.limits)
    }

    /// Returns the value that the machine with this state vector reads in its next cycle at these input levels. Returns
    /// `None` if the state vector cannot be loaded.
    pub(crate) fn value_at_vector(&mut self, vector: &[u8], levels: &Levels) -> Option<u8>
        ensures setting { self.new ≡ self.old }
        ensures value { IfSome result (λ value. ReadsAt self.old vector.now levels.now value) }
    {
        value_at_vector(
            &mut self.replica,
            &self.limits,
            &self.layout,
            &mut self.last,
            vector,
            levels,
        )
    }

    /// Runs the machine with this state vector to its next read (see `run_to_next_state`). The first cycle reads
    /// `value`.
    pub(crate) fn run(&mut self, vector: &[u8], value: u8, into: &mut [u8]) -> Option<StepEnd>
        requires into { length into.old ≡ length vector.now }
        ensures setting { self.new ≡ self.old }
        ensures leads { IfSome result (λ end. IfReached end (λ cycles. LeadsIn self.old cycles vector.now value into.new)) }
        ensures state { IfSome result (λ end. IfReached end (λ _. IsState self.old into.new)) }
    {
        run_to_next_state(
            &mut self.replica,
            &self.layout,
            &mut self.last,
            &self.property,
            self.most,
            vector,
            value,
            into,
        )
    }
}

impl System for MachineSearch {
    ghost use Rattle.mcs_check.specs.StateVectors.{Setting};
    ghost use Rattle.mcs_check.specs.SearchRules.{rules_of};

    ghost Setting = { Setting };

    ghost setting = { λ w. w };

    ghost rules = { rules_of };

    fn choices(&mut self, state: &[u8], into: &mut Vec<u8>) -> Result<(), AllocError> {
        list_readable_values(
            &mut self.replica,
            &self.limits,
            &self.layout,
            &mut self.last,
            state,
            into,
        )?;
        Ok(())
    }

    fn apply_choice(&mut self, state: &[u8], choice: u8, into: &mut [u8]) -> Option<bool> {
        let end = self.run(state, choice, into)?;
        Some(end.is_reached())
    }
}

//! The search by levels. Its states are timed state vectors. A timed state vector is a machine's state vector and,
//! after it, the bytes of what the search remembers of the machine's inputs (`Spacing`). In each state, its choices are
//! the levels at which the next step can begin.
ghost use Rattle.std.specs.Prelude.{[], ◌∷◌, ◌++◌, ◌≡◌, ◌<◌, ◌≤◌, ℕ, length, true, IfOk, OnOk};
ghost use Rattle.std.specs.List.{All, Contains};
ghost use Rattle.mcs_check.specs.declared.spacing.TheConstants.{NO_LEVELS};
ghost use Rattle.mcs_check.specs.SpacedInputs.{can_begin_at};

use crate::level_sets::Levels;
use crate::machine_search::MachineSearch;
use crate::search_step::StepEnd;
use crate::spacing::{NO_LEVELS, SPACING_BYTES, Spacing};
use mcs_search::System;
use std::alloc::{AllocError, Global};
use std::marker::Model;

/// The machines of a search, and the levels at which their steps can begin.
#[derive(Drop)]
pub struct SpacedSearch {
    pub(crate) machines: MachineSearch,
    /// The levels at which a step can begin. A choice is an index in this list.
    pub(crate) levels: Vec<Levels>,
    /// The smallest number of cycles between two changes of the levels.
    pub(crate) wait: u32,
}

impl Model for SpacedSearch {
    ghost use Rattle.std.specs.Prelude.{◌≤◌, length};
    ghost use Rattle.mcs_check.specs.declared.spacing.TheConstants.{MAX_WAIT, NO_LEVELS};
    ghost use Rattle.mcs_check.specs.SpacedInputs.{SpacedSetting};

    ghost Value = { SpacedSetting };

    ghost view = { λ w. record { machines = w.machines; wait = w.wait; levels = w.levels.items } };

    ghost invariant = { λ w. (w.wait ≤ MAX_WAIT) × (length w.levels.items ≤ NO_LEVELS) };
}

impl SpacedSearch {
    /// Returns the levels with these indices. Ignores an index without levels. Fails if memory runs out.
    pub(crate) fn levels_at(&self, alloc: Global, indices: &[u8]) -> Result<Vec<Levels>, AllocError>
        ensures { IfOk result (λ found. All (Contains self.now.levels) found.items) }
    {
        let mut found = Vec::new(alloc);
        for index in indices {
            if let Some(levels) = self.levels.get(usize::from(*index)) {
                found.push(levels.copy(alloc)?)?;
            }
        }
        Ok(found)
    }
}

/// Returns the timed state vector with which a search begins. `vector` is the state vector of the machine at the start.
/// Fails if memory runs out.
pub(crate) fn first_timed_vector(alloc: Global, vector: &[u8]) -> Result<Vec<u8>, AllocError>
    ensures { IfOk result (λ timed. timed.items ≡ vector.now ++ NO_LEVELS ∷ 0 ∷ 0 ∷ 0 ∷ 0 ∷ 0 ∷ 0 ∷ 0 ∷ 0 ∷ []) }
{
    let mut timed = Vec::new(alloc);
    timed.extend_from_slice(vector)?;
    timed.extend_from_slice(&[NO_LEVELS, 0, 0, 0, 0, 0, 0, 0, 0])?;
    Ok(timed)
}

/// Appends to `into` each index in `all` at whose levels the next step can begin. Fails if memory runs out.
fn push_indices(
    all: &[Levels],
    spacing: Spacing,
    wait: u32,
    held: u32,
    into: &mut Vec<u8>,
) -> Result<(), AllocError>
    requires { length all.now ≤ NO_LEVELS }
    ensures { OnOk result ((d : ℕ) → d < length all.now → can_begin_at wait held all.now spacing d ≡ true → Contains into.new.items d) }
{
    for index in 0..all.len() {
        if spacing.can_begin_at(wait, held, all, index as u8) {
            into.push(index as u8)?;
        }
    }
    Ok(())
}

impl System for SpacedSearch {
    ghost use Rattle.mcs_check.specs.SpacedInputs.{SpacedSetting, spaced_rules};

    ghost Setting = { SpacedSetting };

    ghost setting = { λ w. w };

    ghost rules = { spaced_rules };

    fn choices(&mut self, state: &[u8], into: &mut Vec<u8>) -> Result<(), AllocError> {
        let spacing = Spacing::of_vector(state, self.machines.vector_len());
        into.clear();
        let held = self.machines.held();
        push_indices(&self.levels, spacing, self.wait, held, into)
    }

    fn apply_choice(&mut self, state: &[u8], choice: u8, into: &mut [u8]) -> Option<bool> {
        let len = self.machines.vector_len();
        let held = self.machines.held();
        if state.len() < len || state.len() - len != SPACING_BYTES {
            return None;
        }
        let machine = &state[..len];
        let levels = self.levels.get(usize::from(choice))?;
        let value = self.machines.value_at_vector(machine, levels)?;
        let (next, spacing) = into.split_at_mut(len);
        let end = self.machines.run(machine, value, next)?;
        let StepEnd::Reached(cycles) = end else {
            return Some(false);
        };
        let before = Spacing::of_vector(state, len);
        before
            .after(self.wait, held, &self.levels, choice, levels, cycles)
            .write(spacing);
        Some(true)
    }
}

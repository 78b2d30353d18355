//! One step of the search: it runs the machine that a state vector identifies to its next read, and saves the next
//! state.
ghost use Rattle.std.specs.Prelude.{◌≡◌, ◌<◌, ◌⊎◌, ℕ, length, true, IfSome, OnOk};
ghost use Rattle.std.specs.List.{Contains};
ghost use Rattle.mcs_model.specs.Boards.{key_count};
ghost use Rattle.mcs_model.specs.Validity.{AreBelow};
ghost use Rattle.mcs_drive.specs.DrivenRuns as driven;
ghost use Rattle.mcs_check.specs.Cells.{IsComplete};
ghost use Rattle.mcs_check.specs.Conditions.{PropertyConditions};
ghost use Rattle.mcs_check.specs.StateVectors.{KeepsBoardAndInputs, setting_of};
ghost use Rattle.mcs_check.specs.Memory.{IsLastVectorOf};
ghost use Rattle.mcs_check.specs.SearchRules.{Covers};
ghost use Rattle.mcs_check.specs.ReadPoints.{CannotRead};
ghost use Rattle.mcs_check.specs.SearchStep.{IfReached, IsState, LeadsIn, ReadsAt, is_reached};

use crate::cells::StateByte;
use crate::last_vector::{LastVector, both};
use crate::level_sets::Levels;
use crate::limits::InputLimits;
use crate::property::Property;
use crate::replica::SearchMachine;
use std::alloc::AllocError;

/// The end of a step of the search.
#[derive(Clone, Copy, Debug)]
pub(crate) enum StepEnd {
    /// The step reached the next state, and the property held at every moment. The field is the number of cycles,
    /// including the cycle that reads.
    Reached(u64),
    /// The property failed at some moment.
    Failed,
}

impl StepEnd {
    /// Returns whether the step reached the next state.
    pub(crate) fn is_reached(self) -> bool
        ensures { result ≡ is_reached self }
    {
        match self {
            StepEnd::Reached(_) => true,
            StepEnd::Failed => false,
        }
    }
}

/// The number of values that a nibble can have.
const NIBBLE_VALUE_COUNT: u8 = 16;

/// Appends all 16 values of a nibble to `into`. Fails if memory runs out.
fn push_all_nibbles(into: &mut Vec<u8>) -> Result<(), AllocError>
    ensures { OnOk result ((value : ℕ) → value < 16 → Contains into.new.items value) }
{
    for value in 0..NIBBLE_VALUE_COUNT {
        into.push(value)?;
    }
    Ok(())
}

/// Appends to `into` every value that the machine's next cycle can read at input levels within the limits. Each key of
/// the machine must be at its highest level. Fails if memory runs out.
fn push_readable_values(
    replica: &SearchMachine,
    limits: &InputLimits,
    into: &mut Vec<u8>,
) -> Result<(), AllocError>
    requires fit { AreBelow (key_count replica.now.1.board) 2 replica.now.1.keys }
    requires keys { replica.now.1.keys ≡ limits.now.keys }
    ensures { OnOk result ((value : ℕ) → value < 16 → CannotRead limits.now value replica.now ⊎ Contains into.new.items value) }
{
    let source = replica.source();
    let (least, most) = replica.port_bounds();
    for value in 0..NIBBLE_VALUE_COUNT {
        if replica.can_read(limits, source, least, most, value) {
            into.push(value)?;
        }
    }
    Ok(())
}

/// Loads the machine that `vector` identifies, and lists in `into` the values that this machine can read in its next
/// cycle at input levels within the limits. Lists all 16 values if `vector` cannot be loaded. `last` is the state
/// vector that `replica` last loaded or saved; `vector` replaces it. Fails if memory runs out.
pub(crate) fn list_readable_values(
    replica: &mut SearchMachine,
    limits: &InputLimits,
    layout: &[StateByte],
    last: &mut LastVector,
    vector: &[u8],
    into: &mut Vec<u8>,
) -> Result<(), AllocError>
    requires known { IsLastVectorOf layout.now last.old replica.old }
    requires keys { replica.old.1.keys ≡ limits.now.keys }
    requires test { replica.old.1.test ≡ 0 }
    requires complete { IsComplete replica.old.1.board layout.now }
    ensures keeps { KeepsBoardAndInputs replica.old.1 replica.new.1 }
    ensures known { IsLastVectorOf layout.now last.new replica.new }
    ensures covers { OnOk result ((property : PropertyConditions) →
        Covers (setting_of replica.old limits.now layout.now property) vector.now into.new.items) }
{
    into.clear();
    if vector.len() != layout.len() || !replica.reload(layout, last, vector) {
        push_all_nibbles(into)?;
        return Ok(());
    }
    replica.show_state_is_valid();
    push_readable_values(replica, limits, into)?;
    Ok(())
}

/// Loads the machine that `vector` identifies, and returns the value that this machine reads in its next cycle at these
/// input levels. Returns `None` if `vector` cannot be loaded or the levels are those of another number of keys. `last`
/// is the state vector that `replica` last loaded or saved; `vector` replaces it.
pub(crate) fn value_at_vector(
    replica: &mut SearchMachine,
    limits: &InputLimits,
    layout: &[StateByte],
    last: &mut LastVector,
    vector: &[u8],
    levels: &Levels,
) -> Option<u8>
    requires known { IsLastVectorOf layout.now last.old replica.old }
    requires keys { replica.old.1.keys ≡ limits.now.keys }
    requires test { replica.old.1.test ≡ 0 }
    requires complete { IsComplete replica.old.1.board layout.now }
    ensures keeps { KeepsBoardAndInputs replica.old.1 replica.new.1 }
    ensures known { IsLastVectorOf layout.now last.new replica.new }
    ensures value { (property : PropertyConditions) → IfSome result (λ value.
        ReadsAt (setting_of replica.old limits.now layout.now property) vector.now levels.now value) }
{
    if vector.len() != layout.len() || levels.keys().len() != replica.board().key_count() {
        return None;
    }
    if !replica.reload(layout, last, vector) {
        return None;
    }
    replica.show_state_is_valid();
    Some(replica.value_read_at(levels, limits))
}

/// Loads the machine that `vector` identifies and runs it until its next read (see `run_to_read_point`). The first
/// cycle reads `value`. Returns `None` if `vector` cannot be loaded or the first cycle cannot read `value`. Saves the
/// machine's new state vector into `into` if the property holds at every step. `last` is the state vector that
/// `replica` last loaded or saved; the function updates `last`.
pub(crate) fn run_to_next_state(
    replica: &mut SearchMachine,
    layout: &[StateByte],
    last: &mut LastVector,
    property: &Property,
    most: u32,
    vector: &[u8],
    value: u8,
    into: &mut [u8],
) -> Option<StepEnd>
    requires test { replica.old.1.test ≡ 0 }
    requires complete { IsComplete replica.old.1.board layout.now }
    requires into { length into.old ≡ length vector.now }
    requires known { IsLastVectorOf layout.now last.old replica.old }
    ensures keeps { KeepsBoardAndInputs replica.old.1 replica.new.1 }
    ensures known { IsLastVectorOf layout.now last.new replica.new }
    ensures leads { (limits : driven.InputLimits) → replica.old.1.keys ≡ limits.keys →
        IfSome result (λ end. IfReached end (λ cycles.
        LeadsIn (setting_of replica.old limits layout.now property.now) cycles vector.now value into.new)) }
    ensures state { (limits : driven.InputLimits) → replica.old.1.keys ≡ limits.keys →
        IfSome result (λ end. IfReached end (λ _.
        IsState (setting_of replica.old limits layout.now property.now) into.new)) }
{
    if vector.len() != layout.len() {
        return None;
    }
    if !replica.reload(layout, last, vector) {
        return None;
    }
    replica.show_state_is_valid();
    last.is_current = false;
    let at = replica.program_counter();
    let source = replica.source();
    if !replica.read(property, source, value) {
        return None;
    }
    let Some(run) = replica.run_to_read_point(property, most, layout, vector, at) else {
        return Some(StepEnd::Failed);
    };
    replica.show_state_is_valid();
    let is_kept = both(run.keeps_memory, source.is_input());
    replica.save_after(layout, last.front, vector, is_kept, into);
    last.remember(into);
    Some(StepEnd::Reached(u64::from(run.cycles) + 1))
}

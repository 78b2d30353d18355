//! Functions that expand one state, and functions that replay the choices from the start to a state.
ghost use Rattle.std.specs.Prelude.{◌≡◌, ◌<◌, ◌≤◌, length, IfOk, IsTrue};
ghost use Rattle.std.specs.List.{All};
ghost use Rattle.mcs_search.specs.Rules.{Rules, IsCounterexample};
ghost use Rattle.mcs_search.specs.StateStores.{Grows};
ghost use Rattle.mcs_search.specs.Verdicts.{IsExpandOutcome};

use crate::block::Parent;
use crate::system::System;
use crate::visited::{AddOutcome, VisitedSet};
use std::alloc::{AllocError, Global};

/// The result of expanding a state, that is, of making each of its choices there.
#[derive(Clone, Copy)]
pub(crate) enum ExpandOutcome {
    /// Every choice was made, and all next states are among the visited states.
    All,
    /// The property fails while the system makes this choice.
    Broken(u8),
    /// A next state is new, but the search has already found its maximum number of states.
    TooMany,
    /// The system gave up on a choice.
    GaveUp,
}

/// Expands the state `state`, whose index is `at`: makes each of the given choices there, and adds the next states to
/// `visited`. Stops at the first choice that breaks the property, exceeds the limit of `max_states` states, or makes
/// the system give up. `into` is a buffer for the next state. Fails if memory cannot be allocated.
pub(crate) fn expand_state<S: System>(
    system: &mut S,
    visited: &mut VisitedSet,
    max_states: usize,
    at: usize,
    state: &[u8],
    choices: &[u8],
    into: &mut [u8],
) -> Result<ExpandOutcome, AllocError>
    requires max_states { max_states < 4294967295 }
    requires below_limit { length visited.old.states < 4294967295 }
    requires at { at < 4294967295 }
    requires state { (S.rules (S.setting system.old)).is_state state.now }
    requires into { length into.old ≡ length state.now }
    requires width { length state.now ≡ visited.old.width }
    requires states { All (S.rules (S.setting system.old)).is_state visited.old.states }
    ensures setting { S.setting system.new ≡ S.setting system.old }
    ensures grows { Grows visited.old visited.new }
    ensures states { All (S.rules (S.setting system.old)).is_state visited.new.states }
    ensures below_limit { length visited.new.states < 4294967295 }
    ensures outcome { IfOk result (IsExpandOutcome (S.rules (S.setting system.old)) visited.new.states state.now choices.now) }
{
    for i in 0..choices.len() {
        let choice = choices[i];
        match system.apply_choice(state, choice, into) {
            None => return Ok(ExpandOutcome::GaveUp),
            Some(false) => return Ok(ExpandOutcome::Broken(choice)),
            Some(true) => {}
        }
        let parent = Parent {
            index: at as u32,
            choice,
        };
        match visited.add(into, parent, max_states)? {
            AddOutcome::New => {}
            AddOutcome::Known => {}
            AddOutcome::Full => return Ok(ExpandOutcome::TooMany),
        }
    }
    Ok(ExpandOutcome::All)
}

/// Returns the choices that led to the state at `index`, and then the choice `last`. Takes the choices from the stored
/// parents. Nothing is proved about parents, so the caller must replay the choices. Fails if memory cannot be
/// allocated.
pub(crate) fn choices_to(
    alloc: Global,
    visited: &VisitedSet,
    index: usize,
    last: u8,
) -> Result<Vec<u8>, AllocError> {
    let mut choices = Vec::new(alloc);
    choices.push(last)?;
    let mut at = index;
    while at > 0 {
        let Some(parent) = visited.parent(at) else {
            break;
        };
        if parent.index as usize >= at {
            break;
        }
        choices.push(parent.choice)?;
        at = parent.index as usize;
    }
    choices.reverse();
    Ok(choices)
}

/// Returns true only if the property fails when the system makes the choices in order, beginning in the state `state`.
/// Overwrites `state` and `into`.
pub(crate) fn is_counterexample<S: System>(
    system: &mut S,
    state: &mut [u8],
    into: &mut [u8],
    choices: &[u8],
) -> bool
    requires state { (S.rules (S.setting system.old)).is_state state.old }
    requires into { length into.old ≡ length state.old }
    ensures setting { S.setting system.new ≡ S.setting system.old }
    ensures is_counterexample { IsTrue result → IsCounterexample (S.rules (S.setting system.old)) state.old choices.now }
{
    for choice in choices {
        match system.apply_choice(state, *choice, into) {
            None => return false,
            Some(false) => return true,
            Some(true) => {}
        }
        state.copy_from_slice(into);
    }
    false
}

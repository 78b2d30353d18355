//! A search, which runs in one call, or in several calls with a limited number of steps each.
ghost use Rattle.std.specs.Prelude.{◌≡◌, ◌<◌, ◌≤◌, [], ◌∷◌, length, IfOk, IfSome, slice_index_or};
ghost use Rattle.mcs_search.specs.Rules.{Rules};
ghost use Rattle.mcs_search.specs.Verdicts.{IsProved, IsUnderWay, SearchProgress, start_of};

use crate::block::Parent;
use crate::expanding::{ExpandOutcome, choices_to, expand_state, is_counterexample};
use crate::system::System;
use crate::visited::VisitedSet;
use std::alloc::{AllocError, Global};
use std::marker::Model;

/// The largest value that a search accepts as its limit on the number of states.
pub const MAX_STATES: usize = 4_000_000_000;

/// The result of a search.
#[derive(Drop)]
pub enum Verdict {
    /// The property holds for all choices. The field is the number of states that the search found.
    Holds(usize),
    /// The property fails when the system makes these choices in order, beginning in the start state.
    Broken(Vec<u8>),
    /// The search found more states than it may visit.
    TooMany,
    /// Memory could not be allocated. The field is the number of states found so far.
    NoMemory(usize),
    /// The system gave up, or a failure of the property could not be replayed from the start.
    GaveUp,
}

/// A breadth-first search in progress. It has the states found so far and the number of expanded states. A state is
/// expanded when each of its choices has been made and has led to a known state.
#[derive(Drop)]
pub struct Search {
    visited: VisitedSet,
    expanded: usize,
    max_states: usize,
    state: Vec<u8>,
    into: Vec<u8>,
    choices: Vec<u8>,
    alloc: Global,
}

impl Model for Search {
    ghost use Rattle.std.specs.Prelude.{◌≡◌, ◌<◌, ◌≤◌, length, vec_len};
    ghost use Rattle.mcs_search.specs.declared.searching.TheConstants.{MAX_STATES};
    ghost use Rattle.mcs_search.specs.Verdicts.{SearchProgress, SearchInvariant};

    ghost Value = { SearchProgress };

    ghost view = { λ s. record { states = s.visited.states; expanded = s.expanded } };

    ghost invariant = { λ s. SearchInvariant s.visited s.expanded s.max_states (vec_len s.state) (vec_len s.into) };
}

impl Search {
    /// Begins a search from the state `start`. The search may visit at most `max_states` states. Fails if memory cannot
    /// be allocated.
    pub fn begin(alloc: Global, start: &[u8], max_states: usize) -> Result<Search, AllocError>
        requires { max_states ≤ MAX_STATES }
        ensures { IfOk result (λ search.
            search ≡ record { states = start.now ∷ []; expanded = 0 }) }
    {
        let state = vec![in alloc; 0u8; start.len()]?;
        let into = vec![in alloc; 0u8; start.len()]?;
        let mut visited = VisitedSet::new(alloc, start.len())?;
        let parent = Parent {
            index: 0,
            choice: 0,
        };
        visited.add(start, parent, 1)?;
        Ok(Search {
            visited,
            expanded: 0,
            max_states,
            state,
            into,
            choices: Vec::new(alloc),
            alloc,
        })
    }

    /// Returns the number of states found so far.
    pub fn state_count(&self) -> usize
        ensures { result ≡ length self.now.states }
    {
        self.visited.len()
    }

    /// Returns the number of expanded states. The other states found are the frontier.
    pub fn expanded(&self) -> usize
        ensures { result ≡ self.now.expanded }
    {
        self.expanded
    }

    /// Returns the state vector at index `i`. States are indexed from 0 in the order in which they were found.
    pub fn state(&self, i: usize) -> &[u8]
        requires { i < length self.now.states }
        ensures { result.now ≡ slice_index_or self.now.states i [] }
    {
        self.visited.state(i)
    }

    /// Returns the verdict on a `choice` that broke the property when it was made in the current state. Replays the
    /// choices from the start to the current state, and then `choice`. Returns `Broken` with these choices if the
    /// property fails again, and otherwise `GaveUp`. Fails if memory cannot be allocated.
    fn counterexample<S: System>(
        &mut self,
        system: &mut S,
        choice: u8,
    ) -> Result<Verdict, AllocError>
        requires under_way { IsUnderWay (S.rules (S.setting system.old)) self.old }
        ensures setting { S.setting system.new ≡ S.setting system.old }
        ensures unchanged { self.new ≡ self.old }
        ensures proved { IfOk result (IsProved (S.rules (S.setting system.old)) (start_of self.old)) }
    {
        let choices = choices_to(self.alloc, &self.visited, self.expanded, choice)?;
        self.state.copy_from_slice(self.visited.state(0));
        if is_counterexample(system, &mut self.state, &mut self.into, &choices) {
            Ok(Verdict::Broken(choices))
        } else {
            Ok(Verdict::GaveUp)
        }
    }

    /// Expands the next state in the frontier. Returns a verdict if the frontier is empty, if the limit on states is
    /// exceeded, or if a choice ends the search. Fails if memory cannot be allocated.
    fn expand_next_state<S: System>(
        &mut self,
        system: &mut S,
    ) -> Result<Option<Verdict>, AllocError>
        requires under_way { IsUnderWay (S.rules (S.setting system.old)) self.old }
        ensures setting { S.setting system.new ≡ S.setting system.old }
        ensures under_way { IsUnderWay (S.rules (S.setting system.old)) self.new }
        ensures start { start_of self.new ≡ start_of self.old }
        ensures proved { IfOk result (λ verdict.
            IfSome verdict (IsProved (S.rules (S.setting system.old)) (start_of self.old))) }
    {
        let len = self.visited.len();
        if self.max_states < len {
            return Ok(Some(Verdict::TooMany));
        }
        if self.expanded == len {
            return Ok(Some(Verdict::Holds(len)));
        }
        self.state
            .copy_from_slice(self.visited.state(self.expanded));
        system.choices(&self.state, &mut self.choices)?;
        match expand_state(
            system,
            &mut self.visited,
            self.max_states,
            self.expanded,
            &self.state,
            &self.choices,
            &mut self.into,
        )? {
            ExpandOutcome::All => {
                self.expanded += 1;
                Ok(None)
            }
            ExpandOutcome::TooMany => Ok(Some(Verdict::TooMany)),
            ExpandOutcome::GaveUp => Ok(Some(Verdict::GaveUp)),
            ExpandOutcome::Broken(choice) => Ok(Some(self.counterexample(system, choice)?)),
        }
    }

    /// Expands at most `steps` states. Returns `None` if the search has not ended. Fails if memory cannot be allocated.
    /// The next call resumes the search, even after an error.
    pub fn resume<S: System>(
        &mut self,
        system: &mut S,
        steps: usize,
    ) -> Result<Option<Verdict>, AllocError>
        requires under_way { IsUnderWay (S.rules (S.setting system.old)) self.old }
        ensures setting { S.setting system.new ≡ S.setting system.old }
        ensures under_way { IsUnderWay (S.rules (S.setting system.old)) self.new }
        ensures start { start_of self.new ≡ start_of self.old }
        ensures proved { IfOk result (λ verdict.
            IfSome verdict (IsProved (S.rules (S.setting system.old)) (start_of self.old))) }
    {
        for _ in 0..steps {
            match self.expand_next_state(system)? {
                None => {}
                Some(verdict) => return Ok(Some(verdict)),
            }
        }
        Ok(None)
    }
}

/// Searches all states that a system can reach from `start`, up to `max_states` states. Fails only if memory for the
/// first state cannot be allocated. Returns `NoMemory` if a later allocation fails.
pub fn search_all<S: System>(
    alloc: Global,
    system: &mut S,
    start: &[u8],
    max_states: usize,
) -> Result<Verdict, AllocError>
    requires max_states { max_states ≤ MAX_STATES }
    requires start { (S.rules (S.setting system.old)).is_state start.now }
    ensures setting { S.setting system.new ≡ S.setting system.old }
    ensures proved { IfOk result (IsProved (S.rules (S.setting system.old)) start.now) }
{
    let mut search = Search::begin(alloc, start, max_states)?;
    // Each step expands one state, and there are at most `max_states` states. One more step detects that the frontier
    // is empty.
    match search.resume(system, max_states + 1) {
        Ok(Some(verdict)) => Ok(verdict),
        Ok(None) => Ok(Verdict::TooMany),
        Err(_) => Ok(Verdict::NoMemory(search.state_count())),
    }
}

//! The set of states that a search has found, with a hash table that looks up a state by its bytes.
ghost use Rattle.std.specs.Prelude.{◌≡◌, ◌≢◌, ◌<◌, ◌≤◌, ◌+◌, ℕ, List, [], ◌∷◌, ◌++◌, length, vec_len, IfOk, OnOk, MatchOption, slice_index_or};
ghost use Rattle.std.specs.List.{Contains};
ghost use Rattle.mcs_search.specs.StateStores.{StateStore, Adds};
ghost use Rattle.mcs_search.specs.Verdicts.{IsAddOutcome};

use crate::arena::Arena;
use crate::block::Parent;
use std::alloc::{AllocError, Global};
use std::hash::{FoldHasher, Hasher};
use std::marker::Model;

/// The number of slots in the hash table of a new set.
const INITIAL_SLOTS: usize = 1_024;

/// The result of adding a state to the set.
#[derive(Clone, Copy)]
pub(crate) enum AddOutcome {
    /// The state was new and was added.
    New,
    /// The state was already in the set.
    Known,
    /// The state was new, but the set already had the maximum number of states, so it was not added.
    Full,
}

/// Returns the hash of a state.
fn hash(state: &[u8]) -> usize {
    let mut hasher = FoldHasher::default();
    hasher.write(state);
    hasher.finish() as usize
}

/// Returns the first slot to probe for a state in a table with `count` slots. `count` is a power of two.
fn first_slot(count: usize, state: &[u8]) -> usize
    requires { 0 < count }
    ensures { result < count }
{
    hash(state) & (count - 1)
}

/// Returns the slot to probe after `at`. The first slot follows the last.
fn next_slot(count: usize, at: usize) -> usize
    requires { at < count }
    ensures { result < count }
{
    if at + 1 < count { at + 1 } else { 0 }
}

/// Looks up a state. Returns `None` if it finds the state in the arena, and otherwise the index of a slot for the
/// state. A free slot holds 0. Any other slot holds 1 plus the index of a state in the arena.
fn slot_if_new(slots: &[u32], arena: &Arena, state: &[u8]) -> Option<usize>
    requires { 0 < length slots.now }
    ensures { MatchOption result (Contains arena.now.states state.now) (λ at. at < length slots.now) }
{
    let count = slots.len();
    let mut at = first_slot(count, state);
    for _ in 0..count {
        let slot = slots[at] as usize;
        if slot == 0 {
            return Some(at);
        }
        if slot <= arena.len() && arena.state(slot - 1) == state {
            return None;
        }
        at = next_slot(count, at);
    }
    Some(at)
}

/// Returns the first free slot for a state that is not in the table, or an occupied slot if no slot is free.
fn free_slot(slots: &[u32], state: &[u8]) -> usize
    requires { 0 < length slots.now }
    ensures { result < length slots.now }
{
    let count = slots.len();
    let mut at = first_slot(count, state);
    for _ in 0..count {
        if slots[at] == 0 {
            return at;
        }
        at = next_slot(count, at);
    }
    at
}

/// Inserts all states of an arena into an empty hash table.
fn insert_all(slots: &mut [u32], arena: &Arena)
    requires room { 0 < length slots.old }
    requires below_limit { length arena.now.states < 4294967295 }
{
    for i in 0..arena.len() {
        let at = free_slot(slots, arena.state(i));
        slots[at] = i as u32 + 1;
    }
}

/// A set of states, each with its parent, and a hash table that finds them. All state vectors have the same width.
///
/// The proofs do not rely on the table. A state counts as known only if its bytes equal those of a state in the arena.
/// If the table misses a state, the state is stored twice.
#[derive(Drop)]
pub(crate) struct VisitedSet {
    arena: Arena,
    slots: Vec<u32>,
    alloc: Global,
}

impl Model for VisitedSet {
    ghost use Rattle.std.specs.Prelude.{◌<◌, vec_len};
    ghost use Rattle.mcs_search.specs.StateStores.{StateStore};

    ghost Value = { StateStore };

    ghost view = { λ v. v.arena };

    ghost invariant = { λ v. 0 < vec_len v.slots };
}

impl VisitedSet {
    /// Creates an empty set for state vectors of `width` bytes. Fails if memory cannot be allocated.
    pub(crate) fn new(alloc: Global, width: usize) -> Result<VisitedSet, AllocError>
        ensures { IfOk result (λ visited. visited ≡ record { width = width; states = [] }) }
    {
        let slots = vec![in alloc; 0u32; INITIAL_SLOTS]?;
        Ok(VisitedSet {
            arena: Arena::new(alloc, width),
            slots,
            alloc,
        })
    }

    /// Returns the number of states in the set.
    pub(crate) fn len(&self) -> usize
        ensures { result ≡ length self.now.states }
    {
        self.arena.len()
    }

    /// Returns the state vector at index `i`, in the order in which states were added.
    pub(crate) fn state(&self, i: usize) -> &[u8]
        requires { i < length self.now.states }
        ensures state { result.now ≡ slice_index_or self.now.states i [] }
        ensures width { length result.now ≡ self.now.width }
    {
        self.arena.state(i)
    }

    /// Returns the parent of the state at index `i`, or `None` if no parent is stored there.
    pub(crate) fn parent(&self, i: usize) -> Option<Parent> {
        self.arena.parent(i)
    }

    /// Rebuilds the hash table if it is at least half full. The new table has at least four slots per state. The arena
    /// has all states, so the old table is freed first. Fails if memory cannot be allocated.
    fn make_room(&mut self) -> Result<(), AllocError>
        requires below_limit { length self.old.states < 4294967295 }
        ensures { self.new ≡ self.old }
    {
        let len = self.arena.len();
        if len < self.slots.len() / 2 {
            return Ok(());
        }
        let count = (len * 4).next_power_of_two();
        self.slots = vec![in self.alloc; 0u32; 1]?;
        let mut slots = vec![in self.alloc; 0u32; count]?;
        insert_all(&mut slots, &self.arena);
        self.slots = slots;
        Ok(())
    }

    /// Adds a state unless the state is present or the set already has `max_states` states. Fails if memory cannot be
    /// allocated; the set then keeps all its states.
    pub(crate) fn add(
        &mut self,
        state: &[u8],
        parent: Parent,
        max_states: usize,
    ) -> Result<AddOutcome, AllocError>
        requires width { length state.now ≡ self.old.width }
        requires max_states { max_states < 4294967295 }
        requires below_limit { length self.old.states < 4294967295 }
        ensures added { IfOk result (IsAddOutcome max_states self.old.states self.new.states state.now) }
        ensures adds { Adds self.old state.now self.new }
        ensures below_limit { length self.new.states < 4294967295 }
    {
        self.make_room()?;
        match slot_if_new(&self.slots, &self.arena, state) {
            None => Ok(AddOutcome::Known),
            Some(at) => {
                if self.arena.len() >= max_states {
                    return Ok(AddOutcome::Full);
                }
                self.arena.push(state, parent)?;
                self.slots[at] = self.arena.len() as u32;
                Ok(AddOutcome::New)
            }
        }
    }
}

//! An arena that stores the states found by a search, in blocks.
ghost use Rattle.std.specs.Prelude.{◌≡◌, ◌<◌, ◌*◌, ◌+◌, [], ◌∷◌, ◌++◌, length, OnOk, OnErr, slice_index_or};
ghost use Rattle.mcs_search.specs.StateStores.{StateStore};

use crate::block::{Parent, STATES_PER_BLOCK, StateBlock};
use std::alloc::{AllocError, Global};
use std::marker::Model;
use std::mem;

/// States, each with its parent, stored in blocks. All state vectors have the same width. When the arena grows, it
/// copies no states of full blocks. It therefore never needs memory for a second copy of all its states.
#[derive(Drop)]
pub(crate) struct Arena {
    full: Vec<StateBlock>,
    last: StateBlock,
    width: usize,
    len: usize,
    alloc: Global,
}

impl Model for Arena {
    ghost use Rattle.std.specs.Prelude.{◌++◌};
    ghost use Rattle.mcs_search.specs.StateStores.{StateStore, ArenaInvariant, states_of_blocks};

    ghost Value = { StateStore };

    ghost view = { λ a. record { width = a.width; states = states_of_blocks a.full.items ++ a.last.states } };

    ghost invariant = { λ a. ArenaInvariant a.width a.len a.full.items a.last };
}

impl Arena {
    /// Creates an empty arena for state vectors of `width` bytes.
    pub(crate) fn new(alloc: Global, width: usize) -> Arena
        ensures { result ≡ record { width = width; states = [] } }
    {
        Arena {
            full: Vec::new(alloc),
            last: StateBlock::new(alloc, width),
            width,
            len: 0,
            alloc,
        }
    }

    /// Returns the number of states in the arena.
    pub(crate) fn len(&self) -> usize
        ensures { result ≡ length self.now.states }
    {
        self.len
    }

    /// Returns the state vector at index `i`, in the order in which states were added.
    pub(crate) fn state(&self, i: usize) -> &[u8]
        requires { i < length self.now.states }
        ensures state { result.now ≡ slice_index_or self.now.states i [] }
        ensures width { length result.now ≡ self.now.width }
    {
        if i / STATES_PER_BLOCK < self.full.len() {
            self.full[i / STATES_PER_BLOCK].state(i % STATES_PER_BLOCK)
        } else {
            self.last.state(i % STATES_PER_BLOCK)
        }
    }

    /// Returns the parent of the state at index `i`, or `None` if no parent is stored there.
    pub(crate) fn parent(&self, i: usize) -> Option<Parent> {
        match self.full.get(i / STATES_PER_BLOCK) {
            Some(block) => block.parent(i % STATES_PER_BLOCK),
            None => self.last.parent(i % STATES_PER_BLOCK),
        }
    }

    /// Appends a state and its parent. Fails if memory cannot be allocated; the arena is then unchanged.
    pub(crate) fn push(&mut self, state: &[u8], parent: Parent) -> Result<(), AllocError>
        requires width { length state.now ≡ self.old.width }
        requires below_limit { length self.old.states < 4294967295 }
        ensures states { OnOk result (self.new.states ≡ self.old.states ++ state.now ∷ []) }
        ensures width { self.new.width ≡ self.old.width }
        ensures err { OnErr result (self.new ≡ self.old) }
    {
        // If this state fills the last block, that block is moved to `full`. Space in `full` is reserved first, so that
        // the move cannot fail.
        self.full.reserve(1)?;
        self.last.push(state, parent)?;
        self.len += 1;
        if self.last.len() < STATES_PER_BLOCK {
            return Ok(());
        }
        let block = mem::replace(&mut self.last, StateBlock::new(self.alloc, self.width));
        self.full.push_reserved(block);
        Ok(())
    }
}

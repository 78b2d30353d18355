//! A block of state vectors of one width, stored back to back.
ghost use Rattle.std.specs.Prelude.{◌≡◌, ◌<◌, ◌*◌, [], ◌∷◌, ◌++◌, length, OnOk, OnErr, slice_index_or};
ghost use Rattle.mcs_search.specs.StateStores.{StateStore};

use std::alloc::{AllocError, Global};
use std::marker::Model;

/// The number of states in a full block.
pub(crate) const STATES_PER_BLOCK: usize = 65_536;

/// The step with which the search first reached a state: the index of the previous state, and the choice that leads
/// from there.
#[derive(Clone, Copy)]
pub(crate) struct Parent {
    pub(crate) index: u32,
    pub(crate) choice: u8,
}

/// State vectors of one width, stored back to back in one `Vec`, each with its parent.
#[derive(Drop)]
pub(crate) struct StateBlock {
    width: usize,
    len: usize,
    bytes: Vec<u8>,
    parents: Vec<Parent>,
}

impl Model for StateBlock {
    ghost use Rattle.std.specs.Prelude.{◌≡◌, ◌*◌, length};
    ghost use Rattle.mcs_search.specs.StateStores.{StateStore, states_in_bytes};

    ghost Value = { StateStore };

    ghost view = { λ b. record { width = b.width; states = states_in_bytes b.width b.len b.bytes.items } };

    ghost invariant = { λ b. length b.bytes.items ≡ b.len * b.width };
}

impl StateBlock {
    /// Creates an empty block for state vectors of `width` bytes.
    pub(crate) fn new(alloc: Global, width: usize) -> StateBlock
        ensures { result ≡ record { width = width; states = [] } }
    {
        StateBlock {
            width,
            len: 0,
            bytes: Vec::new(alloc),
            parents: Vec::new(alloc),
        }
    }

    /// Returns the number of states in the block.
    pub(crate) fn len(&self) -> usize
        ensures { result ≡ length self.now.states }
    {
        self.len
    }

    /// Returns the state vector at index `i`, in the order in which states were added.
    pub(crate) fn state(&self, i: usize) -> &[u8]
        requires { i < length self.now.states }
        ensures state { result.now ≡ slice_index_or self.now.states i [] }
        ensures width { length result.now ≡ self.now.width }
    {
        let at = i * self.width;
        &self.bytes[at..at + self.width]
    }

    /// Returns the parent of the state at index `i`, or `None` if no parent is stored there.
    pub(crate) fn parent(&self, i: usize) -> Option<Parent> {
        self.parents.get(i).copied()
    }

    /// Appends a state and its parent. Fails if memory cannot be allocated; the states are then unchanged.
    pub(crate) fn push(&mut self, state: &[u8], parent: Parent) -> Result<(), AllocError>
        requires width { length state.now ≡ self.old.width }
        requires not_full { length self.old.states < STATES_PER_BLOCK }
        ensures states { OnOk result (self.new.states ≡ self.old.states ++ state.now ∷ []) }
        ensures width { self.new.width ≡ self.old.width }
        ensures err { OnErr result (self.new ≡ self.old) }
    {
        // An earlier call may have stored a parent and then failed to store the state. Removes such a parent.
        self.parents.truncate(self.len);
        self.parents.push(parent)?;
        self.bytes.extend_from_slice(state)?;
        self.len += 1;
        Ok(())
    }
}

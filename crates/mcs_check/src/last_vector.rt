//! The state vector that a search's machine last loaded or saved.
ghost use Rattle.std.specs.Prelude.{◌≡◌, ◌<◌, ◌≤◌, ℕ, length, slice_index, true, false, IfOk};
ghost use Rattle.mcs_check.specs.Memory.{IsMemoryFrom, is_memory_byte, is_memory_list};

use crate::cells::{CellList, StateByte};
use std::alloc::{AllocError, Global};

/// The state vector that a machine last loaded or saved.
#[derive(Drop)]
pub(crate) struct LastVector {
    pub(crate) bytes: Vec<u8>,
    /// The number of bytes before the memory's bytes, which come last in a state vector. The memory is the RAM nibbles
    /// and the status characters.
    pub(crate) front: usize,
    /// True only if this is still the machine's state vector.
    pub(crate) is_current: bool,
}

impl CellList {
    /// Returns whether the list contains cells of the memory: RAM nibbles or status characters.
    fn is_memory(self) -> bool
        ensures { result ≡ is_memory_list self }
    {
        match self {
            CellList::RamNibbles | CellList::StatusCharacters => true,
            _ => false,
        }
    }
}

impl StateByte {
    /// Returns whether the byte holds cells of the memory: RAM nibbles or status characters.
    pub(crate) fn is_memory(self) -> bool
        ensures { result ≡ is_memory_byte self }
    {
        match self {
            StateByte::One(cell) => cell.list.is_memory(),
            StateByte::Pair(list, _) => list.is_memory(),
        }
    }
}

/// Returns the number of bytes of a layout before the memory's bytes at its end.
fn bytes_before_memory(layout: &[StateByte]) -> usize
    ensures { IsMemoryFrom layout.now result }
{
    let mut front = 0;
    for i in 0..layout.len() {
        if !layout[i].is_memory() {
            front = i + 1;
        }
    }
    front
}

/// Compares two state vectors of the same length from byte `front` on. Returns `front` if they are equal there, and
/// otherwise their length.
pub(crate) fn bytes_that_may_differ(last: &[u8], vector: &[u8], front: usize) -> usize
    requires length { length last.now ≡ length vector.now }
    requires front { front ≤ length vector.now }
    ensures fits { result ≤ length vector.now }
    ensures equal { (k : ℕ) → result ≤ k → k < length vector.now → slice_index last.now k ≡ slice_index vector.now k }
{
    for i in front..vector.len() {
        if last[i] != vector[i] {
            return vector.len();
        }
    }
    front
}

/// Returns `first && second`. The contract promises nothing if the result is false.
pub(crate) fn both(first: bool, second: bool) -> bool
    ensures { result ≡ true → (first ≡ true) × (second ≡ true) }
{
    first && second
}

impl LastVector {
    /// Creates a state vector whose bytes are all 0 and which is not current. Fails if memory runs out.
    pub(crate) fn none(alloc: Global, layout: &[StateByte]) -> Result<LastVector, AllocError>
        ensures split { IfOk result (λ last. IsMemoryFrom layout.now last.front) }
        ensures current { IfOk result (λ last. last.is_current ≡ false) }
    {
        Ok(LastVector {
            bytes: vec![in alloc; 0u8; layout.len()]?,
            front: bytes_before_memory(layout),
            is_current: false,
        })
    }

    /// Copies `vector`, which is the machine's current state vector, if it has the same length as the stored one.
    /// Otherwise, the stored state vector is no longer current.
    pub(crate) fn remember(&mut self, vector: &[u8])
        ensures front { self.new.front ≡ self.old.front }
        ensures vector { self.new.is_current ≡ true → self.new.bytes.items ≡ vector.now }
    {
        self.is_current = self.bytes.len() == vector.len();
        if self.is_current {
            self.bytes.copy_from_slice(vector);
        }
    }
}

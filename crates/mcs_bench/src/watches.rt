//! The watched RAM nibbles of a bench.
ghost use Rattle.std.specs.Prelude.{◌≡◌, ◌<◌, ◌+◌, ◌*◌, ◌||◌, true, [], length, nat_lt};
ghost use Rattle.mcs_model.specs.Listed.{is_listed, with_listed, without_listed};
ghost use Rattle.mcs_model.specs.Bus.{ram_index};
ghost use Rattle.mcs_model.specs.Validity.{AreWatches};

use crate::breaks::BreakpointSet;
use mcs_model::limits::WATCHES;
use mcs_nibble::Addr;
use std::marker::Model;

/// The indices of the watched RAM nibbles (bank * 256 + SRC byte) in ascending order. A flag for each index lets a
/// run check a RAM nibble in constant time.
#[derive(Drop)]
pub(crate) struct Watches {
    indices: BreakpointSet,
}

impl Model for Watches {
    ghost use Rattle.std.specs.Prelude.{List, ℕ};
    ghost use Rattle.mcs_bench.specs.BreakpointSet.{AreRamIndices};

    ghost Value = { List ℕ };

    ghost view = { λ w. w.indices };

    ghost invariant = { λ w. AreRamIndices w.indices };
}

/// Returns the index of the RAM nibble that an SRC byte selects in a bank.
#[inline(always)]
fn ram_nibble_index(bank: u8, src: u8) -> Addr
    requires { bank < 8 }
    ensures { result ≡ ram_index bank src }
{
    Addr::ZERO.plus(u16::from(bank) * 256 + u16::from(src))
}

impl Watches {
    /// Returns an empty set of watches.
    pub(crate) fn new() -> Watches
        ensures { result ≡ [] }
    {
        Watches {
            indices: BreakpointSet::new(),
        }
    }

    /// Returns a copy of the watches.
    pub(crate) fn copy(&self) -> Watches
        ensures { result ≡ self.now }
    {
        Watches {
            indices: self.indices.copy(),
        }
    }

    /// Returns the indices of the watched RAM nibbles in ascending order.
    pub(crate) fn list(&self) -> &[Addr]
        ensures same { result.now ≡ self.now }
        ensures valid { AreWatches result.now }
    {
        self.indices.list()
    }

    /// Returns whether no RAM nibble is watched.
    pub(crate) fn is_empty(&self) -> bool
        ensures { result ≡ true → self.now ≡ [] }
    {
        self.indices.list().is_empty()
    }

    /// Returns whether a RAM nibble is watched.
    #[inline(always)]
    pub(crate) fn contains(&self, bank: u8, src: u8) -> bool
        requires { bank < 8 }
        ensures { result ≡ is_listed self.now (ram_index bank src) }
    {
        self.indices.contains(ram_nibble_index(bank, src))
    }

    /// Returns whether a RAM nibble can be watched: it is watched already, or fewer than `WATCHES` are.
    pub(crate) fn has_room_for(&self, bank: u8, src: u8) -> bool
        requires { bank < 8 }
        ensures { result ≡ (is_listed self.now (ram_index bank src)
            || nat_lt (length self.now) WATCHES) }
    {
        self.contains(bank, src) || self.indices.list().len() < WATCHES
    }

    /// Watches a RAM nibble. Does nothing if it is already watched.
    pub(crate) fn set(&mut self, bank: u8, src: u8)
        requires bank { bank < 8 }
        requires src { src < 256 }
        requires room { (is_listed self.old (ram_index bank src)
            || nat_lt (length self.old) WATCHES) ≡ true }
        ensures { self.new ≡ with_listed self.old (ram_index bank src) }
    {
        self.indices.set(ram_nibble_index(bank, src));
    }

    /// Stops watching a RAM nibble. Does nothing if it is not watched.
    pub(crate) fn clear(&mut self, bank: u8, src: u8)
        requires { bank < 8 }
        ensures { self.new ≡ without_listed self.old (ram_index bank src) }
    {
        self.indices.clear(ram_nibble_index(bank, src));
    }

    /// Proves that there are at most `WATCHES` indices, each of a RAM nibble, in strictly ascending order.
    pub(crate) fn show_state_is_valid(&self)
        ensures { AreWatches self.now }
    {
        let _indices = self.indices.list();
    }
}

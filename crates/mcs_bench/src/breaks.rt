//! The breakpoints of a bench.
ghost use Rattle.std.specs.Prelude.{◌≡◌, ◌<◌, ◌≤◌, ◌||◌, true, [], length, nat_lt};
ghost use Rattle.std.specs.List.{insert};
ghost use Rattle.std.specs.List.Sorted.{IsStrictlyIncreasing};
ghost use Rattle.mcs_model.specs.Validity.{AreBreakpoints};
ghost use Rattle.mcs_model.specs.Listed.{is_listed, insert_in_order, with_listed, without_listed};

use crate::laws::show_addresses_are_in_range;
use arrayvec::ArrayVec;
use mcs_model::limits::BREAKPOINTS;
use mcs_nibble::Addr;
use std::marker::Model;

/// The breakpoint addresses in ascending order, with a flag for each of the 4,096 addresses. The flags let a run
/// check an address in constant time.
#[derive(Drop)]
pub(crate) struct BreakpointSet {
    list: ArrayVec<Addr, BREAKPOINTS>,
    flags: [bool; 4096],
}

impl Model for BreakpointSet {
    ghost use Rattle.std.specs.Prelude.{List, ℕ};
    ghost use Rattle.mcs_bench.specs.BreakpointSet.{HasFlags};

    ghost Value = { List ℕ };

    ghost view = { λ b. b.list.items };

    ghost invariant = { λ b. HasFlags b.flags b.list.items };
}

/// Returns the index of the first address above `at`, or the length of the list if there is none.
fn insertion_index(list: &[Addr], at: Addr) -> usize
    ensures index { insert list.now result at ≡ insert_in_order list.now at }
    ensures within { result ≤ length list.now }
{
    for i in 0..list.len() {
        if at < list[i] {
            return i;
        }
    }
    list.len()
}

/// Returns the list without the address `at`.
fn list_without(list: &ArrayVec<Addr, BREAKPOINTS>, at: Addr) -> ArrayVec<Addr, BREAKPOINTS>
    ensures { result.items ≡ without_listed list.now.items at }
{
    let mut remaining = ArrayVec::new();
    for address in list.as_slice() {
        if *address != at {
            remaining.push(*address);
        }
    }
    remaining
}

/// Returns a copy of the list.
fn copy_of_list(list: &ArrayVec<Addr, BREAKPOINTS>) -> ArrayVec<Addr, BREAKPOINTS>
    ensures { result.items ≡ list.now.items }
{
    let mut copy = ArrayVec::new();
    for address in list.as_slice() {
        copy.push(*address);
    }
    copy
}

impl BreakpointSet {
    /// Returns an empty set of breakpoints.
    pub(crate) fn new() -> BreakpointSet
        ensures { result ≡ [] }
    {
        BreakpointSet {
            list: ArrayVec::new(),
            flags: [false; 4096],
        }
    }

    /// Returns a copy of the breakpoints.
    pub(crate) fn copy(&self) -> BreakpointSet
        ensures { result ≡ self.now }
    {
        BreakpointSet {
            list: copy_of_list(&self.list),
            flags: self.flags,
        }
    }

    /// Returns the breakpoint addresses in ascending order.
    pub(crate) fn list(&self) -> &[Addr]
        ensures same { result.now ≡ self.now }
        ensures few { length result.now ≤ BREAKPOINTS }
        ensures rising { IsStrictlyIncreasing result.now }
    {
        self.list.as_slice()
    }

    /// Returns whether a breakpoint is set at an address.
    pub(crate) fn contains(&self, at: Addr) -> bool
        ensures { result ≡ is_listed self.now at }
    {
        self.flags[usize::from(at.get())]
    }

    /// Returns whether a breakpoint can be set at an address: one is set there already, or fewer than `BREAKPOINTS`
    /// are set.
    pub(crate) fn has_room_for(&self, at: Addr) -> bool
        ensures { result ≡ (is_listed self.now at || nat_lt (length self.now) BREAKPOINTS) }
    {
        self.contains(at) || self.list.len() < BREAKPOINTS
    }

    /// Sets a breakpoint at an address. Does nothing if that breakpoint is already set.
    pub(crate) fn set(&mut self, at: Addr)
        requires { (is_listed self.old at || nat_lt (length self.old) BREAKPOINTS) ≡ true }
        ensures { self.new ≡ with_listed self.old at }
    {
        if !self.contains(at) {
            let index = insertion_index(self.list.as_slice(), at);
            self.list.insert(index, at);
            self.flags[usize::from(at.get())] = true;
        }
    }

    /// Removes the breakpoint at an address. Does nothing if no breakpoint is set there.
    pub(crate) fn clear(&mut self, at: Addr)
        ensures { self.new ≡ without_listed self.old at }
    {
        self.list = list_without(&self.list, at);
        self.flags[usize::from(at.get())] = false;
    }

    /// Proves that there are at most `BREAKPOINTS` breakpoints, and that they are addresses in strictly ascending
    /// order.
    pub(crate) fn show_state_is_valid(&self)
        ensures { AreBreakpoints self.now }
    {
        show_addresses_are_in_range(self.list());
    }
}

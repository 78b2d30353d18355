//! The entries of a certificate.
ghost use Rattle.std.specs.Prelude.{◌≡◌, IsTrue, true};
ghost use Rattle.mcs_sets.specs.Entries.{IsSubset, acc_values_of, contains};

use mcs_nibble::Addr;

/// The values that a machine may hold at one address with given open calls. A set of nibbles is a bit mask: bit `n` is
/// 1 if `n` is in the set.
#[derive(Clone, Copy, Debug)]
pub struct Entry {
    /// The program counter.
    pub at: Addr,
    /// The number of open calls.
    pub calls: u8,
    /// The return addresses of the open calls. BBL uses the first one.
    pub ret: [Addr; 3],
    /// The values that the accumulator may hold while the carry is 0.
    pub acc_if_carry_0: u16,
    /// The values that the accumulator may hold while the carry is 1.
    pub acc_if_carry_1: u16,
    /// A set of values for each other location: the 16 index registers, the bank number, and the upper nibble of each
    /// SRC byte that the ROMs or a bank stores.
    pub sets: [u16; 26],
    /// The index of this entry's first link in the list of links. A link is the index of an entry that may follow this
    /// entry.
    pub first_link: usize,
    /// The index after the last of this entry's links.
    pub end_link: usize,
}

/// Returns whether a set contains a number. No set contains a number above 15.
pub(crate) fn contains(set: u16, n: u8) -> bool
    ensures { result ≡ contains set n }
{
    n < 16 && (set >> n) % 2 == 1
}

/// Returns whether the number `n` is in `superset`, or is not in `subset`.
fn keeps_member(subset: u16, superset: u16, n: u8) -> bool
    ensures { IsTrue result → contains subset n ≡ true → contains superset n ≡ true }
{
    !contains(subset, n) || contains(superset, n)
}

/// Returns whether `subset` is a subset of `superset`.
pub(crate) fn is_subset(subset: u16, superset: u16) -> bool
    ensures { IsTrue result → IsSubset subset superset }
{
    if subset == superset {
        return true;
    }
    for n in 0..16 {
        if !keeps_member(subset, superset, n) {
            return false;
        }
    }
    true
}

impl Entry {
    /// Returns the set of values that the accumulator may hold with this carry.
    pub(crate) fn acc_values(&self, carry: u8) -> u16
        ensures { result ≡ acc_values_of self.now carry }
    {
        match carry {
            0 => self.acc_if_carry_0,
            1 => self.acc_if_carry_1,
            _ => 0,
        }
    }
}

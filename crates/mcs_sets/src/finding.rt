//! Finds a certificate. Nothing is proved about the result; `stays_covered` checks it.
//!
//! A search begins with the entry for the machine's current state. The search expands each entry: it finds the entry's
//! successors. It joins each successor into the stored entry with the same address, the same return addresses and the
//! same values in the exact registers. The search ends when no entry grows, or when it finds an entry that covers a
//! machine that may meet all conditions of a list that must never be met.
ghost use Rattle.std.specs.Prelude.{◌≡◌};

use crate::entries::{Entry, contains};
use crate::excluding::avoids_all_lists;
use crate::landing::{Choice, Landing, compute_landing, first_operand_set, second_operand_set};
use crate::sampling::{join, sample, successor_entry};
use mcs_board::BenchRig;
use mcs_check::Condition;
use mcs_cpu4004::Cpu;
use mcs_model::op::Op;
use mcs_nibble::{Addr, Bit, Nibble};
use std::alloc::{AllocError, Global};
use std::collections::HashMap;

/// The maximum number of times that a search expands an entry: once when the entry is new, and once each time that the
/// entry has grown. An entry has 28 sets of at most 16 numbers.
const MAX_EXPANSIONS_PER_ENTRY: usize = 449;

/// A certificate: its entries, and the links that they refer to.
#[derive(Drop)]
pub(crate) struct Certificate {
    pub(crate) entries: Vec<Entry>,
    pub(crate) links: Vec<usize>,
}

/// The values that all machines covered by an entry share. Each exact register (see `precision`) takes four bits of
/// `exact`.
#[derive(Clone, Copy, PartialEq, Eq, Hash)]
struct SharedValues {
    at: u16,
    calls: u8,
    returns: (u16, u16, u16),
    exact: u64,
}

/// Returns the values that all machines covered by an entry share. `exact` is the set of exact registers. Each
/// exact register has a single value in the entry.
fn shared_values(entry: &Entry, exact: u16) -> SharedValues {
    let mut exact_values = 0u64;
    for r in 0..16u8 {
        if (exact >> r) % 2 == 1 {
            let set = entry.sets[usize::from(r)];
            exact_values |= u64::from(set.trailing_zeros() % 16) << (4 * r);
        }
    }
    SharedValues {
        at: entry.at.get(),
        calls: entry.calls,
        returns: (entry.ret[0].get(), entry.ret[1].get(), entry.ret[2].get()),
        exact: exact_values,
    }
}

/// The reason why a search stops without a certificate.
#[derive(Clone, Copy, Debug)]
pub(crate) enum Stop {
    /// The search needs more entries than its limit.
    TooMany,
    /// An allocation failed. The field is the number of entries that fit into memory.
    NoMemory(usize),
    /// A machine covered by an entry may meet all conditions of a list that must never be met.
    MayMeet,
}

impl From<AllocError> for Stop {
    ghost use Rattle.std.specs.Prelude.{◌≡◌};
    ghost use Rattle.mcs_sets.specs.declared.finding.Stop.TheVariants.{NoMemory};

    ghost from_gives = { λ _ e. e ≡ NoMemory 0 };

    fn from(_e: AllocError) -> Stop {
        Stop::NoMemory(0)
    }
}

/// Returns the landing of a choice, or `None` if the choice's bank is above 7 or there is no instruction at the entry's
/// address.
fn landing_of(rig: &mut BenchRig, entry: &Entry, choice: &Choice) -> Option<Landing> {
    if choice.bank >= 8 {
        return None;
    }
    match mcs_board::instruction(&Cpu::new(), rig, entry.at) {
        None => None,
        Some(op) => Some(compute_landing(rig, &op, entry, choice)),
    }
}

/// A search for a certificate.
#[derive(Drop)]
struct Finder {
    entries: Vec<Entry>,
    /// For each entry, true if the entry is new or grew since the search last expanded it.
    pending: Vec<bool>,
    /// The index of the stored entry with these shared values.
    index: HashMap<SharedValues, usize>,
    /// The indices of the successors of the entry that the search expanded last.
    successors: Vec<usize>,
    /// The exact registers at each address, as a bit mask: bit `r` is 1 if register `r` is exact.
    exact: Vec<u16>,
    max_entries: usize,
}

impl Finder {
    fn new(alloc: Global, exact: Vec<u16>, max_entries: usize) -> Finder {
        Finder {
            entries: Vec::new(alloc),
            pending: Vec::new(alloc),
            index: HashMap::new(alloc),
            successors: Vec::new(alloc),
            exact,
            max_entries,
        }
    }

    /// Returns the exact registers at an address, as a bit mask: bit `r` is 1 if register `r` is exact.
    fn exact_at(&self, at: Addr) -> u16 {
        let i = usize::from(at.get());
        if i < self.exact.len() {
            self.exact[i]
        } else {
            0
        }
    }

    /// Adds an entry and returns its index. Fails if memory runs out.
    fn push(&mut self, shared: SharedValues, entry: &Entry) -> Result<usize, AllocError> {
        let i = self.entries.len();
        self.entries.push(*entry)?;
        self.pending.push(true)?;
        self.index.insert(shared, i)?;
        Ok(i)
    }

    /// Adds an entry and returns its index. Fails if the limit on entries is reached or memory runs out.
    fn push_within_limit(&mut self, shared: SharedValues, entry: &Entry) -> Result<usize, Stop> {
        if self.entries.len() >= self.max_entries {
            return Err(Stop::TooMany);
        }
        Ok(self.push(shared, entry)?)
    }

    /// Joins an entry into the stored entry with the same shared values, or stores the entry if there is none. Returns
    /// the index of the stored entry.
    fn store(&mut self, entry: &Entry) -> Result<usize, Stop> {
        let shared = shared_values(entry, self.exact_at(entry.at));
        let Some(i) = self.index.get(&shared).copied() else {
            return self.push_within_limit(shared, entry);
        };
        if i < self.entries.len() && i < self.pending.len() && join(&mut self.entries[i], entry) {
            self.pending[i] = true;
        }
        Ok(i)
    }

    /// Records the entry at index `i` as a successor.
    fn add_successor(&mut self, i: usize) -> Result<(), AllocError> {
        if !self.successors.contains(&i) {
            self.successors.push(i)?;
        }
        Ok(())
    }

    /// Follows one choice of an entry: stores the entry to which the choice leads, and records the stored entry as a
    /// successor.
    fn follow_choice(
        &mut self,
        rig: &mut BenchRig,
        source: &Entry,
        op: &Op,
        choice: &Choice,
    ) -> Result<(), Stop> {
        if let Some(landing) = landing_of(rig, source, choice) {
            let i = self.store(&successor_entry(source, op, &landing))?;
            self.add_successor(i)?;
        }
        Ok(())
    }

    /// Follows the choices of an entry with this accumulator, carry and bank. `flags` is the accumulator plus 16
    /// times the carry.
    fn follow_operands(
        &mut self,
        rig: &mut BenchRig,
        source: &Entry,
        op: &Op,
        flags: u8,
        bank: u8,
    ) -> Result<(), Stop> {
        let first_values = first_operand_set(op, source);
        let second_values = second_operand_set(op, source);
        for byte in 0..256u16 {
            let choice = Choice {
                acc: Nibble::low_of(flags),
                cy: Bit::low_of(flags / 16),
                bank,
                first_operand: Nibble::low_of((byte % 16) as u8),
                second_operand: Nibble::low_of((byte / 16) as u8),
            };
            if contains(first_values, choice.first_operand.get())
                && contains(second_values, choice.second_operand.get())
            {
                self.follow_choice(rig, source, op, &choice)?;
            }
        }
        Ok(())
    }

    /// Follows the choices in a sample of an entry. The sample represents all choices of the entry.
    fn follow_choices(&mut self, rig: &mut BenchRig, source: &Entry, op: &Op) -> Result<(), Stop> {
        let sample = sample(source, op);
        for flags in 0..32u8 {
            if contains(sample.acc_values(flags / 16), flags % 16) {
                for bank in 0..8u8 {
                    if contains(sample.sets[16], bank) {
                        self.follow_operands(rig, source, op, flags, bank)?;
                    }
                }
            }
        }
        Ok(())
    }

    /// Returns true only if no machine that entry `i` covers meets all conditions of a list in `never_lists`, or if
    /// there is no entry `i`.
    fn avoids_all_lists_at(
        &self,
        rig: &BenchRig,
        never_lists: &[Vec<Condition>],
        i: usize,
    ) -> bool {
        i >= self.entries.len() || avoids_all_lists(rig, &self.entries[i], never_lists)
    }

    /// Expands entry `i`: stores the entries to which its choices lead, and records them as successors.
    fn expand(&mut self, rig: &mut BenchRig, i: usize) -> Result<(), Stop> {
        self.successors.clear();
        if i >= self.entries.len() {
            return Ok(());
        }
        let source = self.entries[i];
        let Some(op) = mcs_board::instruction(&Cpu::new(), rig, source.at) else {
            return Ok(());
        };
        self.follow_choices(rig, &source, &op)
    }

    /// Expands each pending entry: an entry that is new or has grown since the search last expanded it. Returns
    /// whether there was a pending entry.
    fn expand_pending(
        &mut self,
        rig: &mut BenchRig,
        never_lists: &[Vec<Condition>],
    ) -> Result<bool, Stop> {
        let mut had_pending = false;
        for i in 0..self.max_entries {
            if i >= self.pending.len() {
                break;
            }
            if self.pending[i] {
                if !self.avoids_all_lists_at(rig, never_lists, i) {
                    return Err(Stop::MayMeet);
                }
                self.pending[i] = false;
                self.expand(rig, i)?;
                had_pending = true;
            }
        }
        Ok(had_pending)
    }

    /// Expands pending entries until no entry grows.
    fn expand_until_stable(
        &mut self,
        rig: &mut BenchRig,
        never_lists: &[Vec<Condition>],
    ) -> Result<(), Stop> {
        for _ in 0..self.max_entries.saturating_mul(MAX_EXPANSIONS_PER_ENTRY) {
            if !self.expand_pending(rig, never_lists)? {
                return Ok(());
            }
        }
        Err(Stop::TooMany)
    }

    /// Returns the links of all entries, and sets each entry's range of links.
    fn collect_links(&mut self, alloc: Global, rig: &mut BenchRig) -> Result<Vec<usize>, Stop> {
        let mut links = Vec::new(alloc);
        for i in 0..self.entries.len() {
            self.expand(rig, i)?;
            let first = links.len();
            links.extend_from_slice(&self.successors)?;
            if i < self.entries.len() {
                self.entries[i].first_link = first;
                self.entries[i].end_link = links.len();
            }
        }
        Ok(links)
    }

    /// Searches from an entry. Returns the links of all entries.
    fn search(
        &mut self,
        alloc: Global,
        rig: &mut BenchRig,
        start: &Entry,
        never_lists: &[Vec<Condition>],
    ) -> Result<Vec<usize>, Stop> {
        self.store(start)?;
        self.expand_until_stable(rig, never_lists)?;
        self.collect_links(alloc, rig)
    }
}

/// Finds a certificate of at most `max_entries` entries that covers each machine covered by the entry `start`. No
/// machine that the certificate covers meets all conditions of a list in `never_lists`. `exact` has the exact registers
/// at each address: bit `r` is 1 if register `r` is exact. Each exact register must have a single value in `start`.
pub(crate) fn find_certificate(
    alloc: Global,
    rig: &mut BenchRig,
    start: &Entry,
    never_lists: &[Vec<Condition>],
    exact: Vec<u16>,
    max_entries: usize,
) -> Result<Certificate, Stop> {
    let mut finder = Finder::new(alloc, exact, max_entries);
    match finder.search(alloc, rig, start, never_lists) {
        Ok(links) => Ok(Certificate {
            entries: finder.entries,
            links,
        }),
        Err(Stop::NoMemory(_)) => Err(Stop::NoMemory(finder.entries.len())),
        Err(stop) => Err(stop),
    }
}

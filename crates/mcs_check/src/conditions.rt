//! Conditions on the state of a machine at one moment.
ghost use Rattle.std.specs.Prelude.{◌≡◌};
ghost use Rattle.mcs_check.specs.Conditions.{are_met, comparison_is_met, is_inside, is_met, meets_none, part_of};

use crate::cells::Cell;
use crate::common_mistakes::Mistakes;
use crate::replica::SearchMachine;
use mcs_nibble::Nibble;
use std::marker::Model;

/// The part of a cell's value that a comparison uses.
#[derive(Clone, Copy, Debug)]
pub enum Part {
    /// The whole value.
    Whole,
    /// One of the lower four bits. For a port latch, this is one line.
    Line(u8),
}

/// A comparison of a cell's value with a range. If `inside` is true, the comparison is met if the value is in
/// `low..=high`. If `inside` is false, it is met if the value is outside that range.
#[derive(Clone, Copy, Debug)]
pub struct Comparison {
    pub cell: Cell,
    pub part: Part,
    pub low: u8,
    pub high: u8,
    pub inside: bool,
}

impl Default for Comparison {
    fn default() -> Comparison {
        Comparison {
            cell: Cell::default(),
            part: Part::Whole,
            low: 0,
            high: 0,
            inside: false,
        }
    }
}

/// Returns the part of a value that a comparison uses: the whole value, or one of its lower four bits.
fn part_of(n: u8, part: Part) -> u8
    ensures { result ≡ part_of n part }
{
    match part {
        Part::Whole => n,
        Part::Line(k) => Nibble::low_of(n).bit(k % 4).get(),
    }
}

/// Returns whether the compared part of the cell's value is in `low..=high`.
fn is_inside(replica: &SearchMachine, comparison: &Comparison) -> bool
    ensures { result ≡ is_inside replica.now comparison.now }
{
    let n = part_of(replica.value(comparison.cell), comparison.part);
    comparison.low <= n && n <= comparison.high
}

/// Returns whether a comparison is met.
fn comparison_is_met(replica: &SearchMachine, comparison: &Comparison) -> bool
    ensures { result ≡ comparison_is_met replica.now comparison.now }
{
    let is_inside = is_inside(replica, comparison);
    if comparison.inside {
        is_inside
    } else {
        !is_inside
    }
}

/// A condition on the state of a machine at one moment.
#[derive(Clone, Copy, Debug)]
pub enum Condition {
    /// A comparison is met.
    Compare(Comparison),
    /// The next cycle makes one of these mistakes.
    Mistaken(Mistakes),
}

impl Default for Condition {
    fn default() -> Condition {
        Condition::Mistaken(Mistakes::NONE)
    }
}

/// Returns whether a condition is met.
fn is_met(replica: &SearchMachine, condition: &Condition) -> bool
    ensures { result ≡ is_met replica.now condition.now }
{
    match condition {
        Condition::Compare(comparison) => comparison_is_met(replica, comparison),
        Condition::Mistaken(kinds) => replica.cycle_makes_mistake(kinds),
    }
}

/// Returns whether all conditions are met.
fn are_met(replica: &SearchMachine, conditions: &[Condition]) -> bool
    ensures { result ≡ are_met replica.now conditions.now }
{
    for i in 0..conditions.len() {
        if !is_met(replica, &conditions[i]) {
            return false;
        }
    }
    true
}

/// A conjunction of conditions. It is met if all its conditions are met at the same moment. In contracts, a
/// `Conjunction` is the list of its conditions.
#[derive(Drop)]
pub struct Conjunction {
    conditions: Vec<Condition>,
}

impl Model for Conjunction {
    ghost use Rattle.std.specs.Prelude.{List};
    ghost use Rattle.mcs_check.specs.declared.conditions.Condition.{Condition};

    ghost Value = { List Condition };

    ghost view = { λ n. n.conditions.items };
}

impl Conjunction {
    /// Creates a conjunction of the given conditions.
    pub fn of(conditions: Vec<Condition>) -> Conjunction
        ensures { result ≡ conditions.items }
    {
        Conjunction { conditions }
    }

    /// Returns the conditions.
    pub(crate) fn conditions(&self) -> &[Condition]
        ensures { result.now ≡ self.now }
    {
        &self.conditions
    }

    /// Returns whether all conditions are met.
    fn is_met(&self, replica: &SearchMachine) -> bool
        ensures { result ≡ are_met replica.now self.now }
    {
        are_met(replica, &self.conditions)
    }
}

/// Returns whether none of the conjunctions is met.
pub fn meets_none(replica: &SearchMachine, never_lists: &[Conjunction]) -> bool
    ensures { result ≡ meets_none never_lists.now replica.now }
{
    for i in 0..never_lists.len() {
        if never_lists[i].is_met(replica) {
            return false;
        }
    }
    true
}

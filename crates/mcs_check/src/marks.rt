//! Lists of marks, and the requirement that all marks are seen before a run meets certain conjunctions. A mark is a key
//! together with a level, down or up.
ghost use Rattle.std.specs.Prelude.{◌≡◌, ◌<◌, ◌≤◌, ◌&&◌, ◌↔◌, [], ◌∷◌, ◌++◌, length, nat_lt, not, slice_get, true, IsSome, IfSome, IfOk, OnOk};
ghost use Rattle.mcs_drive.specs.TrackedMachine.{TrackedMachine};
ghost use Rattle.mcs_check.specs.Conditions.{meets_none, fewer_marks_seen};
ghost use Rattle.mcs_check.specs.declared.conditions.Condition.TheVariants.{Compare};

use crate::cells::{Cell, CellList};
use crate::conditions::{Comparison, Condition, Conjunction, Part};
use mcs_drive::Mark;
use std::alloc::{AllocError, Global};
use std::marker::Model;

/// The maximum number of marks.
const MAX_MARKS: usize = 200;

/// A list of at most 200 marks, in the order in which a run must see them. In contracts, a `Marks` is this list.
#[derive(Drop)]
pub struct Marks {
    marks: Vec<Mark>,
}

impl Model for Marks {
    ghost use Rattle.std.specs.Prelude.{List, ◌≤◌, length};
    ghost use Rattle.mcs_drive.specs.declared.marks.Mark.{Mark};

    ghost Value = { List Mark };

    ghost view = { λ m. m.marks.items };

    ghost invariant = { λ m. length m.marks.items ≤ 200 };
}

impl Marks {
    /// Creates an empty list of marks.
    pub fn none(alloc: Global) -> Marks
        ensures { result ≡ [] }
    {
        Marks {
            marks: Vec::new(alloc),
        }
    }

    /// Creates a list from these marks, or returns `None` if there are more than 200.
    pub fn of(marks: Vec<Mark>) -> Option<Marks>
        ensures in_range { IsSome result ↔ (length marks.items ≤ 200) }
        ensures value { IfSome result (λ m. m ≡ marks.items) }
    {
        if marks.len() <= MAX_MARKS {
            Some(Marks { marks })
        } else {
            None
        }
    }

    /// Returns the number of marks.
    pub(crate) fn count(&self) -> u8
        ensures count { result ≡ length self.now }
        ensures few { result ≤ 200 }
    {
        self.marks.len() as u8
    }

    /// Returns true only if the list is empty.
    pub(crate) fn is_empty(&self) -> bool
        ensures { result ≡ true → self.now ≡ [] }
    {
        self.marks.is_empty()
    }

    /// Returns mark `i`, counted from 0, or `None` if the list is shorter.
    pub(crate) fn get(&self, i: u8) -> Option<Mark>
        ensures { result ≡ slice_get self.now i }
    {
        let i = usize::from(i);
        if i < self.marks.len() {
            Some(self.marks[i])
        } else {
            None
        }
    }
}

/// Returns the condition that the count of marks seen is less than `count`, which must be above 0.
fn fewer_marks_seen(count: u8) -> Condition
    requires { 0 < count }
    ensures { result ≡ Compare (fewer_marks_seen count) }
{
    Condition::Compare(Comparison {
        cell: Cell {
            list: CellList::Counters,
            index: 17,
        },
        part: Part::Whole,
        low: 0,
        high: count - 1,
        inside: true,
    })
}

/// Returns the conjunction of `conditions` and the condition `last`. Fails if memory runs out.
fn with_condition(
    alloc: Global,
    conditions: &[Condition],
    last: Condition,
) -> Result<Conjunction, AllocError>
    ensures { IfOk result (λ made. made ≡ conditions.now ++ last ∷ []) }
{
    let mut all = conditions.to_vec(alloc)?;
    all.push(last)?;
    Ok(Conjunction::of(all))
}

/// Appends conjunctions to `never_lists`. At least one of them is met if and only if a conjunction in `opens` is met
/// before all marks were seen. Fails if memory runs out.
pub fn add_mark_requirement(
    alloc: Global,
    never_lists: &mut Vec<Conjunction>,
    opens: &[Conjunction],
    marks: &Marks,
) -> Result<(), AllocError>
    ensures { OnOk result ((s : TrackedMachine) → meets_none never_lists.new.items s
        ≡ (meets_none never_lists.old.items s && not (not (meets_none opens.now s) && nat_lt s.2.seen (length marks.now)))) }
{
    let count = marks.count();
    if count == 0 {
        return Ok(());
    }
    for i in 0..opens.len() {
        never_lists.push(with_condition(alloc, opens[i].conditions(), fewer_marks_seen(count))?)?;
    }
    Ok(())
}

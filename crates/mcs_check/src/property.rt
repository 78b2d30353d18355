//! The conditions, the stopwatch and the marks that a run checks after each cycle.
ghost use Rattle.std.specs.Prelude.{◌≡◌, ◌≤◌, ◌⊎◌, ◌&&◌, [], length, not, slice_get, true};
ghost use Rattle.mcs_drive.specs.TrackedMachine.{condition_holds_at};
ghost use Rattle.mcs_check.specs.Conditions.{meets_none, observer_of_property};
ghost use Rattle.mcs_check.specs.Scopes.{has_all_lists};

use crate::conditions::{Conjunction, meets_none};
use crate::marks::Marks;
use crate::replica::SearchMachine;
use crate::scope::Scope;
use mcs_drive::Mark;
use std::alloc::Global;
use std::marker::Model;

/// The conjunctions that a run uses. Some must never be met, some begin or end a stopwatch, and some must not be met
/// before all marks were seen. In contracts, a `Property` has lists of conditions and the list of marks.
#[derive(Drop)]
pub struct Property {
    never_lists: Vec<Conjunction>,
    begins: Vec<Conjunction>,
    ends: Vec<Conjunction>,
    opens: Vec<Conjunction>,
    marks: Marks,
}

impl Model for Property {
    ghost use Rattle.mcs_check.specs.Conditions.{PropertyConditions};

    ghost Value = { PropertyConditions };

    ghost view = { λ a. record { never_lists = a.never_lists.items; begins = a.begins.items; ends = a.ends.items; opens = a.opens.items; marks = a.marks } };
}

impl Property {
    /// Creates a property from its conjunctions and marks. A run must never meet `never_lists`. `begins` and `ends`
    /// begin and end a stopwatch. A run must not meet `opens` before all marks were seen. `add_mark_requirement` adds
    /// this requirement to `never_lists`.
    pub fn of(
        never_lists: Vec<Conjunction>,
        begins: Vec<Conjunction>,
        ends: Vec<Conjunction>,
        opens: Vec<Conjunction>,
        marks: Marks,
    ) -> Property
        ensures { result ≡ record { never_lists = never_lists.items; begins = begins.items; ends = ends.items; opens = opens.items; marks = marks } }
    {
        Property {
            never_lists,
            begins,
            ends,
            opens,
            marks,
        }
    }

    /// Creates a property without marks, from conjunctions that must never be met and conjunctions that begin and end
    /// a stopwatch.
    pub fn with_stopwatch(
        alloc: Global,
        never_lists: Vec<Conjunction>,
        begins: Vec<Conjunction>,
        ends: Vec<Conjunction>,
    ) -> Property
        ensures { result ≡ record { never_lists = never_lists.items; begins = begins.items; ends = ends.items; opens = []; marks = [] } }
    {
        Property::of(
            never_lists,
            begins,
            ends,
            Vec::new(alloc),
            Marks::none(alloc),
        )
    }

    /// Creates a property with neither a stopwatch nor marks, from conjunctions that must never be met.
    pub fn without_stopwatch(alloc: Global, never_lists: Vec<Conjunction>) -> Property
        ensures { result ≡ record { never_lists = never_lists.items; begins = []; ends = []; opens = []; marks = [] } }
    {
        Property::with_stopwatch(alloc, never_lists, Vec::new(alloc), Vec::new(alloc))
    }

    /// Returns whether a machine meets none of the conjunctions that must never be met.
    pub(crate) fn keeps(&self, replica: &SearchMachine) -> bool
        ensures { result ≡ meets_none self.now.never_lists replica.now }
    {
        meets_none(replica, &self.never_lists)
    }

    /// Returns the scope of the conditions that must never be met and of those that begin the stopwatch.
    pub(crate) fn scope(&self) -> Scope {
        let mut scope = Scope::empty();
        scope.add_lists(&self.never_lists);
        scope.add_lists(&self.begins);
        scope
    }

    /// Returns whether a scope covers all conditions that must never be met.
    pub(crate) fn is_covered_by(&self, scope: &Scope) -> bool
        ensures { result ≡ has_all_lists scope.now self.now.never_lists }
    {
        scope.has_all_lists(&self.never_lists)
    }

    /// Returns true only if nothing begins the stopwatch, or if a scope covers all conditions that begin it and
    /// includes no mistakes.
    pub(crate) fn is_beginning_covered_by(&self, scope: &Scope) -> bool
        ensures { result ≡ true → (self.now.begins ≡ []) ⊎ ((not scope.now.mistakes && has_all_lists scope.now self.now.begins) ≡ true) }
    {
        self.never_begins() || !scope.mistakes && scope.has_all_lists(&self.begins)
    }

    /// Returns whether a scope covers all conditions in `opens` and includes no mistakes.
    pub(crate) fn is_opening_covered_by(&self, scope: &Scope) -> bool
        ensures { result ≡ (not scope.now.mistakes && has_all_lists scope.now self.now.opens) }
    {
        !scope.mistakes && scope.has_all_lists(&self.opens)
    }

    /// Returns true only if no conjunction begins the stopwatch.
    pub(crate) fn never_begins(&self) -> bool
        ensures { result ≡ true → self.now.begins ≡ [] }
    {
        self.begins.is_empty()
    }

    /// Returns true only if the property has no marks and no conjunctions in `opens`.
    pub(crate) fn has_no_marks(&self) -> bool
        ensures opens { result ≡ true → self.now.opens ≡ [] }
        ensures marks { result ≡ true → self.now.marks ≡ [] }
    {
        self.opens.is_empty() && self.marks.is_empty()
    }

    /// Returns whether the stopwatch begins in the machine's current state.
    pub(crate) fn begins(&self, replica: &SearchMachine) -> bool
        ensures { result ≡ not (meets_none self.now.begins replica.now) }
    {
        !meets_none(replica, &self.begins)
    }

    /// Returns whether the stopwatch ends in the machine's current state.
    pub(crate) fn ends(&self, replica: &SearchMachine) -> bool
        ensures { result ≡ not (meets_none self.now.ends replica.now) }
    {
        !meets_none(replica, &self.ends)
    }

    /// Returns whether a conjunction in `opens` is met in the machine's current state.
    pub(crate) fn opens(&self, replica: &SearchMachine) -> bool
        ensures { result ≡ condition_holds_at (observer_of_property self.now) replica.now }
    {
        !meets_none(replica, &self.opens)
    }

    /// Returns the number of marks.
    pub(crate) fn mark_count(&self) -> u8
        ensures count { result ≡ length self.now.marks }
        ensures few { result ≤ 200 }
    {
        self.marks.count()
    }

    /// Returns mark `i`, counted from 0, or `None` if there are fewer marks.
    pub(crate) fn mark(&self, i: u8) -> Option<Mark>
        ensures { result ≡ slice_get self.now.marks i }
    {
        self.marks.get(i)
    }
}

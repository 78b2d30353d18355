//! The number of cycles that a stopwatch shows, and a limit on this number.
ghost use Rattle.std.specs.Prelude.{◌≡◌, ◌==◌, ◌<◌, ◌/◌, ◌%◌, ◌∷◌, ◌&&◌, ◌↔◌, [], false, true, nat_le, IsSome, IfSome, OnOk};
ghost use Rattle.mcs_drive.specs.TrackedMachine.{TrackedMachine, begins_at, elapsed_after, stopwatch_after};
ghost use Rattle.mcs_check.specs.Conditions.{elapsed_byte_comparison, meets_none, observer_of_property};
ghost use Rattle.mcs_check.specs.declared.conditions.Condition.TheVariants.{Compare};
ghost use Rattle.mcs_check.specs.ReadPoints.{IsObserverIdle};

use crate::cells::{Cell, CellList};
use crate::conditions::{Comparison, Condition, Conjunction, Part};
use crate::property::Property;
use crate::replica::SearchMachine;
use std::alloc::{AllocError, Global};
use std::marker::Model;

/// The largest number of cycles that a stopwatch shows: 2^24 - 1.
const STOPWATCH_MAX: u32 = 16_777_215;

/// A number of cycles that a stopwatch can show, at most 2^24 - 1. In contracts, a `StopwatchCycles` is this number.
#[derive(Clone, Copy, Debug)]
pub struct StopwatchCycles {
    cycles: u32,
}

impl Model for StopwatchCycles {
    ghost use Rattle.std.specs.Prelude.{ℕ, ◌<◌};

    ghost Value = { ℕ };

    ghost view = { λ e. e.cycles };

    ghost invariant = { λ e. e.cycles < 16777216 };

    ghost inverse = { λ v. record { cycles = v } };
}

impl StopwatchCycles {
    /// Zero cycles.
    pub(crate) const ZERO: StopwatchCycles = StopwatchCycles { cycles: 0 };

    /// Converts a number of cycles. Returns `None` if `cycles` is above 2^24 - 1, the largest number that a stopwatch
    /// can show.
    pub fn of(cycles: u32) -> Option<StopwatchCycles>
        ensures in_range { IsSome result ↔ (cycles < 16777216) }
        ensures value { IfSome result (λ n. n ≡ cycles) }
    {
        if cycles <= STOPWATCH_MAX {
            Some(StopwatchCycles { cycles })
        } else {
            None
        }
    }

    /// Returns the number.
    pub(crate) fn cycles(self) -> u32
        ensures { result ≡ self }
    {
        self.cycles
    }

    /// Returns whether the number is 0.
    fn is_zero(self) -> bool
        ensures { result ≡ (self == 0) }
    {
        self.cycles == 0
    }

    /// Returns the number as three bytes, most significant first.
    pub(crate) fn bytes(self) -> [u8; 3]
        ensures { result ≡ self / 65536 ∷ self / 256 % 256 ∷ self % 256 ∷ [] }
    {
        [
            (self.cycles / 65536) as u8,
            (self.cycles / 256 % 256) as u8,
            (self.cycles % 256) as u8,
        ]
    }

    /// Returns the number with byte `i` replaced. Byte 0 is the most significant.
    pub(crate) fn with_byte(self, i: u16, byte: u8) -> StopwatchCycles {
        let mut bytes = self.bytes();
        bytes[usize::from(i % 3)] = byte;
        let [high, middle, low] = bytes;
        StopwatchCycles {
            cycles: u32::from(high) * 65536 + u32::from(middle) * 256 + u32::from(low),
        }
    }

    /// Returns the number that the stopwatch shows after one more cycle. `begins` and `ends` are true if the
    /// stopwatch begins or ends in the state before that cycle.
    fn after(self, begins: bool, ends: bool) -> StopwatchCycles
        ensures { result ≡ stopwatch_after self begins ends }
    {
        if self.cycles == 0 || ends {
            return if begins {
                StopwatchCycles { cycles: 1 }
            } else {
                StopwatchCycles::ZERO
            };
        }
        if self.cycles < STOPWATCH_MAX {
            StopwatchCycles {
                cycles: self.cycles + 1,
            }
        } else {
            self
        }
    }
}

/// Returns the condition that byte `i` of the stopwatch's cycles is greater than `n`. Byte 0 is the most significant.
fn byte_is_above(i: u16, n: u8) -> Condition
    requires { i < 3 }
    ensures { result ≡ Compare (elapsed_byte_comparison i 0 n false) }
{
    Condition::Compare(Comparison {
        cell: Cell {
            list: CellList::Counters,
            index: 14 + i,
        },
        part: Part::Whole,
        low: 0,
        high: n,
        inside: false,
    })
}

/// Returns the condition that byte `i` of the stopwatch's cycles equals `n`. Byte 0 is the most significant.
fn byte_equals(i: u16, n: u8) -> Condition
    requires { i < 3 }
    ensures { result ≡ Compare (elapsed_byte_comparison i n n true) }
{
    Condition::Compare(Comparison {
        cell: Cell {
            list: CellList::Counters,
            index: 14 + i,
        },
        part: Part::Whole,
        low: n,
        high: n,
        inside: true,
    })
}

/// Appends conjunctions to `never_lists`. At least one of them is met if and only if the stopwatch shows more than
/// `limit` cycles. Fails if memory runs out.
pub fn add_limit(
    alloc: Global,
    never_lists: &mut Vec<Conjunction>,
    limit: StopwatchCycles,
) -> Result<(), AllocError>
    ensures { OnOk result ((s : TrackedMachine) →
        meets_none never_lists.new.items s ≡ (meets_none never_lists.old.items s && nat_le s.2.elapsed limit)) }
{
    let [high, middle, low] = limit.bytes();
    let above = vec![in alloc; byte_is_above(0, high)]?;
    never_lists.push(Conjunction::of(above))?;
    let above = vec![in alloc; byte_equals(0, high), byte_is_above(1, middle)]?;
    never_lists.push(Conjunction::of(above))?;
    let above = vec![in alloc;
        byte_equals(0, high),
        byte_equals(1, middle),
        byte_is_above(2, low),
    ]?;
    never_lists.push(Conjunction::of(above))?;
    Ok(())
}

impl SearchMachine {
    /// Returns true only if the stopwatch is at 0 and never begins.
    fn is_stopped(&self, property: &Property) -> bool
        ensures zero { result ≡ true → self.now.2.elapsed ≡ 0 }
        ensures never { result ≡ true → (t : TrackedMachine) → (observer_of_property property.now).begins t ≡ false }
    {
        self.elapsed.is_zero() && property.never_begins()
    }

    /// Returns true only if the stopwatch is at 0 and the next cycle does not begin it.
    fn stays_at_zero(&self, property: &Property) -> bool
        ensures zero { result ≡ true → self.now.2.elapsed ≡ 0 }
        ensures not_begun { result ≡ true → begins_at (observer_of_property property.now) self.now ≡ false }
    {
        self.elapsed.is_zero() && !property.begins(self)
    }

    /// Returns true only if the next cycle changes neither the stopwatch nor the count of marks seen.
    pub(crate) fn is_observer_idle(&self, property: &Property) -> bool
        ensures { result ≡ true → IsObserverIdle (observer_of_property property.now) self.now }
    {
        self.stays_at_zero(property) && self.seen == 0 && property.has_no_marks()
    }

    /// Returns the number of cycles that the stopwatch shows after the machine's next cycle.
    pub(crate) fn elapsed_after(&self, property: &Property) -> StopwatchCycles
        ensures { result ≡ elapsed_after (observer_of_property property.now) self.now }
    {
        if self.is_stopped(property) {
            return self.elapsed;
        }
        self.elapsed
            .after(property.begins(self), property.ends(self))
    }
}

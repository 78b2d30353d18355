//! Checks that a machine never meets given conditions, for all levels of its keys and its TEST pin.
ghost use Rattle.std.specs.Prelude.{◌≤◌, IfOk};
ghost use Rattle.mcs_search.specs.declared.searching.TheConstants.{MAX_STATES};
ghost use Rattle.mcs_check.specs.Conditions.{meets_none, observer_of_property};
ghost use Rattle.mcs_check.specs.OutcomeMeaning.{IsProved, IsProvedAt};
ghost use Rattle.mcs_check.specs.SearchStep.{IsState};

use crate::cells::layout_of;
use crate::last_vector::LastVector;
use crate::level_sets::Levels;
use crate::limits::InputLimits;
use crate::machine_search::MachineSearch;
use crate::property::Property;
use crate::replica::SearchMachine;
use crate::spaced_checking::search_by_levels;
use mcs_search::{MAX_STATES, Verdict, search_all};
use std::alloc::{AllocError, Global};

/// The result of a search through all inputs.
#[derive(Debug, Drop)]
pub enum Outcome {
    /// The property holds for all inputs within the limits. The field is the number of states found.
    Holds(usize),
    /// The property may fail after search steps with these values, one value per step. The value is what the first
    /// cycle of the step reads, and has no meaning if that cycle reads no input. If there are no values, the property
    /// fails before the first cycle. Nothing is proved about the values.
    MayFail(Vec<u8>),
    /// The property may fail after search steps at these levels of the inputs, one for each step. The limits allow each
    /// of the levels. Nothing else is proved about them.
    MayFailWith(Vec<Levels>),
    /// The search found more states than the caller's limit allows.
    TooMany,
    /// Memory ran out. The field is the number of states that fitted into memory. The machine may have more states.
    NoMemory(usize),
    /// The search gave up without a result. It does so at once if the limits do not have one level for each key.
    GaveUp,
}

/// The maximum number of bytes that a state needs in addition to its state vector: for its parent and for the slots of
/// the hash table.
const STATE_BYTES: usize = 24;

/// Returns the number of states that fit into `memory` bytes, if a state vector has `vector_len` bytes.
pub(crate) fn states_that_fit(memory: usize, vector_len: usize) -> usize {
    memory / vector_len.saturating_add(STATE_BYTES)
}

/// Searches all runs of the machine that `vector` identifies. The search ignores the limits `wait` and `held`: it lets
/// the levels change before each cycle, and lets each key stay down for any time. See `check_all` for `most` and
/// `memory`. Fails if memory for the first state runs out.
fn search_by_values(
    alloc: Global,
    mut machines: MachineSearch,
    vector: &[u8],
    most: usize,
    memory: usize,
) -> Result<Outcome, AllocError>
    requires most { most ≤ MAX_STATES }
    requires state { IsState machines vector.now }
    ensures { IfOk result (IsProvedAt machines vector.now) }
{
    let limit = most.min(states_that_fit(memory, vector.len()));
    match search_all(alloc, &mut machines, vector, limit)? {
        Verdict::Holds(states) => Ok(Outcome::Holds(states)),
        Verdict::Broken(values) => Ok(Outcome::MayFail(values)),
        Verdict::TooMany if limit < most => Ok(Outcome::NoMemory(limit)),
        Verdict::TooMany => Ok(Outcome::TooMany),
        Verdict::NoMemory(states) => Ok(Outcome::NoMemory(states)),
        Verdict::GaveUp => Ok(Outcome::GaveUp),
    }
}

/// Searches all runs of a machine, for all levels of its keys and its TEST pin within the limits, and checks the
/// property after each cycle. It gives up if the limit `wait` is above 1 and the limits allow more than 255 levels. If
/// `wait` is 0 or 1, it ignores the limit `held`, and so also checks inputs that this limit excludes. It stores at most
/// `most` states and uses about `memory` bytes. It splits each run of cycles without reads into steps of `pause`
/// cycles. Fails if memory for the layout or for the first state cannot be allocated.
pub fn check_all(
    alloc: Global,
    mut replica: SearchMachine,
    property: Property,
    limits: InputLimits,
    most: usize,
    memory: usize,
    pause: u32,
) -> Result<Outcome, AllocError>
    requires { most ≤ MAX_STATES }
    ensures { IfOk result (IsProved limits (observer_of_property property) (meets_none property.never_lists) replica) }
{
    if limits.keys().len() != replica.board().key_count() {
        return Ok(Outcome::GaveUp);
    }
    replica.set_highest_keys(&limits);
    let layout = layout_of(alloc, replica.board())?;
    let mut vector = vec![in alloc; 0u8; layout.len()]?;
    replica.save(&layout, &mut vector);
    let last = LastVector::none(alloc, &layout)?;
    replica.show_state_is_valid();
    if !property.keeps(&replica) {
        return Ok(Outcome::MayFail(Vec::new(alloc)));
    }
    let machines = MachineSearch {
        replica,
        limits,
        layout,
        last,
        property,
        most: pause,
    };
    if machines.wait() > 1 {
        search_by_levels(alloc, machines, &vector, most, memory)
    } else {
        search_by_values(alloc, machines, &vector, most, memory)
    }
}

//! Checks a machine for inputs whose changes are far enough apart, and whose keys stay down for a limited time.
ghost use Rattle.std.specs.Prelude.{◌≤◌, IfOk};
ghost use Rattle.mcs_search.specs.declared.searching.TheConstants.{MAX_STATES};
ghost use Rattle.mcs_check.specs.OutcomeMeaning.{IsProvedAt};
ghost use Rattle.mcs_check.specs.SearchStep.{IsState};

use crate::checking::{Outcome, states_that_fit};
use crate::machine_search::MachineSearch;
use crate::spaced_search::{SpacedSearch, first_timed_vector};
use crate::spacing::MAX_WAIT;
use mcs_search::{MAX_STATES, Verdict, search_all};
use std::alloc::{AllocError, Global};

/// Searches all runs of the machine that `vector` identifies, for inputs within the limits. Two changes of these inputs
/// are at least `wait` cycles apart, and no key stays down for more than `held` cycles. Gives up if the limits allow
/// more than 255 levels. See `check_all` for `most` and `memory`. Fails if memory for the levels or for the first state
/// runs out.
pub(crate) fn search_by_levels(
    alloc: Global,
    machines: MachineSearch,
    vector: &[u8],
    most: usize,
    memory: usize,
) -> Result<Outcome, AllocError>
    requires most { most ≤ MAX_STATES }
    requires state { IsState machines vector.now }
    ensures { IfOk result (IsProvedAt machines vector.now) }
{
    let wait = machines.wait().min(MAX_WAIT);
    let Some(levels) = machines.all_levels(alloc)? else {
        return Ok(Outcome::GaveUp);
    };
    let start = first_timed_vector(alloc, vector)?;
    let limit = most.min(states_that_fit(memory, start.len()));
    let mut search = SpacedSearch {
        machines,
        levels,
        wait,
    };
    match search_all(alloc, &mut search, &start, limit)? {
        Verdict::Holds(states) => Ok(Outcome::Holds(states)),
        Verdict::Broken(indices) => Ok(Outcome::MayFailWith(search.levels_at(alloc, &indices)?)),
        Verdict::TooMany if limit < most => Ok(Outcome::NoMemory(limit)),
        Verdict::TooMany => Ok(Outcome::TooMany),
        Verdict::NoMemory(states) => Ok(Outcome::NoMemory(states)),
        Verdict::GaveUp => Ok(Outcome::GaveUp),
    }
}

//! A transition system of wheels, for tests.
use mcs_search::{Search, System, Verdict, search_all};
use std::alloc::{AllocError, Global};
use std::process::Abort;

/// A system of `count` wheels with `position_count` positions each. The state is the position of each wheel, which is 0
/// at the start. A choice turns one wheel by one position.
#[derive(Drop)]
pub(crate) struct Wheels {
    pub(crate) count: usize,
    pub(crate) position_count: u8,
    /// The positions of the wheels in the one state in which the property fails. With fewer than three wheels, only the
    /// first `count` bytes matter.
    pub(crate) bad_state: [u8; 3],
    /// The positions of the wheels in the one state in which the system gives up. With fewer than three wheels, only
    /// the first `count` bytes matter.
    pub(crate) stuck_state: [u8; 3],
}

/// Positions of three wheels that no state has, because no wheel reaches position 255.
pub(crate) const NOWHERE: [u8; 3] = [255; 3];

impl Wheels {
    /// Returns wheels for which the property holds in all states.
    pub(crate) fn new(count: usize, position_count: u8) -> Wheels {
        Wheels {
            count,
            position_count,
            bad_state: NOWHERE,
            stuck_state: NOWHERE,
        }
    }
}

/// Returns true if the wheels of a state are at the given positions. Returns false if there are no wheels or more
/// than three.
fn wheels_are_at(state: &[u8], positions: &[u8; 3]) -> bool {
    !state.is_empty() && state.len() <= 3 && state == &positions[..state.len()]
}

impl System for Wheels {
    ghost use Rattle.std.specs.Prelude.{ℕ};
    ghost use Rattle.test_search.specs.Wheels.{trivial_rules};

    ghost Setting = { ℕ };

    ghost setting = { λ _. 0 };

    ghost rules = { trivial_rules };

    fn choices(&mut self, state: &[u8], into: &mut Vec<u8>) -> Result<(), AllocError> {
        into.clear();
        for i in 0..3u8 {
            if usize::from(i) < state.len() {
                into.push(i)?;
            }
        }
        Ok(())
    }

    fn apply_choice(&mut self, state: &[u8], choice: u8, into: &mut [u8]) -> Option<bool> {
        into.copy_from_slice(state);
        let at = usize::from(choice);
        if at < into.len() {
            let next_position = into[at].wrapping_add(1);
            into[at] = if next_position < self.position_count {
                next_position
            } else {
                0
            };
        }
        if wheels_are_at(into, &self.stuck_state) {
            return None;
        }
        Some(!wheels_are_at(into, &self.bad_state))
    }
}

/// Resumes a search, which then expands at most `steps` states.
#[tactic(auto, using(crate::proofs::TrivialRules::trivial_rules_under_way))]
pub(crate) fn resume(
    search: &mut Search,
    wheels: &mut Wheels,
    steps: usize,
) -> Result<Option<Verdict>, AllocError> {
    search.resume(wheels, steps)
}

/// Searches the states of the wheels. In the start state, all wheels are at position 0. The verdict is `TooMany` if the
/// search finds more than `max_states` states.
pub(crate) fn search_wheels(
    alloc: Global,
    rt: &impl Abort,
    wheels: &mut Wheels,
    max_states: usize,
) -> Verdict {
    let start = vec![in alloc; 0u8; wheels.count].expect(rt, "memory");
    let max_states = max_states.min(mcs_search::MAX_STATES);
    search_all(alloc, wheels, &start, max_states).expect(rt, "memory")
}

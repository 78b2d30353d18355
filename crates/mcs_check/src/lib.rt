//! Checks properties of a machine for all inputs, by a search through its states.
//!
//! A state vector is a list of bytes that identifies one state of a machine with a given board and given ROM bytes.
//! `SearchMachine` loads a machine from a state vector, saves the machine into a state vector, and runs the machine
//! from one read of an input to the next. In contracts, a `SearchMachine` is a machine of `mcs_model` with three
//! counts: its open calls, the cycles on a stopwatch, and the number of marks seen.
//!
//! A mark is a key of the key matrix together with a level, down or up. A property may have a list of marks and a
//! condition. It then requires that the program has seen the key of each mark at its level, in order, before the
//! condition becomes true. For example, a lock must not open before its keys were pressed in the right order.
#![tactic(auto)]

mod cells;
mod checking;
mod common_mistakes;
mod conditions;
mod highest_levels;
mod last_vector;
mod laws;
mod level_sets;
mod limits;
mod machine_search;
mod mark_detection;
mod marks;
mod packing;
mod property;
mod read_point;
mod reading;
mod replica;
mod scope;
mod search_step;
mod spaced_checking;
mod spaced_search;
mod spacing;
mod stopwatch;

pub use cells::{Cell, CellList, StateByte, layout_of};
pub use checking::{Outcome, check_all};
pub use common_mistakes::Mistakes;
pub use conditions::{Comparison, Condition, Conjunction, Part, meets_none};
pub use laws::agreeing_buses_are_equal;
pub use level_sets::Levels;
pub use limits::InputLimits;
pub use marks::{Marks, add_mark_requirement};
pub use mcs_drive::Mark;
pub use packing::state_vectors_determine_machines;
pub use property::Property;
pub use read_point::Run;
pub use reading::InputSource;
pub use replica::SearchMachine;
pub use stopwatch::{StopwatchCycles, add_limit};

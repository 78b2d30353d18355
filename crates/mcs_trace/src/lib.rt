//! The forecast of a run, which is executed on a copy of the bench, one instruction at a time.
#![tactic(auto)]

mod counting;
mod laws;

pub use counting::{Counts, count_run};
pub use laws::instructions_add_up;

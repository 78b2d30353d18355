//! The bench: a processor and the rig that it drives, with breakpoints, watches and the number of accepted commands.
//!
//! `Bench` executes commands. In contracts, a bench is its flat state, `BenchState` of `mcs_model`. `Flat` is a state
//! as plain numbers. That state need not be valid: `Flat::check` returns whether a bench can be in it.
//! `Bench::restore` creates a bench from a valid `Flat`.
#![tactic(auto)]

mod bench;
mod breaks;
mod chip_list;
mod commands;
mod flat;
mod getters;
mod instruction_steps;
mod laws;
mod restoring;
mod running;
mod validity;
mod watches;

pub use bench::Bench;
pub use chip_list::ChipList;
pub use flat::{Cells, Flat};
pub use laws::runs_add_up;
pub use running::InstructionResult;

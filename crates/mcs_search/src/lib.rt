//! A breadth-first search through all states that a transition system can reach. It is independent of what the system
//! models.
#![tactic(auto)]

mod arena;
mod block;
mod expanding;
mod searching;
mod system;
mod visited;

pub use searching::{MAX_STATES, Search, Verdict, search_all};
pub use system::System;

//! A bench that records each accepted command on a disk before it answers the command.
#![tactic(auto)]

pub mod fault;
pub mod laws;
mod recording;
mod replaying;
pub mod session;

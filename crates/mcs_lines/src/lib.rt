//! Parses command lines into requests.
#![tactic(auto)]

pub mod numbers;
pub mod places;
mod probes;
pub mod requests;
pub mod words;

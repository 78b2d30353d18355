//! Probes: the locations whose values the trace of a run reports. The definitions in `specs/` say which instructions
//! a run would begin, and how the values of probes are written.
#![tactic(auto)]

mod laws;
mod probe;

pub use laws::probe_limit_is_fixed;
pub use probe::{MAX_PROBES, Probe};

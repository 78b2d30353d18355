//! Tests of searches through systems whose number of states is known. They test what the proofs do not state: that a
//! counterexample is as short as possible, and when a search gives up.
#![tactic(auto)]

#[cfg(test)]
mod refused;
#[cfg(test)]
mod searches;
#[cfg(test)]
mod slices;
#[cfg(test)]
mod wheels;

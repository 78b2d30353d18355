//! Tests of checks for all inputs. An independent model of the chips has counted the states of the
//! test board. The tests cover what the proofs do not state: the number of states, and that a check
//! reaches a result at all.
#![tactic(auto)]

#[cfg(test)]
mod boards;
#[cfg(test)]
mod checks;
#[cfg(test)]
mod limits;
#[cfg(test)]
mod mistakes;
#[cfg(test)]
mod openings;
#[cfg(test)]
mod refused;
#[cfg(test)]
mod sets;
#[cfg(test)]
mod times;

//! A law about state vectors. The law is the contract of a function with an empty body.
ghost use Rattle.mcs_check.specs.StateVectors.{StateVectorsDetermineMachines};

/// Proves that a state vector identifies at most one machine with a given board, given ROM bytes and given key levels,
/// if the layout is complete.
pub fn state_vectors_determine_machines()
    ensures { StateVectorsDetermineMachines }
{}

//! Theorems that relate version 1 to version 2. Each theorem is the contract of a function with an
//! empty body.
ghost use Rattle.mcs_version1.specs.Boards.{Version1BoardsAreSmall};
ghost use Rattle.mcs_version1.specs.Lift.{CommandsLift, FoldsLift, QueriesLift};

/// Proves that version 2, in the lifted state, rejects, executes and answers each command of
/// version 1 as version 1 does. Also proves that a sequence of commands that version 1 accepts
/// leads from the lifted initial state to the lifted final state.
pub fn commands_lift()
    ensures each { CommandsLift }
    ensures folds { FoldsLift }
{}

/// Proves that version 2, in the lifted state, answers each query of `Query1` as version 1 does.
pub fn queries_lift()
    ensures { QueriesLift }
{}

/// Proves that the valid boards of version 1 are the valid boards of version 2 with at most two
/// chains and at most four chips in each chain.
pub fn boards_are_small()
    ensures { Version1BoardsAreSmall }
{}

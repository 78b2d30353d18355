//! Laws about migration, the conversion of a state of version 1 to a state of version 2.
ghost use Rattle.std.specs.Prelude.{◌≡◌, ℕ, List};
ghost use Rattle.mcs_model.specs.BenchState.{BenchState};
ghost use Rattle.mcs_model.specs.Bus.{BusState};
ghost use Rattle.mcs_version1.specs.BenchState.{BenchState1};
ghost use Rattle.mcs_version1.specs.Lift.{CommandsLift, FoldsLift, QueriesLift, lift};
ghost use Rattle.mcs_codec.specs.Codec.{EncodesState, EncodesState1};

use crate::versions::one_state;
use mcs_version1::laws::{commands_lift, queries_lift};

/// Proves that a converted state behaves as it did in version 1. Version 2 rejects, executes and
/// answers each command of version 1 as version 1 did, and answers each query of version 1 with the
/// same text. Any text that depends only on the board and the contents of its chips also stays the
/// same, for example the answers to `list` and `board`.
pub fn version_1_keeps_its_meaning()
    ensures commands { CommandsLift }
    ensures folds { FoldsLift }
    ensures queries { QueriesLift }
    ensures texts { (s : BenchState1) (text : BusState → List ℕ)
        → text (lift s).bus ≡ text s.bus }
{
    commands_lift();
    queries_lift();
}

/// Proves that no bytes encode both a state of version 2 and a state of version 1.
pub fn no_bytes_of_both_versions()
    ensures { (bytes : List ℕ) (s : BenchState) (t : BenchState1)
        → EncodesState bytes s → EncodesState1 bytes t → ⊥ }
{
    one_state();
}

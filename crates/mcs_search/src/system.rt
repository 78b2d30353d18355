//! The interface of the transition systems that can be searched.
ghost use Rattle.std.specs.Prelude.{◌≡◌, length, true, false, IfSome, OnOk};
ghost use Rattle.mcs_search.specs.Rules.{Rules};

use std::alloc::AllocError;

/// A transition system. A choice leads from one state to the next. Each state is represented by its state vector, a
/// list of bytes. All state vectors in a search have the same length. Parameters named `state` are state vectors.
pub trait System {
    /// The type of the system's setting: the part that no call changes.
    ghost Setting: { Type 0 };

    /// The system's setting: the part that no call changes.
    ghost setting: { Self → Setting };

    /// The rules of the system: which lists of bytes are state vectors, which choices a search must try in a state, and
    /// where a choice leads.
    ghost rules: { Setting → Rules };

    /// Replaces the contents of `into` with the choices that the system has in the state `state`. Fails if memory
    /// cannot be allocated.
    fn choices(&mut self, state: &[u8], into: &mut Vec<u8>) -> Result<(), AllocError>
        requires { (rules (setting self.old)).is_state state.now }
        ensures setting { setting self.new ≡ setting self.old }
        ensures covers { OnOk result ((rules (setting self.old)).covers state.now into.new.items) };

    /// Makes the choice `choice` in the state `state`. Returns true if the property holds at every step, and stores the
    /// next state in `into`. Returns false if the property fails. Returns `None` if the system gives up.
    fn apply_choice(&mut self, state: &[u8], choice: u8, into: &mut [u8]) -> Option<bool>
        requires state { (rules (setting self.old)).is_state state.now }
        requires into { length into.old ≡ length state.now }
        ensures setting { setting self.new ≡ setting self.old }
        ensures leads { IfSome result (λ well. well ≡ true
            → (rules (setting self.old)).leads state.now choice into.new) }
        ensures state { IfSome result (λ well. well ≡ true
            → (rules (setting self.old)).is_state into.new) }
        ensures fails { IfSome result (λ well. well ≡ false
            → (rules (setting self.old)).fails state.now choice) };
}

//! Laws of the definitions. Each law is the contract of a function with an empty body.
ghost use Rattle.mcs_sets.specs.Excluding.{EntriesSuffice};
ghost use Rattle.mcs_sets.specs.Closure.{ClosureSuffices};
ghost use Rattle.mcs_sets.specs.Landing.{LandingIsCorrect};
ghost use Rattle.mcs_sets.specs.Covering.{LandingsSuffice};

/// Proves that a covered machine stays covered at every moment, for all inputs. The premise is that one more cycle
/// leads from each covered machine to a covered machine.
pub fn closure_suffices()
    ensures { ClosureSuffices }
{}

/// Proves that a landing describes the machine after the instruction, if the choice consists of the machine's own
/// values.
pub fn landing_is_correct()
    ensures { LandingIsCorrect }
{}

/// Proves that a certificate covers each machine covered by an entry after one more cycle, if it covers the landings of
/// all choices that the entry allows.
pub fn landings_suffice()
    ensures { LandingsSuffice }
{}

/// Proves that a property holds for all inputs, if it holds in each entry and the certificate covers all reachable
/// machines.
pub fn entries_suffice()
    ensures { EntriesSuffice }
{}

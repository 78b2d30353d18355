//! A theorem about the definitions of this crate. The theorem is the contract of a function with an empty body.
ghost use Rattle.std.specs.Prelude.{◌≡◌};
ghost use Rattle.mcs_probe.specs.declared.probe.TheConstants.{MAX_PROBES};

/// Proves that the maximum number of probes, `MAX_PROBES`, is 16.
pub fn probe_limit_is_fixed()
    ensures { MAX_PROBES ≡ 16 }
{}

//! A law about forecasts of runs, proved as the contract of a function with an empty body.
ghost use Rattle.mcs_probe.specs.Forecast.{InstructionsAddUp};

/// Proves that two consecutive runs of `m` and `n` cycles begin the same instructions as one run of `m + n` cycles,
/// if nothing stops the longer run early.
pub fn instructions_add_up()
    ensures { InstructionsAddUp }
{}

//! A law about buses. The law is the contract of a function with an empty body.
ghost use Rattle.mcs_check.specs.BusAgreement.{AgreeingBusesAreEqual};

/// Proves that two valid buses are equal if they agree in all chips that their board has.
pub fn agreeing_buses_are_equal()
    ensures { AgreeingBusesAreEqual }
{}

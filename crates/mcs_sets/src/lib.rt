//! The states that a program can reach for all inputs, as sets of values for each location.
//!
//! A certificate is a list of entries, one or more for each address and stack of return addresses that a program can
//! reach. An entry lists the nibbles that each register may hold there. `stays_covered` checks each entry once and
//! trusts nothing in the certificate. If `stays_covered` returns true, some entry covers the machine at each moment,
//! for all levels of its keys and its TEST pin.
#![tactic(auto)]

mod certifying;
mod covering;
mod entries;
mod excluding;
mod finding;
mod landing;
mod laws;
mod precision;
mod proving;
mod sampling;
mod slicing;

pub use certifying::stays_covered;
pub use entries::Entry;
pub use laws::{closure_suffices, entries_suffice, landing_is_correct, landings_suffice};
pub use proving::check_by_sets;

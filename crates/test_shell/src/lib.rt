//! Tests of whole sessions on in-memory disks. Disks, readers, writers or allocations fail in these tests. Other
//! tests cover the calls that the page makes.
#![tactic(auto)]

#[cfg(test)]
mod checks;
#[cfg(test)]
mod counted;
#[cfg(test)]
mod faults;
#[cfg(test)]
mod first_version;
#[cfg(test)]
mod forecast;
#[cfg(test)]
mod maps;
#[cfg(test)]
mod page;
#[cfg(test)]
mod questions;
#[cfg(test)]
mod refused;
#[cfg(test)]
mod scripts;
#[cfg(test)]
mod sessions;
#[cfg(test)]
mod stops;

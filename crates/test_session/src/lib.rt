//! Tests of sessions and journals on in-memory disks. They check the bytes that a journal writes,
//! and the bytes that remain on the disk if a device call fails. Other tests cover commands and state lists that no
//! session has, and benches that are restored from numbers or from bytes.
#![tactic(auto)]

#[cfg(test)]
mod checks;
#[cfg(test)]
mod commands;
#[cfg(test)]
mod first_version;
#[cfg(test)]
mod journal;
#[cfg(test)]
mod lists;
#[cfg(test)]
mod restored;
#[cfg(test)]
mod session_helpers;
#[cfg(test)]
mod tests;

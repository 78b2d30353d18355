//! The bench without a host, for a page in a browser. This crate takes the bytes of a session file and input lines, and
//! returns answers and the new bytes of the file.
#![tactic(auto)]

mod disks;
pub mod fault;
pub mod page;

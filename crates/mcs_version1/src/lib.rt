//! Version 1 of the bench: its definitions, and theorems that version 2 treats the commands and queries of version 1 in
//! the same way.
#![tactic(auto)]

pub mod laws;

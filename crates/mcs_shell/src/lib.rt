//! The shell of the bench, and the program that runs the shell. The shell reads lines and writes answers. It records
//! each accepted command on the disk before it writes the command's answer.
#![tactic(auto)]

mod answer;
mod answering;
pub mod ends;
pub mod faults;
pub mod headline;
pub mod laws;
mod messages;
pub mod program;
pub mod sending;
mod serving;
pub mod shell;
pub mod streams;
pub mod texts;
mod unfinished;

pub use mcs_host::{ArgumentsFault, Choice, FileDisk, FileFault, FileName, choice};

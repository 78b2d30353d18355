//! Fixtures shared by the tests of several crates: boards as parts and as text, file contents, readers and writers
//! that fail, an endless reader, and a pseudo-random number generator. The program does not use this crate. The
//! functions are proved safe, but their contracts do not say which values they return.
#![tactic(auto)]

pub mod boards;
pub mod files;
pub mod numbers;
pub mod streams;
pub mod texts;

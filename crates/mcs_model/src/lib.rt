//! The model of a bench: its limits, its commands and the reasons to reject them, and the definitions in `specs/`.
//! Every crate that depends on this one is proved against these definitions.
#![tactic(auto)]

pub mod board;
pub mod command;
pub mod image;
pub mod laws;
pub mod limits;
pub mod numeral;
pub mod op;
pub mod query;
pub mod refusal_numbers;
pub mod refusals;
pub mod regs;
pub mod stop;
pub mod text_lines;

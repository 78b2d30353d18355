//! Proves, for all allowed inputs, properties of the machine that a board's text and a program's text define.
//!
//! The machine is that of a new bench after `wire` with the board's text, `asm` with the program's text, and `reset`. A
//! question is a sequence of lines, as in a session. It allows all inputs unless it has lines with limits. These limit
//! the keys that may be pressed, how many at a time and for how long, whether TEST may be 1, and how often the levels
//! may change. The answer is one line. `answer_to` parses a question, tries to prove its property and returns the
//! answer.
#![tactic(auto)]

mod answer;
mod inputs;
mod lines;
mod machine;
mod proving;
mod question;
mod refusal;

pub use answer::{Answer, answer_to};
pub use inputs::{AllowedInputs, KeyPosition};
pub use proving::{Goal, prove, prove_by_sets};
pub use refusal::Refusal;

//! The disassembler. It returns the text of an instruction, the listing of a ROM, and source text that assembles to the
//! bytes of a ROM range.
#![tactic(auto)]

mod decoding;
mod laws;
mod listings;
mod texts;

pub use laws::{source_law, text_parses_back};
pub use listings::{line_of, listing, source};

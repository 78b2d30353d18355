//! Converts boards to and from their TOML text, and reports the errors of a board text.
#![tactic(auto)]

mod fault;
mod flawed_part;
pub mod laws;
mod names;
mod parts;
mod reading;
mod report;
mod sections;
mod values;
mod writing;

pub use fault::WiringFault;
pub use reading::board_of;
pub use report::wiring_text;
pub use writing::board_text;

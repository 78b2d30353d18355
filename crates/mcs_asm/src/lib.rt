//! The assembler: translates a source text to an image, surveys its lines and names, and reports
//! its errors.
#![tactic(auto)]

mod all_errors;
mod byte_cells;
mod bytes;
mod fault;
mod names;
mod passes;
mod rows;
mod statements;
mod surveys;
mod text;
mod tokens;
mod words;

pub use all_errors::{
    LineError, MAX_REPORTED_ERRORS, errors, errors_text, first_error_is_assembly_error,
};
pub use fault::{AsmFault, FaultKind, SourceFault};
pub use mcs_source::survey::Span;
pub use passes::{assemble, survey};
pub use rows::survey_text;
pub use surveys::Survey;

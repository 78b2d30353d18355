//! Writes the texts of answers: the replies to commands and the answers to queries.
#![tactic(auto)]

mod counts;
mod digits;
mod forecast;
pub mod laws;
mod lists;
mod numbers;
mod port_levels;
mod queries;
mod ram;
mod registers;
mod size;
mod state;
mod state_lists;
mod traces;
mod unchanged_rows;

pub use counts::put_count;
pub use numbers::{put_number, put_refusal_at, put_reply};
pub use queries::{listing_answer, put_board, put_query};
pub use size::ANSWER_BYTES;
pub use traces::put_trace;

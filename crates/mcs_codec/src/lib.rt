//! The encoding of commands and of whole states in a session file.
//!
//! Every command and every state has exactly one encoding. No bytes encode two different commands
//! or two different states. The decoder also reads states of version 1, whose bytes begin
//! differently, and converts them to version 2. Nothing is written in version 1. Bytes with a value
//! out of its range, an invalid board, extra bytes or missing bytes encode nothing.
//!
//! `put` and `put_..` write a value to a buffer at an offset; `read` and `read_..` read a value
//! from a `Reader`. In the contracts, a definition whose name ends in `_bytes` gives the bytes of a
//! value, and a definition whose name ends in `_at` reads a value from its bytes.
#![tactic(auto)]

mod boards;
mod commands;
mod encoding;
mod images;
mod migration;
mod places;
mod reader;
mod restoring;
mod saving;
mod versions;

pub use commands::{COMMAND_BYTES, NoMemory, command_bytes, command_of, one_command};
pub use mcs_version1::laws::boards_are_small;
pub use migration::{no_bytes_of_both_versions, version_1_keeps_its_meaning};
pub use restoring::{bench_of, version_of, versioned_bench_of};
pub use saving::{STATE_BYTES, state_bytes};
pub use versions::{Version, is_command_of_version_1, one_state};

//! The journal of a session: a file with two slots. Each slot has a snapshot and a log of the
//! records after the snapshot.
//!
//! A [`Store`] keeps a snapshot and its records on a disk. If a power cut interrupts `append` or
//! `replace`, an honest disk holds the contents from before the call or those from after the call.
//! A power cut during `create` can leave any bytes.
#![tactic(auto)]

mod bytes;
mod fault;
mod format;
mod laws;
mod reading;
mod slot;
mod store;
mod writing;

pub use bytes::{Bytes, Records};
pub use fault::StoreFault;
pub use format::{FILE_SIZE, MAX_RECORD_SIZE, MAX_SNAPSHOT_SIZE};
pub use laws::{contents_are_unique, cut_leaves_durable_contents, cut_leaves_old_or_new_contents};
pub use store::{Opened, Store};

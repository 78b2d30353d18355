//! Tests of the calls that the page makes to the bench.
mod calls;
mod files;
mod no_memory;

//! The rig: a board with its chips, which the processor accesses as its bus.
//!
//! A `Rig` holds the ROMs, RAM banks, shift-register chains and keys of a board. In contracts, a rig is its flat
//! state (`BusState`). The const parameters of `Rig` give the number of sockets for each kind of chip, and the
//! maximum number of bits in a chain. A rig can be wired to any board that fits these sockets. The chips follow the
//! Intel MCS-4 Users Manual. `mcs_model` defines what the manual leaves open.
#![tactic(auto)]

mod banks;
mod bench_rig;
mod bus;
mod chains;
mod clocks;
mod keys;
mod lamps;
mod lifecycle;
mod rig;
mod roms;

pub use bench_rig::{BenchRig, cycle, every_board_fits_the_bench, instruction, run_instruction};
pub use rig::Rig;

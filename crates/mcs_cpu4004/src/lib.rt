//! The 4004 and its instruction cycle, for any bus.
//!
//! `Bus` is the processor's interface to everything outside it. In contracts, the value of a bus is its flat state.
//! For each of the 256 opcodes, one cycle of `Cpu` on a bus is the cycle that `mcs_model` defines. Source: Intel
//! MCS-4 Users Manual, description of the 4004 and its instruction set. The definitions of `mcs_model` say which
//! parts Fethsaim defines instead of Intel.
#![tactic(auto)]

mod bus;
mod execute;
mod processor;

pub use bus::Bus;
pub use mcs_model::regs::Regs;
pub use processor::{Cpu, Cycle};

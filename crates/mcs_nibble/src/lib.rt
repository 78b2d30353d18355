//! The numbers of the MCS-4, each limited to its range: bits, nibbles, addresses, and the numbers of registers,
//! register pairs, RAM banks and status characters. The mask options of ROM port lines are also defined here.
//!
//! In contracts, a value of a numeric type is the number itself. Nibble addition and subtraction follow the 4004: the
//! result is modulo 16, and the carry is a separate bit. Addresses are modulo 4096. Source: Intel MCS-4 Users Manual,
//! description of the 4004.
#![tactic(auto)]

mod addresses;
mod banks;
mod bits;
mod lines;
mod nibbles;
mod pairs;
mod registers;

pub use addresses::Addr;
pub use banks::{BankNo, StatusNo};
pub use bits::Bit;
pub use lines::LineMask;
pub use nibbles::Nibble;
pub use pairs::PairNo;
pub use registers::RegNo;

//! Queries about the state of a bench.

use mcs_nibble::BankNo;

/// A query about the state of a bench. It does not change the state.
#[derive(Clone, Copy, Debug, PartialEq, Eq)]
pub enum Query {
    /// The state of each lamp, on or off, in the order of the lamps on the board.
    Lamps,
    /// The registers of the processor, and the TEST pin.
    Regs,
    /// The contents of a bank's RAM chips: nibbles, status characters and port latches.
    Ram(BankNo),
    /// The breakpoints.
    Breaks,
    /// The watched RAM nibbles.
    Watches,
    /// The number of accepted commands.
    Seq,
    /// The whole state in one line, except the board and the contents of ROM and RAM.
    State,
}

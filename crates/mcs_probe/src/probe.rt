//! Probes: locations that are read before a run and after each of its instructions.
use mcs_model::board::Line;
use mcs_nibble::{Addr, BankNo, Nibble, RegNo, StatusNo};

/// The maximum number of probes in one trace.
pub const MAX_PROBES: usize = 16;

/// A location whose value a trace reports, or a group of locations that it reports as one word.
#[derive(Clone, Copy, Debug)]
pub enum Probe {
    /// The accumulator.
    Acc,
    /// The carry.
    Cy,
    /// The program counter.
    Pc,
    /// An index register.
    Register(RegNo),
    /// The command register, which selects the RAM bank.
    Dcl,
    /// A ROM byte.
    Rom(Addr),
    /// A RAM nibble: its bank, and the SRC byte that selects it. Its value is 0 if the board does not have the chip.
    Ram(BankNo, u8),
    /// A status character: its bank, the upper nibble of the SRC byte that selects its register, and its number. Its
    /// value is 0 if the board does not have the chip.
    Status(BankNo, Nibble, StatusNo),
    /// The level of a line, or 0 if the line is not on the board.
    Level(Line),
    /// The levels of the four port lines of a ROM, as a nibble with line `k` at bit `k`. The nibble is 0 if the board
    /// does not have the ROM.
    RomPort(u8),
    /// The levels of the four port lines of a RAM chip, as a nibble with line `k` at bit `k`. The fields are the bank
    /// number and the chip number. The nibble is 0 if the board does not have the chip.
    RamPort(u8, u8),
    /// The bits of a chain, bit 0 first, or a dash if the board does not have the chain.
    Chain(u8),
    /// The SRC byte that the ROMs store.
    Src,
    /// The states of the board's lamps, on or off, in order.
    Lamps,
    /// The three return addresses. BBL returns to the first one.
    ReturnAddresses,
}

impl Default for Probe {
    fn default() -> Probe {
        Probe::Acc
    }
}

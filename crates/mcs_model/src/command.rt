//! Commands to a bench, and the replies of the bench.

use crate::board::Board;
use crate::image::Image;
use crate::stop::Stop;
use mcs_nibble::{Addr, BankNo, Bit, Nibble, RegNo, StatusNo};

/// A location that `poke` sets, with its new value.
#[derive(Clone, Copy, Debug)]
pub enum Place {
    /// The accumulator.
    Acc(Nibble),
    /// The carry.
    Cy(Bit),
    /// The program counter.
    Pc(Addr),
    /// An index register: its number and its new value.
    Register(RegNo, Nibble),
    /// The command register. Its value is the number of the designated RAM bank.
    Dcl(BankNo),
    /// A ROM byte: its address and its new value.
    Rom(Addr, u8),
    /// A RAM nibble: its bank, the SRC byte that selects it, and its new value.
    Ram(BankNo, u8, Nibble),
    /// A status character: its bank, the upper nibble of the SRC byte that selects its register, its number, and its
    /// new value.
    Status(BankNo, Nibble, StatusNo, Nibble),
}

/// A command to a bench.
#[derive(Debug, Drop)]
pub enum Command {
    /// Replaces the board, releases all keys, and clears everything that `Reset` clears. The bytes of ROMs that are
    /// not on the new board become 0.
    Wire(Board),
    /// Writes the bytes of an image to ROM.
    Load(Image),
    /// Presses the key at a row and a column.
    Press(u8, u8),
    /// Releases the key at a row and a column.
    Release(u8, u8),
    /// Runs for the given number of instruction cycles, 1 to 100,000. The run ends earlier if another reason to stop
    /// occurs.
    Run(u32),
    /// Executes the pending second cycle if there is one, otherwise one instruction.
    Step,
    /// Sets a location to a value. Nothing else changes, and no chain shifts.
    Poke(Place),
    /// Sets the level of the TEST pin.
    Test(Bit),
    /// Cycles the power. Registers, RAM, port latches, SRC bytes and chains become 0. ROM, keys, TEST, breakpoints,
    /// watches and the board do not change.
    Reset,
    /// Sets a breakpoint at an address.
    Break(Addr),
    /// Clears the breakpoint at an address, if there is one.
    Unbreak(Addr),
    /// Watches the RAM nibble that an SRC byte selects in a bank. A run stops when the value of a watched RAM nibble
    /// changes.
    Watch(BankNo, u8),
    /// Stops watching the RAM nibble that an SRC byte selects in a bank.
    Unwatch(BankNo, u8),
}

/// The reply to an accepted command.
#[derive(Clone, Copy, Debug, PartialEq, Eq)]
pub enum Reply {
    /// The command was executed. There is nothing else to report.
    Done,
    /// The number of bytes that were loaded, 0 to 4,096.
    Loaded(u16),
    /// The number of instruction cycles that a run or a step executed, and the reason why it stopped.
    Ran { cycles: u32, stop: Stop },
}

//! The instructions of the 4004.

use mcs_nibble::{Nibble, PairNo, RegNo};

/// An instruction with its operands. Each variant has the name of the instruction in Intel's manual. In a variant
/// with two operands, the `u8` is the second word: a value, or the lower eight bits of an address. Source: Intel
/// MCS-4 Users Manual, instruction set.
#[derive(Clone, Copy)]
pub enum Op {
    /// No operation.
    Nop,
    /// Jump on condition: the condition, and the lower eight bits of the target. The target is on the page of the
    /// address after the instruction.
    Jcn(Nibble, u8),
    /// Fetch immediate: the register pair, and its new value.
    Fim(PairNo, u8),
    /// Send register control: the register pair whose byte is sent to the ROM and RAM chips.
    Src(PairNo),
    /// Fetch indirect: the register pair that is loaded from program memory.
    Fin(PairNo),
    /// Jump indirect: the register pair that holds the lower eight bits of the target.
    Jin(PairNo),
    /// Jump unconditional: the page and the lower eight bits of the target.
    Jun(Nibble, u8),
    /// Jump to subroutine: the page and the lower eight bits of the target.
    Jms(Nibble, u8),
    /// Increment a register.
    Inc(RegNo),
    /// Increment a register, and jump if it is then not 0: the register, and the lower eight bits of the target. The
    /// target is on the page of the address after the instruction.
    Isz(RegNo, u8),
    /// Add a register to the accumulator with carry.
    Add(RegNo),
    /// Subtract a register from the accumulator with borrow.
    Sub(RegNo),
    /// Load a register into the accumulator.
    Ld(RegNo),
    /// Exchange a register and the accumulator.
    Xch(RegNo),
    /// Branch back from a subroutine, and load a value into the accumulator.
    Bbl(Nibble),
    /// Load a value into the accumulator.
    Ldm(Nibble),
    /// Write the accumulator to the selected RAM nibble.
    Wrm,
    /// Write the accumulator to the port of the selected RAM chip.
    Wmp,
    /// Write the accumulator to the port of the selected ROM.
    Wrr,
    /// Write the accumulator to status character 0 of the selected RAM register.
    Wr0,
    /// Write the accumulator to status character 1 of the selected RAM register.
    Wr1,
    /// Write the accumulator to status character 2 of the selected RAM register.
    Wr2,
    /// Write the accumulator to status character 3 of the selected RAM register.
    Wr3,
    /// Subtract the selected RAM nibble from the accumulator with borrow.
    Sbm,
    /// Read the selected RAM nibble into the accumulator.
    Rdm,
    /// Read the port of the selected ROM into the accumulator.
    Rdr,
    /// Add the selected RAM nibble to the accumulator with carry.
    Adm,
    /// Read status character 0 of the selected RAM register into the accumulator.
    Rd0,
    /// Read status character 1 of the selected RAM register into the accumulator.
    Rd1,
    /// Read status character 2 of the selected RAM register into the accumulator.
    Rd2,
    /// Read status character 3 of the selected RAM register into the accumulator.
    Rd3,
    /// Clear the accumulator and the carry.
    Clb,
    /// Clear the carry.
    Clc,
    /// Increment the accumulator.
    Iac,
    /// Complement the carry.
    Cmc,
    /// Complement the accumulator.
    Cma,
    /// Rotate the accumulator and the carry left.
    Ral,
    /// Rotate the accumulator and the carry right.
    Rar,
    /// Transmit carry: move the carry into the accumulator, and clear the carry.
    Tcc,
    /// Decrement the accumulator.
    Dac,
    /// Transfer carry subtract: load 9 plus the carry into the accumulator, and clear the carry.
    Tcs,
    /// Set the carry.
    Stc,
    /// Decimal adjust the accumulator.
    Daa,
    /// Keyboard process: replace the accumulator with the number, 1 to 4, of its only bit that is 1. The result is 0
    /// if no bit is 1, and 15 if several bits are 1.
    Kbp,
    /// Designate command line: select the RAM bank.
    Dcl,
}

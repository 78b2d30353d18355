//! Levels of precision. A register is exact if each entry has a single value for the register.
use mcs_model::op::Op;
use mcs_nibble::{PairNo, RegNo};

/// A level of precision: the instructions that need exact registers. Each level includes the instructions of the
/// levels before it.
#[derive(Clone, Copy, Debug, PartialEq, Eq)]
pub(crate) enum Level {
    /// No instruction.
    None,
    /// FIN and JIN, which use a register pair as an address.
    Jumps,
    /// DCL, which uses the accumulator as a bank number.
    Banks,
    /// SRC, which uses the first register of a pair as a chip number.
    SrcChip,
    /// SRC, which at this level needs both registers of its pair. A register that is exact at one address is exact at
    /// all addresses.
    SrcEverywhere,
}

/// The levels, in the order in which a proof tries them.
pub(crate) const LEVELS: [Level; 5] = [
    Level::None,
    Level::Jumps,
    Level::Banks,
    Level::SrcChip,
    Level::SrcEverywhere,
];

/// The bit of the accumulator in a set of registers. Index register `r` is bit `r`.
pub(crate) const ACC: u32 = 1 << 16;

/// The bit of the carry in a set of registers.
pub(crate) const CARRY: u32 = 1 << 17;

/// Returns the set that contains one register.
pub(crate) fn register_bit(r: RegNo) -> u32 {
    1 << r.get()
}

/// Returns the set that contains both registers of a pair.
pub(crate) fn pair_bits(k: PairNo) -> u32 {
    3 << (2 * k.get())
}

/// Returns the registers that must be exact at an instruction, at the given level of precision.
pub(crate) fn exact_registers_needed(level: Level, op: &Op) -> u32 {
    match (op, level) {
        (_, Level::None) => 0,
        (Op::Fin(_), _) => pair_bits(PairNo::ZERO),
        (Op::Jin(k), _) => pair_bits(*k),
        (_, Level::Jumps) => 0,
        (Op::Dcl, _) => ACC,
        (Op::Src(k), Level::SrcChip) => 1 << (2 * k.get()),
        (Op::Src(k), Level::SrcEverywhere) => pair_bits(*k),
        _ => 0,
    }
}

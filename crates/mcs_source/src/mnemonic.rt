//! The mnemonics and directives that begin a statement.
use mcs_model::op::Op;

/// The mnemonic or directive that begins a statement.
#[derive(Clone, Copy)]
pub enum Mnemonic {
    /// Origin: sets the address of the next statement.
    Org,
    /// Define bytes: emits one byte for each value.
    Db,
    /// Jump on condition.
    Jcn,
    /// Fetch immediate.
    Fim,
    /// Send register control.
    Src,
    /// Fetch indirect.
    Fin,
    /// Jump indirect.
    Jin,
    /// Jump unconditional.
    Jun,
    /// Jump to subroutine.
    Jms,
    /// Increment.
    Inc,
    /// Increment and skip if zero.
    Isz,
    /// Add a register.
    Add,
    /// Subtract a register.
    Sub,
    /// Load a register.
    Ld,
    /// Exchange with a register.
    Xch,
    /// Branch back and load.
    Bbl,
    /// Load an immediate value.
    Ldm,
    /// An instruction without operands.
    WithoutOperands(Op),
}

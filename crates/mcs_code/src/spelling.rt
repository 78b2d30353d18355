//! The words of an encoded instruction.

/// The one or two words of an encoded instruction.
#[derive(Clone, Copy, Debug, PartialEq, Eq)]
pub struct Words {
    /// The first word, which is the opcode.
    pub first: u8,

    /// The second word, or `None` for a one-word instruction.
    pub second: Option<u8>,
}

//! The reasons why a run stops.

/// The reason why a run or a step stopped.
#[derive(Clone, Copy, Debug, PartialEq, Eq)]
pub enum Stop {
    /// The opcode at the program counter is outside the opcode table.
    Outside,
    /// The program counter is at a breakpoint.
    Breakpoint,
    /// The value of a watched RAM nibble has changed.
    Watched,
    /// All instruction cycles of the run or the step are done.
    Ended,
}

//! Marks: the key levels that an observer looks for.

/// A key of the key matrix together with a level, down or up. An observer has a list of marks. It looks for the reads
/// that show each key of the list at its level, in the order of the list.
#[derive(Clone, Copy, Debug)]
pub struct Mark {
    /// The row of the key.
    pub row: u8,
    /// The column of the key.
    pub column: u8,
    /// True if the key is down, false if it is up.
    pub is_down: bool,
}

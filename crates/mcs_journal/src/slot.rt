//! The two slots of a session file.
ghost use Rattle.std.specs.Prelude.{◌≡◌};

use crate::format::{FIRST_SLOT, SECOND_SLOT};

/// One of the two slots of a session file. A slot has a snapshot area and a log.
#[derive(Clone, Copy)]
pub enum Slot {
    /// The first slot of the file.
    A,
    /// The second slot of the file.
    B,
}

impl Slot {
    ghost use Rattle.mcs_journal.specs.File.{slot_selected_by, start_of};
    ghost use Rattle.mcs_journal.specs.Writing.{other_slot, selector_of};

    /// Returns the slot that a selector selects: the first if the selector is even, or the second
    /// if the selector is odd.
    pub fn selected_by(selector: u8) -> Slot
        ensures { result ≡ slot_selected_by selector }
    {
        if selector % 2 == 0 { Slot::A } else { Slot::B }
    }

    /// Returns the offset of the slot in the file, in bytes.
    pub fn start(self) -> usize
        ensures { result ≡ start_of self }
    {
        match self {
            Slot::A => FIRST_SLOT,
            Slot::B => SECOND_SLOT,
        }
    }

    /// Returns the selector value that a store writes to select this slot: 0 for the first slot, 1
    /// for the second.
    pub fn selector(self) -> u8
        ensures { result ≡ selector_of self }
    {
        match self {
            Slot::A => 0,
            Slot::B => 1,
        }
    }

    /// Returns the other slot of the file.
    pub fn other(self) -> Slot
        ensures { result ≡ other_slot self }
    {
        match self {
            Slot::A => Slot::B,
            Slot::B => Slot::A,
        }
    }
}

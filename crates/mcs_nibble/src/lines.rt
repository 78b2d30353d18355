//! The port lines of a 4001 ROM.
ghost use Rattle.std.specs.Prelude.{◌≡◌};
ghost use Rattle.mcs_nibble.specs.Ports.{mask_character, mask_of};

/// The mask option of a ROM port line, fixed when the chip is made. The mask makes each line an input or an output
/// (Intel MCS-4 Users Manual, 4001). Fethsaim, not Intel, specifies that the mask also fixes the constant that the
/// processor reads from an output line.
#[derive(Clone, Copy, Debug, PartialEq, Eq)]
pub enum LineMask {
    /// An input line. The processor reads the level of the line, and the latch bit of the line is 0.
    Input,

    /// An output line that the processor reads as 0.
    Zero,

    /// An output line that the processor reads as 1.
    One,
}

impl LineMask {
    /// Returns the character for the mask option in board texts and session files: `i`, `0` or `1`.
    pub fn character(self) -> u8
        ensures { result ≡ mask_character self }
    {
        match self {
            LineMask::Input => b'i',
            LineMask::Zero => b'0',
            LineMask::One => b'1',
        }
    }

    /// Returns the mask option with the given character, or `None` if the character is not `i`, `0`
    /// or `1`.
    pub fn from_character(character: u8) -> Option<LineMask>
        ensures { result ≡ mask_of character }
    {
        match character {
            b'i' => Some(LineMask::Input),
            b'0' => Some(LineMask::Zero),
            b'1' => Some(LineMask::One),
            _ => None,
        }
    }
}

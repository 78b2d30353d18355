//! Index register numbers of the 4004.
ghost use Rattle.std.specs.Prelude.{◌≡◌, ℕ, ◌%◌, ◌<◌, ◌↔◌, IsSome, IfSome};

use std::marker::Model;

/// An index register number, 0 to 15.
#[derive(Clone, Copy, Debug, Default, PartialEq, Eq)]
pub struct RegNo {
    value: u8,
}

impl Model for RegNo {
    ghost Value = { ℕ };

    ghost view = { λ n. n.value };

    ghost invariant = { λ n. n.value < 16 };

    ghost inverse = { λ v. record { value = v } };
}

impl RegNo {
    /// Register 0.
    pub const ZERO: RegNo = RegNo { value: 0 };

    /// Returns `value` as a register number, or `None` if `value` is above 15.
    pub fn of(value: u8) -> Option<RegNo>
        ensures in_range { IsSome result ↔ (value < 16) }
        ensures value { IfSome result (λ n. n ≡ value) }
    {
        if value < 16 {
            Some(RegNo { value })
        } else {
            None
        }
    }

    /// Returns the index register that the lower four bits of an opcode select.
    pub fn from_opcode(byte: u8) -> RegNo
        ensures { result ≡ byte % 16 }
    {
        RegNo { value: byte % 16 }
    }

    /// Returns the register number, 0 to 15.
    pub fn get(self) -> u8
        ensures value { result ≡ self }
        ensures in_range { result < 16 }
    {
        self.value
    }
}

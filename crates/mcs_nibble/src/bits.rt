//! Single bits.
ghost use Rattle.std.specs.Prelude.{◌≡◌, ℕ, ◌-◌, ◌%◌, ◌<◌, ◌↔◌, IsSome, IfSome, if◌then◌else◌};

use std::marker::Model;

/// One bit, 0 or 1: a carry or the level of a line.
#[derive(Clone, Copy, Debug, Default, PartialEq, Eq)]
pub struct Bit {
    value: u8,
}

impl Model for Bit {
    ghost Value = { ℕ };

    ghost view = { λ b. b.value };

    ghost invariant = { λ b. b.value < 2 };

    ghost inverse = { λ v. record { value = v } };
}

impl Bit {
    /// The bit 0.
    pub const ZERO: Bit = Bit { value: 0 };

    /// The bit 1.
    pub const ONE: Bit = Bit { value: 1 };

    /// Returns `value` as a bit, or `None` if `value` is above 1.
    pub fn of(value: u8) -> Option<Bit>
        ensures in_range { IsSome result ↔ (value < 2) }
        ensures value { IfSome result (λ b. b ≡ value) }
    {
        if value < 2 { Some(Bit { value }) } else { None }
    }

    /// Returns 1 if `holds` is true, and 0 otherwise.
    pub fn when(holds: bool) -> Bit
        ensures { result ≡ (if holds then 1 else 0) }
    {
        Bit {
            value: if holds { 1 } else { 0 },
        }
    }

    /// Returns the least significant bit of a byte.
    pub fn low_of(byte: u8) -> Bit
        ensures { result ≡ byte % 2 }
    {
        Bit { value: byte % 2 }
    }

    /// Returns the bit as a number, 0 or 1.
    pub fn get(self) -> u8
        ensures value { result ≡ self }
        ensures in_range { result < 2 }
    {
        self.value
    }

    /// Returns the inverted bit.
    pub fn complement(self) -> Bit
        ensures { result ≡ 1 - self }
    {
        Bit {
            value: 1 - self.value,
        }
    }
}

//! Four-bit numbers, and the 4004's arithmetic on them.
ghost use Rattle.std.specs.Prelude.{◌≡◌, ℕ, ◌+◌, ◌-◌, ◌*◌, ◌/◌, ◌%◌, ◌<◌, ◌↔◌, IsSome, IfSome};
ghost use Rattle.mcs_nibble.specs.Bits.{bit_of};

use crate::bits::Bit;
use std::marker::Model;

/// A four-bit number, 0 to 15: the contents of the accumulator, a register, a RAM nibble or a port.
#[derive(Clone, Copy, Debug, Default, PartialEq, Eq)]
pub struct Nibble {
    value: u8,
}

impl Model for Nibble {
    ghost Value = { ℕ };

    ghost view = { λ n. n.value };

    ghost invariant = { λ n. n.value < 16 };

    ghost inverse = { λ v. record { value = v } };
}

impl Nibble {
    /// The nibble 0.
    pub const ZERO: Nibble = Nibble { value: 0 };

    /// The nibble 1.
    pub const ONE: Nibble = Nibble { value: 1 };

    /// The largest nibble, 15.
    pub const MAX: Nibble = Nibble { value: 15 };

    /// Returns `value` as a nibble, or `None` if `value` is above 15.
    pub fn of(value: u8) -> Option<Nibble>
        ensures in_range { IsSome result ↔ (value < 16) }
        ensures value { IfSome result (λ n. n ≡ value) }
    {
        if value < 16 {
            Some(Nibble { value })
        } else {
            None
        }
    }

    /// Returns the lower four bits of a byte.
    pub fn low_of(byte: u8) -> Nibble
        ensures { result ≡ byte % 16 }
    {
        Nibble { value: byte % 16 }
    }

    /// Returns the upper four bits of a byte.
    pub fn high_of(byte: u8) -> Nibble
        ensures { result ≡ byte / 16 }
    {
        Nibble { value: byte / 16 }
    }

    /// Returns the nibble with these four bits, least significant bit first.
    pub fn of_bits(b0: Bit, b1: Bit, b2: Bit, b3: Bit) -> Nibble
        ensures value { result ≡ b0 + 2 * b1 + 4 * b2 + 8 * b3 }
        ensures bit_0 { bit_of result 0 ≡ b0 }
        ensures bit_1 { bit_of result 1 ≡ b1 }
        ensures bit_2 { bit_of result 2 ≡ b2 }
        ensures bit_3 { bit_of result 3 ≡ b3 }
    {
        Nibble {
            value: b0.get() + 2 * b1.get() + 4 * b2.get() + 8 * b3.get(),
        }
    }

    /// Returns the nibble as a number, 0 to 15.
    pub fn get(self) -> u8
        ensures value { result ≡ self }
        ensures in_range { result < 16 }
    {
        self.value
    }

    /// Adds the nibble, `n` and the carry `cy`. Returns the sum modulo 16, and the carry out. Source: Intel MCS-4
    /// Users Manual, ADD.
    pub fn add(self, n: Nibble, cy: Bit) -> (Nibble, Bit)
        ensures sum { result.0 ≡ (self + n + cy) % 16 }
        ensures carry { result.1 ≡ (self + n + cy) / 16 }
    {
        let sum = self.value + n.value + cy.get();
        (Nibble::low_of(sum), Bit::low_of(sum / 16))
    }

    /// Subtracts `n` from the nibble with borrow, as the 4004 does: adds the complement of `n` and the complement of
    /// the carry `cy`. Returns the sum modulo 16, and the carry out. A carry out of 1 means no borrow. Source: Intel
    /// MCS-4 Users Manual, SUB.
    pub fn sub_borrow(self, n: Nibble, cy: Bit) -> (Nibble, Bit)
        ensures sum { result.0 ≡ (self + (15 - n) + (1 - cy)) % 16 }
        ensures carry { result.1 ≡ (self + (15 - n) + (1 - cy)) / 16 }
    {
        let sum = self.value + (15 - n.value) + (1 - cy.get());
        (Nibble::low_of(sum), Bit::low_of(sum / 16))
    }

    /// Returns the nibble with each bit inverted.
    pub fn complement(self) -> Nibble
        ensures { result ≡ 15 - self }
    {
        Nibble {
            value: 15 - self.value,
        }
    }

    /// Returns bit `k`, 0 to 3. Bit 0 is the least significant bit.
    pub fn bit(self, k: u8) -> Bit
        requires { k < 4 }
        ensures { result ≡ bit_of self k }
    {
        Bit::low_of(self.value >> k)
    }
}

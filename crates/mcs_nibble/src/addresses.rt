//! Program memory addresses.
ghost use Rattle.std.specs.Prelude.{◌≡◌, ℕ, ◌+◌, ◌*◌, ◌/◌, ◌%◌, ◌<◌, ◌↔◌, IsSome, IfSome};

use crate::nibbles::Nibble;
use std::marker::Model;

/// A program memory address, 0 to 4095. The upper four bits are the page, which is also the number of the ROM chip.
/// The lower eight bits select a word on that page.
#[derive(Clone, Copy, Debug, Default, PartialEq, Eq, PartialOrd, Ord)]
pub struct Addr {
    value: u16,
}

impl Model for Addr {
    ghost Value = { ℕ };

    ghost view = { λ a. a.value };

    ghost invariant = { λ a. a.value < 4096 };

    ghost inverse = { λ v. record { value = v } };
}

impl Addr {
    /// The first address, 0.
    pub const ZERO: Addr = Addr { value: 0 };

    /// The last address, 4095.
    pub const MAX: Addr = Addr { value: 4095 };

    /// Returns `value` as an address, or `None` if `value` is above 4095.
    pub fn of(value: u16) -> Option<Addr>
        ensures in_range { IsSome result ↔ (value < 4096) }
        ensures value { IfSome result (λ a. a ≡ value) }
    {
        if value < 4096 {
            Some(Addr { value })
        } else {
            None
        }
    }

    /// Returns the address on page `page` whose lower eight bits are `low`.
    pub fn on_page(page: Nibble, low: u8) -> Addr
        ensures { result ≡ 256 * page + low }
    {
        Addr {
            value: u16::from(page.get()) * 256 + u16::from(low),
        }
    }

    /// Returns the address as a number, 0 to 4095.
    pub fn get(self) -> u16
        ensures value { result ≡ self }
        ensures in_range { result < 4096 }
    {
        self.value
    }

    /// Returns the page, 0 to 15, which is also the number of the ROM chip that the address selects.
    pub fn page(self) -> Nibble
        ensures page { result ≡ self / 256 }
        ensures in_range { self / 256 < 16 }
    {
        Nibble::low_of((self.value / 256) as u8)
    }

    /// Returns the lower eight bits of the address, which select a word on the page.
    pub fn low(self) -> u8
        ensures { result ≡ self % 256 }
    {
        (self.value % 256) as u8
    }

    /// Returns the address `n` words later. Address 0 follows address 4095.
    pub fn plus(self, n: u16) -> Addr
        ensures { result ≡ (self + n) % 4096 }
    {
        Addr {
            value: (self.value + n % 4096) % 4096,
        }
    }
}

//! RAM bank numbers and status character numbers.
ghost use Rattle.std.specs.Prelude.{◌≡◌, ℕ, ◌<◌, ◌↔◌, IsSome, IfSome};

use std::marker::Model;

/// A RAM bank number, 0 to 7: the value that DCL loads into the command register.
#[derive(Clone, Copy, Debug, Default, PartialEq, Eq)]
pub struct BankNo {
    value: u8,
}

impl Model for BankNo {
    ghost Value = { ℕ };

    ghost view = { λ n. n.value };

    ghost invariant = { λ n. n.value < 8 };

    ghost inverse = { λ v. record { value = v } };
}

impl BankNo {
    /// Bank 0.
    pub const ZERO: BankNo = BankNo { value: 0 };

    /// Returns `value` as a bank number, or `None` if `value` is above 7.
    pub fn of(value: u8) -> Option<BankNo>
        ensures in_range { IsSome result ↔ (value < 8) }
        ensures value { IfSome result (λ n. n ≡ value) }
    {
        if value < 8 {
            Some(BankNo { value })
        } else {
            None
        }
    }

    /// Returns the bank number, 0 to 7.
    pub fn get(self) -> u8
        ensures value { result ≡ self }
        ensures in_range { result < 8 }
    {
        self.value
    }
}

/// The number of a status character within a RAM register, 0 to 3.
#[derive(Clone, Copy, Debug, Default, PartialEq, Eq)]
pub struct StatusNo {
    value: u8,
}

impl Model for StatusNo {
    ghost Value = { ℕ };

    ghost view = { λ n. n.value };

    ghost invariant = { λ n. n.value < 4 };

    ghost inverse = { λ v. record { value = v } };
}

impl StatusNo {
    /// Status character 0.
    pub const ZERO: StatusNo = StatusNo { value: 0 };

    /// Returns `value` as a status character number, or `None` if `value` is above 3.
    pub fn of(value: u8) -> Option<StatusNo>
        ensures in_range { IsSome result ↔ (value < 4) }
        ensures value { IfSome result (λ n. n ≡ value) }
    {
        if value < 4 {
            Some(StatusNo { value })
        } else {
            None
        }
    }

    /// Returns the status character number, 0 to 3.
    pub fn get(self) -> u8
        ensures value { result ≡ self }
        ensures in_range { result < 4 }
    {
        self.value
    }
}

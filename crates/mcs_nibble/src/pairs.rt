//! Register pair numbers of the 4004.
ghost use Rattle.std.specs.Prelude.{◌≡◌, ℕ, ◌/◌, ◌%◌, ◌<◌, ◌↔◌, IsSome, IfSome};

use std::marker::Model;

/// A register pair number, 0 to 7. Pair `k` consists of the index registers `2 * k` and `2 * k + 1`.
#[derive(Clone, Copy, Debug, Default, PartialEq, Eq)]
pub struct PairNo {
    value: u8,
}

impl Model for PairNo {
    ghost Value = { ℕ };

    ghost view = { λ n. n.value };

    ghost invariant = { λ n. n.value < 8 };

    ghost inverse = { λ v. record { value = v } };
}

impl PairNo {
    /// Pair 0.
    pub const ZERO: PairNo = PairNo { value: 0 };

    /// Returns `value` as a pair number, or `None` if `value` is above 7.
    pub fn of(value: u8) -> Option<PairNo>
        ensures in_range { IsSome result ↔ (value < 8) }
        ensures value { IfSome result (λ n. n ≡ value) }
    {
        if value < 8 {
            Some(PairNo { value })
        } else {
            None
        }
    }

    /// Returns the register pair that bits 1 to 3 of an opcode select.
    pub fn from_opcode(byte: u8) -> PairNo
        ensures { result ≡ byte % 16 / 2 }
    {
        PairNo {
            value: byte % 16 / 2,
        }
    }

    /// Returns the pair number, 0 to 7.
    pub fn get(self) -> u8
        ensures value { result ≡ self }
        ensures in_range { result < 8 }
    {
        self.value
    }
}

//! A reader that consumes bytes from left to right.
ghost use Rattle.std.specs.Prelude.{◌≡◌, ◌==◌, length, option_map, IfSome};
ghost use Rattle.std.specs.Int.{w16, w32};
ghost use Rattle.mcs_codec.specs.Reading.{byte_at, wide_number_at, bytes_at};
ghost use Rattle.mcs_codec.specs.StateReading.{version_at};

use crate::versions::Version;
use std::marker::Model;

/// The bytes that have not been read yet. After a method has returned `None`, they are unspecified.
#[derive(Drop)]
pub struct Reader<'a> {
    rest: &'a [u8],
}

impl<'a> Model for Reader<'a> {
    ghost use Rattle.std.specs.Prelude.{List, ℕ};

    ghost Value = { List ℕ };

    ghost view = { λ r. r.rest.now };
}

impl<'a> Reader<'a> {
    /// Returns a reader of the bytes `rest`.
    pub fn new(rest: &'a [u8]) -> Reader<'a>
        ensures { result ≡ rest.now }
    {
        Reader { rest }
    }

    /// Returns true if no bytes are left.
    pub fn is_empty(&self) -> bool
        ensures { result ≡ (length self.now == 0) }
    {
        self.rest.is_empty()
    }

    /// Reads one byte. Returns `None` if no byte is left.
    pub fn byte(&mut self) -> Option<u8>
        ensures { option_map (λ x. (x, self.new)) result ≡ byte_at self.old }
    {
        let (first, rest) = self.rest.split_first()?;
        self.rest = rest;
        Some(*first)
    }

    /// Reads the version from the next byte, which is 2 in version 2. In version 1, it is a port
    /// character of the board (`i`, `0`, `1` or `-`) and is not consumed. Returns `None` for any
    /// other byte, or if no byte is left.
    #[tactic(auto, unfolding(crate::specs::StateReading::version_at))]
    pub fn version(&mut self) -> Option<Version>
        ensures { option_map (λ x. (x, self.new)) result ≡ version_at self.old }
    {
        let (first, rest) = self.rest.split_first()?;
        match *first {
            b'i' | b'0' | b'1' | b'-' => Some(Version::One),
            2 => {
                self.rest = rest;
                Some(Version::Two)
            }
            _ => None,
        }
    }

    /// Reads a two-byte number, high byte first. Returns `None` if fewer than two bytes are left.
    pub fn number(&mut self) -> Option<u16>
        ensures { option_map (λ x. (x, self.new)) result ≡ wide_number_at w16 self.old }
    {
        if self.rest.len() < 2 {
            return None;
        }
        let (front, rest) = self.rest.split_at(2);
        self.rest = rest;
        Some(u16::from_be_bytes([front[0], front[1]]))
    }

    /// Reads a four-byte number, highest byte first. Returns `None` if fewer than four bytes are
    /// left.
    pub fn number_u32(&mut self) -> Option<u32>
        ensures { option_map (λ x. (x, self.new)) result ≡ wide_number_at w32 self.old }
    {
        if self.rest.len() < 4 {
            return None;
        }
        let (front, rest) = self.rest.split_at(4);
        self.rest = rest;
        Some(u32::from_be_bytes([front[0], front[1], front[2], front[3]]))
    }

    /// Reads `count` bytes. Returns `None` if fewer are left.
    #[tactic(auto, unfolding(crate::specs::Reading::bytes_at))]
    pub fn bytes(&mut self, count: usize) -> Option<&'a [u8]>
        ensures read { option_map (λ x. (x.now, self.new)) result ≡ bytes_at count self.old }
        ensures count { IfSome result (λ bytes. length bytes.now ≡ count) }
    {
        if self.rest.len() < count {
            return None;
        }
        let (front, rest) = self.rest.split_at(count);
        self.rest = rest;
        Some(front)
    }

    /// Fills `cells` with the next bytes. Returns `None` if too few bytes are left.
    #[tactic(auto, unfolding(crate::specs::Reading::bytes_at))]
    pub fn fill(&mut self, cells: &mut [u8]) -> Option<()>
        ensures { option_map (λ _. (cells.new, self.new)) result
            ≡ bytes_at (length cells.old) self.old }
    {
        let bytes = self.bytes(cells.len())?;
        cells.copy_from_slice(bytes);
        Some(())
    }
}

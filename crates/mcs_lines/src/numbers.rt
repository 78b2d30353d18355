//! Parses the numbers in a command line, each with its own range.
ghost use Rattle.std.specs.Prelude.{◌≡◌, is_some};
ghost use Rattle.mcs_model.specs.Numerals.{number_up_to};
ghost use Rattle.mcs_lines.specs.Requests.{is_number};

use mcs_model::numeral::{number, number_within};
use mcs_nibble::{Addr, BankNo, Bit, Nibble, RegNo, StatusNo};

/// Returns true if a word is a number of any size.
pub fn is_number(word: &[u8]) -> bool
    ensures { result ≡ is_number word.now }
{
    number(word).is_some()
}

/// Parses a number from 0 to 255. Returns `None` for any other word.
pub fn byte(word: &[u8]) -> Option<u8>
    ensures { result ≡ number_up_to 255 word.now }
{
    Some(number_within(word, 255)? as u8)
}

/// Parses the number 0 or 1 as a bit. Returns `None` for any other word.
pub fn bit(word: &[u8]) -> Option<Bit>
    ensures { result ≡ number_up_to 1 word.now }
{
    Bit::of(number_within(word, 1)? as u8)
}

/// Parses a number from 0 to 15 as a nibble. Returns `None` for any other word.
pub fn nibble(word: &[u8]) -> Option<Nibble>
    ensures { result ≡ number_up_to 15 word.now }
{
    Nibble::of(number_within(word, 15)? as u8)
}

/// Parses an index register number from 0 to 15. Returns `None` for any other word.
pub fn register(word: &[u8]) -> Option<RegNo>
    ensures { result ≡ number_up_to 15 word.now }
{
    RegNo::of(number_within(word, 15)? as u8)
}

/// Parses a RAM bank number from 0 to 7. Returns `None` for any other word.
pub fn bank(word: &[u8]) -> Option<BankNo>
    ensures { result ≡ number_up_to 7 word.now }
{
    BankNo::of(number_within(word, 7)? as u8)
}

/// Parses a status character number from 0 to 3. Returns `None` for any other word.
pub fn status(word: &[u8]) -> Option<StatusNo>
    ensures { result ≡ number_up_to 3 word.now }
{
    StatusNo::of(number_within(word, 3)? as u8)
}

/// Parses an address from 0 to 4095. Returns `None` for any other word.
pub fn address(word: &[u8]) -> Option<Addr>
    ensures { result ≡ number_up_to 4095 word.now }
{
    Addr::of(number_within(word, 4095)? as u16)
}

//! Parses the names of lines and ports in a board text.
ghost use Rattle.std.specs.Prelude.{◌≡◌};
ghost use Rattle.mcs_wiring.specs.LineNames.{number_below, rom_line_named, ram_line_named, chain_line_named, line_named, masks_named};

use mcs_model::board::Line;
use mcs_model::limits::{BANK_CHIPS, BANKS, CHAIN_BITS, CHAINS, ROMS};
use mcs_nibble::LineMask;

/// Parses one or two decimal digits as a number. Returns none if the text has another form, or if
/// the number has a leading zero or is not below `limit`.
fn number_below(text: &str, limit: u8) -> Option<u8>
    ensures { result ≡ number_below limit text.now }
{
    let n = match text.as_bytes() {
        [d @ b'0'..=b'9'] => *d - b'0',
        [t @ b'1'..=b'9', d @ b'0'..=b'9'] => 10 * (*t - b'0') + (*d - b'0'),
        _ => return None,
    };
    if n < limit { Some(n) } else { None }
}

/// Parses the text after `rom` in a line name: chip number, dot, line number. Returns none if the
/// text has another form or a number is out of range.
fn rom_line_named(text: &str) -> Option<Line>
    ensures { result ≡ rom_line_named text.now }
{
    let (chip, k) = text.split_once('.')?;
    let chip = number_below(chip, ROMS as u8)?;
    let k = number_below(k, 4)?;
    Some(Line::Rom(chip, k))
}

/// Parses the text after `ram` in a line name: bank number, dot, chip number, dot, line number.
/// Returns none if the text has another form or a number is out of range.
fn ram_line_named(text: &str) -> Option<Line>
    ensures { result ≡ ram_line_named text.now }
{
    let (bank, rest) = text.split_once('.')?;
    let (chip, k) = rest.split_once('.')?;
    let bank = number_below(bank, BANKS as u8)?;
    let chip = number_below(chip, BANK_CHIPS)?;
    let k = number_below(k, 4)?;
    Some(Line::Ram(bank, chip, k))
}

/// Parses the text after `chain` in a line name: chain number, dot, bit number. Returns none if the
/// text has another form or a number is out of range.
fn chain_line_named(text: &str) -> Option<Line>
    ensures { result ≡ chain_line_named text.now }
{
    let (n, i) = text.split_once('.')?;
    let n = number_below(n, CHAINS as u8)?;
    let i = number_below(i, CHAIN_BITS)?;
    Some(Line::Chain(n, i))
}

/// Parses a line name: `rom`, `ram` or `chain`, then numbers separated by dots. Returns none if the
/// text is not a line name.
pub(crate) fn line_named(text: &str) -> Option<Line>
    ensures { result ≡ line_named text.now }
{
    if let Some(rest) = text.strip_prefix("rom") {
        return rom_line_named(rest);
    }
    if let Some(rest) = text.strip_prefix("ram") {
        return ram_line_named(rest);
    }
    chain_line_named(text.strip_prefix("chain")?)
}

/// Parses the four characters of a port, line 3 first. Returns the masks, line 0 first, or none if
/// the text is not valid.
pub(crate) fn masks_named(text: &str) -> Option<[LineMask; 4]>
    ensures { result ≡ masks_named text.now }
{
    match text.as_bytes() {
        [c3, c2, c1, c0] => Some([
            LineMask::from_character(*c0)?,
            LineMask::from_character(*c1)?,
            LineMask::from_character(*c2)?,
            LineMask::from_character(*c3)?,
        ]),
        _ => None,
    }
}

//! Parses the arguments of `poke`: a place and the value to write there.
ghost use Rattle.std.specs.Prelude.{◌≡◌, ◌∷◌, [], Some};
ghost use Rattle.mcs_model.specs.declared.command.Command.TheVariants.{Poke};
ghost use Rattle.mcs_lines.specs.declared.requests.Request.TheVariants.{Change};
ghost use Rattle.mcs_lines.specs.Requests.{poke_named, poke_numbered, poke_of, poke_parts, poke_ram, poke_register, poke_rom, poke_status};
ghost use Rattle.mcs_lines.specs.ReadNumbers.{or_bad_number};

use crate::numbers::{address, bank, bit, byte, is_number, nibble, register, status};
use crate::requests::{LineFault, Request, or_bad_number};
use crate::words::{equals, next_part};
use mcs_model::command::{Command, Place};

/// Returns the `poke` request for a place. The place contains the value to write.
fn poke(place: Place) -> Option<Request>
    ensures { result ≡ Some (Change (Poke place)) }
{
    Some(Request::Change(Command::Poke(place)))
}

/// Returns the request that `poke rK VALUE` makes. Returns `None` if K or VALUE is not a number or
/// is out of range.
fn parse_register_poke(k: &[u8], value: &[u8]) -> Option<Request>
    ensures { or_bad_number result ≡ poke_register k.now value.now }
{
    poke(Place::Register(register(k)?, nibble(value)?))
}

/// Returns the request that `poke rom.A VALUE` makes. Returns `None` if A or VALUE is not a number
/// or is out of range.
fn parse_rom_poke(a: &[u8], value: &[u8]) -> Option<Request>
    ensures { or_bad_number result ≡ poke_rom a.now value.now }
{
    poke(Place::Rom(address(a)?, byte(value)?))
}

/// Returns the request that `poke ram.B.S VALUE` makes. Returns `None` if B, S or VALUE is not a
/// number or is out of range.
fn parse_ram_poke(b: &[u8], s: &[u8], value: &[u8]) -> Option<Request>
    ensures { or_bad_number result ≡ poke_ram b.now s.now value.now }
{
    poke(Place::Ram(bank(b)?, byte(s)?, nibble(value)?))
}

/// Returns the request that `poke st.B.H.K VALUE` makes. Returns `None` if B, H, K or VALUE is not
/// a number or is out of range.
fn parse_status_poke(b: &[u8], h: &[u8], k: &[u8], value: &[u8]) -> Option<Request>
    ensures { or_bad_number result ≡ poke_status b.now h.now k.now value.now }
{
    poke(Place::Status(bank(b)?, nibble(h)?, status(k)?, nibble(value)?))
}

/// Parses `poke` with the place `rK`. Rejects any other place with `NotACommand`, and a bad number
/// with `BadNumber`.
fn parse_numbered_poke(name: &[u8], value: &[u8]) -> Request
    ensures { result ≡ poke_numbered name.now value.now }
{
    match name {
        [b'r', k @ ..] if is_number(k) => or_bad_number(parse_register_poke(k, value)),
        _ => Request::Refused(LineFault::NotACommand),
    }
}

/// Parses `poke` with a place that has no dots. Returns `None` if the place is `acc`, `cy`, `pc` or `dcl`, and the
/// value is not a number or is out of range. Returns a refusal for any other error.
fn parse_named_poke(name: &[u8], value: &[u8]) -> Option<Request>
    ensures { or_bad_number result ≡ poke_named name.now value.now }
{
    if equals(name, b"acc") {
        poke(Place::Acc(nibble(value)?))
    } else if equals(name, b"cy") {
        poke(Place::Cy(bit(value)?))
    } else if equals(name, b"pc") {
        poke(Place::Pc(address(value)?))
    } else if equals(name, b"dcl") {
        poke(Place::Dcl(bank(value)?))
    } else {
        Some(parse_numbered_poke(name, value))
    }
}

/// Parses `poke` with a place of two parts, separated by a dot. Rejects any place other than `rom.A` with
/// `NotACommand`, and a bad number with `BadNumber`.
fn parse_two_part_poke(name: &[u8], a: &[u8], value: &[u8]) -> Request
    ensures { result ≡ poke_parts (name.now ∷ a.now ∷ []) value.now }
{
    if equals(name, b"rom") && is_number(a) {
        or_bad_number(parse_rom_poke(a, value))
    } else {
        Request::Refused(LineFault::NotACommand)
    }
}

/// Parses `poke` with a place of three parts, separated by dots. Rejects any place other than `ram.B.S` with
/// `NotACommand`, and a bad number with `BadNumber`.
fn parse_three_part_poke(name: &[u8], b: &[u8], s: &[u8], value: &[u8]) -> Request
    ensures { result ≡ poke_parts (name.now ∷ b.now ∷ s.now ∷ []) value.now }
{
    if equals(name, b"ram") && is_number(b) && is_number(s) {
        or_bad_number(parse_ram_poke(b, s, value))
    } else {
        Request::Refused(LineFault::NotACommand)
    }
}

/// Parses `poke` with a place of four parts, separated by dots. Rejects any place other than `st.B.H.K` with
/// `NotACommand`, and a bad number with `BadNumber`.
fn parse_four_part_poke(name: &[u8], b: &[u8], h: &[u8], k: &[u8], value: &[u8]) -> Request
    ensures { result ≡ poke_parts (name.now ∷ b.now ∷ h.now ∷ k.now ∷ []) value.now }
{
    if equals(name, b"st") && is_number(b) && is_number(h) && is_number(k) {
        or_bad_number(parse_status_poke(b, h, k, value))
    } else {
        Request::Refused(LineFault::NotACommand)
    }
}

/// Parses the arguments of `poke`: a place, and the value to write there. Returns a refusal if the place or the value
/// is not valid.
pub fn parse_poke(place: &[u8], value: &[u8]) -> Request
    ensures { result ≡ poke_of place.now value.now }
{
    let (name, after) = next_part(place);
    let Some(rest) = after else {
        return or_bad_number(parse_named_poke(name, value));
    };
    let (first, after) = next_part(rest);
    let Some(rest) = after else {
        return parse_two_part_poke(name, first, value);
    };
    let (second, after) = next_part(rest);
    let Some(rest) = after else {
        return parse_three_part_poke(name, first, second, value);
    };
    let (third, after) = next_part(rest);
    match after {
        None => parse_four_part_poke(name, first, second, third, value),
        Some(_) => Request::Refused(LineFault::NotACommand),
    }
}

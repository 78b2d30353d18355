//! Compares the last row with the current values of the probes, without building the text of a new row.
ghost use Rattle.std.specs.Prelude.{◌≡◌, ◌<◌, ◌∷◌, ◌++◌, IfSome, codes, map, true};
ghost use Rattle.mcs_model.specs.Command.{machine_of};
ghost use Rattle.mcs_model.specs.Levels.{level};
ghost use Rattle.mcs_model.specs.QueryText.{address_text, digit_text, lamp_mark, comma_list, or_dash};
ghost use Rattle.mcs_probe.specs.Probes.{probe_text, row};

use crate::digits::hex_digit;
use crate::lists::lamp_mark;
use crate::port_levels::{ram_levels, rom_levels};
use mcs_bench::Bench;
use mcs_nibble::{Addr, Bit};
use mcs_probe::Probe;

/// Returns the rest of `text` after its first byte. Returns `None` if this byte is not `byte`, or if `text`
/// is empty.
#[inline(always)]
fn strip_byte(text: &[u8], byte: u8) -> Option<&[u8]>
    ensures { IfSome result (λ rest. text.now ≡ byte ∷ rest.now) }
{
    match text {
        [first, rest @ ..] => { if *first == byte { Some(rest) } else { None } }
        _ => None,
    }
}

/// Returns the rest of `text` after a space and the hexadecimal digit of `digit`. Returns `None` if `text`
/// does not begin with them.
#[inline(always)]
fn strip_digit(text: &[u8], digit: u8) -> Option<&[u8]>
    requires { digit < 16 }
    ensures { IfSome result (λ rest. text.now ≡ codes " " ++ digit_text digit ++ rest.now) }
{
    match text {
        [space, mark, rest @ ..] => {
            if *space == b' ' && *mark == hex_digit(digit) {
                Some(rest)
            } else {
                None
            }
        }
        _ => None,
    }
}

/// Returns the rest of `text` after the byte `byte` and the address `at`. Returns `None` if `text` does not
/// begin with them.
#[inline(always)]
fn strip_address(text: &[u8], byte: u8, at: Addr) -> Option<&[u8]>
    ensures { IfSome result (λ rest. text.now ≡ byte ∷ address_text at ++ rest.now) }
{
    let number = at.get();
    match text {
        [first, high, middle, low, rest @ ..] => {
            if *first == byte
                && *high == hex_digit((number / 256) as u8)
                && *middle == hex_digit((number / 16 % 16) as u8)
                && *low == hex_digit((number % 16) as u8)
            {
                Some(rest)
            } else {
                None
            }
        }
        _ => None,
    }
}

/// Returns the rest of `text` after a space and the three return addresses, separated by commas. Returns
/// `None` if `text` does not begin with them.
fn strip_return_addresses(text: &[u8], ret: [Addr; 3]) -> Option<&[u8]>
    ensures { IfSome result (λ rest. text.now ≡ codes " " ++ comma_list (map address_text ret) ++ rest.now) }
{
    let [first, second, third] = ret;
    let rest = strip_address(text, b' ', first)?;
    let rest = strip_address(rest, b',', second)?;
    strip_address(rest, b',', third)
}

/// Returns the rest of `text` after the marks of the board's lamps. Returns `None` if `text` does not begin
/// with them.
fn strip_marks<'a>(text: &'a [u8], bench: &Bench) -> Option<&'a [u8]>
    ensures { IfSome result (λ rest. text.now
        ≡ map (λ line. lamp_mark (level bench.now.bus line)) bench.now.bus.board.lamps.items ++ rest.now) }
{
    let mut rest = text;
    let lamps = bench.board().parts().lamps.len();
    for i in 0..lamps {
        let level = bench.lamp(i).unwrap_or(Bit::ZERO);
        match strip_byte(rest, lamp_mark(level)) {
            None => {
                return None;
            }
            Some(more) => {
                rest = more;
            }
        }
    }
    Some(rest)
}

/// Returns the rest of `text` after a space and the marks of the board's lamps. Returns `None` if `text` does
/// not begin with them, or if the board has no lamps.
fn strip_lamps<'a>(text: &'a [u8], bench: &Bench) -> Option<&'a [u8]>
    ensures { IfSome result (λ rest. text.now ≡ codes " "
        ++ or_dash (map (λ line. lamp_mark (level bench.now.bus line)) bench.now.bus.board.lamps.items)
        ++ rest.now) }
{
    if bench.board().parts().lamps.is_empty() {
        return None;
    }
    let marks = strip_byte(text, b' ')?;
    strip_marks(marks, bench)
}

/// Returns the rest of `text` after a space and the value of a probe. Returns `None` if `text` does not begin
/// with them, or if the value cannot be compared without building its text.
fn strip_probe<'a>(text: &'a [u8], probe: Probe, bench: &Bench) -> Option<&'a [u8]>
    ensures { IfSome result (λ rest. text.now
        ≡ codes " " ++ probe_text (machine_of bench.now) probe ++ rest.now) }
{
    match probe {
        Probe::Level(line) => strip_digit(text, bench.level(line).get()),
        Probe::RomPort(chip) => strip_digit(text, rom_levels(bench, chip)),
        Probe::RamPort(bank, chip) => strip_digit(text, ram_levels(bench, bank, chip)),
        Probe::Lamps => strip_lamps(text, bench),
        Probe::ReturnAddresses => strip_return_addresses(text, bench.regs().ret),
        _ => None,
    }
}

/// Returns true only if `text` is the current row of the probes. A result of false does not mean that the
/// text differs, because some values cannot be compared without building their text.
pub(crate) fn is_current_row(text: &[u8], probes: &[Probe], bench: &Bench) -> bool
    ensures { result ≡ true → text.now ≡ row probes.now (machine_of bench.now) }
{
    let mut rest = text;
    for probe in probes {
        match strip_probe(rest, *probe, bench) {
            None => {
                return false;
            }
            Some(more) => {
                rest = more;
            }
        }
    }
    rest.is_empty()
}

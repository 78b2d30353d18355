//! Parses the places that a `trace` command lists.
ghost use Rattle.std.specs.Prelude.{◌≡◌, Ok, Err, None, Some, MatchOption, MatchResult};
ghost use Rattle.mcs_lines.specs.ProbeWords.{after_prefix, chain_probe, chain_line_probe, is_bad_number, number_after_prefix, number_after_prefix_if_number_follows, probe_or_bad_number, probe_at, ram_port_or_place_probe, probe_named, probe_of, probe_of_command, probe_of_poke, probe_of_three_parts, probe_of_two_parts, probe_of_whole_word, probes_within, ram_line_probe, ram_port_probe, rom_line_probe, rom_port_probe};
ghost use Rattle.mcs_model.specs.TextLines.{words_of};

use crate::numbers::{bank, is_number, nibble, status};
use crate::places::parse_poke;
use crate::requests::{LineFault, Request};
use crate::words::{equals, next_part, next_word};
use arrayvec::ArrayVec;
use mcs_model::board::Line;
use mcs_model::command::{Command, Place};
use mcs_model::numeral::number_within;
use mcs_probe::{MAX_PROBES, Probe};

/// Returns the probe that reads a place. The value in `place` is ignored.
fn probe_at(place: Place) -> Probe
    ensures { result ≡ probe_at place }
{
    match place {
        Place::Acc(_) => Probe::Acc,
        Place::Cy(_) => Probe::Cy,
        Place::Pc(_) => Probe::Pc,
        Place::Register(k, _) => Probe::Register(k),
        Place::Dcl(_) => Probe::Dcl,
        Place::Rom(at, _) => Probe::Rom(at),
        Place::Ram(bank, src, _) => Probe::Ram(bank, src),
        Place::Status(bank, high, k, _) => Probe::Status(bank, high, k),
    }
}

/// Returns the probe that reads the place to which a `poke` command writes. Returns the error `NotACommand` for any
/// other command.
fn probe_of_command(command: &Command) -> Result<Probe, LineFault>
    ensures { result ≡ probe_of_command command.now }
{
    match command {
        Command::Poke(place) => Ok(probe_at(*place)),
        _ => Err(LineFault::NotACommand),
    }
}

/// Returns the probe of a place that `poke` accepts. Parses the place as the argument of `poke` with the value 0, and
/// returns the error of `poke` if that fails.
fn parse_poke_place(word: &[u8]) -> Result<Probe, LineFault>
    ensures { result ≡ probe_of_poke word.now }
{
    match parse_poke(word, b"0") {
        Request::Change(command) => probe_of_command(&command),
        Request::Refused(fault) => Err(fault),
        _ => Err(LineFault::NotACommand),
    }
}

/// Returns `probe`, or the error `BadNumber` if `probe` is `None`.
fn or_bad_number(probe: Option<Probe>) -> Result<Probe, LineFault>
    ensures { result ≡ probe_or_bad_number probe }
{
    match probe {
        Some(probe) => Ok(probe),
        None => Err(LineFault::BadNumber),
    }
}

/// Returns the probe of line `romC.K` of a ROM. Returns `None` if `C` or `K` is not a number or is out of range.
fn rom_line_probe(c: &[u8], k: &[u8]) -> Option<Probe>
    ensures { result ≡ rom_line_probe c.now k.now }
{
    Some(Probe::Level(Line::Rom(nibble(c)?.get(), status(k)?.get())))
}

/// Returns the probe of line `ramB.C.K` of a RAM chip. Returns `None` if `B`, `C` or `K` is not a number or is out of
/// range.
fn ram_line_probe(b: &[u8], c: &[u8], k: &[u8]) -> Option<Probe>
    ensures { result ≡ ram_line_probe b.now c.now k.now }
{
    let bank = bank(b)?.get();
    Some(Probe::Level(Line::Ram(bank, status(c)?.get(), status(k)?.get())))
}

/// Returns the probe of bit `chainN.I` of a chain. Returns `None` if `N` or `I` is not a number or is out of range.
fn chain_line_probe(n: &[u8], i: &[u8]) -> Option<Probe>
    ensures { result ≡ chain_line_probe n.now i.now }
{
    let n = status(n)?.get();
    Some(Probe::Level(Line::Chain(n, number_within(i, 79)? as u8)))
}

/// Returns the probe of `romC`, the port of a ROM. Returns `None` if `C` is not a number or is out of range.
fn rom_port_probe(c: &[u8]) -> Option<Probe>
    ensures { result ≡ rom_port_probe c.now }
{
    Some(Probe::RomPort(nibble(c)?.get()))
}

/// Returns the probe of `ramB.C`, the port of a RAM chip. Returns `None` if `B` or `C` is not a number or is out of
/// range.
fn ram_port_probe(b: &[u8], c: &[u8]) -> Option<Probe>
    ensures { result ≡ ram_port_probe b.now c.now }
{
    Some(Probe::RamPort(bank(b)?.get(), status(c)?.get()))
}

/// Returns the probe of `chainN`, all bits of a chain. Returns `None` if `N` is not a number or is out of range.
fn chain_probe(n: &[u8]) -> Option<Probe>
    ensures { result ≡ chain_probe n.now }
{
    Some(Probe::Chain(status(n)?.get()))
}

/// Returns the bytes of `name` after the prefix `start`, or `None` if `name` does not have that prefix.
fn after_prefix<'a>(start: &[u8], name: &'a [u8]) -> Option<&'a [u8]>
    ensures { MatchOption result (after_prefix start.now name.now ≡ None)
        (λ rest. after_prefix start.now name.now ≡ Some rest.now) }
{
    let [p, start @ ..] = start else {
        return Some(name);
    };
    let [b, name @ ..] = name else {
        return None;
    };
    if *b == *p {
        after_prefix(start, name)
    } else {
        None
    }
}

/// Returns the number that follows the prefix `start` in `name`. Returns `None` if `name` does not consist of that
/// prefix and a number.
fn number_after_prefix<'a>(start: &[u8], name: &'a [u8]) -> Option<&'a [u8]>
    ensures { MatchOption result (number_after_prefix start.now name.now ≡ None)
        (λ n. number_after_prefix start.now name.now ≡ Some n.now) }
{
    let n = after_prefix(start, name)?;
    if is_number(n) { Some(n) } else { None }
}

/// Returns the number that follows the prefix `start` in `name`, if a later part of the word, `k`, is also a number.
/// Returns `None` if `k` is not a number, or if `name` does not consist of that prefix and a number.
fn number_after_prefix_if_number_follows<'a>(
    start: &[u8],
    name: &'a [u8],
    k: &[u8],
) -> Option<&'a [u8]>
    ensures { MatchOption result (number_after_prefix_if_number_follows start.now name.now k.now ≡ None)
        (λ n. number_after_prefix_if_number_follows start.now name.now k.now ≡ Some n.now) }
{
    if is_number(k) {
        number_after_prefix(start, name)
    } else {
        None
    }
}

/// Returns the probe of a word that is `romC`, `chainN` or a place that `poke` accepts. Returns an error for any other
/// word.
fn parse_named_probe(word: &[u8]) -> Result<Probe, LineFault>
    ensures { result ≡ probe_named word.now }
{
    if let Some(c) = number_after_prefix(b"rom", word) {
        return or_bad_number(rom_port_probe(c));
    }
    if let Some(n) = number_after_prefix(b"chain", word) {
        return or_bad_number(chain_probe(n));
    }
    parse_poke_place(word)
}

/// Returns the probe of a word that has no dot, or more than two dots. Returns an error if the word is not a place.
fn parse_whole_probe(word: &[u8]) -> Result<Probe, LineFault>
    ensures { result ≡ probe_of_whole_word word.now }
{
    if equals(word, b"lamps") {
        Ok(Probe::Lamps)
    } else if equals(word, b"ret") {
        Ok(Probe::ReturnAddresses)
    } else if equals(word, b"src") {
        Ok(Probe::Src)
    } else {
        parse_named_probe(word)
    }
}

/// Returns the probe of a word with one dot that is `ramB.C` or a place that `poke` accepts. Returns an error for any
/// other word.
fn parse_ram_port_or_place(word: &[u8], name: &[u8], c: &[u8]) -> Result<Probe, LineFault>
    ensures { result ≡ ram_port_or_place_probe word.now name.now c.now }
{
    if let Some(b) = number_after_prefix_if_number_follows(b"ram", name, c) {
        return or_bad_number(ram_port_probe(b, c));
    }
    parse_poke_place(word)
}

/// Returns the probe of a word with one dot: `romC.K`, `chainN.I`, `ramB.C` or a place that `poke` accepts. Returns an
/// error for any other word.
fn parse_two_part_probe(word: &[u8], name: &[u8], k: &[u8]) -> Result<Probe, LineFault>
    ensures { result ≡ probe_of_two_parts word.now name.now k.now }
{
    if let Some(c) = number_after_prefix_if_number_follows(b"rom", name, k) {
        return or_bad_number(rom_line_probe(c, k));
    }
    if let Some(n) = number_after_prefix_if_number_follows(b"chain", name, k) {
        return or_bad_number(chain_line_probe(n, k));
    }
    parse_ram_port_or_place(word, name, k)
}

/// Returns the probe of a word with two dots: `ramB.C.K` or a place that `poke` accepts. Returns an error for any other
/// word.
fn parse_three_part_probe(word: &[u8], name: &[u8], c: &[u8], k: &[u8]) -> Result<Probe, LineFault>
    ensures { result ≡ probe_of_three_parts word.now name.now c.now k.now }
{
    if let Some(b) = number_after_prefix_if_number_follows(b"ram", name, k) {
        if is_number(c) {
            return or_bad_number(ram_line_probe(b, c, k));
        }
    }
    parse_poke_place(word)
}

/// Returns the probe of the place that a word names. Returns the error `NotACommand` if the word is not a place, or
/// `BadNumber` if a number in the place is out of range.
fn parse_probe(word: &[u8]) -> Result<Probe, LineFault>
    ensures { result ≡ probe_of word.now }
{
    let (name, after) = next_part(word);
    let Some(rest) = after else {
        return parse_whole_probe(word);
    };
    let (first, after) = next_part(rest);
    let Some(rest) = after else {
        return parse_two_part_probe(word, name, first);
    };
    let (second, after) = next_part(rest);
    match after {
        None => parse_three_part_probe(word, name, first, second),
        Some(_) => parse_whole_probe(word),
    }
}

/// Returns true if an error is `BadNumber`. All other errors take precedence over `BadNumber`.
fn is_bad_number(fault: LineFault) -> bool
    ensures { result ≡ is_bad_number fault }
{
    match fault {
        LineFault::BadNumber => true,
        LineFault::NotACommand | LineFault::LineTooLong | LineFault::NotAscii => false,
    }
}

/// Parses the words of a line as places. Returns `NotACommand` if a word is not a place, or if there are more than
/// [`MAX_PROBES`] words. Otherwise, returns `BadNumber` if a number in a place is out of range.
pub(crate) fn parse_probes(line: &[u8]) -> Result<ArrayVec<Probe, MAX_PROBES>, LineFault>
    ensures { MatchResult result
        (λ probes. probes_within MAX_PROBES (words_of line.now) ≡ Ok probes.items)
        (λ fault. probes_within MAX_PROBES (words_of line.now) ≡ Err fault) }
{
    let mut probes = ArrayVec::new();
    let mut room = MAX_PROBES;
    let mut has_bad_number = false;
    let mut unparsed = line;
    while let Some((word, later_words)) = next_word(unparsed) {
        if room == 0 {
            return Err(LineFault::NotACommand);
        }
        room -= 1;
        match parse_probe(word) {
            Ok(probe) => probes.push(probe),
            Err(fault) => {
                if is_bad_number(fault) {
                    has_bad_number = true;
                } else {
                    return Err(fault);
                }
            }
        }
        unparsed = later_words;
    }
    if has_bad_number {
        return Err(LineFault::BadNumber);
    }
    Ok(probes)
}

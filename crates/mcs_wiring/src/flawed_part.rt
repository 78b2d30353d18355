//! Locates the part of a board text that has an error.
ghost use Rattle.std.specs.Prelude.{◌≡◌, ◌<◌, ◌^◌, [], not, find, is_none, length, map, codes, option_and_then, option_map, slice_index, IfSome, Err};
ghost use Rattle.std.specs.List.{list_any};
ghost use Rattle.std.specs.Option.{option_copied};
ghost use Rattle.toml.specs.Data.{as_str, get_member};
ghost use Rattle.toml.specs.View.{view, table_view};
ghost use Rattle.mcs_model.specs.Boards.{chain_bits, is_on_board, is_input_line, is_output_line, rom_masks};
ghost use Rattle.mcs_wiring.specs.Flaws.{IsWithinLimits};
ghost use Rattle.mcs_wiring.specs.Format.{is_board_key, sections};
ghost use Rattle.mcs_wiring.specs.LineNames.{masks_named};
ghost use Rattle.mcs_wiring.specs.Wiring.{keys_of, has_value_that_is_not_array, board_of_table};
ghost use Rattle.mcs_wiring.specs.Parts.{part_at_key, part_at_section, part_at_table, first_unknown_table_key, first_missing_key, first_bad_key, first_flawed_key, first_flawed_from, first_flawed_in, flawed_part, unknown_key_part, bad_value_part, excess_part, first_repeated_from, double_part_in, is_wrong, wrong_key, wrong_chain_from, wrong_lamp_from, wrong_column_of, missing_rows_of, missing_line_part, wrong_direction_part, part_of};
ghost use Rattle.mcs_wiring.specs.PartView.{part_view, IsPartsError};

use crate::fault::WiringFault;
use crate::names::masks_named;
use crate::parts::{has_bad_columns, rams, roms};
use crate::reading::{column_count, has_flaw, has_number, has_value_that_is_not_array, parts_in};
use crate::sections::{Flaw, Numbered, Section, is_board_key};
use crate::values::{count_at, lacks, line_at, member, number_at, values_at};
use mcs_model::board::{BoardParts, ChainPart, Line};
use mcs_model::limits::{
    BANK_CHIPS, BANKS, CHAIN_BITS, CHAIN_CHIPS, CHAINS, KEY_COLUMNS, KEY_ROWS, LAMPS, ROMS,
};
use mcs_nibble::LineMask;
use toml::{Table, Value};

/// A location in a board text: a top-level key, the value at a section's key, or one of the
/// section's tables. A location in a table can also include one of the table's keys.
#[derive(Clone, Copy)]
pub(crate) struct Part<'a> {
    /// The section, or none for a top-level key.
    pub(crate) section: Option<Section>,
    /// The number of the table within its section, from 1. None for the key matrix, or if the
    /// location is not a table.
    pub(crate) number: Option<usize>,
    /// The key: the top-level key if there is no section, otherwise a key of the table.
    pub(crate) key: Option<&'a str>,
}

fn part_at_key<'a>(key: &'a str) -> Part<'a>
    ensures { part_view result ≡ part_at_key key.now }
{
    Part {
        section: None,
        number: None,
        key: Some(key),
    }
}

fn part_at_section<'a>(section: Section) -> Part<'a>
    ensures { part_view result ≡ part_at_section section }
{
    Part {
        section: Some(section),
        number: None,
        key: None,
    }
}

/// Returns the part for one table of a section. If `key` is given, the part is this key of the
/// table. `index` is the index of the table in its section, from 0.
fn part_at_table<'a>(section: Section, index: usize, key: Option<&'a str>) -> Part<'a>
    requires { index < 2 ^ 63 }
    ensures { part_view result ≡ part_at_table section index (option_copied key.entry) }
{
    let number = match section {
        Section::Keys => None,
        Section::Rom | Section::Ram | Section::Chain | Section::Lamp => Some(index + 1),
    };
    Part {
        section: Some(section),
        number,
        key,
    }
}

// ---- errors 21, 22 and 23: an unknown key, a missing key, a bad value

/// Returns the first key of a table that its section does not allow, or none if the section allows
/// all keys.
#[tactic(auto, using(crate::proofs::TomlViews::keys_in_view))]
fn first_unknown_table_key<'a>(section: Section, table: &'a Table) -> Option<&'a str>
    ensures { option_copied result ≡ first_unknown_table_key section (table_view table.now) }
{
    for key in table.keys() {
        if !section.has_key(key.as_str()) {
            return Some(key.as_str());
        }
    }
    None
}

/// Returns the first required key that a table of a section lacks, or none if the table has all
/// required keys.
fn first_missing_key<'a>(section: Section, table: &Table) -> Option<&'a str>
    ensures { option_copied result ≡ first_missing_key section (table_view table.now) }
{
    match section {
        Section::Rom => {
            if lacks(table, "chip") {
                return Some("chip");
            }
            if lacks(table, "port") {
                return Some("port");
            }
        }
        Section::Ram => {
            if lacks(table, "bank") {
                return Some("bank");
            }
            if lacks(table, "chips") {
                return Some("chips");
            }
        }
        Section::Chain => {
            if lacks(table, "clock") {
                return Some("clock");
            }
            if lacks(table, "data") {
                return Some("data");
            }
            if lacks(table, "chips") {
                return Some("chips");
            }
        }
        Section::Keys => {
            if lacks(table, "chain") {
                return Some("chain");
            }
            if lacks(table, "first") {
                return Some("first");
            }
            if lacks(table, "rows") {
                return Some("rows");
            }
            if lacks(table, "columns") {
                return Some("columns");
            }
        }
        Section::Lamp => {
            if lacks(table, "line") {
                return Some("line");
            }
        }
    }
    None
}

fn has_bad_port(table: &Table) -> bool
    ensures { result ≡ is_none (option_and_then masks_named (option_and_then as_str (get_member (codes "port") (table_view table.now)))) }
{
    match member(table, "port") {
        Some(Value::String(text)) => masks_named(text.as_str()).is_none(),
        _ => true,
    }
}

/// Returns the first key of a section's table whose value is missing, has the wrong type or form,
/// or is out of range. Returns none if there is no such key.
fn first_bad_key<'a>(section: Section, table: &Table) -> Option<&'a str>
    ensures { option_copied result ≡ first_bad_key section (table_view table.now) }
{
    match section {
        Section::Rom => {
            if number_at(table, "chip", 0, ROMS as u8 - 1).is_none() {
                return Some("chip");
            }
            if has_bad_port(table) {
                return Some("port");
            }
        }
        Section::Ram => {
            if number_at(table, "bank", 0, BANKS as u8 - 1).is_none() {
                return Some("bank");
            }
            if number_at(table, "chips", 1, BANK_CHIPS).is_none() {
                return Some("chips");
            }
        }
        Section::Chain => {
            if line_at(table, "clock").is_none() {
                return Some("clock");
            }
            if line_at(table, "data").is_none() {
                return Some("data");
            }
            if number_at(table, "chips", 1, CHAIN_CHIPS).is_none() {
                return Some("chips");
            }
        }
        Section::Keys => {
            if number_at(table, "chain", 0, CHAINS as u8 - 1).is_none() {
                return Some("chain");
            }
            if number_at(table, "first", 0, CHAIN_BITS - 1).is_none() {
                return Some("first");
            }
            if number_at(table, "rows", 1, KEY_ROWS).is_none() {
                return Some("rows");
            }
            if has_bad_columns(table) {
                return Some("columns");
            }
        }
        Section::Lamp => {
            if line_at(table, "line").is_none() {
                return Some("line");
            }
        }
    }
    None
}

/// Returns the first key to which the flaw applies in a section entry. Returns none if the entry is
/// not a table.
fn first_flawed_key<'a>(flaw: Flaw, section: Section, value: &'a Value) -> Option<&'a str>
    ensures { option_copied result ≡ first_flawed_key flaw section (view value.now) }
{
    let Value::Table(table) = value else {
        return None;
    };
    match flaw {
        Flaw::UnknownKey => first_unknown_table_key(section, table),
        Flaw::MissingKey => first_missing_key(section, table),
        Flaw::BadValue => first_bad_key(section, table),
    }
}

/// Returns the part for the first array element that has the flaw, or none.
#[tactic(auto, using(crate::proofs::PartLists::first_flawed_from_index))]
fn first_flawed_value<'a>(flaw: Flaw, section: Section, values: &'a [Value]) -> Option<Part<'a>>
    ensures { option_map part_view result ≡ first_flawed_from flaw section 0 (map view values.now) }
{
    for i in 0..values.len() {
        if has_flaw(flaw, section, &values[i]) {
            return Some(part_at_table(section, i, first_flawed_key(flaw, section, &values[i])));
        }
    }
    None
}

/// Returns the part for the first entry of a section that has the flaw, or none.
fn first_flawed_in<'a>(flaw: Flaw, table: &'a Table, section: Section) -> Option<Part<'a>>
    ensures { option_map part_view result ≡ first_flawed_in flaw (table_view table.now) section }
{
    match section {
        Section::Keys => {
            let value = member(table, "keys")?;
            if has_flaw(flaw, section, value) {
                Some(part_at_table(section, 0, first_flawed_key(flaw, section, value)))
            } else {
                None
            }
        }
        Section::Rom | Section::Ram | Section::Chain | Section::Lamp => {
            first_flawed_value(flaw, section, values_at(table, section.key()))
        }
    }
}

/// Returns the part for the first entry that has the flaw, or none. Searches the sections in the
/// order ROM, RAM, chain, keys, lamp.
fn flawed_part<'a>(flaw: Flaw, table: &'a Table) -> Option<Part<'a>>
    ensures { option_map part_view result ≡ flawed_part flaw (table_view table.now) }
{
    if let Some(part) = first_flawed_in(flaw, table, Section::Rom) {
        return Some(part);
    }
    if let Some(part) = first_flawed_in(flaw, table, Section::Ram) {
        return Some(part);
    }
    if let Some(part) = first_flawed_in(flaw, table, Section::Chain) {
        return Some(part);
    }
    if let Some(part) = first_flawed_in(flaw, table, Section::Keys) {
        return Some(part);
    }
    first_flawed_in(flaw, table, Section::Lamp)
}

/// Returns the first unknown top-level key, or none.
#[tactic(auto, using(crate::proofs::TomlViews::keys_in_view))]
fn first_unknown_board_key(table: &Table) -> Option<&str>
    ensures { option_copied result ≡ find (λ key. not (is_board_key key)) (keys_of (table_view table.now)) }
{
    for key in table.keys() {
        if !is_board_key(key.as_str()) {
            return Some(key.as_str());
        }
    }
    None
}

fn unknown_key_part<'a>(table: &'a Table) -> Option<Part<'a>>
    ensures { option_map part_view result ≡ unknown_key_part (table_view table.now) }
{
    match first_unknown_board_key(table) {
        Some(key) => Some(part_at_key(key)),
        None => flawed_part(Flaw::UnknownKey, table),
    }
}

/// Returns the first section that requires an array but whose key has a value that is not an array.
/// Returns none if there is no such section.
fn section_without_array(table: &Table) -> Option<Section>
    ensures { result ≡ find (has_value_that_is_not_array (table_view table.now)) sections }
{
    if has_value_that_is_not_array(table, Section::Rom) {
        return Some(Section::Rom);
    }
    if has_value_that_is_not_array(table, Section::Ram) {
        return Some(Section::Ram);
    }
    if has_value_that_is_not_array(table, Section::Chain) {
        return Some(Section::Chain);
    }
    if has_value_that_is_not_array(table, Section::Keys) {
        return Some(Section::Keys);
    }
    if has_value_that_is_not_array(table, Section::Lamp) {
        return Some(Section::Lamp);
    }
    None
}

/// Returns the part for the first section that requires an array but has a value that is not an
/// array. If there is no such section, returns the part for the first entry with a bad value.
fn bad_value_part<'a>(table: &'a Table) -> Option<Part<'a>>
    ensures { option_map part_view result ≡ bad_value_part (table_view table.now) }
{
    match section_without_array(table) {
        Some(section) => Some(part_at_section(section)),
        None => flawed_part(Flaw::BadValue, table),
    }
}

// ---- errors 27 and 24: too many parts, two parts with the same number

fn excess_part<'a>(table: &Table) -> Option<Part<'a>>
    ensures { option_map part_view result ≡ excess_part (table_view table.now) }
{
    if count_at(table, "rom") > ROMS {
        return Some(part_at_table(Section::Rom, ROMS, None));
    }
    if count_at(table, "ram") > BANKS {
        return Some(part_at_table(Section::Ram, BANKS, None));
    }
    if count_at(table, "chain") > CHAINS {
        return Some(part_at_table(Section::Chain, CHAINS, None));
    }
    if column_count(table) > KEY_COLUMNS {
        return Some(part_at_table(Section::Keys, 0, Some("columns")));
    }
    if count_at(table, "lamp") > LAMPS {
        return Some(part_at_table(Section::Lamp, LAMPS, None));
    }
    None
}

/// Returns the index of the first part that has the same number as an earlier part, or none.
#[tactic(auto, using(crate::proofs::PartLists::first_repeated_from_index))]
fn first_repeated<T: Copy>(parts: &[Numbered<T>]) -> Option<usize>
    ensures same { result ≡ first_repeated_from [] 0 parts.now }
    ensures within { IfSome result (λ i. i < length parts.now) }
{
    for i in 0..parts.len() {
        if has_number(&parts[..i], parts[i].number) {
            return Some(i);
        }
    }
    None
}

fn double_chip_part<'a>(
    roms: &[Numbered<Option<[LineMask; 4]>>],
    rams: &[Numbered<u8>],
) -> Option<Part<'a>>
    ensures { option_map part_view result ≡ double_part_in roms.now rams.now }
{
    if let Some(i) = first_repeated(roms) {
        return Some(part_at_table(Section::Rom, i, Some("chip")));
    }
    if let Some(i) = first_repeated(rams) {
        return Some(part_at_table(Section::Ram, i, Some("bank")));
    }
    None
}

// ---- errors 25 and 26: a line that the board lacks, a line of the wrong direction

/// An error in the use of a line.
#[derive(Clone, Copy)]
pub(crate) enum LineFlaw {
    /// The board does not have the line.
    Missing,
    /// The line is not an output line of the board.
    NotOutput,
    /// The line is not an input line of the board.
    NotInput,
    /// The line is an input line of the board, but an input line is not allowed.
    Input,
}

/// Returns the masks of a ROM's four port lines, or none if the board lacks that ROM.
fn rom_masks(parts: &BoardParts, chip: u8) -> Option<[LineMask; 4]>
    ensures { result ≡ rom_masks parts.now chip }
{
    match parts.roms.get(usize::from(chip)) {
        Some(masks) => *masks,
        None => None,
    }
}

fn bank_chips(parts: &BoardParts, bank: u8) -> u8
    ensures { result ≡ slice_index parts.now.banks bank }
{
    match parts.banks.get(usize::from(bank)) {
        Some(chips) => *chips,
        None => 0,
    }
}

fn chain_bits(parts: &BoardParts, n: u8) -> u16
    ensures { result ≡ chain_bits parts.now n }
{
    match parts.chains.get(usize::from(n)) {
        Some(chain) => chain.bits(),
        None => 0,
    }
}

fn has_line(parts: &BoardParts, line: Line) -> bool
    ensures { result ≡ is_on_board parts.now line }
{
    match line {
        Line::Rom(chip, k) => rom_masks(parts, chip).is_some() && k < 4,
        Line::Ram(bank, chip, k) => chip < bank_chips(parts, bank) && k < 4,
        Line::Chain(n, i) => u16::from(i) < chain_bits(parts, n),
    }
}

fn is_input(parts: &BoardParts, line: Line) -> bool
    ensures { result ≡ is_input_line parts.now line }
{
    match line {
        Line::Rom(chip, k) => match rom_masks(parts, chip) {
            Some(mask) => k < 4 && mask[usize::from(k)] == LineMask::Input,
            None => false,
        },
        Line::Ram(_, _, _) | Line::Chain(_, _) => false,
    }
}

fn is_output(parts: &BoardParts, line: Line) -> bool
    ensures { result ≡ is_output_line parts.now line }
{
    match line {
        Line::Rom(_, _) => has_line(parts, line) && !is_input(parts, line),
        Line::Ram(_, _, _) => has_line(parts, line),
        Line::Chain(_, _) => false,
    }
}

fn is_wrong(flaw: LineFlaw, parts: &BoardParts, line: Line) -> bool
    ensures { result ≡ is_wrong flaw parts.now line }
{
    match flaw {
        LineFlaw::Missing => !has_line(parts, line),
        LineFlaw::NotOutput => !is_output(parts, line),
        LineFlaw::NotInput => !is_input(parts, line),
        LineFlaw::Input => is_input(parts, line),
    }
}

/// Returns the first key of a chain, `clock` or `data`, whose line has the error, or none.
fn wrong_key<'a>(flaw: LineFlaw, parts: &BoardParts, chain: ChainPart) -> Option<&'a str>
    ensures { option_copied result ≡ wrong_key flaw parts.now chain }
{
    if is_wrong(flaw, parts, chain.clock) {
        return Some("clock");
    }
    if is_wrong(flaw, parts, chain.data_in) {
        return Some("data");
    }
    None
}

/// Returns the part for the first chain with a line that has the error, or none.
#[tactic(auto, using(crate::proofs::PartLists::wrong_chain_from_index))]
fn wrong_chain<'a>(flaw: LineFlaw, parts: &BoardParts) -> Option<Part<'a>>
    ensures { option_map part_view result ≡ wrong_chain_from flaw parts.now 0 parts.now.chains.items }
{
    let chains = parts.chains.as_slice();
    for i in 0..chains.len() {
        if let Some(key) = wrong_key(flaw, parts, chains[i]) {
            return Some(part_at_table(Section::Chain, i, Some(key)));
        }
    }
    None
}

fn has_wrong_line(flaw: LineFlaw, parts: &BoardParts, lines: &[Line]) -> bool
    ensures { result ≡ list_any (is_wrong flaw parts.now) lines.now }
{
    lines.iter().any(|line| is_wrong(flaw, parts, *line))
}

/// Returns the part for the key matrix if one of its columns has the error, otherwise none.
fn wrong_column<'a>(flaw: LineFlaw, parts: &BoardParts) -> Option<Part<'a>>
    ensures { option_map part_view result ≡ wrong_column_of flaw parts.now parts.now.keys }
{
    let Some(keys) = &parts.keys else {
        return None;
    };
    if has_wrong_line(flaw, parts, keys.columns.as_slice()) {
        return Some(part_at_table(Section::Keys, 0, Some("columns")));
    }
    None
}

/// Returns the part for the first lamp whose line has the error, or none.
#[tactic(auto, using(crate::proofs::PartLists::wrong_lamp_from_index))]
fn wrong_lamp<'a>(flaw: LineFlaw, parts: &BoardParts) -> Option<Part<'a>>
    ensures { option_map part_view result ≡ wrong_lamp_from flaw parts.now 0 parts.now.lamps.items }
{
    let lamps = parts.lamps.as_slice();
    for i in 0..lamps.len() {
        if is_wrong(flaw, parts, lamps[i]) {
            return Some(part_at_table(Section::Lamp, i, Some("line")));
        }
    }
    None
}

/// Returns the part for the key matrix if the board lacks the chain of the matrix or a chain bit
/// for one of its rows. Otherwise returns none.
fn missing_rows<'a>(parts: &BoardParts) -> Option<Part<'a>>
    ensures { option_map part_view result ≡ missing_rows_of parts.now parts.now.keys }
{
    let Some(keys) = &parts.keys else {
        return None;
    };
    if usize::from(keys.chain) >= parts.chains.len() {
        return Some(part_at_table(Section::Keys, 0, Some("chain")));
    }
    if u16::from(keys.first) + u16::from(keys.rows) > chain_bits(parts, keys.chain) {
        return Some(part_at_table(Section::Keys, 0, Some("rows")));
    }
    None
}

fn missing_line_part<'a>(parts: &BoardParts) -> Option<Part<'a>>
    ensures { option_map part_view result ≡ missing_line_part parts.now }
{
    if let Some(part) = wrong_chain(LineFlaw::Missing, parts) {
        return Some(part);
    }
    if let Some(part) = missing_rows(parts) {
        return Some(part);
    }
    if let Some(part) = wrong_column(LineFlaw::Missing, parts) {
        return Some(part);
    }
    wrong_lamp(LineFlaw::Missing, parts)
}

fn wrong_direction_part<'a>(parts: &BoardParts) -> Option<Part<'a>>
    ensures { option_map part_view result ≡ wrong_direction_part parts.now }
{
    if let Some(part) = wrong_chain(LineFlaw::NotOutput, parts) {
        return Some(part);
    }
    if let Some(part) = wrong_column(LineFlaw::NotInput, parts) {
        return Some(part);
    }
    wrong_lamp(LineFlaw::Input, parts)
}

/// Returns the part that has the error `fault`, which must be `DoubleChip`, `NoSuchLine` or
/// `WrongDirection`. These errors can involve several tables.
fn part_with_parts_error<'a>(fault: WiringFault, table: &Table) -> Option<Part<'a>>
    requires within { IsWithinLimits (table_view table.now) }
    requires kind { IsPartsError fault }
    ensures { option_map part_view result ≡ part_of fault (table_view table.now) }
{
    let roms = roms(values_at(table, "rom"));
    let rams = rams(values_at(table, "ram"));
    match fault {
        WiringFault::DoubleChip => double_chip_part(&roms, &rams),
        WiringFault::NoSuchLine => missing_line_part(&parts_in(table, &roms, &rams)),
        WiringFault::WrongDirection => wrong_direction_part(&parts_in(table, &roms, &rams)),
        _ => None,
    }
}

/// Returns the first part with the given error in a board's table. Returns none for `BadToml` and
/// `NoMemory`, which have no location.
pub(crate) fn part_of<'a>(fault: WiringFault, table: &'a Table) -> Option<Part<'a>>
    requires { board_of_table (table_view table.now) ≡ Err fault }
    ensures { option_map part_view result ≡ part_of fault (table_view table.now) }
{
    match fault {
        WiringFault::UnknownKey => unknown_key_part(table),
        WiringFault::MissingKey => flawed_part(Flaw::MissingKey, table),
        WiringFault::BadValue => bad_value_part(table),
        WiringFault::TooManyParts => excess_part(table),
        WiringFault::DoubleChip | WiringFault::NoSuchLine | WiringFault::WrongDirection => {
            part_with_parts_error(fault, table)
        }
        WiringFault::BadToml | WiringFault::NoMemory => None,
    }
}

//! Builds a board from its TOML text, or finds the first error in the text.
ghost use Rattle.std.specs.Prelude.{◌≡◌, ◌==◌, ◌≤◌, ◌||◌, not, false, length, option_and_then, option_map, string_bytes, Err};
ghost use Rattle.std.specs.List.{list_any};
ghost use Rattle.std.specs.BTreeMap.{keys};
ghost use Rattle.toml.specs.Errors.{IsBlank};
ghost use Rattle.toml.specs.View.{view, table_view};
ghost use Rattle.mcs_nibble.specs.Tables.{table_of};
ghost use Rattle.mcs_model.specs.Boards.{board_fault_of};
ghost use Rattle.mcs_wiring.specs.Format.{sections, section_key, table_keys, is_board_key, is_table_key};
ghost use Rattle.mcs_wiring.specs.Wiring.{has_unknown_key, has_missing_key, has_malformed_value, has_too_many, has_double, entry_has_unknown_key, lacks_required_key, entry_lacks_key, is_malformed, has_value_that_is_not_array, values_at, section_values, any_section_entry, column_values, keys_table, matrix_in, roms_of, rams_of, parts_in, part_at, board_of_table, board_of_text, ReadsBoard};
ghost use Rattle.mcs_wiring.specs.Flaws.{has_flaw, board_or_error, board_within_limits, IsWithinLimits};

use crate::fault::WiringFault;
use crate::parts::{
    chain, chains, has_bad_columns, has_bad_numbers, lamp, lamps, matrix, ram, rams, rom, roms,
};
use crate::sections::{Flaw, Numbered, Section, is_board_key};
use crate::values::{count_at, is_not_array_at, lacks, member, values_at};
use mcs_model::board::{Board, BoardParts, KeyMatrix};
use mcs_model::limits::{BANKS, CHAINS, KEY_COLUMNS, LAMPS, ROMS};
use mcs_nibble::LineMask;
use std::alloc::Global;
use toml::{Table, Value};

/// Returns true if the table has an unknown top-level key.
fn has_unknown_board_key(table: &Table) -> bool
    ensures { result ≡ list_any (λ key. not (is_board_key (string_bytes key))) (keys table.now) }
{
    table.keys().any(|key| !is_board_key(key.as_str()))
}

/// Returns true if a table of the section has a key that the section does not allow.
fn has_unknown_table_key(section: Section, table: &Table) -> bool
    ensures { result
        ≡ list_any (λ key. not (is_table_key section (string_bytes key))) (keys table.now) }
{
    table.keys().any(|key| !section.has_key(key.as_str()))
}

/// Returns true if a section entry is a table with a key that the section does not allow.
fn entry_has_unknown_key(section: Section, value: &Value) -> bool
    ensures { result ≡ entry_has_unknown_key section (view value.now) }
{
    match value {
        Value::Table(table) => has_unknown_table_key(section, table),
        _ => false,
    }
}

/// Returns true if a table lacks a required key of the section.
fn lacks_required_key(section: Section, table: &Table) -> bool
    ensures { result ≡ lacks_required_key (table_keys section) (table_view table.now) }
{
    match section {
        Section::Rom => lacks(table, "chip") || lacks(table, "port"),
        Section::Ram => lacks(table, "bank") || lacks(table, "chips"),
        Section::Chain => lacks(table, "clock") || lacks(table, "data") || lacks(table, "chips"),
        Section::Keys => {
            lacks(table, "chain")
                || lacks(table, "first")
                || lacks(table, "rows")
                || lacks(table, "columns")
        }
        Section::Lamp => lacks(table, "line"),
    }
}

/// Returns true if a section entry is a table that lacks a required key of the section.
fn entry_lacks_key(section: Section, value: &Value) -> bool
    ensures { result ≡ entry_lacks_key section (view value.now) }
{
    match value {
        Value::Table(table) => lacks_required_key(section, table),
        _ => false,
    }
}

/// Returns true if a value does not describe a key matrix.
fn is_malformed_matrix(value: &Value) -> bool
    ensures { result ≡ is_malformed Section.Keys (view value.now) }
{
    match value {
        Value::Table(table) => has_bad_numbers(table) || has_bad_columns(table),
        _ => true,
    }
}

/// Returns true if a section entry does not describe a part of the section's kind.
fn is_malformed(section: Section, value: &Value) -> bool
    ensures { result ≡ is_malformed section (view value.now) }
{
    match section {
        Section::Rom => rom(value).is_none(),
        Section::Ram => ram(value).is_none(),
        Section::Chain => chain(value).is_none(),
        Section::Keys => is_malformed_matrix(value),
        Section::Lamp => lamp(value).is_none(),
    }
}

/// Returns true if a section entry has the flaw.
pub(crate) fn has_flaw(flaw: Flaw, section: Section, value: &Value) -> bool
    ensures { result ≡ has_flaw flaw section (view value.now) }
{
    match flaw {
        Flaw::UnknownKey => entry_has_unknown_key(section, value),
        Flaw::MissingKey => entry_lacks_key(section, value),
        Flaw::BadValue => is_malformed(section, value),
    }
}

/// Returns true if an element of the array has the flaw.
fn any_has_flaw(flaw: Flaw, section: Section, values: &[Value]) -> bool
    ensures { result ≡ list_any (λ v. has_flaw flaw section (view v)) values.now }
{
    values.iter().any(|value| has_flaw(flaw, section, value))
}

/// Returns true if an element of the array at a section's key has the flaw, and false if there is
/// no array.
fn has_flaw_in_array(flaw: Flaw, table: &Table, section: Section) -> bool
    ensures { result ≡ list_any (has_flaw flaw section)
        (values_at (section_key section) (table_view table.now)) }
{
    any_has_flaw(flaw, section, values_at(table, section.key()))
}

/// Returns true if an entry of the section has the flaw.
fn has_flaw_in(flaw: Flaw, table: &Table, section: Section) -> bool
    ensures { result ≡ list_any (has_flaw flaw section)
        (section_values section (table_view table.now)) }
{
    match section {
        Section::Keys => match member(table, "keys") {
            Some(value) => has_flaw(flaw, section, value),
            None => false,
        },
        Section::Rom | Section::Ram | Section::Chain | Section::Lamp => {
            has_flaw_in_array(flaw, table, section)
        }
    }
}

/// Returns true if an entry of any section has the flaw.
fn has_flaw_anywhere(flaw: Flaw, table: &Table) -> bool
    ensures { result ≡ any_section_entry (has_flaw flaw) (table_view table.now) }
{
    Section::ALL
        .iter()
        .any(|section| has_flaw_in(flaw, table, *section))
}

/// Returns true if a key is unknown, at the top level or in a table of a section.
fn has_unknown_key(table: &Table) -> bool
    ensures { result ≡ has_unknown_key (table_view table.now) }
{
    has_unknown_board_key(table) || has_flaw_anywhere(Flaw::UnknownKey, table)
}

/// Returns true if a table of a section lacks a required key.
fn has_missing_key(table: &Table) -> bool
    ensures { result ≡ has_missing_key (table_view table.now) }
{
    has_flaw_anywhere(Flaw::MissingKey, table)
}

/// Returns true if the section requires an array and its key has a value that is not an array.
pub(crate) fn has_value_that_is_not_array(table: &Table, section: Section) -> bool
    ensures { result ≡ has_value_that_is_not_array (table_view table.now) section }
{
    match section {
        Section::Keys => false,
        Section::Rom | Section::Ram | Section::Chain | Section::Lamp => {
            is_not_array_at(table, section.key())
        }
    }
}

fn any_section_has_value_that_is_not_array(table: &Table) -> bool
    ensures { result ≡ list_any (has_value_that_is_not_array (table_view table.now)) sections }
{
    Section::ALL
        .iter()
        .any(|section| has_value_that_is_not_array(table, *section))
}

/// Returns true if a value in the text has the wrong type or form, a number is out of range, or the key matrix has no
/// columns.
fn has_malformed_value(table: &Table) -> bool
    ensures { result ≡ has_malformed_value (table_view table.now) }
{
    any_section_has_value_that_is_not_array(table) || has_flaw_anywhere(Flaw::BadValue, table)
}

/// Returns the table at the key `keys`, or none if the key is missing or its value is not a table.
fn keys_table(table: &Table) -> Option<&Table>
    ensures { option_map (λ t. table_view t.now) result ≡ keys_table (table_view table.now) }
{
    member(table, "keys")?.as_table()
}

/// Returns the number of elements in the `columns` array of the key matrix, or 0 if there is no
/// such array.
pub(crate) fn column_count(table: &Table) -> usize
    ensures { result ≡ length (column_values (table_view table.now)) }
{
    match keys_table(table) {
        Some(keys) => count_at(keys, "columns"),
        None => 0,
    }
}

/// Returns true if there are more parts of one kind, or more key columns, than a board can have.
fn has_too_many(table: &Table) -> bool
    ensures { result ≡ has_too_many (table_view table.now) }
{
    if count_at(table, "rom") > ROMS {
        return true;
    }
    if count_at(table, "ram") > BANKS {
        return true;
    }
    if count_at(table, "chain") > CHAINS {
        return true;
    }
    if column_count(table) > KEY_COLUMNS {
        return true;
    }
    count_at(table, "lamp") > LAMPS
}

/// Returns true if one of the parts has the given number.
pub(crate) fn has_number<T: Copy>(parts: &[Numbered<T>], number: u8) -> bool
    ensures { result ≡ list_any (λ q. q.number == number) parts.now }
{
    parts.iter().any(|part| part.number == number)
}

/// Returns true if two parts have the same number.
#[tactic(auto, using(crate::proofs::TomlViews::has_double_from_index))]
fn has_double<T: Copy>(parts: &[Numbered<T>]) -> bool
    ensures { result ≡ has_double parts.now }
{
    for i in 0..parts.len() {
        if has_number(&parts[i + 1..], parts[i].number) {
            return true;
        }
    }
    false
}

/// Returns the field `part` of the first entry with the given number, or `none` if no entry has the
/// number.
#[tactic(auto, using(crate::proofs::TomlViews::part_at_from_index))]
fn part_at<T: Copy>(parts: &[Numbered<T>], none: T, number: u8) -> T
    ensures { result ≡ part_at none parts.now number }
{
    for part in parts {
        if part.number == number {
            return part.part;
        }
    }
    none
}

/// Returns an array with one element for each number from 0 to `N` - 1. The element is the field
/// `part` of the first entry with that number, or `none` if no entry has the number.
fn parts_by_number<T: Copy, const N: usize>(parts: &[Numbered<T>], none: T) -> [T; N]
    requires { N ≤ 256 }
    ensures { result ≡ table_of N (part_at none parts.now) }
{
    let mut parts_by_number = [none; N];
    for i in 0..N {
        parts_by_number[i] = part_at(parts, none, i as u8);
    }
    parts_by_number
}

/// Returns the key matrix that the table of a board text describes. Returns none if there is no
/// table at the key `keys`, or if one of the matrix's numbers is invalid.
fn matrix_of(table: &Table) -> Option<KeyMatrix>
    requires { length (column_values (table_view table.now)) ≤ KEY_COLUMNS }
    ensures { result ≡ option_and_then matrix_in (keys_table (table_view table.now)) }
{
    matrix(keys_table(table)?)
}

/// Returns the parts of the board that a table describes. `roms` and `rams` are the ROMs and RAM
/// banks of the table.
#[tactic(auto, using(crate::proofs::TomlViews::length_of_views))]
pub(crate) fn parts_in(
    table: &Table,
    roms: &[Numbered<Option<[LineMask; 4]>>],
    rams: &[Numbered<u8>],
) -> BoardParts
    requires within { IsWithinLimits (table_view table.now) }
    requires roms { roms.now ≡ roms_of (table_view table.now) }
    requires rams { rams.now ≡ rams_of (table_view table.now) }
    ensures { result ≡ parts_in (table_view table.now) }
{
    BoardParts {
        roms: parts_by_number(roms, None),
        banks: parts_by_number(rams, 0),
        chains: chains(values_at(table, "chain")),
        keys: matrix_of(table),
        lamps: lamps(values_at(table, "lamp")),
    }
}

/// Returns the board with the given parts, or the first error in the parts.
fn board_of_parts(parts: BoardParts) -> Result<Board, WiringFault>
    ensures { result ≡ board_or_error parts (board_fault_of parts) }
{
    Ok(Board::of(parts)?)
}

/// Returns the board that a table describes, or the error `DoubleChip`, `NoSuchLine` or
/// `WrongDirection`. The table must have no malformed value, and no more parts of one kind or key columns than a board
/// can have.
#[tactic(auto, using(crate::proofs::TomlViews::length_of_views))]
fn board_within_limits(table: &Table) -> Result<Board, WiringFault>
    requires no_bad_value { has_malformed_value (table_view table.now) ≡ false }
    requires within { IsWithinLimits (table_view table.now) }
    ensures { result ≡ board_within_limits (table_view table.now) }
{
    let roms = roms(values_at(table, "rom"));
    let rams = rams(values_at(table, "ram"));
    if has_double(&roms) || has_double(&rams) {
        return Err(WiringFault::DoubleChip);
    }
    board_of_parts(parts_in(table, &roms, &rams))
}

/// Returns the board that a table describes, or the first error that applies to the table.
#[tactic(auto, using(crate::proofs::Limits::within_limits_if_not_too_many), unfolding(crate::specs::Wiring::board_of_table))]
pub(crate) fn board_of_table(table: &Table) -> Result<Board, WiringFault>
    ensures { result ≡ board_of_table (table_view table.now) }
{
    if has_unknown_key(table) {
        return Err(WiringFault::UnknownKey);
    }
    if has_missing_key(table) {
        return Err(WiringFault::MissingKey);
    }
    if has_malformed_value(table) {
        return Err(WiringFault::BadValue);
    }
    if has_too_many(table) {
        return Err(WiringFault::TooManyParts);
    }
    board_within_limits(table)
}

/// Parses the TOML text of a board. Returns the first error that applies to the text, or `NoMemory`
/// if allocation fails.
pub fn board_of(alloc: Global, text: &str) -> Result<Board, WiringFault>
    ensures answers { ReadsBoard result (board_of_text text.now) }

    // A text that contains only white space and comments never gives `NoMemory`.
    ensures memory { result ≡ Err WiringFault.NoMemory → ¬ IsBlank text.now }
{
    match toml::table_from_str(alloc, text) {
        Ok(table) => board_of_table(&table),
        Err(e) if e.is_memory() => Err(WiringFault::NoMemory),
        Err(_) => Err(WiringFault::BadToml),
    }
}

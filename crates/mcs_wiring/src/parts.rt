//! Extracts the parts of a board from the tables of a board text.
ghost use Rattle.std.specs.Prelude.{◌≡◌, ◌≤◌, ◌||◌, codes, map, is_none, length};
ghost use Rattle.std.specs.List.{filter_map, list_any};
ghost use Rattle.toml.specs.View.{view, table_view};
ghost use Rattle.mcs_wiring.specs.Wiring.{part_of, values_at, rom_in, ram_in, chain_in, matrix_in, lamp_in, line_in, names_no_line, has_bad_columns};

use crate::names::masks_named;
use crate::sections::Numbered;
use crate::values::{line_at, line_in, member, number_at, values_at};
use arrayvec::ArrayVec;
use mcs_model::board::{ChainPart, KeyMatrix, Line};
use mcs_model::limits::{
    BANK_CHIPS, BANKS, CHAIN_BITS, CHAIN_CHIPS, CHAINS, KEY_COLUMNS, KEY_ROWS, LAMPS, ROMS,
};
use mcs_nibble::LineMask;
use toml::{Table, Value};

/// Returns the ROM that a value describes, or none if the value does not describe a ROM.
pub(crate) fn rom(value: &Value) -> Option<Numbered<Option<[LineMask; 4]>>>
    ensures { result ≡ part_of rom_in (view value.now) }
{
    let table = value.as_table()?;
    let chip = number_at(table, "chip", 0, ROMS as u8 - 1)?;
    let masks = masks_named(member(table, "port")?.as_str()?)?;
    Some(Numbered {
        number: chip,
        part: Some(masks),
    })
}

/// Returns the RAM bank that a value describes, or none if the value does not describe a bank.
pub(crate) fn ram(value: &Value) -> Option<Numbered<u8>>
    ensures { result ≡ part_of ram_in (view value.now) }
{
    let table = value.as_table()?;
    let bank = number_at(table, "bank", 0, BANKS as u8 - 1)?;
    let chips = number_at(table, "chips", 1, BANK_CHIPS)?;
    Some(Numbered {
        number: bank,
        part: chips,
    })
}

/// Returns the chain that a value describes, or none if the value does not describe a chain.
pub(crate) fn chain(value: &Value) -> Option<ChainPart>
    ensures { result ≡ part_of chain_in (view value.now) }
{
    let table = value.as_table()?;
    let clock = line_at(table, "clock")?;
    let data_in = line_at(table, "data")?;
    let chips = number_at(table, "chips", 1, CHAIN_CHIPS)?;
    Some(ChainPart {
        clock,
        data_in,
        chips,
    })
}

/// Returns the line of the lamp that a value describes, or none if the value does not describe a
/// lamp.
pub(crate) fn lamp(value: &Value) -> Option<Line>
    ensures { result ≡ part_of lamp_in (view value.now) }
{
    line_at(value.as_table()?, "line")
}

/// Returns true if a value does not name a line.
pub(crate) fn names_no_line(value: &Value) -> bool
    ensures { result ≡ names_no_line (view value.now) }
{
    line_in(value).is_none()
}

/// Returns true if at least one of the values does not name a line.
fn any_names_no_line(values: &[Value]) -> bool
    ensures { result ≡ list_any (λ v. names_no_line (view v)) values.now }
{
    values.iter().any(|value| names_no_line(value))
}

/// Returns true if the value at `columns` in a key matrix's table is missing, is not an array, is
/// empty, or has an element that does not name a line.
pub(crate) fn has_bad_columns(table: &Table) -> bool
    ensures { result ≡ has_bad_columns (table_view table.now) }
{
    let columns = values_at(table, "columns");
    columns.is_empty() || any_names_no_line(columns)
}

/// Returns true if a number of a key matrix is missing, is not an integer, or is out of range.
pub(crate) fn has_bad_numbers(table: &Table) -> bool
    ensures { result ≡ is_none (matrix_in (table_view table.now)) }
{
    if number_at(table, "chain", 0, CHAINS as u8 - 1).is_none() {
        return true;
    }
    if number_at(table, "first", 0, CHAIN_BITS - 1).is_none() {
        return true;
    }
    number_at(table, "rows", 1, KEY_ROWS).is_none()
}

/// Returns the key matrix that a table describes, or none if one of its numbers is missing, is not
/// an integer, or is out of range. Columns that do not name a line are skipped.
pub(crate) fn matrix(table: &Table) -> Option<KeyMatrix>
    requires { length (values_at (codes "columns") (table_view table.now)) ≤ KEY_COLUMNS }
    ensures { result ≡ matrix_in (table_view table.now) }
{
    let chain = number_at(table, "chain", 0, CHAINS as u8 - 1)?;
    let first = number_at(table, "first", 0, CHAIN_BITS - 1)?;
    let rows = number_at(table, "rows", 1, KEY_ROWS)?;
    Some(KeyMatrix {
        chain,
        first,
        rows,
        columns: columns(values_at(table, "columns")),
    })
}

/// Returns the lines that the values name. Values that do not name a line are skipped.
fn columns(values: &[Value]) -> ArrayVec<Line, KEY_COLUMNS>
    requires { length values.now ≤ KEY_COLUMNS }
    ensures { result.items ≡ filter_map line_in (map view values.now) }
{
    let mut columns = ArrayVec::new();
    for value in values {
        if let Some(line) = line_in(value) {
            columns.push(line);
        }
    }
    columns
}

/// Returns the ROMs that the values describe. Values that do not describe a ROM are skipped.
pub(crate) fn roms(values: &[Value]) -> ArrayVec<Numbered<Option<[LineMask; 4]>>, ROMS>
    requires { length values.now ≤ ROMS }
    ensures { result.items ≡ filter_map (part_of rom_in) (map view values.now) }
{
    let mut roms = ArrayVec::new();
    for value in values {
        if let Some(rom) = rom(value) {
            roms.push(rom);
        }
    }
    roms
}

/// Returns the RAM banks that the values describe. Values that do not describe a bank are skipped.
pub(crate) fn rams(values: &[Value]) -> ArrayVec<Numbered<u8>, BANKS>
    requires { length values.now ≤ BANKS }
    ensures { result.items ≡ filter_map (part_of ram_in) (map view values.now) }
{
    let mut rams = ArrayVec::new();
    for value in values {
        if let Some(ram) = ram(value) {
            rams.push(ram);
        }
    }
    rams
}

/// Returns the chains that the values describe. Values that do not describe a chain are skipped.
pub(crate) fn chains(values: &[Value]) -> ArrayVec<ChainPart, CHAINS>
    requires { length values.now ≤ CHAINS }
    ensures { result.items ≡ filter_map (part_of chain_in) (map view values.now) }
{
    let mut chains = ArrayVec::new();
    for value in values {
        if let Some(chain) = chain(value) {
            chains.push(chain);
        }
    }
    chains
}

/// Returns the lines of the lamps that the values describe. Values that do not describe a lamp are
/// skipped.
pub(crate) fn lamps(values: &[Value]) -> ArrayVec<Line, LAMPS>
    requires { length values.now ≤ LAMPS }
    ensures { result.items ≡ filter_map (part_of lamp_in) (map view values.now) }
{
    let mut lamps = ArrayVec::new();
    for value in values {
        if let Some(line) = lamp(value) {
            lamps.push(line);
        }
    }
    lamps
}

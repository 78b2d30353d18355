//! Reads values from the table of a board text.
ghost use Rattle.std.specs.Prelude.{◌≡◌, option_map, map, is_none, length};
ghost use Rattle.toml.specs.Data.{get_member};
ghost use Rattle.toml.specs.View.{view, table_view};
ghost use Rattle.mcs_wiring.specs.Wiring.{values_at, number_at, line_in, line_at, is_not_array};

use crate::names::line_named;
use mcs_model::board::Line;
use toml::{Table, Value};

/// Returns the value at a key, or none if the table lacks the key.
pub(crate) fn member<'a>(table: &'a Table, key: &str) -> Option<&'a Value>
    ensures { option_map (λ v. view v.now) result ≡ get_member key.now (table_view table.now) }
{
    table.get(key)
}

/// Returns true if a table lacks a key.
pub(crate) fn lacks(table: &Table, key: &str) -> bool
    ensures { result ≡ is_none (get_member key.now (table_view table.now)) }
{
    member(table, key).is_none()
}

/// Returns the elements of the array at a key, or an empty slice if there is no array.
pub(crate) fn values_at<'a>(table: &'a Table, key: &str) -> &'a [Value]
    ensures { map view result.now ≡ values_at key.now (table_view table.now) }
{
    match member(table, key) {
        Some(Value::Array(values)) => values,
        _ => &[],
    }
}

/// Returns the integer at a key, or none if there is no integer at the key or it is not in the
/// range `least` to `most`.
pub(crate) fn number_at(table: &Table, key: &str, least: u8, most: u8) -> Option<u8>
    ensures { result ≡ number_at key.now least most (table_view table.now) }
{
    let number = member(table, key)?.as_integer()?;
    match u8::try_from(number) {
        Ok(number) if least <= number && number <= most => Some(number),
        _ => None,
    }
}

/// Returns the line that a value names, or none if the value is not the name of a line.
pub(crate) fn line_in(value: &Value) -> Option<Line>
    ensures { result ≡ line_in (view value.now) }
{
    line_named(value.as_str()?)
}

/// Returns the line that the value at a key names, or none if the value is missing or is not the
/// name of a line.
pub(crate) fn line_at(table: &Table, key: &str) -> Option<Line>
    ensures { result ≡ line_at key.now (table_view table.now) }
{
    line_in(member(table, key)?)
}

/// Returns true if a key has a value that is not an array.
pub(crate) fn is_not_array_at(table: &Table, key: &str) -> bool
    ensures { result ≡ is_not_array (get_member key.now (table_view table.now)) }
{
    match member(table, key) {
        None | Some(Value::Array(_)) => false,
        Some(_) => true,
    }
}

/// Returns the number of elements of the array at a key, or 0 if there is no array.
pub(crate) fn count_at(table: &Table, key: &str) -> usize
    ensures { result ≡ length (values_at key.now (table_view table.now)) }
{
    values_at(table, key).len()
}

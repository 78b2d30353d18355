//! Traits and functions that write values one after another to a buffer, or read them from bytes.
ghost use Rattle.std.specs.Prelude.{◌≡◌, ℕ, ◌+◌, ◌≤◌, ◌<◌, ◌∷◌, ◌++◌, List, [], length, take, option_map, Option, Some, None, if◌then◌else◌};
ghost use Rattle.std.specs.List.{flat_map};
ghost use Rattle.mcs_codec.specs.Reading.{number_below_at, read_times, counted_at};
ghost use Rattle.mcs_codec.specs.BoardBytes.{counted_bytes as counted_text};

use crate::reader::Reader;
use arrayvec::ArrayVec;
use mcs_nibble::{Addr, Bit, Nibble};

/// A type whose values each have one encoding.
pub trait Encode {
    /// The bytes that encode a value.
    ghost spelling: { Self → List ℕ };

    /// Writes the value to `out` at offset `at` and returns the offset after it.
    fn put(&self, out: &mut [u8], at: usize) -> usize
        requires { at + length (spelling self.now) ≤ length out.old }
        ensures end { result ≡ at + length (spelling self.now) }
        ensures front { take result out.new ≡ take at out.old ++ spelling self.now };
}

/// A type whose values can be read from the start of a sequence of bytes.
pub trait Decode: Sized + Drop {
    /// The value at the start of the bytes, and the bytes after it, or `None` if the bytes do not
    /// start with the encoding of a value.
    ghost reading: { List ℕ → Option (Self × List ℕ) };

    /// Reads a value and consumes its bytes. Returns `None` if the reader's bytes do not start with
    /// the encoding of a value.
    fn read(reader: &mut Reader<'_>) -> Option<Self>
        ensures { option_map (λ x. (x, reader.new)) result ≡ reading reader.old };
}

/// Writes `bytes` to `out` at offset `at` and returns the offset after them.
pub fn put(out: &mut [u8], at: usize, bytes: &[u8]) -> usize
    requires { at + length bytes.now ≤ length out.old }
    ensures end { result ≡ at + length bytes.now }
    ensures front { take result out.new ≡ take at out.old ++ bytes.now }
{
    let end = at + bytes.len();
    out[at..end].copy_from_slice(bytes);
    end
}

/// Writes the values in order to `out` at offset `at` and returns the offset after them.
pub fn put_all<T: Encode>(items: &[T], out: &mut [u8], at: usize) -> usize
    requires { at + length (flat_map T.spelling items.now) ≤ length out.old }
    ensures end { result ≡ at + length (flat_map T.spelling items.now) }
    ensures front { take result out.new ≡ take at out.old ++ flat_map T.spelling items.now }
{
    let mut end = at;
    for item in items {
        end = item.put(out, end);
    }
    end
}

/// Reads a value into each element of `items`. Returns `None` if the bytes do not encode enough
/// values.
pub fn read_into<T: Decode>(reader: &mut Reader<'_>, items: &mut [T]) -> Option<()>
    ensures { option_map (λ _. (items.new, reader.new)) result
        ≡ read_times (length items.old) T.reading reader.old }
{
    for i in 0..items.len() {
        items[i] = T::read(reader)?;
    }
    Some(())
}

/// Reads `count` values. Returns `None` if the bytes do not encode `count` values.
pub fn read_list<T: Decode + Default, const CAP: usize>(
    reader: &mut Reader<'_>,
    count: usize,
) -> Option<ArrayVec<T, CAP>>
    requires { count ≤ CAP }
    ensures { option_map (λ v. (v.items, reader.new)) result ≡ read_times count T.reading reader.old }
{
    let mut items = ArrayVec::new();
    for _ in 0..count {
        items.push(T::read(reader)?);
    }
    Some(items)
}

impl Decode for Nibble {
    ghost reading = { number_below_at 16 };

    fn read(reader: &mut Reader<'_>) -> Option<Nibble> {
        let value = reader.byte()?;
        Nibble::of(value)
    }
}

impl Decode for Bit {
    ghost reading = { number_below_at 2 };

    fn read(reader: &mut Reader<'_>) -> Option<Bit> {
        let value = reader.byte()?;
        Bit::of(value)
    }
}

impl Encode for Addr {
    ghost use Rattle.mcs_codec.specs.CommandBytes.{address_bytes};

    ghost spelling = { address_bytes };

    fn put(&self, out: &mut [u8], at: usize) -> usize {
        put(out, at, &self.get().to_be_bytes())
    }
}

impl Decode for Addr {
    ghost use Rattle.mcs_codec.specs.Reading.{address_at};

    ghost reading = { address_at };

    fn read(reader: &mut Reader<'_>) -> Option<Addr> {
        let value = reader.number()?;
        Addr::of(value)
    }
}

/// Reads a one-byte count and then that many values. Returns `None` if the count is above `CAP` or
/// the bytes do not encode the values.
#[tactic(auto, unfolding(crate::specs::Reading::counted_at))]
pub fn read_counted<T: Decode + Default, const CAP: usize>(
    reader: &mut Reader<'_>,
) -> Option<ArrayVec<T, CAP>>
    ensures { option_map (λ v. (v.items, reader.new)) result ≡ counted_at CAP T.reading reader.old }
{
    let count = usize::from(reader.byte()?);
    if count <= CAP {
        read_list(reader, count)
    } else {
        None
    }
}

/// Writes the number of values as one byte, and then the values, to `out` at offset `at`. Returns
/// the offset after them.
pub fn put_counted<T: Encode>(items: &[T], out: &mut [u8], at: usize) -> usize
    requires few { length items.now < 256 }
    requires room { at + length (counted_text T.spelling items.now) ≤ length out.old }
    ensures end { result ≡ at + length (counted_text T.spelling items.now) }
    ensures front { take result out.new ≡ take at out.old ++ counted_text T.spelling items.now }
{
    let at = put(out, at, &[items.len() as u8]);
    put_all(items, out, at)
}

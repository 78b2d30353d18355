//! The encoding of an image: one mark bit for each address, and then the bytes of the image. A mark
//! is 1 if the image has a byte at the address.
ghost use Rattle.std.specs.Prelude.{◌≡◌, ℕ, ◌+◌, ◌*◌, ◌≤◌, ◌<◌, ◌∷◌, ◌++◌, List, [], length, take, map, slice_index, option_map, IfOk};
ghost use Rattle.mcs_nibble.specs.Tables.{table_of};
ghost use Rattle.mcs_codec.specs.CommandBytes.{mark, byte_of_bits, mark_bytes, image_values, image_bytes};
ghost use Rattle.mcs_codec.specs.CommandReading.{mark_bit, addressed_bytes_at, image_at};

use crate::encoding::{Encode, put, put_all};
use crate::reader::Reader;
use mcs_model::image::Image;
use mcs_nibble::{Addr, Bit};
use std::alloc::{AllocError, Global};

/// The number of ROM addresses.
const ADDRESSES: usize = 4096;

/// The size of an image's marks, in bytes: one bit for each address.
const MARK_BYTES: usize = 512;

/// An address and the byte of an image at that address.
type AddressedByte = (Addr, u8);

/// Returns one mark for each address: 1 if the image has a byte at the address, and 0 otherwise.
fn marks_of(image: &[AddressedByte]) -> [Bit; ADDRESSES]
    ensures { (at : ℕ) → at < 4096 → slice_index result at ≡ mark image.now at }
{
    let mut marks = [Bit::ZERO; ADDRESSES];
    for pair in image {
        marks[usize::from(pair.0.get())] = Bit::ONE;
    }
    marks
}

/// Returns a byte with the marks of eight consecutive addresses. The first address is `at`, and its
/// mark is the lowest bit.
fn mark_byte(marks: &[Bit], at: usize) -> u8
    requires { at + 8 ≤ length marks.now }
    ensures { result ≡ byte_of_bits (λ k. slice_index marks.now (at + k)) }
{
    let low = marks[at].get() + 2 * marks[at + 1].get() + 4 * marks[at + 2].get();
    let middle = 8 * marks[at + 3].get() + 16 * marks[at + 4].get();
    let high = 32 * marks[at + 5].get() + 64 * marks[at + 6].get() + 128 * marks[at + 7].get();
    low + middle + high
}

/// Returns the marks of an image's addresses, packed eight to a byte.
fn packed_marks(image: &[AddressedByte]) -> [u8; MARK_BYTES]
    ensures { result ≡ mark_bytes image.now }
{
    let marks = marks_of(image);
    let mut packed = [0; MARK_BYTES];
    for i in 0..MARK_BYTES {
        packed[i] = mark_byte(&marks, 8 * i);
    }
    packed
}

impl Encode for AddressedByte {
    ghost spelling = { λ pair. pair.1 ∷ [] };

    fn put(&self, out: &mut [u8], at: usize) -> usize {
        put(out, at, &[self.1])
    }
}

/// Writes the bytes of an image in ascending order of address. Returns the offset after them.
fn put_values(image: &[AddressedByte], out: &mut [u8], at: usize) -> usize
    requires { at + length (image_values image.now) ≤ length out.old }
    ensures end { result ≡ at + length (image_values image.now) }
    ensures front { take result out.new ≡ take at out.old ++ image_values image.now }
{
    put_all(image, out, at)
}

/// Writes an image to `out` at offset `at` and returns the offset after it.
pub fn put_image(image: &Image, out: &mut [u8], at: usize) -> usize
    requires { at + length (image_bytes image.now) ≤ length out.old }
    ensures end { result ≡ at + length (image_bytes image.now) }
    ensures front { take result out.new ≡ take at out.old ++ image_bytes image.now }
{
    let pairs = image.pairs();
    let at = put(out, at, &packed_marks(pairs));
    put_values(pairs, out, at)
}

/// Returns the mark of an address, 0 or 1, from the packed marks.
#[tactic(auto, unfolding(crate::specs::CommandReading::mark_bit))]
fn mark_bit(marks: &[u8], at: u16) -> u8
    requires marks { length marks.now ≡ 512 }
    requires at { at < 4096 }
    ensures { result ≡ mark_bit marks.now at }
{
    marks[usize::from(at / 8)] >> (at % 8) & 1
}

/// Reads one byte for each marked address, in ascending order of address. Returns `None` if too few
/// bytes are left. Fails if memory runs out.
fn read_addressed_bytes(
    alloc: Global,
    reader: &mut Reader<'_>,
    marks: &[u8],
) -> Result<Option<Image>, AllocError>
    requires { length marks.now ≡ 512 }
    ensures { IfOk result (λ found.
        option_map (λ x. (x, reader.new)) found ≡ addressed_bytes_at marks.now 4096 0 reader.old) }
{
    let mut image = Image::new(alloc)?;
    for at in 0..4096 {
        if mark_bit(marks, at) != 1 {
            continue;
        }
        let Some(byte) = reader.byte() else {
            return Ok(None);
        };
        image.push(Addr::ZERO.plus(at), byte)?;
    }
    Ok(Some(image))
}

/// Reads an image: the marks of its addresses, and then its bytes. Returns `None` if too few bytes
/// are left. Fails if memory runs out.
#[tactic(auto, unfolding(crate::specs::CommandReading::image_at))]
pub fn read_image(alloc: Global, reader: &mut Reader<'_>) -> Result<Option<Image>, AllocError>
    ensures { IfOk result (λ found. option_map (λ x. (x, reader.new)) found ≡ image_at reader.old) }
{
    match reader.bytes(MARK_BYTES) {
        Some(marks) => read_addressed_bytes(alloc, reader, marks),
        None => Ok(None),
    }
}

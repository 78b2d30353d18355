//! The 4003 shift register: ten bits for each chip. Chips connected in series form a chain, which is one sequence of
//! bits.
//!
//! A chain stores ten bits in each word, because a chip has ten bits. A shift processes the chain word by word.
#![tactic(auto)]

ghost use Rattle.std.specs.Prelude.{◌≡◌, ◌≢◌, ℕ, ◌+◌, ◌*◌, ◌/◌, ◌%◌, ◌<◌, ◌≤◌, All, length, replicate, slice_index, slice_get, slice_set};
ghost use Rattle.mcs_nibble.specs.Bits.{bit_of};
ghost use Rattle.mcs_shift4003.specs.Packing.{packed_bit, bit_after_shift, IsPacked};
ghost use Rattle.mcs_nibble.specs.Shifting.{bits_after_shift};

use arrayvec::ArrayVec;
use mcs_nibble::Bit;
use std::marker::Model;

/// The number of chain bits in a word, which is the number of bits in a 4003.
const WORD_BITS: usize = 10;

/// A shift-register chain of 4003s (MCS-4 Users Manual): a sequence of at most `MAX` bits. Bit 0 is the bit that was
/// shifted in last. The outputs are always enabled.
#[derive(Drop)]
pub struct Chain<const MAX: usize> {
    bits: usize,
    // Bit `i` of the chain is bit `i % 10` of word `i / 10`. Word bits past the end of the chain are 0.
    words: ArrayVec<u16, MAX>,
}

impl<const MAX: usize> Model for Chain<MAX> {
    ghost use Rattle.std.specs.Prelude.{List, ℕ, ◌≤◌};
    ghost use Rattle.mcs_shift4003.specs.Packing.{chain_bits_of, IsPacked};

    ghost Value = { List ℕ };

    ghost view = { λ c. chain_bits_of c.bits c.words.items };

    ghost invariant = { λ c. record { fits : c.bits ≤ MAX; packed : IsPacked c.bits c.words.items } };
}

/// Returns the ten-bit word with bit `j` (0 to 9) set to `level`.
fn with_bit(word: u16, j: usize, level: Bit) -> u16
    requires word { word < 1024 }
    requires j { j < 10 }
    ensures set { bit_of result j ≡ level }
    ensures others { (k : ℕ) → k < 10 → k ≢ j → bit_of result k ≡ bit_of word k }
    ensures ten_bits { result < 1024 }
{
    if level.get() == 1 {
        word | 1 << j
    } else {
        word & !(1 << j)
    }
}

/// Shifts a ten-bit word up by one bit, with `level` as the new bit 0. Returns the new word and the bit that was
/// shifted out.
fn shift_word(word: u16, level: u16) -> (u16, u16)
    requires word { word < 1024 }
    requires level { level < 2 }
    ensures word { result.0 ≡ (2 * word + level) % 1024 }
    ensures shifted_out { result.1 ≡ word / 512 }
{
    ((2 * word + level) % 1024, word / 512)
}

/// Sets bit `i` of a chain to `level`. The chain is stored in ten-bit words.
fn set_packed_bit(words: &mut [u16], i: usize, level: Bit)
    requires in_words { i / 10 < length words.old }
    requires ten_bits { (k : ℕ) → slice_index words.old k < 1024 }
    ensures len { length words.new ≡ length words.old }
    ensures ten_bits { (k : ℕ) → slice_index words.new k < 1024 }
    ensures set { packed_bit words.new i ≡ level }
    ensures others { (k : ℕ) → k ≢ i → packed_bit words.new k ≡ packed_bit words.old k }
{
    let at = i / WORD_BITS;
    words[at] = with_bit(words[at], i % WORD_BITS, level);
}

/// Shifts a sequence of ten-bit words up by one bit. `level` becomes bit 0 of the first word, and the top bit of the
/// last word is lost.
fn shift_words(words: &mut [u16], level: Bit)
    requires { (k : ℕ) → slice_index words.old k < 1024 }
    ensures len { length words.new ≡ length words.old }
    ensures ten_bits { (k : ℕ) → slice_index words.new k < 1024 }
    ensures bits { (i : ℕ) → i < 10 * length words.old →
        packed_bit words.new i ≡ bit_after_shift level words.old i }
{
    let mut carry = u16::from(level.get());
    for k in 0..words.len() {
        let (word, shifted_out) = shift_word(words[k], carry);
        words[k] = word;
        carry = shifted_out;
    }
}

/// Shifts the first `bits` bits of the words up by one position. `level` becomes bit 0, and the last of these bits is
/// lost.
fn shift_bits(words: &mut [u16], bits: usize, level: Bit)
    requires { IsPacked bits words.old }
    ensures len { length words.new ≡ length words.old }
    ensures packed { IsPacked bits words.new }
    ensures bits { (i : ℕ) → i < bits → packed_bit words.new i ≡ bit_after_shift level words.old i }
{
    shift_words(words, level);
    if bits % WORD_BITS != 0 {
        set_packed_bit(words, bits, Bit::ZERO);
    }
}

/// Returns a copy of the words.
fn copy_words<const MAX: usize>(words: &ArrayVec<u16, MAX>) -> ArrayVec<u16, MAX>
    ensures { result.items ≡ words.now.items }
{
    let mut copy = ArrayVec::new();
    for word in words.as_slice() {
        copy.push(*word);
    }
    copy
}

/// Returns the word at index `k`, or 0 if the list has no word at this index.
fn word_at(words: &[u16], k: usize) -> u16
    ensures { result ≡ slice_index words.now k }
{
    match words.get(k) {
        Some(word) => *word,
        None => 0,
    }
}

impl<const MAX: usize> Chain<MAX> {
    /// Returns a chain of `bits` bits, all 0.
    pub fn new(bits: usize) -> Self
        requires { bits ≤ MAX }
        ensures { result ≡ replicate bits 0 }
    {
        let mut words = ArrayVec::new();
        for _ in 0..bits.div_ceil(WORD_BITS) {
            words.push(0);
        }
        Chain { bits, words }
    }

    /// Returns a copy of the chain.
    pub fn copy(&self) -> Self
        ensures { result ≡ self.now }
    {
        Chain {
            bits: self.bits,
            words: copy_words(&self.words),
        }
    }

    /// Returns the number of bits in the chain, at most `MAX`.
    pub fn bits(&self) -> usize
        ensures bits { result ≡ length self.now }
        ensures fits { result ≤ MAX }
    {
        self.bits
    }

    /// Returns bit `i` of the chain, or `None` if the chain has at most `i` bits.
    pub fn bit(&self, i: usize) -> Option<Bit>
        ensures { result ≡ slice_get self.now i }
    {
        if i < self.bits {
            let word = self.words[i / WORD_BITS];
            Some(Bit::when(word >> (i % WORD_BITS) & 1 == 1))
        } else {
            None
        }
    }

    /// Returns ten bits of the chain, starting at bit `first`. Bit `j` of the result is bit `first + j` of the chain,
    /// or 0 past the end of the chain.
    pub fn ten_bits_from(&self, first: usize) -> u16
        ensures bits { (j : ℕ) → j < 10 → bit_of result j ≡ slice_index self.now (first + j) }
        ensures ten_bits { result < 1024 }
    {
        let at = first / WORD_BITS;
        let words = self.words.as_slice();
        let low = u32::from(word_at(words, at));
        let high = u32::from(word_at(words, at + 1));
        let from_first = (high * 1024 + low) >> (first % WORD_BITS);
        (from_first % 1024) as u16
    }

    /// Sets bit `i` of the chain to `bit`, and shifts nothing. `i` must be less than the number of bits.
    pub fn set_bit(&mut self, i: usize, bit: Bit)
        requires { i < length self.old }
        ensures { self.new ≡ slice_set self.old i bit }
    {
        set_packed_bit(&mut self.words, i, bit);
    }

    /// Shifts the chain up by one bit. `level`, the level of the data line, becomes bit 0. The last bit is lost.
    pub fn shift(&mut self, level: Bit)
        ensures { self.new ≡ bits_after_shift level self.old }
    {
        shift_bits(&mut self.words, self.bits, level);
    }

    /// Sets every bit of the chain to 0.
    pub fn clear(&mut self)
        ensures { self.new ≡ replicate (length self.old) 0 }
    {
        *self = Chain::new(self.bits);
    }

    /// Proves that each bit of the chain is 0 or 1.
    pub fn show_state_is_valid(&self)
        ensures { All (λ bit. bit < 2) self.now }
    {
        let _bits = self.bits;
    }
}

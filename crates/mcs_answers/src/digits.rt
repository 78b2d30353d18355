//! Functions that append bytes, digits and numbers to an answer.
ghost use Rattle.std.specs.Prelude.{◌≡◌, ◌+◌, ◌++◌, ◌<◌, ◌≤◌, length, map};
ghost use Rattle.std.specs.Fmt.{decimal};
ghost use Rattle.arrayvec.specs.ArrayVec.{array_vec_len};
ghost use Rattle.mcs_model.specs.QueryText.{address_text, two_hex_digits, digit_text, hex_digit};

use crate::size::ANSWER_BYTES;
use arrayvec::ArrayVec;
use mcs_nibble::{Addr, Nibble};

/// Appends bytes to an answer.
pub fn put(answer: &mut ArrayVec<u8, ANSWER_BYTES>, bytes: &[u8])
    requires { array_vec_len answer.old + length bytes.now ≤ ANSWER_BYTES }
    ensures text { answer.new.items ≡ answer.old.items ++ bytes.now }
    ensures count { length answer.new.items ≡ length answer.old.items + length bytes.now }
{
    answer.try_extend_from_slice(bytes).unwrap();
}

/// Appends a number in decimal.
#[tactic(auto, using(std::proofs::lemmas::Fmt::decimal_digit, std::proofs::lemmas::Fmt::decimal_step))]
pub fn put_decimal(answer: &mut ArrayVec<u8, ANSWER_BYTES>, n: u64)
    requires { array_vec_len answer.old + length (decimal n) ≤ ANSWER_BYTES }
    ensures { answer.new.items ≡ answer.old.items ++ decimal n }
{
    if n < 10 {
        answer.push(b'0' + n as u8);
    } else {
        put_decimal(answer, n / 10);
        answer.push(b'0' + (n % 10) as u8);
    }
}

/// Returns the uppercase hexadecimal digit of a nibble.
pub fn hex_digit(nibble: u8) -> u8
    requires { nibble < 16 }
    ensures { result ≡ hex_digit nibble }
{
    if nibble < 10 {
        b'0' + nibble
    } else {
        b'A' - 10 + nibble
    }
}

/// Appends a word, then a number below 16 as one hexadecimal digit.
pub fn put_digit(answer: &mut ArrayVec<u8, ANSWER_BYTES>, word: &[u8], digit: u8)
    requires digit { digit < 16 }
    requires room { array_vec_len answer.old + length word.now + 1 ≤ ANSWER_BYTES }
    ensures text { answer.new.items ≡ answer.old.items ++ word.now ++ digit_text digit }
    ensures count { length answer.new.items ≡ length answer.old.items + length word.now + 1 }
{
    put(answer, word);
    answer.push(hex_digit(digit));
}

/// Appends a word, then an address as three hexadecimal digits.
pub fn put_address(answer: &mut ArrayVec<u8, ANSWER_BYTES>, word: &[u8], address: Addr)
    requires { array_vec_len answer.old + length word.now + 3 ≤ ANSWER_BYTES }
    ensures text { answer.new.items ≡ answer.old.items ++ word.now ++ address_text address }
    ensures count { length answer.new.items ≡ length answer.old.items + length word.now + 3 }
{
    let number = address.get();
    let digits = [
        hex_digit((number / 256) as u8),
        hex_digit((number / 16 % 16) as u8),
        hex_digit((number % 16) as u8),
    ];
    put(answer, word);
    put(answer, &digits);
}

/// Appends a word, then a byte as two hexadecimal digits.
pub fn put_byte(answer: &mut ArrayVec<u8, ANSWER_BYTES>, word: &[u8], byte: u8)
    requires { array_vec_len answer.old + length word.now + 2 ≤ ANSWER_BYTES }
    ensures text { answer.new.items ≡ answer.old.items ++ word.now ++ two_hex_digits byte }
    ensures count { length answer.new.items ≡ length answer.old.items + length word.now + 2 }
{
    let digits = [hex_digit(byte / 16), hex_digit(byte % 16)];
    put(answer, word);
    put(answer, &digits);
}

/// Appends nibbles, each as one hexadecimal digit.
pub fn put_digits(answer: &mut ArrayVec<u8, ANSWER_BYTES>, nibbles: &[Nibble])
    requires { array_vec_len answer.old + length nibbles.now ≤ ANSWER_BYTES }
    ensures text { answer.new.items ≡ answer.old.items ++ map hex_digit nibbles.now }
    ensures count { length answer.new.items ≡ length answer.old.items + length nibbles.now }
{
    for nibble in nibbles {
        answer.push(hex_digit(nibble.get()));
    }
}

//! Numbers in command lines and source texts.
ghost use Rattle.std.specs.Prelude.{◌≡◌, ◌⊎◌, min, option_map};
ghost use Rattle.mcs_model.specs.Numerals.{value_of_digits, number_in_word, number_up_to};

/// The largest number that `number` returns: 2^32. `number` returns 2^32 for every larger number.
pub const NUMBER_CAP: u64 = 4_294_967_296;

fn parse_digits(ds: &[u8], base: u32) -> Option<u64>
    requires { (base ≡ 10) ⊎ (base ≡ 16) }
    ensures { result ≡ option_map (λ n. min n NUMBER_CAP) (value_of_digits base ds.now) }
{
    if ds.is_empty() {
        return None;
    }
    let mut value = 0u64;
    for c in ds {
        let digit = char::from(*c).to_digit(base)?;
        value = (value * u64::from(base) + u64::from(digit)).min(NUMBER_CAP);
    }
    Some(value)
}

/// Parses a word as a number: decimal digits, or `0x` and hexadecimal digits of either case. Returns `None` if the word
/// is not a number.
///
/// The word can have any length. If the number is above 4,294,967,296, the result is 4,294,967,296.
pub fn number(word: &[u8]) -> Option<u64>
    ensures { result ≡ option_map (λ n. min n NUMBER_CAP) (number_in_word word.now) }
{
    match word {
        [b'0', b'x', ds @ ..] => parse_digits(ds, 16),
        _ => parse_digits(word, 10),
    }
}

/// Parses a word as a number from 0 to `most`. Returns `None` if the word is not a number, or if the number is greater
/// than `most`.
pub fn number_within(word: &[u8], most: u32) -> Option<u32>
    ensures { result ≡ number_up_to most word.now }
{
    let value = u32::try_from(number(word)?).ok()?;
    if value <= most { Some(value) } else { None }
}

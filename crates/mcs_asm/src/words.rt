//! Recognises the words of a source text: mnemonics, registers, pairs and names.
ghost use Rattle.std.specs.Prelude.{◌≡◌, ◌<◌, IfSome};
ghost use Rattle.std.specs.Str.{str_eq_ignore_ascii_case};
ghost use Rattle.mcs_source.specs.Mnemonics.{mnemonic_in_group1, mnemonic_in_group2, mnemonic_in_group3, mnemonic_in_group4, mnemonic_in_group5, mnemonic_in_group6, mnemonic_of};
ghost use Rattle.mcs_source.specs.Lines.{starts_like_name, number_up_to_15, register_named, pair_named, is_reserved, is_name};

use mcs_code::instructions;
use mcs_model::limits::NAME_BYTES;
use mcs_model::op::Op;
use mcs_nibble::{PairNo, RegNo};
use mcs_source::mnemonic::Mnemonic;

/// Returns true if a word equals a name, regardless of case.
fn equals_ignoring_case(word: &[u8], name: &str) -> bool
    ensures { result ≡ str_eq_ignore_ascii_case word.now name.now }
{
    word.eq_ignore_ascii_case(name.as_bytes())
}

/// Expands to the mnemonic for a row of the opcode table.
macro_rules! mnemonic_of_row {
    ($name:ident none) => {
        Mnemonic::WithoutOperands(Op::$name)
    };
    ($name:ident $kind:ident) => {
        Mnemonic::$name
    };
}

/// Expands to code that returns a row's mnemonic from the enclosing function if the word equals the
/// row's name.
macro_rules! return_if_equal {
    ($word:ident $name:ident $kind:ident $text:literal) => {
        if equals_ignoring_case($word, $text) {
            return Some(mnemonic_of_row!($name $kind));
        }
    };
}

/// Expands to a comparison of the word with the name in a row, if the row is in the group
/// `$wanted`. Otherwise expands to nothing.
///
/// The opcode table is split into six groups for the proofs: one proof about 45 names takes far longer than six proofs,
/// each with 7 to 9 names.
macro_rules! test_row_in_group {
    (group1 group1 $word:ident $name:ident $kind:ident $text:literal) => {
        return_if_equal!($word $name $kind $text)
    };
    (group2 group2 $word:ident $name:ident $kind:ident $text:literal) => {
        return_if_equal!($word $name $kind $text)
    };
    (group3 group3 $word:ident $name:ident $kind:ident $text:literal) => {
        return_if_equal!($word $name $kind $text)
    };
    (group4 group4 $word:ident $name:ident $kind:ident $text:literal) => {
        return_if_equal!($word $name $kind $text)
    };
    (group5 group5 $word:ident $name:ident $kind:ident $text:literal) => {
        return_if_equal!($word $name $kind $text)
    };
    (group6 group6 $word:ident $name:ident $kind:ident $text:literal) => {
        return_if_equal!($word $name $kind $text)
    };
    ($wanted:ident $group:ident $word:ident $name:ident $kind:ident $text:literal) => {};
}

/// Expands to code that looks the word up in the rows of the group `$wanted`, in table order.
macro_rules! group_rows {
    (($wanted:ident, $word:ident) $($codes:pat, $name:ident $kind:ident $words:literal $cycles:literal $group:ident $text:literal;)*) => {{
        $(test_row_in_group!($wanted $group $word $name $kind $text);)*
        None
    }};
}

/// Returns the mnemonic if the word is `ORG`, `DB` or an instruction with an opcode from 10 to 5F.
/// Otherwise returns `None`.
#[tactic(auto, unfolding(mcs_source::specs::Mnemonics::mnemonic_in_group1))]
fn mnemonic_in_group1(word: &[u8]) -> Option<Mnemonic>
    ensures { result ≡ mnemonic_in_group1 word.now }
{
    if equals_ignoring_case(word, "ORG") {
        return Some(Mnemonic::Org);
    }
    if equals_ignoring_case(word, "DB") {
        return Some(Mnemonic::Db);
    }
    instructions!(group_rows!(group1, word))
}

/// Returns the mnemonic if the word is `NOP` or an instruction with an opcode from 60 to DF.
/// Otherwise returns `None`.
#[tactic(auto, unfolding(mcs_source::specs::Mnemonics::mnemonic_in_group2))]
fn mnemonic_in_group2(word: &[u8]) -> Option<Mnemonic>
    ensures { result ≡ mnemonic_in_group2 word.now }
{
    instructions!(group_rows!(group2, word))
}

/// Returns the mnemonic if the word is an instruction with an opcode from E0 to E7. Otherwise
/// returns `None`. These instructions write to RAM and ports.
#[tactic(auto, unfolding(mcs_source::specs::Mnemonics::mnemonic_in_group3))]
fn mnemonic_in_group3(word: &[u8]) -> Option<Mnemonic>
    ensures { result ≡ mnemonic_in_group3 word.now }
{
    instructions!(group_rows!(group3, word))
}

/// Returns the mnemonic if the word is an instruction with an opcode from E8 to EF. Otherwise
/// returns `None`. These instructions read from RAM and ports.
#[tactic(auto, unfolding(mcs_source::specs::Mnemonics::mnemonic_in_group4))]
fn mnemonic_in_group4(word: &[u8]) -> Option<Mnemonic>
    ensures { result ≡ mnemonic_in_group4 word.now }
{
    instructions!(group_rows!(group4, word))
}

/// Returns the mnemonic if the word is an instruction with an opcode from F0 to F6. Otherwise
/// returns `None`.
#[tactic(auto, unfolding(mcs_source::specs::Mnemonics::mnemonic_in_group5))]
fn mnemonic_in_group5(word: &[u8]) -> Option<Mnemonic>
    ensures { result ≡ mnemonic_in_group5 word.now }
{
    instructions!(group_rows!(group5, word))
}

/// Returns the mnemonic if the word is an instruction with an opcode from F7 to FD. Otherwise
/// returns `None`.
#[tactic(auto, unfolding(mcs_source::specs::Mnemonics::mnemonic_in_group6))]
fn mnemonic_in_group6(word: &[u8]) -> Option<Mnemonic>
    ensures { result ≡ mnemonic_in_group6 word.now }
{
    instructions!(group_rows!(group6, word))
}

/// Returns the mnemonic that a word spells, or `None` if the word is not a mnemonic.
#[tactic(auto, unfolding(mcs_source::specs::Mnemonics::mnemonic_of))]
pub fn mnemonic_in(word: &[u8]) -> Option<Mnemonic>
    ensures { result ≡ mnemonic_of word.now }
{
    if let Some(found) = mnemonic_in_group1(word) {
        return Some(found);
    }
    if let Some(found) = mnemonic_in_group2(word) {
        return Some(found);
    }
    if let Some(found) = mnemonic_in_group3(word) {
        return Some(found);
    }
    if let Some(found) = mnemonic_in_group4(word) {
        return Some(found);
    }
    if let Some(found) = mnemonic_in_group5(word) {
        return Some(found);
    }
    mnemonic_in_group6(word)
}

/// Parses a decimal number from 0 to 15 without a leading zero. Returns `None` for any other text.
fn decimal_up_to_15(digits: &[u8]) -> Option<u8>
    ensures value { result ≡ number_up_to_15 digits.now }
    ensures within { IfSome result (λ n. n < 16) }
{
    match digits {
        [d] if d.is_ascii_digit() => Some(*d - b'0'),
        [b'1', d] if (b'0'..=b'5').contains(d) => Some(*d - 38),
        _ => None,
    }
}

/// Parses a register name, `R0` to `R15`, in upper or lower case. Returns `None` for any other
/// word.
pub fn register_named(word: &[u8]) -> Option<RegNo>
    ensures { result ≡ register_named word.now }
{
    match word {
        [b'R' | b'r', digits @ ..] => RegNo::of(decimal_up_to_15(digits)?),
        _ => None,
    }
}

/// Parses the name of a register pair, `P0` to `P7`, in upper or lower case. Returns `None` for any
/// other word.
pub fn pair_named(word: &[u8]) -> Option<PairNo>
    ensures { result ≡ pair_named word.now }
{
    match word {
        [b'P' | b'p', d] if (b'0'..=b'7').contains(d) => PairNo::of(*d - b'0'),
        _ => None,
    }
}

/// Returns true if a word is reserved, regardless of case: a mnemonic, `ORG`, `DB`, `WPM`, or the name of a register or
/// a pair.
#[tactic(auto, unfolding(mcs_source::specs::Lines::is_reserved))]
fn is_reserved(word: &[u8]) -> bool
    ensures { result ≡ is_reserved word.now }
{
    mnemonic_in(word).is_some()
        || equals_ignoring_case(word, "WPM")
        || register_named(word).is_some()
        || pair_named(word).is_some()
}

/// Returns true if a word begins with a letter or `_`, as a name must.
fn starts_like_name(word: &[u8]) -> bool
    ensures { result ≡ starts_like_name word.now }
{
    match word {
        [] => false,
        [b, ..] => b.is_ascii_uppercase() || b.is_ascii_lowercase() || *b == b'_',
    }
}

/// Returns true if a word can be a name: it begins with a letter or `_`, has at most `NAME_BYTES`
/// bytes, and is not reserved.
pub fn is_name(word: &[u8]) -> bool
    ensures { result ≡ is_name word.now }
{
    starts_like_name(word) && word.len() <= NAME_BYTES && !is_reserved(word)
}

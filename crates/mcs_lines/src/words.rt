//! Splits a line into words at its blanks, and a word into parts at its dots.
ghost use Rattle.std.specs.Prelude.{◌≡◌, ◌≤◌, ◌∷◌, [], MatchOption, length, take, drop};
ghost use Rattle.std.specs.Str.{bytes_eq};
ghost use Rattle.mcs_lines.specs.Words.{is_dot, is_allowed_byte, parts_of_word};
ghost use Rattle.mcs_model.specs.Cutting.{StartsWithoutBlank, IsCompletePiece};
ghost use Rattle.mcs_model.specs.TextLines.{is_blank, words_of};

use mcs_model::text_lines::is_blank;

/// Returns true if a byte is a tab or a printable ASCII character.
pub fn is_allowed_byte(byte: u8) -> bool
    ensures { result ≡ is_allowed_byte byte }
{
    byte == b'\t' || (31 < byte && byte < 127)
}

/// Returns true if a word equals a name.
pub fn equals(word: &[u8], name: &[u8]) -> bool
    ensures { result ≡ bytes_eq word.now name.now }
{
    word == name
}

/// Returns the line without its leading blanks.
fn trim_leading_blanks(line: &[u8]) -> &[u8]
    ensures words { words_of result.now ≡ words_of line.now }
    ensures begins { StartsWithoutBlank result.now }
{
    for (at, byte) in line.iter().enumerate() {
        if !is_blank(*byte) {
            return &line[at..];
        }
    }
    &[]
}

/// Returns the index of the first blank in a line, or the length of the line if it has no blank.
fn first_word_length(line: &[u8]) -> usize
    ensures within { result ≤ length line.now }
    ensures word { IsCompletePiece is_blank (take result line.now) (drop result line.now) }
{
    for (at, byte) in line.iter().enumerate() {
        if is_blank(*byte) {
            return at;
        }
    }
    line.len()
}

/// Returns the first word of a line and the bytes after it, or `None` if the line is blank.
pub fn next_word(line: &[u8]) -> Option<(&[u8], &[u8])>
    ensures { MatchOption result (words_of line.now ≡ [])
        (λ found. words_of line.now ≡ found.0.now ∷ words_of found.1.now) }
{
    let line = trim_leading_blanks(line);
    if line.is_empty() {
        return None;
    }
    let end = first_word_length(line);
    Some((&line[..end], &line[end..]))
}

/// Returns the index of the first dot in a word, or the length of the word if it has no dot.
fn first_part_length(word: &[u8]) -> usize
    ensures within { result ≤ length word.now }
    ensures part { IsCompletePiece is_dot (take result word.now) (drop result word.now) }
{
    for (at, byte) in word.iter().enumerate() {
        if *byte == b'.' {
            return at;
        }
    }
    word.len()
}

/// Returns the part of a word before its first dot, and the bytes after that dot. The second value is `None` if the
/// word has no dot.
pub fn next_part(word: &[u8]) -> (&[u8], Option<&[u8]>)
    ensures { MatchOption result.1 (parts_of_word word.now ≡ result.0.now ∷ [])
        (λ rest. parts_of_word word.now ≡ result.0.now ∷ parts_of_word rest.now) }
{
    let end = first_part_length(word);
    if end < word.len() {
        (&word[..end], Some(&word[end + 1..]))
    } else {
        (word, None)
    }
}

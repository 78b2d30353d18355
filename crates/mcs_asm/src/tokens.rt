//! Splits a source line into tokens.
ghost use Rattle.std.specs.Prelude.{◌≡◌, ◌≤◌, ◌∷◌, [], length, IsTrue, ◌↔◌, MatchOption};
ghost use Rattle.std.specs.List.{prefix_len};
ghost use Rattle.mcs_source.specs.Lexical.{is_word_byte, symbol, tokens};
ghost use Rattle.mcs_model.specs.TextLines.{is_blank};
ghost use Rattle.mcs_asm.specs.View.{token_view};

use mcs_model::text_lines::is_blank;
use std::marker::Model;

/// A token of a source line. `Other` is any other byte that is not a blank. A line with this token
/// does not parse.
#[derive(Clone, Copy)]
pub enum Token<'a> {
    Word(&'a [u8]),
    Comma,
    Colon,
    Equals,
    Other,
}

/// Returns true if a byte is part of a word: a letter, a digit or `_`.
fn is_word_byte(b: u8) -> bool
    ensures { result ≡ is_word_byte b }
{
    b.is_ascii_digit() || b.is_ascii_uppercase() || b.is_ascii_lowercase() || b == b'_'
}

/// Returns the length of the word at the start of `bytes`, or 0 if there is none.
fn word_len(bytes: &[u8]) -> usize
    ensures len { result ≡ prefix_len is_word_byte bytes.now }
    ensures within { result ≤ length bytes.now }
{
    bytes.iter().take_while(|b| is_word_byte(**b)).count()
}

/// Returns the number of spaces and tabs at the start of `bytes`.
fn blank_len(bytes: &[u8]) -> usize
    ensures len { result ≡ prefix_len is_blank bytes.now }
    ensures within { result ≤ length bytes.now }
{
    bytes.iter().take_while(|b| is_blank(**b)).count()
}

/// Returns a line without its leading spaces and tabs.
#[tactic(auto, using(crate::proofs::Lexing::trimmed_rules))]
fn skip_blanks(line: &[u8]) -> &[u8]
    ensures same { tokens result.now ≡ tokens line.now }
    ensures no_leading_blanks { prefix_len is_blank result.now ≡ 0 }
{
    let (_, bytes) = line.split_at(blank_len(line));
    bytes
}

/// Returns the token for a byte that is not part of a word.
fn symbol<'a>(b: u8) -> Token<'a>
    ensures { token_view result ≡ symbol b }
{
    match b {
        b',' => Token::Comma,
        b':' => Token::Colon,
        b'=' => Token::Equals,
        _ => Token::Other,
    }
}

/// Returns the first token of `bytes` and the bytes after it. `bytes` must not begin with a word, a
/// space or a tab. Returns `None` if `bytes` is empty or begins with a comment.
#[tactic(auto, using(crate::proofs::Lexing::symbol_rules))]
fn first_symbol(bytes: &[u8]) -> Option<(Token<'_>, &[u8])>
    requires no_word { prefix_len is_word_byte bytes.now ≡ 0 }
    requires no_blank { prefix_len is_blank bytes.now ≡ 0 }
    ensures { MatchOption result (tokens bytes.now ≡ [])
        (λ x. tokens bytes.now ≡ token_view x.0 ∷ tokens x.1.now) }
{
    let [b, rest @ ..] = bytes else {
        return None;
    };
    if *b == b';' {
        return None;
    }
    Some((symbol(*b), rest))
}

/// Returns the first token of a line and the bytes after it, or `None` if there is no token.
#[tactic(auto, using(crate::proofs::Lexing::tokens_of_leading_word))]
fn first_token(line: &[u8]) -> Option<(Token<'_>, &[u8])>
    ensures { MatchOption result (tokens line.now ≡ [])
        (λ x. tokens line.now ≡ token_view x.0 ∷ tokens x.1.now) }
{
    let bytes = skip_blanks(line);
    let len = word_len(bytes);
    if len == 0 {
        return first_symbol(bytes);
    }
    let (word, rest) = bytes.split_at(len);
    Some((Token::Word(word), rest))
}

/// The tokens of a line that have not been read yet.
#[derive(Drop)]
pub struct Tokens<'a> {
    rest: &'a [u8],
}

impl<'a> Model for Tokens<'a> {
    ghost use Rattle.std.specs.Prelude.{List};
    ghost use Rattle.mcs_source.specs.Lexical.{Token, tokens};

    ghost Value = { List Token };

    ghost view = { λ t. tokens t.rest.now };
}

impl<'a> Tokens<'a> {
    /// Returns a reader that starts at the first token of a line.
    pub fn new(line: &'a [u8]) -> Tokens<'a>
        ensures { result ≡ tokens line.now }
    {
        Tokens { rest: line }
    }

    /// Returns true if no token remains.
    pub fn is_empty(&self) -> bool
        ensures { IsTrue result ↔ (self.now ≡ []) }
    {
        first_token(self.rest).is_none()
    }

    /// Removes and returns the next token, or returns `None` if no token remains.
    pub fn next(&mut self) -> Option<Token<'a>>
        ensures { MatchOption result (self.old ≡ []) (λ t. self.old ≡ token_view t ∷ self.new) }
    {
        let (token, rest) = first_token(self.rest)?;
        self.rest = rest;
        Some(token)
    }
}

//! Parses a source line: an optional label and statement, or the definition of a name.
ghost use Rattle.std.specs.Prelude.{◌≡◌, map, option_map, IfOk, MatchOption, ◌∷◌, Some, None};
ghost use Rattle.std.specs.Option.{option_copied};
ghost use Rattle.mcs_source.specs.Lexical.{Word, Colon, Equals, tokens, Token};
ghost use Rattle.mcs_source.specs.Lines.{Whole, statement_after_mnemonic, bare_statement, first_operand, first_pair, first_register, line_of, one_number, one_operand, one_pair, one_register, operand_of, operands_of, code_line, statement_of, unlabelled_line, word_before_comma, single_word};
ghost use Rattle.mcs_asm.specs.ListItems.{tokens_if_comma, list_item};
ghost use Rattle.mcs_source.specs.declared.mnemonic.Mnemonic.TheVariants.{Org, Jcn, Fim, Isz};
ghost use Rattle.mcs_asm.specs.View.{operand_view, statement_view, line_view, HasNoLabel, HasNoDefinition, IsNotDb};

use crate::tokens::{Token, Tokens};
use crate::words::{is_name, mnemonic_in, pair_named, register_named};
use mcs_model::numeral::number;
use mcs_model::op::Op;
use mcs_nibble::{PairNo, RegNo};
use mcs_source::mnemonic::Mnemonic;
use std::alloc::{AllocError, Global};

/// An operand as written in the source. The parser replaces a number above 4,294,967,296 with
/// 4,294,967,296.
#[derive(Clone, Copy)]
pub enum Operand<'a> {
    Number(u64),
    Name(&'a [u8]),
}

/// A statement as written in the source. `Whole` is an instruction that has no operand, or whose
/// only operand is a register or a pair.
#[derive(Drop)]
pub enum Statement<'a> {
    Origin(u64),
    Data(Vec<Operand<'a>>),
    Whole(Op),
    Ldm(Operand<'a>),
    Bbl(Operand<'a>),
    Jun(Operand<'a>),
    Jms(Operand<'a>),
    Fim(PairNo, Operand<'a>),
    Jcn(Operand<'a>, Operand<'a>),
    Isz(RegNo, Operand<'a>),
}

/// A parsed line: an optional label and an optional statement, or the definition of a name.
#[derive(Drop)]
pub enum SourceLine<'a> {
    Code(Option<&'a [u8]>, Option<Statement<'a>>),
    Define(&'a [u8], u64),
}

/// Parses a word as a number or a name. Returns `None` if it is neither.
fn parse_operand(word: &[u8]) -> Option<Operand<'_>>
    ensures { option_map operand_view result ≡ operand_of word.now }
{
    match number(word) {
        Some(n) => Some(Operand::Number(n)),
        None if is_name(word) => Some(Operand::Name(word)),
        None => None,
    }
}

/// Returns the next token if it is a word and no token follows. Otherwise returns `None`.
fn read_last_word<'a>(tokens: &mut Tokens<'a>) -> Option<&'a [u8]>
    ensures { option_copied result ≡ single_word tokens.old }
{
    let Some(Token::Word(word)) = tokens.next() else {
        return None;
    };
    if tokens.next().is_some() {
        return None;
    }
    Some(word)
}

/// Returns the next token if it is a word and a comma follows, and skips the comma. Otherwise
/// returns `None`.
fn word_before_comma<'a>(tokens: &mut Tokens<'a>) -> Option<&'a [u8]>
    ensures { option_map (λ w. (w, tokens.new)) (option_copied result) ≡ word_before_comma tokens.old }
{
    let Some(Token::Word(word)) = tokens.next() else {
        return None;
    };
    match tokens.next() {
        Some(Token::Comma) => Some(word),
        _ => None,
    }
}

fn one_operand<'a>(tokens: &mut Tokens<'a>) -> Option<Operand<'a>>
    ensures { option_map operand_view result ≡ one_operand tokens.old }
{
    parse_operand(read_last_word(tokens)?)
}

fn one_number(tokens: &mut Tokens<'_>) -> Option<u64>
    ensures { result ≡ one_number tokens.old }
{
    number(read_last_word(tokens)?)
}

fn one_register(tokens: &mut Tokens<'_>) -> Option<RegNo>
    ensures { result ≡ one_register tokens.old }
{
    register_named(read_last_word(tokens)?)
}

fn one_pair(tokens: &mut Tokens<'_>) -> Option<PairNo>
    ensures { result ≡ one_pair tokens.old }
{
    pair_named(read_last_word(tokens)?)
}

fn first_operand<'a>(tokens: &mut Tokens<'a>) -> Option<Operand<'a>>
    ensures { option_map (λ v. (operand_view v, tokens.new)) result ≡ first_operand tokens.old }
{
    parse_operand(word_before_comma(tokens)?)
}

fn first_register(tokens: &mut Tokens<'_>) -> Option<RegNo>
    ensures { option_map (λ r. (r, tokens.new)) result ≡ first_register tokens.old }
{
    register_named(word_before_comma(tokens)?)
}

fn first_pair(tokens: &mut Tokens<'_>) -> Option<PairNo>
    ensures { option_map (λ p. (p, tokens.new)) result ≡ first_pair tokens.old }
{
    pair_named(word_before_comma(tokens)?)
}

/// Returns the statement of an instruction without operands, or `None` if a token follows the
/// mnemonic.
fn statement_without_operands<'a>(op: Op, tokens: &mut Tokens<'a>) -> Option<Statement<'a>>
    ensures { option_map statement_view result ≡ bare_statement op tokens.old }
{
    if tokens.is_empty() {
        Some(Statement::Whole(op))
    } else {
        None
    }
}

/// Reads the next operand of a list. Returns the operand, and true if a comma follows it or false
/// if no token follows it. Returns `None` if the operand is invalid, or if another token follows
/// it.
fn list_item<'a>(tokens: &mut Tokens<'a>) -> Option<(Operand<'a>, bool)>
    ensures { option_map (λ x. (operand_view x.0, tokens_if_comma x.1 tokens.new)) result
        ≡ list_item tokens.old }
{
    let Some(Token::Word(word)) = tokens.next() else {
        return None;
    };
    let value = parse_operand(word)?;
    match tokens.next() {
        None => Some((value, false)),
        Some(Token::Comma) => Some((value, true)),
        Some(_) => None,
    }
}

/// Reads all remaining tokens as one or more operands, separated by commas. Returns `None` if the
/// tokens have another form. Fails if allocation fails.
fn operands<'a>(
    alloc: Global,
    tokens: &mut Tokens<'a>,
) -> Result<Option<Vec<Operand<'a>>>, AllocError>
    ensures { IfOk result (λ o. option_map (λ vs. map operand_view vs.items) o
        ≡ operands_of tokens.old) }
{
    let mut operand_list = Vec::new(alloc);
    loop {
        let Some((value, more)) = list_item(tokens) else {
            return Ok(None);
        };
        operand_list.push(value)?;
        if !more {
            return Ok(Some(operand_list));
        }
    }
}

/// Reads the operands of JCN: a condition and a jump address. Returns `None` if the tokens have
/// another form.
fn read_jcn<'a>(tokens: &mut Tokens<'a>) -> Option<Statement<'a>>
    ensures { option_map statement_view result ≡ statement_after_mnemonic Jcn tokens.old }
{
    let condition = first_operand(tokens)?;
    let target = one_operand(tokens)?;
    Some(Statement::Jcn(condition, target))
}

/// Reads the operands of FIM: a pair and a value. Returns `None` if the tokens have another form.
fn read_fim<'a>(tokens: &mut Tokens<'a>) -> Option<Statement<'a>>
    ensures { option_map statement_view result ≡ statement_after_mnemonic Fim tokens.old }
{
    let pair = first_pair(tokens)?;
    let value = one_operand(tokens)?;
    Some(Statement::Fim(pair, value))
}

/// Reads the operands of ISZ: a register and a jump address. Returns `None` if the tokens have
/// another form.
fn read_isz<'a>(tokens: &mut Tokens<'a>) -> Option<Statement<'a>>
    ensures { option_map statement_view result ≡ statement_after_mnemonic Isz tokens.old }
{
    let register = first_register(tokens)?;
    let target = one_operand(tokens)?;
    Some(Statement::Isz(register, target))
}

/// Reads the operand of `ORG`: a number. Returns `None` if the tokens have another form.
fn read_org<'a>(tokens: &mut Tokens<'a>) -> Option<Statement<'a>>
    ensures { option_map statement_view result ≡ statement_after_mnemonic Org tokens.old }
{
    let at = one_number(tokens)?;
    Some(Statement::Origin(at))
}

fn whole_statement<'a>(op: Option<Op>) -> Option<Statement<'a>>
    ensures { option_map statement_view result ≡ option_map (λ o. Whole o) op }
{
    let op = op?;
    Some(Statement::Whole(op))
}

/// Reads the operands of a mnemonic other than `DB`. Returns the statement, or `None` if the
/// operands do not have the form that the mnemonic requires.
fn statement_except_db<'a>(mnemonic: Mnemonic, tokens: &mut Tokens<'a>) -> Option<Statement<'a>>
    requires { IsNotDb mnemonic }
    ensures { option_map statement_view result ≡ statement_after_mnemonic mnemonic tokens.old }
{
    match mnemonic {
        Mnemonic::Db => None,
        Mnemonic::Org => read_org(tokens),
        Mnemonic::Jcn => read_jcn(tokens),
        Mnemonic::Fim => read_fim(tokens),
        Mnemonic::Isz => read_isz(tokens),
        Mnemonic::Jun => one_operand(tokens).map(Statement::Jun),
        Mnemonic::Jms => one_operand(tokens).map(Statement::Jms),
        Mnemonic::Bbl => one_operand(tokens).map(Statement::Bbl),
        Mnemonic::Ldm => one_operand(tokens).map(Statement::Ldm),
        Mnemonic::Src => whole_statement(one_pair(tokens).map(Op::Src)),
        Mnemonic::Fin => whole_statement(one_pair(tokens).map(Op::Fin)),
        Mnemonic::Jin => whole_statement(one_pair(tokens).map(Op::Jin)),
        Mnemonic::Inc => whole_statement(one_register(tokens).map(Op::Inc)),
        Mnemonic::Add => whole_statement(one_register(tokens).map(Op::Add)),
        Mnemonic::Sub => whole_statement(one_register(tokens).map(Op::Sub)),
        Mnemonic::Ld => whole_statement(one_register(tokens).map(Op::Ld)),
        Mnemonic::Xch => whole_statement(one_register(tokens).map(Op::Xch)),
        Mnemonic::WithoutOperands(op) => statement_without_operands(op, tokens),
    }
}

/// Reads the operands of a mnemonic. Returns the statement, or `None` if the operands do not have
/// the form that the mnemonic requires. Fails if allocation fails.
fn statement_of_mnemonic<'a>(
    alloc: Global,
    mnemonic: Mnemonic,
    tokens: &mut Tokens<'a>,
) -> Result<Option<Statement<'a>>, AllocError>
    ensures { IfOk result (λ s. option_map statement_view s ≡ statement_after_mnemonic mnemonic tokens.old) }
{
    match mnemonic {
        Mnemonic::Db => Ok(operands(alloc, tokens)?.map(Statement::Data)),
        _ => Ok(statement_except_db(mnemonic, tokens)),
    }
}

/// Reads all remaining tokens as a mnemonic and its operands. Returns the statement, or `None` if
/// the tokens do not form a statement. Fails if allocation fails.
#[tactic(auto, unfolding(mcs_source::specs::Lines::statement_of))]
fn read_statement<'a>(
    alloc: Global,
    tokens: &mut Tokens<'a>,
) -> Result<Option<Statement<'a>>, AllocError>
    ensures { IfOk result (λ s. option_map statement_view s ≡ statement_of tokens.old) }
{
    let Some(Token::Word(word)) = tokens.next() else {
        return Ok(None);
    };
    let Some(mnemonic) = mnemonic_in(word) else {
        return Ok(None);
    };
    statement_of_mnemonic(alloc, mnemonic, tokens)
}

/// Reads all remaining tokens as an optional statement, and returns the line with this statement
/// and the given label. Returns `None` if there are tokens, but they do not form a statement. Fails
/// if allocation fails.
fn read_after_label<'a>(
    alloc: Global,
    label: Option<&'a [u8]>,
    tokens: &mut Tokens<'a>,
) -> Result<Option<SourceLine<'a>>, AllocError>
    ensures { IfOk result (λ o. option_map line_view o
        ≡ code_line (option_copied label.entry) tokens.old) }
{
    if tokens.is_empty() {
        return Ok(Some(SourceLine::Code(label, None)));
    }
    match read_statement(alloc, tokens)? {
        None => Ok(None),
        Some(statement) => Ok(Some(SourceLine::Code(label, Some(statement)))),
    }
}

/// Returns the word and the tokens after the colon if a line begins with a word and a colon.
/// Otherwise returns `None`.
fn split_label<'a>(line: &'a [u8]) -> Option<(&'a [u8], Tokens<'a>)>
    ensures { MatchOption result (HasNoLabel (tokens line.now))
        (λ x. tokens line.now ≡ Word x.0.now ∷ Colon ∷ x.1) }
{
    let mut tokens = Tokens::new(line);
    match (tokens.next(), tokens.next()) {
        (Some(Token::Word(word)), Some(Token::Colon)) => Some((word, tokens)),
        _ => None,
    }
}

/// Returns the word and the tokens after `=` if a line begins with a word and `=`. Otherwise
/// returns `None`.
fn split_definition<'a>(line: &'a [u8]) -> Option<(&'a [u8], Tokens<'a>)>
    ensures { MatchOption result (HasNoDefinition (tokens line.now))
        (λ x. tokens line.now ≡ Word x.0.now ∷ Equals ∷ x.1) }
{
    let mut tokens = Tokens::new(line);
    match (tokens.next(), tokens.next()) {
        (Some(Token::Word(word)), Some(Token::Equals)) => Some((word, tokens)),
        _ => None,
    }
}

/// Parses a line that does not begin with a label. Returns `None` if the line has no valid form.
/// Fails if allocation fails.
fn read_line_without_label<'a>(
    alloc: Global,
    line: &'a [u8],
) -> Result<Option<SourceLine<'a>>, AllocError>
    ensures { IfOk result (λ o. option_map line_view o ≡ unlabelled_line (tokens line.now)) }
{
    match split_definition(line) {
        None => read_after_label(alloc, None, &mut Tokens::new(line)),
        Some((name, mut tokens)) if is_name(name) => {
            Ok(one_number(&mut tokens).map(|n| SourceLine::Define(name, n)))
        }
        Some(_) => Ok(None),
    }
}

/// Parses a source line. Returns `None` if the line has no valid form. Fails if allocation fails.
pub fn read_line<'a>(alloc: Global, line: &'a [u8]) -> Result<Option<SourceLine<'a>>, AllocError>
    ensures { IfOk result (λ o. option_map line_view o ≡ line_of (tokens line.now)) }
{
    match split_label(line) {
        None => read_line_without_label(alloc, line),
        Some((name, mut tokens)) if is_name(name) => read_after_label(
            alloc,
            Some(name),
            &mut tokens,
        ),
        Some(_) => Ok(None),
    }
}

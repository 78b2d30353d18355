//! Computes the bytes that a statement emits.
ghost use Rattle.std.specs.Prelude.{◌≡◌, ◌<◌, ◌≤◌, ◌/◌, ◌%◌, true, map, IfOk, nat_lt, Ok, Err, Some, option_map};
ghost use Rattle.std.specs.List.{list_all};
ghost use Rattle.mcs_source.specs.Lines.{Data, Ldm, Bbl, Jun, Jms, Fim, Jcn, Isz};
ghost use Rattle.mcs_source.specs.Spelling.{spelling};
ghost use Rattle.mcs_source.specs.Assembly.{value_in, values_in, statement_bytes, line_bytes, is_on_reachable_page, with_known_value, if_in_range, if_on_page};
ghost use Rattle.mcs_asm.specs.View.{operand_view, statement_view, line_view, words_view, MatchesView, MatchesEncoding, MatchesOptionalEncoding, IsNotData};

use crate::fault::{FaultKind, SourceFault};
use crate::names::Names;
use crate::statements::{Operand, SourceLine, Statement};
use mcs_code::{Words, encode};
use mcs_model::op::Op;
use mcs_nibble::{Addr, Nibble, PairNo, RegNo};
use std::alloc::{AllocError, Global};

/// Returns the values of the operands, or `None` if one of them is an undefined name. Fails if
/// allocation fails.
fn values<'a>(
    alloc: Global,
    names: &Names<'a>,
    operands: &[Operand<'a>],
) -> Result<Option<Vec<u64>>, AllocError>
    ensures { IfOk result (λ o. option_map (λ v. v.items) o
        ≡ values_in names.now.names (map operand_view operands.now)) }
{
    let mut value_list = Vec::new(alloc);
    for operand in operands {
        let Some(value) = names.value(operand) else {
            return Ok(None);
        };
        value_list.push(value)?;
    }
    Ok(Some(value_list))
}

/// Returns true if each value is below 256.
fn are_bytes(values: &[u64]) -> bool
    ensures { result ≡ list_all (λ n. nat_lt n 256) values.now }
{
    values.iter().all(|n| *n < 256)
}

/// Converts values below 256 to bytes.
fn as_bytes(alloc: Global, values: &[u64]) -> Result<Vec<u8>, AllocError>
    requires { list_all (λ n. nat_lt n 256) values.now ≡ true }
    ensures { IfOk result (λ v. v.items ≡ values.now) }
{
    let mut bytes = Vec::new(alloc);
    for i in 0..values.len() {
        bytes.push(values[i] as u8)?;
    }
    Ok(bytes)
}

/// Returns the bytes that a `DB` statement emits. Fails if an operand is an undefined name or its
/// value is above 255, or if allocation fails.
fn data_bytes<'a>(
    alloc: Global,
    names: &Names<'a>,
    operands: &[Operand<'a>],
) -> Result<Vec<u8>, FaultKind>
    ensures { MatchesView (λ v. v.items) result
        (statement_bytes 0 names.now.names (Data (map operand_view operands.now))) }
{
    let Some(values) = values(alloc, names, operands)? else {
        return Err(FaultKind::Refused(SourceFault::UnknownName));
    };
    if !are_bytes(&values) {
        return Err(FaultKind::Refused(SourceFault::OutOfRange));
    }
    Ok(as_bytes(alloc, &values)?)
}

/// Returns the value of an operand. Fails if the operand is a name that no line defines.
fn value<'a>(names: &Names<'a>, operand: &Operand<'a>) -> Result<u64, SourceFault>
    ensures { result ≡ with_known_value (value_in names.now.names (operand_view operand.now)) (λ n. Ok n) }
{
    names.value(operand).ok_or(SourceFault::UnknownName)
}

/// Converts a value to a nibble. Fails if the value is above 15.
fn nibble(value: u64) -> Result<Nibble, SourceFault>
    ensures { result ≡ if_in_range (nat_lt value 16) (Ok value) }
{
    u8::try_from(value)
        .ok()
        .and_then(Nibble::of)
        .ok_or(SourceFault::OutOfRange)
}

/// Converts a value to a byte. Fails if the value is above 255.
fn byte(value: u64) -> Result<u8, SourceFault>
    ensures { result ≡ if_in_range (nat_lt value 256) (Ok value) }
{
    u8::try_from(value).ok().ok_or(SourceFault::OutOfRange)
}

/// Converts a value to an address. Fails if the value is above 4095.
fn target(value: u64) -> Result<Addr, SourceFault>
    ensures { result ≡ if_in_range (nat_lt value 4096) (Ok value) }
{
    u16::try_from(value)
        .ok()
        .and_then(Addr::of)
        .ok_or(SourceFault::OutOfRange)
}

/// Returns the low byte of the target of a JCN or ISZ at address `at`. Fails if the target is not
/// on the page of the address after the instruction's two words.
fn low_byte_on_page(at: u16, target: Addr) -> Result<u8, SourceFault>
    requires { at ≤ 4096 }
    ensures { result ≡ if_on_page (is_on_reachable_page at target) (Ok (target % 256)) }
{
    if target.get() / 256 == (at + 2) % 4096 / 256 {
        Ok(target.low())
    } else {
        Err(SourceFault::WrongPage)
    }
}

/// Returns the value of an operand as a nibble. Fails if the operand is an undefined name or its
/// value is above 15.
fn nibble_value<'a>(names: &Names<'a>, operand: &Operand<'a>) -> Result<Nibble, SourceFault>
    ensures { result ≡ with_known_value (value_in names.now.names (operand_view operand.now))
        (λ n. if_in_range (nat_lt n 16) (Ok n)) }
{
    nibble(value(names, operand)?)
}

/// Returns the value of an operand as an address. Fails if the operand is an undefined name or its
/// value is above 4095.
fn target_value<'a>(names: &Names<'a>, operand: &Operand<'a>) -> Result<Addr, SourceFault>
    ensures { result ≡ with_known_value (value_in names.now.names (operand_view operand.now))
        (λ t. if_in_range (nat_lt t 4096) (Ok t)) }
{
    target(value(names, operand)?)
}

fn ldm<'a>(names: &Names<'a>, v: &Operand<'a>) -> Result<Op, SourceFault>
    ensures { MatchesEncoding result (statement_bytes 0 names.now.names (Ldm (operand_view v.now))) }
{
    Ok(Op::Ldm(nibble_value(names, v)?))
}

fn bbl<'a>(names: &Names<'a>, v: &Operand<'a>) -> Result<Op, SourceFault>
    ensures { MatchesEncoding result (statement_bytes 0 names.now.names (Bbl (operand_view v.now))) }
{
    Ok(Op::Bbl(nibble_value(names, v)?))
}

fn jun<'a>(names: &Names<'a>, t: &Operand<'a>) -> Result<Op, SourceFault>
    ensures { MatchesEncoding result (statement_bytes 0 names.now.names (Jun (operand_view t.now))) }
{
    let t = target_value(names, t)?;
    Ok(Op::Jun(t.page(), t.low()))
}

fn jms<'a>(names: &Names<'a>, t: &Operand<'a>) -> Result<Op, SourceFault>
    ensures { MatchesEncoding result (statement_bytes 0 names.now.names (Jms (operand_view t.now))) }
{
    let t = target_value(names, t)?;
    Ok(Op::Jms(t.page(), t.low()))
}

fn fim<'a>(names: &Names<'a>, pair: PairNo, v: &Operand<'a>) -> Result<Op, SourceFault>
    ensures { MatchesEncoding result (statement_bytes 0 names.now.names (Fim pair (operand_view v.now))) }
{
    Ok(Op::Fim(pair, byte(value(names, v)?)?))
}

fn jcn<'a>(at: u16, names: &Names<'a>, v: &Operand<'a>, t: &Operand<'a>) -> Result<Op, SourceFault>
    requires { at ≤ 4096 }
    ensures { MatchesEncoding result
        (statement_bytes at names.now.names (Jcn (operand_view v.now) (operand_view t.now))) }
{
    // Both operands are looked up first: an undefined name (error 32) takes precedence over a value
    // out of range (error 33).
    let v = value(names, v)?;
    let t = value(names, t)?;
    let v = nibble(v)?;
    Ok(Op::Jcn(v, low_byte_on_page(at, target(t)?)?))
}

fn isz<'a>(at: u16, names: &Names<'a>, register: RegNo, t: &Operand<'a>) -> Result<Op, SourceFault>
    requires { at ≤ 4096 }
    ensures { MatchesEncoding result (statement_bytes at names.now.names (Isz register (operand_view t.now))) }
{
    Ok(Op::Isz(register, low_byte_on_page(at, target_value(names, t)?)?))
}

/// Returns the instruction of a statement at address `at`, or `None` for an `ORG`. The statement
/// must not be a `DB`. Fails if an operand is an undefined name (error 32), is out of range (33),
/// or is an address on a page that the instruction cannot reach (34).
fn op<'a>(at: u16, names: &Names<'a>, statement: &Statement<'a>) -> Result<Option<Op>, SourceFault>
    requires start { at ≤ 4096 }
    requires statement { IsNotData (statement_view statement.now) }
    ensures { MatchesOptionalEncoding result (statement_bytes at names.now.names (statement_view statement.now)) }
{
    match statement {
        Statement::Origin(_) | Statement::Data(_) => Ok(None),
        Statement::Whole(op) => Ok(Some(*op)),
        Statement::Ldm(v) => Ok(Some(ldm(names, v)?)),
        Statement::Bbl(v) => Ok(Some(bbl(names, v)?)),
        Statement::Jun(t) => Ok(Some(jun(names, t)?)),
        Statement::Jms(t) => Ok(Some(jms(names, t)?)),
        Statement::Fim(pair, v) => Ok(Some(fim(names, *pair, v)?)),
        Statement::Jcn(v, t) => Ok(Some(jcn(at, names, v, t)?)),
        Statement::Isz(register, t) => Ok(Some(isz(at, names, *register, t)?)),
    }
}

/// Returns the one or two words that encode an instruction.
fn words(op: Op) -> Words
    ensures { words_view result ≡ spelling op }
{
    encode(op)
}

/// Returns the one or two words of an instruction as a list of bytes. Fails if allocation fails.
fn word_list(alloc: Global, words: Words) -> Result<Vec<u8>, AllocError>
    ensures { IfOk result (λ v. v.items ≡ words_view words) }
{
    let mut bytes = Vec::new(alloc);
    bytes.push(words.first)?;
    if let Some(second) = words.second {
        bytes.push(second)?;
    }
    Ok(bytes)
}

/// Returns the bytes that a statement at address `at` emits. Fails if an operand is an undefined
/// name (error 32), is out of range (33), or is an address on a page that the instruction cannot
/// reach (34). Also fails if allocation fails.
fn statement_bytes<'a>(
    alloc: Global,
    at: u16,
    names: &Names<'a>,
    statement: &Statement<'a>,
) -> Result<Vec<u8>, FaultKind>
    requires { at ≤ 4096 }
    ensures { MatchesView (λ v. v.items) result
        (statement_bytes at names.now.names (statement_view statement.now)) }
{
    match statement {
        Statement::Data(operands) => data_bytes(alloc, names, operands),
        _ => match op(at, names, statement)? {
            None => Ok(Vec::new(alloc)),
            Some(op) => Ok(word_list(alloc, words(op))?),
        },
    }
}

/// Returns the bytes that a line at address `at` emits. Fails if an operand is an undefined name
/// (error 32), is out of range (33), or is an address on a page that the instruction cannot reach
/// (34). Also fails if allocation fails.
pub fn line_bytes<'a>(
    alloc: Global,
    at: u16,
    names: &Names<'a>,
    line: &SourceLine<'a>,
) -> Result<Vec<u8>, FaultKind>
    requires { at ≤ 4096 }
    ensures { MatchesView (λ v. v.items) result
        (line_bytes at names.now.names (Some (line_view line.now))) }
{
    match line {
        SourceLine::Code(_, Some(statement)) => statement_bytes(alloc, at, names, statement),
        _ => Ok(Vec::new(alloc)),
    }
}

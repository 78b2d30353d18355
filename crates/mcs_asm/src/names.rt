//! The names that a source text defines, and the addresses of its statements.
ghost use Rattle.std.specs.Prelude.{◌≡◌, ◌<◌, ◌≤◌, ◌&&◌, ◌++◌, ◌∷◌, length, map, option_map, is_some, OnOk, OnErr, [], None, Some, false, nat_le, ◌+◌};
ghost use Rattle.std.specs.Option.{option_copied};
ghost use Rattle.std.specs.List.{list_any};
ghost use Rattle.std.specs.Str.{bytes_eq};
ghost use Rattle.std.specs.Ordering.{nat_cmp};
ghost use Rattle.std.specs.Cmp.Lexicographic.{slice_cmp};
ghost use Rattle.std.specs.BTreeMap.{get_by};
ghost use Rattle.mcs_asm.specs.View.{statement_view, line_view, operand_view};
ghost use Rattle.mcs_source.specs.Assembly.{size, statement_size, is_defined, is_defined_name, defined_name, is_bad_origin, has_bad_number, address_after_statement, address_after_line, passes_end, first_pass_line_fault, value_in};
ghost use Rattle.mcs_asm.specs.Passes.{first_pass_start, first_pass_after_line};

use crate::fault::SourceFault;
use crate::statements::{Operand, SourceLine, Statement};
use arrayvec::ArrayVec;
use mcs_code::word_count;
use mcs_model::limits::NAMES;
use std::alloc::{AllocError, Global};
use std::collections::BTreeMap;
use std::marker::Model;

/// The names that the lines so far define, with their values, and the address of the next
/// statement.
#[derive(Drop)]
pub struct Names<'a> {
    at: u16,
    names: ArrayVec<(&'a [u8], u16), NAMES>,
    // The pairs of `names`, indexed by name, so that the lookup of an operand does not scan all
    // names.
    values: BTreeMap<&'a [u8], u16>,
}

impl<'a> Model for Names<'a> {
    ghost use Rattle.std.specs.Prelude.{map, ◌≤◌};
    ghost use Rattle.mcs_asm.specs.Passes.{FirstPassState};
    ghost use Rattle.mcs_asm.specs.View.{AgreesWithNames};

    ghost Value = { FirstPassState };

    ghost view = { λ n. record { at = n.at; names = map (λ e. (e.0.now, e.1)) n.names.items } };

    ghost invariant = { λ n. (n.at ≤ 4096)
        × AgreesWithNames n.values (map (λ e. (e.0.now, e.1)) n.names.items) };
}

fn statement_size(statement: &Option<Statement<'_>>) -> usize
    ensures { result ≡ statement_size (option_map statement_view statement.now) }
{
    match statement {
        None => 0,
        Some(statement) => size(statement),
    }
}

/// Returns the number of bytes that a statement emits.
fn size(statement: &Statement<'_>) -> usize
    ensures { result ≡ size (statement_view statement.now) }
{
    match statement {
        Statement::Origin(_) => 0,
        Statement::Data(values) => values.len(),
        Statement::Whole(op) => usize::from(word_count(*op)),
        Statement::Ldm(_) | Statement::Bbl(_) => 1,
        Statement::Jun(_) | Statement::Jms(_) => 2,
        Statement::Fim(_, _) | Statement::Jcn(_, _) | Statement::Isz(_, _) => 2,
    }
}

impl<'a> Names<'a> {
    /// Returns the state before the first line: no names, and the next statement at address 0.
    pub fn new(alloc: Global) -> Names<'a>
        ensures { result ≡ first_pass_start }
    {
        Names {
            at: 0,
            names: ArrayVec::new(),
            values: BTreeMap::new(alloc),
        }
    }

    fn is_defined(&self, name: &[u8]) -> bool
        ensures { result ≡ is_defined name.now self.now.names }
    {
        contains_name(&self.names, name)
    }

    fn is_defined_name(&self, name: Option<&[u8]>) -> bool
        ensures { result ≡ is_defined_name (option_copied name.entry) self.now.names }
    {
        match name {
            None => false,
            Some(name) => self.is_defined(name),
        }
    }

    fn is_full(&self) -> bool
        ensures { result ≡ nat_le NAMES (length self.now.names) }
    {
        self.names.len() >= NAMES
    }

    /// Returns the names and their values, in the order of the lines that define them.
    pub fn list(&self) -> &[(&'a [u8], u16)]
        ensures { map (λ e. (e.0.now, e.1)) result.now ≡ self.now.names }
    {
        &self.names
    }

    /// Returns the address of the next statement, at most 4096.
    fn at(&self) -> u16
        ensures at { result ≡ self.now.at }
        ensures within { result ≤ 4096 }
    {
        self.at
    }

    /// Returns the error that the first pass finds in a parsed line, or `None`. If several errors
    /// apply, returns the first of 33, 31, 37 and 36. These are a number out of range, a name that
    /// is already defined, too many names, and an address past the end of the ROM.
    pub fn fault(&self, line: &SourceLine<'a>) -> Option<SourceFault>
        ensures { result ≡ first_pass_line_fault self.now.at self.now.names (Some (line_view line.now)) }
    {
        let name = defined_name(line);
        if has_bad_number(line) {
            Some(SourceFault::OutOfRange)
        } else if self.is_defined_name(name) {
            Some(SourceFault::DoubleName)
        } else if name.is_some() && self.is_full() {
            Some(SourceFault::TooManyNames)
        } else if passes_end(line, self.at()) {
            Some(SourceFault::PastEnd)
        } else {
            None
        }
    }

    /// Adds the name that a line defines, if any, and sets the address of the next statement. The
    /// line must have no first-pass error. If allocation fails, nothing changes.
    pub fn add(&mut self, line: &SourceLine<'a>) -> Result<(), AllocError>
        requires { first_pass_line_fault self.old.at self.old.names (Some (line_view line.now)) ≡ None }
        ensures added { OnOk result (self.new ≡ first_pass_after_line self.old (Some (line_view line.now))) }
        ensures unchanged { OnErr result (self.new ≡ self.old) }
    {
        match line {
            SourceLine::Code(Some(name), _) => self.define(name, self.at)?,
            SourceLine::Code(None, _) => {}
            SourceLine::Define(name, n) => self.define(name, *n as u16)?,
        }
        self.at = address_after_line(line, self.at);
        Ok(())
    }

    /// Adds a name with its value. The name must be new, and fewer than `NAMES` names must be
    /// defined. If allocation fails, nothing changes.
    fn define(&mut self, name: &'a [u8], value: u16) -> Result<(), AllocError>
        requires unknown { is_defined name.now self.old.names ≡ false }
        requires room { length self.old.names < NAMES }
        ensures added { OnOk result (self.new
            ≡ record { at = self.old.at; names = self.old.names ++ (name.now, value) ∷ [] }) }
        ensures unchanged { OnErr result (self.new ≡ self.old) }
    {
        self.values.insert(name, value)?;
        self.names.push((name, value));
        Ok(())
    }

    /// Returns the value of an operand, or `None` if the operand is an undefined name.
    pub fn value(&self, operand: &Operand<'a>) -> Option<u64>
        ensures { result ≡ value_in self.now.names (operand_view operand.now) }
    {
        match operand {
            Operand::Number(n) => Some(*n),
            Operand::Name(name) => value_of(&self.values, name),
        }
    }
}

fn contains_name(names: &[(&[u8], u16)], name: &[u8]) -> bool
    ensures { result ≡ list_any (λ e. bytes_eq e.0.now name.now) names.now }
{
    names.iter().any(|e| e.0 == name)
}

/// Returns the value of a name, or `None` if the name is not defined.
fn value_of<'a>(values: &BTreeMap<&'a [u8], u16>, name: &'a [u8]) -> Option<u64>
    ensures { result ≡ get_by (λ k. slice_cmp nat_cmp name.now k.now) values.now }
{
    values.get(&name).map(|value| u64::from(*value))
}

/// Returns the name that a line defines as a label or with `=`, or `None`.
fn defined_name<'a>(line: &SourceLine<'a>) -> Option<&'a [u8]>
    ensures { option_copied result ≡ defined_name (line_view line.now) }
{
    match line {
        SourceLine::Code(label, _) => *label,
        SourceLine::Define(name, _) => Some(*name),
    }
}

fn is_bad_origin(statement: &Option<Statement<'_>>) -> bool
    ensures { result ≡ is_bad_origin (option_map statement_view statement.now) }
{
    match statement {
        Some(Statement::Origin(n)) => *n >= 4096,
        _ => false,
    }
}

/// Returns true if a line has an `ORG` or is a definition `NAME = NUMBER`, and the number is above
/// 4095.
fn has_bad_number(line: &SourceLine<'_>) -> bool
    ensures { result ≡ has_bad_number (line_view line.now) }
{
    match line {
        SourceLine::Define(_, n) => *n >= 4096,
        SourceLine::Code(_, statement) => is_bad_origin(statement),
    }
}

/// Returns true if a line at address `at` passes the end of the ROM: it has a label at address 4096, or emits a byte at
/// address 4096 or above.
fn passes_end(line: &SourceLine<'_>, at: u16) -> bool
    requires { at ≤ 4096 }
    ensures { result ≡ passes_end (line_view line.now) at }
{
    match line {
        SourceLine::Define(_, _) => false,
        SourceLine::Code(label, statement) => {
            (label.is_some() && at >= 4096) || statement_size(statement) > 4096 - usize::from(at)
        }
    }
}

fn address_after_statement(statement: &Option<Statement<'_>>, at: u16) -> u16
    requires number { is_bad_origin (option_map statement_view statement.now) ≡ false }
    requires room { at + statement_size (option_map statement_view statement.now) ≤ 4096 }
    ensures at { result ≡ address_after_statement (option_map statement_view statement.now) at }
    ensures within { result ≤ 4096 }
{
    match statement {
        Some(Statement::Origin(n)) => *n as u16,
        _ => at + statement_size(statement) as u16,
    }
}

/// Returns the address after a line at address `at`. The number in an `ORG` or `NAME = NUMBER` must
/// be below 4096, and the line must not pass the end of the ROM.
pub fn address_after_line(line: &SourceLine<'_>, at: u16) -> u16
    requires start { at ≤ 4096 }
    requires number { has_bad_number (line_view line.now) ≡ false }
    requires room { passes_end (line_view line.now) at ≡ false }
    ensures at { result ≡ address_after_line (Some (line_view line.now)) at }
    ensures within { result ≤ 4096 }
{
    match line {
        SourceLine::Define(_, _) => at,
        SourceLine::Code(_, statement) => address_after_statement(statement, at),
    }
}

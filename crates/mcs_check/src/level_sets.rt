//! All levels of the inputs of a machine, and the value that its next instruction reads at given levels.
ghost use Rattle.std.specs.Prelude.{◌≡◌, ◌<◌, ◌≤◌, ◌++◌, ℕ, length, nat_le, flat_map, IfOk, IfSome, OnOk, Some};
ghost use Rattle.std.specs.List.{sum};
ghost use Rattle.mcs_model.specs.declared.board.BoardParts.{BoardParts};
ghost use Rattle.mcs_model.specs.Boards.{key_count};
ghost use Rattle.mcs_model.specs.Levels.{port_of};
ghost use Rattle.mcs_drive.specs.InputReads.{value_read_by};
ghost use Rattle.mcs_drive.specs.TrackedMachine.{value_read, with_levels};
ghost use Rattle.mcs_check.specs.LevelSets.{AreAllAllowedLevels, levels_of_first_keys, with_each_next_key, with_next_key};
ghost use Rattle.mcs_check.specs.SpacedInputs.{has_key_down, have_same_key_levels};
ghost use Rattle.std.specs.Str.{bytes_eq};

use crate::highest_levels::set_keys;
use crate::limits::InputLimits;
use crate::reading::{InputSource, input_source_of};
use crate::replica::SearchMachine;
use mcs_model::op::Op;
use mcs_nibble::{Bit, Nibble};
use std::alloc::{AllocError, Global};
use std::marker::Model;

/// The levels of all keys, row by row, and of the TEST pin.
#[derive(Debug, Drop)]
pub struct Levels {
    keys: Vec<Bit>,
    test: Bit,
}

impl Model for Levels {
    ghost use Rattle.mcs_drive.specs.DrivenRuns as driven;

    ghost Value = { driven.Levels };

    ghost view = { λ l. record { keys = l.keys.items; test = l.test } };
}

/// The maximum number of levels in a list of all allowed levels.
const MAX_LEVELS: usize = 255;

/// Returns the number of keys that are down, given the level of each key.
fn keys_down(keys: &[Bit]) -> usize
    ensures { result ≡ sum keys.now }
{
    let mut down = 0;
    for level in keys {
        down += usize::from(level.get());
    }
    down
}

impl Levels {
    /// Returns the level of each key, row by row: 1 for down, 0 for up.
    pub fn keys(&self) -> &[Bit]
        ensures { result.now ≡ self.now.keys }
    {
        &self.keys
    }

    /// Returns the level of the TEST pin.
    pub fn test(&self) -> Bit
        ensures { result ≡ self.now.test }
    {
        self.test
    }

    /// Returns whether each key is at the same level in these levels and in `other`. Ignores TEST.
    fn has_same_key_levels(&self, other: &Levels) -> bool
        ensures { result ≡ bytes_eq self.now.keys other.now.keys }
    {
        self.keys() == other.keys()
    }

    /// Returns whether a key is down at these levels.
    pub(crate) fn has_key_down(&self) -> bool
        ensures { result ≡ has_key_down self.now }
    {
        keys_down(&self.keys) >= 1
    }

    /// Returns a copy of these levels. Fails if memory runs out.
    pub(crate) fn copy(&self, alloc: Global) -> Result<Levels, AllocError>
        ensures { IfOk result (λ l. l ≡ self.now) }
    {
        let mut keys = Vec::new(alloc);
        keys.extend_from_slice(&self.keys)?;
        Ok(Levels {
            keys,
            test: self.test,
        })
    }

    /// Returns these levels with the level of one more key. Fails if memory runs out.
    fn with_next_key(&self, alloc: Global, level: Bit) -> Result<Levels, AllocError>
        ensures { IfOk result (λ l. l ≡ with_next_key self.now level) }
    {
        let mut keys = Vec::new(alloc);
        keys.extend_from_slice(&self.keys)?;
        keys.push(level)?;
        Ok(Levels {
            keys,
            test: self.test,
        })
    }
}

/// Returns whether each key is at the same level in `all[i]` and `all[j]`. Ignores TEST. Returns false if `i` or `j` is
/// out of range.
pub(crate) fn have_same_key_levels(all: &[Levels], i: u8, j: u8) -> bool
    ensures { result ≡ have_same_key_levels all.now i j }
{
    match all.get(usize::from(i)) {
        Some(levels) => match all.get(usize::from(j)) {
            Some(other) => levels.has_same_key_levels(other),
            None => false,
        },
        None => false,
    }
}

/// Appends to `into` a copy of `levels` for each level of the next key, key `i`, that the limits allow. The key levels
/// of each copy end with that level. Fails if memory runs out.
fn push_with_next_key(
    alloc: Global,
    limits: &InputLimits,
    i: usize,
    levels: &Levels,
    into: &mut Vec<Levels>,
) -> Result<(), AllocError>
    requires { i < length limits.now.keys }
    ensures { OnOk result (into.new.items ≡ into.old.items ++ with_each_next_key limits.now i levels.now) }
{
    into.push(levels.with_next_key(alloc, Bit::ZERO)?)?;
    if limits.keys()[i].get() >= 1 && keys_down(levels.keys()) < limits.together() as usize {
        into.push(levels.with_next_key(alloc, Bit::ONE)?)?;
    }
    Ok(())
}

/// Extends each of the levels `all`, which are levels of the first `i` keys, by each level of key `i` that the limits
/// allow. Returns the extended levels. Fails if memory runs out.
fn with_next_keys(
    alloc: Global,
    limits: &InputLimits,
    i: usize,
    all: &[Levels],
) -> Result<Vec<Levels>, AllocError>
    requires { i < length limits.now.keys }
    ensures { IfOk result (λ more. more.items ≡ flat_map (with_each_next_key limits.now i) all.now) }
{
    let mut more = Vec::new(alloc);
    for levels in all {
        push_with_next_key(alloc, limits, i, levels, &mut more)?;
    }
    Ok(more)
}

/// Returns levels without keys, one for each level of TEST that the limits allow. Fails if memory runs out.
fn levels_without_keys(alloc: Global, limits: &InputLimits) -> Result<Vec<Levels>, AllocError>
    ensures { IfOk result (λ all. all.items ≡ levels_of_first_keys limits.now 0) }
{
    let mut all = Vec::new(alloc);
    all.push(Levels {
        keys: Vec::new(alloc),
        test: Bit::ZERO,
    })?;
    if limits.allow_test_level(1) {
        all.push(Levels {
            keys: Vec::new(alloc),
            test: Bit::ONE,
        })?;
    }
    Ok(all)
}

/// Returns all levels of keys and TEST that the limits allow. Returns `None` if there are more than 255. Fails if
/// memory runs out.
pub(crate) fn all_allowed_levels(
    alloc: Global,
    limits: &InputLimits,
) -> Result<Option<Vec<Levels>>, AllocError>
    ensures few { IfOk result (λ found. IfSome found (λ all. length all.items ≤ 255)) }
    ensures all { IfOk result (λ found. IfSome found (λ all.
        (b : BoardParts) → key_count b ≡ length limits.now.keys → AreAllAllowedLevels limits.now b all.items)) }
{
    let mut all = levels_without_keys(alloc, limits)?;
    for i in 0..limits.keys().len() {
        all = with_next_keys(alloc, limits, i, &all)?;
        if all.len() > MAX_LEVELS {
            return Ok(None);
        }
    }
    Ok(Some(all))
}

impl SearchMachine {
    /// Returns the value that the selected ROM's port reads at these levels of the keys. Each key must be at its
    /// highest level when the function is called, and is at that level again when it returns.
    fn port_at(&mut self, levels: &Levels, limits: &InputLimits) -> u8
        requires levels { length levels.now.keys ≡ key_count self.old.1.board }
        requires keys { self.old.1.keys ≡ limits.now.keys }
        ensures value { result ≡ port_of (with_levels levels.now self.old).1 }
        ensures same { self.new ≡ self.old }
    {
        self.show_state_is_valid();
        set_keys(&mut self.rig, levels.keys());
        let value = self
            .rig
            .read_port(Nibble::high_of(self.rig.rom_src()))
            .get();
        set_keys(&mut self.rig, limits.keys());
        value
    }

    /// Returns the value that an instruction reads at these input levels. Each key must be at its highest level when
    /// the function is called, and is at that level again when it returns.
    fn value_read_by(&mut self, op: Op, levels: &Levels, limits: &InputLimits) -> u8
        requires levels { length levels.now.keys ≡ key_count self.old.1.board }
        requires keys { self.old.1.keys ≡ limits.now.keys }
        ensures value { result ≡ value_read_by (Some op) levels.now self.old.1 }
        ensures same { self.new ≡ self.old }
    {
        match input_source_of(op) {
            InputSource::NoInput => 0,
            InputSource::Port => self.port_at(levels, limits),
            InputSource::Test => levels.test().get(),
        }
    }

    /// Returns the value that the instruction at the program counter reads at these input levels. Each key must be at
    /// its highest level when the function is called, and is at that level again when it returns.
    pub(crate) fn value_read_at(&mut self, levels: &Levels, limits: &InputLimits) -> u8
        requires levels { length levels.now.keys ≡ key_count self.old.1.board }
        requires keys { self.old.1.keys ≡ limits.now.keys }
        ensures value { result ≡ value_read levels.now self.old }
        ensures same { self.new ≡ self.old }
    {
        let at = self.cpu.regs().pc;
        match mcs_board::instruction(&self.cpu, &self.rig, at) {
            Some(op) => self.value_read_by(op, levels, limits),
            None => 0,
        }
    }
}

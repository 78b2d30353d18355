//! Runs a machine from one read of an input to the next.
ghost use Rattle.std.specs.Prelude.{◌≡◌, ◌<◌, ◌≤◌, ◌+◌, ◌%◌, ◌==◌, ℕ, ◌||◌, ◌&&◌, ◌⊎◌, true, false, length, nat_lt, IfSome, Some, IsTrue, nat_le, ◌-◌};
ghost use Rattle.mcs_model.specs.Boards.{key_count};
ghost use Rattle.mcs_model.specs.Validity.{AreBelow};
ghost use Rattle.mcs_model.specs.Effect.{address_on_page_of, instruction_at};
ghost use Rattle.mcs_model.specs.Levels.{port_of};
ghost use Rattle.mcs_model.specs.Registers.{register_of};
ghost use Rattle.mcs_model.specs.declared.op.Op.TheVariants.{Rdr};
ghost use Rattle.mcs_drive.specs.InputReads.{reads_input};
ghost use Rattle.mcs_drive.specs.TrackedMachine.{calls_after, cycled, next_reads_input, next_op, open_calls_after, shows_next_mark, condition_holds_at};
ghost use Rattle.mcs_check.specs.Conditions.{meets_none, observer_of_property};
ghost use Rattle.mcs_check.specs.StateVectors.{KeepsBoardAndInputs};
ghost use Rattle.mcs_check.specs.Memory.{KeepsMemory, cycle_writes_memory, is_input, op_writes_memory};
ghost use Rattle.mcs_check.specs.Scopes.{cycle_may_change_scope, makes_mistake_in_scope};
ghost use Rattle.mcs_check.specs.ReadPoints.{Begins, ReadsTestPin, Reads, CannotRead, HasRead, HasSpun, Reaches, Spins, is_bit_subset, set_bits, unpressed_port_value, with_seen};

use crate::cells::StateByte;
use crate::common_mistakes::Mistakes;
use crate::last_vector::both;
use crate::limits::InputLimits;
use crate::property::Property;
use crate::reading::{InputSource, input_source_of};
use crate::replica::SearchMachine;
use crate::scope::Scope;
use crate::stopwatch::StopwatchCycles;
use mcs_model::op::Op;
use mcs_model::regs::Regs;
use mcs_nibble::{Addr, Bit, Nibble, RegNo};
use mcs_rom4001::read_port_of;

/// Returns whether every bit that is set in `n` is also set in `most`.
fn is_bit_subset(n: Nibble, most: Nibble) -> bool
    ensures { result ≡ is_bit_subset n most }
{
    n.bit(0).get() <= most.bit(0).get()
        && n.bit(1).get() <= most.bit(1).get()
        && n.bit(2).get() <= most.bit(2).get()
        && n.bit(3).get() <= most.bit(3).get()
}

/// Returns whether each bit of `value` is between the same bit of `least` and the same bit of `most`, bounds included.
/// `value` must be less than 16.
fn lies_between(least: Nibble, value: u8, most: Nibble) -> bool
    requires { value < 16 }
    ensures { result ≡ (is_bit_subset least value && is_bit_subset value most) }
{
    let value = Nibble::low_of(value);
    is_bit_subset(least, value) && is_bit_subset(value, most)
}

/// Returns the number of bits of `n` that are 1.
fn set_bits(n: Nibble) -> u8
    ensures { result ≡ set_bits n }
{
    n.bit(0).get() + n.bit(1).get() + n.bit(2).get() + n.bit(3).get()
}

/// Returns whether `value` lies between `least` and `most`, and has at most `together` more bits that are 1 than
/// `least`. `value` must be less than 16.
fn is_readable(least: Nibble, value: u8, most: Nibble, together: u32) -> bool
    requires { value < 16 }
    ensures { result ≡ ((is_bit_subset least value && is_bit_subset value most) && nat_le (set_bits value - set_bits least) together) }
{
    let more = set_bits(Nibble::low_of(value)).saturating_sub(set_bits(least));
    lies_between(least, value, most) && u32::from(more) <= together
}

/// Returns the number of open calls after an instruction, if `calls` are open before it.
fn calls_after_op(op: &Op, calls: u8) -> u8
    ensures { result ≡ calls_after (Some op.now) calls }
{
    match op {
        Op::Jms(_, _) => { if calls < 3 { calls + 1 } else { calls } }
        Op::Bbl(_) => calls.saturating_sub(1),
        _ => calls,
    }
}

/// The maximum number of cycles before the last pass of an ISZ that jumps to itself: 15 passes of 2 cycles.
const MAX_CYCLES_BEFORE_LAST_PASS: u32 = 30;

/// A run from one read of an input to the next.
#[derive(Clone, Copy, Debug)]
pub struct Run {
    /// True only if the run wrote no RAM nibble and no status character.
    pub keeps_memory: bool,
    /// The number of cycles.
    pub cycles: u32,
}

/// Facts about the next cycle that are known before this cycle runs. Some facts depend on the scope of the conditions.
#[derive(Clone, Copy)]
struct NextCycleFacts {
    /// True if the cycle may read an input.
    may_read: bool,
    /// True if the scope includes mistakes and the cycle makes one.
    makes_mistake_in_scope: bool,
    /// True if the cycle may change a register or a chip in the scope.
    changes: bool,
    /// True if the cycle writes no RAM nibble and no status character.
    keeps_memory: bool,
    /// The number of open calls after the cycle.
    calls: u8,
    /// The register of an ISZ that jumps to itself, if the cycle begins this ISZ and the ISZ will jump. `None` in all
    /// other cases, and if the cycle can change the stopwatch or the count of marks seen.
    spins: Option<RegNo>,
}

/// Returns whether an instruction may read an input.
fn may_read(op: Op) -> bool
    ensures { result ≡ false → reads_input (Some op) ≡ false }
{
    match input_source_of(op) {
        InputSource::NoInput => false,
        InputSource::Port | InputSource::Test => true,
    }
}

/// Returns whether an instruction writes a RAM nibble or a status character.
fn writes_memory(op: Op) -> bool
    ensures { result ≡ op_writes_memory op }
{
    match op {
        Op::Wrm | Op::Wr0 | Op::Wr1 | Op::Wr2 | Op::Wr3 => true,
        _ => false,
    }
}

/// Returns whether the jump target of a two-word instruction at address `at` is `at` itself. `word` is the second
/// word, the lower byte of the target.
fn jumps_to_itself(at: Addr, word: u8) -> bool
    ensures { result ≡ (address_on_page_of ((at + 2) % 4096) word == at) }
{
    Addr::on_page(at.plus(2).page(), word).get() == at.get()
}

/// Returns whether an ISZ of register `r` at the program counter, with `word` as its second word, will jump to
/// itself. Returns false if the next cycle is the second one of an instruction.
fn begins_spin_pass(regs: &Regs, r: RegNo, word: u8) -> bool
    ensures { result ≡ (regs.now.owed == 0 && address_on_page_of ((regs.now.pc + 2) % 4096) word == regs.now.pc
        && nat_lt (register_of regs.now r) 15) }
{
    regs.owed == 0 && jumps_to_itself(regs.pc, word) && regs.register(r).get() < 15
}

/// Returns whether the passes of an ISZ that jumps to itself may run in one step. At least
/// `MAX_CYCLES_BEFORE_LAST_PASS` cycles must be left, and the ISZ must not be at the address at which the run compares
/// state vectors (`is_sought`). The scope must cover all conditions that must never be met and all that begin the
/// stopwatch (`is_covered`). The next cycle must change nothing in the scope and make no mistake.
fn may_spin(left: u32, is_sought: bool, is_covered: bool, next_cycle_facts: &NextCycleFacts) -> bool
    ensures left { result ≡ true → 30 ≤ left }
    ensures scope { result ≡ true → (is_covered ≡ true) × ((next_cycle_facts.now.makes_mistake_in_scope ≡ false) × (next_cycle_facts.now.changes ≡ false)) }
{
    left >= MAX_CYCLES_BEFORE_LAST_PASS
        && !is_sought
        && is_covered
        && !next_cycle_facts.makes_mistake_in_scope
        && !next_cycle_facts.changes
}

impl SearchMachine {
    /// Returns the input that the next cycle reads.
    pub fn source(&self) -> InputSource
        ensures { Reads self.now result }
    {
        let regs = self.cpu.regs();
        if regs.owed == 1 {
            return InputSource::NoInput;
        }
        match mcs_board::instruction(&self.cpu, &self.rig, regs.pc) {
            Some(op) => input_source_of(op),
            None => InputSource::NoInput,
        }
    }

    /// Returns the program counter.
    pub(crate) fn program_counter(&self) -> Addr {
        self.cpu.regs().pc
    }

    /// Returns the number of open calls after the next cycle.
    fn open_calls_after(&self) -> u8
        ensures { result ≡ open_calls_after self.now.0 self.now.1 self.now.2.calls }
    {
        let registers = self.cpu.regs();
        if registers.owed == 1 {
            return self.calls;
        }
        match mcs_board::instruction(&self.cpu, &self.rig, registers.pc) {
            Some(op) => calls_after_op(&op, self.calls),
            None => self.calls,
        }
    }

    /// Returns the register of `op`, the instruction at the program counter, if `op` is an ISZ that will jump to
    /// itself. Returns `None` in all other cases, and if the next cycle can change the stopwatch or the count of marks
    /// seen.
    fn spins(&self, property: &Property, op: Op) -> Option<RegNo>
        requires { instruction_at self.now.0 self.now.1 ≡ Some op }
        ensures { IfSome result (λ r. Spins (observer_of_property property.now) r self.now) }
    {
        match op {
            Op::Isz(r, word) => {
                if self.is_observer_idle(property) && begins_spin_pass(&self.cpu.regs(), r, word) {
                    Some(r)
                } else {
                    None
                }
            }
            _ => None,
        }
    }

    /// Returns the known facts about the next cycle, for a given scope.
    fn next_cycle_facts(&self, property: &Property, scope: &Scope) -> NextCycleFacts
        ensures quiet { result.may_read ≡ false → next_reads_input self.now ≡ false }
        ensures makes_mistake_in_scope { result.makes_mistake_in_scope ≡ makes_mistake_in_scope scope.now self.now }
        ensures changes { result.changes ≡ cycle_may_change_scope scope.now (next_op self.now.0 self.now.1) }
        ensures memory { result.keeps_memory ≡ true → cycle_writes_memory (next_op self.now.0 self.now.1) ≡ false }
        ensures calls { result.calls ≡ open_calls_after self.now.0 self.now.1 self.now.2.calls }
        ensures spins { IfSome result.spins (λ r. Spins (observer_of_property property.now) r self.now) }
    {
        let registers = self.cpu.regs();
        if registers.owed == 1 {
            return NextCycleFacts {
                may_read: false,
                makes_mistake_in_scope: false,
                changes: false,
                keeps_memory: true,
                calls: self.calls,
                spins: None,
            };
        }
        match mcs_board::instruction(&self.cpu, &self.rig, registers.pc) {
            Some(op) => {
                let calls = calls_after_op(&op, self.calls);
                NextCycleFacts {
                    may_read: may_read(op),
                    makes_mistake_in_scope: scope.mistakes
                        && self.op_makes_mistake(&Mistakes::ALL, &op),
                    changes: scope.changes(op),
                    keeps_memory: !writes_memory(op),
                    calls,
                    spins: self.spins(property, op),
                }
            }
            None => NextCycleFacts {
                may_read: false,
                makes_mistake_in_scope: scope.mistakes,
                changes: false,
                keeps_memory: true,
                calls: self.calls,
                spins: None,
            },
        }
    }

    /// Runs one cycle. `calls` is the number of open calls after the cycle, and `seen` the number of marks seen.
    #[inline(always)]
    fn cycle(&mut self, property: &Property, calls: u8, seen: u8)
        requires { calls ≡ open_calls_after self.old.0 self.old.1 self.old.2.calls }
        ensures { self.new ≡ with_seen seen (cycled (observer_of_property property.now) self.old) }
    {
        let elapsed = self.elapsed_after(property);
        let _cycle = mcs_board::cycle(&mut self.cpu, &mut self.rig);
        self.calls = calls;
        self.elapsed = elapsed;
        self.seen = seen;
    }

    /// Runs one cycle that shows no mark. `calls` is the number of open calls after the cycle. `is_open` is true if a
    /// conjunction in `opens` is met.
    #[inline(always)]
    fn cycle_without_mark(&mut self, property: &Property, calls: u8, is_open: bool)
        requires calls { calls ≡ open_calls_after self.old.0 self.old.1 self.old.2.calls }
        requires open { is_open ≡ condition_holds_at (observer_of_property property.now) self.old }
        requires unseen { (value : ℕ) → shows_next_mark (observer_of_property property.now) self.old value ≡ false }
        ensures { self.new ≡ cycled (observer_of_property property.now) self.old }
    {
        let seen = self.seen_after(property, is_open, false);
        self.cycle(property, calls, seen);
    }

    /// Runs all passes but the last of an ISZ that jumps to itself. Returns the number of cycles that they take.
    fn spin(&mut self, property: &Property, r: RegNo) -> u32
        requires { Spins (observer_of_property property.now) r self.old }
        ensures { HasSpun (observer_of_property property.now) result self.old self.new }
    {
        self.show_state_is_valid();
        let passes = 15 - self.cpu.regs().register(r).get();
        self.cpu.set_register(r, Nibble::low_of(15));
        2 * u32::from(passes)
    }

    /// Runs one cycle that reads no input. If `may_spin` is true and the cycle begins an ISZ that will jump to
    /// itself, runs all passes of this ISZ except the last instead. `is_open` is true if a conjunction in `opens` is
    /// met. Returns the number of cycles that ran.
    fn run_step(
        &mut self,
        property: &Property,
        next_cycle_facts: &NextCycleFacts,
        may_spin: bool,
        is_open: bool,
    ) -> u32
        requires calls { next_cycle_facts.now.calls ≡ open_calls_after self.old.0 self.old.1 self.old.2.calls }
        requires spins { IfSome next_cycle_facts.now.spins (λ r. Spins (observer_of_property property.now) r self.old) }
        requires quiet { next_reads_input self.old ≡ false }
        requires open { is_open ≡ condition_holds_at (observer_of_property property.now) self.old }
        ensures { ((result ≡ 1) × (self.new ≡ cycled (observer_of_property property.now) self.old)) ⊎ ((may_spin ≡ true) × HasSpun (observer_of_property property.now) result self.old self.new) }
    {
        if may_spin {
            if let Some(r) = next_cycle_facts.spins {
                return self.spin(property, r);
            }
        }
        self.cycle_without_mark(property, next_cycle_facts.calls, is_open);
        1
    }

    /// Returns whether a search may try `value` as the choice of the next cycle, which reads no input. Only the choice
    /// 0 is tried, unless the cycle is the second cycle of an instruction.
    fn may_try_without_read(&self, value: u8) -> bool
        ensures { result ≡ (value == 0 || self.now.0.owed == 1) }
    {
        value == 0 || self.cpu.regs().owed == 1
    }

    /// Returns the value that the selected ROM's port reads while no key is pressed, or 0 if the ROM is absent.
    fn unpressed_port(&self) -> Nibble
        ensures { result ≡ unpressed_port_value self.now.1 }
    {
        match self.rig.board().mask(self.rig.rom_src() / 16) {
            Some(mask) => read_port_of(&mask, Nibble::ZERO),
            None => Nibble::ZERO,
        }
    }

    /// Returns the value that the selected port reads with no key pressed, and the value that this port reads in the
    /// current state.
    pub(crate) fn port_bounds(&self) -> (Nibble, Nibble)
        ensures least { result.0 ≡ unpressed_port_value self.now.1 }
        ensures most { result.1 ≡ port_of self.now.1 }
    {
        let most = self.rig.read_port(Nibble::high_of(self.rig.rom_src()));
        (self.unpressed_port(), most)
    }

    /// Returns false only if the next cycle cannot read this value at any levels of the keys and TEST within the
    /// limits. Each key of the machine must be at its highest level, and `value` must be less than 16. `least` and
    /// `most` are the values of `port_bounds`.
    pub(crate) fn can_read(
        &self,
        limits: &InputLimits,
        source: InputSource,
        least: Nibble,
        most: Nibble,
        value: u8,
    ) -> bool
        requires reads { Reads self.now source }
        requires fit { AreBelow (key_count self.now.1.board) 2 self.now.1.keys }
        requires keys { self.now.1.keys ≡ limits.now.keys }
        requires least { least ≡ unpressed_port_value self.now.1 }
        requires most { most ≡ port_of self.now.1 }
        requires value { value < 16 }
        ensures { result ≡ false → CannotRead limits.now value self.now }
    {
        match source {
            InputSource::NoInput => self.may_try_without_read(value),
            InputSource::Test => limits.allow_test_level(value),
            InputSource::Port => is_readable(least, value, most, limits.together()),
        }
    }

    /// Runs the next cycle, an RDR, as if it read this value.
    fn read_port(&mut self, property: &Property, value: u8)
        requires reads { Begins (λ op. op ≡ Rdr) self.old }
        requires value { value < 16 }
        ensures read { HasRead (observer_of_property property.now) value self.old self.new }
        ensures keeps { KeepsBoardAndInputs self.old.1 self.new.1 }
        ensures memory { KeepsMemory self.old.1 self.new.1 }
    {
        let shown = self.shows_next_mark(property, value);
        let seen = self.seen_after(property, property.opens(self), shown);
        let calls = self.open_calls_after();
        self.cycle(property, calls, seen);
        self.cpu.set_acc(Nibble::low_of(value));
    }

    /// Runs the next cycle, a JCN that tests TEST, with TEST at this level. Restores TEST afterwards.
    fn read_test(&mut self, property: &Property, value: u8)
        requires reads { Begins ReadsTestPin self.old }
        requires value { value < 2 }
        ensures read { HasRead (observer_of_property property.now) value self.old self.new }
        ensures keeps { KeepsBoardAndInputs self.old.1 self.new.1 }
        ensures memory { KeepsMemory self.old.1 self.new.1 }
    {
        self.show_state_is_valid();
        let level = self.rig.test_level();
        self.rig.set_test(Bit::low_of(value));
        let calls = self.open_calls_after();
        let is_open = property.opens(self);
        self.cycle_without_mark(property, calls, is_open);
        self.rig.set_test(level);
    }

    /// Runs the next cycle, which reads no input.
    fn run_without_read(&mut self, property: &Property, value: u8)
        requires { next_reads_input self.old ≡ false }
        ensures read { HasRead (observer_of_property property.now) value self.old self.new }
        ensures keeps { KeepsBoardAndInputs self.old.1 self.new.1 }
    {
        self.show_state_is_valid();
        let calls = self.open_calls_after();
        let is_open = property.opens(self);
        self.cycle_without_mark(property, calls, is_open);
    }

    /// Runs the next cycle as if it read this value. Returns false, without running the cycle, if the value is out of
    /// range: above 15 for a port, or above 1 for TEST.
    pub fn read(&mut self, property: &Property, source: InputSource, value: u8) -> bool
        requires reads { Reads self.old source }
        ensures read { IsTrue result → HasRead (observer_of_property property.now) value self.old self.new }
        ensures keeps { KeepsBoardAndInputs self.old.1 self.new.1 }
        ensures memory { is_input source ≡ true → KeepsMemory self.old.1 self.new.1 }
    {
        match source {
            InputSource::NoInput => {
                self.run_without_read(property, value);
                true
            }
            InputSource::Port => {
                if value >= 16 {
                    return false;
                }
                self.read_port(property, value);
                true
            }
            InputSource::Test => {
                if value >= 2 {
                    return false;
                }
                self.read_test(property, value);
                true
            }
        }
    }

    /// Returns whether the program counter is `at` and `vector` is the machine's state vector for this layout.
    fn is_back_at_vector(&self, layout: &[StateByte], vector: &[u8], at: Addr) -> bool
        requires { length vector.now ≡ length layout.now }
    {
        self.cpu.regs().pc.get() == at.get() && self.matches_vector(layout, vector)
    }

    /// Returns whether the property holds. Skips the check if the scope covers all conditions (`is_known`), the last
    /// step changed nothing in the scope, and the next cycle makes no mistake.
    fn property_still_holds(
        &self,
        property: &Property,
        is_known: bool,
        changed: bool,
        makes_mistake_in_scope: bool,
    ) -> bool
        requires { is_known ≡ true → changed ≡ false → makes_mistake_in_scope ≡ false → meets_none property.now.never_lists self.now ≡ true }
        ensures { result ≡ true → meets_none property.now.never_lists self.now ≡ true }
    {
        is_known && !changed && !makes_mistake_in_scope || property.keeps(self)
    }

    /// Returns whether a conjunction in `opens` is met. If the scope covers all conditions in `opens` (`is_known`) and
    /// the last step changed nothing in the scope, returns `was_open`, the result before that step.
    fn is_open(&self, property: &Property, is_known: bool, changed: bool, was_open: bool) -> bool
        requires { is_known ≡ true → changed ≡ false → was_open ≡ condition_holds_at (observer_of_property property.now) self.now }
        ensures { result ≡ condition_holds_at (observer_of_property property.now) self.now }
    {
        if is_known && !changed {
            was_open
        } else {
            property.opens(self)
        }
    }

    /// Returns whether the last step may have changed something in a scope. `changes` is true if the step may have
    /// changed a register or a chip in the scope. Before the step, `seen` was the number of marks seen, and the
    /// stopwatch showed `elapsed`.
    fn has_changed(&self, changes: bool, seen: u8, elapsed: StopwatchCycles) -> bool
        ensures { result ≡ false → (changes ≡ false) × ((self.now.2.seen ≡ seen) × (self.now.2.elapsed ≡ elapsed)) }
    {
        changes || self.seen != seen || self.elapsed.cycles() != elapsed.cycles()
    }

    /// Returns `run` if the property holds in the machine's current state, and `None` otherwise.
    fn outcome(&self, property: &Property, run: Run) -> Option<Run>
        ensures { IfSome result (λ same. (same ≡ run) × (meets_none property.now.never_lists self.now ≡ true)) }
    {
        if property.keeps(self) {
            Some(run)
        } else {
            None
        }
    }

    /// Runs until the next cycle may read an input, the machine has the state vector `vector` again, or `most` cycles
    /// have run. `at` is the program counter in that state vector. Returns `None` if the property fails at some step.
    pub fn run_to_read_point(
        &mut self,
        property: &Property,
        most: u32,
        layout: &[StateByte],
        vector: &[u8],
        at: Addr,
    ) -> Option<Run>
        requires { length vector.now ≡ length layout.now }
        ensures reaches { IfSome result (λ run. Reaches (observer_of_property property.now) (meets_none property.now.never_lists) run.cycles self.old self.new) }
        ensures keeps { KeepsBoardAndInputs self.old.1 self.new.1 }
        ensures memory { IfSome result (λ run. run.keeps_memory ≡ true → KeepsMemory self.old.1 self.new.1) }
    {
        let scope = property.scope();
        let has_all_lists = property.is_covered_by(&scope);
        let is_covered = both(has_all_lists, property.is_beginning_covered_by(&scope));
        let has_opening = property.is_opening_covered_by(&scope);
        let mut changed = true;
        let mut is_open = false;
        let mut keeps_memory = true;
        let mut left = most;
        for _ in 0..most {
            let run = Run {
                keeps_memory,
                cycles: most - left,
            };
            if left == 0 {
                return self.outcome(property, run);
            }
            let next_cycle_facts = self.next_cycle_facts(property, &scope);
            if !self.property_still_holds(
                property,
                has_all_lists,
                changed,
                next_cycle_facts.makes_mistake_in_scope,
            ) {
                return None;
            }
            // If the machine has the same state vector again, the run is in a loop that reads no input. Further passes
            // reach no new state.
            if next_cycle_facts.may_read || self.is_back_at_vector(layout, vector, at) {
                return Some(run);
            }
            let is_sought = self.program_counter().get() == at.get();
            let may = may_spin(left, is_sought, is_covered, &next_cycle_facts);
            is_open = self.is_open(property, has_opening, changed, is_open);
            let (seen, elapsed) = (self.seen, self.elapsed);
            left -= self.run_step(property, &next_cycle_facts, may, is_open);
            changed = self.has_changed(next_cycle_facts.changes, seen, elapsed);
            keeps_memory = both(keeps_memory, next_cycle_facts.keeps_memory);
        }
        let cycles = most - left;
        self.outcome(
            property,
            Run {
                keeps_memory,
                cycles,
            },
        )
    }
}

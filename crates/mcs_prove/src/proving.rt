//! Proves, for all allowed inputs, that a machine never meets given conditions. A board's text and a program's text
//! define the machine.
ghost use Rattle.std.specs.Prelude.{◌≡◌, ◌≤◌, ◌&&◌, [], IfOk, map};
ghost use Rattle.mcs_search.specs.declared.searching.TheConstants.{MAX_STATES};
ghost use Rattle.mcs_model.specs.declared.board.BoardParts.{BoardParts};
ghost use Rattle.mcs_drive.specs.DrivenRuns.{InputLimits};
ghost use Rattle.mcs_drive.specs.TrackedMachine.{TrackedMachine, no_observer};
ghost use Rattle.mcs_check.specs.Conditions.{meets_none, observer_of};
ghost use Rattle.mcs_prove.specs.AllowedInputs.{limits_of};
ghost use Rattle.mcs_prove.specs.MachineOfTexts.{IsProvedOf, IsRigOfTexts};
ghost use Rattle.mcs_prove.specs.Questions.{IsPropertyProvedOf, is_within_limit, keeps_property};

use crate::inputs::AllowedInputs;
use crate::machine::rig_with_program;
use crate::refusal::Refusal;
use mcs_asm::{AsmFault, FaultKind, assemble};
use mcs_board::BenchRig;
use mcs_check::{
    Condition, Conjunction, Marks, Outcome, Property, SearchMachine, StopwatchCycles, add_limit,
    add_mark_requirement, check_all,
};
use mcs_cpu4004::Cpu;
use mcs_search::MAX_STATES;
use mcs_sets::check_by_sets;
use mcs_wiring::{WiringFault, board_of};
use std::alloc::{AllocError, Global};

/// Returns the refusal for an assembler error.
fn program_refusal(fault: AsmFault) -> Refusal {
    match fault.kind {
        FaultKind::NoMemory => Refusal::NoMemory,
        FaultKind::Refused(why) => Refusal::Program(fault.line, why),
    }
}

/// Returns the rig that a board's text and a program's text define.
fn rig_of(alloc: Global, board: &str, program: &str) -> Result<BenchRig, Refusal>
    ensures { IfOk result (IsRigOfTexts board.now program.now) }
{
    let board_with_parts = match board_of(alloc, board) {
        Ok(board_with_parts) => board_with_parts,
        Err(WiringFault::NoMemory) => return Err(Refusal::NoMemory),
        Err(fault) => return Err(Refusal::Wiring(fault)),
    };
    let image = match assemble(alloc, program) {
        Ok(image) => image,
        Err(fault) => return Err(program_refusal(fault)),
    };
    match rig_with_program(alloc, &board_with_parts, &image)? {
        None => Err(Refusal::NoRom),
        Some(rig) => Ok(rig),
    }
}

/// The property to prove, and the stopwatch and the marks to which the property may refer.
#[derive(Drop)]
pub struct Goal {
    /// Lists of conditions. The conditions of a list must never all be met at once.
    pub never_lists: Vec<Vec<Condition>>,
    /// Lists of conditions. The stopwatch begins when all conditions of a list are met.
    pub begins: Vec<Vec<Condition>>,
    /// Lists of conditions. The stopwatch ends when all conditions of a list are met.
    pub ends: Vec<Vec<Condition>>,
    /// The maximum number of cycles that the stopwatch may show, if there is a limit.
    pub limit: Option<StopwatchCycles>,
    /// Lists of conditions. The conditions of a list must not all be met before the marks were seen.
    pub opens: Vec<Vec<Condition>>,
    /// The marks, in their order.
    pub marks: Marks,
}

/// Converts lists of conditions to the conjunctions that a search uses.
fn conjunctions_of(
    alloc: Global,
    lists: Vec<Vec<Condition>>,
) -> Result<Vec<Conjunction>, AllocError>
    ensures { IfOk result (λ conjunctions. conjunctions.items ≡ map (λ n. n.items) lists.items) }
{
    let mut conjunctions = Vec::new(alloc);
    for conditions in lists {
        conjunctions.push(Conjunction::of(conditions))?;
    }
    Ok(conjunctions)
}

/// Returns the conjunctions that must never be met: those of `never_lists` and, if there is a limit, those that are met
/// when the stopwatch shows more cycles than the limit.
fn with_limit(
    alloc: Global,
    never_lists: Vec<Vec<Condition>>,
    limit: Option<StopwatchCycles>,
) -> Result<Vec<Conjunction>, AllocError>
    ensures { IfOk result (λ conjunctions. (s : TrackedMachine) →
        meets_none conjunctions.items s ≡ (meets_none (map (λ n. n.items) never_lists.items) s && is_within_limit limit s)) }
{
    let mut conjunctions = conjunctions_of(alloc, never_lists)?;
    if let Some(limit) = limit {
        add_limit(alloc, &mut conjunctions, limit)?;
    }
    Ok(conjunctions)
}

/// Returns the conjunctions that must never be met. They are those of `with_limit`, and those that are met when a
/// conjunction in `opens` is met before all marks were seen.
fn never_conjunctions(
    alloc: Global,
    never_lists: Vec<Vec<Condition>>,
    limit: Option<StopwatchCycles>,
    opens: &[Conjunction],
    marks: &Marks,
) -> Result<Vec<Conjunction>, AllocError>
    ensures { IfOk result (λ conjunctions. (s : TrackedMachine) →
        meets_none conjunctions.items s ≡ keeps_property (observer_of [] [] opens.now marks.now) (map (λ n. n.items) never_lists.items) limit s) }
{
    let mut conjunctions = with_limit(alloc, never_lists, limit)?;
    add_mark_requirement(alloc, &mut conjunctions, opens, marks)?;
    Ok(conjunctions)
}

/// Searches all runs of the machine that a board's text and a program's text define, for all inputs that `inputs`
/// allows. Checks the conditions, the stopwatch's limit and the marks after each cycle. The search uses at most
/// `max_states` states and about `memory` bytes. It splits each run of cycles without reads into steps of `pause`
/// cycles.
pub fn prove(
    alloc: Global,
    board: &str,
    program: &str,
    inputs: &AllowedInputs,
    goal: Goal,
    max_states: usize,
    memory: usize,
    pause: u32,
) -> Result<Outcome, Refusal>
    requires { max_states ≤ MAX_STATES }
    ensures { IfOk result (IsPropertyProvedOf board.now program.now (limits_of inputs.now)
        (observer_of (map (λ n. n.items) goal.begins.items) (map (λ n. n.items) goal.ends.items)
        (map (λ n. n.items) goal.opens.items) goal.marks)
        (map (λ n. n.items) goal.never_lists.items) goal.limit) }
{
    let rig = rig_of(alloc, board, program)?;
    let opens = conjunctions_of(alloc, goal.opens)?;
    let never_lists = never_conjunctions(alloc, goal.never_lists, goal.limit, &opens, &goal.marks)?;
    let begins = conjunctions_of(alloc, goal.begins)?;
    let ends = conjunctions_of(alloc, goal.ends)?;
    let limits = inputs.limits_of(alloc, rig.board())?;
    Ok(check_all(
        alloc,
        SearchMachine::of(Cpu::new(), rig),
        Property::of(never_lists, begins, ends, opens, goal.marks),
        limits,
        max_states,
        memory,
        pause,
    )?)
}

/// Tries to prove with sets of values that the machine never meets all conditions of a list at once. The machine is
/// defined by a board's text and a program's text. The proof is for all inputs, so it holds for any limits of the
/// inputs. Uses at most `max_entries` entries and about `memory` bytes.
pub fn prove_by_sets(
    alloc: Global,
    board: &str,
    program: &str,
    never_lists: &[Vec<Condition>],
    max_entries: usize,
    memory: usize,
) -> Result<Outcome, Refusal>
    ensures { IfOk result (λ outcome. (limits : BoardParts → InputLimits) →
        IsProvedOf board.now program.now limits no_observer (meets_none (map (λ n. n.items) never_lists.now)) outcome) }
{
    let mut rig = rig_of(alloc, board, program)?;
    let mut search_rig = rig_of(alloc, board, program)?;
    let outcome = check_by_sets(
        alloc,
        &Cpu::new(),
        &mut rig,
        &mut search_rig,
        never_lists,
        max_entries,
        memory,
    );
    Ok(outcome)
}

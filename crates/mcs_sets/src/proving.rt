//! Proves with sets of values that a machine never meets given conditions, for all levels of its keys and its TEST
//! pin.
ghost use Rattle.std.specs.Prelude.{◌≡◌, ◌<◌, IsTrue, ℕ, length, map, slice_index_or};
ghost use Rattle.mcs_drive.specs.DrivenRuns.{InputLimits};
ghost use Rattle.mcs_drive.specs.TrackedMachine.{no_observer, with_zero_counts};
ghost use Rattle.mcs_check.specs.Conditions.{meets_none};
ghost use Rattle.mcs_check.specs.OutcomeMeaning.{IsProved};
ghost use Rattle.mcs_sets.specs.declared.entries.Entry.{Entry};
ghost use Rattle.mcs_sets.specs.Excluding.{HoldsInEntry};

use crate::certifying::{entry_of, rig_is_valid, stays_covered};
use crate::entries::Entry;
use crate::excluding::{are_decidable, avoids_all_lists};
use crate::finding::{Certificate, Stop, find_certificate};
use crate::precision::{LEVELS, Level};
use crate::slicing::exact_registers;
use mcs_board::BenchRig;
use mcs_check::{Condition, Outcome};
use mcs_cpu4004::Cpu;
use std::alloc::Global;

/// The maximum number of bytes that an entry needs, with its links and its share of the index.
const ENTRY_BYTES: usize = 256;

/// Returns true only if no machine that entry `i` covers meets all conditions of a list in `never_lists`.
fn avoids_all_lists_at(
    rig: &BenchRig,
    entries: &[Entry],
    never_lists: &[Vec<Condition>],
    i: usize,
) -> bool
    requires { i < length entries.now }
    ensures { IsTrue result → (d : Entry) →
        HoldsInEntry rig.now.board rig.now.rom (meets_none (map (λ n. n.items) never_lists.now)) (slice_index_or entries.now i d) }
{
    avoids_all_lists(rig, &entries[i], never_lists)
}

/// Returns true only if no machine that any entry covers meets all conditions of a list in `never_lists`.
fn all_entries_avoid(rig: &BenchRig, entries: &[Entry], never_lists: &[Vec<Condition>]) -> bool
    ensures { IsTrue result → (k : ℕ) (d : Entry) → k < length entries.now →
        HoldsInEntry rig.now.board rig.now.rom (meets_none (map (λ n. n.items) never_lists.now)) (slice_index_or entries.now k d) }
{
    for i in 0..entries.len() {
        if !avoids_all_lists_at(rig, entries, never_lists, i) {
            return false;
        }
    }
    true
}

/// Checks a certificate for this machine, which has no open calls. Returns `Holds` if the check succeeds, otherwise
/// `GaveUp`.
fn check_certificate(
    cpu: &Cpu,
    rig: &mut BenchRig,
    entries: &[Entry],
    links: &[usize],
    never_lists: &[Vec<Condition>],
) -> Outcome
    ensures { (limits : InputLimits) → IsProved limits no_observer (meets_none (map (λ n. n.items) never_lists.now)) (with_zero_counts (cpu.now, rig.old)) result }
{
    rig_is_valid(rig);
    if !all_entries_avoid(rig, entries, never_lists) {
        return Outcome::GaveUp;
    }
    if !stays_covered(cpu, rig, entries, links) {
        return Outcome::GaveUp;
    }
    Outcome::Holds(entries.len())
}

/// Searches at one level of precision for a certificate in which no covered machine meets all conditions of a list in
/// `never_lists`. The search runs on `search_rig`, which has the board and the program of `rig`. `exact_before` has the
/// exact registers of the previous level. If this level has the same exact registers, returns `None` without a
/// search. Otherwise stores its exact registers in `exact_before`.
fn find_at_level(
    alloc: Global,
    cpu: &Cpu,
    rig: &BenchRig,
    search_rig: &mut BenchRig,
    never_lists: &[Vec<Condition>],
    max_entries: usize,
    level: Level,
    exact_before: &mut Vec<u16>,
) -> Result<Option<Certificate>, Stop> {
    let start = entry_of(cpu, rig);
    let exact = exact_registers(alloc, rig, start.at, level)?;
    if exact.as_slice() == exact_before.as_slice() {
        return Ok(None);
    }
    exact_before.clear();
    exact_before.extend_from_slice(exact.as_slice())?;
    let certificate = find_certificate(alloc, search_rig, &start, never_lists, exact, max_entries)?;
    Ok(Some(certificate))
}

/// Searches, level by level, for a certificate in which no covered machine meets all conditions of a list in
/// `never_lists`.
fn find_at_any_level(
    alloc: Global,
    cpu: &Cpu,
    rig: &BenchRig,
    search_rig: &mut BenchRig,
    never_lists: &[Vec<Condition>],
    max_entries: usize,
) -> Result<Certificate, Stop> {
    let mut last_stop = Stop::TooMany;
    let mut exact_before = Vec::new(alloc);
    for i in 0..LEVELS.len() {
        match find_at_level(
            alloc,
            cpu,
            rig,
            search_rig,
            never_lists,
            max_entries,
            LEVELS[i],
            &mut exact_before,
        ) {
            Ok(Some(certificate)) => return Ok(certificate),
            Ok(None) => {}
            Err(Stop::NoMemory(entries)) => return Err(Stop::NoMemory(entries)),
            Err(Stop::MayMeet) => last_stop = Stop::MayMeet,
            Err(Stop::TooMany) => {}
        }
    }
    Err(last_stop)
}

/// Tries to prove, with a certificate, that a machine without open calls never meets all conditions of a list in
/// `never_lists`, for all inputs. The certificate has at most `max_entries` entries and takes at most about `memory`
/// bytes. The search runs on `search_rig`, which has the board and the program of `rig`.
pub fn check_by_sets(
    alloc: Global,
    cpu: &Cpu,
    rig: &mut BenchRig,
    search_rig: &mut BenchRig,
    never_lists: &[Vec<Condition>],
    max_entries: usize,
    memory: usize,
) -> Outcome
    ensures { (limits : InputLimits) → IsProved limits no_observer (meets_none (map (λ n. n.items) never_lists.now)) (with_zero_counts (cpu.now, rig.old)) result }
{
    if !are_decidable(never_lists) {
        return Outcome::GaveUp;
    }
    let limit = max_entries.min(memory / ENTRY_BYTES);
    match find_at_any_level(alloc, cpu, rig, search_rig, never_lists, limit) {
        Ok(certificate) => check_certificate(
            cpu,
            rig,
            certificate.entries.as_slice(),
            certificate.links.as_slice(),
            never_lists,
        ),
        Err(Stop::NoMemory(entries)) => Outcome::NoMemory(entries),
        Err(Stop::TooMany) if limit < max_entries => Outcome::NoMemory(limit),
        Err(Stop::TooMany) => Outcome::TooMany,
        Err(Stop::MayMeet) => Outcome::GaveUp,
    }
}

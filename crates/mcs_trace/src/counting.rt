//! Counts of the instructions that a run would begin at each address.
ghost use Rattle.std.specs.Prelude.{◌≡◌, ◌<◌, ◌+◌, ◌%◌, ◌==◌, ◌&&◌, not, IfOk, length, slice_index, slice_set, replicate};
ghost use Rattle.mcs_model.specs.Command.{machine_of, stops_of};
ghost use Rattle.mcs_bench.specs.Runs.{stop_reason};
ghost use Rattle.mcs_trace.specs.RunCounts.{AreCountsOfRun, incremented_if};

use mcs_bench::Bench;
use mcs_model::regs::Regs;
use mcs_model::stop::Stop;
use mcs_nibble::Addr;
use std::alloc::{AllocError, Global};

/// The result of a counted run: its number of cycles, the reason why it stops, and two counts for each of the 4,096
/// addresses. `runs` counts the instructions that begin at the address. `jumps` counts only the instructions after
/// which the program counter is not that address plus 2.
#[derive(Drop)]
pub struct Counts {
    pub cycles: u32,
    pub stop: Stop,
    pub runs: Vec<u32>,
    pub jumps: Vec<u32>,
}

/// Returns a list with a count of 0 for each of the 4,096 addresses. Fails if memory cannot be allocated.
fn zeros(alloc: Global) -> Result<Vec<u32>, AllocError>
    ensures { IfOk result (λ numbers. numbers.items ≡ replicate 4096 0) }
{
    vec![in alloc; 0u32; 4096]
}

/// Adds 1 to the count of an address. The count must be below `u32::MAX`.
fn add_one(numbers: &mut Vec<u32>, at: Addr)
    requires len { length numbers.old.items ≡ 4096 }
    requires below_max { slice_index numbers.old.items at < u32.MAX }
    ensures { numbers.new.items
        ≡ slice_set numbers.old.items at (slice_index numbers.old.items at + 1) }
{
    let i = usize::from(at.get());
    numbers[i] += 1;
}

/// Counts the instruction at `before.pc` in `runs`, and also in `jumps` if `after.pc` is not that address plus 2.
/// `before` and `after` are the registers before and after the instruction. Counts nothing if a second cycle is
/// pending in `before`.
fn count_instruction(runs: &mut Vec<u32>, jumps: &mut Vec<u32>, before: &Regs, after: &Regs)
    requires runs { length runs.old.items ≡ 4096 }
    requires runs_below_max { slice_index runs.old.items before.now.pc < u32.MAX }
    requires jumps { length jumps.old.items ≡ 4096 }
    requires jumps_below_max { slice_index jumps.old.items before.now.pc < u32.MAX }
    ensures runs { runs.new.items
        ≡ incremented_if runs.old.items (before.now.owed == 0) before.now.pc }
    ensures jumps { jumps.new.items
        ≡ incremented_if jumps.old.items
        (before.now.owed == 0 && not (after.now.pc == (before.now.pc + 2) % 4096)) before.now.pc }
{
    if before.owed != 0 {
        return;
    }
    add_one(runs, before.pc);
    if after.pc != before.pc.plus(2) {
        add_one(jumps, before.pc);
    }
}

/// Returns the result of a run that ended in the current state of the bench. The reason to stop is `Outside` if no
/// cycle is possible. Otherwise the reason is `mark`, or `Ended` if `mark` is `None`.
fn counts_of(
    bench: &Bench,
    cycles: u32,
    mark: Option<Stop>,
    runs: Vec<u32>,
    jumps: Vec<u32>,
) -> Counts
    ensures cycles { result.cycles ≡ cycles }
    ensures stop { result.stop ≡ stop_reason (machine_of bench.now) mark }
    ensures runs { result.runs.items ≡ runs.items }
    ensures jumps { result.jumps.items ≡ jumps.items }
{
    Counts {
        cycles,
        stop: bench.stop_reason(mark),
        runs,
        jumps,
    }
}

/// Counts the instructions that a run of at most `n` cycles would begin at each address. The bench does not change.
/// Fails if memory cannot be allocated.
pub fn count_run(alloc: Global, n: u32, bench: &Bench) -> Result<Counts, AllocError>
    ensures { IfOk result (λ counts. AreCountsOfRun (stops_of bench.now) n (machine_of bench.now) counts) }
{
    let mut runs = zeros(alloc)?;
    let mut jumps = zeros(alloc)?;
    let mut copy = bench.copy(alloc)?;
    let mut done = 0;
    while done < n {
        let before = copy.regs();
        // The call of `get` gives the prover the range of the address.
        let _at = before.pc.get();
        match copy.continue_run(n - done) {
            None => return Ok(counts_of(&copy, done, None, runs, jumps)),
            Some(executed) => {
                count_instruction(&mut runs, &mut jumps, &before, &copy.regs());
                done += executed.cycles;
                if let Some(why) = executed.mark {
                    return Ok(counts_of(&copy, done, Some(why), runs, jumps));
                }
            }
        }
    }
    Ok(counts_of(&copy, n, None, runs, jumps))
}

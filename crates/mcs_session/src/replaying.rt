//! The state that a snapshot and the records after it represent.
ghost use Rattle.std.specs.Prelude.{◌≡◌, IfOk, IfSome, IfNone};
ghost use Rattle.mcs_model.specs.BenchState.{BenchState};
ghost use Rattle.mcs_session.specs.Invariant.{IsReplayed};
ghost use Rattle.mcs_session.specs.Cycles.{replay_cycles};
ghost use Rattle.mcs_session.specs.Represents.{RecordsRepresent};

use mcs_bench::Bench;
use mcs_codec::{Version, command_of, versioned_bench_of};
use mcs_journal::Records;
use mcs_model::command::Command;
use mcs_model::limits::REPLAY_CYCLES;
use std::alloc::{AllocError, Global};

/// The result of a replay: the bench after the commands of a log, and the cycle count and the
/// version of the log.
#[derive(Drop)]
pub struct Replayed {
    pub bench: Bench,
    pub cycles: u32,
    /// The version of the snapshot and the records.
    pub version: Version,
}

/// Returns the cycle count of a command: the number of instruction cycles that its replay may take.
pub(crate) fn replay_cycles(command: &Command) -> u32
    ensures { result ≡ replay_cycles command.now }
{
    match command {
        Command::Run(cycles) => *cycles,
        Command::Step => 2,
        _ => 0,
    }
}

/// Returns the bench that a snapshot and the records after it represent, or `None` if they
/// represent no state. The snapshot determines the version of the records. Fails if memory runs
/// out.
pub(crate) fn replay(
    alloc: Global,
    snap: &[u8],
    records: &Records,
) -> Result<Option<Replayed>, AllocError>
    ensures some { IfOk result (λ found.
        IfSome found (λ r. IsReplayed r.version snap.now records.now r.cycles r.bench)) }
    ensures none { IfOk result (λ found.
        IfNone found ((v : Version) (s : BenchState) → RecordsRepresent v snap.now records.now s → ⊥)) }
{
    let (version, mut bench) = match versioned_bench_of(alloc, snap) {
        Ok(Some(read)) => read,
        Ok(None) => return Ok(None),
        Err(refused) => return Err(refused),
    };
    let mut cycles = 0;
    let mut at = 0;
    while at < records.len() {
        let command = match command_of(alloc, records.get(at)) {
            Ok(Some(command)) => command,
            Ok(None) => return Ok(None),
            Err(refused) => return Err(refused),
        };
        if !version.has(&command) {
            return Ok(None);
        }
        if bench.check(&command).is_err() {
            return Ok(None);
        }
        let more = replay_cycles(&command);
        if more > REPLAY_CYCLES - cycles {
            return Ok(None);
        }
        let _reply = bench.apply(&command);
        cycles += more;
        at += 1;
    }
    Ok(Some(Replayed {
        bench,
        cycles,
        version,
    }))
}

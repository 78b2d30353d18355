//! The answer to `count`.
ghost use Rattle.std.specs.Prelude.{◌≡◌, ◌+◌, ◌<◌, ◌++◌, [], codes, length, IfOk, if◌then◌else◌, slice_index};
ghost use Rattle.std.specs.Fmt.{decimal};
ghost use Rattle.mcs_model.specs.Command.{machine_of};
ghost use Rattle.mcs_model.specs.QueryText.{address_text};
ghost use Rattle.mcs_model.specs.TextLines.{as_line};
ghost use Rattle.mcs_probe.specs.Forecast.{is_branch};
ghost use Rattle.mcs_answers.specs.ForecastTexts.{count_answer};

use crate::digits::{put, put_address};
use crate::forecast::put_head;
use crate::numbers::put_word_and_number;
use crate::size::ANSWER_BYTES;
use arrayvec::ArrayVec;
use mcs_bench::Bench;
use mcs_model::op::Op;
use mcs_nibble::Addr;
use mcs_trace::count_run;
use std::alloc::{AllocError, Global};

/// Returns true if the instruction at an address is JCN or ISZ.
#[tactic(auto, unfolding(mcs_model::specs::Bus::fetch_of))]
fn is_branch(bench: &Bench, at: Addr) -> bool
    ensures { result ≡ is_branch (machine_of bench.now) at }
{
    let second = at.plus(1);
    match mcs_code::decode(bench.rom_byte(at), bench.rom_byte(second)) {
        Some(Op::Jcn(_, _)) => true,
        Some(Op::Isz(_, _)) => true,
        _ => false,
    }
}

/// Returns the entry of an address in a table of counts. The table must have 4096 entries.
fn count_at(numbers: &Vec<u32>, at: Addr) -> u32
    requires { length numbers.now.items ≡ 4096 }
    ensures { result ≡ slice_index numbers.now.items at }
{
    numbers[usize::from(at.get())]
}

/// Writes one line of the answer to `count` into an empty buffer: the address `at`, and the number
/// of instructions begun there (`runs`). For JCN and ISZ, the line also has the number of jumps
/// (`jumps`).
fn put_count_line(
    line: &mut ArrayVec<u8, ANSWER_BYTES>,
    bench: &Bench,
    at: Addr,
    runs: u32,
    jumps: u32,
)
    requires { line.old.items ≡ [] }
    ensures { line.new.items ≡ as_line (address_text at ++ codes " " ++ decimal runs
        ++ (if is_branch (machine_of bench.now) at then codes " " ++ decimal jumps else [])) }
{
    put_address(line, b"", at);
    put_word_and_number(line, b" ", u64::from(runs));
    if is_branch(bench, at) {
        put_word_and_number(line, b" ", u64::from(jumps));
    }
    put(line, b"\n");
}

/// Counts the instructions that a run of at most `n` cycles would begin at each address. Writes the first
/// line of the answer into the empty buffer `head` and returns the other lines in allocated memory. Fails
/// if allocation fails; the contents of `head` are then unspecified.
pub fn put_count(
    alloc: Global,
    head: &mut ArrayVec<u8, ANSWER_BYTES>,
    n: u32,
    bench: &Bench,
) -> Result<Vec<u8>, AllocError>
    requires { head.old.items ≡ [] }
    ensures { IfOk result (λ lines. head.new.items ++ lines.items ≡ count_answer n bench.now) }
{
    let counts = count_run(alloc, n, bench)?;
    let mut text = Vec::new(alloc);
    let mut lines = 0u32;
    let mut line = ArrayVec::new();
    for i in 0..4096u16 {
        let at = Addr::ZERO.plus(i);
        let runs = count_at(&counts.runs, at);
        let jumps = count_at(&counts.jumps, at);
        if runs > 0 {
            line.clear();
            put_count_line(&mut line, bench, at, runs, jumps);
            text.extend_from_slice(line.as_slice())?;
            lines += 1;
        }
    }
    put_head(head, b"count", counts.cycles, counts.stop, lines);
    put(head, b"\n");
    Ok(text)
}

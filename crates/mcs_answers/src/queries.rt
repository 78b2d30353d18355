//! The answers to queries, to `list` and to `board`.
ghost use Rattle.std.specs.Prelude.{◌≡◌, ◌++◌, [], IfOk};
ghost use Rattle.mcs_answers.specs.AnswerTexts.{board_answer, listing_answer, query_answer};

use crate::digits::put;
use crate::lists::{put_breaks, put_lamps, put_watches};
use crate::numbers::put_number;
use crate::ram::put_ram;
use crate::registers::put_regs;
use crate::size::ANSWER_BYTES;
use crate::state::put_state;
use arrayvec::ArrayVec;
use mcs_bench::Bench;
use mcs_dis::listing;
use mcs_model::query::Query;
use mcs_nibble::Addr;
use mcs_wiring::board_text;
use std::alloc::{AllocError, Global};

/// Writes the answer to a query into an empty buffer, without allocating memory.
pub fn put_query(answer: &mut ArrayVec<u8, ANSWER_BYTES>, query: Query, bench: &Bench)
    requires { answer.old.items ≡ [] }
    ensures { answer.new.items ≡ query_answer query bench.now }
{
    match query {
        Query::Lamps => put_lamps(answer, bench),
        Query::Regs => put_regs(answer, bench),
        Query::Ram(bank) => put_ram(answer, bench, bank.get()),
        Query::Breaks => put_breaks(answer, bench),
        Query::Watches => put_watches(answer, bench),
        Query::Seq => put_number(answer, b"seq ", u64::from(bench.seq())),
        Query::State => put_state(answer, bench),
    }
}

/// Returns the answer to `list`: a listing of the bench's ROM from the address `from`. Fails if allocation
/// fails.
pub fn listing_answer(
    alloc: Global,
    from: Addr,
    lines: u16,
    bench: &Bench,
) -> Result<Vec<u8>, AllocError>
    ensures { IfOk result (λ text. text.items ≡ listing_answer from lines bench.now) }
{
    let rom = bench.rom(alloc)?;
    Ok(listing(alloc, &rom, from, usize::from(lines))?.into_bytes())
}

/// Writes the first line of the answer to `board` into an empty buffer and returns the other lines in
/// allocated memory. Fails if allocation fails; the contents of `head` are then unspecified.
pub fn put_board(
    alloc: Global,
    head: &mut ArrayVec<u8, ANSWER_BYTES>,
    bench: &Bench,
) -> Result<Vec<u8>, AllocError>
    requires { head.old.items ≡ [] }
    ensures { IfOk result (λ lines. head.new.items ++ lines.items ≡ board_answer bench.now) }
{
    put(head, b"board\n");
    Ok(board_text(alloc, bench.board())?.into_bytes())
}

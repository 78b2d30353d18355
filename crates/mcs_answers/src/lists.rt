//! The answers to `lamps`, `breaks` and `watches`.
ghost use Rattle.std.specs.Prelude.{◌≡◌, ◌+◌, ◌*◌, ◌++◌, ◌≤◌, [], codes, length, map};
ghost use Rattle.std.specs.List.{flat_map};
ghost use Rattle.arrayvec.specs.ArrayVec.{array_vec_len};
ghost use Rattle.mcs_model.specs.Levels.{level};
ghost use Rattle.mcs_model.specs.TextLines.{as_line};
ghost use Rattle.mcs_model.specs.QueryText.{address_text, breaks_text, lamp_mark, lamps_text, or_dash, watch_text, watches_text};

use crate::digits::{put, put_address, put_byte, put_digit};
use crate::size::{ANSWER_BYTES, LAMP_BYTES};
use arrayvec::ArrayVec;
use mcs_bench::Bench;
use mcs_model::limits::LAMPS;
use mcs_nibble::{Addr, Bit};

/// Returns the mark of a lamp: `*` for on, `.` for off.
pub(crate) fn lamp_mark(level: Bit) -> u8
    ensures { result ≡ lamp_mark level }
{
    if level == Bit::ONE { b'*' } else { b'.' }
}

/// Appends a mark for each of the board's lamps, in order.
fn put_marks(answer: &mut ArrayVec<u8, ANSWER_BYTES>, bench: &Bench)
    requires { array_vec_len answer.old + LAMPS ≤ ANSWER_BYTES }
    ensures text { answer.new.items ≡ answer.old.items
        ++ map (λ line. lamp_mark (level bench.now.bus line)) bench.now.bus.board.lamps.items }
    ensures count { length answer.new.items ≤ length answer.old.items + LAMPS }
{
    let lamps = bench.board().parts().lamps.len();
    for i in 0..lamps {
        let level = bench.lamp(i).unwrap_or(Bit::ZERO);
        answer.push(lamp_mark(level));
    }
}

/// Appends a mark for each of the board's lamps, in order, or a dash if the board has no lamps.
pub(crate) fn put_lamp_marks(answer: &mut ArrayVec<u8, ANSWER_BYTES>, bench: &Bench)
    requires { array_vec_len answer.old + LAMPS ≤ ANSWER_BYTES }
    ensures text { answer.new.items ≡ answer.old.items
        ++ or_dash (map (λ line. lamp_mark (level bench.now.bus line)) bench.now.bus.board.lamps.items) }
    ensures count { length answer.new.items ≤ length answer.old.items + LAMPS }
{
    if bench.board().parts().lamps.is_empty() {
        put(answer, b"-");
    } else {
        put_marks(answer, bench);
    }
}

/// Appends the answer to `lamps`, without its line feed.
pub(crate) fn put_lamps_without_line_feed(answer: &mut ArrayVec<u8, ANSWER_BYTES>, bench: &Bench)
    requires { array_vec_len answer.old + LAMP_BYTES ≤ ANSWER_BYTES }
    ensures text { answer.new.items ≡ answer.old.items ++ lamps_text bench.now.bus }
    ensures count { length answer.new.items ≤ length answer.old.items + LAMP_BYTES }
{
    put(answer, b"lamps ");
    put_lamp_marks(answer, bench);
}

/// Writes the answer to `lamps` into an empty buffer.
pub fn put_lamps(answer: &mut ArrayVec<u8, ANSWER_BYTES>, bench: &Bench)
    requires { answer.old.items ≡ [] }
    ensures { answer.new.items ≡ as_line (lamps_text bench.now.bus) }
{
    put_lamps_without_line_feed(answer, bench);
    put(answer, b"\n");
}

/// Appends addresses, each after a space.
fn put_addresses(answer: &mut ArrayVec<u8, ANSWER_BYTES>, list: &[Addr])
    requires room { array_vec_len answer.old + 4 * length list.now ≤ ANSWER_BYTES }
    ensures text { answer.new.items
        ≡ answer.old.items ++ flat_map (λ at. codes " " ++ address_text at) list.now }
    ensures count { length answer.new.items ≡ length answer.old.items + 4 * length list.now }
{
    for at in list {
        put_address(answer, b" ", *at);
    }
}

/// Writes the answer to `breaks` into an empty buffer.
pub fn put_breaks(answer: &mut ArrayVec<u8, ANSWER_BYTES>, bench: &Bench)
    requires { answer.old.items ≡ [] }
    ensures { answer.new.items ≡ as_line (breaks_text bench.now.breakpoints) }
{
    match bench.breaks() {
        [] => put(answer, b"breaks -\n"),
        [first, others @ ..] => {
            put_address(answer, b"breaks ", *first);
            put_addresses(answer, others);
            put(answer, b"\n");
        }
    }
}

/// Appends a word, then the bank and the SRC byte of a watched RAM nibble, as in `0.3F`.
pub(crate) fn put_watch(answer: &mut ArrayVec<u8, ANSWER_BYTES>, word: &[u8], watch: Addr)
    requires { array_vec_len answer.old + length word.now + 4 ≤ ANSWER_BYTES }
    ensures text { answer.new.items ≡ answer.old.items ++ word.now ++ watch_text watch }
    ensures count { length answer.new.items ≡ length answer.old.items + length word.now + 4 }
{
    let index = watch.get();
    put_digit(answer, word, (index / 256) as u8);
    put_byte(answer, b".", (index % 256) as u8);
}

/// Appends a space, the bank and the SRC byte for each watched RAM nibble.
fn put_spaced_watches(answer: &mut ArrayVec<u8, ANSWER_BYTES>, list: &[Addr])
    requires room { array_vec_len answer.old + 5 * length list.now ≤ ANSWER_BYTES }
    ensures text { answer.new.items
        ≡ answer.old.items ++ flat_map (λ watch. codes " " ++ watch_text watch) list.now }
    ensures count { length answer.new.items ≡ length answer.old.items + 5 * length list.now }
{
    for watch in list {
        put_watch(answer, b" ", *watch);
    }
}

/// Writes the answer to `watches` into an empty buffer.
pub fn put_watches(answer: &mut ArrayVec<u8, ANSWER_BYTES>, bench: &Bench)
    requires { answer.old.items ≡ [] }
    ensures { answer.new.items ≡ as_line (watches_text bench.now.watches) }
{
    match bench.watches() {
        [] => put(answer, b"watches -\n"),
        [first, others @ ..] => {
            put_watch(answer, b"watches ", *first);
            put_spaced_watches(answer, others);
            put(answer, b"\n");
        }
    }
}

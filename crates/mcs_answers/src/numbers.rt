//! Answers that consist of words and decimal numbers.
ghost use Rattle.std.specs.Prelude.{◌≡◌, ◌+◌, ◌++◌, ◌≤◌, [], length};
ghost use Rattle.std.specs.Fmt.{decimal};
ghost use Rattle.arrayvec.specs.ArrayVec.{array_vec_len};
ghost use Rattle.mcs_answers.specs.AnswerTexts.{no_line_text, ok_text, reply_text, stop_name};
ghost use Rattle.mcs_model.specs.TextLines.{as_line};

use crate::digits::{put, put_decimal};
use crate::size::ANSWER_BYTES;
use arrayvec::ArrayVec;
use mcs_bench::Bench;
use mcs_model::command::Reply;
use mcs_model::stop::Stop;

/// Appends a word and a number in decimal.
pub(crate) fn put_word_and_number(answer: &mut ArrayVec<u8, ANSWER_BYTES>, word: &[u8], n: u64)
    requires { array_vec_len answer.old + length word.now + 20 ≤ ANSWER_BYTES }
    ensures text { answer.new.items ≡ answer.old.items ++ (word.now ++ decimal n) }
    ensures count { length answer.new.items ≤ length answer.old.items + length word.now + 20 }
{
    put(answer, word);
    put_decimal(answer, n);
}

/// Writes a word, a number and a line feed into an empty buffer.
pub fn put_number(answer: &mut ArrayVec<u8, ANSWER_BYTES>, word: &[u8], n: u64)
    requires empty { answer.old.items ≡ [] }
    requires short { length word.now ≤ 20 }
    ensures { answer.new.items ≡ word.now ++ as_line (decimal n) }
{
    put_word_and_number(answer, word, n);
    put(answer, b"\n");
}

/// Writes the answer to a rejected text into an empty buffer. The answer consists of the refusal number and of
/// `line`, the line number of the error, counted from 1.
pub fn put_refusal_at(answer: &mut ArrayVec<u8, ANSWER_BYTES>, number: u8, line: u64)
    requires { answer.old.items ≡ [] }
    ensures { answer.new.items ≡ no_line_text number line }
{
    put_word_and_number(answer, b"no ", u64::from(number));
    put_word_and_number(answer, b" line ", line);
    put(answer, b"\n");
}

/// Returns the word that an answer uses for a reason to stop.
pub(crate) fn stop_name(stop: Stop) -> &'static [u8]
    ensures name { result.now ≡ stop_name stop }
    ensures short { length result.now ≤ 5 }
{
    match stop {
        Stop::Outside => b"code",
        Stop::Breakpoint => b"break",
        Stop::Watched => b"watch",
        Stop::Ended => b"end",
    }
}

/// Appends the reply to a command. In the answer, the reply follows the number of accepted commands.
fn put_reply_text(answer: &mut ArrayVec<u8, ANSWER_BYTES>, reply: &Reply)
    requires { array_vec_len answer.old ≤ 100 }
    ensures text { answer.new.items ≡ answer.old.items ++ reply_text reply.now }
    ensures count { length answer.new.items ≤ length answer.old.items + 50 }
{
    match *reply {
        Reply::Done => {}
        Reply::Loaded(bytes) => put_word_and_number(answer, b" bytes ", u64::from(bytes)),
        Reply::Ran { cycles, stop } => {
            put_word_and_number(answer, b" ran ", u64::from(cycles));
            put(answer, b" ");
            put(answer, stop_name(stop));
        }
    }
}

/// Writes the answer to an accepted command into an empty buffer. `bench` must be the bench after the
/// command.
pub fn put_reply(answer: &mut ArrayVec<u8, ANSWER_BYTES>, reply: &Reply, bench: &Bench)
    requires { answer.old.items ≡ [] }
    ensures { answer.new.items ≡ ok_text reply.now bench.now }
{
    put_word_and_number(answer, b"ok ", u64::from(bench.seq()));
    put_reply_text(answer, reply);
    put(answer, b"\n");
}

//! The start of the first line of an answer. It has the same form in the answers to `count` and `trace`.
ghost use Rattle.std.specs.Prelude.{◌≡◌, ◌+◌, ◌++◌, ◌≤◌, [], codes, length};
ghost use Rattle.std.specs.Fmt.{decimal};
ghost use Rattle.mcs_answers.specs.AnswerTexts.{stop_name};

use crate::digits::put;
use crate::numbers::{put_word_and_number, stop_name};
use crate::size::ANSWER_BYTES;
use arrayvec::ArrayVec;
use mcs_model::stop::Stop;

/// Writes the start of the first line of an answer into an empty buffer. The start consists of
/// `word`, the number of cycles that a run would take, its reason to stop, and the number of lines
/// that follow.
pub(crate) fn put_head(
    head: &mut ArrayVec<u8, ANSWER_BYTES>,
    word: &[u8],
    cycles: u32,
    stop: Stop,
    lines: u32,
)
    requires empty { head.old.items ≡ [] }
    requires short { length word.now ≤ 5 }
    ensures text { head.new.items ≡ word.now ++ codes " ran " ++ decimal cycles
        ++ codes " " ++ stop_name stop ++ codes " lines " ++ decimal lines }
    ensures count { length head.new.items ≤ 63 }
{
    put(head, word);
    put_word_and_number(head, b" ran ", u64::from(cycles));
    put(head, b" ");
    put(head, stop_name(stop));
    put_word_and_number(head, b" lines ", u64::from(lines));
}

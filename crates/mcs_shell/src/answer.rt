//! The answer to one input.
ghost use Rattle.std.specs.Prelude.{◌≡◌, ◌≤◌, ◌++◌, [], length, OnOk, OnErr};
ghost use Rattle.std.specs.Io.KnownBytes.{Appends};
ghost use Rattle.std.specs.Fmt.{decimal};
ghost use Rattle.mcs_answers.specs.AnswerTexts.{board_answer, listing_answer, no_text, ok_text, query_answer};
ghost use Rattle.mcs_model.specs.TextLines.{as_line};
ghost use Rattle.mcs_answers.specs.ForecastTexts.{count_answer, trace_answer};
ghost use Rattle.mcs_shell.specs.Serving.{ReceivedProperPrefix};
ghost use Rattle.mcs_shell.specs.Answers.{MayAnswer};
ghost use Rattle.mcs_shell.specs.Faults.{CountsKnownFault};
ghost use Rattle.mcs_shell.specs.TextMeanings.{text_refusal_answer};

use crate::sending::WriteStopped;
use crate::streams::AnswerSink;
use crate::texts::TextRefusal;
use arrayvec::ArrayVec;
use mcs_answers::{
    ANSWER_BYTES, listing_answer, put_board, put_count, put_number, put_query, put_refusal_at,
    put_reply, put_trace,
};
use mcs_bench::Bench;
use mcs_disk::Disk;
use mcs_model::command::Reply;
use mcs_model::query::Query;
use mcs_nibble::Addr;
use mcs_probe::{MAX_PROBES, Probe};
use mcs_session::session::Session;
use std::alloc::{AllocError, Global};
use std::marker::Model;

/// The answer to one input: bytes stored inline, followed by allocated bytes if the answer needs allocated memory.
#[derive(Drop)]
pub struct Answer {
    inline_bytes: ArrayVec<u8, ANSWER_BYTES>,
    allocated_bytes: Option<Vec<u8>>,
}

impl Model for Answer {
    ghost use Rattle.std.specs.Prelude.{ℕ, List, option_map};
    ghost use Rattle.mcs_shell.specs.AnswerPieces.{answer_bytes};

    ghost Value = { List ℕ };

    ghost view = { λ a. answer_bytes a.inline_bytes.items (option_map (λ v. v.items) a.allocated_bytes) };
}

impl Answer {
    /// Returns an empty answer.
    pub fn new() -> Self
        ensures { result ≡ [] }
    {
        Answer {
            inline_bytes: ArrayVec::new(),
            allocated_bytes: None,
        }
    }

    /// Stores a line as the answer: `word` (at most 20 bytes) and the decimal number `n`.
    pub(crate) fn set_number(&mut self, word: &[u8], n: u32)
        requires { length word.now ≤ 20 }
        ensures { self.new ≡ word.now ++ as_line (decimal n) }
    {
        self.allocated_bytes = None;
        self.inline_bytes.clear();
        put_number(&mut self.inline_bytes, word, u64::from(n));
    }

    /// Stores the line `no NN` as the answer, where NN is the refusal number.
    pub(crate) fn set_refusal(&mut self, number: u8)
        ensures { self.new ≡ no_text number }
    {
        self.set_number(b"no ", u32::from(number));
    }

    /// Stores the answer to a rejected text: the refusal number and, for a program, the number of
    /// the line with the error.
    pub(crate) fn set_text_refusal(&mut self, refusal: TextRefusal)
        ensures { self.new ≡ text_refusal_answer refusal }
    {
        match refusal {
            TextRefusal::Wiring(fault) => self.set_refusal(fault.number()),
            TextRefusal::Program(line, fault) => {
                self.allocated_bytes = None;
                self.inline_bytes.clear();
                put_refusal_at(&mut self.inline_bytes, fault.number(), line as u64);
            }
        }
    }

    /// Stores the answer to an accepted command. `reply` is the command's reply, and `bench` is the
    /// bench after the command.
    pub(crate) fn set_reply(&mut self, reply: &Reply, bench: &Bench)
        ensures { self.new ≡ ok_text reply.now bench.now }
    {
        self.allocated_bytes = None;
        self.inline_bytes.clear();
        put_reply(&mut self.inline_bytes, reply, bench);
    }

    /// Stores the answer to a query about the state of the bench.
    pub(crate) fn set_query(&mut self, query: Query, bench: &Bench)
        ensures { self.new ≡ query_answer query bench.now }
    {
        self.allocated_bytes = None;
        self.inline_bytes.clear();
        put_query(&mut self.inline_bytes, query, bench);
    }

    /// Stores the answer to `list`: the listing of at most `lines` lines of ROM from address
    /// `from`. Fails if memory runs out; the answer is then unspecified.
    pub(crate) fn set_listing(
        &mut self,
        alloc: Global,
        from: Addr,
        lines: u16,
        bench: &Bench,
    ) -> Result<(), AllocError>
        ensures { OnOk result (self.new ≡ listing_answer from lines bench.now) }
    {
        self.inline_bytes.clear();
        self.allocated_bytes = Some(listing_answer(alloc, from, lines, bench)?);
        Ok(())
    }

    /// Stores the answer to `board`: the text that describes the board. Fails if memory runs out;
    /// the answer is then unspecified.
    pub(crate) fn set_board(&mut self, alloc: Global, bench: &Bench) -> Result<(), AllocError>
        ensures { OnOk result (self.new ≡ board_answer bench.now) }
    {
        self.inline_bytes.clear();
        self.allocated_bytes = Some(put_board(alloc, &mut self.inline_bytes, bench)?);
        Ok(())
    }

    /// Stores the answer to `count`: how often a run of at most `n` cycles would begin an
    /// instruction at each address. Fails if memory runs out; the answer is then unspecified.
    pub(crate) fn set_count(
        &mut self,
        alloc: Global,
        n: u32,
        bench: &Bench,
    ) -> Result<(), AllocError>
        ensures { OnOk result (self.new ≡ count_answer n bench.now) }
    {
        self.inline_bytes.clear();
        self.allocated_bytes = Some(put_count(alloc, &mut self.inline_bytes, n, bench)?);
        Ok(())
    }

    /// Stores the answer to `trace`: the changes that a run of at most `n` cycles would make at the
    /// locations of the probes. `probes` must have at most `MAX_PROBES` entries. Fails if memory
    /// runs out; the answer is then unspecified.
    pub(crate) fn set_trace(
        &mut self,
        alloc: Global,
        n: u32,
        probes: &[Probe],
        bench: &Bench,
    ) -> Result<(), AllocError>
        requires { length probes.now ≤ MAX_PROBES }
        ensures { OnOk result (self.new ≡ trace_answer probes.now n bench.now) }
    {
        self.inline_bytes.clear();
        self.allocated_bytes = Some(put_trace(alloc, &mut self.inline_bytes, n, probes, bench)?);
        Ok(())
    }

    /// Stores the given lines as the answer. Each line ends with a line feed.
    pub(crate) fn set_lines(&mut self, lines: Vec<u8>)
        ensures { self.new ≡ lines.items }
    {
        self.inline_bytes.clear();
        self.allocated_bytes = Some(lines);
    }

    /// Writes the whole answer. Before the call, the session must have recorded the command that the answer
    /// acknowledges, if there is one. On an `Err`, the writer received only a proper prefix of the answer, possibly
    /// nothing.
    pub(crate) fn send<W: AnswerSink, D: Disk + Drop>(
        &self,
        session: &Session<D>,
        writer: &mut W,
    ) -> Result<(), WriteStopped>
        requires { MayAnswer D.state session.now self.now }
        ensures ok { OnOk result
            (Appends (W.contents writer.old) (W.contents writer.new) self.now) }
        ensures err { OnErr result
            (ReceivedProperPrefix (W.contents writer.old) (W.contents writer.new) self.now) }
        ensures counted { CountsKnownFault (W.faults writer.old) (W.faults writer.new) result }
    {
        match &self.allocated_bytes {
            None => writer.write_answer(session, self.inline_bytes.as_slice(), &[]),
            Some(allocated_bytes) => writer.write_answer(
                session,
                self.inline_bytes.as_slice(),
                allocated_bytes.as_slice(),
            ),
        }
    }
}

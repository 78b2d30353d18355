//! The input of a shell, and the sink that receives its answers.
ghost use Rattle.std.specs.Prelude.{◌<◌, ◌++◌, ℕ, List, Option, None, length, take, IfOk, OnErr, OnOk};
ghost use Rattle.std.specs.Io.KnownBytes.{Appends, Keeps};
ghost use Rattle.mcs_shell.specs.Answers.{MayAnswer};
ghost use Rattle.mcs_shell.specs.Faults.{CountsKnownFault};
ghost use Rattle.mcs_shell.specs.Serving.{ReceivedProperPrefix};
ghost use Rattle.mcs_shell.specs.Shell.{ReadBytes};

use crate::sending::{WriteStopped, send_two};
use mcs_disk::Disk;
use mcs_session::session::Session;
use std::io::{Read, Write};

/// The error of a failed read.
#[derive(Clone, Copy)]
pub struct ReadFailed;

/// The input of a shell. Every type that implements `Read` also implements this trait. For such a type, the number of
/// failed reads is unknown.
pub trait InputSource {
    /// The bytes that later reads return, if they are known.
    ghost remaining: { Self → Option (List ℕ) };

    /// The number of reads that have failed, if it is known.
    ghost faults: { Self → Option ℕ };

    /// Reads bytes into the front of the buffer, which must not be empty, and returns their number. Returns 0 only if
    /// input has ended. On an `Err`, takes no bytes from the source.
    fn read_some(&mut self, buffer: &mut [u8]) -> Result<usize, ReadFailed>
        requires { 0 < length buffer.old }
        ensures ok { IfOk result (λ n. ReadBytes n (length buffer.old)
            (remaining self.old) (remaining self.new) (take n buffer.new)) }
        ensures err { OnErr result (Keeps (remaining self.old) (remaining self.new)) }
        ensures counted { CountsKnownFault (faults self.old) (faults self.new) result };
}

impl<R: Read> InputSource for R {
    ghost remaining = { R.remaining };

    ghost faults = { λ _. None };

    fn read_some(&mut self, buffer: &mut [u8]) -> Result<usize, ReadFailed> {
        match self.read(buffer) {
            Ok(count) => Ok(count),
            Err(_) => Err(ReadFailed),
        }
    }
}

/// The sink that receives a shell's answers. Every type that implements `Write` also implements this trait. For such a
/// type, the number of incomplete answers is unknown.
pub trait AnswerSink {
    /// The bytes that the sink has received, if they are known.
    ghost contents: { Self → Option (List ℕ) };

    /// The number of answers that the sink did not accept completely, if it is known.
    ghost faults: { Self → Option ℕ };

    /// Writes an answer that is given in two byte slices. Before the call, the session must have recorded the command
    /// that the answer acknowledges, if there is one. If the session is open and its disk is honest, the disk must
    /// represent the session's state. On an `Err`, the sink received only a proper prefix of the answer, possibly
    /// nothing.
    fn write_answer<D: Disk + Drop>(
        &mut self,
        session: &Session<D>,
        first: &[u8],
        second: &[u8],
    ) -> Result<(), WriteStopped>
        requires { MayAnswer D.state session.now (first.now ++ second.now) }
        ensures ok { OnOk result
            (Appends (contents self.old) (contents self.new) (first.now ++ second.now)) }
        ensures err { OnErr result
            (ReceivedProperPrefix (contents self.old) (contents self.new) (first.now ++ second.now)) }
        ensures counted { CountsKnownFault (faults self.old) (faults self.new) result };
}

impl<W: Write> AnswerSink for W {
    ghost contents = { W.contents };

    ghost faults = { λ _. None };

    fn write_answer<D: Disk + Drop>(
        &mut self,
        _session: &Session<D>,
        first: &[u8],
        second: &[u8],
    ) -> Result<(), WriteStopped> {
        send_two(self, first, second)
    }
}

//! A test with a reader and a writer that count their failures.
ghost use Rattle.std.specs.Prelude.{Some};

use crate::checks::expect_equal;
use crate::faults::{ANSWERS, SCRIPT};
use crate::sessions::new_session_in_memory;
use mcs_disk::Disk;
use mcs_fixtures::streams::{CutReader, CutWriter};
use mcs_session::session::Session;
use mcs_shell::ends::ShellEnd;
use mcs_shell::sending::{WriteStopped, send_two};
use mcs_shell::shell::run_shell;
use mcs_shell::streams::{AnswerSink, InputSource, ReadFailed};
use std::io::{Read, Write};

/// A reader that counts its failures.
#[derive(Drop)]
struct CountedReader<R> {
    reader: R,
    faults: u64,
}

impl<R: Read + Drop> InputSource for CountedReader<R> {
    ghost remaining = { λ r. R.remaining r.reader };

    ghost faults = { λ r. Some r.faults };

    fn read_some(&mut self, buffer: &mut [u8]) -> Result<usize, ReadFailed> {
        match self.reader.read(buffer) {
            Ok(count) => Ok(count),
            Err(_) => {
                self.faults = self.faults.saturating_add(1);
                Err(ReadFailed)
            }
        }
    }
}

/// A writer that counts its failures.
#[derive(Drop)]
struct CountedWriter<W> {
    writer: W,
    faults: u64,
}

impl<W: Write + Drop> AnswerSink for CountedWriter<W> {
    ghost contents = { λ w. W.contents w.writer };

    ghost faults = { λ w. Some w.faults };

    fn write_answer<D: Disk + Drop>(
        &mut self,
        _session: &Session<D>,
        first: &[u8],
        second: &[u8],
    ) -> Result<(), WriteStopped> {
        match send_two(&mut self.writer, first, second) {
            Ok(()) => Ok(()),
            Err(WriteStopped) => {
                self.faults = self.faults.saturating_add(1);
                Err(WriteStopped)
            }
        }
    }
}

/// Checks that a failed read or write ends the shell and is counted once. The reader returns the whole script, or
/// fails once after 12 bytes. The writer accepts all answers, or fails once before the last three bytes.
#[test]
fn a_failure_is_counted_once(rt: HostRuntime) {
    let rows = [
        (0, 0, ShellEnd::End),
        (1, 0, ShellEnd::ReadFault),
        (0, 1, ShellEnd::WriteFault),
    ];
    for (read_failures, write_failures, wanted) in rows {
        let mut session = new_session_in_memory(rt.alloc(), &rt);
        let mut reader = CountedReader {
            reader: CutReader::new(SCRIPT, 12, read_failures),
            faults: 0,
        };
        let mut writer = CountedWriter {
            writer: CutWriter::new(rt.alloc(), ANSWERS.len() - 3, write_failures),
            faults: 0,
        };
        let end = run_shell(rt.alloc(), &mut reader, &mut writer, &mut session);
        expect_equal(&rt, end, wanted);
        expect_equal(&rt, reader.faults, read_failures as u64);
        expect_equal(&rt, writer.faults, write_failures as u64);
    }
}

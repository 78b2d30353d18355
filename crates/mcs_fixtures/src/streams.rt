//! A reader and a writer that fail for a number of calls, a reader that never ends, and concatenation of bytes.
ghost use Rattle.std.specs.Prelude.{None, Some};

use std::alloc::{AllocError, Global};
use std::io::{self, Read, Write};

/// A reader that fails for a number of calls. It returns its first `bytes_until_failure` bytes, then `failures` reads
/// return an error, and later reads return the other bytes.
#[derive(Drop)]
pub struct CutReader<'a> {
    bytes: &'a [u8],
    bytes_until_failure: usize,
    failures: usize,
}

impl<'a> CutReader<'a> {
    /// Returns a reader of `bytes`. When it has returned the first `bytes_until_failure` bytes, the next `failures`
    /// reads return an error.
    pub fn new(bytes: &'a [u8], bytes_until_failure: usize, failures: usize) -> CutReader<'a> {
        CutReader {
            bytes,
            bytes_until_failure,
            failures,
        }
    }
}

impl Read for CutReader<'_> {
    ghost remaining = { λ r. Some r.bytes.now };

    fn read(&mut self, buf: &mut [u8]) -> io::Result<usize> {
        if self.bytes_until_failure == 0 && 0 < self.failures {
            self.failures -= 1;
            return Err(io::ErrorKind::Other.into());
        }
        let most = if self.bytes_until_failure == 0 {
            buf.len()
        } else {
            self.bytes_until_failure.min(buf.len())
        };
        let count = self.bytes.read(&mut buf[..most])?;
        self.bytes_until_failure = self.bytes_until_failure.saturating_sub(count);
        Ok(count)
    }
}

/// A reader that returns the same byte without end, and counts the bytes that it has returned.
#[derive(Drop)]
pub struct EndlessReader {
    byte: u8,
    bytes_returned: u64,
}

impl EndlessReader {
    /// Returns a reader that returns the given byte without end.
    pub fn new(byte: u8) -> EndlessReader {
        EndlessReader {
            byte,
            bytes_returned: 0,
        }
    }

    /// Returns the number of bytes that the reader has returned.
    pub fn bytes_returned(&self) -> u64 {
        self.bytes_returned
    }
}

impl Read for EndlessReader {
    ghost remaining = { λ _. None };

    fn read(&mut self, buf: &mut [u8]) -> io::Result<usize> {
        buf.fill(self.byte);
        self.bytes_returned = self.bytes_returned.saturating_add(buf.len() as u64);
        Ok(buf.len())
    }
}

/// A writer that fails for a number of calls and stores the bytes that it accepts. It accepts `bytes_until_failure`
/// bytes, then `failures` writes return an error, and later writes are accepted.
#[derive(Drop)]
pub struct CutWriter {
    accepted_bytes: Vec<u8>,
    bytes_until_failure: usize,
    failures: usize,
}

impl CutWriter {
    /// Returns a writer that accepts `bytes_until_failure` bytes, then fails for `failures` writes, then accepts all
    /// bytes.
    pub fn new(alloc: Global, bytes_until_failure: usize, failures: usize) -> CutWriter {
        CutWriter {
            accepted_bytes: Vec::new(alloc),
            bytes_until_failure,
            failures,
        }
    }

    /// Returns the bytes that the writer has accepted.
    pub fn accepted_bytes(&self) -> &[u8] {
        self.accepted_bytes.as_slice()
    }
}

impl Write for CutWriter {
    ghost contents = { λ w. Some w.accepted_bytes.items };

    fn write(&mut self, buf: &[u8]) -> io::Result<usize> {
        if self.bytes_until_failure == 0 && 0 < self.failures {
            self.failures -= 1;
            return Err(io::ErrorKind::Other.into());
        }
        let count = if self.bytes_until_failure == 0 {
            buf.len()
        } else {
            self.bytes_until_failure.min(buf.len())
        };
        self.accepted_bytes.extend_from_slice(&buf[..count])?;
        self.bytes_until_failure = self.bytes_until_failure.saturating_sub(count);
        Ok(count)
    }

    fn flush(&mut self) -> io::Result<()> {
        Ok(())
    }
}

/// Returns the concatenation of byte slices. Fails if allocation fails.
pub fn concatenate(alloc: Global, pieces: &[&[u8]]) -> Result<Vec<u8>, AllocError> {
    let mut bytes = Vec::new(alloc);
    for piece in pieces {
        bytes.extend_from_slice(piece)?;
    }
    Ok(bytes)
}

//! The snapshot and the records that [`open`](crate::Store::open) returns.
ghost use Rattle.std.specs.Prelude.{◌≡◌, ◌<◌, ◌↔◌, [], length, slice_get, Some, IsTrue};

use std::marker::Model;

/// A snapshot or a record that was read from a disk. Contracts see this value as a list of bytes.
#[derive(Drop)]
pub struct Bytes {
    pub(crate) bytes: Vec<u8>,
}

impl Model for Bytes {
    ghost use Rattle.std.specs.Prelude.{List, ℕ};

    ghost Value = { List ℕ };

    ghost view = { λ b. b.bytes.items };
}

impl Bytes {
    /// Returns all the bytes of the snapshot or record, in order.
    pub fn bytes(&self) -> &[u8]
        ensures { result.now ≡ self.now }
    {
        &self.bytes
    }
}

/// The records of a log, oldest first. Contracts see them as a list of byte lists.
#[derive(Drop)]
pub struct Records {
    pub(crate) records: Vec<Bytes>,
}

impl Model for Records {
    ghost use Rattle.std.specs.Prelude.{List, ℕ};

    ghost Value = { List (List ℕ) };

    ghost view = { λ r. r.records.items };
}

impl Records {
    /// Returns the number of records.
    pub fn len(&self) -> usize
        ensures { result ≡ length self.now }
    {
        self.records.len()
    }

    /// Returns true if there are no records.
    pub fn is_empty(&self) -> bool
        ensures { IsTrue result ↔ (self.now ≡ []) }
    {
        self.records.is_empty()
    }

    /// Returns the bytes of record `i`. The oldest record is number 0, and `i` must be less than
    /// [`len`](Records::len).
    pub fn get(&self, i: usize) -> &[u8]
        requires { i < length self.now }
        ensures { slice_get self.now i ≡ Some result.now }
    {
        self.records[i].bytes()
    }
}

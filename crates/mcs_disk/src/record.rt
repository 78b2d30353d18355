//! A list of the calls on a disk or on a file of the host. The list occupies no memory.
ghost use Rattle.std.specs.Prelude.{◌≡◌, ℕ, List, [], ◌∷◌};
ghost use Rattle.std.specs.Borrow.{ftrue};
ghost use Rattle.std.specs.Coded.{coded_list, coded_ℕ, coded×};

use std::marker::{Model, PhantomData};

/// A list of calls, each with its bytes, and the bytes from before the first call. Only contracts
/// can see the list; it occupies no memory.
#[derive(Drop)]
pub struct Record<C> {
    marker: PhantomData<C>,
    /// The bytes from before the first call, for example the initial bytes of a disk.
    pub ghost start: { List ℕ },
    /// The calls so far, newest first, each with its bytes.
    pub ghost notes: { List (C × List ℕ) } by { coded_list (coded× C.code (coded_list coded_ℕ)) },
}

impl<C> Model for Record<C> {
    ghost also_owns = { λ _. ftrue };
}

impl<C> Record<C> {
    /// Creates a record with these initial bytes and no calls.
    pub fn new(_start: &[u8]) -> Record<C>
        ensures { (result.start ≡ _start.now) × (result.notes ≡ []) }
    {
        Record {
            marker: PhantomData,
        }
    }

    /// Adds a call with its bytes, as the newest call of the record.
    pub fn note(&mut self, _call: &C, _bytes: &[u8])
        ensures { self.new
            ≡ record self.old { notes = (_call.now, _bytes.now) ∷ self.old.notes } }
    {}
}

//! What a search remembers of inputs whose levels change at moments that are far enough apart, and whose keys stay down
//! for a limited time.
ghost use Rattle.std.specs.Prelude.{◌≡◌, ◌≤◌, drop, length, slice_index};
ghost use Rattle.mcs_check.specs.SpacedInputs.{age_at_begin, can_begin_at, down_after, down_at_begin, held_allows, number_at, spacing_after, spacing_of_bytes, wait_allows};

use crate::level_sets::{Levels, have_same_key_levels};

/// The value of `Spacing::last` before the first step of a search, when there are no last levels.
pub(crate) const NO_LEVELS: u8 = 255;

/// The largest number of cycles between two changes for which each age fits into 32 bits.
pub(crate) const MAX_WAIT: u32 = 2_147_483_647;

/// The number of bytes that hold a `Spacing`.
pub(crate) const SPACING_BYTES: usize = 9;

/// What a search remembers of its inputs, if two changes of the levels are at least `wait` cycles apart and no key
/// stays down for more than `held` cycles. The search makes each change as early as possible.
#[derive(Clone, Copy)]
pub(crate) struct Spacing {
    /// The index of the levels at which the last step began, or `NO_LEVELS`.
    pub(crate) last: u8,
    /// The age of the last change, in cycles. It is `wait` at the first moment at which the levels can change again,
    /// and at most twice `wait`.
    pub(crate) age: u32,
    /// The number of cycles for which a key is known to have been down, up to now, if the levels are still those of the
    /// last step. It is at most `held`. It is 0 if no key was down at these levels, or if the levels can have changed
    /// twice during the last step.
    pub(crate) down: u32,
}

/// Returns the byte at index `i`, or 0 if there is none.
fn byte_at(bytes: &[u8], i: usize) -> u8
    ensures { result ≡ slice_index bytes.now i }
{
    match bytes.get(i) {
        Some(byte) => *byte,
        None => 0,
    }
}

/// Returns the number in the four bytes from index `i` on, least significant byte first. Missing bytes count as 0.
fn number_at(bytes: &[u8], i: usize) -> u32
    requires { i ≤ SPACING_BYTES }
    ensures { result ≡ number_at bytes.now i }
{
    let low = u32::from(byte_at(bytes, i)) + 256 * u32::from(byte_at(bytes, i + 1));
    let high = u32::from(byte_at(bytes, i + 2)) + 256 * u32::from(byte_at(bytes, i + 3));
    low + 65_536 * high
}

impl Spacing {
    /// Decodes what a search remembers from these bytes. Missing bytes count as 0.
    pub(crate) fn of_bytes(bytes: &[u8]) -> Spacing
        ensures { result ≡ spacing_of_bytes bytes.now }
    {
        Spacing {
            last: byte_at(bytes, 0),
            age: number_at(bytes, 1),
            down: number_at(bytes, 5),
        }
    }

    /// Returns what a timed state vector says about the inputs. Its first `len` bytes are the machine's state vector.
    pub(crate) fn of_vector(vector: &[u8], len: usize) -> Spacing
        ensures { result ≡ spacing_of_bytes (drop len vector.now) }
    {
        match vector.get(len..) {
            Some(bytes) => Spacing::of_bytes(bytes),
            None => Spacing::of_bytes(&[]),
        }
    }

    /// Encodes what a search remembers into these bytes.
    pub(crate) fn write(self, bytes: &mut [u8])
        requires { length bytes.old ≡ SPACING_BYTES }
        ensures { spacing_of_bytes bytes.new ≡ self }
    {
        bytes[0] = self.last;
        bytes[1] = (self.age % 256) as u8;
        bytes[2] = (self.age / 256 % 256) as u8;
        bytes[3] = (self.age / 65_536 % 256) as u8;
        bytes[4] = (self.age / 16_777_216) as u8;
        bytes[5] = (self.down % 256) as u8;
        bytes[6] = (self.down / 256 % 256) as u8;
        bytes[7] = (self.down / 65_536 % 256) as u8;
        bytes[8] = (self.down / 16_777_216) as u8;
    }

    /// Returns whether the limit `wait` allows the next step to begin at the levels with this index.
    fn wait_allows(self, wait: u32, index: u8) -> bool
        ensures { result ≡ wait_allows wait self index }
    {
        self.last == NO_LEVELS || index == self.last || wait <= self.age
    }

    /// Returns the number of cycles for which a key is known to have been down, if the next step begins at the levels
    /// with this index in `all`.
    fn down_at_begin(self, all: &[Levels], index: u8) -> u32
        ensures { result ≡ down_at_begin all.now self index }
    {
        if self.last != NO_LEVELS && have_same_key_levels(all, self.last, index) {
            self.down
        } else {
            0
        }
    }

    /// Returns whether the limit `held` allows the next step to begin at the levels with this index in `all`.
    fn held_allows(self, held: u32, all: &[Levels], index: u8) -> bool
        ensures { result ≡ held_allows held all.now self index }
    {
        held == 0 || self.down_at_begin(all, index) < held
    }

    /// Returns whether the next step can begin at the levels with this index in `all`.
    pub(crate) fn can_begin_at(self, wait: u32, held: u32, all: &[Levels], index: u8) -> bool
        ensures { result ≡ can_begin_at wait held all.now self index }
    {
        self.wait_allows(wait, index) && self.held_allows(held, all, index)
    }

    /// Returns the age at the beginning of a step at the levels with this index.
    fn age_at_begin(self, wait: u32, index: u8) -> u32
        ensures { result ≡ age_at_begin wait self index }
    {
        let most = wait.saturating_sub(1);
        if self.last == NO_LEVELS {
            most
        } else if index == self.last {
            self.age.min(most)
        } else {
            self.age.saturating_sub(wait).min(most)
        }
    }

    /// Returns the number of cycles for which a key is known to have been down after a step of `cycles` cycles. The
    /// step began at these levels, which have this index in `all`.
    fn down_after(
        self,
        wait: u32,
        held: u32,
        all: &[Levels],
        index: u8,
        levels: &Levels,
        cycles: u64,
    ) -> u32
        ensures { result ≡ down_after wait held all.now self index levels.now cycles }
    {
        if levels.has_key_down() && cycles <= u64::from(wait) {
            let down = u64::from(self.down_at_begin(all, index)).saturating_add(cycles);
            down.min(u64::from(held)) as u32
        } else {
            0
        }
    }

    /// Returns what a search remembers after a step of `cycles` cycles. The step began at these levels, which have this
    /// index in `all`.
    pub(crate) fn after(
        self,
        wait: u32,
        held: u32,
        all: &[Levels],
        index: u8,
        levels: &Levels,
        cycles: u64,
    ) -> Spacing
        requires { wait ≤ MAX_WAIT }
        ensures { result ≡ spacing_after wait held all.now self index levels.now cycles }
    {
        let age = u64::from(self.age_at_begin(wait, index)).saturating_add(cycles);
        Spacing {
            last: index,
            age: age.min(2 * u64::from(wait)) as u32,
            down: self.down_after(wait, held, all, index, levels, cycles),
        }
    }
}

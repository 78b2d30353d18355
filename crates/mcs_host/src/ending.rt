//! The future end of an open file of the host, as a value that only contracts can see.
ghost use Rattle.std.specs.Prelude.{◌≡◌};

use mcs_disk::{Call, Record};

/// The future end of an open file: a close, a process kill or a power cut. Only contracts can see
/// this value: it occupies no memory, no code can read it, and no contract determines it. The field
/// `start` holds the bytes that are found in the file at its next opening. The field `notes` lists the calls made
/// before the end. If the end interrupts a write, `notes` lists this write as failed.
pub(crate) type Ending = Record<Call>;

/// Returns the future end of a file that now holds these bytes. The contract is true of every
/// value, so no caller can know how the file will end.
pub(crate) fn ending(start: &[u8]) -> Ending
    ensures { result.start ≡ result.start }
{
    Record::new(start)
}

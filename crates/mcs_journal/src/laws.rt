//! Laws about the file format, and about the contents of a disk after a power cut. The contract of
//! each function states a law; the function itself does nothing.
ghost use Rattle.std.specs.Prelude.{◌⊎◌, ◌≡◌, ◌∷◌, [], ℕ, List, codes};
ghost use Rattle.mcs_disk.specs.Disk.{bytes_of, time_of};
ghost use Rattle.mcs_disk.specs.Stretches.{SatisfiesEither, LeavesOnly};
ghost use Rattle.mcs_disk.specs.PowerCut.{IsLeftByCut, IsDurable};
ghost use Rattle.mcs_journal.specs.declared.format.TheConstants.{AREA_SIZE, COMMITTED, FILE_SIZE, FIRST_SLOT, HEADER_SIZE, LOG_SIZE, MAX_RECORD_SIZE, MAX_SNAPSHOT_SIZE, NAME, NOT_COMMITTED, FRAME_HEADER_SIZE, SECOND_SLOT, SELECTOR_OFFSET, SNAPSHOT_OFFSET, AREA_WITH_COMMIT_SIZE, ZEROS, ZEROS_OFFSET};
ghost use Rattle.mcs_journal.specs.File.{Holds, ContentsAreUnique};

use mcs_disk::Disk;

/// Shows the values that define the layout of a session file. Sizes and offsets are in bytes. The
/// values are:
///
/// - the sizes of the file, its header, a snapshot area, a log, and an area with the first commit
///   byte
/// - the limits of a snapshot and of a record
/// - the offsets of the selector, the zeros, both slots, a snapshot in its area and a record in its
///   frame
/// - the commit bytes, the name and the zeros of the header
pub fn layout_values()
    ensures sizes { FILE_SIZE ∷ HEADER_SIZE ∷ AREA_SIZE ∷ LOG_SIZE ∷ AREA_WITH_COMMIT_SIZE ∷ []
        ≡ 163_856 ∷ 16 ∷ 16_384 ∷ 65_536 ∷ 16_385 ∷ [] }
    ensures limits { MAX_SNAPSHOT_SIZE ∷ MAX_RECORD_SIZE ∷ [] ≡ 16_380 ∷ 8_192 ∷ [] }
    ensures offsets { SELECTOR_OFFSET ∷ ZEROS_OFFSET ∷ FIRST_SLOT ∷ SECOND_SLOT ∷ SNAPSHOT_OFFSET
        ∷ FRAME_HEADER_SIZE ∷ []
        ≡ 8 ∷ 9 ∷ 16 ∷ 81_936 ∷ 4 ∷ 3 ∷ [] }
    ensures commit_bytes { COMMITTED ∷ NOT_COMMITTED ∷ [] ≡ 1 ∷ 0 ∷ [] }
    ensures name { NAME ≡ codes "MCS4BEN1" }
    ensures zeros { ZEROS ≡ 0 ∷ 0 ∷ 0 ∷ 0 ∷ 0 ∷ 0 ∷ 0 ∷ [] }
{}

/// Shows that any file holds at most one snapshot with one list of records. Therefore the bytes of
/// the file determine what [`open`](crate::Store::open) returns.
pub fn contents_are_unique()
    ensures { ContentsAreUnique }
{}

/// Shows that a power cut leaves one of two contents. The premise is that each image of the disk
/// since the state `old` holds one of these two contents. An image is a list of bytes that a power
/// cut can leave. The cut happens at the clock time of `old` or later. On an honest disk,
/// [`append`](crate::Store::append) and [`replace`](crate::Store::replace) satisfy the premise: each image holds the
/// contents from before or after the call.
pub fn cut_leaves_old_or_new_contents<D: Disk, E: Disk>()
    ensures { (snap other : List ℕ) (records more : List (List ℕ)) (old new : D) (found : E)
        → LeavesOnly (D.state old) (D.state new)
        (SatisfiesEither (λ c. Holds c snap records) (λ c. Holds c other more))
        → IsLeftByCut (time_of (D.state old)) (D.state new) (E.state found)
        → Holds (bytes_of (E.state found)) snap records ⊎ Holds (bytes_of (E.state found)) other more }
{}

/// Shows that a power cut leaves the contents unchanged if the disk is durable at the moment of the
/// cut. An honest disk is durable after [`append`](crate::Store::append) or
/// [`replace`](crate::Store::replace) has returned Ok.
pub fn cut_leaves_durable_contents<D: Disk, E: Disk>()
    ensures { (snap : List ℕ) (records : List (List ℕ)) (disk : D) (found : E)
        → IsDurable (D.state disk) → Holds (bytes_of (D.state disk)) snap records
        → IsLeftByCut (time_of (D.state disk)) (D.state disk) (E.state found)
        → Holds (bytes_of (E.state found)) snap records }
{}

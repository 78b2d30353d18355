//! Laws about images and power cuts. An image of a disk is a list of bytes that a power cut can
//! leave on it. The contract of each function states a law; the function itself does nothing.
ghost use Rattle.std.specs.Prelude.{◌≡◌, ◌⊎◌, ◌≤◌, ℕ, List, length};
ghost use Rattle.mcs_disk.specs.Disk.{IsLater, bytes_of, images_of, images_since, size_of, time_of};
ghost use Rattle.mcs_disk.specs.PowerCut.{IsLeftByCut, IsDurable};
ghost use Rattle.mcs_disk.specs.Stretches.{AddsNoImage};

use crate::Disk;

/// Shows that the bytes of a disk are one of its images: a power cut at this moment can leave them.
pub fn current_bytes_are_an_image<D: Disk>()
    ensures { (disk : D) → images_of (D.state disk) (bytes_of (D.state disk)) }
{}

/// Shows that every image has the size of the disk. This holds for images of this moment and for
/// images since a given time.
pub fn images_have_the_size_of_the_disk<D: Disk>()
    ensures now { (disk : D) (image : List ℕ) → images_of (D.state disk) image
        → length image ≡ size_of (D.state disk) }
    ensures since { (time : ℕ) (disk : D) (image : List ℕ) → images_since time (D.state disk) image
        → length image ≡ size_of (D.state disk) }
{}

/// Shows that reads and syncs change no byte and add no image: every image after them was an image
/// before them.
pub fn reads_and_syncs_add_no_image<D: Disk>()
    ensures bytes { (old new : D) → AddsNoImage (D.state old) (D.state new)
        → bytes_of (D.state new) ≡ bytes_of (D.state old) }
    ensures now { (old new : D) (image : List ℕ) → AddsNoImage (D.state old) (D.state new)
        → images_of (D.state new) image → images_of (D.state old) image }
    ensures since { (time : ℕ) (old new : D) (image : List ℕ)
        → AddsNoImage (D.state old) (D.state new)
        → images_since time (D.state new) image → images_since time (D.state old) image }
{}

/// Shows for an honest disk: if a power cut since the time `later` can leave the disk `found`, then
/// a power cut since the time `earlier` can also leave `found`.
pub fn cut_since_later_is_since_earlier<D: Disk, E: Disk>()
    ensures { (earlier later : ℕ) (disk : D) (found : E) → earlier ≤ later
        → (D.state disk).honest → IsLeftByCut later (D.state disk) (E.state found)
        → IsLeftByCut earlier (D.state disk) (E.state found) }
{}

/// Shows that a power cut on a durable disk, at the disk's current time, leaves the bytes of the
/// disk unchanged.
pub fn cut_keeps_durable_bytes<D: Disk, E: Disk>()
    ensures { (disk : D) (found : E) → IsDurable (D.state disk)
        → IsLeftByCut (time_of (D.state disk)) (D.state disk) (E.state found)
        → bytes_of (E.state found) ≡ bytes_of (D.state disk) }
{}

/// Shows that there are two cases for a disk `found` that a power cut on `new` since `time` can leave. A cut on `old`
/// since `time` can leave `found`, or a cut on `new` since the clock time of `old` can leave `found`. `new` is later
/// than `old`, and `time` is not later than that clock time.
pub fn cut_is_before_a_stretch_or_since_its_start<D: Disk, E: Disk>()
    ensures { (time : ℕ) (old new : D) (found : E) → time ≤ time_of (D.state old)
        → IsLater (D.state old) (D.state new) → IsLeftByCut time (D.state new) (E.state found)
        → IsLeftByCut time (D.state old) (E.state found)
        ⊎ IsLeftByCut (time_of (D.state old)) (D.state new) (E.state found) }
{}

/// Shows that a second power cut adds no new outcome. If no call is made between the two cuts, the
/// second cut leaves a disk that the first cut could have left.
pub fn second_cut_adds_no_outcome<D: Disk, E: Disk, F: Disk>()
    ensures { (time : ℕ) (disk : D) (found : E) (again : F)
        → IsLeftByCut time (D.state disk) (E.state found)
        → IsLeftByCut (time_of (E.state found)) (E.state found) (F.state again)
        → IsLeftByCut time (D.state disk) (F.state again) }
{}

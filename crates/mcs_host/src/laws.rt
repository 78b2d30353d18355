//! Laws about the premise that a file is honest: what the premise means, what follows from it, and that no call can
//! refute it. An open file ends with a close, a process kill or a power cut. The contract of each function states a
//! law; the function itself does nothing.
ghost use Rattle.std.specs.Prelude.{◌≡◌, ◌↔◌, ℕ, List};
ghost use Rattle.mcs_disk.specs.Disk.{bytes_of, images_of, images_since};
ghost use Rattle.mcs_disk.specs.PowerCut.{IsLeftByCut};
ghost use Rattle.mcs_host.specs.Ending.{IsFoundAfterTheEnd, AgreesButEndsWith, IsLeftSince, as_disk, as_host_file, bytes_found_in};
ghost use Rattle.mcs_host.specs.FileDisk.{IsNotStandardStream, HasNoCalls};

use crate::FileDisk;

/// Shows that the bytes found in an honest file at its next opening are an image since `time`. The premise is that the
/// open file ended after an initial part of its calls, with the disk's clock at `time` or later.
pub fn found_bytes_are_an_image()
    ensures { (time : ℕ) (file : FileDisk) → (as_disk file).honest
        → IsLeftSince time file → images_since time (as_disk file) (bytes_found_in file) }
{}

/// Shows that a power cut at or after `time` can leave the disk of a file that was opened again.
/// The premises are:
///
/// - `file` is honest, and the open file ended with the disk's clock at `time` or later.
/// - `reopened`, the file opened again, is honest. No call has been made on it, and it holds the bytes
///   that were found in `file`.
pub fn reopened_file_is_left_by_cut()
    ensures { (time : ℕ) (file reopened : FileDisk) → (as_disk file).honest
        → IsLeftSince time file → (as_disk reopened).honest
        → HasNoCalls (as_disk reopened)
        → bytes_of (as_disk reopened) ≡ bytes_found_in file
        → IsLeftByCut time (as_disk file) (as_disk reopened) }
{}

/// Shows that a file is honest if, and only if, the bytes found in it at its next opening are an image that the calls
/// before its end can leave.
pub fn file_is_honest_iff_image_is_found()
    ensures { (file : FileDisk) → (as_disk file).honest ↔ IsFoundAfterTheEnd file }
{}

/// Shows that no answer of a file can refute the premise that the file is honest. For each image
/// that the calls on a file can leave, there is an honest file that gave the same answers. The image is found in this
/// honest file at its next opening.
pub fn each_image_can_be_found()
    ensures { (file : FileDisk) (image : List ℕ) → images_of (as_disk file) image
        → (like : FileDisk) × (as_disk like).honest × AgreesButEndsWith image file like }
{}

/// Shows that no open `FileDisk` has the descriptor of a standard stream. Therefore a write to
/// descriptor 0, 1 or 2 never uses the descriptor of a session file.
pub fn no_file_is_a_standard_stream()
    ensures { (file : FileDisk) → IsNotStandardStream (as_host_file file).number }
{}

//! The journal's model of a disk: a fixed number of bytes, I/O errors, and the bytes that a power
//! cut can leave.
//!
//! The journal is generic over the trait [`Disk`]. [`MemDisk`] is an honest in-memory disk.
//! [`FuseDisk`], for tests, is an in-memory disk that fails chosen calls. [`Record`] lists the
//! calls on a disk; only contracts can see that list.
#![tactic(auto)]

mod call_record;
mod disk;
mod fuse;
mod laws;
mod memory;
mod record;

pub use call_record::{Call, CallRecord};
pub use disk::{Disk, DiskFault, overwrite};
pub use fuse::FuseDisk;
pub use laws::{
    current_bytes_are_an_image, cut_is_before_a_stretch_or_since_its_start,
    cut_keeps_durable_bytes, cut_since_later_is_since_earlier, images_have_the_size_of_the_disk,
    reads_and_syncs_add_no_image, second_cut_adds_no_outcome,
};
pub use memory::MemDisk;
pub use record::Record;

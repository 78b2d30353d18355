//! The program's interface to the host: the task that the command line selects, and a session file
//! as a disk.
//!
//! [`choice`] parses the command line. [`StandIns`] are the files that replace closed standard
//! streams. [`FileDisk`] implements the trait `Disk` of mcs_disk for a file of the host. It is a
//! premise on the host, not a theorem, that the file keeps its bytes after a power cut.
#![tactic(auto)]

mod arguments;
mod command_line;
mod ending;
mod file_disk;
mod file_fault;
mod host_disk;
mod host_file;
mod host_record;
mod laws;
mod opening;
mod streams;
mod system_file;

pub use arguments::{ArgumentsFault, Choice, FileName};
pub use command_line::choice;
pub use file_disk::FileDisk;
pub use file_fault::FileFault;
pub use host_disk::HostDisk;
pub use host_file::{Host, HostFile};
pub use laws::{
    each_image_can_be_found, file_is_honest_iff_image_is_found, found_bytes_are_an_image,
    no_file_is_a_standard_stream, reopened_file_is_left_by_cut,
};
pub use streams::{StandIns, Streams, StreamsError, StreamsFault};
pub use system_file::SystemFile;

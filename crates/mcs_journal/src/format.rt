//! The layout of a session file: a header and two slots. All sizes and offsets are in bytes.

/// The size of a session file, in bytes.
pub const FILE_SIZE: usize = 163_856;

/// The maximum size of a snapshot, in bytes. The file layout sets this limit. The longest state
/// that mcs_codec encodes must not exceed it.
pub const MAX_SNAPSHOT_SIZE: usize = 16_380;

/// The maximum size of a record, in bytes. The file layout sets this limit. The longest command
/// that mcs_codec encodes must not exceed it.
pub const MAX_RECORD_SIZE: usize = 8_192;

/// The size of the header, which consists of the name, the selector and zeros.
pub const HEADER_SIZE: usize = 16;

/// The name that a session file begins with.
pub const NAME: [u8; 8] = *b"MCS4BEN1";

/// The size of the name at the start of the file, in bytes.
pub const NAME_SIZE: usize = 8;

/// The offset of the selector byte. An even selector selects the first slot; an odd selector
/// selects the second.
pub const SELECTOR_OFFSET: usize = 8;

/// The offset of the zero bytes that end the header.
pub const ZEROS_OFFSET: usize = 9;

/// The zero bytes that end the header.
pub const ZEROS: [u8; 7] = [0; 7];

/// The header of a new file. Its selector is 0, which selects the first slot.
pub const FIRST_HEADER: [u8; HEADER_SIZE] = *b"MCS4BEN1\0\0\0\0\0\0\0\0";

/// The offset of the first slot in the file.
pub const FIRST_SLOT: usize = 16;

/// The offset of the second slot in the file.
pub const SECOND_SLOT: usize = 81_936;

/// The size of a slot's snapshot area. The area consists of a four-byte length and space for the
/// longest snapshot.
pub const AREA_SIZE: usize = 16_384;

/// The offset of the snapshot within its area; the four-byte length precedes it.
pub const SNAPSHOT_OFFSET: usize = 4;

/// The size of a slot's log. The log follows the snapshot area.
pub const LOG_SIZE: usize = 65_536;

/// The size of a frame's header, which precedes the record: a commit byte and a two-byte length.
pub const FRAME_HEADER_SIZE: usize = 3;

/// The commit byte in front of a record that is part of the log.
pub const COMMITTED: u8 = 1;

/// The commit byte that a store writes at the end of a log. When a log is read, every value except
/// 1 ends the log.
pub const NOT_COMMITTED: u8 = 0;

/// The size of a snapshot area together with the first commit byte of the log after it. A store
/// writes both at once.
pub const AREA_WITH_COMMIT_SIZE: usize = AREA_SIZE + 1;

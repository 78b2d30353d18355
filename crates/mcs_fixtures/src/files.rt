//! Parts of session files in format version 1.

/// A byte range of a file: its offset in the file, and its bytes.
pub type FileRange = (usize, &'static [u8]);

/// The non-zero bytes in the session file of a new bench. They are the format name, the length of
/// the state (6,822 bytes), 64 bytes `-`, and the TEST level 1. Each `-` encodes a port line of an
/// absent ROM.
pub const NEW_BENCH: [FileRange; 4] = [
    (0, b"MCS4BEN1"),
    (18, &[0x1A, 0xA6]),
    (24, &[b'-'; 64]),
    (6_840, &[1]),
];

/// The frame with the record of the command `poke r5 9`, at the start of the log in slot A.
pub const POKE_RECORD: FileRange = (16_400, &[1, 0, 4, 7, 3, 5, 9]);

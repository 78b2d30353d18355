//! The limits of a bench and of its session.

/// The maximum number of 4001 chips on a board: one for each page of addresses.
pub const ROMS: usize = 16;

/// The number of RAM banks: one for each value of the command register.
pub const BANKS: usize = 8;

/// The maximum number of 4002 chips in a bank.
pub const BANK_CHIPS: u8 = 4;

/// The maximum number of shift-register chains on a board.
pub const CHAINS: usize = 4;

/// The maximum number of 4003 chips in a chain.
pub const CHAIN_CHIPS: u8 = 8;

/// The maximum number of bits in a chain: ten for each chip.
pub const CHAIN_BITS: u8 = 10 * CHAIN_CHIPS;

/// The capacity of a list that holds the bits of a chain: `CHAIN_BITS` as a `usize`.
pub const CHAIN_SOCKETS: usize = CHAIN_BITS as usize;

/// The maximum number of rows in a key matrix.
pub const KEY_ROWS: u8 = 10;

/// The maximum number of columns in a key matrix.
pub const KEY_COLUMNS: usize = 8;

/// The maximum number of keys in a key matrix.
pub const KEYS: usize = KEY_ROWS as usize * KEY_COLUMNS;

/// The maximum number of lamps on a board.
pub const LAMPS: usize = 64;

/// The maximum number of breakpoints that are set at one time.
pub const BREAKPOINTS: usize = 32;

/// The maximum number of RAM nibbles that are watched at one time.
pub const WATCHES: usize = 8;

/// The maximum number of instruction cycles in one run.
pub const RUN_CYCLES: u32 = 100_000;

/// The maximum number of instruction cycles that a replay of a session file's log can take.
pub const REPLAY_CYCLES: u32 = 4_000_000;

/// The maximum number of commands that one session accepts.
pub const ACCEPTED_COMMANDS: u32 = 4_294_967_295;

/// The maximum number of bytes in a line, without its line end.
pub const LINE_BYTES: usize = 255;

/// The maximum number of bytes in a text, including its line feeds.
pub const TEXT_BYTES: usize = 16_384;

/// The maximum number of lines in one listing.
pub const LISTING_LINES: u32 = 256;

/// The maximum number of names that one source text defines.
pub const NAMES: usize = 512;

/// The maximum number of bytes in a name.
pub const NAME_BYTES: usize = 16;

/// The maximum number of bytes that one run of the shell reads.
pub const INPUT_BYTES: usize = 16_777_216;

/// The maximum number of bytes in a snapshot, which stores the state of a session in its file.
pub const SNAPSHOT_BYTES: usize = 16_380;

/// The maximum number of bytes in a record, which stores one command in the log of a session file.
pub const RECORD_BYTES: usize = 8_192;

/// The number of bytes in the log of a session file.
pub const LOG_BYTES: usize = 65_536;

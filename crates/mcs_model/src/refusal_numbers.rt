//! The refusal numbers that the shell reports. Each number is defined only here.

/// The refusal number for an unknown first word, a wrong number of words, or a location of unknown form.
pub const NOT_A_COMMAND: u8 = 10;

/// The refusal number for a word that must be a number but is not, or a number that is out of range.
pub const BAD_NUMBER: u8 = 11;

/// The refusal number for a line of more than 255 bytes.
pub const LINE_TOO_LONG: u8 = 12;

/// The refusal number for a text of more than 16,384 bytes.
pub const TEXT_TOO_LONG: u8 = 13;

/// The refusal number for a byte in a line that is neither a tab nor a printable ASCII character.
pub const NOT_ASCII: u8 = 14;

/// The refusal number for input that ends inside a text, before the line `.` that ends the text.
pub const NO_END: u8 = 15;

/// The refusal number for a board text that is not TOML.
pub const BAD_TOML: u8 = 20;

/// The refusal number for a board text with an unknown key.
pub const UNKNOWN_KEY: u8 = 21;

/// The refusal number for a board text without a required key.
pub const MISSING_KEY: u8 = 22;

/// The refusal number for a value in a board that has the wrong type or form or is out of range, or for a key matrix
/// without columns.
pub const BAD_VALUE: u8 = 23;

/// The refusal number for two ROMs with the same number, or two chip counts for the same bank.
pub const DOUBLE_CHIP: u8 = 24;

/// The refusal number for something that is not on the board: a line, or a chain or chain bit that the key matrix
/// needs.
pub const NO_SUCH_LINE: u8 = 25;

/// The refusal number for a line of the wrong direction. A clock or data line is not an output
/// line, a column is not an input line, or a lamp shows an input line.
pub const WRONG_DIRECTION: u8 = 26;

/// The refusal number for more parts of one kind, or more key columns, than a board can have.
pub const TOO_MANY_PARTS: u8 = 27;

/// The refusal number for a line of a source text that is not a statement.
pub const BAD_STATEMENT: u8 = 30;

/// The refusal number for a name that an earlier line of the source text already defines.
pub const DOUBLE_NAME: u8 = 31;

/// The refusal number for a name that no line of the source text defines.
pub const UNKNOWN_NAME: u8 = 32;

/// The refusal number for a value in a source text that is out of range.
pub const OUT_OF_RANGE: u8 = 33;

/// The refusal number for a target address outside the page that the instruction can reach.
pub const WRONG_PAGE: u8 = 34;

/// The refusal number for an address that an earlier line of the source text already fills.
pub const OVERLAP: u8 = 35;

/// The refusal number for a label or a byte at address 4096 or above.
pub const PAST_END: u8 = 36;

/// The refusal number for more names than a source text can define.
pub const TOO_MANY_NAMES: u8 = 37;

/// The refusal number for a key that is not on the board.
pub const NO_KEY: u8 = 41;

/// The refusal number for an address in a ROM that is not on the board.
pub const NO_ROM: u8 = 42;

/// The refusal number for a location in a RAM chip that is not on the board.
pub const NO_SUCH_PLACE: u8 = 43;

/// The refusal number for a run of 0 cycles, or of more than 100,000 cycles.
pub const BAD_COUNT: u8 = 44;

/// The refusal number for a new breakpoint when the maximum number of breakpoints is already set.
pub const BREAKS_FULL: u8 = 45;

/// The refusal number for a command after the session has accepted the maximum number of commands.
pub const COMMANDS_EXHAUSTED: u8 = 46;

/// The refusal number for a new watch when the maximum number of watches is already set.
pub const WATCHES_FULL: u8 = 47;

/// The refusal number for a file that is not a session file: its size, or the name at its start, is wrong.
pub const NOT_A_SESSION: u8 = 50;

/// The refusal number for a damaged session file, which represents no state.
pub const DAMAGED: u8 = 51;

/// The refusal number for a device call that failed: an I/O error.
pub const DEVICE: u8 = 53;

/// The refusal number for a command to a session that is closed because an earlier device call failed.
pub const CLOSED: u8 = 54;

/// The refusal number for the creation of a session on a disk that is not blank.
pub const NOT_BLANK: u8 = 55;

/// The refusal number for a failed memory allocation.
pub const NO_MEMORY: u8 = 90;

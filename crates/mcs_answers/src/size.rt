//! The room in bytes for the longest answers that need no allocated memory, and for their parts.

use mcs_model::limits::{
    BANK_CHIPS, BANKS, BREAKPOINTS, CHAIN_CHIPS, CHAINS, KEYS, LAMPS, ROMS, WATCHES,
};

/// The length of the longest answer to `ram`: its first line, then four registers and a port for each chip.
const RAM_BYTES: usize = 14 + (4 * 28 + 10) * BANK_CHIPS as usize;

/// The length of the answer to `regs` without its return addresses and its line feed.
pub(crate) const REGISTER_BYTES: usize = 56;

/// The room for the longest list of banks in `state`: its name, five bytes for each bank, and one
/// free byte that `end_list` requires.
pub(crate) const BANK_LIST_BYTES: usize = 8 + 5 * BANKS;

/// The room for the longest list of ROM ports in `state`, with its name and the free byte for
/// `end_list`.
pub(crate) const ROM_LIST_BYTES: usize = 7 + 7 * ROMS;

/// The room for the longest list of RAM ports in `state`, with its name and the free byte for
/// `end_list`.
pub(crate) const RAM_LIST_BYTES: usize = 7 + 6 * BANK_CHIPS as usize * BANKS;

/// The length of the longest chain in `state`: ten bits for each chip, and a comma.
pub(crate) const CHAIN_ITEM_BYTES: usize = 10 * CHAIN_CHIPS as usize + 1;

/// The room for the longest list of chains in `state`, with its name and the free byte for
/// `end_list`.
pub(crate) const CHAIN_LIST_BYTES: usize = 9 + CHAIN_ITEM_BYTES * CHAINS;

/// The room for the longest list of keys in `state`, with its name and the free byte for
/// `end_list`.
pub(crate) const KEY_LIST_BYTES: usize = 7 + 4 * KEYS;

/// The length of the longest answer to `lamps`, without its line feed.
pub(crate) const LAMP_BYTES: usize = 6 + LAMPS;

/// The room for the longest answer to `state`. Its parts are the number of accepted commands, the
/// registers, the return addresses, the SRC byte of the ROMs, the lists and the line feed.
const STATE_BYTES: usize = 30
    + (1 + REGISTER_BYTES)
    + 18
    + 7
    + BANK_LIST_BYTES
    + ROM_LIST_BYTES
    + RAM_LIST_BYTES
    + CHAIN_LIST_BYTES
    + KEY_LIST_BYTES
    + (1 + LAMP_BYTES)
    + (9 + 4 * BREAKPOINTS)
    + (10 + 5 * WATCHES)
    + 1;

/// The room for the longest value in a trace: a space, then a chain. The room includes a comma, which is appended to
/// the chain and then removed.
pub(crate) const PROBE_BYTES: usize = 1 + CHAIN_ITEM_BYTES;

/// The room for the longest answer that needs no allocated memory, which is the answer to `ram` or
/// to `state`.
pub const ANSWER_BYTES: usize = if RAM_BYTES < STATE_BYTES {
    STATE_BYTES
} else {
    RAM_BYTES
};

//! Theorems about the definitions. Each theorem is the contract of a function with an empty body.
ghost use Rattle.std.specs.Prelude.{[], ◌∷◌, ◌≡◌, true};
ghost use Rattle.mcs_model.specs.declared.limits.TheConstants.{ACCEPTED_COMMANDS, BANKS, BANK_CHIPS, BREAKPOINTS, CHAINS, CHAIN_BITS, CHAIN_CHIPS, CHAIN_SOCKETS, INPUT_BYTES, KEYS, KEY_COLUMNS, KEY_ROWS, LAMPS, LINE_BYTES, LISTING_LINES, NAMES, NAME_BYTES, REPLAY_CYCLES, ROMS, RUN_CYCLES, TEXT_BYTES, WATCHES};
ghost use Rattle.mcs_model.specs.declared.refusal_numbers.TheConstants.{BAD_COUNT, BAD_NUMBER, BAD_STATEMENT, BAD_TOML, BAD_VALUE, BREAKS_FULL, CLOSED, DAMAGED, DEVICE, DOUBLE_CHIP, DOUBLE_NAME, LINE_TOO_LONG, MISSING_KEY, NOT_ASCII, NOT_A_COMMAND, NOT_A_SESSION, NOT_BLANK, NO_END, NO_KEY, NO_MEMORY, NO_ROM, NO_SUCH_LINE, NO_SUCH_PLACE, OUT_OF_RANGE, OVERLAP, PAST_END, TEXT_TOO_LONG, TOO_MANY_NAMES, TOO_MANY_PARTS, UNKNOWN_KEY, UNKNOWN_NAME, WATCHES_FULL, COMMANDS_EXHAUSTED, WRONG_DIRECTION, WRONG_PAGE};
ghost use Rattle.mcs_model.specs.Laws.{AreOutsideTable, RunsCompose, is_unambiguous, outside_codes};
ghost use Rattle.mcs_model.specs.Table.{rows};

/// Proves that 18 opcodes are in no row of the opcode table, and that each other opcode is in exactly one row.
#[tactic(none)]
pub fn opcodes_are_in_at_most_one_row()
    ensures outside { AreOutsideTable outside_codes }
    ensures at_most_one { is_unambiguous rows ≡ true }
{}

/// Proves that, without breakpoints and watches, two consecutive runs reach the same state as one run of all their
/// instruction cycles.
pub fn runs_compose()
    ensures { RunsCompose }
{}

/// Proves the values of the refusal numbers, with one clause for each group: lines and texts, boards, programs,
/// commands, and sessions. The last group includes the number for a failed memory allocation.
pub fn refusal_numbers_are_fixed()
    ensures lines { NOT_A_COMMAND ∷ BAD_NUMBER ∷ LINE_TOO_LONG ∷ TEXT_TOO_LONG ∷ NOT_ASCII
        ∷ NO_END ∷ []
        ≡ 10 ∷ 11 ∷ 12 ∷ 13 ∷ 14 ∷ 15 ∷ [] }
    ensures boards { BAD_TOML ∷ UNKNOWN_KEY ∷ MISSING_KEY ∷ BAD_VALUE ∷ DOUBLE_CHIP ∷ NO_SUCH_LINE
        ∷ WRONG_DIRECTION ∷ TOO_MANY_PARTS ∷ []
        ≡ 20 ∷ 21 ∷ 22 ∷ 23 ∷ 24 ∷ 25 ∷ 26 ∷ 27 ∷ [] }
    ensures programs { BAD_STATEMENT ∷ DOUBLE_NAME ∷ UNKNOWN_NAME ∷ OUT_OF_RANGE ∷ WRONG_PAGE
        ∷ OVERLAP ∷ PAST_END ∷ TOO_MANY_NAMES ∷ []
        ≡ 30 ∷ 31 ∷ 32 ∷ 33 ∷ 34 ∷ 35 ∷ 36 ∷ 37 ∷ [] }
    ensures commands { NO_KEY ∷ NO_ROM ∷ NO_SUCH_PLACE ∷ BAD_COUNT ∷ BREAKS_FULL ∷ COMMANDS_EXHAUSTED
        ∷ WATCHES_FULL ∷ []
        ≡ 41 ∷ 42 ∷ 43 ∷ 44 ∷ 45 ∷ 46 ∷ 47 ∷ [] }
    ensures sessions { NOT_A_SESSION ∷ DAMAGED ∷ DEVICE ∷ CLOSED ∷ NOT_BLANK ∷ NO_MEMORY ∷ []
        ≡ 50 ∷ 51 ∷ 53 ∷ 54 ∷ 55 ∷ 90 ∷ [] }
{}

/// Proves the values of the limits on boards, debugging, runs, sessions and texts. The sizes of the parts of a
/// session file (`SNAPSHOT_BYTES`, `RECORD_BYTES`, `LOG_BYTES`) are not included.
pub fn limits_are_fixed()
    ensures boards { ROMS ∷ BANKS ∷ BANK_CHIPS ∷ CHAINS ∷ CHAIN_CHIPS ∷ CHAIN_BITS ∷ CHAIN_SOCKETS
        ∷ KEY_ROWS ∷ KEY_COLUMNS ∷ KEYS ∷ LAMPS ∷ []
        ≡ 16 ∷ 8 ∷ 4 ∷ 4 ∷ 8 ∷ 80 ∷ 80 ∷ 10 ∷ 8 ∷ 80 ∷ 64 ∷ [] }
    ensures debugging { BREAKPOINTS ∷ WATCHES ∷ [] ≡ 32 ∷ 8 ∷ [] }
    ensures runs { RUN_CYCLES ∷ REPLAY_CYCLES ∷ [] ≡ 100_000 ∷ 4_000_000 ∷ [] }
    ensures sessions { ACCEPTED_COMMANDS ∷ INPUT_BYTES ∷ [] ≡ 4_294_967_295 ∷ 16_777_216 ∷ [] }
    ensures texts { LINE_BYTES ∷ TEXT_BYTES ∷ LISTING_LINES ∷ NAMES ∷ NAME_BYTES ∷ []
        ≡ 255 ∷ 16_384 ∷ 256 ∷ 512 ∷ 16 ∷ [] }
{}

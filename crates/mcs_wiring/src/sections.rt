//! The sections of a board text.
ghost use Rattle.std.specs.Prelude.{◌≡◌};
ghost use Rattle.mcs_wiring.specs.Format.{is_table_key, section_key, is_board_key};

/// A section of a board text: a top-level key and its tables.
#[derive(Clone, Copy)]
pub(crate) enum Section {
    /// The ROMs, one table each.
    Rom,
    /// The RAM banks, one table each.
    Ram,
    /// The shift-register chains, one table each.
    Chain,
    /// The key matrix, one table.
    Keys,
    /// The lamps, one table each.
    Lamp,
}

/// A kind of error in one section that does not depend on the other sections.
#[derive(Clone, Copy)]
pub(crate) enum Flaw {
    /// A table has a key that its section does not allow.
    UnknownKey,
    /// A table lacks a required key.
    MissingKey,
    /// A value of the wrong type or form, a number out of range, or a key matrix without columns.
    BadValue,
}

/// A ROM or a RAM bank with its number.
#[derive(Clone, Copy, Default)]
pub(crate) struct Numbered<T> {
    /// The chip number of a ROM, or the number of a RAM bank.
    pub(crate) number: u8,
    /// The masks of the ROM's port, or the number of chips in the RAM bank.
    pub(crate) part: T,
}

/// Returns true if a key is a known top-level key.
pub(crate) fn is_board_key(key: &str) -> bool
    ensures { result ≡ is_board_key key.now }
{
    matches!(key, "rom" | "ram" | "chain" | "keys" | "lamp")
}

impl Section {
    /// All sections, in the order in which `board_text` writes them.
    pub(crate) const ALL: [Section; 5] = [
        Section::Rom,
        Section::Ram,
        Section::Chain,
        Section::Keys,
        Section::Lamp,
    ];

    /// Returns the top-level key of the section.
    pub(crate) fn key(self) -> &'static str
        ensures { result.now ≡ section_key self }
    {
        match self {
            Section::Rom => "rom",
            Section::Ram => "ram",
            Section::Chain => "chain",
            Section::Keys => "keys",
            Section::Lamp => "lamp",
        }
    }

    /// Returns true if the tables of the section must have the key. The tables can have no other
    /// keys.
    pub(crate) fn has_key(self, key: &str) -> bool
        ensures { result ≡ is_table_key self key.now }
    {
        match self {
            Section::Rom => matches!(key, "chip" | "port"),
            Section::Ram => matches!(key, "bank" | "chips"),
            Section::Chain => matches!(key, "clock" | "data" | "chips"),
            Section::Keys => matches!(key, "chain" | "first" | "rows" | "columns"),
            Section::Lamp => key == "line",
        }
    }
}

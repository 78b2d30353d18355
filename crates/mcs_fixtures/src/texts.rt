//! Board texts for tests.

/// The `wire` command with the text of the example board. The board has three ROMs, one RAM chip in each of banks 0
/// and 1, a chain of ten bits, ten rows of eight keys, and three lamps.
pub const WIRE_EXAMPLE: &[u8] = b"wire
[[rom]]
chip = 0
port = \"0000\"
[[rom]]
chip = 1
port = \"iiii\"
[[rom]]
chip = 2
port = \"iiii\"
[[ram]]
bank = 0
chips = 1
[[ram]]
bank = 1
chips = 1
[[chain]]
clock = \"rom0.0\"
data = \"rom0.1\"
chips = 1
[keys]
chain = 0
first = 0
rows = 10
columns = [\"rom1.0\", \"rom1.1\", \"rom1.2\", \"rom1.3\", \"rom2.0\", \"rom2.1\", \"rom2.2\", \"rom2.3\"]
[[lamp]]
line = \"chain0.0\"
[[lamp]]
line = \"chain0.1\"
[[lamp]]
line = \"ram0.0.3\"
.
";

/// Returns the board text in a `wire` command: the lines between `wire` and the final dot.
pub fn board_text_in(command: &[u8]) -> &[u8] {
    let text = command
        .strip_prefix(b"wire\n".as_slice())
        .unwrap_or(command);
    text.strip_suffix(b".\n".as_slice()).unwrap_or(text)
}

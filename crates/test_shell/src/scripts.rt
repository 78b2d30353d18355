//! A script of commands with its answers, and the queries that show a session's state.
use mcs_fixtures::texts::WIRE_EXAMPLE;

/// The commands of the script, in order. The first wires a board with three ROMs, two RAM banks, a shift-register
/// chain, keys and lamps. The second loads a program that drives two rows of keys and reads four columns. The others
/// press a key, run all cycles before the program's last instruction, and set a register.
pub(crate) const INPUTS: [&[u8]; 5] = [
    WIRE_EXAMPLE,
    b"asm
LDM 3
WRR
LDM 2
WRR
LDM 3
WRR
FIM P0, 0x10
SRC P0
RDR
KBP
.
",
    b"press 0 1\n",
    b"run 10\n",
    b"poke r5 9\n",
];

/// The answer to each command in `INPUTS`.
pub(crate) const ANSWERS: [&[u8]; 5] = [
    b"ok 1\n",
    b"ok 2 bytes 11\n",
    b"ok 3\n",
    b"ok 4 ran 10 end\n",
    b"ok 5\n",
];

/// Queries whose answers distinguish any two of the states in these tests.
pub(crate) const QUERIES: &[u8] = b"board
list 0 12
ram 0
ram 1
breaks
watches
state
lamps
regs
";

/// A command whose record has seven bytes.
pub(crate) const POKE: &[u8] = b"poke r0 1\n";

/// The number of pokes that fill the log after the commands of `INPUTS`, so that no other poke fits. The records of
/// the commands of `INPUTS` take 136, 527, 6, 8 and 7 of the 65,535 bytes that a log has for records.
pub(crate) const POKES: usize = 9_264;

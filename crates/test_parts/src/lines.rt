//! Tests of the parser of command lines: the request that each line parses to.
use mcs_lines::requests::{Request, parse_request};
use std::test::Fail;

/// Valid command lines, whose numbers are all in range.
const VALID_LINES: [&str; 41] = [
    "",
    " \t ",
    "wire",
    "\tasm ",
    "step",
    "  reset\t",
    "lamps",
    "regs",
    "breaks",
    " watches ",
    "seq",
    "board",
    "run 0",
    "run 4294967295",
    "run 0xFFFFffff",
    "test 0",
    "test 1",
    "break 4095",
    "unbreak 0xFff",
    "watch 7 255",
    "watch 0x0 0xfF",
    "unwatch 0 0",
    "unwatch\t7 255",
    "ram 7",
    "press 255 0",
    "release\t0 \t 255",
    "list 4095 256",
    "list 0 1",
    "poke acc 15",
    "poke cy 1",
    "poke pc 4095",
    "poke dcl 7",
    "poke r15 15",
    "poke r0x0F 0",
    "poke r00000000000000000000000000000005 1",
    "poke rom.4095 255",
    "poke rom.0xFFF 0xFF",
    "poke ram.7.255 15",
    "poke ram.0x7.0xFF 0xf",
    "poke st.7.15.3 15",
    "poke st.0.0.0 0",
];

#[test]
fn lines_in_range_are_accepted(rt: HostRuntime) {
    for line in VALID_LINES {
        let is_refused = matches!(parse_request(line.as_bytes()), Request::Refused(_));
        assert_eq!(rt; is_refused, false, "at {line}");
    }
}

/// Command lines, and the requests that they parse to.
const REQUESTS: [(&str, &str); 24] = [
    ("", "Nothing"),
    ("\t ", "Nothing"),
    ("wire", "Begin(Wire)"),
    (" asm\t", "Begin(Asm)"),
    ("map ", "Begin(Map)"),
    ("wiring", "Begin(Wiring)"),
    ("errors", "Begin(Errors)"),
    ("board", "Board"),
    ("press 9 7", "Change(Press(9, 7))"),
    ("run 100001", "Change(Run(100001))"),
    ("list 0x100 3", "Listing(Addr { value: 256 }, 3)"),
    ("ram 5", "Ask(Ram(BankNo { value: 5 }))"),
    ("watches", "Ask(Watches)"),
    ("state", "Ask(State)"),
    ("watch 5 63", "Change(Watch(BankNo { value: 5 }, 63))"),
    (
        "unwatch 0x6 0x3F",
        "Change(Unwatch(BankNo { value: 6 }, 63))",
    ),
    (
        "poke st.1.2.3 4",
        "Change(Poke(Status(BankNo { value: 1 }, Nibble { value: 2 }, StatusNo { value: 3 }, Nibble { value: 4 })))",
    ),
    ("count 1", "Count(1)"),
    ("\tcount  0x186A0 ", "Count(100000)"),
    ("trace 100000", "Trace(100000, [])"),
    (
        "trace 1 lamps ret lamps",
        "Trace(1, [Lamps, ReturnAddresses, Lamps])",
    ),
    (
        "trace 10 acc cy pc dcl r15 rom.4095 ram.7.255 st.7.15.3",
        "Trace(10, [Acc, Cy, Pc, Dcl, Register(RegNo { value: 15 }), Rom(Addr { value: 4095 }), Ram(BankNo { value: 7 }, 255), Status(BankNo { value: 7 }, Nibble { value: 15 }, StatusNo { value: 3 })])",
    ),
    (
        "trace 1 src rom15 ram7.3 chain3 rom0x0",
        "Trace(1, [Src, RomPort(15), RamPort(7, 3), Chain(3), RomPort(0)])",
    ),
    (
        "trace 0xA rom15.3 ram7.3.3 chain3.79 rom0x0.0 ram0.0.0 chain0.0 acc acc acc acc acc acc acc acc acc acc",
        "Trace(10, [Level(Rom(15, 3)), Level(Ram(7, 3, 3)), Level(Chain(3, 79)), Level(Rom(0, 0)), Level(Ram(0, 0, 0)), Level(Chain(0, 0)), Acc, Acc, Acc, Acc, Acc, Acc, Acc, Acc, Acc, Acc])",
    ),
];

#[test]
fn lines_parse_to_their_requests(rt: HostRuntime) -> Result<(), Fail> {
    for (line, wanted) in REQUESTS {
        let request = parse_request(line.as_bytes());
        let found = format!(in rt.alloc(); "{request:?}")?;
        assert_eq!(rt; found.as_str(), wanted);
    }
    Ok(())
}

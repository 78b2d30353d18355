//! Tests of refusal numbers, of the answer to `wiring`, and of board texts that no session can pass
//! to `board_of`. The texts of the last kind contain bytes other than LF, tab and printable ASCII,
//! or do not end with LF. Other texts are in checks/lib/scripts/board_texts.scripts.
use mcs_wiring::{WiringFault, board_of, board_text, wiring_text};
use std::alloc::Global;
use std::process::Abort;
use std::test::Fail;

/// A board text and the refusal number expected for it.
type RefusalRow = (&'static str, u8);

fn is_refused(alloc: Global, text: &str, number: u8) -> bool {
    match board_of(alloc, text) {
        Ok(_) => false,
        Err(fault) => fault.number() == number,
    }
}

/// Board texts that are rejected. Each has a byte other than printable ASCII, or does not end with
/// LF.
const REJECTED_TEXTS: [RefusalRow; 7] = [
    ("\u{0}", 20),
    ("\"\u{e9}\" = 1", 21),
    ("[[rom", 20),
    ("rom = ", 20),
    ("[keys.more]", 21),
    ("[[rom]]", 22),
    ("lamp = \"rom0.0\"", 23),
];

#[test]
fn texts_outside_scripts_are_rejected(rt: HostRuntime) {
    for (text, number) in REJECTED_TEXTS {
        assert!(rt; is_refused(rt.alloc(), text, number), "at {text}");
    }
}

/// Checks that `board_text` returns the text `written_text` for the board that `text` describes.
fn expect_board_text(
    rt: &impl Abort,
    alloc: Global,
    text: &str,
    written_text: &str,
) -> Result<(), Fail> {
    let board = board_of(alloc, text)?;
    let found = board_text(alloc, &board)?;
    assert_eq!(rt; found.as_str(), written_text);
    Ok(())
}

/// Different texts for the same board, which has one ROM. Some have CR at line ends, and some do
/// not end with LF.
const EQUIVALENT_TEXTS: &[&str] = &[
    "rom = [{ chip = 10, port = \"1i0i\" }]",
    "rom = [ # one\n  { port = '1i0i', chip = 0x0A },\n]",
    "[[\"rom\"]]\r\n\"chip\" = +1_0\r\nport = \"\\u0031i0i\"\r\n",
    "ram = []\nlamp = []\nchain = []\n[[rom]]\nport = \"1i0i\"\nchip = 10",
];

/// Checks that `board_text` returns the same text for all texts that describe the same board.
#[test]
fn equivalent_texts_are_written_alike(rt: HostRuntime) -> Result<(), Fail> {
    for text in EQUIVALENT_TEXTS {
        let written_text = "[[rom]]\nchip = 10\nport = \"1i0i\"\n";
        expect_board_text(&rt, rt.alloc(), text, written_text)?;
    }
    Ok(())
}

/// Board texts, and the answer to `wiring` expected for each text.
const REPORTS: &[(&str, &str)] = &[
    ("[[rom]]\nchip = 0\nport = \"0000\"\n", "wiring valid\n"),
    ("[[rom]]\nchip = 0\nport = \n[[lamp]]\n", "no 20 line 3\n"),
    (
        "[[ram]]\nbank = 0\nchips = 1\n\"a b\" = 1\n",
        "no 21 line 1 ram 1 key ?\n",
    ),
    (
        "[[rom]]\nchip = 1\nport = \"iiii\"\n[[rom]]\nchip = 1\nport = \"0000\"\n",
        "no 24 line 4 rom 2 key chip\n",
    ),
    (
        "[[rom]]\nchip = 0\nport = \"0000\"\n[[lamp]]\nline = \"rom0.0\"\n[[lamp]]\nline = \"ram0.0.0\"\n",
        "no 25 line 6 lamp 2 key line\n",
    ),
];

#[test]
fn reports_of_board_texts(rt: HostRuntime) -> Result<(), Fail> {
    for (text, report) in REPORTS {
        assert_eq!(rt; wiring_text(rt.alloc(), text)?.as_str(), *report);
    }
    Ok(())
}

#[test]
fn faults_have_their_refusal_numbers(rt: HostRuntime) {
    for (fault, number) in [
        (WiringFault::BadToml, 20),
        (WiringFault::UnknownKey, 21),
        (WiringFault::MissingKey, 22),
        (WiringFault::BadValue, 23),
        (WiringFault::DoubleChip, 24),
        (WiringFault::NoSuchLine, 25),
        (WiringFault::WrongDirection, 26),
        (WiringFault::TooManyParts, 27),
        (WiringFault::NoMemory, 90),
    ] {
        assert_eq!(rt; fault.number(), number);
    }
}

//! Tests of the assembler on texts that no session can pass to it, because they contain bytes other
//! than LF, tab and printable ASCII. The tests check the results and the first errors. All other
//! texts are in checks/lib/scripts/assembler.scripts.
use mcs_asm::{FaultKind, SourceFault, Span, assemble, survey};
use mcs_nibble::Addr;
use std::alloc::Global;
use std::test::Fail;

/// A source text and its expected results: the (address, byte) pairs of the image, the address and
/// the size of each line, and the names with their values.
type TextRow = (
    &'static str,
    &'static [(u16, u8)],
    &'static [(u16, u16)],
    &'static [(&'static str, u16)],
);

/// A source text, and the line number and the kind of its first error.
type FaultRow = (&'static str, usize, SourceFault);

/// Returns true if the pairs of an image are exactly the wanted addresses with the wanted bytes.
fn pairs_match(pairs: &[(Addr, u8)], bytes: &[(u16, u8)]) -> bool {
    for (pair, wanted) in pairs.iter().zip(bytes.iter()) {
        if pair.0.get() != wanted.0 || pair.1 != wanted.1 {
            return false;
        }
    }
    pairs.len() == bytes.len()
}

fn assembles_to(alloc: Global, text: &str, bytes: &[(u16, u8)]) -> bool {
    match assemble(alloc, text) {
        Ok(image) => pairs_match(image.pairs(), bytes),
        Err(_) => false,
    }
}

fn is_refused(alloc: Global, text: &str, line: usize, fault: SourceFault) -> bool {
    match assemble(alloc, text) {
        Ok(_) => false,
        Err(found) => found.line == line && found.kind == FaultKind::Refused(fault),
    }
}

fn spans_match(spans: &[Span], wanted: &[(u16, u16)]) -> bool {
    for (span, (at, size)) in spans.iter().zip(wanted.iter()) {
        if span.at != *at || span.size != *size {
            return false;
        }
    }
    spans.len() == wanted.len()
}

fn names_match(names: &[(&[u8], u16)], wanted: &[(&str, u16)]) -> bool {
    for ((name, value), (text, n)) in names.iter().zip(wanted.iter()) {
        if *name != text.as_bytes() || *value != *n {
            return false;
        }
    }
    names.len() == wanted.len()
}

/// Source texts that assemble. They have a non-ASCII character in a comment and do not end with LF.
const ACCEPTED_TEXTS: [TextRow; 2] = [
    // This text has CR at line ends, a label, a definition `NAME = n`, and lower-case mnemonics and
    // registers.
    (
        "k = 0x10\r\n x : fim p7 , k ; comment \u{e4}\r\n\tisz r15,x",
        &[(0, 0x2E), (1, 0x10), (2, 0x7F), (3, 0)],
        &[(0, 0), (0, 2), (2, 2)],
        &[("k", 16), ("x", 0)],
    ),
    // This text has CR at line ends, and lines without a statement.
    (
        "\r\n\t \n;only \u{e4}\r\n a:\r\nLDM 00015\r",
        &[(0, 0xDF)],
        &[(0, 0), (0, 0), (0, 0), (0, 0), (0, 1)],
        &[("a", 0)],
    ),
];

#[test]
fn non_ascii_comments_and_cr_are_accepted(rt: HostRuntime) -> Result<(), Fail> {
    for (text, bytes, spans, names) in ACCEPTED_TEXTS {
        assert!(rt; assembles_to(rt.alloc(), text, bytes), "at {text}");
        match survey(rt.alloc(), text) {
            Ok(survey) => {
                assert!(rt; spans_match(survey.spans(), spans), "at {text}");
                assert!(rt; names_match(survey.names(), names), "at {text}");
            }
            Err(_) => assert!(rt; false, "at {text}"),
        }
    }
    Ok(())
}

/// Source texts that do not assemble, and their first errors. Each text has, outside a comment, a non-ASCII character
/// or a CR that does not end a line.
const FIRST_FAULTS: [FaultRow; 4] = [
    ("NOP \u{e4}\n", 1, SourceFault::BadStatement),
    ("\u{e4}:", 1, SourceFault::BadStatement),
    ("nop\rnop", 1, SourceFault::BadStatement),
    ("LDM 1\r\r", 1, SourceFault::BadStatement),
];

#[test]
fn texts_with_misplaced_bytes_are_rejected(rt: HostRuntime) {
    for (text, line, fault) in FIRST_FAULTS {
        assert!(rt; is_refused(rt.alloc(), text, line, fault), "at {text}");
        let is_refused_by_survey = match survey(rt.alloc(), text) {
            Ok(_) => false,
            Err(found) => found.line == line && found.kind == FaultKind::Refused(fault),
        };
        assert!(rt; is_refused_by_survey, "at {text}");
    }
}

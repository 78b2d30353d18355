//! Tests of the disassembler for cases that no command reaches: source texts, the text of words
//! that are not in a ROM, and a listing of zero lines. All other listings are in
//! checks/lib/scripts/listings.scripts.
use mcs_dis::{line_of, listing, source};
use mcs_nibble::Addr;
use std::alloc::Global;
use std::process::Abort;
use std::test::Fail;

/// An address, the one or two words at that address, and the text expected for these words.
type TextRow<'a> = (u16, u8, Option<u8>, &'a str);

/// The words of all instructions, each instruction once, in the order of the opcode table.
const INSTRUCTION_WORDS: [u8; 50] = [
    0x00, 0x14, 0x10, 0x22, 0x20, 0x21, 0x3E, 0x37, 0x41, 0x23, 0x5F, 0xED, 0x65, 0x7F, 0x0A, 0x80,
    0x9A, 0xA9, 0xBB, 0xCC, 0xDF, 0xE0, 0xE1, 0xE2, 0xE4, 0xE5, 0xE6, 0xE7, 0xE8, 0xE9, 0xEA, 0xEB,
    0xEC, 0xED, 0xEE, 0xEF, 0xF0, 0xF1, 0xF2, 0xF3, 0xF4, 0xF5, 0xF6, 0xF7, 0xF8, 0xF9, 0xFA, 0xFB,
    0xFC, 0xFD,
];

/// The source text expected for `INSTRUCTION_WORDS` at address 0.
const SOURCE_TEXT: &str =
    "ORG 0x000\nNOP\nJCN 4, 0x010\nFIM P1, 0x20\nSRC P0\nFIN P7\nJIN P3\nJUN 0x123\nJMS 0xFED\nINC R5\nISZ R15, 0x00A\nADD R0\nSUB R10\nLD R9\nXCH R11\nBBL 12\nLDM 15\nWRM\nWMP\nWRR\nWR0\nWR1\nWR2\nWR3\nSBM\nRDM\nRDR\nADM\nRD0\nRD1\nRD2\nRD3\nCLB\nCLC\nIAC\nCMC\nCMA\nRAL\nRAR\nTCC\nDAC\nTCS\nSTC\nDAA\nKBP\nDCL\n";

/// ROM bytes: the first byte of a JUN at address 0, then an instruction and two data bytes at
/// 0x100.
const JUMP_AND_DATA: [(usize, u8); 4] = [(0, 0x41), (0x100, 0xD5), (0x101, 1), (0x102, 0xFF)];

/// ROM bytes: WRM, then a two-word instruction across a page boundary, and the first word of another two-word
/// instruction at the last address.
const JUMP_ACROSS_PAGES: [(usize, u8); 4] = [
    (0xFE, 0xE0),
    (0xFF, 0x14),
    (0x100, 0x10),
    (0xFFF, 0x7F),
];

/// Returns the bytes of a ROM that has the given bytes, and 0 at all other addresses.
fn rom_with(rt: &impl Abort, bytes: &[(usize, u8)]) -> [u8; 4096] {
    let mut rom = [0; 4096];
    for (at, byte) in bytes {
        assert!(rt; *at < 4096);
        rom[*at] = *byte;
    }
    rom
}

fn address(at: u16) -> Addr {
    Addr::of(at).unwrap_or(Addr::ZERO)
}

/// Checks that the listing of `line_count` lines of a ROM, from the address `from`, is the given text.
fn expect_listing(
    rt: &impl Abort,
    alloc: Global,
    rom: &[u8; 4096],
    (from, line_count): (u16, usize),
    wanted: &str,
) -> Result<(), Fail> {
    let found = listing(alloc, rom, address(from), line_count)?;
    assert_eq!(rt; found.as_str(), wanted);
    Ok(())
}

/// Checks that the source of a range of a ROM is the given text.
fn expect_source(
    rt: &impl Abort,
    alloc: Global,
    rom: &[u8; 4096],
    (from, to): (u16, u16),
    wanted: &str,
) -> Result<(), Fail> {
    let from = address(from);
    assert!(rt; from.get() < to && to <= 4096);
    let found = source(alloc, rom, from, to)?;
    assert_eq!(rt; found.as_str(), wanted);
    Ok(())
}

/// Checks that the words at an address have the text that the row expects.
fn expect_line(rt: &impl Abort, alloc: Global, row: TextRow<'_>) -> Result<(), Fail> {
    let (at, first, second, text) = row;
    let line = line_of(alloc, address(at), first, second)?;
    assert_eq!(rt; line.as_str(), text);
    Ok(())
}

/// Words at various addresses, and their expected texts.
const INSTRUCTIONS: [TextRow<'static>; 10] = [
    (0x0FE, 0x14, Some(0x10), "JCN 4, 0x110"),
    (0x0FD, 0x14, Some(0x10), "JCN 4, 0x010"),
    (0, 0x22, Some(0x20), "FIM P1, 0x20"),
    (0x002, 0x75, Some(0x10), "ISZ R5, 0x010"),
    (0, 0x21, None, "SRC P0"),
    (0, 0xC5, Some(0), "BBL 5"),
    (0, 0xE0, None, "WRM"),
    (0, 0xE3, Some(0), "DB 0xE3"),
    (0xFFF, 0x41, None, "DB 0x41"),
    (0xFFE, 0x1A, Some(0xBC), "JCN 10, 0x0BC"),
];

#[test]
fn instructions_have_their_texts(rt: HostRuntime) -> Result<(), Fail> {
    for row in INSTRUCTIONS {
        expect_line(&rt, rt.alloc(), row)?;
    }
    Ok(())
}

#[test]
fn rom_range_has_a_source(rt: HostRuntime) -> Result<(), Fail> {
    let rom = rom_with(&rt, &JUMP_AND_DATA);
    let alloc = rt.alloc();
    let text = "ORG 0x100\nLDM 5\nDB 0x01\nDB 0xFF\n";
    expect_source(&rt, alloc, &rom, (0x100, 0x103), text)?;
    expect_source(&rt, alloc, &rom, (0, 1), "ORG 0x000\nDB 0x41\n")
}

#[test]
fn each_instruction_has_its_text(rt: HostRuntime) -> Result<(), Fail> {
    let mut rom = [0u8; 4096];
    for (to, from) in rom.iter_mut().zip(INSTRUCTION_WORDS.iter()) {
        *to = *from;
    }
    expect_source(&rt, rt.alloc(), &rom, (0, 50), SOURCE_TEXT)
}

#[test]
fn source_ends_with_its_range(rt: HostRuntime) -> Result<(), Fail> {
    let rom = rom_with(&rt, &JUMP_ACROSS_PAGES);
    let alloc = rt.alloc();
    expect_listing(&rt, alloc, &rom, (0xFE, 0), "")?;
    let text = "ORG 0x0FE\nWRM\nDB 0x14\n";
    expect_source(&rt, alloc, &rom, (0xFE, 0x100), text)
}

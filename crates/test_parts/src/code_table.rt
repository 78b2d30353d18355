//! Tests of the opcode table: the opcodes that the manual's table omits, and the number of words of
//! an opcode. The expected values were listed manually.
use crate::checks::expect_equal;
use mcs_code::{Op, Words, cycles, decode, encode, word_count, words};
use mcs_nibble::{Nibble, PairNo};

#[test]
fn eighteen_opcodes_are_undefined(rt: HostRuntime) {
    for code in 0..=255u8 {
        let is_defined = !matches!(code, 0x01..=0x0F | 0xE3 | 0xFE | 0xFF);
        assert_eq!(rt; decode(code, 0).is_some(), is_defined, "at {code}");
    }
    let undefined_count = (0..=255u8)
        .filter(|code| decode(*code, 0).is_none())
        .count();
    expect_equal(&rt, undefined_count, 18);
}

#[test]
fn word_counts_of_opcodes(rt: HostRuntime) {
    for (code, count) in [
        (0x1F, 2),
        (0x20, 2),
        (0x21, 1),
        (0x30, 1),
        (0x40, 2),
        (0x50, 2),
        (0x7F, 2),
        (0xFE, 1),
    ] {
        assert_eq!(rt; words(code), count, "at {code}");
    }
    expect_equal(&rt, cycles(Op::Fin(PairNo::ZERO)), 2);
    expect_equal(&rt, word_count(Op::Fin(PairNo::ZERO)), 1);
    expect_equal(
        &rt,
        encode(Op::Jcn(Nibble::ONE, 0x10)),
        Words {
            first: 0x11,
            second: Some(0x10),
        },
    );
}

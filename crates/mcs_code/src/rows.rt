//! The list of the 45 instructions, and the macros that expand the rows of this list in the functions of this crate.

/// Passes `$head` and the rows of the opcode table to the macro `$with`.
///
/// A row contains, in this order: patterns for the upper and the lower nibble of its opcodes, the instruction, and
/// the kind of its operands. The number of words and the number of instruction cycles follow. The last two entries
/// are the group in which the assembler looks up the name, and the instruction's name as text. If a row has several
/// opcodes, the pattern for the lower nibble begins with the lowest of these nibbles.
#[macro_export]
macro_rules! instructions {
    ($with:ident! $head:tt) => {
        $with! {
            $head
            (0x0, 0x0), Nop none 1 1 group2 "NOP";
            (0x1, 0x0..=0xF), Jcn nibble_byte 2 2 group1 "JCN";
            (0x2, 0x0 | 0x2 | 0x4 | 0x6 | 0x8 | 0xA | 0xC | 0xE), Fim pair_byte 2 2 group1 "FIM";
            (0x2, 0x1 | 0x3 | 0x5 | 0x7 | 0x9 | 0xB | 0xD | 0xF), Src pair 1 1 group1 "SRC";
            (0x3, 0x0 | 0x2 | 0x4 | 0x6 | 0x8 | 0xA | 0xC | 0xE), Fin pair 1 2 group1 "FIN";
            (0x3, 0x1 | 0x3 | 0x5 | 0x7 | 0x9 | 0xB | 0xD | 0xF), Jin pair 1 1 group1 "JIN";
            (0x4, 0x0..=0xF), Jun nibble_byte 2 2 group1 "JUN";
            (0x5, 0x0..=0xF), Jms nibble_byte 2 2 group1 "JMS";
            (0x6, 0x0..=0xF), Inc register 1 1 group2 "INC";
            (0x7, 0x0..=0xF), Isz register_byte 2 2 group2 "ISZ";
            (0x8, 0x0..=0xF), Add register 1 1 group2 "ADD";
            (0x9, 0x0..=0xF), Sub register 1 1 group2 "SUB";
            (0xA, 0x0..=0xF), Ld register 1 1 group2 "LD";
            (0xB, 0x0..=0xF), Xch register 1 1 group2 "XCH";
            (0xC, 0x0..=0xF), Bbl nibble 1 1 group2 "BBL";
            (0xD, 0x0..=0xF), Ldm nibble 1 1 group2 "LDM";
            (0xE, 0x0), Wrm none 1 1 group3 "WRM";
            (0xE, 0x1), Wmp none 1 1 group3 "WMP";
            (0xE, 0x2), Wrr none 1 1 group3 "WRR";
            (0xE, 0x4), Wr0 none 1 1 group3 "WR0";
            (0xE, 0x5), Wr1 none 1 1 group3 "WR1";
            (0xE, 0x6), Wr2 none 1 1 group3 "WR2";
            (0xE, 0x7), Wr3 none 1 1 group3 "WR3";
            (0xE, 0x8), Sbm none 1 1 group4 "SBM";
            (0xE, 0x9), Rdm none 1 1 group4 "RDM";
            (0xE, 0xA), Rdr none 1 1 group4 "RDR";
            (0xE, 0xB), Adm none 1 1 group4 "ADM";
            (0xE, 0xC), Rd0 none 1 1 group4 "RD0";
            (0xE, 0xD), Rd1 none 1 1 group4 "RD1";
            (0xE, 0xE), Rd2 none 1 1 group4 "RD2";
            (0xE, 0xF), Rd3 none 1 1 group4 "RD3";
            (0xF, 0x0), Clb none 1 1 group5 "CLB";
            (0xF, 0x1), Clc none 1 1 group5 "CLC";
            (0xF, 0x2), Iac none 1 1 group5 "IAC";
            (0xF, 0x3), Cmc none 1 1 group5 "CMC";
            (0xF, 0x4), Cma none 1 1 group5 "CMA";
            (0xF, 0x5), Ral none 1 1 group5 "RAL";
            (0xF, 0x6), Rar none 1 1 group5 "RAR";
            (0xF, 0x7), Tcc none 1 1 group6 "TCC";
            (0xF, 0x8), Dac none 1 1 group6 "DAC";
            (0xF, 0x9), Tcs none 1 1 group6 "TCS";
            (0xF, 0xA), Stc none 1 1 group6 "STC";
            (0xF, 0xB), Daa none 1 1 group6 "DAA";
            (0xF, 0xC), Kbp none 1 1 group6 "KBP";
            (0xF, 0xD), Dcl none 1 1 group6 "DCL";
        }
    };
}

/// Expands to a pattern that matches the instruction of a row and binds its operands to `$a` and `$b`. The caller
/// must have `Op` in scope.
#[macro_export]
macro_rules! operand_pattern {
    ($a:ident $b:ident $name:ident none) => {
        Op::$name
    };
    ($a:ident $b:ident $name:ident nibble) => {
        Op::$name($a)
    };
    ($a:ident $b:ident $name:ident pair) => {
        Op::$name($a)
    };
    ($a:ident $b:ident $name:ident register) => {
        Op::$name($a)
    };
    ($a:ident $b:ident $name:ident $two:ident) => {
        Op::$name($a, $b)
    };
}

/// Expands to the instruction of a row, with the operands from the words `$first` and `$second`.
macro_rules! build_op {
    ($first:ident $second:ident $name:ident none) => {
        Op::$name
    };
    ($first:ident $second:ident $name:ident nibble) => {
        Op::$name(Nibble::low_of($first))
    };
    ($first:ident $second:ident $name:ident nibble_byte) => {
        Op::$name(Nibble::low_of($first), $second)
    };
    ($first:ident $second:ident $name:ident pair) => {
        Op::$name(PairNo::from_opcode($first))
    };
    ($first:ident $second:ident $name:ident pair_byte) => {
        Op::$name(PairNo::from_opcode($first), $second)
    };
    ($first:ident $second:ident $name:ident register) => {
        Op::$name(RegNo::from_opcode($first))
    };
    ($first:ident $second:ident $name:ident register_byte) => {
        Op::$name(RegNo::from_opcode($first), $second)
    };
}

/// Expands to the words that encode the instruction of a row with the operands `$a` and `$b`. `$upper` and `$lower`
/// are the nibbles of the row's lowest opcode.
macro_rules! encode_op {
    ($a:ident $b:ident $upper:literal $lower:literal none) => {
        Words { first: $upper * 16 + $lower, second: None }
    };
    ($a:ident $b:ident $upper:literal $lower:literal pair) => {
        Words { first: $upper * 16 + $lower + $a.get() * 2, second: None }
    };
    ($a:ident $b:ident $upper:literal $lower:literal pair_byte) => {
        Words { first: $upper * 16 + $lower + $a.get() * 2, second: Some($b) }
    };
    ($a:ident $b:ident $upper:literal $lower:literal nibble) => {
        Words { first: $upper * 16 + $lower + $a.get(), second: None }
    };
    ($a:ident $b:ident $upper:literal $lower:literal register) => {
        Words { first: $upper * 16 + $lower + $a.get(), second: None }
    };
    ($a:ident $b:ident $upper:literal $lower:literal $two:ident) => {
        Words { first: $upper * 16 + $lower + $a.get(), second: Some($b) }
    };
}

/// Expands to a match that decodes an instruction from its two words. The value is `None` if the first word is in no
/// row.
macro_rules! decode_rows {
    (($first:ident, $second:ident) $($codes:pat, $name:ident $kind:ident $words:literal $cycles:literal $group:ident $text:literal;)*) => {
        match ($first / 16, $first % 16) {
            $($codes => Some(build_op!($first $second $name $kind)),)*
            _ => None,
        }
    };
}

/// Expands to a match that encodes an instruction as words.
macro_rules! encode_rows {
    (($op:ident) $(($upper:literal, $lower:literal $($more:tt)*), $name:ident $kind:ident $words:literal $cycles:literal $group:ident $text:literal;)*) => {
        match $op {
            $(operand_pattern!(a b $name $kind) => encode_op!(a b $upper $lower $kind),)*
        }
    };
}

/// Expands to a match that gives the number of words for an opcode, or 1 if the opcode is in no row.
macro_rules! words_rows {
    (($code:ident) $($codes:pat, $name:ident $kind:ident $words:literal $cycles:literal $group:ident $text:literal;)*) => {
        match ($code / 16, $code % 16) {
            $($codes => $words,)*
            _ => 1,
        }
    };
}

/// Expands to a match that gives the number of words of an instruction.
macro_rules! word_count_rows {
    (($op:ident) $($codes:pat, $name:ident $kind:ident $words:literal $cycles:literal $group:ident $text:literal;)*) => {
        match $op {
            $(operand_pattern!(_a _b $name $kind) => $words,)*
        }
    };
}

/// Expands to a match that gives the number of instruction cycles of an instruction.
macro_rules! cycles_rows {
    (($op:ident) $($codes:pat, $name:ident $kind:ident $words:literal $cycles:literal $group:ident $text:literal;)*) => {
        match $op {
            $(operand_pattern!(_a _b $name $kind) => $cycles,)*
        }
    };
}

pub(crate) use build_op;
pub(crate) use cycles_rows;
pub(crate) use decode_rows;
pub(crate) use encode_op;
pub(crate) use encode_rows;
pub(crate) use word_count_rows;
pub(crate) use words_rows;

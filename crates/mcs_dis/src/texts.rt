//! Writes the text of an instruction, and the columns before it in a listing.
ghost use Rattle.std.specs.Prelude.{◌≡◌, ◌++◌, ◌/◌, ◌%◌, codes, string_bytes, OnOk};
ghost use Rattle.std.specs.Fmt.{decimal};
ghost use Rattle.mcs_source.specs.InstructionNames.{name};
ghost use Rattle.mcs_source.specs.Assembly.{reachable_page};
ghost use Rattle.mcs_source.specs.Text.{address, operands, instruction_text, piece_text, address_digits, word_columns, columns};
ghost use Rattle.mcs_source.specs.SourceText.{origin_text};
ghost use Rattle.mcs_model.specs.QueryText.{two_hex_digits};
ghost use Rattle.mcs_model.specs.TextLines.{as_line};

use mcs_code::{Op, instructions, operand_pattern};
use mcs_nibble::{Addr, Nibble};
use std::alloc::AllocError;

/// Expands to a match expression that returns the mnemonic of an instruction, with an arm for each row of the opcode
/// table.
macro_rules! name_rows {
    (($op:ident) $($codes:pat, $name:ident $kind:ident $words:literal $cycles:literal $group:ident $text:literal;)*) => {
        match *$op {
            $(operand_pattern!(_a _b $name $kind) => $text,)*
        }
    };
}

/// Returns the mnemonic of an instruction.
fn name(op: &Op) -> &'static str
    ensures { result.now ≡ name op.now }
{
    instructions!(name_rows!(op))
}

/// Appends the text `prefix`, then a number in decimal.
fn push_number(out: &mut String, prefix: &str, n: u8) -> Result<(), AllocError>
    ensures { OnOk result (string_bytes out.new
        ≡ string_bytes out.old ++ (prefix.now ++ decimal n)) }
{
    write!(out, "{prefix}{n}")
}

/// Appends the text `prefix`, then an address as `0xHHH`. `word` is the low byte of the address.
#[tactic(auto, using(std::proofs::lemmas::Fmt::hex_one_digit, std::proofs::lemmas::Fmt::hex_byte))]
fn push_address(out: &mut String, prefix: &str, page: Nibble, word: u8) -> Result<(), AllocError>
    ensures { OnOk result (string_bytes out.new
        ≡ string_bytes out.old ++ (prefix.now ++ address page word)) }
{
    let page = page.get();
    write!(out, "{prefix}0x{page:X}{word:02X}")
}

/// Appends a register pair and a byte as operands, for example ` P3, 0x2A`.
#[tactic(auto, using(std::proofs::lemmas::Fmt::hex_byte))]
fn push_pair_and_byte(out: &mut String, pair: u8, byte: u8) -> Result<(), AllocError>
    ensures { OnOk result (string_bytes out.new
        ≡ string_bytes out.old ++ (codes " P" ++ (decimal pair ++ (codes ", 0x" ++ two_hex_digits byte)))) }
{
    write!(out, " P{pair}, 0x{byte:02X}")
}

/// Appends the text `prefix`, a number, and the target address of a JCN or ISZ at address `at`. `word` is the low byte
/// of the target.
fn push_number_and_target(
    out: &mut String,
    prefix: &str,
    n: u8,
    at: Addr,
    word: u8,
) -> Result<(), AllocError>
    ensures { OnOk result (string_bytes out.new ≡ string_bytes out.old
        ++ (prefix.now ++ (decimal n ++ (codes ", " ++ address (reachable_page at) word)))) }
{
    push_number(out, prefix, n)?;
    push_address(out, ", ", at.plus(2).page(), word)
}

/// Expands to code that appends the operands `$a` and `$b` of an instruction. The kind of the operands determines
/// their format. JUN, JMS and JCN have the kind `nibble_byte`: the nibble is a page for JUN and JMS, and a condition
/// for JCN.
macro_rules! push_by_kind {
    (($out:ident $at:ident) $a:ident $b:ident $name:ident none) => {
        Ok(())
    };
    (($out:ident $at:ident) $a:ident $b:ident $name:ident nibble) => {
        push_number($out, " ", $a.get())
    };
    (($out:ident $at:ident) $a:ident $b:ident $name:ident pair) => {
        push_number($out, " P", $a.get())
    };
    (($out:ident $at:ident) $a:ident $b:ident $name:ident pair_byte) => {
        push_pair_and_byte($out, $a.get(), $b)
    };
    (($out:ident $at:ident) $a:ident $b:ident $name:ident register) => {
        push_number($out, " R", $a.get())
    };
    (($out:ident $at:ident) $a:ident $b:ident $name:ident register_byte) => {
        push_number_and_target($out, " R", $a.get(), $at, $b)
    };
    (($out:ident $at:ident) $a:ident $b:ident Jcn nibble_byte) => {
        push_number_and_target($out, " ", $a.get(), $at, $b)
    };
    (($out:ident $at:ident) $a:ident $b:ident $name:ident nibble_byte) => {
        push_address($out, " ", $a, $b)
    };
}

/// Expands to a match expression that appends the operands of an instruction, with an arm for each row of the opcode
/// table.
macro_rules! operand_rows {
    (($out:ident, $at:ident, $op:ident) $($codes:pat, $name:ident $kind:ident $words:literal $cycles:literal $group:ident $text:literal;)*) => {
        match $op {
            $(operand_pattern!(a b $name $kind) => push_by_kind!(($out $at) a b $name $kind),)*
        }
    };
}

/// Appends the operands of the instruction at address `at`.
fn push_operands(out: &mut String, at: Addr, op: Op) -> Result<(), AllocError>
    ensures { OnOk result (string_bytes out.new ≡ string_bytes out.old ++ operands at op) }
{
    instructions!(operand_rows!(out, at, op))
}

/// Appends the text of the instruction at an address: its mnemonic, then its operands.
fn push_op(out: &mut String, at: Addr, op: Op) -> Result<(), AllocError>
    ensures { OnOk result (string_bytes out.new ≡ string_bytes out.old ++ instruction_text at op) }
{
    out.push_str(name(&op))?;
    push_operands(out, at, op)
}

/// Appends the text of the piece at an address: an instruction, or `DB` with the byte `first` if there is no
/// instruction (`None`).
#[tactic(auto, using(std::proofs::lemmas::Fmt::hex_byte))]
pub fn push_piece(
    out: &mut String,
    at: Addr,
    first: u8,
    piece: Option<Op>,
) -> Result<(), AllocError>
    ensures { OnOk result (string_bytes out.new
        ≡ string_bytes out.old ++ piece_text at first piece) }
{
    match piece {
        None => write!(out, "DB 0x{first:02X}"),
        Some(op) => push_op(out, at, op),
    }
}

/// Appends the line `ORG 0xHHH`, which sets the address of the bytes after it.
pub fn push_origin(out: &mut String, at: Addr) -> Result<(), AllocError>
    ensures { OnOk result (string_bytes out.new
        ≡ string_bytes out.old ++ as_line (origin_text at)) }
{
    push_address(out, "ORG ", at.page(), at.low())?;
    out.push('\n')?;
    Ok(())
}

/// Appends an address as three hexadecimal digits.
#[tactic(auto, using(std::proofs::lemmas::Fmt::hex_one_digit, std::proofs::lemmas::Fmt::hex_byte))]
fn push_digits(out: &mut String, at: Addr) -> Result<(), AllocError>
    ensures { OnOk result (string_bytes out.new
        ≡ string_bytes out.old ++ address_digits (at / 256) (at % 256)) }
{
    let page = at.page().get();
    let word = at.low();
    write!(out, "{page:X}{word:02X}")
}

/// Appends the columns of a listing line that show the first and the second word. These columns follow the address
/// column.
#[tactic(auto, using(std::proofs::lemmas::Fmt::hex_byte))]
fn push_words(out: &mut String, first: u8, second: Option<u8>) -> Result<(), AllocError>
    ensures { OnOk result (string_bytes out.new
        ≡ string_bytes out.old ++ word_columns first second) }
{
    match second {
        Some(second) => write!(out, " {first:02X} {second:02X} "),
        None => write!(out, " {first:02X}    "),
    }
}

/// Appends the address column and the word columns of a listing line. These columns precede the text of the piece.
pub fn push_columns(
    out: &mut String,
    at: Addr,
    first: u8,
    second: Option<u8>,
) -> Result<(), AllocError>
    ensures { OnOk result (string_bytes out.new ≡ string_bytes out.old ++ columns at first second) }
{
    push_digits(out, at)?;
    push_words(out, first, second)
}

//! Laws of the disassembler, for every ROM. Each law is the contract of a function with an empty body.
ghost use Rattle.std.specs.Prelude.{◌≡◌, ℕ, ◌<◌, ◌≤◌, List, length};
ghost use Rattle.std.specs.List.{AllByRecursion};
ghost use Rattle.mcs_dis.specs.ParseBack.{AreRangePairs, TextParsesToStatement};
ghost use Rattle.mcs_source.specs.Spelled.{HasOperandsInRange};
ghost use Rattle.mcs_source.specs.SourceText.{SourceAssemblesBack};
ghost use Rattle.mcs_model.specs.declared.op.Op.{Op};

/// Proves that the assembler parses the text of an instruction to the statement for that instruction. The operands of
/// the instruction must be in range.
pub fn text_parses_back()
    ensures { (at : ℕ) (o : Op) → HasOperandsInRange o → TextParsesToStatement at o }
{}

/// Proves that the source of a ROM range assembles without an error to the (address, byte) pairs of the range. These
/// are exactly the addresses of the range, each with its ROM byte.
pub fn source_law()
    ensures spelled { (rom : List ℕ) (from to : ℕ) → length rom ≡ 4096
        → AllByRecursion (λ b. b < 256) rom → from < to → to ≤ 4096 → SourceAssemblesBack rom from to }
    ensures pairs { (rom : List ℕ) (from to : ℕ) → length rom ≡ 4096 → to ≤ 4096
        → AreRangePairs rom from to }
{}

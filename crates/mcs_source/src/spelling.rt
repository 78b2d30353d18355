//! The law that relates the decoding of an instruction to its encoding.
ghost use Rattle.std.specs.Prelude.{◌≡◌, ◌<◌, ℕ, Some};
ghost use Rattle.mcs_model.specs.declared.op.Op.{Op};
ghost use Rattle.mcs_source.specs.Spelled.{IsEncodedBy};
ghost use Rattle.mcs_model.specs.Table.{instruction_of};

/// Proves the law of the opcode table, for every opcode. Suppose that the words `first` and
/// `second` decode to an instruction, and `second` is below 256. The operands of this instruction
/// are then in range. Its encoding is both words, or only `first` if the instruction has one word.
/// The function has an empty body.
pub fn spelling_law()
    ensures { (first second : ℕ) (o : Op) → second < 256
        → instruction_of first second ≡ Some o → IsEncodedBy first second o }
{}

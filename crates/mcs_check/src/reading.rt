//! The input that a machine's next cycle reads.
ghost use Rattle.std.specs.Prelude.{◌≡◌};
ghost use Rattle.mcs_check.specs.Memory.{is_input};
ghost use Rattle.mcs_check.specs.ReadPoints.{OpReads};

use mcs_model::op::Op;

/// The input that an instruction cycle reads.
#[derive(Clone, Copy, Debug, PartialEq, Eq)]
pub enum InputSource {
    /// No input.
    NoInput,
    /// The port of the selected ROM, read by RDR.
    Port,
    /// The TEST pin, read by JCN.
    Test,
}

impl InputSource {
    /// Returns whether an instruction with this source reads an input.
    pub(crate) fn is_input(self) -> bool
        ensures { result ≡ is_input self }
    {
        match self {
            InputSource::NoInput => false,
            InputSource::Port | InputSource::Test => true,
        }
    }
}

/// Returns the input that an instruction reads.
pub(crate) fn input_source_of(op: Op) -> InputSource
    ensures { OpReads op result }
{
    match op {
        Op::Rdr => InputSource::Port,
        Op::Jcn(condition, _) => {
            if condition.get() % 2 == 1 {
                InputSource::Test
            } else {
                InputSource::NoInput
            }
        }
        _ => InputSource::NoInput,
    }
}

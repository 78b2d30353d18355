//! The errors that assembly can report.
ghost use Rattle.std.specs.Prelude.{◌≡◌};
ghost use Rattle.mcs_asm.specs.RefusalNumbers.{assembler_fault_number};

use mcs_model::refusal_numbers;
pub use mcs_source::fault::SourceFault;
use std::alloc::AllocError;
use thiserror::Error;

/// The reason why assembly fails.
#[derive(Clone, Copy, Debug, PartialEq, Eq, Error)]
pub enum FaultKind {
    /// Allocation failed (refusal 90).
    #[error("out of memory")]
    NoMemory,
    /// A line of the source text has this error.
    #[error("{0}")]
    Refused(SourceFault),
}

impl FaultKind {
    /// Returns the refusal number of the error: 30 to 37, or 90 if allocation failed.
    pub fn number(self) -> u8
        ensures { result ≡ assembler_fault_number self }
    {
        match self {
            FaultKind::NoMemory => refusal_numbers::NO_MEMORY,
            FaultKind::Refused(fault) => fault.number(),
        }
    }
}

/// The first error of a text with its line number, or an allocation failure.
#[derive(Clone, Copy, Debug, Error)]
#[error("line {line}: {kind}")]
pub struct AsmFault {
    /// The line number, from 1, or 0 if allocation failed.
    pub line: usize,
    /// The error in that line, or the allocation failure.
    pub kind: FaultKind,
}

impl From<AllocError> for FaultKind {
    ghost use Rattle.mcs_asm.specs.declared.fault.FaultKind.TheVariants.{NoMemory};

    ghost from_gives = { λ _ e. e ≡ NoMemory };

    fn from(_e: AllocError) -> FaultKind {
        FaultKind::NoMemory
    }
}

impl From<SourceFault> for FaultKind {
    ghost use Rattle.mcs_asm.specs.declared.fault.FaultKind.TheVariants.{Refused};

    ghost from_gives = { λ f e. e ≡ Refused f };

    fn from(fault: SourceFault) -> FaultKind {
        FaultKind::Refused(fault)
    }
}

impl From<AllocError> for AsmFault {
    ghost use Rattle.mcs_asm.specs.declared.fault.FaultKind.TheVariants.{NoMemory};

    ghost from_gives = { λ _ e. e ≡ record { line = 0; kind = NoMemory } };

    fn from(_e: AllocError) -> AsmFault {
        AsmFault {
            line: 0,
            kind: FaultKind::NoMemory,
        }
    }
}

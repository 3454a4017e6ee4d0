//! Why a script or a job could not be read.

ghost use Rattle.std.specs.Prelude.{◌≡◌};
ghost use Rattle.script_text.specs.Fault.{number_of, line_of};
ghost use Rattle.script_text.specs.declared.fault.FaultKind.TheVariants.{HostMemory};

use std::alloc::{AllocError, AllocFailed};
use thiserror::Error;

/// What is wrong with a line, or with the host.
#[derive(Clone, Copy, Debug, PartialEq, Eq, Error)]
pub enum FaultKind {
    /// The line's first word is no call, or no word of a job. Outside a grow-zone script `end` is
    /// no call.
    #[error("the first word is not known")]
    UnknownCall,
    /// An argument is missing, is one too many, or is not spelled as its kind asks; the name of a
    /// new grow-zone script is used already, or is `none`; a `grow` has no `end`, or `SetGrowZone`
    /// names a grow-zone script that is not there. In a job, a line that may not stand where it
    /// does has this fault too.
    #[error("an argument is missing or wrong, or the line may not stand here")]
    BadArgument,
    /// The call may not stand in a grow-zone script, or is a `grow` in one.
    #[error("the call may not stand in a grow-zone script")]
    NotAllowed,
    /// The line has more than 65,535 bytes, its end not counted.
    #[error("the line has more than 65,535 bytes")]
    LongLine,
    /// The host is out of memory. This fault says nothing about the text.
    #[error("the host is out of memory")]
    HostMemory,
}

impl FaultKind {
    /// Returns the number by which an error line names the fault: 1 to 5, in the order of the
    /// variants.
    pub fn number(self) -> u8
        ensures { result ≡ number_of self }
    {
        match self {
            FaultKind::UnknownCall => 1,
            FaultKind::BadArgument => 2,
            FaultKind::NotAllowed => 3,
            FaultKind::LongLine => 4,
            FaultKind::HostMemory => 5,
        }
    }
}

impl From<AllocError> for FaultKind {
    ghost from_gives = { λ _ e. e ≡ HostMemory };

    fn from(_e: AllocError) -> FaultKind {
        FaultKind::HostMemory
    }
}

impl<T: Drop> From<AllocFailed<T>> for FaultKind {
    ghost from_gives = { λ _ e. e ≡ HostMemory };

    fn from(_e: AllocFailed<T>) -> FaultKind {
        FaultKind::HostMemory
    }
}

/// Why a script or a job could not be read: its first faulty line, and what is wrong with that
/// line.
#[derive(Clone, Copy, Debug, PartialEq, Eq, Error)]
#[error("line {line}: {kind}")]
pub struct ScriptFault {
    /// The number of the line, from 1 on, skipped lines counted; 0 for `HostMemory`.
    pub line: usize,
    pub kind: FaultKind,
}

impl ScriptFault {
    /// Makes the fault of the line `number`.
    pub(crate) fn at(number: usize, kind: FaultKind) -> ScriptFault
        ensures line { result.line ≡ line_of number kind }
        ensures kind { result.kind ≡ kind }
    {
        let line = match kind {
            FaultKind::HostMemory => 0,
            _ => number,
        };
        ScriptFault { line, kind }
    }
}

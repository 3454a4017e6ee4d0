//! What is wrong with a line.

ghost use Rattle.std.specs.Prelude.{◌≡◌};
ghost use Rattle.lint.specs.Judging.{kind_of};

use crate::form::Form;
use crate::role::Role;
use script_text::FaultKind;

/// What is wrong with a line. The bytes of its words are lent from the text.
#[derive(Clone, Copy, Debug)]
pub enum Wrong<'t> {
    /// The first word is no call.
    UnknownCall {
        word: &'t [u8],
    },
    /// `end` stands where no grow-zone script is begun.
    EndOutside,
    /// The call may not stand in a grow-zone script.
    NotAllowed {
        word: &'t [u8],
    },
    /// The line has more than 65,535 bytes.
    LongLine {
        length: usize,
    },
    /// An argument is missing, or is not written as one that stands for this; what was found may
    /// have no bytes.
    Argument {
        form: Form,
        /// Which argument, from 1 on.
        number: usize,
        role: Role,
        found: &'t [u8],
    },
    /// More follows the last argument.
    Extra {
        form: Form,
        found: &'t [u8],
    },
    /// A grow-zone script of this name stands above.
    TakenName {
        name: &'t [u8],
    },
    /// A grow-zone script is named `none`.
    NamedNone,
    /// A `grow` without `end`.
    NoEnd {
        name: &'t [u8],
    },
    /// The grow-zone script that is set is nowhere in the text.
    NoGrowZone {
        name: &'t [u8],
    },
    /// The first word is no word of a job.
    UnknownWord {
        word: &'t [u8],
    },
    /// The line stands above the line `memory`.
    BeforeMemory {
        word: &'t [u8],
    },
    /// A second line `memory`.
    SecondMemory,
    /// A job can't have a memory of so many bytes.
    MemorySize {
        size: u32,
    },
    /// A second line `system`.
    SecondSystem,
    /// An input stands below an event.
    AfterEvent {
        word: &'t [u8],
    },
    /// An application of this name stands above.
    TakenApplication {
        name: &'t [u8],
    },
    /// A 65th application.
    ManyApplications,
    /// No application of this name stands above.
    NoApplication {
        name: &'t [u8],
    },
    /// The application has a file of this name, or is named so itself.
    TakenFile {
        name: &'t [u8],
    },
    /// A 256th file of an application.
    ManyFiles,
    /// No line of a job states its memory.
    NoMemory,
}

impl<'t> Wrong<'t> {
    /// Returns the kind of the fault, by which the readers of `script_text` name it.
    pub fn kind(&self) -> FaultKind
        ensures { result ≡ kind_of self.now }
    {
        match self {
            Wrong::UnknownCall { .. } | Wrong::EndOutside | Wrong::UnknownWord { .. } => {
                FaultKind::UnknownCall
            }
            Wrong::NotAllowed { .. } => FaultKind::NotAllowed,
            Wrong::LongLine { .. } => FaultKind::LongLine,
            Wrong::Argument { .. }
            | Wrong::Extra { .. }
            | Wrong::TakenName { .. }
            | Wrong::NamedNone
            | Wrong::NoEnd { .. }
            | Wrong::NoGrowZone { .. }
            | Wrong::BeforeMemory { .. }
            | Wrong::SecondMemory
            | Wrong::MemorySize { .. }
            | Wrong::SecondSystem
            | Wrong::AfterEvent { .. }
            | Wrong::TakenApplication { .. }
            | Wrong::ManyApplications
            | Wrong::NoApplication { .. }
            | Wrong::TakenFile { .. }
            | Wrong::ManyFiles
            | Wrong::NoMemory => FaultKind::BadArgument,
        }
    }
}

/// Something that is wrong, and where.
#[derive(Clone, Copy)]
pub(crate) struct Found<'t> {
    /// How many bytes of the line stand from there on.
    pub left: usize,
    pub wrong: Wrong<'t>,
}

/// A faulty line, and what is wrong with it.
#[derive(Clone, Copy, Debug)]
pub struct Fault<'t> {
    /// The number of the line, from 1 on, skipped lines counted.
    pub line: usize,
    /// The number of the byte where the fault stands, from 1 on.
    pub column: usize,
    pub wrong: Wrong<'t>,
}

/// Returns the number of the byte in a line of `length` bytes from which on `left` bytes stand.
pub(crate) fn column(length: usize, left: usize) -> usize {
    length.saturating_sub(left).saturating_add(1)
}

impl<'t> Fault<'t> {
    /// Makes the fault of a line of `length` bytes.
    pub(crate) fn at(line: usize, length: usize, found: Found<'t>) -> Fault<'t>
        ensures line { result.line ≡ line }
        ensures wrong { result.wrong ≡ found.entry.wrong }
    {
        Fault {
            line,
            column: column(length, found.left),
            wrong: found.wrong,
        }
    }
}

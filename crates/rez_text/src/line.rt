//! The lines of a text.

ghost use Rattle.std.specs.Prelude.{◌≡◌, ◌<◌, ◌≤◌, ◌+◌, ◌-◌, ◌^◌};
ghost use Rattle.rez_text.specs.Ascii.{line_of as line_of_byte};
ghost use Rattle.rez_text.specs.Reading.{lines_at, is_whole, fault_line, first_line, fault_at};

use crate::fault::{FaultKind, SourceFault, StepFault, TextFault};
use crate::mode::Mode;

/// Where a reader stands among the lines of a text.
#[derive(Clone, Copy)]
pub(crate) struct Lines {
    /// The number of the line of the byte that was taken last; 1 before the first byte.
    pub line: usize,
    /// The byte that was taken last; 0 before the first byte.
    pub last: u8,
    /// The number of the line on which the token begins within which the reader stands.
    pub begun: usize,
}

/// Returns the number of the line on which a byte stands, from the line of the byte before it.
pub(crate) fn line_of(line: usize, last: u8, byte: u8) -> usize
    requires { line < 2 ^ 64 - 1 }
    ensures line { result ≡ line_of_byte line last byte }
    ensures small { result ≤ line + 1 }
{
    if last == b'\n' || (last == b'\r' && byte != b'\n') {
        line + 1
    } else {
        line
    }
}

impl FaultKind {
    /// Reports whether a string, a comment or a statement as a whole is at fault.
    fn is_whole(self) -> bool
        ensures { result ≡ is_whole self }
    {
        matches!(
            self,
            FaultKind::OpenString
                | FaultKind::OpenComment
                | FaultKind::OpenStatement
                | FaultKind::NotMapAttributes
                | FaultKind::NotHeaderBytes
        )
    }
}

impl Lines {
    /// Returns where a reader stands before the first byte.
    pub fn new() -> Lines
        ensures { result ≡ first_line }
    {
        Lines {
            line: 1,
            last: 0,
            begun: 1,
        }
    }

    /// Returns where a reader stands once it takes a byte, within a token or between tokens.
    pub fn at(self, mode: Mode, byte: u8) -> Lines
        requires { self.line < 2 ^ 64 - 1 }
        ensures lines { result ≡ lines_at mode byte self }
        ensures small { result.line ≤ self.line + 1 }
    {
        let line = line_of(self.line, self.last, byte);
        let begun = match mode {
            Mode::Between => line,
            _ => self.begun,
        };
        Lines {
            line,
            last: byte,
            begun,
        }
    }

    /// Returns the number of the line of a fault.
    fn of_fault(self, kind: FaultKind) -> usize
        ensures { result ≡ fault_line kind self }
    {
        match kind {
            FaultKind::Within { line, .. } => self
                .begun
                .saturating_add(line.saturating_sub(1))
                .min(self.line),
            _ => {
                if kind.is_whole() {
                    self.begun
                } else {
                    self.line
                }
            }
        }
    }
}

impl StepFault {
    /// Returns the fault with the number of its line.
    pub fn at(self, lines: Lines) -> SourceFault
        ensures { result ≡ fault_at lines self }
    {
        match self {
            StepFault::Wrong(kind) => SourceFault::Text(TextFault {
                line: lines.of_fault(kind),
                kind,
            }),
            StepFault::Memory => SourceFault::HostMemory,
        }
    }
}

//! Why a source could not be read.

ghost use Rattle.std.specs.Prelude.{◌≡◌};
ghost use Rattle.rez_text.specs.declared.fault.StepFault.TheVariants.{Memory};
ghost use Rattle.rez_text.specs.State.{within_text};

use rez_statements::{StatementFault, TypesFault};
use std::alloc::{AllocError, AllocFailed};
use std::fmt;
use thiserror::Error;

/// A statement of Rez, or a directive, that is not read. `Display` says so, and what there is in
/// its place.
#[derive(Clone, Copy, Debug, PartialEq, Eq, Error)]
pub enum Unread {
    /// Attributes, the name, the type or the ID of resources of the file are changed.
    Change,
    /// Resources of the file are deleted.
    Delete,
    /// Names of numbers are declared.
    Enum,
    /// Resources of another file are put in.
    Include,
    /// A name is defined.
    Define,
    /// What follows is read where the condition does not hold.
    Else,
    /// A condition ends.
    EndIf,
    /// What follows is read on a condition.
    If,
    /// What follows is read where a name is defined.
    IfDefined,
    /// What follows is read where a name is not defined.
    IfNotDefined,
    /// Source of another file is put in.
    IncludeText,
    /// A name is defined no longer.
    Undefine,
}

impl fmt::Display for Unread {
    fn fmt<W: fmt::Write>(&self, f: &mut fmt::Formatter<W>) -> fmt::Result {
        let words = match self {
            Unread::Change => "'change' is not read",
            Unread::Delete => "'delete' is not read",
            Unread::Enum => "'enum' is not read",
            Unread::Include => "'include' is not read: macmem merge puts two forks into one",
            Unread::Define => "'#define' is not read",
            Unread::Else => "'#else' is not read",
            Unread::EndIf => "'#endif' is not read",
            Unread::If => "'#if' is not read",
            Unread::IfDefined => "'#ifdef' is not read",
            Unread::IfNotDefined => "'#ifndef' is not read",
            Unread::IncludeText => "'#include' is not read: give the file with --types",
            Unread::Undefine => "'#undef' is not read",
        };
        f.write_str(words)
    }
}

/// What is wrong at a place of a source.
#[derive(Clone, Copy, Debug, PartialEq, Eq, Error)]
pub enum FaultKind {
    /// Between statements stands something that begins none.
    NotAStatement,
    /// Between statements stands a statement of Rez, or a directive, that is not read.
    NotRead(Unread),
    /// Among declarations of types stands `data`, `resource` or `read`.
    OnlyDeclarations,
    /// In the text of a statement `type`, or between the braces of a statement `resource`,
    /// something is wrong.
    Within {
        /// The number of the line in that text, from 1 on.
        line: usize,
        /// What is wrong there.
        fault: StatementFault,
    },
    /// A statement `type` has no semicolon, or a statement `resource` no closing brace.
    OpenStatement,
    /// After `data`, `resource` or `read` no type of four characters stands.
    TypeNeeded,
    /// After a type no `(` stands.
    ParenthesisNeeded,
    /// After `(` no number stands.
    IdNeeded,
    /// An ID is below -32,768 or above 32,767.
    IdOutOfRange,
    /// After an ID, a name or an attribute neither `,` nor `)` stands.
    EndOfArgumentsNeeded,
    /// After an ID and a comma neither a name nor an attribute stands.
    NameOrAttributeNeeded,
    /// After another comma no attribute stands.
    AttributeNeeded,
    /// Attributes are above 255.
    AttributesOutOfRange,
    /// A name has more than 255 bytes.
    LongName,
    /// After `)` no `{` stands.
    BraceNeeded,
    /// In a statement `read`, after `)` no string stands.
    FileNeeded,
    /// In the braces stands neither a string nor `}`.
    DataNeeded,
    /// After `}` no `;` stands.
    SemicolonNeeded,
    /// A number is above 2^32 - 1.
    NumberOutOfRange,
    /// After `0x` or `0b` no digit stands.
    DigitNeeded,
    /// After `$` stands neither a hexadecimal digit nor `"`.
    HexadecimalNeeded,
    /// In a hexadecimal string stands something other than a digit or a blank.
    NotADigit,
    /// A hexadecimal string has an odd number of digits.
    OddDigits,
    /// A string, or a type, has no closing quote on its line; a hexadecimal string has none in the
    /// text.
    OpenString,
    /// After a `\` between quotes stands no escape.
    NotAnEscape,
    /// A byte that an escape states by its number is above 255.
    EscapeOutOfRange,
    /// A comment has no `*/`.
    OpenComment,
    /// Between statements stands a comment that begins as the one of the map's attributes, and is
    /// not it.
    NotMapAttributes,
    /// Between statements stands a comment that begins as the one of the bytes after the header,
    /// and is not it.
    NotHeaderBytes,
    /// A text that says that it is in UTF-8 is not.
    NotUtf8,
    /// A text in UTF-8 has a character that no byte of Mac OS Roman stands for.
    NoCharacter(char),
}

impl fmt::Display for FaultKind {
    fn fmt<W: fmt::Write>(&self, f: &mut fmt::Formatter<W>) -> fmt::Result {
        let words = match self {
            FaultKind::NotAStatement => "not a statement",
            FaultKind::NotRead(fault) => return fmt::Display::fmt(fault, f),
            FaultKind::OnlyDeclarations => "only declarations of types may stand here",
            FaultKind::Within { fault, .. } => return fmt::Display::fmt(fault, f),
            FaultKind::OpenStatement => "a statement does not end",
            FaultKind::TypeNeeded => "a type of four characters is needed",
            FaultKind::ParenthesisNeeded => "an opening parenthesis is needed",
            FaultKind::IdNeeded => "an ID is needed",
            FaultKind::IdOutOfRange => "an ID out of range",
            FaultKind::EndOfArgumentsNeeded => "a comma or a closing parenthesis is needed",
            FaultKind::NameOrAttributeNeeded => "a name or an attribute is needed",
            FaultKind::AttributeNeeded => "an attribute is needed",
            FaultKind::AttributesOutOfRange => "attributes out of range",
            FaultKind::LongName => "a name of more than 255 bytes",
            FaultKind::BraceNeeded => "an opening brace is needed",
            FaultKind::FileNeeded => "the name of a file is needed",
            FaultKind::DataNeeded => "a string or a closing brace is needed",
            FaultKind::SemicolonNeeded => "a semicolon is needed",
            FaultKind::NumberOutOfRange => "a number out of range",
            FaultKind::DigitNeeded => "a digit is needed",
            FaultKind::HexadecimalNeeded => "a hexadecimal number or string is needed",
            FaultKind::NotADigit => "not a hexadecimal digit",
            FaultKind::OddDigits => "an odd number of hexadecimal digits",
            FaultKind::OpenString => "a string does not end",
            FaultKind::NotAnEscape => "not an escape",
            FaultKind::EscapeOutOfRange => "an escape out of range",
            FaultKind::OpenComment => "a comment does not end",
            FaultKind::NotMapAttributes => "map attributes must be $ and four hexadecimal digits",
            FaultKind::NotHeaderBytes => "header bytes must be 480 hexadecimal digits",
            FaultKind::NotUtf8 => "not UTF-8",
            FaultKind::NoCharacter(n) => return write!(f, "Mac OS Roman has no character '{n}'"),
        };
        f.write_str(words)
    }
}

/// The first place where a source can't go on.
#[derive(Clone, Copy, Debug, PartialEq, Eq, Error)]
#[error("line {line}: {kind}")]
pub struct TextFault {
    /// The number of the line, from 1 on: the line of the byte at which the text can't go on, or of
    /// its last byte; of a string, a comment or a statement that does not end, and of a comment
    /// that is wrong, the line on which it begins. CR, LF, and CR with LF, each end a line.
    pub line: usize,
    /// What is wrong there.
    pub kind: FaultKind,
}

/// The name of a file, as a statement `read` states it.
#[derive(Drop)]
pub struct FileName {
    /// The name in Mac OS Roman.
    pub bytes: Vec<u8>,
}

/// The reason why a source could not be read.
#[derive(Drop)]
pub enum SourceFault {
    /// The text can't go on at a place.
    Text(TextFault),
    /// Nothing is wrong in the text, but files are not given whose bytes its statements `read`
    /// take: their names, in the order of the statements, each as often as it is named.
    Files(Vec<FileName>),
    /// The host is out of memory. This fault says nothing about the text.
    HostMemory,
}

/// Why a byte could not be taken in.
#[derive(Clone, Copy)]
pub(crate) enum StepFault {
    /// The text can't go on so.
    Wrong(FaultKind),
    /// The host is out of memory.
    Memory,
}

impl StepFault {
    /// Returns the fault of the text of a statement.
    pub fn within(fault: TypesFault) -> StepFault
        ensures { result ≡ within_text fault }
    {
        match fault {
            TypesFault::Wrong(at) => StepFault::Wrong(FaultKind::Within {
                line: at.line,
                fault: at.kind,
            }),
            TypesFault::HostMemory => StepFault::Memory,
        }
    }
}

impl From<AllocError> for StepFault {
    ghost from_gives = { λ _ e. e ≡ Memory };

    fn from(_e: AllocError) -> StepFault {
        StepFault::Memory
    }
}

impl<T: Drop> From<AllocFailed<T>> for StepFault {
    ghost from_gives = { λ _ e. e ≡ Memory };

    fn from(_e: AllocFailed<T>) -> StepFault {
        StepFault::Memory
    }
}

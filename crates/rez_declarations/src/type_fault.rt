//! Why a declaration could not be read.

ghost use Rattle.std.specs.Prelude.{◌≡◌};
ghost use Rattle.rez_declarations.specs.declared.type_fault.ReadFault.TheVariants.{HostMemory};

use crate::unsound::Unsound;
use std::alloc::{AllocError, AllocFailed};
use std::fmt;
use thiserror::Error;

/// What is wrong at a place of a declaration.
#[derive(Clone, Copy, Debug, PartialEq, Eq, Error)]
pub enum FaultKind {
    /// Between declarations stands something other than `type`.
    DeclarationNeeded,
    /// After `type` or `as` no type of four characters stands.
    TypeNeeded,
    /// After `as` stands a type that is not declared.
    DeclaredTypeNeeded,
    /// No `{` stands where fields begin.
    BraceNeeded,
    /// In braces no field stands, and no `}`.
    FieldNeeded,
    /// After a field or a declaration no `;` stands.
    SemicolonNeeded,
    /// No `[` or `]` stands around a length.
    BracketNeeded,
    /// No number stands where one is needed.
    NumberNeeded,
    /// A length is 0, or above 65,535.
    LengthOutOfRange,
    /// A bit string has no bits, or more than 32.
    BitsOutOfRange,
    /// No name stands where one is needed.
    NameNeeded,
    /// A name has more than 63 letters.
    LongName,
    /// A field has more than 256 named constants.
    ManyConstants,
    /// After `=` neither a number nor up to four characters stand.
    ConstantNeeded,
    /// A constant has more bits than its field.
    ConstantOutOfRange,
    /// After `=` no string stands.
    StringNeeded,
    /// After `key` an integer has no constant.
    KeyNeeded,
    /// A function other than `$$CountOf` stands after `=`.
    CountOfNeeded,
    /// No parenthesis stands around the name of an array.
    ParenthesisNeeded,
    /// After `$$CountOf(..) -` stands something other than 1.
    OneNeeded,
    /// After `fill` no unit stands.
    UnitNeeded,
    /// After `align` no boundary stands.
    BoundaryNeeded,
    /// In the braces of a switch stands neither `case` nor `}`.
    CaseNeeded,
    /// After the name of a case no `:` stands.
    ColonNeeded,
    /// The declaration does not say where each value begins and ends.
    Unsound(Unsound),
}

impl fmt::Display for FaultKind {
    fn fmt<W: fmt::Write>(&self, f: &mut fmt::Formatter<W>) -> fmt::Result {
        let words = match self {
            FaultKind::DeclarationNeeded => "a declaration is needed",
            FaultKind::TypeNeeded => "a type of four characters is needed",
            FaultKind::DeclaredTypeNeeded => "a type that is declared is needed",
            FaultKind::BraceNeeded => "an opening brace is needed",
            FaultKind::FieldNeeded => "a field or a closing brace is needed",
            FaultKind::SemicolonNeeded => "a semicolon is needed",
            FaultKind::BracketNeeded => "a bracket is needed",
            FaultKind::NumberNeeded => "a number is needed",
            FaultKind::LengthOutOfRange => "a length from 1 to 65535 is needed",
            FaultKind::BitsOutOfRange => "a bit string of 1 to 32 bits is needed",
            FaultKind::NameNeeded => "a name is needed",
            FaultKind::LongName => "a name of more than 63 letters",
            FaultKind::ManyConstants => "more than 256 constants",
            FaultKind::ConstantNeeded => "a number or up to four characters are needed",
            FaultKind::ConstantOutOfRange => "a constant out of range",
            FaultKind::StringNeeded => "a string is needed",
            FaultKind::KeyNeeded => "the constant of a key is needed",
            FaultKind::CountOfNeeded => "$$CountOf is needed",
            FaultKind::ParenthesisNeeded => "a parenthesis is needed",
            FaultKind::OneNeeded => "1 is needed",
            FaultKind::UnitNeeded => "bit, nibble, byte, word or long is needed",
            FaultKind::BoundaryNeeded => "word or long is needed",
            FaultKind::CaseNeeded => "a case or a closing brace is needed",
            FaultKind::ColonNeeded => "a colon is needed",
            FaultKind::Unsound(fault) => return fmt::Display::fmt(fault, f),
        };
        f.write_str(words)
    }
}

/// The first place where a declaration can't go on.
#[derive(Clone, Copy, Debug, PartialEq, Eq, Error)]
#[error("line {line}: {kind}")]
pub struct TypeFault {
    /// The number of the line, from 1 on: that of the token that can't stand there, or of the last
    /// token. Of a declaration that is not sound, it is the line of the token after what is wrong,
    /// or, where that is found once all is read, the line on which the statement begins.
    pub line: usize,
    /// What is wrong there.
    pub kind: FaultKind,
}

/// The reason why declarations could not be read.
#[derive(Clone, Copy, Debug, PartialEq, Eq, Error)]
pub enum ReadFault {
    /// The text can't go on at a place.
    #[error("{0}")]
    Text(TypeFault),
    /// The host is out of memory. This fault says nothing about the text.
    #[error("the host is out of memory")]
    HostMemory,
}

impl From<AllocError> for ReadFault {
    ghost from_gives = { λ _ e. e ≡ HostMemory };

    fn from(_e: AllocError) -> ReadFault {
        ReadFault::HostMemory
    }
}

impl<T: Drop> From<AllocFailed<T>> for ReadFault {
    ghost from_gives = { λ _ e. e ≡ HostMemory };

    fn from(_e: AllocFailed<T>) -> ReadFault {
        ReadFault::HostMemory
    }
}

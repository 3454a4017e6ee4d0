//! Why the tokens of a statement are no values of its type.

ghost use Rattle.std.specs.Prelude.{◌≡◌};
ghost use Rattle.rez_values.specs.declared.fault.TakeFault.TheVariants.{HostMemory};

use std::alloc::{AllocError, AllocFailed};
use std::fmt;
use thiserror::Error;

/// What is wrong at a place of a statement.
#[derive(Clone, Copy, Debug, PartialEq, Eq, Error)]
pub enum ValueFault {
    /// Between two values neither `,` nor `;` stands.
    SeparatorNeeded,
    /// No number stands where an integer without constants is stated.
    NumberNeeded,
    /// Neither a number nor the name of a constant stands where an integer with constants is
    /// stated.
    NumberOrNameNeeded,
    /// A number has more bits than its field, which has so many.
    NumberOutOfRange(u8),
    /// More than four characters stand between single quotes.
    LongLiteral,
    /// No string stands where one without constants is stated.
    StringNeeded,
    /// Neither a string nor the name of a constant stands where a string with constants is stated.
    StringOrNameNeeded,
    /// A `pstring` has more than 255 bytes.
    LongString,
    /// A `cstring` has a byte of 0, which would end it.
    ZeroInString,
    /// A string has another length than its field, whose length is this one.
    StringLength(u16),
    /// What stands where a point is stated is none.
    PointNeeded,
    /// What stands where a rectangle is stated is none.
    RectangleNeeded,
    /// No `{` stands where the elements of an array begin.
    ArrayNeeded,
    /// An array has another number of elements than its type says: this one.
    ElementsNeeded(u16),
    /// An array has more elements than the bits of its count can say.
    ManyElements,
    /// The word that stands where a case is stated is none of their names, or no word stands there.
    CaseNeeded,
    /// No `{` stands after the name of a case.
    OpeningBraceNeeded,
    /// No `}` stands after all that the braces may hold.
    ClosingBraceNeeded,
    /// Tokens stand after the last value.
    NothingMore,
    /// A statement states more than 2^20 values.
    ManyValues,
    /// The declaration of the type names a block or a count that it does not have, or blocks stand
    /// more than 8 deep in it. A declaration that was read is none of this kind.
    Unsound,
}

impl fmt::Display for ValueFault {
    fn fmt<W: fmt::Write>(&self, f: &mut fmt::Formatter<W>) -> fmt::Result {
        let words = match self {
            ValueFault::SeparatorNeeded => "a comma or a semicolon is needed",
            ValueFault::NumberNeeded => "a number is needed",
            ValueFault::NumberOrNameNeeded =>
                "a number is needed, or the name of a constant of its field",
            ValueFault::NumberOutOfRange(n) => return write!(
                f,
                "a number of {n} bits is out of range"
            ),
            ValueFault::LongLiteral => "more than four characters stand for a number",
            ValueFault::StringNeeded => "a string is needed",
            ValueFault::StringOrNameNeeded =>
                "a string is needed, or the name of a constant of its field",
            ValueFault::LongString => "a string has more than 255 bytes",
            ValueFault::ZeroInString => "a string has a byte of 0, which would end it",
            ValueFault::StringLength(n) => return write!(f, "a string of length {n} is needed"),
            ValueFault::PointNeeded => "a point must be {v, h}",
            ValueFault::RectangleNeeded => "a rectangle must be {top, left, bottom, right}",
            ValueFault::ArrayNeeded => "an array must stand in braces",
            ValueFault::ElementsNeeded(n) => return write!(
                f,
                "an array must have so many elements: {n}"
            ),
            ValueFault::ManyElements => "an array has more elements than its count can state",
            ValueFault::CaseNeeded => "the name of a case is needed",
            ValueFault::OpeningBraceNeeded => "an opening brace is needed",
            ValueFault::ClosingBraceNeeded => "a closing brace is needed",
            ValueFault::NothingMore => "nothing more may stand here",
            ValueFault::ManyValues => "a resource has at most 1048576 values",
            ValueFault::Unsound => "the declaration of the type is not sound",
        };
        f.write_str(words)
    }
}

/// What is wrong in a statement, and where.
#[derive(Clone, Copy, Debug, PartialEq, Eq, Error)]
#[error("line {line}: {kind}")]
pub struct ValueFaultAt {
    /// The line.
    pub line: usize,
    /// What is wrong.
    pub kind: ValueFault,
}

/// The reason why no values were taken.
#[derive(Clone, Copy, Debug, PartialEq, Eq, Error)]
pub enum TakeFault {
    /// The tokens state no resource of the type.
    #[error("{0}")]
    Wrong(ValueFaultAt),
    /// The host is out of memory. This fault says nothing about the tokens.
    #[error("the host is out of memory")]
    HostMemory,
}

impl From<AllocError> for TakeFault {
    ghost from_gives = { λ _ e. e ≡ HostMemory };

    fn from(_e: AllocError) -> TakeFault {
        TakeFault::HostMemory
    }
}

impl<T: Drop> From<AllocFailed<T>> for TakeFault {
    ghost from_gives = { λ _ e. e ≡ HostMemory };

    fn from(_e: AllocFailed<T>) -> TakeFault {
        TakeFault::HostMemory
    }
}

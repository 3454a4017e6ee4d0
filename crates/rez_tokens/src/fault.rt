//! Why a text has no tokens.

ghost use Rattle.std.specs.Prelude.{◌≡◌};
ghost use Rattle.rez_tokens.specs.declared.fault.StepFault.TheVariants.{Memory};

use std::alloc::{AllocError, AllocFailed};
use thiserror::Error;

/// What is wrong at a place of a text.
#[derive(Clone, Copy, Debug, PartialEq, Eq, Error)]
pub enum TokenFault {
    /// A string does not end, or not on its line.
    #[error("a string does not end")]
    OpenString,
    /// A comment does not end.
    #[error("a comment does not end")]
    OpenComment,
    /// After a `\` in quotes stands no escape.
    #[error("not an escape")]
    NotAnEscape,
    /// A byte that an escape states by its number is above 255.
    #[error("an escape out of range")]
    EscapeOutOfRange,
    /// A number is above 2^32 - 1.
    #[error("a number out of range")]
    NumberOutOfRange,
    /// After `0x` or `0b` no digit stands.
    #[error("a digit is needed")]
    DigitNeeded,
    /// After `$` stands neither a hexadecimal digit nor `"`, nor another `$`.
    #[error("a hexadecimal number or string is needed")]
    HexadecimalNeeded,
    /// After `$$` no name stands.
    #[error("a name is needed")]
    NameNeeded,
    /// In a hexadecimal string stands something other than a digit or a blank.
    #[error("not a hexadecimal digit")]
    NotADigit,
    /// A hexadecimal string has an odd number of digits.
    #[error("an odd number of hexadecimal digits")]
    OddDigits,
}

/// The first place where a text can't go on.
#[derive(Clone, Copy, Debug, PartialEq, Eq, Error)]
#[error("line {line}: {kind}")]
pub struct TokenFaultAt {
    /// The number of the line, from 1 on: the line of the byte at which the text can't go on; of a
    /// string or a comment that does not end, the line on which it begins. CR, LF, and CR with LF,
    /// each end a line.
    pub line: usize,
    /// What is wrong there.
    pub kind: TokenFault,
}

/// The reason why a text has no tokens.
#[derive(Clone, Copy, Debug, PartialEq, Eq, Error)]
pub enum TextFault {
    /// The text can't go on at a place.
    #[error("{0}")]
    Wrong(TokenFaultAt),
    /// The host is out of memory. This fault says nothing about the text.
    #[error("the host is out of memory")]
    HostMemory,
}

/// Why a byte could not be taken in.
#[derive(Clone, Copy)]
pub(crate) enum StepFault {
    /// The text can't go on so.
    Wrong(TokenFault),
    /// The host is out of memory.
    Memory,
}

impl From<AllocError> for StepFault {
    ghost from_gives = { λ _ e. e ≡ Memory };

    fn from(_e: AllocError) -> StepFault {
        StepFault::Memory
    }
}

impl<T: Drop> From<AllocFailed<T>> for StepFault {
    ghost from_gives = { λ _ e. e ≡ Memory };

    fn from(_e: AllocFailed<T>) -> StepFault {
        StepFault::Memory
    }
}

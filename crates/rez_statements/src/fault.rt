//! Why a statement has no meaning.

ghost use Rattle.std.specs.Prelude.{◌≡◌};
ghost use Rattle.rez_statements.specs.declared.fault.TypesFault.TheVariants.{HostMemory};

use rez_declarations::FaultKind;
use rez_tokens::TokenFault;
use rez_values::ValueFault;
use std::alloc::{AllocError, AllocFailed};
use std::fmt;
use thiserror::Error;

/// A type, by the number of its four bytes, the highest first.
#[derive(Clone, Copy, Debug, PartialEq, Eq)]
pub struct TypeName {
    pub number: u32,
}

impl fmt::Display for TypeName {
    /// Writes its four characters, those that are not printable ASCII as `.`.
    fn fmt<W: fmt::Write>(&self, f: &mut fmt::Formatter<W>) -> fmt::Result {
        let bytes = self.number.to_be_bytes();
        for byte in &bytes {
            let shown = if b' ' <= *byte && *byte <= b'~' {
                *byte
            } else {
                b'.'
            };
            write!(f, "{}", shown as char)?;
        }
        Ok(())
    }
}

/// What is wrong at a place of a statement.
#[derive(Clone, Copy, Debug, PartialEq, Eq, Error)]
pub enum StatementFault {
    /// The text has no tokens.
    #[error("{0}")]
    Token(TokenFault),
    /// The declaration can't be read, or is not sound.
    #[error("{0}")]
    Declaration(FaultKind),
    /// The values are none of the type.
    #[error("{0}")]
    Value(ValueFault),
    /// A type is not declared.
    #[error("no type '{0}' is declared")]
    Undeclared(TypeName),
    /// The values have no bytes.
    #[error("an element would end its array, or the resource is too long")]
    NotEncoded,
}

/// What is wrong in a statement, and where.
#[derive(Clone, Copy, Debug, PartialEq, Eq, Error)]
#[error("line {line}: {kind}")]
pub struct StatementFaultAt {
    /// The number of the line in the text of the statement, from 1 on.
    pub line: usize,
    /// What is wrong there.
    pub kind: StatementFault,
}

/// The reason why a statement has no meaning.
#[derive(Clone, Copy, Debug, PartialEq, Eq, Error)]
pub enum TypesFault {
    /// The statement is wrong.
    #[error("{0}")]
    Wrong(StatementFaultAt),
    /// The host is out of memory. This fault says nothing about the statement.
    #[error("the host is out of memory")]
    HostMemory,
}

impl From<AllocError> for TypesFault {
    ghost from_gives = { λ _ e. e ≡ HostMemory };

    fn from(_e: AllocError) -> TypesFault {
        TypesFault::HostMemory
    }
}

impl<T: Drop> From<AllocFailed<T>> for TypesFault {
    ghost from_gives = { λ _ e. e ≡ HostMemory };

    fn from(_e: AllocFailed<T>) -> TypesFault {
        TypesFault::HostMemory
    }
}

//! How a call is written: its word and its arguments.

use crate::role::Role;
use std::fmt;

/// How a call, or a line of a job, is written.
#[derive(Clone, Copy, Debug)]
pub struct Form {
    /// The first word of the line.
    pub word: &'static [u8],
    /// What the arguments stand for, in order.
    pub roles: &'static [Role],
}

impl fmt::Display for Form {
    fn fmt<W: fmt::Write>(&self, f: &mut fmt::Formatter<W>) -> fmt::Result {
        for byte in self.word {
            write!(f, "{}", *byte as char)?;
        }
        for role in self.roles {
            write!(f, " {}", role.name())?;
        }
        Ok(())
    }
}

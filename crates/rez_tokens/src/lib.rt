//! The tokens of a source in the language of Rez.
#![tactic(auto)]

mod digits;
mod fault;
mod filled;
mod lexer;
mod mode;
mod quotes;
mod read;
mod token;

pub use fault::{TextFault, TokenFault, TokenFaultAt};
pub use read::tokens;
pub use token::{Lexeme, Token};

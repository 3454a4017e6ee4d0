//! Statements that declare types, from their text.

ghost use Rattle.std.specs.Prelude.{◌≡◌, filter, map};
ghost use Rattle.rez_tokens.specs.Reading.{lexed};
ghost use Rattle.rez_tokens.specs.View.{token_of};
ghost use Rattle.rez_declarations.specs.Declaring.{statement};
ghost use Rattle.rez_statements.specs.Types as spec;
ghost use Rattle.rez_statements.specs.View.{Gives, tokens_in, said_by, wrong_at};

use crate::fault::{StatementFault, StatementFaultAt, TypesFault};
use rez_declarations::{FaultKind, ReadFault, TypeStated, read_type};
use rez_tokens::{Lexeme, TextFault, Token, tokens};
use std::alloc::Global;

/// A statement that declares a type.
#[derive(Drop)]
pub struct DeclaringStatement {
    /// The type.
    pub ty: [u8; 4],
    /// What is said of it.
    pub stated: TypeStated,
}

/// Returns a fault on a line.
pub(crate) fn wrong(line: usize, kind: StatementFault) -> TypesFault
    ensures { result ≡ wrong_at line kind }
{
    TypesFault::Wrong(StatementFaultAt { line, kind })
}

/// Returns the tokens of a text.
pub(crate) fn tokens_of(alloc: Global, text: &[u8]) -> Result<Vec<Token>, TypesFault>
    ensures { Gives tokens_in result (spec.of_text (lexed text.now)) }
{
    match tokens(alloc, text) {
        Ok(tokens) => Ok(tokens),
        Err(TextFault::Wrong(fault)) => Err(wrong(fault.line, StatementFault::Token(fault.kind))),
        Err(TextFault::HostMemory) => Err(TypesFault::HostMemory),
    }
}

/// Reports whether a token says something in a declaration: the bytes of a fill that a comment
/// states do not.
fn is_said(token: &Token) -> bool
    ensures { result ≡ spec.is_said (token_of token.now) }
{
    match token.lexeme {
        Lexeme::Filled(_) => false,
        _ => true,
    }
}

/// Leaves the tokens that say something in a declaration.
fn drop_fills(tokens: &mut Vec<Token>)
    ensures { map token_of tokens.new.items ≡ filter spec.is_said (map token_of tokens.old.items) }
{
    tokens.retain(|token| is_said(token));
}

/// Reads a statement `type` that no other token follows.
fn read_alone(alloc: Global, tokens: &[Token]) -> Result<DeclaringStatement, TypesFault>
    ensures { Gives said_by result (spec.of_statement (statement (map token_of tokens.now))) }
{
    let statement = match read_type(alloc, tokens) {
        Ok(statement) => statement,
        Err(ReadFault::Text(fault)) => {
            return Err(wrong(fault.line, StatementFault::Declaration(fault.kind)));
        }
        Err(ReadFault::HostMemory) => return Err(TypesFault::HostMemory),
    };
    match statement.rest {
        [] => Ok(DeclaringStatement {
            ty: statement.ty,
            stated: statement.stated,
        }),
        [token, ..] => Err(wrong(
            token.line,
            StatementFault::Declaration(FaultKind::DeclarationNeeded),
        )),
    }
}

/// Reads the text of a statement `type`, from the word `type` to the semicolon.
///
/// # Errors
///
/// Returns the line in the text where it can't go on, and what is wrong there; `HostMemory` where
/// the host is out of memory.
#[tactic(auto, unfolding(crate::specs::Types::declares))]
pub fn read_declaring(alloc: Global, text: &[u8]) -> Result<DeclaringStatement, TypesFault>
    ensures { Gives said_by result (spec.declares text.now) }
{
    let mut tokens = tokens_of(alloc, text)?;
    drop_fills(&mut tokens);
    read_alone(alloc, tokens.as_slice())
}

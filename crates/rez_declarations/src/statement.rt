//! Statements that declare types.

ghost use Rattle.std.specs.Prelude.{◌≡◌, IfOk, option_map, map};
ghost use Rattle.rez_declarations.specs.Parses.{Parses, ParsesTo, IsStatement, IsSound, parsing_of};
ghost use Rattle.rez_declarations.specs.Parses.{token_of, stated_of, type_number};
ghost use Rattle.rez_declarations.specs.Parsing.{lexeme};
ghost use Rattle.rez_declarations.specs.Declaring as spec;

use crate::parser::Parser;
use crate::sounding::judge;
use crate::type_fault::{FaultKind, ReadFault, TypeFault};
use rez_tokens::{Lexeme, Token};
use rez_types::Declaration;
use std::alloc::Global;
use std::mem::replace;

/// How deep fields may stand in one another: those of the declaration, and blocks 8 deep.
const MOST_DEPTH: u8 = 9;

/// What a statement says of a type.
#[derive(Drop)]
pub enum TypeStated {
    /// Its fields.
    Declared(Declaration),
    /// The type that it is like.
    As([u8; 4]),
}

/// A statement that declares a type.
#[derive(Drop)]
pub struct TypeStatement<'a> {
    /// The type.
    pub ty: [u8; 4],
    /// What is said of it.
    pub stated: TypeStated,
    /// The tokens after the statement.
    pub rest: &'a [Token],
}

impl<'a> Parser<'a> {
    /// Returns the type that the next token is, if it is one.
    fn ty(&self) -> Option<[u8; 4]>
        ensures { option_map type_number result ≡ spec.type_in (lexeme (parsing_of self.now)) }
    {
        match self.tokens {
            [
                Token {
                    lexeme: Lexeme::Literal(bytes),
                    ..
                },
                ..
            ] => match bytes.as_slice() {
                [a, b, c, d] => Some([*a, *b, *c, *d]),
                _ => None,
            },
            _ => None,
        }
    }

    /// Passes over a type, and returns it.
    #[tactic(auto, unfolding(crate::specs::Declaring::type_read))]
    fn take_type(&mut self) -> Result<[u8; 4], ReadFault>
        ensures { ParsesTo type_number result (parsing_of self.new)
            (spec.type_read (parsing_of self.old)) }
    {
        let Some(ty) = self.ty() else {
            return Err(self.refuse(FaultKind::TypeNeeded));
        };
        self.pass();
        Ok(ty)
    }

    /// Reads the fields of a type, whose statement begins on a line.
    #[tactic(auto, unfolding(crate::specs::Declaring::declared))]
    fn read_declared(&mut self, line: usize) -> Result<TypeStated, ReadFault>
        ensures stated { ParsesTo stated_of result (parsing_of self.new)
            (spec.declared line (parsing_of self.old)) }
        ensures sound { IfOk result IsSound }
    {
        let fields = self.read_braces(MOST_DEPTH)?;
        self.take_mark(b';', FaultKind::SemicolonNeeded)?;
        let blocks = replace(&mut self.blocks, Vec::new(self.alloc));
        let declaration = Declaration { fields, blocks };
        match judge(self.alloc, &declaration)? {
            None => Ok(TypeStated::Declared(declaration)),
            Some(fault) => Err(ReadFault::Text(TypeFault {
                line,
                kind: FaultKind::Unsound(fault),
            })),
        }
    }

    /// Reads the type that a type is like.
    #[tactic(auto, unfolding(crate::specs::Declaring::likened))]
    fn read_likened(&mut self) -> Result<TypeStated, ReadFault>
        ensures stated { ParsesTo stated_of result (parsing_of self.new)
            (spec.likened (parsing_of self.old)) }
        ensures sound { IfOk result IsSound }
    {
        let other = self.take_type()?;
        self.take_mark(b';', FaultKind::SemicolonNeeded)?;
        Ok(TypeStated::As(other))
    }

    /// Reads what is said of a type, whose statement begins on a line.
    fn read_stated(&mut self, line: usize) -> Result<TypeStated, ReadFault>
        ensures stated { ParsesTo stated_of result (parsing_of self.new)
            (spec.stated line (parsing_of self.old)) }
        ensures sound { IfOk result IsSound }
    {
        if self.is_word(b"as") {
            self.pass();
            self.read_likened()
        } else {
            self.read_declared(line)
        }
    }

    /// Passes over the word `type`, which has to stand here.
    fn take_word(&mut self) -> Result<(), ReadFault>
        ensures { Parses result (parsing_of self.new) (spec.word_type (parsing_of self.old)) }
    {
        if !self.is_word(b"type") {
            return Err(self.refuse(FaultKind::DeclarationNeeded));
        }
        self.pass();
        Ok(())
    }
}

/// Reads a statement that declares a type: `type TYPE { FIELD .. };`, or `type TYPE as TYPE;`. It
/// may be followed by other tokens.
///
/// # Errors
///
/// Returns the line of the first token that can't stand there, and what is wrong with it, or why
/// the declaration is not sound; `HostMemory` where the host is out of memory.
#[tactic(auto, unfolding(crate::specs::Declaring::statement))]
pub fn read_type<'a>(alloc: Global, tokens: &'a [Token]) -> Result<TypeStatement<'a>, ReadFault>
    ensures statement { IsStatement result (spec.statement (map token_of tokens.now)) }
    ensures sound { IfOk result (λ s. IsSound s.stated) }
{
    let mut parser = Parser::new(alloc, tokens);
    let line = parser.next_line();
    parser.take_word()?;
    let ty = parser.take_type()?;
    let stated = parser.read_stated(line)?;
    Ok(TypeStatement {
        ty,
        stated,
        rest: parser.tokens,
    })
}

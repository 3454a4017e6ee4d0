//! A reader of a declaration's tokens: what fields have in common.

ghost use Rattle.std.specs.Prelude.{◌≡◌, ◌≤◌, ◌<◌, IfOk, map, option_map};
ghost use Rattle.rez_declarations.specs.declared.type_fault.ReadFault.TheVariants as refused;
ghost use Rattle.rez_types.specs.Leads.{same, bytes_in};
ghost use Rattle.rez_declarations.specs.Parses.{Parses, ParsesTo, parsing_of, token_of};
ghost use Rattle.rez_declarations.specs.Declaring.{unparsed};
ghost use Rattle.rez_declarations.specs.Parsing as spec;

use crate::twins::is_name;
use crate::type_fault::{FaultKind, ReadFault, TypeFault};
use rez_tokens::{Lexeme, Token};
use rez_types::{Block, Width, number_of, power};
use std::alloc::Global;

/// A reader of tokens.
#[derive(Drop)]
pub(crate) struct Parser<'a> {
    /// The tokens that are still to be read.
    pub tokens: &'a [Token],
    /// The line of the last token before them.
    pub line: usize,
    /// The blocks so far.
    pub blocks: Vec<Block>,
    /// How many fields were read.
    pub fields: usize,
    pub alloc: Global,
}

impl<'a> Parser<'a> {
    /// Returns a reader before the first of the tokens.
    pub fn new(alloc: Global, tokens: &'a [Token]) -> Parser<'a>
        ensures { parsing_of result ≡ unparsed (map token_of tokens.now) }
    {
        Parser {
            tokens,
            line: 1,
            blocks: Vec::new(alloc),
            fields: 0,
            alloc,
        }
    }

    /// Returns the line of the next token; at the end of the tokens, that of the last one.
    pub fn next_line(&self) -> usize
        ensures { result ≡ spec.line_at (parsing_of self.now).tokens (parsing_of self.now).line }
    {
        match self.tokens {
            [token, ..] => token.line,
            _ => self.line,
        }
    }

    /// Returns the fault that the tokens can't go on so.
    pub fn refuse(&self, kind: FaultKind) -> ReadFault
        ensures { result ≡ refused.Text (record {
          line = spec.line_at (parsing_of self.now).tokens (parsing_of self.now).line;
          kind = kind;
        }) }
    {
        ReadFault::Text(TypeFault {
            line: self.next_line(),
            kind,
        })
    }

    /// Passes over the next token.
    pub fn pass(&mut self)
        ensures { parsing_of self.new ≡ spec.passed (parsing_of self.old) }
    {
        self.line = self.next_line();
        if let [_, rest @ ..] = self.tokens {
            self.tokens = rest;
        }
    }

    /// Reports whether the next token is a mark.
    pub fn is_mark(&self, mark: u8) -> bool
        requires { 0 < mark }
        ensures { result ≡ spec.is_mark mark (parsing_of self.now) }
    {
        match self.tokens {
            [
                Token {
                    lexeme: Lexeme::Mark(byte),
                    ..
                },
                ..
            ] => *byte == mark,
            _ => false,
        }
    }

    /// Passes over a mark, which has to stand here.
    #[tactic(auto, unfolding(crate::specs::Parsing::marked))]
    pub fn take_mark(&mut self, mark: u8, kind: FaultKind) -> Result<(), ReadFault>
        requires { 0 < mark }
        ensures { Parses result (parsing_of self.new)
            (spec.marked mark kind (parsing_of self.old)) }
    {
        if !self.is_mark(mark) {
            return Err(self.refuse(kind));
        }
        self.pass();
        Ok(())
    }

    /// Returns the next token, if it is a word.
    pub fn word(&self) -> Option<&'a [u8]>
        ensures { option_map (λ w. w.now) result
            ≡ spec.word_in (spec.lexeme (parsing_of self.now)) }
    {
        match self.tokens {
            [
                Token {
                    lexeme: Lexeme::Word(word),
                    ..
                },
                ..
            ] => Some(word.as_slice()),
            _ => None,
        }
    }

    /// Reports whether the next token is a word, in any case.
    pub fn is_word(&self, word: &[u8]) -> bool
        ensures { result ≡ spec.is_word_in word.now (spec.lexeme (parsing_of self.now)) }
    {
        match self.word() {
            Some(found) => is_name(word, found),
            None => false,
        }
    }

    /// Passes over a name, and returns it.
    #[tactic(auto, unfolding(crate::specs::Parsing::named))]
    pub fn take_name(&mut self) -> Result<Vec<u8>, ReadFault>
        ensures { ParsesTo bytes_in result (parsing_of self.new)
            (spec.named (parsing_of self.old)) }
    {
        let Some(word) = self.word() else {
            return Err(self.refuse(FaultKind::NameNeeded));
        };
        if 63 < word.len() {
            return Err(self.refuse(FaultKind::LongName));
        }
        let name = Vec::from_slice(self.alloc, word)?;
        self.pass();
        Ok(name)
    }

    /// Returns the next token, if it is a number.
    fn number(&self) -> Option<u32>
        ensures { result ≡ spec.number_in (spec.lexeme (parsing_of self.now)) }
    {
        match self.tokens {
            [
                Token {
                    lexeme: Lexeme::Number(number),
                    ..
                },
                ..
            ] => Some(*number),
            _ => None,
        }
    }

    /// Passes over a number from `least` to `most`, and returns it.
    pub fn take_between(&mut self, least: u32, most: u32, kind: FaultKind) -> Result<u32, ReadFault>
        ensures number { ParsesTo same result (parsing_of self.new) (spec.between least most kind
            (spec.number_in (spec.lexeme (parsing_of self.old))) (parsing_of self.old)) }
        ensures least { IfOk result (λ n. least ≤ n) }
        ensures most { IfOk result (λ n. n ≤ most) }
    {
        let Some(number) = self.number() else {
            return Err(self.refuse(FaultKind::NumberNeeded));
        };
        if number < least || most < number {
            return Err(self.refuse(kind));
        }
        self.pass();
        Ok(number)
    }

    /// Passes over a number in brackets, from 1 on, and returns it.
    #[tactic(auto, unfolding(crate::specs::Parsing::bracketed))]
    pub fn take_bracketed(&mut self, most: u32, kind: FaultKind) -> Result<u32, ReadFault>
        ensures number { ParsesTo same result (parsing_of self.new)
            (spec.bracketed most kind (parsing_of self.old)) }
        ensures least { IfOk result (λ n. 1 ≤ n) }
        ensures most { IfOk result (λ n. n ≤ most) }
    {
        self.take_mark(b'[', FaultKind::BracketNeeded)?;
        let number = self.take_between(1, most, kind)?;
        self.take_mark(b']', FaultKind::BracketNeeded)?;
        Ok(number)
    }

    /// Passes over a number after a minus, and returns its bits.
    fn take_negative(&mut self, width: Width) -> Result<u32, ReadFault>
        ensures { ParsesTo same result (parsing_of self.new) (spec.negative_by width.bits
            (spec.number_in (spec.lexeme (parsing_of self.old))) (parsing_of self.old)) }
    {
        let Some(number) = self.number() else {
            return Err(self.refuse(FaultKind::ConstantNeeded));
        };
        if power(width.bits - 1) < number as u64 {
            return Err(self.refuse(FaultKind::ConstantOutOfRange));
        }
        self.pass();
        let all = power(width.bits);
        Ok(((all - number as u64) % all) as u32)
    }

    /// Returns the number of the next token, if it states a constant: a number, or up to four
    /// characters.
    fn constant(&self) -> Option<u32>
        ensures { result ≡ spec.constant_in (spec.lexeme (parsing_of self.now)) }
    {
        match self.tokens {
            [
                Token {
                    lexeme: Lexeme::Number(number),
                    ..
                },
                ..
            ] => Some(*number),
            [
                Token {
                    lexeme: Lexeme::Literal(bytes),
                    ..
                },
                ..
            ] => literal_number(bytes.as_slice()),
            _ => None,
        }
    }

    /// Passes over a constant without a minus, and returns it.
    fn take_positive(&mut self, width: Width) -> Result<u32, ReadFault>
        ensures { ParsesTo same result (parsing_of self.new) (spec.positive_by width.bits
            (spec.constant_in (spec.lexeme (parsing_of self.old))) (parsing_of self.old)) }
    {
        let Some(number) = self.constant() else {
            return Err(self.refuse(FaultKind::ConstantNeeded));
        };
        if power(width.bits) <= number as u64 {
            return Err(self.refuse(FaultKind::ConstantOutOfRange));
        }
        self.pass();
        Ok(number)
    }

    /// Passes over a constant of so many bits, and returns its bits.
    #[tactic(auto, unfolding(crate::specs::Parsing::constant))]
    pub fn take_constant(&mut self, width: Width) -> Result<u32, ReadFault>
        ensures { ParsesTo same result (parsing_of self.new)
            (spec.constant width.bits (parsing_of self.old)) }
    {
        if self.is_mark(b'-') {
            self.pass();
            self.take_negative(width)
        } else {
            self.take_positive(width)
        }
    }
}

/// Returns the number of up to four characters.
fn literal_number(bytes: &[u8]) -> Option<u32>
    ensures { result ≡ spec.literal_number bytes.now }
{
    if 4 < bytes.len() {
        return None;
    }
    Some(number_of(bytes.len() as u8, bytes))
}

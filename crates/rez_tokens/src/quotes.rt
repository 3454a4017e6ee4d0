//! Strings and characters between quotes.

ghost use Rattle.std.specs.Prelude.{◌≡◌, Ok};
ghost use Rattle.rez_tokens.specs.State.{state_of, with_token, Leads};
ghost use Rattle.rez_tokens.specs.Lexing as spec;

use crate::digits::ends_line;
use crate::fault::{StepFault, TokenFault};
use crate::lexer::Lexer;
use crate::mode::{Mode, Quote, Radix};
use crate::token::Lexeme;

/// Returns the byte that an escape of one character stands for, if it is one.
fn escaped(byte: u8) -> Option<u8>
    ensures { result ≡ spec.escaped byte }
{
    match byte {
        b'n' => Some(b'\r'),
        b'r' => Some(b'\n'),
        b't' => Some(b'\t'),
        b'b' => Some(8),
        b'f' => Some(12),
        b'v' => Some(11),
        b'?' => Some(127),
        b'"' | b'\'' | b'\\' => Some(byte),
        _ => None,
    }
}

impl Lexer {
    /// Ends what stands between quotes.
    fn end_quoted(&mut self, quote: Quote) -> Result<(), StepFault>
        ensures { Leads result (state_of self.new)
            (Ok (with_token (spec.quoted_by quote self.old.gathered.items) (state_of self.old))) }
    {
        let bytes = self.take_gathered();
        match quote {
            Quote::Double => self.add(Lexeme::Text(bytes)),
            Quote::Single => self.add(Lexeme::Literal(bytes)),
        }
    }

    #[tactic(auto, unfolding(crate::specs::Lexing::quoted))]
    pub fn quoted(&mut self, quote: Quote, byte: u8) -> Result<(), StepFault>
        ensures { Leads result (state_of self.new) (spec.quoted quote byte (state_of self.old)) }
    {
        if byte == quote.byte() {
            self.end_quoted(quote)
        } else if byte == b'\\' {
            self.go_on(Mode::Escape(quote));
            Ok(())
        } else if ends_line(byte) {
            Err(StepFault::Wrong(TokenFault::OpenString))
        } else {
            self.gather(byte, Mode::Quoted(quote))
        }
    }

    /// Takes one more digit of an escape by a number, of which so many are to come.
    #[tactic(auto, unfolding(crate::specs::Lexing::escape_number))]
    pub fn escape_number(
        &mut self,
        quote: Quote,
        radix: Radix,
        left: u8,
        number: u8,
        byte: u8,
    ) -> Result<(), StepFault>
        ensures { Leads result (state_of self.new)
            (spec.escape_number quote radix left number byte (state_of self.old)) }
    {
        let Some(digit) = radix.value(byte) else {
            return Err(StepFault::Wrong(TokenFault::NotAnEscape));
        };
        let grown = radix.base() as u16 * number as u16 + digit as u16;
        if grown > 255 {
            Err(StepFault::Wrong(TokenFault::EscapeOutOfRange))
        } else if left <= 1 {
            self.gather(grown as u8, Mode::Quoted(quote))
        } else {
            self.go_on(Mode::EscapeNumber(quote, radix, left - 1, grown as u8));
            Ok(())
        }
    }

    #[tactic(auto, unfolding(crate::specs::Lexing::escape))]
    pub fn escape(&mut self, quote: Quote, byte: u8) -> Result<(), StepFault>
        ensures { Leads result (state_of self.new) (spec.escape quote byte (state_of self.old)) }
    {
        if byte == b'0' {
            self.go_on(Mode::EscapeZero(quote));
            return Ok(());
        }
        if byte == b'$' {
            self.go_on(Mode::EscapeNumber(quote, Radix::Hexadecimal, 2, 0));
            return Ok(());
        }
        match escaped(byte) {
            Some(other) => self.gather(other, Mode::Quoted(quote)),
            None => self.escape_number(quote, Radix::Octal, 3, 0, byte),
        }
    }

    #[tactic(auto, unfolding(crate::specs::Lexing::escape_zero))]
    pub fn escape_zero(&mut self, quote: Quote, byte: u8) -> Result<(), StepFault>
        ensures { Leads result (state_of self.new)
            (spec.escape_zero quote byte (state_of self.old)) }
    {
        if byte == b'x' || byte == b'X' {
            self.go_on(Mode::EscapeNumber(quote, Radix::Hexadecimal, 2, 0));
            Ok(())
        } else if byte == b'b' {
            self.go_on(Mode::EscapeNumber(quote, Radix::Binary, 8, 0));
            Ok(())
        } else if byte == b'd' {
            self.go_on(Mode::EscapeNumber(quote, Radix::Decimal, 3, 0));
            Ok(())
        } else {
            self.escape_number(quote, Radix::Octal, 2, 0, byte)
        }
    }
}

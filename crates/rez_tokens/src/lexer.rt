//! The tokens of a text, byte by byte.

ghost use Rattle.std.specs.Prelude.{◌≡◌, Ok};
ghost use Rattle.rez_tokens.specs.Digits.{digit_in};
ghost use Rattle.rez_tokens.specs.Tokens.{Number, Hex};
ghost use Rattle.rez_tokens.specs.View.{lexeme_of};
ghost use Rattle.rez_tokens.specs.State.{state_of, start, in_mode, gather as gathered, passed};
ghost use Rattle.rez_tokens.specs.State.{with_token, Leads};
ghost use Rattle.rez_tokens.specs.Lexing as spec;

use crate::digits::{byte_of, ends_line, hex_value, is_blank, is_digit, is_letter};
use crate::fault::{StepFault, TokenFault};
use crate::filled::filled;
use crate::mode::{Mode, Name, Quote, Radix};
use crate::token::{Lexeme, Token};
use std::alloc::Global;
use std::mem::replace;

/// A lexer within a text.
#[derive(Drop)]
pub(crate) struct Lexer {
    pub mode: Mode,
    /// The bytes of the token so far.
    pub gathered: Vec<u8>,
    /// The number of the line on which the token begins.
    pub begun: usize,
    /// The tokens before it.
    pub tokens: Vec<Token>,
    pub alloc: Global,
}

impl Lexer {
    /// Makes a lexer before the first byte of a text.
    pub fn new(alloc: Global) -> Lexer
        ensures { state_of result ≡ start }
    {
        Lexer {
            mode: Mode::Between,
            gathered: Vec::new(alloc),
            begun: 1,
            tokens: Vec::new(alloc),
            alloc,
        }
    }

    /// Goes on with another part of a token.
    pub fn go_on(&mut self, mode: Mode)
        ensures { state_of self.new ≡ in_mode mode (state_of self.old) }
    {
        self.mode = mode;
    }

    /// Takes one more byte of a token.
    pub fn gather(&mut self, byte: u8, mode: Mode) -> Result<(), StepFault>
        ensures { Leads result (state_of self.new) (Ok (gathered byte mode (state_of self.old))) }
    {
        self.gathered.push(byte)?;
        self.mode = mode;
        Ok(())
    }

    /// Passes over what is no token.
    fn pass(&mut self)
        ensures { state_of self.new ≡ passed (state_of self.old) }
    {
        self.gathered.clear();
        self.mode = Mode::Between;
    }

    /// Adds a token.
    pub fn add(&mut self, lexeme: Lexeme) -> Result<(), StepFault>
        ensures { Leads result (state_of self.new)
            (Ok (with_token (lexeme_of lexeme) (state_of self.old))) }
    {
        self.tokens.push(Token {
            line: self.begun,
            lexeme,
        })?;
        self.pass();
        Ok(())
    }

    /// Returns the bytes of the token, which ends.
    pub fn take_gathered(&mut self) -> Vec<u8>
        ensures taken { result.items ≡ self.old.gathered.items }
        ensures left { state_of self.new ≡ passed (state_of self.old) }
    {
        self.mode = Mode::Between;
        replace(&mut self.gathered, Vec::new(self.alloc))
    }

    /// Takes a blank, the first byte of a token, or a mark.
    #[tactic(auto, unfolding(crate::specs::Lexing::between))]
    pub fn begin(&mut self, byte: u8) -> Result<(), StepFault>
        ensures { Leads result (state_of self.new) (Ok (spec.between byte (state_of self.old))) }
    {
        if is_blank(byte) {
            Ok(())
        } else if byte == b'/' {
            self.go_on(Mode::Slash);
            Ok(())
        } else if byte == b'"' {
            self.go_on(Mode::Quoted(Quote::Double));
            Ok(())
        } else if byte == b'\'' {
            self.go_on(Mode::Quoted(Quote::Single));
            Ok(())
        } else if byte == b'$' {
            self.go_on(Mode::Dollar);
            Ok(())
        } else if byte == b'0' {
            self.go_on(Mode::Zero);
            Ok(())
        } else if is_digit(byte) {
            self.go_on(Mode::Number(Radix::Decimal, (byte - b'0') as u32));
            Ok(())
        } else if is_letter(byte) {
            self.gather(byte, Mode::Name(Name::Word))
        } else {
            self.add(Lexeme::Mark(byte))
        }
    }

    #[tactic(auto, unfolding(crate::specs::Lexing::slash))]
    pub fn slash(&mut self, byte: u8) -> Result<(), StepFault>
        ensures { Leads result (state_of self.new) (Ok (spec.slash byte (state_of self.old))) }
    {
        if byte == b'*' {
            self.go_on(Mode::Comment);
            Ok(())
        } else if byte == b'/' {
            self.go_on(Mode::LineComment);
            Ok(())
        } else {
            self.add(Lexeme::Mark(b'/'))?;
            self.begin(byte)
        }
    }

    #[tactic(auto, unfolding(crate::specs::Lexing::in_comment))]
    pub fn in_comment(&mut self, byte: u8) -> Result<(), StepFault>
        ensures { Leads result (state_of self.new) (Ok (spec.in_comment byte (state_of self.old))) }
    {
        if byte == b'*' {
            self.go_on(Mode::Star);
            Ok(())
        } else {
            self.gather(byte, Mode::Comment)
        }
    }

    /// Ends a comment.
    #[tactic(auto, unfolding(crate::specs::Lexing::comment))]
    fn end_comment(&mut self) -> Result<(), StepFault>
        ensures { Leads result (state_of self.new) (Ok (spec.comment (state_of self.old))) }
    {
        match filled(self.alloc, self.gathered.as_slice())? {
            Some(bytes) => self.add(Lexeme::Filled(bytes)),
            None => {
                self.pass();
                Ok(())
            }
        }
    }

    #[tactic(auto, unfolding(crate::specs::Lexing::star))]
    pub fn star(&mut self, byte: u8) -> Result<(), StepFault>
        ensures { Leads result (state_of self.new) (Ok (spec.star byte (state_of self.old))) }
    {
        if byte == b'/' {
            self.end_comment()
        } else if byte == b'*' {
            self.gather(b'*', Mode::Star)
        } else {
            self.gather(b'*', Mode::Star)?;
            self.gather(byte, Mode::Comment)
        }
    }

    #[tactic(auto, unfolding(crate::specs::Lexing::line_comment))]
    pub fn line_comment(&mut self, byte: u8) -> Result<(), StepFault>
        ensures { Leads result (state_of self.new)
            (Ok (spec.line_comment byte (state_of self.old))) }
    {
        if ends_line(byte) {
            self.go_on(Mode::Between);
        }
        Ok(())
    }

    /// Ends a name.
    fn end_name(&mut self, name: Name) -> Result<(), StepFault>
        ensures { Leads result (state_of self.new)
            (Ok (with_token (spec.named name self.old.gathered.items) (state_of self.old))) }
    {
        let bytes = self.take_gathered();
        match name {
            Name::Word => self.add(Lexeme::Word(bytes)),
            Name::Function => self.add(Lexeme::Function(bytes)),
        }
    }

    #[tactic(auto, unfolding(crate::specs::Lexing::in_name))]
    pub fn in_name(&mut self, name: Name, byte: u8) -> Result<(), StepFault>
        ensures { Leads result (state_of self.new)
            (Ok (spec.in_name name byte (state_of self.old))) }
    {
        if is_letter(byte) || is_digit(byte) {
            self.gather(byte, Mode::Name(name))
        } else {
            self.end_name(name)?;
            self.begin(byte)
        }
    }

    /// Ends a number before a byte.
    fn end_number(&mut self, number: u32, byte: u8) -> Result<(), StepFault>
        ensures { Leads result (state_of self.new)
            (Ok (spec.between byte (with_token (Number number) (state_of self.old)))) }
    {
        self.add(Lexeme::Number(number))?;
        self.begin(byte)
    }

    #[tactic(auto, unfolding(crate::specs::Lexing::number))]
    pub fn number(&mut self, radix: Radix, number: u32, byte: u8) -> Result<(), StepFault>
        ensures { Leads result (state_of self.new)
            (spec.number radix number byte (state_of self.old)) }
    {
        let Some(digit) = radix.value(byte) else {
            return self.end_number(number, byte);
        };
        let grown = radix.base() as u64 * number as u64 + digit as u64;
        if grown > 4_294_967_295 {
            return Err(StepFault::Wrong(TokenFault::NumberOutOfRange));
        }
        self.go_on(Mode::Number(radix, grown as u32));
        Ok(())
    }

    /// Takes the first digit of a number, which has to stand here.
    fn begin_number(&mut self, fault: TokenFault, radix: Radix, byte: u8) -> Result<(), StepFault>
        ensures { Leads result (state_of self.new)
            (spec.by_digit fault radix (digit_in radix byte) (state_of self.old)) }
    {
        match radix.value(byte) {
            Some(digit) => {
                self.go_on(Mode::Number(radix, digit as u32));
                Ok(())
            }
            None => Err(StepFault::Wrong(fault)),
        }
    }

    #[tactic(auto, unfolding(crate::specs::Lexing::prefixed))]
    pub fn prefixed(&mut self, radix: Radix, byte: u8) -> Result<(), StepFault>
        ensures { Leads result (state_of self.new) (spec.prefixed radix byte (state_of self.old)) }
    {
        self.begin_number(TokenFault::DigitNeeded, radix, byte)
    }

    #[tactic(auto, unfolding(crate::specs::Lexing::zero_begun))]
    pub fn zero(&mut self, byte: u8) -> Result<(), StepFault>
        ensures { Leads result (state_of self.new) (spec.zero_begun byte (state_of self.old)) }
    {
        if byte == b'x' || byte == b'X' {
            self.go_on(Mode::Prefixed(Radix::Hexadecimal));
            Ok(())
        } else if byte == b'b' || byte == b'B' {
            self.go_on(Mode::Prefixed(Radix::Binary));
            Ok(())
        } else {
            self.number(Radix::Decimal, 0, byte)
        }
    }

    #[tactic(auto, unfolding(crate::specs::Lexing::dollar))]
    pub fn dollar(&mut self, byte: u8) -> Result<(), StepFault>
        ensures { Leads result (state_of self.new) (spec.dollar byte (state_of self.old)) }
    {
        if byte == b'"' {
            self.go_on(Mode::HexString);
            Ok(())
        } else if byte == b'$' {
            self.go_on(Mode::Dollars);
            Ok(())
        } else {
            self.begin_number(TokenFault::HexadecimalNeeded, Radix::Hexadecimal, byte)
        }
    }

    #[tactic(auto, unfolding(crate::specs::Lexing::dollars))]
    pub fn dollars(&mut self, byte: u8) -> Result<(), StepFault>
        ensures { Leads result (state_of self.new) (spec.dollars byte (state_of self.old)) }
    {
        if is_letter(byte) {
            self.gather(byte, Mode::Name(Name::Function))
        } else {
            Err(StepFault::Wrong(TokenFault::NameNeeded))
        }
    }

    /// Ends a hexadecimal string.
    fn end_hex(&mut self) -> Result<(), StepFault>
        ensures { Leads result (state_of self.new)
            (Ok (with_token (Hex self.old.gathered.items) (state_of self.old))) }
    {
        let bytes = self.take_gathered();
        self.add(Lexeme::Hex(bytes))
    }

    #[tactic(auto, unfolding(crate::specs::Lexing::hex_string))]
    pub fn hex_string(&mut self, byte: u8) -> Result<(), StepFault>
        ensures { Leads result (state_of self.new) (spec.hex_string byte (state_of self.old)) }
    {
        if byte == b'"' {
            return self.end_hex();
        }
        if is_blank(byte) {
            return Ok(());
        }
        match hex_value(byte) {
            Some(digit) => {
                self.go_on(Mode::HexHalf(digit));
                Ok(())
            }
            None => Err(StepFault::Wrong(TokenFault::NotADigit)),
        }
    }

    #[tactic(auto, unfolding(crate::specs::Lexing::hex_half))]
    pub fn hex_half(&mut self, high: u8, byte: u8) -> Result<(), StepFault>
        ensures { Leads result (state_of self.new) (spec.hex_half high byte (state_of self.old)) }
    {
        if byte == b'"' {
            return Err(StepFault::Wrong(TokenFault::OddDigits));
        }
        if is_blank(byte) {
            return Ok(());
        }
        match hex_value(byte) {
            Some(low) => self.gather(byte_of(high, low), Mode::HexString),
            None => Err(StepFault::Wrong(TokenFault::NotADigit)),
        }
    }
}

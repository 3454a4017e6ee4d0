//! The tokens of a whole text.

ghost use Rattle.std.specs.Prelude.{◌≡◌, ◌<◌, ◌≤◌, ◌+◌, ◌-◌, ◌^◌};
ghost use Rattle.rez_tokens.specs.State.{state_of, Leads};
ghost use Rattle.rez_tokens.specs.Lexing as spec;
ghost use Rattle.rez_tokens.specs.Reading.{line_of as line_of_byte, step_on, begun_in, finished};
ghost use Rattle.rez_tokens.specs.Reading.{lexed, Ends, Lexes, fault_at};

use crate::fault::{StepFault, TextFault, TokenFault, TokenFaultAt};
use crate::lexer::Lexer;
use crate::mode::Mode;
use crate::token::Token;
use std::alloc::Global;

/// Returns the number of the line on which a byte stands, from the line of the byte before it.
fn line_of(line: usize, before: u8, byte: u8) -> usize
    requires { line < 2 ^ 64 - 1 }
    ensures line { result ≡ line_of_byte line before byte }
    ensures small { result ≤ line + 1 }
{
    if before == b'\n' || (before == b'\r' && byte != b'\n') {
        line + 1
    } else {
        line
    }
}

impl StepFault {
    /// Returns the fault with the number of its line.
    fn at(self, line: usize) -> TextFault
        ensures { result ≡ fault_at line self }
    {
        match self {
            StepFault::Wrong(kind) => TextFault::Wrong(TokenFaultAt { line, kind }),
            StepFault::Memory => TextFault::HostMemory,
        }
    }
}

impl Lexer {
    /// Takes one more byte.
    #[tactic(auto, unfolding(crate::specs::Lexing::step))]
    fn step(&mut self, byte: u8) -> Result<(), StepFault>
        ensures { Leads result (state_of self.new) (spec.step byte (state_of self.old)) }
    {
        match self.mode {
            Mode::Between => self.begin(byte),
            Mode::Slash => self.slash(byte),
            Mode::Comment => self.in_comment(byte),
            Mode::Star => self.star(byte),
            Mode::LineComment => self.line_comment(byte),
            Mode::Name(name) => self.in_name(name, byte),
            Mode::Zero => self.zero(byte),
            Mode::Prefixed(radix) => self.prefixed(radix, byte),
            Mode::Number(radix, number) => self.number(radix, number, byte),
            Mode::Dollar => self.dollar(byte),
            Mode::Dollars => self.dollars(byte),
            Mode::HexString => self.hex_string(byte),
            Mode::HexHalf(high) => self.hex_half(high, byte),
            Mode::Quoted(quote) => self.quoted(quote, byte),
            Mode::Escape(quote) => self.escape(quote, byte),
            Mode::EscapeZero(quote) => self.escape_zero(quote, byte),
            Mode::EscapeNumber(quote, radix, left, number) => {
                self.escape_number(quote, radix, left, number, byte)
            }
        }
    }

    /// Stands on a line. Between tokens, each byte may be the first of one.
    fn begin_on(&mut self, line: usize)
        ensures { state_of self.new ≡ begun_in self.old.mode line (state_of self.old) }
    {
        match self.mode {
            Mode::Between => self.begun = line,
            _ => {}
        }
    }

    /// Takes one more byte, which stands on a line.
    #[tactic(auto, unfolding(crate::specs::Reading::step_on))]
    fn step_on(&mut self, line: usize, byte: u8) -> Result<(), StepFault>
        ensures { Leads result (state_of self.new) (step_on line byte (state_of self.old)) }
    {
        self.begin_on(line);
        self.step(byte)
    }

    /// Returns what is wrong where the text ends so, if something is.
    fn unfinished(&self) -> Option<TokenFaultAt>
        ensures { Ends result (state_of self.now) }
    {
        let kind = match self.mode {
            Mode::Between => return None,
            Mode::Comment | Mode::Star => TokenFault::OpenComment,
            _ => TokenFault::OpenString,
        };
        Some(TokenFaultAt {
            line: self.begun,
            kind,
        })
    }

    /// Ends the text, whose last byte stands on a line.
    #[tactic(auto, unfolding(crate::specs::Reading::finished))]
    fn finish(mut self, line: usize) -> Result<Vec<Token>, TextFault>
        ensures { Lexes result (finished line (state_of self)) }
    {
        match self.step(b'\n') {
            Ok(()) => {}
            Err(fault) => return Err(fault.at(line)),
        }
        match self.unfinished() {
            Some(fault) => Err(TextFault::Wrong(fault)),
            None => Ok(self.tokens),
        }
    }
}

/// Returns the tokens of a text, each with the number of its line.
///
/// # Errors
///
/// Returns the line of the first place where the text can't go on, and what is wrong there;
/// `HostMemory` where the host is out of memory.
#[tactic(auto, unfolding(crate::specs::Reading::lexed))]
pub fn tokens(alloc: Global, text: &[u8]) -> Result<Vec<Token>, TextFault>
    ensures { Lexes result (lexed text.now) }
{
    let mut lexer = Lexer::new(alloc);
    let mut line = 1;
    let mut before = 0;
    for byte in text {
        line = line_of(line, before, *byte);
        before = *byte;
        match lexer.step_on(line, before) {
            Ok(()) => {}
            Err(fault) => return Err(fault.at(line)),
        }
    }
    lexer.finish(line)
}

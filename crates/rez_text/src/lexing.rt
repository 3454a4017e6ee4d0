//! The tokens of a source, byte by byte.

ghost use Rattle.std.specs.Prelude.{◌≡◌};
ghost use Rattle.rez_text.specs.State.{state_of, Leads};
ghost use Rattle.rez_text.specs.Lexing.{between, slash, in_comment, star, line_comment, declaring};
ghost use Rattle.rez_text.specs.Lexing.{body, after_word, in_word, step};

use crate::ascii::{begins_word, ends_line, is_blank, is_digit, is_letter};
use crate::fault::StepFault;
use crate::mode::{Mode, Quote, Radix};
use crate::reader::Reader;
use crate::scope::Scope;

impl Reader {
    /// Takes a blank, or the first byte of a token.
    #[tactic(auto, unfolding(crate::specs::Lexing::between))]
    pub fn begin(&mut self, byte: u8) -> Result<(), StepFault>
        ensures { Leads result (state_of self.new) (between byte (state_of self.old)) }
    {
        if is_blank(byte) {
            Ok(())
        } else if byte == b'/' {
            self.go_on(Mode::Slash);
            Ok(())
        } else if byte == b'"' {
            self.go_on(Mode::Quoted(Quote::Double));
            Ok(())
        } else if byte == b'\'' {
            self.go_on(Mode::Quoted(Quote::Single));
            Ok(())
        } else if byte == b'$' {
            self.go_on(Mode::Dollar);
            Ok(())
        } else if byte == b'0' {
            self.go_on(Mode::Zero);
            Ok(())
        } else if is_digit(byte) {
            self.go_on(Mode::Number(Radix::Decimal, (byte - b'0') as u32));
            Ok(())
        } else if begins_word(byte) {
            self.gather(byte.to_ascii_lowercase(), Mode::Word)
        } else {
            self.take_mark(byte)
        }
    }

    #[tactic(auto, unfolding(crate::specs::Lexing::slash))]
    fn slash(&mut self, byte: u8) -> Result<(), StepFault>
        ensures { Leads result (state_of self.new) (slash byte (state_of self.old)) }
    {
        match byte {
            b'*' => self.go_on(Mode::Comment),
            b'/' => self.go_on(Mode::LineComment),
            _ => return Err(self.refuse()),
        }
        Ok(())
    }

    #[tactic(auto, unfolding(crate::specs::Lexing::in_comment))]
    fn in_comment(&mut self, byte: u8) -> Result<(), StepFault>
        ensures { Leads result (state_of self.new) (in_comment byte (state_of self.old)) }
    {
        if byte == b'*' {
            self.go_on(Mode::Star);
            Ok(())
        } else {
            self.gather(byte, Mode::Comment)
        }
    }

    #[tactic(auto, unfolding(crate::specs::Lexing::star))]
    fn star(&mut self, byte: u8) -> Result<(), StepFault>
        ensures { Leads result (state_of self.new) (star byte (state_of self.old)) }
    {
        if byte == b'/' {
            self.take_comment()
        } else if byte == b'*' {
            self.gather(b'*', Mode::Star)
        } else {
            self.gather(b'*', Mode::Star)?;
            self.gather(byte, Mode::Comment)
        }
    }

    #[tactic(auto, unfolding(crate::specs::Lexing::line_comment))]
    fn line_comment(&mut self, byte: u8) -> Result<(), StepFault>
        ensures { Leads result (state_of self.new) (line_comment byte (state_of self.old)) }
    {
        if ends_line(byte) {
            self.go_on(Mode::Between);
        }
        Ok(())
    }

    /// Takes one more byte of the text of a statement `type`.
    #[tactic(auto, unfolding(crate::specs::Lexing::declaring))]
    fn declaring(&mut self, scope: Scope, byte: u8) -> Result<(), StepFault>
        ensures { Leads result (state_of self.new) (declaring scope byte (state_of self.old)) }
    {
        if scope.ends(b';', 0, byte) {
            self.gather(byte, Mode::Between)?;
            self.take_declaration()
        } else {
            self.gather(byte, Mode::Declaring(scope.step(byte)))
        }
    }

    /// Takes one more byte of the text between the braces of a statement `resource`.
    #[tactic(auto, unfolding(crate::specs::Lexing::body))]
    fn in_body(&mut self, scope: Scope, byte: u8) -> Result<(), StepFault>
        ensures { Leads result (state_of self.new) (body scope byte (state_of self.old)) }
    {
        if scope.ends(b'}', 1, byte) {
            self.take_body()
        } else {
            self.gather(byte, Mode::Body(scope.step(byte)))
        }
    }

    /// Takes the byte after a word.
    fn after_word(&mut self, byte: u8) -> Result<(), StepFault>
        ensures { Leads result (state_of self.new)
            (after_word self.old.mode byte (state_of self.old)) }
    {
        match self.mode {
            Mode::Declaring(scope) => self.declaring(scope, byte),
            _ => self.begin(byte),
        }
    }

    #[tactic(auto, unfolding(crate::specs::Lexing::in_word))]
    fn in_word(&mut self, byte: u8) -> Result<(), StepFault>
        ensures { Leads result (state_of self.new) (in_word byte (state_of self.old)) }
    {
        if is_letter(byte) || is_digit(byte) {
            self.gather(byte.to_ascii_lowercase(), Mode::Word)
        } else {
            self.take_word()?;
            self.after_word(byte)
        }
    }

    /// Takes one more byte.
    #[tactic(auto, unfolding(crate::specs::Lexing::step))]
    pub fn step(&mut self, byte: u8) -> Result<(), StepFault>
        ensures { Leads result (state_of self.new) (step byte (state_of self.old)) }
    {
        match self.mode {
            Mode::Between => self.begin(byte),
            Mode::Slash => self.slash(byte),
            Mode::Comment => self.in_comment(byte),
            Mode::Star => self.star(byte),
            Mode::LineComment => self.line_comment(byte),
            Mode::Declaring(scope) => self.declaring(scope, byte),
            Mode::Body(scope) => self.in_body(scope, byte),
            Mode::Word => self.in_word(byte),
            Mode::Zero => self.after_zero(byte),
            Mode::Prefixed(radix) => self.prefixed(radix, byte),
            Mode::Number(radix, number) => self.in_number(radix, number, byte),
            Mode::Dollar => self.dollar(byte),
            Mode::HexString => self.hex_string(byte),
            Mode::HexHalf(high) => self.hex_half(high, byte),
            Mode::Quoted(quote) => self.quoted(quote, byte),
            Mode::Escape(quote) => self.escape(quote, byte),
            Mode::EscapeZero(quote) => self.escape_zero(quote, byte),
            Mode::EscapeNumber(quote, radix, left, number) => {
                self.escape_number(quote, radix, left, number, byte)
            }
        }
    }
}

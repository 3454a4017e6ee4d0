//! Numbers, and hexadecimal strings.

ghost use Rattle.std.specs.Prelude.{◌≡◌};
ghost use Rattle.rez_text.specs.State.{state_of, Leads};
ghost use Rattle.rez_text.specs.Lexing.{number_ended, in_number, prefixed, after_zero};
ghost use Rattle.rez_text.specs.Lexing.{string_opened, dollar, hex_string, hex_half};

use crate::ascii::{byte_of, hex_value, is_blank};
use crate::fault::{FaultKind, StepFault};
use crate::mode::{Mode, Place, Radix};
use crate::reader::Reader;

impl Reader {
    /// Takes a number, and then the byte after it.
    fn end_number(&mut self, number: u32, byte: u8) -> Result<(), StepFault>
        ensures { Leads result (state_of self.new) (number_ended number byte (state_of self.old)) }
    {
        self.take_number(number)?;
        self.begin(byte)
    }

    #[tactic(auto, unfolding(crate::specs::Lexing::in_number))]
    pub fn in_number(&mut self, radix: Radix, number: u32, byte: u8) -> Result<(), StepFault>
        ensures { Leads result (state_of self.new)
            (in_number radix number byte (state_of self.old)) }
    {
        let Some(digit) = radix.value(byte) else {
            return self.end_number(number, byte);
        };
        let grown = radix.base() as u64 * number as u64 + digit as u64;
        if grown > u32::MAX as u64 {
            return Err(StepFault::Wrong(FaultKind::NumberOutOfRange));
        }
        self.go_on(Mode::Number(radix, grown as u32));
        Ok(())
    }

    #[tactic(auto, unfolding(crate::specs::Lexing::prefixed))]
    pub fn prefixed(&mut self, radix: Radix, byte: u8) -> Result<(), StepFault>
        ensures { Leads result (state_of self.new) (prefixed radix byte (state_of self.old)) }
    {
        match radix.value(byte) {
            Some(digit) => {
                self.go_on(Mode::Number(radix, digit as u32));
                Ok(())
            }
            None => Err(StepFault::Wrong(FaultKind::DigitNeeded)),
        }
    }

    #[tactic(auto, unfolding(crate::specs::Lexing::after_zero))]
    pub fn after_zero(&mut self, byte: u8) -> Result<(), StepFault>
        ensures { Leads result (state_of self.new) (after_zero byte (state_of self.old)) }
    {
        if byte == b'x' || byte == b'X' {
            self.go_on(Mode::Prefixed(Radix::Hexadecimal));
            Ok(())
        } else if byte == b'b' || byte == b'B' {
            self.go_on(Mode::Prefixed(Radix::Binary));
            Ok(())
        } else {
            self.in_number(Radix::Decimal, 0, byte)
        }
    }

    /// Opens a hexadecimal string.
    fn open_string(&mut self) -> Result<(), StepFault>
        ensures { Leads result (state_of self.new)
            (string_opened self.old.place (state_of self.old)) }
    {
        match self.place {
            Place::Data => {
                self.go_on(Mode::HexString);
                Ok(())
            }
            _ => Err(self.refuse()),
        }
    }

    #[tactic(auto, unfolding(crate::specs::Lexing::dollar))]
    pub fn dollar(&mut self, byte: u8) -> Result<(), StepFault>
        ensures { Leads result (state_of self.new) (dollar byte (state_of self.old)) }
    {
        if byte == b'"' {
            return self.open_string();
        }
        match hex_value(byte) {
            Some(digit) => {
                self.go_on(Mode::Number(Radix::Hexadecimal, digit as u32));
                Ok(())
            }
            None => Err(StepFault::Wrong(FaultKind::HexadecimalNeeded)),
        }
    }

    #[tactic(auto, unfolding(crate::specs::Lexing::hex_string))]
    pub fn hex_string(&mut self, byte: u8) -> Result<(), StepFault>
        ensures { Leads result (state_of self.new) (hex_string byte (state_of self.old)) }
    {
        if byte == b'"' {
            return self.take_datum();
        }
        if is_blank(byte) {
            return Ok(());
        }
        match hex_value(byte) {
            Some(digit) => {
                self.go_on(Mode::HexHalf(digit));
                Ok(())
            }
            None => Err(StepFault::Wrong(FaultKind::NotADigit)),
        }
    }

    #[tactic(auto, unfolding(crate::specs::Lexing::hex_half))]
    pub fn hex_half(&mut self, high: u8, byte: u8) -> Result<(), StepFault>
        ensures { Leads result (state_of self.new) (hex_half high byte (state_of self.old)) }
    {
        if byte == b'"' {
            return Err(StepFault::Wrong(FaultKind::OddDigits));
        }
        if is_blank(byte) {
            return Ok(());
        }
        match hex_value(byte) {
            Some(low) => self.gather(byte_of(high, low), Mode::HexString),
            None => Err(StepFault::Wrong(FaultKind::NotADigit)),
        }
    }
}

//! The values that fields which hold no others state.

ghost use Rattle.std.specs.Prelude.{◌≡◌, ◌≤◌, [], length, map, option_map, replicate, Ok, IfSome};
ghost use Rattle.rez_types.specs.Leads.{same, bytes_in};
ghost use Rattle.rez_types.specs.View.{number_of, text_of, part_of};
ghost use Rattle.rez_types.specs.Values as value;
ghost use Rattle.rez_types.specs.Decoding.{multiple};
ghost use Rattle.rez_tokens.specs.View.{lexeme_of};
ghost use Rattle.rez_values.specs.View.{Takes, TakesTo, tokens_of, taking_of};
ghost use Rattle.rez_values.specs.Taking.{lexeme, past, put};
ghost use Rattle.rez_values.specs.Stating as spec;

use crate::fault::{TakeFault, ValueFault};
use crate::naming::{number_named, text_named};
use crate::taker::{CountPlace, Taker};
use rez_tokens::{Lexeme, Token};
use rez_types::{
    Boundary, Count, Integer, NamedNumber, NamedText, Part, Text, TextEnd, Value, Width,
    has_no_zero, number_of, power,
};

/// The bits of a coordinate.
const COORDINATE: Width = Width { bits: 16 };

/// Returns what is needed where an integer is stated.
fn number_needed(constants: &[NamedNumber]) -> ValueFault
    ensures { result ≡ spec.number_needed (map number_of constants.now) }
{
    if constants.is_empty() {
        ValueFault::NumberNeeded
    } else {
        ValueFault::NumberOrNameNeeded
    }
}

/// Returns what is needed where a string is stated.
fn text_needed(constants: &[NamedText]) -> ValueFault
    ensures { result ≡ spec.text_needed (map text_of constants.now) }
{
    if constants.is_empty() {
        ValueFault::StringNeeded
    } else {
        ValueFault::StringOrNameNeeded
    }
}

/// Returns the bytes of a fill, if they are the first token.
fn filled_at(tokens: &[Token]) -> Option<&[u8]>
    ensures { option_map (λ b. b.now) result ≡ spec.filled_at (tokens_of tokens.now) }
{
    match tokens {
        [
            Token {
                lexeme: Lexeme::Filled(bytes),
                ..
            },
            ..
        ] => Some(bytes.as_slice()),
        _ => None,
    }
}

/// Returns the bytes of a fill of so many bytes, if they are the first token.
fn fill_at(count: usize, tokens: &[Token]) -> Option<&[u8]>
    ensures { option_map (λ b. b.now) result
        ≡ spec.filled_as (spec.has_length count) (tokens_of tokens.now) }
{
    let Some(bytes) = filled_at(tokens) else {
        return None;
    };
    if bytes.len() == count {
        Some(bytes)
    } else {
        None
    }
}

/// Returns how many bytes there are from one boundary to the next.
fn multiple(boundary: Boundary) -> usize
    ensures { result ≡ multiple boundary }
{
    match boundary {
        Boundary::Word => 2,
        Boundary::Long => 4,
    }
}

/// Returns the bytes of an alignment, if they are the first token.
fn alignment_at(boundary: Boundary, tokens: &[Token]) -> Option<&[u8]>
    ensures { option_map (λ b. b.now) result
        ≡ spec.filled_as (spec.is_shorter (multiple boundary)) (tokens_of tokens.now) }
{
    let Some(bytes) = filled_at(tokens) else {
        return None;
    };
    if bytes.len() < multiple(boundary) {
        Some(bytes)
    } else {
        None
    }
}

/// Reports whether bytes are as many as so many bits need, and their number fits.
fn fits_bits(width: Width, bytes: &[u8]) -> bool
    ensures { result ≡ spec.fits_bits width.bits bytes.now }
{
    bytes.len() == (width.bits as usize + 7) / 8
        && (number_of(bytes.len() as u8, bytes) as u64) < power(width.bits)
}

/// Returns the bytes of a fill of so many bits, if they are the first token.
fn fill_bits_at(width: Width, tokens: &[Token]) -> Option<&[u8]>
    ensures fill { option_map (λ b. b.now) result
        ≡ spec.filled_as (spec.fits_bits width.bits) (tokens_of tokens.now) }
    ensures few { IfSome result (λ b. length b.now ≤ 4) }
{
    let Some(bytes) = filled_at(tokens) else {
        return None;
    };
    if fits_bits(width, bytes) {
        Some(bytes)
    } else {
        None
    }
}

/// Returns what is wrong with a string of so many bytes.
fn wrong_length(count: u16, text: &[u8]) -> Option<ValueFault>
    ensures { result ≡ spec.wrong_length count text.now }
{
    if text.len() == count as usize {
        None
    } else {
        Some(ValueFault::StringLength(count))
    }
}

/// Returns what is wrong with a string that ends so.
fn wrong_text(end: TextEnd, text: &[u8]) -> Option<ValueFault>
    ensures { result ≡ spec.wrong_text end text.now }
{
    match end {
        TextEnd::Pascal => {
            if 255 < text.len() {
                Some(ValueFault::LongString)
            } else {
                None
            }
        }
        TextEnd::C => {
            if has_no_zero(text) {
                None
            } else {
                Some(ValueFault::ZeroInString)
            }
        }
        TextEnd::Char => wrong_length(1, text),
        TextEnd::Fixed(count) => wrong_length(count, text),
        TextEnd::Resource => None,
    }
}

/// Returns the bytes of a token that is a string.
fn string_in(lexeme: &Lexeme) -> Option<&[u8]>
    ensures { option_map (λ b. b.now) result ≡ spec.string_in (lexeme_of lexeme.now) }
{
    match lexeme {
        Lexeme::Text(bytes) => Some(bytes.as_slice()),
        Lexeme::Hex(bytes) => Some(bytes.as_slice()),
        _ => None,
    }
}

impl<'a> Taker<'a> {
    /// Passes over the name of a number.
    fn take_named_number(
        &mut self,
        constants: &[NamedNumber],
        named: Option<u32>,
    ) -> Result<u32, TakeFault>
        ensures { TakesTo same result (taking_of self.new)
            (spec.integer_by_name (map number_of constants.now) named (taking_of self.old)) }
    {
        let Some(number) = named else {
            return Err(self.refuse(number_needed(constants)));
        };
        self.pass();
        Ok(number)
    }

    /// Passes over characters between single quotes, and returns their number.
    fn take_literal(&mut self, width: Width, bytes: &[u8]) -> Result<u32, TakeFault>
        ensures { TakesTo same result (taking_of self.new)
            (spec.integer_by_literal width.bits bytes.now (taking_of self.old)) }
    {
        if 4 < bytes.len() {
            return Err(self.refuse(ValueFault::LongLiteral));
        }
        let number = number_of(bytes.len() as u8, bytes);
        if power(width.bits) <= number as u64 {
            return Err(self.refuse(ValueFault::NumberOutOfRange(width.bits)));
        }
        self.pass();
        Ok(number)
    }

    /// Passes over what states an integer, and returns its bits.
    fn take_integer_number(&mut self, integer: &Integer) -> Result<u32, TakeFault>
        ensures { TakesTo same result (taking_of self.new) (spec.integer_by integer.now.width.bits
            integer.now.form (map number_of integer.now.constants.items)
            (lexeme (taking_of self.old)) (taking_of self.old)) }
    {
        let constants = integer.constants.as_slice();
        match self.bare() {
            [
                Token {
                    lexeme: Lexeme::Word(word),
                    ..
                },
                ..
            ] => {
                let named = number_named(integer.form, constants, word.as_slice());
                self.take_named_number(constants, named)
            }
            [
                Token {
                    lexeme: Lexeme::Literal(bytes),
                    ..
                },
                ..
            ] => self.take_literal(integer.width, bytes.as_slice()),
            _ => self.take_number(integer.width, number_needed(constants)),
        }
    }

    /// Takes an integer.
    #[tactic(auto, unfolding(crate::specs::Stating::integer_taken))]
    fn take_integer(&mut self, integer: &Integer) -> Result<(), TakeFault>
        ensures { Takes result (taking_of self.new) (spec.integer_taken integer.now.width.bits
            integer.now.form (map number_of integer.now.constants.items) (taking_of self.old)) }
    {
        self.separate(ValueFault::SeparatorNeeded)?;
        let number = self.take_integer_number(integer)?;
        self.put(Value::Number(number))
    }

    /// Notes where a count stands, whose number is put there later.
    #[tactic(auto, unfolding(crate::specs::Stating::count_taken))]
    fn take_count(&mut self, count: Count) -> Result<(), TakeFault>
        ensures { Takes result (taking_of self.new)
            (spec.count_taken count.width.bits (taking_of self.old)) }
    {
        let place = self.values.len();
        self.put(Value::Count(0))?;
        self.counts.push(CountPlace {
            place,
            width: count.width,
        })?;
        Ok(())
    }

    /// Takes a fill of bits.
    #[tactic(auto, unfolding(crate::specs::Stating::fill_bits_taken))]
    fn take_fill_bits(&mut self, width: Width) -> Result<(), TakeFault>
        ensures { Takes result (taking_of self.new)
            (spec.fill_bits_taken width.bits (taking_of self.old)) }
    {
        let Some(bytes) = fill_bits_at(width, self.tokens) else {
            return self.put(Value::Number(0));
        };
        self.pass_one();
        self.put(Value::Number(number_of(bytes.len() as u8, bytes)))
    }

    /// Takes a part of a run.
    fn take_part(&mut self, part: &Part) -> Result<(), TakeFault>
        ensures { Takes result (taking_of self.new)
            (spec.part_taken (part_of part.now) (taking_of self.old)) }
    {
        match part {
            Part::Integer(integer) => self.take_integer(integer),
            Part::Constant(_) => Ok(()),
            Part::Count(count) => self.take_count(*count),
            Part::Fill(width) => self.take_fill_bits(*width),
        }
    }

    /// Takes the parts of a run in turn.
    pub fn take_parts(&mut self, parts: &[Part]) -> Result<(), TakeFault>
        ensures { Takes result (taking_of self.new)
            (spec.parts_taken (map part_of parts.now) (taking_of self.old)) }
    {
        for part in parts {
            self.take_part(part)?;
        }
        Ok(())
    }

    /// Takes the bytes of a fill or an alignment, which are the very next token.
    fn take_filled(&mut self, bytes: &[u8]) -> Result<(), TakeFault>
        ensures { Takes result (taking_of self.new)
            (put (value.Filled bytes.now) (past (taking_of self.old))) }
    {
        let bytes = Vec::from_slice(self.alloc, bytes)?;
        self.pass_one();
        self.put(Value::Filled(bytes))
    }

    /// Adds the value of a fill of so many bytes of 0.
    fn put_zeros(&mut self, count: usize) -> Result<(), TakeFault>
        ensures { Takes result (taking_of self.new)
            (put (value.Filled (replicate count 0)) (taking_of self.old)) }
    {
        let mut zeros = Vec::new(self.alloc);
        zeros.resize(count, 0)?;
        self.put(Value::Filled(zeros))
    }

    /// Takes a fill of so many bytes.
    #[tactic(auto, unfolding(crate::specs::Stating::fill_taken))]
    pub fn take_fill(&mut self, count: usize) -> Result<(), TakeFault>
        ensures { Takes result (taking_of self.new) (spec.fill_taken count (taking_of self.old)) }
    {
        match fill_at(count, self.tokens) {
            Some(bytes) => self.take_filled(bytes),
            None => self.put_zeros(count),
        }
    }

    /// Takes an alignment.
    #[tactic(auto, unfolding(crate::specs::Stating::align_taken))]
    pub fn take_alignment(&mut self, boundary: Boundary) -> Result<(), TakeFault>
        ensures { Takes result (taking_of self.new)
            (spec.align_taken boundary (taking_of self.old)) }
    {
        match alignment_at(boundary, self.tokens) {
            Some(bytes) => self.take_filled(bytes),
            None => self.put(Value::Filled(Vec::new(self.alloc))),
        }
    }

    /// Returns the bytes of the next token, if it is a string.
    fn string(&self) -> Option<&'a [u8]>
        ensures { option_map (λ b. b.now) result ≡ spec.string_in (lexeme (taking_of self.now)) }
    {
        match self.bare() {
            [token, ..] => string_in(&token.lexeme),
            _ => None,
        }
    }

    /// Passes over strings side by side, and returns them as one.
    #[tactic(auto, using(crate::proofs::Turns::strings_turn))]
    fn take_strings(&mut self) -> Result<Vec<u8>, TakeFault>
        ensures { TakesTo bytes_in result (taking_of self.new)
            (Ok (spec.strings_on (length self.old.tokens.now) [] (taking_of self.old))) }
    {
        let mut text = Vec::new(self.alloc);
        let most = self.tokens.len();
        for i in 0..most {
            let Some(more) = self.string() else {
                return Ok(text);
            };
            text.extend_from_slice(more)?;
            self.pass();
        }
        Ok(text)
    }

    /// Passes over the name of a string, and returns the string.
    fn take_named_text(
        &mut self,
        constants: &[NamedText],
        named: Option<&[u8]>,
    ) -> Result<Vec<u8>, TakeFault>
        ensures { TakesTo bytes_in result (taking_of self.new)
            (spec.text_by_name (map text_of constants.now) (option_map (λ b. b.now) named.entry)
            (taking_of self.old)) }
    {
        let Some(text) = named else {
            return Err(self.refuse(text_needed(constants)));
        };
        let text = Vec::from_slice(self.alloc, text)?;
        self.pass();
        Ok(text)
    }

    /// Passes over what states a string, and returns its bytes.
    fn take_text_bytes(&mut self, constants: &[NamedText]) -> Result<Vec<u8>, TakeFault>
        ensures { TakesTo bytes_in result (taking_of self.new) (spec.text_by
            (map text_of constants.now) (lexeme (taking_of self.old)) (taking_of self.old)) }
    {
        match self.bare() {
            [
                Token {
                    lexeme: Lexeme::Word(word),
                    ..
                },
                ..
            ] => {
                let named = text_named(word.as_slice(), constants);
                self.take_named_text(constants, named)
            }
            [
                Token {
                    lexeme: Lexeme::Text(_) | Lexeme::Hex(_),
                    ..
                },
                ..
            ] => self.take_strings(),
            _ => Err(self.refuse(text_needed(constants))),
        }
    }

    /// Takes a string.
    #[tactic(auto, unfolding(crate::specs::Stating::text_taken))]
    pub fn take_text(&mut self, text: &Text) -> Result<(), TakeFault>
        ensures { Takes result (taking_of self.new) (spec.text_taken text.now.end
            (map text_of text.now.constants.items) (taking_of self.old)) }
    {
        self.separate(ValueFault::SeparatorNeeded)?;
        let mut here = self.fault(ValueFault::StringNeeded);
        let bytes = self.take_text_bytes(text.constants.as_slice())?;
        if let Some(kind) = wrong_text(text.end, bytes.as_slice()) {
            here.kind = kind;
            return Err(TakeFault::Wrong(here));
        }
        self.put(Value::Text(bytes))
    }

    /// Takes so many coordinates.
    #[tactic(auto, using(crate::proofs::Turns::coordinates_on))]
    fn take_coordinates(&mut self, kind: ValueFault, count: u8) -> Result<(), TakeFault>
        ensures { Takes result (taking_of self.new)
            (spec.coordinates_taken kind count (taking_of self.old)) }
    {
        for i in 0..count {
            self.separate(kind)?;
            let number = self.take_number(COORDINATE, kind)?;
            self.put(Value::Number(number))?;
        }
        Ok(())
    }

    /// Takes a point or a rectangle, by the number of its coordinates.
    #[tactic(auto, unfolding(crate::specs::Stating::corners_taken))]
    pub fn take_corners(&mut self, kind: ValueFault, count: u8) -> Result<(), TakeFault>
        ensures { Takes result (taking_of self.new)
            (spec.corners_taken kind count (taking_of self.old)) }
    {
        self.separate(ValueFault::SeparatorNeeded)?;
        self.open(kind)?;
        self.take_coordinates(kind, count)?;
        self.close(kind)
    }
}

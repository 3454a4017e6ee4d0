//! The fields of a declaration, read from its tokens.

ghost use Rattle.std.specs.Prelude.{◌≡◌, ◌≤◌, [], IfSome, Ok, length, option_map};
ghost use Rattle.rez_types.specs.Leads.{same, flag, bytes_in};
ghost use Rattle.rez_types.specs.View.{number_of, text_of, part_of, field_of};
ghost use Rattle.rez_declarations.specs.Drafts.{draft_of};
ghost use Rattle.rez_declarations.specs.Parses.{Parses, ParsesTo, Reads, RefusesDraft, parsing_of};
ghost use Rattle.rez_declarations.specs.Parses.{numbers_in, texts_in};
ghost use Rattle.rez_declarations.specs.Drafting.{with_part, with_fill};
ghost use Rattle.rez_declarations.specs.Parsing.{lexeme};
ghost use Rattle.rez_declarations.specs.Declaring as spec;

use crate::drafting::{BlockDraft, DraftFault};
use crate::modified::Modified;
use crate::parser::Parser;
use crate::twins::is_name;
use crate::type_fault::{FaultKind, ReadFault};
use rez_tokens::{Lexeme, Token};
use rez_types::{
    Boundary, Constant, Count, Field, Integer, NamedNumber, NamedText, Part, Text, TextEnd, Width,
    power,
};

/// How many named constants a field has at most.
const MOST_CONSTANTS: usize = 256;

impl<'a> Parser<'a> {
    /// Returns the fault of a field that can't stand here.
    pub fn refuse_draft(&self, fault: DraftFault) -> ReadFault
        ensures { RefusesDraft result fault (parsing_of self.now) }
    {
        match fault {
            DraftFault::Unsound(kind) => self.refuse(FaultKind::Unsound(kind)),
            DraftFault::HostMemory => ReadFault::HostMemory,
        }
    }

    /// Passes over the value of a named constant: after `=`, or one more than that of the one
    /// before it.
    #[tactic(auto, unfolding(crate::specs::Declaring::pattern_named))]
    fn take_pattern(&mut self, width: Width, following: u64) -> Result<u32, ReadFault>
        ensures { ParsesTo same result (parsing_of self.new)
            (spec.pattern_named width.bits following (parsing_of self.old)) }
    {
        if self.is_mark(b'=') {
            self.pass();
            return self.take_constant(width);
        }
        if power(width.bits) <= following {
            return Err(self.refuse(FaultKind::ConstantOutOfRange));
        }
        Ok(following as u32)
    }

    /// Passes over a named constant.
    #[tactic(auto, unfolding(crate::specs::Declaring::number_named))]
    fn take_named_number(&mut self, width: Width, following: u64) -> Result<NamedNumber, ReadFault>
        ensures { ParsesTo number_of result (parsing_of self.new)
            (spec.number_named width.bits following (parsing_of self.old)) }
    {
        let name = self.take_name()?;
        let pattern = self.take_pattern(width, following)?;
        Ok(NamedNumber { name, pattern })
    }

    /// Passes over named constants, with commas between them.
    #[tactic(auto, using(crate::proofs::Readings::numbers_on, crate::proofs::Readings::numbers_end))]
    fn take_numbers(&mut self, width: Width) -> Result<Vec<NamedNumber>, ReadFault>
        ensures { ParsesTo numbers_in result (parsing_of self.new)
            (spec.numbers_named 256 width.bits 0 [] (parsing_of self.old)) }
    {
        let mut constants = Vec::new(self.alloc);
        let mut following: u64 = 0;
        for i in 0..MOST_CONSTANTS {
            let number = self.take_named_number(width, following)?;
            following = number.pattern as u64 + 1;
            constants.push(number)?;
            if !self.is_mark(b',') {
                return Ok(constants);
            }
            self.pass();
        }
        Err(self.refuse(FaultKind::ManyConstants))
    }

    /// Passes over the named constants of an integer, where it has some.
    #[tactic(auto, unfolding(crate::specs::Declaring::numbers_of))]
    fn take_constants(&mut self, width: Width) -> Result<Vec<NamedNumber>, ReadFault>
        ensures { ParsesTo numbers_in result (parsing_of self.new)
            (spec.numbers_of width.bits (parsing_of self.old)) }
    {
        match self.word() {
            Some(_) => self.take_numbers(width),
            None => Ok(Vec::new(self.alloc)),
        }
    }

    /// Returns the bytes of the next token, if it is a string.
    fn string(&self) -> Option<&'a [u8]>
        ensures { option_map (λ w. w.now) result ≡ spec.string_part (lexeme (parsing_of self.now)) }
    {
        match self.tokens {
            [
                Token {
                    lexeme: Lexeme::Text(text),
                    ..
                },
                ..
            ] => Some(text.as_slice()),
            [
                Token {
                    lexeme: Lexeme::Hex(text),
                    ..
                },
                ..
            ] => Some(text.as_slice()),
            _ => None,
        }
    }

    /// Passes over the strings that follow one another, and returns them as one.
    #[tactic(auto, using(crate::proofs::Readings::strings_on))]
    fn take_strings(&mut self) -> Result<Vec<u8>, ReadFault>
        ensures { ParsesTo bytes_in result (parsing_of self.new)
            (Ok (spec.string_on (length (parsing_of self.old).tokens) [] (parsing_of self.old))) }
    {
        let mut text = Vec::new(self.alloc);
        let most = self.tokens.len();
        for i in 0..most {
            let Some(more) = self.string() else {
                return Ok(text);
            };
            text.extend_from_slice(more)?;
            self.pass();
        }
        Ok(text)
    }

    /// Passes over the strings that follow one another, one at least, and returns them as one.
    #[tactic(auto, unfolding(crate::specs::Declaring::string_in))]
    fn take_string(&mut self) -> Result<Vec<u8>, ReadFault>
        ensures { ParsesTo bytes_in result (parsing_of self.new)
            (spec.string_in (parsing_of self.old)) }
    {
        match self.string() {
            Some(_) => self.take_strings(),
            None => Err(self.refuse(FaultKind::StringNeeded)),
        }
    }

    /// Passes over a named string.
    #[tactic(auto, unfolding(crate::specs::Declaring::text_named))]
    fn take_named_text(&mut self) -> Result<NamedText, ReadFault>
        ensures { ParsesTo text_of result (parsing_of self.new)
            (spec.text_named (parsing_of self.old)) }
    {
        let name = self.take_name()?;
        self.take_mark(b'=', FaultKind::StringNeeded)?;
        let text = self.take_string()?;
        Ok(NamedText { name, text })
    }

    /// Passes over named strings, with commas between them.
    #[tactic(auto, using(crate::proofs::Readings::texts_on, crate::proofs::Readings::texts_end))]
    fn take_texts(&mut self) -> Result<Vec<NamedText>, ReadFault>
        ensures { ParsesTo texts_in result (parsing_of self.new)
            (spec.texts_named 256 [] (parsing_of self.old)) }
    {
        let mut constants = Vec::new(self.alloc);
        for i in 0..MOST_CONSTANTS {
            let text = self.take_named_text()?;
            constants.push(text)?;
            if !self.is_mark(b',') {
                return Ok(constants);
            }
            self.pass();
        }
        Err(self.refuse(FaultKind::ManyConstants))
    }

    /// Passes over the named strings of a string, where it has some.
    #[tactic(auto, unfolding(crate::specs::Declaring::texts_of))]
    fn take_named_texts(&mut self) -> Result<Vec<NamedText>, ReadFault>
        ensures { ParsesTo texts_in result (parsing_of self.new)
            (spec.texts_of (parsing_of self.old)) }
    {
        match self.word() {
            Some(_) => self.take_texts(),
            None => Ok(Vec::new(self.alloc)),
        }
    }

    /// Passes over the name of an array, in parentheses.
    #[tactic(auto, unfolding(crate::specs::Declaring::name_in_parentheses))]
    fn take_array_name(&mut self) -> Result<Vec<u8>, ReadFault>
        ensures { ParsesTo bytes_in result (parsing_of self.new)
            (spec.name_in_parentheses (parsing_of self.old)) }
    {
        self.take_mark(b'(', FaultKind::ParenthesisNeeded)?;
        let name = self.take_name()?;
        self.take_mark(b')', FaultKind::ParenthesisNeeded)?;
        Ok(name)
    }

    /// Passes over `- 1`, where it stands, and reports whether it does.
    #[tactic(auto, unfolding(crate::specs::Declaring::less_one))]
    fn take_less_one(&mut self) -> Result<bool, ReadFault>
        ensures { ParsesTo flag result (parsing_of self.new) (spec.less_one (parsing_of self.old)) }
    {
        if !self.is_mark(b'-') {
            return Ok(false);
        }
        self.pass();
        self.take_between(1, 1, FaultKind::OneNeeded)?;
        Ok(true)
    }

    /// Adds a part of a run.
    fn add_part(&mut self, draft: &mut BlockDraft, part: Part) -> Result<(), ReadFault>
        ensures { Reads result (draft_of draft.new) (parsing_of self.new) (spec.drafted_at
            (with_part (part_of part) (draft_of draft.old)) (parsing_of self.old)) }
    {
        match draft.add_part(part) {
            Ok(()) => Ok(()),
            Err(fault) => Err(self.refuse_draft(fault)),
        }
    }

    /// Adds a field that is no part of a run.
    pub fn add_field(&mut self, draft: &mut BlockDraft, field: Field) -> Result<(), ReadFault>
        ensures { Reads result (draft_of draft.new) (parsing_of self.new)
            (spec.field_drafted (field_of field) (draft_of draft.old) (parsing_of self.old)) }
    {
        match draft.check_whole() {
            Ok(()) => {}
            Err(fault) => return Err(self.refuse_draft(fault)),
        }
        match draft.add(field) {
            Ok(()) => Ok(()),
            Err(fault) => Err(self.refuse_draft(fault)),
        }
    }

    /// Reads a count, after `=`.
    #[tactic(auto, unfolding(crate::specs::Declaring::count_read))]
    fn read_count(
        &mut self,
        draft: &mut BlockDraft,
        width: Width,
        function: &[u8],
    ) -> Result<(), ReadFault>
        ensures { Reads result (draft_of draft.new) (parsing_of self.new)
            (spec.count_read width.bits function.now (draft_of draft.old) (parsing_of self.old)) }
    {
        if !is_name(function, b"CountOf") {
            return Err(self.refuse(FaultKind::CountOfNeeded));
        }
        self.pass();
        let name = self.take_array_name()?;
        let is_less_one = self.take_less_one()?;
        match draft.add_count(name, Count { width, is_less_one }) {
            Ok(()) => Ok(()),
            Err(fault) => Err(self.refuse_draft(fault)),
        }
    }

    /// Reads what stands after `=`: a count, or a constant.
    fn read_fixed(
        &mut self,
        draft: &mut BlockDraft,
        width: Width,
        is_key: bool,
    ) -> Result<(), ReadFault>
        ensures { Reads result (draft_of draft.new) (parsing_of self.new)
            (spec.fixed_read (lexeme (parsing_of self.old)) width.bits is_key (draft_of draft.old)
            (parsing_of self.old)) }
    {
        if let [
            Token {
                lexeme: Lexeme::Function(function),
                ..
            },
            ..
        ] = self.tokens
        {
            return self.read_count(draft, width, function.as_slice());
        }
        let pattern = self.take_constant(width)?;
        let constant = Constant {
            width,
            pattern,
            is_key,
        };
        self.add_part(draft, Part::Constant(constant))
    }

    /// Reads an integer of so many bits.
    #[tactic(auto, unfolding(crate::specs::Declaring::integer_read))]
    pub fn read_integer(
        &mut self,
        draft: &mut BlockDraft,
        modified: Modified,
        width: Width,
    ) -> Result<(), ReadFault>
        ensures { Reads result (draft_of draft.new) (parsing_of self.new)
            (spec.integer_read modified width.bits (draft_of draft.old) (parsing_of self.old)) }
    {
        if self.is_mark(b'=') {
            self.pass();
            return self.read_fixed(draft, width, modified.is_key);
        }
        if modified.is_key {
            return Err(self.refuse(FaultKind::KeyNeeded));
        }
        let constants = self.take_constants(width)?;
        let integer = Integer {
            width,
            form: modified.form,
            constants,
        };
        self.add_part(draft, Part::Integer(integer))
    }

    /// Reads a string that ends so, with its named constants.
    #[tactic(auto, unfolding(crate::specs::Declaring::text_read))]
    pub fn read_text(
        &mut self,
        draft: &mut BlockDraft,
        end: TextEnd,
        is_hex: bool,
    ) -> Result<(), ReadFault>
        ensures { Reads result (draft_of draft.new) (parsing_of self.new)
            (spec.text_read end is_hex (draft_of draft.old) (parsing_of self.old)) }
    {
        let constants = self.take_named_texts()?;
        let text = Text {
            end,
            is_hex,
            constants,
        };
        self.add_field(draft, Field::Text(text))
    }

    /// Reads a string of so many bytes, or up to the end of the resource.
    #[tactic(auto, unfolding(crate::specs::Declaring::string_read))]
    pub fn read_string(&mut self, draft: &mut BlockDraft, is_hex: bool) -> Result<(), ReadFault>
        ensures { Reads result (draft_of draft.new) (parsing_of self.new)
            (spec.string_read is_hex (draft_of draft.old) (parsing_of self.old)) }
    {
        if !self.is_mark(b'[') {
            return self.read_text(draft, TextEnd::Resource, is_hex);
        }
        let count = self.take_bracketed(65_535, FaultKind::LengthOutOfRange)?;
        self.read_text(draft, TextEnd::Fixed(count as u16), is_hex)
    }

    /// Adds a fill of so many bits.
    fn add_fill(&mut self, draft: &mut BlockDraft, bits: u32) -> Result<(), ReadFault>
        ensures { Reads result (draft_of draft.new) (parsing_of self.new)
            (spec.drafted_at (with_fill bits (draft_of draft.old)) (parsing_of self.old)) }
    {
        match draft.add_fill(bits) {
            Ok(()) => Ok(()),
            Err(fault) => Err(self.refuse_draft(fault)),
        }
    }

    /// Reads a fill, after the word `fill`.
    #[tactic(auto, unfolding(crate::specs::Declaring::fill_read))]
    pub fn read_fill(&mut self, draft: &mut BlockDraft) -> Result<(), ReadFault>
        ensures { Reads result (draft_of draft.new) (parsing_of self.new)
            (spec.fill_read (draft_of draft.old) (parsing_of self.old)) }
    {
        let Some(bits) = self.unit() else {
            return Err(self.refuse(FaultKind::UnitNeeded));
        };
        self.pass();
        if !self.is_mark(b'[') {
            return self.add_fill(draft, bits);
        }
        let count = self.take_bracketed(65_535, FaultKind::LengthOutOfRange)?;
        self.add_fill(draft, bits * count)
    }

    /// Returns the bits of a unit of a fill, if the next token is one.
    fn unit(&self) -> Option<u32>
        ensures unit { result ≡ spec.unit_in (lexeme (parsing_of self.now)) }
        ensures small { IfSome result (λ bits. bits ≤ 32) }
    {
        let word = self.word()?;
        if is_name(word, b"bit") {
            Some(1)
        } else if is_name(word, b"nibble") {
            Some(4)
        } else if is_name(word, b"byte") {
            Some(8)
        } else if is_name(word, b"word") {
            Some(16)
        } else if is_name(word, b"long") {
            Some(32)
        } else {
            None
        }
    }

    /// Reads an alignment, after the word `align`.
    #[tactic(auto, unfolding(crate::specs::Declaring::align_read))]
    pub fn read_align(&mut self, draft: &mut BlockDraft) -> Result<(), ReadFault>
        ensures { Reads result (draft_of draft.new) (parsing_of self.new)
            (spec.align_read (draft_of draft.old) (parsing_of self.old)) }
    {
        let boundary = if self.is_word(b"word") {
            Boundary::Word
        } else if self.is_word(b"long") {
            Boundary::Long
        } else {
            return Err(self.refuse(FaultKind::BoundaryNeeded));
        };
        self.pass();
        self.add_field(draft, Field::Align(boundary))
    }
}

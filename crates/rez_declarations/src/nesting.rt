//! Fields that hold others, read from their tokens.

ghost use Rattle.std.specs.Prelude.{◌≡◌, ◌≤◌, length, option_map, IfOk};
ghost use Rattle.rez_types.specs.Leads.{bytes_in};
ghost use Rattle.rez_types.specs.View.{place_of, fields_of};
ghost use Rattle.rez_declarations.specs.Drafts.{draft_of};
ghost use Rattle.rez_declarations.specs.Parses.{Parses, ParsesTo, Reads, parsing_of, fields_held};
ghost use Rattle.rez_declarations.specs.Parses.{cases_of, same_size};
ghost use Rattle.rez_declarations.specs.Parsing.{lexeme};
ghost use Rattle.rez_declarations.specs.Declaring as spec;

use crate::drafting::{BlockDraft, WaitingArray};
use crate::keys::key_of;
use crate::keyword::{Kind, Modifier};
use crate::modified::Modified;
use crate::parser::Parser;
use crate::twins::is_name;
use crate::type_fault::{FaultKind, ReadFault};
use crate::unsound::Unsound;
use rez_types::{Block, Case, Field, Form, KeyPlace, Switch, TextEnd, Width};

/// How many fields a declaration has at most.
const MOST_FIELDS: usize = 512;

/// How many words may stand before the word of a field.
const MOST_MODIFIERS: usize = 4;

/// The cases of a switch so far.
#[derive(Drop)]
pub(crate) struct SwitchDraft {
    /// Where their keys stand.
    pub place: Option<KeyPlace>,
    pub cases: Vec<Case>,
}

/// Returns what a word before the word of a field is, if it is one.
fn modifier_of(word: &[u8]) -> Option<Modifier>
    ensures { result ≡ spec.modifier_of word.now }
{
    if is_name(word, b"key") {
        Some(Modifier::Key)
    } else if is_name(word, b"unsigned") {
        Some(Modifier::Unsigned)
    } else if is_name(word, b"decimal") {
        Some(Modifier::Decimal)
    } else if is_name(word, b"hex") {
        Some(Modifier::Hex)
    } else if is_name(word, b"binary") {
        Some(Modifier::Binary)
    } else if is_name(word, b"literal") {
        Some(Modifier::Literal)
    } else if is_name(word, b"wide") {
        Some(Modifier::Wide)
    } else {
        None
    }
}

/// Returns what the word of an integer is, if it is one.
fn integer_kind(word: &[u8]) -> Option<Kind>
    ensures { result ≡ spec.integer_kind word.now }
{
    if is_name(word, b"boolean") {
        Some(Kind::Boolean)
    } else if is_name(word, b"bitstring") {
        Some(Kind::Bitstring)
    } else if is_name(word, b"byte") {
        Some(Kind::Byte)
    } else if is_name(word, b"integer") {
        Some(Kind::Integer)
    } else if is_name(word, b"longint") {
        Some(Kind::Longint)
    } else {
        None
    }
}

/// Returns what the word of a string is, if it is one.
fn text_kind(word: &[u8]) -> Option<Kind>
    ensures { result ≡ spec.text_kind word.now }
{
    if is_name(word, b"pstring") {
        Some(Kind::Pstring)
    } else if is_name(word, b"cstring") {
        Some(Kind::Cstring)
    } else if is_name(word, b"string") {
        Some(Kind::String)
    } else if is_name(word, b"char") {
        Some(Kind::Char)
    } else {
        None
    }
}

/// Returns what the word of any other field is, if it is one.
fn other_kind(word: &[u8]) -> Option<Kind>
    ensures { result ≡ spec.other_kind word.now }
{
    if is_name(word, b"point") {
        Some(Kind::Point)
    } else if is_name(word, b"rect") {
        Some(Kind::Rect)
    } else if is_name(word, b"fill") {
        Some(Kind::Fill)
    } else if is_name(word, b"align") {
        Some(Kind::Align)
    } else if is_name(word, b"array") {
        Some(Kind::Array)
    } else if is_name(word, b"switch") {
        Some(Kind::Switch)
    } else {
        None
    }
}

/// Returns what the word of a field is, if it is one.
fn kind_of(word: &[u8]) -> Option<Kind>
    ensures { result ≡ spec.kind_of word.now }
{
    if let Some(kind) = integer_kind(word) {
        return Some(kind);
    }
    if let Some(kind) = text_kind(word) {
        return Some(kind);
    }
    other_kind(word)
}

impl Modified {
    /// Returns what a field is with one more word before its own.
    fn with(self, modifier: Modifier) -> Modified
        ensures { result ≡ spec.with_modifier modifier self }
    {
        match modifier {
            Modifier::Key => Modified {
                is_key: true,
                ..self
            },
            Modifier::Unsigned => Modified {
                form: unsigned(self.form),
                ..self
            },
            Modifier::Decimal => self,
            Modifier::Hex => Modified {
                form: Form::Hex,
                ..self
            },
            Modifier::Binary => Modified {
                form: Form::Binary,
                ..self
            },
            Modifier::Literal => Modified {
                form: Form::Literal,
                ..self
            },
            Modifier::Wide => self,
        }
    }
}

/// Returns the form of an unsigned integer.
fn unsigned(form: Form) -> Form
    ensures { result ≡ spec.unsigned form }
{
    match form {
        Form::Signed => Form::Unsigned,
        form => form,
    }
}

/// Reports whether a form is hexadecimal.
fn is_hex(form: Form) -> bool
    ensures { result ≡ spec.is_hex form }
{
    matches!(form, Form::Hex)
}

impl<'a> Parser<'a> {
    /// Returns what the next token is, if it stands before the word of a field.
    fn next_modifier(&self) -> Option<Modifier>
        ensures { result ≡ spec.modifier_in (lexeme (parsing_of self.now)) }
    {
        match self.word() {
            Some(word) => modifier_of(word),
            None => None,
        }
    }

    /// Returns what the next token is, if it is the word of a field.
    fn next_kind(&self) -> Option<Kind>
        ensures { result ≡ spec.kind_in (lexeme (parsing_of self.now)) }
    {
        match self.word() {
            Some(word) => kind_of(word),
            None => None,
        }
    }

    /// Passes over the words before the word of a field.
    #[tactic(auto, using(crate::proofs::Readings::modifiers_on))]
    fn take_modifiers(&mut self) -> Modified
        ensures { spec.modified 4 spec.plain (parsing_of self.old) ≡ (result, parsing_of self.new) }
    {
        let mut modified = Modified {
            is_key: false,
            form: Form::Signed,
        };
        for i in 0..MOST_MODIFIERS {
            let Some(modifier) = self.next_modifier() else {
                return modified;
            };
            modified = modified.with(modifier);
            self.pass();
        }
        modified
    }

    /// Counts one more field.
    fn count_field(&mut self) -> Result<(), ReadFault>
        ensures { Parses result (parsing_of self.new) (spec.one_field (parsing_of self.old)) }
    {
        if MOST_FIELDS <= self.fields {
            return Err(self.refuse(FaultKind::Unsound(Unsound::ManyFields)));
        }
        self.fields += 1;
        Ok(())
    }

    /// Passes over the name of an array, where it has one, and returns it.
    fn take_optional_name(&mut self) -> Result<Vec<u8>, ReadFault>
        ensures { ParsesTo bytes_in result (parsing_of self.new)
            (spec.name_before (parsing_of self.old)) }
    {
        match self.word() {
            Some(_) => self.take_name(),
            None => Ok(Vec::new(self.alloc)),
        }
    }

    /// Passes over the length of an array in brackets, where it has one, and returns it.
    fn take_length(&mut self) -> Result<Option<u16>, ReadFault>
        ensures { ParsesTo same_size result (parsing_of self.new)
            (spec.length_before (parsing_of self.old)) }
    {
        if !self.is_mark(b'[') {
            return Ok(None);
        }
        let count = self.take_bracketed(65_535, FaultKind::LengthOutOfRange)?;
        Ok(Some(count as u16))
    }

    /// Reports whether fields end before the next token.
    fn do_fields_end(&self, is_case: bool) -> bool
        ensures { result ≡ spec.ends_here is_case (parsing_of self.now) }
    {
        self.is_mark(b'}') || (is_case && self.is_word(b"case"))
    }

    /// Reads a bit string of as many bits as stand in brackets.
    #[tactic(auto, unfolding(crate::specs::Declaring::bitstring_read))]
    fn read_bitstring(
        &mut self,
        draft: &mut BlockDraft,
        modified: Modified,
    ) -> Result<(), ReadFault>
        ensures { Reads result (draft_of draft.new) (parsing_of self.new)
            (spec.bitstring_read modified (draft_of draft.old) (parsing_of self.old)) }
    {
        let bits = self.take_bracketed(32, FaultKind::BitsOutOfRange)?;
        self.read_integer(draft, modified, Width { bits: bits as u8 })
    }

    /// Adds a case with a name and fields. All keys stand where that of the first case stands.
    fn add_case(
        &mut self,
        switch: &mut SwitchDraft,
        name: Vec<u8>,
        fields: Vec<Field>,
    ) -> Result<(), ReadFault>
        ensures { Reads result (cases_of switch.new) (parsing_of self.new) (spec.case_named
            name.items (fields_of fields.items) (cases_of switch.old) (parsing_of self.old)) }
    {
        let Some(key) = key_of(fields.as_slice()) else {
            return Err(self.refuse(FaultKind::Unsound(Unsound::NoKey)));
        };
        let block = self.blocks.len();
        self.blocks.push(Block { fields })?;
        let pattern = key.pattern;
        switch.cases.push(Case {
            name,
            pattern,
            block,
        })?;
        if switch.place.is_none() {
            switch.place = Some(key.place);
        }
        Ok(())
    }

    /// Adds an array whose elements have fields.
    fn add_array(
        &mut self,
        draft: &mut BlockDraft,
        length: Option<u16>,
        name: Vec<u8>,
        fields: Vec<Field>,
    ) -> Result<(), ReadFault>
        ensures { Reads result (draft_of draft.new) (parsing_of self.new)
            (spec.array_with (same_size length) name.items (fields_of fields.items)
            (draft_of draft.old) (parsing_of self.old)) }
    {
        let block = self.blocks.len();
        self.blocks.push(Block { fields })?;
        match draft.add_array(length, WaitingArray { name, block }) {
            Ok(()) => Ok(()),
            Err(fault) => Err(self.refuse_draft(fault)),
        }
    }

    /// Reads the fields of a declaration, of an array's elements or of a case.
    #[cycle(read)]
    #[tactic(auto, using(crate::proofs::Readings::deeper_on))]
    pub fn read_fields(&mut self, depth: u8, is_case: bool) -> Result<Vec<Field>, ReadFault>
        ensures { ParsesTo fields_held result (parsing_of self.new)
            (spec.fields_in depth is_case (parsing_of self.old)) }
    {
        if depth == 0 {
            return Err(self.refuse(FaultKind::Unsound(Unsound::TooDeep)));
        }
        let mut draft = BlockDraft::new(self.alloc);
        self.read_each(depth - 1, is_case, &mut draft)?;
        match draft.close() {
            Ok(fields) => Ok(fields),
            Err(fault) => Err(self.refuse_draft(fault)),
        }
    }

    /// Reads fields in turn.
    #[cycle(read)]
    #[tactic(auto, using(crate::proofs::Readings::fields_on))]
    fn read_each(
        &mut self,
        depth: u8,
        is_case: bool,
        draft: &mut BlockDraft,
    ) -> Result<(), ReadFault>
        ensures { Reads result (draft_of draft.new) (parsing_of self.new)
            (spec.fields_read (spec.fields_in depth) (length (parsing_of self.old).tokens) is_case
            (draft_of draft.old) (parsing_of self.old)) }
    {
        let most = self.tokens.len();
        for i in 0..most {
            if self.do_fields_end(is_case) {
                return Ok(());
            }
            self.read_field(depth, draft)?;
        }
        Err(self.refuse(FaultKind::FieldNeeded))
    }

    /// Reads a field, and its semicolon.
    #[cycle(read)]
    #[tactic(auto, unfolding(crate::specs::Declaring::field_read))]
    fn read_field(&mut self, depth: u8, draft: &mut BlockDraft) -> Result<(), ReadFault>
        ensures { Reads result (draft_of draft.new) (parsing_of self.new)
            (spec.field_read (spec.fields_in depth) (draft_of draft.old) (parsing_of self.old)) }
    {
        self.count_field()?;
        let modified = self.take_modifiers();
        let Some(kind) = self.next_kind() else {
            return Err(self.refuse(FaultKind::FieldNeeded));
        };
        self.pass();
        self.read_kind(depth, modified, kind, draft)?;
        self.take_mark(b';', FaultKind::SemicolonNeeded)
    }

    /// Reads a field after its word.
    #[cycle(read)]
    fn read_kind(
        &mut self,
        depth: u8,
        modified: Modified,
        kind: Kind,
        draft: &mut BlockDraft,
    ) -> Result<(), ReadFault>
        ensures { Reads result (draft_of draft.new) (parsing_of self.new) (spec.kind_read
            (spec.fields_in depth) modified kind (draft_of draft.old) (parsing_of self.old)) }
    {
        match kind {
            Kind::Boolean => self.read_integer(
                draft,
                Modified {
                    form: Form::Boolean,
                    ..modified
                },
                Width { bits: 1 },
            ),
            Kind::Bitstring => self.read_bitstring(draft, modified),
            Kind::Byte => self.read_integer(draft, modified, Width { bits: 8 }),
            Kind::Integer => self.read_integer(draft, modified, Width { bits: 16 }),
            Kind::Longint => self.read_integer(draft, modified, Width { bits: 32 }),
            Kind::Pstring => self.read_text(draft, TextEnd::Pascal, false),
            Kind::Cstring => self.read_text(draft, TextEnd::C, false),
            Kind::String => self.read_string(draft, is_hex(modified.form)),
            Kind::Char => self.read_text(draft, TextEnd::Char, false),
            Kind::Point => self.add_field(draft, Field::Point),
            Kind::Rect => self.add_field(draft, Field::Rect),
            Kind::Fill => self.read_fill(draft),
            Kind::Align => self.read_align(draft),
            Kind::Array => self.read_array(depth, draft),
            Kind::Switch => self.read_switch(depth, draft),
        }
    }

    /// Reads the fields between braces.
    #[cycle(read)]
    pub fn read_braces(&mut self, depth: u8) -> Result<Vec<Field>, ReadFault>
        ensures { ParsesTo fields_held result (parsing_of self.new)
            (spec.in_braces (spec.fields_in depth) (parsing_of self.old)) }
    {
        self.take_mark(b'{', FaultKind::BraceNeeded)?;
        let fields = self.read_fields(depth, false)?;
        self.take_mark(b'}', FaultKind::FieldNeeded)?;
        Ok(fields)
    }

    /// Reads an array, after the word `array`.
    #[cycle(read)]
    #[tactic(auto, unfolding(crate::specs::Declaring::array_read))]
    fn read_array(&mut self, depth: u8, draft: &mut BlockDraft) -> Result<(), ReadFault>
        ensures { Reads result (draft_of draft.new) (parsing_of self.new)
            (spec.array_read (spec.fields_in depth) (draft_of draft.old) (parsing_of self.old)) }
    {
        let name = self.take_optional_name()?;
        let length = self.take_length()?;
        let fields = self.read_braces(depth)?;
        self.add_array(draft, length, name, fields)
    }

    /// Reads a case, after the word `case`.
    #[cycle(read)]
    #[tactic(auto, unfolding(crate::specs::Declaring::case_read))]
    fn read_case(&mut self, depth: u8, switch: &mut SwitchDraft) -> Result<(), ReadFault>
        ensures { Reads result (cases_of switch.new) (parsing_of self.new)
            (spec.case_read (spec.fields_in depth) (cases_of switch.old) (parsing_of self.old)) }
    {
        let name = self.take_name()?;
        self.take_mark(b':', FaultKind::ColonNeeded)?;
        let fields = self.read_fields(depth, true)?;
        self.add_case(switch, name, fields)
    }

    /// Reads cases up to the closing brace.
    #[cycle(read)]
    #[tactic(auto, using(crate::proofs::Readings::cases_on))]
    fn read_cases(&mut self, depth: u8, switch: &mut SwitchDraft) -> Result<(), ReadFault>
        ensures { Reads result (cases_of switch.new) (parsing_of self.new)
            (spec.cases_read (spec.fields_in depth) (length (parsing_of self.old).tokens)
            (cases_of switch.old) (parsing_of self.old)) }
    {
        let most = self.tokens.len();
        for i in 0..most {
            if self.is_mark(b'}') {
                self.pass();
                return Ok(());
            }
            if !self.is_word(b"case") {
                return Err(self.refuse(FaultKind::CaseNeeded));
            }
            self.pass();
            self.read_case(depth, switch)?;
        }
        Err(self.refuse(FaultKind::CaseNeeded))
    }

    /// Reads a switch, after the word `switch`.
    #[cycle(read)]
    #[tactic(auto, unfolding(crate::specs::Declaring::switch_read))]
    fn read_switch(&mut self, depth: u8, draft: &mut BlockDraft) -> Result<(), ReadFault>
        ensures { Reads result (draft_of draft.new) (parsing_of self.new)
            (spec.switch_read (spec.fields_in depth) (draft_of draft.old) (parsing_of self.old)) }
    {
        self.take_mark(b'{', FaultKind::BraceNeeded)?;
        let mut switch = SwitchDraft {
            place: None,
            cases: Vec::new(self.alloc),
        };
        self.read_cases(depth, &mut switch)?;
        match switch.place {
            Some(key) => self.add_field(
                draft,
                Field::Switch(Switch {
                    key,
                    cases: switch.cases,
                }),
            ),
            None => Err(self.refuse(FaultKind::Unsound(Unsound::NoCase))),
        }
    }
}

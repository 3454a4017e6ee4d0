//! Reading a source byte by byte.

ghost use Rattle.std.specs.Prelude.{◌≡◌, ◌==◌, [], length, Some, None, Ok, Err, OnOk, IfOk, map};
ghost use Rattle.std.specs.Prelude.{slice_get, if◌then◌else◌};
ghost use Rattle.std.specs.List.{position};
ghost use Rattle.byteorder.specs.Endian.{big_number};
ghost use Rattle.rez_text.specs.declared.mode.Place.TheVariants as places;
ghost use Rattle.rez_text.specs.declared.fault.StepFault.TheVariants.{Wrong};
ghost use Rattle.rez_statements.specs.View.{types_of};
ghost use Rattle.rez_text.specs.View.{ref_said, group_said, files_of, names_of};
ghost use Rattle.rez_text.specs.Groups.{is_of};
ghost use Rattle.rez_text.specs.State.{start, state_of, no_ref, Leads, with_ref};
ghost use Rattle.rez_text.specs.State.{in_mode, gather as gathered, come_to as came_to};
ghost use Rattle.rez_text.specs.Tokens.{refused, attribute, needed, with_attributes as attributed};
ghost use Rattle.rez_text.specs.Tokens.{statement_begun, word, type_token, number as number_of};
ghost use Rattle.rez_text.specs.Tokens.{with_id as identified, attributes_in, named, with_data};
ghost use Rattle.rez_text.specs.Tokens.{string, datum, mark, with_statement, form_begun};
ghost use Rattle.rez_text.specs.Tokens.{declaration_begun, type_statement, resource_body, opened};
ghost use Rattle.rez_text.specs.Tokens.{bytes_given, with_file, file_named};

use crate::fault::{FaultKind, FileName, StepFault};
use crate::groups::SourceGroups;
use crate::mode::{Form, Mode, Place};
use crate::name::SourceName;
use crate::scope::Scope;
use crate::source::{Source, SourceGroup, SourceRef};
use crate::words::{attribute_of, no_statement};
use fork_format::kind_of;
use mac_words::OsType;
use rez_statements::Types;
use std::alloc::{AllocError, Global};
use std::collections::BTreeMap;
use std::mem::replace;

/// A reader within a source.
#[derive(Drop)]
pub(crate) struct Reader {
    pub mode: Mode,
    pub place: Place,
    /// The bytes of the token so far.
    pub gathered: Vec<u8>,
    /// The type of the statement so far.
    pub ty: OsType,
    /// The resource of the statement so far.
    pub draft: SourceRef,
    /// The content of the statements before.
    pub source: Source,
    /// The types that are declared before.
    pub types: Types,
    /// The form of the statement.
    pub form: Form,
    /// The bytes of the files that statements `read` take.
    pub files: Vec<Vec<u8>>,
    /// The names of files that statements `read` have stated.
    pub named: Vec<FileName>,
    pub alloc: Global,
}

/// Returns a resource of which nothing is stated yet.
fn no_draft(alloc: Global) -> SourceRef
    ensures { ref_said result ≡ no_ref }
{
    SourceRef {
        id: 0,
        name: None,
        attrs: 0,
        datum: Vec::new(alloc),
    }
}

impl SourceGroups {
    /// Makes groups of no resources.
    fn new(alloc: Global) -> SourceGroups
        ensures { result.list.items ≡ [] }
    {
        SourceGroups {
            list: Vec::new(alloc),
            places: BTreeMap::new(alloc),
        }
    }

    /// Returns the place of the group of a type.
    fn place_of(&self, kind: u32) -> Option<usize>
        ensures { result ≡ position (is_of kind) self.now.list.items }
    {
        self.places.get(&kind).copied()
    }

    /// Adds a resource in a group after all others. The type is new.
    fn open(&mut self, alloc: Global, ty: OsType, resource: SourceRef) -> Result<(), AllocError>
        requires { position (is_of (big_number 4 ty.0)) self.old.list.items ≡ None }
        ensures { OnOk result (map group_said self.new.list.items
            ≡ with_ref (big_number 4 ty.0) (ref_said resource)
            (map group_said self.old.list.items)) }
    {
        let place = self.list.len();
        let mut refs = Vec::new(alloc);
        refs.push(resource)?;
        self.list.push(SourceGroup { ty, refs })?;
        match self.places.insert(kind_of(ty), place) {
            Ok(_) => Ok(()),
            Err(_) => {
                self.list.truncate(place);
                Err(AllocError)
            }
        }
    }

    /// Adds a resource as the last one of its type.
    fn add(&mut self, alloc: Global, ty: OsType, resource: SourceRef) -> Result<(), AllocError>
        ensures { OnOk result (map group_said self.new.list.items
            ≡ with_ref (big_number 4 ty.0) (ref_said resource)
            (map group_said self.old.list.items)) }
    {
        match self.place_of(kind_of(ty)) {
            Some(place) => {
                self.list[place].refs.push(resource)?;
                Ok(())
            }
            None => self.open(alloc, ty, resource),
        }
    }
}

impl Reader {
    /// Makes a reader before the first byte of a text, where types are declared and files are
    /// given.
    pub fn new(alloc: Global, place: Place, types: Types, files: Vec<Vec<u8>>) -> Reader
        ensures { state_of result ≡ start place (types_of types) (files_of files.items) }
    {
        Reader {
            mode: Mode::Between,
            place,
            gathered: Vec::new(alloc),
            ty: OsType([0; 4]),
            draft: no_draft(alloc),
            source: Source {
                area: [0; 240],
                attrs: 0,
                groups: SourceGroups::new(alloc),
            },
            types,
            form: Form::Data,
            files,
            named: Vec::new(alloc),
            alloc,
        }
    }

    /// Returns the fault of a token that may not stand here.
    pub fn refuse(&self) -> StepFault
        ensures { result ≡ Wrong (needed self.now.form self.now.place) }
    {
        StepFault::Wrong(self.place.needed(self.form))
    }

    /// Goes on with another part of a token.
    pub fn go_on(&mut self, mode: Mode)
        ensures { state_of self.new ≡ in_mode mode (state_of self.old) }
    {
        self.mode = mode;
    }

    /// Takes one more byte of a token.
    pub fn gather(&mut self, byte: u8, mode: Mode) -> Result<(), StepFault>
        ensures { Leads result (state_of self.new) (Ok (gathered byte mode (state_of self.old))) }
    {
        self.gathered.push(byte)?;
        self.mode = mode;
        Ok(())
    }

    /// Ends a token, and comes to a place of the statement.
    pub fn come_to(&mut self, place: Place)
        ensures { state_of self.new ≡ came_to place (state_of self.old) }
    {
        self.mode = Mode::Between;
        self.gathered.clear();
        self.place = place;
    }

    /// Adds attributes to those of the resource.
    fn add_attributes(&mut self, bits: u8)
        ensures { Ok (state_of self.new) ≡ attributed (Some bits) (state_of self.old) }
    {
        self.draft.attrs |= bits;
        self.come_to(Place::AfterArgument);
    }

    /// Takes a word as an attribute.
    pub fn take_attribute(&mut self) -> Result<(), StepFault>
        ensures { Leads result (state_of self.new)
            (attributed (attribute self.old.gathered.items) (state_of self.old)) }
    {
        match attribute_of(self.gathered.as_slice()) {
            Some(bits) => {
                self.add_attributes(bits);
                Ok(())
            }
            None => Err(self.refuse()),
        }
    }

    /// Begins a statement of a form.
    fn begin_form(&mut self, form: Form)
        ensures { state_of self.new ≡ form_begun form (state_of self.old) }
    {
        self.form = form;
        self.come_to(Place::Type);
    }

    /// Takes a word with which a statement begins.
    fn begin_statement(&mut self) -> Result<(), StepFault>
        ensures { Leads result (state_of self.new) (statement_begun (state_of self.old)) }
    {
        if self.gathered.as_slice() == b"data".as_slice() {
            self.begin_form(Form::Data);
            Ok(())
        } else if self.gathered.as_slice() == b"resource".as_slice() {
            self.begin_form(Form::Resource);
            Ok(())
        } else if self.gathered.as_slice() == b"read".as_slice() {
            self.begin_form(Form::Read);
            Ok(())
        } else if self.gathered.as_slice() == b"type".as_slice() {
            self.go_on(Mode::Declaring(Scope::OUTSIDE));
            Ok(())
        } else {
            Err(StepFault::Wrong(no_statement(self.gathered.as_slice())))
        }
    }

    /// Takes a word with which a statement begins, where only declarations may stand.
    fn begin_declaration(&mut self) -> Result<(), StepFault>
        ensures { Leads result (state_of self.new) (declaration_begun (state_of self.old)) }
    {
        if self.gathered.as_slice() == b"type".as_slice() {
            self.go_on(Mode::Declaring(Scope::OUTSIDE));
            Ok(())
        } else if self.gathered.as_slice() == b"data".as_slice() {
            Err(StepFault::Wrong(FaultKind::OnlyDeclarations))
        } else if self.gathered.as_slice() == b"resource".as_slice() {
            Err(StepFault::Wrong(FaultKind::OnlyDeclarations))
        } else if self.gathered.as_slice() == b"read".as_slice() {
            Err(StepFault::Wrong(FaultKind::OnlyDeclarations))
        } else {
            Err(StepFault::Wrong(no_statement(self.gathered.as_slice())))
        }
    }

    /// Takes a word.
    #[tactic(auto, unfolding(crate::specs::Tokens::word))]
    pub fn take_word(&mut self) -> Result<(), StepFault>
        ensures { Leads result (state_of self.new) (word (state_of self.old)) }
    {
        match self.place {
            Place::Outside => self.begin_statement(),
            Place::Declaration => self.begin_declaration(),
            Place::NameOrAttribute => self.take_attribute(),
            Place::Attribute => self.take_attribute(),
            _ => Err(self.refuse()),
        }
    }

    /// Takes a type.
    #[tactic(auto, unfolding(crate::specs::Tokens::type_token))]
    pub fn take_type(&mut self) -> Result<(), StepFault>
        ensures { Leads result (state_of self.new) (type_token (state_of self.old)) }
    {
        match (self.place, self.gathered.as_slice()) {
            (Place::Type, [a, b, c, d]) => {
                self.ty = OsType([*a, *b, *c, *d]);
                self.come_to(Place::Parenthesis);
                Ok(())
            }
            _ => Err(self.refuse()),
        }
    }

    /// Takes the ID of a resource.
    pub fn take_id(&mut self, id: i16)
        ensures { state_of self.new ≡ identified id (state_of self.old) }
    {
        self.draft.id = id;
        self.come_to(Place::AfterId);
    }

    /// Takes a number as attributes.
    pub fn take_bits(&mut self, number: u32) -> Result<(), StepFault>
        ensures { Leads result (state_of self.new) (attributes_in number (state_of self.old)) }
    {
        if number > 255 {
            return Err(StepFault::Wrong(FaultKind::AttributesOutOfRange));
        }
        self.add_attributes(number as u8);
        Ok(())
    }

    /// Takes a number.
    #[tactic(auto, unfolding(crate::specs::Tokens::number))]
    pub fn take_number(&mut self, number: u32) -> Result<(), StepFault>
        ensures { Leads result (state_of self.new) (number_of number (state_of self.old)) }
    {
        match self.place {
            Place::Id => {
                if number > 32_767 {
                    return Err(StepFault::Wrong(FaultKind::IdOutOfRange));
                }
                self.take_id(number as i16);
                Ok(())
            }
            Place::Negative => {
                if number > 32_768 {
                    return Err(StepFault::Wrong(FaultKind::IdOutOfRange));
                }
                self.take_id((-(number as i64)) as i16);
                Ok(())
            }
            Place::NameOrAttribute => self.take_bits(number),
            Place::Attribute => self.take_bits(number),
            _ => Err(self.refuse()),
        }
    }

    /// Takes a string as the name of the resource.
    fn take_name(&mut self) -> Result<(), StepFault>
        ensures { Leads result (state_of self.new) (named (state_of self.old)) }
    {
        if self.gathered.len() > 255 {
            return Err(StepFault::Wrong(FaultKind::LongName));
        }
        let bytes = replace(&mut self.gathered, Vec::new(self.alloc));
        self.draft.name = Some(SourceName { bytes });
        self.come_to(Place::AfterArgument);
        Ok(())
    }

    /// Takes a string as more data of the resource.
    fn take_data(&mut self) -> Result<(), StepFault>
        ensures { Leads result (state_of self.new) (Ok (with_data (state_of self.old))) }
    {
        self.draft
            .datum
            .extend_from_slice(self.gathered.as_slice())?;
        self.come_to(Place::Data);
        Ok(())
    }

    /// Returns a copy of the bytes of the file that the statement names, or none where it is not
    /// given.
    fn file_bytes(&self) -> Result<Vec<u8>, AllocError>
        ensures { IfOk result (λ bytes. bytes.items
            ≡ bytes_given (slice_get (files_of self.now.files.items)
            (length (names_of self.now.named.items)))) }
    {
        let mut bytes = Vec::new(self.alloc);
        if let Some(file) = self.files.get(self.named.len()) {
            bytes.extend_from_slice(file.as_slice())?;
        }
        Ok(bytes)
    }

    /// Takes a string as the name of the file that has the data of the resource.
    fn take_file(&mut self) -> Result<(), StepFault>
        ensures { Leads result (state_of self.new) (Ok (with_file (state_of self.old))) }
    {
        self.draft.datum = self.file_bytes()?;
        let bytes = replace(&mut self.gathered, Vec::new(self.alloc));
        self.named.push(FileName { bytes })?;
        self.come_to(Place::Semicolon);
        Ok(())
    }

    /// Takes a string after the arguments of a statement.
    fn take_file_name(&mut self) -> Result<(), StepFault>
        ensures { Leads result (state_of self.new) (file_named self.old.form (state_of self.old)) }
    {
        match self.form {
            Form::Read => self.take_file(),
            _ => Err(self.refuse()),
        }
    }

    /// Takes a string.
    #[tactic(auto, unfolding(crate::specs::Tokens::string))]
    pub fn take_string(&mut self) -> Result<(), StepFault>
        ensures { Leads result (state_of self.new) (string (state_of self.old)) }
    {
        match self.place {
            Place::NameOrAttribute => self.take_name(),
            Place::Brace => self.take_file_name(),
            Place::Data => self.take_data(),
            _ => Err(self.refuse()),
        }
    }

    /// Takes a hexadecimal string.
    #[tactic(auto, unfolding(crate::specs::Tokens::datum))]
    pub fn take_datum(&mut self) -> Result<(), StepFault>
        ensures { Leads result (state_of self.new) (datum (state_of self.old)) }
    {
        match self.place {
            Place::Data => self.take_data(),
            _ => Err(self.refuse()),
        }
    }

    /// Takes the statement as a resource of the content.
    pub fn take_statement(&mut self) -> Result<(), StepFault>
        ensures { Leads result (state_of self.new) (Ok (with_statement (state_of self.old))) }
    {
        let resource = replace(&mut self.draft, no_draft(self.alloc));
        self.source.groups.add(self.alloc, self.ty, resource)?;
        self.ty = OsType([0; 4]);
        self.form = Form::Data;
        self.come_to(Place::Outside);
        Ok(())
    }

    /// Takes the text of a statement `type`, which has ended.
    #[tactic(auto, unfolding(crate::specs::Tokens::type_statement))]
    pub fn take_declaration(&mut self) -> Result<(), StepFault>
        ensures { Leads result (state_of self.new) (type_statement (state_of self.old)) }
    {
        match self.types.declare(self.gathered.as_slice()) {
            Ok(()) => {
                self.come_to(self.place);
                Ok(())
            }
            Err(fault) => Err(StepFault::within(fault)),
        }
    }

    /// Takes the text between the braces of a statement `resource`, which has ended.
    #[tactic(auto, unfolding(crate::specs::Tokens::resource_body))]
    pub fn take_body(&mut self) -> Result<(), StepFault>
        ensures { Leads result (state_of self.new) (resource_body (state_of self.old)) }
    {
        match self.types.datum(self.ty.0, self.gathered.as_slice()) {
            Ok(bytes) => {
                self.draft.datum = bytes;
                self.come_to(Place::Semicolon);
                Ok(())
            }
            Err(fault) => Err(StepFault::within(fault)),
        }
    }

    /// Takes an opening brace.
    fn open(&mut self) -> Result<(), StepFault>
        ensures { Leads result (state_of self.new) (opened self.old.form (state_of self.old)) }
    {
        match self.form {
            Form::Data => {
                self.come_to(Place::Data);
                Ok(())
            }
            Form::Resource => {
                self.go_on(Mode::Body(Scope::INSIDE));
                Ok(())
            }
            Form::Read => Err(self.refuse()),
        }
    }

    /// Takes a mark where it is the one that is needed, and comes to a place.
    pub fn take_one(&mut self, is_it: bool, place: Place) -> Result<(), StepFault>
        ensures { Leads result (state_of self.new) (if is_it
            then Ok (came_to place (state_of self.old)) else refused (state_of self.old)) }
    {
        if is_it {
            self.come_to(place);
            Ok(())
        } else {
            Err(self.refuse())
        }
    }

    /// Takes a comma, after which comes `place`, or a closing parenthesis.
    pub fn take_end(&mut self, byte: u8, place: Place) -> Result<(), StepFault>
        ensures { Leads result (state_of self.new) (if byte == 44
            then Ok (came_to place (state_of self.old))
            else if byte == 41 then Ok (came_to places.Brace (state_of self.old))
            else refused (state_of self.old)) }
    {
        if byte == b',' {
            self.come_to(place);
            Ok(())
        } else {
            self.take_one(byte == b')', Place::Brace)
        }
    }

    /// Takes a mark, or a byte that begins no token.
    #[tactic(auto, unfolding(crate::specs::Tokens::mark))]
    pub fn take_mark(&mut self, byte: u8) -> Result<(), StepFault>
        ensures { Leads result (state_of self.new) (mark byte (state_of self.old)) }
    {
        match self.place {
            Place::Parenthesis => self.take_one(byte == b'(', Place::Id),
            Place::Id => self.take_one(byte == b'-', Place::Negative),
            Place::AfterId => self.take_end(byte, Place::NameOrAttribute),
            Place::AfterArgument => self.take_end(byte, Place::Attribute),
            Place::Brace => {
                if byte == b'{' {
                    self.open()
                } else {
                    Err(self.refuse())
                }
            }
            Place::Data => self.take_one(byte == b'}', Place::Semicolon),
            Place::Semicolon => {
                if byte == b';' {
                    self.take_statement()
                } else {
                    Err(self.refuse())
                }
            }
            _ => Err(self.refuse()),
        }
    }
}

//! The fields of a block, as they are declared one after another.

ghost use Rattle.std.specs.Prelude.{◌≡◌, ◌≤◌, Some, None, Ok, map, option_map};
ghost use Rattle.std.specs.List.{position};
ghost use Rattle.rez_declarations.specs.declared.drafting.DraftFault.TheVariants.{HostMemory};
ghost use Rattle.rez_types.specs.declared.declaration.Part.TheVariants as parts;
ghost use Rattle.rez_types.specs.View.{part_of, field_of, fields_of, end_of};
ghost use Rattle.rez_declarations.specs.Drafts.{Drafts, Closes, draft_of, waiting_of, names_of};
ghost use Rattle.rez_declarations.specs.Drafting as spec;
ghost use Rattle.rez_declarations.specs.Sound.{is_name as is_name_of};

use crate::twins::is_name;
use crate::unsound::Unsound;
use rez_types::{Array, ArrayEnd, Count, Field, Part, Run, Stop, Width};
use std::alloc::{AllocError, AllocFailed, Global};
use std::mem::replace;

/// Why a field is not drafted.
#[derive(Clone, Copy)]
pub(crate) enum DraftFault {
    /// The field can't stand there.
    Unsound(Unsound),
    /// The host is out of memory.
    HostMemory,
}

impl From<AllocError> for DraftFault {
    ghost from_gives = { λ _ e. e ≡ HostMemory };

    fn from(_e: AllocError) -> DraftFault {
        DraftFault::HostMemory
    }
}

impl<T: Drop> From<AllocFailed<T>> for DraftFault {
    ghost from_gives = { λ _ e. e ≡ HostMemory };

    fn from(_e: AllocFailed<T>) -> DraftFault {
        DraftFault::HostMemory
    }
}

/// An array of which the next field has to say how it ends.
#[derive(Drop)]
pub(crate) struct WaitingArray {
    /// Its name; without bytes where it has none.
    pub name: Vec<u8>,
    /// The block of its elements.
    pub block: usize,
}

/// The fields of a block so far.
#[derive(Drop)]
pub(crate) struct BlockDraft {
    pub fields: Vec<Field>,
    /// The parts of the run that is not yet whole.
    pub parts: Vec<Part>,
    /// How many bits they have.
    pub bits: u8,
    /// The names of the arrays that have counts, in the order of the counts.
    pub counts: Vec<Vec<u8>>,
    /// The names of the arrays.
    pub names: Vec<Vec<u8>>,
    /// The array that waits for its end.
    pub waiting: Option<WaitingArray>,
    pub alloc: Global,
}

/// Returns the place of a name among names.
fn place_of(name: &[u8], names: &[Vec<u8>]) -> Option<usize>
    ensures { result ≡ position (is_name_of name.now) (names_of names.now) }
{
    names.iter().position(|n| is_name(name, n.as_slice()))
}

/// Reports whether a name stands among names.
fn is_among(name: &[u8], names: &[Vec<u8>]) -> bool
    ensures { result ≡ spec.is_among name.now (names_of names.now) }
{
    names.iter().any(|n| is_name(name, n.as_slice()))
}

impl BlockDraft {
    /// Returns a draft before the first field.
    pub fn new(alloc: Global) -> BlockDraft
        ensures { draft_of result ≡ spec.no_draft }
    {
        BlockDraft {
            fields: Vec::new(alloc),
            parts: Vec::new(alloc),
            bits: 0,
            counts: Vec::new(alloc),
            names: Vec::new(alloc),
            waiting: None,
            alloc,
        }
    }

    /// Adds a field.
    pub fn add(&mut self, field: Field) -> Result<(), DraftFault>
        ensures { Drafts result (draft_of self.new)
            (Ok (spec.with_field (field_of field) (draft_of self.old))) }
    {
        self.fields.push(field)?;
        Ok(())
    }

    /// Ends an array that waits.
    fn end(&mut self, end: ArrayEnd, array: WaitingArray) -> Result<(), DraftFault>
        requires { self.old.waiting ≡ None }
        ensures { Drafts result (draft_of self.new)
            (Ok (spec.ending (end_of end) (waiting_of array) (draft_of self.old))) }
    {
        self.add(Field::Array(Array {
            name: array.name,
            end,
            block: array.block,
        }))
    }

    /// Judges whether a field that is no part of a run may stand here.
    pub fn check_whole(&self) -> Result<(), DraftFault>
        ensures { Drafts result (draft_of self.now) (spec.whole (draft_of self.now)) }
    {
        if self.waiting.is_some() {
            return Err(DraftFault::Unsound(Unsound::EndlessArray));
        }
        if self.bits != 0 {
            return Err(DraftFault::Unsound(Unsound::PartialBytes));
        }
        Ok(())
    }

    /// Ends an array that waits by the part after it, which has to be a constant of whole bytes.
    fn end_by(&mut self, part: &Part, array: WaitingArray) -> Result<(), DraftFault>
        requires { self.old.waiting ≡ None }
        ensures { Drafts result (draft_of self.new)
            (spec.ended_by (part_of part.now) (waiting_of array) (draft_of self.old)) }
    {
        let Part::Constant(constant) = part else {
            return Err(DraftFault::Unsound(Unsound::EndlessArray));
        };
        if constant.width.bits % 8 != 0 {
            return Err(DraftFault::Unsound(Unsound::EndlessArray));
        }
        let stop = Stop {
            bytes: constant.width.bits / 8,
            pattern: constant.pattern,
        };
        self.end(ArrayEnd::Constant(stop), array)
    }

    /// Ends the array that waits, where one does, by the part after it.
    fn end_before(&mut self, part: &Part) -> Result<(), DraftFault>
        ensures { Drafts result (draft_of self.new) (spec.before_part (part_of part.now)
            (option_map waiting_of self.old.waiting) (draft_of self.old)) }
    {
        match self.waiting.take() {
            None => Ok(()),
            Some(array) => self.end_by(part, array),
        }
    }

    /// Adds a part to its run, which then has so many bits.
    fn add_to_run(&mut self, part: Part, bits: u16) -> Result<(), DraftFault>
        ensures { Drafts result (draft_of self.new)
            (spec.in_run (part_of part) bits (draft_of self.old)) }
    {
        if 32 < bits {
            return Err(DraftFault::Unsound(Unsound::PartialBytes));
        }
        self.parts.push(part)?;
        if bits % 8 != 0 {
            self.bits = bits as u8;
            return Ok(());
        }
        let parts = replace(&mut self.parts, Vec::new(self.alloc));
        self.bits = 0;
        self.add(Field::Run(Run {
            bytes: (bits / 8) as u8,
            parts,
        }))
    }

    /// Adds a part of a run.
    pub fn add_part(&mut self, part: Part) -> Result<(), DraftFault>
        ensures { Drafts result (draft_of self.new)
            (spec.with_part (part_of part) (draft_of self.old)) }
    {
        self.end_before(&part)?;
        let bits = self.bits as u16 + part.width() as u16;
        self.add_to_run(part, bits)
    }

    /// Adds a fill of whole bytes.
    fn add_bytes(&mut self, bits: u32) -> Result<(), DraftFault>
        ensures { Drafts result (draft_of self.new) (spec.with_bytes bits (draft_of self.old)) }
    {
        self.check_whole()?;
        if 2048 < bits {
            return Err(DraftFault::Unsound(Unsound::LongFill));
        }
        self.add(Field::Fill((bits / 8) as u16))
    }

    /// Adds a fill of so many bits.
    pub fn add_fill(&mut self, bits: u32) -> Result<(), DraftFault>
        ensures { Drafts result (draft_of self.new) (spec.with_fill bits (draft_of self.old)) }
    {
        if self.bits == 0 && bits % 8 == 0 {
            return self.add_bytes(bits);
        }
        if bits == 0 || 32 < bits {
            return Err(DraftFault::Unsound(Unsound::PartialBytes));
        }
        self.add_part(Part::Fill(Width { bits: bits as u8 }))
    }

    /// Adds the count of an array with a name.
    pub fn add_count(&mut self, name: Vec<u8>, count: Count) -> Result<(), DraftFault>
        ensures { Drafts result (draft_of self.new)
            (spec.with_count name.items (part_of (parts.Count count)) (draft_of self.old)) }
    {
        if is_among(name.as_slice(), self.counts.as_slice()) {
            return Err(DraftFault::Unsound(Unsound::CountWithoutArray));
        }
        self.add_part(Part::Count(count))?;
        self.counts.push(name)?;
        Ok(())
    }

    /// Adds an array that ends by its length, by its count, or as the next field says.
    fn add_ending(
        &mut self,
        length: Option<u16>,
        place: Option<usize>,
        array: WaitingArray,
    ) -> Result<(), DraftFault>
        requires { self.old.waiting ≡ None }
        ensures { Drafts result (draft_of self.new)
            (spec.array_ending length place (waiting_of array) (draft_of self.old)) }
    {
        match length {
            Some(length) => match place {
                Some(_) => Err(DraftFault::Unsound(Unsound::CountWithoutArray)),
                None => self.end(ArrayEnd::Fixed(length), array),
            },
            None => match place {
                Some(place) => self.end(ArrayEnd::Counted(place), array),
                None => {
                    self.waiting = Some(array);
                    Ok(())
                }
            },
        }
    }

    /// Judges whether an array of a name may stand after those so far.
    fn check_name(&self, name: &[u8]) -> Result<(), DraftFault>
        ensures { Drafts result (draft_of self.now) (spec.once_named name.now (draft_of self.now)) }
    {
        if !name.is_empty() && is_among(name, self.names.as_slice()) {
            return Err(DraftFault::Unsound(Unsound::TwoNames));
        }
        Ok(())
    }

    /// Adds the name of an array.
    fn add_name(&mut self, name: &[u8]) -> Result<(), DraftFault>
        ensures draft { Drafts result (draft_of self.new)
            (Ok (spec.with_name name.now (draft_of self.old))) }
        ensures waiting { self.new.waiting ≡ self.old.waiting }
    {
        let copy = Vec::from_slice(self.alloc, name)?;
        self.names.push(copy)?;
        Ok(())
    }

    /// Adds an array with a name, or with no bytes as its name, whose elements have the fields of a
    /// block.
    pub fn add_array(&mut self, length: Option<u16>, array: WaitingArray) -> Result<(), DraftFault>
        ensures { Drafts result (draft_of self.new)
            (spec.with_array length (waiting_of array) (draft_of self.old)) }
    {
        self.check_whole()?;
        self.check_name(array.name.as_slice())?;
        let place = place_of(array.name.as_slice(), self.counts.as_slice());
        self.add_name(array.name.as_slice())?;
        self.add_ending(length, place, array)
    }

    /// Returns all fields: an array that waits ends with the resource.
    pub fn close(&mut self) -> Result<Vec<Field>, DraftFault>
        ensures { Closes result (spec.closed (draft_of self.old)) }
    {
        if self.bits != 0 {
            return Err(DraftFault::Unsound(Unsound::PartialBytes));
        }
        if let Some(array) = self.waiting.take() {
            self.end(ArrayEnd::Resource, array)?;
        }
        Ok(replace(&mut self.fields, Vec::new(self.alloc)))
    }
}

//! Reading a source, and reading declarations.

ghost use Rattle.std.specs.Prelude.{◌≡◌, IfOk, drop};
ghost use Rattle.rez_statements.specs.View.{types_of};
ghost use Rattle.rez_text.specs.State.{state_of, Leads};
ghost use Rattle.rez_text.specs.View.{content_stated, files_of, names_of};
ghost use Rattle.rez_text.specs.Reading.{finish as finished, first_line, read_from, unless_lacking};
ghost use Rattle.rez_text.specs.Reading.{read_roman, read, GivesAt, Gives, Ends};
ghost use Rattle.rez_text.specs.Reading.{read_roman_declarations, read_declarations};

use crate::coding::{after_mark, decoded, is_coded};
use crate::fault::{FaultKind, FileName, SourceFault, StepFault};
use crate::line::Lines;
use crate::mode::{Mode, Place};
use crate::reader::Reader;
use crate::source::Source;
use rez_statements::Types;
use std::alloc::{AllocError, Global};

impl Reader {
    /// Returns what is wrong where the text ends so, if something is.
    fn unfinished(&self) -> Option<FaultKind>
        ensures { Ends result (state_of self.now) }
    {
        match self.mode {
            Mode::Between => match self.place {
                Place::Outside | Place::Declaration => None,
                place => Some(place.needed(self.form)),
            },
            Mode::Comment | Mode::Star => Some(FaultKind::OpenComment),
            Mode::Declaring(_) | Mode::Body(_) => Some(FaultKind::OpenStatement),
            _ => Some(FaultKind::OpenString),
        }
    }

    /// Ends the text.
    #[tactic(auto, unfolding(crate::specs::Reading::finish))]
    fn finish(&mut self) -> Result<(), StepFault>
        ensures { Leads result (state_of self.new) (finished (state_of self.old)) }
    {
        self.step(b'\n')?;
        match self.unfinished() {
            Some(kind) => Err(StepFault::Wrong(kind)),
            None => Ok(()),
        }
    }
}

/// Reads a whole text from a reader on that stands before its first byte.
fn read_whole(start: Reader, text: &[u8]) -> Result<Reader, SourceFault>
    ensures { GivesAt state_of result (read_from first_line (state_of start) text.now) }
{
    let mut reader = start;
    let mut lines = Lines::new();
    for byte in text {
        lines = lines.at(reader.mode, *byte);
        match reader.step(*byte) {
            Ok(()) => {}
            Err(fault) => return Err(fault.at(lines)),
        }
    }
    match reader.finish() {
        Ok(()) => Ok(reader),
        Err(fault) => Err(fault.at(lines)),
    }
}

/// Returns the names of the files that are not given, where so many files are given.
#[tactic(auto, using(crate::proofs::Lacked::names_left))]
fn lacking(alloc: Global, named: Vec<FileName>, count: usize) -> Result<Vec<FileName>, AllocError>
    ensures { IfOk result (λ names. names_of names.items ≡ drop count (names_of named.items)) }
{
    if named.len() <= count {
        return Ok(Vec::new(alloc));
    }
    let mut all = named;
    all.split_off(count)
}

/// Returns what a whole text has stated, where no file is lacking.
#[tactic(auto, using(crate::proofs::Lacked::none_left, crate::proofs::Lacked::some_left))]
fn unless_any(source: Source, lacking: Vec<FileName>) -> Result<Source, SourceFault>
    ensures { Gives result (unless_lacking (names_of lacking.items) (content_stated source)) }
{
    if lacking.is_empty() {
        Ok(source)
    } else {
        Err(SourceFault::Files(lacking))
    }
}

/// Reads a source of bytes in Mac OS Roman.
#[tactic(auto, unfolding(crate::specs::Reading::read_roman))]
fn read_roman_source(
    alloc: Global,
    types: Types,
    files: Vec<Vec<u8>>,
    text: &[u8],
) -> Result<Source, SourceFault>
    ensures { Gives result (read_roman (types_of types) (files_of files.items) text.now) }
{
    let count = files.len();
    match read_whole(Reader::new(alloc, Place::Outside, types, files), text) {
        Ok(reader) => match lacking(alloc, reader.named, count) {
            Ok(names) => unless_any(reader.source, names),
            Err(_) => Err(SourceFault::HostMemory),
        },
        Err(fault) => Err(fault),
    }
}

/// Reads declarations of bytes in Mac OS Roman.
#[tactic(auto, unfolding(crate::specs::Reading::read_roman_declarations))]
fn read_roman_types(alloc: Global, types: Types, text: &[u8]) -> Result<Types, SourceFault>
    ensures { GivesAt types_of result (read_roman_declarations (types_of types) text.now) }
{
    match read_whole(
        Reader::new(alloc, Place::Declaration, types, Vec::new(alloc)),
        text,
    ) {
        Ok(reader) => Ok(reader.types),
        Err(fault) => Err(fault),
    }
}

/// Reads the source of a resource fork's content: statements `data`, as `write_source` prints them
/// or as a person writes them, and statements `type`, `resource` and `read`. A statement `resource`
/// states values of its type by the declaration that is in force: the last one in the source before
/// it, else the last one of `types`. The n-th statement `read` takes the bytes of the n-th of
/// `files`.
///
/// # Errors
///
/// Returns the line of the first place where the text can't go on, and what is wrong there; `Files`
/// with the names of the files that are not given, where nothing else is wrong; `HostMemory` where
/// the host is out of memory.
#[tactic(auto, unfolding(crate::specs::Reading::read, crate::specs::Coding::as_roman))]
pub fn read_source(
    alloc: Global,
    types: Types,
    files: Vec<Vec<u8>>,
    text: &[u8],
) -> Result<Source, SourceFault>
    ensures { Gives result (read (types_of types) (files_of files.items) text.now) }
{
    if !is_coded(text) {
        return read_roman_source(alloc, types, files, text);
    }
    match decoded(alloc, after_mark(text)) {
        Ok(made) => read_roman_source(alloc, types, files, made.as_slice()),
        Err(fault) => Err(fault),
    }
}

/// Reads declarations of types: statements `type` and comments. Returns `types` with what they
/// declare.
///
/// # Errors
///
/// Returns the line of the first place where the text can't go on, and what is wrong there, as
/// `OnlyDeclarations` where a statement `data`, `resource` or `read` stands; `HostMemory` where the
/// host is out of memory; never `Files`.
#[tactic(auto, unfolding(crate::specs::Reading::read_declarations, crate::specs::Coding::as_roman))]
pub fn read_types(alloc: Global, types: Types, text: &[u8]) -> Result<Types, SourceFault>
    ensures { GivesAt types_of result (read_declarations (types_of types) text.now) }
{
    if !is_coded(text) {
        return read_roman_types(alloc, types, text);
    }
    match decoded(alloc, after_mark(text)) {
        Ok(made) => read_roman_types(alloc, types, made.as_slice()),
        Err(fault) => Err(fault),
    }
}

//! The comments that state what no statement of Rez does.

ghost use Rattle.std.specs.Prelude.{◌≡◌, IfOk, IfSome, None, [], vec_len, codes};
ghost use Rattle.std.specs.Option.{option_map};
ghost use Rattle.rez_text.specs.State.{state_of, Leads, LeadsTo};
ghost use Rattle.rez_text.specs.Remarks.{hex_from, after_blanks, begins};
ghost use Rattle.rez_text.specs.Remarks.{bytes_after as stated_after, remarked, comment, with_area};
ghost use Rattle.rez_text.specs.Remarks.{with_map_attributes};
ghost use Rattle.rez_text.specs.View.{content_said};

use crate::ascii::{byte_of, hex_value, is_blank};
use crate::fault::{FaultKind, StepFault};
use crate::mode::Place;
use crate::reader::Reader;
use crate::source::Source;
use byteorder::{BigEndian, ByteOrder};
use std::alloc::{AllocError, Global};

/// Returns the bytes that hexadecimal digits write, with any blanks between digits.
fn hex_bytes(alloc: Global, text: &[u8]) -> Result<Option<Vec<u8>>, AllocError>
    ensures { IfOk result (λ found. option_map (λ v. v.items) found ≡ hex_from None [] text.now) }
{
    let mut bytes = Vec::new(alloc);
    let mut waiting = None;
    for byte in text {
        if is_blank(*byte) {
            continue;
        }
        let Some(digit) = hex_value(*byte) else {
            return Ok(None);
        };
        match waiting {
            Some(high) => {
                bytes.push(byte_of(high, digit))?;
                waiting = None;
            }
            None => waiting = Some(digit),
        }
    }
    Ok(if waiting.is_none() { Some(bytes) } else { None })
}

/// Returns a text without the blanks with which it begins.
pub(crate) fn without_blanks(text: &[u8]) -> &[u8]
    ensures { result.now ≡ after_blanks text.now }
{
    let mut rest = text;
    while let [first, more @ ..] = rest {
        if !is_blank(*first) {
            return rest;
        }
        rest = more;
    }
    rest
}

/// Reports whether a text begins with words.
pub(crate) fn begins_with(text: &[u8], words: &[u8]) -> bool
    ensures { result ≡ begins words.now text.now }
{
    words.len() <= text.len() && &text[..words.len()] == words
}

/// Returns the bytes that a text states in hexadecimal after the words with which it begins, if
/// they are `count` bytes.
#[tactic(auto, unfolding(crate::specs::Remarks::bytes_after))]
fn bytes_after(
    alloc: Global,
    words: &[u8],
    count: usize,
    text: &[u8],
) -> Result<Option<Vec<u8>>, AllocError>
    ensures bytes { IfOk result (λ found.
        option_map (λ v. v.items) found ≡ stated_after words.now count text.now) }
    ensures count { IfOk result (λ found. IfSome found (λ v. vec_len v ≡ count)) }
{
    if !begins_with(text, words) {
        return Ok(None);
    }
    match hex_bytes(alloc, &text[words.len()..])? {
        Some(bytes) if bytes.len() == count => Ok(Some(bytes)),
        _ => Ok(None),
    }
}

/// Takes the attributes of the map, which a comment has to state.
fn take_attributes(alloc: Global, source: &mut Source, text: &[u8]) -> Result<(), StepFault>
    ensures { LeadsTo result (content_said source.new) (with_map_attributes
        (stated_after (codes "map attributes $") 2 text.now) (content_said source.old)) }
{
    match bytes_after(alloc, b"map attributes $", 2, text)? {
        Some(bytes) => {
            source.attrs = BigEndian::read_u16(bytes.as_slice());
            Ok(())
        }
        None => Err(StepFault::Wrong(FaultKind::NotMapAttributes)),
    }
}

/// Takes the bytes after the header, which a comment has to state.
fn take_area(alloc: Global, source: &mut Source, text: &[u8]) -> Result<(), StepFault>
    ensures { LeadsTo result (content_said source.new) (with_area
        (stated_after (codes "header bytes") 240 text.now) (content_said source.old)) }
{
    match bytes_after(alloc, b"header bytes", 240, text)? {
        Some(bytes) => {
            source.area.copy_from_slice(bytes.as_slice());
            Ok(())
        }
        None => Err(StepFault::Wrong(FaultKind::NotHeaderBytes)),
    }
}

/// Takes what a comment between statements states.
#[tactic(auto, unfolding(crate::specs::Remarks::remarked))]
fn take_remark(alloc: Global, source: &mut Source, text: &[u8]) -> Result<(), StepFault>
    ensures { LeadsTo result (content_said source.new)
        (remarked text.now (content_said source.old)) }
{
    let words = without_blanks(text);
    if begins_with(words, b"map attributes") {
        take_attributes(alloc, source, words)
    } else if begins_with(words, b"header bytes") {
        take_area(alloc, source, words)
    } else {
        Ok(())
    }
}

impl Reader {
    /// Takes a comment.
    #[tactic(auto, unfolding(crate::specs::Remarks::comment))]
    pub fn take_comment(&mut self) -> Result<(), StepFault>
        ensures { Leads result (state_of self.new) (comment (state_of self.old)) }
    {
        match self.place {
            Place::Outside => {
                take_remark(self.alloc, &mut self.source, self.gathered.as_slice())?;
                self.come_to(Place::Outside);
                Ok(())
            }
            place => {
                self.come_to(place);
                Ok(())
            }
        }
    }
}

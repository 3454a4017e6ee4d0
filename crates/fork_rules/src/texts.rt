//! What a fork is, in words. Where the host is out of memory, a text may have got a part of what is
//! appended.

ghost use Rattle.std.specs.Prelude.{◌≡◌, ◌++◌, OnOk, IfOk, IsTrue};
ghost use Rattle.std.specs.Fmt.{signed_decimal};
ghost use Rattle.std.specs.List.{flat_map};
ghost use Rattle.fork_format.specs.Fork.{is_fork, content_of, Spells};
ghost use Rattle.fork_format.specs.View.{view};
ghost use Rattle.fork_rules.specs.Texts.{kind_text, resource_text, rule_text, damaged_text};
ghost use Rattle.fork_rules.specs.Texts.{region_text, next_text, accepted_text, form_text};
ghost use Rattle.fork_rules.specs.Texts.{why_text};

use crate::breaking::broken_rule;
use crate::comparing::differences_from_canonical;
use crate::regions::Region;
use crate::rules::{Broken, ResourceKey, Rule};
use fork_edits::append_type;
use fork_format::{Content, ForkFault, WriteFault, read_fork};
use itoa::Buffer;
use mac_roman::Charset;
use mac_words::OsType;
use std::alloc::{AllocError, Global};

/// Appends words, a type and more words.
fn push_around(
    text: &mut Vec<u8>,
    before: &[u8],
    ty: OsType,
    after: &[u8],
) -> Result<(), AllocError>
    ensures { OnOk result (text.new.items
        ≡ text.old.items ++ (before.now ++ kind_text ty ++ after.now)) }
{
    text.extend_from_slice(before)?;
    append_type(text, Charset::Ascii, ty)?;
    text.extend_from_slice(after)?;
    Ok(())
}

/// Appends an ID in decimal.
fn push_id(text: &mut Vec<u8>, id: &i16) -> Result<(), AllocError>
    ensures { OnOk result (text.new.items ≡ text.old.items ++ signed_decimal id.now) }
{
    text.extend_from_slice(Buffer::new().format(*id).as_bytes())
}

/// Appends a type and an ID.
fn push_resource(text: &mut Vec<u8>, key: &ResourceKey) -> Result<(), AllocError>
    ensures { OnOk result (text.new.items ≡ text.old.items ++ resource_text key.now) }
{
    append_type(text, Charset::Ascii, key.ty)?;
    text.push(b' ')?;
    push_id(text, &key.id)?;
    Ok(())
}

/// Appends words, a resource and more words.
fn push_with_resource(
    text: &mut Vec<u8>,
    before: &[u8],
    key: &ResourceKey,
    after: &[u8],
) -> Result<(), AllocError>
    ensures { OnOk result (text.new.items
        ≡ text.old.items ++ (before.now ++ resource_text key.now ++ after.now)) }
{
    text.extend_from_slice(before)?;
    push_resource(text, key)?;
    text.extend_from_slice(after)?;
    Ok(())
}

/// Appends a broken rule in words: 'the type list lies outside the map'.
pub fn append_rule(text: &mut Vec<u8>, rule: &Rule) -> Result<(), AllocError>
    ensures { OnOk result (text.new.items ≡ text.old.items ++ rule_text rule.now) }
{
    match rule {
        Rule::HeaderCutOff => text.extend_from_slice(b"the header is cut off"),
        Rule::DataOutside => text.extend_from_slice(b"the resource data lies outside the fork"),
        Rule::MapOutside => text.extend_from_slice(b"the map lies outside the fork"),
        Rule::MapTooShort => text.extend_from_slice(b"the map has fewer than 30 bytes"),
        Rule::TypeListOutside => text.extend_from_slice(b"the type list lies outside the map"),
        Rule::EntriesOutside => {
            text.extend_from_slice(b"the entries of the type list lie outside the map")
        }
        Rule::TooManyReferences => text.extend_from_slice(b"there are more than 65536 references"),
        Rule::ReferenceOutside(ty) => {
            push_around(text, b"a reference of ", *ty, b" lies outside the map")
        }
        Rule::NameOutside(key) => {
            push_with_resource(text, b"the name of ", key, b" lies outside the map")
        }
        Rule::DatumOutside(key) => {
            push_with_resource(
                text,
                b"the data of ",
                key,
                b" lies outside the resource data",
            )
        }
        Rule::TooMuchData => text.extend_from_slice(b"there are more than 134217728 bytes of data"),
    }
}

/// Appends a broken rule and where it is broken: 'damaged: the type list lies outside the map, at
/// 286'.
pub fn append_damaged(text: &mut Vec<u8>, broken: &Broken) -> Result<(), AllocError>
    ensures { OnOk result (text.new.items ≡ text.old.items ++ damaged_text broken.now) }
{
    text.extend_from_slice(b"damaged: ")?;
    append_rule(text, &broken.rule)?;
    text.extend_from_slice(b", at ")?;
    text.extend_from_slice(Buffer::new().format(broken.at).as_bytes())?;
    Ok(())
}

impl Region {
    /// Returns the region in words.
    pub fn words(self) -> &'static [u8]
        ensures { result.now ≡ region_text self }
    {
        match self {
            Region::DataOffset => b"offset of the resource data",
            Region::MapOffset => b"offset of the map",
            Region::DataLength => b"length of the resource data",
            Region::MapLength => b"length of the map",
            Region::Area => b"bytes after the header",
            Region::Data => b"resource data",
            Region::HeaderCopy => b"copy of the header",
            Region::NextMap => b"handle to the next map",
            Region::FileNumber => b"file reference number",
            Region::MapAttributes => b"map attributes",
            Region::TypeListOffset => b"offset of the type list",
            Region::NameListOffset => b"offset of the name list",
            Region::TypeCount => b"number of types",
            Region::Types => b"types",
            Region::Counts => b"numbers of resources",
            Region::ListOffsets => b"offsets of the reference lists",
            Region::Ids => b"IDs",
            Region::NameOffsets => b"offsets of the names",
            Region::Attributes => b"resource attributes",
            Region::DatumOffsets => b"offsets of the data",
            Region::Handles => b"handles to resources",
            Region::Names => b"name list",
            Region::Rest => b"bytes after the map",
        }
    }
}

/// Appends a region after a comma.
fn push_next(text: &mut Vec<u8>, region: Region) -> Result<(), AllocError>
    ensures { OnOk result (text.new.items ≡ text.old.items ++ next_text region) }
{
    text.extend_from_slice(b", ")?;
    text.extend_from_slice(region.words())?;
    Ok(())
}

/// Appends regions, each after a comma.
fn push_others(text: &mut Vec<u8>, regions: &[Region]) -> Result<(), AllocError>
    ensures { OnOk result (text.new.items ≡ text.old.items ++ flat_map next_text regions.now) }
{
    for region in regions {
        push_next(text, *region)?;
    }
    Ok(())
}

/// Appends the regions in which a fork differs from the canonical fork: 'accepted: offset of the
/// map, name list'; with none, 'canonical'.
pub fn append_accepted(text: &mut Vec<u8>, regions: &[Region]) -> Result<(), AllocError>
    ensures { OnOk result (text.new.items ≡ text.old.items ++ accepted_text regions.now) }
{
    match regions {
        [] => text.extend_from_slice(b"canonical"),
        [first, others @ ..] => {
            text.extend_from_slice(b"accepted: ")?;
            text.extend_from_slice(first.words())?;
            push_others(text, others)
        }
    }
}

/// Appends what a fork of a content is: 'canonical'; what differs from its canonical fork; or
/// 'accepted: no canonical fork' where the content does not fit.
pub fn append_form(
    alloc: Global,
    text: &mut Vec<u8>,
    content: &Content<'_>,
    bytes: &[u8],
) -> Result<(), AllocError>
    requires { Spells bytes.now (view content.now) }
    ensures { OnOk result (text.new.items
        ≡ text.old.items ++ form_text (view content.now) bytes.now) }
{
    match differences_from_canonical(alloc, content, bytes) {
        Ok(regions) => append_accepted(text, regions.as_slice()),
        Err(WriteFault::TooLarge) => text.extend_from_slice(b"accepted: no canonical fork"),
        Err(WriteFault::HostMemory) => Err(AllocError),
    }
}

/// Returns the content of a fork.
fn content_of_whole(alloc: Global, bytes: &[u8]) -> Result<Content<'_>, AllocError>
    requires { IsTrue (is_fork bytes.now) }
    ensures { IfOk result (λ content. Spells bytes.now (view content)) }
{
    match read_fork(alloc, bytes) {
        Ok(content) => Ok(content),
        Err(ForkFault::HostMemory) => Err(AllocError),
        Err(ForkFault::Empty) => unreachable!(),
        Err(ForkFault::BadMap) => unreachable!(),
    }
}

/// Appends what a fork is.
fn append_whole(alloc: Global, text: &mut Vec<u8>, bytes: &[u8]) -> Result<(), AllocError>
    requires { IsTrue (is_fork bytes.now) }
    ensures { OnOk result (text.new.items
        ≡ text.old.items ++ form_text (content_of bytes.now) bytes.now) }
{
    let content = content_of_whole(alloc, bytes)?;
    append_form(alloc, text, &content, bytes)?;
    Ok(())
}

/// Appends what the bytes of a fork are: the rule that they break, and where; or what differs from
/// the canonical fork.
///
/// *More Macintosh Toolbox*, chapter 1, "Resource File Format".
pub fn append_why(alloc: Global, text: &mut Vec<u8>, bytes: &[u8]) -> Result<(), AllocError>
    ensures { OnOk result (text.new.items ≡ text.old.items ++ why_text bytes.now) }
{
    match broken_rule(bytes) {
        Some(broken) => append_damaged(text, &broken),
        None => append_whole(alloc, text, bytes),
    }
}

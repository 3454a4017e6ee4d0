//! The state of a file: whether it has a resource fork, and of which form that is, in words. Where
//! the host is out of memory, a text may have got a part of what is appended.

ghost use Rattle.std.specs.Prelude.{◌≡◌, ◌≤◌, ◌<◌, ◌+◌, ◌^◌, ◌++◌, ◌&&◌, IfOk, OnOk, IsTrue, Some};
ghost use Rattle.std.specs.Prelude.{None, false, length, bytes_eq, is_ok, codes};
ghost use Rattle.fork_format.specs.Canonical.{canon, fits};
ghost use Rattle.fork_format.specs.Fork.{number, is_fork, content_of};
ghost use Rattle.fork_format.specs.View.{view};
ghost use Rattle.fork_rules.specs.Texts.{form_text};
ghost use Rattle.fork_commands.specs.Opening.{bytes_of, IsOpen};
ghost use Rattle.fork_commands.specs.Reading.{content_of_fork};
ghost use Rattle.fork_commands.specs.States.{is_header_rule, has_header, is_foreign, damaged_words};
ghost use Rattle.fork_commands.specs.States.{broken_words, canonical_word, form_word, form_words};
ghost use Rattle.fork_commands.specs.States.{rule_of, judged_words, fork_words, entries_words};
ghost use Rattle.fork_commands.specs.States.{mac_binary_words, wrapper_words, part_words};
ghost use Rattle.fork_commands.specs.States.{foreign_words, checksum_words, damage_words};
ghost use Rattle.fork_commands.specs.States.{fault_why, fault_words, is_bare, state_words};
ghost use Rattle.fork_commands.specs.States.{has_content};

use crate::fault::{FileFault, WorkFault};
use crate::opening::{Container, OpenFile, open_file};
use crate::reading::fork_in;
use bin_hex::{Damage, Part};
use byteorder::{BigEndian, ByteOrder};
use fork_format::{Content, ForkFault, WriteFault, read_fork, write_fork};
use fork_rules::{Broken, Rule, append_damaged, append_why, broken_rule};
use fork_wrappers::{EntriesFault, MacBinaryFault, WrapFault, Wrapping};
use itoa::Buffer;
use std::alloc::{AllocError, Global};

/// Reports whether a rule is one of the header, or of what it says of the bytes.
fn is_of_header(rule: Rule) -> bool
    ensures { result ≡ is_header_rule rule }
{
    match rule {
        Rule::HeaderCutOff | Rule::DataOutside | Rule::MapOutside | Rule::MapTooShort => true,
        Rule::TypeListOutside
        | Rule::EntriesOutside
        | Rule::TooManyReferences
        | Rule::ReferenceOutside(_)
        | Rule::NameOutside(_)
        | Rule::DatumOutside(_)
        | Rule::TooMuchData => false,
    }
}

/// Returns a number of four bytes.
fn word(bytes: &[u8], at: usize) -> usize
    requires { at + 4 ≤ length bytes.now }
    ensures value { result ≡ number 4 at bytes.now }
    ensures small { result < 2 ^ 32 }
{
    BigEndian::read_u32(&bytes[at..]) as usize
}

/// Reports whether the header is one as programs write it.
#[tactic(auto, unfolding(crate::specs::States::has_header))]
fn has_common_header(bytes: &[u8]) -> bool
    ensures { result ≡ has_header bytes.now }
{
    16 <= bytes.len() && word(bytes, 0) == 256 && word(bytes, 4) == 256 + word(bytes, 8)
}

/// Reports whether bytes that break a rule are no damaged fork, but something else.
fn is_something_else(bytes: &[u8], broken: &Broken) -> bool
    ensures { result ≡ is_foreign bytes.now broken.now }
{
    is_of_header(broken.rule) && !has_common_header(bytes)
}

/// Appends the word for a fork that is damaged, with the rule that it breaks, if that is asked for.
fn append_damage(text: &mut Vec<u8>, why: bool, broken: &Broken) -> Result<(), AllocError>
    ensures { OnOk result (text.new.items ≡ text.old.items ++ damaged_words why broken.now) }
{
    if why {
        append_damaged(text, broken)
    } else {
        text.extend_from_slice(b"damaged")
    }
}

/// Reports whether a file is a fork as it stands, in no wrapper.
fn is_in_none(container: Container) -> bool
    ensures { result ≡ is_bare container }
{
    container == Container::Wrapped(Wrapping::Plain)
}

/// Appends the words for bytes that break a rule.
fn append_broken(
    text: &mut Vec<u8>,
    why: bool,
    container: Container,
    fork: &[u8],
    broken: &Broken,
) -> Result<(), AllocError>
    ensures { OnOk result (text.new.items
        ≡ text.old.items ++ broken_words why (is_bare container) fork.now broken.now) }
{
    if is_in_none(container) && is_something_else(fork, broken) {
        text.extend_from_slice(b"not a fork")
    } else {
        append_damage(text, why, broken)
    }
}

/// Reports whether a fork is the canonical one of its content.
fn is_canonical(alloc: Global, content: &Content<'_>, fork: &[u8]) -> Result<bool, AllocError>
    ensures { IfOk result (λ is. is
        ≡ (fits (view content.now) && bytes_eq fork.now (canon (view content.now)))) }
{
    match write_fork(alloc, content) {
        Ok(made) => Ok(fork == made.as_slice()),
        Err(WriteFault::TooLarge) => Ok(false),
        Err(WriteFault::HostMemory) => Err(AllocError),
    }
}

/// Returns the content of a fork that breaks no rule.
fn content_of_whole(alloc: Global, fork: &[u8]) -> Result<Content<'_>, AllocError>
    requires { IsTrue (is_fork fork.now) }
    ensures { IfOk result (λ c. view c ≡ content_of fork.now) }
{
    match read_fork(alloc, fork) {
        Ok(content) => Ok(content),
        Err(ForkFault::HostMemory) => Err(AllocError),
        Err(ForkFault::Empty) => unreachable!(),
        Err(ForkFault::BadMap) => unreachable!(),
    }
}

/// Returns the word for a fork that is canonical, or is not.
fn word_of(is_canonical: bool) -> &'static [u8]
    ensures { result.now ≡ canonical_word is_canonical }
{
    if is_canonical {
        b"canonical"
    } else {
        b"accepted"
    }
}

/// Appends the word for a fork of a content.
#[tactic(auto, unfolding(crate::specs::States::form_word))]
fn append_word_of(
    alloc: Global,
    text: &mut Vec<u8>,
    content: &Content<'_>,
    fork: &[u8],
) -> Result<(), AllocError>
    ensures { OnOk result (text.new.items
        ≡ text.old.items ++ form_word (view content.now) fork.now) }
{
    let is = is_canonical(alloc, content, fork)?;
    text.extend_from_slice(word_of(is))
}

/// Appends the word for a fork that breaks no rule.
fn append_form_word(alloc: Global, text: &mut Vec<u8>, fork: &[u8]) -> Result<(), AllocError>
    requires { IsTrue (is_fork fork.now) }
    ensures { OnOk result (text.new.items
        ≡ text.old.items ++ form_word (content_of fork.now) fork.now) }
{
    let content = content_of_whole(alloc, fork)?;
    append_word_of(alloc, text, &content, fork)?;
    Ok(())
}

/// Appends the regions in which a fork that breaks no rule differs from its canonical fork.
fn append_regions(alloc: Global, text: &mut Vec<u8>, fork: &[u8]) -> Result<(), AllocError>
    requires { rule_of fork.now ≡ None }
    ensures { OnOk result (text.new.items
        ≡ text.old.items ++ form_text (content_of fork.now) fork.now) }
{
    append_why(alloc, text, fork)?;
    Ok(())
}

/// Appends the words for a fork that breaks no rule.
#[tactic(auto, using(crate::proofs::Stated::is_whole))]
fn append_form(alloc: Global, text: &mut Vec<u8>, why: bool, fork: &[u8]) -> Result<(), AllocError>
    requires { rule_of fork.now ≡ None }
    ensures { OnOk result (text.new.items ≡ text.old.items ++ form_words why fork.now) }
{
    if why {
        append_regions(alloc, text, fork)
    } else {
        append_form_word(alloc, text, fork)
    }
}

/// Returns the first rule that a fork breaks.
#[tactic(auto, unfolding(crate::specs::States::rule_of))]
fn rule_of(fork: &[u8]) -> Option<Broken>
    ensures { result ≡ rule_of fork.now }
{
    broken_rule(fork)
}

/// Appends the words for a fork that breaks a rule, which has no content.
#[tactic(auto, using(crate::proofs::Stated::broken_content))]
fn append_without(
    text: &mut Vec<u8>,
    why: bool,
    container: Container,
    fork: &[u8],
    broken: &Broken,
) -> Result<bool, AllocError>
    requires { rule_of fork.now ≡ Some broken.now }
    ensures words { OnOk result (text.new.items
        ≡ text.old.items ++ broken_words why (is_bare container) fork.now broken.now) }
    ensures content { IfOk result (λ has. has ≡ is_ok (content_of_fork fork.now)) }
{
    append_broken(text, why, container, fork, broken)?;
    Ok(false)
}

/// Appends the words for a fork that breaks no rule, which has a content.
#[tactic(auto, using(crate::proofs::Stated::whole_content))]
fn append_with(
    alloc: Global,
    text: &mut Vec<u8>,
    why: bool,
    fork: &[u8],
) -> Result<bool, AllocError>
    requires { rule_of fork.now ≡ None }
    ensures words { OnOk result (text.new.items ≡ text.old.items ++ form_words why fork.now) }
    ensures content { IfOk result (λ has. has ≡ is_ok (content_of_fork fork.now)) }
{
    append_form(alloc, text, why, fork)?;
    Ok(true)
}

/// Appends the words for a fork that has bytes, and returns whether it has a content.
fn append_judged(
    alloc: Global,
    text: &mut Vec<u8>,
    why: bool,
    container: Container,
    fork: &[u8],
) -> Result<bool, AllocError>
    ensures words { OnOk result (text.new.items
        ≡ text.old.items ++ judged_words why (is_bare container) fork.now (rule_of fork.now)) }
    ensures content { IfOk result (λ has. has ≡ is_ok (content_of_fork fork.now)) }
{
    match rule_of(fork) {
        Some(broken) => append_without(text, why, container, fork, &broken),
        None => append_with(alloc, text, why, fork),
    }
}

/// Appends the words for a fork, and returns whether it has a content.
#[tactic(auto, using(crate::proofs::Stated::no_words, crate::proofs::Stated::no_bytes, crate::proofs::Stated::some_words))]
fn append_fork(
    alloc: Global,
    text: &mut Vec<u8>,
    why: bool,
    container: Container,
    fork: &[u8],
) -> Result<bool, AllocError>
    ensures words { OnOk result (text.new.items
        ≡ text.old.items ++ fork_words why (is_bare container) fork.now) }
    ensures content { IfOk result (λ has. has ≡ is_ok (content_of_fork fork.now)) }
{
    if fork.is_empty() {
        text.extend_from_slice(b"no fork")?;
        return Ok(false);
    }
    let has = append_judged(alloc, text, why, container, fork)?;
    Ok(has)
}

/// Returns the words for how AppleSingle or AppleDouble is damaged.
fn entries_words(fault: EntriesFault) -> &'static [u8]
    ensures { result.now ≡ entries_words fault }
{
    match fault {
        EntriesFault::HeaderCutOff => b"the header is cut off",
        EntriesFault::UnknownVersion => b"the version is unknown",
        EntriesFault::EntriesCutOff => b"the list of entries is cut off",
        EntriesFault::EntryOutside => b"an entry lies outside the file",
        EntriesFault::SeveralForks => b"there is more than one resource fork",
    }
}

/// Returns the words for how MacBinary is damaged.
fn mac_binary_words(fault: MacBinaryFault) -> &'static [u8]
    ensures { result.now ≡ mac_binary_words fault }
{
    match fault {
        MacBinaryFault::WrongChecksum => b"the checksum is wrong",
        MacBinaryFault::LaterVersion => b"a later version is needed",
        MacBinaryFault::DataForkOutside => b"the data fork is cut off",
        MacBinaryFault::ResourceForkOutside => b"the resource fork is cut off",
    }
}

/// Appends words, and others after them.
fn append_both(text: &mut Vec<u8>, before: &[u8], words: &[u8]) -> Result<(), AllocError>
    ensures { OnOk result (text.new.items ≡ text.old.items ++ (before.now ++ words.now)) }
{
    text.extend_from_slice(before)?;
    text.extend_from_slice(words)?;
    Ok(())
}

/// Appends which wrapper is damaged, and how.
#[tactic(auto, unfolding(crate::specs::States::wrapper_words))]
fn append_wrapper(text: &mut Vec<u8>, fault: &WrapFault) -> Result<(), AllocError>
    ensures { OnOk result (text.new.items ≡ text.old.items ++ wrapper_words fault.now) }
{
    match fault {
        WrapFault::AppleSingle(fault) => {
            append_both(text, b"AppleSingle: ", entries_words(*fault))
        }
        WrapFault::AppleDouble(fault) => {
            append_both(text, b"AppleDouble: ", entries_words(*fault))
        }
        WrapFault::MacBinary(fault) => {
            append_both(text, b"MacBinary: ", mac_binary_words(*fault))
        }
    }
}

/// Returns the words for a part of a BinHex file.
fn part_words(part: Part) -> &'static [u8]
    ensures { result.now ≡ part_words part }
{
    match part {
        Part::Header => b"header",
        Part::DataFork => b"data fork",
        Part::ResourceFork => b"resource fork",
    }
}

/// Appends words around others.
fn append_around(
    text: &mut Vec<u8>,
    before: &[u8],
    words: &[u8],
    after: &[u8],
) -> Result<(), AllocError>
    ensures { OnOk result (text.new.items
        ≡ text.old.items ++ (before.now ++ words.now ++ after.now)) }
{
    text.extend_from_slice(before)?;
    text.extend_from_slice(words)?;
    text.extend_from_slice(after)?;
    Ok(())
}

/// Appends which byte is no character of the encoding.
#[tactic(auto, unfolding(crate::specs::States::foreign_words))]
fn append_foreign(text: &mut Vec<u8>, at: usize) -> Result<(), AllocError>
    ensures { OnOk result (text.new.items ≡ text.old.items ++ foreign_words at) }
{
    append_around(
        text,
        b"the byte at ",
        Buffer::new().format(at).as_bytes(),
        b" is no character of the encoding",
    )
}

/// Appends which part's checksum is wrong.
#[tactic(auto, unfolding(crate::specs::States::checksum_words))]
fn append_checksum(text: &mut Vec<u8>, part: Part) -> Result<(), AllocError>
    ensures { OnOk result (text.new.items ≡ text.old.items ++ checksum_words part) }
{
    append_around(
        text,
        b"the checksum of the ",
        part_words(part),
        b" is wrong",
    )
}

/// Appends how a BinHex file is damaged.
#[tactic(auto, unfolding(crate::specs::States::damage_words))]
fn append_damage_of(text: &mut Vec<u8>, damage: Damage) -> Result<(), AllocError>
    ensures { OnOk result (text.new.items ≡ text.old.items ++ damage_words damage) }
{
    match damage {
        Damage::NoMark => text.extend_from_slice(b"no line says that the file must be converted"),
        Damage::NoStart => text.extend_from_slice(b"no colon begins the encoded text"),
        Damage::NoEnd => text.extend_from_slice(b"no colon ends the encoded text"),
        Damage::Foreign(at) => append_foreign(text, at),
        Damage::NoByteToRepeat => {
            text.extend_from_slice(b"a run begins the file, with no byte to repeat")
        }
        Damage::NameLength => text.extend_from_slice(b"the name's length is not 1 to 63"),
        Damage::CutOff => text.extend_from_slice(b"the encoded file is cut off"),
        Damage::WrongChecksum(part) => append_checksum(text, part),
        Damage::TooLong => text.extend_from_slice(b"more bytes follow the last checksum"),
    }
}

/// Appends which wrapper is damaged, and how, after a colon.
fn append_wrapper_why(text: &mut Vec<u8>, fault: &WrapFault) -> Result<(), AllocError>
    ensures { OnOk result (text.new.items
        ≡ text.old.items ++ (codes ": " ++ wrapper_words fault.now)) }
{
    text.extend_from_slice(b": ")?;
    append_wrapper(text, fault)?;
    Ok(())
}

/// Appends how a BinHex file is damaged, after a colon.
fn append_bin_hex_why(text: &mut Vec<u8>, damage: Damage) -> Result<(), AllocError>
    ensures { OnOk result (text.new.items
        ≡ text.old.items ++ (codes ": BinHex: " ++ damage_words damage)) }
{
    text.extend_from_slice(b": BinHex: ")?;
    append_damage_of(text, damage)?;
    Ok(())
}

/// Appends which wrapper of a file is damaged, and how.
#[tactic(auto, unfolding(crate::specs::States::fault_why))]
fn append_fault_why(text: &mut Vec<u8>, fault: &FileFault) -> Result<(), AllocError>
    ensures { OnOk result (text.new.items ≡ text.old.items ++ fault_why fault.now) }
{
    match fault {
        FileFault::Wrapper { fault } => append_wrapper_why(text, fault),
        FileFault::BinHex { fault } => append_bin_hex_why(text, *fault),
        FileFault::Code { .. }
        | FileFault::Unfit { .. }
        | FileFault::TakenId
        | FileFault::InBoth { .. }
        | FileFault::Contents { .. }
        | FileFault::Source { .. }
        | FileFault::ReadsFiles => Ok(()),
    }
}

/// Appends the words for a file in which no fork is found, and why.
fn append_lost(text: &mut Vec<u8>, fault: &FileFault) -> Result<(), AllocError>
    ensures { OnOk result (text.new.items
        ≡ text.old.items ++ (codes "wrapper damaged" ++ fault_why fault.now)) }
{
    text.extend_from_slice(b"wrapper damaged")?;
    append_fault_why(text, fault)?;
    Ok(())
}

/// Appends the words for a file in which no fork is found, and why, if that is asked for.
fn append_fault(text: &mut Vec<u8>, why: bool, fault: &FileFault) -> Result<(), AllocError>
    ensures { OnOk result (text.new.items ≡ text.old.items ++ fault_words why fault.now) }
{
    if why {
        append_lost(text, fault)
    } else {
        text.extend_from_slice(b"wrapper damaged")
    }
}

/// Appends the state of a file that was opened, and returns whether it has a content.
#[tactic(auto, using(crate::proofs::Stated::found_words_of, crate::proofs::Stated::lost_words_of, crate::proofs::Stated::found_content, crate::proofs::Stated::lost_content))]
fn append_opened(
    alloc: Global,
    text: &mut Vec<u8>,
    why: bool,
    file: &OpenFile<'_>,
) -> Result<bool, AllocError>
    requires { IsOpen file.now }
    ensures words { OnOk result (text.new.items
        ≡ text.old.items ++ state_words why (bytes_of file.now)) }
    ensures content { IfOk result (λ has. has ≡ has_content (bytes_of file.now)) }
{
    match fork_in(file) {
        Ok(found) => {
            let has = append_fork(alloc, text, why, found.container, found.fork)?;
            Ok(has)
        }
        Err(fault) => {
            append_fault(text, why, &fault)?;
            Ok(false)
        }
    }
}

/// Appends the state of the fork in the bytes of a file, and returns whether it has a content:
/// `canonical`; `accepted`; `damaged`; `no fork`, where the file is empty, or its wrapper has no
/// fork; `wrapper damaged`; and `not a fork`, where the bytes are neither a fork nor one that was
/// damaged. With `why` follows after a colon what differs from the canonical fork, or which rule of
/// the format is broken, and at which offset in the fork, or how the wrapper is damaged.
///
/// *More Macintosh Toolbox*, chapter 1, "Resource File Format".
#[tactic(auto, using(crate::proofs::Stated::lost_words_of, crate::proofs::Stated::lost_content))]
pub fn append_state(
    alloc: Global,
    text: &mut Vec<u8>,
    why: bool,
    bytes: &[u8],
) -> Result<bool, AllocError>
    ensures words { OnOk result (text.new.items ≡ text.old.items ++ state_words why bytes.now) }
    ensures content { IfOk result (λ has. has ≡ has_content bytes.now) }
{
    match open_file(alloc, bytes) {
        Ok(file) => {
            let has = append_opened(alloc, text, why, &file)?;
            Ok(has)
        }
        Err(WorkFault::File(fault)) => {
            append_fault(text, why, &fault)?;
            Ok(false)
        }
        Err(WorkFault::HostMemory) => Err(AllocError),
    }
}

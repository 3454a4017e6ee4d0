//! A declaration, as it is drafted from the items of a template.

ghost use Rattle.std.specs.Prelude.{◌≡◌, ◌++◌, OnOk, IfOk, decimal, option_map};
ghost use Rattle.std.specs.List.{flat_map};
ghost use Rattle.rez_templates.specs.Items as spec;
ghost use Rattle.rez_templates.specs.View.{Gives, LeadsTo, Returns, drafted_of, bytes_in, item_in};

use crate::fault::TemplateFault;
use crate::item::{CountFrom, Item, ListEnd, item_of};
use itoa::Buffer;
use mac_words::upper_digit;
use std::alloc::{AllocError, Global};

/// The greatest number of items in a template that can be declared.
const MOST_ITEMS: usize = 1024;

/// A declaration as far as it is drafted.
#[derive(Drop)]
pub(crate) struct Draft {
    /// The text of its fields.
    text: Vec<u8>,
    /// How many bytes without a meaning follow them.
    fill: u16,
    /// How the lists end that are open, the innermost last.
    lists: Vec<ListEnd>,
    /// How many counts there are.
    counts: u16,
    /// Whether the last of them waits for its list.
    waits: bool,
}

/// Appends a number in decimal.
fn push_decimal(out: &mut Vec<u8>, number: u16) -> Result<(), AllocError>
    ensures { OnOk result (out.new.items ≡ out.old.items ++ decimal number) }
{
    out.extend_from_slice(Buffer::new().format(number).as_bytes())?;
    Ok(())
}

/// Appends a fill of bytes, if there are some.
#[tactic(auto, unfolding(crate::specs::Items::fill_text))]
fn push_fill(out: &mut Vec<u8>, bytes: u16) -> Result<(), AllocError>
    ensures { OnOk result (out.new.items ≡ out.old.items ++ spec.fill_text bytes) }
{
    if bytes == 0 {
        return Ok(());
    }
    out.extend_from_slice(b"fill byte[")?;
    push_decimal(out, bytes)?;
    out.extend_from_slice(b"]; ")?;
    Ok(())
}

/// Returns the text of a string of so many bytes in hexadecimal.
#[tactic(auto, unfolding(crate::specs::Items::hex_text))]
fn hex_text(alloc: Global, bytes: u16) -> Result<Vec<u8>, AllocError>
    ensures { IfOk result (λ text. text.items ≡ spec.hex_text bytes) }
{
    let mut text = Vec::from_slice(alloc, b"hex string[")?;
    push_decimal(&mut text, bytes)?;
    text.extend_from_slice(b"]; ")?;
    Ok(text)
}

/// Returns what ends a count.
fn count_end(from: CountFrom) -> &'static [u8]
    ensures { result.now ≡ spec.count_end from }
{
    match from {
        CountFrom::One => b"); ",
        CountFrom::Zero => b") - 1; ",
    }
}

/// Returns the text of the count that is the n-th.
#[tactic(auto, unfolding(crate::specs::Items::count_text))]
fn count_text(alloc: Global, from: CountFrom, n: u16) -> Result<Vec<u8>, AllocError>
    ensures { IfOk result (λ text. text.items ≡ spec.count_text from n) }
{
    let mut text = Vec::from_slice(alloc, b"integer = $$CountOf(List")?;
    push_decimal(&mut text, n)?;
    text.extend_from_slice(count_end(from))?;
    Ok(text)
}

/// Returns what begins a list; of one that a count stands before, the count is the n-th.
#[tactic(auto, unfolding(crate::specs::Items::begin_text))]
fn begin_text(alloc: Global, end: ListEnd, n: u16) -> Result<Vec<u8>, AllocError>
    ensures { IfOk result (λ text. text.items ≡ spec.begin_text end n) }
{
    match end {
        ListEnd::Counted => {
            let mut text = Vec::from_slice(alloc, b"array List")?;
            push_decimal(&mut text, n)?;
            text.extend_from_slice(b" { ")?;
            Ok(text)
        }
        _ => Vec::from_slice(alloc, b"array { "),
    }
}

/// Returns what ends a list.
#[tactic(auto, unfolding(crate::specs::Items::end_text))]
fn end_text(end: ListEnd) -> &'static [u8]
    ensures { result.now ≡ spec.end_text end }
{
    match end {
        ListEnd::Zero => b"}; byte = 0; ",
        _ => b"}; ",
    }
}

/// Appends a text after a fill of bytes.
fn push_after(out: &mut Vec<u8>, fill: u16, text: &[u8]) -> Result<(), AllocError>
    ensures { OnOk result (out.new.items ≡ out.old.items ++ spec.fill_text fill ++ text.now) }
{
    push_fill(out, fill)?;
    out.extend_from_slice(text)?;
    Ok(())
}

/// Takes the last of the lists that are open, if one is.
#[tactic(auto, using(crate::proofs::Turns::last_is, crate::proofs::Turns::no_last))]
fn take_last(lists: &mut Vec<ListEnd>) -> Option<ListEnd>
    ensures { spec.split_last lists.old.items ≡ option_map (λ end. (lists.new.items, end)) result }
{
    lists.pop()
}

/// Reports whether a list may begin, where a count waits or not.
fn may_begin(end: ListEnd, waits: bool) -> bool
    ensures { result ≡ spec.may_begin end waits }
{
    match end {
        ListEnd::Counted => waits,
        _ => !waits,
    }
}

impl Draft {
    /// Returns a draft without fields.
    fn new(alloc: Global) -> Draft
        ensures { drafted_of result ≡ spec.no_draft }
    {
        Draft {
            text: Vec::new(alloc),
            fill: 0,
            lists: Vec::new(alloc),
            counts: 0,
            waits: false,
        }
    }

    /// Adds bytes without a meaning.
    #[tactic(auto, unfolding(crate::specs::Items::with_fill))]
    fn add_fill(&mut self, bytes: u16) -> Result<(), TemplateFault>
        ensures { LeadsTo result (drafted_of self.new)
            (spec.with_fill bytes (drafted_of self.old)) }
    {
        let fill = self.fill.saturating_add(bytes);
        if 256 < fill {
            return Err(TemplateFault::Unstated);
        }
        self.fill = fill;
        Ok(())
    }

    /// Adds a count.
    #[tactic(auto, unfolding(crate::specs::Items::with_count))]
    fn add_count(&mut self, alloc: Global, from: CountFrom) -> Result<(), TemplateFault>
        ensures { LeadsTo result (drafted_of self.new)
            (spec.with_count from (drafted_of self.old)) }
    {
        if self.waits || 512 <= self.counts {
            return Err(TemplateFault::Unstated);
        }
        let counts = self.counts + 1;
        let text = count_text(alloc, from, counts)?;
        push_after(&mut self.text, self.fill, text.as_slice())?;
        self.fill = 0;
        self.counts = counts;
        self.waits = true;
        Ok(())
    }

    /// Begins a list.
    #[tactic(auto, unfolding(crate::specs::Items::with_list))]
    fn begin(&mut self, alloc: Global, end: ListEnd) -> Result<(), TemplateFault>
        ensures { LeadsTo result (drafted_of self.new) (spec.with_list end (drafted_of self.old)) }
    {
        if !may_begin(end, self.waits) {
            return Err(TemplateFault::Unstated);
        }
        let text = begin_text(alloc, end, self.counts)?;
        push_after(&mut self.text, self.fill, text.as_slice())?;
        self.fill = 0;
        self.lists.push(end)?;
        self.waits = false;
        Ok(())
    }

    /// Ends the innermost list.
    #[tactic(auto, unfolding(crate::specs::Items::with_end))]
    fn end(&mut self) -> Result<(), TemplateFault>
        ensures { LeadsTo result (drafted_of self.new) (spec.with_end (drafted_of self.old)) }
    {
        if self.waits {
            return Err(TemplateFault::Unstated);
        }
        let Some(end) = take_last(&mut self.lists) else {
            return Err(TemplateFault::Unstated);
        };
        push_after(&mut self.text, self.fill, end_text(end))?;
        self.fill = 0;
        Ok(())
    }

    /// Adds a field by its text.
    fn add_field(&mut self, text: &[u8]) -> Result<(), TemplateFault>
        ensures { LeadsTo result (drafted_of self.new)
            (spec.with_field text.now (drafted_of self.old)) }
    {
        push_after(&mut self.text, self.fill, text)?;
        self.fill = 0;
        Ok(())
    }

    /// Adds a string of so many bytes in hexadecimal.
    fn add_hex(&mut self, alloc: Global, bytes: u16) -> Result<(), TemplateFault>
        ensures { LeadsTo result (drafted_of self.new)
            (spec.with_field (spec.hex_text bytes) (drafted_of self.old)) }
    {
        let text = hex_text(alloc, bytes)?;
        self.add_field(text.as_slice())
    }

    /// Adds an item.
    fn add(&mut self, alloc: Global, item: Item) -> Result<(), TemplateFault>
        ensures { LeadsTo result (drafted_of self.new)
            (spec.with_item (item_in item) (drafted_of self.old)) }
    {
        match item {
            Item::Field(text) => self.add_field(text),
            Item::Hex(bytes) => self.add_hex(alloc, bytes),
            Item::Fill(bytes) => self.add_fill(bytes),
            Item::Count(from) => self.add_count(alloc, from),
            Item::Begin(end) => self.begin(alloc, end),
            Item::End => self.end(),
        }
    }

    /// Adds what the four characters of an item stand for.
    fn add_code(&mut self, alloc: Global, code: &[u8]) -> Result<(), TemplateFault>
        ensures { LeadsTo result (drafted_of self.new)
            (spec.with_code code.now (drafted_of self.old)) }
    {
        match item_of(code) {
            Some(item) => self.add(alloc, item),
            None => Err(TemplateFault::Unstated),
        }
    }

    /// Adds the next item, and returns the bytes after it.
    #[tactic(auto, unfolding(crate::specs::Items::with_next))]
    fn add_next<'a>(&mut self, alloc: Global, bytes: &'a [u8]) -> Result<&'a [u8], TemplateFault>
        ensures { Gives (λ rest. rest.now) result (drafted_of self.new)
            (spec.with_next bytes.now (drafted_of self.old)) }
    {
        let [size, after @ ..] = bytes else {
            return Err(TemplateFault::Unstated);
        };
        let (code, rest) = code_in(*size, after)?;
        self.add_code(alloc, code)?;
        Ok(rest)
    }

    /// Adds at most so many items.
    #[tactic(auto, using(crate::proofs::Turns::items_on, crate::proofs::Turns::items_end, crate::proofs::Turns::items_more))]
    fn add_items(&mut self, alloc: Global, most: usize, bytes: &[u8]) -> Result<(), TemplateFault>
        ensures { LeadsTo result (drafted_of self.new)
            (spec.with_items most bytes.now (drafted_of self.old)) }
    {
        let mut rest = bytes;
        let mut left = most;
        while !rest.is_empty() {
            if left == 0 {
                return Err(TemplateFault::Unstated);
            }
            rest = self.add_next(alloc, rest)?;
            left -= 1;
        }
        Ok(())
    }

    /// Returns the text of the fields, if they are whole.
    #[tactic(auto, unfolding(crate::specs::Items::fields_text))]
    fn into_fields(self) -> Result<Vec<u8>, TemplateFault>
        ensures { Returns bytes_in result (spec.fields_text (drafted_of self)) }
    {
        if self.waits || !self.lists.is_empty() {
            return Err(TemplateFault::Unstated);
        }
        let mut text = self.text;
        push_fill(&mut text, self.fill)?;
        Ok(text)
    }
}

/// Returns the four characters after a label of so many bytes, and what stands after them.
fn code_in(size: u8, bytes: &[u8]) -> Result<(&[u8], &[u8]), TemplateFault>
    ensures { Returns (λ p. (p.0.now, p.1.now)) result (spec.code_in size bytes.now) }
{
    match bytes.get(size as usize..) {
        Some(after) => match after.split_at_checked(4) {
            Some((code, rest)) => Ok((code, rest)),
            None => Err(TemplateFault::Unstated),
        },
        None => Err(TemplateFault::Unstated),
    }
}

/// Appends bytes between quotes.
fn push_escaped(out: &mut Vec<u8>, bytes: &[u8]) -> Result<(), AllocError>
    ensures { OnOk result (out.new.items ≡ out.old.items ++ flat_map spec.escaped bytes.now) }
{
    for byte in bytes {
        out.extend_from_slice(&[
            b'\\',
            b'0',
            b'x',
            upper_digit(*byte / 16),
            upper_digit(*byte % 16),
        ])?;
    }
    Ok(())
}

/// Returns the statement that declares a type by fields.
#[tactic(auto, unfolding(crate::specs::Items::statement))]
pub(crate) fn statement(alloc: Global, ty: [u8; 4], fields: &[u8]) -> Result<Vec<u8>, AllocError>
    ensures { IfOk result (λ text. text.items ≡ spec.statement ty fields.now) }
{
    let mut text = Vec::from_slice(alloc, b"type '")?;
    push_escaped(&mut text, &ty)?;
    text.extend_from_slice(b"' { ")?;
    text.extend_from_slice(fields)?;
    text.extend_from_slice(b"};")?;
    Ok(text)
}

/// Returns the statement that says what a template says of a type.
#[tactic(auto, unfolding(crate::specs::Items::template_statement))]
pub(crate) fn template_statement(
    alloc: Global,
    ty: [u8; 4],
    datum: &[u8],
) -> Result<Vec<u8>, TemplateFault>
    ensures { Returns bytes_in result (spec.template_statement ty datum.now) }
{
    let mut draft = Draft::new(alloc);
    draft.add_items(alloc, MOST_ITEMS, datum)?;
    let fields = draft.into_fields()?;
    Ok(statement(alloc, ty, fields.as_slice())?)
}

//! The text of a type's declaration.

ghost use Rattle.std.specs.Prelude.{◌≡◌, ◌++◌, codes, map, IfOk, OnOk, option_map};
ghost use Rattle.byteorder.specs.Endian.{big_number};
ghost use Rattle.rez_types.specs.View.{fields_of, field_of, blocks_of, case_of, part_of, number_of};
ghost use Rattle.rez_types.specs.View.{text_of, end_of, declaration_of};
ghost use Rattle.rez_printing.specs.Pieces.{in_quotes};
ghost use Rattle.rez_printing.specs.TypeText as spec;

use crate::pieces::{push_decimal, push_hex_number, push_quoted, push_signed, push_word};
use byteorder::{BigEndian, ByteOrder};
use rez_types::{
    Array, ArrayEnd, Block, Boundary, Case, Constant, Count, Declaration, Field, Form, Integer,
    NamedNumber, NamedText, Part, Switch, Text, TextEnd, Width,
};
use std::alloc::{AllocError, Global};

/// How deep blocks may stand in one another.
const MOST_DEPTH: u8 = 8;

/// How many counts are told apart.
const MOST_COUNTS: usize = 512;

/// Appends a number in brackets.
#[tactic(auto, unfolding(crate::specs::TypeText::in_brackets))]
fn push_brackets(out: &mut Vec<u8>, number: u64) -> Result<(), AllocError>
    ensures { OnOk result (out.new.items ≡ out.old.items ++ spec.in_brackets number) }
{
    push_word(out, b"[")?;
    push_decimal(out, number)?;
    push_word(out, b"]")
}

/// Appends the word for an integer of so many bits.
fn push_width(out: &mut Vec<u8>, width: Width) -> Result<(), AllocError>
    ensures { OnOk result (out.new.items ≡ out.old.items ++ spec.width_word width.bits) }
{
    match width.bits {
        8 => push_word(out, b"byte"),
        16 => push_word(out, b"integer"),
        32 => push_word(out, b"longint"),
        bits => {
            push_word(out, b"bitstring")?;
            push_brackets(out, bits as u64)
        }
    }
}

/// Appends the word for an integer of so many bits after another word.
fn push_modified(out: &mut Vec<u8>, word: &[u8], width: Width) -> Result<(), AllocError>
    ensures { OnOk result (out.new.items
        ≡ out.old.items ++ (word.now ++ spec.width_word width.bits)) }
{
    push_word(out, word)?;
    push_width(out, width)
}

/// Appends the words for an integer.
fn push_integer_word(out: &mut Vec<u8>, form: Form, width: Width) -> Result<(), AllocError>
    ensures { OnOk result (out.new.items ≡ out.old.items ++ spec.integer_word form width.bits) }
{
    match form {
        Form::Signed => push_width(out, width),
        Form::Unsigned => push_modified(out, b"unsigned ", width),
        Form::Hex => push_modified(out, b"hex ", width),
        Form::Binary => push_modified(out, b"binary ", width),
        Form::Literal => push_modified(out, b"literal ", width),
        Form::Boolean => push_word(out, b"boolean"),
    }
}

/// Appends the number of a named constant.
fn push_constant(out: &mut Vec<u8>, form: Form, width: Width, number: u32) -> Result<(), AllocError>
    ensures { OnOk result (out.new.items
        ≡ out.old.items ++ spec.constant_text form width.bits number) }
{
    match form {
        Form::Signed => push_signed(out, width, number),
        Form::Hex => push_hex_number(out, number),
        _ => push_decimal(out, number as u64),
    }
}

/// Appends what stands before the named constant at a place.
fn push_before(out: &mut Vec<u8>, place: usize) -> Result<(), AllocError>
    ensures { OnOk result (out.new.items ≡ out.old.items ++ spec.before_constant place) }
{
    if place == 0 {
        push_word(out, b" ")
    } else {
        push_word(out, b", ")
    }
}

/// Appends the named constant at a place.
#[tactic(auto, unfolding(crate::specs::TypeText::constant_named))]
fn push_named_number(
    out: &mut Vec<u8>,
    place: usize,
    integer: &Integer,
    constant: &NamedNumber,
) -> Result<(), AllocError>
    ensures { OnOk result (out.new.items ≡ out.old.items
        ++ spec.constant_named place (number_of constant.now).name (spec.constant_text
        integer.now.form integer.now.width.bits (number_of constant.now).pattern)) }
{
    push_before(out, place)?;
    push_word(out, constant.name.as_slice())?;
    push_word(out, b" = ")?;
    push_constant(out, integer.form, integer.width, constant.pattern)
}

/// Appends an integer.
fn push_integer(out: &mut Vec<u8>, integer: &Integer) -> Result<(), AllocError>
    ensures { OnOk result (out.new.items ≡ out.old.items
        ++ (spec.integer_word integer.now.form integer.now.width.bits ++ spec.numbers_from 0
        integer.now.form integer.now.width.bits (map number_of integer.now.constants.items))) }
{
    push_integer_word(out, integer.form, integer.width)?;
    push_numbers(out, integer)
}

/// Appends the named constants of an integer.
fn push_numbers(out: &mut Vec<u8>, integer: &Integer) -> Result<(), AllocError>
    ensures { OnOk result (out.new.items ≡ out.old.items
        ++ spec.numbers_from 0 integer.now.form integer.now.width.bits
        (map number_of integer.now.constants.items)) }
{
    for (place, constant) in integer.constants.iter().enumerate() {
        push_named_number(out, place, integer, constant)?;
    }
    Ok(())
}

/// Appends the named string at a place.
#[tactic(auto, unfolding(crate::specs::TypeText::constant_named))]
fn push_named_text(out: &mut Vec<u8>, place: usize, constant: &NamedText) -> Result<(), AllocError>
    ensures { OnOk result (out.new.items ≡ out.old.items ++ spec.constant_named place
        (text_of constant.now).name (in_quotes 34 (text_of constant.now).text)) }
{
    push_before(out, place)?;
    push_word(out, constant.name.as_slice())?;
    push_word(out, b" = ")?;
    push_quoted(out, b'"', constant.text.as_slice())
}

/// Appends the named strings of a string.
fn push_texts(out: &mut Vec<u8>, constants: &[NamedText]) -> Result<(), AllocError>
    ensures { OnOk result (out.new.items
        ≡ out.old.items ++ spec.texts_from 0 (map text_of constants.now)) }
{
    for (place, constant) in constants.iter().enumerate() {
        push_named_text(out, place, constant)?;
    }
    Ok(())
}

/// Returns the name of an array that the count at a place ends.
fn name_counted(place: usize, field: &Field) -> Option<&[u8]>
    ensures { option_map (λ n. n.now) result ≡ spec.name_counted place (field_of field.now) }
{
    let Field::Array(array) = field else {
        return None;
    };
    match array.end {
        ArrayEnd::Counted(end) if end == place => Some(array.name.as_slice()),
        _ => None,
    }
}

/// Appends the name of the first such array among fields.
fn push_counted_name(out: &mut Vec<u8>, place: usize, fields: &[Field]) -> Result<(), AllocError>
    ensures { OnOk result (out.new.items
        ≡ out.old.items ++ spec.array_counted place (fields_of fields.now)) }
{
    for field in fields {
        if let Some(name) = name_counted(place, field) {
            return push_word(out, name);
        }
    }
    Ok(())
}

/// Appends ` - 1` to a count that is one less.
fn push_minus_one(out: &mut Vec<u8>, is_less_one: bool) -> Result<(), AllocError>
    ensures { OnOk result (out.new.items ≡ out.old.items ++ spec.minus_one is_less_one) }
{
    if is_less_one {
        push_word(out, b" - 1")
    } else {
        Ok(())
    }
}

/// Appends what stands before the name of a count's array.
#[tactic(auto, unfolding(crate::specs::TypeText::count_head))]
fn push_count_head(out: &mut Vec<u8>, width: Width) -> Result<(), AllocError>
    ensures { OnOk result (out.new.items ≡ out.old.items ++ spec.count_head width.bits) }
{
    push_width(out, width)?;
    push_word(out, b" = $$CountOf(")
}

/// Appends a count, where so many counts of its block stand before it, and the block has these
/// fields.
#[tactic(auto, unfolding(crate::specs::TypeText::count_text))]
fn push_count(
    out: &mut Vec<u8>,
    all: &[Field],
    counts: usize,
    count: Count,
) -> Result<(), AllocError>
    ensures { OnOk result (out.new.items ≡ out.old.items
        ++ spec.count_text count.width.bits
        (spec.array_counted counts (fields_of all.now)) count.is_less_one) }
{
    push_count_head(out, count.width)?;
    push_counted_name(out, counts, all)?;
    push_word(out, b")")?;
    push_minus_one(out, count.is_less_one)
}

/// Appends the word for a key.
fn push_key(out: &mut Vec<u8>, is_key: bool) -> Result<(), AllocError>
    ensures { OnOk result (out.new.items ≡ out.old.items ++ spec.key_word is_key) }
{
    if is_key {
        push_word(out, b"key ")
    } else {
        Ok(())
    }
}

/// Appends a constant.
#[tactic(auto, unfolding(crate::specs::TypeText::fixed_text))]
fn push_fixed(out: &mut Vec<u8>, constant: Constant) -> Result<(), AllocError>
    ensures { OnOk result (out.new.items ≡ out.old.items
        ++ spec.fixed_text constant.width.bits constant.pattern constant.is_key) }
{
    push_key(out, constant.is_key)?;
    push_width(out, constant.width)?;
    push_word(out, b" = ")?;
    push_hex_number(out, constant.pattern)
}

/// Appends bits of a fill.
fn push_bits(out: &mut Vec<u8>, width: Width) -> Result<(), AllocError>
    ensures { OnOk result (out.new.items
        ≡ out.old.items ++ (codes "fill bit" ++ spec.in_brackets width.bits)) }
{
    push_word(out, b"fill bit")?;
    push_brackets(out, width.bits as u64)
}

/// Appends a part of a run.
fn push_part(out: &mut Vec<u8>, all: &[Field], counts: usize, part: &Part) -> Result<(), AllocError>
    ensures { OnOk result (out.new.items ≡ out.old.items
        ++ spec.part_text (fields_of all.now) counts (part_of part.now)) }
{
    match part {
        Part::Integer(integer) => push_integer(out, integer),
        Part::Constant(constant) => push_fixed(out, *constant),
        Part::Count(count) => push_count(out, all, counts, *count),
        Part::Fill(width) => push_bits(out, *width),
    }
}

/// Returns how many counts stand before what follows a part.
fn counts_after(part: &Part, counts: usize) -> usize
    ensures { result ≡ spec.counts_after (part_of part.now) counts }
{
    match part {
        Part::Count(_) if counts < MOST_COUNTS => counts + 1,
        _ => counts,
    }
}

/// Appends the parts of a run in turn, and returns how many counts stand before what follows them.
fn push_parts(
    out: &mut Vec<u8>,
    all: &[Field],
    before: usize,
    parts: &[Part],
) -> Result<usize, AllocError>
    ensures text { OnOk result (out.new.items ≡ out.old.items
        ++ spec.parts_text (fields_of all.now) before (map part_of parts.now)) }
    ensures counts { IfOk result (λ n. n ≡ spec.counts_past (map part_of parts.now) before) }
{
    let mut counts = before;
    for part in parts {
        push_part(out, all, counts, part)?;
        push_word(out, b"; ")?;
        counts = counts_after(part, counts);
    }
    Ok(counts)
}

/// Appends a fill of bytes.
fn push_fill(out: &mut Vec<u8>, count: u16) -> Result<(), AllocError>
    ensures { OnOk result (out.new.items ≡ out.old.items ++ spec.fill_word count) }
{
    push_word(out, b"fill byte")?;
    if count == 1 {
        Ok(())
    } else {
        push_brackets(out, count as u64)
    }
}

/// Appends an alignment.
fn push_align(out: &mut Vec<u8>, boundary: Boundary) -> Result<(), AllocError>
    ensures { OnOk result (out.new.items ≡ out.old.items ++ spec.align_word boundary) }
{
    match boundary {
        Boundary::Word => push_word(out, b"align word"),
        Boundary::Long => push_word(out, b"align long"),
    }
}

/// Appends the word for how a string is written.
fn push_hex_word(out: &mut Vec<u8>, is_hex: bool) -> Result<(), AllocError>
    ensures { OnOk result (out.new.items ≡ out.old.items ++ spec.hex_word is_hex) }
{
    if is_hex {
        push_word(out, b"hex ")
    } else {
        Ok(())
    }
}

/// Appends a string of so many bytes.
fn push_fixed_text(out: &mut Vec<u8>, count: u16) -> Result<(), AllocError>
    ensures { OnOk result (out.new.items
        ≡ out.old.items ++ (codes "string" ++ spec.in_brackets count)) }
{
    push_word(out, b"string")?;
    push_brackets(out, count as u64)
}

/// Appends the word for how a string ends.
fn push_text_word(out: &mut Vec<u8>, end: TextEnd) -> Result<(), AllocError>
    ensures { OnOk result (out.new.items ≡ out.old.items ++ spec.text_word end) }
{
    match end {
        TextEnd::Pascal => push_word(out, b"pstring"),
        TextEnd::C => push_word(out, b"cstring"),
        TextEnd::Char => push_word(out, b"char"),
        TextEnd::Fixed(count) => push_fixed_text(out, count),
        TextEnd::Resource => push_word(out, b"string"),
    }
}

/// Appends a string.
#[tactic(auto, unfolding(crate::specs::TypeText::string_word))]
fn push_text(out: &mut Vec<u8>, text: &Text) -> Result<(), AllocError>
    ensures { OnOk result (out.new.items ≡ out.old.items
        ++ spec.string_word text.now.end text.now.is_hex (map text_of text.now.constants.items)) }
{
    push_hex_word(out, text.is_hex)?;
    push_text_word(out, text.end)?;
    push_texts(out, text.constants.as_slice())
}

/// Appends the name of an array, where it has one.
fn push_name(out: &mut Vec<u8>, name: &[u8]) -> Result<(), AllocError>
    ensures { OnOk result (out.new.items ≡ out.old.items ++ spec.name_word name.now) }
{
    if name.is_empty() {
        return Ok(());
    }
    push_word(out, name)?;
    push_word(out, b" ")
}

/// Appends the length of an array, where it is stated.
fn push_length(out: &mut Vec<u8>, end: ArrayEnd) -> Result<(), AllocError>
    ensures { OnOk result (out.new.items ≡ out.old.items ++ spec.length_word (end_of end)) }
{
    match end {
        ArrayEnd::Fixed(count) => {
            push_brackets(out, count as u64)?;
            push_word(out, b" ")
        }
        ArrayEnd::Counted(_) => Ok(()),
        ArrayEnd::Constant(_) => Ok(()),
        ArrayEnd::Resource => Ok(()),
    }
}

/// Appends what stands before the fields of an array.
#[tactic(auto, unfolding(crate::specs::TypeText::array_word))]
fn push_array_word(out: &mut Vec<u8>, array: &Array) -> Result<(), AllocError>
    ensures { OnOk result (out.new.items ≡ out.old.items
        ++ spec.array_word array.now.name.items (end_of array.now.end)) }
{
    push_word(out, b"array ")?;
    push_name(out, array.name.as_slice())?;
    push_length(out, array.end)?;
    push_word(out, b"{ ")
}

/// Appends what stands before the fields of a case.
#[tactic(auto, unfolding(crate::specs::TypeText::case_word))]
fn push_case_word(out: &mut Vec<u8>, name: &[u8]) -> Result<(), AllocError>
    ensures { OnOk result (out.new.items ≡ out.old.items ++ spec.case_word name.now) }
{
    push_word(out, b"case ")?;
    push_word(out, name)?;
    push_word(out, b": ")
}

/// Appends the cases of a switch.
#[cycle(declare)]
fn push_cases(
    out: &mut Vec<u8>,
    depth: u8,
    blocks: &[Block],
    cases: &[Case],
) -> Result<(), AllocError>
    ensures { OnOk result (out.new.items ≡ out.old.items
        ++ spec.cases_text (spec.block_text depth (blocks_of blocks.now)) (map case_of cases.now)) }
{
    for case in cases {
        push_case_word(out, case.name.as_slice())?;
        push_block(out, depth, blocks, case.block)?;
    }
    Ok(())
}

/// Appends an array.
#[cycle(declare)]
#[tactic(auto, unfolding(crate::specs::TypeText::array_text))]
fn push_array(
    out: &mut Vec<u8>,
    depth: u8,
    blocks: &[Block],
    array: &Array,
) -> Result<(), AllocError>
    ensures { OnOk result (out.new.items ≡ out.old.items
        ++ spec.array_text (spec.block_text depth (blocks_of blocks.now)) array.now.name.items
        (end_of array.now.end) array.now.block) }
{
    push_array_word(out, array)?;
    push_block(out, depth, blocks, array.block)?;
    push_word(out, b"}")
}

/// Appends a switch.
#[cycle(declare)]
#[tactic(auto, unfolding(crate::specs::TypeText::switch_text))]
fn push_switch(
    out: &mut Vec<u8>,
    depth: u8,
    blocks: &[Block],
    switch: &Switch,
) -> Result<(), AllocError>
    ensures { OnOk result (out.new.items ≡ out.old.items
        ++ spec.switch_text (spec.block_text depth (blocks_of blocks.now))
        (map case_of switch.now.cases.items)) }
{
    push_word(out, b"switch { ")?;
    push_cases(out, depth, blocks, switch.cases.as_slice())?;
    push_word(out, b"}")
}

/// Appends a field that is no run.
#[cycle(declare)]
fn push_whole(
    out: &mut Vec<u8>,
    depth: u8,
    blocks: &[Block],
    field: &Field,
) -> Result<(), AllocError>
    ensures { OnOk result (out.new.items ≡ out.old.items
        ++ spec.whole_text (spec.block_text depth (blocks_of blocks.now)) (field_of field.now)) }
{
    match field {
        Field::Run(_) => Ok(()),
        Field::Fill(count) => push_fill(out, *count),
        Field::Align(boundary) => push_align(out, *boundary),
        Field::Text(text) => push_text(out, text),
        Field::Point => push_word(out, b"point"),
        Field::Rect => push_word(out, b"rect"),
        Field::Array(array) => push_array(out, depth, blocks, array),
        Field::Switch(switch) => push_switch(out, depth, blocks, switch),
    }
}

/// Appends a field that is no run, and what stands after it.
#[cycle(declare)]
fn push_ended(
    out: &mut Vec<u8>,
    depth: u8,
    blocks: &[Block],
    field: &Field,
) -> Result<(), AllocError>
    ensures { OnOk result (out.new.items ≡ out.old.items
        ++ (spec.whole_text (spec.block_text depth (blocks_of blocks.now)) (field_of field.now)
        ++ codes "; ")) }
{
    push_whole(out, depth, blocks, field)?;
    push_word(out, b"; ")
}

/// Appends a field, and returns how many counts stand before what follows it.
#[cycle(declare)]
fn push_field(
    out: &mut Vec<u8>,
    depth: u8,
    blocks: &[Block],
    all: &[Field],
    counts: usize,
    field: &Field,
) -> Result<usize, AllocError>
    ensures text { OnOk result (out.new.items ≡ out.old.items
        ++ spec.field_text (spec.block_text depth (blocks_of blocks.now)) (fields_of all.now) counts
        (field_of field.now)) }
    ensures counts { IfOk result (λ n. n ≡ spec.counts_after_field (field_of field.now) counts) }
{
    match field {
        Field::Run(run) => push_parts(out, all, counts, run.parts.as_slice()),
        _ => {
            push_ended(out, depth, blocks, field)?;
            Ok(counts)
        }
    }
}

/// Appends the fields of a block in turn.
#[cycle(declare)]
fn push_fields(
    out: &mut Vec<u8>,
    depth: u8,
    blocks: &[Block],
    fields: &[Field],
) -> Result<(), AllocError>
    ensures { OnOk result (out.new.items ≡ out.old.items
        ++ spec.fields_from (spec.block_text depth (blocks_of blocks.now)) (fields_of fields.now) 0
        (fields_of fields.now)) }
{
    let mut counts = 0;
    for field in fields {
        counts = push_field(out, depth, blocks, fields, counts, field)?;
    }
    Ok(())
}

/// Appends the fields of a block.
#[cycle(declare)]
fn push_block(
    out: &mut Vec<u8>,
    depth: u8,
    blocks: &[Block],
    block: usize,
) -> Result<(), AllocError>
    ensures { OnOk result (out.new.items
        ≡ out.old.items ++ spec.block_text depth (blocks_of blocks.now) block) }
{
    if depth == 0 {
        return Ok(());
    }
    match blocks.get(block) {
        Some(found) => push_fields(out, depth - 1, blocks, found.fields.as_slice()),
        None => Ok(()),
    }
}

/// Appends the type of a declaration, and what stands before it and before its fields.
#[tactic(auto, unfolding(crate::specs::TypeText::type_word))]
fn push_type(out: &mut Vec<u8>, ty: u32) -> Result<(), AllocError>
    ensures { OnOk result (out.new.items ≡ out.old.items ++ spec.type_word ty) }
{
    let mut bytes = [0; 4];
    BigEndian::write_u32(&mut bytes, ty);
    push_word(out, b"type ")?;
    push_quoted(out, b'\'', &bytes)?;
    push_word(out, b" { ")
}

/// Returns the declaration of a type up to its closing brace.
#[tactic(auto, unfolding(crate::specs::TypeText::open_text))]
fn open_text(alloc: Global, ty: [u8; 4], declaration: &Declaration) -> Result<Vec<u8>, AllocError>
    ensures { IfOk result (λ text. text.items
        ≡ spec.open_text (big_number 4 ty) (declaration_of declaration.now)) }
{
    let mut out = Vec::new(alloc);
    push_type(&mut out, BigEndian::read_u32(&ty))?;
    push_fields(
        &mut out,
        MOST_DEPTH,
        declaration.blocks.as_slice(),
        declaration.fields.as_slice(),
    )?;
    Ok(out)
}

/// Returns the declaration of a type as a statement `type` on one line, without the end of the
/// line. What no statement can state, as a count without an array, is written as another text,
/// which is refused or has another meaning.
#[tactic(auto, unfolding(crate::specs::TypeText::declared_text))]
pub fn declaration_text(
    alloc: Global,
    ty: [u8; 4],
    declaration: &Declaration,
) -> Result<Vec<u8>, AllocError>
    ensures { IfOk result (λ text. text.items
        ≡ spec.declared_text (big_number 4 ty) (declaration_of declaration.now)) }
{
    let mut out = open_text(alloc, ty, declaration)?;
    push_word(&mut out, b"};")?;
    Ok(out)
}

/// Returns the same with one field more, at the end: a hexadecimal string up to the end of the
/// resource.
#[tactic(auto, unfolding(crate::specs::TypeText::tailed_text))]
pub fn tailed_declaration_text(
    alloc: Global,
    ty: [u8; 4],
    declaration: &Declaration,
) -> Result<Vec<u8>, AllocError>
    ensures { IfOk result (λ text. text.items
        ≡ spec.tailed_text (big_number 4 ty) (declaration_of declaration.now)) }
{
    let mut out = open_text(alloc, ty, declaration)?;
    push_word(&mut out, b"hex string; };")?;
    Ok(out)
}

//! Declarations that are refused, with the line and the reason.

use crate::words::tokens_of;
use anyhow::{Result, bail};
use rez_declarations::read_type;
use std::alloc::Global;
use std::process::Abort;

const UNREAD: [(&str, &str); 6] = [
    ("data", "line 1: a declaration is needed"),
    ("type 'STR'", "line 1: a type of four characters is needed"),
    (
        "type 'STR_' {\n pstring\n }",
        "line 3: a semicolon is needed",
    ),
    (
        "type 'TEST' { bitstring [ 33 ] ; } ;",
        "line 1: a bit string of 1 to 32 bits is needed",
    ),
    (
        "type 'TEST' { byte a = 256 ; } ;",
        "line 1: a constant out of range",
    ),
    (
        "type 'TEST' { array [ 0 ] { byte ; } ; } ;",
        "line 1: a length from 1 to 65535 is needed",
    ),
];

const NO_WHOLE_BYTES: &str = "line 1: bits that are not one to four whole bytes";

const TWO_NAMES: &str = "line 1: two constants, cases or arrays of one name";

const TWO_FILLS: &str = "line 1: two fills with nothing stated between them";

const NO_SUCH_TEXT: &str = "line 1: a constant that is no such string";

const NOT_LAST: &str =
    "line 1: a string or an array without an end that is not at the end of the resource";

const NO_COUNT: &str = "line 1: a count that is not the count of one array after it";

const NO_KEY: &str = "line 1: a case without a key after fields of fixed length";

const KEYS_APART: &str = "line 1: keys at different places";

const UNSOUND: [(&str, &str); 32] = [
    (
        "type 'TEST' { bitstring [ 3 ] ; point ; } ;",
        NO_WHOLE_BYTES,
    ),
    ("type 'TEST' { bitstring [ 3 ] ; } ;", NO_WHOLE_BYTES),
    (
        "type 'TEST' { bitstring [ 3 ] ; bitstring [ 30 ] ; } ;",
        NO_WHOLE_BYTES,
    ),
    ("type 'TEST' { byte a , A ; } ;", TWO_NAMES),
    (
        "type 'TEST' { pstring a = \"x\" , A = \"y\" ; } ;",
        TWO_NAMES,
    ),
    (
        "type 'TEST' { array a [ 1 ] { byte ; } ; array A [ 1 ] { byte ; } ; } ;",
        TWO_NAMES,
    ),
    (
        "type 'TEST' { switch { case a : key byte = 1 ; case A : key byte = 2 ; } ; } ;",
        TWO_NAMES,
    ),
    (
        "type 'TEST' { fill byte [ 257 ] ; } ;",
        "line 1: a fill of more than 256 bytes",
    ),
    ("type 'TEST' { fill word ; align word ; } ;", TWO_FILLS),
    ("type 'TEST' { fill nibble ; fill nibble ; } ;", TWO_FILLS),
    (
        "type 'TEST' { fill word ; byte = 1 ; fill word ; } ;",
        TWO_FILLS,
    ),
    ("type 'TEST' { char none = \"\" ; } ;", NO_SUCH_TEXT),
    (
        "type 'TEST' { string [ 2 ] long = \"abc\" ; } ;",
        NO_SUCH_TEXT,
    ),
    ("type 'STR_' {\n string ;\n point ; } ;", NOT_LAST),
    ("type 'TEST' { array { string ; } ; } ;", NOT_LAST),
    (
        "type 'TEST' { switch { case a : key byte = 1 ; string ; case b : key byte = 2 ; } ; byte ; } ;",
        NOT_LAST,
    ),
    ("type 'TEST' { integer = $$CountOf ( none ) ; } ;", NO_COUNT),
    (
        "type 'TEST' { array after { byte ; } ; byte = 1 ; integer = $$CountOf ( after ) ; } ;",
        NO_COUNT,
    ),
    (
        "type 'TEST' { integer = $$CountOf ( a ) ; array a [ 2 ] { byte ; } ; } ;",
        NO_COUNT,
    ),
    (
        "type 'TEST' { array { pstring ; } ; integer ; } ;",
        "line 1: an array without an end: give it a length, a count or a constant after it, or put it last",
    ),
    (
        "type 'TEST' { array { byte ; } ; integer = 0 ; } ;",
        "line 1: a constant after an array that is longer than an element may be",
    ),
    (
        "type 'TEST' { array { align word ; } ; } ;",
        "line 1: elements that may have no bytes",
    ),
    (
        "type 'TEST' { array { array [ 2 ] { fill byte ; } ; } ; } ;",
        "line 1: elements that state nothing",
    ),
    (
        "type 'TEST' { array { byte = 1 ; } ; } ;",
        "line 1: elements that state nothing",
    ),
    (
        "type 'TEST' { array [ 1 ] { array [ 1 ] { array [ 1 ] { array [ 1 ] { array [ 1 ] { array [ 1 ] { array [ 1 ] { array [ 1 ] { array [ 1 ] { byte ; } ; } ; } ; } ; } ; } ; } ; } ; } ; } ;",
        "line 1: arrays and switches more than 8 deep",
    ),
    (
        "type 'TEST' { switch { } ; } ;",
        "line 1: a switch without a case",
    ),
    ("type 'TEST' { switch { case a : byte ; } ; } ;", NO_KEY),
    (
        "type 'TEST' { switch { case a : pstring ; key byte = 1 ; } ; } ;",
        NO_KEY,
    ),
    (
        "type 'TEST' { switch { case a : key byte = 1 ; case b : byte ; key byte = 2 ; } ; } ;",
        KEYS_APART,
    ),
    (
        "type 'TEST' { switch { case a : key byte = 1 ; case b : key integer = 2 ; } ; } ;",
        KEYS_APART,
    ),
    (
        "type 'TEST' { switch { case a : key byte = 1 ; case b : key byte = 1 ; } ; } ;",
        "line 1: two cases of one key",
    ),
    (
        "type 'TEST' { array [ 65535 ] { array [ 257 ] { byte ; } ; } ; } ;",
        "line 1: more bytes than a resource can have",
    ),
];

/// Declarations at their limits, which have no fault.
const SOUND: [(&str, &str); 5] = [
    ("type 'TEST' { fill byte [ 256 ] ; } ;", ""),
    ("type 'TEST' { bitstring [ 1 ] ; bitstring [ 31 ] ; } ;", ""),
    (
        "type 'TEST' { array [ 1 ] { array [ 1 ] { array [ 1 ] { array [ 1 ] { array [ 1 ] { array [ 1 ] { array [ 1 ] { array [ 1 ] { byte ; } ; } ; } ; } ; } ; } ; } ; } ; } ;",
        "",
    ),
    (
        "type 'TEST' { string [ 65535 ] ; array [ 65535 ] { string [ 255 ] ; } ; string [ 256 ] ; } ;",
        "",
    ),
    (
        "type 'TEST' { switch { case a : key byte = 1 ; string ; case b : key byte = 2 ; } ; } ;",
        "",
    ),
];

/// Returns why a declaration is refused; nothing where it is read.
fn reason_of(alloc: Global, text: &str) -> Result<String> {
    let tokens = tokens_of(alloc, text)?;
    match read_type(alloc, tokens.as_slice()) {
        Ok(_) => Ok(String::new(alloc)),
        Err(fault) => Ok(format!(in alloc; "{fault}")?),
    }
}

/// Returns a declaration of so many fields.
fn many_fields(alloc: Global, fields: usize) -> Result<String> {
    let mut text = String::new(alloc);
    text.push_str("type 'TEST' { ")?;
    for _ in 0..fields {
        text.push_str("byte ; ")?;
    }
    text.push_str("} ;")?;
    Ok(text)
}

/// Asserts that declarations are refused, each for its reason; an empty reason is that of one that
/// is read.
fn assert_reasons(rt: &impl Abort, alloc: Global, rows: &[(&str, &str)]) -> Result<()> {
    for (text, reason) in rows {
        assert_eq!(rt; reason_of(alloc, text)?.as_str(), *reason, "of {text}");
    }
    Ok(())
}

#[test]
fn declarations_are_not_read(rt: HostRuntime) -> Result<()> {
    assert_reasons(&rt, rt.alloc(), &UNREAD)
}

#[test]
fn declarations_are_not_sound(rt: HostRuntime) -> Result<()> {
    assert_reasons(&rt, rt.alloc(), &UNSOUND)
}

#[test]
fn declarations_at_their_limits_are_sound(rt: HostRuntime) -> Result<()> {
    assert_reasons(&rt, rt.alloc(), &SOUND)
}

#[test]
fn declarations_have_512_fields_at_most(rt: HostRuntime) -> Result<()> {
    let alloc = rt.alloc();
    let most = many_fields(alloc, 512)?;
    let more = many_fields(alloc, 513)?;
    let rows = [
        (most.as_str(), ""),
        (more.as_str(), "line 1: more than 512 fields"),
    ];
    assert_reasons(&rt, alloc, &rows)
}

//! The words of fields.

/// A word before the word of a field.
#[derive(Clone, Copy)]
pub(crate) enum Modifier {
    Key,
    Unsigned,
    Decimal,
    Hex,
    Binary,
    Literal,
    Wide,
}

/// The word of a field.
#[derive(Clone, Copy)]
pub(crate) enum Kind {
    Boolean,
    Bitstring,
    Byte,
    Integer,
    Longint,
    Pstring,
    Cstring,
    String,
    Char,
    Point,
    Rect,
    Fill,
    Align,
    Array,
    Switch,
}

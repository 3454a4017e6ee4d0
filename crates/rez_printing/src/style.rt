//! How a resource's values are printed.

/// Whether the elements of arrays are numbered.
#[derive(Clone, Copy)]
pub enum Numbering {
    /// They are not.
    None,
    /// A comment at the head of an array says how many elements it has, and one before each element
    /// which one it is.
    Elements,
}

/// How a byte from 0x80 on stands between quotes.
#[derive(Clone, Copy)]
pub enum Letters {
    /// As an escape.
    Ascii,
    /// As it is: a character of Mac Roman.
    Roman,
}

/// Whether hexadecimal strings are pictures.
#[derive(Clone, Copy)]
pub enum Pictures {
    /// None is.
    None,
    /// Those of 8, 24, 32 and 128 bytes are, with a bit for each point: their rows stand on lines
    /// of their own, and beside each the points in a comment.
    OneBit,
}

/// How a resource's values are printed.
#[derive(Clone, Copy)]
pub struct Style {
    /// Whether the elements of arrays are numbered.
    pub numbering: Numbering,
    /// How a byte from 0x80 on stands between quotes.
    pub letters: Letters,
    /// Whether hexadecimal strings are pictures.
    pub pictures: Pictures,
}

impl Style {
    /// Without numbers and pictures, in ASCII.
    pub const PLAIN: Style = Style {
        numbering: Numbering::None,
        letters: Letters::Ascii,
        pictures: Pictures::None,
    };
}

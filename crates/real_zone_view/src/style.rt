//! How the text of a zone is laid out.

/// What stands between the fields of a line.
#[derive(Clone, Copy, Debug, PartialEq, Eq)]
pub enum Fields {
    /// Blanks, so that the fields stand in columns with titles.
    Columns,
    /// A tab, and no titles; a word at the beginning of a line says what the line is.
    Tabs,
}

/// How sizes are written.
#[derive(Clone, Copy, Debug, PartialEq, Eq)]
pub enum Digits {
    Decimal,
    /// Eight hexadecimal digits, as addresses are written.
    Hexadecimal,
}

/// How the text of a zone is laid out.
#[derive(Clone, Copy, Debug, PartialEq, Eq)]
pub struct Style {
    pub fields: Fields,
    pub digits: Digits,
}

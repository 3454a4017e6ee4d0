//! What stands between the values of a statement.

ghost use Rattle.std.specs.Prelude.{◌≡◌};
ghost use Rattle.rez_printing.specs.Layouts as spec;

/// How values stand beside one another.
#[derive(Clone, Copy)]
pub(crate) enum Layout {
    /// Each on a line of its own, as the fields of the resource do.
    Lines,
    /// Side by side, as those of an element or a case do.
    Flat,
}

/// What stands before a value.
#[derive(Clone, Copy)]
pub(crate) enum Gap {
    /// Nothing.
    Nothing,
    /// A blank, after an opening brace.
    Blank,
    /// A comma, after another value.
    Comma,
    /// A semicolon, after another element.
    Semicolon,
    /// A tab, before the first value of all.
    FirstLine,
    /// A comma and the end of a line, after another field.
    NextLine,
    /// The end of a line, before the first element.
    FirstRow,
    /// A semicolon and the end of a line, after another element.
    NextRow,
}

impl Gap {
    /// Returns the text of the gap.
    pub fn text(self) -> &'static [u8]
        ensures { result.now ≡ spec.gap_text self }
    {
        match self {
            Gap::Nothing => b"",
            Gap::Blank => b" ",
            Gap::Comma => b", ",
            Gap::Semicolon => b"; ",
            Gap::FirstLine => b"\t",
            Gap::NextLine => b",\n\t",
            Gap::FirstRow => b"\n\t\t",
            Gap::NextRow => b";\n\t\t",
        }
    }

    /// Returns what stands before the comment of a fill.
    pub fn before_fill(self) -> &'static [u8]
        ensures { result.now ≡ spec.fill_gap self }
    {
        match self {
            Gap::Semicolon | Gap::FirstLine | Gap::FirstRow | Gap::NextRow => self.text(),
            _ => b" ",
        }
    }

    /// Returns what stands before a value after the comment of a fill.
    pub fn after_fill(self) -> Gap
        ensures { result ≡ spec.gap_filled self }
    {
        match self {
            Gap::Semicolon | Gap::FirstLine | Gap::FirstRow | Gap::NextRow => Gap::Blank,
            _ => self,
        }
    }

    /// Returns the end of the last line, where no other value follows.
    pub fn last_line(self) -> &'static [u8]
        ensures { result.now ≡ spec.last_line self }
    {
        match self {
            Gap::FirstLine => b"",
            _ => b"\n",
        }
    }
}

impl Layout {
    /// Returns what stands between a value and the next one.
    pub fn between(self) -> Gap
        ensures { result ≡ spec.gap_between self }
    {
        match self {
            Layout::Lines => Gap::NextLine,
            Layout::Flat => Gap::Comma,
        }
    }

    /// Returns what stands before the first element of an array among such values.
    pub fn first(self) -> Gap
        ensures { result ≡ spec.gap_first self }
    {
        match self {
            Layout::Lines => Gap::FirstRow,
            Layout::Flat => Gap::Blank,
        }
    }

    /// Returns what stands between the brace that opens it and the comment that says how many
    /// elements it has.
    pub fn array_gap(self) -> &'static [u8]
        ensures { result.now ≡ spec.array_gap self }
    {
        match self {
            Layout::Lines => b"\t",
            Layout::Flat => b" ",
        }
    }

    /// Returns what stands before each other element.
    pub fn next(self) -> Gap
        ensures { result ≡ spec.gap_next self }
    {
        match self {
            Layout::Lines => Gap::NextRow,
            Layout::Flat => Gap::Semicolon,
        }
    }

    /// Returns what stands between two rows of a picture among such values.
    pub fn row_break(self) -> &'static [u8]
        ensures { result.now ≡ spec.row_break self }
    {
        match self {
            Layout::Lines => b"\n\t",
            Layout::Flat => b"\n\t\t",
        }
    }

    /// Returns the end of such an array.
    pub fn array_end(self) -> &'static [u8]
        ensures { result.now ≡ spec.array_end self }
    {
        match self {
            Layout::Lines => b"\n\t}",
            Layout::Flat => b" }",
        }
    }
}

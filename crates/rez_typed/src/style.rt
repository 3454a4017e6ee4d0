//! How a content is printed as source.

ghost use Rattle.std.specs.Prelude.{◌≡◌};
ghost use Rattle.rez_typed.specs.Styles as spec;

use mac_roman::Charset;
use rez_printing::{Letters, Numbering, Pictures, Style};
use rez_text::Lettering;

/// How the characters of a source are coded.
#[derive(Clone, Copy)]
pub enum Coding {
    /// A byte from 0x80 on is an escape. The comments beside data are in the characters of a set.
    Bytes(Charset),
    /// In UTF-8, which a comment at the head of the text says. A byte from 0x80 on is its character
    /// in Mac Roman.
    Utf8,
}

/// How a content is printed as source.
#[derive(Clone, Copy)]
pub struct SourceStyle {
    /// Whether the elements of arrays are numbered.
    pub numbering: Numbering,
    /// How characters are coded.
    pub coding: Coding,
}

/// 'ICON', an icon.
const ICON: u32 = 0x4943_4F4E;
/// 'ICN#', icons with masks.
const ICON_LIST: u32 = 0x4943_4E23;
/// 'ics#', small icons with masks.
const SMALL_ICON_LIST: u32 = 0x6963_7323;
/// 'icm#', mini icons with masks.
const MINI_ICON_LIST: u32 = 0x6963_6D23;
/// 'SICN', small icons.
const SMALL_ICONS: u32 = 0x5349_434E;
/// 'CURS', a cursor.
const CURSOR: u32 = 0x4355_5253;
/// 'PAT ', a pattern.
const PATTERN: u32 = 0x5041_5420;
/// 'PAT#', patterns.
const PATTERN_LIST: u32 = 0x5041_5423;

/// Returns whether hexadecimal strings are pictures in the resources of a type.
fn pictures_of(kind: u32) -> Pictures
    ensures { result ≡ spec.pictures_of kind }
{
    match kind {
        ICON
        | ICON_LIST
        | SMALL_ICON_LIST
        | MINI_ICON_LIST
        | SMALL_ICONS
        | CURSOR
        | PATTERN
        | PATTERN_LIST => Pictures::OneBit,
        _ => Pictures::None,
    }
}

impl Coding {
    /// Returns how bytes from 0x80 on stand in strings.
    fn letters(self) -> Letters
        ensures { result ≡ spec.letters_of self }
    {
        match self {
            Coding::Bytes(_) => Letters::Ascii,
            Coding::Utf8 => Letters::Roman,
        }
    }

    /// Returns how names, and the comments beside data, are printed.
    pub(crate) fn lettering(self) -> Lettering
        ensures { result ≡ spec.lettering_of self }
    {
        match self {
            Coding::Bytes(charset) => Lettering::Plain(charset),
            Coding::Utf8 => Lettering::Roman,
        }
    }
}

impl SourceStyle {
    /// Returns how the values of a type's resources are printed.
    pub(crate) fn of_type(self, kind: u32) -> Style
        ensures { result ≡ spec.style_of self kind }
    {
        Style {
            numbering: self.numbering,
            letters: self.coding.letters(),
            pictures: pictures_of(kind),
        }
    }
}

//! How names, and the comments beside data, are printed.

ghost use Rattle.std.specs.Prelude.{◌≡◌};
ghost use Rattle.rez_text.specs.Printing.{is_printable as is_printable_of, stands};

use mac_roman::Charset;

/// How names, and the comments beside data, are printed.
#[derive(Clone, Copy, Debug, PartialEq, Eq)]
pub enum Lettering {
    /// Names in ASCII, with escapes; the comments in the characters of a set.
    Plain(Charset),
    /// Both as bytes of Mac OS Roman: those from 0x80 on stand as they are.
    Roman,
}

/// Reports whether a byte is printable ASCII.
fn is_printable(byte: u8) -> bool
    ensures { result ≡ is_printable_of byte }
{
    32 <= byte && byte <= 126
}

impl Lettering {
    /// Reports whether a byte stands as it is between quotes, where it is neither a quote nor a
    /// `\`.
    pub(crate) fn stands(self, byte: u8) -> bool
        ensures { result ≡ stands self byte }
    {
        match self {
            Lettering::Plain(_) => is_printable(byte),
            Lettering::Roman => is_printable(byte) || byte >= 0x80,
        }
    }
}

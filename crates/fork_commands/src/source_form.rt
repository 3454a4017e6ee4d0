//! How a content is printed as source of Rez.

use mac_roman::Charset;
use rez_typed::SourceStyle;

/// How a content is printed.
#[derive(Clone, Copy)]
pub enum SourceForm {
    /// With a statement `resource` where a declaration of the type states the bytes, else `data`.
    /// Each type is declared before it is used.
    Typed(SourceStyle),
    /// With statements `data` alone, and comments beside data in the characters of a set.
    Data(Charset),
}

//! What the words before the word of a field say.

use rez_types::Form;

/// What they say so far.
#[derive(Clone, Copy)]
pub(crate) struct Modified {
    /// Whether the field is a key.
    pub is_key: bool,
    /// How an integer is written.
    pub form: Form,
}

//! Text in Mac OS Roman.
#![tactic(auto)]

mod charset;
mod laws;
mod roman;
mod table;

pub use charset::{Charset, append_character};
pub use laws::{ascii_text_is_taken_as_it_is, characters_are_one_to_one, roman_text_is_read_again};
pub use roman::{RomanFault, from_roman, to_roman};

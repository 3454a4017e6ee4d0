//! The text of a resource's values and of a type's declaration, in the language of Rez.
#![tactic(auto)]

mod layout;
mod pieces;
mod printer;
mod showing;
mod style;
mod type_text;

pub use showing::show;
pub use style::{Letters, Numbering, Pictures, Style};
pub use type_text::{declaration_text, tailed_declaration_text};

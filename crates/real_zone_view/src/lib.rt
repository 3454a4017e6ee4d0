//! The blocks of a zone as a real Macintosh lays it, as a text with totals; what is wrong with a
//! zone, and the zones in a dump.
#![tactic(auto)]

mod answers;
mod damages;
mod drawing;
mod dump;
mod fields;
mod finds;
mod picture;
mod style;
mod text;
mod totals;
mod view;

pub use answers::answer;
pub use dump::{Answer, DumpFault, DumpView, Place, Question, ViewFault};
pub use style::{Digits, Fields, Style};
pub use totals::Class;

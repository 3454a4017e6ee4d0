//! Types that are declared in the language of Rez, and the bytes of resources that are stated by
//! them.
#![tactic(auto)]

mod datum;
mod fault;
mod statement;
mod table;
mod types;

pub use datum::datum_by;
pub use fault::{StatementFault, StatementFaultAt, TypeName, TypesFault};
pub use statement::{DeclaringStatement, read_declaring};
pub use table::{DeclaredType, Types};

//! Scripts that make the zones of a dump anew, in the layout of this program.
#![tactic(auto)]

mod blocks;
mod fault;
mod lines;
mod script;
mod sizes;

pub use fault::ScriptFault;
pub use script::script_of;

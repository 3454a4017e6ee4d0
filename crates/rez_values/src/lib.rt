//! The values that a statement `resource` states, taken from its tokens by the declaration of its
//! type.
#![tactic(auto)]

mod fault;
mod naming;
mod stating;
mod taker;
mod taking;

pub use fault::{TakeFault, ValueFault, ValueFaultAt};
pub use taking::take;

//! Types that the templates of a resource fork declare.
#![tactic(auto)]

mod declaring;
mod draft;
mod fault;
mod item;

pub use declaring::declare_templates;

//! What a call does to a zone, move by move.
#![tactic(auto)]

/// A function, so that the crate has one.
pub fn nothing() {}

//! Plain laws of lists and bytes, which std lacks.
#![tactic(auto)]

/// A function, so that the crate has one.
pub fn nothing() {}

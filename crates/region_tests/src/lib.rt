//! Tests of the raw region, through its public functions.
#![tactic(auto)]

#[cfg(test)]
mod callers;
#[cfg(test)]
mod regions;
#[cfg(test)]
mod words;

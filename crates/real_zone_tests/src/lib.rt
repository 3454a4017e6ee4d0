//! Tests of zones in the bytes of a dump: small zones, laid by hand from the figures of *Inside
//! Macintosh: Memory*, chapter 2.
#![tactic(auto)]

#[cfg(test)]
mod broken;
#[cfg(test)]
mod rows;
#[cfg(test)]
mod whole;

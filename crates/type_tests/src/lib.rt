//! Tests of declarations of types: worked resources, whose layouts are those of *Inside Macintosh*.
#![tactic(auto)]

#[cfg(test)]
mod cases;
#[cfg(test)]
mod faults;
#[cfg(test)]
mod judged;
#[cfg(test)]
mod showing;
#[cfg(test)]
mod statements;
#[cfg(test)]
mod taking;
#[cfg(test)]
mod words;

//! Tests of heaps, of resource forks, and of the resource maps of open files.
#![tactic(auto)]

#[cfg(test)]
mod callers;
#[cfg(test)]
mod calls;
#[cfg(test)]
mod forks;
#[cfg(test)]
mod heaps;
#[cfg(test)]
mod maps;
#[cfg(test)]
mod memory;
#[cfg(test)]
mod recorder;
#[cfg(test)]
mod room_calls;
#[cfg(test)]
mod sinks;

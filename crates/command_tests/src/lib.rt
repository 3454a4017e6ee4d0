//! Tests of whole scripts, jobs and commands.
#![tactic(auto)]

#[cfg(test)]
mod callers;
#[cfg(test)]
mod chances;
#[cfg(test)]
mod generated;
#[cfg(test)]
mod hosts;
#[cfg(test)]
mod jobs;
#[cfg(test)]
mod offers;
#[cfg(test)]
mod readers;
#[cfg(test)]
mod regions;
#[cfg(test)]
mod stopped;
#[cfg(test)]
mod zones;

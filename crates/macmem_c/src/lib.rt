//! macmem for C, and for what can call C: heap zones, resource forks, and scripts.
#![tactic(auto)]

mod bytes;
mod calls;
mod codes;
mod delivering;
mod described;
mod faults;
mod forks;
mod handles;
mod kept;
mod kept_calls;
mod keys;
mod linted;
mod loose;
mod moving;
mod pairs;
mod pointers;
mod properties;
mod replaying;
mod rows;
mod scripts;
mod shown;
mod sizes;
mod sources;
mod space;
mod told;
mod zone;
mod zones;

//! The words of a zone: the headers of its blocks and its master pointers' slots, in the bytes of a
//! part. Places and numbers are those of the zone, which begins at place 0 of its part; each number
//! takes four bytes, the highest first.
#![tactic(auto)]

mod header;
mod laws;
mod slot;
mod word;

pub use header::{HEADER, Header, LOCKED, PURGEABLE, RESOURCE, Tag, read_header, write_header};
pub use laws::{header_read_again, slot_read_again};
pub use slot::{EMPTY, EMPTY_RESOURCE, SlotWord, read_slot, write_slot};
pub use word::{UNIT, read_word, write_word};

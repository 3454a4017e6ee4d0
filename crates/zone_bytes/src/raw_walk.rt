//! A walk over the blocks of a zone in the bytes of a part.

ghost use Rattle.std.specs.Prelude.{◌≡◌, ◌<◌, length};
ghost use Rattle.block_headers.specs.Headers.{tag_number};
ghost use Rattle.zone_bytes.specs.Stepping.{header_seen, left_in, IsOnWay, Steps};

use crate::words::read_header;
use block_headers::{HEADER, Header, LOCKED, PURGEABLE, Tag};
use block_store::{Flags, Seen, Walk};
use raw_region::Part;
use std::marker::Model;

/// Returns the block that a header describes, without its content.
pub fn seen_of(header: Header) -> Seen
    ensures { result
        ≡ header_seen (tag_number header.tag) header.size header.logical header.slot header.flags }
{
    let flags = Flags {
        locked: header.flags >= LOCKED,
        purgeable: header.flags % LOCKED >= PURGEABLE,
    };
    match header.tag {
        Tag::Free => Seen::Free(header.size),
        Tag::Nonrelocatable => Seen::Nonrelocatable(header.logical),
        Tag::Masters => Seen::Masters,
        Tag::Relocatable => Seen::Relocatable(header.slot, flags, header.logical),
    }
}

/// A block without its content, and the place at which it ends.
#[derive(Clone, Copy, Drop)]
pub struct Step {
    pub block: Seen,
    pub end: u32,
}

/// Reads the block at a place.
pub fn step_at(part: &Part, at: u32) -> Step
    requires way { IsOnWay at part.now.bytes }
    requires some { at < length part.now.bytes }
    ensures { Steps at result.block result.end part.now.bytes }
{
    let header = read_header(part, at);
    Step {
        block: seen_of(header),
        end: at + header.size,
    }
}

/// The blocks from a place on.
#[derive(Drop)]
pub struct RawWalk<'a> {
    part: &'a Part,
    at: u32,
}

impl<'a> Model for RawWalk<'a> {
    ghost use Rattle.std.specs.Prelude.{List};
    ghost use Rattle.block_store.specs.Block.{Block};
    ghost use Rattle.zone_bytes.specs.Wander.{walk_view, IsRawWalk};

    ghost Value = { List Block };

    ghost view = { walk_view };

    ghost invariant = { IsRawWalk };
}

/// Returns a walk over the blocks from a place on.
pub fn walk_from<'a>(part: &'a Part, at: u32) -> RawWalk<'a>
    requires { IsOnWay at part.now.bytes }
    ensures { result ≡ left_in at part.now.bytes }
{
    RawWalk { part, at }
}

impl Walk for RawWalk<'_> {
    ghost rest = { λ w. w };

    fn next_block(&mut self) -> Option<Seen> {
        // Where a header does not fit, no block is left; reading a header makes the same test.
        if self.at as usize + HEADER as usize > self.part.len() {
            return None;
        }
        let header = read_header(self.part, self.at);
        self.at += header.size;
        Some(seen_of(header))
    }
}

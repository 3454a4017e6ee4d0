//! The blocks of a zone, given one after the other.

ghost use Rattle.std.specs.Prelude.{◌≡◌, ◌+◌, ◌≤◌, ◌^◌, length};

use crate::block::{Block, block_of};
use crate::blocks::after;
use crate::form::Form;
use crate::rules::can_pass;

/// The blocks of a zone in the order of their addresses; where it is damaged, those up to the first
/// whose physical size is wrong.
#[derive(Clone, Copy)]
pub struct Blocks<'b> {
    pub form: Form,
    /// The address of the zone.
    pub address: u32,
    /// The bytes of the zone.
    pub bytes: &'b [u8],
    /// Where in them the next block stands.
    pub at: usize,
    pub ghost inside: { at ≤ length bytes.now },
    pub ghost fits: { address + length bytes.now ≤ 2 ^ 32 },
}

impl<'b> Iterator for Blocks<'b> {
    ghost use Rattle.std.specs.Iterator.{YieldsFirst, item_count};
    ghost use Rattle.real_zone.specs.Left.{blocks_left};

    type Item = Block;

    ghost next_gives = { YieldsFirst blocks_left };

    ghost remaining = { item_count blocks_left };

    #[tactic(auto, using(crate::proofs::Walking::room, crate::proofs::Passed::passed_stop))]
    fn next(&mut self) -> Option<Block> {
        if !can_pass(self.form, self.bytes, self.at) {
            return None;
        }
        let block = block_of(self.form, self.address, self.bytes, self.at);
        self.at = after(self.form, self.bytes, self.at);
        Some(block)
    }
}

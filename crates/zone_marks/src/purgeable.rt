//! The bytes that blocks would free if they were purged.

ghost use Rattle.std.specs.Prelude.{true, false, ◌≡◌, ◌<◌, ◌+◌, ◌^◌, ◌∷◌, ℕ, List, length};
ghost use Rattle.block_store.specs.Block.{Block, size, sizes, free_sum, resized};
ghost use Rattle.block_store.specs.Seen.{seen};
ghost use Rattle.block_store.specs.Sparing.{opened, purged};
ghost use Rattle.zone_bytes.specs.Decode.{zone_in};
ghost use Rattle.zone_bytes.specs.Changes.{Became};
ghost use Rattle.zone_bytes.specs.PurgeableBytes.{purgeable_of, purgeable_sum};
ghost use Rattle.zone_bytes.specs.Stepping.{left_in, IsOnWay};

use crate::measuring::walk_at;
use block_store::{Flags, Seen, Sparing, Walk, may_purge_now, size_of_seen};
use raw_region::Part;
use zone_bytes::{SoundPart, padded_size, step_at};

/// Returns the bytes that a block of `bytes` bytes would free if it were purged.
fn purgeable_of_seen(block: Seen, bytes: u32) -> u32
    ensures { (b : Block) → seen b ≡ block → size b ≡ bytes → result ≡ purgeable_of b }
{
    if may_purge_now(block, Sparing::Nothing) {
        bytes
    } else {
        0
    }
}

/// Returns the bytes that the block at `place` would free if it were purged.
#[tactic(auto, using(crate::proofs::Marks::Owed::given_steps))]
pub fn purgeable_at(part: &Part, place: u32) -> u32
    requires way { IsOnWay place part.now.bytes }
    requires some { place < length part.now.bytes }
    ensures { (b : Block) (above : List Block) → left_in place part.now.bytes ≡ b ∷ above
        → result ≡ purgeable_of b }
{
    let step = step_at(part, place);
    purgeable_of_seen(step.block, step.end - place)
}

/// Returns the bytes that the blocks of a zone would free, where the block at `place` became
/// another: before that the blocks would have freed `before` bytes, and the block `given` of them.
pub fn purgeable_with(sound: &SoundPart, place: u32, before: u32, given: u32) -> u32
    requires { (old : List Block) × (b : Became place old (zone_in sound.now.part.bytes))
        × (given ≡ purgeable_of b.here) × (before ≡ purgeable_sum old) }
    ensures { (old : List Block) (b : Became place old (zone_in sound.now.part.bytes))
        → given ≡ purgeable_of b.here
        → before ≡ purgeable_sum old → result ≡ purgeable_sum (zone_in sound.now.part.bytes) }
{
    before - given + purgeable_at(&sound.part, place)
}

/// Returns the bytes that a block would free at another size, if it would free `before` bytes now.
pub fn given_at(before: u32, bytes: u32) -> u32
    requires { (b : Block) × (purgeable_of b ≡ before) × (size (resized bytes b) < 2 ^ 32) }
    ensures { (b : Block) → purgeable_of b ≡ before → result ≡ purgeable_of (resized bytes b) }
{
    if before == 0 { 0 } else { padded_size(bytes) }
}

/// Returns the bytes that all blocks of a walk would free if they were purged.
pub fn purgeable_bytes_in<W: Walk>(walk: &mut W) -> u32
    requires { sizes (W.rest walk.old) < 2 ^ 32 }
    ensures { result ≡ purgeable_sum (W.rest walk.old) }
{
    let mut total = 0;
    while let Some(block) = walk.next_block() {
        total += purgeable_of_seen(block, size_of_seen(block));
    }
    total
}

/// Reports whether `sparing` counts a block as free that is not free.
pub fn frees_one(sparing: Sparing) -> bool
    ensures { result ≡ false → (zone : List Block) → opened sparing zone ≡ zone }
{
    match sparing {
        Sparing::Freed(_) => true,
        _ => false,
    }
}

/// Returns the bytes that the blocks of a zone would free, where purges made `freed` bytes free and
/// the blocks would have freed `before` bytes.
#[tactic(auto, using(crate::proofs::Marks::Owed::given_steps))]
pub fn purgeable_left(sound: &SoundPart, before: u32, freed: u32, sparing: Sparing) -> u32
    ensures { (k : ℕ) (zone : List Block) → zone_in sound.now.part.bytes ≡ purged k sparing zone
        → free_sum (zone_in sound.now.part.bytes) ≡ free_sum zone + freed
        → before ≡ purgeable_sum zone → result ≡ purgeable_sum (zone_in sound.now.part.bytes) }
{
    if frees_one(sparing) {
        purgeable_bytes_in(&mut walk_at(sound, 0))
    } else {
        before.saturating_sub(freed)
    }
}

/// Reports whether `most`, the free bytes of a zone after all blocks that may be purged were
/// purged, are fewer than `bytes`: then no run of the zone has `bytes` free bytes, after however
/// many purges. If `sparing` counts a block as free that is not free, nothing is known and the
/// result is `false`.
#[tactic(auto, using(crate::proofs::Marks::Owed::given_steps))]
pub fn falls_short(most: u32, bytes: u32, sparing: Sparing) -> bool
    ensures { result ≡ true → (zone : List Block) (purges : ℕ)
        → most ≡ free_sum zone + purgeable_sum zone
        → free_sum (purged purges sparing zone) < bytes }
{
    !frees_one(sparing) && most < bytes
}

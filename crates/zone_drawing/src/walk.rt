//! The blocks of a store, one after another.

ghost use Rattle.std.specs.Prelude.{◌≡◌, ◌≤◌, map, IfOk};
ghost use Rattle.block_store.specs.Seen.{seen};
ghost use Rattle.block_store.specs.declared.measures.TheConstants.{GREATEST_ZONE};
ghost use Rattle.zone_drawing.specs.Line.{seen_sizes};

use block_store::{BlockStore, Seen, size_of_seen};
use std::alloc::{AllocError, Global};

/// Returns the blocks of a store, lowest first, without their bytes.
pub fn blocks_of<S: BlockStore>(alloc: Global, store: &S) -> Result<Vec<Seen>, AllocError>
    ensures blocks { IfOk result (λ blocks. blocks.items ≡ map seen (S.zone store.now)) }
    ensures fits { IfOk result (λ blocks. seen_sizes blocks.items ≤ GREATEST_ZONE) }
{
    let mut blocks = Vec::new(alloc);
    let mut place: u32 = 0;
    let len = store.len();
    while place < len {
        let Some(block) = store.block_at(place) else {
            return Ok(blocks);
        };
        blocks.push(block)?;
        place += size_of_seen(block);
    }
    Ok(blocks)
}

//! Lines of blocks that have names of their own.

ghost use Rattle.std.specs.Prelude.{◌≡◌, map, IfOk};
ghost use Rattle.zone_drawing.specs.View.{view_line, view_kept};

use crate::line::{BlockLine, KeptLine, Tag};
use std::alloc::{AllocError, Global};

/// Returns the line of a block with a name of its own.
fn keep(line: &BlockLine<'_>) -> Result<KeptLine, AllocError>
    ensures { IfOk result (λ kept. view_kept kept ≡ view_line line.now) }
{
    let name = match line.tag.name {
        Some(name) => Some(name.clone()?),
        None => None,
    };
    Ok(KeptLine {
        place: line.place,
        size: line.size,
        shape: line.shape,
        bytes: line.bytes,
        name,
        owner: line.tag.owner,
        number: line.tag.number,
    })
}

/// Returns lines of blocks with names of their own, so that they outlast the names that were lent.
pub fn kept_of(alloc: Global, lines: &[BlockLine<'_>]) -> Result<Vec<KeptLine>, AllocError>
    ensures { IfOk result (λ kept. map view_kept kept.items ≡ map view_line lines.now) }
{
    let mut kept = Vec::new(alloc);
    for line in lines {
        kept.push(keep(line)?)?;
    }
    Ok(kept)
}

/// Returns the line of a block, whose name is lent.
fn lend(line: &KeptLine) -> BlockLine<'_>
    ensures { view_line result ≡ view_kept line.now }
{
    BlockLine {
        place: line.place,
        size: line.size,
        shape: line.shape,
        bytes: line.bytes,
        tag: Tag {
            name: line.name.as_ref(),
            owner: line.owner,
            number: line.number,
        },
    }
}

/// Returns the lines of blocks, whose names are lent.
pub fn lent_of(alloc: Global, kept: &[KeptLine]) -> Result<Vec<BlockLine<'_>>, AllocError>
    ensures { IfOk result (λ lines. map view_line lines.items ≡ map view_kept kept.now) }
{
    let mut lines = Vec::new(alloc);
    for line in kept {
        lines.push(lend(line))?;
    }
    Ok(lines)
}

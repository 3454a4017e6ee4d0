//! Which blocks of a zone are listed.

ghost use Rattle.std.specs.Prelude.{◌≡◌};
ghost use Rattle.zone_drawing.specs.Choice.{is_numbered, is_chosen};
ghost use Rattle.zone_drawing.specs.View.{view_line};

use crate::line::{BlockLine, Shape};
use crate::text::{is_locked, is_purgeable};

/// Which blocks of a zone are listed.
#[derive(Clone, Copy, Debug, PartialEq, Eq)]
pub enum Choice {
    All,
    /// The relocatable blocks that are locked.
    Locked,
    /// The relocatable blocks that are purgeable, locked or not.
    Purgeable,
    Free,
    /// The block of the handle or pointer of this number.
    Of(usize),
    Nothing,
}

/// Reports whether a block is the one of the handle or pointer of this number.
fn is_numbered(number: usize, found: Option<usize>) -> bool
    ensures { result ≡ is_numbered number found }
{
    match found {
        Some(found) => found == number,
        None => false,
    }
}

/// Reports whether a block is listed.
pub fn is_chosen(choice: Choice, line: &BlockLine<'_>) -> bool
    ensures { result ≡ is_chosen choice (view_line line.now) }
{
    match choice {
        Choice::All => true,
        Choice::Locked => is_locked(line.shape),
        Choice::Purgeable => is_purgeable(line.shape),
        Choice::Free => matches!(line.shape, Shape::Free),
        Choice::Of(number) => is_numbered(number, line.tag.number),
        Choice::Nothing => false,
    }
}

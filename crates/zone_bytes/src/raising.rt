//! The relocatable blocks of a run are raised.

ghost use Rattle.std.specs.Prelude.{◌≡◌, ◌+◌, [], length};
ghost use Rattle.block_store.specs.Block.{sizes};
ghost use Rattle.block_store.specs.Run.{movers};
ghost use Rattle.zone_bytes.specs.Edges.{AreEdges, Noted};
ghost use Rattle.zone_bytes.specs.Settling.{Lay, IsRunFrom, EndsRun, Settled};
ghost use Rattle.zone_bytes.specs.Raising.{MayRaise, MayLift, Lifted};
ghost use Rattle.zone_bytes.specs.Beside.{KeepsPlace};

use crate::edges::Edges;
use crate::settling::{PackedRun, pack_until, settle_run};
use crate::words::write_word;
use raw_region::Part;

/// Moves the blocks of a packed run up by `gap`; their slots lead to their new places already. The
/// run's free block was from `top` to `stop`: `gap` of its bytes are below the blocks after the
/// move.
fn lift_blocks(part: &mut Part, place: u32, top: u32, stop: u32, gap: u32)
    ghost lay: { Lay }
    requires { MayRaise lay place top stop gap part.old.bytes }
    ensures same { KeepsPlace part.old part.new }
    ensures lifted { Lifted lay gap part.new.bytes }
{
    part.slide(
        place as usize,
        (place + gap) as usize,
        (top - place) as usize,
    );
    write_word(part, place, gap);
    if gap < stop - top {
        write_word(part, top + gap, stop - top - gap);
    }
}

/// Packs the rest of a run above blocks of the run that were packed and then raised by `gap`.
fn settle_above(part: &mut Part, edges: &mut Edges, packed: PackedRun, gap: u32) -> PackedRun
    ghost lay: { Lay }
    requires bytes { part.old.bytes ≡ lay.bytes }
    requires run { IsRunFrom lay (packed.top + gap) (packed.top + gap + sizes lay.run) }
    requires ends { EndsRun lay.above }
    ensures same { KeepsPlace part.old part.new }
    ensures settled { Settled lay result.lowered part.new.bytes }
    ensures stop { result.stop ≡ packed.top + gap + sizes lay.run }
    ensures edges { Noted edges.old edges.new (packed.top + gap) (movers lay.run) }
{
    settle_run(part, edges, packed.top + gap)
}

/// Packs the run at `place`, and raises its relocatable blocks by `gap`, so that `gap` free bytes
/// are below them. Only the lowest blocks are moved up, those with no more than `gap` free bytes
/// among them; the others move down to where they are to lie. The new places of the blocks are
/// noted as edges. Returns the place at which the run ends.
pub fn raise_run(part: &mut Part, edges: &mut Edges, place: u32, gap: u32) -> u32
    ghost lay: { Lay }
    requires { (part.old.bytes ≡ lay.bytes) × MayLift lay place gap × EndsRun lay.above }
    ensures same { KeepsPlace part.old part.new }
    ensures lifted { Lifted lay gap part.new.bytes }
    ensures stop { result ≡ place + sizes lay.run }
    ensures edges { AreEdges edges.old (place + gap) []
        → AreEdges edges.new (place + gap) (movers lay.run) }
{
    let packed = pack_until(part, edges, place, gap, gap);
    if packed.top <= place {
        return packed.stop;
    }
    lift_blocks(part, place, packed.top, packed.stop, gap);
    settle_above(part, edges, packed, gap).stop
}

//! The relocatable blocks of a run are moved down.

ghost use Rattle.std.specs.Prelude.{◌≡◌, ◌+◌, ◌-◌, ◌%◌, ◌≤◌, ◌<◌, ◌^◌, length, nat_lt};
ghost use Rattle.std.specs.Prelude.{if◌then◌else◌, true, List};
ghost use Rattle.memory_windows.specs.Writes.{written, piece};
ghost use Rattle.block_headers.specs.Headers.{tag_number};
ghost use Rattle.block_headers.specs.Words.{word};
ghost use Rattle.block_store.specs.Block.{Block, sizes};
ghost use Rattle.block_store.specs.Run.{movers};
ghost use Rattle.zone_bytes.specs.Edges.{Noted};
ghost use Rattle.zone_bytes.specs.Settling.{Lay, IsRunFrom, EndsRun, runs_on, PackedUntil, Settled};
ghost use Rattle.zone_bytes.specs.Settling.{Packing, gone_to};
ghost use Rattle.zone_bytes.specs.Beside.{KeepsPlace};

use crate::edges::Edges;
use crate::words::{read_header, write_word};
use block_headers::{Header, LOCKED, Tag};
use raw_region::Part;

/// More free bytes than a run has: so many are never enough before the run ends.
const NEVER_ENOUGH: u32 = u32::MAX;

/// The result of packing a run.
#[derive(Clone, Copy, Debug)]
pub struct PackedRun {
    /// The number of blocks of the run that moved down.
    pub lowered: u32,
    /// The place at which the run's free block begins.
    pub top: u32,
    /// The place at which the run ends.
    pub stop: u32,
}

/// Moves a block of `size` bytes down, and makes its slot lead to the place `gap` above the block's
/// new place. Returns 1 if the block moved down, else 0.
fn move_block(part: &mut Part, from: u32, to: u32, size: u32, slot: u32, gap: u32) -> u32
    requires down { to ≤ from }
    requires inside { from + size ≤ length part.old.bytes }
    requires slot { (slot % 4 ≡ 0) × (slot + 4 ≤ length part.old.bytes) }
    requires leads { piece slot 4 part.old.bytes ≡ word from }
    requires fits { to + gap < 2 ^ 32 }
    ensures same { KeepsPlace part.old part.new }
    ensures bytes { part.new.bytes
        ≡ written slot (word (to + gap))
        (written to (piece from size part.old.bytes) part.old.bytes) }
    ensures moves { result ≡ (if nat_lt 0 (from - to) then 1 else 0) }
{
    if to < from {
        part.slide(from as usize, to as usize, size as usize);
        write_word(part, slot, to + gap);
        return 1;
    }
    if gap > 0 {
        write_word(part, slot, to + gap);
    }
    0
}

/// Reports whether the block of a header belongs to a run of movable blocks: the block is free, or
/// relocatable and unlocked.
fn is_in_run(header: Header) -> bool
    ensures { result ≡ runs_on (tag_number header.tag) header.flags }
{
    match header.tag {
        Tag::Free => true,
        Tag::Nonrelocatable | Tag::Masters => false,
        Tag::Relocatable => header.flags < LOCKED,
    }
}

/// Reports whether the block of a header is relocatable and unlocked.
fn may_move(header: Header) -> bool
    ensures { result ≡ true → (tag_number header.tag ≡ 3)
        × (runs_on (tag_number header.tag) header.flags ≡ true) }
{
    header.tag == Tag::Relocatable && header.flags < LOCKED
}

/// Reports whether blocks that were packed from `place` up to `to` have at least `enough` free
/// bytes above them, up to `from`.
fn is_enough(place: u32, to: u32, from: u32, enough: u32) -> bool
    requires { to ≤ from }
    ensures { result ≡ true → (place < to) × (enough ≤ from - to) }
{
    place < to && enough <= from - to
}

/// Makes the slots of the relocatable blocks that lie packed at `place` lead to the places `gap`
/// above them, and notes these places as edges. Returns the place at which the run has another
/// block or ends.
fn lead_packed(part: &mut Part, edges: &mut Edges, place: u32, gap: u32) -> u32
    ghost lay: { Lay }
    requires bytes { part.old.bytes ≡ lay.bytes }
    requires run { IsRunFrom lay place (place + sizes lay.run) }
    requires ends { EndsRun lay.above }
    requires gap { gap ≤ length lay.bytes }
    ensures same { KeepsPlace part.old part.new }
    ensures packed { (gone : List Block) × Packing lay gap result result 0 part.new.bytes gone
        × Noted edges.old edges.new (place + gap) (movers gone) }
{
    let end = part.len() as u32;
    let mut at = place;
    while at < end {
        let header = read_header(part, at);
        if !may_move(header) {
            break;
        }
        move_block(part, at, at, header.size, header.slot, gap);
        edges.pass(at + gap);
        at += header.size;
    }
    at
}

/// Moves relocatable blocks of the run at `place` down, makes their slots lead to the places `gap`
/// above them, and makes the bytes between them and the rest of the run one free block. The walk
/// itself finds the run's end, and ends before it if the free block has `enough` bytes. The future
/// places of the blocks are noted as edges.
pub(crate) fn pack_until(
    part: &mut Part,
    edges: &mut Edges,
    place: u32,
    gap: u32,
    enough: u32,
) -> PackedRun
    ghost lay: { Lay }
    requires bytes { part.old.bytes ≡ lay.bytes }
    requires run { IsRunFrom lay place (place + sizes lay.run) }
    requires ends { EndsRun lay.above }
    requires gap { gap ≤ length lay.bytes }
    ensures same { KeepsPlace part.old part.new }
    ensures packed { PackedUntil lay place gap enough result.lowered result.top result.stop
        part.new.bytes }
    ensures edges { Noted edges.old edges.new (place + gap) (movers (gone_to lay result.stop)) }
{
    let end = part.len() as u32;
    let mut from = lead_packed(part, edges, place, gap);
    let mut to = from;
    let mut moves = 0;
    while from < end {
        if is_enough(place, to, from, enough) {
            break;
        }
        let header = read_header(part, from);
        if !is_in_run(header) {
            break;
        }
        if header.tag == Tag::Relocatable {
            moves += move_block(part, from, to, header.size, header.slot, gap);
            edges.pass(to + gap);
            to += header.size;
        }
        from += header.size;
    }
    if to < from {
        write_word(part, to, from - to);
    }
    PackedRun {
        lowered: moves,
        top: to,
        stop: from,
    }
}

/// Moves the relocatable blocks of the run at `place` down, and makes the rest of the run one free
/// block. The new places of the blocks are noted as edges.
pub fn settle_run(part: &mut Part, edges: &mut Edges, place: u32) -> PackedRun
    ghost lay: { Lay }
    requires bytes { part.old.bytes ≡ lay.bytes }
    requires run { IsRunFrom lay place (place + sizes lay.run) }
    requires ends { EndsRun lay.above }
    ensures same { KeepsPlace part.old part.new }
    ensures settled { Settled lay result.lowered part.new.bytes }
    ensures top { result.top ≡ place + sizes (movers lay.run) }
    ensures stop { result.stop ≡ place + sizes lay.run }
    ensures edges { Noted edges.old edges.new place (movers lay.run) }
{
    pack_until(part, edges, place, 0, NEVER_ENOUGH)
}

//! No block is lost in the bins of a strip, nor among those that are listed, and no byte in rows.

ghost use Rattle.std.specs.Prelude.{◌≡◌, ◌≤◌, ℕ, List, [], length};
ghost use Rattle.zone_drawing.specs.Bytes.{bytes_in, rows};
ghost use Rattle.zone_drawing.specs.Choice.{chosen};
ghost use Rattle.zone_drawing.specs.Drawing.{line_sizes};
ghost use Rattle.zone_drawing.specs.Line.{Line};
ghost use Rattle.zone_drawing.specs.Strip.{bins, blocks_in, counted_by, counted_in, drawn_classes};
ghost use Rattle.zone_drawing.specs.Strip.{sized_by, sized_in};
ghost use Rattle.zone_drawing.specs.Svg.{svg_height};
ghost use Rattle.zone_drawing.specs.Totals.{counted, sized};
ghost use Rattle.zone_drawing.specs.declared.choice.Choice.{Choice};
ghost use Rattle.zone_drawing.specs.declared.choice.Choice.TheVariants as choice;
ghost use Rattle.zone_drawing.specs.declared.totals.Class.{Class};
ghost use Rattle.zone_drawing.specs.declared.totals.Class.TheVariants as class;

/// Each block stands in just one bin of a strip, and the bins stand in the order of the blocks. So
/// the bins have as many blocks of each class, with as many bytes, as the zone has.
pub fn each_block_is_drawn()
    ensures blocks { (least : ℕ) (lines : List Line) → blocks_in (bins least [] lines) ≡ lines }
    ensures counted { (least : ℕ) (lines : List Line) (c : Class)
        → counted_in c (bins least [] lines) ≡ counted c lines }
    ensures sized { (least : ℕ) (lines : List Line) (c : Class)
        → sized_in c (bins least [] lines) ≡ sized c lines }
{}

/// The parts of a bin are all of it: each block is of one of the classes by which bins are drawn,
/// and of no other.
pub fn each_part_is_drawn()
    ensures counted { (bin : List Line) → counted_by drawn_classes bin ≡ length bin }
    ensures sized { (bin : List Line) → sized_by drawn_classes bin ≡ line_sizes bin }
{}

/// No picture of a zone is higher than 4000.
pub fn pictures_are_low()
    ensures { (count : ℕ) → svg_height count ≤ 4000 }
{}

/// Which blocks are listed: all, where all are chosen; of those that are chosen no other is left
/// out when they are chosen again; and of a class that has a total, the blocks that are listed have
/// just that total.
pub fn chosen_blocks_add_up()
    ensures all { (lines : List Line) → chosen choice.All lines ≡ lines }
    ensures twice { (k : Choice) (lines : List Line) → chosen k (chosen k lines) ≡ chosen k lines }
    ensures free { (lines : List Line)
        → counted class.Free (chosen choice.Free lines) ≡ counted class.Free lines }
    ensures free_bytes { (lines : List Line)
        → sized class.Free (chosen choice.Free lines) ≡ sized class.Free lines }
    ensures locked { (lines : List Line)
        → counted class.Locked (chosen choice.Locked lines) ≡ counted class.Locked lines }
    ensures locked_bytes { (lines : List Line)
        → sized class.Locked (chosen choice.Locked lines) ≡ sized class.Locked lines }
    ensures purgeable { (lines : List Line)
        → counted class.Purgeable (chosen choice.Purgeable lines) ≡ counted class.Purgeable lines }
    ensures purgeable_bytes { (lines : List Line)
        → sized class.Purgeable (chosen choice.Purgeable lines) ≡ sized class.Purgeable lines }
{}

/// Each byte of a block stands in one row, and the rows stand in the order of the bytes.
pub fn each_byte_is_shown()
    ensures { (bytes : List ℕ) → bytes_in (rows [] bytes) ≡ bytes }
{}

//! The sizes of a partition.

ghost use Rattle.std.specs.Prelude.{◌≡◌, ◌≤◌, ◌%◌};

/// The sizes of the partition that a launch asks for, in bytes.
///
/// *Macintosh Toolbox Essentials*, chapter 2, "The Size Resource".
#[derive(Clone, Copy)]
pub struct PartitionSizes {
    pub(crate) preferred: u32,
    pub(crate) minimum: u32,
    ghost whole: { (preferred % 16 ≡ 0) × (minimum % 16 ≡ 0) },
    ghost least: { 512 ≤ minimum },
    ghost ordered: { minimum ≤ preferred },
}

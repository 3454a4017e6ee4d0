//! What holds of every memory in which partitions are granted.

ghost use Rattle.std.specs.Prelude.{◌≡◌, ◌<◌, ℕ, List};
ghost use Rattle.std.specs.List.{All};
ghost use Rattle.memory_windows.specs.declared.Window.{Window as WindowValue};
ghost use Rattle.memory_windows.specs.Windows.{put_in, taken_out};
ghost use Rattle.partitions.specs.Fitting.{GivesPreferred, GivesLargest};
ghost use Rattle.partitions.specs.Granted.{Granted, HoldsZone, LieInside, NeverOverlap};

/// Granted partitions lie in the memory.
#[tactic(auto, using(crate::proofs::Order::lie_inside))]
pub fn granted_windows_lie_in_the_memory()
    ensures { (g : Granted) → LieInside g }
{}

/// Each granted partition can hold a zone.
pub fn granted_windows_can_hold_zones()
    ensures { (g : Granted) → All HoldsZone g.windows }
{}

/// No byte of the memory is in two granted partitions.
#[tactic(auto, using(crate::proofs::Order::never_overlap))]
pub fn granted_windows_never_overlap()
    ensures { (g : Granted) → NeverOverlap g }
{}

/// A partition that is granted and then given back, with no grant between, leaves the granted
/// windows as they were.
#[tactic(auto, using(crate::proofs::Order::given_back))]
pub fn a_window_given_back_at_once_changes_nothing()
    ensures { (w : WindowValue) (ws : List WindowValue) → 0 < w.len
        → taken_out w (put_in w ws) ≡ ws }
{}

/// Where the preferred size fits anywhere in the memory, a partition of the preferred size is
/// granted, at the lowest place where it fits.
#[tactic(auto, using(crate::proofs::Places::gives_preferred))]
pub fn the_preferred_size_is_given_as_low_as_it_fits()
    ensures { (memory : ℕ) (ws : List WindowValue) (preferred minimum : ℕ)
        → GivesPreferred memory ws preferred minimum }
{}

/// Where any size from the minimum on fits anywhere, a partition is granted: of the preferred size,
/// or of that size or more; and if it is exactly of that size, it lies at the lowest place where
/// the size fits. So a launch is refused only where the minimum size fits nowhere.
#[tactic(auto, using(crate::proofs::Places::gives_largest))]
pub fn the_largest_size_that_fits_is_given_else()
    ensures { (memory : ℕ) (ws : List WindowValue) (preferred minimum : ℕ)
        → GivesLargest memory ws preferred minimum }
{}

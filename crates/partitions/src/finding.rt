//! The holes between the partitions of a memory, and the partition that a launch is granted.

ghost use Rattle.std.specs.Prelude.{◌≡◌, ◌+◌, ◌-◌, ◌%◌, ◌≤◌, IfSome};
ghost use Rattle.std.specs.List.{All, find};
ghost use Rattle.std.specs.Option.{option_map};
ghost use Rattle.memory_windows.specs.Windows.{window, InOrder, IsApart};
ghost use Rattle.partitions.specs.Grant.{holes, has_room, lower_end, larger_hole, largest};
ghost use Rattle.partitions.specs.Grant.{at_least, grant};
ghost use Rattle.partitions.specs.Granted.{HoldsZone};

use memory_windows::Window;

// Returns the larger of two holes; the lower one where they are equally large.
fn larger_hole(low: Window, high: Window) -> Window
    ensures { result ≡ larger_hole low high }
{
    if low.len < high.len { high } else { low }
}

// Returns the `size` bytes at the lower end of the lowest hole that has them.
#[tactic(auto, using(crate::proofs::Order::window_ends))]
fn lowest(memory: u32, windows: &[Window], size: u32) -> Option<Window>
    requires { InOrder 0 windows.now memory }
    ensures { result
        ≡ option_map (lower_end size) (find (has_room size) (holes memory 0 windows.now)) }
{
    let mut from = 0;
    for window in windows {
        let Window { at, len } = *window;
        if size <= at - from {
            return Some(Window {
                at: from,
                len: size,
            });
        }
        from = at + len;
    }
    if size <= memory - from {
        Some(Window {
            at: from,
            len: size,
        })
    } else {
        None
    }
}

// Returns the largest hole; the lowest one where several are equally large.
#[tactic(auto, using(crate::proofs::Order::window_ends, crate::proofs::Largest::larger_holes))]
fn largest(memory: u32, windows: &[Window]) -> Window
    requires { InOrder 0 windows.now memory }
    ensures { result ≡ largest (holes memory 0 windows.now) }
{
    let mut from = 0;
    let mut best = Window { at: 0, len: 0 };
    for window in windows {
        let Window { at, len } = *window;
        let hole = Window {
            at: from,
            len: at - from,
        };
        best = larger_hole(best, hole);
        from = at + len;
    }
    let hole = Window {
        at: from,
        len: memory - from,
    };
    larger_hole(best, hole)
}

// Returns the whole largest hole, where it has at least `size` bytes.
fn largest_of(memory: u32, windows: &[Window], size: u32) -> Option<Window>
    requires { InOrder 0 windows.now memory }
    ensures { result ≡ at_least size (largest (holes memory 0 windows.now)) }
{
    let hole = largest(memory, windows);
    if size <= hole.len { Some(hole) } else { None }
}

// Returns the partition that is granted, exactly as the definition says.
fn given(memory: u32, windows: &[Window], preferred: u32, minimum: u32) -> Option<Window>
    requires { InOrder 0 windows.now memory }
    ensures { result ≡ grant memory windows.now preferred minimum }
{
    match lowest(memory, windows, preferred) {
        Some(window) => Some(window),
        None => largest_of(memory, windows, minimum),
    }
}

/// Returns the partition that is granted; the clauses say what holds of every partition that is
/// granted.
pub fn granted(memory: u32, windows: &[Window], preferred: u32, minimum: u32) -> Option<Window>
    requires whole { memory % 16 ≡ 0 }
    requires order { InOrder 0 windows.now memory }
    requires zones { All HoldsZone windows.now }
    requires multiple { preferred % 16 ≡ 0 }
    requires least { 512 ≤ minimum }
    requires sizes { minimum ≤ preferred }
    ensures answer { result ≡ grant memory windows.now preferred minimum }
    ensures inside { IfSome result (λ w. w.at + w.len ≤ memory) }
    ensures apart { IfSome result (λ w. IsApart w.at w.len windows.now) }
    ensures zone { IfSome result HoldsZone }
    ensures enough { IfSome result (λ w. minimum ≤ w.len) }
    ensures most { IfSome result (λ w. w.len ≤ preferred) }
{
    given(memory, windows, preferred, minimum)
}

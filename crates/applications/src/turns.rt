//! The end of a turn.

ghost use Rattle.std.specs.Prelude.{◌≡◌};
ghost use Rattle.applications.specs.Step as turns;
ghost use Rattle.applications.specs.Step.{is_wait};

use mac_words::{Call, ControlCall};
use script_text::Line;

/// Reports whether a call ends a turn.
pub fn ends_turn(call: &Call) -> bool
    ensures { result ≡ is_wait call.now }
{
    match call {
        Call::Control(ControlCall::WaitNextEvent) => true,
        _ => false,
    }
}

/// Returns the lines of the next turn: the lines up to and including the first `WaitNextEvent`, or
/// all lines where no line is a `WaitNextEvent`.
pub fn up_to_wait(lines: &[Line]) -> &[Line]
    ensures { result.now ≡ turns.up_to_wait lines.now }
{
    for (index, line) in lines.iter().enumerate() {
        if ends_turn(&line.call) {
            return &lines[..=index];
        }
    }
    lines
}

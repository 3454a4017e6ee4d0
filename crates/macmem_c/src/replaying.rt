//! A script, replayed in a fresh partition.

ghost use Rattle.std.specs.Prelude.{◌≡◌, ◌≤◌, ◌%◌, IfOk, IfErr};
ghost use Rattle.block_store.specs.declared.measures.TheConstants.{LEAST_ZONE, GREATEST_ZONE};
ghost use Rattle.macmem_c.specs.Replayed.{IsTranscript, IsShowing, IsUnread, sight_of};

use applications::Unwatched;
use desk::run_script;
use raw_region::Region;
use script_text::{FaultKind, Script, ScriptFault, read_script};
use std::alloc::Global;
use zone_drawing::{Choice, Digits, Part};
use zone_replay::{Details, Form, Only, Sight, Strips, show_script, steps_at};

/// What C asks to be shown of a script.
#[derive(Clone, Copy)]
pub enum Showing {
    /// The zone after a line, as a list.
    List(usize),
    /// A picture of the zone after a line.
    Picture(usize),
    /// A picture of the zone after a line, and after each further step up to another line.
    Steps(usize, usize),
}

/// The whole of a zone.
const WHOLE: Part = Part {
    from: 0,
    to: u32::MAX,
};

/// A list of all blocks, with its numbers in decimal.
const LIST: Form = Form::Columns(Details {
    digits: Digits::Decimal,
    only: Only::Blocks(Choice::All),
});

/// The host is out of memory.
pub const NO_MEMORY: ScriptFault = ScriptFault {
    line: 0,
    kind: FaultKind::HostMemory,
};

/// Returns what is to be shown of a script, in steps.
fn sight_of(showing: Showing, script: &Script) -> Sight
    ensures { result ≡ sight_of showing script.now }
{
    match showing {
        Showing::List(line) => Sight::Zone(steps_at(Some(line), script), LIST),
        Showing::Picture(line) => Sight::Zone(steps_at(Some(line), script), Form::Picture(WHOLE)),
        Showing::Steps(from, to) => Sight::Moments(
            steps_at(Some(from), script),
            steps_at(Some(to), script),
            Strips {
                part: WHOLE,
                all: false,
                inside: false,
            },
        ),
    }
}

/// Runs a script in a fresh partition, and returns its transcript.
///
/// # Errors
///
/// The first faulty line, or the host is out of memory.
pub fn transcript_of(alloc: Global, size: u32, text: &[u8]) -> Result<Vec<u8>, ScriptFault>
    requires even { size % 16 ≡ 0 }
    requires low { LEAST_ZONE ≤ size }
    requires high { size ≤ GREATEST_ZONE }
    ensures transcript { IfOk result (λ out. IsTranscript size text.now out.items) }
    ensures fault { IfErr result (IsUnread text.now) }
{
    let script = read_script(alloc, text)?;
    let Ok(region) = Region::new(alloc, size as usize) else {
        return Err(NO_MEMORY);
    };
    let (transcript, region) = run_script(alloc, region, &script, &mut Unwatched);
    region.close();
    match transcript {
        Ok(transcript) => Ok(transcript),
        Err(_) => Err(NO_MEMORY),
    }
}

/// Runs a script in a fresh partition as far as is to be shown, and returns what is shown.
///
/// # Errors
///
/// The first faulty line, or the host is out of memory.
pub fn view_of(
    alloc: Global,
    size: u32,
    showing: Showing,
    text: &[u8],
) -> Result<Vec<u8>, ScriptFault>
    requires even { size % 16 ≡ 0 }
    requires low { LEAST_ZONE ≤ size }
    requires high { size ≤ GREATEST_ZONE }
    ensures shown { IfOk result (λ out. IsShowing size showing text.now out.items) }
    ensures fault { IfErr result (IsUnread text.now) }
{
    let script = read_script(alloc, text)?;
    let Ok(region) = Region::new(alloc, size as usize) else {
        return Err(NO_MEMORY);
    };
    let sight = sight_of(showing, &script);
    let (shown, region) = show_script(alloc, region, &script, text, sight);
    region.close();
    match shown {
        Ok(shown) => Ok(shown),
        Err(_) => Err(NO_MEMORY),
    }
}

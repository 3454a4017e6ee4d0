//! The calls of a script in words.

ghost use Rattle.std.specs.Prelude.{◌≡◌, ◌≤◌, ◌%◌, IfOk, IfErr};
ghost use Rattle.block_store.specs.declared.measures.TheConstants.{LEAST_ZONE, GREATEST_ZONE};
ghost use Rattle.macmem_c.specs.Codes.{paramErr};
ghost use Rattle.macmem_c.specs.Handed.{Hands};
ghost use Rattle.macmem_c.specs.Made.{IsZoneSize, NoZoneSize};
ghost use Rattle.macmem_c.specs.Replayed.{IsUnread, IsScriptFault};
ghost use Rattle.macmem_c.specs.Described.{IsTold, telling_of};

use crate::codes::BAD_SIZE;
use crate::faults::Fault;
use crate::replaying::NO_MEMORY;
use crate::scripts::hand_over_script;
use crate::sizes::is_zone_size;
use raw_region::Region;
use script_text::{Script, ScriptFault, read_script};
use std::alloc::Global;
use zone_replay::{Telling, steps_at, tell_script};

/// Returns how much of the transcript is told: the calls from a line to another.
fn telling_of(from: usize, to: usize, script: &Script) -> Telling
    ensures { result ≡ telling_of from to script.now }
{
    let before = from.saturating_sub(1);
    Telling::Steps(steps_at(Some(before), script), steps_at(Some(to), script))
}

/// Runs a script in a fresh partition, and returns its calls from a line to another in words.
///
/// # Errors
///
/// The first faulty line, or the host is out of memory.
fn words_of(
    alloc: Global,
    size: u32,
    from: usize,
    to: usize,
    text: &[u8],
) -> Result<Vec<u8>, ScriptFault>
    requires even { size % 16 ≡ 0 }
    requires low { LEAST_ZONE ≤ size }
    requires high { size ≤ GREATEST_ZONE }
    ensures told { IfOk result (λ out. IsTold size from to text.now out.items) }
    ensures fault { IfErr result (IsUnread text.now) }
{
    let script = read_script(alloc, text)?;
    let Ok(region) = Region::new(alloc, size as usize) else {
        return Err(NO_MEMORY);
    };
    let telling = telling_of(from, to, &script);
    let (told, region) = tell_script(alloc, region, &script, text, telling);
    region.close();
    match told {
        Ok(told) => Ok(told),
        Err(_) => Err(NO_MEMORY),
    }
}

/// Gives the calls of a script from a line to another in words, each with what it returned, moved
/// and purged.
#[unsafe(no_mangle)]
pub extern "C" fn macmem_script_words(
    alloc: Global,
    size: u32,
    from: usize,
    to: usize,
    script: &[u8],
    out: &mut [u8],
    len: &mut usize,
    fault: &mut Fault,
) -> i32
    ensures run { IsZoneSize size
        → Hands (IsTold size from to script.now) (IsScriptFault script.now)
        out.old len.old fault.old out.new len.new fault.new result }
    ensures size { NoZoneSize size
        → (result ≡ paramErr) × (out.new ≡ out.old) × (len.new ≡ len.old)
        × (fault.new ≡ fault.old) }
{
    if !is_zone_size(size) {
        return BAD_SIZE;
    }
    hand_over_script(words_of(alloc, size, from, to, script), out, len, fault)
}

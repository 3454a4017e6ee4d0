//! Reading scripts.

ghost use Rattle.std.specs.Prelude.{◌≡◌, true, IfOk};
ghost use Rattle.std.specs.Str.Lines.{lines};
ghost use Rattle.script_text.specs.Script.{ScriptParts, AllAllowed, NoneIsUnused, are_allowed};
ghost use Rattle.script_text.specs.Script.{block_of, read_from, no_lines, script_of, spelled};
ghost use Rattle.script_text.specs.Reading.{GivesAt};

use crate::blocks::Blocks;
use crate::fault::{FaultKind, ScriptFault};
use crate::lines::next_line;
use crate::script_lines::ScriptLines;
use mac_words::{Call, Label};
use std::alloc::Global;
use std::hash::{DefaultHasher, Hasher};
use std::marker::Model;

/// A line of a script that holds a call.
#[derive(Drop)]
pub struct Line {
    /// The line's number, from 1 on, skipped lines counted.
    pub number: usize,
    pub call: Call,
}

/// A script that was read: its steps in order, and its grow-zone scripts by name.
#[derive(Drop)]
pub struct Script {
    steps: Vec<Line>,
    blocks: Blocks,
    /// A digest of the script's text.
    digest: u64,
}

impl Model for Script {
    ghost Value = { ScriptParts };

    ghost view = { λ s. record { steps = s.steps.items; blocks = s.blocks } };

    ghost invariant = { λ s. AllAllowed s.blocks × NoneIsUnused s.blocks };
}

impl Script {
    /// Returns the steps of the script, without the lines of its grow-zone scripts.
    pub fn steps(&self) -> &[Line]
        ensures steps { result.now ≡ self.now.steps }

        // The grow-zone scripts hold only calls that are allowed in one.
        ensures allowed { AllAllowed self.now.blocks }

        // No grow-zone script is named `none`.
        ensures unused { NoneIsUnused self.now.blocks }
    {
        &self.steps
    }

    /// Returns the lines of the grow-zone script of this name; no lines where there is no such
    /// script.
    #[tactic(auto, using(crate::proofs::Allowed::block_allowed))]
    pub fn block(&self, name: &Label) -> &[Line]
        ensures lines { result.now ≡ block_of name.now.0.items self.now.blocks }

        // A grow-zone script holds only calls that are allowed in one.
        ensures allowed { are_allowed result.now ≡ true }
    {
        self.blocks.lines(name)
    }

    /// Returns a digest of all bytes of the script's text. A map that hashes by it has no look-up
    /// slow, since no names can be chosen by a digest that depends on them.
    pub fn digest(&self) -> u64 {
        self.digest
    }
}

/// Reads the lines of a text in order.
fn read_lines(alloc: Global, text: &[u8]) -> Result<ScriptLines, ScriptFault>
    ensures { GivesAt (λ reader. reader) result (read_from 1 no_lines (lines text.now)) }
{
    let mut reader = ScriptLines::new(alloc);
    let mut number = 0;
    let mut rest = text;
    while !rest.is_empty() {
        let (line, more) = next_line(rest);
        number += 1;
        match reader.read(number, line) {
            Ok(()) => {}
            Err(kind) => return Err(ScriptFault::at(number, kind)),
        }
        rest = more;
    }
    Ok(reader)
}

/// Returns a digest of all bytes of a text, by SipHash.
fn digest_of(text: &[u8]) -> u64 {
    let mut hasher = DefaultHasher::new();
    hasher.write(text);
    hasher.finish()
}

/// Reads a script. A line ends with LF; a CR right before the LF is dropped, and the last LF may be
/// missing. Tokens are separated by spaces or tabs. A line without tokens, or whose first token
/// begins with `#`, is skipped. Every other line is the name of a call and its arguments, or
/// belongs to a grow-zone script: a line `grow NAME`, lines of calls, which are no steps, and a
/// line `end`. The name of a grow-zone script is new, and is not `none`.
///
/// # Errors
///
/// Returns the first faulty line with its fault. In a line, a length over 65,535 bytes comes first,
/// then an unknown call (such as `end` outside a grow-zone script), then a call that a grow-zone
/// script may not hold (such as `grow`), then a bad argument. Where no line is faulty, the first
/// `grow` without `end`, or the first `SetGrowZone` whose grow-zone script is nowhere in the text,
/// is a bad argument; `SetGrowZone none` never is. The fault is `HostMemory` where the host is out
/// of memory.
#[tactic(auto, unfolding(crate::specs::Script::script_of))]
pub fn read_script(alloc: Global, text: &[u8]) -> Result<Script, ScriptFault>
    ensures script { GivesAt spelled result (script_of text.now) }

    // The grow-zone scripts hold only calls that are allowed in one.
    ensures allowed { IfOk result (λ script. AllAllowed script.blocks) }

    // No grow-zone script is named `none`.
    ensures unused { IfOk result (λ script. NoneIsUnused script.blocks) }
{
    let reader = read_lines(alloc, text)?;
    match reader.unfinished() {
        Some(line) => Err(ScriptFault::at(line, FaultKind::BadArgument)),
        None => Ok(Script {
            steps: reader.steps,
            blocks: reader.blocks,
            digest: digest_of(text),
        }),
    }
}

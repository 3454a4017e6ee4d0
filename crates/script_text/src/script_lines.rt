//! What the lines of a script state, line after line.

ghost use Rattle.std.specs.Prelude.{◌≡◌, false, ◌&&◌, not, is_some, map, OnErr, OnOk, codes};
ghost use Rattle.std.specs.Prelude.{bytes_eq};
ghost use Rattle.std.specs.Option.{option_map};
ghost use Rattle.script_text.specs.Call.{is_allowed};
ghost use Rattle.script_text.specs.Script.{Above, begun_seen, blocks_seen, call_at, ended, end_at};
ghost use Rattle.script_text.specs.Script.{grow_at, is_begun, is_there, first_missing, lesser};
ghost use Rattle.script_text.specs.Script.{no_lines, read_at, said_as, sets_missing, statement};
ghost use Rattle.script_text.specs.Script.{unfinished, with_statement, with_token};
ghost use Rattle.script_text.specs.Inner.{IsKept};
ghost use Rattle.script_text.specs.Reading.{Gives, OnFault};

use crate::arguments::{none, one};
use crate::blocks::Blocks;
use crate::fault::FaultKind;
use crate::lines::LONGEST_LINE;
use crate::script::Line;
use crate::token::{first_blank, trim};
use crate::word::CallWord;
use mac_words::{Call, ControlCall, Label};
use std::alloc::{AllocError, Global};
use std::marker::Model;

/// A grow-zone script whose `end` is still to come.
#[derive(Drop)]
struct Begun {
    /// The number of its `grow` line.
    line: usize,
    name: Label,
    lines: Vec<Line>,
}

/// What the lines of a script that were read so far have stated.
#[derive(Drop)]
pub struct ScriptLines {
    alloc: Global,
    pub(crate) steps: Vec<Line>,
    pub(crate) blocks: Blocks,
    begun: Option<Begun>,
}

impl Model for ScriptLines {
    ghost Value = { Above };

    ghost view = { λ r. record {
      steps = map statement r.steps.items;
      blocks = blocks_seen r.blocks;
      begun = option_map begun_seen r.begun;
    } };

    ghost invariant = { λ r. IsKept r.blocks r.begun };
}

/// Reports whether a name is `none`, which stands for no grow-zone script.
fn names_none(name: &Label) -> bool
    ensures { result ≡ bytes_eq name.now.0.items (codes "none") }
{
    name.0.as_slice() == b"none".as_slice()
}

fn has_name(begun: &Option<Begun>, name: &Label) -> bool
    ensures { result ≡ is_begun name.now.0.items (option_map begun_seen begun.now) }
{
    match begun {
        Some(begun) => name.0.as_slice() == begun.name.0.as_slice(),
        None => false,
    }
}

impl ScriptLines {
    /// Makes what no lines state.
    pub fn new(alloc: Global) -> ScriptLines
        ensures { result ≡ no_lines }
    {
        ScriptLines {
            alloc,
            steps: Vec::new(alloc),
            blocks: Blocks::new(alloc),
            begun: None,
        }
    }

    /// Returns the steps.
    pub fn steps(&self) -> &[Line]
        ensures { map statement result.now ≡ self.now.steps }
    {
        &self.steps
    }

    /// Returns the number of the `grow` line whose `end` is still to come.
    pub fn begun_line(&self) -> Option<usize>
        ensures { result ≡ option_map (λ b. b.line) self.now.begun }
    {
        self.begun.as_ref().map(|begun| begun.line)
    }

    /// Adds a call as a step, or as a line of the grow-zone script whose `end` is still to come.
    fn add(&mut self, line: Line) -> Result<(), AllocError>
        requires { (is_some self.old.begun && not (is_allowed line.call)) ≡ false }
        ensures added { OnOk result (self.new
            ≡ with_statement (statement line) self.old self.old.begun) }
        ensures unchanged { OnErr result (self.new ≡ self.old) }
    {
        match &mut self.begun {
            Some(begun) => begun.lines.push(line)?,
            None => self.steps.push(line)?,
        }
        Ok(())
    }

    /// Reads the arguments of a call, and adds the call.
    fn take(&mut self, number: usize, word: CallWord, rest: &[u8]) -> Result<(), FaultKind>
        ensures read { Gives (λ _. self.new) result (call_at number self.old word rest.now) }
        ensures unchanged { OnErr result (self.new ≡ self.old) }
    {
        if self.begun.is_some() && !word.is_allowed() {
            return Err(FaultKind::NotAllowed);
        }
        let call = word.read(self.alloc, rest)?;
        self.add(Line { number, call })?;
        Ok(())
    }

    /// Begins a grow-zone script at a line `grow NAME`.
    #[tactic(auto, using(crate::proofs::Naming::has_seen))]
    fn begin(&mut self, number: usize, rest: &[u8]) -> Result<(), FaultKind>
        ensures read { Gives (λ _. self.new) result (grow_at number self.old rest.now) }
        ensures unchanged { OnErr result (self.new ≡ self.old) }
    {
        if self.begun.is_some() {
            return Err(FaultKind::NotAllowed);
        }
        let name: Label = one(self.alloc, rest)?;
        if names_none(&name) || self.blocks.has(&name) {
            return Err(FaultKind::BadArgument);
        }
        self.begun = Some(Begun {
            line: number,
            name,
            lines: Vec::new(self.alloc),
        });
        Ok(())
    }

    /// Ends the grow-zone script that is begun.
    #[tactic(auto, using(crate::proofs::Naming::put_seen))]
    fn end(&mut self) -> Result<(), AllocError>
        ensures { OnOk result (self.new ≡ ended self.old self.old.begun) }
    {
        if let Some(begun) = self.begun.take() {
            self.blocks.add(begun.name, begun.lines)?;
        }
        Ok(())
    }

    /// Ends the grow-zone script that is begun at a line `end`.
    fn finish(&mut self, rest: &[u8]) -> Result<(), FaultKind>
        ensures read { Gives (λ _. self.new) result (end_at self.old self.old.begun rest.now) }
        ensures unchanged { OnFault result (self.new ≡ self.old) }
    {
        if self.begun.is_none() {
            return Err(FaultKind::UnknownCall);
        }
        none(rest)?;
        self.end()?;
        Ok(())
    }

    /// Reads a line by its first token and the rest of the line.
    #[tactic(auto, unfolding(crate::specs::Script::with_token))]
    fn read_words(&mut self, number: usize, token: &[u8], rest: &[u8]) -> Result<(), FaultKind>
        ensures read { Gives (λ _. self.new) result
            (with_token number self.old token.now rest.now) }
        ensures unchanged { OnFault result (self.new ≡ self.old) }
    {
        match token {
            b"grow" => self.begin(number, rest),
            b"end" => self.finish(rest),
            _ => match CallWord::find(token) {
                Some(word) => self.take(number, word, rest),
                None => Err(FaultKind::UnknownCall),
            },
        }
    }

    /// Reads a line, and adds what it states. A faulty line adds nothing.
    ///
    /// # Errors
    ///
    /// Returns the line's fault: a length over 65,535 bytes comes first, then an unknown call, then
    /// a call that may not stand in a grow-zone script, then a bad argument.
    #[tactic(auto, unfolding(crate::specs::Script::read_at))]
    pub fn read(&mut self, number: usize, line: &[u8]) -> Result<(), FaultKind>
        ensures read { Gives (λ _. self.new) result (read_at number self.old line.now) }
        ensures unchanged { OnFault result (self.new ≡ self.old) }
    {
        if line.len() > LONGEST_LINE {
            return Err(FaultKind::LongLine);
        }
        let text = trim(line);
        match text {
            [] | [b'#', ..] => Ok(()),
            _ => {
                let (token, rest) = text.split_at(first_blank(text));
                self.read_words(number, token, rest)
            }
        }
    }

    /// Reports whether there is a grow-zone script of this name, or the name is `none`.
    #[tactic(auto, using(crate::proofs::Naming::has_seen))]
    fn is_there(&self, name: &Label) -> bool
        ensures { result ≡ is_there self.now name.now.0.items }
    {
        names_none(name) || self.blocks.has(name) || has_name(&self.begun, name)
    }

    /// Reports whether a call sets a grow-zone script that is not there.
    pub fn sets_missing(&self, call: &Call) -> bool
        ensures { result ≡ sets_missing self.now (said_as call.now) }
    {
        match call {
            Call::Control(ControlCall::SetGrowZone(name)) => !self.is_there(name),
            _ => false,
        }
    }

    /// Returns the number of the first line that sets a grow-zone script that is not there, or that
    /// is a `grow` line without `end`.
    pub(crate) fn unfinished(&self) -> Option<usize>
        ensures { result ≡ unfinished self.now }
    {
        lesser_of(first_missing_for(self, &self.steps), self.begun_line())
    }
}

/// Returns the lesser of two line numbers; where there is only one, that one.
fn lesser_of(one: Option<usize>, other: Option<usize>) -> Option<usize>
    ensures { result ≡ lesser one other }
{
    match (one, other) {
        (Some(one), Some(other)) => Some(one.min(other)),
        (Some(one), None) => Some(one),
        (None, other) => other,
    }
}

/// Returns the number of the first of these lines that sets a grow-zone script that is not there.
fn first_missing_for(above: &ScriptLines, lines: &[Line]) -> Option<usize>
    ensures { result ≡ first_missing above.now (map statement lines.now) }
{
    for line in lines {
        if above.sets_missing(&line.call) {
            return Some(line.number);
        }
    }
    None
}

//! The grow-zone scripts of a script, by name.

ghost use Rattle.std.specs.Prelude.{◌≡◌, ℕ, List, [], map, OnOk, OnErr};
ghost use Rattle.script_text.specs.declared.script.Line as declared;
ghost use Rattle.script_text.specs.Named.{put_named};
ghost use Rattle.script_text.specs.Script.{has_block, block_of};

use crate::script::Line;
use mac_words::Label;
use std::alloc::{AllocError, Global};
use std::collections::BTreeMap;
use std::marker::Model;

/// Grow-zone scripts in the order of their names, each with its lines. Names are compared, not
/// hashed: no choice of names makes a look-up slow.
#[derive(Drop)]
pub struct Blocks {
    lines: BTreeMap<Label, Vec<Line>>,
}

impl Model for Blocks {
    ghost Value = { List (List ℕ × List declared.Line) };

    ghost view = { λ b. map (λ e. (e.0.0.items, e.1.items)) b.lines.entries };
}

impl Blocks {
    /// Makes a list of no grow-zone scripts.
    pub fn new(alloc: Global) -> Blocks
        ensures { result ≡ [] }
    {
        Blocks {
            lines: BTreeMap::new(alloc),
        }
    }

    /// Reports whether there is a grow-zone script of this name.
    pub fn has(&self, name: &Label) -> bool
        ensures { result ≡ has_block name.now.0.items self.now }
    {
        self.lines.contains_key(name)
    }

    /// Returns the lines of the grow-zone script of this name; no lines where there is no such
    /// script.
    pub fn lines(&self, name: &Label) -> &[Line]
        ensures { result.now ≡ block_of name.now.0.items self.now }
    {
        match self.lines.get(name) {
            Some(lines) => lines,
            None => &[],
        }
    }

    /// Adds a grow-zone script, in place of one of the same name. Nothing is added where the host
    /// is out of memory.
    pub fn add(&mut self, name: Label, lines: Vec<Line>) -> Result<(), AllocError>
        ensures added { OnOk result (self.new ≡ put_named name.0.items lines.items self.old) }
        ensures unchanged { OnErr result (self.new ≡ self.old) }
    {
        self.lines.insert(name, lines)?;
        Ok(())
    }
}

//! The applications of a job, found by name, each with the names of its files.

ghost use Rattle.std.specs.Prelude.{◌≡◌, ◌<◌, ◌++◌, ◌∷◌, ◌||◌, [], map, length, bytes_eq, OnOk};
ghost use Rattle.std.specs.Prelude.{OnErr, IfOk, IfSome};
ghost use Rattle.std.specs.List.{position_from};
ghost use Rattle.script_text.specs.Job.{input_seen, has_name};
ghost use Rattle.script_text.specs.Known.{Known, KnownApp, none_known, known_names, known_with};
ghost use Rattle.script_text.specs.Known.{with_file, with_file_at, may_have, may_have_at, may_join};

use crate::job::Input;
use indexmap::IndexSet;
use mac_words::{FileName, Label};
use std::alloc::{AllocError, Global};
use std::marker::Model;

/// Returns a copy of a file's name.
fn copy_of(name: &FileName) -> Result<FileName, AllocError>
    ensures { IfOk result (λ copy. copy.0.items ≡ name.now.0.items) }
{
    name.clone()
}

/// An application's name, and the names of the files that lines give to it, in the order of the
/// lines. There are at most 255 of them, so no choice of names makes a look-up slow.
#[derive(Drop)]
struct Owner {
    name: Label,
    files: IndexSet<FileName>,
}

impl Model for Owner {
    ghost Value = { KnownApp };

    ghost view = { λ o.
        record { name = o.name.0.items; files = map (λ f. f.0.items) o.files.keys } };
}

impl Owner {
    /// Makes an application that has no files yet.
    fn new(alloc: Global, name: &Label) -> Result<Owner, AllocError>
        ensures { IfOk result (λ owner. owner ≡ record { name = name.now.0.items; files = [] }) }
    {
        Ok(Owner {
            name: name.clone()?,
            files: IndexSet::new(alloc),
        })
    }

    /// Reports whether the application has this name.
    fn is_named(&self, name: &[u8]) -> bool
        ensures { result ≡ bytes_eq name.now self.now.name }
    {
        name == self.name.0.as_slice()
    }

    /// Reports whether the application has a file of this name, its fork among its files.
    fn has(&self, name: &FileName) -> bool
        ensures { result ≡ (bytes_eq name.now.0.items self.now.name
            || has_name name.now.0.items self.now.files) }
    {
        self.is_named(name.0.as_slice()) || self.files.contains(name)
    }

    /// Returns the number of the files that lines give to the application.
    fn file_count(&self) -> usize
        ensures { result ≡ length self.now.files }
    {
        self.files.len()
    }

    /// Reports whether the application may have one more file, of this name.
    fn may_have(&self, name: &FileName) -> bool
        ensures { result ≡ may_have name.now.0.items self.now }
    {
        self.file_count() < 255 && !self.has(name)
    }

    /// Adds a file. Nothing is added where the host is out of memory.
    fn add(&mut self, name: &FileName) -> Result<(), AllocError>
        ensures added { OnOk result (self.new ≡ with_file name.now.0.items self.old) }
        ensures unchanged { OnErr result (self.new ≡ self.old) }
    {
        self.files.insert(copy_of(name)?)?;
        Ok(())
    }
}

/// Returns the number of the application of this name.
fn find_owner(owners: &[Owner], wanted: &[u8]) -> Option<usize>
    ensures named { result ≡ position_from (bytes_eq wanted.now) 0 (known_names owners.now) }
    ensures below { IfSome result (λ number. number < length owners.now) }
{
    let mut number = 0;
    for owner in owners {
        if owner.is_named(wanted) {
            return Some(number);
        }
        number += 1;
    }
    None
}

/// Reports whether an application has this name.
#[tactic(auto, using(crate::proofs::JobInputs::found_among))]
fn has_owner(owners: &[Owner], name: &[u8]) -> bool
    ensures { result ≡ has_name name.now (known_names owners.now) }
{
    find_owner(owners, name).is_some()
}

/// Reports whether the application of this number may have one more file, of this name.
fn may_own(owners: &[Owner], number: usize, name: &FileName) -> bool
    ensures { result ≡ may_have_at number name.now.0.items owners.now }
{
    match owners.get(number) {
        Some(owner) => owner.may_have(name),
        None => false,
    }
}

/// Adds an application.
fn add_owner(alloc: Global, owners: &mut Vec<Owner>, name: &Label) -> Result<(), AllocError>
    ensures added { OnOk result (owners.new.items
        ≡ owners.old.items ++ record { name = name.now.0.items; files = [] } ∷ []) }
    ensures unchanged { OnErr result (owners.new.items ≡ owners.old.items) }
{
    let owner = Owner::new(alloc, name)?;
    owners.push(owner)?;
    Ok(())
}

/// Adds a file to the application of this number, if there is one.
fn add_file(owners: &mut Vec<Owner>, number: usize, name: &FileName) -> Result<(), AllocError>
    ensures added { OnOk result (owners.new.items
        ≡ with_file_at number name.now.0.items owners.old.items) }
    ensures unchanged { OnErr result (owners.new.items ≡ owners.old.items) }
{
    if number < owners.len() {
        owners[number].add(name)?;
    }
    Ok(())
}

/// Whether the inputs of a job have a System file, and their applications in the order of their
/// lines.
#[derive(Drop)]
pub struct Owners {
    alloc: Global,
    system: bool,
    apps: Vec<Owner>,
}

impl Model for Owners {
    ghost Value = { Known };

    ghost view = { λ o. record { system = o.system; apps = o.apps.items } };
}

impl Owners {
    /// Makes what is known of no inputs.
    pub fn new(alloc: Global) -> Owners
        ensures { result ≡ none_known }
    {
        Owners {
            alloc,
            system: false,
            apps: Vec::new(alloc),
        }
    }

    /// Returns the number of the application of this name, counted from 0 in the order of the `app`
    /// lines.
    pub fn find(&self, name: &[u8]) -> Option<usize>
        ensures named { result ≡ position_from (bytes_eq name.now) 0 (known_names self.now.apps) }
        ensures below { IfSome result (λ number. number < length self.now.apps) }
    {
        find_owner(&self.apps, name)
    }

    /// Reports whether an application has a file of this name, its fork among its files.
    pub fn has_file(&self, app: usize, name: &FileName) -> bool {
        match self.apps.get(app) {
            Some(owner) => owner.has(name),
            None => false,
        }
    }

    /// Reports whether an input may follow those of which this is known.
    pub fn fits(&self, input: &Input) -> bool
        ensures { result ≡ may_join self.now (input_seen input.now) }
    {
        match input {
            Input::System { .. } => !self.system,
            Input::App { name, .. } => {
                self.apps.len() < 64 && !has_owner(&self.apps, name.0.as_slice())
            }
            Input::File { app, name, .. } => may_own(&self.apps, *app, name),
        }
    }

    /// Notes one more input. Nothing is noted where the host is out of memory.
    pub fn note(&mut self, input: &Input) -> Result<(), AllocError>
        ensures noted { OnOk result (self.new ≡ known_with self.old (input_seen input.now)) }
        ensures unchanged { OnErr result (self.new ≡ self.old) }
    {
        match input {
            Input::System { .. } => {
                self.system = true;
                Ok(())
            }
            Input::App { name, .. } => add_owner(self.alloc, &mut self.apps, name),
            Input::File { app, name, .. } => add_file(&mut self.apps, *app, name),
        }
    }
}

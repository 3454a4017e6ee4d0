//! The inputs of a job, and which input may follow which.

ghost use Rattle.std.specs.Prelude.{◌≡◌, ◌<◌, ◌++◌, ◌∷◌, List, [], map, length, IsTrue, IfSome};
ghost use Rattle.std.specs.Prelude.{OnOk, OnErr};
ghost use Rattle.script_text.specs.Job.{Input as Stated, input_seen, app_names, app_named};
ghost use Rattle.script_text.specs.Job.{may_follow};
ghost use Rattle.script_text.specs.Known.{IsKnown};

use crate::job::Input;
use crate::job_lines::Misfit;
use crate::owners::Owners;
use std::alloc::{AllocError, Global};
use std::marker::Model;

/// Inputs in the order of their lines, with what finds an application or a file among them by name.
#[derive(Drop)]
pub struct Inputs<'t> {
    items: Vec<Input<'t>>,
    owners: Owners,
}

impl<'t> Model for Inputs<'t> {
    ghost Value = { List Stated };

    ghost view = { λ i. map input_seen i.items.items };

    ghost invariant = { λ i. IsKnown i.owners (map input_seen i.items.items) };
}

impl<'t> Inputs<'t> {
    /// Makes a list of no inputs.
    pub fn new(alloc: Global) -> Inputs<'t>
        ensures { result ≡ [] }
    {
        Inputs {
            items: Vec::new(alloc),
            owners: Owners::new(alloc),
        }
    }

    /// Returns the number of the application of this name, counted from 0 in the order of the `app`
    /// lines.
    pub fn find_app(&self, wanted: &[u8]) -> Option<usize>
        ensures named { result ≡ app_named wanted.now self.now }
        ensures below { IfSome result (λ number. number < length (app_names self.now)) }
    {
        self.owners.find(wanted)
    }

    /// Reports whether an input may follow these: a job has at most one System file, 64
    /// applications, and 256 files of each application with its fork, all of names that are new.
    pub fn fits(&self, input: &Input) -> bool
        ensures { result ≡ may_follow self.now (input_seen input.now) }
    {
        self.owners.fits(input)
    }

    /// Returns why an input that does not fit may not follow these.
    pub fn misfit(&self, input: &Input) -> Misfit {
        match input {
            Input::System { .. } => Misfit::SecondSystem,
            Input::App { name, .. } if self.find_app(name.0.as_slice()).is_some() => {
                Misfit::TakenApplication
            }
            Input::App { .. } => Misfit::ManyApplications,
            Input::File { app, name, .. } if self.owners.has_file(*app, name) => Misfit::TakenFile,
            Input::File { .. } => Misfit::ManyFiles,
        }
    }

    /// Adds an input that may follow these. Nothing is added where the host is out of memory.
    pub fn push(&mut self, input: Input<'t>) -> Result<(), AllocError>
        requires { IsTrue (may_follow self.old (input_seen input)) }
        ensures added { OnOk result (self.new ≡ self.old ++ input_seen input.entry ∷ []) }
        ensures unchanged { OnErr result (self.new ≡ self.old) }
    {
        self.items.reserve(1)?;
        self.owners.note(&input)?;
        match self.items.push(input) {
            Ok(()) => Ok(()),
            Err(_) => unreachable!(),
        }
    }

    /// Returns the inputs.
    pub fn into_items(self) -> Vec<Input<'t>>
        ensures { map input_seen result.items ≡ self.entry }
    {
        self.items
    }
}

//! What the lines of a job state, line after line.

ghost use Rattle.std.specs.Prelude.{◌≡◌, ◌<◌, length, IsTrue, IfOk, OnErr};
ghost use Rattle.std.specs.Option.{ok_or};
ghost use Rattle.script_text.specs.declared.fault.FaultKind.TheVariants.{BadArgument};
ghost use Rattle.script_text.specs.declared.job_lines.Refusal.TheVariants as refusals;
ghost use Rattle.script_text.specs.Job.{Above, Adds, app_named, app_names, input_seen};
ghost use Rattle.script_text.specs.Job.{is_memory as is_memory_size, nothing, of_app, with_event};
ghost use Rattle.script_text.specs.Job.{with_input, with_line, with_size, with_stated};
ghost use Rattle.script_text.specs.Job.{File as FileInput};
ghost use Rattle.script_text.specs.JobFacts.{is_event_of};
ghost use Rattle.script_text.specs.Inner.{IsJobKept};
ghost use Rattle.script_text.specs.Reading.{Gives};
ghost use Rattle.script_text.specs.Stating.{line_seen};

use crate::fault::FaultKind;
use crate::inputs::Inputs;
use crate::job::{Event, Input};
use crate::job_line::{JobLine, read_job_line};
use mac_words::{FileName, Label};
use memory_windows::GREATEST_MEMORY;
use std::alloc::{AllocError, AllocFailed, Global};
use std::marker::Model;

/// The least memory of a job in bytes.
const LEAST_MEMORY: u32 = 512;

/// Why a line of a job may not stand below the lines above it.
#[derive(Clone, Copy)]
pub enum Misfit {
    /// No line above states the memory.
    BeforeMemory,
    /// An input stands below an event.
    AfterEvent,
    /// A line above states the memory.
    SecondMemory,
    /// A job can't have a memory of so many bytes.
    MemorySize { size: u32 },
    /// A line above states the System file.
    SecondSystem,
    /// An application of this name stands above.
    TakenApplication,
    /// A 65th application.
    ManyApplications,
    /// No application of this name stands above.
    NoApplication,
    /// The application has a file of this name, or is named so itself.
    TakenFile,
    /// A 256th file of an application.
    ManyFiles,
}

/// Why a line of a job is not added to those above it.
#[derive(Clone, Copy)]
pub enum Refusal {
    /// The host is out of memory. This says nothing about the line.
    HostMemory,
    /// The line may not stand here.
    Misfit(Misfit),
}

impl From<AllocError> for Refusal {
    ghost from_gives = { λ _ e. e ≡ refusals.HostMemory };

    fn from(_e: AllocError) -> Refusal {
        Refusal::HostMemory
    }
}

impl<T: Drop> From<AllocFailed<T>> for Refusal {
    ghost from_gives = { λ _ e. e ≡ refusals.HostMemory };

    fn from(_e: AllocFailed<T>) -> Refusal {
        Refusal::HostMemory
    }
}

/// What the lines of a job that were read so far have stated.
#[derive(Drop)]
pub struct JobLines<'t> {
    alloc: Global,
    pub(crate) memory: Option<u32>,
    pub(crate) inputs: Inputs<'t>,
    pub(crate) events: Vec<Event>,
}

impl<'t> Model for JobLines<'t> {
    ghost Value = { Above };

    ghost view = { λ r. record {
      memory = r.memory;
      inputs = r.inputs;
      events = r.events.items;
    } };

    ghost invariant = { λ r. IsJobKept r.memory r.inputs r.events.items };
}

/// Reports whether a job may have a memory of `size` bytes: a multiple of 16 from 512 to
/// 134,217,728.
fn is_memory(size: u32) -> bool
    ensures { result ≡ is_memory_size size }
{
    LEAST_MEMORY <= size && size <= GREATEST_MEMORY && size % 16 == 0
}

impl<'t> JobLines<'t> {
    /// Makes what no lines state.
    pub fn new(alloc: Global) -> JobLines<'t>
        ensures { result ≡ nothing }
    {
        JobLines {
            alloc,
            memory: None,
            inputs: Inputs::new(alloc),
            events: Vec::new(alloc),
        }
    }

    /// Returns the memory, if a line has stated it.
    pub fn memory(&self) -> Option<u32>
        ensures { result ≡ self.now.memory }
    {
        self.memory
    }

    /// Adds the memory, which is stated once.
    fn add_memory(&mut self, size: u32) -> Result<(), Refusal>
        ensures read { Adds (λ _. self.new) result (with_size self.old size) }
        ensures unchanged { OnErr result (self.new ≡ self.old) }
    {
        if self.memory.is_some() {
            return Err(Refusal::Misfit(Misfit::SecondMemory));
        }
        if !is_memory(size) {
            return Err(Refusal::Misfit(Misfit::MemorySize { size }));
        }
        self.memory = Some(size);
        Ok(())
    }

    /// Returns why an input may not stand here.
    fn misfit(&self, input: &Input) -> Misfit {
        if self.memory.is_none() {
            Misfit::BeforeMemory
        } else if !self.events.is_empty() {
            Misfit::AfterEvent
        } else {
            self.inputs.misfit(input)
        }
    }

    /// Adds an input, which must stand after the memory and before all events.
    fn add_input(&mut self, input: Input<'t>) -> Result<(), Refusal>
        ensures read { Adds (λ _. self.new) result (with_input self.old (input_seen input.entry)) }
        ensures unchanged { OnErr result (self.new ≡ self.old) }
    {
        if self.memory.is_some() && self.events.is_empty() && self.inputs.fits(&input) {
            self.inputs.push(input)?;
            Ok(())
        } else {
            Err(Refusal::Misfit(self.misfit(&input)))
        }
    }

    /// Adds a file of the application that is named so.
    fn add_file(&mut self, owner: &Label, name: FileName, path: &'t str) -> Result<(), Refusal>
        ensures read { Adds (λ _. self.new) result (of_app self.old owner.now.0.items (λ app.
            with_input self.old (FileInput app name.0.items path.now))) }
        ensures unchanged { OnErr result (self.new ≡ self.old) }
    {
        let app = self.find_app(owner)?;
        self.add_input(Input::File { app, name, path })
    }

    /// Adds an event, which must stand after the memory.
    #[tactic(auto, using(crate::proofs::JobKept::kept_with_event))]
    fn add_event(&mut self, event: Event) -> Result<(), Refusal>
        requires { IsTrue (is_event_of (length (app_names self.old.inputs)) event) }
        ensures read { Adds (λ _. self.new) result (with_event self.old event) }
        ensures unchanged { OnErr result (self.new ≡ self.old) }
    {
        if self.memory.is_none() {
            return Err(Refusal::Misfit(Misfit::BeforeMemory));
        }
        self.events.push(event)?;
        Ok(())
    }

    /// Returns the number of the application of this name.
    fn find_app(&self, name: &Label) -> Result<usize, Refusal>
        ensures found { Adds (λ app. app) result
            (ok_or (app_named name.now.0.items self.now.inputs) BadArgument) }
        ensures below { IfOk result (λ app. app < length (app_names self.now.inputs)) }
    {
        match self.inputs.find_app(name.0.as_slice()) {
            Some(app) => Ok(app),
            None => Err(Refusal::Misfit(Misfit::NoApplication)),
        }
    }

    /// Adds a line; or returns why it may not stand here, and adds nothing.
    pub fn add(&mut self, line: JobLine<'t>) -> Result<(), Refusal>
        ensures read { Adds (λ _. self.new) result (with_stated self.old (line_seen line.entry)) }
        ensures unchanged { OnErr result (self.new ≡ self.old) }
    {
        match line {
            JobLine::Memory { size } => self.add_memory(size),
            JobLine::System { path } => self.add_input(Input::System { path }),
            JobLine::App { name, fork, script } => {
                self.add_input(Input::App { name, fork, script })
            }
            JobLine::File { owner, name, path } => self.add_file(&owner, name, path),
            JobLine::Launch { app } => {
                let app = self.find_app(&app)?;
                self.add_event(Event::Launch(app))
            }
            JobLine::Act { app, act } => {
                let app = self.find_app(&app)?;
                self.add_event(Event::Act(app, act))
            }
            JobLine::Rest => self.add_event(Event::Rest),
        }
    }

    /// Reads a line, and adds what it states.
    #[tactic(auto, unfolding(crate::specs::Job::with_line))]
    pub(crate) fn read(&mut self, line: &'t [u8]) -> Result<(), FaultKind>
        ensures { Gives (λ _. self.new) result (with_line self.old line.now) }
    {
        match read_job_line(self.alloc, line)? {
            Some(stated) => match self.add(stated) {
                Ok(()) => Ok(()),
                Err(Refusal::HostMemory) => Err(FaultKind::HostMemory),
                Err(Refusal::Misfit(_)) => Err(FaultKind::BadArgument),
            },
            None => Ok(()),
        }
    }
}

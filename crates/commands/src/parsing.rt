//! What the commands' words have in common: arguments, their values, and the faults of words.

ghost use Rattle.std.specs.Prelude.{IfOk};
ghost use Rattle.fork_tasks.specs.Fault.{message_of, IsUsage};

use clap::error::ErrorKind;
use clap::{Arg, ArgAction, ArgMatches, Command, Error};
use fork_tasks::ToolFault;
use std::alloc::{AllocError, Global};

/// The help for the size of a partition.
pub const SIZE_HELP: &str = "Bytes, 512 to 134217728; rounded down to a multiple of 16";

/// The rule for a size, which is printed where the word is no size.
pub const SIZE_RULE: &str = "the size must be 512 to 134217728, in decimal digits";

/// The help for the file of a script.
pub const SCRIPT_HELP: &str = "File with one toolbox call a line, or /dev/stdin";

/// Returns a required argument.
pub fn argument<'a>(alloc: Global, name: &'a str, help: &'a str) -> Arg<'a> {
    Arg::new(alloc, name)
        .required(true)
        .action(ArgAction::Set)
        .help(help)
}

/// Returns a flag.
pub fn flag<'a>(alloc: Global, name: &'a str, help: &'a str) -> Arg<'a> {
    Arg::new(alloc, name)
        .long(name)
        .action(ArgAction::SetTrue)
        .help(help)
}

/// Returns an option with a value.
pub fn option<'a>(alloc: Global, name: &'a str, value: &'a str, help: &'a str) -> Arg<'a> {
    Arg::new(alloc, name)
        .long(name)
        .value_name(value)
        .action(ArgAction::Set)
        .help(help)
}

/// A word of a command: its name, for an option without its two hyphens, and its help.
#[derive(Clone, Copy)]
pub enum Word {
    /// A required argument.
    Required(&'static str, &'static str),
    /// A required number, which may be negative.
    Number(&'static str, &'static str),
    /// An argument that may be left out.
    Optional(&'static str, &'static str),
    /// A number that may be left out, and may be negative.
    OptionalNumber(&'static str, &'static str),
    /// An argument that stands once or several times.
    Several(&'static str, &'static str),
    /// A flag.
    Flag(&'static str, &'static str),
    /// An option with a value, whose name stands before the help.
    Setting(&'static str, &'static str, &'static str),
    /// An option with a number, which may be negative.
    NumberSetting(&'static str, &'static str, &'static str),
    /// An option that may stand several times.
    Settings(&'static str, &'static str, &'static str),
}

/// Returns a word as the parser has it.
fn spelled<'a>(alloc: Global, word: Word) -> Arg<'a> {
    match word {
        Word::Required(name, help) => argument(alloc, name, help),
        Word::Number(name, help) => argument(alloc, name, help).allow_negative_numbers(true),
        Word::Optional(name, help) => argument(alloc, name, help).required(false),
        Word::OptionalNumber(name, help) => argument(alloc, name, help)
            .required(false)
            .allow_negative_numbers(true),
        Word::Several(name, help) => argument(alloc, name, help).num_args(1..),
        Word::Flag(name, help) => flag(alloc, name, help),
        Word::Setting(name, value, help) => option(alloc, name, value, help),
        Word::NumberSetting(name, value, help) => {
            option(alloc, name, value, help).allow_negative_numbers(true)
        }
        Word::Settings(name, value, help) => {
            option(alloc, name, value, help).action(ArgAction::Append)
        }
    }
}

/// A command, as its help has it.
pub struct Spoken {
    /// Its name.
    pub name: &'static str,
    /// What it does, in a line.
    pub about: &'static str,
    /// What stands after the list of its words.
    pub examples: &'static str,
    /// Its words, in the order of the help.
    pub words: &'static [Word],
}

impl Spoken {
    /// Returns the command as the parser has it.
    pub fn command<'a>(&'static self, alloc: Global) -> Result<Command<'a>, AllocError> {
        let command = Command::new(alloc, self.name)
            .about(self.about)
            .after_help(self.examples);
        with_words(alloc, command, self.words)
    }
}

/// Returns a command with these commands, in the order in which its help has them.
pub fn with_commands<'a>(
    alloc: Global,
    command: Command<'a>,
    commands: &'static [Spoken],
) -> Result<Command<'a>, AllocError> {
    let mut command = command;
    for spoken in commands {
        command = command.subcommand(spoken.command(alloc)?)?;
    }
    Ok(command)
}

/// Returns a command with these words, in the order in which its help has them.
pub fn with_words<'a>(
    alloc: Global,
    command: Command<'a>,
    words: &'static [Word],
) -> Result<Command<'a>, AllocError> {
    let mut command = command;
    for word in words {
        command = command.arg(spelled(alloc, *word))?;
    }
    Ok(command)
}

/// A rule on a word of a command.
#[derive(Clone, Copy)]
pub enum Rule {
    /// It may not stand beside this word.
    Excludes(&'static str),
    /// It may not stand without this word.
    Needs(&'static str),
    /// It must stand where this word does not.
    Replaces(&'static str),
}

/// A word with its rules.
pub type Ruled = (Word, &'static [Rule]);

/// Returns an argument to which a rule is added.
fn with_rule<'a>(arg: Arg<'a>, rule: Rule) -> Result<Arg<'a>, AllocError> {
    match rule {
        Rule::Excludes(other) => arg.conflicts_with(other),
        Rule::Needs(other) => arg.requires_arg(other),
        Rule::Replaces(other) => arg.required_unless_present(other),
    }
}

/// Returns a word as the parser has it, with its rules.
fn ruled<'a>(alloc: Global, word: Word, rules: &[Rule]) -> Result<Arg<'a>, AllocError> {
    let mut arg = spelled(alloc, word);
    for rule in rules {
        arg = with_rule(arg, *rule)?;
    }
    Ok(arg)
}

/// Returns a command with these words, in the order in which its help has them.
pub fn with_ruled_words<'a>(
    alloc: Global,
    command: Command<'a>,
    words: &[Ruled],
) -> Result<Command<'a>, AllocError> {
    let mut command = command;
    for (word, rules) in words {
        let arg = ruled(alloc, *word, rules)?;
        command = command.arg(arg)?;
    }
    Ok(command)
}

/// Returns the value of an argument that the parser requires.
pub fn value<'a>(matches: &ArgMatches<'a>, name: &str) -> &'a str {
    matches.get_str(name).unwrap_or("")
}

/// Returns an error of the parser as a fault.
pub fn usage(alloc: Global, error: &Error) -> ToolFault
    ensures { IsUsage (message_of result) }
{
    match error.kind() {
        ErrorKind::OutOfMemory => ToolFault::HostMemory,
        _ => match error.to_string(alloc) {
            Ok(text) => ToolFault::Usage { text },
            Err(_) => ToolFault::HostMemory,
        },
    }
}

/// Returns the fault of a mistake that the parser doesn't find, in the form of the parser's own
/// errors.
pub fn mistake(alloc: Global, command: Command<'_>, message: &str) -> ToolFault
    ensures { IsUsage (message_of result) }
{
    let mut command = command;
    match command.error(ErrorKind::ValueValidation, message) {
        Ok(error) => usage(alloc, &error),
        Err(_) => ToolFault::HostMemory,
    }
}

/// Returns the fault of an argument's value, with the rule that the value breaks.
pub fn bad_value(
    alloc: Global,
    command: Command<'_>,
    name: &str,
    text: &str,
    rule: &str,
) -> Result<ToolFault, AllocError>
    ensures { IfOk result (λ fault. IsUsage (message_of fault)) }
{
    let message = format!(in alloc; "invalid value '{text}' for '<{name}>': {rule}")?;
    Ok(mistake(alloc, command, message.as_str()))
}

//! Whether the words of a command line ask for a request: a test of what the parser of the words
//! answers.

ghost use Rattle.std.specs.Prelude.{◌≡◌, ◌≤◌, ◌++◌, ◌∷◌, [], ℕ, List, map, drop, length};
ghost use Rattle.std.specs.Prelude.{option_map, codes, IsTrue};
ghost use Rattle.commands.specs.Asking.{look_word, print_word, edit_word, write_word, convert_word};
ghost use Rattle.commands.specs.Asking.{combine_word, extract_word, part_word, command_of};
ghost use Rattle.commands.specs.Asking.{word_into, StandIn, HasValue, IsGiven, HasValues};
ghost use Rattle.commands.specs.Asking.{MayHaveValue, IsKindAsked, Names};
ghost use Rattle.commands.specs.declared.request.Request.TheVariants.{Lint, Print, Assemble};
ghost use Rattle.commands.specs.Asking.{IsAskedBy, path_in};

use crate::play_asking::{name_played, play_word};
use crate::request::Request;
use fork_commands::{Edit, ForkWork, PairWork};
use fork_tasks::{Assembly, Linting, Part, Pieces, Printing, Target, TextKind};
use job_tasks::Work;

/// Returns the command that prints something of a file.
fn look_word(work: Work) -> &'static str
    ensures { result.now ≡ look_word work }
{
    match work {
        Work::Script(_) => "script",
        Work::Heap(_) => "heap",
        Work::Map(_) | Work::Describe(_) => "map",
        Work::Check => "check",
        Work::Zone(_) => "zone",
    }
}

/// Returns the command that prints what a work makes of a file.
fn print_word(work: ForkWork) -> Option<&'static str>
    ensures { option_map (λ word. word.now) result ≡ print_word work }
{
    match work {
        ForkWork::Get(_) => Some("get"),
        ForkWork::Rewrite(_) => None,
        ForkWork::Change(_, _) => None,
    }
}

/// Returns the command that makes an edit of a fork.
fn edit_word(edit: Edit) -> &'static str
    ensures { result.now ≡ edit_word edit }
{
    match edit {
        Edit::Remove(_) => "remove",
        Edit::Rename(_, _) => "rename",
    }
}

/// Returns the command that writes what a work makes of a file into a new one.
fn write_word(work: ForkWork) -> Option<&'static str>
    ensures { option_map (λ word. word.now) result ≡ write_word work }
{
    match work {
        ForkWork::Rewrite(_) => Some("rewrite"),
        ForkWork::Change(edit, _) => Some(edit_word(edit)),
        ForkWork::Get(_) => None,
    }
}

/// Returns the command that makes something of a file.
fn convert_word(work: ForkWork, target: Target<'_>) -> Option<&'static str>
    ensures { option_map (λ word. word.now) result ≡ convert_word work target.entry }
{
    match target {
        Target::Printed => print_word(work),
        Target::NewFile(_) => write_word(work),
    }
}

/// Returns a command that writes into a new file, where what is made goes into one.
fn in_file(target: Target<'_>, word: &'static str) -> Option<&'static str>
    ensures { option_map (λ w. w.now) result ≡ word_into target.entry word.now }
{
    match target {
        Target::Printed => None,
        Target::NewFile(_) => Some(word),
    }
}

/// Returns the command that makes something of two files.
fn combine_word(work: PairWork, target: Target<'_>) -> Option<&'static str>
    ensures { option_map (λ word. word.now) result ≡ combine_word work target.entry }
{
    match work {
        PairWork::Diff(_) | PairWork::DiffText(_) => match target {
            Target::Printed => Some("diff"),
            Target::NewFile(_) => None,
        },
        PairWork::Set(_, _) | PairWork::SetStated(_, _) => in_file(target, "set"),
        PairWork::Wrap => in_file(target, "wrap"),
        PairWork::Merge(_, _) => in_file(target, "merge"),
    }
}

/// Returns the command that writes what is in a file into a folder.
fn extract_word(pieces: Pieces) -> &'static str
    ensures { result.now ≡ extract_word pieces }
{
    match pieces {
        Pieces::Resources => "extract",
        Pieces::Forks => "unwrap",
    }
}

/// Returns the command that prints a part of a fork as source.
fn part_word(part: Part) -> &'static str
    ensures { result.now ≡ part_word part }
{
    match part {
        Part::Whole => "derez",
        Part::Selected(_) => "show",
    }
}

/// Returns the command that makes a request, if there is one.
fn command_of(request: &Request<'_>) -> Option<&'static str>
    ensures { option_map (λ word. word.now) result ≡ command_of request.now }
{
    match request {
        Request::Look(task) => Some(look_word(task.work)),
        Request::Check(_) => Some("check"),
        Request::Lint(_) => Some("lint"),
        Request::Run(_) => Some("run"),
        Request::Show(_) => Some("heap"),
        Request::Play(playing) => Some(play_word(playing.work)),
        Request::Convert(conversion) => convert_word(conversion.work, conversion.target),
        Request::Combine(combination) => combine_word(combination.work, combination.target),
        Request::Extract(extraction) => Some(extract_word(extraction.pieces)),
        Request::Pack(_) => Some("pack"),
        Request::Print(printing) => Some(part_word(printing.part)),
        Request::Assemble(_) => Some("rez"),
    }
}

/// Returns how many of the texts are found with a further word, of which so many are found before
/// it.
fn found_with(word: &str, texts: &[&str], found: usize) -> usize
    requires few { found ≤ length texts.now }
    ensures few { result ≤ length texts.entry.now }
    ensures so_far { (words : List (List ℕ))
        → StandIn words (map (λ t. t.now) (drop result texts.entry.now))
        → StandIn (word.now ∷ words) (map (λ t. t.now) (drop found texts.entry.now)) }
{
    if found < texts.len() && word == texts[found] {
        return found + 1;
    }
    found
}

/// Reports whether texts are words, in their order.
pub(crate) fn stand_in(words: &[&str], texts: &[&str]) -> bool
    ensures { IsTrue result
        → StandIn (map (λ w. w.now) words.entry.now) (map (λ t. t.now) texts.entry.now) }
{
    let mut found = 0;
    for word in words {
        found = found_with(*word, texts, found);
    }
    found == texts.len()
}

/// Reports whether a word begins so and has nothing but a value after it.
fn ends_in(word: &str, begin: &str, value: &str) -> bool
    ensures { IsTrue result → word.now ≡ begin.now ++ value.now }
{
    match word.as_bytes().strip_prefix(begin.as_bytes()) {
        Some(rest) => rest == value.as_bytes(),
        None => false,
    }
}

/// Reports whether an option has a value; `begin` is the option with `=` after it.
pub(crate) fn has_value(words: &[&str], option: &str, begin: &str, value: &str) -> bool
    requires { begin.now ≡ option.now ++ codes "=" }
    ensures { IsTrue result → HasValue (map (λ w. w.now) words.entry.now) option.now value.now }
{
    for i in 0..words.len() {
        if ends_in(words[i], begin, value) {
            return true;
        }
        if i + 1 < words.len() && words[i] == option && words[i + 1] == value {
            return true;
        }
    }
    false
}

/// Reports whether a word gives an option a value, alone or with the word after it; `begin` is the
/// option with `=` after it.
fn gives(word: &str, rest: &[&str], option: &str, begin: &str, value: &str) -> bool
    requires { begin.now ≡ option.now ++ codes "=" }
    ensures { IsTrue result
        → IsGiven option.now value.now word.now (map (λ w. w.now) rest.entry.now) }
{
    if ends_in(word, begin, value) {
        return true;
    }
    match rest {
        [next, ..] => word == option && *next == value,
        [] => false,
    }
}

/// Returns how many of the values are found with a further word, of which so many are found before
/// it.
fn given_with(
    word: &str,
    rest: &[&str],
    option: &str,
    begin: &str,
    values: &[&str],
    found: usize,
) -> usize
    requires few { found ≤ length values.now }
    requires begin { begin.now ≡ option.now ++ codes "=" }
    ensures few { result ≤ length values.entry.now }
    ensures so_far { HasValues (map (λ w. w.now) rest.entry.now) option.now
        (map (λ v. v.now) (drop result values.entry.now))
        → HasValues (word.now ∷ map (λ w. w.now) rest.entry.now) option.now
        (map (λ v. v.now) (drop found values.entry.now)) }
{
    if found < values.len() && gives(word, rest, option, begin, values[found]) {
        return found + 1;
    }
    found
}

/// Reports whether an option has values, in their order; `begin` is the option with `=` after it.
fn has_values(words: &[&str], option: &str, begin: &str, values: &[&str]) -> bool
    requires { begin.now ≡ option.now ++ codes "=" }
    ensures { IsTrue result
        → HasValues (map (λ w. w.now) words.entry.now) option.now
        (map (λ v. v.now) values.entry.now) }
{
    let mut found = 0;
    for i in 0..words.len() {
        found = given_with(words[i], &words[i + 1..], option, begin, values, found);
    }
    found == values.len()
}

/// Reports whether an option has a value, if there is one; `begin` is the option with `=` after it.
fn may_have_value(words: &[&str], option: &str, begin: &str, value: Option<&str>) -> bool
    requires { begin.now ≡ option.now ++ codes "=" }
    ensures { IsTrue result
        → MayHaveValue (map (λ w. w.now) words.entry.now) option.now value.entry }
{
    match value {
        Some(value) => has_value(words, option, begin, value),
        None => true,
    }
}

/// Reports whether words ask for what the files of `lint` are read as.
fn ask_kind(words: &[&str], asked: Option<TextKind>) -> bool
    ensures { IsTrue result → IsKindAsked (map (λ w. w.now) words.entry.now) asked }
{
    match asked {
        Some(TextKind::Job) => stand_in(words, &["--job"]),
        Some(TextKind::Source) => stand_in(words, &["--rez"]),
        Some(TextKind::Script) => false,
        None => true,
    }
}

/// Reports whether words name the paths of the texts whose faulty lines are printed, and what these
/// are read as.
fn name_linted(words: &[&str], linting: &Linting<'_>) -> bool
    ensures { IsTrue result → Names (Lint linting.now) (map (λ w. w.now) words.entry.now) }
{
    ask_kind(words, linting.asked)
        && has_values(words, "--types", "--types=", linting.types.as_slice())
        && stand_in(words, linting.paths.as_slice())
}

/// Reports whether words name the paths of what a request prints.
fn name_printed(words: &[&str], printing: &Printing<'_>) -> bool
    ensures { IsTrue result → Names (Print printing.now) (map (λ w. w.now) words.entry.now) }
{
    has_values(words, "--types", "--types=", printing.types.as_slice())
        && stand_in(words, &[printing.fork])
}

/// Reports whether words name the paths of what a request assembles.
fn name_assembled(words: &[&str], assembly: &Assembly<'_>) -> bool
    ensures { IsTrue result → Names (Assemble assembly.now) (map (λ w. w.now) words.entry.now) }
{
    has_values(words, "--types", "--types=", assembly.types.as_slice())
        && may_have_value(words, "--into", "--into=", assembly.into)
        && stand_in(words, &[assembly.source, assembly.out])
}

/// Reports whether a path and that of a new file, if what is made goes into one, are words, in this
/// order.
fn stand_with(words: &[&str], path: &str, target: Target<'_>) -> bool
    ensures { IsTrue result
        → StandIn (map (λ w. w.now) words.entry.now) (path.now ∷ path_in target.entry) }
{
    match target {
        Target::Printed => stand_in(words, &[path]),
        Target::NewFile(out) => stand_in(words, &[path, out]),
    }
}

/// Reports whether two paths and that of a new file, if what is made goes into one, are words, in
/// this order.
fn both_stand_with(words: &[&str], first: &str, second: &str, target: Target<'_>) -> bool
    ensures { IsTrue result
        → StandIn (map (λ w. w.now) words.entry.now) (first.now ∷ second.now
        ∷ path_in target.entry) }
{
    match target {
        Target::Printed => stand_in(words, &[first, second]),
        Target::NewFile(out) => stand_in(words, &[first, second, out]),
    }
}

/// Reports whether words name all that a request names.
fn names(words: &[&str], request: &Request<'_>) -> bool
    ensures { IsTrue result → Names request.now (map (λ w. w.now) words.entry.now) }
{
    match request {
        Request::Look(task) => stand_in(words, &[task.path]),
        Request::Check(survey) => stand_in(words, survey.paths.as_slice()),
        Request::Lint(linting) => name_linted(words, linting),
        Request::Run(errand) => stand_in(words, &[errand.job, errand.out]),
        Request::Show(zone) => {
            has_value(words, "--job", "--job=", zone.job)
                && has_value(words, "--app", "--app=", zone.app)
        }
        Request::Play(playing) => name_played(words, playing),
        Request::Convert(conversion) => stand_with(words, conversion.path, conversion.target),
        Request::Combine(combination) => both_stand_with(
            words,
            combination.first,
            combination.second,
            combination.target,
        ),
        Request::Extract(extraction) => stand_in(words, &[extraction.fork, extraction.out]),
        Request::Pack(packing) => stand_in(words, &[packing.folder, packing.out]),
        Request::Print(printing) => name_printed(words, printing),
        Request::Assemble(assembly) => name_assembled(words, assembly),
    }
}

/// Reports whether the words of a command line ask for a request.
pub fn is_asked(words: &[&str], request: &Request<'_>) -> bool
    ensures { IsTrue result → IsAskedBy (map (λ w. w.now) words.entry.now) request.now }
{
    let Some(command) = command_of(request) else {
        return false;
    };
    match words {
        [_, word, rest @ ..] => *word == command && names(rest, request),
        _ => false,
    }
}

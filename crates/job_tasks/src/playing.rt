//! A script is run with files, as an application alone.

ghost use Rattle.std.specs.Prelude.{◌≡◌, ◌≤◌, ◌%◌, ◌++◌, ◌∷◌, [], None, map, length, option_map};
ghost use Rattle.std.specs.Prelude.{Ok, OnOk, IfOk, IfErr, string_bytes, string_capacity};
ghost use Rattle.block_store.specs.declared.measures.TheConstants.{GREATEST_ZONE, LEAST_ZONE};
ghost use Rattle.script_text.specs.Script.{script_of, spelled};
ghost use Rattle.applications.specs.Alone.{to_its_end};
ghost use Rattle.desk.specs.Whole.{system_of, system_in, start_with};
ghost use Rattle.zone_replay.specs.Sight.{sight_text};
ghost use Rattle.zone_replay.specs.Words.{telling_text};
ghost use Rattle.fork_tasks.specs.declared.ending.Ending.TheVariants.{Done};
ghost use Rattle.fork_tasks.specs.Accesses.{and_then, reads_at, StopsAt, StopsAmong, StopsReading};
ghost use Rattle.fork_tasks.specs.declared.delivering.Target.TheVariants.{Printed};
ghost use Rattle.fork_tasks.specs.Delivering.{Delivers, IsUndelivered};
ghost use Rattle.fork_tasks.specs.Fault.{message_of, Fork, IsQuiet};
ghost use Rattle.fork_commands.specs.declared.fault.FileFault.TheVariants.{Code};
ghost use Rattle.job_tasks.specs.Gathering.{source_given, app_given};
ghost use Rattle.job_tasks.specs.Loading.{part_seen, path_of, forks_seen, sources_of};
ghost use Rattle.job_tasks.specs.Outputs.{HasRoom};
ghost use Rattle.job_tasks.specs.Playing.{player_name, paths_read, IsTaken, IsUntaken};
ghost use Rattle.job_tasks.specs.Playing.{script_among, Takes, IsNotTaken, path_at_fault};
ghost use Rattle.job_tasks.specs.Playing.{IsLaunchFault, leaves_alone, left_alone, writes_alone};
ghost use Rattle.job_tasks.specs.Playing.{DoesPlay, IsPlayUndone, Plays, IsUnplayed};
ghost use Rattle.job_tasks.specs.Running.{write_of};
ghost use Rattle.job_tasks.specs.Tasks.{IsScriptFault};
ghost use Rattle.job_tasks.specs.Work.{sight_of, telling_of};

use crate::gathering::Source;
use crate::loading::{AppFork, Forks, forks_given, own_path, system_path};
use crate::outputs::{Owner, write_forks_within};
use crate::paths::{room_for_paths, set_folder_path, set_log_path};
use crate::size::PartitionSize;
use crate::tasks::script_fault;
use crate::work::{Lines, ToldLines, sight_of, telling_of};
use applications::{Given, Unwatched, Watch};
use arrayvec::ArrayVec;
use desk::{App, Job, give_in_region, open_resources};
use fork_commands::{FileFault, WorkFault, content_of_fork};
use fork_tasks::{Ending, Host, Target, ToolFault, WriteError, deliver, read_files, write_fault};
use heap_calls::Refusal;
use mac_words::{Label, OsErr};
use raw_region::Region;
use res_calls::Resources;
use script_text::{Script, read_script};
use std::alloc::{AllocError, Global};
use zone_replay::{Telling, show_in_region, tell_in_region};

/// What is asked for of a script that is run with files.
#[derive(Clone, Copy)]
pub enum PlayWork<'a> {
    /// The transcript is printed.
    Transcript,
    /// The transcript is printed in words, or that of these lines.
    Words(ToldLines),
    /// What the application leaves is written into a new folder, whose path this is as it was
    /// given.
    Leavings(&'a str),
    /// The zone is printed, after these lines.
    Zone(Lines),
}

/// A request to run a script with files, as an application alone in a partition of this size.
#[derive(Drop)]
pub struct Playing<'a> {
    pub size: PartitionSize,
    /// The files whose forks the application is given.
    pub parts: Vec<AppFork<'a>>,
    /// The script's path as it was given.
    pub script: &'a str,
    pub work: PlayWork<'a>,
    /// Whether the progress of the script is to be reported.
    pub watched: bool,
}

/// Adds a copy of a path.
fn push_path(alloc: Global, paths: &mut Vec<String>, path: &str) -> Result<(), AllocError>
    ensures { OnOk result (map string_bytes paths.new.items
        ≡ map string_bytes paths.old.items ++ path.now ∷ []) }
{
    paths.push(String::from_str(alloc, path)?)?;
    Ok(())
}

/// Returns the paths at which files are read, in their order: that of the script, and those of the
/// parts.
fn paths_for(alloc: Global, script: &str, parts: &[AppFork<'_>]) -> Result<Vec<String>, AllocError>
    ensures { IfOk result (λ paths. map string_bytes paths.items
        ≡ script.now ∷ map path_of (map part_seen parts.now)) }
{
    let mut paths = Vec::new(alloc);
    push_path(alloc, &mut paths, script)?;
    for part in parts {
        push_path(alloc, &mut paths, part.path())?;
    }
    Ok(paths)
}

/// Reads the script and the files.
fn read_all<H: Host>(
    alloc: Global,
    host: &mut H,
    play: &Playing<'_>,
) -> Result<Vec<Vec<u8>>, ToolFault>
    ensures silent { H.printed host.new ≡ H.printed host.old }
    ensures count { IfOk result (λ texts. length texts.items ≡ length (paths_read play.now)) }
    ensures read { IfOk result (λ texts. H.accesses host.new ≡ and_then (H.accesses host.old)
        (reads_at (paths_read play.now) (map (λ text. text.items) texts.items))) }
    ensures stopped { IfErr result (λ fault. StopsReading (paths_read play.now)
        (H.accesses host.old) (H.accesses host.new) (message_of fault)) }
{
    let paths = paths_for(alloc, play.script, &play.parts)?;
    match read_files(alloc, host, paths.as_slice()) {
        Ok(texts) => Ok(texts),
        Err(fault) => Err(fault),
    }
}

/// An application that is launched alone, with the System file in a job that has no other part.
#[derive(Drop)]
struct Player {
    job: Job,
    app: App,
    /// Where the forks of the application's files were read.
    sources: Vec<Source>,
}

/// Returns the application's name.
fn player_name() -> Label
    ensures { result.0.items ≡ player_name }
{
    let mut name = ArrayVec::new();
    match name.try_extend_from_slice(b"script") {
        Ok(()) => Label(name),
        Err(_) => unreachable!(),
    }
}

/// Returns the sources of all forks of the application, its own first.
fn all_sources(own: Option<Vec<u8>>, others: Vec<Source>) -> Result<Vec<Source>, AllocError>
    ensures { IfOk result (λ all. map source_given all.items
        ≡ record { app = 0; file = option_map (λ bytes. bytes.items) own }
        ∷ map source_given others.items) }
{
    let mut all = others;
    all.insert(0, Source { app: 0, file: own })?;
    Ok(all)
}

/// Reads the script in a text.
fn script_in(alloc: Global, path: &str, text: &[u8]) -> Result<Script, ToolFault>
    ensures script { IfOk result (λ script. script_of text.now ≡ Ok (spelled script)) }
    ensures fault { IfErr result (λ fault. IsScriptFault path.now text.now (message_of fault)) }
{
    match read_script(alloc, text) {
        Ok(script) => Ok(script),
        Err(fault) => Err(script_fault(alloc, path, fault)?),
    }
}

/// Returns the application that these forks and this script make.
fn player_of(
    alloc: Global,
    size: PartitionSize,
    forks: Forks,
    script: Script,
) -> Result<Player, AllocError>
    ensures system { IfOk result (λ player. option_map (λ fork. fork.items) player.job.system
        ≡ (forks_seen forks).system) }
    ensures app { IfOk result (λ player. app_given player.app ≡ record {
      name = player_name;
      fork = (forks_seen forks).own.0;
      files = (forks_seen forks).files;
      size = None;
      script = spelled script;
    }) }
    ensures script { IfOk result (λ player. player.app.script ≡ script) }
    ensures sources { IfOk result (λ player. map source_given player.sources.items
        ≡ sources_of (forks_seen forks)) }
{
    let Forks {
        own,
        system,
        files,
        sources,
    } = forks;
    let sources = all_sources(own.source, sources)?;
    let job = Job {
        memory: size.bytes,
        system,
        apps: Vec::new(alloc),
        events: Vec::new(alloc),
    };
    let app = App {
        name: player_name(),
        fork: own.fork,
        files,
        size: None,
        script,
    };
    Ok(Player { job, app, sources })
}

/// Returns the application that the script and the forks make which were read, the script first.
fn taken(alloc: Global, play: &Playing<'_>, texts: &[Vec<u8>]) -> Result<Player, ToolFault>
    requires { length texts.now ≡ length (paths_read play.now) }
    ensures taken { IfOk result (λ player. IsTaken play.now (map (λ text. text.items) texts.now)
        player.job player.app (map source_given player.sources.items)) }
    ensures fault { IfErr result (λ fault.
        IsUntaken play.now (map (λ text. text.items) texts.now) (message_of fault)) }
{
    match texts {
        [text, forks @ ..] => {
            let script = script_in(alloc, play.script, text.as_slice())?;
            let forks = forks_given(alloc, &play.parts, forks)?;
            let player = player_of(alloc, play.size, forks, script)?;
            Ok(player)
        }
        [] => unreachable!(),
    }
}

/// Returns the path of the fork for which there are no resources to launch the application with.
#[tactic(auto, using(crate::proofs::Played::system_read, crate::proofs::Played::system_unread))]
fn path_at_fault<'a>(
    alloc: Global,
    parts: &[AppFork<'a>],
    system: &Option<Vec<u8>>,
) -> Result<&'a str, AllocError>
    ensures { IfOk result (λ path. path.now ≡ path_at_fault (map part_seen parts.now)
        (system_in (option_map (λ fork. fork.items) system.now))) }
{
    let Some(fork) = system else {
        return Ok(own_path(parts));
    };
    match content_of_fork(alloc, fork) {
        Ok(_) => Ok(own_path(parts)),
        Err(WorkFault::File(_)) => Ok(system_path(parts)),
        Err(WorkFault::HostMemory) => Err(AllocError),
    }
}

/// Returns the fault of a fork that can't be opened.
fn launch_fault(
    alloc: Global,
    parts: &[AppFork<'_>],
    system: &Option<Vec<u8>>,
    code: OsErr,
) -> Result<ToolFault, AllocError>
    ensures { IfOk result (λ fault. message_of fault ≡ Fork (path_at_fault (map part_seen parts.now)
        (system_in (option_map (λ fork. fork.items) system.now))) (Code code)) }
{
    let path = path_at_fault(alloc, parts, system)?;
    Ok(ToolFault::Fork {
        path: String::from_str(alloc, path)?,
        fault: FileFault::Code { code },
    })
}

/// Opens the resources with which the application is launched.
#[tactic(auto, using(crate::proofs::Played::not_launched))]
fn opened(
    alloc: Global,
    parts: &[AppFork<'_>],
    job: &Job,
    app: &App,
) -> Result<Resources, ToolFault>
    ensures opened { IfOk result (λ resources. start_with (system_of job.now) app.now
        ≡ Ok resources) }
    ensures fault { IfErr result (λ fault.
        IsLaunchFault (map part_seen parts.now) job.now app.now (message_of fault)) }
{
    match open_resources(alloc, job, app) {
        Ok(resources) => Ok(resources),
        Err(Refusal::HostMemory) => Err(ToolFault::HostMemory),
        Err(Refusal::Code(code)) => Err(launch_fault(alloc, parts, &job.system, code)?),
    }
}

/// Runs a script to its end in a region. The progress is reported to the watch if `watched` is set.
fn run_in<W: Watch>(
    alloc: Global,
    region: Region,
    resources: Resources,
    script: &Script,
    watched: bool,
    watch: &mut W,
) -> (Result<Given, AllocError>, Region)
    requires home { region.out ≡ [] }
    requires even { length region.bytes % 16 ≡ 0 }
    requires low { LEAST_ZONE ≤ length region.bytes }
    requires high { length region.bytes ≤ GREATEST_ZONE }
    ensures given { IfOk result.0 (λ given. given
        ≡ to_its_end resources (length region.bytes) script.now) }
    ensures home { result.1.out ≡ [] }
{
    let steps = script.steps().len() + 1;
    if watched {
        return give_in_region(alloc, region, resources, script, steps, false, watch);
    }
    give_in_region(
        alloc,
        region,
        resources,
        script,
        steps,
        false,
        &mut Unwatched,
    )
}

/// Runs a script to its end in a fresh partition, which is a region of its own. The progress is
/// reported to the watch if `watched` is set.
fn ran<W: Watch>(
    alloc: Global,
    size: PartitionSize,
    resources: Resources,
    script: &Script,
    watched: bool,
    watch: &mut W,
) -> Result<Given, AllocError>
    ensures { IfOk result (λ given. given ≡ to_its_end resources size.bytes script.now) }
{
    let region = Region::new(alloc, size.bytes as usize)?;
    let (given, region) = run_in(alloc, region, resources, script, watched, watch);
    region.close();
    match given {
        Ok(given) => Ok(given),
        Err(fault) => Err(fault),
    }
}

/// Runs a script up to some lines in a fresh partition, which is a region of its own, and returns
/// the zone as it then lies, or a picture of its moments. `text` is the text of the script.
fn shown(
    alloc: Global,
    size: PartitionSize,
    resources: Resources,
    script: &Script,
    text: &[u8],
    lines: Lines,
) -> Result<Vec<u8>, AllocError>
    ensures { IfOk result (λ out. out.items
        ≡ sight_text (sight_of lines script.now.steps) resources size.bytes script.now text.now) }
{
    let region = Region::new(alloc, size.bytes as usize)?;
    let sight = sight_of(lines, script);
    let (shown, region) = show_in_region(alloc, region, resources, script, text, sight);
    region.close();
    match shown {
        Ok(out) => Ok(out),
        Err(fault) => Err(fault),
    }
}

/// Writes the files that an application leaves into a folder that was made: the forks that were
/// written, and then the transcript.
fn write_files<H: Host>(
    alloc: Global,
    host: &mut H,
    folder: &str,
    sources: &[Source],
    given: Given,
    path: &mut String,
) -> Result<(), WriteError>
    requires { HasRoom folder.now (string_capacity path.old) }
    ensures silent { H.printed host.new ≡ H.printed host.old }
    ensures written { OnOk result (H.accesses host.new ≡ and_then (H.accesses host.old)
        (map write_of (left_alone folder.now (map source_given sources.now) given))) }
    ensures stopped { IfErr result (λ error. StopsAt
        (map write_of (left_alone folder.now (map source_given sources.now) given))
        (H.accesses host.old) (H.accesses host.new) (string_bytes path.new) error) }
{
    let name = player_name();
    let owner = Owner {
        name: &name,
        place: 0,
        sources,
    };
    write_forks_within(alloc, host, folder, owner, given.files(), path)?;
    set_log_path(path, folder, &name);
    host.write(path.as_str(), given.into_transcript().as_slice())?;
    Ok(())
}

/// Writes what an application leaves into a new folder.
fn write_left<H: Host>(
    alloc: Global,
    host: &mut H,
    folder: &str,
    sources: &[Source],
    given: Given,
    path: &mut String,
) -> Result<(), WriteError>
    requires { HasRoom folder.now (string_capacity path.old) }
    ensures silent { H.printed host.new ≡ H.printed host.old }
    ensures written { OnOk result (H.accesses host.new ≡ and_then (H.accesses host.old)
        (writes_alone folder.now (map source_given sources.now) given)) }
    ensures stopped { IfErr result (λ error. StopsAt
        (writes_alone folder.now (map source_given sources.now) given)
        (H.accesses host.old) (H.accesses host.new) (string_bytes path.new) error) }
{
    set_folder_path(path, folder);
    host.make_folder(path.as_str())?;
    write_files(alloc, host, folder, sources, given, path)?;
    Ok(())
}

/// Writes what an application leaves into a new folder. The text has room for the paths of the
/// files, and goes into the fault.
fn written<H: Host>(
    alloc: Global,
    host: &mut H,
    folder: &str,
    sources: &[Source],
    given: Given,
    room: String,
) -> Result<(), ToolFault>
    requires { HasRoom folder.now (string_capacity room) }
    ensures silent { H.printed host.new ≡ H.printed host.old }
    ensures written { OnOk result (H.accesses host.new ≡ and_then (H.accesses host.old)
        (writes_alone folder.now (map source_given sources.now) given)) }
    ensures stopped { IfErr result (λ fault. StopsAmong
        (writes_alone folder.now (map source_given sources.now) given)
        (H.accesses host.old) (H.accesses host.new) (message_of fault)) }
{
    let mut path = room;
    match write_left(alloc, host, folder, sources, given, &mut path) {
        Ok(()) => Ok(()),
        Err(error) => Err(write_fault(path, error)),
    }
}

/// Runs a script in a fresh partition, which is a region of its own, and returns so much of its
/// transcript in words. `text` is the text of the script.
pub(crate) fn told(
    alloc: Global,
    size: PartitionSize,
    resources: Resources,
    script: &Script,
    text: &[u8],
    telling: Telling,
) -> Result<Vec<u8>, AllocError>
    ensures { IfOk result (λ out. out.items
        ≡ telling_text telling resources size.bytes script.now text.now) }
{
    let region = Region::new(alloc, size.bytes as usize)?;
    let (told, region) = tell_in_region(alloc, region, resources, script, text, telling);
    region.close();
    match told {
        Ok(out) => Ok(out),
        Err(fault) => Err(fault),
    }
}

/// Runs a script, and prints its transcript in words, or that of some lines. `text` is the text of
/// the script.
fn print_words<H: Host>(
    alloc: Global,
    host: &mut H,
    play: &Playing<'_>,
    resources: Resources,
    script: &Script,
    text: &[u8],
    lines: ToldLines,
) -> Result<(), ToolFault>
    ensures done { OnOk result (Delivers Printed (telling_text (telling_of lines script.now.steps)
        resources play.now.size.bytes script.now text.now)
        (H.printed host.old) (H.printed host.new) (H.accesses host.old) (H.accesses host.new)) }
    ensures undone { IfErr result (λ fault. IsUndelivered Printed (telling_text (telling_of lines
        script.now.steps) resources play.now.size.bytes script.now text.now) (H.printed host.old)
        (H.printed host.new) (H.accesses host.old) (H.accesses host.new) (message_of fault)) }
{
    let telling = telling_of(lines, script);
    let out = told(alloc, play.size, resources, script, text, telling)?;
    deliver(alloc, host, Target::Printed, out.as_slice())
}

/// Runs a script to its end, and prints its transcript.
fn print_transcript<H: Host, W: Watch>(
    alloc: Global,
    host: &mut H,
    play: &Playing<'_>,
    resources: Resources,
    script: &Script,
    watch: &mut W,
) -> Result<(), ToolFault>
    ensures done { OnOk result
        (Delivers Printed (to_its_end resources play.now.size.bytes script.now).transcript
        (H.printed host.old) (H.printed host.new) (H.accesses host.old) (H.accesses host.new)) }
    ensures undone { IfErr result (λ fault. IsUndelivered Printed
        (to_its_end resources play.now.size.bytes script.now).transcript (H.printed host.old)
        (H.printed host.new) (H.accesses host.old) (H.accesses host.new) (message_of fault)) }
{
    let given = ran(alloc, play.size, resources, script, play.watched, watch)?;
    let text = given.into_transcript();
    deliver(alloc, host, Target::Printed, text.as_slice())
}

/// Runs a script to its end, and writes what the application leaves into a new folder. What the
/// paths need is taken before the run.
fn write_leavings<H: Host, W: Watch>(
    alloc: Global,
    host: &mut H,
    play: &Playing<'_>,
    resources: Resources,
    player: &Player,
    folder: &str,
    watch: &mut W,
) -> Result<(), ToolFault>
    ensures silent { H.printed host.new ≡ H.printed host.old }
    ensures done { OnOk result (H.accesses host.new ≡ and_then (H.accesses host.old)
        (writes_alone folder.now (map source_given player.now.sources.items)
        (leaves_alone play.now player.now.app resources))) }
    ensures undone { IfErr result (λ fault. StopsAmong
        (writes_alone folder.now (map source_given player.now.sources.items) (leaves_alone play.now
        player.now.app resources)) (H.accesses host.old) (H.accesses host.new) (message_of fault)) }
{
    let room = room_for_paths(alloc, folder)?;
    let given = ran(
        alloc,
        play.size,
        resources,
        &player.app.script,
        play.watched,
        watch,
    )?;
    written(alloc, host, folder, &player.sources, given, room)
}

/// Runs a script up to some lines, and prints the zone. `text` is the text of the script.
fn print_zone<H: Host>(
    alloc: Global,
    host: &mut H,
    play: &Playing<'_>,
    resources: Resources,
    script: &Script,
    text: &[u8],
    lines: Lines,
) -> Result<(), ToolFault>
    ensures done { OnOk result (Delivers Printed (sight_text (sight_of lines script.now.steps)
        resources play.now.size.bytes script.now text.now)
        (H.printed host.old) (H.printed host.new) (H.accesses host.old) (H.accesses host.new)) }
    ensures undone { IfErr result (λ fault. IsUndelivered Printed (sight_text (sight_of lines
        script.now.steps) resources play.now.size.bytes script.now text.now) (H.printed host.old)
        (H.printed host.new) (H.accesses host.old) (H.accesses host.new) (message_of fault)) }
{
    let out = shown(alloc, play.size, resources, script, text, lines)?;
    deliver(alloc, host, Target::Printed, out.as_slice())
}

/// An application, and the texts that were read for it, the script first.
#[derive(Drop)]
struct ReadPlayer {
    player: Player,
    texts: Vec<Vec<u8>>,
}

impl ReadPlayer {
    /// Returns the text of the script.
    fn script(&self) -> &[u8]
        ensures { result.now ≡ script_among (map (λ text. text.items) self.now.texts.items) }
    {
        match self.texts.as_slice() {
            [text, ..] => text.as_slice(),
            [] => &[],
        }
    }
}

/// Does what is asked for with an application and its resources.
fn do_work<H: Host, W: Watch>(
    alloc: Global,
    host: &mut H,
    play: &Playing<'_>,
    resources: Resources,
    taken: &ReadPlayer,
    watch: &mut W,
) -> Result<(), ToolFault>
    ensures done { OnOk result
        (DoesPlay play.now play.now.work (map (λ text. text.items) taken.now.texts.items)
        taken.now.player.app (map source_given taken.now.player.sources.items) resources
        (H.printed host.old) (H.printed host.new) (H.accesses host.old) (H.accesses host.new)) }
    ensures undone { IfErr result (λ fault. IsPlayUndone play.now play.now.work
        (map (λ text. text.items) taken.now.texts.items) taken.now.player.app
        (map source_given taken.now.player.sources.items) resources (H.printed host.old)
        (H.printed host.new) (H.accesses host.old) (H.accesses host.new) (message_of fault)) }
{
    let player = &taken.player;
    let script = &player.app.script;
    match play.work {
        PlayWork::Transcript => print_transcript(alloc, host, play, resources, script, watch),
        PlayWork::Words(lines) => {
            print_words(alloc, host, play, resources, script, taken.script(), lines)
        }
        PlayWork::Leavings(folder) => {
            write_leavings(alloc, host, play, resources, player, folder, watch)
        }
        PlayWork::Zone(lines) => {
            print_zone(alloc, host, play, resources, script, taken.script(), lines)
        }
    }
}

/// Reads the script and the files of a request, and returns the application that they make.
fn take<H: Host>(alloc: Global, host: &mut H, play: &Playing<'_>) -> Result<ReadPlayer, ToolFault>
    ensures silent { H.printed host.new ≡ H.printed host.old }
    ensures taken { IfOk result (λ taken. Takes play.now
        (map (λ text. text.items) taken.texts.items) taken.player.job taken.player.app
        (map source_given taken.player.sources.items) (H.accesses host.old) (H.accesses host.new)) }
    ensures untaken { IfErr result (λ fault.
        IsNotTaken play.now (H.accesses host.old) (H.accesses host.new) (message_of fault)) }
{
    let texts = read_all(alloc, host, play)?;
    match taken(alloc, play, texts.as_slice()) {
        Ok(player) => Ok(ReadPlayer { player, texts }),
        Err(fault) => Err(fault),
    }
}

/// Runs a script with files, as an application alone: reads the script, and then the files, in
/// their order; and prints the transcript, or writes what the application leaves into a new folder,
/// or prints the zone.
///
/// # Errors
///
/// A file that can't be read, a script that is faulty, a fork in a wrapper that is damaged, or one
/// that can't be opened: then nothing is printed or written. Or the standard output, the folder or
/// a file can't be written, or the host is out of memory.
pub fn play<H: Host, W: Watch>(
    alloc: Global,
    host: &mut H,
    play: &Playing<'_>,
    watch: &mut W,
) -> Result<Ending, ToolFault>
    // The script and the files are read, and then what is asked for is printed or written, by what
    // the application leaves alone with them in a partition of the size. No other file is read or
    // written.
    ensures done { IfOk result (λ ending. (ending ≡ Done) × Plays play.now (H.printed host.old)
        (H.printed host.new) (H.accesses host.old) (H.accesses host.new)) }

    // The fault is the first in that order.
    ensures undone { IfErr result (λ fault. IsUnplayed play.now (H.printed host.old)
        (H.printed host.new) (H.accesses host.old) (H.accesses host.new) (message_of fault)) }

    // Nothing is printed of files or a script that are at fault.
    ensures quiet { IfErr result (λ fault.
        IsQuiet (H.printed host.old) (H.printed host.new) (message_of fault)) }
{
    let taken = take(alloc, host, play)?;
    let resources = opened(alloc, &play.parts, &taken.player.job, &taken.player.app)?;
    match do_work(alloc, host, play, resources, &taken, watch) {
        Ok(()) => Ok(Ending::Done),
        Err(fault) => Err(fault),
    }
}

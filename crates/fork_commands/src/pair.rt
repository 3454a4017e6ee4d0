//! The works on two files: from their bytes to what is printed or written of them.

ghost use Rattle.std.specs.Prelude.{◌≡◌, Ok, OnOk, IfOk, IfErr, false, map, not};
ghost use Rattle.std.specs.List.{flat_map};
ghost use Rattle.text_diff.specs.Difference.{IsDifference};
ghost use Rattle.fork_edits.specs.Differences.{same_content};
ghost use Rattle.fork_edits.specs.Lines.{difference_line};
ghost use Rattle.fork_edits.specs.Merging.{merged};
ghost use Rattle.fork_edits.specs.View.{view_change, view_difference, view_renaming};
ghost use Rattle.fork_format.specs.View.{view, view_ref};
ghost use Rattle.fork_commands.specs.Faults.{Stops};
ghost use Rattle.fork_commands.specs.Opening.{bytes_of, IsOpen};
ghost use Rattle.fork_commands.specs.Pairs as spec;
ghost use Rattle.fork_commands.specs.Pairs.{Bytes, at, stopped_at, Gives, StopsPair, names_of};
ghost use Rattle.fork_commands.specs.Pairs.{combined};
ghost use Rattle.rez_text.specs.View.{content_stated};
ghost use Rattle.fork_commands.specs.Reading.{content_in};
ghost use Rattle.fork_commands.specs.declared.pair.PairFault.TheVariants as pair_fault;
ghost use Rattle.fork_commands.specs.declared.pair.Place.TheVariants.{Second};
ghost use Rattle.fork_commands.specs.declared.pair.PairWork.TheVariants.{Set, SetStated, Diff};
ghost use Rattle.fork_commands.specs.declared.pair.PairWork.TheVariants.{DiffText, Wrap, Merge};

use crate::fault::{FileFault, Twin, WorkFault};
use crate::known_types::built_in;
use crate::opening::{OpenFile, open_file};
use crate::packaging::{Packaging, packed};
use crate::printing::source_with;
use crate::reading::{content_in, fork_out};
use crate::source_form::SourceForm;
use crate::work::{ResourceKey, resource_at, written};
use fork_edits::{
    Change, Difference, MergeFault, Renaming, RomanName, append_difference, diff, lend_name, merge,
    rename_resource, set_resource,
};
use fork_format::{Content, Ref, kind_of};
use mac_roman::Charset;
use mac_words::Attrs;
use rez_text::{Source, SourceFault, read_source};
use std::alloc::{AllocError, Global};
use text_diff::unified;
use thiserror::Error;

/// The resource that is set in a fork.
#[derive(Clone, Copy)]
pub struct Setting {
    pub key: ResourceKey,
    /// The name, or none to leave the name as it is.
    pub name: Option<RomanName>,
    /// The attributes, or none to leave them as they are.
    pub attrs: Option<Attrs>,
}

/// What is made of the bytes of two files.
#[derive(Clone, Copy)]
pub enum PairWork {
    /// The canonical fork of the content that the first file's bytes spell, with a resource set to
    /// the second file's bytes, alone or in the wrapper of the first file.
    Set(Setting, Packaging),
    /// The canonical fork of that content, with a resource set to the one of its type and ID that
    /// the second file states as source of Rez by the types of the table: to its bytes, and to its
    /// name and attributes where no others are given. One that is stated without a name has none
    /// then.
    SetStated(Setting, Packaging),
    /// How the contents of the two forks differ, in lines in a set of characters.
    Diff(Charset),
    /// How the sources of the two forks differ, as `diff -u` prints it. Statements are printed by
    /// the types of the table, and by the templates of each fork.
    DiffText(SourceForm),
    /// The first file, with the fork in the second file's bytes in the place of its own.
    Wrap,
    /// The canonical fork of the resources of both forks, alone or in the wrapper of the first
    /// file. What stands in both is refused, or, if so asked, the second fork's resource stands in
    /// the place of the first's.
    Merge(bool, Packaging),
}

/// The names of two files, as they are printed.
#[derive(Clone, Copy)]
pub struct PairNames<'n> {
    pub first: &'n str,
    pub second: &'n str,
}

/// What is made of the bytes of two files.
#[derive(Drop)]
pub struct PairOutput {
    /// The bytes that are made.
    pub out: Vec<u8>,
    /// Whether two contents were compared, and differ.
    pub differs: bool,
}

/// One of two files.
#[derive(Clone, Copy, Debug)]
pub enum Place {
    First,
    Second,
}

/// The reason why nothing is made of the bytes of two files.
#[derive(Clone, Copy, Debug, Error)]
pub enum PairFault {
    /// The bytes of a file are at fault.
    #[error("{1}")]
    File(Place, FileFault),
    /// The host is out of memory.
    #[error("the host is out of memory")]
    HostMemory,
}

impl From<AllocError> for PairFault {
    ghost from_gives = { λ _ e. e ≡ pair_fault.HostMemory };

    fn from(_e: AllocError) -> PairFault {
        PairFault::HostMemory
    }
}

impl WorkFault {
    /// Returns the fault as one of a file among two.
    fn at(self, place: Place) -> PairFault
        ensures { result ≡ stopped_at place self }
    {
        match self {
            WorkFault::File(fault) => PairFault::File(place, fault),
            WorkFault::HostMemory => PairFault::HostMemory,
        }
    }
}

/// Opens one of two files.
#[tactic(auto, using(crate::proofs::Pairs::stopped_first))]
fn opened_at<'b>(alloc: Global, place: Place, bytes: &'b [u8]) -> Result<OpenFile<'b>, PairFault>
    ensures bytes { IfOk result (λ file. bytes_of file ≡ bytes.now) }
    ensures is_open { IfOk result IsOpen }
    ensures fault { IfErr result (λ fault. StopsPair fault (at place (content_in bytes.now))) }
{
    match open_file(alloc, bytes) {
        Ok(file) => Ok(file),
        Err(fault) => Err(fault.at(place)),
    }
}

/// Reads the content of the resource fork in one of two files.
#[tactic(auto, using(crate::proofs::Pairs::stopped_first))]
fn content_at<'f>(
    alloc: Global,
    place: Place,
    file: &'f OpenFile<'_>,
) -> Result<Content<'f>, PairFault>
    requires { IsOpen file.now }
    ensures content { IfOk result (λ c. content_in (bytes_of file.now) ≡ Ok (view c)) }
    ensures fault { IfErr result (λ fault.
        StopsPair fault (at place (content_in (bytes_of file.now)))) }
{
    match content_in(alloc, file) {
        Ok(content) => Ok(content),
        Err(fault) => Err(fault.at(place)),
    }
}

/// Returns what a resource is set to, with the name lent.
fn change_to<'b>(setting: &'b Setting, bytes: &'b [u8]) -> Change<'b>
    ensures { view_change result ≡ spec.setting_change setting.now bytes.now }
{
    Change {
        datum: bytes,
        name: lend_name(&setting.name),
        attrs: setting.attrs,
    }
}

/// Sets a resource of a content to bytes.
#[tactic(auto, using(crate::proofs::Pairs::set_there))]
fn change<'b>(
    alloc: Global,
    setting: &'b Setting,
    bytes: &'b [u8],
    content: &mut Content<'b>,
) -> Result<(), AllocError>
    ensures { OnOk result (view content.new
        ≡ spec.with_setting setting.now bytes.now (view content.old)) }
{
    let change = change_to(setting, bytes);
    set_resource(alloc, content, setting.key.ty, setting.key.id, &change)?;
    Ok(())
}

/// Returns the canonical fork of a content, once a resource in it is set to the second file's
/// bytes, alone or in the wrapper of the first file.
fn fork_set<'b>(
    alloc: Global,
    setting: &'b Setting,
    packaging: Packaging,
    first: &'b [u8],
    second: &'b [u8],
) -> Result<Vec<u8>, WorkFault>
    ensures made { IfOk result (λ out. spec.fork_set setting.now packaging first.now second.now
        ≡ Ok out.items) }
    ensures fault { IfErr result (λ fault.
        Stops fault (spec.fork_set setting.now packaging first.now second.now)) }
{
    let file = open_file(alloc, first)?;
    let mut content = content_in(alloc, &file)?;
    change(alloc, setting, second, &mut content)?;
    written(alloc, packaging, first, &content)
}

/// Returns a copy of the resource fork in the bytes of a file, once it is known to have a content.
#[tactic(auto, using(crate::proofs::Pairs::good_there, crate::proofs::Pairs::good_not))]
fn good_fork(alloc: Global, bytes: &[u8]) -> Result<Vec<u8>, WorkFault>
    ensures made { IfOk result (λ out. spec.good_fork_in bytes.now ≡ Ok out.items) }
    ensures fault { IfErr result (λ fault. Stops fault (spec.good_fork_in bytes.now)) }
{
    let file = open_file(alloc, bytes)?;
    content_in(alloc, &file)?;
    fork_out(alloc, file)
}

/// Returns the first file with a fork that was made of the second in the place of its own.
#[tactic(auto, using(crate::proofs::Pairs::put_made, crate::proofs::Pairs::put_stopped))]
fn put_into(alloc: Global, first: &[u8], fork: Vec<u8>) -> Result<PairOutput, PairFault>
    ensures made { IfOk result (λ made. spec.put_into first.now (Ok fork.items)
        ≡ Ok (Bytes made.out.items made.differs)) }
    ensures fault { IfErr result (λ fault.
        StopsPair fault (spec.put_into first.now (Ok fork.items))) }
{
    match packed(alloc, Packaging::AsRead, first, fork) {
        Ok(out) => Ok(PairOutput {
            out,
            differs: false,
        }),
        Err(fault) => Err(fault.at(Place::First)),
    }
}

/// Puts the fork in the second file into the first file.
#[tactic(auto, using(crate::proofs::Pairs::put_there, crate::proofs::Pairs::put_unmade, crate::proofs::Pairs::put_not))]
fn fork_put(alloc: Global, first: &[u8], second: &[u8]) -> Result<PairOutput, PairFault>
    ensures made { IfOk result (λ made. combined Wrap first.now second.now
        ≡ Ok (Bytes made.out.items made.differs)) }
    ensures fault { IfErr result (λ fault. StopsPair fault (combined Wrap first.now second.now)) }
{
    match good_fork(alloc, second) {
        Ok(fork) => put_into(alloc, first, fork),
        Err(fault) => Err(fault.at(Place::Second)),
    }
}

/// Returns the lines of differences.
fn lines_of(
    alloc: Global,
    charset: Charset,
    found: &[Difference<'_, '_>],
) -> Result<Vec<u8>, AllocError>
    ensures { IfOk result (λ out. out.items
        ≡ flat_map (difference_line charset) (map view_difference found.now)) }
{
    let mut out = Vec::new(alloc);
    for difference in found {
        append_difference(&mut out, charset, difference)?;
    }
    Ok(out)
}

/// Returns how two contents differ, in lines, and whether they do.
#[tactic(auto, using(crate::proofs::Pairs::differs_of))]
fn compared(
    alloc: Global,
    charset: Charset,
    first: &Content<'_>,
    second: &Content<'_>,
) -> Result<PairOutput, AllocError>
    ensures lines { IfOk result (λ made. made.out.items
        ≡ spec.difference_lines charset (view first.now) (view second.now)) }
    ensures differs { IfOk result (λ made. made.differs
        ≡ not (same_content (view first.now) (view second.now))) }
{
    let differences = diff(alloc, first, second)?;
    let found = differences.as_slice();
    let out = lines_of(alloc, charset, found)?;
    Ok(PairOutput {
        out,
        differs: !found.is_empty(),
    })
}

/// Returns how the contents of two forks differ.
#[tactic(auto, using(crate::proofs::Pairs::first_stopped, crate::proofs::Pairs::second_stopped, crate::proofs::Pairs::both_compared))]
fn forks_compared(
    alloc: Global,
    charset: Charset,
    first: &[u8],
    second: &[u8],
) -> Result<PairOutput, PairFault>
    ensures made { IfOk result (λ made. combined (Diff charset) first.now second.now
        ≡ Ok (Bytes made.out.items made.differs)) }
    ensures fault { IfErr result (λ fault.
        StopsPair fault (combined (Diff charset) first.now second.now)) }
{
    let first_file = opened_at(alloc, Place::First, first)?;
    let one = content_at(alloc, Place::First, &first_file)?;
    let second_file = opened_at(alloc, Place::Second, second)?;
    let other = content_at(alloc, Place::Second, &second_file)?;
    Ok(compared(alloc, charset, &one, &other)?)
}

/// Returns whether two contents differ.
#[tactic(auto, using(crate::proofs::Pairs::differs_of))]
fn differ(alloc: Global, first: &Content<'_>, second: &Content<'_>) -> Result<bool, AllocError>
    ensures { IfOk result (λ differs. differs
        ≡ not (same_content (view first.now) (view second.now))) }
{
    let differences = diff(alloc, first, second)?;
    let found = differences.as_slice();
    Ok(!found.is_empty())
}

/// Returns a content as source, by the types of the table and its own templates.
fn text_of(alloc: Global, form: SourceForm, content: &Content<'_>) -> Result<Vec<u8>, AllocError>
    ensures { IfOk result (λ text. text.items ≡ spec.text_of form (view content.now)) }
{
    source_with(alloc, form, built_in(alloc)?, content, content)
}

/// Returns how the sources of two contents differ, and whether the contents do.
fn texts_compared(
    alloc: Global,
    form: SourceForm,
    names: PairNames<'_>,
    first: &Content<'_>,
    second: &Content<'_>,
) -> Result<PairOutput, AllocError>
    ensures text { IfOk result (λ made. IsDifference names.entry.first.now names.entry.second.now
        (spec.text_of form (view first.now)) (spec.text_of form (view second.now)) made.out.items) }
    ensures differs { IfOk result (λ made. made.differs
        ≡ not (same_content (view first.now) (view second.now))) }
{
    let differs = differ(alloc, first, second)?;
    let old = text_of(alloc, form, first)?;
    let new = text_of(alloc, form, second)?;
    let out = unified(
        alloc,
        names.first.as_bytes(),
        names.second.as_bytes(),
        old.as_slice(),
        new.as_slice(),
    )?;
    Ok(PairOutput { out, differs })
}

/// Returns how the sources of two forks differ.
#[tactic(auto, using(crate::proofs::Pairs::first_stopped, crate::proofs::Pairs::second_stopped))]
fn sources_compared(
    alloc: Global,
    form: SourceForm,
    names: PairNames<'_>,
    first: &[u8],
    second: &[u8],
) -> Result<PairOutput, PairFault>
    ensures made { IfOk result (λ made. Gives (names_of names.entry)
        (combined (DiffText form) first.now second.now) made.out.items made.differs) }
    ensures fault { IfErr result (λ fault.
        StopsPair fault (combined (DiffText form) first.now second.now)) }
{
    let first_file = opened_at(alloc, Place::First, first)?;
    let one = content_at(alloc, Place::First, &first_file)?;
    let second_file = opened_at(alloc, Place::Second, second)?;
    let other = content_at(alloc, Place::Second, &second_file)?;
    Ok(texts_compared(alloc, form, names, &one, &other)?)
}

/// Returns the content that holds the resources of two.
fn merged_of<'b>(
    alloc: Global,
    replaces: bool,
    first: &Content<'b>,
    second: &Content<'b>,
) -> Result<Content<'b>, WorkFault>
    ensures made { IfOk result (λ c.
        spec.merged_or_fault (merged replaces (view first.now) (view second.now)) ≡ Ok (view c)) }
    ensures fault { IfErr result (λ fault.
        Stops fault (spec.merged_or_fault (merged replaces (view first.now) (view second.now)))) }
{
    match merge(alloc, first, second, replaces) {
        Ok(both) => Ok(both),
        Err(MergeFault::InBoth { ty, id }) => {
            let twin = Twin {
                kind: kind_of(ty),
                id,
            };
            Err(WorkFault::File(FileFault::InBoth { twin }))
        }
        Err(MergeFault::HostMemory) => Err(WorkFault::HostMemory),
    }
}

/// Returns the canonical fork of the resources of two contents, alone or in the wrapper of the
/// first file.
#[tactic(auto, using(crate::proofs::Pairs::merged_there, crate::proofs::Pairs::merged_not, crate::proofs::Pairs::merged_unwritten))]
fn forks_merged(
    alloc: Global,
    replaces: bool,
    packaging: Packaging,
    first: &[u8],
    one: &Content<'_>,
    other: &Content<'_>,
) -> Result<PairOutput, PairFault>
    ensures made { IfOk result (λ made.
        spec.forks_merged replaces packaging first.now (view one.now) (view other.now)
        ≡ Ok (Bytes made.out.items made.differs)) }
    ensures fault { IfErr result (λ fault. StopsPair fault
        (spec.forks_merged replaces packaging first.now (view one.now) (view other.now))) }
{
    let both = match merged_of(alloc, replaces, one, other) {
        Ok(both) => both,
        Err(fault) => return Err(fault.at(Place::Second)),
    };
    match written(alloc, packaging, first, &both) {
        Ok(out) => Ok(PairOutput {
            out,
            differs: false,
        }),
        Err(fault) => Err(fault.at(Place::First)),
    }
}

/// Merges the forks in the bytes of two files.
#[tactic(auto, using(crate::proofs::Pairs::first_stopped, crate::proofs::Pairs::second_stopped, crate::proofs::Pairs::both_there, crate::proofs::Pairs::both_stopped))]
fn both_merged(
    alloc: Global,
    replaces: bool,
    packaging: Packaging,
    first: &[u8],
    second: &[u8],
) -> Result<PairOutput, PairFault>
    ensures made { IfOk result (λ made. combined (Merge replaces packaging) first.now second.now
        ≡ Ok (Bytes made.out.items made.differs)) }
    ensures fault { IfErr result (λ fault.
        StopsPair fault (combined (Merge replaces packaging) first.now second.now)) }
{
    let first_file = opened_at(alloc, Place::First, first)?;
    let one = content_at(alloc, Place::First, &first_file)?;
    let second_file = opened_at(alloc, Place::Second, second)?;
    let other = content_at(alloc, Place::Second, &second_file)?;
    forks_merged(alloc, replaces, packaging, first, &one, &other)
}

/// Sets a resource in the fork in the first file's bytes.
#[tactic(auto, using(crate::proofs::Pairs::set_made, crate::proofs::Pairs::set_stopped))]
fn resource_set<'b>(
    alloc: Global,
    setting: &'b Setting,
    packaging: Packaging,
    first: &'b [u8],
    second: &'b [u8],
) -> Result<PairOutput, PairFault>
    ensures made { IfOk result (λ made. spec.set_in setting.now packaging first.now second.now
        ≡ Ok (Bytes made.out.items made.differs)) }
    ensures fault { IfErr result (λ fault.
        StopsPair fault (spec.set_in setting.now packaging first.now second.now)) }
{
    match fork_set(alloc, setting, packaging, first, second) {
        Ok(out) => Ok(PairOutput {
            out,
            differs: false,
        }),
        Err(fault) => Err(fault.at(Place::First)),
    }
}

/// Returns the name and the attributes that are given, else those of a resource that is stated.
fn stated_naming<'b>(setting: &'b Setting, stated: &Ref<'b>) -> Renaming<'b>
    ensures { view_renaming result ≡ spec.stated_naming setting.now (view_ref stated.now) }
{
    let name = match &setting.name {
        Some(name) => Some(name.lent()),
        None => stated.name,
    };
    let attrs = match setting.attrs {
        Some(attrs) => attrs,
        None => stated.attrs,
    };
    Renaming {
        id: None,
        name: Some(name),
        attrs: Some(attrs),
    }
}

/// Sets a resource of a content to one that is stated.
#[tactic(auto, unfolding(crate::specs::Pairs::with_stated))]
fn change_stated<'b>(
    alloc: Global,
    setting: &'b Setting,
    stated: &Ref<'b>,
    content: &mut Content<'b>,
) -> Result<(), AllocError>
    ensures { OnOk result (view content.new
        ≡ spec.with_stated setting.now (view_ref stated.now) (view content.old)) }
{
    let bytes_alone = Change {
        datum: stated.datum,
        name: None,
        attrs: None,
    };
    set_resource(alloc, content, setting.key.ty, setting.key.id, &bytes_alone)?;
    let naming = stated_naming(setting, stated);
    match rename_resource(content, setting.key.ty, setting.key.id, &naming) {
        Ok(()) => Ok(()),
        Err(_) => unreachable!(),
    }
}

/// Reads a source by the types of the table.
fn source_in(alloc: Global, source: &[u8]) -> Result<Source, WorkFault>
    ensures content { IfOk result (λ s. spec.source_stated source.now ≡ Ok (content_stated s)) }
    ensures fault { IfErr result (λ fault. Stops fault (spec.source_stated source.now)) }
{
    match read_source(alloc, built_in(alloc)?, Vec::new(alloc), source) {
        Ok(stated) => Ok(stated),
        Err(SourceFault::Text(fault)) => Err(WorkFault::File(FileFault::Source { fault })),
        Err(SourceFault::Files(_)) => Err(WorkFault::File(FileFault::ReadsFiles)),
        Err(SourceFault::HostMemory) => Err(WorkFault::HostMemory),
    }
}

/// Reads a source, the second of two files.
#[tactic(auto, using(crate::proofs::Pairs::stopped_first))]
fn source_at(alloc: Global, source: &[u8]) -> Result<Source, PairFault>
    ensures content { IfOk result (λ s. spec.source_stated source.now ≡ Ok (content_stated s)) }
    ensures fault { IfErr result (λ fault.
        StopsPair fault (at Second (spec.source_stated source.now))) }
{
    match source_in(alloc, source) {
        Ok(stated) => Ok(stated),
        Err(fault) => Err(fault.at(Place::Second)),
    }
}

/// Sets a resource in the content of the first file's fork to one that is stated, and writes the
/// fork.
#[tactic(auto, using(crate::proofs::Pairs::stated_made, crate::proofs::Pairs::stated_stopped))]
fn stated_set<'b>(
    alloc: Global,
    setting: &'b Setting,
    packaging: Packaging,
    first: &'b [u8],
    content: Content<'b>,
    stated: &Ref<'b>,
) -> Result<PairOutput, PairFault>
    ensures made { IfOk result (λ made.
        spec.stated_set setting.now packaging first.now (view content.entry) (view_ref stated.now)
        ≡ Ok (Bytes made.out.items made.differs)) }
    ensures fault { IfErr result (λ fault. StopsPair fault (spec.stated_set setting.now packaging
        first.now (view content.entry) (view_ref stated.now))) }
{
    let mut new = content;
    change_stated(alloc, setting, stated, &mut new)?;
    match written(alloc, packaging, first, &new) {
        Ok(out) => Ok(PairOutput {
            out,
            differs: false,
        }),
        Err(fault) => Err(fault.at(Place::First)),
    }
}

/// Sets a resource in the content of the first file's fork to the one of its type and ID in a
/// content that the second file states.
#[tactic(auto, using(crate::proofs::Pairs::by_made, crate::proofs::Pairs::by_stopped, crate::proofs::Pairs::by_missing))]
fn set_by<'b>(
    alloc: Global,
    setting: &'b Setting,
    packaging: Packaging,
    first: &'b [u8],
    content: Content<'b>,
    stated: &Content<'b>,
) -> Result<PairOutput, PairFault>
    ensures made { IfOk result (λ made.
        spec.set_by setting.now packaging first.now (view content.entry) (view stated.now)
        ≡ Ok (Bytes made.out.items made.differs)) }
    ensures fault { IfErr result (λ fault. StopsPair fault
        (spec.set_by setting.now packaging first.now (view content.entry) (view stated.now))) }
{
    match resource_at(setting.key, stated) {
        Ok(resource) => stated_set(alloc, setting, packaging, first, content, &resource),
        Err(fault) => Err(fault.at(Place::Second)),
    }
}

/// Sets a resource in the content of the first file's fork to the one that a source in the second
/// file states.
#[tactic(auto, using(crate::proofs::Pairs::from_made, crate::proofs::Pairs::from_stopped, crate::proofs::Pairs::from_unread))]
fn set_from<'b>(
    alloc: Global,
    setting: &'b Setting,
    packaging: Packaging,
    first: &'b [u8],
    content: Content<'b>,
    second: &'b [u8],
) -> Result<PairOutput, PairFault>
    ensures made { IfOk result (λ made.
        spec.set_from setting.now packaging first.now second.now (view content.entry)
        ≡ Ok (Bytes made.out.items made.differs)) }
    ensures fault { IfErr result (λ fault. StopsPair fault
        (spec.set_from setting.now packaging first.now second.now (view content.entry))) }
{
    let source = source_at(alloc, second)?;
    let stated = source.content(alloc)?;
    set_by(alloc, setting, packaging, first, content, &stated)
}

/// Sets a resource in the fork in the first file to the one that a source in the second file
/// states.
#[tactic(auto, using(crate::proofs::Pairs::in_made, crate::proofs::Pairs::in_stopped, crate::proofs::Pairs::in_unread))]
fn source_set<'b>(
    alloc: Global,
    setting: &'b Setting,
    packaging: Packaging,
    first: &'b [u8],
    second: &'b [u8],
) -> Result<PairOutput, PairFault>
    ensures made { IfOk result (λ made. spec.stated_in setting.now packaging first.now second.now
        ≡ Ok (Bytes made.out.items made.differs)) }
    ensures fault { IfErr result (λ fault.
        StopsPair fault (spec.stated_in setting.now packaging first.now second.now)) }
{
    let file = opened_at(alloc, Place::First, first)?;
    let content = content_at(alloc, Place::First, &file)?;
    set_from(alloc, setting, packaging, first, content, second)
}

/// Returns what a work makes of the bytes of two files. A text of differences names the files so.
///
/// # Errors
///
/// The fault of the bytes of either; if the host is out of memory nothing is said of them.
pub fn combined(
    alloc: Global,
    work: PairWork,
    names: PairNames<'_>,
    first: &[u8],
    second: &[u8],
) -> Result<PairOutput, PairFault>
    ensures made { IfOk result (λ made. Gives (names_of names.entry)
        (combined work first.now second.now) made.out.items made.differs) }
    ensures fault { IfErr result (λ fault. StopsPair fault (combined work first.now second.now)) }
{
    match work {
        PairWork::Set(setting, packaging) => resource_set(
            alloc, &setting, packaging, first, second,
        ),
        PairWork::SetStated(setting, packaging) => source_set(
            alloc, &setting, packaging, first, second,
        ),
        PairWork::Diff(charset) => forks_compared(alloc, charset, first, second),
        PairWork::DiffText(form) => sources_compared(alloc, form, names, first, second),
        PairWork::Wrap => fork_put(alloc, first, second),
        PairWork::Merge(replaces, packaging) => both_merged(
            alloc, replaces, packaging, first, second,
        ),
    }
}

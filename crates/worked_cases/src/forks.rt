//! Resource forks, given by their resources.

ghost use Rattle.std.specs.Prelude.{◌<◌, length};

use crate::case::{Fork, Resource};
use anyhow::{Context, Result, bail, ensure};
use arrayvec::ArrayVec;
use fork_format::{Content, Group, Ref, RefName, read_fork, write_fork};
use mac_words::{Attrs, FileName, OsType};
use res_calls::{File, Resources};
use std::alloc::{AllocError, Global};

/// Returns the bytes of a word: hexadecimal digits after a `$`, a text in quotes, or a number,
/// which has two bytes.
pub fn bytes_of(alloc: Global, word: &str) -> Result<Vec<u8>> {
    if let Some(digits) = word.strip_prefix('$') {
        return Ok(hex::decode(alloc, digits)?);
    }
    if let Some(text) = word.strip_prefix('"') {
        return Ok(Vec::from_slice(alloc, text.trim_end_matches('"').as_bytes())?);
    }
    Ok(Vec::from_slice(alloc, &word.parse::<u16>()?.to_be_bytes())?)
}

/// Returns the resource that a line spells as `'TYPE' ID ATTRIBUTES BYTES`, with or without a name
/// after the bytes.
pub fn resource_of(alloc: Global, text: &str) -> Result<Resource> {
    let text = text.strip_prefix('\'').context("no type")?;
    let (ty, rest) = text.split_once("' ").context("no type")?;
    let mut words = rest.split_whitespace();
    let id = words.next().unwrap_or("").parse::<i16>()?;
    let attrs = words.next().unwrap_or("").parse::<u8>()?;
    let datum = bytes_of(alloc, words.next().unwrap_or(""))?;
    let name = match words.next() {
        Some(name) => Some(bytes_of(alloc, name)?),
        None => None,
    };
    Ok(Resource {
        ty: <[u8; 4]>::try_from(ty.as_bytes())?,
        id,
        attrs,
        datum,
        name,
    })
}

/// Returns a resource in the form of a fork's content.
fn reference(resource: &Resource) -> Result<Ref<'_>> {
    let name = match &resource.name {
        Some(name) => {
            ensure!(name.len() <= 255, "a name of {} bytes", name.len());
            Some(RefName { bytes: name })
        }
        None => None,
    };
    Ok(Ref {
        id: resource.id,
        name,
        attrs: Attrs(resource.attrs),
        datum: &resource.datum,
    })
}

/// Returns the resources by type; the resources of one type stand together.
fn groups_of(alloc: Global, resources: &[Resource]) -> Result<Vec<Group<'_>>> {
    let mut groups: Vec<Group<'_>> = Vec::new(alloc);
    for resource in resources {
        let ty = OsType(resource.ty);
        let reference = reference(resource)?;
        match groups.last_mut() {
            Some(group) if group.ty == ty => group.refs.push(reference)?,
            _ => groups.push(Group {
                ty,
                refs: vec![in alloc; reference]?,
            })?,
        }
    }
    Ok(groups)
}

/// Returns the bytes of a fork that has these resources.
fn fork_holding(alloc: Global, resources: &[Resource]) -> Result<Vec<u8>> {
    let content = Content {
        area: [0; 240],
        attrs: 0,
        groups: groups_of(alloc, resources)?,
    };
    match write_fork(alloc, &content) {
        Ok(bytes) => Ok(bytes),
        Err(_) => bail!("a fork that isn't written"),
    }
}

/// Returns the bytes of a file's fork.
pub fn fork_bytes(alloc: Global, fork: &Fork) -> Result<Vec<u8>> {
    match &fork.bytes {
        Some(bytes) => Ok(Vec::from_slice(alloc, bytes)?),
        None => fork_holding(alloc, &fork.resources),
    }
}

/// Returns a file name.
fn file_name(name: &str) -> Result<FileName> {
    let mut bytes = ArrayVec::new();
    match bytes.try_extend_from_slice(name.as_bytes()) {
        Ok(()) => Ok(FileName(bytes)),
        Err(_) => bail!("the file name {name}"),
    }
}

/// Returns a file that has this fork.
fn file_of(alloc: Global, fork: &Fork) -> Result<File> {
    Ok(File {
        name: file_name(&fork.name)?,
        fork: fork_bytes(alloc, fork)?,
        written: false,
    })
}

/// Returns the resources of an application that is launched with these files and with the fork of a
/// System file.
fn launched(alloc: Global, files: Vec<File>, system: &[u8]) -> Result<Resources>
    requires { 0 < length files.items }
{
    let Ok(system) = read_fork(alloc, system) else {
        bail!("a System that isn't read");
    };
    match Resources::new(alloc, files, &system) {
        Ok(resources) => Ok(resources),
        Err(_) => bail!("a fork that isn't read"),
    }
}

/// Returns the files that have these forks, in order.
fn files_of(alloc: Global, own: &Fork, others: &[Fork]) -> Result<Vec<File>> {
    let mut files = Vec::new(alloc);
    files.push(file_of(alloc, own)?)?;
    for fork in others {
        files.push(file_of(alloc, fork)?)?;
    }
    Ok(files)
}

/// Returns the resources of an application, given its own file, its other files and the System
/// file.
pub fn resources_of(
    alloc: Global,
    own: &Fork,
    others: &[Fork],
    system: &Fork,
) -> Result<Resources> {
    let system = fork_bytes(alloc, system)?;
    let files = files_of(alloc, own, others)?;
    ensure!(!files.is_empty(), "no file");
    launched(alloc, files, &system)
}

/// Returns the row of a resource that was written.
fn row_of(
    alloc: Global,
    file: &str,
    ty: OsType,
    reference: &Ref<'_>,
) -> Result<String, AllocError> {
    let OsType(ty) = ty;
    let ty = String::from_utf8_lossy(alloc, &ty)?;
    let datum = hex::encode(alloc, reference.datum)?;
    let mut row = format!(in alloc;
        "{file} '{ty}' {} {} ${datum}",
        reference.id, reference.attrs.0
    )?;
    if let Some(name) = &reference.name {
        let name = String::from_utf8_lossy(alloc, name.bytes)?;
        write!(row, " \"{name}\"")?;
    }
    Ok(row)
}

/// Appends the rows of a file that was written: one row with the length of the fork, and one row
/// for each resource.
fn push_rows(alloc: Global, rows: &mut Vec<String>, file: &File) -> Result<()> {
    let name = String::from_utf8_lossy(alloc, file.name.0.as_slice())?;
    let Ok(content) = read_fork(alloc, &file.fork) else {
        bail!("a fork that isn't read: {name}");
    };
    rows.push(format!(in alloc; "{name} {} bytes", file.fork.len())?)?;
    for group in &content.groups {
        for reference in &group.refs {
            rows.push(row_of(alloc, &name, group.ty, reference)?)?;
        }
    }
    Ok(())
}

/// Returns the rows of the files that were written, in order.
pub fn written_rows(alloc: Global, files: &[File]) -> Result<Vec<String>> {
    let mut rows = Vec::new(alloc);
    for file in files {
        if file.written {
            push_rows(alloc, &mut rows, file)?;
        }
    }
    Ok(rows)
}

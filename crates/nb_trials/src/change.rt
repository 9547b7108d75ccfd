// What is done to a file between two runs.
use crate::bytes::read_bytes;
use crate::line::{Line, number_in, text_below};
use anyhow::{Context, Result};
use nb_host::Name;
use nb_mem::MemHost;
use std::alloc::Global;

/// A change of a file of a host in memory.
#[derive(Clone, Copy)]
pub enum Change<'a> {
    /// `text NAME`: it has the text below.
    Text(&'a [Line<'a>]),
    /// `put NAME BYTE..`: it has these bytes.
    Put(&'a str),
    /// `set NAME AT BYTE..`: these bytes stand over those that it has from there on.
    Set(usize, &'a str),
    /// `cut NAME LENGTH`: nothing is behind so many bytes.
    Cut(usize),
    /// `copy NAME OTHER`: it is as the other file.
    Copy(&'a str),
}

impl<'a> Change<'a> {
    /// The change that a verb, what stands after the name, and the lines below ask for.
    pub fn read(verb: &str, rest: &'a str, below: &'a [Line<'a>]) -> Option<Change<'a>> {
        match verb {
            "text" => Some(Change::Text(below)),
            "put" => Some(Change::Put(rest)),
            "set" => {
                let (at, bytes) = rest.split_once(' ')?;
                Some(Change::Set(number_in(at)?, bytes))
            }
            "cut" => Some(Change::Cut(number_in(rest)?)),
            "copy" => Some(Change::Copy(rest)),
            _ => None,
        }
    }
}

/// The file of that name, if there is one.
pub fn file_of<'a>(host: &'a MemHost, name: &str) -> Option<&'a [u8]> {
    host.file(&Name::read(name)?)
}

/// Places a file.
pub fn put(host: &mut MemHost, name: &str, bytes: &[u8]) -> Result<()> {
    let name = Name::read(name).context("no name of a file")?;
    host.put_file(&name, bytes)?;
    Ok(())
}

/// Places a script or another text.
pub fn put_text(alloc: Global, host: &mut MemHost, name: &str, lines: &[Line]) -> Result<()> {
    let text = text_below(alloc, lines)?;
    put(host, name, text.as_bytes())
}

/// The bytes of a file, with these over those that it has from there on.
fn with_part(alloc: Global, file: &[u8], at: usize, part: &[u8]) -> Result<Vec<u8>> {
    let (front, behind) = file.split_at_checked(at).context("no such place")?;
    let rest = behind.get(part.len()..).context("too many bytes")?;
    Ok([front, part, rest].concat(alloc)?)
}

/// What a file has after the change.
fn changed(alloc: Global, host: &MemHost, name: &str, change: Change) -> Result<Vec<u8>> {
    let file = file_of(host, name).unwrap_or(&[]);
    match change {
        Change::Text(lines) => Ok(text_below(alloc, lines)?.into_bytes()),
        Change::Put(bytes) => read_bytes(alloc, bytes),
        Change::Set(at, bytes) => {
            let part = read_bytes(alloc, bytes)?;
            with_part(alloc, file, at, &part)
        }
        Change::Cut(length) => Ok(file.get(..length).context("a short file")?.to_vec(alloc)?),
        Change::Copy(other) => Ok(
            file_of(host, other)
                .context("no other file")?
                .to_vec(alloc)?,
        ),
    }
}

/// Changes a file. It is no call of the host, and what the file has then is kept for good.
pub fn change_file(alloc: Global, host: &mut MemHost, name: &str, change: Change) -> Result<()> {
    let bytes = changed(alloc, host, name, change)?;
    put(host, name, &bytes)
}

/// Places the files of these names that are on the other host.
pub fn keep(host: &mut MemHost, other: &MemHost, names: &str) -> Result<()> {
    for name in names.split_whitespace() {
        if let Some(bytes) = file_of(other, name) {
            put(host, name, bytes)?;
        }
    }
    Ok(())
}

/// Goes on with the files of these names alone, on a new host.
pub fn keep_alone(alloc: Global, host: &mut MemHost, names: &str) -> Result<()> {
    let mut kept = MemHost::new(alloc)?;
    keep(&mut kept, host, names)?;
    *host = kept;
    Ok(())
}

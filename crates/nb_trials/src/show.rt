// What is told of a file.
use crate::bytes::write_bytes;
use crate::change::file_of;
use crate::line::number_in;
use nb_mem::MemHost;
use sha2::{Digest, Sha256};
use std::alloc::{AllocError, Global};

/// What is asked of a file. Pages have 1,024 bytes.
#[derive(Clone, Copy)]
pub enum Show<'a> {
    /// `length NAME`: how long it is.
    Length,
    /// `bytes NAME AT COUNT`: so many of its bytes from there on.
    Bytes(usize, usize),
    /// `line NAME NUMBER`: that line, from 1 on.
    Line(usize),
    /// `digest NAME`: whether its digest is what was said last.
    Digest,
    /// `same NAME OTHER`: whether it is as the other file.
    Same(&'a str),
    /// `between NAME OLD NEW`: whether each page is as in one of the others, as long as both are.
    Between(&'a str, &'a str),
    /// `torn NAME WHOLE`: whether it is a front of the other file, but for bytes that are zero.
    Torn(&'a str),
    /// `entered NAME`: whether no page has a stamp above its SCN entry.
    Entered,
}

impl<'a> Show<'a> {
    /// What a verb and what stands after the name ask for.
    pub fn read(verb: &str, rest: &'a str) -> Option<Show<'a>> {
        match verb {
            "length" => Some(Show::Length),
            "bytes" => {
                let (at, count) = rest.split_once(' ')?;
                Some(Show::Bytes(number_in(at)?, number_in(count)?))
            }
            "line" => Some(Show::Line(number_in(rest)?)),
            "digest" => Some(Show::Digest),
            "same" => Some(Show::Same(rest)),
            "between" => {
                let (old, new) = rest.split_once(' ')?;
                Some(Show::Between(old, new))
            }
            "torn" => Some(Show::Torn(rest)),
            "entered" => Some(Show::Entered),
            _ => None,
        }
    }
}

/// How many bytes a page has.
const PAGE: usize = 1024;

/// Whether each page is as in the old file, or as in the new one.
fn is_between(file: &[u8], old: &[u8], new: &[u8]) -> bool {
    let others = old.chunks(PAGE).zip(new.chunks(PAGE));
    let are_of_one = file
        .chunks(PAGE)
        .zip(others)
        .all(|(page, (old, new))| page == old || page == new);
    are_of_one && file.len() == old.len() && file.len() == new.len()
}

/// Whether that is a front of the file, but for bytes that are zero.
fn is_torn(part: &[u8], whole: &[u8]) -> bool {
    let is_left = part
        .iter()
        .zip(whole)
        .all(|(left, byte)| left == byte || *left == 0);
    is_left && part.len() <= whole.len()
}

/// The number of four bytes at that place.
fn number_at(bytes: &[u8], at: usize) -> Option<u32> {
    let part = bytes.get(at..)?.first_chunk::<4>()?;
    Some(u32::from_le_bytes(*part))
}

/// Where the entry of page 0 stands in the only SCN page, page 2.
const ENTRIES: usize = 2 * PAGE + 32;

/// Whether the SCN entry of a page is at least its stamp. SCN pages have none.
fn is_entered(file: &[u8], page: usize) -> bool {
    if page == 2 || page > 100 {
        return page == 2;
    }
    number_at(file, page * PAGE + 8) <= number_at(file, ENTRIES + page * 4)
}

/// Whether each page after page 0 is one that a further level reads.
fn are_entered(file: &[u8]) -> bool {
    (1..file.len() / PAGE).all(|page| is_entered(file, page))
}

/// Whether the host has last said the digest of the file.
fn is_digest_said(alloc: Global, host: &MemHost, file: &[u8]) -> Result<bool, AllocError> {
    let digest = hex::encode(alloc, Sha256::digest(file))?;
    let said = host.output().strip_suffix(b"\n").unwrap_or(b"");
    Ok(said.ends_with(digest.as_bytes()))
}

/// That it is so, or isn't.
fn tell_whether(text: &mut String, is_so: bool, what: &str) -> Result<(), AllocError> {
    if !is_so {
        text.push_str(" not")?;
    }
    write!(text, " {what}")
}

/// The line of that number.
fn line_at(file: &[u8], number: usize) -> &str {
    let mut lines = file.split(|byte| *byte == b'\n');
    let line = lines.nth(number.saturating_sub(1)).unwrap_or(b"");
    str::from_utf8(line).unwrap_or("no text")
}

/// What is asked of a file that is there.
fn show_file(
    alloc: Global,
    host: &MemHost,
    file: &[u8],
    show: Show,
    text: &mut String,
) -> Result<(), AllocError> {
    match show {
        Show::Length => write!(text, " {} bytes", file.len()),
        Show::Bytes(at, count) => {
            let rest = file.get(at..).unwrap_or(&[]);
            write!(text, " at {at}")?;
            write_bytes(text, rest.get(..count).unwrap_or(rest))
        }
        Show::Line(number) => write!(text, " {}", line_at(file, number)),
        Show::Digest => tell_whether(
            text,
            is_digest_said(alloc, host, file)?,
            "what was said last",
        ),
        Show::Same(other) => tell_whether(text, file_of(host, other) == Some(file), "as the other"),
        Show::Between(old, new) => {
            let old = file_of(host, old).unwrap_or(&[]);
            let new = file_of(host, new).unwrap_or(&[]);
            tell_whether(text, is_between(file, old, new), "between the others")
        }
        Show::Torn(whole) => {
            let whole = file_of(host, whole).unwrap_or(&[]);
            tell_whether(text, is_torn(file, whole), "a front of the other")
        }
        Show::Entered => tell_whether(text, are_entered(file), "entered"),
    }
}

/// Tells in a line what is asked of a file, or that there is none.
pub fn tell_file(
    alloc: Global,
    host: &MemHost,
    name: &str,
    show: Show,
    text: &mut String,
) -> Result<(), AllocError> {
    write!(text, "{name}:")?;
    match file_of(host, name) {
        Some(file) => show_file(alloc, host, file, show, text)?,
        None => text.push_str(" none")?,
    }
    text.push('\n')?;
    Ok(())
}

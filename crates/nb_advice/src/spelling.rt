// Why a line of a script, or of a list of names, breaks its form.
use crate::word::shown;
use std::alloc::{AllocError, Global};
use std::str;

/// How many statements a script has at most.
const MOST_STATEMENTS: u32 = 10_000;

/// The mark with which some editors begin a text.
const MARK: &[u8] = b"\xef\xbb\xbf";

/// What is said of a line without a session's number.
const NO_SESSION: &str =
    "it has to begin with the number of a session, 1 to 16, a colon and a space";

fn said(alloc: Global, text: &str) -> Result<Option<String>, AllocError> {
    Ok(Some(String::from_str(alloc, text)?))
}

/// Which byte no line may have, from 1, if one has it.
fn strange_byte(alloc: Global, line: &[u8]) -> Result<Option<String>, AllocError> {
    let is_strange = |byte: &u8| *byte != b' ' && !byte.is_ascii_graphic();
    let Some(at) = line.iter().position(is_strange) else {
        return Ok(None);
    };
    let number = at.saturating_add(1);
    let text = match line.get(at).copied() {
        Some(b'\t') => format!(in alloc;
            "byte {number} is a tab, and words stand one space apart"
        )?,
        Some(byte) => format!(in alloc; "byte {number} is \\x{byte:02x}, and no printable ASCII")?,
        None => return Ok(None),
    };
    Ok(Some(text))
}

/// What is wrong with the bytes of a line, whatever it is to say: a mark of byte order, the end of a line of DOS, a tab, another byte that isn't
/// printable ASCII, a space at its start or its end. The first of these, and none where it has none.
pub fn wrong_bytes(alloc: Global, line: &[u8]) -> Result<Option<String>, AllocError> {
    if line.starts_with(MARK) {
        return said(
            alloc,
            "it begins with a byte order mark: save the file without one",
        );
    }
    if line.ends_with(b"\r") {
        return said(
            alloc,
            "it ends in a carriage return, as DOS ends lines: a line ends in a line feed alone",
        );
    }
    let wrong = strange_byte(alloc, line)?;
    if wrong.is_some() {
        return Ok(wrong);
    }
    if line.starts_with(b" ") {
        return said(alloc, "it begins with a space");
    }
    if line.ends_with(b" ") {
        return said(alloc, "a space stands at its end");
    }
    Ok(None)
}

/// The form of the statement that begins with that word, and none where none does.
fn form_of(word: &str) -> Option<&'static str> {
    match word {
        "page" => Some("page new"),
        "write" => Some("write N 'TEXT'"),
        "read" => Some("read N"),
        "free" => Some("free N"),
        "alter" => Some("alter database begin backup, or alter database end backup"),
        "backup" => Some("backup L to 'NAME'"),
        "copy" => Some("copy to 'NAME'"),
        "create" => Some("create table T"),
        "drop" => Some("drop table T"),
        "insert" => Some("insert T K 'TEXT'"),
        "update" => Some("update T K 'TEXT'"),
        "delete" => Some("delete T K"),
        "get" => Some("get T K"),
        "scan" => Some("scan T"),
        "forced" => Some("forced writes on, or forced writes off"),
        "access" => Some("access read_only, or access read_write"),
        "show" => Some("show header, show pages, show image, or show cache"),
        "sync" => Some("sync"),
        "check" => Some("check"),
        "reclaim" => Some("reclaim"),
        _ => None,
    }
}

/// What stands after the session's number, a colon and a space, and none where a line doesn't begin so.
fn after_session(line: &str) -> Option<&str> {
    let (number, rest) = line.split_once(": ")?;
    match number.parse::<u32>() {
        Ok(1..=16) if !number.starts_with('0') && !number.starts_with('+') => Some(rest),
        _ => None,
    }
}

fn first_word(text: &str) -> &str {
    match text.split_once(' ') {
        Some((word, _)) => word,
        None => text,
    }
}

/// What is wrong with a line that no session's number begins.
fn without_session(alloc: Global, line: &str) -> Result<Option<String>, AllocError> {
    match first_word(line) {
        "schedule" | "seed" => said(
            alloc,
            "it stands right after the first statement and only there: schedule S S .., up to 4,096 numbers of 1 to 16, or seed U",
        ),
        _ => said(alloc, NO_SESSION),
    }
}

/// What is wrong with a statement after the first one.
fn wrong_further(alloc: Global, text: &str, before: u32) -> Result<Option<String>, AllocError> {
    let word = first_word(text);
    if word == "open" || text.starts_with("create database ") {
        return said(
            alloc,
            "only the first statement opens or creates a database",
        );
    }
    if let Some(form) = form_of(word) {
        if before >= MOST_STATEMENTS {
            return said(alloc, "a script has 10,000 statements at most");
        }
        return Ok(Some(format!(in alloc; "the statement is: {form}")?));
    }
    let small = word.to_ascii_lowercase(alloc)?;
    if form_of(small.as_str()).is_some() {
        return Ok(Some(format!(in alloc; "{word} is written in small letters: {small}")?));
    }
    let word = shown(alloc, word)?;
    Ok(Some(format!(in alloc; "no statement begins with {word}")?))
}

/// What is wrong with the first statement.
fn wrong_first(alloc: Global, text: &str) -> Result<Option<String>, AllocError> {
    let word = first_word(text);
    let small = word.to_ascii_lowercase(alloc)?;
    if word != small.as_str() && (small.as_str() == "create" || small.as_str() == "open") {
        return Ok(Some(format!(in alloc; "{word} is written in small letters: {small}")?));
    }
    said(
        alloc,
        "the first statement is: open 'NAME', or create database 'NAME' page_size P raw N; either may end in: cache C",
    )
}

/// Why a line of a script breaks the form, before which so many lines stand that aren't skipped: its bytes, its session's number, or the first thing
/// that is wrong with its statement. None where that isn't known.
pub fn wrong_statement(
    alloc: Global,
    line: &[u8],
    before: u32,
) -> Result<Option<String>, AllocError> {
    let wrong = wrong_bytes(alloc, line)?;
    if wrong.is_some() {
        return Ok(wrong);
    }
    let Ok(line) = str::from_utf8(line) else {
        return Ok(None);
    };
    match after_session(line) {
        None => without_session(alloc, line),
        Some(text) if text.starts_with(' ') => {
            said(alloc, "one space alone stands after the colon")
        }
        Some(text) if before == 0 => wrong_first(alloc, text),
        Some(text) => wrong_further(alloc, text, before),
    }
}

// A chain that wasn't restored, levels that weren't folded, and backup files that weren't planned for.
ghost use Rattle.std.specs.Prelude.{IfOk};
ghost use Rattle.nb_advice.specs.Advised.{SaysOf, of_chain, of_files, of_plan};

use crate::backup::not_free;
use crate::opening::no_file;
use crate::refused::Refused;
use crate::seen::{Seen, There};
use nb_host::Name;
use std::alloc::{AllocError, Global};

/// The file that stands before the first one of that name.
fn before<'a>(files: &'a [Name], name: &str) -> &'a str {
    let mut last = "the file before it";
    for file in files {
        if file.as_str() == name {
            break;
        }
        last = file.as_str();
    }
    last
}

/// A file that breaks the form of a backup file at that byte.
pub(crate) fn broken_file(
    alloc: Global,
    file: &str,
    at: &str,
    seen: &Seen,
) -> Result<String, AllocError> {
    let is_short = match (at.parse::<u64>(), seen.length) {
        (Ok(at), Some(length)) => at == length,
        _ => false,
    };
    let text = if is_short {
        format!(in alloc;
            "{file} isn't whole, as a stopped backup or copy leaves it: take another copy of it, or a chain without it"
        )?
    } else if seen.named == There::Unfinished {
        format!(in alloc;
            "{file} isn't whole, as a stopped backup of level 0 leaves it, with zeros at its start: take another copy of it, or another backup, and remove it"
        )?
    } else if at == "0" {
        format!(in alloc;
            "{file} is no backup file: give those that -B made, or a copy of a locked database"
        )?
    } else if at == "22" {
        format!(in alloc;
            "{file} is no backup: it is a database, or was copied while none was locked"
        )?
    } else {
        format!(in alloc;
            "{file} is damaged at its byte {at}: take another copy of it, or a chain without it"
        )?
    };
    Ok(text)
}

/// Why files are no chain, whatever is to be made of them.
fn not_chained(
    alloc: Global,
    files: &[Name],
    refused: &Refused<'_>,
    seen: &Seen,
) -> Result<Option<String>, AllocError>
    ensures says { IfOk result (λ text. SaysOf of_files refused.now.name.now text) }
{
    let [file, found, wanted] = refused.values;
    let before = before(files, file);
    let text = match refused.name {
        "FileExists" => not_free(alloc, file, seen)?,
        "NoFile" => no_file(alloc, file)?,
        "BadLevel" => broken_file(alloc, file, found, seen)?,
        "ChainGuid" => format!(in alloc;
            "{file} doesn't go on from {before}, which is the backup {wanted}, but from the backup {found}: give the file of that one before it"
        )?,
        "ChainSize" => format!(in alloc;
            "{file} has pages of {found} bytes and {before} of {wanted}: they are of two databases"
        )?,
        "ChainScn" => format!(in alloc;
            "{file} goes on from SCN {found} and {before} has {wanted}, though their GUIDs agree: one of them was changed"
        )?,
        _ => return Ok(None),
    };
    Ok(Some(text))
}

/// What is to be said where a chain is not restored, `-R`.
pub(crate) fn restore(
    alloc: Global,
    files: &[Name],
    refused: &Refused<'_>,
    seen: &Seen,
) -> Result<Option<String>, AllocError>
    ensures says { IfOk result (λ text. SaysOf of_chain refused.now.name.now text) }
{
    let [file, found, wanted] = refused.values;
    match refused.name {
        "ChainLevel" => Ok(Some(format!(in alloc;
            "{file} is of level {found}, and one of level {wanted} has to stand in its place: give a file of each level, that of level 0 first"
        )?)),
        _ => not_chained(alloc, files, refused, seen),
    }
}

/// That no level follows a file of level 9, and what to do where the next one is of level 9 too, as a backup since that one is.
fn past_nine(alloc: Global, file: &str, level: &str, before: &str) -> Result<String, AllocError> {
    let text = if level == "9" {
        format!(in alloc;
            "{before} is of level 9, and no level follows 9: fold it with the file of level 8 that it goes on from, and no further; a restore takes {file} after that fold"
        )?
    } else {
        format!(in alloc;
            "{before} is of level 9, and no level follows 9: give consecutive levels, the lowest first"
        )?
    };
    Ok(text)
}

/// What is to be said where level files are not folded, `fold`.
pub(crate) fn fold(
    alloc: Global,
    files: &[Name],
    refused: &Refused<'_>,
    seen: &Seen,
) -> Result<Option<String>, AllocError>
    ensures says { IfOk result (λ text. SaysOf of_chain refused.now.name.now text) }
{
    let [file, found, wanted] = refused.values;
    match refused.name {
        "BadLevel" if found == "0" => Ok(Some(format!(in alloc;
            "{file} is no level file: give those that -B 1 to -B 9 made, and restore one of level 0 with the file that they are folded into"
        )?)),
        "ChainLevel" if wanted == "10" => Ok(Some(past_nine(
            alloc,
            file,
            found,
            before(files, file),
        )?)),
        "ChainLevel" => Ok(Some(format!(in alloc;
            "{file} is of level {found}, and one of level {wanted} has to follow {}: give consecutive levels, the lowest first",
            before(files, file)
        )?)),
        _ => not_chained(alloc, files, refused, seen),
    }
}

/// What is to be said where backup files are not planned for, `plan`.
pub(crate) fn plan(
    alloc: Global,
    list: &Name,
    refused: &Refused<'_>,
    seen: &Seen,
) -> Result<Option<String>, AllocError>
    ensures says { IfOk result (λ text. SaysOf of_plan refused.now.name.now text) }
{
    let [file, found, _] = refused.values;
    match refused.name {
        "NoFile" if file == list.as_str() => Ok(Some(no_file(alloc, file)?)),
        "NoFile" => Ok(Some(format!(in alloc;
            "{file} is in {list}, and isn't there: take its line out, or bring the file back"
        )?)),
        "BadLevel" => Ok(Some(broken_file(alloc, file, found, seen)?)),
        "ScriptLong" => Ok(Some(format!(in alloc;
            "{list} is too long: a list has 1,000 names and 1,048,576 bytes at most"
        )?)),
        "BadScript" => Ok(Some(format!(in alloc;
            "{list} has to name a file in each line, each of them once, and 1,000 at most"
        )?)),
        _ => Ok(None),
    }
}

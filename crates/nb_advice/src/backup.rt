// A backup that couldn't begin or end.
ghost use Rattle.std.specs.Prelude.{IfOk};
ghost use Rattle.nb_advice.specs.Advised.{SaysOf, of_backup, of_lock, of_unlock};

use crate::done::locked;
use crate::opening::opening;
use crate::refused::Refused;
use crate::seen::{Seen, There};
use nb_host::Name;
use std::alloc::{AllocError, Global};

/// The database isn't in the normal state, or wasn't when it was asked.
fn not_normal(alloc: Global, db: &Name, seen: &Seen) -> Result<String, AllocError> {
    match locked(alloc, db, seen)? {
        Some(text) => Ok(text),
        None => format!(in alloc; "{db} was locked, and isn't any more: give the same words again"),
    }
}

/// The database can only be read.
pub(crate) fn read_only(alloc: Global, db: &Name) -> Result<String, AllocError> {
    format!(in alloc;
        "{db} is read-only, and a backup writes to it: a script with the line '1: access read_write' lifts that"
    )
}

/// No SCN is left for the begin and the end of a backup.
pub(crate) fn no_scn(alloc: Global, db: &Name) -> Result<String, AllocError> {
    format!(in alloc;
        "{db} has come to the end of its SCNs, and takes no further backup: write its rows to a new database"
    )
}

/// No page is left for a row of the history.
pub(crate) fn full(alloc: Global, db: &Name) -> Result<String, AllocError> {
    format!(in alloc; "{db} is full, and its history needs a page: free one by a script")
}

/// What is to be said where a backup doesn't begin, `-L` or `-B`.
pub(crate) fn lock(
    alloc: Global,
    db: &Name,
    refused: &Refused<'_>,
    seen: &Seen,
) -> Result<Option<String>, AllocError>
    ensures says { IfOk result (λ text. SaysOf of_lock refused.now.name.now text) }
{
    let text = match refused.name {
        "WrongState" => not_normal(alloc, db, seen)?,
        "Access" => read_only(alloc, db)?,
        "ScnExhausted" => no_scn(alloc, db)?,
        _ => return opening(alloc, db, refused, seen),
    };
    Ok(Some(text))
}

/// What is to be said where a backup doesn't end, `-N`.
pub(crate) fn unlock(
    alloc: Global,
    db: &Name,
    refused: &Refused<'_>,
    seen: &Seen,
) -> Result<Option<String>, AllocError>
    ensures says { IfOk result (λ text. SaysOf of_unlock refused.now.name.now text) }
{
    match refused.name {
        "WrongState" => Ok(Some(format!(in alloc;
            "{db} isn't locked: there is no backup to end"
        )?)),
        _ => opening(alloc, db, refused, seen),
    }
}

/// A name that isn't free.
pub(crate) fn not_free(alloc: Global, name: &str, seen: &Seen) -> Result<String, AllocError> {
    let text = match seen.there {
        There::Unknown | There::Unfinished if seen.has_delta => format!(in alloc;
            "{name} is no free name, since {name}.delta stands beside it: move that away where nothing needs it, or choose another name"
        )?,
        There::PartOfLevel => format!(in alloc;
            "{name} is there already, and isn't whole: a backup or a fold that was stopped left it, and it may be removed"
        )?,
        There::Level | There::Database(_) | There::Unfinished | There::Unknown | There::Other => {
            format!(in alloc; "{name} is there already: choose another name, or move it away")?
        }
    };
    Ok(text)
}

/// No backup of that level is there to go on from.
fn no_level(alloc: Global, db: &Name, level: &str, seen: &Seen) -> Result<String, AllocError> {
    let Some(levels) = seen.levels else {
        return format!(in alloc;
            "the history of {db} has no backup of level {level} to go on from: first make: nehumiro -B {level} {db} FILE"
        );
    };
    let next = levels.lowest_missing();
    let text = match levels.text(alloc)? {
        Some(has) => format!(in alloc;
            "the history of {db} has backups {has}, and none of level {level} to go on from: first make: nehumiro -B {next} {db} FILE"
        )?,
        None => format!(in alloc;
            "the history of {db} has no backup to go on from (a copy made by hand is none): first make: nehumiro -B 0 {db} FILE"
        )?,
    };
    Ok(text)
}

/// No backup has that GUID.
fn no_guid(alloc: Global, db: &Name, seen: &Seen) -> Result<String, AllocError> {
    let text = match seen.levels {
        Some(levels) => match levels.text(alloc)? {
            Some(has) => format!(in alloc;
                "the history of {db} has backups {has}, and none with this GUID (a restore loses the last one): give a level, as: nehumiro -B 0 {db} FILE"
            )?,
            None => format!(in alloc;
                "the history of {db} has no backup (a restore loses the last one): begin with: nehumiro -B 0 {db} FILE"
            )?,
        },
        None => format!(in alloc;
            "the history of {db} has no backup with this GUID: give a level, as: nehumiro -B 0 {db} FILE"
        )?,
    };
    Ok(text)
}

/// What is to be said where a backup isn't made, `-B`.
pub(crate) fn backup(
    alloc: Global,
    db: &Name,
    refused: &Refused<'_>,
    seen: &Seen,
) -> Result<Option<String>, AllocError>
    ensures says { IfOk result (λ text. SaysOf of_backup refused.now.name.now text) }
{
    let [value, _, _] = refused.values;
    match refused.name {
        "FileExists" => Ok(Some(not_free(alloc, value, seen)?)),
        "NoHistory" => Ok(Some(no_level(alloc, db, value, seen)?)),
        "NoGuid" => Ok(Some(no_guid(alloc, db, seen)?)),
        "Full" => Ok(Some(full(alloc, db)?)),
        _ => lock(alloc, db, refused, seen),
    }
}

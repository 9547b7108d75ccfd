// A level file that wasn't merged into a standby.
ghost use Rattle.std.specs.Prelude.{IfOk};
ghost use Rattle.nb_advice.specs.Advised.{SaysOf, of_merge};

use crate::chain::broken_file;
use crate::opening::no_file;
use crate::refused::Refused;
use crate::seen::Seen;
use nb_host::Name;
use std::alloc::{AllocError, Global};
use uuid::Uuid;

/// What is to be said of a database whose restore or whose merge was stopped, by the GUID of the level file that is half merged into it.
pub(crate) fn unfinished(
    alloc: Global,
    db: &Name,
    pending: Option<[u8; 16]>,
) -> Result<String, AllocError> {
    match pending {
        Some(pending) if pending != [0; 16] => {
            let mut buffer = Uuid::encode_buffer();
            let guid = Uuid::from_bytes(pending);
            let guid = guid.hyphenated().encode_lower(&mut buffer);
            format!(in alloc;
                "the level file of the GUID {guid} is half merged into {db}: finish that first: nehumiro -I -R {db} FILE; where it is lost, restore a chain to another name"
            )
        }
        _ => format!(in alloc;
            "{db} isn't whole, since its restore or its creation was stopped: give the same words again"
        ),
    }
}

/// The standby is in a state in which nothing is merged into it.
pub(crate) fn wrong_state(alloc: Global, db: &Name, state: &str) -> Result<String, AllocError> {
    if state == "1" {
        format!(in alloc;
            "{db} is locked, or is a copy of a locked database, and no standby: restore one from the copy: nehumiro -R STANDBY {db}"
        )
    } else {
        format!(in alloc;
            "{db} isn't merged yet behind a backup, and is no standby: make one by a restore"
        )
    }
}

/// A page of the standby isn't what it has to be.
pub(crate) fn not_whole(alloc: Global, db: &Name, page: &str) -> Result<String, AllocError> {
    format!(in alloc; "{db} is no whole database (page {page}): make the standby anew by a restore")
}

/// The standby can be written.
pub(crate) fn can_be_written(alloc: Global, db: &Name) -> Result<String, AllocError> {
    format!(in alloc;
        "{db} can be written, and no standby may be: a script with the line '1: access read_only' sees to that"
    )
}

/// The level file has pages of another size than the standby.
pub(crate) fn other_pages(
    alloc: Global,
    db: &Name,
    file: &str,
    found: &str,
    wanted: &str,
) -> Result<String, AllocError> {
    format!(in alloc;
        "{file} has pages of {found} bytes and {db} of {wanted}: they are of two databases"
    )
}

/// The level file has another SCN than the standby goes on from, or a page of the standby has a later stamp.
pub(crate) fn other_scn(
    alloc: Global,
    db: &Name,
    file: &str,
    found: &str,
    wanted: &str,
) -> Result<String, AllocError> {
    // The level file's own SCN is at most the standby's where a page of the standby is found.
    let is_written = match (found.parse::<u32>(), wanted.parse::<u32>()) {
        (Ok(found), Ok(wanted)) => found > wanted,
        _ => false,
    };
    if is_written {
        format!(in alloc;
            "{db} was written since its backup of the SCN {wanted}, as a stamp of {found} shows: it is no standby any more; make it anew by a restore, and keep it read-only"
        )
    } else {
        format!(in alloc;
            "{file} goes on from SCN {found} and {db} has {wanted}, though their GUIDs agree: one of them was changed; make the standby anew by a restore"
        )
    }
}

/// What is to be said where a level file is not merged into a standby, `-I -R`.
pub(crate) fn merge(
    alloc: Global,
    db: &Name,
    refused: &Refused<'_>,
    seen: &Seen,
) -> Result<Option<String>, AllocError>
    ensures says { IfOk result (λ text. SaysOf of_merge refused.now.name.now text) }
{
    let [value, found, wanted] = refused.values;
    let text = match refused.name {
        "NoFile" => no_file(alloc, value)?,
        "NotDatabase" => not_whole(alloc, db, value)?,
        "WrongState" => wrong_state(alloc, db, value)?,
        "BadLevel" if found == "0" => format!(in alloc;
            "{value} is no level file: only levels of 1 to 9 are merged, those that -B made"
        )?,
        "BadLevel" => broken_file(alloc, value, found, seen)?,
        "Unfinished" => unfinished(alloc, db, seen.pending)?,
        "ChainGuid" if seen.is_merged => {
            format!(in alloc; "{value} is merged into {db} already: nothing is to be done")?
        }
        "ChainGuid" => format!(in alloc;
            "{value} goes on from the backup {found}, and {db} is of the backup {wanted}: make a level since that one: nehumiro -B {wanted} PRIMARY FILE"
        )?,
        "ChainSize" => other_pages(alloc, db, value, found, wanted)?,
        "ChainScn" => other_scn(alloc, db, value, found, wanted)?,
        "Access" => can_be_written(alloc, db)?,
        _ => return Ok(None),
    };
    Ok(Some(text))
}

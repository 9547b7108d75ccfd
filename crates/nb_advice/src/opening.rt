// A database that couldn't be opened.
ghost use Rattle.std.specs.Prelude.{IfOk};
ghost use Rattle.nb_advice.specs.Advised.{SaysOf, of_opening};

use crate::moment::since;
use crate::refused::Refused;
use crate::seen::Seen;
use crate::standby::unfinished;
use nb_host::Name;
use std::alloc::{AllocError, Global};

/// What to do where the difference file is lost or broken, as the text before says.
fn without_delta(alloc: Global, db: &Name, what: &str, seen: &Seen) -> Result<String, AllocError> {
    let text = if seen.state == Some(1) {
        let since = since(alloc, seen.written)?;
        format!(in alloc;
            "{what}, with all that was written to {db}{since}: put it back; where it is lost, a copy of {db} becomes the database as it was then, by: nehumiro -F COPY"
        )?
    } else {
        format!(in alloc;
            "{what}, and {db} isn't whole without it: put it back; where it is lost, restore a chain: nehumiro -R NEW FILE.."
        )?
    };
    Ok(text)
}

/// A page that isn't what it has to be.
pub(crate) fn broken_page(alloc: Global, db: &Name, page: &str) -> Result<String, AllocError> {
    let text = if page == "0" {
        format!(in alloc; "{db} is no database, since it doesn't begin with the header of one")?
    } else {
        format!(in alloc;
            "page {page} of {db} is damaged: restore a chain: nehumiro -R NEW FILE.."
        )?
    };
    Ok(text)
}

/// No file has that name.
pub(crate) fn no_file(alloc: Global, name: &str) -> Result<String, AllocError> {
    let text = format!(in alloc;
        "there is no file {name}: a name counts from the folder in which the program is started"
    )?;
    Ok(text)
}

/// What to do where a file that may be no database of its own is locked and has no difference file, as a backup of level 0 is.
fn as_level_0(alloc: Global, db: &Name, delta: &str, seen: &Seen) -> Result<String, AllocError> {
    let since = since(alloc, seen.written)?;
    format!(in alloc;
        "{db} is locked and {delta} isn't there, so it looks like a backup of level 0: restore it: nehumiro -R NEW {db}, or make a copy of it a database: nehumiro -F COPY; if it is the locked database itself, all that was written to it{since} is in {delta} alone: put that back first"
    )
}

/// What is to be said where a job doesn't open its database, which it only looks at or ends the backup of, whatever that is.
pub(crate) fn looking(
    alloc: Global,
    db: &Name,
    refused: &Refused<'_>,
    seen: &Seen,
) -> Result<Option<String>, AllocError>
    ensures says { IfOk result (λ text. SaysOf of_opening refused.now.name.now text) }
{
    let [value, _, _] = refused.values;
    match refused.name {
        "NoFile" if value.ends_with(".delta") && seen.state == Some(1) => {
            Ok(Some(as_level_0(alloc, db, value, seen)?))
        }
        _ => opening(alloc, db, refused, seen),
    }
}

/// What is to be said where the database of a job is not opened.
pub(crate) fn opening(
    alloc: Global,
    db: &Name,
    refused: &Refused<'_>,
    seen: &Seen,
) -> Result<Option<String>, AllocError>
    ensures says { IfOk result (λ text. SaysOf of_opening refused.now.name.now text) }
{
    let [value, _, _] = refused.values;
    let text = match refused.name {
        "NoFile" if value.ends_with(".delta") => {
            let what = format!(in alloc; "{value} is gone")?;
            without_delta(alloc, db, what.as_str(), seen)?
        }
        "NoFile" => no_file(alloc, value)?,
        "BadDelta" => {
            let what = format!(in alloc; "{db}.delta is damaged at its page {value}")?;
            without_delta(alloc, db, what.as_str(), seen)?
        }
        "NotDatabase" => broken_page(alloc, db, value)?,
        "Unfinished" => unfinished(alloc, db, seen.pending)?,
        _ => return Ok(None),
    };
    Ok(Some(text))
}

// A check that found the database unsound, and pages that couldn't be given back.
ghost use Rattle.std.specs.Prelude.{IfOk};
ghost use Rattle.nb_advice.specs.Advised.{SaysOf, of_check, of_reclaim};

use crate::opening::looking;
use crate::refused::Refused;
use crate::seen::Seen;
use nb_host::Name;
use std::alloc::{AllocError, Global};

/// What is wrong with a page that breaks the fact of that number, from 1 to 6.
fn broken_fact(fact: &str) -> &'static str {
    match fact {
        "1" => "is all zeros",
        "2" => "isn't the inventory page that its place has to hold",
        "3" => "is marked as taken, and the database ends before it",
        "4" => "has a newer stamp than the database itself",
        "5" => "has an SCN entry that doesn't agree with it, so a backup may leave its change out",
        _ => "hasn't the current SCN as its stamp",
    }
}

/// The inventories of the database aren't sound.
fn unsound(alloc: Global, db: &Name, fact: &str, page: &str) -> Result<String, AllocError> {
    let what = broken_fact(fact);
    let text = format!(in alloc;
        "page {page} of {db} {what}: back {db} up no more, and restore a chain from before that: nehumiro -R NEW FILE.."
    )?;
    Ok(text)
}

/// What is to be said where a check is refused.
pub(crate) fn check(
    alloc: Global,
    db: &Name,
    refused: &Refused<'_>,
    seen: &Seen,
) -> Result<Option<String>, AllocError>
    ensures says { IfOk result (λ text. SaysOf of_check refused.now.name.now text) }
{
    let [fact, page, _] = refused.values;
    match refused.name {
        "Unsound" => Ok(Some(unsound(alloc, db, fact, page)?)),
        _ => looking(alloc, db, refused, seen),
    }
}

/// What is to be said where leaked pages aren't given back.
pub(crate) fn reclaim(
    alloc: Global,
    db: &Name,
    refused: &Refused<'_>,
    seen: &Seen,
) -> Result<Option<String>, AllocError>
    ensures says { IfOk result (λ text. SaysOf of_reclaim refused.now.name.now text) }
{
    match refused.name {
        "Access" => Ok(Some(format!(in alloc;
            "{db} is read-only, and giving pages back writes to it: a script with the line '1: access read_write' lifts that"
        )?)),
        _ => check(alloc, db, refused, seen),
    }
}

// What is said of deeds, each of which is one turn: what to do about a refusal, and what stands after one that failed.
ghost use Rattle.std.specs.Prelude.{IfOk};
ghost use Rattle.nb_advice.specs.Advised.{SaysOf, of_deed};

use crate::chain::{fold, restore};
use crate::fixup::fixup;
use crate::refused::Refused;
use crate::seen::{Seen, There};
use crate::standby::merge;
use nb_host::Name;
use nb_model::Deed;
use std::alloc::{AllocError, Global};

/// What is to be said after its refusal. Of a plan, the job says it that reads the list.
pub(crate) fn advice(
    alloc: Global,
    deed: &Deed,
    refused: &Refused<'_>,
    seen: &Seen,
) -> Result<Option<String>, AllocError>
    ensures says { IfOk result (λ text. SaysOf (of_deed deed.now) refused.now.name.now text) }
{
    match deed {
        Deed::Restore { files, .. } => restore(alloc, files.as_slice(), refused, seen),
        Deed::Fixup { db } => fixup(alloc, db, refused, seen),
        Deed::Apply { db, .. } => merge(alloc, db, refused, seen),
        Deed::Fold { files, .. } => fold(alloc, files.as_slice(), refused, seen),
        Deed::Plan { .. } => Ok(None),
    }
}

/// What stands of a fold.
fn of_fold(alloc: Global, out: &Name, seen: &Seen) -> Result<Option<String>, AllocError> {
    let text = match seen.there {
        There::Unfinished => format!(in alloc;
            "{out} isn't whole, and its name is free: give the same words again"
        )?,
        There::PartOfLevel => format!(in alloc;
            "{out} isn't whole: remove it, and give the same words again"
        )?,
        _ => return Ok(None),
    };
    Ok(Some(text))
}

/// What is to be said after it ended early, by what is seen then.
pub(crate) fn standing(
    alloc: Global,
    deed: &Deed,
    seen: &Seen,
) -> Result<Option<String>, AllocError> {
    match deed {
        Deed::Restore { db, .. } if seen.there == There::Unfinished => Ok(Some(format!(in alloc;
            "{db} isn't whole, and its name is free: give the same words again"
        )?)),
        Deed::Apply { db, .. } if seen.state == Some(3) => Ok(Some(format!(in alloc;
            "{db} is half merged: give the same words again, with the same file"
        )?)),
        Deed::Fold { out, .. } => of_fold(alloc, out, seen),
        _ => Ok(None),
    }
}

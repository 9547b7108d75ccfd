// A ship that was refused, or that ended early.
ghost use Rattle.std.specs.Prelude.{IfOk};
ghost use Rattle.nb_advice.specs.Advised.{SaysOf, of_ship};

use crate::backup::{full, no_scn, read_only};
use crate::chain::broken_file;
use crate::done::locked;
use crate::opening::{broken_page, opening};
use crate::refused::Refused;
use crate::seen::Seen;
use crate::standby::{can_be_written, not_whole, other_pages, other_scn, unfinished, wrong_state};
use nb_host::Name;
use std::alloc::{AllocError, Global};

/// The primary or the standby is in a state in which nothing is shipped.
fn not_normal(
    alloc: Global,
    primary: &Name,
    standby: &Name,
    state: &str,
    seen: &Seen,
) -> Result<String, AllocError> {
    match locked(alloc, primary, seen)? {
        Some(text) => format!(in alloc; "{text}, and give the same words again"),
        None => wrong_state(alloc, standby, state),
    }
}

/// The primary can only be read, or the standby can be written.
fn wrong_access(
    alloc: Global,
    primary: &Name,
    standby: &Name,
    access: &str,
) -> Result<String, AllocError> {
    if primary == standby {
        format!(in alloc; "{primary} is named twice: a ship goes from one database to another")
    } else if access == "0" {
        can_be_written(alloc, standby)
    } else {
        read_only(alloc, primary)
    }
}

/// A page isn't what it has to be, of the primary or of the standby.
fn broken(
    alloc: Global,
    primary: &Name,
    standby: &Name,
    page: &str,
    seen: &Seen,
) -> Result<String, AllocError> {
    if seen.state.is_none() {
        broken_page(alloc, primary, page)
    } else if seen.standby.is_none() {
        not_whole(alloc, standby, page)
    } else {
        format!(in alloc;
            "page {page} of {primary} or of {standby} isn't what it has to be: nehumiro check {primary} says whether it is that one's; else make the standby anew by a restore"
        )
    }
}

/// A restore, a creation or a merge wasn't finished, of the primary or of the standby.
fn not_finished(
    alloc: Global,
    primary: &Name,
    standby: &Name,
    seen: &Seen,
) -> Result<String, AllocError> {
    match seen.standby {
        Some(header) if seen.state != Some(3) => unfinished(alloc, standby, Some(header.pending)),
        _ => unfinished(alloc, primary, seen.pending),
    }
}

/// The ship file is none of the job's own.
fn foreign(alloc: Global, ship: &str, seen: &Seen) -> Result<String, AllocError> {
    if seen.has_delta {
        format!(in alloc;
            "{ship}.delta stands beside {ship}, the file that a ship makes and removes: move it away where nothing needs it, and give the same words again"
        )
    } else {
        format!(in alloc;
            "{ship} is a database, and a ship makes and removes a file of that name: move it away, and give the same words again"
        )
    }
}

/// The ship file goes on from another backup than that of the standby.
fn of_another(
    alloc: Global,
    standby: &Name,
    ship: &str,
    found: &str,
    wanted: &str,
) -> Result<String, AllocError> {
    format!(in alloc;
        "{ship} goes on from the backup {found}, and {standby} is of the backup {wanted}: it is another standby's; move it away, and give the same words again"
    )
}

/// The history of the primary hasn't the backup of the standby.
fn no_guid(
    alloc: Global,
    primary: &Name,
    standby: &Name,
    guid: &str,
) -> Result<String, AllocError> {
    format!(in alloc;
        "the history of {primary} hasn't the backup {guid}, which {standby} is of (a restore loses the last one): make the standby anew: nehumiro -B 0 {primary} FILE, and restore that"
    )
}

/// There is no standby.
fn no_standby(alloc: Global, primary: &Name, standby: &Name) -> Result<String, AllocError> {
    format!(in alloc;
        "there is no standby {standby}: make one from a backup of {primary}, by a restore and a script with the line '1: access read_only'"
    )
}

/// What is to be said where nothing is shipped, or not all.
pub(crate) fn ship(
    alloc: Global,
    primary: &Name,
    standby: &Name,
    refused: &Refused<'_>,
    seen: &Seen,
) -> Result<Option<String>, AllocError>
    ensures says { IfOk result (λ text. SaysOf of_ship refused.now.name.now text) }
{
    let [value, found, wanted] = refused.values;
    let text = match refused.name {
        "WrongState" => not_normal(alloc, primary, standby, value, seen)?,
        "Access" => wrong_access(alloc, primary, standby, value)?,
        "NotDatabase" => broken(alloc, primary, standby, value, seen)?,
        "Unfinished" => not_finished(alloc, primary, standby, seen)?,
        "NoFile" if value == standby.as_str() && primary != standby => {
            no_standby(alloc, primary, standby)?
        }
        "FileExists" => foreign(alloc, value, seen)?,
        "ChainGuid" => of_another(alloc, standby, value, found, wanted)?,
        "NoGuid" => no_guid(alloc, primary, standby, value)?,
        "BadLevel" => broken_file(alloc, value, found, seen)?,
        "ChainSize" => other_pages(alloc, standby, value, found, wanted)?,
        "ChainScn" => other_scn(alloc, standby, value, found, wanted)?,
        "Full" => full(alloc, primary)?,
        "ScnExhausted" => no_scn(alloc, primary)?,
        _ => return opening(alloc, primary, refused, seen),
    };
    Ok(Some(text))
}

/// What is to be said after it ended early, by what is seen then. `whose` says that this ship has locked the primary, where that is known.
pub(crate) fn standing(
    alloc: Global,
    primary: &Name,
    standby: &Name,
    whose: &str,
    seen: &Seen,
) -> Result<Option<String>, AllocError> {
    let is_half = seen.standby.is_some_and(|header| header.state == 3);
    let text = match seen.state {
        Some(1) => format!(in alloc;
            "{primary} is locked{whose}: end that with: nehumiro -N {primary}, and give the same words again"
        )?,
        Some(2) => format!(in alloc;
            "{primary} isn't merged yet: end that with: nehumiro -N {primary}, and give the same words again"
        )?,
        _ if is_half => format!(in alloc;
            "{standby} is half merged: give the same words again, with {standby}.ship as it is"
        )?,
        _ => format!(in alloc; "{standby} is as it was, or merged: give the same words again")?,
    };
    Ok(Some(text))
}

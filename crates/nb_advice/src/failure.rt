// What stands after a run that failed.
use crate::seen::{Seen, There};
use crate::{deeds, ship};
use nb_host::Name;
use nb_model::{Ask, Job};
use std::alloc::{AllocError, Global};

/// Whether a backup file is whole, as far as it was seen: one of level 0 has its header last, and a further one its end.
fn is_whole(there: There) -> bool {
    matches!(there, There::Database(1) | There::Level)
}

/// What stands of a backup into a file.
fn of_backup(
    alloc: Global,
    db: &Name,
    file: &Name,
    whose: &str,
    seen: &Seen,
) -> Result<Option<String>, AllocError> {
    let text = match (seen.state, is_whole(seen.there)) {
        (Some(1), false) => format!(in alloc;
            "{db} is locked{whose}, and {file} isn't whole: end it with: nehumiro -N {db}"
        )?,
        (Some(1), true) => format!(in alloc;
            "{db} is locked{whose}, and its history may lack {file}: end it with: nehumiro -N {db}, and make it again under another name"
        )?,
        (Some(2), true) => format!(in alloc;
            "{file} is whole, and {db} isn't merged yet: end that with: nehumiro -N {db}"
        )?,
        (Some(2), false) => format!(in alloc;
            "{db} isn't merged yet: end that with: nehumiro -N {db}"
        )?,
        _ => return Ok(None),
    };
    Ok(Some(text))
}

/// What stands of a lock, or of the end of a backup.
fn of_database(
    alloc: Global,
    db: &Name,
    whose: &str,
    seen: &Seen,
) -> Result<Option<String>, AllocError> {
    let text = match seen.state {
        Some(1) => format!(in alloc; "{db} is locked{whose}: end that with: nehumiro -N {db}")?,
        Some(2) => format!(in alloc; "{db} isn't merged yet: end that with: nehumiro -N {db}")?,
        _ => return Ok(None),
    };
    Ok(Some(text))
}

/// What stands of a database that was asked this.
fn of_ask(
    alloc: Global,
    db: &Name,
    ask: &Ask,
    whose: &str,
    seen: &Seen,
) -> Result<Option<String>, AllocError> {
    match ask {
        Ask::Backup { file, .. } | Ask::BackupSince { file, .. } => {
            of_backup(alloc, db, file, whose, seen)
        }
        Ask::Lock | Ask::LockWithSize | Ask::Unlock | Ask::Activate => {
            of_database(alloc, db, whose, seen)
        }
        Ask::Stat | Ask::Check | Ask::Reclaim => Ok(None),
    }
}

/// What is to be said after a run of a job by words that ended early, by what is seen then and by the backup state that was seen before it.
/// None where nothing is left to do but to give the words again.
pub fn standing(
    alloc: Global,
    job: &Job,
    before: Option<u16>,
    seen: &Seen,
) -> Result<Option<String>, AllocError> {
    let whose = match (before, job) {
        (Some(0), Job::Ship { .. }) => " by this ship",
        (Some(0), _) => " by this backup",
        _ => "",
    };
    match job {
        Job::Attach { db, ask } => of_ask(alloc, db, ask, whose, seen),
        Job::Turn { deed } => deeds::standing(alloc, deed, seen),
        Job::Ship { primary, standby } => ship::standing(alloc, primary, standby, whose, seen),
        Job::Run { .. } | Job::Gen { .. } | Job::Plan { .. } => Ok(None),
    }
}

// What is looked up for what is said after a run.
use crate::look::look_at;
use crate::reading::ReadOnly;
use nb_advice::{Levels, Refused, Seen};
use nb_host::{MOST_BASE_NAME, Name};
use nb_model::{Deed, Job};
use std::alloc::Global;

/// The backup states of a database beside which its difference file has pages: its main file is frozen, or is merged into.
const STALLED: u16 = 1;

const MERGING: u16 = 2;

/// The database that a job by words names, of a ship the primary.
pub fn database_of(job: &Job) -> Option<&Name> {
    match job {
        Job::Attach { db, .. } => Some(db),
        Job::Turn { deed } => deed.database(),
        Job::Ship { primary, .. } => Some(primary),
        Job::Run { .. } | Job::Gen { .. } | Job::Plan { .. } => None,
    }
}

/// The file that a job by words has alone, if it came so far: its database, of a ship the standby, which is opened after the primary, or the file that a
/// fold makes.
pub fn own_file(job: &Job) -> Option<&Name> {
    match job {
        Job::Attach { db, .. } => Some(db),
        Job::Turn { deed } => deed.file(),
        Job::Ship { standby, .. } => Some(standby),
        Job::Run { .. } | Job::Gen { .. } | Job::Plan { .. } => None,
    }
}

/// The file that a job by words makes, or else its database.
fn file_of(job: &Job) -> Option<&Name> {
    match job {
        Job::Attach { db, ask } => match ask.file() {
            Some(file) => Some(file),
            None => Some(db),
        },
        Job::Turn { deed } => deed.file(),
        Job::Run { .. } | Job::Gen { .. } | Job::Plan { .. } | Job::Ship { .. } => None,
    }
}

/// The backup state that the header of a file tells.
pub fn state_of<V: ReadOnly>(files: &V, db: &Name) -> Option<u16> {
    let header = look_at(files, db.as_str())?.header()?;
    Some(header.state)
}

/// Whether a difference file stands beside that name.
fn has_delta<V: ReadOnly>(files: &V, name: &Name) -> bool {
    name.as_str().len() <= MOST_BASE_NAME && files.is_taken(name.delta().as_str())
}

/// The SCN of a database with a backup that isn't ended, and when that backup began, as long as its main file is frozen.
fn under_backup<V: ReadOnly>(files: &V, db: &Name) -> Option<(u32, Option<u64>)> {
    let found = look_at(files, db.as_str())?;
    let header = found.header()?;
    match header.state {
        STALLED => Some((header.scn, found.found.written)),
        MERGING => Some((header.scn, None)),
        _ => None,
    }
}

/// When a backup began whose difference file has no byte now, as far as that is known, though the begin had made a page of it durable. None where
/// all is well. Where another program ended a backup and began the next one meanwhile, the SCN has risen.
pub fn emptied<V: ReadOnly>(files: &V, db: &Name) -> Option<Option<u64>> {
    if db.as_str().len() > MOST_BASE_NAME {
        return None;
    }
    let (scn, began) = under_backup(files, db)?;
    if files.find(db.delta().as_str())?.length > 0 {
        return None;
    }
    let (again, _) = under_backup(files, db)?;
    if again == scn { Some(began) } else { None }
}

/// What stands of the files of a job by words.
pub fn seen<V: ReadOnly>(files: &V, job: &Job) -> Seen {
    let mut seen = Seen::nothing();
    if let Some(db) = database_of(job) {
        see_database(files, db, &mut seen);
    }
    if let Some(file) = file_of(job) {
        see_file(files, file, &mut seen);
    }
    if let Job::Ship { standby, .. } = job {
        seen.standby = look_at(files, standby.as_str()).and_then(|found| found.header());
    }
    seen
}

fn see_database<V: ReadOnly>(files: &V, db: &Name, seen: &mut Seen) {
    if let Some(found) = look_at(files, db.as_str()) {
        if let Some(header) = found.header() {
            seen.state = Some(header.state);
            seen.pending = Some(header.pending);
            seen.written = found.found.written;
        }
    }
}

fn see_file<V: ReadOnly>(files: &V, file: &Name, seen: &mut Seen) {
    seen.has_delta = has_delta(files, file);
    if let Some(found) = look_at(files, file.as_str()) {
        seen.there = found.there();
    }
}

/// The same, and what the refusal of the job asks for besides: which backups there are to go on from, and what the file is that it names.
pub fn seen_of<V: ReadOnly>(alloc: Global, files: &V, job: &Job, refused: &Refused<'_>) -> Seen {
    let mut seen = seen(files, job);
    match refused.name {
        "NoHistory" | "NoGuid" => seen.levels = levels_of(alloc, files, database_of(job)),
        "BadLevel" => see_named(files, refused.values[0], &mut seen),
        "FileExists" if matches!(job, Job::Ship { .. }) => {
            seen.has_delta = Name::read(refused.values[0]).is_some_and(|ship| has_delta(
                files, &ship,
            ))
        }
        "ChainGuid" => seen.is_merged = is_merged(files, job).unwrap_or(false),
        _ => {}
    }
    seen
}

fn levels_of<V: ReadOnly>(alloc: Global, files: &V, db: Option<&Name>) -> Option<Levels> {
    let history = look_at(files, db?.as_str())?.history(alloc, [0; 16])?;
    Some(history.levels)
}

/// Whether the level file of a merge is the one that its standby is of.
fn is_merged<V: ReadOnly>(files: &V, job: &Job) -> Option<bool> {
    let Job::Turn {
        deed: Deed::Apply { db, file },
    } = job
    else {
        return None;
    };
    let standby = look_at(files, db.as_str())?.header()?;
    Some(look_at(files, file.as_str())?.is_level_of(&standby))
}

fn see_named<V: ReadOnly>(files: &V, name: &str, seen: &mut Seen) {
    if let Some(found) = look_at(files, name) {
        seen.named = found.there();
        seen.length = Some(found.found.length);
    }
}

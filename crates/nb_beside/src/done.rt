// What the standard error says of a job that was done.
use crate::after::say;
use crate::look::{Look, look_at};
use crate::reading::ReadOnly;
use crate::seeing::seen;
use nb_advice::{There, cut_off, goes_on, locked, named_as_output, past_nine};
use nb_host::Name;
use nb_model::{Ask, Deed, Job};
use nb_script::MOST_BYTES;
use std::alloc::Global;

/// The backup state of a copy of a locked database, as a backup of level 0 is.
const STALLED: u16 = 1;

/// Says that whole pages of a database end too early, and what was made of them.
fn show_cut<V: ReadOnly + Eprint>(
    alloc: Global,
    rt: &V,
    file: &Name,
    found: Option<&Look<'_, V>>,
    made: Option<&Name>,
) {
    if let Some(cut) = found.and_then(|found| found.cut(alloc)) {
        say(rt, cut_off(alloc, file, &cut, made).map(Some));
    }
}

/// Says which backup a level file goes on from, where that is asked for, and that no restore takes it, where none does.
fn show_origin<V: ReadOnly + Eprint>(
    alloc: Global,
    rt: &V,
    db: &Name,
    file: &Name,
    is_asked: bool,
) {
    let Some(origin) = look_at(rt, file.as_str()).and_then(|found| found.origin()) else {
        return;
    };
    let history = look_at(rt, db.as_str()).and_then(|found| found.history(alloc, origin.guid));
    let row = history.and_then(|history| history.found);
    if is_asked {
        say(rt, goes_on(alloc, file, &origin, row.as_ref()).map(Some));
    }
    if let Some(row) = &row {
        say(rt, past_nine(alloc, file, &origin, row));
    }
}

/// What is said of a database that was asked this.
fn show_ask<V: ReadOnly + Eprint>(
    alloc: Global,
    rt: &V,
    job: &Job,
    db: &Name,
    ask: &Ask,
    is_asked: bool,
) {
    match ask {
        Ask::Stat => say(rt, locked(alloc, db, &seen(rt, job))),
        Ask::Backup { file, .. } | Ask::BackupSince { file, .. } => {
            show_origin(alloc, rt, db, file, is_asked);
            say(rt, named_as_output(alloc, file));
        }
        Ask::Check | Ask::Reclaim | Ask::Lock | Ask::LockWithSize | Ask::Unlock | Ask::Activate =>
            {}
    }
}

fn show_deed<V: ReadOnly + Eprint>(alloc: Global, rt: &V, deed: &Deed) {
    match deed {
        Deed::Restore { db, files } => {
            if let Some(file) = files.as_slice().first() {
                let found = look_at(rt, file.as_str());
                show_cut(alloc, rt, file, found.as_ref(), Some(db));
            }
        }
        Deed::Fixup { db } => {
            show_cut(alloc, rt, db, look_at(rt, db.as_str()).as_ref(), None);
        }
        Deed::Fold { out, .. } => say(rt, named_as_output(alloc, out)),
        Deed::Apply { .. } | Deed::Plan { .. } => {}
    }
}

/// Of each level 0 of a list, that it ends too early.
fn show_list<V: ReadOnly + Eprint>(alloc: Global, rt: &V, list: &Name) {
    let bytes = look_at(rt, list.as_str()).and_then(|found| found.bytes(alloc, MOST_BYTES as u64));
    let Some(bytes) = bytes else {
        return;
    };
    // A comment is no name, and neither is an empty line.
    for line in bytes.split(|byte| *byte == b'\n') {
        if let Some(file) = Name::read_bytes(line) {
            show_level_0(alloc, rt, &file);
        }
    }
}

fn show_level_0<V: ReadOnly + Eprint>(alloc: Global, rt: &V, file: &Name) {
    if let Some(found) = look_at(rt, file.as_str()) {
        if found.there() == There::Database(STALLED) {
            show_cut(alloc, rt, file, Some(&found), None);
        }
    }
}

/// What is to be known of a job that was done: that a file ends too early, what a backup goes on from where that `is_asked`, what no restore takes, and
/// since when a database that was shown is locked.
pub fn show_done<V: ReadOnly + Eprint>(alloc: Global, rt: &V, job: &Job, is_asked: bool) {
    match job {
        Job::Attach { db, ask } => show_ask(alloc, rt, job, db, ask, is_asked),
        Job::Turn { deed } => show_deed(alloc, rt, deed),
        Job::Plan { list, .. } => show_list(alloc, rt, list),
        Job::Run { .. } | Job::Gen { .. } | Job::Ship { .. } => {}
    }
}

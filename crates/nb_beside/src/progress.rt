// What is shown of a run while it goes on.
use nb_file::{Counted, Manner, Progress};
use nb_host::{MOST_BASE_NAME, Name};
use nb_model::{Ask, Deed, Job, NameList};
use std::alloc::{AllocError, Global};

/// How progress is shown: by lines where the environment asks for it, and else on a terminal, unless it asks for none.
pub fn manner(wanted: Option<bool>, is_terminal: bool) -> Option<Manner> {
    match wanted {
        Some(true) => Some(Manner::Lines),
        Some(false) => None,
        None if is_terminal => Some(Manner::Rewritten),
        None => None,
    }
}

/// A list of one name.
fn one(alloc: Global, name: &Name) -> Result<Vec<Name>, AllocError> {
    let mut names = Vec::new(alloc);
    names.push(name.copied())?;
    Ok(names)
}

/// The names of a chain, or of levels.
fn copied(alloc: Global, files: &NameList) -> Result<Vec<Name>, AllocError> {
    let mut names = Vec::new(alloc);
    for name in files.as_slice() {
        names.push(name.copied())?;
    }
    Ok(names)
}

/// What is shown of a merge of this database.
fn merging(alloc: Global, db: &Name, manner: Manner) -> Result<Option<Progress>, AllocError> {
    if db.as_str().len() > MOST_BASE_NAME {
        return Ok(None);
    }
    let delta = db.delta();
    Ok(Some(Progress {
        job: "merging",
        name: db.copied(),
        whole: one(alloc, &delta)?,
        counted: Counted::ReadOf(delta),
        manner,
    }))
}

/// What is shown of a job that opens a database and asks it this, none where it takes no time.
fn asking(
    alloc: Global,
    db: &Name,
    ask: &Ask,
    manner: Manner,
) -> Result<Option<Progress>, AllocError> {
    let (job, counted, whole) = match ask {
        Ask::Stat => ("reading", Counted::ReadOf(db.copied()), one(alloc, db)?),
        Ask::Check | Ask::Reclaim => { ("checking", Counted::ReadOf(db.copied()), one(alloc, db)?) }
        Ask::Backup { level: 0, file } => (
            "backing up",
            Counted::WrittenTo(file.copied()),
            one(alloc, db)?,
        ),
        Ask::Backup { file, .. } | Ask::BackupSince { file, .. } => (
            "backing up",
            Counted::WrittenTo(file.copied()),
            Vec::new(alloc),
        ),
        Ask::Unlock | Ask::Activate => return merging(alloc, db, manner),
        Ask::Lock | Ask::LockWithSize => return Ok(None),
    };
    Ok(Some(Progress {
        job,
        name: db.copied(),
        counted,
        whole,
        manner,
    }))
}

/// What is shown of a deed, none where it takes no time.
fn doing(alloc: Global, deed: &Deed, manner: Manner) -> Result<Option<Progress>, AllocError> {
    let (job, name, whole) = match deed {
        Deed::Restore { db, files } => ("restoring", db, copied(alloc, files)?),
        Deed::Apply { db, file } => ("merging into", db, one(alloc, file)?),
        Deed::Fold { out, files } => ("folding into", out, copied(alloc, files)?),
        Deed::Fixup { .. } | Deed::Plan { .. } => return Ok(None),
    };
    Ok(Some(Progress {
        job,
        name: name.copied(),
        counted: Counted::WrittenTo(name.copied()),
        whole,
        manner,
    }))
}

/// What is shown of a job, none where it takes no time.
pub fn progress_of(
    alloc: Global,
    job: &Job,
    manner: Manner,
) -> Result<Option<Progress>, AllocError> {
    let (job, name) = match job {
        Job::Run { script } | Job::Gen { script, .. } => ("running", script),
        Job::Plan { list, .. } => ("planning for", list),
        Job::Ship { standby, .. } => ("shipping to", standby),
        Job::Attach { db, ask } => return asking(alloc, db, ask, manner),
        Job::Turn { deed } => return doing(alloc, deed, manner),
    };
    Ok(Some(Progress {
        job,
        name: name.copied(),
        counted: Counted::All,
        whole: Vec::new(alloc),
        manner,
    }))
}

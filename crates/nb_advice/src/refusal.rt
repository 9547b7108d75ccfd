// What to do about a refusal.
ghost use Rattle.std.specs.Prelude.{IfOk};
ghost use Rattle.nb_advice.specs.Advised.{SaysOf, of_ask, of_gen, of_job, of_run};

use crate::backup::{backup, lock, not_free, unlock};
use crate::chain::plan;
use crate::check::{check, reclaim};
use crate::deeds;
use crate::opening::looking;
use crate::refused::Refused;
use crate::seen::Seen;
use crate::ship::ship;
use nb_host::Name;
use nb_model::{Ask, Job};
use std::alloc::{AllocError, Global};

/// What is to be said after a database has refused what it was asked.
fn of_ask(
    alloc: Global,
    db: &Name,
    ask: &Ask,
    refused: &Refused<'_>,
    seen: &Seen,
) -> Result<Option<String>, AllocError>
    ensures says { IfOk result (λ text. SaysOf (of_ask ask.now) refused.now.name.now text) }
{
    match ask {
        Ask::Stat | Ask::Activate => looking(alloc, db, refused, seen),
        Ask::Check => check(alloc, db, refused, seen),
        Ask::Reclaim => reclaim(alloc, db, refused, seen),
        Ask::Lock | Ask::LockWithSize => lock(alloc, db, refused, seen),
        Ask::Unlock => unlock(alloc, db, refused, seen),
        Ask::Backup { .. } | Ask::BackupSince { .. } => backup(alloc, db, refused, seen),
    }
}

/// What is to be said where a script of a number isn't written.
fn of_gen(alloc: Global, refused: &Refused<'_>) -> Result<Option<String>, AllocError>
    ensures says { IfOk result (λ text. SaysOf of_gen refused.now.name.now text) }
{
    let [script, _, _] = refused.values;
    match refused.name {
        "FileExists" => Ok(Some(not_free(alloc, script, &Seen::nothing())?)),
        _ => Ok(None),
    }
}

/// What is to be said of a script: only that it is too long, since its lines say the rest.
fn of_run(alloc: Global, script: &Name, refused: &Refused<'_>) -> Result<Option<String>, AllocError>
    ensures says { IfOk result (λ text. SaysOf of_run refused.now.name.now text) }
{
    match refused.name {
        "ScriptLong" => Ok(Some(format!(in alloc;
            "{script} is too long: a script has 10,000 statements and 1,048,576 bytes at most"
        )?)),
        _ => Ok(None),
    }
}

/// What is to be said after the refusal of a job by words: what stands, and what to do about it. None only
/// where nothing is known to be done.
pub fn advice(
    alloc: Global,
    job: &Job,
    refused: &Refused<'_>,
    seen: &Seen,
) -> Result<Option<String>, AllocError>
    ensures says { IfOk result (λ text. SaysOf (of_job job.now) refused.now.name.now text) }
{
    match job {
        Job::Attach { db, ask } => of_ask(alloc, db, ask, refused, seen),
        Job::Turn { deed } => deeds::advice(alloc, deed, refused, seen),
        Job::Plan { list, .. } => plan(alloc, list, refused, seen),
        Job::Gen { .. } => of_gen(alloc, refused),
        Job::Run { script } => of_run(alloc, script, refused),
        Job::Ship { primary, standby } => ship(alloc, primary, standby, refused, seen),
    }
}

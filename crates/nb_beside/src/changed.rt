// The databases that a run may write, which it is to hold alone from their first use on.
ghost use Rattle.std.specs.Prelude.{◌≡◌, Some, None, cond};
ghost use Rattle.nb_model.specs.Jobs.{writes};
ghost use Rattle.nb_model.specs.Words.{deed_database};
ghost use Rattle.nb_beside.specs.Changed.{any_writes, changed_by_read, changed_by_script, changed_by_words, changed_first, changed_next, database_in, script_writes};

use crate::look::look_at;
use crate::reading::ReadOnly;
use nb_host::{Fault, Name};
use nb_model::{Ask, Deed, Job, Statement};
use nb_script::{MOST_BYTES, Script, parse};
use std::alloc::{AllocError, Global};

/// The database that a generated script creates.
const GENERATED: &str = "gen.db";

/// The database that a first statement creates or opens.
fn opened_by(first: &Statement) -> Option<Name>
    ensures { result ≡ database_in first.now }
{
    match first {
        Statement::CreateDb { name, .. } | Statement::OpenDb { name, .. } => Some(name.copied()),
        _ => None,
    }
}

/// Whether one of these statements may write.
fn any_writes(statements: &[Statement]) -> bool
    ensures { result ≡ any_writes statements.now }
{
    let mut writes = false;
    for statement in statements {
        writes = writes || statement.writes();
    }
    writes
}

/// Whether a statement of a script may write to its database.
fn script_writes(script: &Script) -> bool
    ensures { result ≡ script_writes script.now }
{
    let mut writes = script.first().writes();
    for before in 0..script.session_count() {
        writes = writes || any_writes(script.statements(before + 1));
    }
    writes
}

/// The script of that name, none where it can't be read: the run says why then.
fn script_in<V: ReadOnly>(
    alloc: Global,
    files: &V,
    name: &Name,
) -> Result<Option<Script>, AllocError> {
    let Some(found) = look_at(files, name.as_str()) else {
        return Ok(None);
    };
    let Some(bytes) = found.all(alloc, MOST_BYTES as u64)? else {
        return Ok(None);
    };
    match parse(alloc, &bytes) {
        Ok(script) => Ok(Some(script)),
        Err(Fault::Memory) => Err(AllocError),
        Err(_) => Ok(None),
    }
}

/// The script that a job runs, none where it runs none or that can't be read.
pub fn script_of<V: ReadOnly>(
    alloc: Global,
    files: &V,
    job: &Job,
) -> Result<Option<Script>, AllocError> {
    match job {
        Job::Run { script } => script_in(alloc, files, script),
        Job::Gen { .. }
        | Job::Attach { .. }
        | Job::Turn { .. }
        | Job::Plan { .. }
        | Job::Ship { .. } => Ok(None),
    }
}

/// The database that a script may write, none where it only reads.
fn changed_by_script(script: &Script) -> Option<Name>
    ensures { result ≡ changed_by_script script.now }
{
    if script_writes(script) {
        opened_by(script.first())
    } else {
        None
    }
}

/// The database that a deed makes or changes.
fn changed_by_deed(deed: &Deed) -> Option<Name>
    ensures { result ≡ deed_database deed.now }
{
    match deed.database() {
        Some(db) => Some(db.copied()),
        None => None,
    }
}

/// The database that what is asked of it may change.
fn changed_by_ask(db: &Name, ask: &Ask) -> Option<Name>
    ensures { result ≡ cond (writes ask.now) (Some db.now) None }
{
    if ask.writes() {
        Some(db.copied())
    } else {
        None
    }
}

/// The database that words change first, and none where they only read one, or name a script.
fn changed_by_words(job: &Job) -> Option<Name>
    ensures { result ≡ changed_by_words job.now }
{
    match job {
        Job::Run { .. } => None,
        Job::Gen { .. } => Name::read(GENERATED),
        Job::Attach { db, ask } => changed_by_ask(db, ask),
        Job::Turn { deed } => changed_by_deed(deed),
        Job::Plan { .. } => None,
        Job::Ship { primary, .. } => Some(primary.copied()),
    }
}

/// The database that a script which was read may write, none where none was.
fn changed_by_read(script: &Option<Script>) -> Option<Name>
    ensures { result ≡ changed_by_read script.now }
{
    match script {
        Some(script) => changed_by_script(script),
        None => None,
    }
}

/// The database that a job may write first, where this is the script that it runs, and none where it only reads one.
pub fn changed(script: &Option<Script>, job: &Job) -> Option<Name>
    ensures { result ≡ changed_first script.now job.now }
{
    match job {
        Job::Run { .. } => changed_by_read(script),
        Job::Gen { .. }
        | Job::Attach { .. }
        | Job::Turn { .. }
        | Job::Plan { .. }
        | Job::Ship { .. } => changed_by_words(job),
    }
}

/// The database that a job may write after the first one: the standby that it ships to.
pub fn changed_next(job: &Job) -> Option<Name>
    ensures { result ≡ changed_next job.now }
{
    match job {
        Job::Ship { standby, .. } => Some(standby.copied()),
        Job::Run { .. }
        | Job::Gen { .. }
        | Job::Attach { .. }
        | Job::Turn { .. }
        | Job::Plan { .. } => None,
    }
}

/// The database that a job opens, where this is the script that it runs, and none where it creates one or opens none.
pub fn opened(script: &Option<Script>, job: &Job) -> Option<Name> {
    match job {
        Job::Run { .. } => match script.as_ref()?.first() {
            Statement::OpenDb { name, .. } => Some(name.copied()),
            _ => None,
        },
        Job::Attach { db, .. } => Some(db.copied()),
        Job::Ship { primary, .. } => Some(primary.copied()),
        Job::Gen { .. } | Job::Turn { .. } | Job::Plan { .. } => None,
    }
}

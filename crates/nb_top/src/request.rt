// The scripts of jobs that open a database.
ghost use Rattle.std.specs.Prelude.{◌≡◌, [], ◌∷◌, IfOk, IfErr};
ghost use Rattle.nb_host.specs.declared.faults.Fault.TheVariants.{Memory as MemoryFault};
ghost use Rattle.nb_model.specs.Jobs.{asks_of};
ghost use Rattle.nb_model.specs.declared.statement.Statement.TheVariants.{ShowHeader, ShowPages};
ghost use Rattle.nb_top.specs.Requests.{plan_of, telling_of};

use crate::telling::Telling;
use nb_host::{Fault, Name};
use nb_model::{Ask, Statement};
use nb_script::Script;
use std::alloc::Global;

/// How many pages the cache of such a job holds.
pub(crate) const USUAL_CACHE: u32 = 64;

/// The script that opens a database and asks it one thing, in session 1.
fn script_of_one(alloc: Global, db: &Name, statement: Statement) -> Result<Script, Fault>
    ensures script { IfOk result (λ script. script ≡ plan_of db.now (statement ∷ [])) }
    ensures only_memory { IfErr result (λ fault. fault ≡ MemoryFault) }
{
    let first = Statement::OpenDb {
        name: db.copied(),
        cache: USUAL_CACHE,
    };
    let mut script = Script::new(alloc, 1, first, Vec::new(alloc));
    script.add(1, statement)?;
    Ok(script)
}

/// The script that shows the header of a database and its pages.
fn script_showing(alloc: Global, db: &Name) -> Result<Script, Fault>
    ensures script { IfOk result (λ script. script ≡ plan_of db.now (ShowHeader ∷ ShowPages ∷ [])) }
    ensures only_memory { IfErr result (λ fault. fault ≡ MemoryFault) }
{
    let mut script = script_of_one(alloc, db, Statement::ShowHeader)?;
    script.add(1, Statement::ShowPages)?;
    Ok(script)
}

/// The script of the job that opens a database and asks it this.
pub(crate) fn script_asking(alloc: Global, db: &Name, ask: &Ask) -> Result<Script, Fault>
    ensures script { IfOk result (λ script. script ≡ plan_of db.now (asks_of ask.now)) }
    ensures only_memory { IfErr result (λ fault. fault ≡ MemoryFault) }
{
    match ask {
        Ask::Stat => script_showing(alloc, db),
        Ask::Check => script_of_one(alloc, db, Statement::Check),
        Ask::Reclaim => script_of_one(alloc, db, Statement::Reclaim),
        Ask::Backup { level, file } => {
            let name = file.copied();
            script_of_one(
                alloc,
                db,
                Statement::Backup {
                    level: *level,
                    name,
                },
            )
        }
        Ask::BackupSince { guid, file } => {
            let name = file.copied();
            script_of_one(alloc, db, Statement::BackupSince { guid: *guid, name })
        }
        Ask::Lock => script_of_one(alloc, db, Statement::BeginBackup),
        Ask::LockWithSize => script_of_one(alloc, db, Statement::BeginBackup),
        Ask::Unlock => script_of_one(alloc, db, Statement::EndBackup),
        Ask::Activate => script_of_one(alloc, db, Statement::Activate),
    }
}

/// How much of it is told.
pub(crate) fn telling_of(ask: &Ask) -> Telling
    ensures { result ≡ telling_of ask.now }
{
    match ask {
        Ask::LockWithSize => Telling::WithSize,
        Ask::Stat
        | Ask::Check
        | Ask::Reclaim
        | Ask::Backup { .. }
        | Ask::BackupSince { .. }
        | Ask::Lock
        | Ask::Unlock
        | Ask::Activate => Telling::Quietly,
    }
}

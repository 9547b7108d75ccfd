// The job of each cell, of the plain words that it asks for.
ghost use Rattle.std.specs.Prelude.{◌≡◌, [], ◌∷◌, Some, None, cond, IfOk, IfErr};
ghost use Rattle.std.specs.List.{list_all};
ghost use Rattle.nb_host.specs.declared.faults.Fault.TheVariants.{Memory};
ghost use Rattle.nb_model.specs.Words.{is_file, asks_change, asks_one, named_job, gen_job, plan_job, ship_job, job_of_three, fold_job, backup_job, restore_job, apply_job, ask_job, fixup_job};
ghost use Rattle.nb_words.specs.Choice.{job_in};
ghost use Rattle.nb_words.specs.Parts.{one_database};
ghost use Rattle.nb_words.specs.Read.{words_of};

use crate::word;
use nb_host::{Fault, Name};
use nb_model::{Ask, Deed, Job, NameList};
use std::alloc::Global;

/// What the first of two words asks to be changed of a database.
fn change_of(verb: &str, db: Name) -> Option<Job>
    ensures { result ≡ asks_change verb.now db }
{
    if verb == "reclaim" {
        Some(Job::Attach {
            db,
            ask: Ask::Reclaim,
        })
    } else if verb == "activate" {
        Some(Job::Attach {
            db,
            ask: Ask::Activate,
        })
    } else {
        None
    }
}

/// What it asks of one.
fn asked_of(verb: &str, db: Name) -> Option<Job>
    ensures { result ≡ asks_one verb.now db }
{
    if verb == "stat" {
        Some(Job::Attach { db, ask: Ask::Stat })
    } else if verb == "check" {
        Some(Job::Attach {
            db,
            ask: Ask::Check,
        })
    } else {
        change_of(verb, db)
    }
}

/// What the first of two words names.
fn of_two(verb: &str, name: &str) -> Option<Job>
    ensures { result ≡ named_job (verb.now ∷ name.now ∷ []) }
{
    if verb == "run" {
        let script = word::file(name)?;
        return Some(Job::Run { script });
    }
    let db = word::database(name)?;
    asked_of(verb, db)
}

/// `run SCRIPT`, `stat DB`, `check DB`, `reclaim DB` and `activate DB`
fn named(words: &[&str]) -> Option<Job>
    ensures { result ≡ named_job (words_of words.now) }
{
    match words {
        [verb, name] => of_two(verb, name),
        _ => None,
    }
}

/// `gen N SCRIPT`
fn generated(number: &str, script: &str) -> Option<Job>
    ensures { result ≡ gen_job number.now script.now }
{
    let number = word::number(number)?;
    let script = word::file(script)?;
    Some(Job::Gen { number, script })
}

/// `plan K LIST`
fn planned(keep: &str, list: &str) -> Option<Job>
    ensures { result ≡ plan_job keep.now list.now }
{
    let keep = word::count(keep)?;
    let list = word::file(list)?;
    Some(Job::Plan { keep, list })
}

/// `ship PRIMARY STANDBY`
fn shipped(primary: &str, standby: &str) -> Option<Job>
    ensures { result ≡ ship_job primary.now standby.now }
{
    let primary = word::database(primary)?;
    let standby = word::database(standby)?;
    Some(Job::Ship { primary, standby })
}

/// What the first of three words names.
fn of_three(verb: &str, one: &str, other: &str) -> Option<Job>
    ensures { result ≡ job_of_three (verb.now ∷ one.now ∷ other.now ∷ []) }
{
    if verb == "gen" {
        generated(one, other)
    } else if verb == "plan" {
        planned(one, other)
    } else if verb == "ship" {
        shipped(one, other)
    } else {
        None
    }
}

/// `gen N SCRIPT`, `plan K LIST` and `ship PRIMARY STANDBY`
fn three(words: &[&str]) -> Option<Job>
    ensures { result ≡ job_of_three (words_of words.now) }
{
    match words {
        [verb, one, other] => of_three(verb, one, other),
        _ => None,
    }
}

/// `-B L DB FILE` and `-B GUID DB FILE`
fn backup_of(since: &str, db: &str, file: &str) -> Option<Job>
    ensures { result ≡ backup_job (since.now ∷ db.now ∷ file.now ∷ []) }
{
    let (db, file) = word::database_and_file(db, file)?;
    match word::guid(since) {
        Some(guid) => Some(Job::Attach {
            db,
            ask: Ask::BackupSince { guid, file },
        }),
        None => match word::level(since) {
            Some(level) => Some(Job::Attach {
                db,
                ask: Ask::Backup { level, file },
            }),
            None => None,
        },
    }
}

fn backup(words: &[&str]) -> Option<Job>
    ensures { result ≡ backup_job (words_of words.now) }
{
    if words.len() != 3 {
        return None;
    }
    backup_of(words[0], words[1], words[2])
}

/// The names of some files, where each word is one.
fn files(alloc: Global, words: &[&str]) -> Result<Option<NameList>, Fault>
    ensures exact { IfOk result (λ files. files ≡ cond (list_all is_file (words_of words.now)) (Some (words_of words.now)) None) }
    ensures only_memory { IfErr result (λ fault. fault ≡ Memory) }
{
    let mut names = NameList::new(alloc);
    for word in words {
        match word::file(word) {
            Some(name) => names.push(name)?,
            None => return Ok(None),
        }
    }
    Ok(Some(names))
}

/// `-R DB FILE..`
fn restore(alloc: Global, words: &[&str]) -> Result<Option<Job>, Fault>
    ensures exact { IfOk result (λ job. job ≡ restore_job (words_of words.now)) }
    ensures only_memory { IfErr result (λ fault. fault ≡ Memory) }
{
    if words.len() < 2 || words.len() > 11 {
        return Ok(None);
    }
    let Some(db) = word::database(words[0]) else {
        return Ok(None);
    };
    let files = files(alloc, &words[1..])?;
    match files {
        Some(files) => Ok(Some(Job::Turn {
            deed: Deed::Restore { db, files },
        })),
        None => Ok(None),
    }
}

/// What the first of four words or more names.
fn of_more(alloc: Global, verb: &str, out: &str, words: &[&str]) -> Result<Option<Job>, Fault>
    ensures exact { IfOk result (λ job. job ≡ fold_job (verb.now ∷ out.now ∷ words_of words.now)) }
    ensures only_memory { IfErr result (λ fault. fault ≡ Memory) }
{
    if verb != "fold" || words.len() < 2 || words.len() > 9 {
        return Ok(None);
    }
    let Some(out) = word::file(out) else {
        return Ok(None);
    };
    let files = files(alloc, words)?;
    match files {
        Some(files) => Ok(Some(Job::Turn {
            deed: Deed::Fold { out, files },
        })),
        None => Ok(None),
    }
}

/// `fold OUT FILE..`
fn fold(alloc: Global, words: &[&str]) -> Result<Option<Job>, Fault>
    ensures exact { IfOk result (λ job. job ≡ fold_job (words_of words.now)) }
    ensures only_memory { IfErr result (λ fault. fault ≡ Memory) }
{
    match words {
        [verb, out, files @ ..] => of_more(alloc, verb, out, files),
        _ => Ok(None),
    }
}

/// `-I -R DB FILE`
fn apply_to(db: &str, file: &str) -> Option<Job>
    ensures { result ≡ apply_job (db.now ∷ file.now ∷ []) }
{
    let (db, file) = word::database_and_file(db, file)?;
    Some(Job::Turn {
        deed: Deed::Apply { db, file },
    })
}

fn apply(words: &[&str]) -> Option<Job>
    ensures { result ≡ apply_job (words_of words.now) }
{
    match words {
        [db, file] => apply_to(db, file),
        _ => None,
    }
}

/// The database that the words name, where they are one word.
fn one_database(words: &[&str]) -> Option<Name>
    ensures { result ≡ one_database (words_of words.now) }
{
    match words {
        [db] => word::database(db),
        _ => None,
    }
}

/// `-L DB`, `-L -S DB` and `-N DB`: that database is asked this.
fn asking(words: &[&str], ask: Ask) -> Option<Job>
    ensures { result ≡ ask_job ask (words_of words.now) }
{
    let db = one_database(words)?;
    Some(Job::Attach { db, ask })
}

/// `-F DB`
fn fixup(words: &[&str]) -> Option<Job>
    ensures { result ≡ fixup_job (words_of words.now) }
{
    let db = one_database(words)?;
    Some(Job::Turn {
        deed: Deed::Fixup { db },
    })
}

/// The job of a cell of the table, and none where the words are no names of the kinds that it asks for.
pub(crate) fn of_cell(alloc: Global, cell: u8, words: &[&str]) -> Result<Option<Job>, Fault>
    ensures exact { IfOk result (λ job. job ≡ job_in cell (words_of words.now)) }
    ensures only_memory { IfErr result (λ fault. fault ≡ Memory) }
{
    match cell {
        1 => Ok(named(words)),
        2 => Ok(three(words)),
        3 => Ok(backup(words)),
        4 => restore(alloc, words),
        5 => Ok(asking(words, Ask::Lock)),
        6 => Ok(asking(words, Ask::LockWithSize)),
        7 => Ok(asking(words, Ask::Unlock)),
        8 => Ok(fixup(words)),
        9 => Ok(apply(words)),
        10 => fold(alloc, words),
        _ => Ok(None),
    }
}

// Which word of the command line is wrong.
use crate::word::{Kind, shown, wrong_keep, wrong_name, wrong_number, wrong_since};
use std::alloc::{AllocError, Global};

/// The letters of the flags.
const FLAGS: &str = "BRLSNFI";

/// Whether a word in front of `--` is flags, and not a plain word.
fn is_flags(word: &str) -> bool {
    word.len() > 1 && word.starts_with('-')
}

/// The words of the command line: those that are flags, and the plain ones.
#[derive(Drop)]
struct Parts<'a> {
    flags: Vec<&'a str>,
    plain: Vec<&'a str>,
}

/// Takes flags and plain words apart.
fn apart<'a>(alloc: Global, words: &'a [String]) -> Result<Parts<'a>, AllocError> {
    let mut flags = Vec::new(alloc);
    let mut plain = Vec::new(alloc);
    let mut is_ended = false;
    for word in words {
        let word = word.as_str();
        if is_ended || !is_flags(word) {
            plain.push(word)?;
        } else if word == "--" {
            is_ended = true;
        } else {
            flags.push(word)?;
        }
    }
    Ok(Parts { flags, plain })
}

/// The letter of a word of flags that is none.
fn strange_flag(word: &str) -> Option<char> {
    word.chars().skip(1).find(|letter| !FLAGS.contains(*letter))
}

/// What is wrong with a word of flags by itself.
fn wrong_flag(alloc: Global, word: &str) -> Result<Option<String>, AllocError> {
    match strange_flag(word) {
        Some(_) => {
            let word = shown(alloc, word)?;
            Ok(Some(format!(in alloc;
                "{word} is no flag; a name that begins with - stands behind a word --"
            )?))
        }
        None => Ok(None),
    }
}

/// How often a flag is given.
fn count(flags: &[&str], flag: char) -> usize {
    let mut count: usize = 0;
    for word in flags {
        let more = word.chars().filter(|letter| *letter == flag).count();
        count = count.saturating_add(more);
    }
    count
}

/// The flags that are given, each once, in the order of `FLAGS`.
fn set_of(alloc: Global, flags: &[&str]) -> Result<String, AllocError> {
    let mut set = String::new(alloc);
    for flag in FLAGS.chars() {
        if count(flags, flag) > 0 {
            set.push(flag)?;
        }
    }
    Ok(set)
}

/// What is wrong with the flags by themselves.
fn wrong_flags(alloc: Global, flags: &[&str]) -> Result<Option<String>, AllocError> {
    for word in flags {
        let wrong = wrong_flag(alloc, word)?;
        if wrong.is_some() {
            return Ok(wrong);
        }
    }
    for flag in FLAGS.chars() {
        if count(flags, flag) > 1 {
            return Ok(Some(format!(in alloc; "-{flag} is given twice")?));
        }
    }
    Ok(None)
}

/// What is wrong with words that are the names of a database and of files, the first that is.
fn wrong_names(alloc: Global, db: &str, files: &[&str]) -> Result<Option<String>, AllocError> {
    let wrong = wrong_name(alloc, db, Kind::Database)?;
    if wrong.is_some() {
        return Ok(wrong);
    }
    for file in files {
        let wrong = wrong_name(alloc, file, Kind::File)?;
        if wrong.is_some() {
            return Ok(wrong);
        }
    }
    Ok(None)
}

/// That there are too few plain words, or too many, for a job that wants these.
fn wrong_count(alloc: Global, wanted: &str, are_few: bool) -> Result<Option<String>, AllocError> {
    let much = if are_few { "few" } else { "many" };
    Ok(Some(format!(in alloc; "there are too {much} words for: nehumiro {wanted}")?))
}

/// What is wrong with the words of a job whose flags want the name of a database alone.
fn wrong_database(
    alloc: Global,
    plain: &[&str],
    wanted: &str,
) -> Result<Option<String>, AllocError> {
    match plain {
        [db] => wrong_name(alloc, db, Kind::Database),
        _ => wrong_count(alloc, wanted, plain.is_empty()),
    }
}

/// What is wrong with the words of a backup.
fn wrong_backup(alloc: Global, plain: &[&str]) -> Result<Option<String>, AllocError> {
    match plain {
        [since, db, file] => {
            let wrong = wrong_since(alloc, since)?;
            if wrong.is_some() {
                return Ok(wrong);
            }
            wrong_names(alloc, db, &[*file])
        }
        _ => wrong_count(alloc, "-B LEVEL DB FILE", plain.len() < 3),
    }
}

/// What is wrong with the words of a restore.
fn wrong_restore(alloc: Global, plain: &[&str]) -> Result<Option<String>, AllocError> {
    match plain {
        [] | [_] => wrong_count(alloc, "-R DB FILE..", true),
        [db, files @ ..] => {
            if files.len() > 10 {
                return Ok(Some(String::from_str(alloc, "a chain has 10 files at most")?));
            }
            wrong_names(alloc, db, files)
        }
    }
}

/// What is wrong with the words of a plan.
fn wrong_plan(alloc: Global, keep: &str, list: &str) -> Result<Option<String>, AllocError> {
    let wrong = wrong_keep(alloc, keep)?;
    if wrong.is_some() {
        return Ok(wrong);
    }
    wrong_name(alloc, list, Kind::File)
}

/// What is wrong with the words of a ship, of which these are the names.
fn wrong_ship(alloc: Global, names: &[&str]) -> Result<Option<String>, AllocError> {
    match names {
        [primary, standby] => {
            let wrong = wrong_name(alloc, primary, Kind::Database)?;
            if wrong.is_some() {
                return Ok(wrong);
            }
            wrong_name(alloc, standby, Kind::Database)
        }
        _ => wrong_count(alloc, "ship DB STANDBY", names.len() < 2),
    }
}

/// What is wrong with the words of a fold, of which these are the names.
fn wrong_fold(alloc: Global, names: &[&str]) -> Result<Option<String>, AllocError> {
    if names.len() < 3 {
        return wrong_count(alloc, "fold OUT FILE FILE..", true);
    }
    if names.len() > 10 {
        return Ok(Some(String::from_str(alloc, "9 levels are folded at most")?));
    }
    for name in names {
        let wrong = wrong_name(alloc, name, Kind::File)?;
        if wrong.is_some() {
            return Ok(wrong);
        }
    }
    Ok(None)
}

/// What is wrong with words that have no flag.
fn wrong_plain(alloc: Global, plain: &[&str]) -> Result<Option<String>, AllocError> {
    match plain {
        [] => Ok(Some(String::from_str(alloc, "no words say what to do")?)),
        ["run", script] => wrong_name(alloc, script, Kind::File),
        ["run", ..] => wrong_count(alloc, "run SCRIPT", plain.len() < 2),
        ["stat", db] => wrong_name(alloc, db, Kind::Database),
        ["stat", ..] => wrong_count(alloc, "stat DB", plain.len() < 2),
        ["check", db] => wrong_name(alloc, db, Kind::Database),
        ["check", ..] => wrong_count(alloc, "check DB", plain.len() < 2),
        ["reclaim", db] => wrong_name(alloc, db, Kind::Database),
        ["reclaim", ..] => wrong_count(alloc, "reclaim DB", plain.len() < 2),
        ["activate", db] => wrong_name(alloc, db, Kind::Database),
        ["activate", ..] => wrong_count(alloc, "activate DB", plain.len() < 2),
        ["gen", number, script] => {
            let wrong = wrong_number(alloc, number)?;
            if wrong.is_some() {
                return Ok(wrong);
            }
            wrong_name(alloc, script, Kind::File)
        }
        ["gen", ..] => wrong_count(alloc, "gen N SCRIPT", plain.len() < 3),
        ["plan", keep, list] => wrong_plan(alloc, keep, list),
        ["plan", ..] => wrong_count(alloc, "plan K LIST", plain.len() < 3),
        ["fold", names @ ..] => wrong_fold(alloc, names),
        ["ship", names @ ..] => wrong_ship(alloc, names),
        [verb, ..] => {
            let verb = shown(alloc, verb)?;
            Ok(Some(format!(in alloc; "{verb} is no job")?))
        }
    }
}

/// What is wrong with flags that name no job.
fn wrong_set(alloc: Global, set: &str) -> Result<Option<String>, AllocError> {
    let mut text = String::new(alloc);
    for flag in set.chars() {
        text.push('-')?;
        text.push(flag)?;
        text.push(' ')?;
    }
    let why = if set.len() == 1 {
        "names no job by itself"
    } else {
        "name no job together"
    };
    text.push_str(why)?;
    Ok(Some(text))
}

/// Which of the words of the command line is wrong, and why, where they name no job. None where that isn't known.
pub fn complaint(alloc: Global, words: &[String]) -> Result<Option<String>, AllocError> {
    let parts = apart(alloc, words)?;
    let wrong = wrong_flags(alloc, parts.flags.as_slice())?;
    if wrong.is_some() {
        return Ok(wrong);
    }
    let set = set_of(alloc, parts.flags.as_slice())?;
    let plain = parts.plain.as_slice();
    match set.as_str() {
        "" => wrong_plain(alloc, plain),
        "B" => wrong_backup(alloc, plain),
        "R" => wrong_restore(alloc, plain),
        "RI" => match plain {
            [db, file] => wrong_names(alloc, db, &[*file]),
            _ => wrong_count(alloc, "-I -R DB FILE", plain.len() < 2),
        },
        "L" => wrong_database(alloc, plain, "-L DB"),
        "LS" => wrong_database(alloc, plain, "-L -S DB"),
        "N" => wrong_database(alloc, plain, "-N DB"),
        "F" => wrong_database(alloc, plain, "-F FILE"),
        other => wrong_set(alloc, other),
    }
}

// What the standard error says after a run.
use crate::beside::End;
use crate::done::show_done;
use crate::look::look_at;
use crate::reading::ReadOnly;
use crate::seeing::{seen, seen_of};
use nb_advice::{
    Refused, advice, complaint, in_danger, shortage, standing, wrong_bytes, wrong_statement,
};
use nb_ended::{Broken, Status};
use nb_host::Name;
use nb_model::{Ask, Job, PageList, Statement};
use nb_script::{MOST_BYTES, Script};
use std::alloc::{AllocError, Global};
use std::io;

/// What the words may be, for a reader.
const USAGE: &str = "\
Nehumiro 1.0: physical backup of a database
usage: nehumiro run SCRIPT          runs the statements of a script
       nehumiro stat DB             shows the header of a database, and its pages by kind
       nehumiro check DB            says whether its inventories and chains agree with its pages, and which pages are taken for nothing
       nehumiro reclaim DB          gives those pages back
       nehumiro activate DB         makes it a database in the normal state: merges back what a difference file holds, where it has one
       nehumiro -L DB               locks a database: its file stays as it is until -N
       nehumiro -L -S DB            the same, and says how many pages it has
       nehumiro -N DB               unlocks it, and merges back what was written meanwhile
       nehumiro -B LEVEL DB FILE    backs it up into a new file: level 0 all of it, 1 to 9 what changed since the level below
       nehumiro -B GUID DB FILE     backs up what changed since the backup of that GUID
       nehumiro -R DB FILE..        restores a new database from a chain of backup files, that of level 0 first
       nehumiro -I -R DB FILE       merges a level into a read-only standby, in place: the next one since its backup
       nehumiro ship DB STANDBY     brings such a standby up to the state of the database: backs it up since the standby's backup, and merges that
       nehumiro -F FILE             makes a copy of a locked database a database of its own
       nehumiro fold OUT FILE..     makes one new level file of 2 to 9 consecutive ones, the lowest level first
       nehumiro plan K LIST         says which of the backup files that a list names the last K restore points need
       nehumiro gen N SCRIPT        writes the script of the number N to a new file, and runs it: for trials
Ctrl-C or a signal ends the program at once, and a database that it was backing up stays locked until -N: examples/backup is a script
that unlocks it then, and examples/nightly one for cron.
";

/// What the host tells of a run that is over.
#[derive(Drop)]
pub struct Told<'a> {
    /// The bytes that were said last.
    pub said: &'a [u8],
    /// Whether the run had the job's own file alone: its database, or the file that it makes. Where another program has that, what stands of it is none
    /// of this run's.
    pub is_held: bool,
}

/// Says a line, if there is one. Nothing is left to do where the standard error fails, or where there is no memory for a text.
pub(crate) fn say<R: Eprint>(rt: &R, text: Result<Option<String>, AllocError>) {
    if let Ok(Some(text)) = text {
        let _ = eprintln!(rt; "nehumiro: {text}");
    }
}

/// Which word is wrong, and which words there are.
fn show_usage<R: Eprint>(alloc: Global, rt: &R, words: &io::Result<Vec<String>>) {
    match words {
        Ok(words) => say(rt, complaint(alloc, words.as_slice())),
        Err(_) => {
            let _ = eprintln!(rt; "nehumiro: a word is no text");
        }
    }
    let _ = eprint!(rt; "{USAGE}");
}

/// The line of a file that breaks its form.
fn show_line<R: Eprint>(rt: &R, name: &Name, broken: &Broken) {
    let _ = eprintln!(rt; "nehumiro: {name}:{}: {}", broken.line, broken.text);
}

/// Why that line breaks it.
fn show_reason<R: Eprint>(
    rt: &R,
    name: &Name,
    broken: &Broken,
    reason: Result<Option<String>, AllocError>,
) {
    if let Ok(Some(reason)) = reason {
        let _ = eprintln!(rt; "nehumiro: {name}:{}: {reason}", broken.line);
    }
}

/// Whether a line is skipped: it is empty, or a comment.
fn is_skipped(line: &[u8]) -> bool {
    line.is_empty() || line.starts_with(b"#")
}

/// The line of that number, from 1, among these bytes, and how many stand before it that aren't skipped.
fn line_at(bytes: &[u8], number: u32) -> Option<(&[u8], u32)> {
    let mut passed: u32 = 0;
    let mut before: u32 = 0;
    for line in bytes.split(|byte| *byte == b'\n') {
        passed = passed.saturating_add(1);
        if passed == number {
            return if line.is_empty() {
                None
            } else {
                Some((line, before))
            };
        }
        if !is_skipped(line) {
            before = before.saturating_add(1);
        }
    }
    None
}

/// What is wrong with the line of a script, or of a list, as the file is now.
fn show_why<V: ReadOnly + Eprint>(
    alloc: Global,
    rt: &V,
    name: &Name,
    broken: &Broken,
    is_script: bool,
) {
    let bytes = look_at(rt, name.as_str()).and_then(|found| found.bytes(alloc, MOST_BYTES as u64));
    let Some(bytes) = bytes else {
        return;
    };
    if let Some((line, before)) = line_at(&bytes, broken.line) {
        let reason = if is_script {
            wrong_statement(alloc, line, before)
        } else {
            wrong_bytes(alloc, line)
        };
        show_reason(rt, name, broken, reason);
    }
}

/// What to do about the reply that refused a job by words.
fn show_advice<V: ReadOnly + Eprint>(alloc: Global, rt: &V, job: &Job, reply: &[u8]) {
    if let Some(refused) = Refused::read(reply) {
        let seen = seen_of(alloc, rt, job, &refused);
        say(rt, advice(alloc, job, &refused, &seen));
    }
}

/// What stands of a job by words that ended early, where its database was in that backup state before. Nothing is said of another program's file.
fn show_standing<V: ReadOnly + Eprint>(
    alloc: Global,
    rt: &V,
    job: &Job,
    told: &Told<'_>,
    before: Option<u16>,
) {
    if told.is_held {
        let seen = seen(rt, job);
        say(rt, standing(alloc, job, before, &seen));
    }
}

/// What the cache of a script asks for, where it was read.
fn shortage_of<V: ReadOnly>(alloc: Global, files: &V, script: Option<&Script>) -> Option<String> {
    let (cache, page_size) = match script?.first() {
        Statement::CreateDb {
            cache,
            page_size,
            ..
        } => (*cache, *page_size),
        Statement::OpenDb { name, cache } => {
            (*cache, look_at(files, name.as_str())?.header()?.page_size)
        }
        _ => return None,
    };
    shortage(alloc, cache, page_size).ok()
}

/// That memory ran out, with the text that tells how much was asked for, if there is one.
fn show_shortage<R: Eprint>(rt: &R, asked: Option<String>) {
    match asked {
        Some(text) => say(rt, Ok(Some(text))),
        None => {
            let _ = eprintln!(rt; "nehumiro: memory ran out");
        }
    }
}

/// Why a job was refused: the line of a script or of a list that breaks its form, and what to do.
fn show_refused<V: ReadOnly + Eprint>(
    alloc: Global,
    rt: &V,
    job: &Job,
    broken: Option<&Broken>,
    reply: &[u8],
) {
    match (job, broken) {
        (Job::Run { script }, Some(broken)) => {
            show_line(rt, script, broken);
            show_why(alloc, rt, script, broken, true);
        }
        (Job::Plan { list, .. }, Some(broken)) => {
            show_line(rt, list, broken);
            show_why(alloc, rt, list, broken, false);
            show_advice(alloc, rt, job, reply);
        }
        _ => show_advice(alloc, rt, job, reply),
    }
}

/// The pages in danger of a database that was checked.
fn show_danger<R: Eprint>(alloc: Global, rt: &R, job: &Job, danger: Option<&PageList>) {
    let Job::Attach {
        db,
        ask: Ask::Check,
    } = job
    else {
        return;
    };
    if let Some(pages) = danger {
        say(rt, in_danger(alloc, db, pages.as_slice()));
    }
}

/// What is to be said after a run: why its words name no job, why a script or a list wasn't read, what to do about a refusal, what stands where it ended
/// early, and what is to be known where it was done.
pub fn explain<V: ReadOnly + Eprint>(
    alloc: Global,
    rt: &V,
    words: &io::Result<Vec<String>>,
    job: Option<&Job>,
    end: &End,
    told: &Told<'_>,
) {
    match (end.status, job) {
        (Status::Done, Some(job)) => {
            show_danger(alloc, rt, job, end.danger.as_ref());
            show_done(alloc, rt, job, end.before.is_watched);
        }
        (Status::Usage, _) => show_usage(alloc, rt, words),
        (Status::Refused, Some(job)) => {
            show_refused(alloc, rt, job, end.broken.as_ref(), told.said)
        }
        (Status::Device, Some(job)) => show_standing(alloc, rt, job, told, end.before.state),
        (Status::Memory, Some(job)) => {
            show_shortage(rt, shortage_of(alloc, rt, end.before.script.as_ref()));
            show_standing(alloc, rt, job, told, end.before.state);
        }
        (Status::Memory, None) => show_shortage(rt, None),
        (Status::Done | Status::Refused | Status::Device, None) => {}
    }
}

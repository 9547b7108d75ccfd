// How far the run has come, for those who wait for it.
ghost use Rattle.std.specs.Prelude.{◌<◌, ◌≤◌};

use crate::folder::look_up;
use nb_host::Name;
use std::rt::{Clock, Files};

const MIB: u64 = 1_048_576;

/// What a run is about, and how it is shown on the standard error how far it has come.
#[derive(Drop)]
pub struct Progress {
    /// What the run does, as `backing up`.
    pub job: &'static str,
    /// The database or the script that it does it with, which is shown after it.
    pub name: Name,
    pub counted: Counted,
    /// The files whose sizes make up what is counted in all. Where there is none, or one is missing, it is not known how much that is, and
    /// neither a share nor a time is shown.
    pub whole: Vec<Name>,
    pub manner: Manner,
}

/// Which bytes count.
#[derive(Drop)]
pub enum Counted {
    /// Those that are read of this file.
    ReadOf(Name),
    /// Those that are written to this file.
    WrittenTo(Name),
    /// Those that are read or written of any.
    All,
}

/// How it is shown.
#[derive(Clone, Copy)]
pub enum Manner {
    /// By a line at most once a second: a file, and how many of its bytes have counted so far. Where those of any file count, the file whose
    /// bytes were moved then, and where in it.
    Lines,
    /// By one line that is written over again, from two seconds after the start on and at most ten times a second: for a terminal.
    Rewritten,
}

/// What was done with bytes of a file.
#[derive(Clone, Copy)]
pub enum Moved {
    Read,
    Written,
}

impl Counted {
    fn has(&self, moved: Moved, name: &Name) -> bool {
        match (self, moved) {
            (Counted::ReadOf(own), Moved::Read) | (Counted::WrittenTo(own), Moved::Written) => {
                own == name
            }
            (Counted::All, _) => true,
            _ => false,
        }
    }
}

/// What was counted so far, and shown of it.
#[derive(Drop)]
pub struct Shown {
    progress: Progress,
    /// When it began and when it was shown last, in milliseconds of the system's clock.
    begun: u64,
    last: u64,
    /// In bytes.
    counted: u64,
    /// How much it is in all, in bytes: 0 where that is not known, and none until it is asked for.
    whole: Option<u64>,
    /// A line stands on the terminal that isn't ended.
    stands: bool,
}

impl Shown {
    /// It begins now.
    pub fn new<R: Clock>(rt: &R, progress: Progress) -> Shown {
        let begun = milliseconds(rt);
        Shown {
            progress,
            begun,
            last: begun,
            counted: 0,
            whole: None,
            stands: false,
        }
    }

    /// Counts bytes of a file that were moved, up to the place `end` in it, and shows where that is due how far the run has come.
    pub fn note<R: Files + Eprint + Clock>(
        &mut self,
        rt: &R,
        moved: Moved,
        name: &Name,
        end: u64,
        count: u64,
    ) {
        if !self.progress.counted.has(moved, name) {
            return;
        }
        self.counted = self.counted.saturating_add(count);
        let now = milliseconds(rt);
        if !self.is_due(now) {
            return;
        }
        self.last = now;
        // Nothing is left to do where the standard error fails.
        match self.progress.manner {
            Manner::Lines => {
                let _ = eprintln!(rt; "nehumiro: {name}: {} MiB", self.reached(end) / MIB);
            }
            Manner::Rewritten => self.rewrite(rt, now.saturating_sub(self.begun)),
        }
    }

    /// How far the run has come, in bytes, where it moves those up to the place `end`. Of one file that is what has counted so far: the pages of
    /// a further level go to places before the end of what a restore has written, so the place would run backwards.
    fn reached(&self, end: u64) -> u64 {
        match self.progress.counted {
            Counted::All => end,
            Counted::ReadOf(_) | Counted::WrittenTo(_) => self.counted,
        }
    }

    fn is_due(&self, now: u64) -> bool {
        let pause = now.saturating_sub(self.last);
        match self.progress.manner {
            Manner::Lines => pause >= 1000,
            Manner::Rewritten => pause >= 100 && now.saturating_sub(self.begun) >= 2000,
        }
    }

    /// Writes the line that stands on the terminal, so many milliseconds after the start.
    fn rewrite<R: Files + Eprint>(&mut self, rt: &R, passed: u64) {
        let whole = match self.whole {
            Some(whole) => whole,
            None => total_of(rt, &self.progress.whole),
        };
        self.whole = Some(whole);
        self.stands = true;
        let (job, name) = (self.progress.job, &self.progress.name);
        let speed = self.counted.saturating_mul(1000) / passed.max(1);
        // Nothing is left to do where the standard error fails.
        if whole == 0 {
            let _ = eprint!(rt;
                "\r{job} {name}: {} MiB, {} MiB/s\x1b[K",
                self.counted / MIB,
                speed / MIB
            );
            return;
        }
        let done = self.counted.min(whole);
        let left = (whole - done) / speed.max(1);
        let _ = eprint!(rt;
            "\r{job} {name}: {} of {} MiB, {} %, {} MiB/s, {}:{:02} left\x1b[K",
            done / MIB,
            whole / MIB,
            percent(done, whole),
            speed / MIB,
            left / 60,
            left % 60
        );
    }

    /// Takes the line away that stands on the terminal, if one does.
    pub fn clear<R: Eprint>(&mut self, rt: &R) {
        if self.stands {
            // Nothing is left to do where the standard error fails.
            let _ = eprint!(rt; "\r\x1b[K");
            self.stands = false;
        }
    }
}

/// How many percent of the whole are done.
fn percent(done: u64, whole: u64) -> u64
    requires some { 0 < whole }
    requires within { done ≤ whole }
    ensures { result ≤ 100 }
{
    done.saturating_mul(100) / whole
}

/// How many bytes these files have together, and 0 where one is missing.
fn total_of<R: Files>(rt: &R, names: &[Name]) -> u64 {
    let mut total: u64 = 0;
    for name in names {
        match look_up(rt, name) {
            Ok(Some(found)) => total = total.saturating_add(found.len()),
            _ => return 0,
        }
    }
    total
}

// A clock that fails stands still.
fn milliseconds<R: Clock>(rt: &R) -> u64 {
    match rt.monotonic() {
        Ok(time) => time
            .as_secs()
            .saturating_mul(1000)
            .saturating_add(u64::from(time.subsec_millis())),
        Err(_) => 0,
    }
}

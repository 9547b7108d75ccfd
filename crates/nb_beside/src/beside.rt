// What the program does beside a run.
ghost use Rattle.std.specs.Prelude.{◌≡◌, ◌++◌, ℕ, List, Option, None, IfOk, OnOk, IsTrue, option_to_list};
ghost use Rattle.nb_host.specs.Calls.{IsSilent, IsStill};
ghost use Rattle.nb_host.specs.Causes.{CountsFault};
ghost use Rattle.nb_host.specs.Moments.{Passes};
ghost use Rattle.nb_beside.specs.Changed.{IsHeld, IsScriptOf, changed_by};

use crate::after::{Told, explain, say};
use crate::changed::{changed, changed_next, opened, script_of};
use crate::progress::{manner, progress_of};
use crate::reading::ReadOnly;
use crate::seeing::{database_of, emptied, own_file, state_of};
use crate::settings::{patience, wants_progress};
use nb_ended::{Broken, Status};
use nb_file::{Disk, FileHost, Manner};
use nb_host::{Fault, Host, HostFault, Name};
use nb_model::{Job, PageList};
use nb_script::Script;
use std::alloc::{AllocError, Global};
use std::io;
use std::os::fd::AsRawFd;
use std::os::unix::fs::FileExt;
use std::rt::{Clock, Env, Files};

/// What is known of a run before it begins.
#[derive(Drop)]
pub struct Before {
    /// The backup state in which the database of a job by words is.
    pub state: Option<u16>,
    /// Whether progress is shown: a person watches, or the environment asks for it.
    pub is_watched: bool,
    /// The script that the job runs, where it runs one that could be read.
    pub script: Option<Script>,
}

impl Before {
    /// Nothing is known: memory was too short.
    pub fn unknown() -> Before {
        Before {
            state: None,
            is_watched: false,
            script: None,
        }
    }
}

/// How a run ended, what was known before it, which line of its script breaks the form, if one does, and which pages of the database that it checked are in
/// danger, if it checked one.
#[derive(Drop)]
pub struct End {
    pub status: Status,
    pub before: Before,
    pub broken: Option<Broken>,
    pub danger: Option<PageList>,
}

/// An outside beside which the program does more than the run: it prepares it, gives the system what the run has left waiting, and tells a reader how
/// it ended. None of it changes what the run is promised on.
pub trait Beside: Host {
    ghost use Rattle.nb_beside.specs.declared.beside.End.{End};

    /// The file some of whose bytes still wait to be given to the system, if there is one.
    ghost waiting: { Self → Option (List ℕ) };

    /// The names of the databases that are held alone, from their first use on.
    ghost alone: { Self → List (List ℕ) };

    /// What a reader was told of a run that ended so.
    ghost told: { Self → End → Type 0 };

    /// Says how long the run waits for locks, which databases it holds alone, and how its progress is shown; and on the standard error where the
    /// difference file of the database that it opens was lost. Answers what is known before it, and the script that was read to know which database
    /// is written. Where memory is too short for that, the run isn't to be made.
    fn prepare(
        &mut self,
        alloc: Global,
        job: &Result<Job, Fault>,
        is_terminal: bool,
    ) -> Result<Before, AllocError>
        ensures files { IsStill (Self.world self.old) (Self.world self.new) }
        ensures log { IsSilent (Self.world self.old) (Self.world self.new) }
        ensures time { Passes (Self.world self.old) (Self.world self.new) }
        ensures faults { Self.faults self.new ≡ Self.faults self.old }
        ensures waiting { waiting self.new ≡ waiting self.old }
        ensures held { IfOk result (λ before. IfOk job.now (λ job. IsHeld (changed_by before.script job) (alone self.old) (alone self.new))) }
        ensures script { IsTrue Self.tells → IfOk result (λ before. IfOk job.now (λ job. IsScriptOf (Self.world self.old).files job before.script)) };

    /// Gives the system what still waits to be written of files. A reply would have done so, and the end of the program doesn't.
    fn write_rest(&mut self) -> Result<(), HostFault>
        ensures none { waiting self.new ≡ None }
        ensures files { IsStill (Self.world self.old) (Self.world self.new) }
        ensures log { IsSilent (Self.world self.old) (Self.world self.new) }
        ensures time { Passes (Self.world self.old) (Self.world self.new) }
        ensures cause { CountsFault result (Self.faults self.old) (Self.faults self.new) };

    /// Says on the standard error what there is to say of a run.
    fn tell(
        &mut self,
        alloc: Global,
        words: &io::Result<Vec<String>>,
        job: &Result<Job, Fault>,
        end: &End,
    )
        ensures same { self.new ≡ self.old }
        ensures told { told self.new end.now };
}

/// Says how long a run waits for locks.
fn set_patience<R: Files + Print + Eprint + Clock + Drop, V: Eprint + Env + AllocGlobal>(
    rt: &V,
    host: &mut FileHost<R>,
)
where
    R::File: Disk + AsRawFd + FileExt,
    ensures { host.new ≡ host.old }
{
    match patience(rt) {
        Some(seconds) => host.wait_for_locks(seconds),
        None => {
            let _ = eprintln!(rt;
                "nehumiro: NEHUMIRO_WAIT is no number of seconds, so no lock is waited for"
            );
        }
    }
}

/// Says that a run holds a database alone, if there is one.
#[tactic(auto, using(crate::proofs::HeldLaws::none_held))]
fn hold<R: Files + Print + Eprint + Clock + Drop>(
    host: &mut FileHost<R>,
    db: Option<Name>,
) -> Result<(), AllocError>
where
    R::File: Disk + AsRawFd + FileExt,
    ensures held { OnOk result (IsHeld (option_to_list db) host.old.alone host.new.alone) }
    ensures faults { host.new.faults ≡ host.old.faults }
    ensures waiting { host.new.waiting ≡ host.old.waiting }
{
    match db {
        Some(db) => host.hold_alone(db),
        None => Ok(()),
    }
}

/// Says how a run's progress is shown.
fn set_shown<R: Files + Print + Eprint + Clock + Drop>(
    alloc: Global,
    host: &mut FileHost<R>,
    job: &Job,
    manner: Option<Manner>,
)
where
    R::File: Disk + AsRawFd + FileExt,
    ensures { host.new ≡ host.old }
{
    if let Some(manner) = manner {
        if let Ok(Some(progress)) = progress_of(alloc, job, manner) {
            host.show_progress(progress);
        }
    }
}

/// Says that the difference file of the database which a job opens has lost its bytes.
fn show_emptied<V: ReadOnly + Eprint>(alloc: Global, rt: &V, script: &Option<Script>, job: &Job) {
    if let Some(db) = opened(script, job) {
        if let Some(began) = emptied(rt, &db) {
            say(rt, nb_advice::emptied(alloc, &db, began).map(Some));
        }
    }
}

/// What is known before a run of that database, whose progress is shown so, and of which this script was read.
fn known<V: ReadOnly>(
    files: &V,
    db: Option<&Name>,
    manner: Option<Manner>,
    script: Option<Script>,
) -> Before
    ensures { result.script ≡ script }
{
    Before {
        state: db.and_then(|db| state_of(files, db)),
        is_watched: manner.is_some(),
        script,
    }
}

/// Prepares the host for a job that words name.
#[tactic(auto, using(crate::proofs::HeldLaws::both_held))]
fn prepare_for<R: Files + Print + Eprint + Clock + Drop, V: ReadOnly + Eprint + Env + AllocGlobal>(
    alloc: Global,
    rt: &V,
    host: &mut FileHost<R>,
    job: &Job,
    manner: Option<Manner>,
) -> Result<Before, AllocError>
where
    R::File: Disk + AsRawFd + FileExt,
    ensures held { IfOk result (λ before. IsHeld (changed_by before.script job.now) host.old.alone host.new.alone) }
    ensures faults { host.new.faults ≡ host.old.faults }
    ensures waiting { host.new.waiting ≡ host.old.waiting }
{
    set_patience(rt, host);
    let script = script_of(alloc, rt, job)?;
    hold(host, changed(&script, job))?;
    hold(host, changed_next(job))?;
    set_shown(alloc, host, job, manner);
    show_emptied(alloc, rt, &script, job);
    Ok(known(rt, database_of(job), manner, script))
}

impl<R: Files + Print + Eprint + Clock + Env + AllocGlobal + Copy + Drop> Beside for FileHost<R>
where
    R::File: Disk + AsRawFd + FileExt,
{
    ghost waiting = { λ host. host.waiting };

    ghost alone = { λ host. host.alone };

    ghost told = { λ _ _. Unit {0} };

    fn prepare(
        &mut self,
        alloc: Global,
        job: &Result<Job, Fault>,
        is_terminal: bool,
    ) -> Result<Before, AllocError> {
        let rt = self.runtime();
        let manner = manner(wants_progress(&rt), is_terminal);
        match job {
            Ok(job) => prepare_for(alloc, &rt, self, job, manner),
            Err(_) => Ok(known(&rt, None, manner, None)),
        }
    }

    fn write_rest(&mut self) -> Result<(), HostFault> {
        self.flush()
    }

    fn tell(
        &mut self,
        alloc: Global,
        words: &io::Result<Vec<String>>,
        job: &Result<Job, Fault>,
        end: &End,
    ) {
        self.end_progress();
        let rt = self.runtime();
        let job = job.as_ref().ok();
        let told = Told {
            said: self.last_said(),
            is_held: match job.and_then(own_file) {
                Some(file) => self.holds_alone(file),
                None => true,
            },
        };
        explain(alloc, &rt, words, job, end, &told);
    }
}

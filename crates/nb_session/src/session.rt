// One session of a script.
ghost use Rattle.std.specs.Prelude.{◌≡◌, ◌≢◌, ◌<◌, ◌-◌, List, [], ◌∷◌, IsTrue, IfOk, None, false};
ghost use Rattle.std.specs.List.{slice_index_or};
ghost use Rattle.nb_host.specs.Causes.{CountsRun};
ghost use Rattle.nb_model.specs.Going.{IsMaking};
ghost use Rattle.nb_model.specs.Outcomes.{Begins, Turn};
ghost use Rattle.nb_model.specs.Run.{Now};
ghost use Rattle.nb_model.specs.Trail.{Trail};
ghost use Rattle.nb_state.specs.Open.{IsOpen};
ghost use Rattle.nb_script.specs.Asked.{IsFurther};
ghost use Rattle.nb_session.specs.Askers.{TaskFits, KeepsOthers, left_task, task_left};
ghost use Rattle.nb_session.specs.Dangers.{danger_after};
ghost use Rattle.nb_session.specs.Ready.{IsReady};
ghost use Rattle.nb_session.specs.Steps.{GoesFurther, Turns};

use crate::answer::answer;
use crate::copies::{back_up_on, begin_backup, begin_copy, copy_on};
use crate::merges::{begin_activate, begin_merge, end_backup, merge_on};
use crate::task::{Left, Taken, Task};
use crate::told::Told;
use nb_engine::Engine;
use nb_host::{Host, RunError};
use nb_model::{PageList, Statement};
use nb_sched::Agent;
use std::alloc::Global;
use std::marker::Model;

/// A session: how much of its replies is said, its statements, how far it has come, what is under way, whether a statement of it was
/// refused, and the pages in danger that its last check has found.
#[derive(Drop)]
pub struct Session<'a> {
    alloc: Global,
    number: u32,
    told: Told,
    statements: &'a [Statement],
    next: usize,
    task: Option<Task>,
    refused: bool,
    danger: Option<PageList>,
}

impl<'a> Model for Session<'a> {
    ghost use Rattle.std.specs.Prelude.{◌≤◌, drop, length};
    ghost use Rattle.nb_session.specs.Askers.{Asker};

    ghost Value = { Asker };

    ghost view = { λ s. record { number = s.number; told = s.told; statements = drop s.next s.statements.now; task = s.task; refused = s.refused; danger = s.danger } };

    ghost invariant = { λ s. s.next ≤ length s.statements.now };
}

/// The first turn of a statement. The pages that a check finds in danger are `danger` then.
fn begin_statement<H: Host>(
    alloc: Global,
    host: &mut H,
    engine: &mut Engine,
    session: u32,
    told: Told,
    statement: &Statement,
    danger: &mut Option<PageList>,
) -> Result<Taken, RunError>
    requires asked { IsFurther statement.now }
    ensures turn { (now : Now) (t : Trail) (more : List Turn) → IsTrue H.tells → IsReady (H.world host.old) engine.old t now → IsMaking now
        → slice_index_or now.todo (session - 1) [] ≡ Begins statement.now ∷ more
        → Turns told (λ taken. taken.refused) (λ taken. taken.task) result (H.world host.old) (H.world host.new) engine.old engine.new t now session (Begins statement.now) [] more }
    ensures danger { (t : Trail) → IsTrue H.tells → IsOpen (H.world host.old) engine.old t → IfOk result (λ taken. danger.new ≡ danger_after statement.now t.base.image danger.old) }
    ensures fits { IfOk result (λ taken. TaskFits session taken.task engine.new) }
    ensures others { KeepsOthers session engine.old engine.new }
    ensures cause { CountsRun result (H.faults host.old) (H.faults host.new) }
{
    match statement {
        Statement::EndBackup => begin_merge(alloc, host, engine, session, statement),
        Statement::Activate => begin_activate(alloc, host, engine, session, told, statement),
        Statement::Backup { .. } | Statement::BackupSince { .. } => {
            begin_backup(alloc, host, engine, session, statement)
        }
        Statement::CopyTo { name } => begin_copy(alloc, host, engine, session, name),
        _ => answer(alloc, host, engine, session, told, statement, danger),
    }
}

/// A further turn of a statement of many turns. What is under way of it is changed in its place, where it goes on.
fn go_on<H: Host>(
    alloc: Global,
    host: &mut H,
    engine: &mut Engine,
    session: u32,
    told: Told,
    task: &mut Option<Task>,
) -> Result<Left, RunError>
    requires under_way { task.old ≢ None }
    requires fits { TaskFits session task.old engine.old }
    ensures turn { (now : Now) (t : Trail) (more : List Turn) → IsTrue H.tells → IsReady (H.world host.old) engine.old t now → IsMaking now
        → GoesFurther told task.old task.new result (H.world host.old) (H.world host.new) engine.old engine.new t now session more }
    ensures falls { IfOk result (λ left. task_left (left_task task.new left) < task_left task.old) }
    ensures fits { IfOk result (λ left. TaskFits session (left_task task.new left) engine.new) }
    ensures others { KeepsOthers session engine.old engine.new }
    ensures cause { CountsRun result (H.faults host.old) (H.faults host.new) }
{
    match task {
        Some(Task::Backup(copier)) => back_up_on(alloc, host, engine, session, copier),
        Some(Task::Copy(copier)) => copy_on(alloc, host, engine, session, told, copier),
        Some(Task::End(reply)) => end_backup(alloc, host, engine, session, reply),
        Some(Task::Merge(merging)) => merge_on(alloc, host, engine, session, told, merging),
        None => unreachable!(),
    }
}

impl<'a> Session<'a> {
    /// A session that has all of its statements to do.
    pub fn new(alloc: Global, number: u32, told: Told, statements: &'a [Statement]) -> Session<'a>
        ensures { result ≡ record { number = number; told = told; statements = statements.now; task = None; refused = false; danger = None } }
    {
        Session {
            alloc,
            number,
            told,
            statements,
            next: 0,
            task: None,
            refused: false,
            danger: None,
        }
    }

    /// Whether a statement was refused.
    pub fn refused(&self) -> bool
        ensures { result ≡ self.now.refused }
    {
        self.refused
    }

    /// The pages in danger that its last check has found, if one was done. It knows of none then.
    pub fn take_danger(&mut self) -> Option<PageList>
        ensures { result ≡ self.old.danger }
    {
        self.danger.take()
    }
}

impl<'a, H: Host> Agent<H, Engine> for Session<'a> {
    ghost use Rattle.nb_session.specs.Askers.{left_of, IsFit, keeps_fit};
    ghost use Rattle.nb_session.specs.Steps.{Steps};

    ghost left = { λ session. left_of session };

    ghost session = { λ session. session.number };

    ghost fits = { λ session host engine. IsFit session engine };

    ghost step = { λ session host engine answer session' host' engine'. Steps H.tells answer (H.world host) (H.world host') (H.faults host) (H.faults host') engine engine' session session' };

    ghost keeps_others = { λ mover other host engine moved host' engine' apart fits also made. keeps_fit mover.number other engine engine' apart made.others also };

    fn turn(&mut self, host: &mut H, engine: &mut Engine) -> Result<(), RunError> {
        let (alloc, session, told) = (self.alloc, self.number, self.told);
        match self.task {
            Some(_) => match go_on(alloc, host, engine, session, told, &mut self.task)? {
                Left::Same => Ok(()),
                Left::Other(taken) => {
                    self.task = taken.task;
                    self.refused |= taken.refused;
                    Ok(())
                }
            },
            None => {
                let statement = &self.statements[self.next];
                let danger = &mut self.danger;
                let taken = begin_statement(alloc, host, engine, session, told, statement, danger)?;
                self.next += 1;
                self.task = taken.task;
                self.refused |= taken.refused;
                Ok(())
            }
        }
    }

    fn finished(&self) -> bool {
        self.task.is_none() && self.next == self.statements.len()
    }

    fn left(&self) -> (u64, u64) {
        let statements = (self.statements.len() - self.next) as u64;
        match &self.task {
            Some(task) => (statements, task.left()),
            None => (statements, 0),
        }
    }

    fn session(&self) -> u32 {
        self.number
    }
}

// Backups and copies of the frozen file, which take a turn for each page.
ghost use Rattle.std.specs.Prelude.{◌≡◌, ◌≢◌, ◌<◌, length, ℕ, ◌-◌, List, [], ◌∷◌, None, Some, false, IsTrue, IfOk};
ghost use Rattle.std.specs.List.{slice_index_or};
ghost use Rattle.nb_fields.specs.States.{merge_state};
ghost use Rattle.nb_host.specs.Names.{is_delta};
ghost use Rattle.nb_host.specs.Causes.{CountsDevice, CountsRun};
ghost use Rattle.nb_model.specs.declared.statement.Statement.TheVariants.{CopyTo};
ghost use Rattle.nb_model.specs.Going.{IsMaking};
ghost use Rattle.nb_model.specs.Outcomes.{Begins, Seen, Turn, next_guid};
ghost use Rattle.nb_model.specs.Owner.{delta_name};
ghost use Rattle.nb_model.specs.Run.{Now};
ghost use Rattle.nb_model.specs.Trail.{Trail};
ghost use Rattle.nb_model.specs.Turns.{first_turn};
ghost use Rattle.nb_script.specs.Asked.{IsFurther};
ghost use Rattle.nb_state.specs.Open.{IsOpen};
ghost use Rattle.nb_state.specs.Turns.{GaveAtMost};
ghost use Rattle.nb_copy.specs.Starting.{KnowsFree, StartsBackup};
ghost use Rattle.nb_session.specs.Askers.{IsBackup, file_asked, KeepsOthers, TaskFits, left_task, task_left};
ghost use Rattle.nb_session.specs.declared.task.Task.TheVariants.{Backup, Copy};
ghost use Rattle.nb_session.specs.declared.told.Told.{Told};
ghost use Rattle.nb_session.specs.Ready.{IsReady};
ghost use Rattle.nb_session.specs.Steps.{GoesFurther, Turns};

use crate::answer::{line_room, tell_last};
use crate::merges::end_early;
use crate::task::{Left, Taken, Task};
use crate::told::Told;
use nb_copy::{Copier, FileCopier};
use nb_engine::Engine;
use nb_host::{Fault, Host, Name, RunError};
use nb_model::{Reply, Statement};
use nb_state::Progress;
use std::alloc::Global;

/// The statement is under way, and not refused.
fn under_way(task: Task) -> Taken
    ensures { result ≡ record { task = Some task; refused = false } }
{
    Taken {
        task: Some(task),
        refused: false,
    }
}

/// No copy of this session runs any more.
fn stop_running(engine: &mut Engine, session: u32)
    ensures own { engine.old.running ≡ Some session → engine.new ≡ record engine.old { running = None } }
    ensures other { (other : ℕ) → engine.old.running ≡ Some other → other ≢ session → engine.new ≡ engine.old }
    ensures page_size { engine.new.files.page_size ≡ engine.old.files.page_size }
    ensures cap { engine.new.cap ≡ engine.old.cap }
    ensures same { engine.new ≡ record engine.old { running = engine.new.running } }
{
    if engine.store().running() == Some(session) {
        engine.set_running(None);
    }
}

/// Begins the backup that a statement asks for.
fn start<H: Host>(
    alloc: Global,
    host: &mut H,
    engine: &mut Engine,
    session: u32,
    statement: &Statement,
) -> Result<Copier, Fault>
    requires asked { IsFurther statement.now }
    requires backup { IsBackup statement.now }
    ensures turn { (s : Seen) (t : Trail) → IsTrue H.tells → t.base ≡ s.base → engine.old.running ≡ s.running → IsOpen (H.world host.old) engine.old t
        → KnowsFree 0 (H.world host.old).files s (file_asked statement.now) → (file_asked statement.now ≡ delta_name engine.old.files.name → ⊥) → GaveAtMost (H.world host.old) (H.world host.new) (next_guid s.given)
        → StartsBackup result (H.world host.old) (H.world host.new) engine.old engine.new t (file_asked statement.now) (next_guid s.given) (first_turn s session statement.now) }
    ensures asks { (t : Trail) → IsTrue H.tells → IsOpen (H.world host.old) engine.old t → (guid : List ℕ) × (length guid ≡ 16) × GaveAtMost (H.world host.old) (H.world host.new) guid }
    ensures stays { engine.old.files.state ≡ merge_state → engine.new ≡ engine.old }
    ensures size { IfOk result (λ copier. copier.page_size ≡ engine.old.files.page_size) }
    ensures page_size { engine.new.files.page_size ≡ engine.old.files.page_size }
    ensures cap { engine.new.cap ≡ engine.old.cap }
    ensures cause { CountsDevice result (H.faults host.old) (H.faults host.new) }
{
    match statement {
        Statement::Backup { level, name } => {
            Copier::start(alloc, host, engine, session, *level, name)
        }
        Statement::BackupSince { guid, name } => {
            Copier::start_since(alloc, host, engine, session, guid, name)
        }
        _ => unreachable!(),
    }
}

/// The first turn of a backup. Where it is refused the refusal is said, and it is done.
pub fn begin_backup<H: Host>(
    alloc: Global,
    host: &mut H,
    engine: &mut Engine,
    session: u32,
    statement: &Statement,
) -> Result<Taken, RunError>
    requires asked { IsFurther statement.now }
    requires backup { IsBackup statement.now }
    ensures turn { (told : Told) (now : Now) (t : Trail) (more : List Turn) → IsTrue H.tells → IsReady (H.world host.old) engine.old t now → IsMaking now
        → slice_index_or now.todo (session - 1) [] ≡ Begins statement.now ∷ more
        → Turns told (λ taken. taken.refused) (λ taken. taken.task) result (H.world host.old) (H.world host.new) engine.old engine.new t now session (Begins statement.now) [] more }
    ensures fits { IfOk result (λ taken. TaskFits session taken.task engine.new) }
    ensures others { KeepsOthers session engine.old engine.new }
    ensures cause { CountsRun result (H.faults host.old) (H.faults host.new) }
{
    match start(alloc, host, engine, session, statement) {
        Ok(copier) => Ok(under_way(Task::Backup(copier))),
        Err(fault) => end_early(alloc, host, session, fault),
    }
}

/// The first turn of `copy to`. Where it is refused the refusal is said, and it is done.
pub fn begin_copy<H: Host>(
    alloc: Global,
    host: &mut H,
    engine: &mut Engine,
    session: u32,
    name: &Name,
) -> Result<Taken, RunError>
    requires plain { is_delta name.now ≡ false }
    ensures turn { (told : Told) (now : Now) (t : Trail) (more : List Turn) → IsTrue H.tells → IsReady (H.world host.old) engine.old t now → IsMaking now
        → slice_index_or now.todo (session - 1) [] ≡ Begins (CopyTo name.now) ∷ more
        → Turns told (λ taken. taken.refused) (λ taken. taken.task) result (H.world host.old) (H.world host.new) engine.old engine.new t now session (Begins (CopyTo name.now)) [] more }
    ensures fits { IfOk result (λ taken. TaskFits session taken.task engine.new) }
    ensures others { KeepsOthers session engine.old engine.new }
    ensures cause { CountsRun result (H.faults host.old) (H.faults host.new) }
{
    match FileCopier::start(alloc, host, engine, session, name) {
        Ok(copier) => Ok(under_way(Task::Copy(copier))),
        Err(fault) => end_early(alloc, host, session, fault),
    }
}

/// A further turn of a backup, which is changed in its place. Once its row is written the stalled state is to end.
pub fn back_up_on<H: Host>(
    alloc: Global,
    host: &mut H,
    engine: &mut Engine,
    session: u32,
    copier: &mut Copier,
) -> Result<Left, RunError>
    requires fits { TaskFits session (Some (Backup copier.old)) engine.old }
    ensures turn { (told : Told) (now : Now) (t : Trail) (more : List Turn) → IsTrue H.tells → IsReady (H.world host.old) engine.old t now → IsMaking now
        → GoesFurther told (Some (Backup copier.old)) (Some (Backup copier.new)) result (H.world host.old) (H.world host.new) engine.old engine.new t now session more }
    ensures falls { IfOk result (λ left. task_left (left_task (Some (Backup copier.new)) left) < task_left (Some (Backup copier.old))) }
    ensures fits { IfOk result (λ left. TaskFits session (left_task (Some (Backup copier.new)) left) engine.new) }
    ensures others { KeepsOthers session engine.old engine.new }
    ensures cause { CountsRun result (H.faults host.old) (H.faults host.new) }
{
    match copier.turn(host, engine) {
        Ok(Progress::More) => Ok(Left::Same),
        Ok(Progress::Finished) => Ok(Left::Other(under_way(Task::End(Reply::Level {
            level: copier.level(),
            scn: copier.scn(),
            pages: copier.written(),
            guid: copier.guid(),
        })))),
        Err(fault) => Ok(Left::Other(end_early(alloc, host, session, fault)?)),
    }
}

/// A further turn of a copy of the frozen file, which is changed in its place. In the last one it is told how many pages it has.
pub fn copy_on<H: Host>(
    alloc: Global,
    host: &mut H,
    engine: &mut Engine,
    session: u32,
    told: Told,
    copier: &mut FileCopier,
) -> Result<Left, RunError>
    requires fits { TaskFits session (Some (Copy copier.old)) engine.old }
    ensures turn { (now : Now) (t : Trail) (more : List Turn) → IsTrue H.tells → IsReady (H.world host.old) engine.old t now → IsMaking now
        → GoesFurther told (Some (Copy copier.old)) (Some (Copy copier.new)) result (H.world host.old) (H.world host.new) engine.old engine.new t now session more }
    ensures falls { IfOk result (λ left. task_left (left_task (Some (Copy copier.new)) left) < task_left (Some (Copy copier.old))) }
    ensures fits { IfOk result (λ left. TaskFits session (left_task (Some (Copy copier.new)) left) engine.new) }
    ensures others { KeepsOthers session engine.old engine.new }
    ensures cause { CountsRun result (H.faults host.old) (H.faults host.new) }
{
    match copier.turn(host, engine)? {
        Progress::More => Ok(Left::Same),
        Progress::Finished => {
            stop_running(engine, session);
            let pages = copier.written();
            let line = line_room(alloc)?;
            tell_last(line, host, session, told, Reply::Pages { pages })
        }
    }
}

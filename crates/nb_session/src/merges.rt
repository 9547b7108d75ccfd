// The end of a backup, which takes many turns: one that ends the stalled state, one for each page that is merged, and a last one.
ghost use Rattle.std.specs.Prelude.{◌≡◌, ◌<◌, ◌-◌, List, [], ◌∷◌, length, None, Some, Err, true, false, IsTrue, IfOk};
ghost use Rattle.std.specs.List.{slice_index_or};
ghost use Rattle.nb_fields.specs.States.{normal_state};
ghost use Rattle.nb_host.specs.Causes.{CountsDevice, CountsRun, FaultCount};
ghost use Rattle.nb_change.specs.Gave.{GaveNothing};
ghost use Rattle.nb_model.specs.declared.reply.Reply.TheVariants.{Refused as RefusedReply};
ghost use Rattle.nb_model.specs.declared.statement.Statement.TheVariants.{Activate};
ghost use Rattle.nb_model.specs.Going.{IsMaking};
ghost use Rattle.nb_model.specs.Lines.{line_text};
ghost use Rattle.nb_model.specs.Outcomes.{Begins, Turn};
ghost use Rattle.nb_model.specs.Run.{Now};
ghost use Rattle.nb_model.specs.Trail.{Trail};
ghost use Rattle.nb_session.specs.Askers.{IsEnd, KeepsOthers, TaskFits, left_task, task_left};
ghost use Rattle.nb_session.specs.declared.task.Taken.{Taken};
ghost use Rattle.nb_session.specs.declared.task.Task.TheVariants.{End, Merge};
ghost use Rattle.nb_session.specs.declared.told.Told.{Told};
ghost use Rattle.nb_session.specs.Ready.{IsReady};
ghost use Rattle.nb_session.specs.Replies.{end_reply, is_refusal};
ghost use Rattle.nb_session.specs.Says.{EndsEarly, SaysLine};
ghost use Rattle.nb_session.specs.Steps.{GoesFurther, Turns};

use crate::answer::{line_room, say, tell, tell_last};
use crate::task::{Left, Merging, Taken, Task};
use crate::told::Told;
use nb_engine::Engine;
use nb_host::{Fault, Host, Refusal, RunError};
use nb_model::{Reply, Statement};
use nb_state::Progress;
use std::alloc::Global;
use std::mem;

/// A merge of all that the difference file holds. This is said once all is merged.
fn merge_of(engine: &Engine, reply: Reply) -> Taken
    ensures { result ≡ record { task = Some (Merge (record { left = length engine.now.files.entries; reply = reply })); refused = false } }
{
    Taken {
        task: Some(Task::Merge(Merging {
            left: engine.store().delta_count(),
            reply,
        })),
        refused: false,
    }
}

/// Says a refusal, with which a statement is done.
fn say_refused<H: Host>(
    alloc: Global,
    host: &mut H,
    session: u32,
    refusal: Refusal,
) -> Result<Taken, RunError>
    ensures line { IsTrue H.tells → SaysLine result (H.world host.old) (H.world host.new) (line_text session (RefusedReply refusal)) }
    ensures taken { IfOk result (λ taken. taken ≡ record { task = None; refused = true }) }
    ensures gave { GaveNothing (H.world host.old) (H.world host.new) }
    ensures cause { CountsRun result (H.faults host.old) (H.faults host.new) }
{
    say(alloc, host, session, &Reply::Refused { refusal })?;
    Ok(Taken {
        task: None,
        refused: true,
    })
}

/// Ends a statement early: a refusal is said, with which it is done, and a failure is handed on.
pub fn end_early<H: Host>(
    alloc: Global,
    host: &mut H,
    session: u32,
    fault: Fault,
) -> Result<Taken, RunError>
    ensures ended { IsTrue H.tells → EndsEarly session fault result (H.world host.old) (H.world host.new) (host.new ≡ host.old) }
    ensures taken { IfOk result (λ taken. taken ≡ record { task = None; refused = true }) }
    ensures cause { (before : FaultCount) → CountsDevice {T = Taken} (Err fault) before (H.faults host.old) → CountsRun result before (H.faults host.new) }
{
    match fault {
        Fault::Refused(refusal) => say_refused(alloc, host, session, refusal),
        Fault::Device => Err(RunError::Device),
        Fault::Memory => Err(RunError::Memory),
    }
}

/// What a statement that ends a backup says once all is merged.
fn reply_once_merged(statement: &Statement, pages: u32, scn: u32) -> Reply
    ensures reply { result ≡ end_reply statement.now pages scn }
    ensures plain { is_refusal result ≡ false }
{
    match statement {
        Statement::Activate => Reply::Activated { pages, scn },
        _ => Reply::Scn { scn },
    }
}

/// The first turn of a statement that ends a backup. Where it is refused the refusal is said, and it is done.
pub fn begin_merge<H: Host>(
    alloc: Global,
    host: &mut H,
    engine: &mut Engine,
    session: u32,
    statement: &Statement,
) -> Result<Taken, RunError>
    requires ends { IsEnd statement.now engine.old }
    ensures turn { (told : Told) (now : Now) (t : Trail) (more : List Turn) → IsTrue H.tells → IsReady (H.world host.old) engine.old t now → IsMaking now
        → slice_index_or now.todo (session - 1) [] ≡ Begins statement.now ∷ more
        → Turns told (λ taken. taken.refused) (λ taken. taken.task) result (H.world host.old) (H.world host.new) engine.old engine.new t now session (Begins statement.now) [] more }
    ensures fits { IfOk result (λ taken. TaskFits session taken.task engine.new) }
    ensures others { KeepsOthers session engine.old engine.new }
    ensures cause { CountsRun result (H.faults host.old) (H.faults host.new) }
{
    let pages = engine.count();
    match engine.end(host, session) {
        Ok(scn) => Ok(merge_of(engine, reply_once_merged(statement, pages, scn))),
        Err(fault) => end_early(alloc, host, session, fault),
    }
}

/// Says how the database stands, which is in the normal state. With that `activate` is done.
fn say_activated<H: Host>(
    alloc: Global,
    host: &mut H,
    engine: &Engine,
    session: u32,
    told: Told,
) -> Result<Taken, RunError>
    requires normal { engine.now.files.state ≡ normal_state }
    ensures turn { (now : Now) (t : Trail) (more : List Turn) → IsTrue H.tells → IsReady (H.world host.old) engine.now t now → IsMaking now
        → slice_index_or now.todo (session - 1) [] ≡ Begins Activate ∷ more
        → Turns told (λ taken. taken.refused) (λ taken. taken.task) result (H.world host.old) (H.world host.new) engine.now engine.now t now session (Begins Activate) [] more }
    ensures taken { IfOk result (λ taken. taken ≡ record { task = None; refused = false }) }
    ensures cause { CountsRun result (H.faults host.old) (H.faults host.new) }
{
    let line = line_room(alloc)?;
    let reply = Reply::Activated {
        pages: engine.count(),
        scn: engine.store().scn(),
    };
    tell(line, host, session, told, reply)?;
    Ok(Taken {
        task: None,
        refused: false,
    })
}

/// The first turn of `activate`. Where no backup is under way nothing is done but to say how the database stands.
pub fn begin_activate<H: Host>(
    alloc: Global,
    host: &mut H,
    engine: &mut Engine,
    session: u32,
    told: Told,
    statement: &Statement,
) -> Result<Taken, RunError>
    requires activate { statement.now ≡ Activate }
    ensures turn { (now : Now) (t : Trail) (more : List Turn) → IsTrue H.tells → IsReady (H.world host.old) engine.old t now → IsMaking now
        → slice_index_or now.todo (session - 1) [] ≡ Begins statement.now ∷ more
        → Turns told (λ taken. taken.refused) (λ taken. taken.task) result (H.world host.old) (H.world host.new) engine.old engine.new t now session (Begins statement.now) [] more }
    ensures fits { IfOk result (λ taken. TaskFits session taken.task engine.new) }
    ensures others { KeepsOthers session engine.old engine.new }
    ensures cause { CountsRun result (H.faults host.old) (H.faults host.new) }
{
    if engine.store().state() == 0 {
        say_activated(alloc, host, engine, session, told)
    } else {
        begin_merge(alloc, host, engine, session, statement)
    }
}

/// The turn after a backup's copy: the stalled state ends, and its merge begins.
pub fn end_backup<H: Host>(
    alloc: Global,
    host: &mut H,
    engine: &mut Engine,
    session: u32,
    reply: &mut Reply,
) -> Result<Left, RunError>
    requires fits { TaskFits session (Some (End reply.old)) engine.old }
    ensures turn { (told : Told) (now : Now) (t : Trail) (more : List Turn) → IsTrue H.tells → IsReady (H.world host.old) engine.old t now → IsMaking now
        → GoesFurther told (Some (End reply.old)) (Some (End reply.new)) result (H.world host.old) (H.world host.new) engine.old engine.new t now session more }
    ensures falls { IfOk result (λ left. task_left (left_task (Some (End reply.new)) left) < task_left (Some (End reply.old))) }
    ensures fits { IfOk result (λ left. TaskFits session (left_task (Some (End reply.new)) left) engine.new) }
    ensures others { KeepsOthers session engine.old engine.new }
    ensures cause { CountsRun result (H.faults host.old) (H.faults host.new) }
{
    match engine.end(host, session) {
        Ok(_) => {
            let reply = mem::replace(reply, Reply::Done);
            Ok(Left::Other(merge_of(engine, reply)))
        }
        Err(fault) => Ok(Left::Other(end_early(alloc, host, session, fault)?)),
    }
}

/// A further turn of a merge, which is changed in its place. In the last one its reply is told, in memory that is taken before.
pub fn merge_on<H: Host>(
    alloc: Global,
    host: &mut H,
    engine: &mut Engine,
    session: u32,
    told: Told,
    merging: &mut Merging,
) -> Result<Left, RunError>
    requires fits { TaskFits session (Some (Merge merging.old)) engine.old }
    ensures turn { (now : Now) (t : Trail) (more : List Turn) → IsTrue H.tells → IsReady (H.world host.old) engine.old t now → IsMaking now
        → GoesFurther told (Some (Merge merging.old)) (Some (Merge merging.new)) result (H.world host.old) (H.world host.new) engine.old engine.new t now session more }
    ensures falls { IfOk result (λ left. task_left (left_task (Some (Merge merging.new)) left) < task_left (Some (Merge merging.old))) }
    ensures fits { IfOk result (λ left. TaskFits session (left_task (Some (Merge merging.new)) left) engine.new) }
    ensures others { KeepsOthers session engine.old engine.new }
    ensures cause { CountsRun result (H.faults host.old) (H.faults host.new) }
{
    let line = line_room(alloc)?;
    match engine.merge_turn(host)? {
        Progress::More => {
            merging.left -= 1;
            Ok(Left::Same)
        }
        Progress::Finished => {
            let reply = mem::replace(&mut merging.reply, Reply::Done);
            tell_last(line, host, session, told, reply)
        }
    }
}

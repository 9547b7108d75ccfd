// A statement and the line of its reply.
ghost use Rattle.std.specs.Prelude.{◌≡◌, ℕ, ◌-◌, List, [], ◌∷◌, None, Some, true, false, IsTrue, IfOk};
ghost use Rattle.std.specs.List.{slice_index_or};
ghost use Rattle.nb_host.specs.Causes.{CountsRun, FaultCount};
ghost use Rattle.nb_change.specs.Gave.{GaveNothing};
ghost use Rattle.nb_model.specs.Going.{IsMaking};
ghost use Rattle.nb_model.specs.Lines.{line_text};
ghost use Rattle.nb_model.specs.Outcomes.{Begins, Turn};
ghost use Rattle.nb_model.specs.Run.{Now};
ghost use Rattle.nb_model.specs.Trail.{Trail};
ghost use Rattle.nb_lines.specs.Brief.{HasRoom, is_brief};
ghost use Rattle.nb_state.specs.Open.{IsOpen};
ghost use Rattle.nb_script.specs.Asked.{IsFurther};
ghost use Rattle.nb_session.specs.Askers.{IsOneTurn, KeepsOthers, TaskFits};
ghost use Rattle.nb_session.specs.Dangers.{danger_after};
ghost use Rattle.nb_session.specs.declared.task.Left.TheVariants.{Other};
ghost use Rattle.nb_session.specs.Ready.{IsReady};
ghost use Rattle.nb_session.specs.Replies.{is_refusal};
ghost use Rattle.nb_session.specs.Says.{SaysLine};
ghost use Rattle.nb_session.specs.Short.{RanOut};
ghost use Rattle.nb_session.specs.Steps.{Turns};
ghost use Rattle.nb_session.specs.Told.{told_line, told_reply};

use crate::statement::{do_statement, reply_to};
use crate::task::{Left, Taken};
use crate::told::Told;
use nb_engine::Engine;
use nb_host::{Host, RunError};
use nb_lines::{render_in, room};
use nb_model::{PageList, Reply, Statement};
use std::alloc::Global;

/// Says the line of a reply.
pub fn say<H: Host>(
    alloc: Global,
    host: &mut H,
    session: u32,
    reply: &Reply,
) -> Result<(), RunError>
    ensures line { IsTrue H.tells → SaysLine result (H.world host.old) (H.world host.new) (line_text session reply.now) }
    ensures gave { GaveNothing (H.world host.old) (H.world host.new) }
    ensures cause { CountsRun result (H.faults host.old) (H.faults host.new) }
{
    say_in(line_room(alloc)?, host, session, reply)
}

/// Memory for the line of a reply.
pub(crate) fn line_room(alloc: Global) -> Result<Vec<u8>, RunError>
    ensures room { IfOk result HasRoom }
    ensures cause { (faults : FaultCount) → CountsRun result faults faults }
{
    match room(alloc) {
        Ok(line) => Ok(line),
        Err(_) => Err(RunError::Memory),
    }
}

/// Says the line of a reply in memory that was taken before. It wants no more where the reply says what was done.
fn say_in<H: Host>(line: Vec<u8>, host: &mut H, session: u32, reply: &Reply) -> Result<(), RunError>
    requires room { HasRoom line }
    ensures line { IsTrue H.tells → SaysLine result (H.world host.old) (H.world host.new) (line_text session reply.now) }
    ensures brief { is_brief reply.now ≡ true → RanOut result → ⊥ }
    ensures gave { GaveNothing (H.world host.old) (H.world host.new) }
    ensures cause { CountsRun result (H.faults host.old) (H.faults host.new) }
{
    let line = match render_in(line, session, reply) {
        Ok(line) => line,
        Err(_) => return Err(RunError::Memory),
    };
    host.say(&line)?;
    Ok(())
}

/// Says what is told of a reply, if anything is, in memory that was taken before. It wants no more where the reply says what was done.
pub(crate) fn tell<H: Host>(
    line: Vec<u8>,
    host: &mut H,
    session: u32,
    told: Told,
    reply: Reply,
) -> Result<(), RunError>
    requires room { HasRoom line }
    ensures line { IsTrue H.tells → SaysLine result (H.world host.old) (H.world host.new) (told_line session (told_reply told (Some reply))) }
    ensures brief { is_brief reply ≡ true → RanOut result → ⊥ }
    ensures gave { GaveNothing (H.world host.old) (H.world host.new) }
    ensures cause { CountsRun result (H.faults host.old) (H.faults host.new) }
{
    match told.of(reply) {
        Some(reply) => say_in(line, host, session, &reply),
        None => Ok(()),
    }
}

/// Says what is told of the reply to a statement of many turns, which is done with that.
pub(crate) fn tell_last<H: Host>(
    line: Vec<u8>,
    host: &mut H,
    session: u32,
    told: Told,
    reply: Reply,
) -> Result<Left, RunError>
    requires room { HasRoom line }
    ensures line { IsTrue H.tells → SaysLine result (H.world host.old) (H.world host.new) (told_line session (told_reply told (Some reply))) }
    ensures brief { is_brief reply ≡ true → RanOut result → ⊥ }
    ensures left { IfOk result (λ left. left ≡ Other (record { task = None; refused = false })) }
    ensures cause { CountsRun result (H.faults host.old) (H.faults host.new) }
{
    tell(line, host, session, told, reply)?;
    Ok(Left::Other(Taken {
        task: None,
        refused: false,
    }))
}

/// Whether the reply is a refusal.
pub(crate) fn is_refusal(reply: &Reply) -> bool
    ensures { result ≡ is_refusal reply.now }
{
    match reply {
        Reply::Refused { .. } => true,
        _ => false,
    }
}

/// Does a statement in one turn and says what is told of its reply. Then it is done. The memory for its line is taken first: where memory is short
/// once something was done, its last operation isn't. The pages that a check finds in danger are `danger` then.
pub fn answer<H: Host>(
    alloc: Global,
    host: &mut H,
    engine: &mut Engine,
    session: u32,
    told: Told,
    statement: &Statement,
    danger: &mut Option<PageList>,
) -> Result<Taken, RunError>
    requires asked { IsFurther statement.now }
    requires single { IsOneTurn statement.now }
    ensures turn { (now : Now) (t : Trail) (more : List Turn) → IsTrue H.tells → IsReady (H.world host.old) engine.old t now → IsMaking now
        → slice_index_or now.todo (session - 1) [] ≡ Begins statement.now ∷ more
        → Turns told (λ taken. taken.refused) (λ taken. taken.task) result (H.world host.old) (H.world host.new) engine.old engine.new t now session (Begins statement.now) [] more }
    ensures danger { (t : Trail) → IsTrue H.tells → IsOpen (H.world host.old) engine.old t → IfOk result (λ taken. danger.new ≡ danger_after statement.now t.base.image danger.old) }
    ensures fits { IfOk result (λ taken. TaskFits session taken.task engine.new) }
    ensures others { (number : ℕ) → KeepsOthers number engine.old engine.new }
    ensures cause { CountsRun result (H.faults host.old) (H.faults host.new) }
{
    let line = line_room(alloc)?;
    let reply = reply_to(do_statement(alloc, host, engine, statement, danger))?;
    let refused = is_refusal(&reply);
    tell(line, host, session, told, reply)?;
    Ok(Taken {
        task: None,
        refused,
    })
}

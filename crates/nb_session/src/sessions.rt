// The sessions of a script take their turns.
ghost use Rattle.std.specs.Prelude.{◌≡◌, ℕ, List, IsTrue, IfOk, None};
ghost use Rattle.nb_model.specs.Gifts.{Foretells};
ghost use Rattle.nb_model.specs.Going.{IsMaking};
ghost use Rattle.nb_model.specs.Run.{Now, begun};
ghost use Rattle.nb_model.specs.Trail.{Trail};
ghost use Rattle.nb_model.specs.declared.statement.Statement.{Statement};
ghost use Rattle.nb_state.specs.Open.{IsOpen, NoPageWaits};
ghost use Rattle.nb_script.specs.Asked.{IsAskable};
ghost use Rattle.nb_session.specs.Acts.{Grows};
ghost use Rattle.nb_session.specs.Askers.{first_askers, any_refused as some_refused};
ghost use Rattle.nb_host.specs.Causes.{CountsRun};
ghost use Rattle.nb_session.specs.Dangers.{alone, danger_after, first_danger};
ghost use Rattle.nb_session.specs.Ready.{IsReady};
ghost use Rattle.nb_session.specs.Todo.{PlaysInTurn};

use crate::session::Session;
use crate::told::Told;
use nb_engine::Engine;
use nb_host::{Host, RunError};
use nb_model::PageList;
use nb_script::Script;
use std::alloc::Global;

/// All sessions of a script, the first of which is session 1.
fn sessions_of<'a>(alloc: Global, script: &'a Script, told: Told) -> [Session<'a>; 16]
    ensures { result ≡ first_askers told script.now }
{
    [
        Session::new(alloc, 1, told, script.statements(1)),
        Session::new(alloc, 2, told, script.statements(2)),
        Session::new(alloc, 3, told, script.statements(3)),
        Session::new(alloc, 4, told, script.statements(4)),
        Session::new(alloc, 5, told, script.statements(5)),
        Session::new(alloc, 6, told, script.statements(6)),
        Session::new(alloc, 7, told, script.statements(7)),
        Session::new(alloc, 8, told, script.statements(8)),
        Session::new(alloc, 9, told, script.statements(9)),
        Session::new(alloc, 10, told, script.statements(10)),
        Session::new(alloc, 11, told, script.statements(11)),
        Session::new(alloc, 12, told, script.statements(12)),
        Session::new(alloc, 13, told, script.statements(13)),
        Session::new(alloc, 14, told, script.statements(14)),
        Session::new(alloc, 15, told, script.statements(15)),
        Session::new(alloc, 16, told, script.statements(16)),
    ]
}

/// Whether a statement of one of the sessions was refused.
fn any_refused<'a>(sessions: &[Session<'a>]) -> bool
    ensures { result ≡ some_refused sessions.now }
{
    let mut any = false;
    for session in sessions {
        any |= session.refused();
    }
    any
}

/// The pages in danger that the last check of session 1 has found, if one was done.
fn danger_of<'a>(sessions: &mut [Session<'a>]) -> Option<PageList>
    ensures { result ≡ first_danger sessions.old }
{
    if sessions.is_empty() {
        return None;
    }
    sessions[0].take_danger()
}

/// Takes the turns of all sessions to the end of every one, and says so much of them. Answers whether a statement was refused. The pages that
/// the last check of session 1 has found in danger are `danger` then.
fn play<H: Host>(
    alloc: Global,
    host: &mut H,
    engine: &mut Engine,
    script: &Script,
    told: Told,
    danger: &mut Option<PageList>,
) -> Result<bool, RunError>
    requires askable { IsAskable script.now }
    ensures plays { IsTrue H.tells → (shown : List ℕ) × ((now : Now) (t : Trail) → IsReady (H.world host.old) engine.old t now → now.todo ≡ begun script.now.sessions → IsMaking now
        → Foretells now.given shown (H.world host.old) (H.world host.new)
        → PlaysInTurn H.world result host.old host.new engine.old engine.new t told now script.now.schedule) }
    ensures danger { (statement : Statement) (t : Trail) → IsTrue H.tells → IsOpen (H.world host.old) engine.old t → script.now.sessions ≡ alone statement
        → IfOk result (λ refused. danger.new ≡ danger_after statement t.base.image None) }
    ensures grows { (now : Now) (t : Trail) → IsTrue H.tells → IsReady (H.world host.old) engine.old t now → now.todo ≡ begun script.now.sessions → IsMaking now
        → Grows (H.world host.old) (H.world host.new) }
    ensures cause { CountsRun result (H.faults host.old) (H.faults host.new) }
{
    let mut all = sessions_of(alloc, script, told);
    let sessions: &mut [Session<'_>] = &mut all;
    nb_sched::take_turns(sessions, host, engine, script.schedule())?;
    let refused = any_refused(sessions);
    *danger = danger_of(sessions);
    Ok(refused)
}

/// Plays a script on the open database, all but its first statement, to the end of every session, and says so much of it; then it writes
/// out what waits. Answers whether a statement was refused. Where a call of the host fails or memory runs out, no further turn is taken.
///
/// How many pages are in memory at a `show cache` isn't computed by the definitions: some numbers are shown, and with them the whole run is
/// exact, whatever account it begins from.
///
/// Where session 1 has one statement, and no other any, what it has found in danger is `danger` then: all such pages, where it is a check that
/// isn't refused.
pub fn take_turns<H: Host>(
    alloc: Global,
    host: &mut H,
    engine: &mut Engine,
    script: &Script,
    told: Told,
    danger: &mut Option<PageList>,
) -> Result<bool, RunError>
    requires askable { IsAskable script.now }
    ensures plays { IsTrue H.tells → (shown : List ℕ) × ((now : Now) (t : Trail) → IsReady (H.world host.old) engine.old t now → now.todo ≡ begun script.now.sessions → IsMaking now
        → Foretells now.given shown (H.world host.old) (H.world host.new)
        → PlaysInTurn H.world result host.old host.new engine.old engine.new t told now script.now.schedule) }
    ensures none_waits { IfOk result (λ refused. NoPageWaits engine.new) }
    ensures danger { (statement : Statement) (t : Trail) → IsTrue H.tells → IsOpen (H.world host.old) engine.old t → script.now.sessions ≡ alone statement
        → IfOk result (λ refused. danger.new ≡ danger_after statement t.base.image None) }
    ensures grows { (now : Now) (t : Trail) → IsTrue H.tells → IsReady (H.world host.old) engine.old t now → now.todo ≡ begun script.now.sessions → IsMaking now
        → Grows (H.world host.old) (H.world host.new) }
    ensures cause { CountsRun result (H.faults host.old) (H.faults host.new) }
{
    let refused = play(alloc, host, engine, script, told, danger)?;
    engine.write_out(host)?;
    Ok(refused)
}

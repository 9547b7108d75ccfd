// A statement on tables, or one that checks the database or gives its leaked pages back, which is done in one turn.
ghost use Rattle.std.specs.Prelude.{◌≡◌, ℕ, [], IsTrue};
ghost use Rattle.nb_host.specs.Causes.{CountsDevice};
ghost use Rattle.nb_model.specs.Outcomes.{Begins};
ghost use Rattle.nb_model.specs.Run.{Now};
ghost use Rattle.nb_model.specs.Trail.{Trail};
ghost use Rattle.nb_state.specs.Does.{WhereEnded};
ghost use Rattle.nb_state.specs.Open.{IsOpen};
ghost use Rattle.nb_script.specs.Asked.{IsFurther};
ghost use Rattle.nb_session.specs.Acts.{MayAct};
ghost use Rattle.nb_session.specs.Askers.{IsCheck, IsOnTables, KeepsOthers};
ghost use Rattle.nb_session.specs.Dangers.{danger_after};
ghost use Rattle.nb_session.specs.Ready.{IsReady};
ghost use Rattle.nb_session.specs.Replies.{some_said};

use crate::replies::done;
use nb_check::{check, reclaim};
use nb_engine::Engine;
use nb_host::{Fault, Host};
use nb_model::{PageList, Reply, Statement, Text};
use nb_table::{create, delete, drop_table, get, insert, scan, update};
use std::alloc::Global;

/// Does one statement on tables, in one turn.
pub(crate) fn do_on_tables<H: Host>(
    alloc: Global,
    host: &mut H,
    engine: &mut Engine,
    statement: &Statement,
) -> Result<Reply, Fault>
    requires asked { IsFurther statement.now }
    requires tables { IsOnTables statement.now }
    ensures turn { (now : Now) (t : Trail) (session : ℕ) → IsTrue H.tells → IsReady (H.world host.old) engine.old t now
        → MayAct some_said result (H.world host.old) (H.world host.new) engine.old engine.new t now session (Begins statement.now) [] }
    ensures others { (session : ℕ) → KeepsOthers session engine.old engine.new }
    ensures cause { CountsDevice result (H.faults host.old) (H.faults host.new) }
{
    match statement {
        Statement::CreateTable { table } => done(create(host, engine, table)),
        Statement::DropTable { table } => done(drop_table(host, engine, table)),
        Statement::Insert { table, key, text } => {
            let text = text.as_slice();
            done(insert(host, engine, table, *key, text))
        }
        Statement::Update { table, key, text } => {
            let text = text.as_slice();
            done(update(host, engine, table, *key, text))
        }
        Statement::Delete { table, key } => done(delete(host, engine, table, *key)),
        Statement::Get { table, key } => {
            let text = get(host, engine, table, *key)?;
            Ok(Reply::Value {
                text: Text::new(alloc, text.as_slice())?,
            })
        }
        Statement::Scan { table } => {
            let rows = scan(alloc, host, engine, table)?;
            Ok(Reply::Rows { rows })
        }
        _ => unreachable!(),
    }
}

/// Does one statement on checks, in one turn. The pages that a check finds in danger are `danger` then.
pub(crate) fn do_checks<H: Host>(
    alloc: Global,
    host: &mut H,
    engine: &mut Engine,
    statement: &Statement,
    danger: &mut Option<PageList>,
) -> Result<Reply, Fault>
    requires { IsCheck statement.now }
    ensures turn { (now : Now) (t : Trail) (session : ℕ) → IsTrue H.tells → IsReady (H.world host.old) engine.old t now
        → MayAct some_said result (H.world host.old) (H.world host.new) engine.old engine.new t now session (Begins statement.now) [] }
    ensures danger { (t : Trail) → IsTrue H.tells → IsOpen (H.world host.old) engine.old t → WhereEnded result (danger.new ≡ danger_after statement.now t.base.image danger.old) }
    ensures others { (session : ℕ) → KeepsOthers session engine.old engine.new }
    ensures cause { CountsDevice result (H.faults host.old) (H.faults host.new) }
{
    match statement {
        Statement::Check => {
            let findings = check(alloc, host, engine)?;
            let pages = findings.leaked.pages(alloc)?;
            let in_danger = findings.in_danger.pages(alloc)?;
            *danger = Some(in_danger);
            Ok(Reply::Leaked { pages })
        }
        Statement::Reclaim => {
            let pages = reclaim(alloc, host, engine)?;
            Ok(Reply::Freed { pages })
        }
        _ => unreachable!(),
    }
}

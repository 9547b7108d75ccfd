// A statement that is done in one turn.
ghost use Rattle.std.specs.Prelude.{◌≡◌, ℕ, [], IsTrue, IfErr, OnOk, IfOk, Option, Some};
ghost use Rattle.nb_host.specs.Causes.{CountsDevice, CountsRun, FaultCount};
ghost use Rattle.nb_host.specs.Faults.{as_fault};
ghost use Rattle.nb_base.specs.Open.{Agrees};
ghost use Rattle.nb_model.specs.Account.{Base};
ghost use Rattle.nb_state.specs.Does.{WhereEnded};
ghost use Rattle.nb_state.specs.Open.{AgreesWith, IsOpen};
ghost use Rattle.nb_model.specs.declared.reply.Reply.{Reply};
ghost use Rattle.nb_model.specs.Outcomes.{Begins};
ghost use Rattle.nb_model.specs.Run.{Now};
ghost use Rattle.nb_model.specs.Trail.{Trail};
ghost use Rattle.nb_shown.specs.Replies.{pages_shown};
ghost use Rattle.nb_script.specs.Asked.{IsFurther};
ghost use Rattle.nb_session.specs.Acts.{Says, MayAct};
ghost use Rattle.nb_session.specs.Askers.{IsOneTurn, KeepsOthers};
ghost use Rattle.nb_session.specs.Dangers.{danger_after};
ghost use Rattle.nb_session.specs.Ready.{IsReady};
ghost use Rattle.nb_session.specs.Replies.{some_said, HasEnded, header_of};

use crate::replies::done;
use crate::tables::{do_checks, do_on_tables};
use nb_engine::Engine;
use nb_host::{Fault, Host, RunError};
use nb_model::{PageList, Reply, Statement, Text};
use nb_shown::{PageCounts, count_pages, image_digest};
use std::alloc::Global;

/// What the header of the open database says, and how many pages its difference file holds.
fn header_shown(engine: &Engine) -> Reply
    ensures { (b : Base) → Agrees engine.now.files b → AgreesWith engine.now b → result ≡ header_of b }
{
    let store = engine.store();
    let state = store.state();
    let delta = if state == 0 { 0 } else { store.delta_count() };
    Reply::HeaderShown {
        page_size: engine.page_size(),
        pages: engine.count(),
        state,
        scn: store.scn(),
        guid: store.guid(),
        forced: engine.forced(),
        access: engine.access(),
        delta,
    }
}

/// The counts of pages as they are shown.
fn pages_shown(counts: &PageCounts) -> Reply
    ensures { result ≡ pages_shown counts.now }
{
    Reply::PagesShown {
        header: counts.header,
        inventory: counts.inventory,
        scn: counts.scn,
        data_pages: counts.data_pages,
        raw: counts.raw,
        other: counts.other,
        free: counts.free,
    }
}

/// Does one statement that isn't the first of its script, in one turn. The pages that a check finds in danger are `danger` then.
pub fn do_statement<H: Host>(
    alloc: Global,
    host: &mut H,
    engine: &mut Engine,
    statement: &Statement,
    danger: &mut Option<PageList>,
) -> Result<Reply, Fault>
    requires asked { IsFurther statement.now }
    requires single { IsOneTurn statement.now }
    ensures turn { (now : Now) (t : Trail) (session : ℕ) → IsTrue H.tells → IsReady (H.world host.old) engine.old t now
        → MayAct some_said result (H.world host.old) (H.world host.new) engine.old engine.new t now session (Begins statement.now) [] }
    ensures danger { (t : Trail) → IsTrue H.tells → IsOpen (H.world host.old) engine.old t → WhereEnded result (danger.new ≡ danger_after statement.now t.base.image danger.old) }
    ensures others { (session : ℕ) → KeepsOthers session engine.old engine.new }
    ensures cause { CountsDevice result (H.faults host.old) (H.faults host.new) }
{
    match statement {
        Statement::Write { page, text } => done(engine.page_write(host, *page, text.as_slice())),
        Statement::Read { page } => {
            let text = engine.page_read(host, *page)?;
            Ok(Reply::Value {
                text: Text::new(alloc, text.as_slice())?,
            })
        }
        Statement::PageNew => {
            let page = engine.page_new(host)?;
            Ok(Reply::PageMade { page })
        }
        Statement::Free { page } => done(engine.page_free(host, *page)),
        Statement::BeginBackup => {
            let scn = engine.begin(host)?;
            Ok(Reply::Scn { scn })
        }
        Statement::Forced { on } => done(engine.set_forced(host, *on)),
        Statement::Access { read_only } => done(engine.set_access(host, *read_only)),
        Statement::Sync => {
            engine.sync(host)?;
            Ok(Reply::Done)
        }
        Statement::ShowHeader => Ok(header_shown(engine)),
        Statement::ShowPages => {
            let counts = count_pages(host, engine)?;
            Ok(pages_shown(&counts))
        }
        Statement::ShowImage => {
            let sha256 = image_digest(host, engine)?;
            Ok(Reply::ImageShown {
                pages: engine.count(),
                sha256,
            })
        }
        Statement::ShowCache => Ok(Reply::CacheShown {
            capacity: engine.capacity(),
            held: engine.held(),
        }),
        Statement::Check | Statement::Reclaim => {
            do_checks(alloc, host, engine, statement, danger)
        }
        Statement::CreateTable { .. }
        | Statement::DropTable { .. }
        | Statement::Insert { .. }
        | Statement::Update { .. }
        | Statement::Delete { .. }
        | Statement::Get { .. }
        | Statement::Scan { .. } => do_on_tables(alloc, host, engine, statement),
        _ => unreachable!(),
    }
}

/// The reply to a statement: what it answered, or its refusal. A failure is passed on.
pub fn reply_to(answer: Result<Reply, Fault>) -> Result<Reply, RunError>
    ensures said { (said : Option Reply) → Says some_said answer said → IfOk result (λ reply. said ≡ Some reply) }
    ensures ended { OnOk result (HasEnded answer) }
    ensures failed { IfErr result (λ error. answer ≡ Err (as_fault error)) }
    ensures cause { (before after : FaultCount) → CountsDevice answer before after → CountsRun result before after }
{
    match answer {
        Ok(reply) => Ok(reply),
        Err(Fault::Refused(refusal)) => Ok(Reply::Refused { refusal }),
        Err(Fault::Device) => Err(RunError::Device),
        Err(Fault::Memory) => Err(RunError::Memory),
    }
}

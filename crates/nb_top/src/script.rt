// A script is run: its database is created or opened, and its sessions take their turns.
ghost use Rattle.std.specs.Prelude.{◌≡◌, ◌⊎◌, ℕ, ◌<◌, List, [], None, Ok, Err, IsTrue, IfOk, IfErr, if◌then◌else◌};
ghost use Rattle.nb_fields.specs.Fresh.{fresh};
ghost use Rattle.nb_host.specs.declared.faults.Fault.TheVariants.{Refused};
ghost use Rattle.nb_host.specs.Causes.{CountsDevice, CountsRun, FaultCount};
ghost use Rattle.nb_change.specs.Gave.{GaveNothing};
ghost use Rattle.nb_page.specs.Quiet.{Quiet};
ghost use Rattle.nb_model.specs.Account.{Base};
ghost use Rattle.nb_model.specs.Gifts.{Foretells};
ghost use Rattle.nb_model.specs.Going.{IsMaking};
ghost use Rattle.nb_model.specs.Lines.{line_text};
ghost use Rattle.nb_model.specs.Run.{Event, Now, base_now, begun};
ghost use Rattle.nb_model.specs.Steps.{after_steps, steps_in};
ghost use Rattle.nb_model.specs.Strokes.{Stroke};
ghost use Rattle.nb_model.specs.Trail.{Trail, settled as settled_trail};
ghost use Rattle.nb_model.specs.declared.reply.Reply.TheVariants.{Refused as RefusedReply};
ghost use Rattle.nb_model.specs.declared.statement.Statement.{Statement};
ghost use Rattle.nb_model.specs.declared.statement.Statement.TheVariants.{CreateDb, OpenDb};
ghost use Rattle.nb_state.specs.Open.{IsOpen, NoPageWaits};
ghost use Rattle.nb_state.specs.Beginnings.{Attaches, Creates};
ghost use Rattle.nb_script.specs.Asked.{IsFirst, IsAskable};
ghost use Rattle.nb_session.specs.Acts.{Grows};
ghost use Rattle.nb_session.specs.Dangers.{alone, danger_after};
ghost use Rattle.nb_session.specs.Ready.{IsReady};
ghost use Rattle.nb_session.specs.Says.{SaysLine};
ghost use Rattle.nb_session.specs.Told.{told_events};
ghost use Rattle.nb_top.specs.ByTurns.{RunsOpened, TakesTold};
ghost use Rattle.nb_top.specs.Performed.{cache_asked, first_event, is_all, opened_reply, told_first, told_later};
ghost use Rattle.nb_ended.specs.Numbers.{number_of};
ghost use Rattle.nb_top.specs.Dangers.{FindsIn};
ghost use Rattle.nb_top.specs.Ends.{EndsAs};
ghost use Rattle.nb_top.specs.Goes.{Goes};
ghost use Rattle.nb_top.specs.Requests.{Runs, ToRun};

use crate::telling::Telling;
use nb_ended::Status;
use nb_engine::Engine;
use nb_host::{Fault, Host, Refusal, RunError};
use nb_model::{PageList, Reply, Statement};
use nb_script::Script;
use nb_session::{Told, say, take_turns};
use std::alloc::Global;

/// What was answered: a value or a refusal; otherwise the run ends.
pub fn settled<T>(answer: Result<T, Fault>) -> Result<Result<T, Refusal>, RunError>
    ensures value { IfOk result (λ settled. IfOk settled (λ value. answer ≡ Ok value)) }
    ensures refusal { IfOk result (λ settled. IfErr settled (λ refusal. answer ≡ Err (Refused refusal))) }
    ensures cause { (before after : FaultCount) → CountsDevice answer before after → CountsRun result before after }
{
    match answer {
        Ok(value) => Ok(Ok(value)),
        Err(Fault::Refused(refusal)) => Ok(Err(refusal)),
        Err(Fault::Device) => Err(RunError::Device),
        Err(Fault::Memory) => Err(RunError::Memory),
    }
}

/// Says a refusal, which ends the job.
pub fn refuse<H: Host>(
    alloc: Global,
    host: &mut H,
    session: u32,
    refusal: Refusal,
) -> Result<Status, RunError>
    ensures ok { IfOk result (λ status. status ≡ Status.Refused) }
    ensures line { IsTrue H.tells → SaysLine result (H.world host.old) (H.world host.new) (line_text session (RefusedReply refusal)) }
    ensures gave { GaveNothing (H.world host.old) (H.world host.new) }
    ensures cause { CountsRun result (H.faults host.old) (H.faults host.new) }
{
    say(alloc, host, session, &Reply::Refused { refusal })?;
    Ok(Status::Refused)
}

/// Creates or opens the database of the first statement.
fn open<H: Host>(alloc: Global, host: &mut H, first: &Statement) -> Result<Engine, Fault>
    requires { IsFirst first.now }
    ensures creates { (name : List ℕ) (size raw cache : ℕ) → IsTrue H.tells → first.now ≡ CreateDb name size raw cache
        → Creates result (H.world host.old) (H.world host.new) name (fresh size raw) }
    ensures attaches { (name : List ℕ) (cache : ℕ) → IsTrue H.tells → first.now ≡ OpenDb name cache → Attaches result (H.world host.old) (H.world host.new) name }
    ensures quiet { (name : List ℕ) (cache : ℕ) → first.now ≡ OpenDb name cache → Quiet (H.world host.old) (H.world host.new) }
    ensures scn { IfOk result (λ engine. engine.scn < 4294967296) }
    ensures cap { IfOk result (λ engine. engine.cap ≡ cache_asked first.now) }
    ensures cause { CountsDevice result (H.faults host.old) (H.faults host.new) }
{
    match first {
        Statement::CreateDb {
            name,
            page_size,
            raw,
            cache,
        } => Engine::create(alloc, host, name, *page_size, *raw, *cache),
        Statement::OpenDb { name, cache } => Engine::attach(alloc, host, name, *cache),
        _ => unreachable!(),
    }
}

/// What the first statement says of the database that it has opened, with so many pages, in that backup state.
fn first_reply(first: &Statement, pages: u32, state: u16) -> Reply
    ensures { result ≡ opened_reply first.now pages state }
{
    match first {
        Statement::OpenDb { .. } => Reply::Opened { pages, state },
        _ => Reply::Pages { pages },
    }
}

/// Says the reply of the first statement that has opened the database, where every reply is told.
fn say_opened<H: Host>(
    alloc: Global,
    host: &mut H,
    engine: &Engine,
    script: &Script,
    telling: Telling,
) -> Result<(), RunError>
    ensures line { IsTrue H.tells → SaysLine result (H.world host.old) (H.world host.new)
        (if is_all telling then line_text script.now.first_session (opened_reply script.now.first engine.now.files.count engine.now.files.state) else []) }
    ensures gave { GaveNothing (H.world host.old) (H.world host.new) }
    ensures cause { CountsRun result (H.faults host.old) (H.faults host.new) }
{
    match telling {
        Telling::Quietly | Telling::WithSize | Telling::Sparingly => Ok(()),
        Telling::All => {
            let reply = first_reply(script.first(), engine.count(), engine.store().state());
            say(alloc, host, script.first_session(), &reply)
        }
    }
}

/// How much of their replies the sessions say, on a database of so many pages.
fn told_by(telling: Telling, pages: u32) -> Told
    ensures { (events : List Event) → told_events result events ≡ told_later telling pages events }
{
    match telling {
        Telling::All | Telling::Quietly => Told::Whole,
        Telling::WithSize => Told::WithPages { pages },
        Telling::Sparingly => Told::Sparingly,
    }
}

/// The sessions take their turns, and say so much of them; no page waits then. Answers whether a statement was refused. Where there is one alone,
/// what it has found in danger is `danger` then.
fn take_told<H: Host>(
    alloc: Global,
    host: &mut H,
    engine: &mut Engine,
    script: &Script,
    telling: Telling,
    danger: &mut Option<PageList>,
) -> Result<bool, RunError>
    requires askable { IsAskable script.now }
    ensures plays { IsTrue H.tells → (shown : List ℕ) × ((now : Now) (t : Trail) → IsReady (H.world host.old) engine.old t now → now.todo ≡ begun script.now.sessions → IsMaking now
        → Foretells now.given shown (H.world host.old) (H.world host.new)
        → TakesTold H.world result host.old host.new engine.old engine.new t telling engine.old.files.count now script.now.schedule) }
    ensures none_waits { IfOk result (λ refused. NoPageWaits engine.new) }
    ensures danger { (statement : Statement) (t : Trail) → IsTrue H.tells → IsOpen (H.world host.old) engine.old t → script.now.sessions ≡ alone statement
        → IfOk result (λ refused. danger.new ≡ danger_after statement t.base.image None) }
    ensures grows { (now : Now) (t : Trail) → IsTrue H.tells → IsReady (H.world host.old) engine.old t now → now.todo ≡ begun script.now.sessions → IsMaking now
        → Grows (H.world host.old) (H.world host.new) }
    ensures cause { CountsRun result (H.faults host.old) (H.faults host.new) }
{
    let told = told_by(telling, engine.count());
    take_turns(alloc, host, engine, script, told, danger)
}

/// Says the reply of the first statement, where every reply is told, and then the sessions take their turns. Answers whether a statement
/// was refused. Where there is one alone, what it has found in danger is `danger` then.
fn run_opened<H: Host>(
    alloc: Global,
    host: &mut H,
    engine: &mut Engine,
    script: &Script,
    telling: Telling,
    danger: &mut Option<PageList>,
) -> Result<bool, RunError>
    requires askable { IsAskable script.now }
    ensures plays { IsTrue H.tells → (shown : List ℕ) × ((now : Now) (start : Base) (strokes : List Stroke) → IsReady (H.world host.old) engine.old (settled_trail (base_now now)) now → now.todo ≡ begun script.now.sessions
        → IsMaking now → Foretells now.given shown (H.world host.old) (H.world host.new)
        → after_steps (settled_trail start) (steps_in (first_event script.now.first_session strokes (opened_reply script.now.first engine.old.files.count engine.old.files.state))) ≡ settled_trail (base_now now)
        → RunsOpened H.world result host.old host.new engine.old engine.new start
        (told_first telling (first_event script.now.first_session strokes (opened_reply script.now.first engine.old.files.count engine.old.files.state))) telling engine.old.files.count now script.now) }
    ensures none_waits { IfOk result (λ refused. NoPageWaits engine.new) }
    ensures danger { (statement : Statement) (t : Trail) → IsTrue H.tells → IsOpen (H.world host.old) engine.old t → script.now.sessions ≡ alone statement
        → IfOk result (λ refused. danger.new ≡ danger_after statement t.base.image None) }
    ensures grows { (now : Now) → IsTrue H.tells → IsReady (H.world host.old) engine.old (settled_trail (base_now now)) now → now.todo ≡ begun script.now.sessions → IsMaking now
        → Grows (H.world host.old) (H.world host.new) }
    ensures cause { CountsRun result (H.faults host.old) (H.faults host.new) }
{
    say_opened(alloc, host, engine, script, telling)?;
    take_told(alloc, host, engine, script, telling, danger)
}

/// The status of a run to its end.
fn ended(refused: bool) -> Status
    ensures number { number_of result ≡ (if refused then 1 else 0) }
    ensures ended { (result ≡ Status.Done) ⊎ (result ≡ Status.Refused) }
{
    if refused {
        Status::Refused
    } else {
        Status::Done
    }
}

/// How a run ends whose turns ended so.
fn ended_as(refused: Result<bool, RunError>) -> Result<Status, RunError>
    ensures ended { EndsAs refused result }
    ensures done { IfOk result (λ status. (status ≡ Status.Done) ⊎ (status ≡ Status.Refused)) }
    ensures cause { (before after : FaultCount) → CountsRun refused before after → CountsRun result before after }
{
    match refused {
        Ok(refused) => Ok(ended(refused)),
        Err(error) => Err(error),
    }
}

/// Runs a script: its first statement, and then the turns of its sessions to their end, and tells so much of it. A first statement that is
/// refused ends it. Where it opens a database, and one statement comes after that, what this has found in danger is `danger` then.
pub fn run_script<H: Host>(
    alloc: Global,
    host: &mut H,
    script: &Script,
    telling: Telling,
    danger: &mut Option<PageList>,
) -> Result<Status, RunError>
    requires askable { IsAskable script.now }
    ensures goes { Goes H.world H.tells result host.old host.new (Runs (Ok (ToRun script.now telling))) }
    ensures danger { (name : List ℕ) (cache : ℕ) (statement : Statement) → IsTrue H.tells → script.now.first ≡ OpenDb name cache → script.now.sessions ≡ alone statement
        → IfOk result (λ status. FindsIn (H.world host.old).files name statement danger.new) }
    ensures done { IfOk result (λ status. (status ≡ Status.Done) ⊎ (status ≡ Status.Refused)) }
    ensures cause { CountsRun result (H.faults host.old) (H.faults host.new) }
{
    match settled(open(alloc, host, script.first()))? {
        Ok(mut engine) => {
            ended_as(run_opened(alloc, host, &mut engine, script, telling, danger))
        }
        Err(refusal) => refuse(alloc, host, script.first_session(), refusal),
    }
}

// Jobs of one turn: a call of a crate below takes the turn, and its reply is said.
ghost use Rattle.std.specs.Prelude.{◌≡◌, ◌⊎◌, ◌≤◌, length, IsTrue, IfOk};
ghost use Rattle.nb_host.specs.Causes.{CountsDevice, CountsRun};
ghost use Rattle.nb_catalog.specs.Turns.{plan_turn};
ghost use Rattle.nb_fold.specs.Verdict.{fold_turn};
ghost use Rattle.nb_model.specs.Account.{Account};
ghost use Rattle.nb_model.specs.Jobs.{apply_turn, fixup_turn, restore_turn};
ghost use Rattle.nb_model.specs.Lines.{line_text};
ghost use Rattle.nb_session.specs.Says.{SaysLine};
ghost use Rattle.nb_top.specs.OneTurn.{FitsDeed, fixing, folding, merging, one_turn, planning, restoring};
ghost use Rattle.nb_top.specs.Goes.{Goes};
ghost use Rattle.nb_top.specs.Requests.{Does};
ghost use Rattle.nb_top.specs.Served.{Serves, reply_told, status_told};

use crate::script::{refuse, settled};
use nb_catalog::{named, plan_files};
use nb_ended::Status;
use nb_fixup::fix_up;
use nb_fold::fold;
use nb_host::{Fault, Host, Name, Refusal, RunError};
use nb_inplace::apply;
use nb_level::LevelHead;
use nb_model::{Deed, Reply};
use nb_restore::restore;
use nb_session::say;
use std::alloc::Global;

/// Restores a chain of 1 to 10 backup files into a new database, and answers how many pages that has.
fn restored<H: Host>(alloc: Global, host: &mut H, db: &Name, files: &[Name]) -> Result<Reply, Fault>
    requires some { 1 ≤ length files.now }
    requires few { length files.now ≤ 10 }
    ensures serves { (account : Account) → IsTrue H.tells → (restoring (H.world host.old).files db.now files.now).knows account
        → Serves result (H.world host.old) (H.world host.new) (restoring (H.world host.old).files db.now files.now) (restore_turn (H.world host.old).files account db.now files.now) }
    ensures cause { CountsDevice result (H.faults host.old) (H.faults host.new) }
{
    let pages = restore(alloc, host, db, files)?;
    Ok(Reply::Pages { pages })
}

/// Takes a copy of a stalled database to the normal state, in place.
fn fixed<H: Host>(host: &mut H, db: &Name) -> Result<Reply, Fault>
    requires { length db.now ≤ 94 }
    ensures serves { IsTrue H.tells → Serves result (H.world host.old) (H.world host.new) (fixing (H.world host.old).files db.now) (fixup_turn (H.world host.old).files db.now) }
    ensures cause { CountsDevice result (H.faults host.old) (H.faults host.new) }
{
    fix_up(host, db)?;
    Ok(Reply::Done)
}

/// Merges a level file into a standby, in place, and answers how many pages that has then.
fn merged<H: Host>(alloc: Global, host: &mut H, db: &Name, file: &Name) -> Result<Reply, Fault>
    ensures serves { IsTrue H.tells
        → Serves result (H.world host.old) (H.world host.new) (merging (H.world host.old).files db.now file.now) (apply_turn (H.world host.old).files db.now file.now) }
    ensures cause { CountsDevice result (H.faults host.old) (H.faults host.new) }
{
    let pages = apply(alloc, host, db, file)?;
    Ok(Reply::Pages { pages })
}

/// The level in the head of a level file, which is 9 at most.
fn level_of(head: &LevelHead) -> u8
    ensures { head.now.level ≤ 9 → result ≡ head.now.level }
{
    head.level.min(9) as u8
}

/// Folds 2 to 9 consecutive level files into a new one, and answers its level, its SCN, how many pages it has, and its GUID.
fn folded<H: Host>(alloc: Global, host: &mut H, out: &Name, files: &[Name]) -> Result<Reply, Fault>
    requires some { 2 ≤ length files.now }
    requires few { length files.now ≤ 9 }
    ensures serves { (account : Account) → IsTrue H.tells → (folding (H.world host.old).files out.now files.now).knows account
        → Serves result (H.world host.old) (H.world host.new) (folding (H.world host.old).files out.now files.now) (fold_turn (H.world host.old).files account out.now files.now) }
    ensures cause { CountsDevice result (H.faults host.old) (H.faults host.new) }
{
    let made = fold(alloc, host, files, out)?;
    Ok(Reply::Level {
        level: level_of(&made.head),
        scn: made.head.scn,
        pages: made.pages,
        guid: made.head.guid,
    })
}

/// Plans which of these backup files the last restore points need, so many of them, and answers how many files those are, and the names of the
/// others: those that may go, and those from which no chain leads down to level 0.
fn planned<H: Host>(alloc: Global, host: &mut H, keep: u32, files: &[Name]) -> Result<Reply, Fault>
    requires few { length files.now ≤ 1000 }
    ensures serves { IsTrue H.tells
        → Serves result (H.world host.old) (H.world host.new) (planning (H.world host.old).files keep files.now) (plan_turn (H.world host.old).files files.now keep) }
    ensures cause { CountsDevice result (H.faults host.old) (H.faults host.new) }
{
    let plan = plan_files(alloc, host, files, keep)?;
    let dropped = named(alloc, files, plan.dropped())?;
    let orphans = named(alloc, files, plan.orphans())?;
    Ok(Reply::Planned {
        kept: plan.kept(),
        dropped,
        orphans,
    })
}

/// Takes the turn of the deed, and answers its reply.
fn take_turn<H: Host>(alloc: Global, host: &mut H, deed: &Deed) -> Result<Reply, Fault>
    requires { FitsDeed deed.now }
    ensures serves { (account : Account) → IsTrue H.tells → (one_turn (H.world host.old).files deed.now).knows account
        → Serves result (H.world host.old) (H.world host.new) (one_turn (H.world host.old).files deed.now) ((one_turn (H.world host.old).files deed.now).turn account) }
    ensures cause { CountsDevice result (H.faults host.old) (H.faults host.new) }
{
    match deed {
        Deed::Restore { db, files } => restored(alloc, host, db, files.as_slice()),
        Deed::Fixup { db } => fixed(host, db),
        Deed::Apply { db, file } => merged(alloc, host, db, file),
        Deed::Fold { out, files } => folded(alloc, host, out, files.as_slice()),
        Deed::Plan { keep, files } => planned(alloc, host, *keep, files.as_slice()),
    }
}

/// Says the reply of a turn that was taken, or why it was refused.
fn say_taken<H: Host>(
    alloc: Global,
    host: &mut H,
    taken: Result<Reply, Refusal>,
) -> Result<Status, RunError>
    ensures line { IsTrue H.tells → SaysLine result (H.world host.old) (H.world host.new) (line_text 1 (reply_told taken)) }
    ensures ended { IfOk result (λ status. status ≡ status_told taken) }
    ensures done { IfOk result (λ status. (status ≡ Status.Done) ⊎ (status ≡ Status.Refused)) }
    ensures cause { CountsRun result (H.faults host.old) (H.faults host.new) }
{
    match taken {
        Ok(reply) => {
            say(alloc, host, 1, &reply)?;
            Ok(Status::Done)
        }
        Err(refusal) => refuse(alloc, host, 1, refusal),
    }
}

/// Does a deed: takes its turn, and says its reply, or why it is refused.
pub(crate) fn run_turn<H: Host>(
    alloc: Global,
    host: &mut H,
    deed: &Deed,
) -> Result<Status, RunError>
    requires { FitsDeed deed.now }
    ensures goes { Goes H.world H.tells result host.old host.new (Does deed.now) }
    ensures done { IfOk result (λ status. (status ≡ Status.Done) ⊎ (status ≡ Status.Refused)) }
    ensures cause { CountsRun result (H.faults host.old) (H.faults host.new) }
{
    let taken = settled(take_turn(alloc, host, deed))?;
    say_taken(alloc, host, taken)
}

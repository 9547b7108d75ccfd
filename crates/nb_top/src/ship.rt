// A standby is brought up to the state of a primary, part by part.
ghost use Rattle.std.specs.Prelude.{◌≡◌, ◌≢◌, ◌⊎◌, ℕ, List, [], ◌∷◌, true, None, Some, Ok, IsTrue, IfOk, OnOk};
ghost use Rattle.nb_host.specs.Causes.{CountsDevice, CountsFault, CountsRun};
ghost use Rattle.nb_model.specs.Levels.{Contents, read_level};
ghost use Rattle.nb_model.specs.Lines.{line_text};
ghost use Rattle.nb_model.specs.Words.{is_database, is_file};
ghost use Rattle.nb_page.specs.Quiet.{Quiet};
ghost use Rattle.nb_session.specs.Says.{SaysLine};
ghost use Rattle.nb_ship.specs.Steps.{steps_from};
ghost use Rattle.nb_ship.specs.declared.steps.Step.TheVariants.{Apply, Copy, Discard};
ghost use Rattle.nb_top.specs.Done.{GoesOn};
ghost use Rattle.nb_top.specs.OneTurn.{merging};
ghost use Rattle.nb_top.specs.Served.{Serves};
ghost use Rattle.nb_top.specs.Shipped.{IsGone, Removes, ScnSays, ShipGoes, TakesSteps, copying, merge_turn};

use crate::request::script_asking;
use crate::script::{refuse, run_script, settled};
use crate::ship_plan::{ShipPlan, plan_ship};
use crate::telling::Telling;
use nb_ended::Status;
use nb_host::{Fault, Host, HostFault, Name, RunError};
use nb_inplace::apply;
use nb_level::LevelReader;
use nb_model::{Ask, Reply};
use nb_session::say;
use nb_ship::{Step, ship_name};
use std::alloc::Global;

/// The copy: the primary is backed up into the ship file, since that backup. Of its replies refusals alone are said.
fn copy<H: Host>(
    alloc: Global,
    host: &mut H,
    primary: &Name,
    since: &[u8; 16],
    ship: &Name,
) -> Result<Status, RunError>
    requires primary { is_database primary.now ≡ true }
    requires ship { is_file ship.now ≡ true }
    ensures goes { GoesOn H.world H.tells result host.old host.new (copying primary.now since.now ship.now) }
    ensures done { IfOk result (λ status. (status ≡ Status.Done) ⊎ (status ≡ Status.Refused)) }
    ensures cause { CountsRun result (H.faults host.old) (H.faults host.new) }
{
    let ask = Ask::BackupSince {
        guid: *since,
        file: ship.copied(),
    };
    match settled(script_asking(alloc, primary, &ask))? {
        Ok(script) => run_script(alloc, host, &script, Telling::Sparingly, &mut None),
        Err(_) => unreachable!(),
    }
}

/// The SCN of the backup in a level file, by its head.
fn scn_of<H: Host>(alloc: Global, host: &mut H, ship: &Name) -> Result<u32, Fault>
    ensures says { IsTrue H.tells → (bytes : List ℕ) (c : Contents) → (H.world host.old).files ship.now ≡ Some bytes → read_level bytes ≡ Ok c → ScnSays c result }
    ensures quiet { Quiet (H.world host.old) (H.world host.new) }
    ensures cause { CountsDevice result (H.faults host.old) (H.faults host.new) }
{
    let reader = LevelReader::start(alloc, host, ship)?;
    Ok(reader.head().scn)
}

/// The merge: the ship file is merged into the standby, in place. Answers the SCN of its backup, and how many pages the standby has.
fn merge<H: Host>(alloc: Global, host: &mut H, standby: &Name, ship: &Name) -> Result<Reply, Fault>
    requires { ship.now ≢ standby.now }
    ensures serves { IsTrue H.tells
        → Serves result (H.world host.old) (H.world host.new) (merging (H.world host.old).files standby.now ship.now) (merge_turn (H.world host.old).files standby.now ship.now) }
    ensures cause { CountsDevice result (H.faults host.old) (H.faults host.new) }
{
    let pages = apply(alloc, host, standby, ship)?;
    let scn = scn_of(alloc, host, ship)?;
    Ok(Reply::ScnPages { scn, pages })
}

/// The removal: the ship file is gone for good.
fn discard<H: Host>(host: &mut H, ship: &Name) -> Result<(), HostFault>
    ensures removes { IsTrue H.tells → Removes (H.world host.old) (H.world host.new) ship.now }
    ensures gone { IsTrue H.tells → OnOk result (IsGone (H.world host.new) ship.now) }
    ensures cause { CountsFault result (H.faults host.old) (H.faults host.new) }
{
    host.remove(ship)?;
    host.sync(ship)
}

/// Says the reply, where all is done.
fn say_done<H: Host>(alloc: Global, host: &mut H, reply: &Reply) -> Result<Status, RunError>
    ensures line { IsTrue H.tells → SaysLine result (H.world host.old) (H.world host.new) (line_text 1 reply.now) }
    ensures ended { IfOk result (λ status. status ≡ Status.Done) }
    ensures cause { CountsRun result (H.faults host.old) (H.faults host.new) }
{
    say(alloc, host, 1, reply)?;
    Ok(Status::Done)
}

/// The steps after the copy: a merge, and a removal. Then the reply of the merge is said.
fn merge_last<H: Host>(alloc: Global, host: &mut H, standby: &Name) -> Result<Status, RunError>
    requires { is_database standby.now ≡ true }
    ensures takes { (primary since : List ℕ) → IsTrue H.tells → TakesSteps H.world H.tells primary standby.now since (Apply ∷ (Discard ∷ [])) None result host.old host.new }
    ensures done { IfOk result (λ status. (status ≡ Status.Done) ⊎ (status ≡ Status.Refused)) }
    ensures cause { CountsRun result (H.faults host.old) (H.faults host.new) }
{
    let ship = ship_name(standby);
    match settled(merge(alloc, host, standby, &ship))? {
        Ok(reply) => {
            discard(host, &ship)?;
            say_done(alloc, host, &reply)
        }
        Err(refusal) => refuse(alloc, host, 1, refusal),
    }
}

/// All steps from a copy on.
fn from_copy<H: Host>(
    alloc: Global,
    host: &mut H,
    primary: &Name,
    standby: &Name,
    since: &[u8; 16],
) -> Result<Status, RunError>
    requires primary { is_database primary.now ≡ true }
    requires standby { is_database standby.now ≡ true }
    ensures takes { IsTrue H.tells → TakesSteps H.world H.tells primary.now standby.now since.now (steps_from Copy) None result host.old host.new }
    ensures done { IfOk result (λ status. (status ≡ Status.Done) ⊎ (status ≡ Status.Refused)) }
    ensures cause { CountsRun result (H.faults host.old) (H.faults host.new) }
{
    match copy(alloc, host, primary, since, &ship_name(standby))? {
        Status::Done => merge_last(alloc, host, standby),
        Status::Refused => Ok(Status::Refused),
        Status::Usage | Status::Device | Status::Memory => unreachable!(),
    }
}

/// All steps from a removal on.
fn from_discard<H: Host>(
    alloc: Global,
    host: &mut H,
    primary: &Name,
    standby: &Name,
    since: &[u8; 16],
) -> Result<Status, RunError>
    requires primary { is_database primary.now ≡ true }
    requires standby { is_database standby.now ≡ true }
    ensures takes { IsTrue H.tells → TakesSteps H.world H.tells primary.now standby.now since.now (steps_from Discard) None result host.old host.new }
    ensures done { IfOk result (λ status. (status ≡ Status.Done) ⊎ (status ≡ Status.Refused)) }
    ensures cause { CountsRun result (H.faults host.old) (H.faults host.new) }
{
    discard(host, &ship_name(standby))?;
    from_copy(alloc, host, primary, standby, since)
}

/// All steps from a merge on.
fn from_merge<H: Host>(
    alloc: Global,
    host: &mut H,
    primary: &Name,
    standby: &Name,
    since: &[u8; 16],
) -> Result<Status, RunError>
    requires primary { is_database primary.now ≡ true }
    requires standby { is_database standby.now ≡ true }
    ensures takes { IsTrue H.tells → TakesSteps H.world H.tells primary.now standby.now since.now (steps_from Apply) None result host.old host.new }
    ensures done { IfOk result (λ status. (status ≡ Status.Done) ⊎ (status ≡ Status.Refused)) }
    ensures cause { CountsRun result (H.faults host.old) (H.faults host.new) }
{
    let ship = ship_name(standby);
    match settled(merge(alloc, host, standby, &ship))? {
        Ok(_reply) => from_discard(alloc, host, primary, standby, since),
        Err(refusal) => refuse(alloc, host, 1, refusal),
    }
}

/// All steps of a plan.
fn take_steps<H: Host>(
    alloc: Global,
    host: &mut H,
    primary: &Name,
    standby: &Name,
    plan: &ShipPlan,
) -> Result<Status, RunError>
    requires primary { is_database primary.now ≡ true }
    requires standby { is_database standby.now ≡ true }
    ensures takes { IsTrue H.tells → TakesSteps H.world H.tells primary.now standby.now plan.now.since (steps_from plan.now.first) None result host.old host.new }
    ensures done { IfOk result (λ status. (status ≡ Status.Done) ⊎ (status ≡ Status.Refused)) }
    ensures cause { CountsRun result (H.faults host.old) (H.faults host.new) }
{
    match plan.first {
        Step::Copy => from_copy(alloc, host, primary, standby, &plan.since),
        Step::Discard => from_discard(alloc, host, primary, standby, &plan.since),
        Step::Apply => from_merge(alloc, host, primary, standby, &plan.since),
    }
}

/// Ships to a standby: a merge that was stopped is finished, what is of no use under the ship file's name is removed, the primary is backed up since
/// the backup that the standby has then, and that increment is merged and removed. Each part but the copy says nothing where it is done, and the copy
/// nothing but refusals; at the end the SCN of the backup is said, and how many pages the standby has. A refusal ends it, and what was done stays.
pub(crate) fn run_ship<H: Host>(
    alloc: Global,
    host: &mut H,
    primary: &Name,
    standby: &Name,
) -> Result<Status, RunError>
    requires primary { is_database primary.now ≡ true }
    requires standby { is_database standby.now ≡ true }
    ensures goes { ShipGoes H.world H.tells result host.old host.new primary.now standby.now }
    ensures done { IfOk result (λ status. (status ≡ Status.Done) ⊎ (status ≡ Status.Refused)) }
    ensures cause { CountsRun result (H.faults host.old) (H.faults host.new) }
{
    match settled(plan_ship(alloc, host, primary, standby))? {
        Ok(plan) => take_steps(alloc, host, primary, standby, &plan),
        Err(refusal) => refuse(alloc, host, 1, refusal),
    }
}

// What a ship begins with.
ghost use Rattle.std.specs.Prelude.{◌≡◌, ◌≤◌, length, IsTrue, IfOk};
ghost use Rattle.nb_host.specs.Causes.{CountsDevice};
ghost use Rattle.nb_model.specs.Causes.{Tested};
ghost use Rattle.nb_model.specs.Trail.{Trail};
ghost use Rattle.nb_page.specs.Quiet.{Quiet};
ghost use Rattle.nb_state.specs.Open.{IsOpen};
ghost use Rattle.nb_ship.specs.Answers.{Says};
ghost use Rattle.nb_ship.specs.Steps.{since};
ghost use Rattle.nb_top.specs.Shipping.{OpensNormal, is_known, not_asked, ship_plan};

use crate::request::USUAL_CACHE;
use nb_engine::Engine;
use nb_fields::states::NORMAL;
use nb_host::{Fault, Host, Name, Refusal};
use nb_ship::{Found, Look, Step, decide, look};
use std::alloc::Global;

/// The first step of a ship, and the GUID of the backup that its copy goes on from.
#[derive(Drop)]
pub(crate) struct ShipPlan {
    pub first: Step,
    pub since: [u8; 16],
}

/// Opens a primary, which has to be in the normal state. The refusals are those of opening, and `WrongState`.
fn open_normal<H: Host>(alloc: Global, host: &mut H, primary: &Name) -> Result<Engine, Fault>
    requires { length primary.now ≤ 94 }
    ensures opens { IsTrue H.tells → OpensNormal result (H.world host.old).files primary.now (H.world host.new) }
    ensures quiet { Quiet (H.world host.old) (H.world host.new) }
    ensures cause { CountsDevice result (H.faults host.old) (H.faults host.new) }
{
    let engine = Engine::attach(alloc, host, primary, USUAL_CACHE)?;
    let state = engine.store().state();
    if state != NORMAL {
        let found = u32::from(state);
        return Err(Fault::Refused(Refusal::WrongState { found }));
    }
    Ok(engine)
}

/// Whether the history of the primary names the backup of the next increment; what else is found doesn't ask. The refusal is `NotDatabase`, where
/// it asks a history that is broken.
fn is_known<H: Host>(host: &mut H, primary: &mut Engine, found: &Found) -> Result<bool, Fault>
    ensures test { (t : Trail) → IsTrue H.tells → IsOpen (H.world host.old) primary.old t → Tested result (not_asked t.base.image found.now) }
    ensures known { (t : Trail) → IsTrue H.tells → IsOpen (H.world host.old) primary.old t → IfOk result (λ known. known ≡ is_known t.base.image found.now) }
    ensures quiet { Quiet (H.world host.old) (H.world host.new) }
    ensures cause { CountsDevice result (H.faults host.old) (H.faults host.new) }
{
    match found {
        Found::Next(guid) => {
            let row = primary.history_find(host, guid)?;
            Ok(row.is_some())
        }
        Found::Nothing | Found::Broken | Found::Applied | Found::Pending(_) => Ok(false),
    }
}

/// The backup that the copy goes on from: the one that the standby has by then.
fn since(look: &Look, known: bool) -> [u8; 16]
    ensures { result ≡ since look.now.guid look.now.found known }
{
    match look.found {
        Found::Next(guid) => { if known { guid } else { look.guid } }
        Found::Pending(guid) => guid,
        Found::Nothing | Found::Broken | Found::Applied => look.guid,
    }
}

/// What a ship from this primary to this standby begins with. It changes nothing.
///
/// The refusals are, in this order, those of opening the primary; `WrongState`, where it isn't in the normal state; those of `nb_ship::look`; and
/// `NotDatabase`, where the ship file is the next one and the history of the primary breaks its form.
pub(crate) fn plan_ship<H: Host>(
    alloc: Global,
    host: &mut H,
    primary: &Name,
    standby: &Name,
) -> Result<ShipPlan, Fault>
    requires primary { length primary.now ≤ 94 }
    requires standby { length standby.now ≤ 94 }
    ensures plan { IsTrue H.tells → Says (ship_plan (H.world host.old).files primary.now standby.now) result }
    ensures quiet { Quiet (H.world host.old) (H.world host.new) }
    ensures cause { CountsDevice result (H.faults host.old) (H.faults host.new) }
{
    let mut engine = open_normal(alloc, host, primary)?;
    let look = look(alloc, host, standby)?;
    let known = is_known(host, &mut engine, &look.found)?;
    Ok(ShipPlan {
        first: decide(&look, known),
        since: since(&look, known),
    })
}

// What a standby and its ship file are.
ghost use Rattle.std.specs.Prelude.{◌≡◌, ◌+◌, ◌≤◌, ℕ, List, IfOk, IsTrue, OnOk, length};
ghost use Rattle.nb_fields.specs.Header.{is_header};
ghost use Rattle.nb_host.specs.Causes.{CountsDevice, CountsFault, FaultCount};
ghost use Rattle.nb_host.specs.declared.faults.Fault.TheVariants.{Refused};
ghost use Rattle.nb_host.specs.declared.refusals.Refusal.TheVariants.{Unfinished};
ghost use Rattle.nb_model.specs.Levels.{Contents};
ghost use Rattle.nb_level.specs.Heads.{head_of};
ghost use Rattle.nb_page.specs.Free.{has_delta, is_free_name};
ghost use Rattle.nb_page.specs.Header.{header_in};
ghost use Rattle.nb_page.specs.Quiet.{Quiet};
ghost use Rattle.nb_inplace.specs.Standby.{IsStandby};
ghost use Rattle.nb_ship.specs.Names.{ship_of};
ghost use Rattle.nb_ship.specs.Answers.{HeadSays, Says};
ghost use Rattle.nb_ship.specs.Reads.{ReadsOnce};
ghost use Rattle.nb_ship.specs.Looks.{by_head, by_pending, by_ship, found_in, is_foreign, look_at, read_in};

use crate::{Found, Look, ship_name};
use nb_chain::whole;
use nb_fields::layouts::header;
use nb_host::{Fault, Host, HostFault, MOST_BASE_NAME, Name, Refusal};
use nb_inplace::{Standby, read_standby};
use nb_level::LevelHead;
use nb_page::{Header, is_free, read_header};
use std::alloc::Global;

/// The head of the level file of that name, and none where no level file stands there.
fn read_increment<H: Host>(
    alloc: Global,
    host: &mut H,
    ship: &Name,
) -> Result<Option<LevelHead>, Fault>
    ensures answer { IsTrue H.tells → HeadSays (read_in (H.world host.old).files ship.now) result }
    ensures quiet { Quiet (H.world host.old) (H.world host.new) }
    ensures reads { IsTrue H.tells → IfOk result (λ found. ReadsOnce (read_in (H.world host.old).files ship.now) 2 (H.world host.old).reads (H.world host.new).reads) }
    ensures cause { CountsDevice result (H.faults host.old) (H.faults host.new) }
{
    match whole(alloc, host, ship) {
        Ok(head) => Ok(Some(head)),
        Err(Fault::Refused(_)) => Ok(None),
        Err(fault) => Err(fault),
    }
}

/// The ship file of a standby into which a merge was stopped. The refusal is `Unfinished`, where it isn't the one that was being merged.
fn find_pending<H: Host>(
    alloc: Global,
    host: &mut H,
    standby: &Header,
    ship: &Name,
) -> Result<Found, Fault>
    ensures answer { IsTrue H.tells → (bytes : List ℕ) → standby.now ≡ header_in bytes
        → Says (by_pending bytes (read_in (H.world host.old).files ship.now)) result }
    ensures quiet { Quiet (H.world host.old) (H.world host.new) }
    ensures reads { IsTrue H.tells → IfOk result (λ found. ReadsOnce (read_in (H.world host.old).files ship.now) 2 (H.world host.old).reads (H.world host.new).reads) }
    ensures cause { CountsDevice result (H.faults host.old) (H.faults host.new) }
{
    let Some(head) = read_increment(alloc, host, ship)? else {
        return Err(Fault::Refused(Refusal::Unfinished));
    };
    if standby.pending != head.guid || standby.guid != head.previous {
        return Err(Fault::Refused(Refusal::Unfinished));
    }
    Ok(Found::Pending(head.guid))
}

/// Whether the bytes that a file begins with are the header of a database.
fn is_database(first: &[u8]) -> bool
    ensures { result ≡ is_header first.now }
{
    if first.len() < header::LENGTH {
        return false;
    }
    read_header(first).is_some()
}

/// Whether a file isn't the job's own: it is a database, or a difference file stands beside it.
fn is_foreign<H: Host>(host: &mut H, name: &Name) -> Result<bool, HostFault>
    ensures answer { IsTrue H.tells → IfOk result (λ foreign. foreign ≡ is_foreign (H.world host.old).files name.now) }
    ensures quiet { Quiet (H.world host.old) (H.world host.new) }
    ensures reads { IsTrue H.tells → OnOk result ((H.world host.new).reads ≡ (H.world host.old).reads + 1) }
    ensures cause { CountsFault result (H.faults host.old) (H.faults host.new) }
{
    let mut first = [0; header::LENGTH];
    let count = host.read_at(name, 0, &mut first)?;
    let has_delta = stands_beside(host, name)?;
    Ok(is_database(&first[..count]) || has_delta)
}

/// Whether a difference file stands beside a name that a database may have.
#[tactic(auto, unfolding(nb_page::specs::Free::has_delta))]
fn stands_beside<H: Host>(host: &mut H, name: &Name) -> Result<bool, HostFault>
    ensures answer { IsTrue H.tells
        → IfOk result (λ beside. beside ≡ has_delta (H.world host.old).files name.now) }
    ensures quiet { Quiet (H.world host.old) (H.world host.new) }
    ensures reads { (H.world host.new).reads ≡ (H.world host.old).reads }
    ensures cause { CountsFault result (H.faults host.old) (H.faults host.new) }
{
    if name.as_str().len() > MOST_BASE_NAME {
        return Ok(false);
    }
    let size = host.size(&name.delta())?;
    Ok(size.is_some())
}

/// What a level file of that head is to a standby with that GUID. The refusal is `ChainGuid`.
fn find_level(guid: &[u8; 16], head: &LevelHead, ship: &Name) -> Result<Found, Fault>
    ensures answer { (c : Contents) → c.head ≡ head_of head.now → Says (by_head guid.now ship.now c.head) result }
    ensures cause { (faults : FaultCount) → CountsDevice result faults faults }
{
    if head.guid == *guid {
        Ok(Found::Applied)
    } else if head.previous == *guid {
        Ok(Found::Next(head.guid))
    } else {
        Err(Fault::Refused(Refusal::ChainGuid {
            name: ship.copied(),
            found: head.previous,
            wanted: *guid,
        }))
    }
}

/// The ship file of a read-only standby with that GUID, in the normal state. The refusals are `FileExists` and `ChainGuid`.
fn find_next<H: Host>(
    alloc: Global,
    host: &mut H,
    guid: &[u8; 16],
    ship: &Name,
) -> Result<Found, Fault>
    ensures answer { IsTrue H.tells
        → Says (by_ship guid.now ship.now (is_free_name (H.world host.old).files ship.now) (is_foreign (H.world host.old).files ship.now) (read_in (H.world host.old).files ship.now)) result }
    ensures quiet { Quiet (H.world host.old) (H.world host.new) }
    ensures reads { IsTrue H.tells → IfOk result (λ found. ReadsOnce (read_in (H.world host.old).files ship.now) 4 (H.world host.old).reads (H.world host.new).reads) }
    ensures cause { CountsDevice result (H.faults host.old) (H.faults host.new) }
{
    if is_free(host, ship)? {
        return Ok(Found::Nothing);
    }
    if is_foreign(host, ship)? {
        return Err(Fault::Refused(Refusal::FileExists {
            name: ship.copied(),
        }));
    }
    match read_increment(alloc, host, ship)? {
        Some(head) => find_level(guid, &head, ship),
        None => Ok(Found::Broken),
    }
}

/// The ship file of a standby. The refusals are those of `find_pending` where a merge was stopped, and otherwise `Access`, and then those of
/// `find_next`.
fn find<H: Host>(
    alloc: Global,
    host: &mut H,
    standby: &Standby,
    ship: &Name,
) -> Result<Found, Fault>
    ensures answer { IsTrue H.tells → (name bytes : List ℕ) → IsStandby bytes standby.now → ship.now ≡ ship_of name
        → Says (found_in (H.world host.old).files name bytes) result }
    ensures quiet { Quiet (H.world host.old) (H.world host.new) }
    ensures reads { IsTrue H.tells → IfOk result (λ found. ReadsOnce (read_in (H.world host.old).files ship.now) 4 (H.world host.old).reads (H.world host.new).reads) }
    ensures cause { CountsDevice result (H.faults host.old) (H.faults host.new) }
{
    if standby.is_begun {
        find_pending(alloc, host, &standby.header, ship)
    } else if standby.is_read_only {
        find_next(alloc, host, &standby.header.guid, ship)
    } else {
        Err(Fault::Refused(Refusal::Access { found: 0 }))
    }
}

/// Looks at a standby and at its ship file, once. It changes nothing.
///
/// The refusals are `NoFile`, `NotDatabase` and `WrongState` of the standby, in state 3 `Unfinished`, where the ship file isn't the one
/// that was being merged; `Access`, where the standby may be written; `FileExists`, where a database stands under the ship file's name, or
/// a difference file beside it; and `ChainGuid`, where it is a level file that doesn't go on from the standby. A level file is read once, from
/// front to back. It takes memory for two pages.
pub fn look<H: Host>(alloc: Global, host: &mut H, standby: &Name) -> Result<Look, Fault>
    requires { length standby.now ≤ 94 }
    ensures answer { IsTrue H.tells → Says (look_at (H.world host.old).files standby.now) result }
    ensures quiet { Quiet (H.world host.old) (H.world host.new) }
    ensures reads { IsTrue H.tells → IfOk result (λ found. ReadsOnce (read_in (H.world host.old).files (ship_of standby.now)) 5 (H.world host.old).reads (H.world host.new).reads) }
    ensures cause { CountsDevice result (H.faults host.old) (H.faults host.new) }
{
    let at = read_standby(host, standby)?;
    let found = find(alloc, host, &at, &ship_name(standby))?;
    Ok(Look {
        guid: at.header.guid,
        found,
    })
}

// Whether a level file is the one to merge into a standby.
ghost use Rattle.std.specs.Prelude.{◌≡◌, IfOk, IsTrue, OnOk, ◌+◌, ◌≤◌};
ghost use Rattle.nb_host.specs.Causes.{CountsDevice, FaultCount};
ghost use Rattle.nb_host.specs.declared.refusals.Refusal.TheVariants.{ChainSize};
ghost use Rattle.nb_model.specs.Levels.{Contents};
ghost use Rattle.nb_page.specs.Header.{HasForm};
ghost use Rattle.nb_page.specs.Quiet.{Quiet};
ghost use Rattle.nb_level.specs.Heads.{head_of};
ghost use Rattle.nb_chain.specs.Most.{level_most};
ghost use Rattle.nb_model.specs.Causes.{TestedByReads};
ghost use Rattle.nb_inplace.specs.Accepted.{AcceptSays};
ghost use Rattle.nb_inplace.specs.Standby.{IsWholeStandby};
ghost use Rattle.nb_inplace.specs.Tests.{not_the_same, not_behind, head_cause};

use crate::standby::{Standby, read_standby};
use nb_chain::whole;
use nb_host::{Fault, Host, Name, Refusal};
use nb_level::{LevelHead, LevelReader};
use std::alloc::Global;

/// The refusal of a level file whose pages have another size than the standby's.
fn other_size(standby: &Standby, head: &LevelHead, file: &Name) -> Refusal
    ensures { result ≡ ChainSize file.now head.now.page_size standby.now.header.page_size }
{
    Refusal::ChainSize {
        name: file.copied(),
        found: head.page_size,
        wanted: standby.header.page_size,
    }
}

/// Whether the file finishes the merge that was begun: it has the GUID that is pending, and goes on from the standby's backup. The refusals
/// are `Unfinished` and `ChainSize`.
#[tactic(auto, unfolding(nb_model::specs::Causes::first_cause))]
fn finishes(standby: &Standby, head: &LevelHead, file: &Name) -> Result<(), Fault>
    ensures test { (c : Contents) → c.head ≡ head_of head.now → TestedByReads result (not_the_same standby.now file.now c) }
    ensures size { OnOk result (head.now.page_size ≡ standby.now.header.page_size) }
    ensures cause { (faults : FaultCount) → CountsDevice result faults faults }
{
    let header = &standby.header;
    let refusal = if header.pending != head.guid || header.guid != head.previous {
        Refusal::Unfinished
    } else if head.page_size != header.page_size {
        other_size(standby, head, file)
    } else {
        return Ok(());
    };
    Err(Fault::Refused(refusal))
}

/// Whether the file goes on from the standby as it stands, and no statement may change that. The refusals are `ChainGuid`, `ChainSize`,
/// `ChainScn` and `Access`.
#[tactic(auto, unfolding(nb_model::specs::Causes::first_cause))]
fn goes_on(standby: &Standby, head: &LevelHead, file: &Name) -> Result<(), Fault>
    requires { HasForm standby.now.header }
    ensures test { (c : Contents) → c.head ≡ head_of head.now → TestedByReads result (not_behind standby.now file.now c) }
    ensures size { OnOk result (head.now.page_size ≡ standby.now.header.page_size) }
    ensures cause { (faults : FaultCount) → CountsDevice result faults faults }
{
    let header = &standby.header;
    let refusal = if head.previous != header.guid {
        Refusal::ChainGuid {
            name: file.copied(),
            found: head.previous,
            wanted: header.guid,
        }
    } else if head.page_size != header.page_size {
        other_size(standby, head, file)
    } else if head.previous_scn != header.scn - 1 {
        Refusal::ChainScn {
            name: file.copied(),
            found: head.previous_scn,
            wanted: header.scn - 1,
        }
    } else if !standby.is_read_only {
        Refusal::Access { found: 0 }
    } else {
        return Ok(());
    };
    Err(Fault::Refused(refusal))
}

/// Whether the level file of that head is merged into the standby, as far as the head says. The refusals are those of `finishes` where a
/// merge was begun, and otherwise those of `goes_on`.
fn accept_head(standby: &Standby, head: &LevelHead, file: &Name) -> Result<(), Fault>
    requires { HasForm standby.now.header }
    ensures test { (c : Contents) → c.head ≡ head_of head.now → TestedByReads result (head_cause standby.now file.now c) }
    ensures size { OnOk result (head.now.page_size ≡ standby.now.header.page_size) }
    ensures cause { (faults : FaultCount) → CountsDevice result faults faults }
{
    if standby.is_begun {
        finishes(standby, head, file)
    } else {
        goes_on(standby, head, file)
    }
}

/// Reads what the standby is, and the level file to its end, and accepts the merge as far as the head says. It changes nothing, and answers
/// the standby and the level file, of which no page was read as yet.
///
/// The refusals are those of `read_standby`, then `NoFile` and `BadLevel` of the level file, then those of `accept_head`.
pub(crate) fn accept<H: Host>(
    alloc: Global,
    host: &mut H,
    standby: &Name,
    file: &Name,
) -> Result<(Standby, LevelReader), Fault>
    ensures answer { IsTrue H.tells → AcceptSays (H.world host.old).files standby.now file.now result }
    ensures whole { IfOk result (λ found. IsWholeStandby found.0) }
    ensures size { IfOk result (λ found. found.1.head.page_size ≡ found.0.header.page_size) }
    ensures within { IsTrue H.tells → (H.world host.new).reads ≤ (H.world host.old).reads + (2 + level_most ((H.world host.old).files file.now)) }
    ensures quiet { Quiet (H.world host.old) (H.world host.new) }
    ensures cause { CountsDevice result (H.faults host.old) (H.faults host.new) }
{
    let found = read_standby(host, standby)?;
    let reader = LevelReader::start(alloc, host, file)?;
    whole(alloc, host, file)?;
    accept_head(&found, &reader.head(), file)?;
    Ok((found, reader))
}

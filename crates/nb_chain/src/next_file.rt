ghost use Rattle.std.specs.Prelude.{◌≡◌, ◌+◌, ◌≤◌, IsTrue, true, false, length, ◌==◌, IfOk, OnOk};
ghost use Rattle.nb_fields.specs.Bytes.{number_in};
ghost use Rattle.nb_fields.specs.Header.{signature};
ghost use Rattle.nb_fields.specs.Places.{is_page_size};
ghost use Rattle.nb_host.specs.declared.faults.Fault.TheVariants.{Refused};
ghost use Rattle.nb_host.specs.declared.refusals.Refusal.TheVariants.{BadLevel, ChainLevel};
ghost use Rattle.nb_page.specs.Quiet.{Quiet};
ghost use Rattle.nb_model.specs.Levels.{Contents};
ghost use Rattle.nb_model.specs.Restoring.{not_behind};
ghost use Rattle.nb_host.specs.Causes.{CountsDevice, FaultCount};
ghost use Rattle.nb_level.specs.Heads.{head_of};
ghost use Rattle.nb_model.specs.Causes.{TestedAlone};
ghost use Rattle.nb_chain.specs.Most.{level_most};
ghost use Rattle.nb_chain.specs.Next.{NextSays, tip_link};

use crate::level_file::read_level;
use crate::overlay::Overlay;
use crate::start::read_start;
use crate::tip::Tip;
use nb_fields::layouts::header;
use nb_host::{Fault, Host, Name, Refusal};
use nb_level::{LevelHead, begins_level};
use std::alloc::Global;

/// Whether the signature of a database stands where a file has it that begins with these bytes.
fn is_signed(first: &[u8]) -> bool
    requires { length first.now ≤ 64 }
    ensures { result ≡ (number_in 16 4 first.now == signature) }
{
    first.len() >= 20 && header::Signature::get(first) == header::SIGNATURE
}

/// The refusal of a file in that place of a chain that begins so and not as a level file.
fn no_level(name: &Name, first: &[u8], place: u32) -> Fault
    requires { length first.now ≤ 64 }
    ensures signed { (number_in 16 4 first.now == signature) ≡ true → result ≡ Refused (ChainLevel name.now 0 place) }
    ensures other { (number_in 16 4 first.now == signature) ≡ false → result ≡ Refused (BadLevel name.now 0) }
{
    if is_signed(first) {
        Fault::Refused(Refusal::ChainLevel {
            name: name.copied(),
            found: 0,
            wanted: place,
        })
    } else {
        Fault::Refused(Refusal::BadLevel {
            name: name.copied(),
            at: 0,
        })
    }
}

/// Whether a level file goes on from the file before it, in that place of a chain, which is the level that it has to have. The
/// refusals are `ChainLevel`, `ChainGuid`, `ChainSize` and `ChainScn`, in this order.
#[tactic(auto, unfolding(nb_model::specs::Restoring::not_behind, nb_model::specs::Causes::first_cause))]
pub fn goes_on(head: &LevelHead, last: &Tip, name: &Name, place: u32) -> Result<(), Fault>
    ensures test { (c : Contents) → c.head ≡ head_of head.now → TestedAlone result (not_behind place (tip_link last.now) name.now c) }
    ensures size { OnOk result (head.now.page_size ≡ last.now.page_size) }
    ensures cause { (faults : FaultCount) → CountsDevice result faults faults }
{
    let refusal = if u32::from(head.level) != place {
        Refusal::ChainLevel {
            name: name.copied(),
            found: u32::from(head.level),
            wanted: place,
        }
    } else if head.previous != last.guid {
        Refusal::ChainGuid {
            name: name.copied(),
            found: head.previous,
            wanted: last.guid,
        }
    } else if head.page_size != last.page_size {
        Refusal::ChainSize {
            name: name.copied(),
            found: head.page_size,
            wanted: last.page_size,
        }
    } else if head.previous_scn != last.scn {
        Refusal::ChainScn {
            name: name.copied(),
            found: head.previous_scn,
            wanted: last.scn,
        }
    } else {
        return Ok(());
    };
    Err(Fault::Refused(refusal))
}

/// Reads the file in that place of a chain, after the one before it, and notes its pages.
///
/// The refusals are `NoFile`, `BadLevel` and those of `goes_on`, in this order. Whole pages of a database are refused with
/// `ChainLevel`, as level 0.
pub(crate) fn read_next<H: Host>(
    alloc: Global,
    host: &mut H,
    name: &Name,
    last: &Tip,
    place: u32,
    overlay: &mut Overlay,
) -> Result<Tip, Fault>
    ensures answer { IsTrue H.tells
        → NextSays ((H.world host.old).files name.now) place last.now name.now overlay.old overlay.new (H.world host.old).reads (H.world host.new).reads result }
    ensures within { IsTrue H.tells → (H.world host.new).reads ≤ (H.world host.old).reads + (1 + level_most ((H.world host.old).files name.now)) }
    ensures size { IfOk result (λ tip. IsTrue (is_page_size tip.page_size)) }
    ensures quiet { Quiet (H.world host.old) (H.world host.new) }
    ensures cause { CountsDevice result (H.faults host.old) (H.faults host.new) }
{
    let mut first = [0; header::LENGTH];
    let start = read_start(host, name, &mut first)?;
    let first = &first[..start.got];
    if !begins_level(first) {
        return Err(no_level(name, first, place));
    }
    let head = read_level(alloc, host, name, overlay)?;
    goes_on(&head, last, name, place)?;
    Ok(Tip::of(&head))
}

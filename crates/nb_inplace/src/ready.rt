// A standby is made ready for a merge that is accepted.
ghost use Rattle.std.specs.Prelude.{◌≡◌, ◌+◌, ◌*◌, ◌≤◌, IsTrue, List, OnOk, Some, length};
ghost use Rattle.nb_host.specs.Causes.{CountsDevice};
ghost use Rattle.nb_fields.specs.Places.{is_page_size};
ghost use Rattle.nb_host.specs.Crash.{IsDurable};
ghost use Rattle.nb_model.specs.Image.{Page, first_page};
ghost use Rattle.nb_model.specs.Levels.{joined};
ghost use Rattle.nb_model.specs.Sound.{IsOfSize};
ghost use Rattle.nb_page.specs.Quiet.{Quiet};
ghost use Rattle.nb_restore.specs.Copied.{IsDone};
ghost use Rattle.nb_restore.specs.Most.{piece_length};
ghost use Rattle.nb_model.specs.Causes.{TestedByReads};
ghost use Rattle.nb_inplace.specs.Half.{applying_page};
ghost use Rattle.nb_inplace.specs.Most.{stamps_most};
ghost use Rattle.nb_inplace.specs.Standby.{IsWholeStandby};
ghost use Rattle.nb_inplace.specs.Ready.{ReadySays};
ghost use Rattle.nb_inplace.specs.Tests.{stamp_cause};

use crate::stamps::test_stamps;
use crate::standby::{Standby, no_database};
use nb_fields::layouts::header;
use nb_host::{Fault, Host, Name};
use nb_level::LevelHead;

/// Keeps the standby for good as it stands, and tests that no page of it but page 0 was written since it was restored: none is stamped above
/// that SCN. Where a merge was begun it isn't as it was restored, and not tested. The refusal is `ChainScn`.
fn settle<H: Host>(
    host: &mut H,
    standby: &Name,
    file: &Name,
    found: &Standby,
    scn: u32,
    piece: &mut [u8],
) -> Result<(), Fault>
    requires whole { IsWholeStandby found.now }
    requires piece { length piece.old ≡ piece_length }
    ensures test { IsTrue H.tells → (ps : List Page) → (H.world host.old).files standby.now ≡ Some (joined ps) → IsOfSize found.now.header.page_size ps → length ps ≡ found.now.pages → TestedByReads result (stamp_cause found.now file.now scn ps) }
    ensures within { IsTrue H.tells → (H.world host.new).reads ≤ (H.world host.old).reads + stamps_most found.now.is_begun (found.now.pages * found.now.header.page_size) }
    ensures kept { IsTrue H.tells → OnOk result (IsDurable (H.world host.new) standby.now ((H.world host.old).files standby.now)) }
    ensures quiet { Quiet (H.world host.old) (H.world host.new) }
    ensures cause { CountsDevice result (H.faults host.old) (H.faults host.new) }
{
    host.sync(standby)?;
    if found.is_begun {
        return Ok(());
    }
    let page_size = found.header.page_size;
    test_stamps(host, standby, file, page_size, found.pages, scn, piece)
}

/// Reads page 0 of the standby, as it stands while this GUID is pending.
fn read_page_0<H: Host>(
    host: &mut H,
    standby: &Name,
    guid: &[u8; 16],
    first: &mut [u8],
) -> Result<(), Fault>
    requires { IsTrue (is_page_size (length first.old)) }
    ensures page { IsTrue H.tells → (ps : List Page) → (H.world host.old).files standby.now ≡ Some (joined ps) → IsOfSize (length first.old) ps → 1 ≤ length ps → IsDone result (first.new ≡ applying_page guid.now (first_page ps)) }
    ensures once { IsTrue H.tells → (H.world host.new).reads ≤ (H.world host.old).reads + 1 }
    ensures quiet { Quiet (H.world host.old) (H.world host.new) }
    ensures cause { CountsDevice result (H.faults host.old) (H.faults host.new) }
{
    if !host.read_page(standby, 0, first)? {
        return Err(no_database(0));
    }
    header::Pending::put(first, guid);
    header::State::put(first, 3);
    Ok(())
}

/// Makes the standby ready for its merge: it is kept for good as it stands, none of its pages was written since it was restored, and its
/// page 0 is read, as it stands while the merge goes on. No file changes.
///
/// The refusal is that of `settle`.
pub(crate) fn make_ready<H: Host>(
    host: &mut H,
    standby: &Name,
    file: &Name,
    found: &Standby,
    head: &LevelHead,
    first: &mut [u8],
    piece: &mut [u8],
) -> Result<(), Fault>
    requires whole { IsWholeStandby found.now }
    requires first { length first.old ≡ found.now.header.page_size }
    requires piece { length piece.old ≡ piece_length }
    ensures answer { IsTrue H.tells → (ps : List Page) → (H.world host.old).files standby.now ≡ Some (joined ps) → IsOfSize found.now.header.page_size ps → length ps ≡ found.now.pages
        → ReadySays (stamp_cause found.now file.now head.now.previous_scn ps) (applying_page head.now.guid (first_page ps)) first.new result }
    ensures within { IsTrue H.tells → (H.world host.new).reads ≤ (H.world host.old).reads + (1 + stamps_most found.now.is_begun (found.now.pages * found.now.header.page_size)) }
    ensures kept { IsTrue H.tells → OnOk result (IsDurable (H.world host.new) standby.now ((H.world host.old).files standby.now)) }
    ensures quiet { Quiet (H.world host.old) (H.world host.new) }
    ensures cause { CountsDevice result (H.faults host.old) (H.faults host.new) }
{
    settle(host, standby, file, found, head.previous_scn, piece)?;
    read_page_0(host, standby, &head.guid, first)
}

ghost use Rattle.std.specs.Prelude.{◌≡◌, ◌+◌, ◌*◌, ◌≤◌, IsTrue, List, OnOk, Some, length};
ghost use Rattle.nb_fields.specs.Places.{is_page_size, most_pages};
ghost use Rattle.nb_host.specs.Causes.{CountsDevice, CountsFault};
ghost use Rattle.nb_change.specs.Changes.{Changes, Only, Remade};
ghost use Rattle.nb_change.specs.Gave.{GaveNothing};
ghost use Rattle.nb_model.specs.Image.{Page};
ghost use Rattle.nb_model.specs.Restoring.{Link};
ghost use Rattle.nb_restore.specs.Copied.{IsDone};
ghost use Rattle.nb_restore.specs.Most.{pages_most, piece_length, pieces_in};
ghost use Rattle.nb_restore.specs.Sources.{AreOfPages};
ghost use Rattle.nb_restore.specs.Target.{IsFree, IsFreeOr, IsKept, IsPlan, IsUnfinishedPage, KeepsWhole, ReadsOr, restored};

use crate::first::write_first;
use crate::records::{copy_pages, write_levels};
use nb_fields::layouts::header;
use nb_host::{Fault, Host, HostFault, Name};
use nb_level::LevelReader;

/// Makes the target, and keeps it for good with this page alone, which says that a restore goes on there.
fn begin<H: Host>(host: &mut H, target: &Name, page: &[u8]) -> Result<(), HostFault>
    requires { IsTrue (is_page_size (length page.now)) }
    ensures left { IsTrue H.tells → IsUnfinishedPage page.now → Changes (H.world host.old) (H.world host.new) (Only target.now) (Remade (H.world host.old) target.now IsFree) }
    ensures reads { IsTrue H.tells → IsUnfinishedPage page.now → ReadsOr (H.world host.old) (H.world host.new) target.now IsFree }
    ensures begun { IsTrue H.tells → OnOk result (IsKept (H.world host.new) target.now (Some page.now)) }
    ensures gave { GaveNothing (H.world host.old) (H.world host.new) }
    ensures no_read { (H.world host.new).reads ≡ (H.world host.old).reads }
    ensures cause { CountsFault result (H.faults host.old) (H.faults host.new) }
{
    host.make(target)?;
    host.write_page(target, 0, page)?;
    host.sync(target)
}

/// Makes the target and writes all of its pages. Page 0 in the normal state comes last, when all others are kept for good.
pub(crate) fn write_target<H: Host>(
    host: &mut H,
    target: &Name,
    file: &Name,
    pages: u32,
    readers: Vec<LevelReader>,
    first: &mut [u8],
    page: &mut [u8],
    piece: &mut [u8],
) -> Result<(), Fault>
    requires size { IsTrue (is_page_size (length page.old)) }
    requires most { pages ≤ most_pages }
    requires piece { length piece.old ≡ piece_length }
    requires readers { AreOfPages (length page.old) readers.items }
    requires first { length first.old ≡ length page.old }
    ensures left { IsTrue H.tells → (ps : List Page) (links : List Link) → IsPlan (H.world host.old).files target.now file.now (length page.old) pages readers.items first.old page.old ps links
        → Changes (H.world host.old) (H.world host.new) (Only target.now) (Remade (H.world host.old) target.now (IsFreeOr (restored ps links))) }
    ensures reads { IsTrue H.tells → (ps : List Page) (links : List Link) → IsPlan (H.world host.old).files target.now file.now (length page.old) pages readers.items first.old page.old ps links
        → ReadsOr (H.world host.old) (H.world host.new) target.now (IsFreeOr (restored ps links)) }
    ensures done { IsTrue H.tells → (ps : List Page) (links : List Link) → IsPlan (H.world host.old).files target.now file.now (length page.old) pages readers.items first.old page.old ps links
        → IsDone result (KeepsWhole (H.world host.new) target.now (restored ps links)) }
    ensures within { IsTrue H.tells → (ps : List Page) (links : List Link) → IsPlan (H.world host.old).files target.now file.now (length page.old) pages readers.items first.old page.old ps links
        → (H.world host.new).reads ≤ (H.world host.old).reads + (pieces_in (pages * length page.old) + pages_most links) }
    ensures gave { GaveNothing (H.world host.old) (H.world host.new) }
    ensures cause { CountsDevice result (H.faults host.old) (H.faults host.new) }
{
    begin(host, target, page)?;
    copy_pages(host, target, file, page.len() as u32, pages, piece)?;
    write_levels(host, target, readers, first, page)?;
    header::State::put(first, 0);
    write_first(host, target, first)?;
    Ok(())
}

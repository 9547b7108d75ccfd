ghost use Rattle.std.specs.Prelude.{◌≡◌, ◌+◌, ◌*◌, ◌≤◌, IsTrue, List, OnOk, length, ℕ};
ghost use Rattle.nb_change.specs.Changes.{Changes, Only, Remade};
ghost use Rattle.nb_host.specs.Answers.{IsTaken};
ghost use Rattle.nb_host.specs.Causes.{CountsDevice, CountsFault};
ghost use Rattle.nb_change.specs.Gave.{GaveNothing};
ghost use Rattle.nb_fields.specs.Places.{is_page_size};
ghost use Rattle.nb_host.specs.Crash.{IsDurable, PageLeft};
ghost use Rattle.nb_model.specs.Image.{Page, Numbered};
ghost use Rattle.nb_chain.specs.Most.{RefusedReads};
ghost use Rattle.nb_restore.specs.Target.{IsKept};
ghost use Rattle.nb_inplace.specs.Apply.{Applies};
ghost use Rattle.nb_inplace.specs.Merging.{IsHalfOr, KeepsMerged, begun_file};
ghost use Rattle.nb_inplace.specs.Most.{apply_most, merge_most, refused_most};
ghost use Rattle.nb_inplace.specs.Plan.{IsPlan};
ghost use Rattle.nb_inplace.specs.Standby.{IsWholeStandby};

use crate::accepting::accept;
use crate::counting::count_pages;
use crate::ready::make_ready;
use crate::records::write_records;
use crate::standby::Standby;
use nb_fields::layouts::header;
use nb_host::{Fault, Host, HostFault, Name};
use nb_level::LevelReader;
use nb_restore::write_first;
use std::alloc::Global;

/// How many bytes of the standby are read at a time, to test its stamps.
const PIECE: usize = 262_144;

/// Keeps for good that a merge goes on, by page 0 of the standby. Where it was begun before the page stands there already.
fn begin<H: Host>(
    host: &mut H,
    standby: &Name,
    is_begun: bool,
    first: &[u8],
) -> Result<(), HostFault>
    requires { IsTrue (is_page_size (length first.now)) }
    ensures left { IsTrue H.tells → IsDurable (H.world host.old) standby.now ((H.world host.old).files standby.now)
        → Changes (H.world host.old) (H.world host.new) (Only standby.now) (Remade (H.world host.old) standby.now (PageLeft (0 * length first.now) first.now ((H.world host.old).files standby.now))) }
    ensures done { IsTrue H.tells → IsDurable (H.world host.old) standby.now ((H.world host.old).files standby.now)
        → OnOk result (IsKept (H.world host.new) standby.now (begun_file is_begun ((H.world host.old).files standby.now) first.now)) }
    ensures gave { GaveNothing (H.world host.old) (H.world host.new) }
    ensures no_read { (H.world host.new).reads ≡ (H.world host.old).reads }
    ensures cause { CountsFault result (H.faults host.old) (H.faults host.new) }
{
    if is_begun {
        return Ok(());
    }
    host.write_page(standby, 0, first)?;
    host.sync(standby)
}

/// Merges the level file into the standby, which is kept for good as it was found, and answers how many pages its image has then. Page 0
/// comes last, when all other pages are kept for good.
fn merge<H: Host>(
    host: &mut H,
    standby: &Name,
    found: &Standby,
    reader: &mut LevelReader,
    first: &mut [u8],
    page: &mut [u8],
) -> Result<u32, Fault>
    requires whole { IsWholeStandby found.now }
    requires size { IsTrue (is_page_size (length page.old)) }
    requires reader { reader.old.head.page_size ≡ length page.old }
    requires first { length first.old ≡ length page.old }
    ensures left { IsTrue H.tells → (guid : List ℕ) (ps : List Page) (records : List Numbered) → IsPlan (H.world host.old).files standby.now (length page.old) found.now.pages found.now.is_begun reader.old first.old guid ps records
        → IsDurable (H.world host.old) standby.now ((H.world host.old).files standby.now)
        → Changes (H.world host.old) (H.world host.new) (Only standby.now) (Remade (H.world host.old) standby.now (IsHalfOr (length page.old) records ps first.old)) }
    ensures done { IsTrue H.tells → (guid : List ℕ) (ps : List Page) (records : List Numbered) → IsPlan (H.world host.old).files standby.now (length page.old) found.now.pages found.now.is_begun reader.old first.old guid ps records
        → IsDurable (H.world host.old) standby.now ((H.world host.old).files standby.now) → IsTaken result (KeepsMerged (H.world host.new) standby.now (length page.old) records ps) }
    ensures within { IsTrue H.tells → (guid : List ℕ) (ps : List Page) (records : List Numbered) → IsPlan (H.world host.old).files standby.now (length page.old) found.now.pages found.now.is_begun reader.old first.old guid ps records
        → IsDurable (H.world host.old) standby.now ((H.world host.old).files standby.now) → (H.world host.new).reads ≤ (H.world host.old).reads + merge_most (length page.old) records ps }
    ensures gave { GaveNothing (H.world host.old) (H.world host.new) }
    ensures cause { CountsDevice result (H.faults host.old) (H.faults host.new) }
{
    begin(host, standby, found.is_begun, first)?;
    let pages = write_records(host, standby, found.pages, reader, first, page)?;
    let count = count_pages(host, standby, pages, page)?;
    header::Access::put(first, 1);
    header::Pending::put(first, &[0; 16]);
    header::State::put(first, 0);
    write_first(host, standby, first)?;
    Ok(count)
}

/// Merges a level file into a read-only standby, in place, and answers how many pages the standby's image has then.
///
/// The standby is a database that was restored from the backup which the level file goes on from, was made read-only, and has not been
/// written since. It then is what a restore with the level file at the end of the chain would give: its image with the pages of the level
/// file written over, zeros between where a page lies past the end, and no pages of zeros at the end. Its file is as long as it
/// was, or as the last page of the level file reaches. It is in the normal state, read-only, and with no merge pending. It is kept for good
/// before the call answers.
///
/// A crash, and an answer of `Device`, leave the standby as it was, or half merged, or merged. Half merged it is in the applying state, with
/// the level file's GUID pending, and can't be opened. The same call then finishes the merge, in as many turns as it takes, and the
/// same file alone is accepted.
///
/// The refusals are, in this order: `NoFile`; `NotDatabase`, with the first page that breaks the form; `WrongState`, where the standby is
/// stalled or has a difference file to merge; `NoFile` and `BadLevel` of the level file. Where the standby is half merged these are
/// `Unfinished`, where the file isn't the one that was begun with, and `ChainSize`. Otherwise they are `ChainGuid`, `ChainSize` and
/// `ChainScn`, where the file doesn't go on from the standby's backup; `Access` with 0, where the standby isn't read-only; and `ChainScn`
/// with the first stamp of a page that was written since the restore. A refused call changes nothing. Neither does one that answers
/// `Memory`: all memory is taken before the first write.
///
/// Whatever it answers, the level file is read twice at most, once to check it and once to write its pages, page by page. Unless it is half
/// merged the standby is read once, by pieces of 256 KiB; of the merged one it reads the pages of zeros at the end and the one before them. A
/// call that is refused reads neither again.
pub fn apply<H: Host>(
    alloc: Global,
    host: &mut H,
    standby: &Name,
    file: &Name,
) -> Result<u32, Fault>
    ensures applies { IsTrue H.tells → Applies result (H.world host.old) (H.world host.new) standby.now file.now }
    ensures refused { IsTrue H.tells → RefusedReads result (H.world host.old).reads (refused_most (H.world host.old).files standby.now file.now) (H.world host.new).reads }
    ensures within { IsTrue H.tells → (H.world host.new).reads ≤ (H.world host.old).reads + apply_most (H.world host.old).files standby.now file.now }
    ensures cause { CountsDevice result (H.faults host.old) (H.faults host.new) }
{
    let mut piece = vec![in alloc; 0; PIECE]?;
    let (found, mut reader) = accept(alloc, host, standby, file)?;
    let page_size = found.header.page_size as usize;
    let mut first = vec![in alloc; 0; page_size]?;
    make_ready(
        host,
        standby,
        file,
        &found,
        &reader.head(),
        &mut first,
        &mut piece,
    )?;
    let page = &mut piece[..page_size];
    merge(host, standby, &found, &mut reader, &mut first, page)
}

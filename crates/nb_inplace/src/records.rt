// The pages of a level file are written over those of a standby.
ghost use Rattle.std.specs.Prelude.{◌≡◌, ◌≢◌, ◌+◌, ◌<◌, ◌≤◌, [], ◌∷◌, IfOk, IsTrue, List, Ok, OnOk, Contains, length};
ghost use Rattle.nb_change.specs.Changes.{Changes, Only, Moved};
ghost use Rattle.nb_host.specs.Answers.{IsTaken};
ghost use Rattle.nb_host.specs.Causes.{CountsDevice, CountsFault};
ghost use Rattle.nb_change.specs.Gave.{GaveNothing};
ghost use Rattle.nb_fields.specs.Places.{is_page_size, most_pages};
ghost use Rattle.nb_host.specs.Files.{bytes_of};
ghost use Rattle.nb_model.specs.Image.{Numbered};
ghost use Rattle.nb_level.specs.Reading.{still_to_come};
ghost use Rattle.nb_restore.specs.Copied.{Overwrites};
ghost use Rattle.nb_inplace.specs.Merging.{KeepsHalf, pages_with};

use nb_host::{Fault, Host, HostFault, Name};
use nb_level::{Item, LevelReader};

/// Writes a page of the level file into the standby. Page 0 is only noted: it comes last of all.
fn put_page<H: Host>(
    host: &mut H,
    standby: &Name,
    number: u32,
    page: &[u8],
    first: &mut [u8],
) -> Result<(), HostFault>
    requires size { IsTrue (is_page_size (length page.now)) }
    requires first { length first.old ≡ length page.now }
    requires below { number < most_pages }
    ensures left { IsTrue H.tells → (records : List Numbered) → Contains records (number, page.now)
        → Changes (H.world host.old) (H.world host.new) (Only standby.now) (Moved (H.world host.old) standby.now (KeepsHalf (length page.now) records)) }
    ensures pages { IsTrue H.tells → OnOk result (Overwrites (length page.now) ((number, page.now) ∷ []) ((H.world host.old).files standby.now) ((H.world host.new).files standby.now) first.old first.new) }
    ensures gave { GaveNothing (H.world host.old) (H.world host.new) }
    ensures no_read { (H.world host.new).reads ≡ (H.world host.old).reads }
    ensures cause { CountsFault result (H.faults host.old) (H.faults host.new) }
{
    if number == 0 {
        first.copy_from_slice(page);
        return Ok(());
    }
    host.write_page(standby, number, page)
}

/// Writes the pages of the level file over those of the standby, whose file has so many, and answers how many it has then.
pub(crate) fn write_records<H: Host>(
    host: &mut H,
    standby: &Name,
    pages: u32,
    reader: &mut LevelReader,
    first: &mut [u8],
    page: &mut [u8],
) -> Result<u32, Fault>
    requires size { IsTrue (is_page_size (length page.old)) }
    requires reader { reader.old.head.page_size ≡ length page.old }
    requires first { length first.old ≡ length page.old }
    requires most { pages ≤ most_pages }
    ensures left { IsTrue H.tells → (records : List Numbered) → reader.old.name ≢ standby.now → still_to_come (bytes_of ((H.world host.old).files reader.old.name)) reader.old ≡ Ok records
        → Changes (H.world host.old) (H.world host.new) (Only standby.now) (Moved (H.world host.old) standby.now (KeepsHalf (length page.old) records)) }
    ensures pages { IsTrue H.tells → (records : List Numbered) → reader.old.name ≢ standby.now → still_to_come (bytes_of ((H.world host.old).files reader.old.name)) reader.old ≡ Ok records
        → IsTaken result (λ count. (count ≡ pages_with records pages) × Overwrites (length page.old) records ((H.world host.old).files standby.now) ((H.world host.new).files standby.now) first.old first.new) }
    ensures most { IfOk result (λ count. count ≤ most_pages) }
    ensures within { IsTrue H.tells → (records : List Numbered) → reader.old.name ≢ standby.now → still_to_come (bytes_of ((H.world host.old).files reader.old.name)) reader.old ≡ Ok records
        → (H.world host.new).reads ≤ (H.world host.old).reads + length records + 1 }
    ensures gave { GaveNothing (H.world host.old) (H.world host.new) }
    ensures cause { CountsDevice result (H.faults host.old) (H.faults host.new) }
{
    let mut pages = pages;
    while let Item::PageAt(number) = reader.next(host, page)? {
        put_page(host, standby, number, page, first)?;
        pages = pages.max(number + 1);
    }
    Ok(pages)
}

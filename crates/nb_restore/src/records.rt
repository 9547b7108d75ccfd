ghost use Rattle.std.specs.Prelude.{◌≡◌, ◌≢◌, ◌+◌, ◌*◌, ◌%◌, ◌^◌, ◌++◌, ◌≤◌, ◌<◌, ℕ, IsTrue, List, Ok, OnOk, Some, [], ◌∷◌, length, take, drop};
ghost use Rattle.nb_fields.specs.Places.{is_page_size, most_pages};
ghost use Rattle.nb_host.specs.Causes.{CountsDevice, CountsFault};
ghost use Rattle.nb_host.specs.Files.{bytes_of, with_bytes};
ghost use Rattle.nb_change.specs.Changes.{Changes, Only, Moved};
ghost use Rattle.nb_change.specs.Gave.{GaveNothing};
ghost use Rattle.nb_model.specs.Image.{Page, Numbered};
ghost use Rattle.nb_model.specs.Levels.{joined};
ghost use Rattle.nb_model.specs.Restoring.{Link};
ghost use Rattle.nb_model.specs.Sound.{IsOfSize};
ghost use Rattle.nb_level.specs.Reading.{still_to_come};
ghost use Rattle.nb_restore.specs.Copied.{IsDone, KeepsFront, Overwrites, OverwritesAll};
ghost use Rattle.nb_restore.specs.Most.{pages_most, piece_length, pieces_in};
ghost use Rattle.nb_restore.specs.Sources.{AreOfPages, AreReady};

use nb_host::{Fault, Host, HostFault, Name, Refusal};
use nb_level::{Item, LevelReader};

/// Writes a page of the chain into the target. Page 0 is only noted: it comes last of all.
fn put_page<H: Host>(
    host: &mut H,
    target: &Name,
    number: u32,
    page: &[u8],
    first: &mut [u8],
) -> Result<(), HostFault>
    requires size { IsTrue (is_page_size (length page.now)) }
    requires first { length first.old ≡ length page.now }
    requires below { number < most_pages }
    ensures left { IsTrue H.tells → Changes (H.world host.old) (H.world host.new) (Only target.now) (Moved (H.world host.old) target.now KeepsFront) }
    ensures pages { IsTrue H.tells → OnOk result (Overwrites (length page.now) ((number, page.now) ∷ []) ((H.world host.old).files target.now) ((H.world host.new).files target.now) first.old first.new) }
    ensures gave { GaveNothing (H.world host.old) (H.world host.new) }
    ensures no_read { (H.world host.new).reads ≡ (H.world host.old).reads }
    ensures cause { CountsFault result (H.faults host.old) (H.faults host.new) }
{
    if number == 0 {
        first.copy_from_slice(page);
        return Ok(());
    }
    host.write_page(target, number, page)
}

/// How long the piece of level 0 is that begins at that byte: it ends at a multiple of the longest piece, or where level 0 ends.
fn piece_at(at: u64, end: u64, longest: usize) -> usize
    requires some { 0 < longest }
    requires below { at < end }
    ensures some { 0 < result }
    ensures room { result ≤ longest }
    ensures inside { at + result ≤ end }
    ensures whole { at + result < end → (at + result) % longest ≡ 0 }
{
    let longest = longest as u64 - at % longest as u64;
    longest.min(end - at) as usize
}

/// Copies a piece of level 0, from that byte on, to the end of the target.
fn copy_piece<H: Host>(
    host: &mut H,
    target: &Name,
    file: &Name,
    at: u64,
    piece: &mut [u8],
) -> Result<(), Fault>
    requires { at < 2 ^ 62 }
    ensures left { IsTrue H.tells → Changes (H.world host.old) (H.world host.new) (Only target.now) (Moved (H.world host.old) target.now KeepsFront) }
    ensures bytes { IsTrue H.tells → (bytes : List ℕ) → (H.world host.old).files file.now ≡ Some bytes → at + length piece.old ≤ length bytes
        → IsDone result ((H.world host.new).files target.now ≡ with_bytes ((H.world host.old).files target.now) (take (length piece.old) (drop at bytes))) }
    ensures gave { GaveNothing (H.world host.old) (H.world host.new) }
    ensures once { IsTrue H.tells → (H.world host.new).reads ≤ (H.world host.old).reads + 1 }
    ensures cause { CountsDevice result (H.faults host.old) (H.faults host.new) }
{
    let got = host.read_at(file, at, piece)?;
    if got < piece.len() {
        return Err(Fault::Refused(Refusal::BadLevel {
            name: file.copied(),
            at: at + got as u64,
        }));
    }
    host.append(target, piece)?;
    Ok(())
}

/// Copies level 0 from page 1 on, as it stands there, after the page that the target has. It goes by pieces, not by pages: the
/// system takes large ones with less work.
pub(crate) fn copy_pages<H: Host>(
    host: &mut H,
    target: &Name,
    file: &Name,
    page_size: u32,
    pages: u32,
    piece: &mut [u8],
) -> Result<(), Fault>
    requires size { IsTrue (is_page_size page_size) }
    requires most { pages ≤ most_pages }
    requires piece { length piece.old ≡ piece_length }
    ensures left { IsTrue H.tells → Changes (H.world host.old) (H.world host.new) (Only target.now) (Moved (H.world host.old) target.now KeepsFront) }
    ensures pages { IsTrue H.tells → (ps : List Page) (start : Page) → file.now ≢ target.now → (H.world host.old).files file.now ≡ Some (joined ps) → IsOfSize page_size ps → length ps ≡ pages
        → (H.world host.old).files target.now ≡ Some start → IsDone result ((H.world host.new).files target.now ≡ Some (start ++ drop page_size (joined ps))) }
    ensures gave { GaveNothing (H.world host.old) (H.world host.new) }
    ensures within { IsTrue H.tells → (H.world host.new).reads ≤ (H.world host.old).reads + pieces_in (pages * page_size) }
    ensures cause { CountsDevice result (H.faults host.old) (H.faults host.new) }
{
    let end = u64::from(pages) * u64::from(page_size);
    let mut at = u64::from(page_size);
    while at < end {
        let count = piece_at(at, end, piece.len());
        copy_piece(host, target, file, at, &mut piece[..count])?;
        at += count as u64;
    }
    Ok(())
}

/// Writes the pages of a level file over those of the files before it.
fn write_level<H: Host>(
    host: &mut H,
    target: &Name,
    reader: &mut LevelReader,
    first: &mut [u8],
    page: &mut [u8],
) -> Result<(), Fault>
    requires size { IsTrue (is_page_size (length page.old)) }
    requires reader { reader.old.head.page_size ≡ length page.old }
    requires first { length first.old ≡ length page.old }
    ensures left { IsTrue H.tells → Changes (H.world host.old) (H.world host.new) (Only target.now) (Moved (H.world host.old) target.now KeepsFront) }
    ensures pages { IsTrue H.tells → (records : List Numbered) → reader.old.name ≢ target.now → still_to_come (bytes_of ((H.world host.old).files reader.old.name)) reader.old ≡ Ok records
        → IsDone result (Overwrites (length page.old) records ((H.world host.old).files target.now) ((H.world host.new).files target.now) first.old first.new) }
    ensures within { IsTrue H.tells → (records : List Numbered) → reader.old.name ≢ target.now → still_to_come (bytes_of ((H.world host.old).files reader.old.name)) reader.old ≡ Ok records
        → (H.world host.new).reads ≤ (H.world host.old).reads + length records + 1 }
    ensures gave { GaveNothing (H.world host.old) (H.world host.new) }
    ensures cause { CountsDevice result (H.faults host.old) (H.faults host.new) }
{
    while let Item::PageAt(number) = reader.next(host, page)? {
        put_page(host, target, number, page, first)?;
    }
    Ok(())
}

/// Writes the pages of each level file over those of the files before it, in order.
pub(crate) fn write_levels<H: Host>(
    host: &mut H,
    target: &Name,
    readers: Vec<LevelReader>,
    first: &mut [u8],
    page: &mut [u8],
) -> Result<(), Fault>
    requires size { IsTrue (is_page_size (length page.old)) }
    requires readers { AreOfPages (length page.old) readers.items }
    requires first { length first.old ≡ length page.old }
    ensures left { IsTrue H.tells → Changes (H.world host.old) (H.world host.new) (Only target.now) (Moved (H.world host.old) target.now KeepsFront) }
    ensures pages { IsTrue H.tells → (links : List Link) → AreReady (H.world host.old).files target.now (length page.old) links readers.items
        → IsDone result (OverwritesAll (length page.old) links ((H.world host.old).files target.now) ((H.world host.new).files target.now) first.old first.new) }
    ensures within { IsTrue H.tells → (links : List Link) → AreReady (H.world host.old).files target.now (length page.old) links readers.items → (H.world host.new).reads ≤ (H.world host.old).reads + pages_most links }
    ensures gave { GaveNothing (H.world host.old) (H.world host.new) }
    ensures cause { CountsDevice result (H.faults host.old) (H.faults host.new) }
{
    for mut reader in readers {
        write_level(host, target, &mut reader, first, page)?;
    }
    Ok(())
}

// Whether a page of a standby was written since it was restored, by the stamps.
ghost use Rattle.std.specs.Prelude.{◌≡◌, ◌+◌, ◌*◌, ◌<◌, ◌≤◌, ℕ, List, Some, IsTrue, length, take, drop, option_map};
ghost use Rattle.nb_host.specs.Causes.{CountsDevice};
ghost use Rattle.nb_fields.specs.Places.{is_page_size, most_pages};
ghost use Rattle.nb_host.specs.declared.refusals.Refusal.TheVariants.{ChainScn};
ghost use Rattle.nb_model.specs.Image.{Page};
ghost use Rattle.nb_model.specs.InPlace.{written_since};
ghost use Rattle.nb_model.specs.Levels.{joined};
ghost use Rattle.nb_model.specs.Sound.{IsOfSize};
ghost use Rattle.nb_page.specs.Quiet.{Quiet};
ghost use Rattle.nb_model.specs.Causes.{TestedByReads};
ghost use Rattle.nb_restore.specs.Copied.{IsDone};
ghost use Rattle.nb_restore.specs.Most.{piece_length, pieces_in};

use crate::standby::no_database;
use nb_fields::layouts::head;
use nb_host::{Fault, Host, Name, Refusal};

/// The first stamp of these pages that is above that SCN.
fn stamp_above(pages: &[u8], page_size: u32, scn: u32) -> Option<u32>
    requires { IsTrue (is_page_size page_size) }
    ensures { (name : List ℕ) (ps : List Page) → pages.now ≡ joined ps → IsOfSize page_size ps → written_since name scn ps ≡ option_map (λ stamp. ChainScn name stamp scn) result }
{
    let size = page_size as usize;
    for number in 0..pages.len() / size {
        let stamp = head::Scn::get(&pages[number * size..]) as u32;
        if stamp > scn {
            return Some(stamp);
        }
    }
    None
}

/// Reads pages of the standby from that one on, as many as there is room for.
fn read_pages<H: Host>(
    host: &mut H,
    standby: &Name,
    number: u32,
    page_size: u32,
    pages: &mut [u8],
) -> Result<(), Fault>
    ensures pages { IsTrue H.tells → (ps : List Page) (count : ℕ) → (H.world host.old).files standby.now ≡ Some (joined ps) → IsOfSize page_size ps → length pages.old ≡ count * page_size → number + count ≤ length ps
        → IsDone result (pages.new ≡ joined (take count (drop number ps))) }
    ensures once { IsTrue H.tells → (H.world host.new).reads ≤ (H.world host.old).reads + 1 }
    ensures quiet { Quiet (H.world host.old) (H.world host.new) }
    ensures cause { CountsDevice result (H.faults host.old) (H.faults host.new) }
{
    let at = u64::from(number) * u64::from(page_size);
    let got = host.read_at(standby, at, pages)?;
    if got < pages.len() {
        return Err(no_database(number));
    }
    Ok(())
}

/// Tests that no page of the standby but page 0 is stamped above that SCN. It goes by pieces of as many pages as there is room for: the
/// system gives large ones with less work.
///
/// The refusal is `ChainScn`, with the first such stamp.
pub(crate) fn test_stamps<H: Host>(
    host: &mut H,
    standby: &Name,
    file: &Name,
    page_size: u32,
    pages: u32,
    scn: u32,
    piece: &mut [u8],
) -> Result<(), Fault>
    requires size { IsTrue (is_page_size page_size) }
    requires most { pages ≤ most_pages }
    requires piece { length piece.old ≡ piece_length }
    ensures test { IsTrue H.tells → (ps : List Page) → (H.world host.old).files standby.now ≡ Some (joined ps) → IsOfSize page_size ps → length ps ≡ pages → TestedByReads result (written_since file.now scn (drop 1 ps)) }
    ensures within { IsTrue H.tells → (H.world host.new).reads ≤ (H.world host.old).reads + pieces_in (pages * page_size) }
    ensures quiet { Quiet (H.world host.old) (H.world host.new) }
    ensures cause { CountsDevice result (H.faults host.old) (H.faults host.new) }
{
    let size = page_size as usize;
    let most = piece.len() / size;
    let mut number = 1;
    while number < pages {
        let count = most.min((pages - number) as usize);
        let part = &mut piece[..count * size];
        read_pages(host, standby, number, page_size, part)?;
        if let Some(found) = stamp_above(part, page_size, scn) {
            return Err(Fault::Refused(Refusal::ChainScn {
                name: file.copied(),
                found,
                wanted: scn,
            }));
        }
        number += count as u32;
    }
    Ok(())
}

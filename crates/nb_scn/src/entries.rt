ghost use Rattle.std.specs.Prelude.{◌≡◌, ◌<◌, ◌≤◌, ◌++◌, length, take, max, replicate, slice_index, slice_set, IsTrue};
ghost use Rattle.nb_fields.specs.Bytes.{bytes_of, with_part};
ghost use Rattle.nb_fields.specs.Payloads.{scn_payload};
ghost use Rattle.nb_fields.specs.Places.{is_page_size, entries_in};
ghost use Rattle.nb_scn.specs.Entries.{entries, entry_place};

use nb_fields::layouts::scn_inventory::{ENTRIES_AT, Number};
use nb_fields::{number_at, put_number};

/// That entry of an SCN inventory page.
pub fn entry(page: &[u8], index: u32) -> u32
    requires size { IsTrue (is_page_size (length page.now)) }
    requires index { index < entries_in (length page.now) }
    ensures { result ≡ slice_index (entries page.now) index }
{
    number_at(page, ENTRIES_AT + 4 * index as usize, 4) as u32
}

/// Raises that entry of an SCN inventory page to `scn`, where it is below.
pub fn raise(page: &mut [u8], index: u32, scn: u32)
    requires size { IsTrue (is_page_size (length page.old)) }
    requires index { index < entries_in (length page.old) }
    ensures entries { entries page.new ≡ slice_set (entries page.old) index (max (slice_index (entries page.old) index) scn) }
    ensures raised { slice_index (entries page.old) index < scn → page.new ≡ with_part (entry_place index) (bytes_of 4 scn) page.old }
    ensures kept { scn ≤ slice_index (entries page.old) index → page.new ≡ page.old }
{
    if entry(page, index) < scn {
        put_number(page, ENTRIES_AT + 4 * index as usize, 4, u64::from(scn));
    }
}

/// Makes a page, but for its head, SCN inventory page `k` with every entry `scn`.
///
/// The 16 bytes of the head stay.
pub fn fill(page: &mut [u8], k: u32, scn: u32)
    requires { IsTrue (is_page_size (length page.old)) }
    ensures page { page.new ≡ take 16 page.old ++ scn_payload (length page.old) k scn }
    ensures entries { entries page.new ≡ replicate (entries_in (length page.old)) scn }
{
    Number::put(page, u64::from(k));
    page[20..ENTRIES_AT].fill(0);
    let count = (page.len() - ENTRIES_AT) / 4;
    for index in 0..count {
        put_number(page, ENTRIES_AT + 4 * index, 4, u64::from(scn));
    }
}

ghost use Rattle.std.specs.Prelude.{◌≡◌, ◌↔◌, ℕ, ◌/◌, ◌%◌, ◌^◌, ◌<◌, IsTrue};
ghost use Rattle.nb_fields.specs.Places.{is_page_size, entries_in, scn_place, is_scn_place};

use nb_fields::{entries_in, is_scn_place};

/// The page at which SCN inventory page `k` of a database with that page size stands.
pub fn place_of(size: u32, k: u32) -> u32
    requires size { IsTrue (is_page_size size) }
    requires place { scn_place size k < 2 ^ 20 }
    ensures { result ≡ scn_place size k }
{
    if k == 0 { 2 } else { k * entries_in(size) }
}

/// Whether an SCN inventory page stands at that page.
pub fn is_place(size: u32, page: u32) -> bool
    requires size { IsTrue (is_page_size size) }
    requires page { page < 2 ^ 20 }
    ensures place { IsTrue result ↔ (k : ℕ) × (scn_place size k ≡ page) }
    ensures value { result ≡ is_scn_place size page }
{
    is_scn_place(size, page)
}

/// The number of the SCN inventory page that covers that page, and the index of the page's entry in it.
pub fn covers(size: u32, page: u32) -> (u32, u32)
    requires size { IsTrue (is_page_size size) }
    requires page { page < 2 ^ 20 }
    ensures number { result.0 ≡ page / entries_in size }
    ensures index { result.1 ≡ page % entries_in size }

    // So both may be passed on to `place_of` and `entry`.
    ensures place { scn_place size result.0 < 2 ^ 20 }
    ensures inside { result.1 < entries_in size }
{
    let entries = entries_in(size);
    (page / entries, page % entries)
}

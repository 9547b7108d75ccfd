ghost use Rattle.std.specs.Prelude.{◌≡◌, ◌+◌, ◌-◌, ◌*◌, ◌<◌, ◌≤◌, IsTrue, false};
ghost use Rattle.nb_fields.specs.Places.{is_page_size, is_system_place, plain_places, most_pages};
ghost use Rattle.nb_fields.specs.Fresh.{next_plain, fresh_count, fresh_kind};

use nb_fields::{PageKind, is_inventory_place, is_scn_place, is_system_place};

/// The next place from this one on that is no system place. Two of them may stand side by side, never three.
#[tactic(auto, unfolding(nb_fields::specs::Fresh::next_plain))]
fn next_plain(size: u32, page: u32) -> u32
    requires size { IsTrue (is_page_size size) }
    requires below { page + 1 < most_pages }
    ensures value { result ≡ next_plain size page }
    ensures least { page ≤ result }
    ensures most { result ≤ page + 2 }
{
    if !is_system_place(size, page) {
        page
    } else if !is_system_place(size, page + 1) {
        page + 1
    } else {
        page + 2
    }
}

/// What page `page` of a new database holds.
#[tactic(auto, unfolding(nb_fields::specs::Fresh::fresh_kind))]
pub(crate) fn fresh_kind(size: u32, page: u32) -> PageKind
    requires size { IsTrue (is_page_size size) }
    requires below { page < most_pages }
    ensures { result ≡ fresh_kind size page }
{
    if page == 0 {
        PageKind::Header
    } else if is_inventory_place(size, page) {
        PageKind::Inventory
    } else if is_scn_place(size, page) {
        PageKind::ScnInventory
    } else if page < 5 {
        PageKind::Data
    } else {
        PageKind::Raw
    }
}

/// How many pages a new database has, with `raw` raw pages.
pub fn fresh_count(size: u32, raw: u32) -> u32
    requires size { IsTrue (is_page_size size) }
    requires raw { raw ≤ 65535 }
    ensures value { result ≡ fresh_count size raw }
    ensures least { 5 + raw ≤ result }
    ensures most { result ≤ 5 + 3 * raw }

    // From page 5 on there are as many places for raw pages as were asked for, and the last page is at one of them.
    ensures plain { plain_places size 5 (result - 5) ≡ raw }
    ensures last { 0 < raw → is_system_place size (result - 1) ≡ false }
{
    let mut count = 5;
    for _ in 0..raw {
        count = next_plain(size, count) + 1;
    }
    count
}

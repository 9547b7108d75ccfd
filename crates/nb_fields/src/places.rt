//! What a page size means: how many entries and bits an inventory page has, and where the inventory pages stand.

ghost use Rattle.std.specs.Prelude.{◌≡◌, ◌<◌, ◌≤◌, IsTrue};
ghost use Rattle.nb_fields.specs.Places.{most_pages, is_page_size, entries_in, bits_in, is_inventory_place, is_scn_place, is_system_place};

/// How many pages a database has at most.
pub const MOST_PAGES: u32 = 1_048_576;

/// The law of that number.
pub fn most_pages()
    ensures { MOST_PAGES ≡ most_pages }
{}

/// Whether a page may have so many bytes.
pub fn is_page_size(size: u64) -> bool
    ensures { result ≡ is_page_size size }
{
    size == 1024 || size == 2048 || size == 4096 || size == 8192 || size == 16384 || size == 32768
}

/// How many entries an SCN inventory page has.
#[tactic(auto, using(crate::proofs::SizeLaws::size_facts))]
pub fn entries_in(size: u32) -> u32
    requires { IsTrue (is_page_size size) }
    ensures value { result ≡ entries_in size }
    ensures some { 0 < result }
    ensures fits { result ≤ size }
{
    (size - 32) / 4
}

/// How many bits a page inventory page has.
#[tactic(auto, using(crate::proofs::SizeLaws::size_facts))]
pub fn bits_in(size: u32) -> u32
    requires { IsTrue (is_page_size size) }
    ensures value { result ≡ bits_in size }
    ensures some { 0 < result }
{
    32 * entries_in(size)
}

/// Whether a page inventory page stands there.
#[tactic(auto, unfolding(crate::specs::Places::is_inventory_place))]
pub fn is_inventory_place(size: u32, page: u32) -> bool
    requires size { IsTrue (is_page_size size) }
    requires below { page < most_pages }
    ensures { result ≡ is_inventory_place size page }
{
    page == 1 || (page + 1) % bits_in(size) == 0
}

/// Whether an SCN inventory page stands there.
#[tactic(auto, unfolding(crate::specs::Places::is_scn_place))]
pub fn is_scn_place(size: u32, page: u32) -> bool
    requires size { IsTrue (is_page_size size) }
    requires below { page < most_pages }
    ensures { result ≡ is_scn_place size page }
{
    page == 2 || (page > 0 && page % entries_in(size) == 0)
}

/// Whether an inventory page of either kind stands there.
#[tactic(auto, unfolding(crate::specs::Places::is_system_place))]
pub fn is_system_place(size: u32, page: u32) -> bool
    requires size { IsTrue (is_page_size size) }
    requires below { page < most_pages }
    ensures { result ≡ is_system_place size page }
{
    is_inventory_place(size, page) || is_scn_place(size, page)
}

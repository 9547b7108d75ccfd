ghost use Rattle.std.specs.Prelude.{◌≡◌, ◌↔◌, ℕ, ◌+◌, ◌/◌, ◌%◌, ◌^◌, ◌<◌, IsTrue};
ghost use Rattle.nb_fields.specs.Places.{is_page_size, bits_in, inventory_place, is_inventory_place};

use nb_fields::{bits_in, is_inventory_place};

/// The page at which inventory page `k` of a database with that page size stands.
pub fn place_of(size: u32, k: u32) -> u32
    requires size { IsTrue (is_page_size size) }
    requires place { inventory_place size k < 2 ^ 20 }
    ensures { result ≡ inventory_place size k }
{
    if k == 0 { 1 } else { k * bits_in(size) - 1 }
}

/// Whether an inventory page stands at that page.
pub fn is_place(size: u32, page: u32) -> bool
    requires size { IsTrue (is_page_size size) }
    requires page { page < 2 ^ 20 }
    ensures place { IsTrue result ↔ (k : ℕ) × (inventory_place size k ≡ page) }
    ensures value { result ≡ is_inventory_place size page }
{
    is_inventory_place(size, page)
}

/// The number of the inventory page that covers that page, and the index of the page's bit in it.
pub fn covers(size: u32, page: u32) -> (u32, u32)
    requires size { IsTrue (is_page_size size) }
    requires page { page < 2 ^ 20 }
    ensures number { result.0 ≡ page / bits_in size }
    ensures index { result.1 ≡ page % bits_in size }

    // So both may be passed on to `place_of` and `is_used`.
    ensures place { inventory_place size result.0 < 2 ^ 20 }
    ensures inside { result.1 < bits_in size }
{
    let bits = bits_in(size);
    (page / bits, page % bits)
}

/// The number of the inventory page that stands at that page.
pub fn index_of(size: u32, page: u32) -> u32
    requires size { IsTrue (is_page_size size) }
    requires page { page < 2 ^ 20 }
    ensures { result ≡ (page + 1) / bits_in size }
{
    (page + 1) / bits_in(size)
}

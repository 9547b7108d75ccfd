ghost use Rattle.std.specs.Prelude.{◌≡◌, ◌++◌, length, take, IsTrue};
ghost use Rattle.nb_fields.specs.Payloads.{inventory_payload};
ghost use Rattle.nb_fields.specs.Places.{is_page_size};

use nb_fields::layouts::inventory::{BITS_AT, Number};

/// Makes a page, but for its head, page inventory page `k` with every bit free.
///
/// The 16 bytes of the head stay.
pub fn fill(page: &mut [u8], k: u32)
    requires { IsTrue (is_page_size (length page.old)) }
    ensures { page.new ≡ take 16 page.old ++ inventory_payload (length page.old) k 0 }
{
    Number::put(page, u64::from(k));
    page[20..BITS_AT].fill(0);
    page[BITS_AT..].fill(255);
}

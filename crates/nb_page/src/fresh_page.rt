ghost use Rattle.std.specs.Prelude.{◌≡◌, ◌<◌, ◌≤◌, IsTrue, length};
ghost use Rattle.nb_fields.specs.Places.{is_page_size};
ghost use Rattle.nb_fields.specs.Page.{with_payload};
ghost use Rattle.nb_fields.specs.Fresh.{fresh_count, fresh_page, fresh_payload, ShowsFresh};
ghost use Rattle.nb_page.specs.Blank.{IsBlank};

use crate::count::fresh_kind;
use crate::fill::{fill_data, fill_header, fill_inventory, fill_scn_inventory};
use crate::{put_text, stamp};
use nb_fields::PageKind;

/// Fills a page with page `number` of a new database that has `raw` raw pages.
pub fn fresh(page: &mut [u8], raw: u32, number: u32)
    requires size { IsTrue (is_page_size (length page.old)) }
    requires raw { raw ≤ 65535 }
    requires inside { number < fresh_count (length page.old) raw }
    ensures image { page.new ≡ fresh_page (length page.old) raw number }
    ensures shows { ShowsFresh (length page.old) raw number page.new }
{
    let kind = fresh_kind(page.len() as u32, number);
    page.fill(0);
    stamp(page, kind.code(), 1, number);
    fill_payload(page, kind, raw, number);
}

/// Writes what stands after the head of such a page.
#[tactic(auto, unfolding(nb_fields::specs::Fresh::fresh_payload))]
fn fill_payload(page: &mut [u8], kind: PageKind, raw: u32, number: u32)
    requires size { IsTrue (is_page_size (length page.old)) }
    requires blank { IsBlank page.old }
    requires raw { raw ≤ 65535 }
    requires inside { number < fresh_count (length page.old) raw }
    ensures { page.new ≡ with_payload page.old (fresh_payload (length page.old) raw number kind) }
{
    match kind {
        PageKind::Header => fill_header(page),
        PageKind::Inventory => fill_inventory(page, raw, number),
        PageKind::ScnInventory => fill_scn_inventory(page, number),
        PageKind::Data => fill_data(page, number),
        PageKind::Raw => put_text(page, &[]),
    }
}

ghost use Rattle.std.specs.Prelude.{◌≡◌, ◌+◌, ◌*◌, ◌<◌, ◌≤◌, ℕ, List, Some, IsTrue, true, false, IfOk, length, max, nat_lt};
ghost use Rattle.nb_fields.specs.Bytes.{is_zeros, part};
ghost use Rattle.nb_fields.specs.Places.{is_page_size, most_pages};
ghost use Rattle.nb_host.specs.Causes.{CountsFault};
ghost use Rattle.nb_page.specs.Quiet.{Quiet};
ghost use Rattle.nb_chain.specs.Overlay.{is_blank, without_blank};

use crate::overlay::{Mark, Overlay};
use nb_fields::are_zeros;
use nb_host::{Host, HostFault, Name};

/// Whether a page of level 0, which has that many, is all zeros. Past its end there are zeros.
fn is_zero_page<H: Host>(
    host: &mut H,
    name: &Name,
    number: u32,
    pages: u32,
    page: &mut [u8],
) -> Result<bool, HostFault>
    requires { IsTrue (is_page_size (length page.old)) }
    ensures answer { IsTrue H.tells → (bytes : List ℕ) → (H.world host.old).files name.now ≡ Some bytes → pages * length page.old ≤ length bytes
        → IfOk result (λ zero. zero ≡ elim (nat_lt number pages) [ true ↦ is_zeros (part (number * length page.old) (length page.old) bytes) | false ↦ true ]) }
    ensures quiet { Quiet (H.world host.old) (H.world host.new) }
    ensures reads { IsTrue H.tells → (H.world host.new).reads ≤ (H.world host.old).reads + 1 }
    ensures cause { CountsFault result (H.faults host.old) (H.faults host.new) }
{
    if number >= pages {
        return Ok(true);
    }
    let is_whole = host.read_page(name, number, page)?;
    Ok(!is_whole || are_zeros(page))
}

/// Whether a page of the database that a chain gives is all zeros: as the last level file has it, or level 0.
#[tactic(auto, unfolding(crate::specs::Overlay::is_blank))]
fn is_blank<H: Host>(
    host: &mut H,
    name: &Name,
    number: u32,
    pages: u32,
    overlay: &Overlay,
    page: &mut [u8],
) -> Result<bool, HostFault>
    requires { IsTrue (is_page_size (length page.old)) }
    ensures answer { IsTrue H.tells → (bytes : List ℕ) → (H.world host.old).files name.now ≡ Some bytes → pages * length page.old ≤ length bytes
        → IfOk result (λ blank. blank ≡ is_blank bytes (length page.old) pages overlay.now number) }
    ensures quiet { Quiet (H.world host.old) (H.world host.new) }
    ensures reads { IsTrue H.tells → (H.world host.new).reads ≤ (H.world host.old).reads + 1 }
    ensures cause { CountsFault result (H.faults host.old) (H.faults host.new) }
{
    match overlay.mark(number) {
        Mark::Untouched => is_zero_page(host, name, number, pages, page),
        Mark::Zeros => Ok(true),
        Mark::Filled => Ok(false),
    }
}

/// How many pages the database has that a chain gives: those of level 0 and of the level files, without the pages of zeros at the
/// end. Of level 0, which has `pages` pages, it reads those at the end that no level file has.
pub(crate) fn count_pages<H: Host>(
    host: &mut H,
    name: &Name,
    pages: u32,
    overlay: &Overlay,
    page: &mut [u8],
) -> Result<u32, HostFault>
    requires size { IsTrue (is_page_size (length page.old)) }
    requires most { pages ≤ most_pages }
    ensures answer { IsTrue H.tells → (bytes : List ℕ) → (H.world host.old).files name.now ≡ Some bytes → pages * length page.old ≤ length bytes
        → IfOk result (λ count. count ≡ without_blank (is_blank bytes (length page.old) pages overlay.now) (max pages (length overlay.now))) }
    ensures reads { IsTrue H.tells → IfOk result (λ count. (H.world host.new).reads + count ≤ (H.world host.old).reads + max pages (length overlay.now) + 1) }
    ensures within { IsTrue H.tells → (bytes : List ℕ) → (H.world host.old).files name.now ≡ Some bytes → pages * length page.old ≤ length bytes
        → (H.world host.new).reads + without_blank (is_blank bytes (length page.old) pages overlay.now) (max pages (length overlay.now)) ≤ (H.world host.old).reads + max pages (length overlay.now) + 1 }
    ensures most { IfOk result (λ count. count ≤ most_pages) }
    ensures quiet { Quiet (H.world host.old) (H.world host.new) }
    ensures cause { CountsFault result (H.faults host.old) (H.faults host.new) }
{
    let mut count = pages.max(overlay.len());
    while count > 0 {
        if !is_blank(host, name, count - 1, pages, overlay, page)? {
            return Ok(count);
        }
        count -= 1;
    }
    Ok(count)
}

// How many pages the image of a standby has.
ghost use Rattle.std.specs.Prelude.{◌≡◌, ◌+◌, ◌<◌, ◌≤◌, ◌∷◌, List, Some, IfOk, IsTrue, false, length, drop};
ghost use Rattle.nb_fields.specs.Bytes.{is_zeros};
ghost use Rattle.nb_fields.specs.Places.{is_page_size};
ghost use Rattle.nb_host.specs.Causes.{CountsFault};
ghost use Rattle.nb_model.specs.Image.{Page, Image, page_at, trimmed};
ghost use Rattle.nb_model.specs.Levels.{joined};
ghost use Rattle.nb_model.specs.Sound.{IsOfSize};
ghost use Rattle.nb_page.specs.Quiet.{Quiet};
ghost use Rattle.nb_inplace.specs.Most.{count_most};

use nb_fields::are_zeros;
use nb_host::{Host, HostFault, Name};

/// Whether that page of the standby is all zeros.
fn is_blank<H: Host>(
    host: &mut H,
    standby: &Name,
    number: u32,
    page: &mut [u8],
) -> Result<bool, HostFault>
    requires { IsTrue (is_page_size (length page.old)) }
    ensures answer { IsTrue H.tells → (ps : List Page) → (H.world host.old).files standby.now ≡ Some (joined ps) → IsOfSize (length page.old) ps → number < length ps → IfOk result (λ blank. blank ≡ is_zeros (page_at ps number)) }
    ensures quiet { Quiet (H.world host.old) (H.world host.new) }
    ensures once { IsTrue H.tells → (H.world host.new).reads ≤ (H.world host.old).reads + 1 }
    ensures cause { CountsFault result (H.faults host.old) (H.faults host.new) }
{
    let is_whole = host.read_page(standby, number, page)?;
    Ok(!is_whole || are_zeros(page))
}

/// How many pages the standby's image has, of so many in its file: pages of zeros at the end aren't counted. Page 0 always is.
pub(crate) fn count_pages<H: Host>(
    host: &mut H,
    standby: &Name,
    pages: u32,
    page: &mut [u8],
) -> Result<u32, HostFault>
    requires { IsTrue (is_page_size (length page.old)) }
    ensures answer { IsTrue H.tells → (start : Page) (image : Image) → (H.world host.old).files standby.now ≡ Some (joined (start ∷ drop 1 image)) → IsOfSize (length page.old) (start ∷ drop 1 image) → length image ≡ pages → 1 ≤ pages
        → is_zeros (page_at image 0) ≡ false → IfOk result (λ count. count ≡ length (trimmed image)) }
    ensures within { IsTrue H.tells → (start : Page) (image : Image) → (H.world host.old).files standby.now ≡ Some (joined (start ∷ drop 1 image)) → IsOfSize (length page.old) (start ∷ drop 1 image) → length image ≡ pages
        → (H.world host.new).reads ≤ (H.world host.old).reads + count_most image }
    ensures quiet { Quiet (H.world host.old) (H.world host.new) }
    ensures cause { CountsFault result (H.faults host.old) (H.faults host.new) }
{
    let mut count = pages;
    while count > 1 {
        if !is_blank(host, standby, count - 1, page)? {
            return Ok(count);
        }
        count -= 1;
    }
    Ok(count)
}

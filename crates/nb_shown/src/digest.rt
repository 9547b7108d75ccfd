// The digest of all pages, in order.
ghost use Rattle.std.specs.Prelude.{◌≡◌, ◌+◌, ◌≤◌, [], IsTrue, IfErr, IfOk, OnOk, length};
ghost use Rattle.sha2.specs.Hashers.{Holds256};
ghost use Rattle.sha2.specs.Sha256.{sha256};
ghost use Rattle.nb_host.specs.Causes.{CountsDevice, CountsFault};
ghost use Rattle.nb_host.specs.declared.faults.Fault.TheVariants.{Device};
ghost use Rattle.nb_model.specs.Outcomes.{Seen};
ghost use Rattle.nb_model.specs.Pages.{image_turn};
ghost use Rattle.nb_model.specs.Trail.{Trail};
ghost use Rattle.nb_state.specs.Open.{IsOpen};
ghost use Rattle.nb_state.specs.Looks.{Looks};
ghost use Rattle.nb_state.specs.Does.{Does, Goes};
ghost use Rattle.nb_shown.specs.Replies.{bytes_of_image, image_shown};

use crate::LARGEST_PAGE;
use nb_engine::Engine;
use nb_host::{Fault, Host, HostFault};
use sha2::{Digest, Sha256};

/// Feeds all pages to the hasher, one after the other.
fn feed_pages<H: Host>(
    host: &mut H,
    engine: &mut Engine,
    page: &mut [u8],
    hasher: &mut Sha256,
) -> Result<(), HostFault>
    requires size { length page.old ≡ engine.old.files.page_size }
    ensures holds { (t : Trail) → IsTrue H.tells → IsOpen (H.world host.old) engine.old t → Holds256 hasher.old [] → OnOk result (Holds256 hasher.new (bytes_of_image t.base.image)) }
    ensures looks { Looks H.tells (H.world host.old) (H.world host.new) engine.old engine.new }
    ensures once { IsTrue H.tells → (H.world host.new).reads ≤ (H.world host.old).reads + engine.old.files.count + 1 }
    ensures cause { CountsFault result (H.faults host.old) (H.faults host.new) }
{
    let count = engine.count();
    for number in 0..count {
        engine.read(host, number, page)?;
        hasher.update(&*page);
    }
    Ok(())
}

/// The SHA-256 of all pages of the database as it is seen, in order. Each page takes one read at most, and page 0 two. It changes
/// nothing but which pages are in memory.
pub fn image_digest<H: Host>(host: &mut H, engine: &mut Engine) -> Result<[u8; 32], Fault>
    ensures digest { (t : Trail) → IsTrue H.tells → IsOpen (H.world host.old) engine.old t → IfOk result (λ digest. digest ≡ sha256 (bytes_of_image t.base.image)) }
    ensures turn { (s : Seen) (t : Trail) → IsTrue H.tells → t.base ≡ s.base → IsOpen (H.world host.old) engine.old t
        → Does (image_shown engine.old.files.count) result (H.world host.old) (H.world host.new) engine.old engine.new t (image_turn s) }
    ensures looks { Looks H.tells (H.world host.old) (H.world host.new) engine.old engine.new }
    ensures goes { Goes engine.old engine.new }
    ensures once { IsTrue H.tells → (H.world host.new).reads ≤ (H.world host.old).reads + engine.old.files.count + 1 }
    ensures cause { CountsDevice result (H.faults host.old) (H.faults host.new) }
    ensures only_device { IfErr result (λ fault. fault ≡ Device) }
{
    let mut page = [0u8; LARGEST_PAGE];
    let size = engine.page_size() as usize;
    let mut hasher = Sha256::new();
    feed_pages(host, engine, &mut page[..size], &mut hasher)?;
    Ok(hasher.finalize())
}

// Laws of an open database: public functions with an empty body, whose contracts are the laws.
ghost use Rattle.std.specs.Prelude.{IsTrue};
ghost use Rattle.nb_model.specs.Image.{image_size};
ghost use Rattle.nb_model.specs.Sound.{IsOfSize};
ghost use Rattle.nb_model.specs.Trail.{Trail};
ghost use Rattle.nb_owner.specs.Open.{IsOpen};
ghost use Rattle.nb_owner.specs.Seen.{IsSeenOver};

use crate::Pair;
use nb_host::Host;

/// What is seen of an open database is what its two files hold, with each page that waits written over, and with the entries that the table of
/// its difference file still lacks after those that it has.
pub fn what_waits_is_seen<H: Host>(_host: &H, pair: &Pair)
    ensures { (t : Trail) → IsTrue H.tells → IsOpen (H.world _host.now) pair.now t → IsSeenOver (H.world _host.now) pair.now t.base }
{
    // Reading a field shows what holds of each value.
    let _ = &pair.cache;
}

/// Each page of an open database has the size of a page, whichever file holds it, and also where it waits.
pub fn pages_have_one_size<H: Host>(_host: &H, pair: &Pair)
    ensures { (t : Trail) → IsTrue H.tells → IsOpen (H.world _host.now) pair.now t → IsOfSize (image_size t.base.image) t.base.image }
{
    // Reading a field shows what holds of each value.
    let _ = &pair.cache;
}

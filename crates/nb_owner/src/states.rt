// A backup begins. Page 0, which changes, is held no longer.
ghost use Rattle.std.specs.Prelude.{◌≡◌, ◌<◌, [], ◌∷◌, IsTrue, OnOk, Option};
ghost use Rattle.nb_fields.specs.States.{normal_state, stalled_state};
ghost use Rattle.nb_host.specs.Causes.{CountsFault};
ghost use Rattle.nb_host.specs.Crash.{IsDurable};
ghost use Rattle.nb_change.specs.Gave.{GaveNothing};
ghost use Rattle.nb_model.specs.Account.{Ask};
ghost use Rattle.nb_model.specs.Image.{image_scn};
ghost use Rattle.nb_model.specs.Strokes.{begin as begin_stroke};
ghost use Rattle.nb_model.specs.Trail.{Trail};
ghost use Rattle.nb_base.specs.Stays.{GrowsWithin};
ghost use Rattle.nb_base.specs.Takes.{Takes};
ghost use Rattle.nb_cache.specs.Held.{NoneWaits};
ghost use Rattle.nb_owner.specs.Open.{IsOpen, bare, behind_first};

use crate::Pair;
use nb_host::{Host, HostFault};

impl Pair {
    /// Begins a backup with that GUID: what waits is written out, the main file is kept for good and frozen, and an empty difference file
    /// is made. Its state is then 1, and its SCN one higher.
    pub fn begin<H: Host>(&mut self, host: &mut H, guid: &[u8; 16]) -> Result<(), HostFault>
        requires normal { self.old.files.state ≡ normal_state }
        ensures takes { (t : Trail) (ask : Option Ask) → IsTrue H.tells → IsOpen (H.world host.old) self.old t → image_scn t.base.image < 4294967294
            → Takes result (H.world host.old) (H.world host.new) self.old.files.name (IsOpen (H.world host.new) self.new) t (begin_stroke guid.now ask ∷ []) }
        ensures durable { IsTrue H.tells → OnOk result (IsDurable (H.world host.new) self.old.files.name ((H.world host.new).files self.old.files.name)) }
        ensures within { (t : Trail) → IsTrue H.tells → IsOpen (H.world host.old) self.old t → GrowsWithin (H.world host.old) (H.world host.new) self.old.files.name self.old.files.page_size t [] }
        ensures others { OnOk result (bare self.new.pages ≡ bare (behind_first self.old.pages)) }
        ensures cap { self.new.cap ≡ self.old.cap }
        ensures gave { GaveNothing (H.world host.old) (H.world host.new) }
        ensures state { OnOk result (self.new.files.state ≡ stalled_state) }
        ensures name { self.new.files.name ≡ self.old.files.name }
        ensures page_size { self.new.files.page_size ≡ self.old.files.page_size }
        ensures cause { CountsFault result (H.faults host.old) (H.faults host.new) }
    {
        self.write_out(host)?;
        self.begin_files(host, guid)
    }

    /// Begins a backup, where no page waits.
    fn begin_files<H: Host>(&mut self, host: &mut H, guid: &[u8; 16]) -> Result<(), HostFault>
        requires normal { self.old.files.state ≡ normal_state }
        requires none { NoneWaits self.old.pages }
        ensures takes { (t : Trail) (ask : Option Ask) → IsTrue H.tells → IsOpen (H.world host.old) self.old t → image_scn t.base.image < 4294967294
            → Takes result (H.world host.old) (H.world host.new) self.old.files.name (IsOpen (H.world host.new) self.new) t (begin_stroke guid.now ask ∷ []) }
        ensures durable { IsTrue H.tells → OnOk result (IsDurable (H.world host.new) self.old.files.name ((H.world host.new).files self.old.files.name)) }
        ensures within { (t : Trail) → IsTrue H.tells → IsOpen (H.world host.old) self.old t → GrowsWithin (H.world host.old) (H.world host.new) self.old.files.name self.old.files.page_size t [] }
        ensures others { OnOk result (self.new.pages ≡ behind_first self.old.pages) }
        ensures cap { self.new.cap ≡ self.old.cap }
        ensures gave { GaveNothing (H.world host.old) (H.world host.new) }
        ensures state { OnOk result (self.new.files.state ≡ stalled_state) }
        ensures name { self.new.files.name ≡ self.old.files.name }
        ensures page_size { self.new.files.page_size ≡ self.old.files.page_size }
        ensures cause { CountsFault result (H.faults host.old) (H.faults host.new) }
    {
        self.files.begin(host, guid)?;
        self.cache.drop_page(0);
        Ok(())
    }
}

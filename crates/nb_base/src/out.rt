// Pages that waited go out into the files.
ghost use Rattle.std.specs.Prelude.{◌≡◌, ◌<◌, ◌*◌, ℕ, length, IsTrue, OnOk};
ghost use Rattle.nb_host.specs.Causes.{CountsFault};
ghost use Rattle.nb_change.specs.Changes.{Only, Changes};
ghost use Rattle.nb_change.specs.Gave.{GaveNothing};
ghost use Rattle.nb_model.specs.Account.{Base};
ghost use Rattle.nb_model.specs.Strokes.{page as page_stroke, on_base};
ghost use Rattle.nb_model.specs.Trail.{ShowsIn};
ghost use Rattle.nb_base.specs.Put.{MayPut, PutLeft};
ghost use Rattle.nb_base.specs.Stays.{KeepsFile, EndsWithin};

use crate::TwoFiles;
use nb_host::{Host, HostFault};

impl TwoFiles {
    /// Writes page `number`, which is below the length and not page 0, into the file that owns it in the normal state. It isn't
    /// kept for good before a sync.
    pub fn put_out<H: Host>(
        &mut self,
        host: &mut H,
        number: u32,
        page: &[u8],
    ) -> Result<(), HostFault>
        requires size { length page.now ≡ self.old.page_size }
        ensures left { IsTrue H.tells → Changes (H.world host.old) (H.world host.new) (Only self.old.name) (PutLeft (H.world host.old) self.old.name number page.now) }
        ensures put { (b : Base) → IsTrue H.tells → ShowsIn self.old.name b (H.world host.old).files → MayPut b number page.now
            → OnOk result (ShowsIn self.old.name (on_base (page_stroke number page.now) b) (H.world host.new).files) }
        ensures within { (most : ℕ) → IsTrue H.tells → number < most → KeepsFile (H.world host.old) (H.world host.new) self.old.name (EndsWithin (most * self.old.page_size)) }
        ensures same { self.new ≡ self.old }
        ensures gave { GaveNothing (H.world host.old) (H.world host.new) }
        ensures reads { (H.world host.new).reads ≡ (H.world host.old).reads }
        ensures cause { CountsFault result (H.faults host.old) (H.faults host.new) }
    {
        host.write_page(&self.name, number, page)
    }
}

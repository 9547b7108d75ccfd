// How many pages a database has without those of zeros at its end, which the normal state doesn't count.
ghost use Rattle.std.specs.Prelude.{◌≡◌, ◌<◌, ◌≤◌, length, IsTrue, IfOk};
ghost use Rattle.nb_fields.specs.Bytes.{is_zeros};
ghost use Rattle.nb_fields.specs.Places.{most_pages};
ghost use Rattle.nb_host.specs.Causes.{CountsFault};
ghost use Rattle.nb_page.specs.Quiet.{Quiet};
ghost use Rattle.nb_model.specs.Image.{page_at, trimmed};
ghost use Rattle.nb_model.specs.Trail.{Trail};
ghost use Rattle.nb_base.specs.Open.{IsOpen};

use crate::TwoFiles;
use crate::reads::read_owned;
use nb_fields::are_zeros;
use nb_host::{Host, HostFault};

impl TwoFiles {
    /// Whether page `number` of the database is all zeros.
    fn is_blank<H: Host>(&mut self, host: &mut H, number: u32) -> Result<bool, HostFault>
        ensures answer { (t : Trail) → IsTrue H.tells → IsOpen (H.world host.old) self.old t → number < length t.base.image → IfOk result (λ blank. blank ≡ is_zeros (page_at t.base.image number)) }
        ensures same { self.new ≡ self.old }
        ensures quiet { Quiet (H.world host.old) (H.world host.new) }
        ensures cause { CountsFault result (H.faults host.old) (H.faults host.new) }
    {
        read_owned(host, &self.name, &mut self.delta, number, &mut self.page)?;
        Ok(are_zeros(&self.page))
    }

    /// How many pages the database has without those of zeros at its end, page by page from there. Page 0 is one of them.
    fn find_filled<H: Host>(&mut self, host: &mut H) -> Result<u32, HostFault>
        ensures count { (t : Trail) → IsTrue H.tells → IsOpen (H.world host.old) self.old t → IfOk result (λ count. count ≡ length (trimmed t.base.image)) }
        ensures most { IfOk result (λ count. count ≤ self.old.count) }
        ensures same { self.new ≡ self.old }
        ensures quiet { Quiet (H.world host.old) (H.world host.new) }
        ensures cause { CountsFault result (H.faults host.old) (H.faults host.new) }
    {
        let mut count = self.count;
        while count > 1 {
            if !self.is_blank(host, count - 1)? {
                return Ok(count);
            }
            count -= 1;
        }
        Ok(count)
    }

    /// How many pages the database has without those of zeros at its end. Where no entry names its last page, that is the main file's, which
    /// isn't zeros: then nothing is read.
    pub(crate) fn count_filled<H: Host>(&mut self, host: &mut H) -> Result<u32, HostFault>
        ensures count { (t : Trail) → IsTrue H.tells → IsOpen (H.world host.old) self.old t → IfOk result (λ count. count ≡ length (trimmed t.base.image)) }
        ensures most { IfOk result (λ count. count ≤ most_pages) }
        ensures same { self.new ≡ self.old }
        ensures quiet { Quiet (H.world host.old) (H.world host.new) }
        ensures cause { CountsFault result (H.faults host.old) (H.faults host.new) }
    {
        match self.delta.slot_of(host, self.count.saturating_sub(1))? {
            Some(_) => {
                let count = self.find_filled(host)?;
                Ok(count)
            }
            None => Ok(self.count),
        }
    }
}

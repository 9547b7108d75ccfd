// The stalled state ends, and the pages of the difference file are merged back. Page 0 is held no longer where it changes, nor pages after the
// end.
ghost use Rattle.std.specs.Prelude.{◌≡◌, ◌<◌, ◌+◌, ◌-◌, ℕ, List, [], ◌∷◌, length, slice_index, nat_eq, IsTrue, OnOk, None};
ghost use Rattle.std.specs.Map.{remove_entry};
ghost use Rattle.nb_fields.specs.States.{normal_state, stalled_state, merge_state};
ghost use Rattle.nb_host.specs.Causes.{CountsFault};
ghost use Rattle.nb_change.specs.Changes.{Only, Touches};
ghost use Rattle.nb_change.specs.Gave.{GaveNothing};
ghost use Rattle.nb_model.specs.Owner.{delta_name};
ghost use Rattle.nb_model.specs.Strokes.{ends, finish as finish_stroke};
ghost use Rattle.nb_model.specs.Trail.{Trail};
ghost use Rattle.nb_base.specs.Merging.{PutsPage};
ghost use Rattle.nb_base.specs.Open.{IsOpen as AreOpen, AreMerged};
ghost use Rattle.nb_base.specs.Stays.{KeepsFile, HasAfterFirst, GrowsWithin};
ghost use Rattle.nb_base.specs.Takes.{Takes};
ghost use Rattle.nb_cache.specs.Held.{NoneWaits};
ghost use Rattle.nb_owner.specs.Open.{IsOpen, bare, behind_first, but_below};

use crate::Pair;
use nb_host::{Host, HostFault};

impl Pair {
    /// Ends the stalled state: what waits is written out, and from now on the pages of the difference file may be merged back. Its state is
    /// then 2, and its SCN one higher.
    pub fn end<H: Host>(&mut self, host: &mut H) -> Result<(), HostFault>
        requires stalled { self.old.files.state ≡ stalled_state }
        ensures takes { (t : Trail) → IsTrue H.tells → IsOpen (H.world host.old) self.old t
            → Takes result (H.world host.old) (H.world host.new) self.old.files.name (IsOpen (H.world host.new) self.new) t (ends ∷ []) }
        ensures within { (t : Trail) → IsTrue H.tells → IsOpen (H.world host.old) self.old t → GrowsWithin (H.world host.old) (H.world host.new) self.old.files.name self.old.files.page_size t [] }
        ensures rest { (t : Trail) (bytes : List ℕ) → IsTrue H.tells → IsOpen (H.world host.old) self.old t → KeepsFile (H.world host.old) (H.world host.new) self.old.files.name (HasAfterFirst self.old.files.page_size bytes) }
        ensures others { OnOk result (bare self.new.pages ≡ bare (behind_first self.old.pages)) }
        ensures cap { self.new.cap ≡ self.old.cap }
        ensures gave { GaveNothing (H.world host.old) (H.world host.new) }
        ensures state { OnOk result (self.new.files.state ≡ merge_state) }
        ensures name { self.new.files.name ≡ self.old.files.name }
        ensures page_size { self.new.files.page_size ≡ self.old.files.page_size }
        ensures entries { self.new.files.entries ≡ self.old.files.entries }
        ensures cause { CountsFault result (H.faults host.old) (H.faults host.new) }
    {
        self.write_out(host)?;
        self.end_files(host)
    }

    /// Ends the stalled state, where no page waits.
    fn end_files<H: Host>(&mut self, host: &mut H) -> Result<(), HostFault>
        requires stalled { self.old.files.state ≡ stalled_state }
        requires none { NoneWaits self.old.pages }
        requires no_drafts { self.old.files.drafted ≡ 0 }
        ensures takes { (t : Trail) → IsTrue H.tells → IsOpen (H.world host.old) self.old t
            → Takes result (H.world host.old) (H.world host.new) self.old.files.name (IsOpen (H.world host.new) self.new) t (ends ∷ []) }
        ensures within { (t : Trail) → IsTrue H.tells → IsOpen (H.world host.old) self.old t → GrowsWithin (H.world host.old) (H.world host.new) self.old.files.name self.old.files.page_size t [] }
        ensures rest { (t : Trail) (bytes : List ℕ) → IsTrue H.tells → IsOpen (H.world host.old) self.old t → KeepsFile (H.world host.old) (H.world host.new) self.old.files.name (HasAfterFirst self.old.files.page_size bytes) }
        ensures others { OnOk result (self.new.pages ≡ behind_first self.old.pages) }
        ensures cap { self.new.cap ≡ self.old.cap }
        ensures gave { GaveNothing (H.world host.old) (H.world host.new) }
        ensures state { OnOk result (self.new.files.state ≡ merge_state) }
        ensures name { self.new.files.name ≡ self.old.files.name }
        ensures page_size { self.new.files.page_size ≡ self.old.files.page_size }
        ensures entries { self.new.files.entries ≡ self.old.files.entries }
        ensures cause { CountsFault result (H.faults host.old) (H.faults host.new) }
    {
        self.files.end(host)?;
        self.cache.drop_page(0);
        Ok(())
    }

    /// Writes the page of entry `k` from its slot into the main file, zeros past its end and all. It changes no page of the database, none in
    /// memory, and nothing else in its files, whatever they hold.
    pub fn merge_entry<H: Host>(&mut self, host: &mut H, k: u32) -> Result<(), HostFault>
        requires merge { self.old.files.state ≡ merge_state }
        requires inside { k < length self.old.files.entries }
        ensures takes { (t : Trail) → IsTrue H.tells → IsOpen (H.world host.old) self.old t
            → Takes result (H.world host.old) (H.world host.new) self.old.files.name (IsOpen (H.world host.new) self.new) t [] }
        ensures touches { IsTrue H.tells → Touches (H.world host.old) (H.world host.new) (Only self.old.files.name) }
        ensures within { (t : Trail) → IsTrue H.tells → IsOpen (H.world host.old) self.old t → GrowsWithin (H.world host.old) (H.world host.new) self.old.files.name self.old.files.page_size t [] }
        ensures merged { (t : Trail) → IsTrue H.tells → IsOpen (H.world host.old) self.old t → AreMerged (H.world host.old) self.old.files k
            → OnOk result (AreMerged (H.world host.new) self.new.files (k + 1)) }
        ensures put { IsTrue H.tells → OnOk result (PutsPage (H.world host.old).files (H.world host.new).files self.old.files.name self.old.files.page_size (slice_index self.old.files.entries k)) }
        ensures gave { GaveNothing (H.world host.old) (H.world host.new) }
        ensures same { self.new ≡ self.old }
        ensures cause { CountsFault result (H.faults host.old) (H.faults host.new) }
    {
        self.files.merge_entry(host, k)
    }

    /// Ends the merge, once every entry is equal in both files: its state is 0 again, pages of zeros at its end are pages no longer, and the
    /// difference file is removed.
    pub fn finish<H: Host>(&mut self, host: &mut H) -> Result<(), HostFault>
        requires merge { self.old.files.state ≡ merge_state }
        ensures takes { (t : Trail) → IsTrue H.tells → IsOpen (H.world host.old) self.old t → AreMerged (H.world host.old) self.old.files (length self.old.files.entries)
            → Takes result (H.world host.old) (H.world host.new) self.old.files.name (IsOpen (H.world host.new) self.new) t (finish_stroke ∷ []) }
        ensures within { (t : Trail) → IsTrue H.tells → IsOpen (H.world host.old) self.old t → GrowsWithin (H.world host.old) (H.world host.new) self.old.files.name self.old.files.page_size t [] }
        ensures others { OnOk result (self.new.pages ≡ but_below (self.old.files.count - self.new.files.count) self.old.files.count (behind_first self.old.pages)) }
        ensures gone { IsTrue H.tells → OnOk result ((H.world host.new).files (delta_name self.old.files.name) ≡ None) }
        ensures cap { self.new.cap ≡ self.old.cap }
        ensures gave { GaveNothing (H.world host.old) (H.world host.new) }
        ensures state { OnOk result (self.new.files.state ≡ normal_state) }
        ensures name { self.new.files.name ≡ self.old.files.name }
        ensures page_size { self.new.files.page_size ≡ self.old.files.page_size }
        ensures cause { CountsFault result (H.faults host.old) (H.faults host.new) }
    {
        let before = self.files.count();
        self.finish_files(host)?;
        self.forget_behind(before);
        Ok(())
    }

    /// Ends the merge of the two files. Page 0 is held no longer.
    fn finish_files<H: Host>(&mut self, host: &mut H) -> Result<(), HostFault>
        requires merge { self.old.files.state ≡ merge_state }
        ensures takes { (t : Trail) → IsTrue H.tells → IsOpen (H.world host.old) self.old t → AreMerged (H.world host.old) self.old.files (length self.old.files.entries)
            → Takes result (H.world host.old) (H.world host.new) self.old.files.name (AreOpen (H.world host.new) self.new.files) t (finish_stroke ∷ []) }
        ensures within { (t : Trail) → IsTrue H.tells → IsOpen (H.world host.old) self.old t → GrowsWithin (H.world host.old) (H.world host.new) self.old.files.name self.old.files.page_size t [] }
        ensures others { OnOk result (self.new.pages ≡ behind_first self.old.pages) }
        ensures none { OnOk result (NoneWaits self.new.pages) }
        ensures gone { IsTrue H.tells → OnOk result ((H.world host.new).files (delta_name self.old.files.name) ≡ None) }
        ensures cap { self.new.cap ≡ self.old.cap }
        ensures gave { GaveNothing (H.world host.old) (H.world host.new) }
        ensures state { OnOk result (self.new.files.state ≡ normal_state) }
        ensures name { self.new.files.name ≡ self.old.files.name }
        ensures page_size { self.new.files.page_size ≡ self.old.files.page_size }
        ensures cause { CountsFault result (H.faults host.old) (H.faults host.new) }
    {
        self.files.finish(host)?;
        self.cache.drop_page(0);
        Ok(())
    }

    /// Pages from the length on, as far as there were pages before, are held no longer.
    fn forget_behind(&mut self, before: u32)
        requires none { NoneWaits self.old.pages }
        ensures { self.new ≡ record self.old { pages = but_below (before - self.old.files.count) before self.old.pages } }
    {
        let count = self.files.count();
        let mut number = before;
        while number > count {
            number -= 1;
            self.forget(number);
        }
    }

    /// A page is held no longer, where none waits.
    fn forget(&mut self, number: u32)
        requires none { NoneWaits self.old.pages }
        ensures forgets { self.new ≡ record self.old { pages = remove_entry (nat_eq number) self.old.pages } }
        ensures none { NoneWaits self.new.pages }
    {
        self.cache.drop_page(number);
    }
}

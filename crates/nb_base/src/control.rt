// The calls that change the backup state, and the merge.
ghost use Rattle.std.specs.Prelude.{◌≡◌, ◌<◌, ◌≤◌, ◌+◌, ◌*◌, ℕ, List, [], ◌∷◌, length, slice_index, IsTrue, OnOk, Option, None};
ghost use Rattle.nb_fields.specs.Header.{scn_of, guid_of};
ghost use Rattle.nb_fields.specs.Places.{is_page_size, most_pages};
ghost use Rattle.nb_fields.specs.States.{normal_state, stalled_state, merge_state};
ghost use Rattle.nb_host.specs.Causes.{CountsFault};
ghost use Rattle.nb_host.specs.Crash.{IsDurable};
ghost use Rattle.nb_change.specs.Changes.{Changes, Only, Touches};
ghost use Rattle.nb_change.specs.Gave.{GaveNothing};
ghost use Rattle.nb_model.specs.Account.{Ask};
ghost use Rattle.nb_model.specs.Image.{Image, image_scn, image_size, trimmed};
ghost use Rattle.nb_model.specs.Owner.{delta_name};
ghost use Rattle.nb_model.specs.Strokes.{controlled, begin as begin_stroke, ends, finish as finish_stroke};
ghost use Rattle.nb_model.specs.Trail.{Trail};
ghost use Rattle.nb_base.specs.Control.{next_scn, next_guid, in_state, HasRoom, IsImageOf, ControlLeft};
ghost use Rattle.nb_base.specs.Merging.{PutsPage};
ghost use Rattle.nb_base.specs.Open.{IsOpen, AreMerged};
ghost use Rattle.nb_base.specs.Stays.{KeepsFile, EndsWithin, HasAfterFirst};
ghost use Rattle.nb_base.specs.Takes.{TakesFirm};

use crate::TwoFiles;
use crate::reads::read_owned;
use nb_fields::layouts::{head, header};
use nb_fields::states::{MERGE, NORMAL, STALLED};
use nb_host::{Host, HostFault, Name};

/// Sets the control block of page 0. Its generation rises by one, and the SCN is its stamp.
fn set_block(page: &mut [u8], state: u16, scn: u32, guid: &[u8; 16])
    requires { 64 ≤ length page.old }
    ensures written { page.new ≡ controlled state scn guid.now page.old }
    ensures long { length page.new ≡ length page.old }
{
    let generation = (head::Generation::get(page) as u32).wrapping_add(1);
    header::Guid::put(page, guid);
    header::Scn::put(page, u64::from(scn));
    header::State::put(page, u64::from(state));
    head::Scn::put(page, u64::from(scn));
    head::Generation::put(page, u64::from(generation));
}

/// Brings page 0 into another state: with the next SCN, but for the normal state, and with this GUID where there is one.
fn change_block(page: &mut [u8], state: u16, guid: Option<[u8; 16]>)
    requires { 64 ≤ length page.old }
    ensures written { HasRoom state (scn_of page.old) → page.new ≡ controlled state (next_scn state (scn_of page.old)) (next_guid guid (guid_of page.old)) page.old }
    ensures fits { scn_of page.old < 4294967296 }
    ensures sixteen { length (next_guid guid (guid_of page.old)) ≡ 16 }
    ensures long { length page.new ≡ length page.old }
{
    let old = header::Scn::get(page) as u32;
    let scn = if state == 0 {
        old
    } else {
        old.saturating_add(1)
    };
    let guid = guid.unwrap_or(header::Guid::get(page));
    set_block(page, state, scn, &guid);
}

/// Brings a main file into another state: its control block is changed, and kept for good.
fn control_block<H: Host>(
    host: &mut H,
    name: &Name,
    page: &mut [u8],
    state: u16,
    guid: Option<[u8; 16]>,
) -> Result<(), HostFault>
    requires size { IsTrue (is_page_size (length page.old)) }
    requires state { state ≤ 3 }
    ensures left { (main : Image) → IsTrue H.tells → IsImageOf (H.world host.old) name.now main → image_size main ≡ length page.old → HasRoom state (image_scn main)
        → Changes (H.world host.old) (H.world host.new) (Only name.now) (ControlLeft name.now main (in_state state guid main)) }
    ensures done { (main : Image) → IsTrue H.tells → IsImageOf (H.world host.old) name.now main → image_size main ≡ length page.old → HasRoom state (image_scn main)
        → OnOk result (IsImageOf (H.world host.new) name.now (in_state state guid main)) }
    ensures durable { IsTrue H.tells → OnOk result (IsDurable (H.world host.new) name.now ((H.world host.new).files name.now)) }
    ensures within { (most : ℕ) → IsTrue H.tells → 0 < most → KeepsFile (H.world host.old) (H.world host.new) name.now (EndsWithin (most * length page.old)) }
    ensures rest { (bytes : List ℕ) → IsTrue H.tells → KeepsFile (H.world host.old) (H.world host.new) name.now (HasAfterFirst (length page.old) bytes) }
    ensures gave { GaveNothing (H.world host.old) (H.world host.new) }
    ensures long { length page.new ≡ length page.old }
    ensures cause { CountsFault result (H.faults host.old) (H.faults host.new) }
{
    host.read_page(name, 0, page)?;
    change_block(page, state, guid);
    host.write_page(name, 0, page)?;
    host.sync(name)
}

impl TwoFiles {
    /// Begins a backup with that GUID: the main file is kept for good and frozen, and an empty difference file is made. Its state is
    /// then 1, and its SCN one higher.
    pub fn begin<H: Host>(&mut self, host: &mut H, guid: &[u8; 16]) -> Result<(), HostFault>
        requires normal { self.old.state ≡ normal_state }
        ensures takes { (t : Trail) (ask : Option Ask) → IsTrue H.tells → IsOpen (H.world host.old) self.old t → image_scn t.base.image < 4294967294
            → TakesFirm result (H.world host.old) (H.world host.new) self.old.name (IsOpen (H.world host.new) self.new) t (begin_stroke guid.now ask ∷ []) }
        ensures durable { IsTrue H.tells → OnOk result (IsDurable (H.world host.new) self.old.name ((H.world host.new).files self.old.name)) }
        ensures within { (most : ℕ) → IsTrue H.tells → 0 < most → KeepsFile (H.world host.old) (H.world host.new) self.old.name (EndsWithin (most * self.old.page_size)) }
        ensures gave { GaveNothing (H.world host.old) (H.world host.new) }
        ensures state { OnOk result (self.new.state ≡ stalled_state) }
        ensures name { self.new.name ≡ self.old.name }
        ensures page_size { self.new.page_size ≡ self.old.page_size }
        ensures cause { CountsFault result (H.faults host.old) (H.faults host.new) }
    {
        host.sync(&self.name)?;
        self.delta.make(host)?;
        control_block(host, &self.name, &mut self.page, STALLED, Some(*guid))?;
        self.state = STALLED;
        self.main_count = self.count;
        Ok(())
    }

    /// Ends the stalled state: from now on the pages of the difference file may be merged back. Its state is then 2, and its SCN one
    /// higher.
    pub fn end<H: Host>(&mut self, host: &mut H) -> Result<(), HostFault>
        requires stalled { self.old.state ≡ stalled_state }
        requires none_waits { self.old.drafted ≡ 0 }
        ensures takes { (t : Trail) → IsTrue H.tells → IsOpen (H.world host.old) self.old t
            → TakesFirm result (H.world host.old) (H.world host.new) self.old.name (IsOpen (H.world host.new) self.new) t (ends ∷ []) }
        ensures within { (most : ℕ) → IsTrue H.tells → 0 < most → KeepsFile (H.world host.old) (H.world host.new) self.old.name (EndsWithin (most * self.old.page_size)) }
        ensures rest { (bytes : List ℕ) → IsTrue H.tells → KeepsFile (H.world host.old) (H.world host.new) self.old.name (HasAfterFirst self.old.page_size bytes) }
        ensures gave { GaveNothing (H.world host.old) (H.world host.new) }
        ensures state { OnOk result (self.new.state ≡ merge_state) }
        ensures name { self.new.name ≡ self.old.name }
        ensures page_size { self.new.page_size ≡ self.old.page_size }
        ensures entries { self.new.entries ≡ self.old.entries }
        ensures cause { CountsFault result (H.faults host.old) (H.faults host.new) }
    {
        host.sync(&self.name.delta())?;
        control_block(host, &self.name, &mut self.page, MERGE, None)?;
        self.state = MERGE;
        Ok(())
    }

    /// Writes the page of entry `k` from its slot into the main file, zeros past its end and all. It changes no page of the database, and
    /// nothing else in its files, whatever they hold.
    pub fn merge_entry<H: Host>(&mut self, host: &mut H, k: u32) -> Result<(), HostFault>
        requires merge { self.old.state ≡ merge_state }
        requires inside { k < length self.old.entries }
        ensures takes { (t : Trail) → IsTrue H.tells → IsOpen (H.world host.old) self.old t
            → TakesFirm result (H.world host.old) (H.world host.new) self.old.name (IsOpen (H.world host.new) self.new) t [] }
        ensures touches { IsTrue H.tells → Touches (H.world host.old) (H.world host.new) (Only self.old.name) }
        ensures within { (t : Trail) (most : ℕ) → IsTrue H.tells → IsOpen (H.world host.old) self.old t → length t.base.image ≤ most → KeepsFile (H.world host.old) (H.world host.new) self.old.name (EndsWithin (most * self.old.page_size)) }
        ensures merged { (t : Trail) → IsTrue H.tells → IsOpen (H.world host.old) self.old t → AreMerged (H.world host.old) self.old k
            → OnOk result (AreMerged (H.world host.new) self.new (k + 1)) }
        ensures put { IsTrue H.tells → OnOk result (PutsPage (H.world host.old).files (H.world host.new).files self.old.name self.old.page_size (slice_index self.old.entries k)) }
        ensures gave { GaveNothing (H.world host.old) (H.world host.new) }
        ensures same { self.new ≡ self.old }
        ensures name { self.new.name ≡ self.old.name }
        ensures page_size { self.new.page_size ≡ self.old.page_size }
        ensures entries { self.new.entries ≡ self.old.entries }
        ensures cause { CountsFault result (H.faults host.old) (H.faults host.new) }
    {
        let number = self.delta.entry(host, k)?;
        read_owned(host, &self.name, &mut self.delta, number, &mut self.page)?;
        host.write_page(&self.name, number, &self.page)
    }

    /// Ends the merge, once every entry is equal in both files: its state is 0 again, pages of zeros at its end are pages no longer, and the
    /// difference file is removed. A crash may bring that back, which no opening in the normal state looks at.
    pub fn finish<H: Host>(&mut self, host: &mut H) -> Result<(), HostFault>
        requires merge { self.old.state ≡ merge_state }
        ensures takes { (t : Trail) → IsTrue H.tells → IsOpen (H.world host.old) self.old t → AreMerged (H.world host.old) self.old (length self.old.entries)
            → TakesFirm result (H.world host.old) (H.world host.new) self.old.name (IsOpen (H.world host.new) self.new) t (finish_stroke ∷ []) }
        ensures within { (most : ℕ) → IsTrue H.tells → 0 < most → KeepsFile (H.world host.old) (H.world host.new) self.old.name (EndsWithin (most * self.old.page_size)) }
        ensures gone { IsTrue H.tells → OnOk result ((H.world host.new).files (delta_name self.old.name) ≡ None) }
        ensures gave { GaveNothing (H.world host.old) (H.world host.new) }
        ensures state { OnOk result (self.new.state ≡ normal_state) }
        ensures name { self.new.name ≡ self.old.name }
        ensures page_size { self.new.page_size ≡ self.old.page_size }
        ensures cause { CountsFault result (H.faults host.old) (H.faults host.new) }
    {
        let count = self.count_filled(host)?;
        self.finish_with(host, count)
    }

    /// Ends the merge, where the database has so many pages without those of zeros at its end.
    fn finish_with<H: Host>(&mut self, host: &mut H, count: u32) -> Result<(), HostFault>
        requires merge { self.old.state ≡ merge_state }
        requires most { count ≤ most_pages }
        ensures takes { (t : Trail) → IsTrue H.tells → IsOpen (H.world host.old) self.old t → AreMerged (H.world host.old) self.old (length self.old.entries) → count ≡ length (trimmed t.base.image)
            → TakesFirm result (H.world host.old) (H.world host.new) self.old.name (IsOpen (H.world host.new) self.new) t (finish_stroke ∷ []) }
        ensures within { (most : ℕ) → IsTrue H.tells → 0 < most → KeepsFile (H.world host.old) (H.world host.new) self.old.name (EndsWithin (most * self.old.page_size)) }
        ensures gone { IsTrue H.tells → OnOk result ((H.world host.new).files (delta_name self.old.name) ≡ None) }
        ensures gave { GaveNothing (H.world host.old) (H.world host.new) }
        ensures state { OnOk result (self.new.state ≡ normal_state) }
        ensures count { OnOk result (self.new.count ≡ count) }
        ensures name { self.new.name ≡ self.old.name }
        ensures page_size { self.new.page_size ≡ self.old.page_size }
        ensures cause { CountsFault result (H.faults host.old) (H.faults host.new) }
    {
        host.sync(&self.name)?; // What was merged is kept for good before the state says so.
        control_block(host, &self.name, &mut self.page, NORMAL, None)?;
        self.state = NORMAL;
        self.count = count;
        self.main_count = count;
        self.delta.clear(host)
    }
}

ghost use Rattle.std.specs.Prelude.{◌≡◌, ◌≢◌, ◌↔◌, ◌<◌, ◌≤◌, ◌+◌, ◌*◌, ℕ, [], ◌∷◌, length, IsTrue, IfErr, OnOk, false, not, ◌==◌};
ghost use Rattle.nb_fields.specs.Bytes.{is_zeros, number_in};
ghost use Rattle.nb_fields.specs.Places.{is_page_size, most_pages};
ghost use Rattle.nb_fields.specs.States.{stalled_state, merge_state};
ghost use Rattle.nb_host.specs.Calls.{IsSilent};
ghost use Rattle.nb_host.specs.Causes.{CountsFault, CountsRun};
ghost use Rattle.nb_change.specs.Gave.{GaveNothing};
ghost use Rattle.nb_page.specs.Quiet.{Quiet};
ghost use Rattle.nb_model.specs.Account.{Base};
ghost use Rattle.nb_model.specs.Image.{page_at, image_size, image_state};
ghost use Rattle.nb_model.specs.Owner.{entry_for};
ghost use Rattle.nb_model.specs.Strokes.{page as page_stroke};
ghost use Rattle.nb_model.specs.Trail.{Trail, settled, ShowsIn};
ghost use Rattle.nb_base.specs.Firm.{must_sync};
ghost use Rattle.nb_base.specs.Open.{IsOpen, Agrees, Fits, AreMerged};
ghost use Rattle.nb_base.specs.Seen.{IsSeen, IsWrite, noted_in};
ghost use Rattle.nb_base.specs.Stays.{KeepsFile, EndsWithin};
ghost use Rattle.nb_base.specs.Takes.{TakesFirm};
ghost use Rattle.nb_base.specs.Touches.{WritesIn};

use crate::reads::{read_owned, read_page};
use crate::sync::sync_both;
use crate::writes::{is_synced, write_plain, write_stalled};
use nb_cases::{Case, Event, case_of};
use nb_delta::Delta;
use nb_fields::layouts::header;
use nb_host::{Host, HostFault, Name, RunError};
use std::marker::Model;

/// Whether a page that is written goes to the difference file alone.
fn is_diverted(state: u16) -> bool
    requires { state ≤ 2 }
    ensures { IsTrue result ↔ state ≡ stalled_state }
{
    case_of(state, Event::Write) == Case::Delta
}

/// The two files of one database.
#[derive(Drop)]
pub struct TwoFiles {
    pub(crate) name: Name,
    /// The backup state: 0 normal, 1 stalled, 2 merge.
    pub(crate) state: u16,
    /// Whether each page write is kept for good before the next.
    pub(crate) forced: bool,
    /// In pages.
    pub(crate) count: u32,
    pub(crate) main_count: u32,
    pub(crate) delta: Delta,
    /// Room for one page.
    pub(crate) page: Vec<u8>,
}

impl Model for TwoFiles {
    ghost use Rattle.std.specs.Prelude.{◌≡◌, ◌≢◌, ◌≤◌, IsTrue, length, vec_len};
    ghost use Rattle.nb_fields.specs.Places.{is_page_size, most_pages};
    ghost use Rattle.nb_fields.specs.States.{stalled_state};
    ghost use Rattle.nb_model.specs.Owner.{delta_name};
    ghost use Rattle.nb_base.specs.Open.{Held};

    ghost Value = { Held };

    ghost view = { λ f. record { name = f.name; page_size = f.delta.page_size; state = f.state; forced = f.forced; count = f.count; main_count = f.main_count; entries = f.delta.entries; drafted = f.delta.drafted } };

    ghost invariant = { λ f. IsTrue (is_page_size f.delta.page_size) × (f.count ≤ most_pages) × (f.main_count ≤ most_pages) × (vec_len f.page ≡ f.delta.page_size) × (length f.name ≤ 94) × (f.delta.name ≡ delta_name f.name) × (f.state ≢ stalled_state → f.delta.drafted ≡ 0) × (f.state ≤ 2) };
}

impl TwoFiles {
    /// How many pages the database has.
    pub fn count(&self) -> u32
        ensures value { result ≡ self.now.count }
        ensures most { result ≤ most_pages }
    {
        self.count
    }

    /// In bytes.
    pub fn page_size(&self) -> u32
        ensures value { result ≡ self.now.page_size }
        ensures one_of { IsTrue (is_page_size result) }
    {
        self.page.len() as u32
    }

    /// The backup state: 0 normal, 1 stalled, 2 merge.
    pub fn state(&self) -> u16
        ensures value { result ≡ self.now.state }
        ensures most { result ≤ 2 }
        ensures stalled { result ≢ 1 → self.now.drafted ≡ 0 }
    {
        self.state
    }

    /// Whether each page write is kept for good before the next.
    pub fn forced(&self) -> bool
        ensures { result ≡ self.now.forced }
    {
        self.forced
    }

    /// How many pages the difference file holds; none in the normal state.
    pub fn delta_count(&self) -> u32
        ensures value { result ≡ length self.now.entries }
        ensures most { result ≤ most_pages }
    {
        self.delta.count()
    }

    /// How many pages the main file has, as it is frozen in the stalled state.
    pub fn main_count(&self) -> u32
        ensures value { result ≡ self.now.main_count }
        ensures most { result ≤ most_pages }
    {
        self.main_count
    }

    /// Fills in page `number` of the database, from the file that holds it. Page 0 has its first 64 bytes from the main file, so it may
    /// take two reads; every other page takes one. What the two files hold may lack entries that are drafted, but not the page's.
    pub fn read<H: Host>(
        &mut self,
        host: &mut H,
        number: u32,
        into: &mut [u8],
    ) -> Result<(), HostFault>
        requires size { length into.old ≡ self.old.page_size }
        ensures page { (b : Base) → IsTrue H.tells → ShowsIn self.old.name b (H.world host.old).files → self.old.page_size ≡ image_size b.image → entry_for number self.old.entries ≡ entry_for number b.diverted
            → number < length b.image → OnOk result (into.new ≡ page_at b.image number) }
        ensures open { (t : Trail) → IsTrue H.tells → IsOpen (H.world host.old) self.old t → IsOpen (H.world host.new) self.new t }
        ensures same { self.new ≡ self.old }
        ensures quiet { Quiet (H.world host.old) (H.world host.new) }
        ensures reads { IsTrue H.tells → 0 < number → (H.world host.new).reads ≤ (H.world host.old).reads + 1 }
        ensures first_reads { IsTrue H.tells → (H.world host.new).reads ≤ (H.world host.old).reads + 2 }
        ensures cause { CountsFault result (H.faults host.old) (H.faults host.new) }
    {
        read_owned(host, &self.name, &mut self.delta, number, into)?;
        Ok(())
    }

    /// Replaces page `number` of the database, or adds it at the end. It is kept for good where writes are forced, where it makes the
    /// database longer, and where it is page 0 or an SCN inventory page. A page 0 says whether the writes after it are forced. In the
    /// normal state the difference file isn't touched, and in the stalled state the main file isn't.
    ///
    /// It wants memory in the stalled state alone, and then nothing has changed.
    pub fn write<H: Host>(&mut self, host: &mut H, number: u32, page: &[u8]) -> Result<(), RunError>
        requires size { length page.now ≡ self.old.page_size }
        requires most { number < most_pages }
        requires some { is_zeros page.now ≡ false }
        requires none_waits { self.old.drafted ≡ 0 }
        ensures takes { (t : Trail) → IsTrue H.tells → IsOpen (H.world host.old) self.old t → Fits number page.now t.base.image
            → TakesFirm result (H.world host.old) (H.world host.new) self.old.name (IsOpen (H.world host.new) self.new) t (page_stroke number page.now ∷ []) }
        ensures touches { (t : Trail) → IsTrue H.tells → IsOpen (H.world host.old) self.old t → WritesIn (H.world host.old) (H.world host.new) self.old.state self.old.name }
        ensures within { (t : Trail) (most : ℕ) → IsTrue H.tells → IsOpen (H.world host.old) self.old t → number < most → KeepsFile (H.world host.old) (H.world host.new) self.old.name (EndsWithin (most * self.old.page_size)) }
        ensures merged { (t : Trail) (k : ℕ) → IsTrue H.tells → IsOpen (H.world host.old) self.old t → Fits number page.now t.base.image → self.old.state ≡ merge_state
            → AreMerged (H.world host.old) self.old k → OnOk result (AreMerged (H.world host.new) self.new k) }
        ensures longer { self.old.count ≤ self.new.count }
        ensures added { OnOk result (number < self.new.count) }
        ensures gave { GaveNothing (H.world host.old) (H.world host.new) }
        ensures reads { (H.world host.new).reads ≡ (H.world host.old).reads }
        ensures state { self.new.state ≡ self.old.state }
        ensures entries { self.old.state ≡ merge_state → self.new.entries ≡ self.old.entries }
        ensures name { self.new.name ≡ self.old.name }
        ensures page_size { self.new.page_size ≡ self.old.page_size }
        ensures cause { CountsRun result (H.faults host.old) (H.faults host.new) }
        ensures on_memory { result ≡ Err RunError.Memory → (self.new ≡ self.old) × (host.new ≡ host.old) }
        ensures takes_none { self.old.state ≢ stalled_state → IfErr result (λ error. error ≢ RunError.Memory) }
    {
        let synced = is_synced(self.forced, self.page.len() as u32, self.count, number);
        self.put(host, number, page, synced)?;
        self.count = self.count.max(number + 1);
        self.take_forced(number, page);
        Ok(())
    }

    /// Takes over what a page 0 that was written says of forced writes.
    fn take_forced(&mut self, number: u32, page: &[u8])
        requires { 80 ≤ length page.now }
        ensures same { self.new ≡ record self.old { forced = self.new.forced } }
        ensures first { number ≡ 0 → self.new.forced ≡ not (number_in 64 1 page.now == 0) }
        ensures other { 0 < number → self.new.forced ≡ self.old.forced }
    {
        if number == 0 {
            self.forced = header::Forced::get(page) != 0;
        }
    }

    /// Writes a page by the state, and keeps it for good where it is to be synced.
    fn put<H: Host>(
        &mut self,
        host: &mut H,
        number: u32,
        page: &[u8],
        synced: bool,
    ) -> Result<(), RunError>
        requires size { length page.now ≡ self.old.page_size }
        requires most { number < most_pages }
        requires none_waits { self.old.drafted ≡ 0 }
        ensures takes { (t : Trail) → IsTrue H.tells → IsOpen (H.world host.old) self.old t → IsWrite t number page.now → synced ≡ must_sync t.base.image number
            → TakesFirm result (H.world host.old) (H.world host.new) self.old.name (IsSeen (H.world host.new) self.old.name) t (page_stroke number page.now ∷ []) }
        ensures touches { (t : Trail) → IsTrue H.tells → IsOpen (H.world host.old) self.old t → WritesIn (H.world host.old) (H.world host.new) self.old.state self.old.name }
        ensures within { (t : Trail) (most : ℕ) → IsTrue H.tells → IsOpen (H.world host.old) self.old t → number < most → KeepsFile (H.world host.old) (H.world host.new) self.old.name (EndsWithin (most * self.old.page_size)) }
        ensures merged { (t : Trail) (k : ℕ) → IsTrue H.tells → IsOpen (H.world host.old) self.old t → IsWrite t number page.now → self.old.state ≡ merge_state
            → AreMerged (H.world host.old) self.old k → OnOk result (AreMerged (H.world host.new) self.old k) }
        ensures known { OnOk result (self.new ≡ record self.old { entries = noted_in self.old.state number self.old.entries }) }
        ensures state { self.new.state ≡ self.old.state }
        ensures entries { self.old.state ≡ merge_state → self.new.entries ≡ self.old.entries }
        ensures name { self.new.name ≡ self.old.name }
        ensures page_size { self.new.page_size ≡ self.old.page_size }
        ensures count { self.new.count ≡ self.old.count }
        ensures log { IsSilent (H.world host.old) (H.world host.new) }
        ensures cause { CountsRun result (H.faults host.old) (H.faults host.new) }
        ensures on_memory { result ≡ Err RunError.Memory → (self.new ≡ self.old) × (host.new ≡ host.old) }
        ensures takes_none { self.old.state ≢ stalled_state → IfErr result (λ error. error ≢ RunError.Memory) }
    {
        if is_diverted(self.state) {
            write_stalled(host, &mut self.delta, number, page, synced)
        } else {
            write_plain(
                host,
                &self.name,
                &mut self.delta,
                self.state,
                number,
                page,
                synced,
            )?;
            Ok(())
        }
    }

    /// Keeps both files for good. It changes nothing.
    pub fn sync<H: Host>(&mut self, host: &mut H) -> Result<(), HostFault>
        ensures open { (t : Trail) → IsTrue H.tells → IsOpen (H.world host.old) self.old t → IsOpen (H.world host.new) self.new t }
        ensures settled { (t : Trail) → IsTrue H.tells → IsOpen (H.world host.old) self.old t → OnOk result (IsOpen (H.world host.new) self.new (settled t.base)) }
        ensures kept { (b : Base) → IsTrue H.tells → Agrees self.old b → self.old.drafted ≡ 0 → ShowsIn self.old.name b (H.world host.old).files → OnOk result (IsOpen (H.world host.new) self.new (settled b)) }
        ensures merged { (k : ℕ) → AreMerged (H.world host.old) self.old k → AreMerged (H.world host.new) self.new k }
        ensures same { self.new ≡ self.old }
        ensures quiet { Quiet (H.world host.old) (H.world host.new) }
        ensures reads { (H.world host.new).reads ≡ (H.world host.old).reads }
        ensures cause { CountsFault result (H.faults host.old) (H.faults host.new) }
    {
        sync_both(host, &self.name, &self.name.delta(), self.state != 0)?;
        Ok(())
    }

    /// Fills in page `number` of the main file as it is frozen, in the stalled state.
    pub fn read_main<H: Host>(
        &mut self,
        host: &mut H,
        number: u32,
        into: &mut [u8],
    ) -> Result<(), HostFault>
        requires size { length into.old ≡ self.old.page_size }
        ensures page { (b : Base) → IsTrue H.tells → ShowsIn self.old.name b (H.world host.old).files → self.old.page_size ≡ image_size b.image → image_state b.image ≡ stalled_state → number < length b.frozen
            → OnOk result (into.new ≡ page_at b.frozen number) }
        ensures open { (t : Trail) → IsTrue H.tells → IsOpen (H.world host.old) self.old t → IsOpen (H.world host.new) self.new t }
        ensures same { self.new ≡ self.old }
        ensures quiet { Quiet (H.world host.old) (H.world host.new) }
        ensures reads { IsTrue H.tells → (H.world host.new).reads ≤ (H.world host.old).reads + 1 }
        ensures cause { CountsFault result (H.faults host.old) (H.faults host.new) }
    {
        read_page(host, &self.name, number, into)?;
        Ok(())
    }
}

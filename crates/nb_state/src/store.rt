ghost use Rattle.std.specs.Prelude.{◌≡◌, ◌≢◌, ◌≤◌, ◌<◌, ◌+◌, ◌∷◌, [], length, IsTrue, IsSome, IsOk, IfErr, OnOk, true, false, not, ◌==◌};
ghost use Rattle.nb_fields.specs.Bytes.{is_zeros, number_in};
ghost use Rattle.nb_fields.specs.Places.{is_page_size, most_pages};
ghost use Rattle.nb_fields.specs.States.{normal_state, stalled_state};
ghost use Rattle.nb_host.specs.Causes.{CountsFault, CountsRun};
ghost use Rattle.nb_host.specs.Faults.{as_answer};
ghost use Rattle.nb_change.specs.Gave.{GaveNothing};
ghost use Rattle.nb_page.specs.Quiet.{Quiet};
ghost use Rattle.nb_model.specs.Image.{page_at};
ghost use Rattle.nb_model.specs.Strokes.{page as page_stroke};
ghost use Rattle.nb_model.specs.Trail.{Trail, settled};
ghost use Rattle.nb_base.specs.Stays.{GrowsWithin};
ghost use Rattle.nb_base.specs.Takes.{TakesOn, StrikesIn};
ghost use Rattle.nb_base.specs.Touches.{WrittenIn};
ghost use Rattle.nb_cache.specs.Held.{slot_of};
ghost use Rattle.nb_owner.specs.Open.{may_wait};
ghost use Rattle.nb_state.specs.Open.{IsOpen, HasBlock, NoPageWaits, but_pages, name_of, pair_of};
ghost use Rattle.nb_state.specs.Looks.{Looks};
ghost use Rattle.nb_state.specs.Does.{Makes, Goes};

use crate::front::front_of;
use nb_host::{Host, HostFault, RunError};
use nb_owner::Pair;
use std::marker::Model;

/// An open database.
#[derive(Drop)]
pub struct Store {
    pub(crate) pair: Pair,
    pub(crate) scn: u32,
    pub(crate) guid: [u8; 16],
    pub(crate) read_only: bool,
    pub(crate) running: Option<u32>,
    pub(crate) merged: u32,
}

impl Model for Store {
    ghost use Rattle.std.specs.Prelude.{◌<◌, IsTrue};
    ghost use Rattle.nb_fields.specs.Places.{is_page_size};
    ghost use Rattle.nb_state.specs.Open.{Held};

    ghost Value = { Held };

    ghost view = { λ s. record { files = s.pair.files; scn = s.scn; guid = s.guid; read_only = s.read_only; running = s.running; merged = s.merged; pages = s.pair.pages; cap = s.pair.cap } };

    ghost invariant = { λ s. IsTrue (is_page_size s.pair.files.page_size) × (s.scn < 4294967296) };
}

impl Store {
    /// The size of each page, in bytes.
    pub fn page_size(&self) -> u32
        ensures value { result ≡ self.now.files.page_size }
        ensures one_of { IsTrue (is_page_size result) }
    {
        self.pair.page_size()
    }

    /// How many pages the database has.
    pub fn count(&self) -> u32
        ensures value { result ≡ self.now.files.count }
        ensures most { result ≤ most_pages }
    {
        self.pair.count()
    }

    /// The current SCN.
    pub fn scn(&self) -> u32
        ensures { result ≡ self.now.scn }
    {
        self.scn
    }

    /// The GUID of the last backup, zeros where there was none.
    pub fn guid(&self) -> [u8; 16]
        ensures { result ≡ self.now.guid }
    {
        self.guid
    }

    /// The backup state: 0 normal, 1 stalled, 2 merge.
    pub fn state(&self) -> u16
        ensures value { result ≡ self.now.files.state }
        ensures most { result ≤ 2 }
    {
        self.pair.state()
    }

    /// Whether each page write is kept for good before the next.
    pub fn forced(&self) -> bool
        ensures { result ≡ self.now.files.forced }
    {
        self.pair.forced()
    }

    /// Whether no statement may change a page.
    pub fn is_read_only(&self) -> bool
        ensures { result ≡ self.now.read_only }
    {
        self.read_only
    }

    /// The session whose copy or merge runs.
    pub fn running(&self) -> Option<u32>
        ensures { result ≡ self.now.running }
    {
        self.running
    }

    /// Says whose copy or merge runs.
    pub fn set_running(&mut self, by: Option<u32>)
        ensures { self.new ≡ record self.old { running = by } }
    {
        self.running = by;
    }

    /// How many pages the difference file holds; none in the normal state.
    pub fn delta_count(&self) -> u32
        ensures { result ≡ length self.now.files.entries }
    {
        self.pair.delta_count()
    }

    /// How many pages the main file has.
    pub fn main_count(&self) -> u32
        ensures value { result ≡ self.now.files.main_count }
        ensures most { result ≤ most_pages }
    {
        self.pair.main_count()
    }

    /// How many pages may be in memory.
    pub fn capacity(&self) -> u32
        ensures { result ≡ self.now.cap }
    {
        self.pair.capacity()
    }

    /// How many pages are in memory.
    pub fn held(&self) -> u32
        ensures { result ≡ length self.now.pages }
    {
        self.pair.held()
    }

    /// Fills in page `number`, from memory or from the files, page 0 with the control block that `write` asks for. Nothing changes but which
    /// pages are in memory. Of the host a page in memory asks nothing, page 0 at most two reads, and every other page at most one.
    pub fn read<H: Host>(
        &mut self,
        host: &mut H,
        number: u32,
        into: &mut [u8],
    ) -> Result<(), HostFault>
        requires size { length into.old ≡ self.old.files.page_size }
        ensures page { (t : Trail) → IsTrue H.tells → IsOpen (H.world host.old) self.old t → number < length t.base.image → OnOk result (into.new ≡ page_at t.base.image number) }
        ensures looks { Looks H.tells (H.world host.old) (H.world host.new) self.old self.new }
        ensures control_block { number ≡ 0 → IsTrue H.tells → OnOk result (HasBlock (H.world host.new) self.new into.new) }
        ensures none_waits { NoPageWaits self.old → NoPageWaits self.new }
        ensures in_memory { IsSome (slot_of self.old.pages number) → IsOk result × (host.new ≡ host.old) }
        ensures reads { IsTrue H.tells → 0 < number → (H.world host.new).reads ≤ (H.world host.old).reads + 1 }
        ensures first_reads { IsTrue H.tells → (H.world host.new).reads ≤ (H.world host.old).reads + 2 }
        ensures cause { CountsFault result (H.faults host.old) (H.faults host.new) }
    {
        self.pair.read(host, number, into)
    }

    /// Fills in page `number` of the main file as it is frozen, in the stalled state.
    pub fn read_main<H: Host>(
        &mut self,
        host: &mut H,
        number: u32,
        into: &mut [u8],
    ) -> Result<(), HostFault>
        requires size { length into.old ≡ self.old.files.page_size }
        ensures page { (t : Trail) → IsTrue H.tells → IsOpen (H.world host.old) self.old t → self.old.files.state ≡ stalled_state → number < length t.base.frozen → OnOk result (into.new ≡ page_at t.base.frozen number) }
        ensures open { (t : Trail) → IsTrue H.tells → IsOpen (H.world host.old) self.old t → IsOpen (H.world host.new) self.new t }
        ensures same { self.new ≡ self.old }
        ensures quiet { Quiet (H.world host.old) (H.world host.new) }
        ensures reads { IsTrue H.tells → (H.world host.new).reads ≤ (H.world host.old).reads + 1 }
        ensures cause { CountsFault result (H.faults host.old) (H.faults host.new) }
    {
        self.pair.read_main(host, number, into)
    }

    /// Replaces page `number`, or adds it at the end. Page 0 has to be given with its control block, the first 64 bytes, as `read` gives it. It
    /// is kept for good where writes are forced, where it makes the database longer, and where it is page 0. Every other write may wait in
    /// memory, and then makes no call. In the normal state the difference file isn't touched, and in the stalled state the main file isn't.
    ///
    /// It wants memory in the stalled state alone, and has changed no page then. It has made no call then but to write out what waited, so none
    /// where writes are forced.
    pub fn write<H: Host>(&mut self, host: &mut H, number: u32, page: &[u8]) -> Result<(), RunError>
        requires size { length page.now ≡ self.old.files.page_size }
        requires most { number < most_pages }
        requires some { is_zeros page.now ≡ false }
        requires low { number ≤ self.old.files.count }
        requires control_block { number ≡ 0 → IsTrue H.tells → HasBlock (H.world host.old) self.old page.now }
        ensures makes { (t : Trail) → IsTrue H.tells → IsOpen (H.world host.old) self.old t
            → Makes (as_answer result) (H.world host.old) (H.world host.new) self.old self.new t (page_stroke number page.now ∷ []) }
        ensures added { OnOk result (number < self.new.files.count) }
        ensures goes { Goes self.old self.new }
        ensures reads { (H.world host.new).reads ≡ (H.world host.old).reads }
        ensures cause { CountsRun result (H.faults host.old) (H.faults host.new) }
        ensures waits { may_wait (pair_of self.old) number ≡ true → (self.old.files.state ≡ normal_state → IsOk result) × IfErr result (λ error. error ≡ RunError.Memory) × (host.new ≡ host.old) }
        ensures on_memory { (t : Trail) → IsTrue H.tells → IsOpen (H.world host.old) self.old t → result ≡ Err RunError.Memory
            → StrikesIn (H.world host.old) (H.world host.new) self.old.files.state (name_of self.old) t [] × IsOpen (H.world host.new) self.new t }
        ensures idle { NoPageWaits self.old → result ≡ Err RunError.Memory → (self.new ≡ self.old) × (host.new ≡ host.old) }
        ensures forced { (t : Trail) → IsTrue H.tells → IsOpen (H.world host.old) self.old t → self.old.files.forced ≡ true → result ≡ Err RunError.Memory → (self.new ≡ self.old) × (host.new ≡ host.old) }
        ensures takes_none { self.old.files.state ≢ stalled_state → IfErr result (λ error. error ≢ RunError.Memory) }
    {
        self.pair.write(host, number, page)?;
        self.take_access(number, page);
        Ok(())
    }

    /// Takes over what a page 0 that was written says of changes.
    fn take_access(&mut self, number: u32, page: &[u8])
        requires { 80 ≤ length page.now }
        ensures first { number ≡ 0 → self.new ≡ record self.old { read_only = not (number_in 65 1 page.now == 0) } }
        ensures other { 0 < number → self.new ≡ self.old }
    {
        if number == 0 {
            self.read_only = front_of(page).read_only;
        }
    }

    /// Writes out what waits, and keeps both files for good. It changes no page.
    pub fn sync<H: Host>(&mut self, host: &mut H) -> Result<(), HostFault>
        ensures takes { (t : Trail) → IsTrue H.tells → IsOpen (H.world host.old) self.old t
            → TakesOn result (H.world host.old) (H.world host.new) (WrittenIn self.old.files.state (name_of self.old)) (name_of self.old) (IsOpen (H.world host.new) self.new) t [] }
        ensures long { (t : Trail) → IsTrue H.tells → IsOpen (H.world host.old) self.old t → GrowsWithin (H.world host.old) (H.world host.new) (name_of self.old) self.old.files.page_size t [] }
        ensures settled { (t : Trail) → IsTrue H.tells → IsOpen (H.world host.old) self.old t → OnOk result (IsOpen (H.world host.new) self.new (settled t.base)) }
        ensures same { but_pages self.new ≡ but_pages self.old }
        ensures gave { GaveNothing (H.world host.old) (H.world host.new) }
        ensures reads { (H.world host.new).reads ≡ (H.world host.old).reads }
        ensures cause { CountsFault result (H.faults host.old) (H.faults host.new) }
    {
        self.pair.sync(host)
    }

    /// Writes out what waits. It changes no page. Where nothing waits it makes no call, and at a settled point nothing does.
    pub fn write_out<H: Host>(&mut self, host: &mut H) -> Result<(), HostFault>
        ensures takes { (t : Trail) → IsTrue H.tells → IsOpen (H.world host.old) self.old t
            → TakesOn result (H.world host.old) (H.world host.new) (WrittenIn self.old.files.state (name_of self.old)) (name_of self.old) (IsOpen (H.world host.new) self.new) t [] }
        ensures long { (t : Trail) → IsTrue H.tells → IsOpen (H.world host.old) self.old t → GrowsWithin (H.world host.old) (H.world host.new) (name_of self.old) self.old.files.page_size t [] }
        ensures none { OnOk result (NoPageWaits self.new) }
        ensures idle { NoPageWaits self.old → IsOk result × (self.new ≡ self.old) × (host.new ≡ host.old) }
        ensures at_settled { (t : Trail) → IsTrue H.tells → IsOpen (H.world host.old) self.old t → t.earlier ≡ [] → IsOk result × (self.new ≡ self.old) × (host.new ≡ host.old) }
        ensures same { but_pages self.new ≡ but_pages self.old }
        ensures gave { GaveNothing (H.world host.old) (H.world host.new) }
        ensures reads { (H.world host.new).reads ≡ (H.world host.old).reads }
        ensures cause { CountsFault result (H.faults host.old) (H.faults host.new) }
    {
        self.pair.write_out(host)
    }
}

ghost use Rattle.std.specs.Prelude.{◌≡◌, ◌+◌, ◌<◌, ◌≤◌, [], IsTrue, IsSome, IsOk, IfOk, OnOk, length};
ghost use Rattle.nb_fields.specs.Places.{is_page_size, most_pages};
ghost use Rattle.nb_fields.specs.Fresh.{fresh};
ghost use Rattle.nb_fields.specs.States.{stalled_state};
ghost use Rattle.nb_host.specs.Causes.{CountsDevice, CountsFault};
ghost use Rattle.nb_change.specs.Gave.{GaveNothing};
ghost use Rattle.nb_page.specs.Quiet.{Quiet};
ghost use Rattle.nb_model.specs.Image.{page_at};
ghost use Rattle.nb_model.specs.Lines.{flag};
ghost use Rattle.nb_model.specs.Trail.{Trail, settled};
ghost use Rattle.nb_base.specs.Reads.{opening_reads};
ghost use Rattle.nb_base.specs.Stays.{GrowsWithin};
ghost use Rattle.nb_base.specs.Takes.{TakesOn};
ghost use Rattle.nb_base.specs.Touches.{WrittenIn};
ghost use Rattle.nb_state.specs.Open.{IsOpen, NoPageWaits, but_pages, name_of};
ghost use Rattle.nb_state.specs.Looks.{Looks};
ghost use Rattle.nb_cache.specs.Held.{slot_of};
ghost use Rattle.nb_state.specs.Beginnings.{Attaches, Creates, HoldsNone};

use nb_alloc::{InventoryPage, ScnPage};
use nb_host::{Fault, Host, HostFault, Name};
use nb_state::Store;
use std::alloc::Global;
use std::marker::Model;

/// An open database and the buffers of its pages. Contracts see what is held of the database.
#[derive(Drop)]
pub struct Engine {
    pub(crate) store: Store,
    /// Room for the page that a statement reads or changes.
    pub(crate) page: Vec<u8>,
    /// Room for the SCN inventory page that has its entry.
    pub(crate) scn_page: ScnPage,
    /// Room for the page inventory page that has its bit.
    pub(crate) map: InventoryPage,
}

impl Model for Engine {
    ghost use Rattle.std.specs.Prelude.{◌≡◌, IsTrue, length, vec_len};
    ghost use Rattle.nb_fields.specs.Places.{is_page_size};
    ghost use Rattle.nb_state.specs.Open.{Held};

    ghost Value = { Held };

    ghost view = { λ e. e.store };

    ghost invariant = { λ e. IsTrue (is_page_size e.store.files.page_size) × (vec_len e.page ≡ e.store.files.page_size) × (length e.scn_page ≡ e.store.files.page_size) × (length e.map ≡ e.store.files.page_size) };
}

impl Engine {
    /// Makes a new database with `raw` raw pages, and opens it. The refusal is `FileExists`, where the name is not free; then nothing
    /// has changed. The memory for three of its pages, and for so many in memory, is taken first.
    pub fn create<H: Host>(
        alloc: Global,
        host: &mut H,
        name: &Name,
        page_size: u32,
        raw: u32,
        cache_pages: u32,
    ) -> Result<Engine, Fault>
        requires size { IsTrue (is_page_size page_size) }
        requires raw { raw ≤ 65535 }
        requires name { length name.now ≤ 94 }
        requires some { 0 < cache_pages }
        requires few { cache_pages ≤ 4096 }
        ensures creates { IsTrue H.tells → Creates result (H.world host.old) (H.world host.new) name.now (fresh page_size raw) }
        ensures scn { IfOk result (λ engine. engine.scn < 4294967296) }
        ensures blank { IfOk result (HoldsNone cache_pages) }
        ensures cause { CountsDevice result (H.faults host.old) (H.faults host.new) }
        ensures on_memory { result ≡ Err Fault.Memory → host.new ≡ host.old }
    {
        let page = vec![in alloc; 0; page_size as usize]?;
        let scn_page = ScnPage::new(alloc, page_size)?;
        let map = InventoryPage::new(alloc, page_size)?;
        let store = Store::create(alloc, host, name, page_size, raw, cache_pages)?;
        Ok(Engine {
            store,
            page,
            scn_page,
            map,
        })
    }

    /// Opens a database, and takes the memory for three of its pages and for so many in memory. It changes nothing: what it opens is kept for good before it
    /// answers.
    ///
    /// It reads the header, the allocation pages of the difference file, from the end of the main file on its pages of zeros and the one
    /// before them, and then page 0, in two parts at most.
    ///
    /// The refusals are those of `Store::attach`: `NoFile`, `NotDatabase`, `Unfinished` and `BadDelta`.
    pub fn attach<H: Host>(
        alloc: Global,
        host: &mut H,
        name: &Name,
        cache_pages: u32,
    ) -> Result<Engine, Fault>
        requires name { length name.now ≤ 94 }
        requires some { 0 < cache_pages }
        requires few { cache_pages ≤ 4096 }
        ensures attaches { IsTrue H.tells → Attaches result (H.world host.old) (H.world host.new) name.now }
        ensures scn { IfOk result (λ engine. engine.scn < 4294967296) }
        ensures blank { IfOk result (HoldsNone cache_pages) }
        ensures quiet { Quiet (H.world host.old) (H.world host.new) }
        ensures reads { IsTrue H.tells → IfOk result (λ engine. (H.world host.new).reads ≤ (H.world host.old).reads + opening_reads ((H.world host.old).files name.now) engine.files + 2) }
        ensures cause { CountsDevice result (H.faults host.old) (H.faults host.new) }
    {
        let store = Store::attach(alloc, host, name, cache_pages)?;
        let page_size = store.page_size();
        let page = vec![in alloc; 0; page_size as usize]?;
        let scn_page = ScnPage::new(alloc, page_size)?;
        let map = InventoryPage::new(alloc, page_size)?;
        Ok(Engine {
            store,
            page,
            scn_page,
            map,
        })
    }

    /// The database itself.
    pub fn store(&self) -> &Store
        ensures { result.now ≡ self.now }
    {
        &self.store
    }

    /// The size of each page, in bytes.
    pub fn page_size(&self) -> u32
        ensures value { result ≡ self.now.files.page_size }
        ensures one_of { IsTrue (is_page_size result) }
    {
        self.store.page_size()
    }

    /// How many pages the database has.
    pub fn count(&self) -> u32
        ensures value { result ≡ self.now.files.count }
        ensures most { result ≤ most_pages }
    {
        self.store.count()
    }

    /// How many pages the main file has.
    pub fn main_count(&self) -> u32
        ensures value { result ≡ self.now.files.main_count }
        ensures most { result ≤ most_pages }
    {
        self.store.main_count()
    }

    /// Whether each page write is kept for good before the next.
    pub fn forced(&self) -> bool
        ensures { result ≡ self.now.files.forced }
    {
        self.store.forced()
    }

    /// 1 where no statement may change a page, and 0 otherwise.
    pub fn access(&self) -> u32
        ensures { result ≡ flag self.now.read_only }
    {
        u32::from(self.store.is_read_only())
    }

    /// How many pages may be in memory.
    pub fn capacity(&self) -> u32
        ensures { result ≡ self.now.cap }
    {
        self.store.capacity()
    }

    /// How many pages are in memory.
    pub fn held(&self) -> u32
        ensures { result ≡ length self.now.pages }
    {
        self.store.held()
    }

    /// Says whose copy or merge runs.
    pub fn set_running(&mut self, by: Option<u32>)
        ensures { self.new ≡ record self.old { running = by } }
    {
        self.store.set_running(by);
    }

    /// Fills in page `number`, from memory or from the files. Of the host a page in memory asks nothing, page 0 at most two reads, and
    /// every other page at most one.
    pub fn read<H: Host>(
        &mut self,
        host: &mut H,
        number: u32,
        into: &mut [u8],
    ) -> Result<(), HostFault>
        requires size { length into.old ≡ self.old.files.page_size }
        ensures page { (t : Trail) → IsTrue H.tells → IsOpen (H.world host.old) self.old t → number < length t.base.image → OnOk result (into.new ≡ page_at t.base.image number) }
        ensures looks { Looks H.tells (H.world host.old) (H.world host.new) self.old self.new }
        ensures in_memory { IsSome (slot_of self.old.pages number) → IsOk result × (host.new ≡ host.old) }
        ensures once { IsTrue H.tells → 0 < number → (H.world host.new).reads ≤ (H.world host.old).reads + 1 }
        ensures twice { IsTrue H.tells → (H.world host.new).reads ≤ (H.world host.old).reads + 2 }
        ensures cause { CountsFault result (H.faults host.old) (H.faults host.new) }
    {
        self.store.read(host, number, into)
    }

    /// Fills in page `number` of the main file as it is frozen, in the stalled state.
    pub fn read_main<H: Host>(
        &mut self,
        host: &mut H,
        number: u32,
        into: &mut [u8],
    ) -> Result<(), HostFault>
        requires size { length into.old ≡ self.old.files.page_size }
        ensures page { (t : Trail) → IsTrue H.tells → IsOpen (H.world host.old) self.old t → self.old.files.state ≡ stalled_state → number < length t.base.frozen → OnOk result (into.new ≡ page_at t.base.frozen number) }
        ensures same { self.new ≡ self.old }
        ensures quiet { Quiet (H.world host.old) (H.world host.new) }
        ensures once { IsTrue H.tells → (H.world host.new).reads ≤ (H.world host.old).reads + 1 }
        ensures cause { CountsFault result (H.faults host.old) (H.faults host.new) }
    {
        self.store.read_main(host, number, into)
    }

    /// Keeps the database for good, with each page that waits. It changes no page.
    pub fn sync<H: Host>(&mut self, host: &mut H) -> Result<(), HostFault>
        ensures takes { (t : Trail) → IsTrue H.tells → IsOpen (H.world host.old) self.old t
            → TakesOn result (H.world host.old) (H.world host.new) (WrittenIn self.old.files.state (name_of self.old)) (name_of self.old) (IsOpen (H.world host.new) self.new) t [] }
        ensures long { (t : Trail) → IsTrue H.tells → IsOpen (H.world host.old) self.old t → GrowsWithin (H.world host.old) (H.world host.new) (name_of self.old) self.old.files.page_size t [] }
        ensures settled { (t : Trail) → IsTrue H.tells → IsOpen (H.world host.old) self.old t → OnOk result (IsOpen (H.world host.new) self.new (settled t.base)) }
        ensures same { but_pages self.new ≡ but_pages self.old }
        ensures gave { GaveNothing (H.world host.old) (H.world host.new) }
        ensures reads { (H.world host.new).reads ≡ (H.world host.old).reads }
        ensures cause { CountsFault result (H.faults host.old) (H.faults host.new) }
    {
        self.store.sync(host)
    }

    /// Writes each page that waits into its file. It changes no page. Where none waits it makes no call, and at a settled point none does.
    pub fn write_out<H: Host>(&mut self, host: &mut H) -> Result<(), HostFault>
        ensures takes { (t : Trail) → IsTrue H.tells → IsOpen (H.world host.old) self.old t
            → TakesOn result (H.world host.old) (H.world host.new) (WrittenIn self.old.files.state (name_of self.old)) (name_of self.old) (IsOpen (H.world host.new) self.new) t [] }
        ensures long { (t : Trail) → IsTrue H.tells → IsOpen (H.world host.old) self.old t → GrowsWithin (H.world host.old) (H.world host.new) (name_of self.old) self.old.files.page_size t [] }
        ensures none { OnOk result (NoPageWaits self.new) }
        ensures idle { NoPageWaits self.old → IsOk result × (self.new ≡ self.old) × (host.new ≡ host.old) }
        ensures at_settled { (t : Trail) → IsTrue H.tells → IsOpen (H.world host.old) self.old t → t.earlier ≡ [] → IsOk result × (self.new ≡ self.old) × (host.new ≡ host.old) }
        ensures same { but_pages self.new ≡ but_pages self.old }
        ensures gave { GaveNothing (H.world host.old) (H.world host.new) }
        ensures reads { (H.world host.new).reads ≡ (H.world host.old).reads }
        ensures cause { CountsFault result (H.faults host.old) (H.faults host.new) }
    {
        self.store.write_out(host)
    }
}

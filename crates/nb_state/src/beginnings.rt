// A database is created or opened.
ghost use Rattle.std.specs.Prelude.{◌≡◌, ◌+◌, ◌<◌, ◌≤◌, IsTrue, IfOk, length};
ghost use Rattle.nb_fields.specs.Places.{is_page_size};
ghost use Rattle.nb_fields.specs.Fresh.{fresh};
ghost use Rattle.nb_host.specs.Causes.{CountsDevice};
ghost use Rattle.nb_page.specs.Quiet.{Quiet};
ghost use Rattle.nb_base.specs.Reads.{opening_reads};
ghost use Rattle.nb_state.specs.Beginnings.{Attaches, Creates, HoldsNone};

use crate::Store;
use crate::front::front_of;
use nb_host::{Fault, Host, Name};
use nb_owner::Pair;
use std::alloc::Global;

/// The SCN of a database on which no backup has begun.
const FIRST_SCN: u32 = 1;

impl Store {
    /// Opens a database, and takes memory for so many of its pages. It changes nothing: its files are kept for good before it answers.
    /// After what opening its files reads it reads page 0, in two parts at most.
    ///
    /// The refusals are `NoFile`, `NotDatabase`, `Unfinished`, `NoFile` of the difference file and `BadDelta`, in this order.
    pub fn attach<H: Host>(
        alloc: Global,
        host: &mut H,
        name: &Name,
        cache_pages: u32,
    ) -> Result<Store, Fault>
        requires name { length name.now ≤ 94 }
        requires some { 0 < cache_pages }
        requires few { cache_pages ≤ 4096 }
        ensures attaches { IsTrue H.tells → Attaches result (H.world host.old) (H.world host.new) name.now }
        ensures scn { IfOk result (λ store. store.scn < 4294967296) }
        ensures blank { IfOk result (HoldsNone cache_pages) }
        ensures quiet { Quiet (H.world host.old) (H.world host.new) }
        ensures reads { IsTrue H.tells → IfOk result (λ store. (H.world host.new).reads ≤ (H.world host.old).reads + opening_reads ((H.world host.old).files name.now) store.files + 2) }
        ensures cause { CountsDevice result (H.faults host.old) (H.faults host.new) }
    {
        let (pair, first) = Pair::attach(alloc, host, name, cache_pages)?;
        let front = front_of(&first);
        let guid = front.guid;
        Ok(Store {
            pair,
            scn: front.scn,
            guid,
            read_only: front.read_only,
            running: None,
            merged: 0,
        })
    }

    /// Makes a new database with `raw` raw pages, and opens it. The refusal is `FileExists`, where the name is not free; then nothing
    /// has changed. The memory for so many of its pages is taken first, and where it is wanting no call was made.
    pub fn create<H: Host>(
        alloc: Global,
        host: &mut H,
        name: &Name,
        page_size: u32,
        raw: u32,
        cache_pages: u32,
    ) -> Result<Store, Fault>
        requires size { IsTrue (is_page_size page_size) }
        requires raw { raw ≤ 65535 }
        requires name { length name.now ≤ 94 }
        requires some { 0 < cache_pages }
        requires few { cache_pages ≤ 4096 }
        ensures creates { IsTrue H.tells → Creates result (H.world host.old) (H.world host.new) name.now (fresh page_size raw) }
        ensures page_size { IfOk result (λ store. store.files.page_size ≡ page_size) }
        ensures scn { IfOk result (λ store. store.scn < 4294967296) }
        ensures blank { IfOk result (HoldsNone cache_pages) }
        ensures cause { CountsDevice result (H.faults host.old) (H.faults host.new) }
        ensures on_memory { result ≡ Err Fault.Memory → host.new ≡ host.old }
    {
        let pair = Pair::create(alloc, host, name, page_size, raw, cache_pages)?;
        Ok(Store {
            pair,
            scn: FIRST_SCN,
            guid: [0; 16],
            read_only: false,
            running: None,
            merged: 0,
        })
    }
}

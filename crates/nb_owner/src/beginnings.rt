// A database is created or opened. No page of it is in memory then.
ghost use Rattle.std.specs.Prelude.{◌≡◌, ◌+◌, ◌*◌, ◌<◌, ◌≤◌, IsTrue, IfOk, length};
ghost use Rattle.nb_fields.specs.Places.{is_page_size};
ghost use Rattle.nb_fields.specs.Fresh.{fresh};
ghost use Rattle.nb_host.specs.Causes.{CountsDevice};
ghost use Rattle.nb_page.specs.Quiet.{Quiet};
ghost use Rattle.nb_model.specs.Image.{first_page};
ghost use Rattle.nb_model.specs.Trail.{Trail};
ghost use Rattle.nb_base.specs.Beginnings.{Attaches, Creates, first_of};
ghost use Rattle.nb_base.specs.Open.{IsOpen as AreOpen};
ghost use Rattle.nb_base.specs.Reads.{opening_reads};
ghost use Rattle.nb_base.specs.Stays.{FileIs, EndsWithin};
ghost use Rattle.nb_owner.specs.Beginnings.{files_of, IsBlank};

use crate::Pair;
use nb_base::TwoFiles;
use nb_cache::Cache;
use nb_host::{Fault, Host, Name};
use std::alloc::Global;

impl Pair {
    /// Opens the two files of a database, and takes memory for so many of its pages. It changes nothing: both files are kept for good
    /// before it answers. It answers page 0 too.
    ///
    /// The refusals are `NoFile`, `NotDatabase`, `Unfinished`, `NoFile` of the difference file and `BadDelta`, in this order.
    pub fn attach<H: Host>(
        alloc: Global,
        host: &mut H,
        name: &Name,
        cache_pages: u32,
    ) -> Result<(Pair, Vec<u8>), Fault>
        requires name { length name.now ≤ 94 }
        requires some { 0 < cache_pages }
        requires few { cache_pages ≤ 4096 }
        ensures attaches { IsTrue H.tells → Attaches (files_of (first_of result)) (H.world host.old) (H.world host.new) name.now }
        ensures durable { IsTrue H.tells → IfOk result (λ (pair, page). FileIs (H.world host.new) name.now (λ file. file ≡ (H.world host.old).files name.now)) }
        ensures page { (t : Trail) → IsTrue H.tells → IfOk result (λ (pair, page). AreOpen (H.world host.new) pair.files t → page.items ≡ first_page t.base.image) }
        ensures long { IfOk result (λ (pair, page). length page.items ≡ pair.files.page_size) }
        ensures page_size { IfOk result (λ (pair, page). IsTrue (is_page_size pair.files.page_size)) }
        ensures blank { IfOk result (λ (pair, page). IsBlank cache_pages pair) }
        ensures quiet { Quiet (H.world host.old) (H.world host.new) }
        ensures reads { IsTrue H.tells → IfOk result (λ (pair, page). (H.world host.new).reads ≤ (H.world host.old).reads + opening_reads ((H.world host.old).files name.now) pair.files + 2) }
        ensures cause { CountsDevice result (H.faults host.old) (H.faults host.new) }
    {
        let (files, first) = TwoFiles::attach(alloc, host, name)?;
        let page_size = files.page_size();
        let cache = Cache::new(alloc, cache_pages, page_size)?;
        let page = vec![in alloc; 0u8; page_size as usize]?;
        Ok((Pair { files, cache, page }, first))
    }

    /// Makes a new database with `raw` raw pages, and opens it. The refusal is `FileExists`, where the name is not free; then nothing
    /// has changed. The memory for so many of its pages is taken first, and where it is wanting no call was made.
    pub fn create<H: Host>(
        alloc: Global,
        host: &mut H,
        name: &Name,
        page_size: u32,
        raw: u32,
        cache_pages: u32,
    ) -> Result<Pair, Fault>
        requires size { IsTrue (is_page_size page_size) }
        requires raw { raw ≤ 65535 }
        requires name { length name.now ≤ 94 }
        requires some { 0 < cache_pages }
        requires few { cache_pages ≤ 4096 }
        ensures creates { IsTrue H.tells → Creates (files_of result) (H.world host.old) (H.world host.new) name.now (fresh page_size raw) }
        ensures page_size { IfOk result (λ pair. pair.files.page_size ≡ page_size) }
        ensures within { IsTrue H.tells → IfOk result (λ pair. FileIs (H.world host.new) name.now (EndsWithin (length (fresh page_size raw) * page_size))) }
        ensures blank { IfOk result (IsBlank cache_pages) }
        ensures cause { CountsDevice result (H.faults host.old) (H.faults host.new) }
        ensures on_memory { result ≡ Err Fault.Memory → host.new ≡ host.old }
    {
        let cache = Cache::new(alloc, cache_pages, page_size)?;
        let page = vec![in alloc; 0u8; page_size as usize]?;
        let files = TwoFiles::create(alloc, host, name, page_size, raw)?;
        Ok(Pair { files, cache, page })
    }
}

// Pages are read and written, in memory and in the files.
ghost use Rattle.std.specs.Prelude.{◌≡◌, ◌≢◌, ◌⊎◌, ◌<◌, ◌≤◌, ◌+◌, ℕ, [], ◌∷◌, length, IsTrue, IsSome, IsOk, IfErr, OnOk, OnErr, None, true, false, nat_eq};
ghost use Rattle.nb_fields.specs.Bytes.{is_zeros};
ghost use Rattle.nb_fields.specs.Places.{is_page_size, most_pages};
ghost use Rattle.nb_fields.specs.States.{normal_state, stalled_state, merge_state};
ghost use Rattle.nb_host.specs.Causes.{CountsFault, CountsRun};
ghost use Rattle.nb_change.specs.Gave.{GaveNothing};
ghost use Rattle.nb_page.specs.Quiet.{Quiet};
ghost use Rattle.nb_model.specs.Image.{page_at, is_forced};
ghost use Rattle.nb_model.specs.Strokes.{page as page_stroke};
ghost use Rattle.nb_model.specs.Trail.{Trail, settled};
ghost use Rattle.nb_base.specs.Open.{Fits, AreMerged};
ghost use Rattle.nb_base.specs.Stays.{GrowsWithin};
ghost use Rattle.nb_base.specs.Takes.{Takes, Strikes};
ghost use Rattle.nb_base.specs.Touches.{WritesIn};
ghost use Rattle.nb_cache.specs.Held.{slot_of, rank_of, dropped, NoneWaits};
ghost use Rattle.lru.specs.LruCache.{lru_cache, put_entries};
ghost use Rattle.nb_owner.specs.Open.{IsOpen, HasBlock, may_wait, waits, cache_of, but_drafts, bare, used};

use nb_base::TwoFiles;
use nb_cache::Cache;
use nb_host::{Host, HostFault, RunError};
use std::marker::Model;

/// The two files of one database, and its pages that were used last.
#[derive(Drop)]
pub struct Pair {
    pub(crate) files: TwoFiles,
    pub(crate) cache: Cache,
    /// Room for one page.
    pub(crate) page: Vec<u8>,
}

impl Model for Pair {
    ghost use Rattle.std.specs.Prelude.{◌≡◌, vec_len};
    ghost use Rattle.nb_fields.specs.States.{merge_state};
    ghost use Rattle.nb_cache.specs.Held.{NoneWaits};
    ghost use Rattle.nb_owner.specs.Open.{Held, IsValid};

    ghost Value = { Held };

    ghost view = { λ p. record { files = p.files; pages = p.cache.pages; cap = p.cache.cap } };

    // No page is in memory twice, and in the merge state none waits to be written.
    ghost invariant = { λ p. IsValid p.cache p.files.page_size × (vec_len p.page ≡ p.files.page_size) × (p.files.state ≡ merge_state → NoneWaits p.cache.pages) };
}

impl Pair {
    /// How many pages the database has.
    pub fn count(&self) -> u32
        ensures value { result ≡ self.now.files.count }
        ensures most { result ≤ most_pages }
    {
        self.files.count()
    }

    /// In bytes.
    pub fn page_size(&self) -> u32
        ensures value { result ≡ self.now.files.page_size }
        ensures one_of { IsTrue (is_page_size result) }
    {
        self.files.page_size()
    }

    /// The backup state: 0 normal, 1 stalled, 2 merge.
    pub fn state(&self) -> u16
        ensures value { result ≡ self.now.files.state }
        ensures most { result ≤ 2 }
    {
        self.files.state()
    }

    /// Whether each page write is kept for good before the next.
    pub fn forced(&self) -> bool
        ensures { result ≡ self.now.files.forced }
    {
        self.files.forced()
    }

    /// How many pages the difference file holds; none in the normal state.
    pub fn delta_count(&self) -> u32
        ensures value { result ≡ length self.now.files.entries }
        ensures most { result ≤ most_pages }
    {
        self.files.delta_count()
    }

    /// How many pages the main file has, as it is frozen in the stalled state.
    pub fn main_count(&self) -> u32
        ensures value { result ≡ self.now.files.main_count }
        ensures most { result ≤ most_pages }
    {
        self.files.main_count()
    }

    /// How many pages may be in memory.
    pub fn capacity(&self) -> u32
        ensures { result ≡ self.now.cap }
    {
        self.cache.capacity()
    }

    /// How many pages are in memory.
    pub fn held(&self) -> u32
        ensures { result ≡ length self.now.pages }
    {
        self.cache.held()
    }

    /// Fills in page `number` of the database, from memory or from the file that holds it, page 0 with the control block that `write` asks
    /// for. It then is the page in memory that was used last; but where it would drop a page that waits, nothing in memory changes. It lets no
    /// page wait that didn't. Of the host a page in memory asks nothing, page 0 at most two reads, and every other page at most one.
    pub fn read<H: Host>(
        &mut self,
        host: &mut H,
        number: u32,
        into: &mut [u8],
    ) -> Result<(), HostFault>
        requires size { length into.old ≡ self.old.files.page_size }
        ensures page { (t : Trail) → IsTrue H.tells → IsOpen (H.world host.old) self.old t → number < length t.base.image → OnOk result (into.new ≡ page_at t.base.image number) }
        ensures control_block { number ≡ 0 → IsTrue H.tells → OnOk result (HasBlock (H.world host.new) self.new into.new) }
        ensures open { (t : Trail) → IsTrue H.tells → IsOpen (H.world host.old) self.old t → IsOpen (H.world host.new) self.new t }
        ensures used { number < self.old.files.count → dropped (cache_of self.old) number ≡ None → OnOk result (bare self.new.pages ≡ used (bare self.old.pages) self.old.cap number into.new) }
        ensures ranks { (p : ℕ) → rank_of self.new.pages p ≡ rank_of self.old.pages p }
        ensures none_waits { NoneWaits self.old.pages → NoneWaits self.new.pages }
        ensures full { IsSome (dropped (cache_of self.old) number) → self.new ≡ self.old }
        ensures failed { OnErr result (self.new ≡ self.old) }
        ensures same { self.new ≡ record self.old { pages = self.new.pages } }
        ensures in_memory { IsSome (slot_of self.old.pages number) → IsOk result × (host.new ≡ host.old) }
        ensures quiet { Quiet (H.world host.old) (H.world host.new) }
        ensures reads { IsTrue H.tells → 0 < number → (H.world host.new).reads ≤ (H.world host.old).reads + 1 }
        ensures first_reads { IsTrue H.tells → (H.world host.new).reads ≤ (H.world host.old).reads + 2 }
        ensures cause { CountsFault result (H.faults host.old) (H.faults host.new) }
    {
        if self.cache.look(number, into) {
            return Ok(());
        }
        self.fetch(host, number, into)
    }

    /// Fills in page `number`, which isn't in memory, from the file that holds it, and has it in memory then.
    fn fetch<H: Host>(
        &mut self,
        host: &mut H,
        number: u32,
        into: &mut [u8],
    ) -> Result<(), HostFault>
        requires size { length into.old ≡ self.old.files.page_size }
        requires absent { slot_of self.old.pages number ≡ None }
        ensures page { (t : Trail) → IsTrue H.tells → IsOpen (H.world host.old) self.old t → number < length t.base.image → OnOk result (into.new ≡ page_at t.base.image number) }
        ensures control_block { number ≡ 0 → IsTrue H.tells → OnOk result (HasBlock (H.world host.new) self.new into.new) }
        ensures open { (t : Trail) → IsTrue H.tells → IsOpen (H.world host.old) self.old t → IsOpen (H.world host.new) self.new t }
        ensures used { number < self.old.files.count → dropped (cache_of self.old) number ≡ None → OnOk result (bare self.new.pages ≡ used (bare self.old.pages) self.old.cap number into.new) }
        ensures ranks { (p : ℕ) → rank_of self.new.pages p ≡ rank_of self.old.pages p }
        ensures none_waits { NoneWaits self.old.pages → NoneWaits self.new.pages }
        ensures full { IsSome (dropped (cache_of self.old) number) → self.new ≡ self.old }
        ensures failed { OnErr result (self.new ≡ self.old) }
        ensures same { self.new ≡ record self.old { pages = self.new.pages } }
        ensures quiet { Quiet (H.world host.old) (H.world host.new) }
        ensures reads { IsTrue H.tells → 0 < number → (H.world host.new).reads ≤ (H.world host.old).reads + 1 }
        ensures first_reads { IsTrue H.tells → (H.world host.new).reads ≤ (H.world host.old).reads + 2 }
        ensures cause { CountsFault result (H.faults host.old) (H.faults host.new) }
    {
        self.files.read(host, number, into)?;
        self.keep_read(number, into);
        Ok(())
    }

    /// Has a page in memory that was read, unless a page that waits would be dropped.
    fn keep_read(&mut self, number: u32, page: &[u8])
        requires size { length page.now ≡ self.old.files.page_size }
        requires absent { slot_of self.old.pages number ≡ None }
        ensures used { number < self.old.files.count → dropped (cache_of self.old) number ≡ None
            → self.new ≡ record self.old { pages = put_entries nat_eq (lru_cache self.old.pages self.old.cap) number (record { bytes = page.now; rank = None }) } }
        ensures none_waits { NoneWaits self.old.pages → NoneWaits self.new.pages }
        ensures full { IsSome (dropped (cache_of self.old) number) → self.new ≡ self.old }
        ensures either { (self.new ≡ self.old)
            ⊎ ((number < self.old.files.count) × (dropped (cache_of self.old) number ≡ None) × (self.new ≡ record self.old { pages = put_entries nat_eq (lru_cache self.old.pages self.old.cap) number (record { bytes = page.now; rank = None }) })) }
    {
        if number < self.files.count() && self.cache.would_drop(number).is_none() {
            self.cache.keep(number, page);
        }
    }

    /// Replaces page `number` of the database, or adds it at the end. It then is the page in memory that was used last. Page 0 has to be given
    /// with its control block, the first 64 bytes, as `read` gives it.
    ///
    /// Where writes aren't forced, in the normal and the stalled state, a page below the length other than page 0 waits in memory, unless to
    /// keep it drops a page that waits: then no call is made, and it is seen at once. In the stalled state its entry is drafted, unless it has
    /// one, which may want memory. Every other write first writes out what waits. It is kept for good where writes are forced, where it
    /// makes the database longer, and where it is page 0 or an SCN inventory page. In the normal state the difference file isn't touched, and
    /// in the stalled state the main file isn't.
    ///
    /// It wants memory in the stalled state alone, and has changed no page then. It has made no call then but to write out what waited, so none
    /// where writes are forced.
    pub fn write<H: Host>(&mut self, host: &mut H, number: u32, page: &[u8]) -> Result<(), RunError>
        requires size { length page.now ≡ self.old.files.page_size }
        requires most { number < most_pages }
        requires some { is_zeros page.now ≡ false }
        requires low { number ≤ self.old.files.count }
        requires control_block { number ≡ 0 → IsTrue H.tells → HasBlock (H.world host.old) self.old page.now }
        ensures takes { (t : Trail) → IsTrue H.tells → IsOpen (H.world host.old) self.old t
            → Takes result (H.world host.old) (H.world host.new) self.old.files.name (IsOpen (H.world host.new) self.new) t (page_stroke number page.now ∷ []) }
        ensures touches { (t : Trail) → IsTrue H.tells → IsOpen (H.world host.old) self.old t → WritesIn (H.world host.old) (H.world host.new) self.old.files.state self.old.files.name }
        ensures within { (t : Trail) → IsTrue H.tells → IsOpen (H.world host.old) self.old t → GrowsWithin (H.world host.old) (H.world host.new) self.old.files.name self.old.files.page_size t (page_stroke number page.now ∷ []) }
        ensures merged { (t : Trail) (k : ℕ) → IsTrue H.tells → IsOpen (H.world host.old) self.old t → self.old.files.state ≡ merge_state
            → AreMerged (H.world host.old) self.old.files k → OnOk result (AreMerged (H.world host.new) self.new.files k) }
        ensures waits { may_wait self.old number ≡ true → (self.old.files.state ≡ normal_state → IsOk result) × IfErr result (λ error. error ≡ RunError.Memory) × (host.new ≡ host.old) × OnOk result (waits self.new.pages number ≡ true) }
        ensures others { may_wait self.old number ≡ true → (p : ℕ) → p ≢ number → rank_of self.new.pages p ≡ rank_of self.old.pages p }
        ensures goes_out { may_wait self.old number ≡ false → OnOk result (NoneWaits self.new.pages) }
        ensures used { OnOk result (bare self.new.pages ≡ used (bare self.old.pages) self.old.cap number page.now) }
        ensures failed { OnErr result (bare self.new.pages ≡ bare self.old.pages) }
        ensures longer { self.old.files.count ≤ self.new.files.count }
        ensures added { OnOk result (number < self.new.files.count) }
        ensures cap { self.new.cap ≡ self.old.cap }
        ensures gave { GaveNothing (H.world host.old) (H.world host.new) }
        ensures reads { (H.world host.new).reads ≡ (H.world host.old).reads }
        ensures state { self.new.files.state ≡ self.old.files.state }
        ensures entries { self.old.files.state ≡ merge_state → self.new.files.entries ≡ self.old.files.entries }
        ensures name { self.new.files.name ≡ self.old.files.name }
        ensures page_size { self.new.files.page_size ≡ self.old.files.page_size }
        ensures cause { CountsRun result (H.faults host.old) (H.faults host.new) }
        ensures on_memory { (t : Trail) → IsTrue H.tells → IsOpen (H.world host.old) self.old t → result ≡ Err RunError.Memory
            → Strikes (H.world host.old) (H.world host.new) self.old.files.name t [] × IsOpen (H.world host.new) self.new t }
        ensures forced { (t : Trail) → IsTrue H.tells → IsOpen (H.world host.old) self.old t → is_forced t.base.image ≡ true → result ≡ Err RunError.Memory → (self.new ≡ self.old) × (host.new ≡ host.old) }
        ensures idle { NoneWaits self.old.pages → self.old.files.drafted ≡ 0 → result ≡ Err RunError.Memory → (self.new ≡ self.old) × (host.new ≡ host.old) }
        ensures takes_none { self.old.files.state ≢ stalled_state → IfErr result (λ error. error ≢ RunError.Memory) }
    {
        if self.may_wait(number) {
            self.hold(host, number, page)?;
            return Ok(());
        }
        self.write_out(host)?;
        self.write_through(host, number, page)
    }

    /// Writes a page into its files, where none waits.
    fn write_through<H: Host>(
        &mut self,
        host: &mut H,
        number: u32,
        page: &[u8],
    ) -> Result<(), RunError>
        requires size { length page.now ≡ self.old.files.page_size }
        requires most { number < most_pages }
        requires some { is_zeros page.now ≡ false }
        requires none { NoneWaits self.old.pages }
        requires no_drafts { self.old.files.drafted ≡ 0 }
        ensures takes { (t : Trail) → IsTrue H.tells → IsOpen (H.world host.old) self.old t → Fits number page.now t.base.image
            → Takes result (H.world host.old) (H.world host.new) self.old.files.name (IsOpen (H.world host.new) self.new) t (page_stroke number page.now ∷ []) }
        ensures touches { (t : Trail) → IsTrue H.tells → IsOpen (H.world host.old) self.old t → WritesIn (H.world host.old) (H.world host.new) self.old.files.state self.old.files.name }
        ensures within { (t : Trail) → IsTrue H.tells → IsOpen (H.world host.old) self.old t → Fits number page.now t.base.image → GrowsWithin (H.world host.old) (H.world host.new) self.old.files.name self.old.files.page_size t (page_stroke number page.now ∷ []) }
        ensures merged { (t : Trail) (k : ℕ) → IsTrue H.tells → IsOpen (H.world host.old) self.old t → Fits number page.now t.base.image → self.old.files.state ≡ merge_state
            → AreMerged (H.world host.old) self.old.files k → OnOk result (AreMerged (H.world host.new) self.new.files k) }
        ensures used { OnOk result (bare self.new.pages ≡ used (bare self.old.pages) self.old.cap number page.now) }
        ensures none { OnOk result (NoneWaits self.new.pages) }
        ensures failed { OnErr result (self.new.pages ≡ self.old.pages) }
        ensures longer { self.old.files.count ≤ self.new.files.count }
        ensures added { OnOk result (number < self.new.files.count) }
        ensures cap { self.new.cap ≡ self.old.cap }
        ensures gave { GaveNothing (H.world host.old) (H.world host.new) }
        ensures reads { (H.world host.new).reads ≡ (H.world host.old).reads }
        ensures state { self.new.files.state ≡ self.old.files.state }
        ensures entries { self.old.files.state ≡ merge_state → self.new.files.entries ≡ self.old.files.entries }
        ensures name { self.new.files.name ≡ self.old.files.name }
        ensures page_size { self.new.files.page_size ≡ self.old.files.page_size }
        ensures cause { CountsRun result (H.faults host.old) (H.faults host.new) }
        ensures on_memory { result ≡ Err RunError.Memory → (self.new ≡ self.old) × (host.new ≡ host.old) }
        ensures takes_none { self.old.files.state ≢ stalled_state → IfErr result (λ error. error ≢ RunError.Memory) }
    {
        self.files.write(host, number, page)?;
        self.cache.keep(number, page);
        Ok(())
    }

    /// Writes out what waits, and keeps both files for good. It changes no page.
    pub fn sync<H: Host>(&mut self, host: &mut H) -> Result<(), HostFault>
        ensures takes { (t : Trail) → IsTrue H.tells → IsOpen (H.world host.old) self.old t
            → Takes result (H.world host.old) (H.world host.new) self.old.files.name (IsOpen (H.world host.new) self.new) t [] }
        ensures touches { (t : Trail) → IsTrue H.tells → IsOpen (H.world host.old) self.old t → WritesIn (H.world host.old) (H.world host.new) self.old.files.state self.old.files.name }
        ensures within { (t : Trail) → IsTrue H.tells → IsOpen (H.world host.old) self.old t → GrowsWithin (H.world host.old) (H.world host.new) self.old.files.name self.old.files.page_size t [] }
        ensures settled { (t : Trail) → IsTrue H.tells → IsOpen (H.world host.old) self.old t → OnOk result (IsOpen (H.world host.new) self.new (settled t.base)) }
        ensures merged { (k : ℕ) → self.old.files.state ≡ merge_state → AreMerged (H.world host.old) self.old.files k → AreMerged (H.world host.new) self.new.files k }
        ensures files { but_drafts self.new.files ≡ but_drafts self.old.files }
        ensures bare { bare self.new.pages ≡ bare self.old.pages }
        ensures cap { self.new.cap ≡ self.old.cap }
        ensures gave { GaveNothing (H.world host.old) (H.world host.new) }
        ensures reads { (H.world host.new).reads ≡ (H.world host.old).reads }
        ensures cause { CountsFault result (H.faults host.old) (H.faults host.new) }
    {
        self.write_out(host)?;
        self.sync_files(host)
    }

    /// Keeps both files for good, where no page waits.
    fn sync_files<H: Host>(&mut self, host: &mut H) -> Result<(), HostFault>
        requires none { NoneWaits self.old.pages }
        ensures open { (t : Trail) → IsTrue H.tells → IsOpen (H.world host.old) self.old t → IsOpen (H.world host.new) self.new t }
        ensures settled { (t : Trail) → IsTrue H.tells → IsOpen (H.world host.old) self.old t → OnOk result (IsOpen (H.world host.new) self.new (settled t.base)) }
        ensures merged { (k : ℕ) → AreMerged (H.world host.old) self.old.files k → AreMerged (H.world host.new) self.new.files k }
        ensures same { self.new ≡ self.old }
        ensures quiet { Quiet (H.world host.old) (H.world host.new) }
        ensures reads { (H.world host.new).reads ≡ (H.world host.old).reads }
        ensures cause { CountsFault result (H.faults host.old) (H.faults host.new) }
    {
        self.files.sync(host)
    }

    /// Fills in page `number` of the main file as it is frozen, in the stalled state. It goes past the pages in memory.
    pub fn read_main<H: Host>(
        &mut self,
        host: &mut H,
        number: u32,
        into: &mut [u8],
    ) -> Result<(), HostFault>
        requires size { length into.old ≡ self.old.files.page_size }
        ensures page { (t : Trail) → IsTrue H.tells → IsOpen (H.world host.old) self.old t → self.old.files.state ≡ stalled_state → number < length t.base.frozen → OnOk result (into.new ≡ page_at t.base.frozen number) }
        ensures open { (t : Trail) → IsTrue H.tells → IsOpen (H.world host.old) self.old t → IsOpen (H.world host.new) self.new t }
        ensures same { self.new ≡ self.old }
        ensures quiet { Quiet (H.world host.old) (H.world host.new) }
        ensures reads { IsTrue H.tells → (H.world host.new).reads ≤ (H.world host.old).reads + 1 }
        ensures cause { CountsFault result (H.faults host.old) (H.faults host.new) }
    {
        self.files.read_main(host, number, into)
    }
}

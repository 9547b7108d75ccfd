// Pages wait in memory where writes aren't forced, and go out by rank. In the normal state SCN inventory pages go first, which are kept for
// good before any other page follows. In the stalled state pages go into their slots first, which are kept for good before any
// allocation page names them.
ghost use Rattle.std.specs.Prelude.{◌≡◌, ◌≢◌, ◌<◌, ◌≤◌, ◌*◌, ℕ, [], length, IsTrue, IsOk, IfErr, OnOk, OnErr, MatchOption, Some, None, true, false, nat_eq};
ghost use Rattle.nb_fields.specs.Places.{is_scn_place, most_pages};
ghost use Rattle.nb_fields.specs.States.{normal_state, stalled_state, merge_state};
ghost use Rattle.nb_host.specs.Causes.{CountsFault};
ghost use Rattle.nb_host.specs.declared.faults.RunError.TheVariants.{Memory};
ghost use Rattle.nb_change.specs.Changes.{Only, Changes};
ghost use Rattle.nb_change.specs.Gave.{GaveNothing};
ghost use Rattle.nb_model.specs.Account.{Base};
ghost use Rattle.nb_model.specs.Image.{page_at, image_state, is_forced};
ghost use Rattle.nb_model.specs.Owner.{delta_name};
ghost use Rattle.nb_model.specs.Strokes.{page as page_stroke, on_base};
ghost use Rattle.nb_model.specs.Trail.{Trail, IsFirm, StandsIn, ShowsIn};
ghost use Rattle.nb_model.specs.Behind.{IsOnTheWay};
ghost use Rattle.nb_base.specs.Going.{Drafts};
ghost use Rattle.nb_base.specs.Put.{MayPut, PutLeft};
ghost use Rattle.nb_base.specs.Stays.{KeepsFile, EndsWithin, GrowsWithin};
ghost use Rattle.nb_base.specs.Takes.{Takes};
ghost use Rattle.nb_base.specs.Touches.{WritesIn};
ghost use Rattle.nb_cache.specs.Held.{rank_of, with_rank, dropped, NoneWaits};
ghost use Rattle.lru.specs.LruCache.{lru_cache, put_entries};
ghost use Rattle.nb_owner.specs.Open.{IsOpen, AreOf, AreBelow, GoesOut, GoesSlot, IsValid, NoScnWaits, may_wait, cache_of, but_drafts, rank_in, bare};

use crate::Pair;
use nb_fields::is_scn_place;
use nb_fields::states::STALLED;
use nb_host::{Host, HostFault, RunError};

/// The rank of a page that goes into its slot.
const SLOT: u8 = 0;

/// The ranks of pages of the main file.
const SCN_PAGE: u8 = 2;

const OTHER_PAGE: u8 = 3;

impl Pair {
    /// Whether a write of page `number` waits.
    pub(crate) fn may_wait(&self, number: u32) -> bool
        ensures value { result ≡ may_wait self.now number }
        ensures valid { IsValid (cache_of self.now) self.now.files.page_size }
    {
        !self.files.forced()
            && self.files.state() < 2
            && number != 0
            && number < self.files.count()
            && self.cache.would_drop(number).is_none()
    }

    /// Has page `number` in memory, where it waits. In the stalled state it has an entry then, which is drafted unless it was there. Where
    /// that wants memory nothing has changed.
    pub(crate) fn hold<H: Host>(
        &mut self,
        host: &mut H,
        number: u32,
        page: &[u8],
    ) -> Result<(), RunError>
        requires size { length page.now ≡ self.old.files.page_size }
        requires below { number < most_pages }
        requires early { self.old.files.state ≤ 1 }
        requires drops_none { dropped (cache_of self.old) number ≡ None }
        ensures held { OnOk result (self.new.pages ≡ with_rank number (Some (rank_in self.old.files.state self.old.files.page_size number))
            (put_entries nat_eq (lru_cache self.old.pages self.old.cap) number (record { bytes = page.now; rank = rank_of self.old.pages number }))) }
        ensures normal { self.old.files.state ≡ normal_state → IsOk result × (self.new.files ≡ self.old.files) }
        ensures drafts { self.old.files.state ≡ stalled_state → OnOk result (Drafts number self.old.files self.new.files) }
        ensures cap { self.new.cap ≡ self.old.cap }
        ensures no_call { host.new ≡ host.old }
        ensures only_memory { IfErr result (λ error. (error ≡ Memory) × (self.new ≡ self.old)) }
    {
        if self.files.state() == STALLED {
            self.files.draft(host, number)?;
            self.keep_waiting(number, page, SLOT);
            Ok(())
        } else {
            let rank = self.main_rank(number);
            self.keep_waiting(number, page, rank);
            Ok(())
        }
    }

    /// The rank of a page of the main file.
    fn main_rank(&self, number: u32) -> u8
        requires below { number < most_pages }
        ensures { result ≡ elim (is_scn_place self.now.files.page_size number) [ true ↦ 2 | false ↦ 3 ] }
    {
        if is_scn_place(self.files.page_size(), number) {
            SCN_PAGE
        } else {
            OTHER_PAGE
        }
    }

    /// Has a page in memory, where it waits with that rank.
    fn keep_waiting(&mut self, number: u32, page: &[u8], rank: u8)
        requires size { length page.now ≡ self.old.files.page_size }
        requires early { self.old.files.state ≤ 1 }
        requires drops_none { dropped (cache_of self.old) number ≡ None }
        ensures held { self.new ≡ record self.old {
          pages = with_rank number (Some rank)
              (put_entries nat_eq (lru_cache self.old.pages self.old.cap) number (record { bytes = page.now; rank = rank_of self.old.pages number }));
        } }
    {
        self.cache.keep(number, page);
        self.cache.dirty(number, rank);
    }

    /// The SCN page that goes out next, where one waits.
    fn next_scn_page(&self) -> Option<u32>
        ensures { MatchOption result ((p rank : ℕ) → rank_of self.now.pages p ≡ Some rank → 2 < rank) (λ p. (rank : ℕ) × (rank_of self.now.pages p ≡ Some rank) × (rank ≤ 2)) }
    {
        match self.cache.next_dirty() {
            Some((number, rank)) => { if rank <= SCN_PAGE { Some(number) } else { None } }
            None => None,
        }
    }

    /// The page that goes out next, where one waits.
    fn next_page(&self) -> Option<u32>
        ensures next { MatchOption result (NoneWaits self.now.pages) (λ p. (rank : ℕ) × (rank_of self.now.pages p ≡ Some rank)) }
        ensures merge { self.now.files.state ≡ merge_state → result ≡ None }
    {
        match self.cache.next_dirty() {
            Some((number, _)) => Some(number),
            None => None,
        }
    }

    /// Writes a page that waits into the file that owns it. It waits no longer then.
    fn flush_next<H: Host>(&mut self, host: &mut H, number: u32) -> Result<(), HostFault>
        requires waits { (rank : ℕ) × (rank_of self.old.pages number ≡ Some rank) }
        ensures left { (t : Trail) → IsTrue H.tells → AreOf t.base.image self.old.pages
            → Changes (H.world host.old) (H.world host.new) (Only self.old.files.name) (PutLeft (H.world host.old) self.old.files.name number (page_at t.base.image number)) }
        ensures put { (t : Trail) (b : Base) → IsTrue H.tells → AreOf t.base.image self.old.pages → ShowsIn self.old.files.name b (H.world host.old).files → MayPut b number (page_at t.base.image number)
            → OnOk result (ShowsIn self.old.files.name (on_base (page_stroke number (page_at t.base.image number)) b) (H.world host.new).files) }
        ensures long { (t : Trail) → AreOf t.base.image self.old.pages → length (page_at t.base.image number) ≡ self.old.files.page_size }
        ensures within { (most : ℕ) → IsTrue H.tells → number < most → KeepsFile (H.world host.old) (H.world host.new) self.old.files.name (EndsWithin (most * self.old.files.page_size)) }
        ensures done { OnOk result (self.new ≡ record self.old { pages = with_rank number None self.old.pages }) }
        ensures failed { OnErr result (self.new ≡ self.old) }
        ensures gave { GaveNothing (H.world host.old) (H.world host.new) }
        ensures reads { (H.world host.new).reads ≡ (H.world host.old).reads }
        ensures cause { CountsFault result (H.faults host.old) (H.faults host.new) }
    {
        self.cache.peek(number, &mut self.page);
        self.files.put_out(host, number, &self.page)?;
        self.cache.clean(number);
        Ok(())
    }

    /// Writes each SCN page that waits.
    fn flush_scn_pages<H: Host>(&mut self, host: &mut H) -> Result<(), HostFault>
        ensures left { (f t : Trail) → IsTrue H.tells → GoesOut (H.world host.old) self.old f t (IsOnTheWay f t) → t.earlier ≢ []
            → Changes (H.world host.old) (H.world host.new) (Only self.old.files.name) (StandsIn self.old.files.name t) }
        ensures out { (f t : Trail) → IsTrue H.tells → GoesOut (H.world host.old) self.old f t (IsOnTheWay f t) → t.earlier ≢ []
            → OnOk result (GoesOut (H.world host.new) self.new f t (IsOnTheWay f t) × NoScnWaits t self.new.pages) }
        ensures within { (most : ℕ) → IsTrue H.tells → AreBelow most self.old.pages → KeepsFile (H.world host.old) (H.world host.new) self.old.files.name (EndsWithin (most * self.old.files.page_size)) }
        ensures files { self.new.files ≡ self.old.files }
        ensures bare { bare self.new.pages ≡ bare self.old.pages }
        ensures cap { self.new.cap ≡ self.old.cap }
        ensures gave { GaveNothing (H.world host.old) (H.world host.new) }
        ensures reads { (H.world host.new).reads ≡ (H.world host.old).reads }
        ensures cause { CountsFault result (H.faults host.old) (H.faults host.new) }
    {
        while let Some(number) = self.next_scn_page() {
            self.flush_next(host, number)?;
        }
        Ok(())
    }

    /// Writes each page that waits.
    fn flush_pages<H: Host>(&mut self, host: &mut H) -> Result<(), HostFault>
        ensures left { (f t : Trail) → IsTrue H.tells → GoesOut (H.world host.old) self.old f t (IsFirm t) → NoScnWaits t self.old.pages
            → Changes (H.world host.old) (H.world host.new) (Only self.old.files.name) (StandsIn self.old.files.name t) }
        ensures out { (f t : Trail) → IsTrue H.tells → GoesOut (H.world host.old) self.old f t (IsFirm t) → NoScnWaits t self.old.pages
            → OnOk result (IsOpen (H.world host.new) self.new t) }
        ensures none { OnOk result (NoneWaits self.new.pages) }
        ensures within { (most : ℕ) → IsTrue H.tells → AreBelow most self.old.pages → KeepsFile (H.world host.old) (H.world host.new) self.old.files.name (EndsWithin (most * self.old.files.page_size)) }
        ensures files { self.new.files ≡ self.old.files }
        ensures bare { bare self.new.pages ≡ bare self.old.pages }
        ensures cap { self.new.cap ≡ self.old.cap }
        ensures gave { GaveNothing (H.world host.old) (H.world host.new) }
        ensures reads { (H.world host.new).reads ≡ (H.world host.old).reads }
        ensures cause { CountsFault result (H.faults host.old) (H.faults host.new) }
    {
        while let Some(number) = self.next_page() {
            self.flush_next(host, number)?;
        }
        Ok(())
    }

    /// Writes the SCN pages that wait, and keeps them for good.
    fn flush_first<H: Host>(&mut self, host: &mut H) -> Result<(), HostFault>
        ensures left { (t : Trail) → IsTrue H.tells → IsOpen (H.world host.old) self.old t → t.earlier ≢ [] → image_state t.base.image ≡ normal_state
            → Changes (H.world host.old) (H.world host.new) (Only self.old.files.name) (StandsIn self.old.files.name t) }
        ensures out { (t : Trail) (is : IsOpen (H.world host.old) self.old t) → IsTrue H.tells → t.earlier ≢ [] → image_state t.base.image ≡ normal_state
            → OnOk result (GoesOut (H.world host.new) self.new is.sees t (IsFirm t) × NoScnWaits t self.new.pages) }
        ensures within { (most : ℕ) → IsTrue H.tells → AreBelow most self.old.pages → KeepsFile (H.world host.old) (H.world host.new) self.old.files.name (EndsWithin (most * self.old.files.page_size)) }
        ensures files { self.new.files ≡ self.old.files }
        ensures bare { bare self.new.pages ≡ bare self.old.pages }
        ensures cap { self.new.cap ≡ self.old.cap }
        ensures gave { GaveNothing (H.world host.old) (H.world host.new) }
        ensures reads { (H.world host.new).reads ≡ (H.world host.old).reads }
        ensures cause { CountsFault result (H.faults host.old) (H.faults host.new) }
    {
        match self.next_scn_page() {
            Some(_) => {
                self.flush_scn_pages(host)?;
                self.files.sync(host)
            }
            None => Ok(()),
        }
    }

    /// Writes all that waits in the normal state, where something does.
    fn flush_main<H: Host>(&mut self, host: &mut H) -> Result<(), HostFault>
        requires some { (p rank : ℕ) × (rank_of self.old.pages p ≡ Some rank) }
        ensures left { (t : Trail) → IsTrue H.tells → IsOpen (H.world host.old) self.old t → image_state t.base.image ≡ normal_state
            → Changes (H.world host.old) (H.world host.new) (Only self.old.files.name) (StandsIn self.old.files.name t) }
        ensures out { (t : Trail) → IsTrue H.tells → IsOpen (H.world host.old) self.old t → image_state t.base.image ≡ normal_state → OnOk result (IsOpen (H.world host.new) self.new t) }
        ensures within { (t : Trail) (most : ℕ) → IsTrue H.tells → IsOpen (H.world host.old) self.old t → image_state t.base.image ≡ normal_state → length t.base.image ≤ most → KeepsFile (H.world host.old) (H.world host.new) self.old.files.name (EndsWithin (most * self.old.files.page_size)) }
        ensures none { OnOk result (NoneWaits self.new.pages) }
        ensures files { self.new.files ≡ self.old.files }
        ensures bare { bare self.new.pages ≡ bare self.old.pages }
        ensures cap { self.new.cap ≡ self.old.cap }
        ensures gave { GaveNothing (H.world host.old) (H.world host.new) }
        ensures reads { (H.world host.new).reads ≡ (H.world host.old).reads }
        ensures cause { CountsFault result (H.faults host.old) (H.faults host.new) }
    {
        self.flush_first(host)?;
        self.flush_pages(host)
    }

    /// Writes a page that waits into its slot, in the stalled state. It waits no longer then.
    fn flush_slot<H: Host>(&mut self, host: &mut H, number: u32) -> Result<(), HostFault>
        requires waits { (rank : ℕ) × (rank_of self.old.pages number ≡ Some rank) }
        ensures left { (f t : Trail) → IsTrue H.tells → GoesSlot (H.world host.old) self.old f t
            → Changes (H.world host.old) (H.world host.new) (Only (delta_name self.old.files.name)) (StandsIn self.old.files.name t) }
        ensures out { (f t : Trail) → IsTrue H.tells → GoesSlot (H.world host.old) self.old f t → OnOk result (GoesSlot (H.world host.new) self.new f t) }
        ensures done { OnOk result (self.new ≡ record self.old { pages = with_rank number None self.old.pages }) }
        ensures failed { OnErr result (self.new ≡ self.old) }
        ensures gave { GaveNothing (H.world host.old) (H.world host.new) }
        ensures reads { (H.world host.new).reads ≡ (H.world host.old).reads }
        ensures cause { CountsFault result (H.faults host.old) (H.faults host.new) }
    {
        self.cache.peek(number, &mut self.page);
        self.files.put_slot(host, number, &self.page)?;
        self.cache.clean(number);
        Ok(())
    }

    /// Writes each page that waits into its slot, in the stalled state.
    fn flush_slots<H: Host>(&mut self, host: &mut H) -> Result<(), HostFault>
        ensures left { (f t : Trail) → IsTrue H.tells → GoesSlot (H.world host.old) self.old f t
            → Changes (H.world host.old) (H.world host.new) (Only (delta_name self.old.files.name)) (StandsIn self.old.files.name t) }
        ensures out { (f t : Trail) → IsTrue H.tells → GoesSlot (H.world host.old) self.old f t → OnOk result (GoesSlot (H.world host.new) self.new f t) }
        ensures none { OnOk result (NoneWaits self.new.pages) }
        ensures files { self.new.files ≡ self.old.files }
        ensures bare { bare self.new.pages ≡ bare self.old.pages }
        ensures cap { self.new.cap ≡ self.old.cap }
        ensures gave { GaveNothing (H.world host.old) (H.world host.new) }
        ensures reads { (H.world host.new).reads ≡ (H.world host.old).reads }
        ensures cause { CountsFault result (H.faults host.old) (H.faults host.new) }
    {
        while let Some(number) = self.next_page() {
            self.flush_slot(host, number)?;
        }
        Ok(())
    }

    /// Brings the drafted entries into the table, in the stalled state, once no page waits.
    fn enter<H: Host>(&mut self, host: &mut H) -> Result<(), HostFault>
        requires stalled { self.old.files.state ≡ stalled_state }
        requires none { NoneWaits self.old.pages }
        ensures left { (f t : Trail) → IsTrue H.tells → GoesSlot (H.world host.old) self.old f t
            → Changes (H.world host.old) (H.world host.new) (Only (delta_name self.old.files.name)) (StandsIn self.old.files.name t) }
        ensures out { (f t : Trail) → IsTrue H.tells → GoesSlot (H.world host.old) self.old f t → OnOk result (IsOpen (H.world host.new) self.new t) }
        ensures no_drafts { OnOk result (self.new.files.drafted ≡ 0) }
        ensures files { but_drafts self.new.files ≡ but_drafts self.old.files }
        ensures pages { self.new.pages ≡ self.old.pages }
        ensures cap { self.new.cap ≡ self.old.cap }
        ensures gave { GaveNothing (H.world host.old) (H.world host.new) }
        ensures reads { (H.world host.new).reads ≡ (H.world host.old).reads }
        ensures cause { CountsFault result (H.faults host.old) (H.faults host.new) }
    {
        self.files.enter(host)?;
        Ok(())
    }

    /// Writes all that waits in the stalled state: pages into their slots, and then their entries.
    fn flush_delta<H: Host>(&mut self, host: &mut H) -> Result<(), HostFault>
        requires stalled { self.old.files.state ≡ stalled_state }
        requires some { (p rank : ℕ) × (rank_of self.old.pages p ≡ Some rank) }
        ensures left { (t : Trail) → IsTrue H.tells → IsOpen (H.world host.old) self.old t
            → Changes (H.world host.old) (H.world host.new) (Only (delta_name self.old.files.name)) (StandsIn self.old.files.name t) }
        ensures out { (t : Trail) → IsTrue H.tells → IsOpen (H.world host.old) self.old t → OnOk result (IsOpen (H.world host.new) self.new t) }
        ensures none { OnOk result (NoneWaits self.new.pages) }
        ensures no_drafts { OnOk result (self.new.files.drafted ≡ 0) }
        ensures files { but_drafts self.new.files ≡ but_drafts self.old.files }
        ensures bare { bare self.new.pages ≡ bare self.old.pages }
        ensures cap { self.new.cap ≡ self.old.cap }
        ensures gave { GaveNothing (H.world host.old) (H.world host.new) }
        ensures reads { (H.world host.new).reads ≡ (H.world host.old).reads }
        ensures cause { CountsFault result (H.faults host.old) (H.faults host.new) }
    {
        self.flush_slots(host)?;
        self.enter(host)
    }

    /// Writes all that waits, where something does.
    fn flush_all<H: Host>(&mut self, host: &mut H) -> Result<(), HostFault>
        requires some { (p rank : ℕ) × (rank_of self.old.pages p ≡ Some rank) }
        ensures takes { (t : Trail) → IsTrue H.tells → IsOpen (H.world host.old) self.old t
            → Takes result (H.world host.old) (H.world host.new) self.old.files.name (IsOpen (H.world host.new) self.new) t [] }
        ensures touches { (t : Trail) → IsTrue H.tells → IsOpen (H.world host.old) self.old t → WritesIn (H.world host.old) (H.world host.new) self.old.files.state self.old.files.name }
        ensures within { (t : Trail) → IsTrue H.tells → IsOpen (H.world host.old) self.old t → GrowsWithin (H.world host.old) (H.world host.new) self.old.files.name self.old.files.page_size t [] }
        ensures none { OnOk result (NoneWaits self.new.pages) }
        ensures no_drafts { OnOk result (self.new.files.drafted ≡ 0) }
        ensures files { but_drafts self.new.files ≡ but_drafts self.old.files }
        ensures bare { bare self.new.pages ≡ bare self.old.pages }
        ensures cap { self.new.cap ≡ self.old.cap }
        ensures gave { GaveNothing (H.world host.old) (H.world host.new) }
        ensures reads { (H.world host.new).reads ≡ (H.world host.old).reads }
        ensures cause { CountsFault result (H.faults host.old) (H.faults host.new) }
    {
        if self.files.state() == STALLED {
            self.flush_delta(host)
        } else {
            self.flush_main(host)
        }
    }

    /// Brings entries that are drafted into the table, where no page waits. Only a fault of the device leaves such ones.
    fn enter_rest<H: Host>(&mut self, host: &mut H) -> Result<(), HostFault>
        requires none { NoneWaits self.old.pages }
        ensures takes { (t : Trail) → IsTrue H.tells → IsOpen (H.world host.old) self.old t
            → Takes result (H.world host.old) (H.world host.new) self.old.files.name (IsOpen (H.world host.new) self.new) t [] }
        ensures touches { (t : Trail) → IsTrue H.tells → IsOpen (H.world host.old) self.old t → WritesIn (H.world host.old) (H.world host.new) self.old.files.state self.old.files.name }
        ensures within { (t : Trail) → IsTrue H.tells → IsOpen (H.world host.old) self.old t → GrowsWithin (H.world host.old) (H.world host.new) self.old.files.name self.old.files.page_size t [] }
        ensures no_drafts { OnOk result (self.new.files.drafted ≡ 0) }
        ensures idle { self.old.files.drafted ≡ 0 → IsOk result × (self.new ≡ self.old) × (host.new ≡ host.old) }
        ensures merge { self.old.files.state ≡ merge_state → IsOk result × (self.new ≡ self.old) × (host.new ≡ host.old) }
        ensures files { but_drafts self.new.files ≡ but_drafts self.old.files }
        ensures pages { self.new.pages ≡ self.old.pages }
        ensures cap { self.new.cap ≡ self.old.cap }
        ensures gave { GaveNothing (H.world host.old) (H.world host.new) }
        ensures reads { (H.world host.new).reads ≡ (H.world host.old).reads }
        ensures cause { CountsFault result (H.faults host.old) (H.faults host.new) }
    {
        if self.files.drafted() == 0 {
            Ok(())
        } else {
            self.enter(host)
        }
    }

    /// Writes all that waits. In the normal state SCN pages go first, which are kept for good, and then the others. In the stalled state
    /// pages go into their slots first, which are kept for good, and then the allocation pages that name them. It changes no page of the
    /// database, and none in memory. Where nothing waits it makes no call; at a settled point and where writes are forced nothing does.
    pub fn write_out<H: Host>(&mut self, host: &mut H) -> Result<(), HostFault>
        ensures takes { (t : Trail) → IsTrue H.tells → IsOpen (H.world host.old) self.old t
            → Takes result (H.world host.old) (H.world host.new) self.old.files.name (IsOpen (H.world host.new) self.new) t [] }
        ensures touches { (t : Trail) → IsTrue H.tells → IsOpen (H.world host.old) self.old t → WritesIn (H.world host.old) (H.world host.new) self.old.files.state self.old.files.name }
        ensures within { (t : Trail) → IsTrue H.tells → IsOpen (H.world host.old) self.old t → GrowsWithin (H.world host.old) (H.world host.new) self.old.files.name self.old.files.page_size t [] }
        ensures none { OnOk result (NoneWaits self.new.pages) }
        ensures no_drafts { OnOk result (self.new.files.drafted ≡ 0) }
        ensures idle { NoneWaits self.old.pages → self.old.files.drafted ≡ 0 → IsOk result × (self.new ≡ self.old) × (host.new ≡ host.old) }
        ensures at_settled { (t : Trail) → IsTrue H.tells → IsOpen (H.world host.old) self.old t → t.earlier ≡ [] → IsOk result × (self.new ≡ self.old) × (host.new ≡ host.old) }
        ensures at_forced { (t : Trail) → IsTrue H.tells → IsOpen (H.world host.old) self.old t → is_forced t.base.image ≡ true → IsOk result × (self.new ≡ self.old) × (host.new ≡ host.old) }
        ensures outside { self.old.files.state ≡ merge_state → IsOk result × (self.new ≡ self.old) × (host.new ≡ host.old) }
        ensures files { but_drafts self.new.files ≡ but_drafts self.old.files }
        ensures bare { bare self.new.pages ≡ bare self.old.pages }
        ensures cap { self.new.cap ≡ self.old.cap }
        ensures gave { GaveNothing (H.world host.old) (H.world host.new) }
        ensures reads { (H.world host.new).reads ≡ (H.world host.old).reads }
        ensures cause { CountsFault result (H.faults host.old) (H.faults host.new) }
    {
        match self.next_page() {
            Some(_) => self.flush_all(host),
            None => self.enter_rest(host),
        }
    }
}

ghost use Rattle.std.specs.Prelude.{◌≡◌, ◌+◌, ◌-◌, ◌%◌, ◌<◌, ◌≤◌, IsTrue, IfOk, OnOk, length};
ghost use Rattle.nb_fields.specs.Places.{is_page_size, entries_in, most_pages};
ghost use Rattle.nb_fields.specs.States.{stalled_state};
ghost use Rattle.nb_host.specs.Causes.{CountsFault};
ghost use Rattle.nb_change.specs.Changes.{Changes, Only, Remade, Touches};
ghost use Rattle.nb_change.specs.Gave.{GaveNothing};
ghost use Rattle.nb_page.specs.Quiet.{Quiet};
ghost use Rattle.nb_model.specs.Forms.{scn_page_of};
ghost use Rattle.nb_model.specs.Image.{page_at};
ghost use Rattle.nb_model.specs.Trail.{Trail};
ghost use Rattle.nb_state.specs.Open.{IsOpen};
ghost use Rattle.nb_gather.specs.Gathering.{HasTaken};
ghost use Rattle.nb_copy.specs.LevelCopying.{HasEntriesOf, IsFresh, IsLevelBegun, IsLevelCopying, IsLevelOf, taken_below, whole_level};
ghost use Rattle.nb_gather.specs.Making.{IsMade, IsUnfinished, IsUnfinishedOr};
ghost use Rattle.nb_copy.specs.Reading.{loads_entries, one_if, reads_at};
ghost use Rattle.nb_copy.specs.Turns.{Fetched, LevelTurn, LevelCounts};

use nb_engine::Engine;
use nb_gather::LevelFile;
use nb_host::{Host, HostFault, Name};
use nb_level::LevelHead;
use nb_scn::{covers, entry, is_place, place_of};
use nb_state::Progress;
use std::alloc::{AllocError, Global};
use std::marker::Model;

/// A level of 1 to 9: the pages of a frozen image that changed since an earlier backup. Its file is made before the first turn.
///
/// A page is read only where its SCN entry says that it may have changed, and taken then by its stamp. Where the inventories agree with the
/// pages an entry is at least the stamp, so that no page is lacking. Page 0 and the SCN pages have no entry, and are always read.
#[derive(Drop)]
pub struct LevelCopy {
    file: LevelFile,
    /// How many pages the frozen image has.
    count: u32,
    /// The page that the next turn deals with.
    next: u32,
    /// The SCN page that was read last.
    scn_page: Vec<u8>,
    /// Room for the page that is dealt with.
    page: Vec<u8>,
}

impl Model for LevelCopy {
    ghost use Rattle.std.specs.Prelude.{length};
    ghost use Rattle.nb_copy.specs.LevelCopying.{LevelCopying, IsLevelCopier};

    ghost Value = { LevelCopying };

    ghost view = { λ c. record { file = c.file; count = c.count; next = c.next; scn_page = c.scn_page.items; page = c.page.items } };

    ghost invariant = { λ c. IsLevelCopier c.file c.count c.next (length c.scn_page.items) (length c.page.items) };
}

impl LevelCopy {
    /// A level with that head, of which `start` says the GUID and the SCN, into the file of that name. It takes the memory for 18 pages,
    /// and makes no file.
    pub fn new(alloc: Global, head: &LevelHead, name: &Name) -> Result<LevelCopy, AllocError>
        requires { IsTrue (is_page_size head.now.page_size) }
        ensures name { IfOk result (λ copy. copy.file.name ≡ name.now) }
        ensures head { IfOk result (λ copy. copy.file.head ≡ head.now) }
        ensures next { IfOk result (λ copy. copy.next ≡ 0) }
        ensures fresh { IfOk result IsFresh }
    {
        let file = LevelFile::new(alloc, name, head)?;
        let scn_page = vec![in alloc; 0; head.page_size as usize]?;
        let page = vec![in alloc; 0; head.page_size as usize]?;
        Ok(LevelCopy {
            file,
            count: 0,
            next: 0,
            scn_page,
            page,
        })
    }

    /// The backup has begun with that GUID at that SCN, and the frozen image has so many pages. Its first turn is the next.
    pub fn start(&mut self, guid: &[u8; 16], scn: u32, count: u32)
        requires next { self.old.next ≡ 0 }
        requires most { count ≤ most_pages }
        ensures { self.new ≡ record self.old { file = record self.old.file { head = record self.old.file.head { guid = guid.now; scn = scn } }; count = count } }
    {
        self.file.start(guid, scn);
        self.count = count;
    }

    /// How many pages of the frozen image are left to deal with.
    pub fn left(&self) -> u32
        ensures { result ≡ self.now.count - self.now.next }
    {
        self.count - self.next
    }

    /// How many pages were taken.
    pub fn written(&self) -> u32
        ensures { result ≡ self.now.file.written }
    {
        self.file.written()
    }

    /// Reads the SCN page of the page that is dealt with, where that is the first page that has an entry there, and answers the place
    /// of the entry.
    fn load<H: Host>(&mut self, host: &mut H, engine: &mut Engine) -> Result<u32, HostFault>
        requires size { self.old.file.head.page_size ≡ engine.old.files.page_size }
        requires some { 1 ≤ self.old.next }
        requires below { self.old.next < self.old.count }
        ensures entries { (t : Trail) → IsTrue H.tells → IsOpen (H.world host.old) engine.old t → engine.old.files.state ≡ stalled_state → IsLevelOf self.old t.base.frozen → HasEntriesOf self.old t.base.frozen
            → OnOk result (self.new.scn_page ≡ page_at t.base.frozen (scn_page_of t.base.frozen self.old.next)) }
        ensures index { IfOk result (λ index. index ≡ self.old.next % entries_in self.old.file.head.page_size) }
        ensures inside { IfOk result (λ index. index < entries_in self.old.file.head.page_size) }
        ensures same { self.new ≡ record self.old { scn_page = self.new.scn_page } }
        ensures engine { engine.new ≡ engine.old }
        ensures quiet { Quiet (H.world host.old) (H.world host.new) }
        ensures loads { IsTrue H.tells → (H.world host.new).reads ≤ (H.world host.old).reads + one_if (loads_entries self.old.file.head.page_size self.old.next) }
        ensures once { IsTrue H.tells → (H.world host.new).reads ≤ (H.world host.old).reads + 1 }
        ensures cause { CountsFault result (H.faults host.old) (H.faults host.new) }
    {
        let page_size = self.file.head().page_size;
        let (k, index) = covers(page_size, self.next);
        if self.next == 1 || index == 0 {
            engine.read_main(host, place_of(page_size, k), &mut self.scn_page)?;
        }
        Ok(index)
    }

    /// Reads the page that is dealt with, where it may have changed, and says whether it may. An SCN page was read for its entries.
    fn fetch<H: Host>(&mut self, host: &mut H, engine: &mut Engine) -> Result<bool, HostFault>
        requires size { self.old.file.head.page_size ≡ engine.old.files.page_size }
        requires some { 1 ≤ self.old.next }
        requires below { self.old.next < self.old.count }
        ensures fetched { (t : Trail) → IsTrue H.tells → IsOpen (H.world host.old) engine.old t → engine.old.files.state ≡ stalled_state → IsLevelOf self.old t.base.frozen → HasEntriesOf self.old t.base.frozen
            → Fetched result self.old self.new.page t.base.frozen }
        ensures entries { (t : Trail) → IsTrue H.tells → IsOpen (H.world host.old) engine.old t → engine.old.files.state ≡ stalled_state → IsLevelOf self.old t.base.frozen → HasEntriesOf self.old t.base.frozen
            → OnOk result (self.new.scn_page ≡ page_at t.base.frozen (scn_page_of t.base.frozen self.old.next)) }
        ensures same { self.new ≡ record self.old { scn_page = self.new.scn_page; page = self.new.page } }
        ensures engine { engine.new ≡ engine.old }
        ensures quiet { Quiet (H.world host.old) (H.world host.new) }
        ensures reads { (t : Trail) → IsTrue H.tells → IsOpen (H.world host.old) engine.old t → engine.old.files.state ≡ stalled_state → IsLevelOf self.old t.base.frozen → HasEntriesOf self.old t.base.frozen
            → (H.world host.new).reads ≤ (H.world host.old).reads + reads_at t.base.frozen self.old.file.head.previous_scn self.old.next }
        ensures twice { IsTrue H.tells → (H.world host.new).reads ≤ (H.world host.old).reads + 2 }
        ensures cause { CountsFault result (H.faults host.old) (H.faults host.new) }
    {
        let index = self.load(host, engine)?;
        let head = *self.file.head();
        if is_place(head.page_size, self.next) {
            self.page.copy_from_slice(&self.scn_page);
            return Ok(true);
        }
        if entry(&self.scn_page, index) <= head.previous_scn {
            return Ok(false);
        }
        engine.read_main(host, self.next, &mut self.page)?;
        Ok(true)
    }

    /// Reads page 0, writes the head, and takes the page.
    fn begin<H: Host>(&mut self, host: &mut H, engine: &mut Engine) -> Result<(), HostFault>
        requires size { self.old.file.head.page_size ≡ engine.old.files.page_size }
        requires next { self.old.next ≡ 0 }
        requires some { 0 < self.old.count }
        ensures left { (t : Trail) → IsTrue H.tells → IsOpen (H.world host.old) engine.old t → engine.old.files.state ≡ stalled_state → IsLevelOf self.old t.base.frozen → IsFresh self.old → IsMade (H.world host.old) self.old.file.name
            → Changes (H.world host.old) (H.world host.new) (Only self.old.file.name) (Remade (H.world host.old) self.old.file.name IsUnfinished) }
        ensures begun { (t : Trail) → IsTrue H.tells → IsOpen (H.world host.old) engine.old t → engine.old.files.state ≡ stalled_state → IsLevelOf self.old t.base.frozen → IsFresh self.old → IsMade (H.world host.old) self.old.file.name
            → OnOk result (HasTaken (H.world host.new) self.new.file (taken_below 1 self.old t.base.frozen)) }
        ensures touches { IsTrue H.tells → Touches (H.world host.old) (H.world host.new) (Only self.old.file.name) }
        ensures same { OnOk result (self.new ≡ record self.old { file = record self.old.file { written = self.new.file.written; run = self.new.file.run }; next = 1; page = self.new.page }) }
        ensures name { self.new.file.name ≡ self.old.file.name }
        ensures size { self.new.file.head.page_size ≡ self.old.file.head.page_size }
        ensures head { self.new.file.head ≡ self.old.file.head }
        ensures engine { engine.new ≡ engine.old }
        ensures gave { GaveNothing (H.world host.old) (H.world host.new) }
        ensures once { IsTrue H.tells → (H.world host.new).reads ≤ (H.world host.old).reads + 1 }
        ensures cause { CountsFault result (H.faults host.old) (H.faults host.new) }
    {
        engine.read_main(host, 0, &mut self.page)?;
        self.file.begin(host)?;
        self.next = 1;
        self.file.take(host, 0, &self.page)
    }

    /// Deals with a page after page 0.
    fn copy_page<H: Host>(&mut self, host: &mut H, engine: &mut Engine) -> Result<(), HostFault>
        requires size { self.old.file.head.page_size ≡ engine.old.files.page_size }
        requires some { 1 ≤ self.old.next }
        requires below { self.old.next < self.old.count }
        ensures left { (t : Trail) → IsTrue H.tells → IsOpen (H.world host.old) engine.old t → engine.old.files.state ≡ stalled_state → IsLevelOf self.old t.base.frozen → IsLevelBegun (H.world host.old) self.old t.base.frozen
            → Changes (H.world host.old) (H.world host.new) (Only self.old.file.name) (Remade (H.world host.old) self.old.file.name IsUnfinished) }
        ensures copied { (t : Trail) → IsTrue H.tells → IsOpen (H.world host.old) engine.old t → engine.old.files.state ≡ stalled_state → IsLevelOf self.old t.base.frozen → IsLevelBegun (H.world host.old) self.old t.base.frozen
            → OnOk result (HasTaken (H.world host.new) self.new.file (taken_below (self.old.next + 1) self.old t.base.frozen)) }
        ensures entries { (t : Trail) → IsTrue H.tells → IsOpen (H.world host.old) engine.old t → engine.old.files.state ≡ stalled_state → IsLevelOf self.old t.base.frozen → HasEntriesOf self.old t.base.frozen
            → OnOk result (self.new.scn_page ≡ page_at t.base.frozen (scn_page_of t.base.frozen self.old.next)) }
        ensures touches { IsTrue H.tells → Touches (H.world host.old) (H.world host.new) (Only self.old.file.name) }
        ensures same { OnOk result (self.new ≡ record self.old { file = record self.old.file { written = self.new.file.written; run = self.new.file.run }; next = self.old.next + 1; scn_page = self.new.scn_page; page = self.new.page }) }
        ensures name { self.new.file.name ≡ self.old.file.name }
        ensures size { self.new.file.head.page_size ≡ self.old.file.head.page_size }
        ensures head { self.new.file.head ≡ self.old.file.head }
        ensures engine { engine.new ≡ engine.old }
        ensures gave { GaveNothing (H.world host.old) (H.world host.new) }
        ensures reads { (t : Trail) → IsTrue H.tells → IsOpen (H.world host.old) engine.old t → engine.old.files.state ≡ stalled_state → IsLevelOf self.old t.base.frozen → HasEntriesOf self.old t.base.frozen
            → (H.world host.new).reads ≤ (H.world host.old).reads + reads_at t.base.frozen self.old.file.head.previous_scn self.old.next }
        ensures twice { IsTrue H.tells → (H.world host.new).reads ≤ (H.world host.old).reads + 2 }
        ensures cause { CountsFault result (H.faults host.old) (H.faults host.new) }
    {
        let number = self.next;
        let may_be_changed = self.fetch(host, engine)?;
        self.next = number + 1;
        if may_be_changed {
            self.file.take(host, number, &self.page)
        } else {
            Ok(())
        }
    }

    /// Deals with one page of the frozen image, and answers `More`; or, where all were dealt with before, makes the file whole, keeps
    /// it for good, and answers `Finished`.
    ///
    /// The file was made before. The engine is as it was. A turn that answers a fault leaves a file that is unfinished or whole; the copier
    /// isn't used again then.
    pub fn turn<H: Host>(
        &mut self,
        host: &mut H,
        engine: &mut Engine,
    ) -> Result<Progress, HostFault>
        requires size { self.old.file.head.page_size ≡ engine.old.files.page_size }
        ensures left { (t : Trail) → IsTrue H.tells → IsOpen (H.world host.old) engine.old t → engine.old.files.state ≡ stalled_state → IsLevelCopying (H.world host.old) self.old t.base.frozen
            → Changes (H.world host.old) (H.world host.new) (Only self.old.file.name) (Remade (H.world host.old) self.old.file.name (IsUnfinishedOr (whole_level self.old t.base.frozen))) }
        ensures answer { (t : Trail) → IsTrue H.tells → IsOpen (H.world host.old) engine.old t → engine.old.files.state ≡ stalled_state → IsLevelCopying (H.world host.old) self.old t.base.frozen
            → LevelTurn result (H.world host.new) self.old self.new t.base.frozen }

        // It reads page 0 in its turn, each SCN page once, and of the others those whose entry is above the SCN of the earlier backup.
        ensures reads { (t : Trail) → IsTrue H.tells → IsOpen (H.world host.old) engine.old t → engine.old.files.state ≡ stalled_state → IsLevelCopying (H.world host.old) self.old t.base.frozen
            → (H.world host.new).reads ≤ (H.world host.old).reads + reads_at t.base.frozen self.old.file.head.previous_scn self.old.next }

        // Whatever stands in the files: no other one is touched, and two pages are read at most.
        ensures touches { IsTrue H.tells → Touches (H.world host.old) (H.world host.new) (Only self.old.file.name) }
        ensures counts { LevelCounts result self.old self.new }
        ensures name { self.new.file.name ≡ self.old.file.name }
        ensures size { self.new.file.head.page_size ≡ self.old.file.head.page_size }
        ensures head { self.new.file.head ≡ self.old.file.head }
        ensures engine { engine.new ≡ engine.old }
        ensures gave { GaveNothing (H.world host.old) (H.world host.new) }
        ensures twice { IsTrue H.tells → (H.world host.new).reads ≤ (H.world host.old).reads + 2 }
        ensures cause { CountsFault result (H.faults host.old) (H.faults host.new) }
    {
        if self.next == self.count {
            self.file.close(host)?;
            return Ok(Progress::Finished);
        }
        if self.next == 0 {
            self.begin(host, engine)?;
        } else {
            self.copy_page(host, engine)?;
        }
        Ok(Progress::More)
    }
}

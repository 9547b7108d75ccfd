ghost use Rattle.std.specs.Prelude.{◌≡◌, ◌+◌, ◌-◌, ◌<◌, ◌≤◌, [], IsTrue, IfOk, OnOk, length, Some};
ghost use Rattle.nb_fields.specs.Places.{is_page_size, most_pages};
ghost use Rattle.nb_fields.specs.States.{stalled_state};
ghost use Rattle.nb_host.specs.Calls.{IsSilent, Remakes};
ghost use Rattle.nb_host.specs.Causes.{CountsFault};
ghost use Rattle.nb_host.specs.Moments.{Passes};
ghost use Rattle.nb_change.specs.Changes.{Changes, Only, Remade, Touches};
ghost use Rattle.nb_change.specs.Gave.{GaveNothing};
ghost use Rattle.nb_model.specs.Image.{Image};
ghost use Rattle.nb_model.specs.Levels.{joined};
ghost use Rattle.nb_model.specs.Trail.{Trail};
ghost use Rattle.nb_page.specs.Quiet.{Quiet};
ghost use Rattle.nb_state.specs.Open.{IsOpen};
ghost use Rattle.nb_copy.specs.Copying.{IsOf, IsBegun, IsCopying};
ghost use Rattle.nb_copy.specs.Turns.{CopyTurn, CopyCounts};
ghost use Rattle.nb_gather.specs.Making.{IsBlank, IsFreeOr, IsKept};

use nb_engine::Engine;
use nb_host::{Host, HostFault, Name};
use nb_state::Progress;
use std::alloc::{AllocError, Global};
use std::marker::Model;

/// A copy of all pages of a frozen image: a level 0, or a plain copy.
///
/// Its file is made before the first turn. Pages 1 and up come first, in order. Page 0 waits until they are kept for good: while it isn't in
/// the file, the file's name is free.
#[derive(Drop)]
pub struct PageCopy {
    name: Name,
    /// How many pages the frozen image has.
    count: u32,
    /// The page that the next turn deals with.
    next: u32,
    /// Page 0, from the first turn on.
    first: Vec<u8>,
    /// Room for the page that is copied.
    page: Vec<u8>,
}

impl Model for PageCopy {
    ghost use Rattle.std.specs.Prelude.{length};
    ghost use Rattle.nb_copy.specs.Copying.{Copying, IsCopier};

    ghost Value = { Copying };

    ghost view = { λ c. record { name = c.name; size = length c.page.items; count = c.count; next = c.next; first = c.first.items } };

    ghost invariant = { λ c. IsCopier (length c.page.items) c.count c.next (length c.first.items) (length c.page.items) };
}

impl PageCopy {
    /// A copy of pages of that size into the file of that name. It takes the memory for two pages, and makes no file. `start` follows.
    pub fn new(alloc: Global, page_size: u32, name: &Name) -> Result<PageCopy, AllocError>
        requires { IsTrue (is_page_size page_size) }
        ensures name { IfOk result (λ copy. copy.name ≡ name.now) }
        ensures size { IfOk result (λ copy. copy.size ≡ page_size) }
        ensures next { IfOk result (λ copy. copy.next ≡ 0) }
    {
        let first = vec![in alloc; 0; page_size as usize]?;
        let page = vec![in alloc; 0; page_size as usize]?;
        Ok(PageCopy {
            name: name.copied(),
            count: 0,
            next: 0,
            first,
            page,
        })
    }

    /// Makes the file, empty.
    pub fn make<H: Host>(&self, host: &mut H) -> Result<(), HostFault>
        ensures files { Remakes H.tells result (H.world host.old) (H.world host.new) self.now.name (Some []) }
        ensures log { IsSilent (H.world host.old) (H.world host.new) }
        ensures time { Passes (H.world host.old) (H.world host.new) }
        ensures cause { CountsFault result (H.faults host.old) (H.faults host.new) }
    {
        host.make(&self.name)
    }

    /// The image is frozen, and has so many pages. Its first turn is the next.
    pub fn start(&mut self, count: u32)
        requires next { self.old.next ≡ 0 }
        requires most { count ≤ most_pages }
        ensures { self.new ≡ record self.old { count = count } }
    {
        self.count = count;
    }

    /// How many pages of the frozen image were dealt with.
    pub fn written(&self) -> u32
        ensures { result ≡ self.now.next }
    {
        self.next
    }

    /// How many pages of the frozen image are left to deal with.
    pub fn left(&self) -> u32
        ensures { result ≡ self.now.count - self.now.next }
    {
        self.count - self.next
    }

    /// Takes page 0. It goes into the file when the others are there.
    fn take_first<H: Host>(&mut self, host: &mut H, engine: &mut Engine) -> Result<(), HostFault>
        requires size { self.old.size ≡ engine.old.files.page_size }
        requires next { self.old.next ≡ 0 }
        requires some { 0 < self.old.count }
        ensures begun { (t : Trail) → IsTrue H.tells → IsOpen (H.world host.old) engine.old t → engine.old.files.state ≡ stalled_state → IsOf self.old t.base.frozen → IsBegun (H.world host.old) self.old t.base.frozen
            → OnOk result (IsBegun (H.world host.new) self.new t.base.frozen) }
        ensures next { OnOk result (self.new ≡ record self.old { next = 1; first = self.new.first }) }
        ensures name { self.new.name ≡ self.old.name }
        ensures size { self.new.size ≡ self.old.size }
        ensures engine { engine.new ≡ engine.old }
        ensures quiet { Quiet (H.world host.old) (H.world host.new) }
        ensures once { IsTrue H.tells → (H.world host.new).reads ≤ (H.world host.old).reads + 1 }
        ensures cause { CountsFault result (H.faults host.old) (H.faults host.new) }
    {
        engine.read_main(host, 0, &mut self.first)?;
        self.next = 1;
        Ok(())
    }

    /// Copies a page after page 0.
    fn copy_page<H: Host>(&mut self, host: &mut H, engine: &mut Engine) -> Result<(), HostFault>
        requires size { self.old.size ≡ engine.old.files.page_size }
        requires some { 1 ≤ self.old.next }
        requires below { self.old.next < self.old.count }
        ensures left { (frozen : Image) → IsTrue H.tells → IsBegun (H.world host.old) self.old frozen → Changes (H.world host.old) (H.world host.new) (Only self.old.name) (Remade (H.world host.old) self.old.name IsBlank) }
        ensures copied { (t : Trail) → IsTrue H.tells → IsOpen (H.world host.old) engine.old t → engine.old.files.state ≡ stalled_state → IsOf self.old t.base.frozen → IsBegun (H.world host.old) self.old t.base.frozen
            → OnOk result (IsBegun (H.world host.new) self.new t.base.frozen) }
        ensures touches { IsTrue H.tells → Touches (H.world host.old) (H.world host.new) (Only self.old.name) }
        ensures next { OnOk result (self.new ≡ record self.old { next = self.old.next + 1 }) }
        ensures name { self.new.name ≡ self.old.name }
        ensures size { self.new.size ≡ self.old.size }
        ensures engine { engine.new ≡ engine.old }
        ensures gave { GaveNothing (H.world host.old) (H.world host.new) }
        ensures once { IsTrue H.tells → (H.world host.new).reads ≤ (H.world host.old).reads + 1 }
        ensures cause { CountsFault result (H.faults host.old) (H.faults host.new) }
    {
        engine.read_main(host, self.next, &mut self.page)?;
        host.write_page(&self.name, self.next, &self.page)?;
        self.next += 1;
        Ok(())
    }

    /// Keeps the pages after page 0 for good, and then page 0.
    fn close<H: Host>(&mut self, host: &mut H) -> Result<(), HostFault>
        ensures left { (frozen : Image) → IsTrue H.tells → IsOf self.old frozen → IsBegun (H.world host.old) self.old frozen → self.old.next ≡ self.old.count
            → Changes (H.world host.old) (H.world host.new) (Only self.old.name) (Remade (H.world host.old) self.old.name (IsFreeOr (joined frozen))) }
        ensures done { (frozen : Image) → IsTrue H.tells → IsOf self.old frozen → IsBegun (H.world host.old) self.old frozen → self.old.next ≡ self.old.count
            → OnOk result (IsKept (H.world host.new) self.old.name (joined frozen)) }
        ensures touches { IsTrue H.tells → Touches (H.world host.old) (H.world host.new) (Only self.old.name) }
        ensures same { self.new ≡ self.old }
        ensures gave { GaveNothing (H.world host.old) (H.world host.new) }
        ensures reads { (H.world host.new).reads ≡ (H.world host.old).reads }
        ensures cause { CountsFault result (H.faults host.old) (H.faults host.new) }
    {
        host.sync(&self.name)?;
        host.write_page(&self.name, 0, &self.first)?;
        host.sync(&self.name)
    }

    /// Deals with one page of the frozen image, and answers `More`; or, where all were dealt with before, makes the file whole, keeps
    /// it for good, and answers `Finished`.
    ///
    /// The file was made before. The engine is as it was. A turn that answers a fault leaves a file that is free or whole; the copier isn't
    /// used again then.
    pub fn turn<H: Host>(
        &mut self,
        host: &mut H,
        engine: &mut Engine,
    ) -> Result<Progress, HostFault>
        requires size { self.old.size ≡ engine.old.files.page_size }
        ensures left { (t : Trail) → IsTrue H.tells → IsOpen (H.world host.old) engine.old t → engine.old.files.state ≡ stalled_state → IsCopying (H.world host.old) self.old t.base.frozen
            → Changes (H.world host.old) (H.world host.new) (Only self.old.name) (Remade (H.world host.old) self.old.name (IsFreeOr (joined t.base.frozen))) }
        ensures answer { (t : Trail) → IsTrue H.tells → IsOpen (H.world host.old) engine.old t → engine.old.files.state ≡ stalled_state → IsCopying (H.world host.old) self.old t.base.frozen
            → CopyTurn result (H.world host.new) self.old self.new t.base.frozen }

        // Whatever stands in the files: no other one is touched.
        ensures touches { IsTrue H.tells → Touches (H.world host.old) (H.world host.new) (Only self.old.name) }
        ensures counts { CopyCounts result self.old self.new }
        ensures name { self.new.name ≡ self.old.name }
        ensures size { self.new.size ≡ self.old.size }
        ensures engine { engine.new ≡ engine.old }
        ensures gave { GaveNothing (H.world host.old) (H.world host.new) }
        ensures once { IsTrue H.tells → (H.world host.new).reads ≤ (H.world host.old).reads + 1 }
        ensures cause { CountsFault result (H.faults host.old) (H.faults host.new) }
    {
        if self.next == self.count {
            self.close(host)?;
            return Ok(Progress::Finished);
        }
        if self.next == 0 {
            self.take_first(host, engine)?;
        } else {
            self.copy_page(host, engine)?;
        }
        Ok(Progress::More)
    }
}

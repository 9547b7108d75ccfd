// A copy of the frozen file of a stalled database, which no history names.
ghost use Rattle.std.specs.Prelude.{◌≡◌, ◌+◌, ◌-◌, ◌≤◌, IsTrue, IfOk, IfErr, OnOk, None, Some, Result, true};
ghost use Rattle.nb_fields.specs.States.{stalled_state};
ghost use Rattle.nb_host.specs.Calls.{IsSilent};
ghost use Rattle.nb_host.specs.Causes.{CountsDevice, CountsFault};
ghost use Rattle.nb_host.specs.declared.faults.Fault.{Fault};
ghost use Rattle.nb_change.specs.Changes.{Changes, Only, Remade};
ghost use Rattle.nb_change.specs.Gave.{GaveNothing};
ghost use Rattle.nb_page.specs.Free.{is_free_name};
ghost use Rattle.nb_page.specs.Quiet.{Quiet};
ghost use Rattle.nb_model.specs.Backups.{copy_turn};
ghost use Rattle.nb_model.specs.Image.{Image};
ghost use Rattle.nb_model.specs.Outcomes.{Seen};
ghost use Rattle.nb_model.specs.Trail.{Trail};
ghost use Rattle.nb_base.specs.Open.{OfFiles};
ghost use Rattle.nb_model.specs.Causes.{Tested};
ghost use Rattle.nb_state.specs.Open.{IsOpen};
ghost use Rattle.nb_state.specs.declared.turns.Progress.{Progress};
ghost use Rattle.nb_copy.specs.Copying.{IsCopying};
ghost use Rattle.nb_copy.specs.FileCopies.{CopiesFile, IsCopyingTo, KnowsUnused, StartsCopy, copy_cause};
ghost use Rattle.nb_gather.specs.Making.{IsBlank};
ghost use Rattle.nb_copy.specs.Turns.{CopyCounts};

use crate::page_copy::PageCopy;
use nb_cases::{Case, Event, case_of};
use nb_engine::Engine;
use nb_host::{Fault, Host, HostFault, Name, Refusal};
use nb_page::is_free;
use nb_state::Progress;
use std::alloc::Global;
use std::marker::Model;

/// A copy of the frozen file of a stalled database into a file of any name. Its history has no row of it.
#[derive(Drop)]
pub struct FileCopier {
    pages: PageCopy,
}

impl Model for FileCopier {
    ghost use Rattle.nb_copy.specs.Copying.{Copying};

    ghost Value = { Copying };

    ghost view = { λ c. c.pages };
}

/// Tests whether a copy into a file of that name may begin. The refusals are `WrongState`, `BackupRunning` and `FileExists`, in this order.
fn check_copy<H: Host>(host: &mut H, engine: &Engine, name: &Name) -> Result<(), Fault>
    ensures test { (s : Seen) (t : Trail) → IsTrue H.tells → t.base ≡ s.base → engine.now.running ≡ s.running → IsOpen (H.world host.old) engine.now t → KnowsUnused (H.world host.old).files s name.now
        → Tested result (copy_cause s name.now) }
    ensures stalled { OnOk result (engine.now.files.state ≡ stalled_state) }
    ensures none { OnOk result (engine.now.running ≡ None) }
    ensures free { IsTrue H.tells → OnOk result (is_free_name (H.world host.old).files name.now ≡ true) }
    ensures quiet { Quiet (H.world host.old) (H.world host.new) }
    ensures cause { CountsDevice result (H.faults host.old) (H.faults host.new) }
{
    let store = engine.store();
    let state = store.state();
    if case_of(state, Event::CopyTo) == Case::WrongState {
        return Err(Fault::Refused(Refusal::WrongState {
            found: u32::from(state),
        }));
    }
    if let Some(session) = store.running() {
        return Err(Fault::Refused(Refusal::BackupRunning { session }));
    }
    if !is_free(host, name)? {
        return Err(Fault::Refused(Refusal::FileExists {
            name: name.copied(),
        }));
    }
    Ok(())
}

impl FileCopier {
    /// Begins a copy of a stalled database's frozen file into a file of that name, for a session, whose copy runs then. It takes the memory
    /// for two pages, and makes no file.
    ///
    /// The refusals are `WrongState`, `BackupRunning` and `FileExists`, in this order. No file changes.
    pub fn start<H: Host>(
        alloc: Global,
        host: &mut H,
        engine: &mut Engine,
        session: u32,
        name: &Name,
    ) -> Result<FileCopier, Fault>
        ensures turn { (s : Seen) (t : Trail) → IsTrue H.tells → t.base ≡ s.base → engine.old.running ≡ s.running → IsOpen (H.world host.old) engine.old t → KnowsUnused (H.world host.old).files s name.now
            → StartsCopy result (H.world host.old) (H.world host.new) engine.old engine.new t name.now (copy_turn s session name.now) }
        ensures free { IsTrue H.tells → OnOk result (is_free_name (H.world host.old).files name.now ≡ true) }
        ensures named { IfOk result (λ copy. copy.name ≡ name.now) }
        ensures size { IfOk result (λ copy. copy.size ≡ engine.old.files.page_size) }
        ensures none { OnOk result (engine.old.running ≡ None) }
        ensures held { OnOk result (engine.new ≡ record engine.old { running = Some session }) }
        ensures stays { IfErr result (λ fault. engine.new ≡ engine.old) }
        ensures quiet { Quiet (H.world host.old) (H.world host.new) }
        ensures cause { CountsDevice result (H.faults host.old) (H.faults host.new) }
    {
        check_copy(host, engine, name)?;
        let mut pages = PageCopy::new(alloc, engine.page_size(), name)?;
        pages.start(engine.main_count());
        engine.set_running(Some(session));
        Ok(FileCopier { pages })
    }

    /// How many pages of the frozen image are left to deal with.
    pub fn left(&self) -> u32
        ensures { result ≡ self.now.count - self.now.next }
    {
        self.pages.left()
    }

    /// How many pages of the frozen image were dealt with.
    pub fn written(&self) -> u32
        ensures { result ≡ self.now.next }
    {
        self.pages.written()
    }

    /// Makes the file before the first page is dealt with.
    fn make_first<H: Host>(&self, host: &mut H) -> Result<(), HostFault>
        ensures left { IsTrue H.tells → Changes (H.world host.old) (H.world host.new) (Only self.now.name) (Remade (H.world host.old) self.now.name IsBlank) }
        ensures made { (frozen : Image) → IsTrue H.tells → IsCopyingTo (H.world host.old) self.now frozen → OnOk result (IsCopying (H.world host.new) self.now frozen) }
        ensures log { IsSilent (H.world host.old) (H.world host.new) }
        ensures cause { CountsFault result (H.faults host.old) (H.faults host.new) }
    {
        if self.pages.written() == 0 {
            self.pages.make(host)?;
        }
        Ok(())
    }

    /// Deals with one page of the frozen image, and answers `More`; or, where all were dealt with before, makes the file whole, keeps it for
    /// good, and answers `Finished`. The first turn makes the file.
    ///
    /// A crash leaves the file as it was before the first turn, or free, or whole. A copier that has answered `Finished` or a fault isn't used
    /// again.
    pub fn turn<H: Host>(
        &mut self,
        host: &mut H,
        engine: &mut Engine,
    ) -> Result<Progress, HostFault>
        requires size { self.old.size ≡ engine.old.files.page_size }
        ensures turn { (t : Trail) → IsTrue H.tells → IsOpen (H.world host.old) engine.old t → engine.old.files.state ≡ stalled_state → IsCopyingTo (H.world host.old) self.old t.base.frozen
            → (OfFiles engine.old.files.name self.old.name → ⊥) → CopiesFile result (H.world host.old) (H.world host.new) engine.old engine.new self.old self.new t }
        ensures counts { CopyCounts result self.old self.new }
        ensures size { self.new.size ≡ self.old.size }
        ensures engine { engine.new ≡ engine.old }
        ensures gave { GaveNothing (H.world host.old) (H.world host.new) }
        ensures once { IsTrue H.tells → (H.world host.new).reads ≤ (H.world host.old).reads + 1 }
        ensures cause { CountsFault result (H.faults host.old) (H.faults host.new) }
    {
        self.make_first(host)?;
        self.pages.turn(host, engine)
    }
}

// The file of a backup of any level, while it is made.
ghost use Rattle.std.specs.Prelude.{◌≡◌, ◌+◌, ◌-◌, ◌≤◌, IsTrue, IfOk, OnOk};
ghost use Rattle.nb_fields.specs.Places.{is_page_size, most_pages};
ghost use Rattle.nb_fields.specs.States.{stalled_state};
ghost use Rattle.nb_host.specs.Causes.{CountsFault};
ghost use Rattle.nb_change.specs.Changes.{Changes, Only, Remade};
ghost use Rattle.nb_change.specs.Gave.{GaveNothing};
ghost use Rattle.nb_model.specs.Image.{Image};
ghost use Rattle.nb_model.specs.Trail.{Trail};
ghost use Rattle.nb_state.specs.Open.{IsOpen};
ghost use Rattle.nb_copy.specs.FileCopying.{file_name, file_page_size, file_count, file_next, file_written, whole_file, IsFileCopying, IsSameFile, FileTurn, FileCounts};
ghost use Rattle.nb_copy.specs.FileStarting.{IsNewFile, IsStartedFile};
ghost use Rattle.nb_gather.specs.Making.{IsUnfinishedOr};
ghost use Rattle.nb_copy.specs.Reading.{earlier_scn, page_reads};

use crate::level_copy::LevelCopy;
use crate::page_copy::PageCopy;
use nb_engine::Engine;
use nb_host::{Host, HostFault, Name};
use nb_level::LevelHead;
use nb_state::Progress;
use std::alloc::{AllocError, Global};

/// A level 0 has all pages of the frozen image, and a level of 1 to 9 those that changed since an earlier backup.
#[derive(Drop)]
pub(crate) enum FileCopy {
    Pages(PageCopy),
    Level(LevelCopy),
}

impl FileCopy {
    /// The file of that name of a backup with that head, of which `start` says the GUID and the SCN. It takes its memory, and makes no
    /// file.
    pub(crate) fn new(alloc: Global, name: &Name, head: &LevelHead) -> Result<FileCopy, AllocError>
        requires { IsTrue (is_page_size head.now.page_size) }
        ensures { IfOk result (IsNewFile name.now head.now) }
    {
        if head.level == 0 {
            let copy = PageCopy::new(alloc, head.page_size, name)?;
            return Ok(FileCopy::Pages(copy));
        }
        let copy = LevelCopy::new(alloc, head, name)?;
        Ok(FileCopy::Level(copy))
    }

    /// The backup has begun with the GUID and the SCN of that head, and the frozen image has so many pages.
    pub(crate) fn start(&mut self, head: &LevelHead, count: u32)
        requires next { file_next self.old ≡ 0 }
        requires most { count ≤ most_pages }
        ensures { IsStartedFile self.old self.new head.now count }
    {
        match self {
            FileCopy::Pages(copy) => copy.start(count),
            FileCopy::Level(copy) => copy.start(&head.guid, head.scn, count),
        }
    }

    /// How many pages of the frozen image are left to deal with.
    pub(crate) fn left(&self) -> u32
        ensures { result ≡ file_count self.now - file_next self.now }
    {
        match self {
            FileCopy::Pages(copy) => copy.left(),
            FileCopy::Level(copy) => copy.left(),
        }
    }

    /// How many pages were taken.
    pub(crate) fn written(&self) -> u32
        ensures { result ≡ file_written self.now }
    {
        match self {
            FileCopy::Pages(copy) => copy.written(),
            FileCopy::Level(copy) => copy.written(),
        }
    }

    /// Deals with one page of the frozen image, and answers `More`; or, where all were dealt with before, makes the file whole, keeps
    /// it for good, and answers `Finished`.
    pub(crate) fn turn<H: Host>(
        &mut self,
        host: &mut H,
        engine: &mut Engine,
    ) -> Result<Progress, HostFault>
        requires size { file_page_size self.old ≡ engine.old.files.page_size }
        ensures left { (t : Trail) → IsTrue H.tells → IsOpen (H.world host.old) engine.old t → engine.old.files.state ≡ stalled_state → IsFileCopying (H.world host.old) self.old t.base.frozen
            → Changes (H.world host.old) (H.world host.new) (Only (file_name self.old)) (Remade (H.world host.old) (file_name self.old) (IsUnfinishedOr (whole_file self.old t.base.frozen))) }
        ensures answer { (t : Trail) → IsTrue H.tells → IsOpen (H.world host.old) engine.old t → engine.old.files.state ≡ stalled_state → IsFileCopying (H.world host.old) self.old t.base.frozen
            → FileTurn result (H.world host.new) self.old self.new t.base.frozen }
        ensures reads { (t : Trail) → IsTrue H.tells → IsOpen (H.world host.old) engine.old t → engine.old.files.state ≡ stalled_state → IsFileCopying (H.world host.old) self.old t.base.frozen
            → (H.world host.new).reads ≤ (H.world host.old).reads + page_reads (earlier_scn self.old) t.base.frozen (file_next self.old) }
        ensures same { (frozen : Image) → OnOk result (IsSameFile self.old self.new frozen) }
        ensures counts { FileCounts result self.old self.new }
        ensures name { file_name self.new ≡ file_name self.old }
        ensures size { file_page_size self.new ≡ file_page_size self.old }
        ensures earlier { earlier_scn self.new ≡ earlier_scn self.old }
        ensures engine { engine.new ≡ engine.old }
        ensures gave { GaveNothing (H.world host.old) (H.world host.new) }
        ensures twice { IsTrue H.tells → (H.world host.new).reads ≤ (H.world host.old).reads + 2 }
        ensures cause { CountsFault result (H.faults host.old) (H.faults host.new) }
    {
        match self {
            FileCopy::Pages(copy) => copy.turn(host, engine),
            FileCopy::Level(copy) => copy.turn(host, engine),
        }
    }
}

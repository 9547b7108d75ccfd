ghost use Rattle.std.specs.Prelude.{◌≡◌, ◌++◌, ◌+◌, ◌<◌, ◌≤◌, List, [], ◌∷◌, IsTrue, IfOk, OnOk, length};
ghost use Rattle.nb_fields.specs.Places.{is_page_size};
ghost use Rattle.nb_host.specs.Calls.{IsSilent};
ghost use Rattle.nb_host.specs.Causes.{CountsFault};
ghost use Rattle.nb_change.specs.Changes.{Changes, Only, Remade, Touches};
ghost use Rattle.nb_level.specs.Heads.{head_of};
ghost use Rattle.nb_model.specs.Image.{Numbered};
ghost use Rattle.nb_model.specs.Levels.{level_bytes, runs_of, taken_from};
ghost use Rattle.nb_gather.specs.Gathering.{HasTaken, IsHeaded, MayHave, Reads, level_front};
ghost use Rattle.nb_gather.specs.Making.{IsKept, IsMade, IsUnfinished, IsUnfinishedOr};

use crate::run::Run;
use nb_host::{Host, HostFault, Name};
use nb_level::{LevelHead, write_end, write_head};
use nb_page::read_head;
use std::alloc::{AllocError, Global};
use std::marker::Model;

/// The version of the level files that are written.
const VERSION: u16 = 102;

/// A level file of version 102 that is written, page by page. The pages of the last run wait in memory until it is complete, at 16 pages or
/// at a page that doesn't go on with it.
#[derive(Drop)]
pub struct LevelFile {
    name: Name,
    head: LevelHead,
    /// How many pages it took.
    written: u32,
    /// The last of them, while they are no complete run.
    run: Run,
}

impl Model for LevelFile {
    ghost use Rattle.std.specs.Prelude.{◌≡◌, IsTrue};
    ghost use Rattle.nb_fields.specs.Places.{is_page_size};
    ghost use Rattle.nb_gather.specs.Gathering.{LevelWriting};

    ghost Value = { LevelWriting };

    ghost view = { λ f. record { name = f.name; head = f.head; written = f.written; run = f.run } };

    ghost invariant = { λ f. (f.run.size ≡ f.head.page_size) × IsTrue (is_page_size f.head.page_size) };
}

impl LevelFile {
    /// A level file of that name with that head. It takes the memory for 16 pages, and makes no file.
    pub fn new(alloc: Global, name: &Name, head: &LevelHead) -> Result<LevelFile, AllocError>
        requires { IsTrue (is_page_size head.now.page_size) }
        ensures name { IfOk result (λ file. file.name ≡ name.now) }
        ensures head { IfOk result (λ file. file.head ≡ head.now) }
        ensures written { IfOk result (λ file. file.written ≡ 0) }
        ensures none { IfOk result (λ file. file.run.count ≡ 0) }
    {
        let run = Run::new(alloc, head.page_size)?;
        Ok(LevelFile {
            name: name.copied(),
            head: *head,
            written: 0,
            run,
        })
    }

    /// The backup has begun with that GUID at that SCN.
    pub fn start(&mut self, guid: &[u8; 16], scn: u32)
        ensures { self.new ≡ record self.old { head = record self.old.head { guid = guid.now; scn = scn } } }
    {
        self.head.guid = *guid;
        self.head.scn = scn;
    }

    /// The head.
    pub fn head(&self) -> &LevelHead
        ensures { result.now ≡ self.now.head }
    {
        &self.head
    }

    /// How many pages it took.
    pub fn written(&self) -> u32
        ensures { result ≡ self.now.written }
    {
        self.written
    }

    /// Writes the head into the file, which was made. It comes before the first page.
    pub fn begin<H: Host>(&self, host: &mut H) -> Result<(), HostFault>
        ensures left { IsTrue H.tells → IsHeaded (head_of self.now.head) → IsMade (H.world host.old) self.now.name → Changes (H.world host.old) (H.world host.new) (Only self.now.name) (Remade (H.world host.old) self.now.name IsUnfinished) }
        ensures reads { IsTrue H.tells → IsHeaded (head_of self.now.head) → IsMade (H.world host.old) self.now.name → IsUnfinished ((H.world host.new).files self.now.name) }
        ensures begun { IsTrue H.tells → IsMade (H.world host.old) self.now.name → self.now.run.count ≡ 0 → self.now.written ≡ 0 → OnOk result (HasTaken (H.world host.new) self.now []) }
        ensures touches { IsTrue H.tells → Touches (H.world host.old) (H.world host.new) (Only self.now.name) }
        ensures log { IsSilent (H.world host.old) (H.world host.new) }
        ensures cause { CountsFault result (H.faults host.old) (H.faults host.new) }
    {
        write_head(host, &self.name, &self.head, VERSION)
    }

    /// Takes page `number`, which is above those that it took. It goes into the run that waits, or begins a run. A run that is complete is
    /// appended.
    pub fn gather<H: Host>(
        &mut self,
        host: &mut H,
        number: u32,
        page: &[u8],
    ) -> Result<(), HostFault>
        requires size { length page.now ≡ self.old.head.page_size }
        requires written { self.old.written < 4294967295 }
        ensures left { IsTrue H.tells → (rs : List Numbered) → HasTaken (H.world host.old) self.old rs → MayHave self.old.head (rs ++ (number, page.now) ∷ [])
            → Changes (H.world host.old) (H.world host.new) (Only self.old.name) (Remade (H.world host.old) self.old.name IsUnfinished) }
        ensures reads { IsTrue H.tells → (rs : List Numbered) → HasTaken (H.world host.old) self.old rs → MayHave self.old.head (rs ++ (number, page.now) ∷ []) → IsUnfinished ((H.world host.new).files self.old.name) }
        ensures taken { IsTrue H.tells → (rs : List Numbered) → HasTaken (H.world host.old) self.old rs → MayHave self.old.head (rs ++ (number, page.now) ∷ []) → OnOk result (HasTaken (H.world host.new) self.new (rs ++ (number, page.now) ∷ [])) }
        ensures touches { IsTrue H.tells → Touches (H.world host.old) (H.world host.new) (Only self.old.name) }
        ensures same { self.new ≡ record self.old { written = self.new.written; run = self.new.run } }
        ensures more { self.new.written ≡ self.old.written + 1 }
        ensures log { IsSilent (H.world host.old) (H.world host.new) }
        ensures cause { CountsFault result (H.faults host.old) (H.faults host.new) }
    {
        self.written += 1;
        if self.run.takes(number) {
            self.run.add(number, page);
            if self.run.is_full() {
                self.run.append(host, &self.name)?;
            }
            return Ok(());
        }
        self.run.append(host, &self.name)?;
        self.run.add(number, page);
        Ok(())
    }

    /// Takes page `number`, which is above those that it took, where its stamp is above the SCN of the earlier backup.
    pub fn take<H: Host>(&mut self, host: &mut H, number: u32, page: &[u8]) -> Result<(), HostFault>
        requires size { length page.now ≡ self.old.head.page_size }
        requires page { IsTrue (is_page_size (length page.now)) }
        requires written { self.old.written < 4294967295 }
        ensures left { IsTrue H.tells → (rs : List Numbered) → HasTaken (H.world host.old) self.old rs → MayHave self.old.head (rs ++ taken_from number self.old.head.previous_scn (page.now ∷ []))
            → Changes (H.world host.old) (H.world host.new) (Only self.old.name) (Remade (H.world host.old) self.old.name IsUnfinished) }
        ensures taken { IsTrue H.tells → (rs : List Numbered) → HasTaken (H.world host.old) self.old rs → MayHave self.old.head (rs ++ taken_from number self.old.head.previous_scn (page.now ∷ []))
            → OnOk result (HasTaken (H.world host.new) self.new (rs ++ taken_from number self.old.head.previous_scn (page.now ∷ []))) }
        ensures touches { IsTrue H.tells → Touches (H.world host.old) (H.world host.new) (Only self.old.name) }
        ensures same { self.new ≡ record self.old { written = self.new.written; run = self.new.run } }
        ensures most { self.new.written ≤ self.old.written + 1 }
        ensures log { IsSilent (H.world host.old) (H.world host.new) }
        ensures cause { CountsFault result (H.faults host.old) (H.faults host.new) }
    {
        if read_head(page).scn <= self.head.previous_scn {
            return Ok(());
        }
        self.gather(host, number, page)
    }

    /// Appends the last run, where one waits.
    fn finish<H: Host>(&mut self, host: &mut H) -> Result<(), HostFault>
        ensures left { IsTrue H.tells → (rs : List Numbered) → HasTaken (H.world host.old) self.old rs → MayHave self.old.head rs
            → Changes (H.world host.old) (H.world host.new) (Only self.old.name) (Remade (H.world host.old) self.old.name IsUnfinished) }
        ensures reads { IsTrue H.tells → (rs : List Numbered) → HasTaken (H.world host.old) self.old rs → MayHave self.old.head rs → IsUnfinished ((H.world host.new).files self.old.name) }
        ensures finished { IsTrue H.tells → (rs : List Numbered) → HasTaken (H.world host.old) self.old rs → MayHave self.old.head rs → OnOk result (Reads (H.world host.new) self.old.name (level_front self.old.head (runs_of rs))) }
        ensures touches { IsTrue H.tells → Touches (H.world host.old) (H.world host.new) (Only self.old.name) }
        ensures same { self.new ≡ record self.old { run = self.new.run } }
        ensures log { IsSilent (H.world host.old) (H.world host.new) }
        ensures cause { CountsFault result (H.faults host.old) (H.faults host.new) }
    {
        if self.run.is_empty() {
            return Ok(());
        }
        self.run.append(host, &self.name)
    }

    /// Appends the last run, keeps the pages for good, and then the end. The file is whole then, and no page is taken any more.
    pub fn close<H: Host>(&mut self, host: &mut H) -> Result<(), HostFault>
        ensures left { IsTrue H.tells → (rs : List Numbered) → HasTaken (H.world host.old) self.old rs → MayHave self.old.head rs
            → Changes (H.world host.old) (H.world host.new) (Only self.old.name) (Remade (H.world host.old) self.old.name (IsUnfinishedOr (level_bytes 102 (head_of self.old.head) rs))) }
        ensures reads { IsTrue H.tells → (rs : List Numbered) → HasTaken (H.world host.old) self.old rs → MayHave self.old.head rs → IsUnfinishedOr (level_bytes 102 (head_of self.old.head) rs) ((H.world host.new).files self.old.name) }
        ensures done { IsTrue H.tells → (rs : List Numbered) → HasTaken (H.world host.old) self.old rs → MayHave self.old.head rs → OnOk result (IsKept (H.world host.new) self.old.name (level_bytes 102 (head_of self.old.head) rs)) }
        ensures touches { IsTrue H.tells → Touches (H.world host.old) (H.world host.new) (Only self.old.name) }
        ensures same { self.new ≡ record self.old { run = self.new.run } }
        ensures log { IsSilent (H.world host.old) (H.world host.new) }
        ensures cause { CountsFault result (H.faults host.old) (H.faults host.new) }
    {
        self.finish(host)?;
        host.sync(&self.name)?;
        write_end(host, &self.name, self.written)?;
        host.sync(&self.name)
    }
}

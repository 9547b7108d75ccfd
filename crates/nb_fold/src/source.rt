ghost use Rattle.std.specs.Prelude.{◌≡◌, ◌+◌, ◌<◌, ◌≤◌, length, IfSome, ℕ, List, Some, Ok, IsTrue, OnOk, ◌-◌};
ghost use Rattle.nb_host.specs.Answers.{IsGiven, IsTaken};
ghost use Rattle.nb_host.specs.Causes.{CountsDevice};
ghost use Rattle.nb_host.specs.Files.{bytes_of};
ghost use Rattle.nb_level.specs.Reading.{still_to_come};
ghost use Rattle.nb_fields.specs.Places.{is_page_size, most_pages};
ghost use Rattle.nb_model.specs.Image.{Numbered};
ghost use Rattle.nb_model.specs.Levels.{Contents, read_level};
ghost use Rattle.nb_page.specs.Quiet.{Quiet};
ghost use Rattle.nb_fold.specs.Sources.{IsOpened, Waits, count_at, due_by, rest_after};

use nb_host::{Fault, Host, Name};
use nb_level::{Item, LevelHead, LevelReader};
use std::alloc::Global;
use std::marker::Model;

/// A level file that is folded with others: it is read from front to back, one page at a time, and its next page waits.
#[derive(Drop)]
pub(crate) struct Source {
    reader: LevelReader,
    /// The number of the page that waits, and none at the file's end.
    waiting: Option<u32>,
    page: Vec<u8>,
}

impl Model for Source {
    ghost use Rattle.std.specs.Prelude.{length};
    ghost use Rattle.nb_fold.specs.Sources.{Held, IsSource};

    ghost Value = { Held };

    ghost view = { λ s. record { reader = s.reader; waiting = s.waiting; page = s.page.items } };

    ghost invariant = { λ s. IsSource s.reader s.waiting (length s.page.items) };
}

impl Source {
    /// Begins to read a level file, whose first page waits then. It takes the memory for two pages.
    pub(crate) fn start<H: Host>(alloc: Global, host: &mut H, name: &Name) -> Result<Source, Fault>
        ensures opened { IsTrue H.tells → (bytes : List ℕ) (c : Contents) → (H.world host.old).files name.now ≡ Some bytes → read_level bytes ≡ Ok c → IsGiven result (λ source. IsOpened (H.world host.old).files name.now source c) }
        ensures quiet { Quiet (H.world host.old) (H.world host.new) }
        ensures reads { IsTrue H.tells → (H.world host.new).reads ≤ (H.world host.old).reads + 2 }
        ensures cause { CountsDevice result (H.faults host.old) (H.faults host.new) }
    {
        let reader = LevelReader::start(alloc, host, name)?;
        let page = vec![in alloc; 0; reader.head().page_size as usize]?;
        let mut source = Source {
            reader,
            waiting: None,
            page,
        };
        source.advance(host)?;
        Ok(source)
    }

    /// The head of the file.
    pub(crate) fn head(&self) -> LevelHead
        ensures value { result ≡ self.now.reader.head }
        ensures size { IsTrue (is_page_size result.page_size) }
    {
        self.reader.head()
    }

    /// The number of the page that waits.
    pub(crate) fn waiting(&self) -> Option<u32>
        ensures value { result ≡ self.now.waiting }
        ensures below { IfSome result (λ number. number < most_pages) }
    {
        self.waiting
    }

    /// The page that waits.
    pub(crate) fn page(&self) -> &[u8]
        ensures value { result.now ≡ self.now.page }
        ensures size { length result.now ≡ self.now.reader.head.page_size }
    {
        &self.page
    }

    /// Reads on to the next page.
    fn advance<H: Host>(&mut self, host: &mut H) -> Result<(), Fault>
        ensures waits { IsTrue H.tells → (rs : List Numbered) → still_to_come (bytes_of ((H.world host.old).files self.old.reader.name)) self.old.reader ≡ Ok rs
            → IsTaken result (λ done. Waits (H.world host.old).files self.new rs) }
        ensures same { self.new ≡ record { reader = record self.old.reader { place = self.new.reader.place }; waiting = self.new.waiting; page = self.new.page } }
        ensures falls { OnOk result (due_by self.new.waiting ≤ most_pages - self.old.reader.place.least) }
        ensures quiet { Quiet (H.world host.old) (H.world host.new) }
        ensures once { IsTrue H.tells → (H.world host.new).reads ≤ (H.world host.old).reads + 1 }
        ensures cause { CountsDevice result (H.faults host.old) (H.faults host.new) }
    {
        self.waiting = None;
        if let Item::PageAt(number) = self.reader.next(host, &mut self.page)? {
            self.waiting = Some(number);
        }
        Ok(())
    }

    /// Reads on, where the page of that number waits.
    pub(crate) fn pass<H: Host>(&mut self, host: &mut H, number: u32) -> Result<(), Fault>
        ensures waits { IsTrue H.tells → (rs : List Numbered) → Waits (H.world host.old).files self.old rs → IsTaken result (λ done. Waits (H.world host.old).files self.new (rest_after number rs)) }
        ensures same { self.new ≡ record { reader = record self.old.reader { place = self.new.reader.place }; waiting = self.new.waiting; page = self.new.page } }
        ensures falls { OnOk result (due_by self.new.waiting + count_at number self.old.waiting ≤ due_by self.old.waiting) }
        ensures quiet { Quiet (H.world host.old) (H.world host.new) }
        ensures reads { IsTrue H.tells → (H.world host.new).reads ≤ (H.world host.old).reads + count_at number self.old.waiting }
        ensures cause { CountsDevice result (H.faults host.old) (H.faults host.new) }
    {
        if self.waiting == Some(number) {
            return self.advance(host);
        }
        Ok(())
    }
}

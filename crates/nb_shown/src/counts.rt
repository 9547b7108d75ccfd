// How many pages there are of each kind.
ghost use Rattle.std.specs.Prelude.{◌≡◌, ◌+◌, ◌<◌, ℕ, true, false};
ghost use Rattle.nb_fields.specs.Places.{most_pages};
ghost use Rattle.nb_model.specs.Image.{Image};
ghost use Rattle.nb_shown.specs.Counts.{counts_below, sum_of, with_page};

use nb_fields::PageKind;

/// How many pages of a database are taken, by their kinds, and how many are free.
#[derive(Clone, Copy, Debug, PartialEq, Eq)]
pub struct PageCounts {
    pub header: u32,
    pub inventory: u32,
    pub scn: u32,
    pub data_pages: u32,
    pub raw: u32,
    /// Those of any other kind.
    pub other: u32,
    pub free: u32,
}

impl PageCounts {
    /// No page is counted yet.
    pub(crate) fn none() -> PageCounts
        ensures none { (image : Image) → result ≡ counts_below image 0 }
        ensures sum { sum_of result ≡ 0 }
    {
        PageCounts {
            header: 0,
            inventory: 0,
            scn: 0,
            data_pages: 0,
            raw: 0,
            other: 0,
            free: 0,
        }
    }

    /// Counts a free page.
    pub(crate) fn add_free(&mut self)
        requires room { sum_of self.old < most_pages }
        ensures counts { (kind : ℕ) → self.new ≡ with_page true kind self.old }
        ensures sum { sum_of self.new ≡ sum_of self.old + 1 }
    {
        self.free += 1;
    }

    /// Counts a taken page of that kind.
    pub(crate) fn add_taken(&mut self, kind: u8)
        requires room { sum_of self.old < most_pages }
        ensures counts { self.new ≡ with_page false kind self.old }
        ensures sum { sum_of self.new ≡ sum_of self.old + 1 }
    {
        if kind == PageKind::Header.code() {
            self.header += 1;
        } else if kind == PageKind::Inventory.code() {
            self.inventory += 1;
        } else if kind == PageKind::ScnInventory.code() {
            self.scn += 1;
        } else if kind == PageKind::Data.code() {
            self.data_pages += 1;
        } else if kind == PageKind::Raw.code() {
            self.raw += 1;
        } else {
            self.other += 1;
        }
    }
}

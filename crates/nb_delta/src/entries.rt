ghost use Rattle.std.specs.Prelude.{◌≡◌, ◌<◌, ◌≤◌, [], ◌∷◌, ◌++◌, length, None, IfSome, OnOk, OnErr, slice_index};
ghost use Rattle.nb_fields.specs.Places.{most_pages};
ghost use Rattle.nb_delta.specs.Entries.{place_of, AreEntries};

use std::alloc::{AllocError, Global};
use std::collections::BTreeMap;
use std::marker::Model;

/// The numbers of the pages that a difference file holds, in the order of their slots, with an index.
#[derive(Drop)]
pub struct Entries {
    pages: Vec<u32>,
    places: BTreeMap<u32, u32>,
}

impl Model for Entries {
    ghost use Rattle.std.specs.Prelude.{ℕ, List};
    ghost use Rattle.nb_delta.specs.Entries.{AreEntries, IsIndex};

    ghost Value = { List ℕ };

    ghost view = { λ e. e.pages.items };

    ghost invariant = { λ e. AreEntries e.pages.items × IsIndex e.pages.items e.places };
}

impl Entries {
    /// No entry.
    pub fn new(alloc: Global) -> Entries
        ensures { result ≡ [] }
    {
        Entries {
            pages: Vec::new(alloc),
            places: BTreeMap::new(alloc),
        }
    }

    /// How many entries there are.
    pub fn len(&self) -> u32
        ensures value { result ≡ length self.now }
        ensures most { result ≤ most_pages }
        ensures apart { AreEntries self.now }
    {
        self.pages.len() as u32
    }

    /// The page that entry `place` names.
    pub fn page_at(&self, place: u32) -> u32
        requires { place < length self.now }
        ensures value { result ≡ slice_index self.now place }
        ensures below { result < most_pages }
        ensures apart { AreEntries self.now }
    {
        self.pages[place as usize]
    }

    /// The place of the entry that names a page.
    pub fn place_of(&self, page: u32) -> Option<u32>
        ensures value { result ≡ place_of self.now page }
        ensures inside { IfSome result (λ place. place < length self.now) }
        ensures few { length self.now ≤ most_pages }
    {
        self.places.get(&page).copied()
    }

    /// Adds an entry at the end. Where it fails, nothing has changed.
    pub fn add(&mut self, page: u32) -> Result<(), AllocError>
        requires fresh { place_of self.old page ≡ None }
        requires below { page < most_pages }
        ensures room { length self.old < most_pages }
        ensures ok { OnOk result (self.new ≡ self.old ++ page ∷ []) }
        ensures err { OnErr result (self.new ≡ self.old) }
    {
        let place = self.pages.len() as u32;
        self.pages.push(page)?;
        if self.places.insert(page, place).is_err() {
            self.pages.pop();
            return Err(AllocError);
        }
        Ok(())
    }

    /// Forgets all entries.
    pub fn clear(&mut self)
        ensures { self.new ≡ [] }
    {
        self.pages.clear();
        self.places.clear();
    }
}

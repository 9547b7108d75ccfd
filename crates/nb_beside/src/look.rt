// A look at files beside the run, for what is said of them: it takes no lock, changes nothing, and says nothing of what fails.
use crate::reading::{Found, ReadOnly};
use nb_advice::{Cut, History, Origin, There, is_level_of};
use nb_fields::MOST_PAGES;
use nb_page::{Header, read_header};
use std::alloc::{AllocError, Global};

/// The page at which the history of a database begins.
const HISTORY: u32 = 4;

/// A regular file that is looked at.
#[derive(Drop)]
pub struct Look<'a, V: ReadOnly> {
    files: &'a V,
    file: V::Opened,
    pub found: Found,
}

/// Opens the file of that name to look at it, if there is one that can be read.
pub fn look_at<'a, V: ReadOnly>(files: &'a V, name: &str) -> Option<Look<'a, V>> {
    let found = files.find(name)?;
    let file = files.open(name)?;
    Some(Look { files, file, found })
}

/// Where a page begins, in bytes.
fn place_of(number: u64, size: u32) -> u64 {
    number.saturating_mul(u64::from(size))
}

impl<'a, V: ReadOnly> Look<'a, V> {
    /// Fills `into` from that place on. Where the file ends before, it answers false.
    fn read(&self, at: u64, into: &mut [u8]) -> bool {
        self.files.read(&self.file, at, into)
    }

    /// The first 64 bytes, with zeros after the end of the file.
    fn first(&self) -> Option<[u8; 64]> {
        let mut first = [0; 64];
        let count = self.found.length.min(64) as usize;
        if self.read(0, &mut first[..count]) {
            Some(first)
        } else {
            None
        }
    }

    /// The last 8 bytes, and zeros where there are fewer.
    fn last(&self) -> Option<[u8; 8]> {
        let mut last = [0; 8];
        match self.found.length.checked_sub(8) {
            Some(at) if !self.read(at, &mut last) => None,
            _ => Some(last),
        }
    }

    /// What file it is.
    pub fn there(&self) -> There {
        match (self.first(), self.last()) {
            (Some(first), Some(last)) => There::of(&first, self.found.length, &last),
            _ => There::Unknown,
        }
    }

    /// Whether it is the level file that a database with this header is of.
    pub fn is_level_of(&self, header: &Header) -> bool {
        match self.first() {
            Some(first) => is_level_of(&first, header),
            None => false,
        }
    }

    /// Which backup it goes on from, where it is a level file.
    pub fn origin(&self) -> Option<Origin> {
        Origin::of(&self.first()?)
    }

    /// The header of a database.
    pub fn header(&self) -> Option<Header> {
        read_header(&self.first()?)
    }

    /// All its bytes, where it has so many at most and they can be read.
    pub fn all(&self, alloc: Global, most: u64) -> Result<Option<Vec<u8>>, AllocError> {
        if self.found.length > most {
            return Ok(None);
        }
        let mut bytes = vec![in alloc; 0; self.found.length as usize]?;
        if self.read(0, &mut bytes) {
            Ok(Some(bytes))
        } else {
            Ok(None)
        }
    }

    /// The same, and none where there is no memory for them.
    pub fn bytes(&self, alloc: Global, most: u64) -> Option<Vec<u8>> {
        self.all(alloc, most).ok()?
    }

    /// What the history of a database in the normal state tells: which levels it has, and of the backup of that GUID all that it knows.
    pub fn history(&self, alloc: Global, wanted: [u8; 16]) -> Option<History> {
        let size = self.header()?.page_size;
        let mut page = vec![in alloc; 0; size as usize].ok()?;
        let mut history = History::of(wanted);
        let mut number = HISTORY;
        for _ in 0..MOST_PAGES {
            if !self.read(place_of(u64::from(number), size), &mut page) {
                return None;
            }
            number = history.add_page(&page)?;
            if number == 0 {
                return Some(history);
            }
        }
        None
    }

    /// Where whole pages of a database end before a page that their inventory has taken, as a copy does that was cut off. It reads one
    /// inventory page: the one that counts what follows the last page.
    pub fn cut(&self, alloc: Global) -> Option<Cut> {
        let size = self.header()?.page_size;
        let pages = self.found.length.checked_div(u64::from(size))?;
        let inventory = Cut::inventory(size, pages);
        let mut page = vec![in alloc; 0; size as usize].ok()?;
        if self.read(place_of(inventory, size), &mut page) {
            Cut::of(&page, pages)
        } else {
            None
        }
    }
}

// What the history of a database tells of its backups.
use crate::levels::Levels;
use nb_host::Name;

/// The bytes of a data page before its slots, and of a slot.
const HEAD: usize = 32;

const SLOT: usize = 256;

/// A backup, as its row in the history says.
#[derive(Drop)]
pub struct Row {
    /// 0 to 9.
    pub level: u8,
    /// The file that it was made into, as it was named then.
    pub name: Option<Name>,
}

impl Row {
    /// The row of a slot that is used.
    fn of(slot: &[u8]) -> Row {
        let length = usize::from(slot.get(2).copied().unwrap_or(0));
        let name = slot.get(32..).and_then(|rest| rest.get(..length));
        Row {
            level: slot.get(1).copied().unwrap_or(0),
            name: name.and_then(Name::read_bytes),
        }
    }
}

/// The levels that a history has, and of one backup its row.
#[derive(Drop)]
pub struct History {
    pub levels: Levels,
    wanted: [u8; 16],
    /// The row of the backup that is wanted, once it was seen.
    pub found: Option<Row>,
}

impl History {
    /// Nothing was seen yet, and the backup of that GUID is wanted.
    pub fn of(wanted: [u8; 16]) -> History {
        History {
            levels: Levels::none(),
            wanted,
            found: None,
        }
    }

    /// Whether a slot is a row with the GUID that is wanted.
    fn is_wanted(&self, slot: &[u8]) -> bool {
        match (slot.first(), slot.get(16..32)) {
            (Some(1), Some(guid)) => guid == self.wanted.as_slice(),
            _ => false,
        }
    }

    /// Adds what a page of the history tells, and answers which page comes next, 0 for none. None where it is no such page.
    pub fn add_page(&mut self, page: &[u8]) -> Option<u32> {
        let next = self.levels.add_page(page)?;
        let (_, slots) = page.split_at_checked(HEAD)?;
        for slot in slots.chunks_exact(SLOT) {
            if self.is_wanted(slot) {
                self.found = Some(Row::of(slot));
            }
        }
        Some(next)
    }
}

// Which levels of backups a history has.
use std::alloc::{AllocError, Global};

/// The bytes of a data page before its slots, of a slot, the type of such a page, and its owner where it is the history's.
const HEAD: usize = 32;

const SLOT: usize = 256;

const DATA: u8 = 5;

const OF_HISTORY: u8 = 1;

/// Of each level, 0 to 9, whether the history of a database has a backup of it.
#[derive(Clone, Copy, Debug, PartialEq, Eq)]
pub struct Levels {
    has: [bool; 10],
}

impl Levels {
    /// No backup at all.
    pub fn none() -> Levels {
        Levels { has: [false; 10] }
    }

    /// A backup of that level more. One above 9 is none.
    pub fn add(&mut self, level: u8) {
        if let Some(has) = self.has.get_mut(usize::from(level)) {
            *has = true;
        }
    }

    /// Adds the backups that a page of the history has, and answers which page comes next, 0 for none. None where it is no such page.
    pub fn add_page(&mut self, page: &[u8]) -> Option<u32> {
        let (head, slots) = page.split_at_checked(HEAD)?;
        if head[0] != DATA || head[20] != OF_HISTORY {
            return None;
        }
        for slot in slots.chunks_exact(SLOT) {
            if slot[0] == 1 {
                self.add(slot[1]);
            }
        }
        Some(u32::from_le_bytes([head[16], head[17], head[18], head[19]]))
    }

    /// The lowest level that no backup is of, the next one to make.
    pub fn lowest_missing(&self) -> usize {
        self.has.iter().take_while(|has| **has).count()
    }

    /// `of the levels 0 and 2`, and none where there is no backup.
    pub fn text(&self, alloc: Global) -> Result<Option<String>, AllocError> {
        let count = self.has.iter().filter(|has| **has).count();
        let mut text = String::from_str(
            alloc,
            if count == 1 {
                "of the level"
            } else {
                "of the levels"
            },
        )?;
        let mut left = count;
        for level in 0..10 {
            if self.has[level] {
                let before = if left == count {
                    " "
                } else if left == 1 {
                    " and "
                } else {
                    ", "
                };
                text.push_str(before)?;
                text.push(char::from(b'0' + level as u8))?;
                left = left.saturating_sub(1);
            }
        }
        Ok(if count == 0 { None } else { Some(text) })
    }
}
